//! The words of a call of npos: the command that they ask for.
#![tactic(auto)]

mod command;
pub mod laws;
mod numbers;
mod options;
mod words;

pub use command::Command;
pub use words::command_of;
