//! Checkpoints: the state of a chain between two blocks, as bytes. A state has one spelling.
#![tactic(auto)]

mod book;
mod elections;
mod eras;
pub mod laws;
mod limits;
mod roles;
mod state;

pub use state::{StateLayout, read_state, write_state};
