//! The proved checker and miners for programs in C and Rust: functions on numbers and bytes.
#![tactic(auto)]

mod asked;
mod buffers;
mod checking;
mod demo;
mod finding;
mod judging;
pub mod laws;
mod mined;
mod mining;
mod numbers;
mod reporting;

pub use finding::NposFinding;
pub use judging::NposDenied;
pub use mined::NposMined;
