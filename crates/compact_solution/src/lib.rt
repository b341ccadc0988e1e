//! The compact form in which solvers hand in a solution of an election: bytes in, groups of entries
//! out, and back. There is a plain form of 16 groups and a wide one of 24.
#![tactic(auto)]

mod choosing;
mod entry;
pub mod laws;
mod listing;
mod packing;
mod reading;
mod solution;
mod writing;

pub use entry::{Entry, PLAIN_GROUPS, Share, WHOLE_STAKE, WIDE_GROUPS};
pub use packing::{PackFault, pack};
pub use solution::Solution;
