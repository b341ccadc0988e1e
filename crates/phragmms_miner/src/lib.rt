//! The rule of Cevallos and Stewart as a miner: the target with the greatest score joins, then the
//! supports are balanced, seat after seat.
#![tactic(auto)]

mod course;
mod few;
pub mod laws;
mod miner;
mod pass;
mod search;
mod some;

pub use miner::mine_mms;

#[cfg(test)]
mod tests;
