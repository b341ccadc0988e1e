//! Weights of an election: a committee, and how much of its stake each voter gives to which member.
//! What follows for weights that pass the check stands in `laws`.
#![tactic(auto)]

pub mod laws;
mod weights;

pub use weights::{Weights, count_votes};
