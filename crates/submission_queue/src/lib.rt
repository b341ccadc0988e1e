//! The queue of signed submissions, as Substrate's multi-phase elections keep it: the best claims
//! of a round, as many as there are places, in the order in which they will be judged. What follows
//! for all offers together stands in `laws`.
#![tactic(auto)]

pub mod laws;
mod queue;
mod submission;

pub use queue::Queue;
pub use submission::{NotBetter, Submission};
