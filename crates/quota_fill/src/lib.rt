//! The fill of an election: a greedy committee for where nobody hands in a solution. It always
//! passes the check, so the election has no dead end; `laws` says so.
#![tactic(auto)]

mod backers;
mod chains;
mod drawing;
mod filling;
pub mod laws;
mod race;

pub use filling::fill;
