//! Balancing the supports of a committee: each voter's stake is handed out anew over the members
//! that it nominates, round after round, after Cevallos and Stewart. What follows stands in `laws`.
#![tactic(auto)]

mod backing;
mod balancing;
pub mod laws;
mod laying;
mod rounds;
mod spans;
mod turn;

pub use backing::Backing;
pub use balancing::balance;
