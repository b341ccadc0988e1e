//! Where accounts stand: each account that comes has the next place, and is found by it whatever
//! the accounts are.
#![tactic(auto)]

mod index;
mod places;
mod second;

pub use places::Places;
