//! What becomes of the submissions of a round and of their deposits, and who is elected.
#![tactic(auto)]

mod decision;
mod deposits;

pub use decision::{decide, tell_members};
pub use deposits::{hold, return_deposit};
