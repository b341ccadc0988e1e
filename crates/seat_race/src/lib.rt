//! What those walk over who fill seats or judge who fills them: the votes, by target and by voter,
//! and the edges by voter; and a division whose outcome they mostly know. What is done with it is
//! their own.
#![tactic(auto)]

mod edges;
mod guessed;
mod nominators;
mod votes;

pub use edges::put_by_voter;
pub use guessed::quotient;
pub use nominators::Nominators;
pub use votes::{fill_sums, lower_at, raise_at, raise_wide_at};
