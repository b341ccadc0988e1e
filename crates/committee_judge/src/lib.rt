//! Whether the committee of a bundle's work denies somebody a seat: found, and told.
#![tactic(auto)]

mod answering;
mod judging;
mod seating;
mod telling;

pub use answering::judge_bytes;
pub use judging::{Judged, Judging, judge_election};
pub use telling::excess;
