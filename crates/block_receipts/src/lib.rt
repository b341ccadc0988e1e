//! What a block tells of itself: the lines of its receipt, why a call of it is refused, and where a
//! call stops.
#![tactic(auto)]

mod line;
mod refusal;
mod stop;

pub use line::Line;
pub use refusal::Refusal;
pub use stop::{Stop, Stops};
