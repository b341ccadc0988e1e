//! The election in the bytes of a bundle, judged and mined: values, and no texts.
#![tactic(auto)]

mod asked;
mod bundle_parts;
mod checking;
mod election;
mod finding;
mod growing;
mod judging;
pub mod laws;
mod mined;
mod mining;
mod reading;

pub use asked::Task;
pub use checking::check_election;
pub use finding::Finding;
pub use mined::{Mined, Mining};
pub use mining::{mine_election, mine_snapshot};
pub use reading::{Election, MOST_BUNDLE, NoElection, Reading, read_election};
