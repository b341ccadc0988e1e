//! Whether a committee denies somebody a seat: the exact answer to PJR+, the proportionality of Brill
//! and Peters (2023), with stakes. `find_denied` tells the lowest target that is denied, and by which
//! group.
#![tactic(auto)]

mod committee;
mod denied;
mod finding;
pub mod laws;
mod laying;
mod lists;
mod moving;
mod offers;
mod reach;
mod telling;

pub use denied::Denied;
pub use finding::find_denied;
