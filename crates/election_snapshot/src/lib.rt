//! The instance of one election: targets, voters and seats, built once and well formed from then
//! on.
#![tactic(auto)]

mod ballots;
mod builder;
mod fault;
mod parts;
mod snapshot;
mod voters;

pub use builder::SnapshotBuilder;
pub use fault::SnapshotFault;
pub use parts::SnapshotParts;
pub use snapshot::Snapshot;
