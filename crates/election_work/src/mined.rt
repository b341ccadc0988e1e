//! What a miner makes of an election.

use crate::finding::Finding;
use election_check::Verdict;
use election_snapshot::Snapshot;
use npos_base::{List, Score};
use weight_book::Weights;

/// A committee that was mined, with the snapshot of its election: its members rise. Where its
/// weights are packed there are the bytes of their solution; the weights are then those that it
/// expands to, and the verdict is on the bytes.
#[derive(Drop)]
pub struct Mined {
    pub snapshot: Snapshot,
    pub weights: Weights,
    pub score: Score,
    pub solution: Option<List<u8>>,
    pub verdict: Verdict,
}

/// What a miner makes of an election, or what is found in its place.
#[derive(Drop)]
pub enum Mining {
    Done(Mined),
    Refused(Finding),
}
