//! What miners submit.
use npos_base::{AccountId, List, Score};

/// A signed submission: a solution in its packed bytes, the score that its miner claims for it, and
/// the deposit, in units of stake, that the miner stands to lose.
#[derive(Debug, Drop)]
pub struct Submission {
    pub number: u64,
    pub who: AccountId,
    pub deposit: u64,
    pub score: Score,
    pub bytes: List<u8>,
}

/// The refusal of an offer: the queue is full, and the claim is not better than the worst one that
/// waits.
#[derive(Clone, Copy, Debug, PartialEq, Eq)]
pub struct NotBetter {
    pub worst: Score,
}
