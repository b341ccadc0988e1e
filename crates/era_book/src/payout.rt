//! What a claim pays.
use crate::Backer;
use npos_base::List;

/// What is paid for one validator and one era: a line for each account that gets something, in
/// units of stake, and what the lines are together.
#[derive(Debug, Drop)]
pub struct Payout {
    pub lines: List<Backer>,
    pub total: u64,
}
