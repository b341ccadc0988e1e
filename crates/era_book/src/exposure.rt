//! What stands behind a validator.
use npos_base::{AccountId, List};

/// An account with an amount, in units of stake: what it backs a validator with, what it is paid,
/// or what is due from it.
#[derive(Clone, Copy, Debug, PartialEq, Eq)]
pub struct Backer {
    pub who: AccountId,
    pub amount: u64,
}

/// What stands behind a validator in an era: its commission in billionths, its support in units of
/// stake, and who gives it. The validator's own part stands first where it is above 0, then the
/// others in the order of the voters that elected it.
#[derive(Debug, Drop)]
pub struct Exposure {
    pub validator: AccountId,
    pub commission: u32,
    pub support: u64,
    pub backers: List<Backer>,
}
