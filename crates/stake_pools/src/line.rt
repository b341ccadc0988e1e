//! The lines that an item tells.

use npos_base::AccountId;

/// One line that an item tells. The program prints it; here it is data.
#[derive(Clone, Copy, Debug, PartialEq, Eq)]
pub enum PoolLine {
    /// The item was accepted.
    Accepted,
    /// The item was refused, for the reason of this number.
    Refused(u32),
    /// So much was paid to the member, from what is active or from the pot.
    Paid { who: AccountId, amount: u64 },
    /// So much of the pool was burned.
    Slashed { who: AccountId, amount: u64 },
}

/// What an item tells: whether it was accepted, and then the line that tells more of it, if there is
/// one.
#[derive(Clone, Copy, Debug, PartialEq, Eq)]
pub struct PoolLines {
    pub first: PoolLine,
    pub more: Option<PoolLine>,
}
