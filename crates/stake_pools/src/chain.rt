//! The state of a pool.
ghost use Rattle.std.specs.Prelude.{◌≡◌};
ghost use Rattle.stake_pools.specs.Chain.{active_of};

use crate::members::Members;
use npos_base::AccountId;
use stake_ledger::Book;

/// The state of a pool, between two items. Contracts see it as the record of what its parts stand
/// for.
#[derive(Drop)]
pub struct PoolChain {
    /// The pool's own account, with which it bonds, and its root.
    pub account: AccountId,
    /// For how many eras points are on their way out.
    pub bonding: u32,
    pub book: Book,
    pub era: u32,
    pub members: Members,
}

impl PoolChain {
    /// What the pool has active.
    pub fn active(&self) -> u64
        ensures { result ≡ active_of self.now }
    {
        self.book.active(self.account)
    }
}
