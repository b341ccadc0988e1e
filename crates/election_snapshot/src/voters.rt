//! The voters of a snapshot, as lists that grow.
ghost use Rattle.std.specs.Prelude.{◌≡◌, ◌+◌, ◌^◌, ◌<◌, ◌≤◌, [], length, OnOk};
ghost use Rattle.npos_base.specs.declared.limits.TheConstants.{MOST_NOMINATIONS, MOST_VOTERS};
ghost use Rattle.election_snapshot.specs.Kept.{HasRoom, AreSame, HaveOneMore};

use crate::ballots::Ballots;
use npos_base::{AccountId, NoMemory};
use std::alloc::Global;

/// The accounts, stakes and votes of voters in three lists of one length, and the sum of the
/// stakes.
#[derive(Drop)]
pub(crate) struct KeptVoters {
    pub(crate) accounts: Vec<AccountId>,
    pub(crate) stakes: Vec<u64>,
    pub(crate) ballots: Ballots,
    pub(crate) total: u64,
}

impl KeptVoters {
    /// No voter. It takes no memory yet.
    pub(crate) fn new(alloc: Global) -> KeptVoters
        ensures accounts { result.accounts.items ≡ [] }
        ensures stakes { result.stakes.items ≡ [] }
        ensures votes { result.ballots.items ≡ [] }
        ensures total { result.total ≡ 0 }
    {
        KeptVoters {
            accounts: Vec::new(alloc),
            stakes: Vec::new(alloc),
            ballots: Ballots::new(alloc),
            total: 0,
        }
    }

    /// Takes room for so many voters more in each list.
    pub(crate) fn reserve(&mut self, voters: usize) -> Result<(), NoMemory>
        ensures room { OnOk result (HasRoom self.new voters) }
        ensures same { AreSame self.old self.new }
    {
        self.accounts.reserve(voters)?;
        self.stakes.reserve(voters)?;
        self.ballots.reserve(voters)?;
        Ok(())
    }

    /// Appends a voter to lists with room.
    pub(crate) fn push_within(&mut self, who: AccountId, stake: u64, votes: &[u16])
        requires room { HasRoom self.old 1 }
        requires few { length votes.now ≤ MOST_NOMINATIONS }
        requires voters { length self.old.ballots.items < MOST_VOTERS }
        requires fits { self.old.total + stake < 2 ^ 64 }
        ensures { HaveOneMore self.old self.new who stake votes.now }
    {
        self.accounts.push_reserved(who);
        self.stakes.push_reserved(stake);
        self.ballots.push_within(votes);
        self.total += stake;
    }
}
