//! Worked elections of two seats, and the weights that a miner makes of them.
use election_snapshot::{Snapshot, SnapshotBuilder};
use npos_base::{AccountId, NoMemory};
use std::alloc::Global;
use weight_book::Weights;

/// A voter's stake and votes.
pub(crate) type Voter = (u64, &'static [u16]);

/// An election of two seats, and its weights: members, and edges as voter, target and amount.
pub(crate) struct Case {
    pub(crate) targets: u16,
    pub(crate) voters: &'static [Voter],
    pub(crate) members: &'static [u16],
    pub(crate) edges: &'static [(u32, u16, u64)],
}

impl Case {
    /// The election.
    pub(crate) fn snapshot(&self, alloc: Global) -> Result<Snapshot, NoMemory> {
        let mut builder = SnapshotBuilder::new(alloc);
        for target in 0..self.targets {
            let account = AccountId {
                hi: 0,
                lo: u128::from(target),
            };
            builder.add_target(account).map_err(|_| NoMemory)?;
        }
        for (place, voter) in self.voters.iter().enumerate() {
            let account = AccountId {
                hi: 1,
                lo: place as u128,
            };
            builder
                .add_voter(account, voter.0, voter.1)
                .map_err(|_| NoMemory)?;
        }
        match builder.finish(2) {
            Ok(snapshot) => Ok(snapshot),
            Err(_) => Err(NoMemory),
        }
    }

    /// Whether these are its weights.
    pub(crate) fn is_met(&self, weights: &Weights) -> bool {
        let edges = weights.edges();
        weights.committee() == self.members
            && edges.len() == self.edges.len()
            && edges.iter().zip(self.edges).all(|(edge, worked)| (
                edge.voter,
                edge.target,
                edge.amount,
            ) == *worked)
    }
}
