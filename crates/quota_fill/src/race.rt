//! What a fill keeps by voter and by target.
ghost use Rattle.std.specs.Prelude.{[], IfOk};
ghost use Rattle.quota_fill.specs.Kept.{IsAfter};

use crate::backers::Backers;
use election_snapshot::Snapshot;
use npos_base::NoMemory;
use seat_race::fill_sums;
use std::alloc::Global;

/// The state of a fill. What the voters have left and what the targets' nominators have left are
/// lowered together, so that no sum is made anew.
#[derive(Drop)]
pub(crate) struct Race {
    /// By voter, what it has left.
    pub(crate) left: Vec<u64>,
    /// By target, what its nominators have left.
    pub(crate) backings: Vec<u64>,
    /// By target, whether it was picked.
    pub(crate) is_picked: Vec<bool>,
    /// By target, its nominators in rising order.
    pub(crate) backers: Backers,
}

impl Race {
    /// The state before the first pick.
    pub(crate) fn new(alloc: Global, snapshot: &Snapshot) -> Result<Race, NoMemory>
        ensures { IfOk result (IsAfter snapshot.now []) }
    {
        let targets = snapshot.target_count();
        let mut left = vec![in alloc; 0; snapshot.voter_count()]?;
        left.copy_from_slice(snapshot.stakes());
        let mut backings = vec![in alloc; 0; targets]?;
        fill_sums(snapshot, &left, &mut backings);
        let is_picked = vec![in alloc; false; targets]?;
        let backers = Backers::new(alloc, snapshot)?;
        Ok(Race {
            left,
            backings,
            is_picked,
            backers,
        })
    }
}
