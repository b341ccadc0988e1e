//! Who nominates each target.
ghost use Rattle.std.specs.Prelude.{IfOk};
ghost use Rattle.quota_fill.specs.Backers.{AreBackers};

use crate::chains::Chains;
use election_snapshot::Snapshot;
use npos_base::NoMemory;
use seat_race::Nominators;
use std::alloc::Global;

/// Few of the targets are picked where there are at least so many for each seat.
const TARGETS_PER_SEAT: usize = 8;

/// By target, its nominators in rising order. Links take less time to make than lists and more to
/// follow. So nominators are linked where few of the targets are picked, and else listed.
#[derive(Drop)]
pub(crate) enum Backers {
    Linked(Chains),
    Listed(Nominators),
}

impl Backers {
    /// The nominators of all targets.
    pub(crate) fn new(alloc: Global, snapshot: &Snapshot) -> Result<Backers, NoMemory>
        ensures { IfOk result (AreBackers snapshot.now) }
    {
        if snapshot.target_count() / TARGETS_PER_SEAT >= snapshot.seats() as usize {
            Ok(Backers::Linked(Chains::new(alloc, snapshot)?))
        } else {
            Ok(Backers::Listed(Nominators::new(alloc, snapshot)?))
        }
    }
}
