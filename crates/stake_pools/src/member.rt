//! What one member has in a pool.
ghost use Rattle.std.specs.Prelude.{◌≡◌, ◌^◌, ◌<◌, IfOk, option_map};
ghost use Rattle.npos_base.specs.Refusal.{Meets, MeetsAlways};
ghost use Rattle.stake_pools.specs.declared.stop.Stop.TheVariants as stops;
ghost use Rattle.stake_pools.specs.Asking.{points_refusal, undue_refusal, uncredited_refusal};
ghost use Rattle.stake_pools.specs.Leaves.{leaving, due_leaves};
ghost use Rattle.stake_pools.specs.Members.{points_of, no_member, has_nothing, left, redeemed, claimed};

use crate::PoolRefusal;
use crate::leaves::Leaves;
use crate::stop::Stop;
use std::alloc::Global;

/// What one member has in a pool: points that stay, leaves, and a credit in units.
#[derive(Drop)]
pub struct Member {
    pub staying: u64,
    pub leaves: Leaves,
    pub credit: u64,
}

impl Member {
    /// A member that has nothing yet.
    pub fn new(alloc: Global) -> Member
        ensures { result ≡ no_member }
    {
        Member {
            staying: 0,
            leaves: Leaves::new(alloc),
            credit: 0,
        }
    }

    /// Whether the member has no points, no leave and no credit.
    pub fn has_nothing(&self) -> bool
        ensures { result ≡ has_nothing self.now }
    {
        self.staying == 0 && self.leaves.is_empty() && self.credit == 0
    }

    /// Moves staying points to a leave with this release.
    pub fn leave(&mut self, points: u64, release: u64) -> Result<(), Stop>
        requires { points_of self.old < 2 ^ 64 }
        ensures { Meets stops.NoMemory
            (option_map stops.Refused (points_refusal points release self.old))
            (left points release self.old) self.old self.new result }
    {
        if self.staying < points {
            return Err(Stop::Refused(PoolRefusal::LowPoints));
        }
        if self.leaves.is_full_for(release) {
            return Err(Stop::Refused(PoolRefusal::TooManyLeaves));
        }
        self.leaves.add(points, release)?;
        self.staying -= points;
        Ok(())
    }

    /// Takes out the leaves that are paid out in this era, and answers how many points they have.
    pub fn redeem(&mut self, era: u64) -> Result<u64, PoolRefusal>
        requires { points_of self.old < 2 ^ 64 }
        ensures meets { MeetsAlways (undue_refusal era self.old) (redeemed era self.old)
            self.old self.new result }
        ensures points { IfOk result
            (λ points. points ≡ leaving (due_leaves era self.old.leaves)) }
    {
        if !self.leaves.has_due(era) {
            return Err(PoolRefusal::NotDue);
        }
        let points = self.leaves.due(era);
        self.leaves.release(era);
        Ok(points)
    }

    /// Takes the credit, and answers it.
    pub fn claim(&mut self) -> Result<u64, PoolRefusal>
        ensures meets { MeetsAlways (uncredited_refusal self.old) (claimed self.old)
            self.old self.new result }
        ensures credit { IfOk result (λ credit. credit ≡ self.old.credit) }
    {
        if self.credit == 0 {
            return Err(PoolRefusal::NothingDue);
        }
        let credit = self.credit;
        self.credit = 0;
        Ok(credit)
    }
}
