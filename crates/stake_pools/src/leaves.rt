//! Points on their way out.
ghost use Rattle.std.specs.Prelude.{◌≡◌, ◌+◌, ◌^◌, ◌<◌, [], OnErr, OnOk};
ghost use Rattle.stake_pools.specs.Leaves.{leaving, is_empty, with_leave, joins_last, is_full_for, has_due, due_leaves, later_leaves};

use npos_base::NoMemory;
use std::alloc::Global;
use std::marker::Model;

/// The most leaves that one member may have.
pub const MOST_LEAVES: usize = 32;

/// Points on their way out, which are paid out from the era `release` on.
#[derive(Clone, Copy, Debug, PartialEq, Eq)]
pub struct Leave {
    pub points: u64,
    pub release: u64,
}

/// The leaves of one member, in the order in which it left.
#[derive(Drop)]
pub struct Leaves {
    items: Vec<Leave>,
}

impl Model for Leaves {
    ghost use Rattle.std.specs.Prelude.{List};
    ghost use Rattle.stake_pools.specs.declared.leaves.Leave.{Leave};

    ghost Value = { List Leave };

    ghost view = { λ leaves. leaves.items.items };
}

impl Leaves {
    /// No leave. It takes no memory yet.
    pub fn new(alloc: Global) -> Leaves
        ensures { result ≡ [] }
    {
        Leaves {
            items: Vec::new(alloc),
        }
    }

    /// Whether there is no leave.
    pub fn is_empty(&self) -> bool
        ensures { result ≡ is_empty self.now }
    {
        self.items.is_empty()
    }

    /// Whether the last leave has this release.
    fn joins_last(&self, release: u64) -> bool
        ensures { result ≡ joins_last release self.now }
    {
        match self.items.last() {
            Some(leave) => leave.release == release,
            None => false,
        }
    }

    /// Whether as many leaves stand as may, and the last has another release.
    pub fn is_full_for(&self, release: u64) -> bool
        ensures { result ≡ is_full_for release self.now }
    {
        self.items.len() >= MOST_LEAVES && !self.joins_last(release)
    }

    /// Joins the points to the last leave where that has the same release, else puts a new leave
    /// last.
    #[tactic(auto, using(crate::proofs::LeaveLemmas::joined, crate::proofs::LeaveLemmas::put_last, crate::proofs::LeaveLemmas::nonempty))]
    pub fn add(&mut self, points: u64, release: u64) -> Result<(), NoMemory>
        requires { leaving self.old + points < 2 ^ 64 }
        ensures ok { OnOk result (self.new ≡ with_leave points release self.old) }
        ensures err { OnErr result (self.new ≡ self.old) }
    {
        if self.joins_last(release) {
            let last = self.items.len() - 1;
            self.items[last].points += points;
            return Ok(());
        }
        self.items.push(Leave { points, release })?;
        Ok(())
    }

    /// Whether some leave is paid out in this era.
    pub fn has_due(&self, era: u64) -> bool
        ensures { result ≡ has_due era self.now }
    {
        self.items.iter().any(|leave| leave.release <= era)
    }

    /// The points of the leaves that are paid out in this era.
    pub fn due(&self, era: u64) -> u64
        requires { leaving self.now < 2 ^ 64 }
        ensures { result ≡ leaving (due_leaves era self.now) }
    {
        self.items
            .iter()
            .filter(|leave| leave.release <= era)
            .map(|leave| leave.points)
            .sum()
    }

    /// Takes out the leaves that are paid out in this era.
    pub fn release(&mut self, era: u64)
        ensures { self.new ≡ later_leaves era self.old }
    {
        self.items.retain(|leave| leave.release > era);
    }
}
