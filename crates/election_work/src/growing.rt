//! An election that grows while its bundle is read.
ghost use Rattle.std.specs.Prelude.{◌≡◌, [], ◌∷◌, IfOk, OnOk};
ghost use Rattle.election_work.specs.Elections.{with_targets, and_then, with_voters, empty_draft};
ghost use Rattle.election_work.specs.Growing.{finished};

use crate::election::{add_targets, add_voter};
use block_wire::BundleVoter;
use election_snapshot::{Snapshot, SnapshotBuilder, SnapshotFault};
use npos_base::{AccountId, NoMemory};
use std::alloc::Global;
use std::marker::Model;

/// The targets and voters so far, or the first fault that was met. Behind a fault nothing is added,
/// since the fault is the answer whatever follows. Contracts see the draft or the fault.
#[derive(Drop)]
pub struct Growing {
    builder: SnapshotBuilder,
    fault: Option<SnapshotFault>,
}

impl Model for Growing {
    ghost use Rattle.std.specs.Prelude.{Result};
    ghost use Rattle.election_snapshot.specs.Draft.{Draft};
    ghost use Rattle.election_snapshot.specs.declared.fault.SnapshotFault.{SnapshotFault};
    ghost use Rattle.election_work.specs.Elections.{unless};

    ghost Value = { Result Draft SnapshotFault };

    ghost view = { λ g. unless g.fault g.builder };
}

impl Growing {
    /// The election of these targets, which has no voter yet.
    pub fn new(alloc: Global, targets: &[AccountId]) -> Result<Growing, NoMemory>
        ensures { IfOk result (λ growing. growing ≡ with_targets targets.now empty_draft) }
    {
        let mut builder = SnapshotBuilder::new(alloc);
        match add_targets(&mut builder, targets) {
            Ok(()) => Ok(Growing {
                builder,
                fault: None,
            }),
            Err(SnapshotFault::NoMemory) => Err(NoMemory),
            Err(fault) => Ok(Growing {
                builder,
                fault: Some(fault),
            }),
        }
    }

    /// Takes room for so many voters more than stand, so that adding them moves none. Contracts see
    /// no change.
    pub fn reserve(&mut self, voters: usize) -> Result<(), NoMemory>
        ensures { self.new ≡ self.old }
    {
        self.builder.reserve(voters)
    }

    /// Adds one voter, unless a fault was met before.
    pub fn add(&mut self, voter: &BundleVoter) -> Result<(), NoMemory>
        ensures { OnOk result (self.new ≡ and_then self.old (with_voters (voter.now ∷ []))) }
    {
        if self.fault.is_some() {
            return Ok(());
        }
        match add_voter(&mut self.builder, voter) {
            Ok(()) => Ok(()),
            Err(SnapshotFault::NoMemory) => Err(NoMemory),
            Err(fault) => {
                self.fault = Some(fault);
                Ok(())
            }
        }
    }

    /// The snapshot of the election with this many seats, or its first fault. It takes no memory.
    pub fn finish(self, seats: u32) -> Result<Snapshot, SnapshotFault>
        ensures { result ≡ finished self seats }
    {
        if let Some(fault) = self.fault {
            return Err(fault);
        }
        match self.builder.finish(seats) {
            Ok(snapshot) => Ok(snapshot),
            Err((_, fault)) => Err(fault),
        }
    }
}
