//! The targets and voters of a bundle, added to its election.
ghost use Rattle.std.specs.Prelude.{◌≡◌, ◌≢◌, Ok, Err, OnOk, IfErr};
ghost use Rattle.election_snapshot.specs.declared.fault.SnapshotFault.TheVariants.{NoMemory as NoMemoryFault};
ghost use Rattle.npos_base.specs.Refusal.{Meets};
ghost use Rattle.election_work.specs.Elections.{with_targets, fault_of, draft_with};

use block_wire::BundleVoter;
use election_snapshot::{SnapshotBuilder, SnapshotFault};
use npos_base::AccountId;

/// Adds the targets in order, up to the first fault.
pub fn add_targets(
    builder: &mut SnapshotBuilder,
    targets: &[AccountId],
) -> Result<(), SnapshotFault>
    ensures done { OnOk result (with_targets targets.now builder.old ≡ Ok builder.new) }
    ensures fault { IfErr result (λ fault. fault ≢ NoMemoryFault
        → with_targets targets.now builder.old ≡ Err fault) }
{
    for who in targets {
        builder.add_target(*who)?;
    }
    Ok(())
}

/// Adds one voter.
pub fn add_voter(builder: &mut SnapshotBuilder, voter: &BundleVoter) -> Result<(), SnapshotFault>
    ensures { Meets NoMemoryFault (fault_of builder.old voter.now)
        (draft_with builder.old voter.now) builder.old builder.new result }
{
    builder.add_voter(voter.account, voter.stake, voter.votes.as_slice())
}
