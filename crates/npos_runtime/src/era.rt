//! The begin of an era: the committee that waited is exposed from then on.
ghost use Rattle.std.specs.Prelude.{◌≡◌, ◌<◌, ◌-◌, ◌^◌, length, map, OnOk, IfOk};
ghost use Rattle.std.specs.List.{range_with_len};
ghost use Rattle.election_snapshot.specs.Draft.{accounts_of};
ghost use Rattle.weight_book.specs.Weights.{support};
ghost use Rattle.era_book.specs.Eras.{started};
ghost use Rattle.npos_runtime.specs.Rules.Outcome.{Goes};
ghost use Rattle.npos_runtime.specs.Rules.Exposed.{exposed, exposures_of};
ghost use Rattle.npos_runtime.specs.Step.{era_phase};
ghost use Rattle.npos_runtime.specs.Live.{IsLive, IsNotedCommittee, AreNoted};

use crate::offices::apply_due;
use crate::{Chain, Waiting};
use block_receipts::Line;
use chain_params::begun_era;
use election_check::Elected;
use election_snapshot::Snapshot;
use era_book::EraBook;
use npos_base::{AccountId, List, NoMemory};
use std::alloc::Global;

/// The accounts of the targets, in their order.
fn targets(alloc: Global, snapshot: &Snapshot) -> Result<Vec<AccountId>, NoMemory>
    ensures { IfOk result (λ targets. targets.items ≡ snapshot.now.targets) }
{
    let mut targets = Vec::with_capacity(alloc, snapshot.target_count())?;
    for i in 0..snapshot.target_count() {
        targets.push(snapshot.target(i as u16))?;
    }
    Ok(targets)
}

/// The accounts of the voters, in their order.
fn voters(alloc: Global, snapshot: &Snapshot) -> Result<Vec<AccountId>, NoMemory>
    ensures { IfOk result (λ voters. voters.items ≡ accounts_of snapshot.now.voters) }
{
    let mut voters = Vec::with_capacity(alloc, snapshot.voter_count())?;
    for i in 0..snapshot.voter_count() {
        voters.push(snapshot.voter(i as u32))?;
    }
    Ok(voters)
}

/// The supports of the targets, in their order.
fn supports(alloc: Global, elected: &Elected) -> Result<Vec<u64>, NoMemory>
    ensures { IfOk result (λ supports. supports.items
        ≡ map (support elected.now.weights.plain.edges)
        (range_with_len 0 (length elected.now.snapshot.targets))) }
{
    let mut supports = Vec::with_capacity(alloc, elected.snapshot().target_count())?;
    for i in 0..elected.snapshot().target_count() {
        supports.push(elected.support(i as u16))?;
    }
    Ok(supports)
}

/// The next era begins, with the committee that waits.
fn start(alloc: Global, eras: &mut EraBook, waiting: &Waiting) -> Result<(), NoMemory>
    requires more { eras.old.current < 2 ^ 32 - 1 }
    requires noted { AreNoted waiting.now.snapshot.targets waiting.now.commissions }
    ensures { OnOk result (eras.new ≡ started (exposures_of waiting.now) eras.old) }
{
    let elected = &waiting.elected;
    // The snapshot is well formed, which `start_elected` asks for.
    let _seats = elected.snapshot().seats();
    let targets = targets(alloc, elected.snapshot())?;
    let voters = voters(alloc, elected.snapshot())?;
    let supports = supports(alloc, elected)?;
    eras.start_elected(
        targets.as_slice(),
        waiting.commissions.as_slice(),
        supports.as_slice(),
        List::from_vec(voters),
        elected.committee(),
        elected.edges(),
    )
}

/// The next era begins, with who waits. Nobody is exposed where nobody does.
fn next_era(alloc: Global, eras: &mut EraBook, waiting: Option<Waiting>) -> Result<(), NoMemory>
    requires more { eras.old.current < 2 ^ 32 - 1 }
    requires noted { IsNotedCommittee waiting }
    ensures { OnOk result (eras.new ≡ started (exposed waiting) eras.old) }
{
    match waiting {
        Some(waiting) => start(alloc, eras, &waiting),
        None => eras.start_era(List::new(alloc)),
    }
}

/// An era may begin. The exposures of who waited are then those of that era, and nobody waits any
/// more; and the slashes that are due in it are applied.
pub fn begin_era(alloc: Global, chain: &mut Chain, lines: &mut Vec<Line>) -> Result<(), NoMemory>
    requires live { IsLive chain.old }
    requires more { chain.old.eras.current < 2 ^ 32 - 1 }
    ensures { OnOk result (Goes (era_phase chain.old) chain.new lines.old.items lines.new.items) }
{
    if let Some(era) = begun_era(&chain.params, chain.due) {
        lines.push(Line::Era { era })?;
        next_era(alloc, &mut chain.eras, chain.waiting.take())?;
        apply_due(alloc, chain, lines)?;
    }
    Ok(())
}
