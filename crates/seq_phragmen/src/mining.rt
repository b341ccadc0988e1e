//! Seats filled one after the other, and then the stakes split.
ghost use Rattle.std.specs.Prelude.{◌≡◌, ◌<◌, length, reverse, All, IfOk, OnOk};
ghost use Rattle.election_snapshot.specs.Snapshot.{IsWellFormed};
ghost use Rattle.weight_book.specs.Weights.{no_weights, IsFeasible};
ghost use Rattle.weight_book.specs.Room.{HasRoom};
ghost use Rattle.seq_phragmen.specs.Mined.{mined, picked};
ghost use Rattle.seq_phragmen.specs.Kept.{gifts_after, rises_after, with_next, IsAfter, IsRunning};

use crate::picking::{Candidate, lightest_outside, raise_loads};
use crate::race::Race;
use crate::rise::Rise;
use crate::splitting::{list_edges, take_parts};
use election_snapshot::Snapshot;
use npos_base::{Edge, NoMemory};
use seat_race::put_by_voter;
use std::alloc::Global;
use weight_book::Weights;

/// The run of sequential Phragmén (Brill et al.) in whole numbers. Each voter has a load, at first
/// 0. The score of a target is the load that its nominators would share if it joined, rounded down.
/// Seat after seat, the target outside with the least score joins, the lowest of several, and its
/// nominators' loads become that score. At the end each voter's stake is split by how much each
/// pick raised its load, rounded down; the last pick gets the rest.
///
/// The members stand in the order of the picks, the edges by voter and then by target, all with
/// amounts above 0. A pick looks at the votes of its nominators, beside one pass over the targets.
pub fn mine_seq(alloc: Global, snapshot: &Snapshot) -> Result<Weights, NoMemory>
    ensures mined { IfOk result (λ weights. weights.plain ≡ mined snapshot.now) }
    ensures feasible { IfOk result (λ weights. IsFeasible snapshot.now weights.plain) }
    ensures above { IfOk result (λ weights. All (λ edge. 0 < edge.amount) weights.plain.edges) }
    ensures room { IfOk result (HasRoom snapshot.now) }
{
    let mut weights = Weights::with_room(alloc, snapshot)?;
    let run = fill_seats(alloc, snapshot, &mut weights)?;
    let mut edges = split(alloc, snapshot, &run.race, run.rises.as_slice())?;
    // the sort takes memory of its own
    drop(run);
    put_by_voter(&mut edges, &mut weights)?;
    Ok(weights)
}

/// A run whose seats are filled.
#[derive(Drop)]
pub(crate) struct Run {
    pub(crate) race: Race,
    /// Each rise of a load, in the order of the picks.
    pub(crate) rises: Vec<Rise>,
}

/// Fills the seats, pick after pick. The picks are then the members.
pub(crate) fn fill_seats(
    alloc: Global,
    snapshot: &Snapshot,
    weights: &mut Weights,
) -> Result<Run, NoMemory>
    requires empty { weights.old.plain ≡ no_weights }
    requires room { HasRoom snapshot.now weights.old }
    ensures running { IfOk result (λ run. IsRunning snapshot.now
        (picked snapshot.now snapshot.now.seats) run.race weights.new run.rises.items) }
    ensures well_formed { OnOk result (IsWellFormed snapshot.now) }
{
    let mut race = Race::new(alloc, snapshot)?;
    let mut rises = Vec::new(alloc);
    for _ in 0..snapshot.seats() {
        take_seat(snapshot, &mut race, weights, &mut rises)?;
    }
    Ok(Run { race, rises })
}

/// Takes the next pick, if there is one, as a member, and raises its nominators' loads.
fn take_seat(
    snapshot: &Snapshot,
    race: &mut Race,
    weights: &mut Weights,
    rises: &mut Vec<Rise>,
) -> Result<(), NoMemory>
    requires state { IsRunning snapshot.now (reverse weights.old.plain.committee) race.old
        weights.old rises.old.items }
    requires picks { reverse weights.old.plain.committee
        ≡ picked snapshot.now (length weights.old.plain.committee) }
    requires spare { 0 < weights.old.member_spare }
    ensures { OnOk result (IsRunning snapshot.now
        (with_next snapshot.now (reverse weights.old.plain.committee)) race.new
        weights.new rises.new.items) }
{
    let seat = u128::from(snapshot.total()) * 1_048_576;
    let next = lightest_outside(
        seat,
        &race.burdens,
        &race.approvals,
        &race.is_picked,
        &mut race.floors,
    );
    let Some(Candidate { target, score }) = next else {
        return Ok(());
    };
    race.is_picked[usize::from(target)] = true;
    race.floors[usize::from(target)] = u64::MAX;
    weights.push_member(target);
    raise_loads(
        snapshot,
        target,
        score,
        race.nominators.of(target),
        &mut race.loads,
        &mut race.lasts,
        &mut race.burdens,
        rises,
    )?;
    Ok(())
}

/// The edges over which the voters' stakes are split, in the order of the rises.
fn split(
    alloc: Global,
    snapshot: &Snapshot,
    race: &Race,
    rises: &[Rise],
) -> Result<Vec<Edge>, NoMemory>
    requires race { IsAfter snapshot.now (picked snapshot.now snapshot.now.seats) race.now }
    requires rises { rises.now ≡ rises_after snapshot.now (picked snapshot.now snapshot.now.seats) }
    ensures { IfOk result (λ edges. edges.items
        ≡ gifts_after snapshot.now (picked snapshot.now snapshot.now.seats)) }
{
    let mut left = vec![in alloc; 0; snapshot.voter_count()]?;
    left.copy_from_slice(snapshot.stakes());
    take_parts(snapshot, &race.loads, &race.lasts, rises, &mut left);
    let mut edges = Vec::with_capacity(alloc, rises.len())?;
    list_edges(snapshot, &race.loads, &race.lasts, &left, rises, &mut edges)?;
    Ok(edges)
}
