//! Seats filled one after the other.
ghost use Rattle.std.specs.Prelude.{◌≡◌, ◌<◌, reverse, IfOk, OnOk};
ghost use Rattle.weight_book.specs.Room.{HasRoom};
ghost use Rattle.quota_fill.specs.Filled.{filled};
ghost use Rattle.quota_fill.specs.Kept.{IsFilling, with_next};

use crate::drawing::{best_outside, draw_from_all};
use crate::race::Race;
use election_snapshot::Snapshot;
use npos_base::{Edge, NoMemory};
use seat_race::put_by_voter;
use std::alloc::Global;
use weight_book::Weights;

/// The committee that is elected where nobody hands in a solution, with the weights that show that
/// it passes the check. Seat after seat, the target outside whose nominators have the most stake
/// left joins, the lowest of several. It draws the price of a seat from its nominators in their
/// order, from each all that is left until the price is drawn.
///
/// The members stand in the order of the picks, the edges by voter and then by target, all with
/// amounts above 0. Each nomination is looked at a constant number of times over all seats, beside
/// one pass over the targets for each seat.
pub fn fill(alloc: Global, snapshot: &Snapshot) -> Result<Weights, NoMemory>
    ensures filled { IfOk result (λ weights. weights.plain ≡ filled snapshot.now) }
    ensures room { IfOk result (HasRoom snapshot.now) }
{
    let mut weights = Weights::with_room(alloc, snapshot)?;
    let mut race = Race::new(alloc, snapshot)?;
    let mut draws = Vec::with_capacity(alloc, snapshot.voter_count() + snapshot.seats() as usize)?;
    for _ in 0..snapshot.seats() {
        fill_seat(snapshot, &mut race, &mut weights, &mut draws)?;
    }
    put_by_voter(&mut draws, &mut weights)?;
    Ok(weights)
}

/// Takes the next pick, if there is one, as a member, and draws the price of its seat.
fn fill_seat(
    snapshot: &Snapshot,
    race: &mut Race,
    weights: &mut Weights,
    draws: &mut Vec<Edge>,
) -> Result<(), NoMemory>
    requires state { IsFilling snapshot.now (reverse weights.old.plain.committee) race.old
        weights.old draws.old.items }
    requires spare { 0 < weights.old.member_spare }
    ensures { OnOk result (IsFilling snapshot.now
        (with_next snapshot.now (reverse weights.old.plain.committee)) race.new
        weights.new draws.new.items) }
{
    // How many targets there are is asked for, since only calls tell that a snapshot is well formed:
    // a target has 16 bits.
    let _targets = snapshot.target_count();
    let Some(target) = best_outside(&race.backings, &race.is_picked) else {
        return Ok(());
    };
    race.is_picked[usize::from(target)] = true;
    weights.push_member(target);
    draw_from_all(
        snapshot,
        target,
        &race.backers,
        &mut race.left,
        &mut race.backings,
        draws,
    )?;
    Ok(())
}
