//! One pick: the target that joins, and what it draws.
ghost use Rattle.std.specs.Prelude.{◌≡◌, ◌-◌, ◌<◌, ◌≤◌, ◌∷◌, [], ◌++◌, if◌then◌else◌, length, false, nat_lt, slice_index_or, slice_set, IfSome, IfNone, OnOk};
ghost use Rattle.npos_base.specs.declared.limits.TheConstants.{MOST_TARGETS};
ghost use Rattle.weight_book.specs.Passing.{nominators};
ghost use Rattle.quota_fill.specs.Backers.{AreBackers};
ghost use Rattle.quota_fill.specs.Chains.{AreChains};
ghost use Rattle.seat_race.specs.Picks.{more, first_best};
ghost use Rattle.seat_race.specs.Tables.{says, unmarked, AreSums};
ghost use Rattle.quota_fill.specs.Kept.{AreTables, IsDrawn};

use crate::backers::Backers;
use crate::chains::Chains;
use election_snapshot::Snapshot;
use npos_base::{Edge, NoMemory};
use seat_race::lower_at;

/// The lowest of the targets that are not picked with the greatest backing, if one is not picked. A
/// backing is seldom more than the most so far, so a mark is looked at only then.
pub(crate) fn best_outside(backings: &[u64], is_picked: &[bool]) -> Option<u16>
    requires same { length is_picked.now ≡ length backings.now }
    requires few { length backings.now ≤ MOST_TARGETS }
    ensures best { result ≡ first_best more (says backings.now)
        (unmarked is_picked.now (length is_picked.now)) }
    ensures in_range { IfSome result (λ target. target < length backings.now) }
{
    let Some(first) = first_outside(is_picked) else {
        return None;
    };
    let mut best = first;
    let mut most = backings[first];
    for target in first + 1..backings.len() {
        if most < backings[target] && !is_picked[target] {
            best = target;
            most = backings[target];
        }
    }
    Some(best as u16)
}

/// The lowest of the targets that are not picked.
fn first_outside(is_picked: &[bool]) -> Option<usize>
    ensures in_range { IfSome result (λ first. first < length is_picked.now) }
    ensures outside { IfSome result (λ first. slice_index_or is_picked.now first false ≡ false) }
    ensures lowest { IfSome result (λ first. unmarked is_picked.now first ≡ []) }
    ensures none { IfNone result (unmarked is_picked.now (length is_picked.now) ≡ []) }
{
    for target in 0..is_picked.len() {
        if !is_picked[target] {
            return Some(target);
        }
    }
    None
}

/// Draws the price of a seat for the target from its nominators, in their order, until it is drawn.
pub(crate) fn draw_from_all(
    snapshot: &Snapshot,
    target: u16,
    backers: &Backers,
    left: &mut [u64],
    backings: &mut [u64],
    draws: &mut Vec<Edge>,
) -> Result<(), NoMemory>
    requires target { target < length snapshot.now.targets }
    requires backers { AreBackers snapshot.now backers.now }
    requires tables { AreTables snapshot.now left.old backings.old }
    ensures { OnOk result (IsDrawn snapshot.now target left.old left.new backings.new
        draws.old.items draws.new.items) }
{
    match backers {
        Backers::Linked(chains) => {
            draw_from_linked(snapshot, target, chains, left, backings, draws)
        }
        Backers::Listed(lists) => {
            draw_from_listed(snapshot, target, lists.of(target), left, backings, draws)
        }
    }
}

/// Draws the price from nominators that are linked.
fn draw_from_linked(
    snapshot: &Snapshot,
    target: u16,
    chains: &Chains,
    left: &mut [u64],
    backings: &mut [u64],
    draws: &mut Vec<Edge>,
) -> Result<(), NoMemory>
    requires target { target < length snapshot.now.targets }
    requires chains { AreChains snapshot.now chains.now }
    requires tables { AreTables snapshot.now left.old backings.old }
    ensures { OnOk result (IsDrawn snapshot.now target left.old left.new backings.new
        draws.old.items draws.new.items) }
{
    let mut due = snapshot.threshold();
    let mut link = chains.first(snapshot, target);
    'voters: while due > 0 && link.leads() {
        let voter = u32::from(link.voter);
        let amount = left[voter as usize].min(due);
        draw_from(snapshot, voter, amount, left, backings);
        note_draw(voter, target, amount, draws)?;
        due -= amount;
        link = chains.next(snapshot, link);
    }
    Ok(())
}

/// Draws the price from nominators that are listed.
fn draw_from_listed(
    snapshot: &Snapshot,
    target: u16,
    voters: &[u32],
    left: &mut [u64],
    backings: &mut [u64],
    draws: &mut Vec<Edge>,
) -> Result<(), NoMemory>
    requires voters { voters.now ≡ nominators snapshot.now target }
    requires tables { AreTables snapshot.now left.old backings.old }
    ensures { OnOk result (IsDrawn snapshot.now target left.old left.new backings.new
        draws.old.items draws.new.items) }
{
    let mut due = snapshot.threshold();
    for voter in voters {
        if due == 0 {
            return Ok(());
        }
        let amount = left[*voter as usize].min(due);
        draw_from(snapshot, *voter, amount, left, backings);
        note_draw(*voter, target, amount, draws)?;
        due -= amount;
    }
    Ok(())
}

/// Takes the amount from what the voter has left, and so from what backs each of its votes.
fn draw_from(snapshot: &Snapshot, voter: u32, amount: u64, left: &mut [u64], backings: &mut [u64])
    requires voter { voter < length snapshot.now.voters }
    requires enough { amount ≤ says left.old voter }
    requires tables { AreTables snapshot.now left.old backings.old }
    ensures left { left.new ≡ slice_set left.old voter (says left.old voter - amount) }
    ensures backings { AreSums snapshot.now left.new backings.new }
{
    left[voter as usize] -= amount;
    if amount > 0 {
        lower_at(snapshot.votes(voter), amount, backings);
    }
}

/// Appends the edge of a draw, where it is more than nothing.
fn note_draw(voter: u32, target: u16, amount: u64, draws: &mut Vec<Edge>) -> Result<(), NoMemory>
    ensures { OnOk result (draws.new.items ≡ draws.old.items ++ (if nat_lt 0 amount
        then record { voter = voter; target = target; amount = amount } ∷ [] else [])) }
{
    if amount > 0 {
        draws.push(Edge {
            voter,
            target,
            amount,
        })?;
    }
    Ok(())
}
