//! The layout of what each voter gives: an edge for each member that it nominates, by rising voter,
//! then rising target, be its amount 0.
ghost use Rattle.std.specs.Prelude.{◌≡◌, ◌≢◌, ◌+◌, ◌<◌, ◌≤◌, ◌^◌, ◌++◌, ◌⊎◌, ℕ, true, false, length, take, map, All, IfOk, OnOk, IsTrue, IsPermutation, slice_index_or, vec_len};
ghost use Rattle.std.specs.Vec.{vec_capacity};
ghost use Rattle.std.specs.List.{AllPairs};
ghost use Rattle.std.specs.List.Sorted.{IsNonDecreasing, IsNonDecreasingBy};
ghost use Rattle.support_balance.specs.Rounds.{IsBefore, GiveSame};
ghost use Rattle.support_balance.specs.Slots.{AreSlots, marked, has_pair, AreLaid, slot_of, IsTaken, IsPassed, IsJoined, AreNotes, spread};
ghost use Rattle.npos_base.specs.Edge.{place_of};
ghost use Rattle.election_snapshot.specs.Snapshot.{Snapshot, has};
ghost use Rattle.weight_book.specs.Passing.{nominators};
ghost use Rattle.weight_book.specs.Weights.{support};

use election_snapshot::Snapshot;
use npos_base::{Edge, NoMemory};
use std::alloc::Global;

/// An edge of amount 0 along each nomination, in order.
pub(crate) fn all_slots(alloc: Global, snapshot: &Snapshot) -> Result<Vec<Edge>, NoMemory>
    ensures { IfOk result (λ slots. AreSlots snapshot.now
        (length snapshot.now.voters) slots.items) }
{
    let mut slots = Vec::new(alloc);
    for voter in 0..snapshot.voter_count() {
        let votes = sorted(alloc, snapshot.votes(voter as u32))?;
        put_slots(voter as u32, &votes, &mut slots)?;
    }
    Ok(slots)
}

/// The numbers in rising order.
fn sorted(alloc: Global, votes: &[u16]) -> Result<Vec<u16>, NoMemory>
    ensures rising { IfOk result (λ sorted. IsNonDecreasing sorted.items) }
    ensures same { IfOk result (λ sorted. IsPermutation votes.now sorted.items) }
{
    let mut sorted = Vec::from_slice(alloc, votes)?;
    sorted.sort_unstable();
    Ok(sorted)
}

/// Appends the slots of one voter.
fn put_slots(voter: u32, votes: &[u16], slots: &mut Vec<Edge>) -> Result<(), NoMemory>
    ensures { OnOk result (slots.new.items ≡ slots.old.items ++ map (slot_of voter) votes.now) }
{
    for vote in votes {
        slots.push(Edge {
            voter,
            target: *vote,
            amount: 0,
        })?;
    }
    Ok(())
}

/// Lays the edges, which stand in order, along the slots of members: each with its amount, and
/// those that have none with 0.
pub(crate) fn lay(
    alloc: Global,
    slots: &[Edge],
    is_member: &[bool],
    edges: &[Edge],
) -> Result<Vec<Edge>, NoMemory>
    requires slots { AllPairs IsBefore slots.now }
    requires in_table { All (λ slot. slot.target < length is_member.now) slots.now }
    requires edges { AllPairs IsBefore edges.now }
    requires along { All (λ edge. IsTrue (has_pair
        (marked (λ target. slice_index_or is_member.now target false) slots.now) edge)) edges.now }
    ensures { IfOk result (λ laid. AreLaid (λ target. slice_index_or is_member.now target false)
        slots.now edges.now laid.items) }
{
    let mut laid = Vec::with_capacity(alloc, slots.len())?;
    let mut at = 0;
    for slot in slots {
        if is_member[usize::from(slot.target)] {
            let amount = amount_along(*slot, edges, &mut at);
            laid.push(Edge {
                voter: slot.voter,
                target: slot.target,
                amount,
            })?;
        }
    }
    Ok(laid)
}

/// The amount of the edge that stands at the place, if it leads along the slot; then the place
/// moves behind it.
fn amount_along(slot: Edge, edges: &[Edge], at: &mut usize) -> u64
    ensures { IsTaken slot edges.now at.old at.new result
        ⊎ IsPassed slot edges.now at.old at.new result }
{
    if *at < edges.len() && edges[*at].voter == slot.voter && edges[*at].target == slot.target {
        *at += 1;
        edges[*at - 1].amount
    } else {
        0
    }
}

/// Where the edge of a joining member's voter goes: right before the edge that stands at the place,
/// or behind all.
#[derive(Clone, Copy)]
pub(crate) struct Joining {
    voter: u32,
    place: u32,
}

/// Notes, in place of what `joining` holds, where an edge to the target goes from each of these
/// voters, which are those that nominate it, by rising position. No edge leads to it yet. The edges
/// stay as they are, so that a caller can take room for them before anything changes.
pub(crate) fn note_joining(
    target: u16,
    voters: &[u32],
    edges: &[Edge],
    joining: &mut Vec<Joining>,
) -> Result<(), NoMemory>
    requires few { length edges.now ≤ 2 ^ 20 }
    requires rising { AllPairs IsBefore edges.now }
    requires fresh { All (λ edge. edge.target ≢ target) edges.now }
    requires small { All (λ edge. edge.amount < 2 ^ 64) edges.now }
    ensures joined { OnOk result ((snapshot : Snapshot) → voters.now ≡ nominators snapshot target
        → IsJoined snapshot target edges.now (spread target joining.new.items 0 edges.now)) }
    ensures notes { OnOk result (AreNotes edges.now joining.new.items) }
{
    joining.clear();
    joining.reserve(voters.len())?;
    let mut done = 0;
    for voter in voters {
        done = place_from(done, *voter, target, edges);
        joining.push(Joining {
            voter: *voter,
            place: done as u32,
        })?;
    }
    Ok(())
}

/// Puts an edge of amount 0 from the voter of each note at its place. It goes from the last note to
/// the first, so that each edge moves once and within the list. There is room, and so it cannot fail.
pub(crate) fn put_joining(target: u16, joining: &[Joining], edges: &mut Vec<Edge>)
    requires notes { AreNotes edges.old.items joining.now }
    requires room { vec_len edges.old + length joining.now ≤ vec_capacity edges.old }
    ensures { edges.new.items ≡ spread target joining.now 0 edges.old.items }
{
    let mut from = edges.len();
    lengthen(joining.len(), edges);
    for i in (0..joining.len()).rev() {
        let place = joining[i].place as usize;
        edges.copy_within(place..from, place + i + 1);
        edges[place + i] = Edge {
            voter: joining[i].voter,
            target,
            amount: 0,
        };
        from = place;
    }
}

/// Appends so many edges, for which there is room. What they are is of no use.
fn lengthen(count: usize, edges: &mut Vec<Edge>)
    requires { vec_len edges.old + count ≤ vec_capacity edges.old }
    ensures same { take (vec_len edges.old) edges.new.items ≡ edges.old.items }
    ensures count { vec_len edges.new ≡ vec_len edges.old + count }
{
    let blank = Edge {
        voter: 0,
        target: 0,
        amount: 0,
    };
    match edges.resize(edges.len() + count, blank) {
        Ok(()) => {}
        Err(_) => unreachable!(),
    }
}

/// Where an edge from the voter to the target stands among the edges, at `start` or behind it.
fn place_from(start: usize, voter: u32, target: u16, edges: &[Edge]) -> usize
    requires { start ≤ length edges.now }
    ensures from { start ≤ result }
    ensures within { result ≤ length edges.now }
    ensures before { (k : ℕ) (d : Edge) → start ≤ k → k < result
        → IsBefore (slice_index_or edges.now k d) (slot_of voter target) }
    ensures next { (d : Edge) → result < length edges.now
        → IsBefore (slice_index_or edges.now result d) (slot_of voter target) → ⊥ }
{
    let mut place = start;
    while place < edges.len() && stands_before(&edges[place], voter, target) {
        place += 1;
    }
    place
}

/// Whether the edge stands before one from the voter to the target.
fn stands_before(edge: &Edge, voter: u32, target: u16) -> bool
    ensures yes { result ≡ true → IsBefore edge.now (slot_of voter target) }
    ensures no { result ≡ false → IsBefore edge.now (slot_of voter target) → ⊥ }
{
    edge.voter < voter || (edge.voter == voter && edge.target < target)
}

/// The edges in order.
pub(crate) fn in_order(alloc: Global, edges: &[Edge]) -> Result<Vec<Edge>, NoMemory>
    ensures rising { IfOk result (λ sorted. IsNonDecreasingBy place_of sorted.items) }
    ensures same { IfOk result (λ sorted. IsPermutation edges.now sorted.items) }
{
    let mut sorted = Vec::from_slice(alloc, edges)?;
    sorted.sort_unstable_by_key(|edge| edge.place());
    Ok(sorted)
}

/// Marks the members alone.
pub(crate) fn mark(members: &[u16], is_member: &mut [bool])
    requires { All (λ member. member < length is_member.old) members.now }
    ensures marks { (target : ℕ)
        → slice_index_or is_member.new target false ≡ has members.now target }
    ensures count { length is_member.new ≡ length is_member.old }
{
    is_member.fill(false);
    for member in members {
        is_member[usize::from(*member)] = true;
    }
}

/// By target, what the edges to it sum to.
pub(crate) fn supports_of(
    alloc: Global,
    targets: usize,
    edges: &[Edge],
) -> Result<Vec<u128>, NoMemory>
    requires few { length edges.now ≤ 2 ^ 20 }
    requires in_range { All (λ edge. edge.target < targets) edges.now }
    requires small { All (λ edge. edge.amount < 2 ^ 64) edges.now }
    ensures count { IfOk result (λ supports. length supports.items ≡ targets) }
    ensures sums { IfOk result (λ supports. (target : ℕ)
        → slice_index_or supports.items target 0 ≡ support edges.now target) }
{
    let mut supports = vec![in alloc; 0; targets]?;
    for edge in edges {
        supports[usize::from(edge.target)] += u128::from(edge.amount);
    }
    Ok(supports)
}
