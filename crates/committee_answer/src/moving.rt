//! What voters have left goes along ways.
ghost use Rattle.std.specs.Prelude.{◌≡◌, ◌≤◌, ◌<◌, ℕ, length, All, IsTrue, IfNone, IfSome};
ghost use Rattle.election_snapshot.specs.Snapshot.{has};
ghost use Rattle.committee_answer.specs.Offers.{AreMoved, AreSmall, at};
ghost use Rattle.committee_answer.specs.Ways.{AreLists, IsReach, IsReached};

use crate::lists::Lists;
use crate::offers::Offers;
use crate::reach::Reach;

/// The first of the voters that has something left and a way.
pub(crate) fn first_mover(offers: &Offers, reach: &Reach, voters: &[u32]) -> Option<u32>
    requires voters { All (λ voter. voter < length offers.now.left.items) voters.now }
    requires reach { length reach.now.voters.items ≡ length offers.now.left.items }
    ensures left { IfSome result (λ voter. 0 < at offers.now.left.items voter) }
    ensures reached { IfSome result (λ voter. IsReached reach.now.voters.items voter) }
    ensures none { IfNone result ((voter : ℕ) → IsTrue (has voters.now voter)
        → IsReached reach.now.voters.items voter → at offers.now.left.items voter ≡ 0) }
{
    for voter in voters {
        if offers.left[*voter as usize] > 0 && reach.voters[*voter as usize].leads() {
            return Some(*voter);
        }
    }
    None
}

/// Along the way of the voter something of what it has left goes to a member that takes more.
pub(crate) fn lead(offers: &mut Offers, reach: &Reach, voter: u32)
    requires small { AreSmall offers.old }
    requires reach { IsReach offers.old reach.now.voters.items reach.now.members.items }
    requires left { 0 < at offers.old.left.items voter }
    requires reached { IsReached reach.now.voters.items voter }
    ensures small { AreSmall offers.new }
    ensures moved { AreMoved offers.old offers.new }
    ensures less { offers.new.rest < offers.old.rest }
{
    let mut mover = voter;
    'steps: loop {
        let place = reach.voters[mover as usize].edge;
        let target = usize::from(offers.edges[place].target);
        if offers.spare[target] > 0 {
            offers.give_all(place);
            return;
        }
        let back = reach.members[target].edge;
        mover = offers.edges[back].voter;
        offers.hand_over(place, back);
    }
}

/// From the voters with the longest ways on, each moves on what it has left, also what it got from
/// others. How far this goes is not proved: `lead` alone makes the search end.
#[tactic(auto, using(crate::proofs::OfferLemmas::moved_then, crate::proofs::OfferLemmas::moved_none, crate::proofs::LeadLemmas::moved_lists))]
pub(crate) fn move_all(offers: &mut Offers, reach: &Reach, lists: &Lists, cursors: &mut [usize])
    requires small { AreSmall offers.old }
    requires lists { AreLists offers.old lists.now }
    requires cursors { length cursors.old ≡ length offers.old.spare.items }
    requires voters { length reach.now.voters.items ≡ length offers.old.left.items }
    requires members { length reach.now.members.items ≡ length offers.old.spare.items }
    ensures small { AreSmall offers.new }
    ensures moved { AreMoved offers.old offers.new }
    ensures rest { offers.new.rest ≤ offers.old.rest }
    ensures lists { AreLists offers.new lists.now }
{
    cursors.copy_from_slice(&lists.heads);
    for voter in reach.order.iter().rev() {
        move_on(offers, reach, lists, cursors, *voter);
    }
}

/// The voter moves on what it has left, to members that are no further than it is.
#[tactic(auto, using(crate::proofs::OfferLemmas::moved_then, crate::proofs::OfferLemmas::moved_none, crate::proofs::LeadLemmas::moved_lists))]
fn move_on(offers: &mut Offers, reach: &Reach, lists: &Lists, cursors: &mut [usize], voter: u32)
    requires small { AreSmall offers.old }
    requires lists { AreLists offers.old lists.now }
    requires cursors { length cursors.old ≡ length offers.old.spare.items }
    requires voters { length reach.now.voters.items ≡ length offers.old.left.items }
    requires members { length reach.now.members.items ≡ length offers.old.spare.items }
    ensures small { AreSmall offers.new }
    ensures moved { AreMoved offers.old offers.new }
    ensures rest { offers.new.rest ≤ offers.old.rest }
    ensures lists { AreLists offers.new lists.now }
{
    if voter as usize >= offers.left.len() {
        return;
    }
    for place in lists.begins[voter as usize]..offers.edges.len() {
        if offers.edges[place].voter != voter || offers.left[voter as usize] == 0 {
            return;
        }
        let target = usize::from(offers.edges[place].target);
        if reach.members[target].steps <= reach.voters[voter as usize].steps {
            offers.give_all(place);
            move_in(offers, reach, lists, cursors, place);
        }
    }
}

/// The voter of the edge gives in place of voters from whom the member is nearer.
#[tactic(auto, using(crate::proofs::OfferLemmas::moved_then, crate::proofs::OfferLemmas::moved_none, crate::proofs::LeadLemmas::moved_lists))]
fn move_in(offers: &mut Offers, reach: &Reach, lists: &Lists, cursors: &mut [usize], place: usize)
    requires small { AreSmall offers.old }
    requires place { place < length offers.old.edges.items }
    requires lists { AreLists offers.old lists.now }
    requires cursors { length cursors.old ≡ length offers.old.spare.items }
    requires voters { length reach.now.voters.items ≡ length offers.old.left.items }
    requires members { length reach.now.members.items ≡ length offers.old.spare.items }
    ensures small { AreSmall offers.new }
    ensures moved { AreMoved offers.old offers.new }
    ensures rest { offers.new.rest ≤ offers.old.rest }
    ensures lists { AreLists offers.new lists.now }
{
    let voter = offers.edges[place].voter as usize;
    let target = usize::from(offers.edges[place].target);
    'edges: for _ in 0..offers.edges.len() {
        let back = cursors[target];
        if back >= offers.edges.len() || offers.left[voter] == 0 {
            return;
        }
        take_place(offers, reach, place, back);
        if offers.left[voter] > 0 {
            cursors[target] = lists.nexts[back];
        }
    }
}

/// The voter of the edge gives in place of that of the other one, where this one is to the same member
/// and its voter has a shorter way than the member.
#[tactic(auto, using(crate::proofs::OfferLemmas::moved_none))]
fn take_place(offers: &mut Offers, reach: &Reach, place: usize, back: usize)
    requires small { AreSmall offers.old }
    requires place { place < length offers.old.edges.items }
    requires back { back < length offers.old.edges.items }
    requires voters { length reach.now.voters.items ≡ length offers.old.left.items }
    requires members { length reach.now.members.items ≡ length offers.old.spare.items }
    ensures small { AreSmall offers.new }
    ensures moved { AreMoved offers.old offers.new }
    ensures rest { offers.new.rest ≤ offers.old.rest }
{
    let edge = offers.edges[place];
    let other = offers.edges[back];
    if other.target != edge.target {
        return;
    }
    let steps = reach.members[usize::from(edge.target)].steps;
    if reach.voters[other.voter as usize].steps < steps {
        offers.hand_over(place, back);
    }
}
