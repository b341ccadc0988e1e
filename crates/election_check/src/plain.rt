//! The steps of a check of plain weights: members, edges, spending.
ghost use Rattle.std.specs.Prelude.{◌≡◌, ◌<◌, ◌*◌, false, [], length, slice_index, slice_index_or, IfSome, IfNone, OnOk, All};
ghost use Rattle.election_snapshot.specs.Snapshot.{has};
ghost use Rattle.election_check.specs.First.{answer_of};
ghost use Rattle.election_check.specs.Kept.{AreMarks};
ghost use Rattle.election_check.specs.Plain.{members_fault, edges_fault, overspent};

use crate::fault::Fault;
use election_snapshot::Snapshot;
use npos_base::{Edge, MOST_NOMINATIONS};
use weight_book::Weights;

/// Tells the first fault of the members, and marks them where there is none.
pub(crate) fn check_members(
    snapshot: &Snapshot,
    members: &[u16],
    is_member: &mut [bool],
) -> Result<(), Fault>
    requires { length is_member.old ≡ length snapshot.now.targets }
    ensures fault { result ≡ answer_of (members_fault snapshot.now [] members.now) }
    ensures marks { OnOk result (AreMarks is_member.new members.now) }
{
    is_member.fill(false);
    for member in members {
        let place = usize::from(*member);
        if place >= snapshot.target_count() {
            return Err(Fault::NoTarget(*member));
        }
        if is_member[place] {
            return Err(Fault::TargetTwice(*member));
        }
        is_member[place] = true;
    }
    Ok(())
}

/// Tells the first fault of the edges, where the members are marked.
pub(crate) fn check_edges(
    snapshot: &Snapshot,
    weights: &Weights,
    is_member: &[bool],
    is_seen: &mut [bool],
) -> Result<(), Fault>
    requires marks { AreMarks is_member.now weights.now.plain.committee }
    requires pairs { length is_seen.old ≡ length snapshot.now.voters * MOST_NOMINATIONS }
    ensures { let plain = weights.now.plain in
        result ≡ answer_of (edges_fault snapshot.now plain.committee [] plain.edges) }
{
    is_seen.fill(false);
    let mut next = 0;
    for edge in weights.edges() {
        if edge.voter as usize >= snapshot.voter_count() {
            return Err(Fault::NoVoter(edge.voter));
        }
        if !is_marked(is_member, edge.target) {
            return Err(Fault::NoTarget(edge.target));
        }
        let Some(vote) = place_of(edge.target, snapshot.votes(edge.voter), next) else {
            return Err(Fault::NotNominated {
                voter: edge.voter,
                target: edge.target,
            });
        };
        let place = edge.voter as usize * MOST_NOMINATIONS + vote;
        if is_seen[place] {
            return Err(Fault::TargetTwice(edge.target));
        }
        is_seen[place] = true;
        next = vote + 1;
    }
    Ok(())
}

/// Whether the target is marked. Those past the table are not.
fn is_marked(marks: &[bool], target: u16) -> bool
    ensures { result ≡ slice_index_or marks.now target false }
{
    match marks.get(usize::from(target)) {
        Some(mark) => *mark,
        None => false,
    }
}

/// The place of the target among a voter's votes. The guess is looked at first, since edges mostly
/// come in the order of the votes; nothing rests on it.
fn place_of(target: u16, votes: &[u16], guess: usize) -> Option<usize>
    ensures found { IfSome result (λ place.
        (place < length votes.now) × (slice_index votes.now place ≡ target)) }
    ensures none { IfNone result (has votes.now target ≡ false) }
{
    if guess < votes.len() && votes[guess] == target {
        return Some(guess);
    }
    for place in 0..votes.len() {
        if votes[place] == target {
            return Some(place);
        }
    }
    None
}

/// Tells the lowest voter that spends more than its stake.
pub(crate) fn check_spending(
    snapshot: &Snapshot,
    edges: &[Edge],
    left: &mut [u64],
) -> Result<(), Fault>
    requires voters { All (λ edge. edge.voter < length snapshot.now.voters) edges.now }
    requires stakes { length left.old ≡ length snapshot.now.voters }
    ensures { result ≡ answer_of (overspent snapshot.now edges.now) }
{
    let mut lowest = snapshot.voter_count();
    left.copy_from_slice(snapshot.stakes());
    for edge in edges {
        let voter = edge.voter as usize;
        match left[voter].checked_sub(edge.amount) {
            Some(rest) => left[voter] = rest,
            None => lowest = lowest.min(voter),
        }
    }
    if lowest < snapshot.voter_count() {
        Err(Fault::Overspent(lowest as u32))
    } else {
        Ok(())
    }
}
