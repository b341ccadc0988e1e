//! The steps of a check of a packed solution: its entries, their edges, the listed targets.
ghost use Rattle.std.specs.Prelude.{◌≡◌, ◌≢◌, ◌<◌, ◌≤◌, ◌+◌, ◌*◌, ◌/◌, ◌++◌, [], ℕ, None, true, false, nat_lt, if◌then◌else◌, length, filter, find, not, nat_le, sum, take, slice_index_or, slice_set, IfNone, OnOk, All};
ghost use Rattle.std.specs.List.{range_with_len};
ghost use Rattle.election_snapshot.specs.Snapshot.{IsWellFormed, has, nominates};
ghost use Rattle.weight_book.specs.Weights.{no_weights, IsFeasible};
ghost use Rattle.weight_book.specs.Room.{HasRoom, KeepsRoom};
ghost use Rattle.compact_solution.specs.Solution.{targets_of, parts_of, entries_of};
ghost use Rattle.election_check.specs.First.{answer_of};
ghost use Rattle.election_check.specs.Packed.{expanded, expand_fault, entries_fault, entry_fault, first_repeat, has_bad_share, entry_edges, score_fault};
ghost use Rattle.election_check.specs.Taking.{AreTaken, IsTaken};

use crate::fault::Fault;
use crate::prescores::check_size;
use compact_solution::{Entry, PLAIN_GROUPS, Solution, WHOLE_STAKE, WIDE_GROUPS};
use election_snapshot::Snapshot;
use npos_base::{Edge, MOST_NOMINATIONS, Score};
use weight_book::Weights;

/// Fills empty weights with the members and edges of a solution, or tells the first fault of its
/// entries or of the number of members.
pub(crate) fn fill_weights(
    snapshot: &Snapshot,
    solution: &Solution,
    has_entry: &mut [bool],
    stamps: &mut [u32],
    weights: &mut Weights,
) -> Result<(), Fault>
    requires empty { weights.old.plain ≡ no_weights }
    requires room { HasRoom snapshot.now weights.old }
    requires voters { length has_entry.old ≡ length snapshot.now.voters }
    requires targets { length stamps.old ≡ length snapshot.now.targets }
    ensures fault { result ≡ answer_of (expand_fault snapshot.now solution.now) }
    ensures weights { OnOk result (weights.new.plain ≡ expanded snapshot.now solution.now) }
    ensures room { KeepsRoom weights.old weights.new }
{
    take_entries(snapshot, solution, has_entry, stamps, weights)?;
    push_members(snapshot, stamps, weights);
    check_size(snapshot, weights)
}

/// Takes all entries into empty weights, marks their voters and stamps their targets, or tells the
/// first fault.
fn take_entries(
    snapshot: &Snapshot,
    solution: &Solution,
    has_entry: &mut [bool],
    stamps: &mut [u32],
    weights: &mut Weights,
) -> Result<(), Fault>
    requires empty { weights.old.plain ≡ no_weights }
    requires room { HasRoom snapshot.now weights.old }
    requires voters { length has_entry.old ≡ length snapshot.now.voters }
    requires targets { length stamps.old ≡ length snapshot.now.targets }
    ensures fault { result ≡ answer_of (entries_fault snapshot.now [] (entries_of solution.now)) }
    ensures taken { OnOk result
        (AreTaken snapshot.now (entries_of solution.now) has_entry.new stamps.new weights.new) }
    ensures room { KeepsRoom weights.old weights.new }
{
    has_entry.fill(false);
    stamps.fill(0);
    for place in 0..solution.groups() {
        take_group(snapshot, solution, place, has_entry, stamps, weights)?;
    }
    Ok(())
}

/// Takes the entries of one group behind those of the groups before it. A function by itself keeps
/// what its loop needs in registers.
#[inline(never)]
fn take_group(
    snapshot: &Snapshot,
    solution: &Solution,
    place: usize,
    has_entry: &mut [bool],
    stamps: &mut [u32],
    weights: &mut Weights,
) -> Result<(), Fault>
    requires place { place < length solution.now }
    requires few { place < WIDE_GROUPS }
    requires taken { AreTaken snapshot.now (entries_of (take place solution.now))
        has_entry.old stamps.old weights.old }
    requires voters { length has_entry.old ≡ length snapshot.now.voters }
    requires targets { length stamps.old ≡ length snapshot.now.targets }
    ensures fault { result ≡ answer_of (entries_fault snapshot.now
        (entries_of (take place solution.now)) (slice_index_or solution.now place [])) }
    ensures taken { OnOk result (AreTaken snapshot.now (entries_of (take (place + 1) solution.now))
        has_entry.new stamps.new weights.new) }
    ensures room { KeepsRoom weights.old weights.new }
{
    for entry in solution.group(place + 1) {
        take_entry(snapshot, entry, has_entry, stamps, weights)?;
    }
    Ok(())
}

/// Takes one entry behind those before it, or tells its first fault.
fn take_entry(
    snapshot: &Snapshot,
    entry: &Entry,
    has_entry: &mut [bool],
    stamps: &mut [u32],
    weights: &mut Weights,
) -> Result<(), Fault>
    requires voters { length has_entry.old ≡ length snapshot.now.voters }
    requires targets { length stamps.old ≡ length snapshot.now.targets }
    requires own { (target : ℕ) → slice_index_or stamps.old target 0 ≡ entry.now.voter + 1
        → slice_index_or has_entry.old entry.now.voter false ≡ true }
    requires spare { entry_fault snapshot.now
        (slice_index_or has_entry.old entry.now.voter false) entry.now ≡ None
        → length (targets_of entry.now) ≤ weights.old.edge_spare }
    ensures fault { result ≡ answer_of (entry_fault snapshot.now
        (slice_index_or has_entry.old entry.now.voter false) entry.now) }
    ensures taken { OnOk result (IsTaken snapshot.now entry.now
        has_entry.old has_entry.new stamps.old stamps.new weights.old weights.new) }
    ensures room { KeepsRoom weights.old weights.new }
{
    if entry.shares().is_empty() {
        return take_single(snapshot, entry, has_entry, stamps, weights);
    }
    check_entry(snapshot, entry, has_entry, stamps)?;
    push_edges(snapshot.stake(entry.voter()), entry, weights);
    Ok(())
}

/// Takes an entry of a single target, as `take_entry` does: no target can stand twice in it, no
/// share can be a bad one, and its one edge is the whole stake.
fn take_single(
    snapshot: &Snapshot,
    entry: &Entry,
    has_entry: &mut [bool],
    stamps: &mut [u32],
    weights: &mut Weights,
) -> Result<(), Fault>
    requires single { entry.now.shares ≡ [] }
    requires voters { length has_entry.old ≡ length snapshot.now.voters }
    requires targets { length stamps.old ≡ length snapshot.now.targets }
    requires spare { entry_fault snapshot.now
        (slice_index_or has_entry.old entry.now.voter false) entry.now ≡ None
        → 0 < weights.old.edge_spare }
    ensures fault { result ≡ answer_of (entry_fault snapshot.now
        (slice_index_or has_entry.old entry.now.voter false) entry.now) }
    ensures taken { OnOk result (IsTaken snapshot.now entry.now
        has_entry.old has_entry.new stamps.old stamps.new weights.old weights.new) }
    ensures room { KeepsRoom weights.old weights.new }
{
    let voter = entry.voter();
    let place = voter as usize;
    let target = entry.last();
    if place >= snapshot.voter_count() {
        return Err(Fault::NoVoter(voter));
    }
    if usize::from(target) >= snapshot.target_count() {
        return Err(Fault::NoTarget(target));
    }
    if has_entry[place] {
        return Err(Fault::VoterTwice(voter));
    }
    if !is_vote(snapshot.votes(voter), target) {
        return Err(Fault::NotNominated { voter, target });
    }
    has_entry[place] = true;
    stamps[usize::from(target)] = voter + 1;
    weights.push_edge(Edge {
        voter,
        target,
        amount: snapshot.stake(voter),
    });
    Ok(())
}

/// Tells the first fault of an entry, or marks its voter and stamps its targets. The stamp of a
/// target is one more than the voter whose entry named it last, so that this voter's own stamp
/// tells a target that stands twice.
fn check_entry(
    snapshot: &Snapshot,
    entry: &Entry,
    has_entry: &mut [bool],
    stamps: &mut [u32],
) -> Result<(), Fault>
    requires voters { length has_entry.old ≡ length snapshot.now.voters }
    requires targets { length stamps.old ≡ length snapshot.now.targets }
    requires own { (target : ℕ) → slice_index_or stamps.old target 0 ≡ entry.now.voter + 1
        → slice_index_or has_entry.old entry.now.voter false ≡ true }
    ensures fault { result ≡ answer_of (entry_fault snapshot.now
        (slice_index_or has_entry.old entry.now.voter false) entry.now) }
    ensures marked { OnOk result (has_entry.new ≡ slice_set has_entry.old entry.now.voter true) }
    ensures stamped { OnOk result ((target : ℕ) → slice_index_or stamps.new target 0
        ≡ (if has (targets_of entry.now) target then entry.now.voter + 1
        else slice_index_or stamps.old target 0)) }
{
    let voter = entry.voter();
    if voter as usize >= snapshot.voter_count() {
        return Err(Fault::NoVoter(voter));
    }
    let stray = first_unnominated(snapshot, entry);
    if let Some(target) = first_unknown(snapshot, entry, stray) {
        return Err(Fault::NoTarget(target));
    }
    if has_entry[voter as usize] {
        return Err(Fault::VoterTwice(voter));
    }
    if let Some(target) = stamp_targets(entry, voter + 1, stamps) {
        return Err(Fault::TargetTwice(target));
    }
    if let Some(target) = stray {
        return Err(Fault::NotNominated { voter, target });
    }
    if has_bad_share(entry) {
        return Err(Fault::BadShare(voter));
    }
    has_entry[voter as usize] = true;
    Ok(())
}

/// The first target past the last one of the snapshot. There is none where the voter nominates all
/// of them, and then no target is looked at.
fn first_unknown(snapshot: &Snapshot, entry: &Entry, stray: Option<u16>) -> Option<u16>
    requires well_formed { IsWellFormed snapshot.now }
    requires voter { entry.now.voter < length snapshot.now.voters }
    requires stray { stray
        ≡ find (λ target. not (nominates snapshot.now entry.now.voter target))
        (targets_of entry.now) }
    ensures { result
        ≡ find (λ target. nat_le (length snapshot.now.targets) target) (targets_of entry.now) }
{
    match stray {
        Some(_) => first_beyond(snapshot.target_count(), entry),
        None => None,
    }
}

/// The first target that is not below this count.
fn first_beyond(count: usize, entry: &Entry) -> Option<u16>
    ensures { result ≡ find (λ target. nat_le count target) (targets_of entry.now) }
{
    for share in entry.shares() {
        if usize::from(share.target) >= count {
            return Some(share.target);
        }
    }
    let last = entry.last();
    if usize::from(last) >= count {
        Some(last)
    } else {
        None
    }
}

/// Stamps the targets up to the first that stands twice, which it tells.
fn stamp_targets(entry: &Entry, stamp: u32, stamps: &mut [u32]) -> Option<u16>
    requires in_range { All (λ target. target < length stamps.old) (targets_of entry.now) }
    requires unused { (target : ℕ) → slice_index_or stamps.old target 0 ≢ stamp }
    ensures repeat { result ≡ first_repeat [] (targets_of entry.now) }
    ensures stamped { IfNone result ((target : ℕ) → slice_index_or stamps.new target 0
        ≡ (if has (targets_of entry.now) target then stamp
        else slice_index_or stamps.old target 0)) }
{
    for share in entry.shares() {
        let place = usize::from(share.target);
        if stamps[place] == stamp {
            return Some(share.target);
        }
        stamps[place] = stamp;
    }
    let last = usize::from(entry.last());
    if stamps[last] == stamp {
        return Some(entry.last());
    }
    stamps[last] = stamp;
    None
}

/// The first target that the voter does not nominate.
fn first_unnominated(snapshot: &Snapshot, entry: &Entry) -> Option<u16>
    requires { entry.now.voter < length snapshot.now.voters }
    ensures { result
        ≡ find (λ target. not (nominates snapshot.now entry.now.voter target))
        (targets_of entry.now) }
{
    let votes = snapshot.votes(entry.voter());
    for (place, share) in entry.shares().iter().enumerate() {
        if !is_vote_near(votes, place, share.target) {
            return Some(share.target);
        }
    }
    let last = entry.last();
    if is_vote_near(votes, entry.shares().len(), last) {
        None
    } else {
        Some(last)
    }
}

/// Whether the target is among the votes. An entry mostly names all votes in their order, so the
/// one at its own place is looked at first; nothing rests on it.
#[inline(always)]
fn is_vote_near(votes: &[u16], place: usize, target: u16) -> bool
    ensures { result ≡ has votes.now target }
{
    match votes.get(place) {
        Some(vote) if *vote == target => true,
        _ => is_vote(votes, target),
    }
}

/// Whether the target is among the votes. Most voters have as many votes as there may be, or as an
/// entry of a plain solution can name, and so many are gone through without counting.
#[inline(always)]
fn is_vote(votes: &[u16], target: u16) -> bool
    ensures { result ≡ has votes.now target }
{
    if votes.len() == MOST_NOMINATIONS {
        is_among(&votes[..MOST_NOMINATIONS], target)
    } else if votes.len() == PLAIN_GROUPS {
        is_among(&votes[..PLAIN_GROUPS], target)
    } else {
        is_among(votes, target)
    }
}

/// Whether the target is among the votes. It goes through all of them, of which there are few:
/// several are compared at once where the walk does not depend on what is found.
#[inline(always)]
fn is_among(votes: &[u16], target: u16) -> bool
    ensures { result ≡ has votes.now target }
{
    let mut is_found = false;
    for vote in votes {
        is_found |= *vote == target;
    }
    is_found
}

/// Whether a share is nothing, or the shares leave nothing for the last target.
fn has_bad_share(entry: &Entry) -> bool
    ensures { result ≡ has_bad_share entry.now }
{
    let mut sum = 0;
    let mut is_bad = false;
    for share in entry.shares() {
        sum += u64::from(share.parts);
        is_bad = is_bad || share.parts == 0;
    }
    is_bad || sum >= WHOLE_STAKE
}

/// Appends the edges of an entry whose voter has this stake.
fn push_edges(stake: u64, entry: &Entry, weights: &mut Weights)
    requires spare { length (targets_of entry.now) ≤ weights.old.edge_spare }
    requires shares { sum (parts_of entry.now) < WHOLE_STAKE }
    ensures edges { weights.new.plain.edges
        ≡ weights.old.plain.edges ++ entry_edges stake entry.now }
    ensures members { weights.new.plain.committee ≡ weights.old.plain.committee }
    ensures room { KeepsRoom weights.old weights.new }
{
    let voter = entry.voter();
    let mut rest = stake;
    for share in entry.shares() {
        let amount = amount_of(stake, share.parts);
        weights.push_edge(Edge {
            voter,
            target: share.target,
            amount,
        });
        rest -= amount;
    }
    weights.push_edge(Edge {
        voter,
        target: entry.last(),
        amount: rest,
    });
}

/// So many parts of the stake, rounded down. The product of the two may not fit, so the stake is
/// split at a multiple of all parts.
fn amount_of(stake: u64, parts: u16) -> u64
    ensures { result ≡ stake * parts / WHOLE_STAKE }
{
    let parts = u64::from(parts);
    stake / WHOLE_STAKE * parts + stake % WHOLE_STAKE * parts / WHOLE_STAKE
}

/// Appends the targets that are stamped, in rising order.
fn push_members(snapshot: &Snapshot, stamps: &[u32], weights: &mut Weights)
    requires targets { length stamps.now ≡ length snapshot.now.targets }
    requires empty { weights.old.plain.committee ≡ [] }
    requires spare { length snapshot.now.targets ≤ weights.old.member_spare }
    ensures members { weights.new.plain.committee
        ≡ filter (λ target. nat_lt 0 (slice_index_or stamps.now target 0))
        (range_with_len 0 (length snapshot.now.targets)) }
    ensures edges { weights.new.plain.edges ≡ weights.old.plain.edges }
    ensures room { KeepsRoom weights.old weights.new }
{
    for target in 0..snapshot.target_count() {
        if stamps[target] > 0 {
            weights.push_member(target as u16);
        }
    }
}

/// Tells that the score of the weights is another one than the claim.
pub(crate) fn check_score(
    snapshot: &Snapshot,
    claim: &Score,
    weights: &Weights,
) -> Result<(), Fault>
    requires { IsFeasible snapshot.now weights.now.plain }
    ensures { result ≡ answer_of (score_fault claim.now weights.now.plain) }
{
    // A well-formed snapshot has a seat, and its stakes sum below 2^64.
    let _seats = snapshot.seats();
    let score = weights.score();
    if score == *claim {
        Ok(())
    } else {
        Err(Fault::WrongScore(score))
    }
}
