//! The search for the target outside with the greatest score.
ghost use Rattle.std.specs.Prelude.{◌≡◌, ◌<◌, ◌≤◌, ◌+◌, ◌-◌, ◌/◌, ℕ, true, nat_lt, length, take, filter, slice_index_or, All, IfSome, IfNone};
ghost use Rattle.election_snapshot.specs.Snapshot.{has};
ghost use Rattle.seat_race.specs.Tables.{AreNominators};
ghost use Rattle.phragmms_miner.specs.Passes.{AreSpare};
ghost use Rattle.phragmms_miner.specs.Scores.{score};
ghost use Rattle.phragmms_miner.specs.Search.{IsBestOf, AreRising};

use crate::course::Course;
use crate::few::{are_few, test_price};
use election_snapshot::Snapshot;
use npos_base::Edge;
use seat_race::Nominators;

/// A score is far below another one where it is less by more than this part of that.
const FAR_PART: u64 = 256;

/// The lowest of the targets outside with the greatest score. What the two reach that looked best in
/// the last tests is found first, by their nominators alone where they are few. The greatest is
/// seldom far above it, so that a first test of all there leaves few. The hint is a price that the
/// score is expected to be near, and the score is left there.
pub(crate) fn best_outside(
    snapshot: &Snapshot,
    edges: &[Edge],
    supports: &[u128],
    approvals: &[u64],
    nominators: &Nominators,
    outside: &mut [u16],
    rates: &mut [u64],
    left: &mut [u64],
    prescores: &mut [u64],
    hint: &mut u64,
) -> u16
    requires spare { AreSpare snapshot.now edges.now supports.now }
    requires rates { length rates.old ≡ length supports.now }
    requires stakes { length left.old ≡ length snapshot.now.voters }
    requires targets { length prescores.old ≡ length snapshot.now.targets }
    requires approvals { length approvals.now ≡ length snapshot.now.targets }
    requires nominated { length nominators.now ≡ length snapshot.now.targets }
    requires nominators { AreNominators snapshot.now nominators.now }
    requires some { 1 ≤ length outside.old }
    requires rising { AreRising (length snapshot.now.targets) outside.old }
    ensures best { IsBestOf (score snapshot.now edges.now) outside.old result }
    ensures hint { hint.new ≡ score snapshot.now edges.now result }
{
    let expected = *hint;
    let (mut pair, count) = likely_pair(snapshot.voter_count(), nominators, outside, prescores);
    let likely = &mut pair[..count];
    if are_few(snapshot.voter_count(), nominators, likely) {
        best_of(
            snapshot, edges, supports, approvals, nominators, likely, rates, left, prescores, hint,
        );
    }
    *hint = first_price(expected, *hint);
    best_of(
        snapshot, edges, supports, approvals, nominators, outside, rates, left, prescores, hint,
    )
}

/// The targets that look best, and how many: one with the highest prescore, and one with the highest
/// of those below it, unless the two have many nominators. Of targets with the same prescore mostly
/// all have nominators in common with the last pick, or none.
fn likely_pair(
    voters: usize,
    nominators: &Nominators,
    outside: &[u16],
    prescores: &[u64],
) -> ([u16; 2], usize)
    requires some { 1 ≤ length outside.now }
    requires rising { AreRising (length prescores.now) outside.now }
    requires nominated { length nominators.now ≡ length prescores.now }
    ensures count { (1 ≤ result.1) × (result.1 ≤ 2) }
    ensures rising { AreRising (length prescores.now) (take result.1 result.0) }
{
    let first = highest(outside, prescores);
    let second = highest_below(first, outside, prescores);
    let pair = [first.min(second), first.max(second)];
    if first != second && are_few(voters, nominators, &pair) {
        (pair, 2)
    } else {
        ([first, first], 1)
    }
}

/// Of the targets whose prescores are below that of `first`, one with the highest; `first` itself
/// where there is none. Another one would cost time alone.
fn highest_below(first: u16, targets: &[u16], prescores: &[u64]) -> u16
    requires first { first < length prescores.now }
    requires prescores { All (λ target. target < length prescores.now) targets.now }
    ensures { result < length prescores.now }
{
    let bound = prescores[usize::from(first)];
    let mut best = first;
    let mut most = 0;
    for target in targets {
        let prescore = prescores[usize::from(*target)];
        if prescore < bound && prescore > most {
            best = *target;
            most = prescore;
        }
    }
    best
}

/// The price at which all are tested first: what the targets that looked best reach. Where that is
/// far below the expected score, they mostly have nominators in common with the last pick, and what
/// others reach is nearer to that score.
fn first_price(expected: u64, likely: u64) -> u64 {
    if likely < expected - expected / FAR_PART {
        expected
    } else {
        likely
    }
}

/// The lowest of the targets with the greatest score. All that are left are tested at one price at a
/// time. One whose prescore is not above a price that another reaches cannot be picked any more, and
/// no score is above the highest prescore there. The first price is the hint, and the score of the
/// pick is left there.
fn best_of(
    snapshot: &Snapshot,
    edges: &[Edge],
    supports: &[u128],
    approvals: &[u64],
    nominators: &Nominators,
    outside: &mut [u16],
    rates: &mut [u64],
    left: &mut [u64],
    prescores: &mut [u64],
    hint: &mut u64,
) -> u16
    requires spare { AreSpare snapshot.now edges.now supports.now }
    requires rates { length rates.old ≡ length supports.now }
    requires stakes { length left.old ≡ length snapshot.now.voters }
    requires targets { length prescores.old ≡ length snapshot.now.targets }
    requires approvals { length approvals.now ≡ length snapshot.now.targets }
    requires nominated { length nominators.now ≡ length snapshot.now.targets }
    requires nominators { AreNominators snapshot.now nominators.now }
    requires some { 1 ≤ length outside.old }
    requires rising { AreRising (length snapshot.now.targets) outside.old }
    ensures best { IsBestOf (score snapshot.now edges.now) outside.old result }
    ensures hint { hint.new ≡ score snapshot.now edges.now result }
{
    let mut count = outside.len();
    let mut low = 0;
    let mut top = snapshot.total();
    let mut pick = outside[0];
    let mut course = Course::new(*hint);
    while low < top && count > 0 {
        let test = course.next(low, top);
        let alive = &outside[..count];
        test_price(
            test, snapshot, edges, supports, nominators, alive, rates, left, prescores,
        );
        let likeliest = usize::from(highest(alive, prescores));
        let peak = prescores[likeliest];
        course.note(test, peak, approvals[likeliest]);
        match lowest_reaching(test, alive, prescores) {
            Some(target) => {
                pick = target;
                low = test;
                top = top.min(peak);
                count = keep_above(test, prescores, &mut outside[..count]);
            }
            None => top = test - 1,
        }
    }
    *hint = low;
    pick
}

/// The first of the targets with the highest prescore.
fn highest(targets: &[u16], prescores: &[u64]) -> u16
    requires some { 1 ≤ length targets.now }
    requires prescores { All (λ target. target < length prescores.now) targets.now }
    ensures in_range { result < length prescores.now }
    ensures most { All (λ target. slice_index_or prescores.now target 0
        ≤ slice_index_or prescores.now result 0) targets.now }
{
    let mut best = targets[0];
    for target in targets {
        if prescores[usize::from(*target)] > prescores[usize::from(best)] {
            best = *target;
        }
    }
    best
}

/// The first of the targets whose prescore is at least the price.
fn lowest_reaching(test: u64, alive: &[u16], prescores: &[u64]) -> Option<u16>
    requires { AreRising (length prescores.now) alive.now }
    ensures found { IfSome result (λ target. (has alive.now target ≡ true)
        × (test ≤ slice_index_or prescores.now target 0)
        × ((other : ℕ) → has alive.now other ≡ true → test ≤ slice_index_or prescores.now other 0
        → target ≤ other)) }
    ensures none { IfNone result ((other : ℕ) → has alive.now other ≡ true
        → slice_index_or prescores.now other 0 < test) }
{
    for target in alive {
        if prescores[usize::from(*target)] >= test {
            return Some(*target);
        }
    }
    None
}

/// Keeps the targets whose prescore is above the price in front, and tells how many they are.
fn keep_above(test: u64, prescores: &[u64], alive: &mut [u16]) -> usize
    requires { All (λ target. target < length prescores.now) alive.old }
    ensures count { result ≤ length alive.old }
    ensures kept { take result alive.new
        ≡ filter (λ target. nat_lt test (slice_index_or prescores.now target 0)) alive.old }
{
    let mut count = 0;
    for i in 0..alive.len() {
        let target = alive[i];
        if prescores[usize::from(target)] > test {
            alive[count] = target;
            count += 1;
        }
    }
    count
}
