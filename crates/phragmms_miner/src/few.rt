//! One test of a price: the prescores of the targets that are left. Most tests have a handful left,
//! and then look at their nominators and at the edges of those alone. Where these are more, a pass
//! over all edges takes less time; and where they are not most, one over all votes takes more.
ghost use Rattle.std.specs.Prelude.{◌≡◌, ◌<◌, ◌≤◌, ◌^◌, ℕ, length, All, sum_by, slice_index_or};
ghost use Rattle.std.specs.List.Sorted.{IsNonDecreasingBy};
ghost use Rattle.npos_base.specs.declared.figures.Edge.{Edge};
ghost use Rattle.election_snapshot.specs.Snapshot.{stake_of, total_stake};
ghost use Rattle.weight_book.specs.Passing.{slack};
ghost use Rattle.seat_race.specs.Tables.{AreNominators};
ghost use Rattle.phragmms_miner.specs.Passes.{AreSpare, AreRates, ArePrescores};

use crate::pass::{fill_prescores, fill_rates, pay};
use crate::some::fill_some;
use election_snapshot::Snapshot;
use npos_base::Edge;
use seat_race::Nominators;

/// Nominators are few where they are at most this part of the voters. The edges of each are
/// searched for, so that for more of them a pass over all edges takes less time.
const FEW_PART: usize = 8;

/// By target that is left, what its nominators have left where a seat costs at most `price`. No
/// test takes much longer than a pass over all edges and votes. What stands in `left` does not
/// matter.
pub(crate) fn test_price(
    price: u64,
    snapshot: &Snapshot,
    edges: &[Edge],
    supports: &[u128],
    nominators: &Nominators,
    alive: &[u16],
    rates: &mut [u64],
    left: &mut [u64],
    prescores: &mut [u64],
)
    requires spare { AreSpare snapshot.now edges.now supports.now }
    requires rates { length rates.old ≡ length supports.now }
    requires stakes { length left.old ≡ length snapshot.now.voters }
    requires targets { length prescores.old ≡ length snapshot.now.targets }
    requires nominated { length nominators.now ≡ length snapshot.now.targets }
    requires nominators { AreNominators snapshot.now nominators.now }
    requires alive { All (λ target. target < length snapshot.now.targets) alive.now }
    ensures { ArePrescores price snapshot.now edges.now alive.now prescores.new }
{
    fill_rates(price, supports, rates);
    if are_few(snapshot.voter_count(), nominators, alive) {
        fill_few(
            price, snapshot, edges, supports, rates, nominators, alive, left, prescores,
        );
    } else if are_within(snapshot.voter_count(), nominators, alive) {
        fill_some(
            price, snapshot, edges, supports, rates, nominators, alive, left, prescores,
        );
    } else {
        fill_prescores(price, snapshot, edges, supports, rates, left, prescores);
    }
}

/// Whether the targets have few nominators in all, among so many voters. Another answer would cost
/// time alone, so nothing is said of it.
pub(crate) fn are_few(voters: usize, nominators: &Nominators, alive: &[u16]) -> bool
    requires { All (λ target. target < length nominators.now) alive.now }
{
    are_within(voters / FEW_PART, nominators, alive)
}

/// Whether the targets have at most so many nominators in all. Another answer would cost time alone.
fn are_within(most: usize, nominators: &Nominators, alive: &[u16]) -> bool
    requires { All (λ target. target < length nominators.now) alive.now }
{
    let mut room = most;
    for target in alive {
        let count = nominators.of(*target).len();
        if count > room {
            return false;
        }
        room -= count;
    }
    true
}

/// By target that is left, what its nominators have left, each by its own edges. By voter, `starts`
/// says where its edges begin, if it was looked at before; nothing rests on that.
fn fill_few(
    price: u64,
    snapshot: &Snapshot,
    edges: &[Edge],
    supports: &[u128],
    rates: &[u64],
    nominators: &Nominators,
    alive: &[u16],
    starts: &mut [u64],
    prescores: &mut [u64],
)
    requires spare { AreSpare snapshot.now edges.now supports.now }
    requires rates { AreRates price supports.now rates.now }
    requires fits { total_stake snapshot.now < 2 ^ 64 }
    requires starts { length starts.old ≡ length snapshot.now.voters }
    requires targets { length prescores.old ≡ length snapshot.now.targets }
    requires nominated { length nominators.now ≡ length snapshot.now.targets }
    requires nominators { AreNominators snapshot.now nominators.now }
    requires alive { All (λ target. target < length snapshot.now.targets) alive.now }
    ensures { ArePrescores price snapshot.now edges.now alive.now prescores.new }
{
    for target in alive {
        let place = usize::from(*target);
        let voters = nominators.of(*target);
        prescores[place] = slack_sum(price, snapshot, edges, supports, rates, voters, starts);
    }
}

/// What these voters have left in all.
#[inline(never)]
fn slack_sum(
    price: u64,
    snapshot: &Snapshot,
    edges: &[Edge],
    supports: &[u128],
    rates: &[u64],
    voters: &[u32],
    starts: &mut [u64],
) -> u64
    requires spare { AreSpare snapshot.now edges.now supports.now }
    requires rates { AreRates price supports.now rates.now }
    requires starts { length starts.old ≡ length snapshot.now.voters }
    requires voters { All (λ voter. voter < length snapshot.now.voters) voters.now }
    requires fits { sum_by (stake_of snapshot.now) voters.now < 2 ^ 64 }
    ensures { result ≡ sum_by (slack price snapshot.now edges.now) voters.now }
{
    let mut sum = 0;
    for voter in voters {
        sum += slack_of(price, snapshot, edges, supports, rates, *voter, starts);
    }
    sum
}

/// What the voter has left: its stake less what its edges pay, which stand next to each other.
fn slack_of(
    price: u64,
    snapshot: &Snapshot,
    edges: &[Edge],
    supports: &[u128],
    rates: &[u64],
    voter: u32,
    starts: &mut [u64],
) -> u64
    requires spare { AreSpare snapshot.now edges.now supports.now }
    requires rates { AreRates price supports.now rates.now }
    requires starts { length starts.old ≡ length snapshot.now.voters }
    requires voter { voter < length snapshot.now.voters }
    ensures { result ≡ slack price snapshot.now edges.now voter }
{
    let mut left = snapshot.stake(voter);
    let mut at = row_start(voter, starts[voter as usize], edges);
    starts[voter as usize] = at as u64;
    while at < edges.len() && edges[at].voter == voter {
        let edge = edges[at];
        let place = usize::from(edge.target);
        left -= pay(price, edge.amount, supports[place], rates[place]);
        at += 1;
    }
    left
}

/// Where the edges of the voter begin, or would. The guess is looked at first.
fn row_start(voter: u32, guess: u64, edges: &[Edge]) -> usize
    requires { IsNonDecreasingBy (λ edge. edge.voter) edges.now }
    ensures within { result ≤ length edges.now }
    ensures before { (k : ℕ) (d : Edge) → k < result → k < length edges.now
        → (slice_index_or edges.now k d).voter < voter }
    ensures behind { (k : ℕ) (d : Edge) → result ≤ k → k < length edges.now
        → voter ≤ (slice_index_or edges.now k d).voter }
{
    let at = guess as usize;
    if 0 < at && at < edges.len() && edges[at - 1].voter < voter && voter <= edges[at].voter {
        return at;
    }
    edges.partition_point(|edge| edge.voter < voter)
}
