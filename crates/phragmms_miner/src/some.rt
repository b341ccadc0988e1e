//! A test that looks at all edges, but sums what voters have left over the nominators of those
//! targets alone that are left.
ghost use Rattle.std.specs.Prelude.{◌≡◌, ◌<◌, ◌^◌, ℕ, [], length, All, sum_by, slice_index_or};
ghost use Rattle.election_snapshot.specs.Snapshot.{total_stake};
ghost use Rattle.seat_race.specs.Tables.{says, AreNominators};
ghost use Rattle.phragmms_miner.specs.Passes.{AreSpare, AreRates, ArePrescores};

use crate::pass::fill_slacks;
use election_snapshot::Snapshot;
use npos_base::Edge;
use seat_race::Nominators;

/// By target that is left, what its nominators have left.
pub(crate) fn fill_some(
    price: u64,
    snapshot: &Snapshot,
    edges: &[Edge],
    supports: &[u128],
    rates: &[u64],
    nominators: &Nominators,
    alive: &[u16],
    left: &mut [u64],
    prescores: &mut [u64],
)
    requires spare { AreSpare snapshot.now edges.now supports.now }
    requires rates { AreRates price supports.now rates.now }
    requires fits { total_stake snapshot.now < 2 ^ 64 }
    requires stakes { length left.old ≡ length snapshot.now.voters }
    requires targets { length prescores.old ≡ length snapshot.now.targets }
    requires nominated { length nominators.now ≡ length snapshot.now.targets }
    requires nominators { AreNominators snapshot.now nominators.now }
    requires alive { All (λ target. target < length snapshot.now.targets) alive.now }
    ensures { ArePrescores price snapshot.now edges.now alive.now prescores.new }
{
    fill_slacks(price, snapshot, edges, supports, rates, left);
    add_up(nominators, alive, left, prescores);
}

/// By target that is left, the sum of the values of its nominators.
fn add_up(nominators: &Nominators, alive: &[u16], values: &[u64], sums: &mut [u64])
    requires targets { All (λ target. target < length sums.old) alive.now }
    requires nominated { length nominators.now ≡ length sums.old }
    requires voters { All (λ target. All (λ voter. voter < length values.now)
        (slice_index_or nominators.now target [])) alive.now }
    requires fits { All (λ target. sum_by (says values.now)
        (slice_index_or nominators.now target []) < 2 ^ 64) alive.now }
    ensures { All (λ target. slice_index_or sums.new target 0
        ≡ sum_by (says values.now) (slice_index_or nominators.now target [])) alive.now }
{
    for target in alive {
        sums[usize::from(*target)] = sum_of(nominators.of(*target), values);
    }
}

/// The sum of the values of these voters.
fn sum_of(voters: &[u32], values: &[u64]) -> u64
    requires voters { All (λ voter. voter < length values.now) voters.now }
    requires fits { sum_by (says values.now) voters.now < 2 ^ 64 }
    ensures { result ≡ sum_by (says values.now) voters.now }
{
    let mut sum = 0;
    for voter in voters {
        sum += values[*voter as usize];
    }
    sum
}
