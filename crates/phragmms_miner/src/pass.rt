//! Prescores of all targets at one price of a seat: one pass over the edges and one over the votes.
//! There is one division for each target, by which rates are made, and none for the edges.
ghost use Rattle.std.specs.Prelude.{◌≡◌, ◌<◌, ◌≤◌, ◌*◌, ◌/◌, ℕ, min, length, slice_index_or};
ghost use Rattle.weight_book.specs.Passing.{slack, prescore};
ghost use Rattle.phragmms_miner.specs.Passes.{AreSpare, AreRates, IsRate};

use election_snapshot::Snapshot;
use npos_base::Edge;
use seat_race::fill_sums;

/// Rates are in so many parts of one: `2^64`.
const WHOLE: u128 = 18_446_744_073_709_551_616;

/// By target, what its nominators have left where a seat costs at most `price`.
pub(crate) fn fill_prescores(
    price: u64,
    snapshot: &Snapshot,
    edges: &[Edge],
    supports: &[u128],
    rates: &[u64],
    left: &mut [u64],
    prescores: &mut [u64],
)
    requires spare { AreSpare snapshot.now edges.now supports.now }
    requires rates { AreRates price supports.now rates.now }
    requires stakes { length left.old ≡ length snapshot.now.voters }
    requires targets { length prescores.old ≡ length snapshot.now.targets }
    ensures { (target : ℕ) → target < length snapshot.now.targets
        → slice_index_or prescores.new target 0 ≡ prescore price snapshot.now edges.now target }
{
    fill_slacks(price, snapshot, edges, supports, rates, left);
    fill_sums(snapshot, left, prescores);
}

/// By target, what part of its support is paid.
pub(crate) fn fill_rates(price: u64, supports: &[u128], rates: &mut [u64])
    requires { length rates.old ≡ length supports.now }
    ensures { AreRates price supports.now rates.new }
{
    for target in 0..supports.len() {
        rates[target] = rate_of(price, supports[target]);
    }
}

/// What part of a support above the price the price is, in units of a `WHOLE`-th, rounded down.
fn rate_of(price: u64, support: u128) -> u64
    ensures { IsRate price support result }
{
    if support <= u128::from(price) {
        return 0;
    }
    (u128::from(price) * WHOLE / support) as u64
}

/// By voter, its stake less what its edges pay.
#[inline(never)]
pub(crate) fn fill_slacks(
    price: u64,
    snapshot: &Snapshot,
    edges: &[Edge],
    supports: &[u128],
    rates: &[u64],
    left: &mut [u64],
)
    requires spare { AreSpare snapshot.now edges.now supports.now }
    requires rates { AreRates price supports.now rates.now }
    requires stakes { length left.old ≡ length snapshot.now.voters }
    ensures { (voter : ℕ) → voter < length snapshot.now.voters
        → slice_index_or left.new voter 0 ≡ slack price snapshot.now edges.now voter }
{
    left.copy_from_slice(snapshot.stakes());
    for edge in edges {
        let place = usize::from(edge.target);
        left[edge.voter as usize] -= pay(price, edge.amount, supports[place], rates[place]);
    }
}

/// The part of the price of a seat that falls to the amount, rounded down. The rate is the price by
/// the support in units of a `WHOLE`-th, rounded down too; so the amount times the rate falls short
/// of the exact product by less than the amount, in these units. Where what is cut off from it and
/// the amount together stay below a `WHOLE`, the rounded part is exact, and one sum tells that.
/// Else the products with price and support tell whether it is missed by one unit.
pub(crate) fn pay(price: u64, amount: u64, support: u128, rate: u64) -> u64
    requires within { amount ≤ support }
    requires rate { IsRate price support rate }
    ensures { result ≡ amount * min price support / support }
{
    if support <= u128::from(price) {
        return amount;
    }
    let product = u128::from(amount) * u128::from(rate);
    let part = product / WHOLE;
    if (product % WHOLE) as u64 <= u64::MAX - amount {
        return part as u64;
    }
    let rest = u128::from(amount) * u128::from(price) - part * support;
    if rest < support {
        part as u64
    } else {
        part as u64 + 1
    }
}
