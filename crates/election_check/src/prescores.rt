//! The last step of a check: what is left of the voters' stake, and whether it would pay for a seat
//! outside.
ghost use Rattle.std.specs.Prelude.{◌≡◌, ◌<◌, ◌≤◌, ◌*◌, ◌/◌, ℕ, min, false, length, slice_index_or, All};
ghost use Rattle.npos_base.specs.declared.limits.TheConstants.{MOST_TARGETS};
ghost use Rattle.weight_book.specs.Weights.{IsFeasible};
ghost use Rattle.election_check.specs.First.{answer_of};
ghost use Rattle.election_check.specs.Kept.{AreTablesOf, AreMarks, reached};
ghost use Rattle.election_check.specs.Steps.{size_fault, outweighed, slack_of};

use crate::fault::Fault;
use crate::tables::Tables;
use election_snapshot::Snapshot;
use npos_base::Edge;
use seat_race::{fill_sums, quotient};
use weight_book::Weights;

/// Tells whether there is not one member for each seat.
pub(crate) fn check_size(snapshot: &Snapshot, weights: &Weights) -> Result<(), Fault>
    requires { length weights.now.plain.committee ≤ length snapshot.now.targets }
    ensures { result ≡ answer_of (size_fault snapshot.now weights.now.plain) }
{
    let seats = snapshot.seats();
    let found = weights.committee().len() as u32;
    if found == seats {
        Ok(())
    } else {
        Err(Fault::WrongSize(found))
    }
}

/// Tells the lowest target outside whose prescore reaches the price of a seat.
pub(crate) fn check_prescores(
    snapshot: &Snapshot,
    weights: &Weights,
    tables: &mut Tables,
) -> Result<(), Fault>
    requires feasible { IsFeasible snapshot.now weights.now.plain }
    requires tables { AreTablesOf snapshot.now tables.old }
    ensures verdict { result ≡ answer_of (outweighed snapshot.now weights.now.plain) }
    ensures tables { AreTablesOf snapshot.now tables.new }
{
    check_outside(
        snapshot,
        weights,
        &mut tables.is_member,
        &mut tables.rates,
        &mut tables.left,
        &mut tables.prescores,
    )
}

/// The same, by tables of members, rates, slacks and prescores.
fn check_outside(
    snapshot: &Snapshot,
    weights: &Weights,
    is_member: &mut [bool],
    rates: &mut [u64],
    left: &mut [u64],
    prescores: &mut [u64],
) -> Result<(), Fault>
    requires feasible { IsFeasible snapshot.now weights.now.plain }
    requires members { length is_member.old ≡ length snapshot.now.targets }
    requires voters { length left.old ≡ length snapshot.now.voters }
    requires targets { length prescores.old ≡ length snapshot.now.targets }
    ensures { result ≡ answer_of (outweighed snapshot.now weights.now.plain) }
{
    let seat_price = snapshot.threshold();
    mark(weights.committee(), is_member);
    fill_rates(seat_price, weights, rates);
    fill_slacks(snapshot, weights, rates, left);
    fill_sums(snapshot, left, prescores);
    check_reached(seat_price, is_member, prescores)
}

/// Marks the members alone.
fn mark(members: &[u16], is_member: &mut [bool])
    requires { All (λ member. member < length is_member.old) members.now }
    ensures { AreMarks is_member.new members.now }
{
    is_member.fill(false);
    for member in members {
        is_member[usize::from(*member)] = true;
    }
}

/// By member, what its edges pay of each unit, in parts of 2^64, where they do not pay all. A payment
/// is guessed by it, and nothing rests on that.
fn fill_rates(price: u64, weights: &Weights, rates: &mut [u64]) {
    for member in weights.committee() {
        if let Some(rate) = rates.get_mut(usize::from(*member)) {
            *rate = rate_of(price, weights.support(*member));
        }
    }
}

/// The price by the support, in parts of 2^64 and rounded down.
fn rate_of(price: u64, support: u128) -> u64 {
    if support <= u128::from(price) {
        return u64::MAX;
    }
    match u64::try_from(u128::from(price) * (1 << 64) / support) {
        Ok(rate) => rate,
        Err(_) => u64::MAX,
    }
}

/// By voter, its stake less what its edges pay.
fn fill_slacks(snapshot: &Snapshot, weights: &Weights, rates: &[u64], left: &mut [u64])
    requires feasible { IsFeasible snapshot.now weights.now.plain }
    requires stakes { length left.old ≡ length snapshot.now.voters }
    ensures { (voter : ℕ) → voter < length snapshot.now.voters
        → slice_index_or left.new voter 0 ≡ slack_of snapshot.now weights.now.plain voter }
{
    let price = snapshot.threshold();
    left.copy_from_slice(snapshot.stakes());
    for edge in weights.edges() {
        let guess = guess_of(edge, rates);
        left[edge.voter as usize] -= pay(edge, price, weights.support(edge.target), guess);
    }
}

/// The guess of what an edge pays.
fn guess_of(edge: &Edge, rates: &[u64]) -> u64 {
    match rates.get(usize::from(edge.target)) {
        Some(rate) => (u128::from(edge.amount) * u128::from(*rate) >> 64) as u64,
        None => 0,
    }
}

/// The edge's part of the price of its member's seat, rounded down.
fn pay(edge: &Edge, price: u64, support: u128, guess: u64) -> u64
    requires { edge.now.amount ≤ support }
    ensures { result ≡ edge.now.amount * min price support / support }
{
    if support <= u128::from(price) {
        return edge.amount;
    }
    let product = u128::from(edge.amount) * u128::from(price);
    match u64::try_from(support) {
        Ok(support) => quotient(product, support, guess) as u64,
        Err(_) => (product / support) as u64,
    }
}

/// Tells the lowest target that is not marked and whose prescore reaches the price of a seat.
fn check_reached(price: u64, is_member: &[bool], prescores: &[u64]) -> Result<(), Fault>
    requires same { length is_member.now ≡ length prescores.now }
    requires few { length prescores.now ≤ MOST_TARGETS }
    ensures { result ≡ answer_of (reached price is_member.now prescores.now) }
{
    for target in 0..prescores.len() {
        if !is_member[target] && prescores[target] >= price {
            return Err(Fault::Outweighed {
                target: target as u16,
                prescore: prescores[target],
            });
        }
    }
    Ok(())
}
