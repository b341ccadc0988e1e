//! Tables by target, changed at the votes of one voter or of all.
ghost use Rattle.std.specs.Prelude.{◌≡◌, ℕ, ◌+◌, ◌-◌, ◌<◌, ◌≤◌, ◌^◌, if◌then◌else◌, length, nat_eq, All, IsTrue};
ghost use Rattle.std.specs.List.{IsDistinct};
ghost use Rattle.election_snapshot.specs.Snapshot.{has, stake_of};
ghost use Rattle.seat_race.specs.Tables.{says, AreSums};

use election_snapshot::Snapshot;

/// By target, the sum of what the values say of its nominators, in one pass over the votes. No
/// voter has a value above its stake.
pub fn fill_sums(snapshot: &Snapshot, values: &[u64], sums: &mut [u64])
    requires voters { length values.now ≡ length snapshot.now.voters }
    requires within { (voter : ℕ) → says values.now voter ≤ stake_of snapshot.now voter }
    requires targets { length sums.old ≡ length snapshot.now.targets }
    ensures { AreSums snapshot.now values.now sums.new }
{
    sums.fill(0);
    for voter in 0..snapshot.voter_count() {
        raise_at(snapshot.votes(voter as u32), values[voter], sums);
    }
}

/// Adds the amount at each of the votes.
pub fn raise_at(votes: &[u16], amount: u64, table: &mut [u64])
    requires in_range { All (λ vote. vote < length table.old) votes.now }
    requires distinct { IsDistinct nat_eq votes.now }
    requires fits { (target : ℕ) → target < length table.old
        → says table.old target + amount < 2 ^ 64 }
    ensures { (target : ℕ) → target < length table.old
        → says table.new target ≡ if has votes.now target then says table.old target + amount
        else says table.old target }
{
    for vote in votes {
        table[usize::from(*vote)] += amount;
    }
}

/// Adds the amount at each of the votes, in a table of wide numbers.
pub fn raise_wide_at(votes: &[u16], amount: u128, wide: &mut [u128])
    requires in_range { All (λ vote. vote < length wide.old) votes.now }
    requires distinct { IsDistinct nat_eq votes.now }
    requires fits { (target : ℕ) → target < length wide.old
        → says wide.old target + amount < 2 ^ 128 }
    ensures { (target : ℕ) → target < length wide.old
        → says wide.new target ≡ if has votes.now target then says wide.old target + amount
        else says wide.old target }
{
    for vote in votes {
        wide[usize::from(*vote)] += amount;
    }
}

/// Takes the amount away at each of the votes.
pub fn lower_at(votes: &[u16], amount: u64, table: &mut [u64])
    requires in_range { All (λ vote. vote < length table.old) votes.now }
    requires distinct { IsDistinct nat_eq votes.now }
    requires enough { (target : ℕ) → IsTrue (has votes.now target)
        → amount ≤ says table.old target }
    ensures { (target : ℕ) → target < length table.old
        → says table.new target ≡ if has votes.now target then says table.old target - amount
        else says table.old target }
{
    for vote in votes {
        table[usize::from(*vote)] -= amount;
    }
}
