//! How each voter's stake is split over the picks that raised its load.
ghost use Rattle.std.specs.Prelude.{◌≡◌, ℕ, ◌-◌, ◌<◌, ◌≤◌, ◌∷◌, [], ◌++◌, if◌then◌else◌, length, nat_lt, OnOk};
ghost use Rattle.election_snapshot.specs.Snapshot.{stake_of};
ghost use Rattle.seq_phragmen.specs.Mined.{part};
ghost use Rattle.seat_race.specs.Tables.{says};
ghost use Rattle.seq_phragmen.specs.Kept.{earlier_parts, gift, gifts_of, CanSplit};

use crate::rise::Rise;
use election_snapshot::Snapshot;
use npos_base::{Edge, NoMemory, part_of};

/// Takes the part of each rise that is not of its voter's last pick from what the voter has left.
pub(crate) fn take_parts(
    snapshot: &Snapshot,
    loads: &[u64],
    lasts: &[u16],
    rises: &[Rise],
    left: &mut [u64],
)
    requires loads_size { length loads.now ≡ length snapshot.now.voters }
    requires lasts_size { length lasts.now ≡ length snapshot.now.voters }
    requires left_size { length left.old ≡ length snapshot.now.voters }
    requires rises { CanSplit snapshot.now (says loads.now) rises.now }
    requires stakes { (voter : ℕ) → says left.old voter ≡ stake_of snapshot.now voter }
    requires enough { (voter : ℕ) → voter < length snapshot.now.voters
        → earlier_parts snapshot.now (says loads.now voter) (says lasts.now voter) rises.now voter
        ≤ stake_of snapshot.now voter }
    ensures { (voter : ℕ) → says left.new voter ≡ stake_of snapshot.now voter
        - earlier_parts snapshot.now (says loads.now voter) (says lasts.now voter) rises.now voter }
{
    for rise in rises {
        if rise.target != lasts[rise.voter as usize] {
            left[rise.voter as usize] -= part_by(snapshot, loads, rise);
        }
    }
}

/// The edges of the rises, where they are of more than nothing: the rise of a voter's last pick
/// gets what the parts of the others leave.
pub(crate) fn list_edges(
    snapshot: &Snapshot,
    loads: &[u64],
    lasts: &[u16],
    left: &[u64],
    rises: &[Rise],
    edges: &mut Vec<Edge>,
) -> Result<(), NoMemory>
    requires loads_size { length loads.now ≡ length snapshot.now.voters }
    requires lasts_size { length lasts.now ≡ length snapshot.now.voters }
    requires left_size { length left.now ≡ length snapshot.now.voters }
    requires rises { CanSplit snapshot.now (says loads.now) rises.now }
    ensures { OnOk result (edges.new.items ≡ edges.old.items
        ++ gifts_of snapshot.now (says loads.now) (says lasts.now) (says left.now) rises.now) }
{
    for rise in rises {
        push_edge(rise, gift_by(snapshot, loads, lasts, left, rise), edges)?;
    }
    Ok(())
}

/// What the rise gives of its voter's stake.
fn gift_by(snapshot: &Snapshot, loads: &[u64], lasts: &[u16], left: &[u64], rise: &Rise) -> u64
    requires loads_size { length loads.now ≡ length snapshot.now.voters }
    requires lasts_size { length lasts.now ≡ length snapshot.now.voters }
    requires left_size { length left.now ≡ length snapshot.now.voters }
    requires in_range { rise.now.voter < length snapshot.now.voters }
    requires loaded { 0 < says loads.now rise.now.voter }
    requires within { rise.now.height ≤ says loads.now rise.now.voter }
    ensures { result
        ≡ gift snapshot.now (says loads.now) (says lasts.now) (says left.now) rise.now }
{
    if rise.target == lasts[rise.voter as usize] {
        left[rise.voter as usize]
    } else {
        part_by(snapshot, loads, rise)
    }
}

/// The part of its voter's stake that the rise is of the whole load, rounded down.
fn part_by(snapshot: &Snapshot, loads: &[u64], rise: &Rise) -> u64
    requires loads_size { length loads.now ≡ length snapshot.now.voters }
    requires in_range { rise.now.voter < length snapshot.now.voters }
    requires loaded { 0 < says loads.now rise.now.voter }
    requires within { rise.now.height ≤ says loads.now rise.now.voter }
    ensures { result
        ≡ part snapshot.now (says loads.now rise.now.voter) rise.now.voter rise.now.height }
{
    part_of(
        snapshot.stake(rise.voter),
        rise.height,
        loads[rise.voter as usize],
    )
}

/// Appends the edge of a rise, where it is of more than nothing.
fn push_edge(rise: &Rise, amount: u64, edges: &mut Vec<Edge>) -> Result<(), NoMemory>
    ensures { OnOk result (edges.new.items ≡ edges.old.items ++ (if nat_lt 0 amount
        then record { voter = rise.now.voter; target = rise.now.target; amount = amount } ∷ []
        else [])) }
{
    if amount > 0 {
        edges.push(Edge {
            voter: rise.voter,
            target: rise.target,
            amount,
        })?;
    }
    Ok(())
}
