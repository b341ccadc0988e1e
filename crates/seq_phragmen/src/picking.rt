//! One pick: the target that joins, and what its nominators carry from then on.
ghost use Rattle.std.specs.Prelude.{◌≡◌, ℕ, ◌+◌, ◌-◌, ◌*◌, ◌/◌, ◌^◌, ◌<◌, ◌≤◌, ◌++◌, if◌then◌else◌, length, map, slice_set, option_map, IfSome, OnOk};
ghost use Rattle.npos_base.specs.declared.limits.TheConstants.{MOST_TARGETS};
ghost use Rattle.election_snapshot.specs.Snapshot.{nominates, total_stake};
ghost use Rattle.weight_book.specs.Passing.{nominators};
ghost use Rattle.seq_phragmen.specs.Mined.{greatest_score, shared_load};
ghost use Rattle.seat_race.specs.Picks.{less, first_best};
ghost use Rattle.seat_race.specs.Tables.{says, unmarked};
ghost use Rattle.seq_phragmen.specs.Kept.{score_by, rise_of, AreBurdens, AreFloors};

use crate::rise::Rise;
use election_snapshot::Snapshot;
use npos_base::NoMemory;
use seat_race::raise_wide_at;

/// No score is greater.
const GREATEST_SCORE: u64 = i64::MAX as u64;

/// A target that could join, and the load that its nominators would have then.
#[derive(Clone, Copy)]
pub(crate) struct Candidate {
    pub(crate) target: u16,
    pub(crate) score: u64,
}

/// The lowest of the targets that are not picked with the least score, if one is not picked. No
/// score is below its floor. So a score is made only where the floor is below the least score so
/// far, with the floor as a guess, and is then the floor. No score is above the greatest one, and
/// the least begins as a number that none reaches.
pub(crate) fn lightest_outside(
    seat: u128,
    burdens: &[u128],
    approvals: &[u64],
    is_picked: &[bool],
    floors: &mut [u64],
) -> Option<Candidate>
    requires burdens_size { length burdens.now ≡ length is_picked.now }
    requires approvals_size { length approvals.now ≡ length is_picked.now }
    requires few { length is_picked.now ≤ MOST_TARGETS }
    requires fits { (target : ℕ) → target < length is_picked.now
        → seat + says burdens.now target < 2 ^ 128 }
    requires floors_size { length floors.old ≡ length is_picked.now }
    requires floors { AreFloors (score_by seat burdens.now approvals.now) is_picked.now floors.old }
    ensures floors { AreFloors (score_by seat burdens.now approvals.now) is_picked.now floors.new }
    ensures lightest { option_map (λ candidate. candidate.target) result
        ≡ first_best less (score_by seat burdens.now approvals.now)
        (unmarked is_picked.now (length is_picked.now)) }
    ensures score { IfSome result (λ candidate. candidate.score
        ≡ score_by seat burdens.now approvals.now candidate.target) }
    ensures in_range { IfSome result (λ candidate. candidate.target < length is_picked.now) }
{
    let mut best = None;
    let mut least = u64::MAX;
    for target in 0..is_picked.len() {
        if floors[target] < least && !is_picked[target] {
            let score = share_load(seat, burdens[target], approvals[target], floors[target]);
            floors[target] = score;
            if score < least {
                best = Some(target as u16);
                least = score;
            }
        }
    }
    match best {
        Some(target) => Some(Candidate {
            target,
            score: least,
        }),
        None => None,
    }
}

/// The load of each of some voters with this stake in all, where a seat comes to what they carry.
/// Mostly it is the floor, which a product tells; a division takes several times as long.
fn share_load(seat: u128, carried: u128, stake: u64, floor: u64) -> u64
    requires fits { seat + carried < 2 ^ 128 }
    requires floor { floor ≤ shared_load seat carried stake }
    ensures load { result ≡ shared_load seat carried stake }
    ensures most { result ≤ greatest_score }
{
    if stake == 0 {
        return GREATEST_SCORE;
    }
    let whole = seat + carried;
    let stake = u128::from(stake);
    let rest = whole - u128::from(floor) * stake;
    if rest < stake {
        return floor;
    }
    (whole / stake).min(u128::from(GREATEST_SCORE)) as u64
}

/// Raises the loads of the target's nominators to the score, notes by how much, and marks the
/// target as their last pick.
pub(crate) fn raise_loads(
    snapshot: &Snapshot,
    target: u16,
    score: u64,
    voters: &[u32],
    loads: &mut [u64],
    lasts: &mut [u16],
    burdens: &mut [u128],
    rises: &mut Vec<Rise>,
) -> Result<(), NoMemory>
    requires total { total_stake snapshot.now < 2 ^ 64 }
    requires voters { voters.now ≡ nominators snapshot.now target }
    requires score { score ≤ greatest_score }
    requires none_falls { (voter : ℕ) → says loads.old voter ≤ score }
    requires loads_size { length loads.old ≡ length snapshot.now.voters }
    requires lasts_size { length lasts.old ≡ length snapshot.now.voters }
    requires burdens_size { length burdens.old ≡ length snapshot.now.targets }
    requires burdens { AreBurdens snapshot.now loads.old burdens.old }
    ensures loads { OnOk result ((voter : ℕ) → says loads.new voter
        ≡ if nominates snapshot.now voter target then score else says loads.old voter) }
    ensures lasts { OnOk result ((voter : ℕ) → says lasts.new voter
        ≡ if nominates snapshot.now voter target then target else says lasts.old voter) }
    ensures burdens { OnOk result (AreBurdens snapshot.now loads.new burdens.new) }
    ensures rises { OnOk result (rises.new.items
        ≡ rises.old.items ++ map (rise_of (says loads.old) target score) voters.now) }
{
    for voter in voters {
        let height = score - loads[*voter as usize];
        raise_load(snapshot, *voter, height, loads, burdens);
        lasts[*voter as usize] = target;
        rises.push(Rise {
            voter: *voter,
            target,
            height,
        })?;
    }
    Ok(())
}

/// Raises the voter's load, and so what the nominators of each of its votes carry.
fn raise_load(snapshot: &Snapshot, voter: u32, height: u64, loads: &mut [u64], burdens: &mut [u128])
    requires voter { voter < length snapshot.now.voters }
    requires total { total_stake snapshot.now < 2 ^ 64 }
    requires most { (other : ℕ) → says loads.old other ≤ greatest_score }
    requires within { says loads.old voter + height ≤ greatest_score }
    requires loads_size { length loads.old ≡ length snapshot.now.voters }
    requires burdens_size { length burdens.old ≡ length snapshot.now.targets }
    requires burdens { AreBurdens snapshot.now loads.old burdens.old }
    ensures loads { loads.new ≡ slice_set loads.old voter (says loads.old voter + height) }
    ensures burdens { AreBurdens snapshot.now loads.new burdens.new }
{
    loads[voter as usize] += height;
    let added = u128::from(snapshot.stake(voter)) * u128::from(height);
    raise_wide_at(snapshot.votes(voter), added, burdens);
}
