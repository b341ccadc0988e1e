//! What is told of a target that is denied.
ghost use Rattle.std.specs.Prelude.{◌≡◌, ◌≤◌, ◌<◌, ◌^◌, ℕ, ◌||◌, ◌&&◌, false, length, filter, slice_index_or, All, IfOk};
ghost use Rattle.std.specs.List.{range_with_len};
ghost use Rattle.election_snapshot.specs.Snapshot.{has, total_stake};
ghost use Rattle.weight_book.specs.Proportional.{group_stake, nominated_by};
ghost use Rattle.committee_answer.specs.Denials.{IsCase, IsFound, members_of};
ghost use Rattle.committee_answer.specs.Ways.{stuck};

use crate::committee::Committee;
use crate::denied::Denied;
use crate::reach::Reach;
use election_snapshot::Snapshot;
use npos_base::NoMemory;
use std::alloc::Global;

/// The voters from whom there is no way.
pub(crate) fn stuck_of(alloc: Global, voters: &[u32], reach: &Reach) -> Result<Vec<u32>, NoMemory>
    requires { All (λ voter. voter < length reach.now.voters.items) voters.now }
    ensures { IfOk result (λ group. group.items ≡ stuck reach.now.voters.items voters.now) }
{
    let mut group = Vec::new(alloc);
    for voter in voters {
        if !reach.voters[*voter as usize].leads() {
            group.push(*voter)?;
        }
    }
    Ok(group)
}

/// The sum of the stakes of a group, which holds no more than all.
pub(crate) fn stake_of_group(snapshot: &Snapshot, group: &[u32]) -> u64
    requires in_range { All (λ voter. voter < length snapshot.now.voters) group.now }
    requires fits { group_stake snapshot.now group.now ≤ total_stake snapshot.now }
    ensures { result ≡ group_stake snapshot.now group.now }
{
    let _total = snapshot.total();
    let mut stake = 0;
    for voter in group {
        stake += snapshot.stake(*voter);
    }
    stake
}

/// The members that some voter of the group nominates, rising.
pub(crate) fn members_of_group(
    alloc: Global,
    snapshot: &Snapshot,
    committee: &Committee<'_>,
    group: &[u32],
) -> Result<Vec<u16>, NoMemory>
    requires { All (λ voter. voter < length snapshot.now.voters) group.now }
    ensures { IfOk result (λ members. members.items ≡ members_of snapshot.now committee.now group.now) }
{
    let mut is_nominated = vec![in alloc; false; snapshot.target_count()]?;
    for voter in group {
        mark_votes(snapshot.votes(*voter), &mut is_nominated);
    }
    let members = list_members(alloc, committee, &is_nominated)?;
    Ok(members)
}

/// Marks each of the votes.
fn mark_votes(votes: &[u16], marks: &mut [bool])
    requires { All (λ vote. vote < length marks.old) votes.now }
    ensures { (target : ℕ) → target < length marks.old
        → slice_index_or marks.new target false ≡ (slice_index_or marks.old target false || has votes.now target) }
{
    for vote in votes {
        marks[usize::from(*vote)] = true;
    }
}

/// The members that are marked, rising.
fn list_members(
    alloc: Global,
    committee: &Committee<'_>,
    marks: &[bool],
) -> Result<Vec<u16>, NoMemory>
    requires { length marks.now ≤ 65536 }
    ensures { IfOk result (λ members. members.items ≡ filter
        (λ target. has committee.now target && slice_index_or marks.now target false)
        (range_with_len 0 (length marks.now))) }
{
    let mut members = Vec::new(alloc);
    for target in 0..marks.len() {
        if committee.has(target as u16) && marks[target] {
            members.push(target as u16)?;
        }
    }
    Ok(members)
}
