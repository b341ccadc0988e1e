//! Whom the committee of a bundle's work denies a seat.
ghost use Rattle.std.specs.Prelude.{◌≡◌, IfOk};
ghost use Rattle.committee_judge.specs.Reports.{IsAnsweredIn};
ghost use Rattle.npos_c.specs.Judging.{told_denied, told_alone, held_of, handed_denied, handed_judging, denied_answer, judging_answer, IsJudgingIn, IsJudgedFor};

use crate::buffers::{put_members, put_voters};
use crate::finding::{NposFinding, told_as};
use crate::numbers::{DONE, NO, NO_MEMORY, SMALL, answer_of};
use committee_answer::Denied;
use committee_judge::{Judging, excess, judge_election};
use election_check::Verdict;
use election_snapshot::Snapshot;
use election_work::{Finding, Reading, read_election};
use npos_base::NoMemory;
use std::alloc::Global;

/// Whom a committee denies a seat, in numbers: how many voters the group has and how many members they
/// nominate, how many seats their stake stands for, and that stake. The finding tells the target.
/// Where nobody is denied all but the finding is 0.
#[repr(C)]
#[derive(Clone, Copy, Debug)]
pub struct NposDenied {
    pub voters: usize,
    pub members: usize,
    pub seats: u64,
    pub stake: u64,
    pub finding: NposFinding,
}

/// What is denied, in numbers.
fn told_denied(snapshot: &Snapshot, denied: &Denied) -> NposDenied
    ensures { result ≡ told_denied snapshot.now denied.now }
{
    let verdict = Verdict::Outweighed {
        target: denied.target,
        prescore: excess(snapshot, denied),
    };
    NposDenied {
        voters: denied.group.len(),
        members: denied.members.len(),
        seats: denied.seats,
        stake: denied.stake,
        finding: told_as(Finding::Judged(verdict)),
    }
}

/// A finding, where nobody is denied.
fn told_alone(finding: Finding) -> NposDenied
    ensures { result ≡ told_alone finding }
{
    NposDenied {
        voters: 0,
        members: 0,
        seats: 0,
        stake: 0,
        finding: told_as(finding),
    }
}

/// Hands out what is denied: the group and its members, where both have room.
fn hand_denied(
    snapshot: &Snapshot,
    denied: &Denied,
    group: &mut [u32],
    members: &mut [u16],
    told: &mut NposDenied,
) -> u32
    ensures held { held_of group.new members.new told.new
        ≡ handed_denied snapshot.now denied.now (held_of group.old members.old told.old) }
    ensures answer { result ≡ denied_answer denied.now (held_of group.old members.old told.old) }
{
    *told = told_denied(snapshot, denied);
    let voters = denied.group.as_slice();
    let nominated = denied.members.as_slice();
    if voters.len() > group.len() || nominated.len() > members.len() {
        return SMALL;
    }
    put_voters(group, voters);
    put_members(members, nominated);
    NO
}

/// Hands out a judgement, or what was found in its place.
fn hand_judging(
    judging: &Judging,
    group: &mut [u32],
    members: &mut [u16],
    told: &mut NposDenied,
) -> u32
    ensures held { held_of group.new members.new told.new
        ≡ handed_judging judging.now (held_of group.old members.old told.old) }
    ensures answer { result ≡ judging_answer judging.now (held_of group.old members.old told.old) }
{
    match judging {
        Judging::Done(judged) => match &judged.denied {
            Some(denied) => hand_denied(&judged.snapshot, denied, group, members, told),
            None => {
                *told = told_alone(Finding::Judged(Verdict::Yes));
                DONE
            }
        },
        Judging::Refused(finding) => {
            *told = told_alone(*finding);
            answer_of(*finding)
        }
    }
}

/// The judgement on the committee in the bytes of a bundle.
fn judge_bundle(alloc: Global, bytes: &[u8]) -> Result<Judging, NoMemory>
    ensures { IfOk result (IsJudgingIn bytes.now) }
{
    match read_election(alloc, bytes)? {
        Reading::Stands(election) => judge_election(alloc, election, bytes.len() as u64),
        Reading::Refused(why) => Ok(Judging::Refused(Finding::Unread(why))),
    }
}

/// Whom the committee of the work of a bundle in SCALE denies a seat: the exact answer, whatever the
/// weights of the work. Where somebody is denied, the positions of the voters of the group go by
/// rising position to the front of `group`, those of the members that one of them nominates to the
/// front of `members`, and the rest to `denied`, whose finding is then the verdict that the target
/// outweighs. The answer is 0 where nobody is denied, 1 where somebody is, or the members are no
/// committee, 3 where the bundle has a fault, and 8 where a buffer is too small: then both stay as
/// they are, and `denied` tells what sizes they need. It is 6 where memory was refused, and then
/// nothing is written.
#[unsafe(no_mangle)]
pub extern "C" fn npos_c_judge(
    alloc: Global,
    bundle: &[u8],
    group: &mut [u32],
    members: &mut [u16],
    denied: &mut NposDenied,
) -> u32
    ensures judged { IsJudgedFor bundle.now (held_of group.old members.old denied.old)
        (held_of group.new members.new denied.new) result }
    ensures answered { result ≡ 0 → IsAnsweredIn bundle.now }
{
    match judge_bundle(alloc, bundle) {
        Ok(judging) => hand_judging(&judging, group, members, denied),
        Err(NoMemory) => NO_MEMORY,
    }
}
