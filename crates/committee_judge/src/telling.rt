//! The lines of a target that is denied a seat.
ghost use Rattle.std.specs.Prelude.{◌≡◌, ◌<◌, ◌++◌, flat_map, length, All, OnOk};
ghost use Rattle.committee_judge.specs.Reports.{IsWithin, denied_text, claim_text, voter_line, target_line, denied_lines, excess_of};

use committee_answer::Denied;
use election_snapshot::Snapshot;
use npos_base::NoMemory;
use told_lines::{Piece, tell};

/// Appends the front of the line of a target that is denied.
fn tell_target(text: &mut Vec<u8>, snapshot: &Snapshot, target: u16) -> Result<(), NoMemory>
    requires { target < length snapshot.now.targets }
    ensures { OnOk result (text.new.items ≡ text.old.items ++ denied_text snapshot.now target) }
{
    tell(
        text,
        &[
            Piece::Words("denied "),
            Piece::Account(snapshot.target(target)),
            Piece::Words(" seats"),
        ],
    )
}

/// Appends what the group of the target holds, and the end of the line.
fn tell_claim(text: &mut Vec<u8>, denied: &Denied) -> Result<(), NoMemory>
    ensures { OnOk result (text.new.items ≡ text.old.items ++ claim_text denied.now) }
{
    tell(
        text,
        &[
            Piece::Detail(u128::from(denied.seats)),
            Piece::Words(" members"),
            Piece::Detail(denied.members.len() as u128),
            Piece::Words(" stake"),
            Piece::Detail(u128::from(denied.stake)),
            Piece::Words("\n"),
        ],
    )
}

/// Appends the line of a voter, with its stake.
fn tell_voter(text: &mut Vec<u8>, snapshot: &Snapshot, voter: u32) -> Result<(), NoMemory>
    requires { voter < length snapshot.now.voters }
    ensures { OnOk result (text.new.items ≡ text.old.items ++ voter_line snapshot.now voter) }
{
    tell(
        text,
        &[
            Piece::Words("voter "),
            Piece::Account(snapshot.voter(voter)),
            Piece::Detail(u128::from(snapshot.stake(voter))),
            Piece::Words("\n"),
        ],
    )
}

/// Appends a line for each voter.
fn tell_voters(text: &mut Vec<u8>, snapshot: &Snapshot, group: &[u32]) -> Result<(), NoMemory>
    requires { All (λ voter. voter < length snapshot.now.voters) group.now }
    ensures { OnOk result (text.new.items ≡ text.old.items
        ++ flat_map (voter_line snapshot.now) group.now) }
{
    for voter in group {
        tell_voter(text, snapshot, *voter)?;
    }
    Ok(())
}

/// Appends the line of a member.
fn tell_member(text: &mut Vec<u8>, snapshot: &Snapshot, member: u16) -> Result<(), NoMemory>
    requires { member < length snapshot.now.targets }
    ensures { OnOk result (text.new.items ≡ text.old.items ++ target_line snapshot.now member) }
{
    tell(
        text,
        &[
            Piece::Words("member "),
            Piece::Account(snapshot.target(member)),
            Piece::Words("\n"),
        ],
    )
}

/// Appends a line for each member.
fn tell_members(text: &mut Vec<u8>, snapshot: &Snapshot, members: &[u16]) -> Result<(), NoMemory>
    requires { All (λ member. member < length snapshot.now.targets) members.now }
    ensures { OnOk result (text.new.items ≡ text.old.items
        ++ flat_map (target_line snapshot.now) members.now) }
{
    for member in members {
        tell_member(text, snapshot, *member)?;
    }
    Ok(())
}

/// Appends the lines of a target that is denied: its own, then those of the group that it is denied,
/// then those of the members that the group nominates.
pub(crate) fn tell_denied(
    text: &mut Vec<u8>,
    snapshot: &Snapshot,
    denied: &Denied,
) -> Result<(), NoMemory>
    requires { IsWithin snapshot.now denied.now }
    ensures { OnOk result (text.new.items ≡ text.old.items
        ++ denied_lines snapshot.now denied.now) }
{
    tell_target(text, snapshot, denied.target)?;
    tell_claim(text, denied)?;
    tell_voters(text, snapshot, denied.group.as_slice())?;
    tell_members(text, snapshot, denied.members.as_slice())
}

/// How much more than its members' share the group holds, in units of stake, rounded down.
pub fn excess(snapshot: &Snapshot, denied: &Denied) -> u64
    ensures { result ≡ excess_of snapshot.now denied.now }
{
    let seats = u128::from(snapshot.seats());
    let offered = seats * u128::from(denied.stake);
    let taken = denied.members.len() as u128 * u128::from(snapshot.total());
    (offered.saturating_sub(taken) / seats) as u64
}
