//! What is wrong with a snapshot.
ghost use Rattle.std.specs.Prelude.{◌≡◌, false, not, is_some, [], Some, None, IfOk};
ghost use Rattle.std.specs.List.{list_any};
ghost use Rattle.election_snapshot.specs.Draft.{target_fault, with_target, voter_fault, with_voter};
ghost use Rattle.state_rules.specs.Lists.{has_bad};
ghost use Rattle.state_rules.specs.Known.{has_row, AreByAccount};
ghost use Rattle.state_rules.specs.Rounds.{draft_of, is_bad_target, is_refused_target, is_refused_voter, is_refused, is_bad_round};

use crate::RoundRow;
use crate::known::has_row;
use block_wire::BundleVoter;
use election_snapshot::{SnapshotBuilder, SnapshotFault};
use npos_base::{AccountId, NoMemory, WHOLE_FRACTION};
use stake_ledger::BookRow;
use std::alloc::Global;

/// Whether a target is wrong, a voter has no row, or no snapshot of so many seats can be built.
pub(crate) fn is_bad_round(
    alloc: Global,
    rows: &[BookRow],
    seats: u32,
    round: &RoundRow,
) -> Result<bool, NoMemory>
    requires { AreByAccount rows.now }
    ensures { IfOk result (λ bad. bad ≡ is_bad_round rows.now seats round.now) }
{
    if has_bad_target(rows, round.targets.as_slice())
        || has_unknown(rows, round.voters.as_slice())
    {
        return Ok(true);
    }
    is_refused(alloc, seats, round)
}

/// Whether the account has no row or is not above the one before, or the commission is above the
/// whole.
fn is_bad_target(rows: &[BookRow], before: &[(AccountId, u32)], target: &(AccountId, u32)) -> bool
    requires { AreByAccount rows.now }
    ensures { result ≡ is_bad_target rows.now before.now target.now }
{
    let follows = match before.last() {
        None => true,
        Some(last) => last.0 < target.0,
    };
    !follows || !has_row(rows, target.0) || target.1 > WHOLE_FRACTION
}

/// Whether some target is wrong.
fn has_bad_target(rows: &[BookRow], targets: &[(AccountId, u32)]) -> bool
    requires { AreByAccount rows.now }
    ensures { result ≡ has_bad (is_bad_target rows.now) targets.now }
{
    for (place, target) in targets.iter().enumerate() {
        if is_bad_target(rows, &targets[..place], target) {
            return true;
        }
    }
    false
}

/// Whether some voter has no row.
fn has_unknown(rows: &[BookRow], voters: &[BundleVoter]) -> bool
    requires { AreByAccount rows.now }
    ensures { result ≡ list_any (λ voter. not (has_row rows.now voter.account)) voters.now }
{
    for voter in voters {
        if !has_row(rows, voter.account) {
            return true;
        }
    }
    false
}

/// Whether the builder refuses a target, a voter, or at last the snapshot.
fn is_refused(alloc: Global, seats: u32, round: &RoundRow) -> Result<bool, NoMemory>
    ensures { IfOk result (λ refused. refused ≡ is_refused seats round.now) }
{
    let targets = round.targets.as_slice();
    let mut builder = SnapshotBuilder::new(alloc);
    if refuses_targets(&mut builder, targets)?
        || refuses_voters(&mut builder, targets, round.voters.as_slice())?
    {
        return Ok(true);
    }
    Ok(builder.finish(seats).is_err())
}

/// Adds a target, and tells whether the builder refuses it.
fn refuses_target(builder: &mut SnapshotBuilder, who: AccountId) -> Result<bool, NoMemory>
    ensures told { IfOk result (λ refused. refused ≡ is_some (target_fault builder.old who)) }
    ensures added { IfOk result (λ refused. refused ≡ false → builder.new ≡ with_target builder.old who) }
{
    match builder.add_target(who) {
        Ok(()) => Ok(false),
        Err(SnapshotFault::NoMemory) => Err(NoMemory),
        Err(_) => Ok(true),
    }
}

/// Adds the targets in order, and tells whether the builder refuses one.
fn refuses_targets(
    builder: &mut SnapshotBuilder,
    targets: &[(AccountId, u32)],
) -> Result<bool, NoMemory>
    requires { builder.old ≡ draft_of [] [] }
    ensures told { IfOk result (λ refused. refused ≡ has_bad is_refused_target targets.now) }
    ensures added { IfOk result (λ refused. refused ≡ false → builder.new ≡ draft_of targets.now []) }
{
    for target in targets {
        if refuses_target(builder, target.0)? {
            return Ok(true);
        }
    }
    Ok(false)
}

/// Adds a voter, and tells whether the builder refuses it.
fn refuses_voter(builder: &mut SnapshotBuilder, voter: &BundleVoter) -> Result<bool, NoMemory>
    ensures told { IfOk result (λ refused. refused
        ≡ is_some (voter_fault builder.old voter.now.account voter.now.stake voter.now.votes)) }
    ensures added { IfOk result (λ refused. refused ≡ false
        → builder.new ≡ with_voter builder.old voter.now.account voter.now.stake voter.now.votes) }
{
    match builder.add_voter(voter.account, voter.stake, voter.votes.as_slice()) {
        Ok(()) => Ok(false),
        Err(SnapshotFault::NoMemory) => Err(NoMemory),
        Err(_) => Ok(true),
    }
}

/// Adds the voters in order, and tells whether the builder of these targets refuses one.
fn refuses_voters(
    builder: &mut SnapshotBuilder,
    targets: &[(AccountId, u32)],
    voters: &[BundleVoter],
) -> Result<bool, NoMemory>
    requires { builder.old ≡ draft_of targets.now [] }
    ensures told { IfOk result (λ refused. refused
        ≡ has_bad (is_refused_voter targets.now) voters.now) }
    ensures added { IfOk result (λ refused. refused ≡ false
        → builder.new ≡ draft_of targets.now voters.now) }
{
    for voter in voters {
        if refuses_voter(builder, voter)? {
            return Ok(true);
        }
    }
    Ok(false)
}
