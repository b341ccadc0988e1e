//! The round of a state that is open and its committee that waits, made anew.
ghost use Rattle.std.specs.Prelude.{◌≡◌, [], map, Some, None, OnOk, IfOk, IfErr, option_map};
ghost use Rattle.election_snapshot.specs.Draft.{voter_fault, with_voter, seated};
ghost use Rattle.election_check.specs.Plain.{verdict_plain};
ghost use Rattle.election_check.specs.Seats.{IsReordered};
ghost use Rattle.chain_params.specs.Rules.{seats_of};
ghost use Rattle.chain_params.specs.Faults.{AreSound};
ghost use Rattle.state_rules.specs.Rounds.{draft_of};
ghost use Rattle.state_rules.specs.Sound.{IsSoundWaiting};
ghost use Rattle.state_rules.specs.Terms.{params_of};
ghost use Rattle.npos_runtime.specs.Kept.Chain.{committee_in, round_in};
ghost use Rattle.npos_runtime.specs.Live.{CanBeDue};
ghost use Rattle.npos_runtime.specs.Kept.Restoring.{unless_yes, election_fault, IsDueFault};
ghost use Rattle.npos_runtime.specs.Kept.Remade.{AreTargetsTaken, AreVotersTaken, IsBuilt, IsBuiltRound, IsBuiltCommittee};

use crate::{Round, StateFault, Waiting};
use block_wire::{BundleVoter, Params};
use chain_params::{era_of, seats_of};
use election_check::{Checker, Elected};
use election_snapshot::{Snapshot, SnapshotBuilder, SnapshotFault};
use npos_base::{AccountId, List, NoMemory};
use state_rules::{RoundRow, State, WaitingRow};
use std::alloc::Global;
use weight_book::Weights;

/// Adds the targets in order.
fn add_targets(builder: &mut SnapshotBuilder, targets: &[(AccountId, u32)]) -> Result<(), NoMemory>
    requires empty { builder.old ≡ draft_of [] [] }
    requires taken { AreTargetsTaken targets.now }
    ensures { OnOk result (builder.new ≡ draft_of targets.now []) }
{
    for target in targets {
        builder.put_target(target.0)?;
    }
    Ok(())
}

/// Adds a voter that has no fault.
fn add_voter(builder: &mut SnapshotBuilder, voter: &BundleVoter) -> Result<(), NoMemory>
    requires { voter_fault builder.old voter.now.account voter.now.stake voter.now.votes ≡ None }
    ensures { OnOk result (builder.new
        ≡ with_voter builder.old voter.now.account voter.now.stake voter.now.votes) }
{
    match builder.add_voter(voter.account, voter.stake, voter.votes.as_slice()) {
        Ok(()) => Ok(()),
        Err(SnapshotFault::NoMemory) => Err(NoMemory),
        Err(_) => unreachable!(),
    }
}

/// Adds the voters in order.
fn add_voters(
    builder: &mut SnapshotBuilder,
    targets: &[(AccountId, u32)],
    voters: &[BundleVoter],
) -> Result<(), NoMemory>
    requires empty { builder.old ≡ draft_of targets.now [] }
    requires taken { AreVotersTaken targets.now voters.now }
    ensures { OnOk result (builder.new ≡ draft_of targets.now voters.now) }
{
    let _ = targets;
    for voter in voters {
        add_voter(builder, voter)?;
    }
    Ok(())
}

/// The snapshot of these targets and voters, for so many seats.
fn snapshot_of(alloc: Global, seats: u32, row: &RoundRow) -> Result<Snapshot, NoMemory>
    requires { IsBuilt seats row.now }
    ensures { IfOk result (λ snapshot. snapshot
        ≡ seated (draft_of row.now.targets row.now.voters) seats) }
{
    let targets = row.targets.as_slice();
    let mut builder = SnapshotBuilder::new(alloc);
    add_targets(&mut builder, targets)?;
    builder.reserve(row.voters.len())?;
    add_voters(&mut builder, targets, row.voters.as_slice())?;
    match builder.finish(seats) {
        Ok(snapshot) => Ok(snapshot),
        Err(_) => unreachable!(),
    }
}

/// The commissions of the targets, in their order.
fn commissions_of(alloc: Global, targets: &[(AccountId, u32)]) -> Result<List<u32>, NoMemory>
    ensures { IfOk result (λ noted. noted ≡ map (λ target. target.1) targets.now) }
{
    let mut noted = Vec::with_capacity(alloc, targets.len())?;
    for target in targets {
        noted.push(target.1)?;
    }
    Ok(List::from_vec(noted))
}

/// The round that is open before the block that is due, where one is.
pub fn round_of(
    alloc: Global,
    params: &Option<Params>,
    due: u64,
    row: &Option<RoundRow>,
) -> Result<Option<Round>, NoMemory>
    requires sound { AreSound params.now }
    requires due { CanBeDue due }
    requires built { IsBuiltRound (seats_of params.now) row.now }
    ensures { IfOk result (λ round. round ≡ option_map (round_in params.now due) row.now) }
{
    let Some(row) = row else {
        return Ok(None);
    };
    let number = era_of(params, due) + 1;
    let snapshot = snapshot_of(alloc, seats_of(params), row)?;
    let commissions = commissions_of(alloc, row.targets.as_slice())?;
    Ok(Some(Round::Open {
        number,
        snapshot,
        commissions,
    }))
}

/// The weights of a committee that waits.
fn weights_of(alloc: Global, snapshot: &Snapshot, row: &WaitingRow) -> Result<Weights, NoMemory>
    ensures { IfOk result (λ weights. weights.plain
        ≡ record { committee = row.now.committee; edges = row.now.edges }) }
{
    let members = Vec::from_slice(alloc, row.committee.as_slice())?;
    let edges = Vec::from_slice(alloc, row.edges.as_slice())?;
    let weights = Weights::of(
        alloc,
        snapshot.target_count(),
        List::from_vec(members),
        List::from_vec(edges),
    )?;
    Ok(weights)
}

/// The seats of a committee, where the verdict on its weights is Yes.
fn seal(alloc: Global, snapshot: Snapshot, weights: Weights) -> Result<Elected, StateFault>
    ensures yes { OnOk result (unless_yes (verdict_plain snapshot weights.plain) ≡ None) }
    ensures snapshot { IfOk result (λ elected. elected.snapshot ≡ snapshot) }
    ensures weights { IfOk result (λ elected. IsReordered weights elected.weights) }
    ensures refused { IfErr result (IsDueFault (unless_yes (verdict_plain snapshot weights.plain))) }
{
    let checker = match Checker::new(alloc, snapshot) {
        Ok(checker) => checker,
        Err((_, want)) => return Err(StateFault::from(want)),
    };
    match checker.seal(weights) {
        Ok(elected) => Ok(elected),
        Err((_, _, verdict)) => Err(StateFault::NotElected(verdict)),
    }
}

/// The committee that waits, with its commissions.
fn committee_of(alloc: Global, state: &State, row: &WaitingRow) -> Result<Waiting, StateFault>
    requires { IsBuiltCommittee (seats_of (params_of state.now)) row.now }
    ensures yes { OnOk result
        (election_fault (params_of state.now) (Some row.now) ≡ None) }
    ensures ok { IfOk result (λ waiting. waiting ≡ committee_in (params_of state.now) row.now) }
    ensures refused { IfErr result
        (IsDueFault (election_fault (params_of state.now) (Some row.now))) }
{
    let snapshot = snapshot_of(alloc, seats_in(state), &row.round)?;
    let weights = weights_of(alloc, &snapshot, row)?;
    let commissions = commissions_of(alloc, row.round.targets.as_slice())?;
    let elected = seal(alloc, snapshot, weights)?;
    // Members rise, and so do the row's: sealing has put none in another place.
    let _members = elected.committee();
    Ok(Waiting {
        elected,
        commissions,
    })
}

/// How many are elected in a round.
fn seats_in(state: &State) -> u32
    ensures { result ≡ seats_of (params_of state.now) }
{
    match &state.params {
        None => 1,
        Some((params, _)) => params.seats,
    }
}

/// The committee that waits, where one does: it is elected anew.
pub fn waiting_of(alloc: Global, state: &State) -> Result<Option<Waiting>, StateFault>
    requires { IsSoundWaiting state.now state.now.waiting }
    ensures yes { OnOk result
        (election_fault (params_of state.now) state.now.waiting ≡ None) }
    ensures ok { IfOk result (λ waiting. waiting
        ≡ option_map (committee_in (params_of state.now)) state.now.waiting) }
    ensures refused { IfErr result
        (IsDueFault (election_fault (params_of state.now) state.now.waiting)) }
{
    let Some(row) = &state.waiting else {
        return Ok(None);
    };
    let waiting = committee_of(alloc, state, row)?;
    Ok(Some(waiting))
}
