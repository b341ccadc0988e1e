//! The election that a seed generates.
ghost use Rattle.std.specs.Prelude.{◌≡◌, ◌++◌, [], ◌∷◌, ◌<◌, ◌≤◌, IfOk, OnOk};
ghost use Rattle.demo_election.specs.Generated.{state_after, targets_of, voter_from, voters_of, votes_round, generated};
ghost use Rattle.demo_election.specs.Begun.{IsBegun};
ghost use Rattle.npos_base.specs.declared.limits.TheConstants.{MOST_SEATS, MOST_TARGETS, MOST_VOTERS};

use crate::generator::draw;
use election_snapshot::{Snapshot, SnapshotParts};
use npos_base::{AccountId, NoMemory};
use std::alloc::Global;

/// How many targets there are for each seat.
const TARGETS_A_SEAT: u32 = 4;
/// How many votes a voter draws at most. It stays 16 whatever nominators may name, so that a seed
/// generates the same election from then on.
const MOST_DRAWN: u32 = 16;
/// The least stake of a voter, in units; the greatest is below twice as much.
const LEAST_STAKE: u64 = 1_000_000;

/// So many targets.
#[tactic(auto, using(crate::proofs::DraftLemmas::target_is_free, crate::proofs::DraftLemmas::targets_more))]
fn with_targets(alloc: Global, count: u32) -> Result<SnapshotParts, NoMemory>
    requires { count ≤ MOST_TARGETS }
    ensures { IfOk result (λ parts. parts ≡ record { targets = targets_of count; voters = [] }) }
{
    let mut parts = SnapshotParts::new(alloc);
    for place in 0..count {
        let who = AccountId {
            hi: 0,
            lo: u128::from(place) + 1,
        };
        parts.put_target(who)?;
    }
    Ok(parts)
}

/// Puts down so many votes from the first on, and from the last target on to target 0.
#[tactic(auto, using(crate::proofs::VoteLemmas::votes_more))]
fn put_votes(votes: &mut Vec<u16>, targets: u32, first: u32, count: u32) -> Result<(), NoMemory>
    requires few { targets ≤ MOST_TARGETS }
    requires first { first < targets }
    requires count { count ≤ targets }
    ensures { OnOk result (votes.new.items ≡ votes_round targets first count) }
{
    votes.clear();
    for i in 0..count {
        votes.push(((first + i) % targets) as u16)?;
    }
    Ok(())
}

/// Adds the voter of this place, behind those before it. It takes the next three draws.
#[tactic(auto, using(crate::proofs::DraftLemmas::drawn_is_free))]
fn add_voter(
    parts: &mut SnapshotParts,
    votes: &mut Vec<u16>,
    state: &mut u64,
    targets: u32,
    place: u32,
) -> Result<(), NoMemory>
    requires begun { IsBegun targets place parts.old }
    requires few { place < MOST_VOTERS }
    ensures voter { OnOk result (parts.new ≡ record {
      targets = parts.old.targets;
      voters = parts.old.voters ++ voter_from targets state.old place ∷ [];
    }) }
    ensures state { OnOk result (state.new ≡ state_after state.old 3) }
{
    let stake = LEAST_STAKE + draw(state) % LEAST_STAKE;
    let most = u64::from(targets.min(MOST_DRAWN));
    let count = 1 + (draw(state) % most) as u32;
    let first = (draw(state) % u64::from(targets)) as u32;
    put_votes(votes, targets, first, count)?;
    let who = AccountId {
        hi: 1,
        lo: u128::from(place) + 1,
    };
    parts.put_voter(who, stake, votes.as_slice())
}

/// So many voters behind the targets, from the draws of this seed on.
#[tactic(auto, using(crate::proofs::DraftLemmas::voters_begun, crate::proofs::DraftLemmas::voters_more))]
fn add_voters(
    alloc: Global,
    parts: &mut SnapshotParts,
    seed: u64,
    targets: u32,
    count: u32,
) -> Result<(), NoMemory>
    requires begun { parts.old ≡ record { targets = targets_of targets; voters = [] } }
    requires some { 1 ≤ targets }
    requires few { targets ≤ MOST_TARGETS }
    requires few_voters { count ≤ MOST_VOTERS }
    ensures { OnOk result (parts.new
        ≡ record { targets = targets_of targets; voters = voters_of seed targets count }) }
{
    let mut votes = Vec::with_capacity(alloc, MOST_DRAWN as usize)?;
    let mut state = seed;
    for place in 0..count {
        add_voter(parts, &mut votes, &mut state, targets, place)?;
    }
    Ok(())
}

/// The election of four targets a seat that this seed generates, with so many voters. It is well
/// formed, whatever the seed.
#[tactic(auto, using(crate::proofs::DraftLemmas::seats_stand))]
pub fn generated(alloc: Global, seed: u64, voters: u32, seats: u32) -> Result<Snapshot, NoMemory>
    requires some_voters { 1 ≤ voters }
    requires few_voters { voters ≤ MOST_VOTERS }
    requires some_seats { 1 ≤ seats }
    requires few_seats { seats ≤ MOST_SEATS }
    ensures { IfOk result (λ snapshot. snapshot ≡ generated seed voters seats) }
{
    let targets = TARGETS_A_SEAT * seats;
    let mut parts = with_targets(alloc, targets)?;
    parts.reserve(voters as usize)?;
    add_voters(alloc, &mut parts, seed, targets, voters)?;
    match parts.finish(seats) {
        Ok(snapshot) => Ok(snapshot),
        Err(_) => unreachable!(),
    }
}
