//! Worked runs.
use crate::mine_mms;
use crate::miner::{Tables, seat_one};
use election_snapshot::{Snapshot, SnapshotBuilder};
use npos_base::{AccountId, Edge, NoMemory};
use std::alloc::Global;
use std::test::Fail;
use support_balance::Backing;
use weight_book::Weights;

/// A voter, an amount and a member, in another order than edges.
type Given = (u32, u16, u64);

/// An election, and the weights that are mined there.
struct Case {
    targets: usize,
    seats: u32,
    rounds: u32,
    voters: &'static [(u64, &'static [u16])],
    picks: &'static [u16],
    edges: &'static [Given],
}

/// The first case is a row of the reference program. The next two, two targets with equal scores and
/// runs of one round alone, were worked by a plain miner in Python, apart from this program. The
/// last, where the targets with the greatest scores have few nominators, was worked by hand.
const CASES: [Case; 4] = [
    Case {
        targets: 3,
        seats: 2,
        rounds: 8,
        voters: &[(60, &[0, 1]), (40, &[0])],
        picks: &[0, 1],
        edges: &[(0, 0, 10), (0, 1, 50), (1, 0, 40)],
    },
    Case {
        targets: 3,
        seats: 2,
        rounds: 8,
        voters: &[(5, &[2]), (5, &[1])],
        picks: &[1, 2],
        edges: &[(0, 2, 5), (1, 1, 5)],
    },
    Case {
        targets: 3,
        seats: 2,
        rounds: 1,
        voters: &[(60, &[0, 1]), (40, &[0])],
        picks: &[0, 1],
        edges: &[(0, 0, 10), (0, 1, 50), (1, 0, 40)],
    },
    Case {
        targets: 4,
        seats: 2,
        rounds: 8,
        voters: &[
            (30, &[1, 3]),
            (10, &[3]),
            (1, &[0]),
            (1, &[0]),
            (1, &[0]),
            (1, &[0]),
            (1, &[0]),
            (1, &[0]),
            (1, &[0]),
            (1, &[0]),
            (1, &[0]),
            (1, &[0]),
            (1, &[0]),
            (1, &[0]),
            (1, &[0]),
            (1, &[0]),
        ],
        picks: &[3, 1],
        edges: &[(0, 1, 20), (0, 3, 10), (1, 3, 10)],
    },
];

fn account(number: u128) -> AccountId {
    AccountId { hi: 1, lo: number }
}

fn election(alloc: Global, case: &Case) -> Result<Snapshot, NoMemory> {
    let mut builder = SnapshotBuilder::new(alloc);
    for target in 0..case.targets {
        builder
            .add_target(account(target as u128))
            .map_err(|_| NoMemory)?;
    }
    for voter in 0..case.voters.len() {
        let (stake, votes) = case.voters[voter];
        builder
            .add_voter(account(1_000 + voter as u128), stake, votes)
            .map_err(|_| NoMemory)?;
    }
    match builder.finish(case.seats) {
        Ok(snapshot) => Ok(snapshot),
        Err(_) => Err(NoMemory),
    }
}

/// Whether the weights are these.
fn are_given(weights: &Weights, picks: &[u16], edges: &[Given]) -> bool {
    if weights.committee() != picks || weights.edges().len() != edges.len() {
        return false;
    }
    for place in 0..edges.len() {
        let (voter, target, amount) = edges[place];
        let edge = Edge {
            voter,
            target,
            amount,
        };
        if weights.edges()[place] != edge {
            return false;
        }
    }
    true
}

/// The scores of the first two picks.
fn scores(alloc: Global, case: &Case) -> Result<[u64; 2], NoMemory> {
    let snapshot = election(alloc, case)?;
    if snapshot.target_count() < 2 || case.rounds == 0 {
        return Ok([0, 0]);
    }
    let mut backing = Backing::new(alloc, &snapshot)?;
    let mut tables = Tables::new(alloc, &snapshot)?;
    seat_one(&snapshot, case.rounds, &mut backing, &mut tables)?;
    let first = tables.last;
    seat_one(&snapshot, case.rounds, &mut backing, &mut tables)?;
    Ok([first, tables.last])
}

fn mine(alloc: Global, case: &Case) -> Result<bool, NoMemory> {
    if case.rounds == 0 {
        return Ok(false);
    }
    let snapshot = election(alloc, case)?;
    let weights = mine_mms(alloc, &snapshot, case.rounds)?;
    Ok(are_given(&weights, case.picks, case.edges))
}

#[test]
fn runs_are_the_worked_ones(rt: HostRuntime) -> Result<(), Fail> {
    for case in &CASES {
        assert!(rt; mine(rt.alloc(), case)?);
    }
    assert_eq!(rt; scores(rt.alloc(), &CASES[0])?, [100, 38]);
    assert_eq!(rt; scores(rt.alloc(), &CASES[3])?, [40, 17]);
    Ok(())
}
