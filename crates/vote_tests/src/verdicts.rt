//! Worked verdicts, and the verdict on the largest weights many times over.
use election_check::{Checker, Verdict};
use election_snapshot::{Snapshot, SnapshotBuilder};
use npos_base::{AccountId, Edge, MOST_NOMINATIONS, NoMemory};
use std::alloc::Global;
use std::test::Fail;
use weight_book::Weights;

/// A voter's stake and votes.
pub(crate) type Voter<'a> = (u64, &'a [u16]);

/// Plain weights for three targets, two voters and two seats.
struct Case {
    stakes: [u64; 2],
    votes: [&'static [u16]; 2],
    members: &'static [u16],
    /// Each a voter, a target and an amount.
    edges: &'static [(u32, u16, u64)],
    verdict: Verdict,
}

/// One for each fault, then what is left at the price of a seat, one unit below it, and a
/// proportional committee with weights too poor to show it.
static CASES: [Case; 12] = [
    Case {
        stakes: [60, 40],
        votes: [&[0], &[1]],
        members: &[1, 0],
        edges: &[(0, 0, 60), (1, 1, 40)],
        verdict: Verdict::Yes,
    },
    Case {
        stakes: [60, 40],
        votes: [&[0], &[1]],
        members: &[1, 1, 3],
        edges: &[(0, 0, 60), (1, 1, 40)],
        verdict: Verdict::TargetTwice(1),
    },
    Case {
        stakes: [60, 40],
        votes: [&[0], &[1]],
        members: &[3, 3],
        edges: &[(0, 0, 60), (1, 1, 40)],
        verdict: Verdict::NoTarget(3),
    },
    Case {
        stakes: [60, 40],
        votes: [&[0], &[1]],
        members: &[0, 1],
        edges: &[(2, 2, 1)],
        verdict: Verdict::NoVoter(2),
    },
    Case {
        stakes: [60, 40],
        votes: [&[0], &[1]],
        members: &[0, 1],
        edges: &[(0, 2, 1)],
        verdict: Verdict::NoTarget(2),
    },
    Case {
        stakes: [60, 40],
        votes: [&[0], &[1]],
        members: &[0, 1],
        edges: &[(0, 1, 1)],
        verdict: Verdict::NotNominated {
            voter: 0,
            target: 1,
        },
    },
    Case {
        stakes: [60, 40],
        votes: [&[0], &[1]],
        members: &[0],
        edges: &[(0, 0, 60), (0, 0, 60)],
        verdict: Verdict::TargetTwice(0),
    },
    Case {
        stakes: [60, 40],
        votes: [&[0], &[1]],
        members: &[0],
        edges: &[(0, 0, 61)],
        verdict: Verdict::Overspent(0),
    },
    Case {
        stakes: [60, 40],
        votes: [&[0], &[1]],
        members: &[0],
        edges: &[(0, 0, 60)],
        verdict: Verdict::WrongSize(1),
    },
    Case {
        stakes: [50, 50],
        votes: [&[0, 1], &[2]],
        members: &[0, 1],
        edges: &[(0, 0, 24), (0, 1, 26)],
        verdict: Verdict::Outweighed {
            target: 2,
            prescore: 50,
        },
    },
    Case {
        stakes: [51, 49],
        votes: [&[0, 1], &[2]],
        members: &[0, 1],
        edges: &[(0, 0, 25), (0, 1, 26)],
        verdict: Verdict::Yes,
    },
    Case {
        stakes: [50, 50],
        votes: [&[0, 2], &[0, 1]],
        members: &[0, 1],
        edges: &[(1, 0, 25), (1, 1, 25)],
        verdict: Verdict::Outweighed {
            target: 2,
            prescore: 50,
        },
    },
];

/// The account of 31 bytes 0 and this number.
pub(crate) const fn at(n: u16) -> AccountId {
    AccountId {
        hi: 0,
        lo: n as u128,
    }
}

pub(crate) fn finished(builder: SnapshotBuilder, seats: u32) -> Result<Snapshot, NoMemory> {
    match builder.finish(seats) {
        Ok(snapshot) => Ok(snapshot),
        Err(_) => Err(NoMemory),
    }
}

/// Three targets, two voters and two seats.
pub(crate) fn small(
    alloc: Global,
    first: Voter<'_>,
    second: Voter<'_>,
) -> Result<Snapshot, NoMemory> {
    let mut builder = SnapshotBuilder::new(alloc);
    for n in 1..4 {
        builder.add_target(at(n)).map_err(|_| NoMemory)?;
    }
    for (n, (stake, votes)) in [(4, first), (5, second)] {
        builder
            .add_voter(at(n), stake, votes)
            .map_err(|_| NoMemory)?;
    }
    finished(builder, 2)
}

fn snapshot_of(alloc: Global, case: &Case) -> Result<Snapshot, NoMemory> {
    let [first, second] = case.stakes;
    let [votes, more] = case.votes;
    small(alloc, (first, votes), (second, more))
}

fn weights_of(alloc: Global, snapshot: &Snapshot, case: &Case) -> Result<Weights, NoMemory> {
    let mut weights = Weights::with_room(alloc, snapshot)?;
    for member in case.members {
        weights.reserve(1, 0)?;
        weights.push_member(*member);
    }
    for &(voter, target, amount) in case.edges {
        weights.reserve(0, 1)?;
        weights.push_edge(Edge {
            voter,
            target,
            amount,
        });
    }
    Ok(weights)
}

/// Whether the verdict is the one of the case, and sealing agrees with it.
fn agrees(alloc: Global, case: &Case) -> Result<bool, NoMemory> {
    let snapshot = snapshot_of(alloc, case)?;
    let weights = weights_of(alloc, &snapshot, case)?;
    let mut checker = Checker::of(alloc, snapshot)?;
    let told = checker.verdict(&weights) == case.verdict;
    match checker.seal(weights) {
        Ok(elected) => Ok(told && case.verdict == Verdict::Yes && elected.committee().len() == 2),
        Err((_, weights, verdict)) => {
            Ok(told && verdict == case.verdict && weights.edges().len() == case.edges.len())
        }
    }
}

#[test]
fn the_first_fault_is_the_verdict(rt: HostRuntime) -> Result<(), Fail> {
    for case in &CASES {
        assert!(rt; agrees(rt.alloc(), case)?);
    }
    Ok(())
}

/// The votes of a voter of the largest snapshot: twelve targets that are elected, twelve that are
/// not.
fn large_votes(voter: u16) -> [u16; MOST_NOMINATIONS] {
    let mut votes = [0; MOST_NOMINATIONS];
    for i in 0..12 {
        let place = usize::from(voter) * 12 + i;
        votes[i] = (place % 512) as u16;
        votes[i + 12] = (512 + place % 1536) as u16;
    }
    votes
}

/// As many voters, votes, targets and seats as a snapshot takes.
fn large(alloc: Global) -> Result<Snapshot, NoMemory> {
    let mut builder = SnapshotBuilder::new(alloc);
    for n in 0..2048 {
        builder.add_target(at(n)).map_err(|_| NoMemory)?;
    }
    for voter in 0..16384 {
        builder
            .add_voter(at(voter), 24, &large_votes(voter))
            .map_err(|_| NoMemory)?;
    }
    finished(builder, 512)
}

/// Each voter's stake, in twelve equal parts.
fn large_weights(alloc: Global, snapshot: &Snapshot) -> Result<Weights, NoMemory> {
    let mut weights = Weights::with_room(alloc, snapshot)?;
    for target in 0..512 {
        weights.reserve(1, 0)?;
        weights.push_member(target);
    }
    for voter in 0..16384 {
        for target in &large_votes(voter)[..12] {
            weights.reserve(0, 1)?;
            weights.push_edge(Edge {
                voter: u32::from(voter),
                target: *target,
                amount: 2,
            });
        }
    }
    Ok(weights)
}

/// Whether the largest weights pass 32 times.
fn largest_passes(alloc: Global) -> Result<bool, NoMemory> {
    let snapshot = large(alloc)?;
    let weights = large_weights(alloc, &snapshot)?;
    let mut checker = Checker::of(alloc, snapshot)?;
    let mut passes = true;
    for _ in 0..32 {
        passes &= checker.verdict(&weights) == Verdict::Yes;
    }
    Ok(passes)
}

/// A check that goes through the edges anew for each nomination does not end within a test's time.
#[test]
fn the_largest_weights_are_checked_many_times(rt: HostRuntime) -> Result<(), Fail> {
    assert!(rt; largest_passes(rt.alloc())?);
    Ok(())
}
