//! Worked fills.
use crate::worked::Case;
use election_snapshot::{Snapshot, SnapshotBuilder};
use npos_base::{AccountId, Edge, NoMemory};
use quota_fill::fill;
use std::alloc::Global;
use std::test::Fail;

/// A tie that goes to the lowest, the least total, a pick that finds less than the price of a seat, and
/// picks that draw it whole; then the last two among so many targets that nominators are linked.
static CASES: [Case; 6] = [
    Case {
        targets: 3,
        voters: &[(70, &[0, 1]), (30, &[2])],
        members: &[0, 2],
        edges: &[(0, 0, 50), (1, 2, 30)],
    },
    Case {
        targets: 3,
        voters: &[(3, &[0, 1]), (1, &[2])],
        members: &[0, 1],
        edges: &[(0, 0, 2), (0, 1, 1)],
    },
    Case {
        targets: 4,
        voters: &[(10, &[3, 1]), (60, &[3]), (20, &[2, 1]), (11, &[0])],
        members: &[3, 1],
        edges: &[(0, 3, 10), (1, 3, 40), (2, 1, 20)],
    },
    Case {
        targets: 3,
        voters: &[(30, &[2, 0]), (25, &[1, 2]), (46, &[1, 0])],
        members: &[0, 1],
        edges: &[(0, 0, 30), (1, 1, 25), (2, 0, 20), (2, 1, 25)],
    },
    Case {
        targets: 16,
        voters: &[(10, &[3, 1]), (60, &[3]), (20, &[2, 1]), (11, &[0])],
        members: &[3, 1],
        edges: &[(0, 3, 10), (1, 3, 40), (2, 1, 20)],
    },
    Case {
        targets: 16,
        voters: &[(30, &[15, 7]), (25, &[8, 15]), (46, &[8, 7])],
        members: &[7, 8],
        edges: &[(0, 7, 30), (1, 8, 25), (2, 7, 20), (2, 8, 25)],
    },
];

#[test]
fn fills_are_those_of_the_worked_elections(rt: HostRuntime) -> Result<(), Fail> {
    for case in &CASES {
        let weights = fill(rt.alloc(), &case.snapshot(rt.alloc())?)?;
        assert!(rt; case.is_met(&weights));
    }
    Ok(())
}

/// Two seats and two targets, and as many voters as there may be, of whom every second has 3 for the
/// first target and the others have 3 for the second.
fn crowd(alloc: Global) -> Result<Snapshot, NoMemory> {
    let mut builder = SnapshotBuilder::new(alloc);
    for n in 0..2u16 {
        let account = AccountId {
            hi: 0,
            lo: u128::from(n),
        };
        builder.add_target(account).map_err(|_| NoMemory)?;
    }
    for n in 0..16_384u16 {
        let account = AccountId {
            hi: 1,
            lo: u128::from(n),
        };
        builder
            .add_voter(account, 3, &[n % 2])
            .map_err(|_| NoMemory)?;
    }
    match builder.finish(2) {
        Ok(snapshot) => Ok(snapshot),
        Err(_) => Err(NoMemory),
    }
}

/// Whether each voter gives 3 to its target, by rising voter.
fn give_all(edges: &[Edge]) -> bool {
    for (place, edge) in edges.iter().enumerate() {
        let due = (place, place % 2, 3);
        if (edge.voter as usize, usize::from(edge.target), edge.amount) != due {
            return false;
        }
    }
    edges.len() == 16_384
}

#[test]
fn a_fill_draws_from_as_many_voters_as_there_may_be(rt: HostRuntime) -> Result<(), Fail> {
    let weights = fill(rt.alloc(), &crowd(rt.alloc())?)?;
    assert_eq!(rt; weights.committee(), [0, 1].as_slice());
    assert!(rt; give_all(weights.edges()));
    Ok(())
}
