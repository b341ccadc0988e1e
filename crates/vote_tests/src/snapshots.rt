//! A snapshot of three targets and two voters, and each of its faults.
use election_snapshot::{Snapshot, SnapshotBuilder, SnapshotFault, SnapshotParts};
use npos_base::AccountId;
use std::alloc::Global;
use std::test::Fail;

/// The account of 30 bytes 0 and this number.
const fn at(n: u16) -> AccountId {
    AccountId {
        hi: 0,
        lo: n as u128,
    }
}

/// Three targets, and voters with 60 for the first and 40 for the second.
fn two_voters(alloc: Global) -> Result<SnapshotBuilder, SnapshotFault> {
    let mut builder = SnapshotBuilder::new(alloc);
    for n in 1..4 {
        builder.add_target(at(n))?;
    }
    builder.add_voter(at(4), 60, &[0])?;
    builder.add_voter(at(5), 40, &[1])?;
    Ok(builder)
}

/// The fault of this many seats, or none.
fn fault_of(alloc: Global, seats: u32) -> Result<Option<SnapshotFault>, SnapshotFault> {
    match two_voters(alloc)?.finish(seats) {
        Ok(_) => Ok(None),
        Err((_, fault)) => Ok(Some(fault)),
    }
}

/// The election of this many seats.
fn finished(builder: SnapshotBuilder, seats: u32) -> Result<Snapshot, Fail> {
    match builder.finish(seats) {
        Ok(snapshot) => Ok(snapshot),
        Err(_) => Err(Fail::from("no snapshot")),
    }
}

/// As many targets or voters as a snapshot takes.
fn full(alloc: Global, targets: u16, voters: u16) -> Result<SnapshotBuilder, SnapshotFault> {
    let mut builder = SnapshotBuilder::new(alloc);
    for n in 0..targets {
        builder.add_target(at(n))?;
    }
    for n in 0..voters {
        builder.add_voter(at(n), 1, &[0])?;
    }
    Ok(builder)
}

/// Whether the targets and the seats are those that were added.
fn has_the_targets(snapshot: &Snapshot) -> bool {
    snapshot.target_count() == 3 && snapshot.target(2) == at(3) && snapshot.seats() == 2
}

/// Whether the voters and their stakes are those that were added.
fn has_the_voters(snapshot: &Snapshot) -> bool {
    snapshot.voter_count() == 2
        && snapshot.voter(1) == at(5)
        && snapshot.stake(1) == 40
        && snapshot.stakes() == [60, 40].as_slice()
}

/// Whether the votes are those that were added.
fn has_the_votes(snapshot: &Snapshot) -> bool {
    snapshot.voter_count() == 2
        && snapshot.target_count() == 3
        && snapshot.votes(1) == [1].as_slice()
        && snapshot.nominates(0, 0)
        && !snapshot.nominates(0, 1)
}

/// Whether room can be asked for, and the last target is found.
fn has_room(alloc: Global, builder: &mut SnapshotBuilder) -> bool {
    let mut parts = SnapshotParts::new(alloc);
    parts.reserve(2).is_ok() && builder.reserve(2).is_ok() && builder.position(at(3)) == Some(2)
}

#[test]
fn a_snapshot_has_what_was_added(rt: HostRuntime) -> Result<(), Fail> {
    let mut builder = two_voters(rt.alloc())?;
    assert!(rt; has_room(rt.alloc(), &mut builder));
    let snapshot = finished(builder, 2)?;
    assert!(rt; has_the_targets(&snapshot));
    assert!(rt; has_the_voters(&snapshot));
    assert!(rt; has_the_votes(&snapshot));
    assert_eq!(rt; (snapshot.total(), snapshot.threshold()), (100, 50));
    Ok(())
}

/// Numbers of seats for two voters of 100 and three targets, and the fault of each.
static SEATS: [(u32, Option<SnapshotFault>); 4] = [
    (0, Some(SnapshotFault::BadSeats(0))),
    (513, Some(SnapshotFault::BadSeats(513))),
    (
        4,
        Some(SnapshotFault::Few {
            targets: 3,
            seats: 4,
        }),
    ),
    (3, None),
];

#[test]
fn seats_are_refused_for_their_first_fault(rt: HostRuntime) -> Result<(), Fail> {
    for (seats, fault) in &SEATS {
        assert_eq!(rt; fault_of(rt.alloc(), *seats)?, *fault);
    }
    let poor = SnapshotFault::Poor { total: 3, seats: 2 };
    let builder = full(rt.alloc(), 2, 3)?;
    assert!(rt; matches!(builder.finish(2), Err((_, fault)) if fault == poor));
    Ok(())
}

/// Voters that are refused behind two others: account, stake, votes and fault.
static REFUSED: [(u16, u64, &[u16], SnapshotFault); 8] = [
    (4, 0, &[], SnapshotFault::RepeatedVoter(2)),
    (6, 0, &[], SnapshotFault::ZeroStake(2)),
    (6, 1, &[], SnapshotFault::NoVotes(2)),
    (6, 1, &[0; 25], SnapshotFault::TooManyVotes(2)),
    (6, 1, &[0, 0, 3], SnapshotFault::UnknownTarget(2)),
    (6, u64::MAX, &[0, 1, 0], SnapshotFault::RepeatedVote(2)),
    (6, u64::MAX - 99, &[0], SnapshotFault::TotalTooLarge(2)),
    (5, 1, &[0], SnapshotFault::RepeatedVoter(2)),
];

#[test]
fn voters_are_refused_for_their_first_fault(rt: HostRuntime) -> Result<(), Fail> {
    let mut builder = two_voters(rt.alloc())?;
    for (who, stake, votes, fault) in &REFUSED {
        assert_eq!(rt; builder.add_voter(at(*who), *stake, votes), Err(*fault));
    }
    assert_eq!(rt;
        builder.add_target(at(2)),
        Err(SnapshotFault::RepeatedTarget(3))
    );
    Ok(())
}

#[test]
fn a_voter_has_up_to_24_votes(rt: HostRuntime) -> Result<(), Fail> {
    let mut builder = full(rt.alloc(), 25, 0)?;
    let mut votes = [0; 25];
    for n in 0..25 {
        votes[n] = 24 - n as u16;
    }
    let most = &votes[..24];
    assert_eq!(rt; builder.add_voter(at(1), 1, most), Ok(()));
    assert_eq!(rt;
        builder.add_voter(at(2), 1, &votes),
        Err(SnapshotFault::TooManyVotes(1))
    );
    let snapshot = finished(builder, 1)?;
    assert!(rt; snapshot.voter_count() == 1 && snapshot.votes(0) == most);
    Ok(())
}

#[test]
fn a_full_builder_refuses_more(rt: HostRuntime) -> Result<(), Fail> {
    let mut builder = full(rt.alloc(), 2048, 16384)?;
    assert_eq!(rt;
        builder.add_target(at(1)),
        Err(SnapshotFault::TooManyTargets)
    );
    assert_eq!(rt;
        builder.add_voter(at(1), 0, &[]),
        Err(SnapshotFault::TooManyVoters)
    );
    Ok(())
}
