//! The loads of a worked run.
use crate::mining::fill_seats;
use election_snapshot::{Snapshot, SnapshotBuilder};
use npos_base::{AccountId, NoMemory};
use std::alloc::Global;
use std::test::Fail;
use weight_book::Weights;

fn account(number: u128) -> AccountId {
    AccountId { hi: 0, lo: number }
}

/// Three targets and two seats, a voter of 60 for the first target and one of 40 for the second.
fn election(alloc: Global) -> Result<Snapshot, NoMemory> {
    let mut builder = SnapshotBuilder::new(alloc);
    for target in 0..3u32 {
        builder
            .add_target(account(u128::from(target)))
            .map_err(|_| NoMemory)?;
    }
    builder
        .add_voter(account(3), 60, &[0])
        .map_err(|_| NoMemory)?;
    builder
        .add_voter(account(4), 40, &[1])
        .map_err(|_| NoMemory)?;
    match builder.finish(2) {
        Ok(snapshot) => Ok(snapshot),
        Err(_) => Err(NoMemory),
    }
}

/// The score of a pick is the load of its nominators: 100 * 2^20 / 60 and 100 * 2^20 / 40, rounded
/// down, where nobody else nominates them.
#[test]
fn loads_are_the_worked_scores(rt: HostRuntime) -> Result<(), Fail> {
    let snapshot = election(rt.alloc())?;
    let mut weights = Weights::with_room(rt.alloc(), &snapshot)?;
    let run = fill_seats(rt.alloc(), &snapshot, &mut weights)?;
    assert_eq!(rt; weights.committee(), [0, 1].as_slice());
    assert_eq!(rt;
        run.race.loads.as_slice(),
        [1_747_626, 2_621_440].as_slice()
    );
    Ok(())
}
