//! Worked sums and scores.
ghost use Rattle.std.specs.Prelude.{◌+◌, ◌<◌, ◌^◌};

use election_snapshot::{Snapshot, SnapshotBuilder};
use npos_base::{AccountId, Edge, NoMemory, Score};
use std::alloc::Global;
use std::test::Fail;
use weight_book::{Weights, count_votes};

/// One target, one voter and one seat.
fn small(alloc: Global) -> Result<Snapshot, NoMemory> {
    let account = AccountId { hi: 0, lo: 1 };
    let mut builder = SnapshotBuilder::new(alloc);
    builder.add_target(account).map_err(|_| NoMemory)?;
    builder.add_voter(account, 1, &[0]).map_err(|_| NoMemory)?;
    match builder.finish(1) {
        Ok(snapshot) => Ok(snapshot),
        Err(_) => Err(NoMemory),
    }
}

/// The score of a target of the election and of a number past its targets, whatever was there
/// before.
fn score_of_two(weights: &mut Weights, first: u64, second: u64) -> Result<Score, NoMemory>
    requires { first + second < 2 ^ 64 }
{
    weights.clear();
    weights.reserve(2, 2)?;
    weights.push_member(65_535);
    weights.push_member(0);
    weights.push_edge(Edge {
        voter: 9,
        target: 0,
        amount: first,
    });
    weights.push_edge(Edge {
        voter: 0,
        target: 65_535,
        amount: second,
    });
    Ok(weights.score())
}

#[test]
fn scores_are_those_of_the_worked_weights(rt: HostRuntime) -> Result<(), Fail> {
    let first = Score {
        minimal: 40,
        sum: 100,
        squares: 5200,
    };
    let second = Score {
        minimal: 24,
        sum: 50,
        squares: 1252,
    };
    let snapshot = small(rt.alloc())?;
    assert_eq!(rt; count_votes(&snapshot), 1);
    let mut weights = Weights::with_room(rt.alloc(), &snapshot)?;
    assert_eq!(rt; score_of_two(&mut weights, 60, 40)?, first);
    assert_eq!(rt; score_of_two(&mut weights, 24, 26)?, second);
    Ok(())
}
