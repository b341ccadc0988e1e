//! What follows for all elections.
ghost use Rattle.std.specs.Prelude.{◌≡◌};
ghost use Rattle.election_snapshot.specs.Snapshot.{IsWellFormed};
ghost use Rattle.quota_fill.specs.Filled.{filled};
ghost use Rattle.election_check.specs.Seats.{IsReordered};
ghost use Rattle.election_work.specs.Limits.{AreTheLimits};

use election_check::{Checker, Elected};
use election_snapshot::Snapshot;
use weight_book::Weights;

/// Every snapshot is well formed: it has a seat, and its stakes sum below 2^64.
pub fn every_snapshot_is_well_formed(snapshot: &Snapshot)
    ensures { IsWellFormed snapshot.now }
{
    let _seats = snapshot.seats();
}

/// Sealing the fill of the checker's election always succeeds: no election has a dead end.
pub fn a_fill_is_sealed(checker: Checker, weights: Weights) -> Elected
    requires { weights.plain ≡ filled checker }
    ensures snapshot { result.snapshot ≡ checker }
    ensures weights { IsReordered weights result.weights }
{
    every_snapshot_is_well_formed(checker.snapshot());
    match checker.seal(weights) {
        Ok(elected) => elected,
        Err(_) => unreachable!(),
    }
}

/// The limits that the code names are these numbers.
pub fn the_limits_are_these()
    ensures { AreTheLimits }
{}
