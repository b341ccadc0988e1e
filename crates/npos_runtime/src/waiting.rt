//! The committee that waits for its era.

use election_check::Elected;
use npos_base::List;
use std::marker::Model;

/// The committee that waits for its era, and the commission of each target of its snapshot, in
/// billionths, as it was noted with the snapshot. Contracts see the snapshot, the weights with the
/// members in rising order, and the commissions.
#[derive(Drop)]
pub struct Waiting {
    pub elected: Elected,
    pub commissions: List<u32>,
}

impl Model for Waiting {
    ghost use Rattle.npos_runtime.specs.Rules.Committee.{Committee};

    ghost Value = { Committee };

    ghost view = { λ w. record {
      snapshot = w.elected.snapshot;
      weights = w.elected.weights.plain;
      commissions = w.commissions;
    } };
}
