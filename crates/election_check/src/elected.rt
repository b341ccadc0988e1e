//! A committee that passed the check.
ghost use Rattle.std.specs.Prelude.{◌≡◌, IsTrue};
ghost use Rattle.std.specs.List.Sorted.{IsStrictlyIncreasing};
ghost use Rattle.election_snapshot.specs.Snapshot.{IsWellFormed, has};
ghost use Rattle.weight_book.specs.Weights.{IsFeasible, support};
ghost use Rattle.weight_book.specs.Passing.{Passes};
ghost use Rattle.weight_book.specs.Answered.{IsAnswered};
ghost use Rattle.weight_book.specs.Proportional.{IsProportional};
ghost use Rattle.election_check.specs.Seats.{IsReordered};

use election_snapshot::Snapshot;
use npos_base::Edge;
use std::marker::Model;
use weight_book::Weights;

/// A committee with the weights that show that it passes the check. Contracts see the snapshot and
/// the weights, which are feasible and pass, with the members in rising order.
#[derive(Drop)]
pub struct Elected {
    snapshot: Snapshot,
    weights: Weights,
}

impl Model for Elected {
    ghost use Rattle.std.specs.List.Sorted.{IsStrictlyIncreasing};
    ghost use Rattle.election_snapshot.specs.Snapshot.{IsWellFormed};
    ghost use Rattle.weight_book.specs.Passing.{Passes};
    ghost use Rattle.election_check.specs.Seats.{Seats};

    ghost Value = { Seats };

    ghost view = { λ e. record { snapshot = e.snapshot; weights = e.weights } };

    ghost invariant = { λ e. IsWellFormed e.snapshot × Passes e.snapshot e.weights.plain
        × IsStrictlyIncreasing e.weights.plain.committee };
}

impl Elected {
    /// The election of weights that are known to pass: whoever calls it has shown that, so nothing
    /// is judged again. Whoever holds weights of unknown origin asks a checker to seal them. It takes
    /// no memory.
    pub fn of(snapshot: Snapshot, weights: Weights) -> Elected
        requires { Passes snapshot weights.plain }
        ensures snapshot { result.snapshot ≡ snapshot }
        ensures weights { IsReordered weights result.weights }
    {
        // Reading the seats tells the prover that the snapshot is well formed.
        let _seats = snapshot.seats();
        let mut weights = weights;
        weights.sort_members();
        Elected { snapshot, weights }
    }

    /// The snapshot of the election.
    pub fn snapshot(&self) -> &Snapshot
        ensures { result.now ≡ self.now.snapshot }
    {
        &self.snapshot
    }

    /// The members, in rising order. Each group of voters that holds at least the stake of some
    /// seats, and agrees on one target outside, nominates at least that many of them; so does each
    /// that agrees on as many targets as seats, wherever these stand.
    pub fn committee(&self) -> &[u16]
        ensures members { result.now ≡ self.now.weights.plain.committee }
        ensures rising { IsStrictlyIncreasing result.now }
        ensures feasible { IsFeasible self.now.snapshot self.now.weights.plain }
        ensures passes { Passes self.now.snapshot self.now.weights.plain }
        ensures answered { IsAnswered self.now.snapshot self.now.weights.plain.committee }
        ensures proportional { IsProportional self.now.snapshot self.now.weights.plain }
    {
        self.weights.committee()
    }

    /// The edges, in the order in which they were handed in.
    pub fn edges(&self) -> &[Edge]
        ensures { result.now ≡ self.now.weights.plain.edges }
    {
        self.weights.edges()
    }

    /// What the edges to the member sum to.
    pub fn support(&self, member: u16) -> u64
        ensures { result ≡ support self.now.weights.plain.edges member }
    {
        self.weights.support(member) as u64
    }

    /// The snapshot and the weights. It takes no memory.
    pub fn into_parts(self) -> (Snapshot, Weights)
        ensures snapshot { result.0 ≡ self.snapshot }
        ensures weights { result.1 ≡ self.weights }
    {
        let Elected { snapshot, weights } = self;
        (snapshot, weights)
    }
}
