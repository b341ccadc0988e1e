//! The checker of one snapshot's solutions.
ghost use Rattle.std.specs.Prelude.{◌≡◌, ◌≢◌, OnOk, IfOk, IfErr};
ghost use Rattle.weight_book.specs.Weights.{IsFeasible};
ghost use Rattle.election_check.specs.declared.verdict.Verdict.TheVariants.{Yes};
ghost use Rattle.election_check.specs.First.{answer_of};
ghost use Rattle.election_check.specs.Kept.{AreTablesOf};
ghost use Rattle.election_check.specs.Plain.{plain_fault, verdict_plain};
ghost use Rattle.election_check.specs.Seats.{IsReordered};

use crate::fault::Fault;
use crate::plain::{check_edges, check_members, check_spending};
use crate::prescores::{check_prescores, check_size};
use crate::tables::{Tables, lay};
use crate::{Elected, Verdict};
use election_snapshot::Snapshot;
use npos_base::{MOST_NOMINATIONS, NoMemory};
use std::alloc::Global;
use std::marker::Model;
use weight_book::Weights;

/// Checks solutions of one snapshot. All its memory is taken when it is made. Contracts see its
/// snapshot alone.
#[derive(Drop)]
pub struct Checker {
    pub(crate) snapshot: Snapshot,
    pub(crate) tables: Tables,
}

impl Model for Checker {
    ghost use Rattle.election_snapshot.specs.Snapshot.{Snapshot};
    ghost use Rattle.election_check.specs.Kept.{AreTablesOf};

    ghost Value = { Snapshot };

    ghost view = { λ c. c.snapshot };

    ghost invariant = { λ c. AreTablesOf c.snapshot c.tables };
}

impl Checker {
    /// A checker for this snapshot, or the snapshot back for want of memory.
    pub fn new(alloc: Global, snapshot: Snapshot) -> Result<Checker, (Snapshot, NoMemory)>
        ensures ok { IfOk result (λ checker. checker ≡ snapshot) }
        ensures handed_back { IfErr result (λ back. back.0 ≡ snapshot) }
    {
        match Tables::new(alloc, &snapshot) {
            Ok(tables) => Ok(Checker { snapshot, tables }),
            Err(want) => Err((snapshot, want)),
        }
    }

    /// A checker for this snapshot, which is dropped for want of memory.
    pub fn of(alloc: Global, snapshot: Snapshot) -> Result<Checker, NoMemory>
        ensures { IfOk result (λ checker. checker ≡ snapshot) }
    {
        match Checker::new(alloc, snapshot) {
            Ok(checker) => Ok(checker),
            Err((_, want)) => Err(want),
        }
    }

    /// The snapshot whose solutions it checks.
    pub fn snapshot(&self) -> &Snapshot
        ensures { result.now ≡ self.now }
    {
        &self.snapshot
    }

    /// The verdict on plain weights, whoever made them. It takes no memory.
    pub fn verdict(&mut self, weights: &Weights) -> Verdict
        ensures verdict { result ≡ verdict_plain self.old weights.now.plain }
        ensures snapshot { self.new ≡ self.old }
    {
        match self.check_plain(weights) {
            Ok(()) => Verdict::Yes,
            Err(fault) => fault.verdict(),
        }
    }

    /// Tells the first fault of plain weights.
    fn check_plain(&mut self, weights: &Weights) -> Result<(), Fault>
        ensures fault { result ≡ answer_of (plain_fault self.old weights.now.plain) }
        ensures snapshot { self.new ≡ self.old }
    {
        let Checker { snapshot, tables } = self;
        check_members(snapshot, weights.committee(), &mut tables.is_member)?;
        lay(
            &mut tables.is_seen,
            snapshot.voter_count() * MOST_NOMINATIONS,
        );
        check_edges(snapshot, weights, &tables.is_member, &mut tables.is_seen)?;
        check_spending(snapshot, weights.edges(), &mut tables.left)?;
        check_size(snapshot, weights)?;
        check_prescores(snapshot, weights, tables)
    }

    /// Elects the members, where the verdict on these weights is Yes. Otherwise it hands both parts
    /// back as they were, with the verdict. It takes no memory.
    pub fn seal(self, weights: Weights) -> Result<Elected, (Checker, Weights, Verdict)>
        ensures yes { OnOk result (verdict_plain self weights.plain ≡ Yes) }
        ensures snapshot { IfOk result (λ elected. elected.snapshot ≡ self) }
        ensures weights { IfOk result (λ elected. IsReordered weights elected.weights) }
        ensures no { IfErr result (λ back. back.2 ≢ Yes) }
        ensures verdict { IfErr result (λ back. back.2 ≡ verdict_plain self weights.plain) }
        ensures handed_back { IfErr result (λ back. (back.0 ≡ self) × (back.1 ≡ weights)) }
    {
        let mut checker = self;
        match checker.check_plain(&weights) {
            Ok(()) => Ok(Elected::of(checker.into_snapshot(), weights)),
            Err(fault) => Err((checker, weights, fault.verdict())),
        }
    }

    /// The snapshot, without the tables of the check, which go.
    pub fn into_snapshot(self) -> Snapshot
        ensures { result ≡ self }
    {
        let Checker { snapshot, .. } = self;
        snapshot
    }
}
