//! What a check finds of the work on an election.
ghost use Rattle.std.specs.Prelude.{◌≡◌, IfOk};
ghost use Rattle.election_check.specs.declared.verdict.Verdict.TheVariants.{Yes};
ghost use Rattle.election_check.specs.Plain.{verdict_plain};
ghost use Rattle.election_check.specs.Packed.{verdict_packed};
ghost use Rattle.election_work.specs.declared.asked.Task.TheVariants as tasks;
ghost use Rattle.election_work.specs.declared.finding.Finding.TheVariants as findings;
ghost use Rattle.election_work.specs.Findings.{work_found, found_in};
ghost use Rattle.election_work.specs.Sound.{IsSoundElection};

use crate::finding::Finding;
use crate::laws::every_snapshot_is_well_formed;
use crate::reading::Election;
use block_wire::Work;
use election_check::{Checker, Verdict};
use election_snapshot::Snapshot;
use npos_base::{Edge, List, NoMemory, Score};
use std::alloc::Global;
use weight_book::Weights;

/// The verdict on a committee and edges.
fn plain_verdict(
    alloc: Global,
    snapshot: Snapshot,
    committee: List<u16>,
    edges: List<Edge>,
) -> Result<Verdict, NoMemory>
    ensures { IfOk result (λ verdict. verdict
        ≡ verdict_plain snapshot (record { committee = committee; edges = edges })) }
{
    let weights = Weights::of(alloc, snapshot.target_count(), committee, edges)?;
    let mut checker = Checker::of(alloc, snapshot)?;
    Ok(checker.verdict(&weights))
}

/// The verdict on bytes with a claimed score.
fn packed_verdict(
    alloc: Global,
    snapshot: Snapshot,
    claim: &Score,
    bytes: &[u8],
) -> Result<Verdict, NoMemory>
    ensures { IfOk result (λ verdict. verdict ≡ verdict_packed snapshot claim.now bytes.now) }
{
    let mut weights = Weights::with_room(alloc, &snapshot)?;
    let mut checker = Checker::of(alloc, snapshot)?;
    checker.judge_bytes(alloc, bytes, claim, &mut weights)
}

/// What is found of the work in a bundle that has so many bytes.
fn check_work(alloc: Global, snapshot: Snapshot, work: Work, size: u64) -> Result<Finding, NoMemory>
    ensures { IfOk result (λ finding. finding ≡ work_found size snapshot work) }
{
    match work {
        Work::Nothing => Ok(Finding::Unsolved(size.saturating_sub(1))),
        Work::Packed { claim, bytes } => {
            let verdict = packed_verdict(alloc, snapshot, &claim, bytes.as_slice())?;
            Ok(Finding::Judged(verdict))
        }
        Work::Plain { committee, edges } => {
            let verdict = plain_verdict(alloc, snapshot, committee, edges)?;
            Ok(Finding::Judged(verdict))
        }
    }
}

/// What is found of the work on an election whose bundle has so many bytes. Work that gets a Yes is
/// sound.
pub fn check_election(alloc: Global, election: Election, size: u64) -> Result<Finding, NoMemory>
    ensures found { IfOk result (λ finding. finding ≡ found_in size election) }
    ensures sound { IfOk result (λ finding. finding ≡ findings.Judged Yes
        → IsSoundElection tasks.Check election) }
{
    every_snapshot_is_well_formed(&election.snapshot);
    let Election { snapshot, work } = election;
    check_work(alloc, snapshot, work, size)
}
