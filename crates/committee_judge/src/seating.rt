//! The committee of a work. Its weights play no part.
ghost use Rattle.std.specs.Prelude.{◌≡◌, IfOk};
ghost use Rattle.compact_solution.specs.Decoded.{decoded};
ghost use Rattle.committee_judge.specs.Committees.{listed, unpacked, committee_of, committee_in, is_refusal, IsSeating, IsSeated};

use block_wire::Work;
use compact_solution::Solution;
use election_check::{Checker, Verdict};
use election_snapshot::Snapshot;
use election_work::{Election, Finding};
use npos_base::{List, NoMemory};
use scale_wire::fault::ReadFault;
use std::alloc::Global;
use weight_book::Weights;

/// An election, and weights of a committee that are not looked at. Its members are different targets,
/// one for each seat.
#[derive(Drop)]
pub(crate) struct Seated {
    pub snapshot: Snapshot,
    pub weights: Weights,
}

/// The committee of a work, or what is found in its place.
#[derive(Drop)]
pub(crate) enum Seating {
    Stands(Seated),
    Refused(Finding),
}

/// Whether a verdict on members without edges is one on the members themselves: that a target
/// outweighs is the fault of the edges.
fn is_refusal(verdict: Verdict) -> bool
    ensures { result ≡ is_refusal verdict }
{
    !matches!(verdict, Verdict::Yes | Verdict::Outweighed { .. })
}

/// The committee of these members. They are checked as plain weights are, with no edge.
fn seat_listed(alloc: Global, snapshot: Snapshot, committee: List<u16>) -> Result<Seating, NoMemory>
    ensures seating { IfOk result (IsSeating snapshot (listed snapshot committee)) }
    ensures seated { IfOk result IsSeated }
{
    let no_edges = List::new(alloc);
    let weights = Weights::of(alloc, snapshot.target_count(), committee, no_edges)?;
    let mut checker = Checker::of(alloc, snapshot)?;
    let verdict = checker.verdict(&weights);
    if is_refusal(verdict) {
        return Ok(Seating::Refused(Finding::Judged(verdict)));
    }
    Ok(Seating::Stands(Seated {
        snapshot: checker.into_snapshot(),
        weights,
    }))
}

/// The committee of a solution.
fn seat_solution(
    alloc: Global,
    snapshot: Snapshot,
    solution: &Solution,
) -> Result<Seating, NoMemory>
    ensures seating { IfOk result (IsSeating snapshot (unpacked snapshot (Ok solution.now))) }
    ensures seated { IfOk result IsSeated }
{
    let mut weights = Weights::with_room(alloc, &snapshot)?;
    let mut checker = Checker::of(alloc, snapshot)?;
    match checker.expand(solution, &mut weights) {
        Verdict::Yes => Ok(Seating::Stands(Seated {
            snapshot: checker.into_snapshot(),
            weights,
        })),
        verdict => Ok(Seating::Refused(Finding::Judged(verdict))),
    }
}

/// The committee of a solution that these bytes spell.
fn seat_packed(alloc: Global, snapshot: Snapshot, bytes: &[u8]) -> Result<Seating, NoMemory>
    ensures seating { IfOk result (IsSeating snapshot (unpacked snapshot (decoded bytes.now))) }
    ensures seated { IfOk result IsSeated }
{
    match Solution::decode(alloc, bytes) {
        Ok(solution) => seat_solution(alloc, snapshot, &solution),
        Err(ReadFault::Wire(fault)) => {
            let verdict = Verdict::Undecodable {
                at: fault.at,
                why: fault.why,
            };
            Ok(Seating::Refused(Finding::Judged(verdict)))
        }
        Err(ReadFault::NoMemory) => Err(NoMemory),
    }
}

/// The committee of the work on an election whose bundle has so many bytes.
pub(crate) fn seat_committee(
    alloc: Global,
    election: Election,
    size: u64,
) -> Result<Seating, NoMemory>
    ensures seating { IfOk result (IsSeating election.snapshot (committee_in size election)) }
    ensures seated { IfOk result IsSeated }
{
    let Election { snapshot, work } = election;
    match work {
        Work::Nothing => Ok(Seating::Refused(Finding::Unsolved(size.saturating_sub(1)))),
        Work::Packed { bytes, .. } => seat_packed(alloc, snapshot, bytes.as_slice()),
        Work::Plain { committee, .. } => seat_listed(alloc, snapshot, committee),
    }
}
