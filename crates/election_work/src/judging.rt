//! Weights that are packed, and solutions that are judged.
ghost use Rattle.std.specs.Prelude.{◌≡◌, ◌≢◌, ℕ, ◌<◌, All, None, Ok, Err, IfOk, IfErr};
ghost use Rattle.weight_book.specs.Weights.{IsFeasible};
ghost use Rattle.weight_book.specs.Scoring.{score_of};
ghost use Rattle.compact_solution.specs.Solution.{solution_form};
ghost use Rattle.election_check.specs.Laws.{packed_of};
ghost use Rattle.election_check.specs.Packed.{expand_fault, expanded, verdict_packed};

use crate::laws::every_snapshot_is_well_formed;
use compact_solution::{PackFault, Solution, pack};
use election_check::{Checker, Verdict};
use election_snapshot::Snapshot;
use npos_base::{List, NoMemory, Score};
use std::alloc::Global;
use weight_book::Weights;

/// Packs weights of an election, or tells the lowest member that is lost. What they pack to expands
/// without a fault.
pub(crate) fn packed_weights(
    alloc: Global,
    snapshot: &Snapshot,
    weights: &Weights,
) -> Result<Solution, PackFault>
    requires feasible { IsFeasible snapshot.now weights.now.plain }
    requires above { All (λ edge. 0 < edge.amount) weights.now.plain.edges }
    ensures solution { IfOk result (λ solution.
        packed_of snapshot.now weights.now.plain ≡ Ok solution) }
    ensures sound { IfOk result (λ solution. expand_fault snapshot.now solution ≡ None) }
    ensures lost { IfErr result (λ fault. fault ≢ PackFault.NoMemory → (member : ℕ)
        × (fault ≡ PackFault.LostWinner member)
        × (packed_of snapshot.now weights.now.plain ≡ Err member)) }
{
    every_snapshot_is_well_formed(snapshot);
    pack(
        alloc,
        snapshot.stakes(),
        weights.committee(),
        weights.edges(),
    )
}

/// What a solution expands to, its bytes, and the verdict on them with the score of what they
/// expand to as the claim.
#[derive(Drop)]
pub(crate) struct Judged {
    pub weights: Weights,
    pub score: Score,
    pub bytes: List<u8>,
    pub verdict: Verdict,
}

/// Judges a solution that expands without a fault. What its bytes expand to takes the place of what
/// it does, which is the same.
pub(crate) fn judge(
    alloc: Global,
    checker: &mut Checker,
    solution: Solution,
) -> Result<Judged, NoMemory>
    requires { expand_fault checker.old solution ≡ None }
    ensures weights { IfOk result (λ judged.
        judged.weights.plain ≡ expanded checker.old solution) }
    ensures feasible { IfOk result (λ judged. IsFeasible checker.old judged.weights.plain) }
    ensures score { IfOk result (λ judged.
        judged.score ≡ score_of (expanded checker.old solution)) }
    ensures bytes { IfOk result (λ judged. judged.bytes ≡ solution_form.spelling solution) }
    ensures verdict { IfOk result (λ judged. judged.verdict ≡ verdict_packed checker.old
        (score_of (expanded checker.old solution)) (solution_form.spelling solution)) }
    ensures snapshot { checker.new ≡ checker.old }
{
    every_snapshot_is_well_formed(checker.snapshot());
    let mut weights = Weights::with_room(alloc, checker.snapshot())?;
    let _yes = checker.expand(&solution, &mut weights);
    let score = weights.score();
    let bytes = solution.encode(alloc)?;
    drop(solution);
    weights.clear();
    let verdict = checker.judge_bytes(alloc, bytes.as_slice(), &score, &mut weights)?;
    Ok(Judged {
        weights,
        score,
        bytes,
        verdict,
    })
}
