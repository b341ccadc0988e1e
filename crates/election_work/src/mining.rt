//! What the miners make of an election.
ghost use Rattle.std.specs.Prelude.{◌≡◌, ◌<◌, All, None, IfOk};
ghost use Rattle.npos_base.specs.declared.miner.Miner.TheVariants as miners;
ghost use Rattle.npos_base.specs.Miner.{HasRounds};
ghost use Rattle.weight_book.specs.Weights.{IsFeasible};
ghost use Rattle.weight_book.specs.Scoring.{score_of};
ghost use Rattle.election_check.specs.Packed.{expand_fault};
ghost use Rattle.election_check.specs.Laws.{packed_of};
ghost use Rattle.election_work.specs.declared.asked.Task.TheVariants as tasks;
ghost use Rattle.election_work.specs.Mining.{IsMined, mined_from, plain_mined, solution_mined, packed_mined, outcome_of, due_of, IsMining, AreTargets, IsYes};
ghost use Rattle.election_work.specs.Sound.{IsSoundElection};

use crate::finding::Finding;
use crate::judging::{Judged, judge, packed_weights};
use crate::laws::every_snapshot_is_well_formed;
use crate::mined::{Mined, Mining};
use crate::reading::Election;
use compact_solution::{PackFault, Solution};
use election_check::{Checker, Verdict};
use election_snapshot::Snapshot;
use npos_base::{List, Miner, NoMemory, Score};
use phragmms_miner::mine_mms;
use quota_fill::fill;
use seq_phragmen::mine_seq;
use std::alloc::Global;
use weight_book::Weights;

/// The weights that a miner makes.
fn weights_by(alloc: Global, snapshot: &Snapshot, miner: Miner) -> Result<Weights, NoMemory>
    requires { HasRounds miner }
    ensures { IfOk result (λ weights. IsMined miner snapshot.now weights.plain) }
{
    match miner {
        Miner::Fill => fill(alloc, snapshot),
        Miner::Seq => mine_seq(alloc, snapshot),
        Miner::Mms(rounds) => mine_mms(alloc, snapshot, rounds),
    }
}

/// Weights that were judged, their members put in rising order.
fn as_mined(
    snapshot: Snapshot,
    weights: Weights,
    score: Score,
    solution: Option<List<u8>>,
    verdict: Verdict,
) -> Mined
    requires feasible { IsFeasible snapshot weights.plain }
    requires score { score ≡ score_of weights.plain }
    ensures { outcome_of result ≡ mined_from snapshot weights.plain solution verdict }
{
    let mut rising = weights;
    rising.sort_members();
    Mined {
        snapshot,
        weights: rising,
        score,
        solution,
        verdict,
    }
}

/// What weights come to that are judged as they are.
fn mine_plain(alloc: Global, snapshot: Snapshot, weights: Weights) -> Result<Mined, NoMemory>
    requires { IsFeasible snapshot weights.plain }
    ensures { IfOk result (λ mined. outcome_of mined ≡ plain_mined snapshot weights.plain) }
{
    every_snapshot_is_well_formed(&snapshot);
    let score = weights.score();
    let mut checker = Checker::of(alloc, snapshot)?;
    let verdict = checker.verdict(&weights);
    Ok(as_mined(checker.into_snapshot(), weights, score, None, verdict))
}

/// What a solution that expands without a fault comes to.
fn mine_solution(alloc: Global, snapshot: Snapshot, solution: Solution) -> Result<Mined, NoMemory>
    requires { expand_fault snapshot solution ≡ None }
    ensures { IfOk result (λ mined. outcome_of mined ≡ solution_mined snapshot solution) }
{
    let mut checker = Checker::of(alloc, snapshot)?;
    let Judged {
        weights,
        score,
        bytes,
        verdict,
    } = judge(alloc, &mut checker, solution)?;
    Ok(as_mined(
        checker.into_snapshot(),
        weights,
        score,
        Some(bytes),
        verdict,
    ))
}

/// What weights that are packed come to, or the lowest member that is lost.
fn mine_packed(alloc: Global, snapshot: Snapshot, weights: Weights) -> Result<Mining, NoMemory>
    requires feasible { IsFeasible snapshot weights.plain }
    requires above { All (λ edge. 0 < edge.amount) weights.plain.edges }
    ensures { IfOk result (λ mining. due_of mining
        ≡ packed_mined snapshot (packed_of snapshot weights.plain)) }
{
    let packed = packed_weights(alloc, &snapshot, &weights);
    drop(weights);
    match packed {
        Ok(solution) => {
            let mined = mine_solution(alloc, snapshot, solution)?;
            Ok(Mining::Done(mined))
        }
        Err(PackFault::LostWinner(member)) => Ok(Mining::Refused(Finding::Lost(member))),
        Err(PackFault::NoMemory) => Err(NoMemory),
    }
}

/// What a miner makes of the election of a snapshot. The fill always gets a Yes.
pub fn mine_snapshot(alloc: Global, snapshot: Snapshot, miner: Miner) -> Result<Mining, NoMemory>
    requires { HasRounds miner }
    ensures mined { IfOk result (λ mining. IsMining miner snapshot (due_of mining)) }
    ensures members { IfOk result (λ mining. AreTargets (due_of mining)) }
    ensures passes { miner ≡ miners.Fill → IfOk result (λ mining. IsYes (due_of mining)) }
{
    every_snapshot_is_well_formed(&snapshot);
    let weights = weights_by(alloc, &snapshot, miner)?;
    if miner.is_packed() {
        return mine_packed(alloc, snapshot, weights);
    }
    let mined = mine_plain(alloc, snapshot, weights)?;
    Ok(Mining::Done(mined))
}

/// What a miner makes of an election, whose work is not looked at. What gets a Yes is sound.
pub fn mine_election(alloc: Global, election: Election, miner: Miner) -> Result<Mining, NoMemory>
    requires { HasRounds miner }
    ensures mined { IfOk result (λ mining. IsMining miner election.snapshot (due_of mining)) }
    ensures members { IfOk result (λ mining. AreTargets (due_of mining)) }
    ensures sound { IfOk result (λ mining. IsYes (due_of mining)
        → IsSoundElection (tasks.Mine miner) election) }
    ensures passes { miner ≡ miners.Fill → IfOk result (λ mining. IsYes (due_of mining)) }
{
    every_snapshot_is_well_formed(&election.snapshot);
    let Election { snapshot, .. } = election;
    mine_snapshot(alloc, snapshot, miner)
}
