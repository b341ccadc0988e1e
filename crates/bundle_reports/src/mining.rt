//! What is answered on what a miner makes of an election.
ghost use Rattle.std.specs.Prelude.{◌≡◌, ◌<◌, ◌++◌, length, All, IfOk, OnOk};
ghost use Rattle.election_work.specs.Mining.{outcome_of, due_of, AreTargets};
ghost use Rattle.bundle_reports.specs.Mining.{member_lines, solution_lines, outcome_report, mined_report};
ghost use Rattle.bundle_reports.specs.Answer.{report_of};

use crate::answers::{Answer, finding_answer, told};
use crate::numbers::{tell_member, tell_score, tell_solution};
use election_snapshot::Snapshot;
use election_work::{Mined, Mining};
use npos_base::{List, NoMemory};
use std::alloc::Global;
use weight_book::Weights;

/// Appends the lines of the members in the order of the committee.
fn tell_members(text: &mut Vec<u8>, snapshot: &Snapshot, weights: &Weights) -> Result<(), NoMemory>
    requires { All (λ member. member < length snapshot.now.targets) weights.now.plain.committee }
    ensures { OnOk result (text.new.items ≡ text.old.items
        ++ member_lines snapshot.now weights.now.plain) }
{
    for member in weights.committee() {
        tell_member(text, snapshot.target(*member), weights.support(*member))?;
    }
    Ok(())
}

/// Appends the line of the solution, where there is one.
fn tell_packed(
    alloc: Global,
    text: &mut Vec<u8>,
    solution: &Option<List<u8>>,
) -> Result<(), NoMemory>
    ensures { OnOk result (text.new.items ≡ text.old.items ++ solution_lines solution.now) }
{
    match solution {
        Some(bytes) => tell_solution(alloc, text, bytes.as_slice()),
        None => Ok(()),
    }
}

/// The answer of what was mined: its members and its score, its solution where it is packed, and the
/// verdict.
fn mined_answer(alloc: Global, mined: &Mined) -> Result<Answer, NoMemory>
    requires { All (λ member. member < length mined.now.snapshot.targets)
        mined.now.weights.plain.committee }
    ensures { IfOk result (λ answer. report_of answer ≡ outcome_report (outcome_of mined.now)) }
{
    let mut lines = Vec::new(alloc);
    tell_members(&mut lines, &mined.snapshot, &mined.weights)?;
    tell_score(&mut lines, &mined.score)?;
    tell_packed(alloc, &mut lines, &mined.solution)?;
    told(lines, mined.verdict)
}

/// The answer of what a miner makes of an election, or of what was found in its place.
pub fn mining_answer(alloc: Global, mining: &Mining) -> Result<Answer, NoMemory>
    requires { AreTargets (due_of mining.now) }
    ensures { IfOk result (λ answer. report_of answer ≡ mined_report (due_of mining.now)) }
{
    match mining {
        Mining::Done(mined) => mined_answer(alloc, mined),
        Mining::Refused(finding) => finding_answer(alloc, *finding),
    }
}
