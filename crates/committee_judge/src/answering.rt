//! What is answered on the bytes of a bundle whose committee is judged.
ghost use Rattle.std.specs.Prelude.{◌≡◌, IfOk};
ghost use Rattle.bundle_reports.specs.declared.ending.Ending.TheVariants as endings;
ghost use Rattle.bundle_reports.specs.Answer.{report_of};
ghost use Rattle.committee_judge.specs.Reports.{IsWithin, NamesWithin, denied_report, judging_report, IsJudgeReport, IsAnsweredIn};

use crate::judging::{Judging, judge_election};
use crate::telling::{excess, tell_denied};
use bundle_reports::{Answer, finding_answer, told};
use committee_answer::Denied;
use election_check::Verdict;
use election_snapshot::Snapshot;
use election_work::{Finding, Reading, read_election};
use npos_base::NoMemory;
use std::alloc::Global;

/// The answer where somebody is denied.
fn denied_answer(alloc: Global, snapshot: &Snapshot, denied: &Denied) -> Result<Answer, NoMemory>
    requires { IsWithin snapshot.now denied.now }
    ensures { IfOk result (λ answer. report_of answer ≡ denied_report snapshot.now denied.now) }
{
    let mut lines = Vec::new(alloc);
    tell_denied(&mut lines, snapshot, denied)?;
    let verdict = Verdict::Outweighed {
        target: denied.target,
        prescore: excess(snapshot, denied),
    };
    told(lines, verdict)
}

/// The answer of a judgement.
fn judging_answer(alloc: Global, judging: &Judging) -> Result<Answer, NoMemory>
    requires { NamesWithin judging.now }
    ensures { IfOk result (λ answer. report_of answer ≡ judging_report judging.now) }
{
    match judging {
        Judging::Done(judged) => match &judged.denied {
            Some(denied) => denied_answer(alloc, &judged.snapshot, denied),
            None => told(Vec::new(alloc), Verdict::Yes),
        },
        Judging::Refused(finding) => finding_answer(alloc, *finding),
    }
}

/// The answer on the committee in the bytes of a bundle, which go once they are read.
pub fn judge_bytes(alloc: Global, bytes: Vec<u8>) -> Result<Answer, NoMemory>
    ensures report { IfOk result (λ answer. IsJudgeReport bytes.items (report_of answer)) }
    ensures answered { IfOk result (λ answer. answer.ending ≡ endings.Done
        → IsAnsweredIn bytes.items) }
{
    let size = bytes.len() as u64;
    let read = read_election(alloc, bytes.as_slice())?;
    drop(bytes);
    match read {
        Reading::Stands(election) => {
            let judging = judge_election(alloc, election, size)?;
            judging_answer(alloc, &judging)
        }
        Reading::Refused(why) => finding_answer(alloc, Finding::Unread(why)),
    }
}
