//! What is answered on a bundle: a text and an ending.
ghost use Rattle.std.specs.Prelude.{◌≡◌, ◌++◌, IfOk, OnOk};
ghost use Rattle.bundle_reports.specs.Verdicts.{no_solution_line};
ghost use Rattle.bundle_reports.specs.Bundles.{told, verdict_ending, no_election_line, finding_line, finding_ending, reported};
ghost use Rattle.bundle_reports.specs.Answer.{report_of};

use crate::Ending;
use crate::numbers::{tell_lost, tell_snapshot_fault, tell_verdict};
use crate::telling::tell_fault;
use election_check::Verdict;
use election_work::{Finding, NoElection};
use npos_base::NoMemory;
use std::alloc::Global;
use told_lines::{Piece, tell};

/// A text, and the ending that it is told with.
#[derive(Drop)]
pub struct Answer {
    pub text: Vec<u8>,
    pub ending: Ending,
}

/// Appends the line of a bundle without work, whose tag stands at this place.
fn tell_unsolved(text: &mut Vec<u8>, at: u64) -> Result<(), NoMemory>
    ensures { OnOk result (text.new.items ≡ text.old.items ++ no_solution_line at) }
{
    tell(
        text,
        &[
            Piece::Words("fault "),
            Piece::Number(at),
            Piece::Words(" nosolution\n"),
        ],
    )
}

/// Appends the line of bytes that spell no election.
fn tell_no_election(text: &mut Vec<u8>, why: NoElection) -> Result<(), NoMemory>
    ensures { OnOk result (text.new.items ≡ text.old.items ++ no_election_line why) }
{
    match why {
        NoElection::Long => tell(text, &[Piece::Words("fault 16777216 long\n")]),
        NoElection::Refused(fault) => tell_fault(text, fault.at, fault.why),
        NoElection::Unelectable(fault) => tell_snapshot_fault(text, fault),
    }
}

/// Appends the line of what was found.
pub fn tell_finding(text: &mut Vec<u8>, finding: Finding) -> Result<(), NoMemory>
    ensures { OnOk result (text.new.items ≡ text.old.items ++ finding_line finding) }
{
    match finding {
        Finding::Judged(verdict) => tell_verdict(text, verdict),
        Finding::Lost(member) => tell_lost(text, member),
        Finding::Unsolved(at) => tell_unsolved(text, at),
        Finding::Unread(why) => tell_no_election(text, why),
    }
}

fn verdict_ending(verdict: Verdict) -> Ending
    ensures { result ≡ verdict_ending verdict }
{
    match verdict {
        Verdict::Yes => Ending::Done,
        _ => Ending::No,
    }
}

/// How what was found ends.
pub fn finding_ending(finding: Finding) -> Ending
    ensures { result ≡ finding_ending finding }
{
    match finding {
        Finding::Judged(verdict) => verdict_ending(verdict),
        Finding::Lost(_) => Ending::No,
        Finding::Unsolved(_) | Finding::Unread(_) => Ending::BadInput,
    }
}

/// The answer of what was found.
pub fn finding_answer(alloc: Global, finding: Finding) -> Result<Answer, NoMemory>
    ensures { IfOk result (λ answer. report_of answer ≡ reported finding) }
{
    let mut text = Vec::new(alloc);
    tell_finding(&mut text, finding)?;
    Ok(Answer {
        text,
        ending: finding_ending(finding),
    })
}

/// The answer of a verdict behind some lines.
pub fn told(lines: Vec<u8>, verdict: Verdict) -> Result<Answer, NoMemory>
    ensures { IfOk result (λ answer. report_of answer ≡ told lines.items verdict) }
{
    let mut text = lines;
    tell_verdict(&mut text, verdict)?;
    Ok(Answer {
        text,
        ending: verdict_ending(verdict),
    })
}
