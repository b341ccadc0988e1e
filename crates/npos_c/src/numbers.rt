//! The numbers by which calls answer and are asked.
ghost use Rattle.std.specs.Prelude.{◌≡◌};
ghost use Rattle.npos_c.specs.Answers.{ending_number, answer_of};
ghost use Rattle.bundle_reports.specs.Bundles.{verdict_ending};

use bundle_reports::Ending;
use election_check::Verdict;
use election_work::Finding;

/// What was asked is done; of a verdict, it is Yes.
pub const DONE: u32 = 0;
/// The verdict is not Yes, or a member is lost as weights are packed.
pub const NO: u32 = 1;
/// No task or miner has these numbers.
pub const UNKNOWN: u32 = 2;
/// The bundle has a fault.
pub const BAD_INPUT: u32 = 3;
/// Memory was refused.
pub const NO_MEMORY: u32 = 6;
/// A buffer is too small.
pub const SMALL: u32 = 8;

/// The number of a report's ending.
pub fn ending_number(ending: Ending) -> u32
    ensures { result ≡ ending_number ending }
{
    match ending {
        Ending::Done => DONE,
        Ending::No => NO,
        Ending::BadInput => BAD_INPUT,
    }
}

/// The number that a verdict is answered with.
pub fn verdict_answer(verdict: Verdict) -> u32
    ensures { result ≡ ending_number (verdict_ending verdict) }
{
    match verdict {
        Verdict::Yes => DONE,
        _ => NO,
    }
}

/// The number that a finding is answered with.
pub fn answer_of(finding: Finding) -> u32
    ensures { result ≡ answer_of finding }
{
    match finding {
        Finding::Judged(verdict) => verdict_answer(verdict),
        Finding::Lost(_) => NO,
        Finding::Unsolved(_) | Finding::Unread(_) => BAD_INPUT,
    }
}
