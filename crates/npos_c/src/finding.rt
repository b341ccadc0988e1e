//! The numbers by which it is told what was found of a bundle.
ghost use Rattle.std.specs.Prelude.{◌≡◌, ◌/◌, ◌%◌, ◌^◌, [], ◌∷◌};
ghost use Rattle.election_check.specs.Number.{verdict_number};
ghost use Rattle.election_work.specs.declared.finding.Finding.TheVariants as findings;
ghost use Rattle.bundle_reports.specs.Verdicts.{verdict_details, fault_numbers};
ghost use Rattle.npos_c.specs.Findings.{figures, told_as};

use bundle_reports::numbers_of;
use election_check::Verdict;
use election_snapshot::SnapshotFault;
use election_work::{Finding, MOST_BUNDLE, NoElection};

/// What is found of a bundle, in numbers: of which kind it is, its number among those of its kind,
/// and up to three details. A detail that it does not have is 0. The third stands in two parts of
/// 64 bits.
#[repr(C)]
#[derive(Clone, Copy, Debug)]
pub struct NposFinding {
    pub kind: u32,
    pub number: u32,
    pub first: u64,
    pub second: u64,
    pub third_high: u64,
    pub third_low: u64,
}

/// The kinds of findings.
const JUDGED: u32 = 0;

const LOST: u32 = 1;

const REFUSED: u32 = 2;

const UNELECTABLE: u32 = 3;

const UNSOLVED: u32 = 4;

const LONG: u32 = 5;

/// The upper 64 bits of a number, and the lower ones.
pub fn halves_of(number: u128) -> (u64, u64)
    ensures high { result.0 ≡ number / 2 ^ 64 }
    ensures low { result.1 ≡ number % 2 ^ 64 }
{
    let step = u128::from(u64::MAX) + 1;
    ((number / step) as u64, (number % step) as u64)
}

/// A finding with at most two details.
fn figures(kind: u32, number: u32, first: u64, second: u64) -> NposFinding
    ensures { result ≡ figures kind (number ∷ first ∷ second ∷ []) }
{
    NposFinding {
        kind,
        number,
        first,
        second,
        third_high: 0,
        third_low: 0,
    }
}

/// A verdict in numbers.
fn verdict_figures(verdict: Verdict) -> NposFinding
    ensures { result ≡ figures JUDGED (verdict_number verdict ∷ verdict_details verdict) }
{
    let number = u32::from(verdict.number());
    match verdict {
        Verdict::Yes => figures(JUDGED, number, 0, 0),
        Verdict::Undecodable { at, why } => figures(JUDGED, number, at, u64::from(why.number())),
        Verdict::NoVoter(place)
        | Verdict::VoterTwice(place)
        | Verdict::BadShare(place)
        | Verdict::WrongSize(place)
        | Verdict::Overspent(place) => figures(JUDGED, number, u64::from(place), 0),
        Verdict::NoTarget(target) | Verdict::TargetTwice(target) => {
            figures(JUDGED, number, u64::from(target), 0)
        }
        Verdict::NotNominated { voter, target } => {
            figures(JUDGED, number, u64::from(voter), u64::from(target))
        }
        Verdict::WrongScore(actual) => {
            let (third_high, third_low) = halves_of(actual.squares);
            NposFinding {
                kind: JUDGED,
                number,
                first: actual.minimal,
                second: actual.sum,
                third_high,
                third_low,
            }
        }
        Verdict::Outweighed { target, prescore } => {
            figures(JUDGED, number, u64::from(target), prescore)
        }
    }
}

/// A fault of an election in numbers.
fn fault_figures(fault: SnapshotFault) -> NposFinding
    ensures { result ≡ figures UNELECTABLE (fault_numbers fault) }
{
    let Some(numbers) = numbers_of(fault) else {
        return figures(UNELECTABLE, 0, 0, 0);
    };
    let seats = match numbers.seats {
        None => 0,
        Some(seats) => u64::from(seats),
    };
    figures(UNELECTABLE, numbers.number, numbers.detail, seats)
}

/// Why bytes spell no election, in numbers.
fn unread_figures(why: NoElection) -> NposFinding
    ensures { result ≡ told_as (findings.Unread why) }
{
    match why {
        NoElection::Refused(fault) => figures(REFUSED, u32::from(fault.why.number()), fault.at, 0),
        NoElection::Unelectable(fault) => fault_figures(fault),
        NoElection::Long => figures(LONG, 0, MOST_BUNDLE as u64, 0),
    }
}

/// A finding in numbers.
pub fn told_as(finding: Finding) -> NposFinding
    ensures { result ≡ told_as finding }
{
    match finding {
        Finding::Judged(verdict) => verdict_figures(verdict),
        Finding::Lost(member) => figures(LOST, 0, u64::from(member), 0),
        Finding::Unsolved(at) => figures(UNSOLVED, 0, at, 0),
        Finding::Unread(why) => unread_figures(why),
    }
}
