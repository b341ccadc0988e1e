//! The lines that tell of an election.
ghost use Rattle.std.specs.Prelude.{◌≡◌, ◌≢◌, Some, [], ◌∷◌, ◌++◌, flat_map, IfSome, OnOk};
ghost use Rattle.election_snapshot.specs.declared.fault.SnapshotFault.TheVariants as faults;
ghost use Rattle.told_lines.specs.Texts.{number_text, numbers_line, Keeps};
ghost use Rattle.bundle_reports.specs.Verdicts.{member_line, score_numbers, score_line, solution_line, lost_line, verdict_details, verdict_numbers, verdict_line, fault_numbers, told_details, told_numbers, snapshot_line};
ghost use Rattle.bundle_reports.specs.Demo.{judged_line, size_line};

use election_check::Verdict;
use election_snapshot::{Snapshot, SnapshotFault};
use hex::encode;
use npos_base::{AccountId, MOST_TARGETS, MOST_VOTERS, NoMemory, Score};
use std::alloc::Global;
use told_lines::{Piece, tell};

/// Appends the line of a member with its support.
pub fn tell_member(text: &mut Vec<u8>, who: AccountId, support: u128) -> Result<(), NoMemory>
    ensures text { OnOk result (text.new.items ≡ text.old.items ++ member_line who support) }
    ensures kept { Keeps text.old.items text.new.items }
{
    tell(
        text,
        &[
            Piece::Words("member "),
            Piece::Account(who),
            Piece::Detail(support),
            Piece::Words("\n"),
        ],
    )
}

/// Appends the three numbers of a score.
fn tell_numbers(text: &mut Vec<u8>, score: &Score) -> Result<(), NoMemory>
    ensures text { OnOk result (text.new.items ≡ text.old.items
        ++ flat_map number_text (score_numbers score.now)) }
    ensures kept { Keeps text.old.items text.new.items }
{
    tell(
        text,
        &[
            Piece::Detail(u128::from(score.minimal)),
            Piece::Detail(u128::from(score.sum)),
            Piece::Detail(score.squares),
        ],
    )
}

/// Appends the line of a score.
pub fn tell_score(text: &mut Vec<u8>, score: &Score) -> Result<(), NoMemory>
    ensures { OnOk result (text.new.items ≡ text.old.items ++ score_line score.now) }
{
    tell(text, &[Piece::Words("score")])?;
    tell_numbers(text, score)?;
    tell(text, &[Piece::Words("\n")])
}

/// Appends the line of a score with the verdict on the weights that have it, behind the name of who
/// made them.
pub fn tell_judged(
    text: &mut Vec<u8>,
    whose: &str,
    score: &Score,
    verdict: Verdict,
) -> Result<(), NoMemory>
    ensures { OnOk result (text.new.items ≡ text.old.items
        ++ judged_line whose.now score.now verdict) }
{
    tell(text, &[Piece::Words(whose), Piece::Words(" score")])?;
    tell_numbers(text, score)?;
    tell(text, &[Piece::Words(" ")])?;
    tell_verdict(text, verdict)
}

/// Appends the line of the size of a generated election.
pub fn tell_size(text: &mut Vec<u8>, snapshot: &Snapshot) -> Result<(), NoMemory>
    ensures { OnOk result (text.new.items ≡ text.old.items ++ size_line snapshot.now) }
{
    tell(
        text,
        &[
            Piece::Words("demo targets"),
            Piece::Detail(snapshot.target_count() as u128),
            Piece::Words(" voters"),
            Piece::Detail(snapshot.voter_count() as u128),
            Piece::Words(" total"),
            Piece::Detail(u128::from(snapshot.total())),
            Piece::Words("\n"),
        ],
    )
}

/// Appends the line of a packed solution, its bytes in lower-case hexadecimal.
pub fn tell_solution(alloc: Global, text: &mut Vec<u8>, bytes: &[u8]) -> Result<(), NoMemory>
    ensures { OnOk result (text.new.items ≡ text.old.items ++ solution_line bytes.now) }
{
    let digits = encode(alloc, bytes)?;
    tell(text, &[Piece::Words("solution ")])?;
    tell(text, &[Piece::Words(digits.as_str())])?;
    tell(text, &[Piece::Words("\n")])
}

/// Appends the line of a member that is lost as weights are packed.
pub fn tell_lost(text: &mut Vec<u8>, member: u16) -> Result<(), NoMemory>
    ensures { OnOk result (text.new.items ≡ text.old.items ++ lost_line member) }
{
    tell(
        text,
        &[
            Piece::Words("lost"),
            Piece::Detail(u128::from(member)),
            Piece::Words("\n"),
        ],
    )
}

/// Appends what a verdict tells besides its number.
fn tell_details(text: &mut Vec<u8>, verdict: Verdict) -> Result<(), NoMemory>
    ensures text { OnOk result (text.new.items ≡ text.old.items
        ++ flat_map number_text (verdict_details verdict)) }
    ensures kept { Keeps text.old.items text.new.items }
{
    match verdict {
        Verdict::Yes => Ok(()),
        Verdict::Undecodable { at, why } => tell(
            text,
            &[
                Piece::Detail(u128::from(at)),
                Piece::Detail(u128::from(why.number())),
            ],
        ),
        Verdict::NoVoter(place)
        | Verdict::VoterTwice(place)
        | Verdict::BadShare(place)
        | Verdict::WrongSize(place)
        | Verdict::Overspent(place) => tell(text, &[Piece::Detail(u128::from(place))]),
        Verdict::NoTarget(target) | Verdict::TargetTwice(target) => {
            tell(text, &[Piece::Detail(u128::from(target))])
        }
        Verdict::NotNominated { voter, target } => tell(
            text,
            &[
                Piece::Detail(u128::from(voter)),
                Piece::Detail(u128::from(target)),
            ],
        ),
        Verdict::WrongScore(actual) => tell_numbers(text, &actual),
        Verdict::Outweighed { target, prescore } => tell(
            text,
            &[
                Piece::Detail(u128::from(target)),
                Piece::Detail(u128::from(prescore)),
            ],
        ),
    }
}

/// Appends a line of these words, with the numbers of a verdict behind them.
#[tactic(auto, using(told_lines::proofs::KeptLemmas::kept_on))]
pub fn tell_verdict_behind(
    text: &mut Vec<u8>,
    words: &'static str,
    verdict: Verdict,
) -> Result<(), NoMemory>
    ensures text { OnOk result (text.new.items ≡ text.old.items
        ++ numbers_line words.now (verdict_numbers verdict)) }
    ensures kept { Keeps text.old.items text.new.items }
{
    tell(
        text,
        &[
            Piece::Words(words),
            Piece::Detail(u128::from(verdict.number())),
        ],
    )?;
    tell_details(text, verdict)?;
    tell(text, &[Piece::Words("\n")])
}

/// Appends the line of a verdict.
pub fn tell_verdict(text: &mut Vec<u8>, verdict: Verdict) -> Result<(), NoMemory>
    ensures text { OnOk result (text.new.items ≡ text.old.items ++ verdict_line verdict) }
    ensures kept { Keeps text.old.items text.new.items }
{
    tell_verdict_behind(text, "verdict", verdict)
}

/// A fault of an election in numbers: its own, and one detail or two.
#[derive(Clone, Copy, Debug)]
pub struct FaultNumbers {
    pub number: u32,
    pub detail: u64,
    /// The seats, where the detail is a count that is too small for them.
    pub seats: Option<u32>,
}

impl FaultNumbers {
    /// A number with its detail.
    fn new(number: u32, detail: u32) -> FaultNumbers
        ensures { told_numbers (Some result) ≡ number ∷ detail ∷ [] }
    {
        FaultNumbers {
            number,
            detail: u64::from(detail),
            seats: None,
        }
    }

    /// A number with a count that is too small for the seats.
    fn too_small(number: u32, count: u64, seats: u32) -> FaultNumbers
        ensures { told_numbers (Some result) ≡ number ∷ count ∷ seats ∷ [] }
    {
        FaultNumbers {
            number,
            detail: count,
            seats: Some(seats),
        }
    }
}

/// The numbers of a fault of an election. Want of memory is no such fault, and has none.
pub fn numbers_of(fault: SnapshotFault) -> Option<FaultNumbers>
    ensures numbers { told_numbers result ≡ fault_numbers fault }
    ensures memory { IfSome result (λ _. fault ≢ faults.NoMemory) }
{
    let numbers = match fault {
        SnapshotFault::Few { targets, seats } => {
            FaultNumbers::too_small(1, u64::from(targets), seats)
        }
        SnapshotFault::Poor { total, seats } => FaultNumbers::too_small(2, total, seats),
        SnapshotFault::RepeatedTarget(place) => FaultNumbers::new(3, place),
        SnapshotFault::RepeatedVoter(place) => FaultNumbers::new(4, place),
        SnapshotFault::UnknownTarget(place) => FaultNumbers::new(5, place),
        SnapshotFault::RepeatedVote(place) => FaultNumbers::new(6, place),
        SnapshotFault::NoVotes(place) => FaultNumbers::new(7, place),
        SnapshotFault::ZeroStake(place) => FaultNumbers::new(8, place),
        SnapshotFault::TooManyTargets => FaultNumbers::new(9, MOST_TARGETS as u32),
        SnapshotFault::TooManyVoters => FaultNumbers::new(10, MOST_VOTERS as u32),
        SnapshotFault::TooManyVotes(place) => FaultNumbers::new(11, place),
        SnapshotFault::TotalTooLarge(place) => FaultNumbers::new(12, place),
        SnapshotFault::BadSeats(seats) => FaultNumbers::new(13, seats),
        SnapshotFault::NoMemory => return None,
    };
    Some(numbers)
}

/// Appends the details of a fault of an election.
fn tell_fault_details(text: &mut Vec<u8>, numbers: FaultNumbers) -> Result<(), NoMemory>
    ensures { OnOk result (text.new.items ≡ text.old.items
        ++ flat_map number_text (told_details numbers)) }
{
    let detail = Piece::Detail(u128::from(numbers.detail));
    match numbers.seats {
        None => tell(text, &[detail]),
        Some(seats) => tell(text, &[detail, Piece::Detail(u128::from(seats))]),
    }
}

/// Appends the line of an election that has a fault. Want of memory is no fault of an election, and
/// has no line.
pub fn tell_snapshot_fault(text: &mut Vec<u8>, fault: SnapshotFault) -> Result<(), NoMemory>
    ensures line { OnOk result (text.new.items ≡ text.old.items ++ snapshot_line fault) }
    ensures memory { OnOk result (fault ≢ faults.NoMemory) }
{
    let Some(numbers) = numbers_of(fault) else {
        return Err(NoMemory);
    };
    tell(
        text,
        &[
            Piece::Words("fault 0 snapshot"),
            Piece::Detail(u128::from(numbers.number)),
        ],
    )?;
    tell_fault_details(text, numbers)?;
    tell(text, &[Piece::Words("\n")])
}
