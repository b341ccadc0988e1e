//! The lines of blocks, of their faults, and the end line.
ghost use Rattle.std.specs.Prelude.{◌≡◌, ◌≢◌, ◌+◌, ◌^◌, ◌<◌, ◌≤◌, ◌++◌, flat_map, map, take, length, decimal, Some, OnOk, IfOk};
ghost use Rattle.std.specs.List.{range_with_len};
ghost use Rattle.told_lines.specs.Texts.{newline};
ghost use Rattle.bundle_reports.specs.Texts.{fault_line, word_of};
ghost use Rattle.run_edges.specs.Texts.{number_line};
ghost use Rattle.npos_cli.specs.Texts.{genesis_line};
ghost use Rattle.block_receipts.specs.declared.line.Line.TheVariants as lines;
ghost use Rattle.chain_params.specs.Faults.{fault_numbers};
ghost use Rattle.chain_params.specs.declared.fault.GenesisFault.TheVariants as faults;
ghost use Rattle.told_lines.specs.Pieces.{piece_text};
ghost use Rattle.npos_cli.specs.Chain.{end_line, line_text};
ghost use Rattle.npos_cli.specs.Checkpoints.{state_line};
ghost use Rattle.npos_runtime.specs.declared.state_fault.StateFault.TheVariants as state_faults;

use bundle_reports::{tell_member, tell_verdict, tell_verdict_behind};
use election_check::Verdict;
use npos_base::NoMemory;
use npos_runtime::{GenesisFault, Line, StateFault};
use stake_ledger::Totals;
use told_lines::{Piece, tell, tell_amount, tell_ok, tell_oks};

/// Appends the line of a block whose number is not the due one.
pub fn tell_other_number(text: &mut Vec<u8>, at: u64, due: u64, found: u32) -> Result<(), NoMemory>
    ensures { OnOk result (text.new.items ≡ text.old.items ++ number_line at due found) }
{
    tell(
        text,
        &[
            Piece::Words("fault "),
            Piece::Number(at),
            Piece::Words(" number due "),
            Piece::Number(due),
            Piece::Words(" found "),
            Piece::Number(u64::from(found)),
            Piece::Words("\n"),
        ],
    )
}

/// Appends the line of a genesis that has a fault. Want of memory is no fault of a genesis, and has
/// no line.
pub fn tell_genesis_fault(text: &mut Vec<u8>, fault: GenesisFault) -> Result<(), NoMemory>
    ensures line { OnOk result (text.new.items ≡ text.old.items
        ++ genesis_line (fault_numbers fault)) }
    ensures memory { OnOk result (fault ≢ faults.NoMemory) }
{
    match fault.numbers() {
        None => Err(NoMemory),
        Some((number, detail)) => tell_fault_of_genesis(text, number, detail),
    }
}

/// Appends the line of a state from which no chain goes on. Want of memory is no fault of a state,
/// and has no line.
pub fn tell_state_fault(text: &mut Vec<u8>, fault: StateFault) -> Result<(), NoMemory>
    ensures line { OnOk result (text.new.items ≡ text.old.items ++ state_line fault) }
    ensures memory { OnOk result (fault ≢ state_faults.NoMemory) }
{
    match fault {
        StateFault::NoMemory => Err(NoMemory),
        StateFault::NotElected(verdict) => {
            tell_verdict_behind(text, "fault 0 checkpoint 11", verdict)
        }
        StateFault::Cause { number, detail } => {
            tell_two(text, "fault 0 checkpoint ", u64::from(number), " ", detail)
        }
    }
}

/// Appends the line of the genesis fault with this number and this detail.
pub fn tell_fault_of_genesis(text: &mut Vec<u8>, number: u8, detail: u32) -> Result<(), NoMemory>
    ensures { OnOk result (text.new.items ≡ text.old.items ++ genesis_line (Some (number, detail))) }
{
    tell(
        text,
        &[
            Piece::Words("fault 0 genesis "),
            Piece::Number(u64::from(number)),
            Piece::Words(" "),
            Piece::Number(u64::from(detail)),
            Piece::Words("\n"),
        ],
    )
}

/// Appends the line of a number between these words.
pub fn tell_counted(
    text: &mut Vec<u8>,
    words: &'static str,
    number: u64,
    end: &'static str,
) -> Result<(), NoMemory>
    ensures { OnOk result
        (text.new.items ≡ text.old.items ++ (words.now ++ (decimal number ++ end.now))) }
{
    tell(
        text,
        &[
            Piece::Words(words),
            Piece::Number(number),
            Piece::Words(end),
        ],
    )
}

/// Appends the line of two numbers, each behind some words.
pub fn tell_two(
    text: &mut Vec<u8>,
    words: &'static str,
    first: u64,
    between: &'static str,
    second: u64,
) -> Result<(), NoMemory>
    ensures { OnOk result (text.new.items ≡ text.old.items
        ++ (words.now ++ (decimal first ++ (between.now ++ (decimal second ++ newline))))) }
{
    tell(
        text,
        &[
            Piece::Words(words),
            Piece::Number(first),
            Piece::Words(between),
            Piece::Number(second),
            Piece::Words("\n"),
        ],
    )
}

/// Appends the line of a snapshot.
fn tell_snapshot(
    text: &mut Vec<u8>,
    round: u32,
    targets: u32,
    voters: u32,
    total: u64,
) -> Result<(), NoMemory>
    ensures { OnOk result (text.new.items ≡ text.old.items
        ++ line_text (lines.Snapshot round targets voters total)) }
{
    tell(
        text,
        &[
            Piece::Words("snapshot "),
            Piece::Number(u64::from(round)),
            Piece::Words(" targets "),
            Piece::Number(u64::from(targets)),
            Piece::Words(" voters "),
            Piece::Number(u64::from(voters)),
            Piece::Words(" total "),
            Piece::Number(total),
            Piece::Words("\n"),
        ],
    )
}

/// Appends the line of a submission that does not hold.
fn tell_forfeit(
    text: &mut Vec<u8>,
    number: u64,
    deposit: u64,
    verdict: Verdict,
) -> Result<(), NoMemory>
    ensures { OnOk result
        (text.new.items ≡ text.old.items ++ line_text (lines.Forfeit number deposit verdict)) }
{
    tell(
        text,
        &[
            Piece::Words("forfeit "),
            Piece::Number(number),
            Piece::Words(" "),
            Piece::Number(deposit),
            Piece::Words(" "),
        ],
    )?;
    tell_verdict(text, verdict)
}

/// Appends one line of a receipt. Each kind of line has a function, since a function clears the
/// room of all its values where it begins.
fn tell_line(text: &mut Vec<u8>, line: &Line) -> Result<(), NoMemory>
    ensures { OnOk result (text.new.items ≡ text.old.items ++ line_text line.now) }
{
    match *line {
        Line::Block { number } => tell_counted(text, "block ", u64::from(number), "\n"),
        Line::Era { era } => tell_counted(text, "era ", u64::from(era), "\n"),
        Line::Snapshot {
            round,
            targets,
            voters,
            total,
        } => tell_snapshot(text, round, targets, voters, total),
        Line::VoidFew { round } => tell_counted(text, "void ", u64::from(round), " few\n"),
        Line::VoidPoor { round } => tell_counted(text, "void ", u64::from(round), " poor\n"),
        Line::Forfeit {
            number,
            deposit,
            verdict,
        } => tell_forfeit(text, number, deposit, verdict),
        Line::Returned { number, deposit } => tell_two(text, "return ", number, " ", deposit),
        Line::Reward { number, amount } => tell_two(text, "reward ", number, " ", amount),
        Line::SeatSigned { round, number } => {
            tell_two(text, "seat ", u64::from(round), " signed ", number)
        }
        Line::SeatFill { round } => tell_counted(text, "seat ", u64::from(round), " fill\n"),
        Line::Member { who, support } => tell_member(text, who, u128::from(support)),
        Line::CallOk { index } => tell_ok(text, index),
        Line::Paid { who, amount } => tell_amount(text, b"paid ", who, amount),
        Line::Slashed { who, amount } => tell_amount(text, b"slashed ", who, amount),
        Line::Deferred { number, due } => tell_two(text, "deferred ", number, " ", u64::from(due)),
        Line::Applied { number } => tell_counted(text, "apply ", number, "\n"),
        Line::CallRefused { index, code } => {
            tell_two(
                text,
                "call ",
                u64::from(index),
                " refused ",
                u64::from(code),
            )
        }
    }
}

/// How many lines at the front are those of accepted calls, at this place and at those behind it.
fn accepted(rest: &[Line], first: u32) -> u32
    ensures within { result ≤ length rest.now }
    ensures places { first + result < 2 ^ 32 }
    ensures run { take result rest.now ≡ map lines.CallOk (range_with_len first result) }
{
    let mut due = first;
    for line in rest {
        match *line {
            Line::CallOk { index } if index == due && due < u32::MAX => due += 1,
            _ => return due - first,
        }
    }
    due - first
}

/// Appends the line at the front, or a run of accepted calls at once, and gives how many lines it
/// told. Of a line of another kind only its kind is looked at before it is told.
#[inline]
fn tell_front(text: &mut Vec<u8>, lines: &[Line]) -> Result<usize, NoMemory>
    requires { 0 < length lines.now }
    ensures told { IfOk result (λ count.
        text.new.items ≡ text.old.items ++ flat_map line_text (take count lines.now)) }
    ensures some { IfOk result (λ count. 0 < count) }
    ensures within { IfOk result (λ count. count ≤ length lines.now) }
{
    if let Line::CallOk { index } = lines[0] {
        let count = accepted(lines, index);
        if count > 1 {
            tell_oks(text, index, count)?;
            return Ok(count as usize);
        }
    }
    tell_line(text, &lines[0])?;
    Ok(1)
}

/// Appends the lines of a receipt in order.
pub fn tell_lines(text: &mut Vec<u8>, lines: &[Line]) -> Result<(), NoMemory>
    ensures { OnOk result (text.new.items ≡ text.old.items ++ flat_map line_text lines.now) }
{
    let mut at = 0;
    while at < lines.len() {
        at += tell_front(text, &lines[at..])?;
    }
    Ok(())
}

/// Appends the end line.
pub fn tell_end(text: &mut Vec<u8>, totals: &Totals) -> Result<(), NoMemory>
    ensures { OnOk result (text.new.items ≡ text.old.items ++ end_line totals.now) }
{
    tell(
        text,
        &[
            Piece::Words("end free "),
            Piece::Number(totals.free),
            Piece::Words(" active "),
            Piece::Number(totals.active),
            Piece::Words(" unlocking "),
            Piece::Number(totals.unlocking),
            Piece::Words(" deposits "),
            Piece::Number(totals.deposits),
            Piece::Words(" minted "),
            Piece::Number(totals.minted),
            Piece::Words(" burned "),
            Piece::Number(totals.burned),
            Piece::Words(" issuance "),
            Piece::Number(totals.issuance),
            Piece::Words("\n"),
        ],
    )
}
