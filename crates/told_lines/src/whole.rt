//! Lines that are made whole before they are told. Replays tell more of them than of all others.
ghost use Rattle.std.specs.Prelude.{◌≡◌, ◌+◌, ◌*◌, ◌-◌, ◌^◌, ◌<◌, ◌≤◌, ◌++◌, flat_map, OnOk};
ghost use Rattle.std.specs.List.{range_with_len};
ghost use Rattle.told_lines.specs.Texts.{amount_line, ok_line, Keeps};

use crate::accounts::write_account;
use itoa::write_digits;
use npos_base::{AccountId, NoMemory};

/// Appends the line of an account and an amount, behind a few words. The line is made whole first,
/// from its end: the newline, the digits of the amount, a blank, the account and the words. The
/// compiler knows how many the words are, and copies them in two moves.
#[tactic(auto, using(crate::proofs::KeptLemmas::kept_behind))]
pub fn tell_amount<const N: usize>(
    text: &mut Vec<u8>,
    words: &[u8; N],
    who: AccountId,
    amount: u64,
) -> Result<(), NoMemory>
    requires few { N ≤ 8 }
    ensures text { OnOk result
        (text.new.items ≡ text.old.items ++ amount_line words.now who amount) }
    ensures kept { Keeps text.old.items text.new.items }
{
    let mut line = [b'\n'; 94];
    let blank = write_digits(amount, &mut line, 93) - 1;
    line[blank] = b' ';
    let account = blank - 64;
    write_account(&mut line[account..blank], who);
    let start = account - N;
    line[start..account].copy_from_slice(words);
    text.extend_from_slice(&line[start..])?;
    Ok(())
}

/// The lines of accepted calls at the first places of a block, one behind the other, up to the most
/// calls that a block of a stream has.
static LINES: [u8; 694] =
    *b"call 0 ok\ncall 1 ok\ncall 2 ok\ncall 3 ok\ncall 4 ok\ncall 5 ok\ncall 6 ok\ncall 7 ok\ncall 8 ok\ncall 9 ok\ncall 10 ok\ncall 11 ok\ncall 12 ok\ncall 13 ok\ncall 14 ok\ncall 15 ok\ncall 16 ok\ncall 17 ok\ncall 18 ok\ncall 19 ok\ncall 20 ok\ncall 21 ok\ncall 22 ok\ncall 23 ok\ncall 24 ok\ncall 25 ok\ncall 26 ok\ncall 27 ok\ncall 28 ok\ncall 29 ok\ncall 30 ok\ncall 31 ok\ncall 32 ok\ncall 33 ok\ncall 34 ok\ncall 35 ok\ncall 36 ok\ncall 37 ok\ncall 38 ok\ncall 39 ok\ncall 40 ok\ncall 41 ok\ncall 42 ok\ncall 43 ok\ncall 44 ok\ncall 45 ok\ncall 46 ok\ncall 47 ok\ncall 48 ok\ncall 49 ok\ncall 50 ok\ncall 51 ok\ncall 52 ok\ncall 53 ok\ncall 54 ok\ncall 55 ok\ncall 56 ok\ncall 57 ok\ncall 58 ok\ncall 59 ok\ncall 60 ok\ncall 61 ok\ncall 62 ok\ncall 63 ok\n";

/// Where the line of this place starts in the table. The lines of the first ten places have a digit
/// less than the others.
fn line_start(place: usize) -> usize
    requires { place ≤ 64 }
    ensures { result ≡ 10 * place + (place - 10) }
{
    10 * place + place.saturating_sub(10)
}

/// Appends the line of a call that was accepted, by its place in the block. Most places are in a
/// table, from where a line is copied in two moves.
#[tactic(auto, using(crate::proofs::KeptLemmas::kept_behind, crate::proofs::LineLemmas::first_at, crate::proofs::LineLemmas::other_at))]
pub fn tell_ok(text: &mut Vec<u8>, index: u32) -> Result<(), NoMemory>
    ensures text { OnOk result (text.new.items ≡ text.old.items ++ ok_line index) }
    ensures kept { Keeps text.old.items text.new.items }
{
    let place = index as usize;
    if place < 10 {
        text.extend_from_slice(&LINES[10 * place..10 * place + 10])?;
        Ok(())
    } else if place < 64 {
        text.extend_from_slice(&LINES[11 * place - 10..11 * place + 1])?;
        Ok(())
    } else {
        tell_far_ok(text, index)
    }
}

/// Appends the lines of so many accepted calls, from the place of the first one on. Where the table
/// has them all they are copied at once.
#[tactic(auto, using(crate::proofs::KeptLemmas::kept_behind, crate::proofs::LineLemmas::run_at))]
pub fn tell_oks(text: &mut Vec<u8>, first: u32, count: u32) -> Result<(), NoMemory>
    requires { first + count < 2 ^ 32 }
    ensures text { OnOk result
        (text.new.items ≡ text.old.items ++ flat_map ok_line (range_with_len first count)) }
    ensures kept { Keeps text.old.items text.new.items }
{
    let end = first + count;
    if end <= 64 {
        let (start, behind) = (line_start(first as usize), line_start(end as usize));
        text.extend_from_slice(&LINES[start..behind])?;
        Ok(())
    } else {
        tell_far_oks(text, first, end)
    }
}

/// Appends the lines of accepted calls, from one place up to another, one by one.
#[inline(never)]
#[tactic(auto, using(crate::proofs::KeptLemmas::kept_behind, crate::proofs::KeptLemmas::kept_on))]
fn tell_far_oks(text: &mut Vec<u8>, first: u32, end: u32) -> Result<(), NoMemory>
    requires { first ≤ end }
    ensures text { OnOk result
        (text.new.items ≡ text.old.items ++ flat_map ok_line (range_with_len first (end - first))) }
    ensures kept { Keeps text.old.items text.new.items }
{
    for index in first..end {
        tell_ok(text, index)?;
    }
    Ok(())
}

/// Appends the line of a call at any place. It is made from its end: the word, the digits, and the
/// word before them.
#[inline(never)]
#[tactic(auto, using(crate::proofs::KeptLemmas::kept_behind, crate::proofs::KeptLemmas::kept_on))]
fn tell_far_ok(text: &mut Vec<u8>, index: u32) -> Result<(), NoMemory>
    ensures text { OnOk result (text.new.items ≡ text.old.items ++ ok_line index) }
    ensures kept { Keeps text.old.items text.new.items }
{
    let mut line = *b"call 4294967295 ok\n";
    let digits = write_digits(u64::from(index), &mut line, 15);
    line[digits - 5..digits].copy_from_slice(b"call ");
    text.extend_from_slice(&line[digits - 5..])?;
    Ok(())
}
