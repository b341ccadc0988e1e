//! What is wrong with an era.
ghost use Rattle.std.specs.Prelude.{◌≡◌, ◌^◌, nat_le, Some, None, map, IfOk};
ghost use Rattle.std.specs.List.{list_any};
ghost use Rattle.npos_base.specs.Account.{same_account};
ghost use Rattle.era_book.specs.Exposures.{amount_sum};
ghost use Rattle.state_rules.specs.Lists.{bad_place, has_bad};
ghost use Rattle.account_places.specs.Places.{by_account};
ghost use Rattle.state_rules.specs.Accounts.{AreNoted};
ghost use Rattle.state_rules.specs.Eras.{is_bad_line, has_late_own, are_bad_backers, is_out_of_order, is_bad_member, are_bad_members, is_bad_number, is_bad_era};

use crate::seen::{Seen, accounts_of, is_known, names_unknown};
use crate::{EraRow, MemberRow};
use era_book::Backer;
use npos_base::{AccountId, MOST_PAST_ERAS, NoMemory, WHOLE_FRACTION};
use stake_ledger::BookRow;
use std::alloc::Global;

/// The place of the first era that is wrong, where params stand or none. It takes about as long as to
/// look up each account of the rows and of the eras.
pub(crate) fn bad_era(
    alloc: Global,
    has_params: bool,
    current: u32,
    rows: &[BookRow],
    eras: &[EraRow],
) -> Result<Option<usize>, NoMemory>
    ensures { IfOk result (λ place. place
        ≡ bad_place (is_bad_era has_params current rows.now) eras.now) }
{
    let known = accounts_of(alloc, rows)?;
    for (place, era) in eras.iter().enumerate() {
        if is_bad_era(
            alloc,
            &known,
            has_params,
            current,
            rows,
            &eras[..place],
            era,
        )? {
            return Ok(Some(place));
        }
    }
    Ok(None)
}

/// Whether there are no params, or the number or a member is wrong.
fn is_bad_era(
    alloc: Global,
    known: &Seen,
    has_params: bool,
    current: u32,
    rows: &[BookRow],
    before: &[EraRow],
    era: &EraRow,
) -> Result<bool, NoMemory>
    requires { AreNoted (by_account known.now.accounts) (map (λ row. row.who) rows.now) }
    ensures { IfOk result (λ bad. bad
        ≡ is_bad_era has_params current rows.now before.now era.now) }
{
    if !has_params || is_bad_number(current, before, era) {
        return Ok(true);
    }
    are_bad_members(alloc, known, rows, era.members.as_slice())
}

/// Whether the era is the first one, later than the current one, no longer kept, or not above the
/// one before.
fn is_bad_number(current: u32, before: &[EraRow], era: &EraRow) -> bool
    ensures { result ≡ is_bad_number current before.now era.now }
{
    if era.era == 0
        || era.era > current
        || u64::from(era.era) + u64::from(MOST_PAST_ERAS) < u64::from(current)
    {
        return true;
    }
    match before.last() {
        None => false,
        Some(last) => last.era >= era.era,
    }
}

/// Whether there is no member, or one that is wrong.
fn are_bad_members(
    alloc: Global,
    known: &Seen,
    rows: &[BookRow],
    members: &[MemberRow],
) -> Result<bool, NoMemory>
    requires { AreNoted (by_account known.now.accounts) (map (λ row. row.who) rows.now) }
    ensures { IfOk result (λ bad. bad ≡ are_bad_members rows.now members.now) }
{
    if members.is_empty() {
        return Ok(true);
    }
    for (place, member) in members.iter().enumerate() {
        if is_bad_member(alloc, known, rows, &members[..place], member)? {
            return Ok(true);
        }
    }
    Ok(false)
}

/// Whether the account is not above the one before.
fn is_out_of_order(before: &[MemberRow], member: &MemberRow) -> bool
    ensures { result ≡ is_out_of_order before.now member.now }
{
    match before.last() {
        None => false,
        Some(last) => last.who >= member.who,
    }
}

/// Whether the account has no row or is not above the one before, a fraction is above the whole, or
/// what backs it is wrong.
fn is_bad_member(
    alloc: Global,
    known: &Seen,
    rows: &[BookRow],
    before: &[MemberRow],
    member: &MemberRow,
) -> Result<bool, NoMemory>
    requires { AreNoted (by_account known.now.accounts) (map (λ row. row.who) rows.now) }
    ensures { IfOk result (λ bad. bad ≡ is_bad_member rows.now before.now member.now) }
{
    if is_out_of_order(before, member)
        || !is_known(known, rows, member.who)
        || member.commission > WHOLE_FRACTION
        || member.fraction > WHOLE_FRACTION
    {
        return Ok(true);
    }
    are_bad_backers(alloc, known, rows, member.who, member.backers.as_slice())
}

/// Whether some line is wrong, a later one is the member's own, or they are too much in all.
fn are_bad_backers(
    alloc: Global,
    known: &Seen,
    rows: &[BookRow],
    who: AccountId,
    backers: &[Backer],
) -> Result<bool, NoMemory>
    requires { AreNoted (by_account known.now.accounts) (map (λ row. row.who) rows.now) }
    ensures { IfOk result (λ bad. bad ≡ are_bad_backers rows.now who backers.now) }
{
    if has_late_own(who, backers) || are_too_much(backers) || names_unknown(known, rows, backers) {
        return Ok(true);
    }
    has_bad_line(alloc, backers)
}

/// Whether an amount behind the first is the member's own.
fn has_late_own(who: AccountId, backers: &[Backer]) -> bool
    ensures { result ≡ has_late_own who backers.now }
{
    match backers.split_first() {
        None => false,
        Some((_, others)) => names(others, who),
    }
}

/// Whether some line is of the account.
fn names(lines: &[Backer], who: AccountId) -> bool
    ensures { result ≡ list_any (λ line. same_account line.who who) lines.now }
{
    lines.iter().any(|line| line.who == who)
}

/// Whether the amounts sum to 2^64 or more.
fn are_too_much(lines: &[Backer]) -> bool
    ensures { result ≡ nat_le (2 ^ 64) (amount_sum lines.now) }
{
    let mut sum: u64 = 0;
    for line in lines {
        match sum.checked_add(line.amount) {
            None => return true,
            Some(more) => sum = more,
        }
    }
    false
}

/// Whether some line is without an amount, or of an account that stands twice.
pub(crate) fn has_bad_line(alloc: Global, lines: &[Backer]) -> Result<bool, NoMemory>
    ensures { IfOk result (λ bad. bad ≡ has_bad is_bad_line lines.now) }
{
    let mut seen = Seen::new(alloc);
    for line in lines {
        let twice = seen.note(line.who)?;
        if line.amount == 0 || twice {
            return Ok(true);
        }
    }
    Ok(false)
}
