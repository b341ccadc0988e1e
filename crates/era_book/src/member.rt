//! One validator in one era: what stands behind it and what happened since.
ghost use Rattle.std.specs.Prelude.{◌≡◌, ◌^◌, ◌<◌, ◌≤◌, ◌+◌, ◌++◌, [], ◌∷◌, length, map, find, IfOk};
ghost use Rattle.std.specs.Option.{option_copied};
ghost use Rattle.npos_base.specs.Account.{same_account, account_at};
ghost use Rattle.npos_base.specs.declared.limits.TheConstants.{WHOLE_FRACTION};
ghost use Rattle.era_book.specs.Exposures.{amount_sum, IsSoundExposure};
ghost use Rattle.era_book.specs.Payouts.{part, own_part, others, kept_lines, line, payout_lines, payout_of};
ghost use Rattle.era_book.specs.Slashes.{slash_lines};
ghost use Rattle.era_book.specs.Seats.{backers_seen, member_seen};

use crate::seat::{Seat, Share, account_at};
use crate::{Backer, Payout};
use npos_base::{AccountId, List, NoMemory, Room, WHOLE_FRACTION, part_of};
use std::alloc::Global;
use std::marker::Model;

/// One validator in one era, as it is kept: its seat, with the accounts that the shares name.
/// Contracts see the member. Looking at it takes no memory.
#[derive(Drop)]
pub struct Member<'a> {
    accounts: &'a [AccountId],
    seat: &'a Seat,
}

impl<'a> Model for Member<'a> {
    ghost use Rattle.era_book.specs.Members.{Member};
    ghost use Rattle.era_book.specs.Seats.{member_seen};

    ghost Value = { Member };

    ghost view = { λ member. member_seen member.accounts.now member.seat.now };
}

impl<'a> Member<'a> {
    /// The member of a seat, whose shares name these accounts.
    pub fn of(accounts: &'a [AccountId], seat: &'a Seat) -> Member<'a>
        ensures { result ≡ member_seen accounts.now seat.now }
    {
        Member { accounts, seat }
    }

    /// Its points, at most 2^32 - 1.
    pub fn points(&self) -> u32
        ensures { result ≡ self.now.points }
    {
        self.seat.points
    }

    /// Whether its part of the era's reward is claimed.
    pub fn claimed(&self) -> bool
        ensures { result ≡ self.now.claimed }
    {
        self.seat.claimed
    }

    /// The greatest fraction that was reported, in billionths; 0 at first.
    pub fn fraction(&self) -> u32
        ensures { result ≡ self.now.fraction }
    {
        self.seat.fraction
    }

    /// What a value pays that is due to this member and its backers: the commission to the
    /// validator, and the rest by what each gives.
    #[tactic(auto, using(crate::proofs::LineLemmas::payout_within))]
    pub fn payout(&self, alloc: Global, value: u64) -> Result<Payout, NoMemory>
        requires { IsSoundExposure self.now.exposure }
        ensures payout { IfOk result (λ payout. payout ≡ payout_of self.now.exposure value) }
        ensures within { IfOk result (λ payout. payout.total ≤ value) }
    {
        let lines = payout_lines(alloc, self.accounts, self.seat, value)?;
        let total = total_of(lines.as_slice());
        Ok(Payout { lines, total })
    }

    /// What is due where the fraction is reported.
    pub fn dues(&self, alloc: Global, fraction: u32) -> Result<List<Backer>, NoMemory>
        requires greater { self.now.fraction < fraction }
        requires most { fraction ≤ WHOLE_FRACTION }
        ensures { IfOk result (λ lines.
            lines ≡ slash_lines self.now.exposure.backers self.now.fraction fraction) }
    {
        slash_lines(
            alloc,
            self.accounts,
            self.seat.shares.as_slice(),
            self.seat.fraction,
            fraction,
        )
    }
}

/// The part that so many billionths are of the value. Where the product does not fit 64 bits, the
/// value's whole billions and what is left over have their parts each, so that 64 bits are enough.
fn billionths_of(value: u64, billionths: u32) -> u64
    requires { billionths ≤ WHOLE_FRACTION }
    ensures part { result ≡ part value billionths WHOLE_FRACTION }
    ensures within { result ≤ value }
{
    let whole = u64::from(WHOLE_FRACTION);
    let parts = u64::from(billionths);
    match value.checked_mul(parts) {
        Some(product) => product / whole,
        None => value / whole * parts + value % whole * parts / whole,
    }
}

/// The part of the value that goes to one of the amounts that make up the support. A product that
/// fits 64 bits, as most do, is divided there, which is faster.
fn part_for(value: u64, amount: u64, support: u64) -> u64
    requires { amount ≤ support }
    ensures part { result ≡ part value amount support }
    ensures within { result ≤ value }
{
    if support == 0 {
        return 0;
    }
    match value.checked_mul(amount) {
        Some(product) => product / support,
        None => part_of(value, amount, support),
    }
}

/// What the validator backs itself with.
fn own_part(accounts: &[AccountId], seat: &Seat) -> u64
    ensures { result ≡ own_part seat.now.validator (backers_seen accounts.now seat.now.shares) }
{
    match own_share(seat.validator, accounts, seat.shares.as_slice()) {
        Some(share) => share.amount,
        None => 0,
    }
}

/// The share that names the validator itself.
fn own_share<'a>(
    validator: AccountId,
    accounts: &[AccountId],
    shares: &'a [Share],
) -> Option<&'a Share>
    ensures { option_copied result
        ≡ find (λ share. same_account (account_at accounts.now share.place) validator) shares.now }
{
    shares
        .iter()
        .find(|share| account_at(accounts, share.place) == validator)
}

/// Appends the line, unless its amount is 0.
fn put_line(lines: &mut Room<Backer>, who: AccountId, amount: u64)
    requires { 0 < lines.old.spare }
    ensures items { lines.new.items ≡ lines.old.items ++ kept_lines (line who amount ∷ []) }
    ensures spare { lines.old.spare ≤ lines.new.spare + 1 }
{
    if amount > 0 {
        lines.push_within(Backer { who, amount });
    }
}

/// What the lines are together.
fn total_of(lines: &[Backer]) -> u64
    requires { amount_sum lines.now < 2 ^ 64 }
    ensures { result ≡ amount_sum lines.now }
{
    lines.iter().map(|line| line.amount).sum()
}

/// The lines of a value that is paid.
#[tactic(auto, using(crate::proofs::LineLemmas::own_within))]
fn payout_lines(
    alloc: Global,
    accounts: &[AccountId],
    seat: &Seat,
    value: u64,
) -> Result<List<Backer>, NoMemory>
    requires { IsSoundExposure (member_seen accounts.now seat.now).exposure }
    ensures { IfOk result
        (λ lines. lines ≡ payout_lines (member_seen accounts.now seat.now).exposure value) }
{
    let shares = seat.shares.as_slice();
    let mut lines = Room::with_room(alloc, shares.len() + 1)?;
    let commission = billionths_of(value, seat.commission);
    let rest = value - commission;
    let own = part_for(rest, own_part(accounts, seat), seat.support);
    put_line(&mut lines, seat.validator, commission + own);
    put_others(&mut lines, accounts, seat, rest);
    Ok(lines.into_list())
}

/// Appends the lines of the backers other than the validator, who share the rest.
fn put_others(lines: &mut Room<Backer>, accounts: &[AccountId], seat: &Seat, rest: u64)
    requires sound { IsSoundExposure (member_seen accounts.now seat.now).exposure }
    requires spare { length seat.now.shares ≤ lines.old.spare }
    ensures { lines.new.items ≡ lines.old.items ++ kept_lines
        (map (λ backer. line backer.who (part rest backer.amount seat.now.support))
        (others seat.now.validator (backers_seen accounts.now seat.now.shares))) }
{
    for share in seat.shares.as_slice() {
        let who = account_at(accounts, share.place);
        if who != seat.validator {
            let amount = part_for(rest, share.amount, seat.support);
            put_line(lines, who, amount);
        }
    }
}

/// The lines of a fraction that is reported after another one that is kept.
fn slash_lines(
    alloc: Global,
    accounts: &[AccountId],
    shares: &[Share],
    kept: u32,
    fraction: u32,
) -> Result<List<Backer>, NoMemory>
    requires greater { kept < fraction }
    requires most { fraction ≤ WHOLE_FRACTION }
    ensures { IfOk result (λ lines.
        lines ≡ slash_lines (backers_seen accounts.now shares.now) kept fraction) }
{
    let mut lines = Room::with_room(alloc, shares.len())?;
    for share in shares {
        let due = billionths_of(share.amount, fraction) - billionths_of(share.amount, kept);
        put_line(&mut lines, account_at(accounts, share.place), due);
    }
    Ok(lines.into_list())
}
