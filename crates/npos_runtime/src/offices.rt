//! Points, payouts, offences, and slashes that wait.
ghost use Rattle.std.specs.Prelude.{◌≡◌, ◌+◌, ◌<◌, ◌≤◌, ◌^◌, ◌++◌, [], ◌∷◌, length, map, OnOk, vec_len};
ghost use Rattle.std.specs.Vec.{vec_capacity};
ghost use Rattle.stake_ledger.specs.Calls.{minted_free, room_of};
ghost use Rattle.era_book.specs.Exposures.{amount_sum};
ghost use Rattle.npos_runtime.specs.Rules.Outcome.{Goes, Untold};
ghost use Rattle.npos_runtime.specs.Rules.CallRule.{Follows};
ghost use Rattle.npos_runtime.specs.Live.{IsLive, CanDefer};
ghost use Rattle.npos_runtime.specs.Rules.Offices.{is_root, points_rule, payout_rule, all_minted, paid_line, slashing_rule, deferring_rule, offence_rule, cancel_rule, slash_outcome, slashes, applied};

use crate::Chain;
use crate::ahead::Ahead;
use crate::lists::retire_unless;
use block_receipts::{Line, Refusal, Stop};
use chain_params::{era_reward_of, root_of};
use era_book::{Backer, DeferredSlash};
use npos_base::{AccountId, List, NoMemory};
use stake_ledger::{Book, LedgerRefusal};
use std::alloc::Global;

fn is_root(chain: &Chain, who: AccountId) -> bool
    ensures { result ≡ is_root chain.now who }
{
    who == root_of(&chain.params)
}

/// Gives points to members of the current era.
pub fn points(chain: &mut Chain, who: AccountId, items: List<(AccountId, u32)>) -> Result<(), Stop>
    ensures { Follows (points_rule chain.old who items) chain.old chain.new result }
{
    if !is_root(chain, who) {
        return Err(Stop::Refused(Refusal::NotRoot));
    }
    chain.eras.add_points(items.as_slice())?;
    Ok(())
}

/// Mints to an account. There is room for it, so this fails for want of memory alone.
fn mint(book: &mut Book, guess: usize, who: AccountId, amount: u64) -> Result<(), NoMemory>
    requires { amount ≤ room_of book.old }
    ensures { OnOk result (book.new ≡ minted_free who amount book.old) }
{
    match book.mint_from(guess, who, amount) {
        Ok(()) => Ok(()),
        Err(LedgerRefusal::NoMemory) => Err(NoMemory),
        Err(_) => unreachable!(),
    }
}

/// Mints each line, and tells it.
fn pay(
    alloc: Global,
    book: &mut Book,
    more: &mut Vec<Line>,
    lines: List<Backer>,
) -> Result<(), NoMemory>
    requires { amount_sum lines ≤ room_of book.old }
    ensures book { OnOk result (book.new ≡ all_minted lines book.old) }
    ensures told { OnOk result (more.new.items ≡ more.old.items ++ map paid_line lines) }
{
    let mut ahead = Ahead::of_backers(alloc, book, lines.as_slice())?;
    more.reserve(lines.len())?;
    'lines: for line in lines.into_vec() {
        mint(book, ahead.guess(), line.who, line.amount)?;
        more.push_reserved(Line::Paid {
            who: line.who,
            amount: line.amount,
        });
    }
    Ok(())
}

/// Pays a validator and those who backed it for an era. All is checked before anything changes.
pub fn payout(
    alloc: Global,
    chain: &mut Chain,
    more: &mut Vec<Line>,
    era: u32,
    validator: AccountId,
) -> Result<(), Stop>
    ensures meets { Follows (payout_rule chain.old era validator) chain.old chain.new result }
    ensures told { OnOk result
        (more.new.items ≡ more.old.items ++ (payout_rule chain.old era validator).told) }
    ensures untold { Untold more.old.items more.new.items result }
{
    let reward = era_reward_of(&chain.params);
    let payout = chain.eras.payout_list(alloc, era, validator, reward)?;
    if payout.total > chain.book.room() {
        return Err(Stop::Refused(Refusal::Ledger(LedgerRefusal::IssuanceCap)));
    }
    pay(alloc, &mut chain.book, more, payout.lines)?;
    chain.eras.mark_paid(era, validator);
    Ok(())
}

/// Takes what is due from an account, and tells it unless it is nothing. A role ends where nothing
/// is bonded behind it any more. The account may be found by the guess.
fn slash(chain: &mut Chain, more: &mut Vec<Line>, guess: usize, due: Backer)
    requires live { IsLive chain.old }
    requires room { vec_len more.old < vec_capacity more.old }
    ensures goes { Goes (slash_outcome due chain.old) chain.new more.old.items more.new.items }
    ensures len { vec_len more.new ≤ vec_len more.old + 1 }
    ensures capacity { vec_capacity more.new ≡ vec_capacity more.old }
{
    let loss = chain.book.slash_from(guess, due.who, due.amount);
    retire_unless(chain, due.who, loss.bonded);
    if loss.burned > 0 {
        more.push_reserved(Line::Slashed {
            who: due.who,
            amount: loss.burned,
        });
    }
}

/// Slashes one account after the other.
fn slash_all(
    alloc: Global,
    chain: &mut Chain,
    more: &mut Vec<Line>,
    dues: List<Backer>,
) -> Result<(), NoMemory>
    requires { IsLive chain.old }
    ensures { OnOk result (Goes (slashes dues chain.old) chain.new more.old.items more.new.items) }
{
    let mut ahead = Ahead::of_backers(alloc, &chain.book, dues.as_slice())?;
    more.reserve(dues.len())?;
    'dues: for due in dues.into_vec() {
        slash(chain, more, ahead.guess(), due);
    }
    Ok(())
}

/// Slashes those who backed a validator in an era at once, and keeps the fraction.
fn slash_now(
    alloc: Global,
    chain: &mut Chain,
    more: &mut Vec<Line>,
    era: u32,
    validator: AccountId,
    fraction: u32,
) -> Result<(), Stop>
    requires { IsLive chain.old }
    ensures meets { Follows (slashing_rule chain.old era validator fraction)
        chain.old chain.new result }
    ensures told { OnOk result (more.new.items
        ≡ more.old.items ++ (slashing_rule chain.old era validator fraction).told) }
    ensures untold { Untold more.old.items more.new.items result }
{
    let dues = chain.eras.slash_list(alloc, era, validator, fraction)?;
    slash_all(alloc, chain, more, dues)?;
    chain.eras.mark_slashed(era, validator, fraction);
    Ok(())
}

/// Tells one more line.
fn tell(more: &mut Vec<Line>, line: Line) -> Result<(), NoMemory>
    ensures { OnOk result (more.new.items ≡ more.old.items ++ line ∷ []) }
{
    more.push(line)?;
    Ok(())
}

/// Queues what is due from those who backed a validator in an era, and keeps the fraction. The
/// queue may be full, which is tried before the fraction is marked.
fn slash_later(
    alloc: Global,
    chain: &mut Chain,
    more: &mut Vec<Line>,
    era: u32,
    validator: AccountId,
    fraction: u32,
) -> Result<(), Stop>
    requires some { 0 < chain.old.defer }
    requires slashes { CanDefer chain.old }
    requires numbers { chain.old.eras.next_slash + 1 < 2 ^ 64 }
    ensures meets { Follows (deferring_rule chain.old era validator fraction)
        chain.old chain.new result }
    ensures told { OnOk result (more.new.items
        ≡ more.old.items ++ (deferring_rule chain.old era validator fraction).told) }
    ensures untold { Untold more.old.items more.new.items result }
{
    let dues = chain.eras.slash_list(alloc, era, validator, fraction)?;
    let due = chain.eras.current() + chain.defer;
    let number = chain.eras.queue_slash(due, dues)?;
    chain.eras.mark_slashed(era, validator, fraction);
    tell(more, Line::Deferred { number, due })?;
    Ok(())
}

/// Reports a validator of an era: those who backed it are slashed, at once or some eras later, and
/// the fraction is kept.
pub fn offence(
    alloc: Global,
    chain: &mut Chain,
    more: &mut Vec<Line>,
    reporter: AccountId,
    era: u32,
    validator: AccountId,
    fraction: u32,
) -> Result<(), Stop>
    requires live { IsLive chain.old }
    requires slashes { CanDefer chain.old }
    requires numbers { chain.old.eras.next_slash + 1 < 2 ^ 64 }
    ensures meets { Follows (offence_rule chain.old reporter era validator fraction)
        chain.old chain.new result }
    ensures told { OnOk result (more.new.items
        ≡ more.old.items ++ (offence_rule chain.old reporter era validator fraction).told) }
    ensures untold { Untold more.old.items more.new.items result }
{
    if !is_root(chain, reporter) {
        return Err(Stop::Refused(Refusal::NotRoot));
    }
    if chain.defer == 0 {
        slash_now(alloc, chain, more, era, validator, fraction)
    } else {
        slash_later(alloc, chain, more, era, validator, fraction)
    }
}

/// Cancels a slash that waits. The fraction that was reported stays.
pub fn cancel_slash(chain: &mut Chain, who: AccountId, number: u64) -> Result<(), Stop>
    ensures { Follows (cancel_rule chain.old who number) chain.old chain.new result }
{
    if !is_root(chain, who) {
        return Err(Stop::Refused(Refusal::NotRoot));
    }
    chain.eras.cancel_slash(number)?;
    Ok(())
}

/// Takes out one slash after the other that is due, tells it, and slashes what is due by it.
pub fn apply_due(alloc: Global, chain: &mut Chain, lines: &mut Vec<Line>) -> Result<(), NoMemory>
    requires { IsLive chain.old }
    ensures { OnOk result (Goes (applied (length chain.old.eras.queue) chain.old)
        chain.new lines.old.items lines.new.items) }
{
    'slashes: while let Some(slash) = chain.eras.take_due() {
        let DeferredSlash {
            number,
            lines: dues,
            ..
        } = slash;
        tell(lines, Line::Applied { number })?;
        slash_all(alloc, chain, lines, dues)?;
    }
    Ok(())
}
