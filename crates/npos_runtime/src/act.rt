//! The kinds of call, one function each.
ghost use Rattle.std.specs.Prelude.{◌≡◌, ◌+◌, ◌<◌, ◌^◌, ◌++◌, Err, None, Some, OnOk, IfOk, IfErr};
ghost use Rattle.npos_runtime.specs.Rules.Outcome.{Untold};
ghost use Rattle.npos_runtime.specs.Live.{IsLive, IsJoined, CanDefer};
ghost use Rattle.npos_runtime.specs.Rules.Ballots.{active_of};
ghost use Rattle.npos_runtime.specs.Rules.CallRule.{Follows};
ghost use Rattle.npos_runtime.specs.Rules.BookCalls.{release_now, least_active, transfer_rule, bond_rule, bond_extra_rule, unbond_rule, rebond_rule, withdraw_rule};
ghost use Rattle.npos_runtime.specs.Rules.ListCalls.{role_refusal, nominate_rule, validate_rule, chill_rule, rebag_rule, put_in_front_rule};
ghost use Rattle.npos_runtime.specs.Rules.Calls.{rule_of, told_of};
ghost use Rattle.voter_lists.specs.Bags.{is_listed};
ghost use Rattle.npos_runtime.specs.Rules.Lists.{followed, listed_anew, retired, unlisted};

use crate::Chain;
use crate::ahead::Ahead;
use crate::lists::{has_role, is_role, retire};
use crate::offices::{cancel_slash, offence, payout, points};
use crate::signed::submit;
use block_receipts::{Line, Stop};
use block_wire::CallKind;
use chain_params::{bonding_eras_of, era_of, least_bond_of};
use npos_base::{AccountId, List, NoMemory};
use stake_ledger::LedgerRefusal;
use std::alloc::Global;
use voter_lists::{Bags, Role};

fn transfer(
    chain: &mut Chain,
    ahead: &mut Ahead,
    who: AccountId,
    to: AccountId,
    value: u64,
) -> Result<(), Stop>
    ensures { Follows (transfer_rule chain.old who to value) chain.old chain.new result }
{
    let guesses = ahead.pair();
    chain.book.transfer_from(guesses, who, to, value)?;
    Ok(())
}

fn bond(chain: &mut Chain, who: AccountId, value: u64) -> Result<(), Stop>
    ensures { Follows (bond_rule chain.old who value) chain.old chain.new result }
{
    let minimum = least_bond_of(&chain.params);
    chain.book.bond(who, value, minimum)?;
    Ok(())
}

fn bond_extra(chain: &mut Chain, who: AccountId, value: u64) -> Result<(), Stop>
    ensures { Follows (bond_extra_rule chain.old who value) chain.old chain.new result }
{
    chain.book.bond_extra(who, value)?;
    follow(chain, who)?;
    Ok(())
}

/// The account's place in the bags follows its active stake, where it is listed.
fn follow(chain: &mut Chain, who: AccountId) -> Result<(), NoMemory>
    ensures { OnOk result (chain.new
        ≡ record chain.old { bags = followed chain.old.bags who (active_of chain.old who) }) }
{
    if chain.bags.contains(who) {
        let score = chain.book.active(who);
        let _ = chain.bags.update(who, score)?;
    }
    Ok(())
}

/// What an unbond has to leave active.
fn least_active(chain: &Chain, who: AccountId) -> u64
    ensures { result ≡ least_active chain.now who }
{
    if has_role(chain, who) {
        least_bond_of(&chain.params)
    } else {
        0
    }
}

/// The era in which stake is free that is unbonded now.
fn release(chain: &Chain) -> u32
    requires { IsLive chain.now }
    ensures { result ≡ release_now chain.now }
{
    era_of(&chain.params, chain.due) + bonding_eras_of(&chain.params)
}

fn unbond(chain: &mut Chain, who: AccountId, value: u64) -> Result<(), Stop>
    requires { IsLive chain.old }
    ensures { Follows (unbond_rule chain.old who value) chain.old chain.new result }
{
    let release = release(chain);
    let least = least_active(chain, who);
    chain.book.unbond(who, value, release, least)?;
    follow(chain, who)?;
    Ok(())
}

fn rebond(chain: &mut Chain, who: AccountId, value: u64) -> Result<(), Stop>
    ensures { Follows (rebond_rule chain.old who value) chain.old chain.new result }
{
    chain.book.rebond(who, value)?;
    follow(chain, who)?;
    Ok(())
}

fn withdraw(chain: &mut Chain, who: AccountId) -> Result<(), Stop>
    requires { IsLive chain.old }
    ensures { Follows (withdraw_rule chain.old who) chain.old chain.new result }
{
    let era = era_of(&chain.params, chain.due);
    chain.book.withdraw(who, era)?;
    retire(chain, who);
    Ok(())
}

/// What the account has active, where it may take a role.
fn check_role(chain: &Chain, who: AccountId) -> Result<u64, LedgerRefusal>
    ensures ok { OnOk result (role_refusal chain.now who ≡ None) }
    ensures active { IfOk result (λ active. active ≡ active_of chain.now who) }
    ensures refused { IfErr result (λ refusal. role_refusal chain.now who ≡ Some refusal) }
{
    let active = chain.book.active(who);
    // Who has something active is bonded, and is not looked for again.
    if active == 0 && !chain.book.bonded(who) {
        return Err(LedgerRefusal::NotBonded);
    }
    if active < least_bond_of(&chain.params) {
        return Err(LedgerRefusal::BelowMinimum);
    }
    Ok(active)
}

/// A listed account leaves.
fn unlist(bags: &mut Bags, who: AccountId, listed: bool)
    requires { is_listed bags.old.order who ≡ listed }
    ensures { bags.new ≡ unlisted bags.old who }
{
    if listed {
        bags.remove(who);
    }
}

/// The account goes to the tail of the bag of its score, and leaves its old place first, where it
/// has one.
#[tactic(auto, using(crate::proofs::Rules::ListLemmas::nowhere_unlisted))]
fn list_anew(bags: &mut Bags, who: AccountId, score: u64, listed: bool) -> Result<(), NoMemory>
    requires { is_listed bags.old.order who ≡ listed }
    ensures { OnOk result (bags.new ≡ listed_anew bags.old who score) }
{
    unlist(bags, who, listed);
    bags.insert(who, score)
}

#[tactic(auto, using(crate::proofs::Rules::ListLemmas::role_listed))]
fn nominate(chain: &mut Chain, who: AccountId, targets: List<AccountId>) -> Result<(), Stop>
    requires { IsJoined chain.old.roles chain.old.bags }
    ensures { Follows (nominate_rule chain.old who targets) chain.old chain.new result }
{
    let active = check_role(chain, who)?;
    let before = chain.roles.nominate_anew(who, targets)?;
    if !matches!(before, Role::Nominator) {
        list_anew(&mut chain.bags, who, active, is_role(before))?;
    }
    Ok(())
}

#[tactic(auto, using(crate::proofs::Rules::ListLemmas::role_listed))]
fn validate(chain: &mut Chain, who: AccountId, commission: u32) -> Result<(), Stop>
    requires { IsJoined chain.old.roles chain.old.bags }
    ensures { Follows (validate_rule chain.old who commission) chain.old chain.new result }
{
    let active = check_role(chain, who)?;
    let before = chain.roles.validate_anew(who, commission)?;
    if !matches!(before, Role::Validator { .. }) {
        list_anew(&mut chain.bags, who, active, is_role(before))?;
    }
    Ok(())
}

fn chill(chain: &mut Chain, who: AccountId) -> Result<(), Stop>
    requires { IsJoined chain.old.roles chain.old.bags }
    ensures { Follows (chill_rule chain.old who) chain.old chain.new result }
{
    chain.roles.chill(who)?;
    chain.bags.remove(who);
    Ok(())
}

fn rebag(chain: &mut Chain, whom: AccountId) -> Result<(), Stop>
    ensures { Follows (rebag_rule chain.old whom) chain.old chain.new result }
{
    let score = chain.book.active(whom);
    chain.bags.rebag(whom, score)?;
    Ok(())
}

fn put_in_front(chain: &mut Chain, who: AccountId, lighter: AccountId) -> Result<(), Stop>
    ensures { Follows (put_in_front_rule chain.old who lighter) chain.old chain.new result }
{
    let score = chain.book.active(who);
    let lighter_score = chain.book.active(lighter);
    chain.bags.put_in_front(who, score, lighter, lighter_score)?;
    Ok(())
}

/// Does what the call asks for, or stops. What it tells besides that it was accepted is appended to
/// `more`; a refused call tells nothing. A transfer may find its accounts by the guesses made ahead.
#[tactic(auto, unfolding(crate::specs::Rules::Calls::rule_of))]
pub fn act(
    alloc: Global,
    chain: &mut Chain,
    more: &mut Vec<Line>,
    ahead: &mut Ahead,
    who: AccountId,
    kind: CallKind,
) -> Result<(), Stop>
    requires live { IsLive chain.old }
    requires numbers { chain.old.next + 1 < 2 ^ 64 }
    requires slashes { CanDefer chain.old }
    requires slash_numbers { chain.old.eras.next_slash + 1 < 2 ^ 64 }
    ensures meets { Follows (rule_of chain.old who kind) chain.old chain.new result }
    ensures told { OnOk result (more.new.items ≡ more.old.items ++ told_of chain.old who kind) }
    ensures untold { Untold more.old.items more.new.items result }
{
    match kind {
        CallKind::Transfer { to, value } => transfer(chain, ahead, who, to, value),
        CallKind::Bond { value } => bond(chain, who, value),
        CallKind::BondExtra { value } => bond_extra(chain, who, value),
        CallKind::Unbond { value } => unbond(chain, who, value),
        CallKind::Rebond { value } => rebond(chain, who, value),
        CallKind::Withdraw => withdraw(chain, who),
        CallKind::Nominate { targets } => nominate(chain, who, targets),
        CallKind::Validate { commission } => validate(chain, who, commission),
        CallKind::Chill => chill(chain, who),
        CallKind::Rebag { whom } => rebag(chain, whom),
        CallKind::PutInFront { lighter } => put_in_front(chain, who, lighter),
        CallKind::Submit {
            round,
            claim,
            bytes,
        } => submit(chain, more, who, round, claim, bytes),
        CallKind::Points { items } => points(chain, who, items),
        CallKind::Payout { era, validator } => payout(alloc, chain, more, era, validator),
        CallKind::Offence {
            era,
            validator,
            fraction,
        } => offence(alloc, chain, more, who, era, validator, fraction),
        CallKind::CancelSlash { number } => cancel_slash(chain, who, number),
    }
}
