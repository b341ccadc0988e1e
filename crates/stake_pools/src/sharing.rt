//! How members join and leave.
ghost use Rattle.std.specs.Prelude.{◌≡◌, ◌*◌, ◌/◌, ◌≤◌, IfErr, IfOk, OnOk, None, Some};
ghost use Rattle.stake_pools.specs.Rules.{payment_refusal, entry_refusal, points_for, join_rule, release_of, leave_rule, redeem_rule};
ghost use Rattle.stake_pools.specs.Step.{Follows, Tells};
ghost use Rattle.stake_pools.specs.Sound.{IsSoundPool};

use crate::members::MOST_MEMBERS;
use crate::moves::{invest, pay_out};
use crate::stop::Stop;
use crate::{PoolChain, PoolLine, PoolRefusal};
use npos_base::AccountId;

/// What keeps the account from paying the value to the pool.
pub fn check_payment(chain: &PoolChain, who: AccountId, value: u64) -> Result<(), PoolRefusal>
    ensures ok { OnOk result (payment_refusal chain.now who value ≡ None) }
    ensures refused { IfErr result (λ refusal. payment_refusal chain.now who value ≡ Some refusal) }
{
    if value == 0 {
        return Err(PoolRefusal::ZeroValue);
    }
    if who == chain.account {
        return Err(PoolRefusal::SameAccount);
    }
    if chain.book.free(who) < value {
        return Err(PoolRefusal::LowFunds);
    }
    Ok(())
}

/// The points for the value, where the account may join with it.
#[tactic(auto, using(crate::proofs::SoundLemmas::entry_points_some))]
fn entry_points(chain: &PoolChain, who: AccountId, value: u64) -> Result<u64, PoolRefusal>
    requires { IsSoundPool chain.now }
    ensures ok { OnOk result (entry_refusal chain.now who value ≡ None) }
    ensures points { IfOk result (λ points. points ≡ points_for chain.now value) }
    ensures no_fewer { IfOk result (λ points. value ≤ points) }
    ensures refused { IfErr result (λ refusal. entry_refusal chain.now who value ≡ Some refusal) }
{
    if chain.members.count() >= MOST_MEMBERS && !chain.members.has(who) {
        return Err(PoolRefusal::TooManyMembers);
    }
    let all = chain.members.points();
    if all == 0 {
        return Ok(value);
    }
    let active = chain.active();
    if active == 0 {
        return Err(PoolRefusal::PoolWiped);
    }
    let points = u128::from(value) * u128::from(all) / u128::from(active);
    if u128::from(all) + points >= 1 << 64 {
        return Err(PoolRefusal::TooManyPoints);
    }
    Ok(points as u64)
}

/// The account joins with the value, for points at their price.
pub fn join(chain: &mut PoolChain, who: AccountId, value: u64) -> Result<Option<PoolLine>, Stop>
    requires { IsSoundPool chain.old }
    ensures rule { Follows (join_rule chain.old who value) chain.old chain.new result }
    ensures told { Tells (join_rule chain.old who value) result }
{
    check_payment(chain, who, value)?;
    let points = entry_points(chain, who, value)?;
    invest(&mut chain.book, who, chain.account, value)?;
    chain.members.join(who, points)?;
    Ok(None)
}

/// The era from which on what leaves now is paid out.
fn release(chain: &PoolChain) -> u64
    ensures { result ≡ release_of chain.now }
{
    u64::from(chain.era) + u64::from(chain.bonding)
}

/// The points leave, and are paid out when the bonding is over.
pub fn leave(chain: &mut PoolChain, who: AccountId, points: u64) -> Result<Option<PoolLine>, Stop>
    requires { IsSoundPool chain.old }
    ensures rule { Follows (leave_rule chain.old who points) chain.old chain.new result }
    ensures told { Tells (leave_rule chain.old who points) result }
{
    if points == 0 {
        return Err(Stop::Refused(PoolRefusal::ZeroValue));
    }
    let release = release(chain);
    chain.members.leave(who, points, release)?;
    Ok(None)
}

/// What so many of all points are worth of what is active. No points are worth nothing, also where
/// there are none.
#[tactic(auto, using(crate::proofs::Quotients::part_within, crate::proofs::Quotients::nothing_of))]
fn worth(active: u64, points: u64, all: u64) -> u64
    requires { points ≤ all }
    ensures worth { result ≡ active * points / all }
    ensures within { result ≤ active }
{
    if points == 0 {
        return 0;
    }
    let worth = u128::from(active) * u128::from(points) / u128::from(all);
    worth as u64
}

/// Pays out the points of the account that are due.
pub fn redeem(chain: &mut PoolChain, who: AccountId) -> Result<Option<PoolLine>, Stop>
    requires { IsSoundPool chain.old }
    ensures rule { Follows (redeem_rule chain.old who) chain.old chain.new result }
    ensures told { Tells (redeem_rule chain.old who) result }
{
    let all = chain.members.points();
    let points = chain.members.redeem(who, u64::from(chain.era))?;
    let amount = worth(chain.active(), points, all);
    pay_out(&mut chain.book, chain.account, who, chain.era, amount)?;
    Ok(Some(PoolLine::Paid { who, amount }))
}
