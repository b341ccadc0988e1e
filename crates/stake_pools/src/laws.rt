//! What follows for every pool and every list of items. The functions do nothing; their contracts
//! are the laws.
ghost use Rattle.stake_ledger.specs.Ledger.{IsBalanced};
ghost use Rattle.stake_pools.specs.Laws.{PoolStartLaw, KeptLaw, WorthLaw, JoinLaw, RedeemLaw, UndilutedLaw, PaidLaw};
ghost use Rattle.stake_pools.specs.Limits.{AreTheLimits};

use crate::Pool;

/// The pool of a genesis without a fault is sound, so that the laws over any sound pool hold from
/// its genesis on.
pub fn every_pool_starts_sound()
    ensures { PoolStartLaw }
{}

/// After every list of items the books balance, the credits and a remainder make what the pool has
/// free, and the active stake is at most the points.
pub fn every_list_of_items_leaves_a_pool_sound()
    ensures { KeptLaw }
{}

/// The books of a pool balance, also where it is spent.
pub fn books_balance(pool: &Pool)
    ensures { IsBalanced pool.now.state.book }
{
    let _ = pool.book().totals();
}

/// What the points of the members are worth, each member's rounded down, is together at most the
/// active stake.
pub fn worths_are_within_the_active_stake()
    ensures { WorthLaw }
{}

/// No member is diluted: where another joins or redeems, a point has no lower price than before,
/// and no item of another but a slash lowers what a member's points are worth.
pub fn nobody_is_diluted()
    ensures join { JoinLaw }
    ensures redeem { RedeemLaw }
    ensures undiluted { UndilutedLaw }
{}

/// Who redeems is paid no more than the part of the active stake that the points are of all points.
pub fn a_payment_is_within_its_part()
    ensures { PaidLaw }
{}

/// The limits that the code names are these numbers.
pub fn the_limits_are_these()
    ensures { AreTheLimits }
{}
