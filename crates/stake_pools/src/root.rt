//! What the root of a pool may do.
ghost use Rattle.std.specs.Prelude.{◌≡◌, IfErr, IfOk, OnOk, None, Some};
ghost use Rattle.stake_pools.specs.Rules.{root_refusal, slash_of, slash_rule, next_era_rule};
ghost use Rattle.stake_pools.specs.Step.{Follows, Tells};
ghost use Rattle.stake_pools.specs.Sound.{IsSoundPool};

use crate::moves::burn;
use crate::stop::Stop;
use crate::{PoolChain, PoolLine, PoolRefusal};
use npos_base::AccountId;

/// Only the pool's own account is its root.
fn check_root(chain: &PoolChain, who: AccountId) -> Result<(), PoolRefusal>
    ensures ok { OnOk result (root_refusal chain.now who ≡ None) }
    ensures refused { IfErr result (λ refusal. root_refusal chain.now who ≡ Some refusal) }
{
    if who == chain.account {
        Ok(())
    } else {
        Err(PoolRefusal::NotRoot)
    }
}

/// Burns up to the amount of what the pool has active. The pot is not touched.
pub fn slash(chain: &mut PoolChain, who: AccountId, amount: u64) -> Result<Option<PoolLine>, Stop>
    requires { IsSoundPool chain.old }
    ensures rule { Follows (slash_rule chain.old who amount) chain.old chain.new result }
    ensures told { Tells (slash_rule chain.old who amount) result }
{
    check_root(chain, who)?;
    let burned = burn(&mut chain.book, chain.account, amount);
    if burned == 0 {
        return Ok(None);
    }
    Ok(Some(PoolLine::Slashed {
        who: chain.account,
        amount: burned,
    }))
}

/// Begins the next era.
pub fn next_era(chain: &mut PoolChain, who: AccountId) -> Result<Option<PoolLine>, Stop>
    ensures rule { Follows (next_era_rule chain.old who) chain.old chain.new result }
    ensures told { Tells (next_era_rule chain.old who) result }
{
    check_root(chain, who)?;
    if chain.era == u32::MAX {
        return Err(Stop::Refused(PoolRefusal::LastEra));
    }
    chain.era += 1;
    Ok(None)
}
