//! How members earn.
ghost use Rattle.stake_pools.specs.Rules.{reward_rule, claim_rule};
ghost use Rattle.stake_pools.specs.Step.{Follows, Tells};
ghost use Rattle.stake_pools.specs.Sound.{IsSoundPool};

use crate::moves::send;
use crate::sharing::check_payment;
use crate::stop::Stop;
use crate::{PoolChain, PoolLine, PoolRefusal};
use npos_base::AccountId;

/// The value goes to the pot, and is credited to those whose points stay. What the parts leave when
/// they are rounded down stays in the pot.
#[tactic(auto, using(crate::proofs::SoundLemmas::reward_fits))]
pub fn reward(chain: &mut PoolChain, who: AccountId, value: u64) -> Result<Option<PoolLine>, Stop>
    requires { IsSoundPool chain.old }
    ensures rule { Follows (reward_rule chain.old who value) chain.old chain.new result }
    ensures told { Tells (reward_rule chain.old who value) result }
{
    check_payment(chain, who, value)?;
    if chain.members.staying() == 0 {
        return Err(Stop::Refused(PoolRefusal::NoStayer));
    }
    send(&mut chain.book, who, chain.account, value)?;
    chain.members.reward(value);
    Ok(None)
}

/// Pays the account's credit from the pot.
#[tactic(auto, using(crate::proofs::SoundLemmas::claim_there))]
pub fn claim(chain: &mut PoolChain, who: AccountId) -> Result<Option<PoolLine>, Stop>
    requires { IsSoundPool chain.old }
    ensures rule { Follows (claim_rule chain.old who) chain.old chain.new result }
    ensures told { Tells (claim_rule chain.old who) result }
{
    let amount = chain.members.claim(who)?;
    send(&mut chain.book, chain.account, who, amount)?;
    Ok(Some(PoolLine::Paid { who, amount }))
}
