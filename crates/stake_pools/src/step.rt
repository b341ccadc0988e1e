//! One item, by its kind.
ghost use Rattle.std.specs.Prelude.{◌≡◌, IfOk, OnOk};
ghost use Rattle.stake_pools.specs.Rules.{rule_of};
ghost use Rattle.stake_pools.specs.Step.{Follows, Tells, in_order, item_outcome};
ghost use Rattle.stake_pools.specs.Sound.{IsSoundPool};

use crate::earning::{claim, reward};
use crate::root::{next_era, slash};
use crate::sharing::{join, leave, redeem};
use crate::stop::Stop;
use crate::{PoolChain, PoolKind, PoolLine, PoolLines};
use npos_base::{AccountId, NoMemory};

/// Does what the item asks, and answers the line that tells more of it, if there is one.
#[tactic(auto, unfolding(crate::specs::Rules::rule_of))]
fn act(chain: &mut PoolChain, who: AccountId, kind: PoolKind) -> Result<Option<PoolLine>, Stop>
    requires { IsSoundPool chain.old }
    ensures rule { Follows (rule_of chain.old who kind) chain.old chain.new result }
    ensures told { Tells (rule_of chain.old who kind) result }
{
    match kind {
        PoolKind::Join { value } => join(chain, who, value),
        PoolKind::Leave { points } => leave(chain, who, points),
        PoolKind::Redeem => redeem(chain, who),
        PoolKind::Reward { value } => reward(chain, who, value),
        PoolKind::Claim => claim(chain, who),
        PoolKind::Slash { amount } => slash(chain, who, amount),
        PoolKind::NextEra => next_era(chain, who),
    }
}

/// Takes one item, and answers the lines that it tells.
pub fn take_item(
    chain: &mut PoolChain,
    who: AccountId,
    kind: PoolKind,
) -> Result<PoolLines, NoMemory>
    requires { IsSoundPool chain.old }
    ensures state { OnOk result (chain.new ≡ (item_outcome chain.old who kind).state) }
    ensures lines { IfOk result
        (λ told. in_order told ≡ (item_outcome chain.old who kind).lines) }
{
    match act(chain, who, kind) {
        Ok(more) => Ok(PoolLines {
            first: PoolLine::Accepted,
            more,
        }),
        Err(Stop::Refused(refusal)) => Ok(PoolLines {
            first: PoolLine::Refused(refusal.number()),
            more: None,
        }),
        Err(Stop::NoMemory) => Err(NoMemory),
    }
}
