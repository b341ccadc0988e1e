//! A pool as its users hold it.
ghost use Rattle.std.specs.Prelude.{◌≡◌, ◌≤◌, true, false, [], length, None, Err, OnOk, IfOk, IfErr};
ghost use Rattle.npos_base.specs.declared.limits.TheConstants.{MOST_ENDOWMENTS};
ghost use Rattle.stake_pools.specs.declared.pool.PoolBlock.TheVariants as blocks;
ghost use Rattle.stake_pools.specs.declared.pool.PoolBlock.TheVariants.{NoMemory as NoMemoryBlock};
ghost use Rattle.stake_pools.specs.Chain.{active_of, pot_of, all_points_of};
ghost use Rattle.stake_pools.specs.Members.{all_credits};
ghost use Rattle.stake_pools.specs.Genesis.{pool_fault, pool_chain, IsFault};
ghost use Rattle.stake_pools.specs.Sound.{IsSoundPool};
ghost use Rattle.stake_pools.specs.Step.{in_order};
ghost use Rattle.stake_pools.specs.Life.{AppliesWell, IsBlocked};

use crate::start::begin;
use crate::step::take_item;
use crate::{PoolChain, PoolFault, PoolGenesis, PoolKind, PoolLine, PoolLines};
use npos_base::{AccountId, List, NoMemory, Room};
use stake_ledger::Book;
use std::alloc::Global;
use std::marker::Model;
use thiserror::Error;

/// Why an item was not taken.
#[derive(Clone, Copy, Debug, PartialEq, Eq, Error)]
pub enum PoolBlock {
    /// Memory ran out in an earlier item, and the pool has been lost there.
    #[error("the pool ended for want of memory")]
    Spent,
    /// Memory ran out in this item. The pool is spent.
    #[error("no memory")]
    NoMemory,
}

impl From<NoMemory> for PoolBlock {
    ghost from_gives = { λ _ block. block ≡ NoMemoryBlock };

    fn from(_error: NoMemory) -> PoolBlock {
        PoolBlock::NoMemory
    }
}

/// What an item told: first whether it was accepted.
#[derive(Debug, Drop)]
pub struct PoolReceipt {
    pub lines: List<PoolLine>,
}

/// The lines in order, in room for two.
fn listed(mut room: Room<PoolLine>, told: PoolLines) -> List<PoolLine>
    requires empty { room.items ≡ [] }
    requires spare { 2 ≤ room.spare }
    ensures { result ≡ in_order told }
{
    room.push_within(told.first);
    if let Some(more) = told.more {
        room.push_within(more);
    }
    room.into_list()
}

/// A running pool. Contracts see it as the pool's state, and whether it is spent.
#[derive(Drop)]
pub struct Pool {
    alloc: Global,
    chain: PoolChain,
    spent: bool,
}

impl Model for Pool {
    ghost use Rattle.std.specs.Prelude.{◌≡◌, false};
    ghost use Rattle.stake_pools.specs.Life.{Life};
    ghost use Rattle.stake_pools.specs.Sound.{IsSoundPool};

    ghost Value = { Life };

    ghost view = { λ p. record { state = p.chain; spent = p.spent } };

    ghost invariant = { λ p. p.spent ≡ false → IsSoundPool p.chain };
}

impl Pool {
    /// The pool of a genesis, or the first fault that the genesis has.
    #[tactic(auto, using(crate::proofs::StartLemmas::start_law))]
    pub fn start(alloc: Global, genesis: PoolGenesis) -> Result<Pool, PoolFault>
        requires { length genesis.endowments ≤ MOST_ENDOWMENTS }
        ensures ok { IfOk result (λ pool. (pool_fault genesis ≡ None)
            × (pool ≡ record { state = pool_chain genesis; spent = false })) }
        ensures refused { IfErr result (IsFault (pool_fault genesis)) }
    {
        let chain = begin(alloc, genesis)?;
        Ok(Pool {
            alloc,
            chain,
            spent: false,
        })
    }

    /// Takes one item of the account, and tells what came of it. A refused item changes nothing.
    /// After want of memory the pool is spent.
    pub fn take(&mut self, who: AccountId, kind: PoolKind) -> Result<PoolLines, PoolBlock>
        ensures ok { IfOk result (λ told.
            AppliesWell self.old self.new who kind (in_order told)) }
        ensures blocked { IfErr result (IsBlocked self.old self.new) }
        ensures spent { self.old.spent ≡ true → result ≡ Err blocks.Spent }
        ensures sound { OnOk result (IsSoundPool self.new.state) }
    {
        if self.spent {
            return Err(PoolBlock::Spent);
        }
        self.spent = true;
        let told = take_item(&mut self.chain, who, kind)?;
        self.spent = false;
        Ok(told)
    }

    /// Takes one item of the account as `take` does, and tells what came of it as a list.
    pub fn apply(&mut self, who: AccountId, kind: PoolKind) -> Result<PoolReceipt, PoolBlock>
        ensures ok { IfOk result (λ receipt.
            AppliesWell self.old self.new who kind receipt.lines) }
        ensures blocked { IfErr result (IsBlocked self.old self.new) }
        ensures spent { self.old.spent ≡ true → result ≡ Err blocks.Spent }
        ensures sound { OnOk result (IsSoundPool self.new.state) }
    {
        let told = self.take(who, kind)?;
        self.spent = true;
        let room = Room::with_room(self.alloc, 2)?;
        self.spent = false;
        Ok(PoolReceipt {
            lines: listed(room, told),
        })
    }

    /// The books.
    pub fn book(&self) -> &Book
        ensures book { result.now ≡ self.now.state.book }
        ensures sound { self.now.spent ≡ false → IsSoundPool self.now.state }
    {
        &self.chain.book
    }

    /// All points of the members, staying and on their way out.
    pub fn points(&self) -> u64
        ensures { result ≡ all_points_of self.now.state }
    {
        self.chain.members.points()
    }

    /// All that is credited to the members.
    pub fn credits(&self) -> u64
        ensures { result ≡ all_credits self.now.state.members }
    {
        self.chain.members.credits()
    }

    /// What the pool has active, in units.
    pub fn active(&self) -> u64
        ensures { result ≡ active_of self.now.state }
    {
        self.chain.active()
    }

    /// What the pool has free: rewards, of which a part is credited to members.
    pub fn pot(&self) -> u64
        ensures { result ≡ pot_of self.now.state }
    {
        self.chain.book.free(self.chain.account)
    }

    /// The current era.
    pub fn era(&self) -> u32
        ensures { result ≡ self.now.state.era }
    {
        self.chain.era
    }
}
