//! The chain as its users hold it.
ghost use Rattle.std.specs.Prelude.{◌≡◌, ◌≢◌, ◌<◌, ◌≤◌, ◌^◌, true, false, length, None, Err, OnOk, IfOk, IfErr};
ghost use Rattle.npos_base.specs.declared.limits.TheConstants.{MOST_ENDOWMENTS, MOST_THRESHOLDS};
ghost use Rattle.stake_ledger.specs.Ledger.{IsBalanced, totals_of};
ghost use Rattle.npos_runtime.specs.Genesis.{IsFault, endowments_of, genesis_chain, genesis_fault, thresholds_of};
ghost use Rattle.npos_runtime.specs.declared.state_fault.SaveFault.TheVariants as save_faults;
ghost use Rattle.npos_runtime.specs.Kept.Chain.{chain_of};
ghost use Rattle.npos_runtime.specs.Kept.State.{kept};
ghost use Rattle.npos_runtime.specs.Kept.Restoring.{state_fault, IsDueFault};
ghost use Rattle.state_checkpoint.specs.Layout.{state_form};
ghost use Rattle.std.specs.Option.{option_copied};
ghost use Rattle.npos_runtime.specs.Life.{AppliesWell, HasFault};
ghost use Rattle.npos_runtime.specs.Rules.Committee.{IsSeated};
ghost use Rattle.npos_runtime.specs.Live.{IsReady, IsJoined};
ghost use Rattle.npos_runtime.specs.declared.runtime.BlockFault.TheVariants as faults;
ghost use Rattle.npos_runtime.specs.declared.runtime.BlockFault.TheVariants.{NoMemory as NoMemoryFault};

use crate::begin::begin;
use crate::restoring::chain_of;
use crate::saving::state_of;
use crate::step::take_block;
use crate::{Chain, SaveFault, StateFault};
use block_receipts::Line;
use block_wire::{Block, Genesis};
use chain_params::GenesisFault;
use election_check::Elected;
use era_book::EraBook;
use npos_base::{List, NoMemory};
use stake_ledger::{Book, Totals};
use state_rules::State;
use std::alloc::Global;
use std::marker::Model;
use submission_queue::Queue;
use thiserror::Error;
use voter_lists::{Bags, Roles};

/// Why a block was not taken.
#[derive(Clone, Copy, Debug, PartialEq, Eq, Error)]
pub enum BlockFault {
    /// Memory ran out in an earlier block, and the chain has been lost there.
    #[error("the chain ended for want of memory")]
    Spent,
    /// The number of the block is not the due one. Nothing changed.
    #[error("block {found} where {due} is due")]
    WrongNumber { due: u64, found: u32 },
    /// Memory ran out in this block. The runtime is spent.
    #[error("no memory")]
    NoMemory,
}

impl From<NoMemory> for BlockFault {
    ghost from_gives = { λ _ fault. fault ≡ NoMemoryFault };

    fn from(_error: NoMemory) -> BlockFault {
        BlockFault::NoMemory
    }
}

/// What a block told.
#[derive(Drop)]
pub struct Receipt {
    pub lines: List<Line>,
}

/// A running chain. Contracts see it as the chain's state, and whether it is spent.
#[derive(Drop)]
pub struct Runtime {
    alloc: Global,
    chain: Chain,
    /// How many lines the last block told. The next one may tell as many, so it begins with room
    /// for them.
    told: usize,
    spent: bool,
}

impl Model for Runtime {
    ghost use Rattle.std.specs.Prelude.{◌≡◌, false};
    ghost use Rattle.npos_runtime.specs.Life.{Life};
    ghost use Rattle.npos_runtime.specs.Live.{IsReady};

    ghost Value = { Life };

    ghost view = { λ r. record { state = r.chain; spent = r.spent } };

    ghost invariant = { λ r. r.spent ≡ false → IsReady r.chain };
}

impl Runtime {
    /// The chain of a genesis, or the first fault that the genesis has.
    #[tactic(auto, using(crate::proofs::Rules::BeginLemmas::ready_begun))]
    pub fn start(alloc: Global, genesis: Genesis) -> Result<Runtime, GenesisFault>
        requires few_endowments { length (endowments_of genesis) ≤ MOST_ENDOWMENTS }
        requires few_thresholds { length (thresholds_of genesis) ≤ MOST_THRESHOLDS }
        ensures ok { IfOk result (λ runtime. (genesis_fault genesis ≡ None)
            × (runtime ≡ record { state = genesis_chain genesis; spent = false })) }
        ensures refused { IfErr result (IsFault (genesis_fault genesis)) }
    {
        let chain = begin(alloc, genesis)?;
        Ok(Runtime {
            alloc,
            chain,
            told: 0,
            spent: false,
        })
    }

    /// Takes the block whose number is due, and tells what happened in it. A block with another
    /// number changes nothing. After want of memory the runtime is spent; its books balance all the
    /// same.
    pub fn apply(&mut self, block: Block) -> Result<Receipt, BlockFault>
        requires { length block.calls < 2 ^ 32 }
        ensures ok { IfOk result (λ receipt. AppliesWell self.old self.new block receipt.lines) }
        ensures fault { IfErr result (HasFault self.old self.new block) }
        ensures spent { self.old.spent ≡ true → result ≡ Err faults.Spent }
        ensures wrong { self.old.spent ≡ false → block.number ≢ self.old.state.due
            → result ≡ Err (faults.WrongNumber self.old.state.due block.number) }
        ensures books { IsBalanced self.new.state.book }
        ensures listing { OnOk result (IsJoined self.new.state.roles self.new.state.bags) }
        ensures ready { OnOk result (IsReady self.new.state) }
    {
        let result = self.take(block);
        // the books tell that they balance, also where memory ran out
        let _ = self.totals();
        result
    }

    /// Takes the block, as `apply` does.
    fn take(&mut self, block: Block) -> Result<Receipt, BlockFault>
        requires { length block.calls < 2 ^ 32 }
        ensures ok { IfOk result (λ receipt. AppliesWell self.old self.new block receipt.lines) }
        ensures fault { IfErr result (HasFault self.old self.new block) }
        ensures spent { self.old.spent ≡ true → result ≡ Err faults.Spent }
        ensures wrong { self.old.spent ≡ false → block.number ≢ self.old.state.due
            → result ≡ Err (faults.WrongNumber self.old.state.due block.number) }
        ensures listing { OnOk result (IsJoined self.new.state.roles self.new.state.bags) }
        ensures ready { OnOk result (IsReady self.new.state) }
    {
        if self.spent {
            return Err(BlockFault::Spent);
        }
        if u64::from(block.number) != self.chain.due {
            return Err(BlockFault::WrongNumber {
                due: self.chain.due,
                found: block.number,
            });
        }
        let Block { number, calls } = block;
        let mut lines = Vec::new(self.alloc);
        let _ = lines.reserve(self.told);
        self.spent = true;
        take_block(
            self.alloc,
            &mut self.chain,
            &mut lines,
            number,
            calls.into_vec(),
        )?;
        self.spent = false;
        self.told = lines.len();
        Ok(Receipt {
            lines: List::from_vec(lines),
        })
    }

    /// The state that the chain keeps: nothing that a later block tells depends on more.
    ///
    /// # Errors
    ///
    /// `Spent` exactly where an earlier block wanted memory.
    pub fn save(&self, alloc: Global) -> Result<State, SaveFault>
        ensures ok { IfOk result (λ state. (self.now.spent ≡ false)
            × (state ≡ kept self.now.state)) }
        ensures fault { IfErr result (λ fault. fault ≡ save_faults.Spent → self.now.spent ≡ true) }
        ensures spent { self.now.spent ≡ true → result ≡ Err save_faults.Spent }
    {
        if self.spent {
            return Err(SaveFault::Spent);
        }
        let state = state_of(alloc, &self.chain)?;
        Ok(state)
    }

    /// The chain that goes on from a state, whose numbers and lists fit the layout in which it is
    /// written: a chain that keeps this very state.
    ///
    /// # Errors
    ///
    /// The first fault that the state has: the number of the next block, the params, the causes of
    /// `state_rules` but those of slashes, the committee that waits where the verdict on it is not
    /// Yes, and the slashes. `NoMemory` may come at any time.
    #[tactic(auto, using(crate::proofs::Kept::Restored::WholeLemmas::restored_ready))]
    pub fn restore(alloc: Global, state: State) -> Result<Runtime, StateFault>
        requires { state_form.in_range state }
        ensures ok { IfOk result (λ runtime. (state_fault state ≡ None)
            × (runtime ≡ record { state = chain_of state; spent = false })) }
        ensures refused { IfErr result (IsDueFault (state_fault state)) }
    {
        let chain = chain_of(alloc, state)?;
        Ok(Runtime {
            alloc,
            chain,
            told: 0,
            spent: false,
        })
    }

    /// The number of the next block.
    pub fn due(&self) -> u64
        ensures { result ≡ self.now.state.due }
    {
        self.chain.due
    }

    /// The books.
    pub fn book(&self) -> &Book
        ensures { result.now ≡ self.now.state.book }
    {
        &self.chain.book
    }

    /// Who is a validator and who a nominator.
    pub fn roles(&self) -> &Roles
        ensures { result.now ≡ self.now.state.roles }
    {
        &self.chain.roles
    }

    /// The accounts with a role, in bags of coarse active stake.
    pub fn bags(&self) -> &Bags
        ensures { result.now ≡ self.now.state.bags }
    {
        &self.chain.bags
    }

    /// The submissions that wait to be judged.
    pub fn queue(&self) -> &Queue
        ensures { result.now ≡ self.now.state.queue }
    {
        &self.chain.queue
    }

    /// The committee that waits for its era. There is none from an era's start to the next
    /// decision, nor after a void round.
    pub fn seated(&self) -> Option<&Elected>
        ensures { IsSeated self.now.state.waiting (option_copied result) }
    {
        match &self.chain.waiting {
            Some(waiting) => Some(&waiting.elected),
            None => None,
        }
    }

    /// The members of the current era and of those before it. An era begins with the exposures of
    /// the committee that waited for it.
    pub fn eras(&self) -> &EraBook
        ensures { result.now ≡ self.now.state.eras }
    {
        &self.chain.eras
    }

    /// The sums over the books. All holdings equal genesis plus minted less burned, also where the
    /// runtime is spent.
    pub fn totals(&self) -> Totals
        ensures value { result ≡ totals_of self.now.state.book }
        ensures balanced { IsBalanced self.now.state.book }
        ensures ready { self.now.spent ≡ false → IsReady self.now.state }
    {
        self.chain.book.totals()
    }
}
