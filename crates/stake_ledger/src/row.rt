//! What one account has.
ghost use Rattle.std.specs.Prelude.{◌≡◌, ◌+◌, ◌^◌, ◌<◌, ◌≤◌, OnErr, OnOk, OnSome, IfErr, IfOk, IfSome, IfNone, None, Some, length, true, false};
ghost use Rattle.stake_ledger.specs.declared.chunks.TheConstants.{MOST_CHUNKS};
ghost use Rattle.stake_ledger.specs.declared.call.RowCall.TheVariants as calls;
ghost use Rattle.stake_ledger.specs.Calls.{hold_refusal};
ghost use Rattle.stake_ledger.specs.Parts.{parts_of, cut_of};
ghost use Rattle.stake_ledger.specs.Rows.{empty_row, worth, is_bonded, paid, slashed_row};
ghost use Rattle.stake_ledger.specs.BookRows.{entry_of, book_row};
ghost use Rattle.stake_ledger.specs.RowCalls.{Answers, MayAnswer, row_refusal, row_after, done_of};

use crate::book_row::BookRow;
use crate::call::RowCall;
use crate::chunks::Chunks;
use crate::parts::{Cut, Done, Parts};
use crate::refusal::LedgerRefusal;
use npos_base::{AccountId, List, NoMemory};
use std::alloc::Global;

/// What one account has, in units of stake: free, bonded and active, bonded and on its way out, and
/// held as deposits.
#[derive(Drop)]
pub struct Row {
    pub free: u64,
    pub active: u64,
    pub chunks: Chunks,
    pub held: u64,
}

impl Row {
    /// The row of an account that has nothing.
    pub fn new(alloc: Global) -> Row
        ensures { result ≡ empty_row }
    {
        Row {
            free: 0,
            active: 0,
            chunks: Chunks::new(alloc),
            held: 0,
        }
    }

    /// The row that the value stands for.
    pub fn from_value(value: BookRow) -> Row
        ensures { result ≡ (entry_of value).1 }
    {
        Row {
            free: value.free,
            active: value.active,
            chunks: Chunks::from_list(value.chunks),
            held: value.held,
        }
    }

    /// The row as the value of this account.
    pub fn value(&self, alloc: Global, who: AccountId) -> Result<BookRow, NoMemory>
        ensures { IfOk result (λ value. value ≡ book_row (who, self.now)) }
    {
        let chunks = Vec::from_slice(alloc, self.chunks.as_slice())?;
        Ok(BookRow {
            who,
            free: self.free,
            active: self.active,
            chunks: List::from_vec(chunks),
            held: self.held,
        })
    }

    /// Whether anything is active or on its way out.
    pub fn is_bonded(&self) -> bool
        requires { worth self.now < 2 ^ 64 }
        ensures { result ≡ is_bonded self.now }
    {
        self.active + self.chunks.sum() > 0
    }

    /// Takes the value from what is free.
    pub fn pay(&mut self, value: u64) -> Result<(), LedgerRefusal>
        ensures ok { OnOk result ((value ≤ self.old.free) × (self.new ≡ paid value self.old)) }
        ensures err { OnErr result (self.new ≡ self.old) }
        ensures refused { IfErr result (λ refusal. hold_refusal self.old value ≡ Some refusal) }
    {
        if self.free < value {
            return Err(LedgerRefusal::LowFunds);
        }
        self.free -= value;
        Ok(())
    }

    /// Makes the value active, where nothing is bonded.
    fn bond(&mut self, value: u64, minimum: u64) -> Result<u64, LedgerRefusal>
        requires { worth self.old < 2 ^ 64 }
        ensures { Answers (calls.Bond value minimum) self.old self.new result }
    {
        if value == 0 {
            return Err(LedgerRefusal::ZeroValue);
        }
        if self.is_bonded() {
            return Err(LedgerRefusal::AlreadyBonded);
        }
        if value < minimum {
            return Err(LedgerRefusal::BelowMinimum);
        }
        if self.free < value {
            return Err(LedgerRefusal::LowFunds);
        }
        self.free -= value;
        self.active += value;
        Ok(value)
    }

    /// Makes the value active, where something is bonded already.
    fn bond_extra(&mut self, value: u64) -> Result<u64, LedgerRefusal>
        requires { worth self.old < 2 ^ 64 }
        ensures { Answers (calls.BondExtra value) self.old self.new result }
    {
        if value == 0 {
            return Err(LedgerRefusal::ZeroValue);
        }
        if !self.is_bonded() {
            return Err(LedgerRefusal::NotBonded);
        }
        if self.free < value {
            return Err(LedgerRefusal::LowFunds);
        }
        self.free -= value;
        self.active += value;
        Ok(value)
    }

    /// Moves up to the value from active to a chunk with this release.
    fn unbond(&mut self, value: u64, release: u32, least: u64) -> Result<u64, LedgerRefusal>
        requires fits { worth self.old < 2 ^ 64 }
        requires few { length self.old.chunks ≤ MOST_CHUNKS }
        ensures { Answers (calls.Unbond value release least) self.old self.new result }
    {
        if value == 0 {
            return Err(LedgerRefusal::ZeroValue);
        }
        if !self.is_bonded() {
            return Err(LedgerRefusal::NotBonded);
        }
        if self.active == 0 {
            return Err(LedgerRefusal::LowFunds);
        }
        let amount = value.min(self.active);
        if self.active - amount < least {
            return Err(LedgerRefusal::BelowMinimum);
        }
        self.chunks.add(amount, release)?;
        self.active -= amount;
        Ok(amount)
    }

    /// Moves up to the value from the chunks, the latest first, back to active.
    fn rebond(&mut self, value: u64) -> Result<u64, LedgerRefusal>
        requires { worth self.old < 2 ^ 64 }
        ensures { Answers (calls.Rebond value) self.old self.new result }
    {
        if value == 0 {
            return Err(LedgerRefusal::ZeroValue);
        }
        if !self.is_bonded() {
            return Err(LedgerRefusal::NotBonded);
        }
        if self.chunks.is_empty() {
            return Err(LedgerRefusal::NoChunk);
        }
        let amount = value.min(self.chunks.sum());
        self.chunks.take_latest(amount);
        self.active += amount;
        Ok(amount)
    }

    /// Frees the chunks that are released by this era.
    #[tactic(auto, using(crate::proofs::ChunkLemmas::released_sum))]
    fn withdraw(&mut self, era: u32) -> Result<u64, LedgerRefusal>
        requires { worth self.old < 2 ^ 64 }
        ensures { Answers (calls.Withdraw era) self.old self.new result }
    {
        if !self.is_bonded() {
            return Err(LedgerRefusal::NotBonded);
        }
        let freed = self.chunks.release(era);
        self.free += freed;
        Ok(freed)
    }

    /// Moves the value from free to held.
    fn hold(&mut self, value: u64) -> Result<u64, LedgerRefusal>
        requires { worth self.old < 2 ^ 64 }
        ensures { Answers (calls.Hold value) self.old self.new result }
    {
        if value == 0 {
            return Err(LedgerRefusal::ZeroValue);
        }
        if self.free < value {
            return Err(LedgerRefusal::LowFunds);
        }
        self.free -= value;
        self.held += value;
        Ok(value)
    }

    /// Moves the value from held to free.
    fn give_back(&mut self, value: u64) -> Result<u64, LedgerRefusal>
        requires { worth self.old < 2 ^ 64 }
        ensures { Answers (calls.Return value) self.old self.new result }
    {
        if value == 0 {
            return Err(LedgerRefusal::ZeroValue);
        }
        if self.held < value {
            return Err(LedgerRefusal::LowFunds);
        }
        self.held -= value;
        self.free += value;
        Ok(value)
    }

    /// Takes the value from what is held.
    fn burn(&mut self, value: u64) -> Result<u64, LedgerRefusal>
        ensures { Answers (calls.Burn value) self.old self.new result }
    {
        if value == 0 {
            return Err(LedgerRefusal::ZeroValue);
        }
        if self.held < value {
            return Err(LedgerRefusal::LowFunds);
        }
        self.held -= value;
        Ok(value)
    }

    /// Takes up to the amount, where something is bonded: from active first, then from the chunks
    /// in order.
    #[tactic(auto, using(crate::proofs::ScheduleLemmas::sum_first))]
    pub fn slash(&mut self, amount: u64) -> Option<Cut>
        requires { worth self.old < 2 ^ 64 }
        ensures bonded { OnSome result (is_bonded self.old ≡ true) }
        ensures some { OnSome result (self.new ≡ slashed_row amount self.old) }
        ensures cut { IfSome result (λ cut. cut ≡ cut_of amount self.old) }
        ensures unbonded { IfNone result (is_bonded self.old ≡ false) }
        ensures none { IfNone result (self.new ≡ self.old) }
    {
        if !self.is_bonded() {
            return None;
        }
        let from_active = amount.min(self.active);
        let left = amount - from_active;
        let from_chunks = left.min(self.chunks.sum());
        self.active -= from_active;
        self.chunks.take_first(left);
        Some(Cut {
            active: from_active,
            unlocking: from_chunks,
            bonded: self.is_bonded(),
        })
    }

    /// What the account has, part by part.
    pub fn parts(&self) -> Parts
        requires { worth self.now < 2 ^ 64 }
        ensures { result ≡ parts_of self.now }
    {
        Parts {
            free: self.free,
            active: self.active,
            unlocking: self.chunks.sum(),
            held: self.held,
        }
    }

    /// Does the call, and answers the amount that it moves. It is inlined, as are its callers:
    /// there the call is known, and the other arms go.
    #[inline(always)]
    pub fn call(&mut self, call: RowCall) -> Result<u64, LedgerRefusal>
        requires fits { worth self.old < 2 ^ 64 }
        requires few { length self.old.chunks ≤ MOST_CHUNKS }
        ensures { Answers call self.old self.new result }
    {
        match call {
            RowCall::Bond { value, minimum } => self.bond(value, minimum),
            RowCall::BondExtra { value } => self.bond_extra(value),
            RowCall::Unbond {
                value,
                release,
                least,
            } => self.unbond(value, release, least),
            RowCall::Rebond { value } => self.rebond(value),
            RowCall::Withdraw { era } => self.withdraw(era),
            RowCall::Hold { value } => self.hold(value),
            RowCall::Return { value } => self.give_back(value),
            RowCall::Burn { value } => self.burn(value),
        }
    }

    /// Does the call, and answers besides what the account had before and has then.
    #[inline(always)]
    pub fn done(&mut self, call: RowCall) -> Result<Done, LedgerRefusal>
        requires fits { worth self.old < 2 ^ 64 }
        requires few { length self.old.chunks ≤ MOST_CHUNKS }
        ensures ok { OnOk result ((row_refusal call self.old ≡ None)
            × (self.new ≡ row_after call self.old)) }
        ensures done { IfOk result (λ done. done ≡ done_of call self.old) }
        ensures err { OnErr result (self.new ≡ self.old) }
        ensures refused { IfErr result (MayAnswer call (row_refusal call self.old)) }
    {
        let before = self.parts();
        let amount = self.call(call)?;
        Ok(Done {
            amount,
            before,
            after: self.parts(),
        })
    }
}
