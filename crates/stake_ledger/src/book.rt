//! The books.
ghost use Rattle.std.specs.Prelude.{◌≡◌, ◌≢◌, ◌-◌, ◌+◌, ◌≤◌, None, Some, OnErr, OnOk, IfErr, IfOk, is_some, All, true, ◌<◌, length, slice_get};
ghost use Rattle.npos_base.specs.Refusal.{MeetsAlways};
ghost use Rattle.stake_ledger.specs.Owed.{Meets};
ghost use Rattle.stake_ledger.specs.Chunks.{IsSchedule};
ghost use Rattle.stake_ledger.specs.Rows.{is_bonded, activated, unbonded, rebonded, withdrawn};
ghost use Rattle.stake_ledger.specs.Ledger.{empty_ledger, row_of, row_at, changed, totals_of, issuance_cap, IsBalanced, OthersStay};
ghost use Rattle.stake_ledger.specs.Calls.{endow_refusal, endowed, transfer_refusal, transferred, bond_refusal, bond_extra_refusal, unbond_refusal, unbond_amount, rebond_refusal, rebond_amount, withdraw_refusal, withdraw_amount, hold_refusal, deposit_held, deposit_returned, deposit_burned, room_of, mint_refusal, minted_free, slash_amount, slashed};
ghost use Rattle.stake_ledger.specs.RowCalls.{IsTimely, MayAnswer, row_refusal, row_amount, called};
ghost use Rattle.stake_ledger.specs.BookRows.{rows_fault, IsDueFault, ledger_of, book_rows};
ghost use Rattle.std.specs.Map.{keys_of};

use crate::book_row::{BookRow, first_bad_row, is_bad_sum};
use crate::call::RowCall;
use crate::chunks::Chunk;
use crate::refusal::LedgerRefusal;
use crate::rows::{NOBODY, Rows};
use crate::rows_fault::RowsFault;
use crate::totals::Totals;
use npos_base::{AccountId, List, NoMemory};
use std::alloc::Global;
use std::marker::Model;

/// The most that may ever be issued, in units of stake.
pub(crate) const CAP: u64 = 9_223_372_036_854_775_807;

/// What a slash burned, and whether the account has anything bonded then.
#[derive(Clone, Copy, Debug, PartialEq, Eq)]
pub struct Loss {
    pub burned: u64,
    pub bonded: bool,
}

/// The books: a row for each account that was ever heard of, and the sums over them.
#[derive(Drop)]
pub struct Book {
    rows: Rows,
    genesis: u64,
    totals: Totals,
}

impl Model for Book {
    ghost use Rattle.std.specs.Prelude.{◌≡◌};
    ghost use Rattle.stake_ledger.specs.Ledger.{Ledger, totals_of, IsBalanced};
    ghost use Rattle.stake_ledger.specs.Kept.{IsKept};

    ghost Value = { Ledger };

    ghost view = { λ b. record {
      rows = b.rows;
      genesis = b.genesis;
      minted = b.totals.minted;
      burned = b.totals.burned;
    } };

    ghost invariant = { λ b. IsKept
        (record {
          rows = b.rows;
          genesis = b.genesis;
          minted = b.totals.minted;
          burned =
              b.totals.burned;
        }) b.totals };
}

impl Book {
    /// Books with no account.
    pub fn new(alloc: Global) -> Book
        ensures { result ≡ empty_ledger }
    {
        Book {
            rows: Rows::new(alloc),
            genesis: 0,
            totals: Totals {
                free: 0,
                active: 0,
                unlocking: 0,
                deposits: 0,
                minted: 0,
                burned: 0,
                issuance: 0,
            },
        }
    }

    /// Makes room for so many accounts more, so that they come without a move of those that are
    /// there. What is not used of it stays untouched.
    pub fn reserve(&mut self, more: usize) -> Result<(), NoMemory>
        ensures { self.new ≡ self.old }
    {
        self.rows.reserve(more)
    }

    /// The book with these rows, with what the genesis gave, what was minted and what was burned
    /// since. A row is bad where its account is not above the one before, a chunk is 0, there are
    /// more than 32 chunks, or their releases do not rise strictly. It refuses with `BadRow` and the
    /// place of the first bad row, or else with `BadSum` where what the rows hold and what was burned
    /// is not what was issued, or that is above 2^63 - 1.
    pub fn from_rows(
        alloc: Global,
        rows: List<BookRow>,
        genesis: u64,
        minted: u64,
        burned: u64,
    ) -> Result<Book, RowsFault>
        ensures accepted { OnOk result (rows_fault rows genesis minted burned ≡ None) }
        ensures ok { IfOk result (λ book. book ≡ ledger_of rows genesis minted burned) }
        ensures refused { IfErr result (IsDueFault (rows_fault rows genesis minted burned)) }
    {
        if let Some(place) = first_bad_row(rows.as_slice()) {
            return Err(RowsFault::BadRow(place as u64));
        }
        if is_bad_sum(rows.as_slice(), genesis, minted, burned) {
            return Err(RowsFault::BadSum);
        }
        let totals = Totals::of(rows.as_slice(), genesis, minted, burned);
        let rows = Rows::from_values(alloc, rows)?;
        Ok(Book {
            rows,
            genesis,
            totals,
        })
    }

    /// The rows as values, by rising account. It takes about as long as sorting them does.
    pub fn to_rows(&self, alloc: Global) -> Result<List<BookRow>, NoMemory>
        ensures { IfOk result (λ rows. rows ≡ book_rows self.now) }
    {
        self.rows.values(alloc)
    }

    /// How many accounts are known.
    pub fn account_count(&self) -> usize
        ensures { result ≡ length self.now.rows }
    {
        self.rows.count()
    }

    /// The account at this place among all by rising account. It takes no memory and may look at
    /// all pairs of accounts: who wants all of them asks `to_rows`.
    pub fn account_at(&self, i: usize) -> AccountId
        requires { i < length self.now.rows }
        ensures { slice_get (keys_of self.now.rows) i ≡ Some result }
    {
        self.rows.account_at(i)
    }

    /// Opens the row of an account that is not known yet, with the value free. It counts as
    /// genesis. It refuses with `IssuanceCap` where genesis would pass 2^63 - 1.
    #[tactic(auto, using(crate::proofs::KeepLemmas::totals_within))]
    pub fn endow(&mut self, who: AccountId, value: u64) -> Result<(), LedgerRefusal>
        requires unknown { row_of self.old who ≡ None }
        requires unminted { self.old.minted ≡ 0 }
        ensures meets { Meets (endow_refusal self.old value)
            (endowed who value self.old) self.old self.new result }
        ensures others { OthersStay who self.old self.new }
    {
        if value > CAP - self.genesis {
            return Err(LedgerRefusal::IssuanceCap);
        }
        self.rows.open(who, value)?;
        self.genesis += value;
        self.totals.free += value;
        self.totals.issuance += value;
        Ok(())
    }

    /// Moves the value from one account's free stake to another's, whose row is opened where it has
    /// none. It refuses with `ZeroValue`, `SameAccount` or `LowFunds`.
    pub fn transfer(
        &mut self,
        from: AccountId,
        to: AccountId,
        value: u64,
    ) -> Result<(), LedgerRefusal>
        ensures meets { Meets (transfer_refusal self.old from to value)
            (transferred from to value self.old) self.old self.new result }
        ensures others { (other : AccountId) → other ≢ from → other ≢ to
            → row_of self.new other ≡ row_of self.old other }
    {
        self.transfer_from((NOBODY, NOBODY), from, to, value)
    }

    /// Does what `transfer` does. The accounts may be found by the guesses, the payer's first.
    #[tactic(auto, using(crate::proofs::LedgerLemmas::different))]
    pub fn transfer_from(
        &mut self,
        guesses: (usize, usize),
        from: AccountId,
        to: AccountId,
        value: u64,
    ) -> Result<(), LedgerRefusal>
        ensures meets { Meets (transfer_refusal self.old from to value)
            (transferred from to value self.old) self.old self.new result }
        ensures others { (other : AccountId) → other ≢ from → other ≢ to
            → row_of self.new other ≡ row_of self.old other }
    {
        if value == 0 {
            return Err(LedgerRefusal::ZeroValue);
        }
        if from == to {
            return Err(LedgerRefusal::SameAccount);
        }
        self.rows.transfer(guesses, from, to, value)?;
        Ok(())
    }

    /// Moves the value from free to active, for an account that is not bonded. It takes no memory.
    /// It refuses with `ZeroValue`, `AlreadyBonded`, `BelowMinimum` (below `minimum`) or
    /// `LowFunds`.
    pub fn bond(&mut self, who: AccountId, value: u64, minimum: u64) -> Result<(), LedgerRefusal>
        ensures meets { MeetsAlways (bond_refusal (row_at self.old who) value minimum)
            (changed who (activated value) self.old) self.old self.new result }
        ensures others { OthersStay who self.old self.new }
    {
        self.call(who, RowCall::Bond { value, minimum })?;
        Ok(())
    }

    /// Moves the value from free to active, for an account that is bonded. It takes no memory.
    /// It refuses with `ZeroValue`, `NotBonded` or `LowFunds`.
    pub fn bond_extra(&mut self, who: AccountId, value: u64) -> Result<(), LedgerRefusal>
        ensures meets { MeetsAlways (bond_extra_refusal (row_at self.old who) value)
            (changed who (activated value) self.old) self.old self.new result }
        ensures others { OthersStay who self.old self.new }
    {
        self.call(who, RowCall::BondExtra { value })?;
        Ok(())
    }

    /// Moves up to the value from active to a chunk that is released in the era `release`, and
    /// answers how much. It joins the last chunk where that has the same release. It refuses with
    /// `ZeroValue`, `NotBonded`, `LowFunds` (nothing is active), `BelowMinimum` (less than `least`
    /// would stay active) or `NoMoreChunks` (32 stand and none has this release).
    pub fn unbond(
        &mut self,
        who: AccountId,
        value: u64,
        release: u32,
        least: u64,
    ) -> Result<u64, LedgerRefusal>
        requires { All (λ chunk. chunk.release ≤ release) (row_at self.old who).chunks }
        ensures meets { let row = row_at self.old who in
            Meets (unbond_refusal row value release least)
            (changed who (unbonded (unbond_amount row value) release) self.old)
            self.old self.new result }
        ensures amount { IfOk result
            (λ amount. amount ≡ unbond_amount (row_at self.old who) value) }
        ensures others { OthersStay who self.old self.new }
    {
        self.call(
            who,
            RowCall::Unbond {
                value,
                release,
                least,
            },
        )
    }

    /// Moves up to the value from the chunks, the latest first, back to active, and answers how
    /// much. Emptied chunks go. It takes no memory, and refuses with `ZeroValue`, `NotBonded` or
    /// `NoChunk`.
    pub fn rebond(&mut self, who: AccountId, value: u64) -> Result<u64, LedgerRefusal>
        ensures meets { let row = row_at self.old who in
            MeetsAlways (rebond_refusal row value)
            (changed who (rebonded (rebond_amount row value)) self.old)
            self.old self.new result }
        ensures amount { IfOk result
            (λ amount. amount ≡ rebond_amount (row_at self.old who) value) }
        ensures others { OthersStay who self.old self.new }
    {
        self.call(who, RowCall::Rebond { value })
    }

    /// Frees the chunks that are released by this era, and answers how much. It takes no memory,
    /// and refuses with `NotBonded`.
    pub fn withdraw(&mut self, who: AccountId, era: u32) -> Result<u64, LedgerRefusal>
        ensures meets { MeetsAlways (withdraw_refusal (row_at self.old who))
            (changed who (withdrawn era) self.old) self.old self.new result }
        ensures amount { IfOk result
            (λ amount. amount ≡ withdraw_amount (row_at self.old who) era) }
        ensures others { OthersStay who self.old self.new }
    {
        self.call(who, RowCall::Withdraw { era })
    }

    /// Holds the value as a deposit: it moves from free to held. The account gets a row where it
    /// has none, also for a deposit of 0. It refuses with `LowFunds`.
    pub fn hold_deposit(&mut self, who: AccountId, value: u64) -> Result<(), LedgerRefusal>
        ensures meets { Meets (hold_refusal (row_at self.old who) value)
            (deposit_held who value self.old) self.old self.new result }
        ensures others { OthersStay who self.old self.new }
    {
        if value == 0 {
            self.rows.gain(NOBODY, who, 0)?;
            return Ok(());
        }
        self.call(who, RowCall::Hold { value })?;
        Ok(())
    }

    /// Moves the value from held to free. It takes no memory.
    pub fn return_deposit(&mut self, who: AccountId, value: u64)
        requires { value ≤ (row_at self.old who).held }
        ensures after { self.new ≡ deposit_returned who value self.old }
        ensures others { OthersStay who self.old self.new }
    {
        if value == 0 {
            return;
        }
        let Ok(_) = self.call(who, RowCall::Return { value }) else {
            unreachable!()
        };
    }

    /// Burns the value of what the account has held. It takes no memory.
    pub fn burn_deposit(&mut self, who: AccountId, value: u64)
        requires { value ≤ (row_at self.old who).held }
        ensures after { self.new ≡ deposit_burned who value self.old }
        ensures others { OthersStay who self.old self.new }
    {
        if value == 0 {
            return;
        }
        let Ok(_) = self.call(who, RowCall::Burn { value }) else {
            unreachable!()
        };
    }

    /// Whether the value may still be minted.
    fn check_room(&self, value: u64) -> Result<(), LedgerRefusal>
        ensures within { OnOk result (value ≤ room_of self.now) }
        ensures ok { OnOk result (mint_refusal self.now value ≡ None) }
        ensures refused { IfErr result (λ refusal. mint_refusal self.now value ≡ Some refusal) }
    {
        if value > self.room() {
            return Err(LedgerRefusal::IssuanceCap);
        }
        Ok(())
    }

    /// Makes the value, which is free for an account that is known. It takes no memory, and refuses
    /// with `IssuanceCap` where the value is above the room.
    pub fn mint_free(&mut self, who: AccountId, value: u64) -> Result<(), LedgerRefusal>
        requires known { is_some (row_of self.old who) ≡ true }
        ensures meets { MeetsAlways (mint_refusal self.old value)
            (minted_free who value self.old) self.old self.new result }
        ensures others { OthersStay who self.old self.new }
    {
        self.check_room(value)?;
        self.rows.give(who, value);
        self.totals.free += value;
        self.totals.minted += value;
        self.totals.issuance += value;
        Ok(())
    }

    /// A guess of where the account stands, for calls that take one. It is mostly right where the
    /// account is known, and nothing rests on it. Who guesses for many accounts before the first of
    /// these calls waits for memory once, and not account by account.
    pub fn guess(&self, who: AccountId) -> u32 {
        self.rows.guess(who)
    }

    /// What the first slot of the account says, by which it is found. Nothing rests on it: who peeks
    /// for many accounts has read their slots before the first of them is sought.
    pub fn peek(&self, who: AccountId) -> u32 {
        self.rows.peek(who)
    }

    /// Whether who stands at the guess has something free. Nothing rests on it: who asks this of
    /// many guesses has read the rows of all before the first of them is changed.
    pub fn has_free_at(&self, guess: u32) -> bool {
        self.rows.has_free_at(guess)
    }

    /// Makes the value, which is free for the account; its row is opened where it has none. The
    /// account may be found by the guess. It refuses with `IssuanceCap` where the value is above
    /// the room.
    pub fn mint_from(
        &mut self,
        guess: usize,
        who: AccountId,
        value: u64,
    ) -> Result<(), LedgerRefusal>
        ensures meets { Meets (mint_refusal self.old value)
            (minted_free who value self.old) self.old self.new result }
        ensures others { OthersStay who self.old self.new }
    {
        self.check_room(value)?;
        self.rows.gain(guess, who, value)?;
        self.totals.free += value;
        self.totals.minted += value;
        self.totals.issuance += value;
        Ok(())
    }

    /// Burns up to the amount of what the account has bonded, active stake first, then the chunks
    /// in order, and answers how much. Emptied chunks go. It takes no memory.
    pub fn slash(&mut self, who: AccountId, amount: u64) -> u64
        ensures amount { result ≡ slash_amount (row_at self.old who) amount }
        ensures after { self.new ≡ slashed who amount self.old }
        ensures others { OthersStay who self.old self.new }
    {
        self.slash_from(NOBODY, who, amount).burned
    }

    /// Does what `slash` does, and tells besides whether anything is bonded then. The account may
    /// be found by the guess.
    pub fn slash_from(&mut self, guess: usize, who: AccountId, amount: u64) -> Loss
        ensures burned { result.burned ≡ slash_amount (row_at self.old who) amount }
        ensures bonded { result.bonded ≡ is_bonded (row_at self.new who) }
        ensures after { self.new ≡ slashed who amount self.old }
        ensures others { OthersStay who self.old self.new }
    {
        let Some(cut) = self.rows.slash(guess, who, amount) else {
            return Loss {
                burned: 0,
                bonded: false,
            };
        };
        let burned = cut.active + cut.unlocking;
        self.totals.active -= cut.active;
        self.totals.unlocking -= cut.unlocking;
        self.totals.burned += burned;
        self.totals.issuance -= burned;
        Loss {
            burned,
            bonded: cut.bonded,
        }
    }

    /// Does the call on the account's row, and answers the amount that it moves.
    #[inline(always)]
    fn call(&mut self, who: AccountId, call: RowCall) -> Result<u64, LedgerRefusal>
        requires { IsTimely call (row_at self.old who) }
        ensures ok { OnOk result ((row_refusal call (row_at self.old who) ≡ None)
            × (self.new ≡ called who call self.old)) }
        ensures amount { IfOk result (λ amount. amount ≡ row_amount call (row_at self.old who)) }
        ensures err { OnErr result (self.new ≡ self.old) }
        ensures refused { IfErr result
            (MayAnswer call (row_refusal call (row_at self.old who))) }
        ensures others { OthersStay who self.old self.new }
    {
        let done = self.rows.call(who, call)?;
        let burned = call.burned(done.amount);
        self.totals.replace(done.before, done.after);
        self.totals.burned += burned;
        self.totals.issuance -= burned;
        Ok(done.amount)
    }

    /// Whether the account has a row: it was endowed, was sent a transfer or had a deposit held.
    pub fn knows(&self, who: AccountId) -> bool
        ensures { result ≡ is_some (row_of self.now who) }
    {
        self.rows.get(who).is_some()
    }

    /// What the account may spend; 0 where it is not known.
    pub fn free(&self, who: AccountId) -> u64
        ensures { result ≡ (row_at self.now who).free }
    {
        self.rows.get(who).map_or(0, |row| row.free)
    }

    /// What the account has bonded and not unbonded; 0 where it is not known.
    pub fn active(&self, who: AccountId) -> u64
        ensures { result ≡ (row_at self.now who).active }
    {
        self.rows.get(who).map_or(0, |row| row.active)
    }

    /// What `active` tells, for accounts that are asked for in about the order in which they came:
    /// the account may be found by the guess, which then is of the account that came next.
    pub fn active_from(&self, guess: &mut usize, who: AccountId) -> u64
        ensures { result ≡ (row_at self.now who).active }
    {
        self.rows.get_from(guess, who).map_or(0, |row| row.active)
    }

    /// What the account has held as deposits; 0 where it is not known.
    pub fn held(&self, who: AccountId) -> u64
        ensures { result ≡ (row_at self.now who).held }
    {
        self.rows.get(who).map_or(0, |row| row.held)
    }

    /// Whether active and the account's chunks together are above 0.
    #[tactic(auto, using(crate::proofs::KeepLemmas::worth_within))]
    pub fn bonded(&self, who: AccountId) -> bool
        ensures { result ≡ is_bonded (row_at self.now who) }
    {
        match self.rows.get(who) {
            Some(row) => row.is_bonded(),
            None => false,
        }
    }

    /// The account's chunks by rising release: none is 0, and at most 32 stand.
    #[tactic(auto, using(crate::proofs::LedgerLemmas::schedule_at))]
    pub fn chunks(&self, who: AccountId) -> &[Chunk]
        ensures chunks { result.now ≡ (row_at self.now who).chunks }
        ensures schedule { IsSchedule result.now }
    {
        match self.rows.get(who) {
            Some(row) => row.chunks.as_slice(),
            None => &[],
        }
    }

    /// The sums over all accounts, in constant time. What the accounts hold and what was burned is
    /// what was issued.
    pub fn totals(&self) -> Totals
        ensures totals { result ≡ totals_of self.now }
        ensures balanced { IsBalanced self.now }
    {
        self.totals
    }

    /// What may still be minted: 2^63 - 1 less genesis and what was minted.
    pub fn room(&self) -> u64
        ensures { result ≡ issuance_cap - (self.now.genesis + self.now.minted) }
    {
        CAP - self.genesis - self.totals.minted
    }
}
