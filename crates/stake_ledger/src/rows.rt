//! The rows of all accounts, and the change of one of them.
ghost use Rattle.std.specs.Prelude.{◌≡◌, ◌≢◌, ◌+◌, ◌^◌, ◌<◌, ◌≤◌, [], None, Some, OnErr, OnOk, OnSome, IfErr, IfOk, IfSome, IfNone, length, map, slice_get, true, false};
ghost use Rattle.stake_ledger.specs.declared.chunks.TheConstants.{MOST_CHUNKS};
ghost use Rattle.std.specs.Option.{option_copied};
ghost use Rattle.std.specs.List.Sorted.{IsStrictlySortedBy};
ghost use Rattle.std.specs.Map.{keys_of};
ghost use Rattle.std.specs.BTreeMap.{insert_entry};
ghost use Rattle.npos_base.specs.Account.{account_cmp};
ghost use Rattle.stake_ledger.specs.Owed.{IsDue};
ghost use Rattle.stake_ledger.specs.Calls.{hold_refusal};
ghost use Rattle.stake_ledger.specs.Rows.{worth, is_bonded, gained, paid, slashed_row};
ghost use Rattle.stake_ledger.specs.Parts.{cut_of};
ghost use Rattle.stake_ledger.specs.Ledger.{row_in, row_of_entries, with_row};
ghost use Rattle.stake_ledger.specs.RowCalls.{MayAnswer, row_refusal, row_after, done_of};
ghost use Rattle.stake_ledger.specs.BookRows.{first_bad_row, entry_of, book_row};

use crate::book_row::BookRow;
use crate::call::RowCall;
use crate::parts::{Cut, Done};
use crate::refusal::LedgerRefusal;
use crate::row::Row;
use account_places::Places;
use npos_base::{AccountId, List, NoMemory, Room};
use std::alloc::Global;
use std::marker::Model;

/// A guess that is never right: no account has this place.
pub const NOBODY: usize = usize::MAX;

/// The rows by account, each at the account's place. Contracts see the accounts with their rows, by
/// rising account.
#[derive(Drop)]
pub struct Rows {
    alloc: Global,
    places: Places,
    rows: Vec<Row>,
}

impl Model for Rows {
    ghost use Rattle.std.specs.Prelude.{List};
    ghost use Rattle.npos_base.specs.declared.account.AccountId.{AccountId};
    ghost use Rattle.stake_ledger.specs.declared.row.Row.{Row};
    ghost use Rattle.account_places.specs.Places.{by_account};
    ghost use Rattle.stake_ledger.specs.Places.{ArePlaced, rows_placed};

    ghost Value = { List (AccountId × Row) };

    ghost view = { λ r. rows_placed r.rows.items (by_account r.places) };

    ghost invariant = { λ r. ArePlaced r.rows.items (by_account r.places) };
}

impl Rows {
    /// No rows.
    pub fn new(alloc: Global) -> Rows
        ensures { result ≡ [] }
    {
        Rows {
            alloc,
            places: Places::new(alloc),
            rows: Vec::new(alloc),
        }
    }

    /// Makes room for the rows of so many accounts more.
    pub fn reserve(&mut self, more: usize) -> Result<(), NoMemory>
        ensures { self.new ≡ self.old }
    {
        self.places.reserve(more)?;
        self.rows.reserve(more)?;
        Ok(())
    }

    /// The row of an account.
    #[tactic(auto, using(crate::proofs::PlaceLemmas::row_placed, crate::proofs::PlaceLemmas::row_unplaced))]
    pub fn get(&self, who: AccountId) -> Option<&Row>
        ensures { option_copied result ≡ row_of_entries who self.now }
    {
        let place = self.places.find(who)?;
        Some(&self.rows[place])
    }

    /// The row of an account, which may be the one at the guess. The next guess is the row behind
    /// it.
    #[tactic(auto, using(crate::proofs::PlaceLemmas::row_placed, crate::proofs::PlaceLemmas::row_unplaced))]
    pub fn get_from(&self, guess: &mut usize, who: AccountId) -> Option<&Row>
        ensures { option_copied result ≡ row_of_entries who self.now }
    {
        let place = self.places.find_from(*guess, who)?;
        *guess = place.wrapping_add(1);
        Some(&self.rows[place])
    }

    /// The rows with these values, whose accounts rise.
    pub fn from_values(alloc: Global, values: List<BookRow>) -> Result<Rows, NoMemory>
        requires { first_bad_row None values ≡ None }
        ensures { IfOk result (λ rows. rows ≡ map entry_of values) }
    {
        let mut rows = Rows::new(alloc);
        rows.reserve(values.len())?;
        for value in values.into_vec() {
            let who = value.who;
            rows.append(who, Row::from_value(value))?;
        }
        Ok(rows)
    }

    /// The rows as values, by rising account.
    pub fn values(&self, alloc: Global) -> Result<List<BookRow>, NoMemory>
        ensures { IfOk result (λ rows. rows ≡ map book_row self.now) }
    {
        let places = self.places.by_account(alloc)?;
        let mut values = Room::with_room(alloc, places.len())?;
        for (who, place) in places {
            let value = self.rows[place].value(alloc, who)?;
            values.push_within(value);
        }
        Ok(values.into_list())
    }

    /// How many rows there are.
    pub fn count(&self) -> usize
        ensures { result ≡ length self.now }
    {
        self.rows.len()
    }

    /// The account at this place among all by rising account.
    pub fn account_at(&self, i: usize) -> AccountId
        requires { i < length self.now }
        ensures { slice_get (keys_of self.now) i ≡ Some result }
    {
        self.places.in_order(i)
    }

    /// Puts the row of an account that has none.
    #[tactic(auto, using(crate::proofs::PlaceLemmas::unplaced, crate::proofs::PlaceLemmas::row_opened, crate::proofs::PlaceLemmas::placed_opened))]
    fn append(&mut self, who: AccountId, row: Row) -> Result<(), NoMemory>
        requires { row_of_entries who self.old ≡ None }
        ensures ok { OnOk result (self.new ≡ insert_entry account_cmp self.old who row) }
        ensures err { OnErr result (self.new ≡ self.old) }
    {
        self.rows.reserve(1)?;
        self.places.put(who)?;
        match self.rows.push(row) {
            Ok(()) => Ok(()),
            Err(_) => unreachable!(),
        }
    }

    /// Opens the row of an account that has none, with the value free.
    #[tactic(auto, using(crate::proofs::BookRowLemmas::row_in_absent))]
    pub fn open(&mut self, who: AccountId, value: u64) -> Result<(), NoMemory>
        requires { row_of_entries who self.old ≡ None }
        ensures ok { OnOk result (self.new ≡ with_row who (gained value) self.old) }
        ensures err { OnErr result (self.new ≡ self.old) }
    {
        let mut row = Row::new(self.alloc);
        row.free = value;
        self.append(who, row)
    }

    /// A guess of where the account's row is, for calls that take one. Nothing rests on it.
    pub fn guess(&self, who: AccountId) -> u32 {
        self.places.guess(who)
    }

    /// What the first slot of the account says. Nothing rests on it.
    pub fn peek(&self, who: AccountId) -> u32 {
        self.places.peek(who)
    }

    /// Whether the row at the guess has something free. Nothing rests on it.
    pub fn has_free_at(&self, guess: u32) -> bool {
        match self.rows.get(guess as usize) {
            Some(row) => row.free > 0,
            None => false,
        }
    }

    /// Gives the account the value; its row is made where it has none. It may be found by the
    /// guess.
    #[tactic(auto, using(crate::proofs::PlaceLemmas::row_in_unplaced, crate::proofs::PlaceLemmas::placed_changed))]
    pub fn gain(&mut self, guess: usize, who: AccountId, value: u64) -> Result<(), NoMemory>
        requires { (row_in self.old who).free + value < 2 ^ 64 }
        ensures ok { OnOk result (self.new ≡ with_row who (gained value) self.old) }
        ensures err { OnErr result (self.new ≡ self.old) }
    {
        match self.places.find_from(guess, who) {
            Some(place) => {
                self.rows[place].free += value;
                Ok(())
            }
            None => self.open(who, value),
        }
    }

    /// `Row::pay` at the account's row, which may be found by the guess. An account without a row
    /// has nothing, and the value is above 0.
    #[tactic(auto, using(crate::proofs::PlaceLemmas::row_in_unplaced, crate::proofs::PlaceLemmas::placed_changed))]
    fn pay(&mut self, guess: usize, who: AccountId, value: u64) -> Result<(), LedgerRefusal>
        requires { 0 < value }
        ensures accepted { OnOk result (value ≤ (row_in self.old who).free) }
        ensures ok { OnOk result (self.new ≡ with_row who (paid value) self.old) }
        ensures there { OnOk result (row_of_entries who self.old ≡ Some (row_in self.old who)) }
        ensures err { OnErr result (self.new ≡ self.old) }
        ensures refused { IfErr result (λ refusal. hold_refusal (row_in self.old who) value
            ≡ Some refusal) }
    {
        match self.places.find_from(guess, who) {
            Some(place) => self.rows[place].pay(value),
            None => Err(LedgerRefusal::LowFunds),
        }
    }

    /// Gives the value to an account that has a row.
    #[tactic(auto, using(crate::proofs::PlaceLemmas::row_in_unplaced, crate::proofs::PlaceLemmas::placed_changed))]
    pub fn give(&mut self, who: AccountId, value: u64)
        requires fits { (row_in self.old who).free + value < 2 ^ 64 }
        requires there { row_of_entries who self.old ≡ Some (row_in self.old who) }
        ensures { self.new ≡ with_row who (gained value) self.old }
    {
        match self.places.find(who) {
            Some(place) => self.rows[place].free += value,
            None => unreachable!(),
        }
    }

    /// Moves the value from what one account has free to another, whose row is made where it has
    /// none. Each may be found by its guess. The rows are as they were where the payer has too
    /// little, or where there is no memory for a new row.
    #[tactic(auto, using(crate::proofs::LedgerLemmas::given_back, crate::proofs::LedgerLemmas::row_in_other, crate::proofs::LedgerLemmas::row_in_put))]
    pub fn transfer(
        &mut self,
        guesses: (usize, usize),
        from: AccountId,
        to: AccountId,
        value: u64,
    ) -> Result<(), LedgerRefusal>
        requires some { 0 < value }
        requires apart { to ≢ from }
        requires ordered { IsStrictlySortedBy account_cmp (keys_of self.old) }
        requires fits { (row_in self.old from).free + (row_in self.old to).free < 2 ^ 64 }
        ensures accepted { OnOk result (value ≤ (row_in self.old from).free) }
        ensures ok { OnOk result (self.new
            ≡ with_row to (gained value) (with_row from (paid value) self.old)) }
        ensures err { OnErr result (self.new ≡ self.old) }
        ensures refused { IfErr result
            (IsDue (hold_refusal (row_in self.old from) value)) }
    {
        self.pay(guesses.0, from, value)?;
        match self.gain(guesses.1, to, value) {
            Ok(()) => Ok(()),
            Err(NoMemory) => {
                self.give(from, value);
                Err(LedgerRefusal::NoMemory)
            }
        }
    }

    /// Takes up to the amount of what the account has bonded, if anything. Its row may be found by
    /// the guess.
    #[tactic(auto, using(crate::proofs::PlaceLemmas::row_in_unplaced, crate::proofs::PlaceLemmas::placed_changed))]
    pub fn slash(&mut self, guess: usize, who: AccountId, amount: u64) -> Option<Cut>
        requires { worth (row_in self.old who) < 2 ^ 64 }
        ensures bonded { OnSome result (is_bonded (row_in self.old who) ≡ true) }
        ensures some { OnSome result (self.new ≡ with_row who (slashed_row amount) self.old) }
        ensures cut { IfSome result (λ cut. cut ≡ cut_of amount (row_in self.old who)) }
        ensures unbonded { IfNone result (is_bonded (row_in self.old who) ≡ false) }
        ensures none { IfNone result (self.new ≡ self.old) }
    {
        match self.places.find_from(guess, who) {
            Some(place) => self.rows[place].slash(amount),
            None => None,
        }
    }

    /// Does the call at the account's row. An account without a row answers as one that has
    /// nothing.
    #[tactic(auto, using(crate::proofs::PlaceLemmas::row_in_unplaced, crate::proofs::PlaceLemmas::placed_changed))]
    #[inline(always)]
    pub fn call(&mut self, who: AccountId, call: RowCall) -> Result<Done, LedgerRefusal>
        requires fits { worth (row_in self.old who) < 2 ^ 64 }
        requires few { length (row_in self.old who).chunks ≤ MOST_CHUNKS }
        ensures accepted { OnOk result (row_refusal call (row_in self.old who) ≡ None) }
        ensures ok { OnOk result (self.new ≡ with_row who (row_after call) self.old) }
        ensures done { IfOk result (λ done. done ≡ done_of call (row_in self.old who)) }
        ensures err { OnErr result (self.new ≡ self.old) }
        ensures refused { IfErr result (MayAnswer call (row_refusal call (row_in self.old who))) }
    {
        match self.places.find(who) {
            Some(place) => self.rows[place].done(call),
            None => Row::new(self.alloc).done(call),
        }
    }
}
