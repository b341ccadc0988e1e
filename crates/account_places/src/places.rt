//! Where accounts stand: each account that comes has the next place.
ghost use Rattle.std.specs.Prelude.{◌≡◌, ◌+◌, ◌<◌, ◌^◌, [], ◌∷◌, ◌++◌, None, Some, OnErr, OnOk, IfOk, length, slice_get, count_by};
ghost use Rattle.std.specs.Map.{keys_of};
ghost use Rattle.std.specs.Ordering.{is_lt};
ghost use Rattle.std.specs.BTreeMap.{insert_entry};
ghost use Rattle.npos_base.specs.Account.{account_cmp};
ghost use Rattle.account_places.specs.Places.{place_in, by_account, Stand};
ghost use Rattle.account_places.specs.Index.{Finds, StandOnce};

use crate::index::{Index, stands_at};
use npos_base::{AccountId, NoMemory};
use std::alloc::Global;
use std::collections::BTreeMap;
use std::marker::Model;

/// The places of accounts, each of which keeps its own for good. Contracts see the accounts in the
/// order in which they came.
#[derive(Drop)]
pub struct Places {
    alloc: Global,
    accounts: Vec<AccountId>,
    index: Index,
}

impl Model for Places {
    ghost use Rattle.std.specs.Prelude.{List};
    ghost use Rattle.npos_base.specs.declared.account.AccountId.{AccountId};
    ghost use Rattle.account_places.specs.Kept.{IsKept};

    ghost Value = { List AccountId };

    ghost view = { λ p. p.accounts.items };

    ghost invariant = { λ p. IsKept p.accounts.items p.index.slots.items p.index.count
        p.index.crowd.entries };
}

impl Places {
    /// No places. It takes no memory.
    pub fn new(alloc: Global) -> Places
        ensures { result ≡ [] }
    {
        Places {
            alloc,
            accounts: Vec::new(alloc),
            index: Index::new(alloc),
        }
    }

    /// The place of the account. It is found in the logarithm of their number at most, whatever the
    /// accounts are.
    pub fn find(&self, who: AccountId) -> Option<usize>
        ensures place { result ≡ place_in (by_account self.now) who }
        ensures stand { Stand self.now (by_account self.now) }
    {
        self.index.find(self.accounts.as_slice(), who)
    }

    /// The place of the account, as `find` tells it. It need not be searched for where it is the
    /// one that is guessed.
    pub fn find_from(&self, guess: usize, who: AccountId) -> Option<usize>
        ensures place { result ≡ place_in (by_account self.now) who }
        ensures stand { Stand self.now (by_account self.now) }
    {
        if stands_at(self.accounts.as_slice(), guess, who) {
            return Some(guess);
        }
        self.find(who)
    }

    /// A guess of the account's place, for `find_from`: what the first of its slots says that says
    /// a place there is to this account. It is mostly right where the account has a place, and
    /// nothing rests on it. Who guesses for many accounts before the first of them is compared
    /// waits for memory once, and not account by account.
    pub fn guess(&self, who: AccountId) -> u32 {
        self.index.guess(who, self.accounts.len())
    }

    /// What the first slot of the account says, to whomever. Nothing rests on it: who peeks for many
    /// accounts has read their slots before the first of them is sought, and waits for memory once.
    pub fn peek(&self, who: AccountId) -> u32 {
        self.index.peek(who)
    }

    /// Appends the guess for each of these accounts. Where many of them crowd the slots of others,
    /// they are sought in order, step by step all together.
    pub fn guess_each(&self, whose: &[AccountId], guesses: &mut Vec<u32>) -> Result<(), NoMemory>
        ensures { OnOk result (length guesses.new.items
            ≡ length guesses.old.items + length whose.now) }
    {
        guesses.reserve(whose.len())?;
        let before = guesses.len();
        self.index.guess_each(whose, self.accounts.len(), guesses);
        self.index
            .guess_crowd(self.accounts.as_slice(), whose, &mut guesses[before..]);
        Ok(())
    }

    /// How many accounts have a place: fewer than memory has bytes.
    pub fn count(&self) -> usize
        ensures count { result ≡ length self.now }
        ensures small { result < 2 ^ 63 }
    {
        self.accounts.len()
    }

    /// The account at a place.
    pub fn account(&self, place: usize) -> AccountId
        requires { place < length self.now }
        ensures at { slice_get self.now place ≡ Some result }
        ensures back { place_in (by_account self.now) result ≡ Some place }
    {
        self.accounts[place]
    }

    /// The accounts with their places, by rising account.
    pub fn by_account(&self, alloc: Global) -> Result<BTreeMap<AccountId, usize>, NoMemory>
        ensures { IfOk result (λ places. places.entries ≡ by_account self.now) }
    {
        let mut places = BTreeMap::new(alloc);
        for (place, account) in self.accounts.iter().enumerate() {
            places.insert(*account, place)?;
        }
        Ok(places)
    }

    /// The account with this many below it. It takes no memory and may look at all pairs of
    /// accounts.
    pub fn in_order(&self, rank: usize) -> AccountId
        requires { rank < length (by_account self.now) }
        ensures { slice_get (keys_of (by_account self.now)) rank ≡ Some result }
    {
        for account in &self.accounts {
            if count_below(self.accounts.as_slice(), *account) == rank {
                return *account;
            }
        }
        unreachable!()
    }

    /// Makes room for so many accounts more, so that they come without a move of those that are
    /// there. What is not used of it stays untouched.
    pub fn reserve(&mut self, more: usize) -> Result<(), NoMemory>
        ensures { self.new ≡ self.old }
    {
        self.accounts.reserve(more)?;
        Ok(())
    }

    /// Gives the next place to an account that has none.
    pub fn put(&mut self, who: AccountId) -> Result<(), NoMemory>
        requires { place_in (by_account self.old) who ≡ None }
        ensures ok { OnOk result (self.new ≡ self.old ++ who ∷ []) }
        ensures places { OnOk result (by_account self.new
            ≡ insert_entry account_cmp (by_account self.old) who (length (by_account self.old))) }
        ensures place { OnOk result (place_in (by_account self.new) who ≡ Some (length self.old)) }
        ensures err { OnErr result (self.new ≡ self.old) }
    {
        self.accounts.reserve(1)?;
        let room = self.accounts.capacity();
        widen(self.alloc, &mut self.index, self.accounts.as_slice(), room);
        self.index.note(who, self.accounts.len())?;
        match self.accounts.push(who) {
            Ok(()) => {}
            Err(_) => unreachable!(),
        }
        Ok(())
    }
}

/// Notes all accounts anew in slots for as many as there is room for, where the slots are few. They
/// stay as they are where there is no memory for more: then more accounts are searched.
fn widen(alloc: Global, index: &mut Index, accounts: &[AccountId], room: usize)
    requires apart { StandOnce accounts.now }
    requires whole { Finds index.old.slots.items index.old.count index.old.crowd.entries
        accounts.now (length accounts.now) }
    ensures { Finds index.new.slots.items index.new.count index.new.crowd.entries
        accounts.now (length accounts.now) }
{
    let Some(count) = index.more_slots(accounts.len(), room) else {
        return;
    };
    let Ok(wider) = Index::of(alloc, accounts, count) else {
        return;
    };
    *index = wider;
}

/// How many of the accounts are below this one.
fn count_below(accounts: &[AccountId], who: AccountId) -> usize
    ensures { result ≡ count_by (λ account. is_lt (account_cmp account who)) accounts.now }
{
    accounts.iter().filter(|account| **account < who).count()
}
