//! The seats of an era's members, in the least memory that holds them.
ghost use Rattle.std.specs.Prelude.{◌≡◌, ◌+◌, ◌<◌, ◌^◌, List, [], length, is_some, IfOk, IfErr, OnOk, OnErr};
ghost use Rattle.std.specs.BTreeMap.{is_at, insert_entry};
ghost use Rattle.std.specs.List.Sorted.{IsSearchInRange};
ghost use Rattle.std.specs.Map.{lookup, values_of};
ghost use Rattle.std.specs.Option.{option_copied};
ghost use Rattle.npos_base.specs.declared.account.AccountId.{AccountId};
ghost use Rattle.npos_base.specs.Account.{account_cmp};
ghost use Rattle.era_book.specs.Members.{with_points, with_member, total_points};
ghost use Rattle.era_book.specs.Calls.{claiming, keeping};
ghost use Rattle.era_book.specs.Seats.{AreRising, IsSeatOf, IsGapFor, members_seen};

use crate::seat::Seat;
use npos_base::{AccountId, NoMemory};
use std::alloc::Global;
use std::marker::Model;

/// Seats by rising account, each account once, one behind the other in a vector. An era's members
/// come together and stay, so there is room for them and no more, and an account is found by
/// bisection. Contracts see the list of accounts with their seats.
#[derive(Drop)]
pub struct Seats {
    items: Vec<Seat>,
}

impl Model for Seats {
    ghost use Rattle.std.specs.Prelude.{List};
    ghost use Rattle.npos_base.specs.declared.account.AccountId.{AccountId};
    ghost use Rattle.era_book.specs.declared.seat.Seat.{Seat};
    ghost use Rattle.era_book.specs.Seats.{entries_of, AreRising};

    ghost Value = { List (AccountId × Seat) };

    ghost view = { λ seats. entries_of seats.items.items };

    ghost invariant = { λ seats. AreRising seats.items.items };
}

/// Where the seat of the account stands, or where it would go.
fn search(seats: &[Seat], who: AccountId) -> Result<usize, usize>
    requires { AreRising seats.now }
    ensures bound { IsSearchInRange result (length seats.now) }
    ensures found { IfOk result (IsSeatOf who seats.now) }
    ensures missing { IfErr result (IsGapFor who seats.now) }
{
    seats.binary_search_by_key(&who, |seat| seat.validator)
}

/// The same for a seat that is to be put in. Members mostly come by rising account, so the end is
/// looked at first.
fn search_from_end(seats: &[Seat], who: AccountId) -> Result<usize, usize>
    requires { AreRising seats.now }
    ensures bound { IsSearchInRange result (length seats.now) }
    ensures found { IfOk result (IsSeatOf who seats.now) }
    ensures missing { IfErr result (IsGapFor who seats.now) }
{
    match seats.last() {
        Some(last) if last.validator < who => Err(seats.len()),
        _ => search(seats, who),
    }
}

impl Seats {
    /// No seat. It takes no memory.
    pub fn new(alloc: Global) -> Seats
        ensures { result ≡ [] }
    {
        Seats {
            items: Vec::new(alloc),
        }
    }

    /// No seat yet, with room for so many.
    pub fn with_room(alloc: Global, count: usize) -> Result<Seats, NoMemory>
        ensures { IfOk result (λ seats. seats ≡ []) }
    {
        let items = Vec::with_capacity(alloc, count)?;
        Ok(Seats { items })
    }

    /// Puts the seat at its place, instead of one with the same account.
    pub fn insert(&mut self, seat: Seat) -> Result<(), NoMemory>
        ensures ok { OnOk result
            (self.new ≡ insert_entry account_cmp self.old seat.validator seat) }
        ensures err { OnErr result (self.new ≡ self.old) }
    {
        match search_from_end(self.items.as_slice(), seat.validator) {
            Ok(place) => self.items[place] = seat,
            Err(place) => self.items.insert(place, seat)?,
        }
        Ok(())
    }

    /// The seat of the account.
    pub fn get(&self, who: AccountId) -> Option<&Seat>
        ensures { option_copied result ≡ lookup (is_at (account_cmp who)) self.now }
    {
        match search(self.items.as_slice(), who) {
            Ok(place) => Some(&self.items[place]),
            Err(_) => None,
        }
    }

    /// Whether the account has a seat.
    pub fn contains(&self, who: AccountId) -> bool
        ensures { result ≡ is_some (lookup (is_at (account_cmp who)) self.now) }
    {
        self.get(who).is_some()
    }

    /// How many seats there are.
    pub fn len(&self) -> usize
        ensures len { result ≡ length self.now }
        ensures few { length self.now < 2 ^ 63 }
    {
        self.items.len()
    }

    /// The seats by rising account.
    pub fn as_slice(&self) -> &[Seat]
        ensures { result.now ≡ values_of self.now }
    {
        self.items.as_slice()
    }

    /// Adds points to the member, up to the most that it can have, and answers how many those were.
    pub fn gain(&mut self, who: AccountId, points: u32) -> u32
        ensures members { (accounts : List AccountId) → members_seen accounts self.new
            ≡ with_points (members_seen accounts self.old) (who, points) }
        ensures added { (accounts : List AccountId) →
            total_points (members_seen accounts self.old) + result
            ≡ total_points (members_seen accounts self.new) }
    {
        match search(self.items.as_slice(), who) {
            Ok(place) => self.items[place].gain(points),
            Err(_) => 0,
        }
    }

    /// Marks the member's part of the era's reward as claimed.
    pub fn claim(&mut self, who: AccountId)
        ensures { (accounts : List AccountId) → members_seen accounts self.new
            ≡ with_member who claiming (members_seen accounts self.old) }
    {
        if let Ok(place) = search(self.items.as_slice(), who) {
            self.items[place].claimed = true;
        }
    }

    /// Keeps the fraction for the member.
    pub fn keep(&mut self, who: AccountId, fraction: u32)
        ensures { (accounts : List AccountId) → members_seen accounts self.new
            ≡ with_member who (keeping fraction) (members_seen accounts self.old) }
    {
        if let Ok(place) = search(self.items.as_slice(), who) {
            self.items[place].fraction = fraction;
        }
    }
}
