//! How accounts are found among many: by slots, as in a hash table, and in order where they crowd
//! the slots.
ghost use Rattle.std.specs.Prelude.{◌≡◌, ◌≢◌, ◌+◌, ◌^◌, ◌<◌, ◌≤◌, ℕ, List, length, true, Some, IfOk, IfSome, IfNone, OnOk, OnErr, slice_get, vec_len};
ghost use Rattle.std.specs.Vec.{vec_capacity};
ghost use Rattle.npos_base.specs.declared.account.AccountId.{AccountId};
ghost use Rattle.account_places.specs.Places.{place_in};
ghost use Rattle.account_places.specs.Index.{mixed, spread_in, slot_in, tag_in, mark_at, IsMark, IsFree, AreTaken, AreFilled, Finds, StandOnce};

use crate::second::Second;
use npos_base::{AccountId, NoMemory};
use std::alloc::Global;
use std::collections::BTreeMap;

/// The fewest slots at which a search may begin, where there are any.
const LEAST_SLOTS: usize = 256;

/// An account marks its place in one of so many slots, of which its bytes choose the first.
const TRIES: usize = 4;

/// An account marks its place in the first of its slots that is free. An account that finds all of
/// them taken is in the crowd, which is searched by its order: so no choice of accounts makes a
/// search long. So is one whose place has no mark, and it fills its slots: who has a free slot is
/// not there.
///
/// A mark is the sum of the place and the account's tag. While places are fewer than slots, as they
/// are but for want of memory, it says to an account with another tag a place beyond all that there
/// are. So mostly the slot alone tells that a mark is another's, and nothing rests on that.
#[derive(Drop)]
pub(crate) struct Index {
    // the mark of the account that came first to the slot, or 0
    slots: Vec<u32>,
    // at so many slots a search may begin: a power of two, if any
    count: usize,
    crowd: BTreeMap<AccountId, usize>,
    // places of most of the crowd, for guesses on which nothing rests
    second: Second,
}

/// The halves of the account, and the halves of these, mixed into one number.
fn mixed(who: AccountId) -> u64
    ensures { result ≡ mixed who }
{
    let high = (who.hi >> 64) as u64;
    let low = (who.lo >> 64) as u64;
    let sum = high
        .wrapping_add((who.hi & 0xffff_ffff_ffff_ffff) as u64)
        .wrapping_add(low)
        .wrapping_add((who.lo & 0xffff_ffff_ffff_ffff) as u64);
    sum.wrapping_mul(0x9e37_79b9_7f4a_7c15)
}

/// What spreads accounts over so many slots.
fn spread_of(who: AccountId, count: usize) -> u64
    ensures { result ≡ spread_in count who }
{
    (mixed(who) >> 32).wrapping_mul(count as u64)
}

/// The first slot of an account, where a search may begin at so many.
fn slot_of(who: AccountId, count: usize) -> usize
    ensures first { result ≡ slot_in count who }
    ensures small { result < 2 ^ 32 }
{
    (spread_of(who, count) >> 32) as usize
}

/// The tag of an account: what its first slot does not tell of it, as a multiple of `count`. While
/// places are below `count`, marks with different tags differ.
fn tag_of(who: AccountId, count: usize) -> u32
    ensures { result ≡ tag_in count who }
{
    (spread_of(who, count) % (1 << 32)) as u32
}

/// Whether the account stands at this place.
pub(crate) fn stands_at(accounts: &[AccountId], place: usize, who: AccountId) -> bool
    ensures yes { result ≡ true → slice_get accounts.now place ≡ Some who }
    ensures no { slice_get accounts.now place ≡ Some who → result ≡ true }
{
    match accounts.get(place) {
        Some(account) => *account == who,
        None => false,
    }
}

/// The mark of a place, where 32 bits hold it and it is not that of a free slot.
fn mark_of(tag: u32, place: usize) -> Option<u32>
    ensures { IfSome result (λ mark. IsMark tag place mark) }
{
    match tag.wrapping_add(u32::try_from(place).ok()?) {
        0 => None,
        mark => Some(mark),
    }
}

/// The place that a mark says to an account with this tag.
fn place_of(tag: u32, mark: u32) -> u32
    ensures { (place : ℕ) → IsMark tag place mark → result ≡ place }
{
    mark.wrapping_sub(tag)
}

/// The place that the crowd tells of the account.
fn crowd_place(crowd: &BTreeMap<AccountId, usize>, who: AccountId) -> Option<usize>
    ensures { result ≡ place_in crowd.now.entries who }
{
    crowd.get(&who).copied()
}

/// Fills those of an account's slots that are free with the mark of nobody in particular. All of
/// them are taken already, but where the place of the account has no mark.
fn fill_slots(slots: &mut Vec<u32>, first: usize)
    requires { first < 2 ^ 32 }
    ensures { AreFilled slots.old.items slots.new.items first (first + 4) }
{
    for slot in first..first + TRIES {
        if slot < slots.len() && slots[slot] == 0 {
            slots[slot] = 1;
        }
    }
}

impl Index {
    /// No slots: all accounts are searched.
    pub(crate) fn new(alloc: Global) -> Index
        ensures { (accounts : List AccountId)
            → Finds result.slots.items result.count result.crowd.entries accounts 0 }
    {
        Index {
            slots: Vec::new(alloc),
            count: 0,
            crowd: BTreeMap::new(alloc),
            second: Second::new(alloc),
        }
    }

    /// Free slots, at so many of which a search may begin.
    fn with_slots(alloc: Global, count: usize) -> Result<Index, NoMemory>
        ensures { IfOk result (λ index. (accounts : List AccountId)
            → Finds index.slots.items index.count index.crowd.entries accounts 0) }
    {
        Ok(Index {
            slots: vec![in alloc; 0; count.saturating_add(TRIES - 1)]?,
            count,
            crowd: BTreeMap::new(alloc),
            second: Second::new(alloc),
        })
    }

    /// An index of these accounts, in so many slots.
    pub(crate) fn of(alloc: Global, accounts: &[AccountId], count: usize) -> Result<Index, NoMemory>
        requires { StandOnce accounts.now }
        ensures { IfOk result (λ index. Finds index.slots.items index.count index.crowd.entries
            accounts.now (length accounts.now)) }
    {
        let mut index = Index::with_slots(alloc, count)?;
        for place in 0..accounts.len() {
            index.note(accounts[place], place)?;
        }
        Ok(index)
    }

    /// The mark of a slot. Beyond the slots there is one that is looked at as any other.
    fn mark(&self, slot: usize) -> u32
        ensures { result ≡ mark_at self.now.slots.items slot }
    {
        match self.slots.get(slot) {
            Some(mark) => *mark,
            None => 1,
        }
    }

    /// The first of the account's slots that has no mark.
    fn free_slot(&self, who: AccountId) -> Option<usize>
        ensures { IfSome result (λ slot. IsFree self.now.slots.items
            (slot_in self.now.count who) slot) }
    {
        let first = slot_of(who, self.count);
        for slot in first..first + TRIES {
            if self.mark(slot) == 0 {
                return Some(slot);
            }
        }
        None
    }

    /// Notes the account that comes to the next place.
    pub(crate) fn note(&mut self, who: AccountId, place: usize) -> Result<(), NoMemory>
        ensures ok { OnOk result ((accounts : List AccountId) → StandOnce accounts
            → slice_get accounts place ≡ Some who
            → Finds self.old.slots.items self.old.count self.old.crowd.entries accounts place
            → Finds self.new.slots.items self.new.count self.new.crowd.entries accounts
            (place + 1)) }
        ensures err { OnErr result ((self.new.slots.items ≡ self.old.slots.items)
            × (self.new.count ≡ self.old.count)
            × (self.new.crowd.entries ≡ self.old.crowd.entries)) }
    {
        let mark = mark_of(tag_of(who, self.count), place);
        if let (Some(slot), Some(mark)) = (self.free_slot(who), mark) {
            self.slots[slot] = mark;
            return Ok(());
        }
        self.crowd.insert(who, place)?;
        fill_slots(&mut self.slots, slot_of(who, self.count));
        self.second.follow(&self.crowd, who, place);
        Ok(())
    }

    /// The place of the account among these, all of which were noted.
    #[tactic(auto, using(crate::proofs::IndexLemmas::free_absent, crate::proofs::IndexLemmas::crowd_told))]
    pub(crate) fn find(&self, accounts: &[AccountId], who: AccountId) -> Option<usize>
        requires { Finds self.now.slots.items self.now.count self.now.crowd.entries
            accounts.now (length accounts.now) }
        ensures found { IfSome result (λ place. slice_get accounts.now place ≡ Some who) }
        ensures absent { IfNone result ((place : ℕ) → slice_get accounts.now place ≢ Some who) }
    {
        let (first, tag) = (slot_of(who, self.count), tag_of(who, self.count));
        for slot in first..first + TRIES {
            let mark = self.mark(slot);
            if mark == 0 {
                return None;
            }
            let place = place_of(tag, mark) as usize;
            if stands_at(accounts, place, who) {
                return Some(place);
            }
        }
        let guess = self.second.guess(who) as usize;
        if stands_at(accounts, guess, who) {
            return Some(guess);
        }
        crowd_place(&self.crowd, who)
    }

    /// A guess of the account's place among so many: what the first of its slots says that says one
    /// of them to this account. Where none does, it is the highest number.
    pub(crate) fn guess(&self, who: AccountId, places: usize) -> u32 {
        let (first, tag) = (slot_of(who, self.count), tag_of(who, self.count));
        for slot in first..first + TRIES {
            let guess = place_of(tag, self.mark(slot));
            if (guess as usize) < places {
                return guess;
            }
        }
        u32::MAX
    }

    /// The mark of the account's first slot. Nothing is asked of it here, so no read of another slot
    /// waits for it.
    pub(crate) fn peek(&self, who: AccountId) -> u32 {
        self.mark(slot_of(who, self.count))
    }

    /// Appends the guess for each of these accounts. No read waits for another here.
    pub(crate) fn guess_each(&self, whose: &[AccountId], places: usize, guesses: &mut Vec<u32>)
        requires { vec_len guesses.old + length whose.now ≤ vec_capacity guesses.old }
        ensures { length guesses.new.items ≡ length guesses.old.items + length whose.now }
    {
        for account in whose {
            guesses.push_reserved(self.guess(*account, places));
        }
    }

    /// Guesses anew, by the second slots, where these accounts do not stand where the guesses say.
    pub(crate) fn guess_crowd(
        &self,
        accounts: &[AccountId],
        whose: &[AccountId],
        guesses: &mut [u32],
    )
        requires { length guesses.old ≡ length whose.now }
        ensures { length guesses.new ≡ length guesses.old }
    {
        if self.second.is_empty() {
            return;
        }
        for i in 0..whose.len() {
            if !stands_at(accounts, guesses[i] as usize, whose[i]) {
                guesses[i] = self.second.guess(whose[i]);
            }
        }
    }

    /// How many slots there should be for one account more than so many, where there are too few:
    /// enough for all that there is room for.
    pub(crate) fn more_slots(&self, accounts: usize, room: usize) -> Option<usize> {
        if accounts < self.count / 2 {
            return None;
        }
        let slots = room.saturating_mul(2).checked_next_power_of_two()?;
        Some(slots.max(LEAST_SLOTS))
    }
}
