//! Second slots, for the accounts that crowd the first.

use npos_base::{AccountId, NoMemory};
use std::alloc::Global;
use std::collections::BTreeMap;

/// A smaller crowd has no second slots.
const LEAST_CROWD: usize = 64;

/// The crowd is laid anew when it has grown by one in so many.
const GROWTH: usize = 8;

/// So many slots for each account that is laid.
const SPREAD: usize = 8;

/// The place of nobody.
const NOWHERE: u32 = u32::MAX;

/// The words of an account, each times a key of its own, choose its slot. The keys are stirred from
/// all accounts that are laid, so whoever chooses these does not choose how they fall. What comes
/// later may crowd these slots too, until all are laid anew. Nothing rests on what a slot says.
#[derive(Drop)]
pub(crate) struct Second {
    // the place of the account that came first to the slot
    slots: Vec<u32>,
    keys: Keys,
    // how many accounts were laid
    laid: usize,
}

/// A key for each word of an account.
#[derive(Clone, Copy)]
struct Keys {
    first: u64,
    second: u64,
    third: u64,
    fourth: u64,
}

/// The words of an account, the highest first.
fn words_of(who: AccountId) -> (u64, u64, u64, u64) {
    (
        (who.hi >> 64) as u64,
        (who.hi & 0xffff_ffff_ffff_ffff) as u64,
        (who.lo >> 64) as u64,
        (who.lo & 0xffff_ffff_ffff_ffff) as u64,
    )
}

/// The two halves of a product, one upon the other: what goes in is hard to tell from it.
fn stir(state: u64, word: u64) -> u64 {
    let product = u128::from(state ^ word).wrapping_mul(0x9e37_79b9_7f4a_7c15);
    let halves = (product >> 64) ^ product;
    (halves & 0xffff_ffff_ffff_ffff) as u64
}

impl Keys {
    /// Keys that no account has stirred.
    fn new() -> Keys {
        Keys {
            first: 1,
            second: 1,
            third: 1,
            fourth: 1,
        }
    }

    /// The keys of these accounts.
    fn of(crowd: &BTreeMap<AccountId, usize>) -> Keys {
        let mut state = 1;
        for (account, _) in crowd.iter() {
            let (first, second, third, fourth) = words_of(*account);
            state = stir(stir(stir(stir(state, first), second), third), fourth);
        }
        let first = stir(state, 1);
        let second = stir(first, 2);
        let third = stir(second, 3);
        Keys {
            first,
            second,
            third,
            fourth: stir(third, 4),
        }
    }

    /// The slot of an account among so many.
    fn slot_of(&self, who: AccountId, count: usize) -> usize {
        let (first, second, third, fourth) = words_of(who);
        let sum = first
            .wrapping_mul(self.first)
            .wrapping_add(second.wrapping_mul(self.second))
            .wrapping_add(third.wrapping_mul(self.third))
            .wrapping_add(fourth.wrapping_mul(self.fourth));
        ((sum >> 32).wrapping_mul(count as u64) >> 32) as usize
    }
}

impl Second {
    /// No slots. It takes no memory.
    pub(crate) fn new(alloc: Global) -> Second {
        Second {
            slots: Vec::new(alloc),
            keys: Keys::new(),
            laid: 0,
        }
    }

    /// Whether nobody has a slot here.
    pub(crate) fn is_empty(&self) -> bool {
        self.slots.is_empty()
    }

    /// Follows the crowd, to which this account came with its place.
    pub(crate) fn follow(
        &mut self,
        crowd: &BTreeMap<AccountId, usize>,
        who: AccountId,
        place: usize,
    ) {
        let outgrown = self.laid.saturating_add(self.laid / GROWTH);
        if crowd.len() >= LEAST_CROWD && crowd.len() > outgrown {
            self.lay(crowd);
        } else {
            self.put(who, place);
        }
    }

    /// Lays the crowd anew. Where there is no memory for it, nobody has a slot.
    fn lay(&mut self, crowd: &BTreeMap<AccountId, usize>) {
        self.slots.clear();
        self.laid = crowd.len();
        if self
            .slots
            .resize(crowd.len().saturating_mul(SPREAD), NOWHERE)
            .is_err()
        {
            return;
        }
        self.keys = Keys::of(crowd);
        for (account, place) in crowd.iter() {
            self.put(*account, *place);
        }
    }

    /// Puts an account into its slot, if that is free.
    fn put(&mut self, who: AccountId, place: usize) {
        let slot = self.keys.slot_of(who, self.slots.len());
        if let Some(said) = self.slots.get_mut(slot)
            && *said == NOWHERE
        {
            *said = u32::try_from(place).unwrap_or(NOWHERE);
        }
    }

    /// The place that the slot of this account says.
    pub(crate) fn guess(&self, who: AccountId) -> u32 {
        match self.slots.get(self.keys.slot_of(who, self.slots.len())) {
            Some(place) => *place,
            None => NOWHERE,
        }
    }
}
