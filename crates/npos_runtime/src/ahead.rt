//! Where accounts may stand, looked up before the first of them is asked for.
use crate::Chain;
use block_wire::{Call, CallKind};
use era_book::Backer;
use npos_base::{AccountId, NoMemory};
use stake_ledger::Book;
use std::alloc::Global;

/// The calls of a block for which guesses are made ahead. A block may have far more, and those do
/// not take memory for it.
const CALLS_AHEAD: usize = 1_024;

/// The slots of so many accounts in the books are mostly in the nearest caches, and to read them
/// ahead for one look-up costs more than it saves.
const CACHED_ACCOUNTS: usize = 16_384;

/// A guess that is never right: no mark says such a place.
const NOWHERE: u32 = 0xffff_ffff;

/// Guesses of where accounts stand in the books, for calls that take one. Looked up in one go, they
/// do not wait for memory one after the other. Nothing rests on them.
#[derive(Drop)]
pub struct Ahead {
    // the next one stands last
    guesses: Vec<u32>,
}

impl Ahead {
    /// Guesses for the transfers among the first calls of a block: of each the payer's, and then
    /// that of whom it pays. Of the other calls the slots are read by which their accounts are
    /// found.
    pub fn of_calls(alloc: Global, chain: &Chain, calls: &[Call]) -> Result<Ahead, NoMemory> {
        let first = &calls[..calls.len().min(CALLS_AHEAD)];
        let mut guesses = Vec::with_capacity(alloc, 2 * first.len() + 1)?;
        // What the slots say stands below all guesses, as one that is mostly wrong: no compiler
        // leaves out what may be asked for.
        guesses.push(read_slots(chain, first))?;
        for call in first.iter().rev() {
            if let CallKind::Transfer { to, .. } = &call.kind {
                guesses.push(chain.book.guess(*to))?;
                guesses.push(chain.book.guess(call.who))?;
            }
        }
        read_rows(&chain.book, &mut guesses);
        Ok(Ahead { guesses })
    }

    /// Guesses for these backers, in their order.
    pub fn of_backers(alloc: Global, book: &Book, backers: &[Backer]) -> Result<Ahead, NoMemory> {
        let mut guesses = Vec::with_capacity(alloc, backers.len())?;
        for backer in backers.iter().rev() {
            guesses.push(book.guess(backer.who))?;
        }
        read_rows(book, &mut guesses);
        Ok(Ahead { guesses })
    }

    /// The guess for the account that is next.
    pub fn guess(&mut self) -> usize {
        self.guesses.pop().unwrap_or(NOWHERE) as usize
    }

    /// The guesses for the transfer that is next: the payer's, and that of whom it pays.
    pub fn pair(&mut self) -> (usize, usize) {
        (self.guess(), self.guess())
    }
}

/// Reads the rows that the guesses say, all together, so that nobody waits for one alone. A guess of a
/// row that has nothing free is let go, and its account is found when it is asked for.
fn read_rows(book: &Book, guesses: &mut [u32]) {
    for guess in guesses {
        if !book.has_free_at(*guess) {
            *guess = NOWHERE;
        }
    }
}

/// Reads the slots of those whom these calls ask for, all together, so that no call waits for its own
/// alone, and tells what they say. Calls for the books alone ask once, and a transfer has guesses.
fn read_slots(chain: &Chain, calls: &[Call]) -> u32 {
    let are_many = chain.book.account_count() > CACHED_ACCOUNTS;
    let mut said = 0;
    for call in calls {
        match &call.kind {
            CallKind::Transfer { .. } => {}
            CallKind::Nominate { .. } | CallKind::Validate { .. } | CallKind::Chill => {
                said ^= read_slots_of(chain, call.who);
            }
            CallKind::PutInFront { lighter } => {
                said ^= read_slots_of(chain, call.who) ^ read_slots_of(chain, *lighter);
            }
            _ if are_many => said ^= chain.book.peek(call.who),
            _ => {}
        }
    }
    said
}

/// Reads the slots of an account in the books, the roles and the bags.
fn read_slots_of(chain: &Chain, who: AccountId) -> u32 {
    chain.book.peek(who) ^ chain.roles.peek(who) ^ chain.bags.peek(who)
}
