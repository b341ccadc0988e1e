//! The state of a chain.

use crate::{Round, Waiting};
use block_wire::Params;
use era_book::EraBook;
use stake_ledger::Book;
use submission_queue::Queue;
use voter_lists::{Bags, Roles};

/// The state of a chain, between two blocks. Contracts see it as the record of what its parts stand
/// for.
#[derive(Drop)]
pub struct Chain {
    /// The params of a full genesis; a plain one has none, and then there are no eras.
    pub params: Option<Params>,
    /// The number of eras that a slash waits after its offence; where it is 0, none waits.
    pub defer: u32,
    pub book: Book,
    pub roles: Roles,
    /// The accounts with a role, by coarse active stake.
    pub bags: Bags,
    /// The last round that began, until it is decided. A void one stays until the next begins.
    pub round: Option<Round>,
    /// The submissions of the round, by rank.
    pub queue: Queue,
    /// The number that the next accepted submission takes.
    pub next: u64,
    /// The committee that waits for its era, if any.
    pub waiting: Option<Waiting>,
    /// The members of the current era and of those before it, with what became of them.
    pub eras: EraBook,
    /// The number of the next block.
    pub due: u64,
}
