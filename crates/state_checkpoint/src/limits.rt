//! How many items the lists of a state have at most.

pub(crate) use block_wire::MOST_NAMED;
use npos_base::MOST_NOMINATIONS;
pub(crate) use npos_base::{MOST_QUEUED, MOST_SEATS, MOST_SOLUTION_BYTES};

/// Chunks of one account.
pub(crate) const MOST_CHUNKS: u32 = stake_ledger::MOST_CHUNKS as u32;

/// Members of one era.
pub(crate) const MOST_MEMBERS: u32 = MOST_SEATS;

/// Backers of one member.
pub(crate) const MOST_BACKERS: u32 = MOST_VOTERS;

/// Targets of a snapshot.
pub(crate) const MOST_TARGETS: u32 = npos_base::MOST_TARGETS as u32;

/// Voters of a snapshot.
pub(crate) const MOST_VOTERS: u32 = npos_base::MOST_VOTERS as u32;

/// Edges of a committee that waits: as many as the votes of a snapshot that is full.
pub(crate) const MOST_EDGES: u32 = MOST_VOTERS * MOST_NOMINATIONS as u32;

/// Slashes that wait.
pub(crate) const MOST_SLASHES: u32 = era_book::MOST_SLASHES as u32;

/// Accounts from which one slash takes.
pub(crate) const MOST_LINES: u32 = MOST_VOTERS;
