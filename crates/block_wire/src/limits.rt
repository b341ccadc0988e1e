//! How long the lists of a stream and of a bundle are at most, besides the limits that other crates
//! keep too.
pub(crate) use npos_base::{MOST_ENDOWMENTS, MOST_SOLUTION_BYTES, MOST_THRESHOLDS};

/// Kinds of call.
pub(crate) const KINDS: u8 = 16;

/// Forms of a genesis.
pub(crate) const GENESES: u8 = 3;

/// Calls of a block.
pub(crate) const MOST_CALLS: u32 = 64;

/// Accounts that one call names, and that a nominator of a state does, of which the chain takes
/// fewer.
pub const MOST_NAMED: u32 = 64;

/// Members that one call gives points to.
pub(crate) const MOST_POINTS: u32 = 512;

/// Targets of a bundle, and members of a committee.
pub(crate) const MOST_TARGETS: u32 = npos_base::MOST_TARGETS as u32;

/// Voters of a bundle.
pub(crate) const MOST_VOTERS: u32 = npos_base::MOST_VOTERS as u32;

/// Votes of one voter of a bundle, of which an election takes fewer.
pub const MOST_VOTES: u32 = 64;

/// Edges of plain work.
pub(crate) const MOST_EDGES: u32 = npos_base::MOST_EDGES as u32;
