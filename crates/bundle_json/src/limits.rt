//! How long the arrays of a bundle are at most, besides the limits that other crates keep too.

/// Votes of one voter.
pub(crate) const MOST_VOTES: usize = block_wire::MOST_VOTES as usize;

/// Edges of plain work.
pub(crate) const MOST_EDGES: usize = npos_base::MOST_EDGES;
