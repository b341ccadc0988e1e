//! Slashes that wait.
use crate::Backer;
use npos_base::List;

/// Slashes that wait at a time. Their lines are kept as they came, in 48 bytes each, so 256 slashes
/// of 16,384 lines each take 192 MiB.
pub const MOST_SLASHES: usize = 256;

/// A slash that waits: its number, which no other slash of the whole run has, the era in which it
/// is due, and what is due from whom, in units of stake, as it was when the slash was queued.
#[derive(Debug, Drop)]
pub struct DeferredSlash {
    pub number: u64,
    pub due: u32,
    pub lines: List<Backer>,
}
