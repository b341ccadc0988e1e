//! What is asked of the bytes of a bundle.

use npos_base::Miner;

/// What is to be made of a bundle.
#[derive(Clone, Copy, Debug, PartialEq, Eq)]
pub enum Task {
    /// The verdict on its work.
    Check,
    /// The committee that a miner makes of its election, with the verdict on that. The work of the
    /// bundle is not looked at.
    Mine(Miner),
}
