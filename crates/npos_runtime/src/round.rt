//! The rounds: one in each era, from its snapshot on.

use election_snapshot::Snapshot;
use npos_base::List;

/// The last round that began.
#[derive(Drop)]
pub enum Round {
    /// There were fewer targets than seats, or too little stake: nobody will be elected.
    Void {
        number: u32,
    },
    /// The snapshot, and the commission of each of its targets in billionths as it was then.
    Open {
        number: u32,
        snapshot: Snapshot,
        commissions: List<u32>,
    },
}
