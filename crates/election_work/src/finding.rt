//! What is found of a bundle.

use crate::reading::NoElection;
use election_check::Verdict;

/// What is found of a bundle: a verdict, or why there is none.
#[derive(Clone, Copy, Debug)]
pub enum Finding {
    /// The verdict on the work.
    Judged(Verdict),
    /// The lowest member to whom no edge is kept as weights are packed.
    Lost(u16),
    /// The work of the bundle is nothing; its tag stands at this place.
    Unsolved(u64),
    /// The bytes spell no election.
    Unread(NoElection),
}
