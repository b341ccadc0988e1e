//! Why a snapshot cannot be built.
ghost use Rattle.std.specs.Prelude.{◌≡◌};
ghost use Rattle.election_snapshot.specs.declared.fault.SnapshotFault.TheVariants.{NoMemory as NoMemoryFault};

use std::alloc::{AllocError, AllocFailed};

/// Why a snapshot or a part of it was refused. The number that a fault of an addition carries is
/// the position that the account would have had.
#[derive(Clone, Copy, Debug, PartialEq, Eq, Hash)]
pub enum SnapshotFault {
    /// There are fewer targets than seats.
    Few { targets: u32, seats: u32 },
    /// The stakes sum to less than the seats times the seats.
    Poor { total: u64, seats: u32 },
    RepeatedTarget(u32),
    RepeatedVoter(u32),
    /// A vote is no target's position.
    UnknownTarget(u32),
    RepeatedVote(u32),
    NoVotes(u32),
    ZeroStake(u32),
    /// 2,048 targets stand already.
    TooManyTargets,
    /// 16,384 voters stand already.
    TooManyVoters,
    /// There are more than 24 votes.
    TooManyVotes(u32),
    /// The stakes would sum to 2^64 or more.
    TotalTooLarge(u32),
    /// There are no seats, or more than 512.
    BadSeats(u32),
    NoMemory,
}

impl From<AllocError> for SnapshotFault {
    ghost from_gives = { λ _ fault. fault ≡ NoMemoryFault };

    fn from(_want: AllocError) -> SnapshotFault {
        SnapshotFault::NoMemory
    }
}

impl<T: Drop> From<AllocFailed<T>> for SnapshotFault {
    ghost from_gives = { λ _ fault. fault ≡ NoMemoryFault };

    fn from(_want: AllocFailed<T>) -> SnapshotFault {
        SnapshotFault::NoMemory
    }
}
