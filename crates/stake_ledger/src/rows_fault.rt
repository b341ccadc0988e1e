//! Why rows make no book.
ghost use Rattle.std.specs.Prelude.{◌≡◌};
ghost use Rattle.stake_ledger.specs.declared.rows_fault.RowsFault.TheVariants.{NoMemory as NoMemoryFault};

use npos_base::NoMemory;
use std::alloc::AllocFailed;
use thiserror::Error;

/// Why rows make no book: the row at this place is bad, the sums fail, or there is no memory.
#[derive(Clone, Copy, Debug, PartialEq, Eq, Error)]
pub enum RowsFault {
    #[error("the row at place {0} is bad")]
    BadRow(u64),
    #[error("what the rows hold and what was burned is not what was issued")]
    BadSum,
    #[error("no memory")]
    NoMemory,
}

impl From<NoMemory> for RowsFault {
    ghost from_gives = { λ _ fault. fault ≡ NoMemoryFault };

    fn from(_error: NoMemory) -> RowsFault {
        RowsFault::NoMemory
    }
}

impl<T: Drop> From<AllocFailed<T>> for RowsFault {
    ghost from_gives = { λ _ fault. fault ≡ NoMemoryFault };

    fn from(_error: AllocFailed<T>) -> RowsFault {
        RowsFault::NoMemory
    }
}
