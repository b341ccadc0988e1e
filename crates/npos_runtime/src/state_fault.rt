//! Why the state of a chain isn't told, and why no chain goes on from a state.
ghost use Rattle.std.specs.Prelude.{◌≡◌};
ghost use Rattle.npos_runtime.specs.declared.state_fault.SaveFault.TheVariants.{NoMemory as NoMemorySaving};
ghost use Rattle.npos_runtime.specs.declared.state_fault.StateFault.TheVariants.{NoMemory as NoMemoryHere};
ghost use Rattle.npos_runtime.specs.Kept.Restoring.{stated};

use election_check::Verdict;
use npos_base::NoMemory;
use state_rules::CauseFault;
use thiserror::Error;

/// Why the state of a chain is not told.
#[derive(Clone, Copy, Debug, PartialEq, Eq, Error)]
pub enum SaveFault {
    /// Memory ran out in an earlier block, and the chain has been lost there.
    #[error("the chain ended for want of memory")]
    Spent,
    #[error("no memory")]
    NoMemory,
}

impl From<NoMemory> for SaveFault {
    ghost from_gives = { λ _ fault. fault ≡ NoMemorySaving };

    fn from(_error: NoMemory) -> SaveFault {
        SaveFault::NoMemory
    }
}

/// Why no chain goes on from a state.
#[derive(Clone, Copy, Debug, PartialEq, Eq, Error)]
pub enum StateFault {
    /// The cause of this number, with a detail: 1 the number of the next block is none, 2 the params
    /// have the genesis fault of this number, 3 to 10 and 12 as `state_rules` says, with the place.
    #[error("cause {number} with {detail}")]
    Cause { number: u32, detail: u64 },
    /// The committee that waits was not elected: this is the verdict on its weights.
    #[error("not elected: {0:?}")]
    NotElected(Verdict),
    #[error("no memory")]
    NoMemory,
}

impl From<NoMemory> for StateFault {
    ghost from_gives = { λ _ fault. fault ≡ NoMemoryHere };

    fn from(_error: NoMemory) -> StateFault {
        StateFault::NoMemory
    }
}

impl From<CauseFault> for StateFault {
    ghost from_gives = { λ cause fault. fault ≡ stated cause };

    fn from(cause: CauseFault) -> StateFault {
        match cause {
            CauseFault::Cause { number, detail } => StateFault::Cause { number, detail },
            CauseFault::NoMemory => StateFault::NoMemory,
        }
    }
}
