//! Why a state is none that a chain has.
ghost use Rattle.std.specs.Prelude.{◌≡◌};
ghost use Rattle.state_rules.specs.declared.fault.CauseFault.TheVariants.{NoMemory as NoMemoryFault};

use npos_base::NoMemory;
use thiserror::Error;

/// Why a state is none that a chain has: the number of the cause, and the place of what is at fault
/// or another detail.
#[derive(Clone, Copy, Debug, PartialEq, Eq, Error)]
pub enum CauseFault {
    #[error("cause {number} with {detail}")]
    Cause { number: u32, detail: u64 },
    #[error("no memory")]
    NoMemory,
}

impl From<NoMemory> for CauseFault {
    ghost from_gives = { λ _ fault. fault ≡ NoMemoryFault };

    fn from(_error: NoMemory) -> CauseFault {
        CauseFault::NoMemory
    }
}
