//! Why an item stops: it is refused, or memory ran out.
ghost use Rattle.std.specs.Prelude.{◌≡◌};
ghost use Rattle.stake_pools.specs.declared.stop.Stop.TheVariants.{NoMemory as NoMemoryStop, Refused as RefusedStop};

use crate::PoolRefusal;
use npos_base::NoMemory;

/// Why an item stops.
#[derive(Clone, Copy, Debug, PartialEq, Eq)]
pub enum Stop {
    Refused(PoolRefusal),
    NoMemory,
}

impl From<PoolRefusal> for Stop {
    ghost from_gives = { λ refusal stop. stop ≡ RefusedStop refusal };

    fn from(refusal: PoolRefusal) -> Stop {
        Stop::Refused(refusal)
    }
}

impl From<NoMemory> for Stop {
    ghost from_gives = { λ _ stop. stop ≡ NoMemoryStop };

    fn from(_error: NoMemory) -> Stop {
        Stop::NoMemory
    }
}
