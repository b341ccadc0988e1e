//! The faults of a pool's genesis, and the numbers that are printed for them.
ghost use Rattle.std.specs.Prelude.{◌≡◌};
ghost use Rattle.stake_pools.specs.Genesis.{fault_numbers};
ghost use Rattle.stake_pools.specs.declared.fault.PoolFault.TheVariants.{NoMemory as NoMemoryFault};

use npos_base::NoMemory;
use thiserror::Error;

/// Why no pool starts from a genesis: its first fault, with the place or the number that is at
/// fault.
#[derive(Clone, Copy, Debug, PartialEq, Eq, Error)]
pub enum PoolFault {
    #[error("endowment {0} is of an account that was endowed before")]
    RepeatedAccount(u32),
    #[error("the endowments up to {0} are too much in all")]
    TooMuch(u32),
    #[error("{0} eras of bonding")]
    BadBonding(u32),
    #[error("endowment {0} is of the pool's own account")]
    PoolEndowed(u32),
    #[error("no memory")]
    NoMemory,
}

impl PoolFault {
    /// The number of the fault and its detail, as they are printed; none for want of memory, which
    /// is not printed.
    pub fn numbers(&self) -> Option<(u8, u32)>
        ensures { result ≡ fault_numbers self.now }
    {
        match *self {
            PoolFault::RepeatedAccount(place) => Some((1, place)),
            PoolFault::TooMuch(place) => Some((2, place)),
            PoolFault::BadBonding(eras) => Some((5, eras)),
            PoolFault::PoolEndowed(place) => Some((11, place)),
            PoolFault::NoMemory => None,
        }
    }
}

impl From<NoMemory> for PoolFault {
    ghost from_gives = { λ _ fault. fault ≡ NoMemoryFault };

    fn from(_error: NoMemory) -> PoolFault {
        PoolFault::NoMemory
    }
}
