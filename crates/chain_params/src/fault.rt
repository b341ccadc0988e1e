//! The faults of a genesis, and the numbers that are printed for them.
ghost use Rattle.std.specs.Prelude.{◌≡◌};
ghost use Rattle.chain_params.specs.Faults.{fault_numbers};
ghost use Rattle.chain_params.specs.declared.fault.GenesisFault.TheVariants.{NoMemory as NoMemoryFault};

use npos_base::NoMemory;
use thiserror::Error;

/// Why no chain starts from a genesis: its first fault, with the number or the place that is at
/// fault.
#[derive(Clone, Copy, Debug, PartialEq, Eq, Error)]
pub enum GenesisFault {
    #[error("endowment {0} is of an account that was endowed before")]
    RepeatedAccount(u32),
    #[error("the endowments up to {0} are too much in all")]
    TooMuch(u32),
    #[error("{0} seats")]
    BadSeats(u32),
    #[error("the phases of a round do not fit into {0} blocks")]
    BadPhases(u32),
    #[error("{0} eras of bonding")]
    BadBonding(u32),
    #[error("the least bond is zero")]
    BadMinimum,
    #[error("threshold {0} is not above the one before")]
    BadThreshold(u32),
    #[error("{0} places in the queue")]
    BadQueue(u32),
    #[error("solutions of {0} bytes")]
    BadSolutionMax(u32),
    #[error("slashes that wait {0} eras")]
    BadDefer(u32),
    #[error("no memory")]
    NoMemory,
}

impl GenesisFault {
    /// The number of the fault and its detail, as they are printed; none for want of memory, which
    /// is not printed.
    pub fn numbers(&self) -> Option<(u8, u32)>
        ensures { result ≡ fault_numbers self.now }
    {
        match *self {
            GenesisFault::RepeatedAccount(place) => Some((1, place)),
            GenesisFault::TooMuch(place) => Some((2, place)),
            GenesisFault::BadSeats(seats) => Some((3, seats)),
            GenesisFault::BadPhases(era_blocks) => Some((4, era_blocks)),
            GenesisFault::BadBonding(eras) => Some((5, eras)),
            GenesisFault::BadMinimum => Some((6, 0)),
            GenesisFault::BadThreshold(place) => Some((7, place)),
            GenesisFault::BadQueue(queue) => Some((8, queue)),
            GenesisFault::BadSolutionMax(most) => Some((9, most)),
            GenesisFault::BadDefer(eras) => Some((10, eras)),
            GenesisFault::NoMemory => None,
        }
    }
}

impl From<NoMemory> for GenesisFault {
    ghost from_gives = { λ _ fault. fault ≡ NoMemoryFault };

    fn from(_error: NoMemory) -> GenesisFault {
        GenesisFault::NoMemory
    }
}
