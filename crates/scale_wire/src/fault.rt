//! Why bytes are refused, and where.
ghost use Rattle.std.specs.Prelude.{◌≡◌};
ghost use Rattle.scale_wire.specs.Reason.{why_number};
ghost use Rattle.scale_wire.specs.declared.fault.ReadFault.TheVariants.{Wire as WireCase, NoMemory as NoMemoryCase};

use npos_base::NoMemory;
use std::alloc::{AllocError, AllocFailed};

/// Why bytes are refused as a part of a SCALE value: of the reasons that apply to a part, the first
/// in its own order is given.
#[derive(Clone, Copy, Debug, PartialEq, Eq)]
pub enum Why {
    /// Fewer bytes are left than the part has.
    Short,
    /// A compact integer is spelled in a longer mode than it needs.
    NotShortest,
    /// A compact integer is over the range of its type.
    TooWide,
    /// A tag names no variant.
    BadTag,
    /// A length is over the limit of its list.
    TooMany,
    /// A byte follows a value that must be the whole input.
    Trailing,
}

impl Why {
    /// The number of the reason, from 1.
    pub fn number(self) -> u8
        ensures { result ≡ why_number self }
    {
        match self {
            Why::Short => 1,
            Why::NotShortest => 2,
            Why::TooWide => 3,
            Why::BadTag => 4,
            Why::TooMany => 5,
            Why::Trailing => 6,
        }
    }
}

/// A refusal: the place of the first byte of the part that is refused, counted in bytes as the
/// cursor counts, and the reason.
#[derive(Clone, Copy, Debug, PartialEq, Eq)]
pub struct WireFault {
    pub at: u64,
    pub why: Why,
}

/// Why a value was not read: its bytes are refused, or memory ran out.
#[derive(Clone, Copy, Debug, PartialEq, Eq)]
pub enum ReadFault {
    Wire(WireFault),
    NoMemory,
}

impl From<WireFault> for ReadFault {
    ghost from_gives = { λ fault result. result ≡ WireCase fault };

    fn from(fault: WireFault) -> ReadFault {
        ReadFault::Wire(fault)
    }
}

impl From<NoMemory> for ReadFault {
    ghost from_gives = { λ _ result. result ≡ NoMemoryCase };

    fn from(_error: NoMemory) -> ReadFault {
        ReadFault::NoMemory
    }
}

impl From<AllocError> for ReadFault {
    ghost from_gives = { λ _ result. result ≡ NoMemoryCase };

    fn from(_error: AllocError) -> ReadFault {
        ReadFault::NoMemory
    }
}

impl<T: Drop> From<AllocFailed<T>> for ReadFault {
    ghost from_gives = { λ _ result. result ≡ NoMemoryCase };

    fn from(_error: AllocFailed<T>) -> ReadFault {
        ReadFault::NoMemory
    }
}
