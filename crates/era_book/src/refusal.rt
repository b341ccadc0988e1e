//! Why a call on the era book is refused.
ghost use Rattle.std.specs.Prelude.{◌≡◌};
ghost use Rattle.era_book.specs.declared.refusal.EraRefusal.TheVariants.{NoMemory as NoMemoryRefusal};

use npos_base::{NoMemory, Reason};

/// Why a call of `EraBook` was refused. A refusal changes nothing.
#[derive(Clone, Copy, Debug, PartialEq, Eq, Hash)]
pub enum EraRefusal {
    /// A fraction is 0 or above 10^9 billionths.
    BadFraction,
    /// The era has not begun, or it stands more than 84 before the current one.
    UnknownEra,
    /// The era is the current one.
    EraNotOver,
    /// The account is not exposed in the era.
    NotExposed,
    /// The validator's part of the era's reward is claimed already.
    AlreadyClaimed,
    /// The fraction is not above the one that is kept.
    NotGreater,
    /// The validator has no points.
    NoPoints,
    /// No slash of this number waits.
    NoSlash,
    /// As many slashes wait as can.
    TooManySlashes,
    NoMemory,
}

impl From<NoMemory> for EraRefusal {
    ghost from_gives = { λ _ refusal. refusal ≡ NoMemoryRefusal };

    fn from(_want: NoMemory) -> EraRefusal {
        EraRefusal::NoMemory
    }
}

impl Reason for EraRefusal {
    ghost use Rattle.std.specs.Prelude.{refl};
    ghost use Rattle.era_book.specs.Reasons.{reason_number, only_memory};

    ghost number = { reason_number };

    ghost memory = { NoMemoryRefusal };

    fn number(self) -> Option<u32> {
        let number = match self {
            EraRefusal::BadFraction => 15,
            EraRefusal::UnknownEra => 21,
            EraRefusal::EraNotOver => 22,
            EraRefusal::NotExposed => 23,
            EraRefusal::AlreadyClaimed => 24,
            EraRefusal::NotGreater => 25,
            EraRefusal::NoPoints => 26,
            EraRefusal::NoSlash => 31,
            EraRefusal::TooManySlashes => 32,
            EraRefusal::NoMemory => return None,
        };
        Some(number)
    }

    ghost memory_has_none = { refl };

    ghost others_have_one = { only_memory };
}
