//! Why a call on the books refuses.
ghost use Rattle.std.specs.Prelude.{◌≡◌};
ghost use Rattle.stake_ledger.specs.declared.refusal.LedgerRefusal.TheVariants.{NoMemory as NoMemoryRefusal};

use npos_base::{NoMemory, Reason};
use std::alloc::AllocFailed;
use thiserror::Error;

/// Why a call on the books refuses. A refused call changes nothing.
#[derive(Clone, Copy, Debug, PartialEq, Eq, Error)]
pub enum LedgerRefusal {
    #[error("the account has too little for this")]
    LowFunds,
    #[error("the account is not bonded")]
    NotBonded,
    #[error("the account is bonded already")]
    AlreadyBonded,
    #[error("the bond would be below the minimum")]
    BelowMinimum,
    #[error("the account has as many chunks as it may have")]
    NoMoreChunks,
    #[error("the account has no chunk")]
    NoChunk,
    #[error("the value is zero")]
    ZeroValue,
    #[error("both accounts are the same")]
    SameAccount,
    #[error("the issuance would pass its cap")]
    IssuanceCap,
    #[error("no memory")]
    NoMemory,
}

impl From<NoMemory> for LedgerRefusal {
    ghost from_gives = { λ _ refusal. refusal ≡ NoMemoryRefusal };

    fn from(_error: NoMemory) -> LedgerRefusal {
        LedgerRefusal::NoMemory
    }
}

impl<T: Drop> From<AllocFailed<T>> for LedgerRefusal {
    ghost from_gives = { λ _ refusal. refusal ≡ NoMemoryRefusal };

    fn from(_error: AllocFailed<T>) -> LedgerRefusal {
        LedgerRefusal::NoMemory
    }
}

impl Reason for LedgerRefusal {
    ghost use Rattle.std.specs.Prelude.{refl};
    ghost use Rattle.stake_ledger.specs.Reasons.{reason_number, only_memory};

    ghost number = { reason_number };

    ghost memory = { NoMemoryRefusal };

    fn number(self) -> Option<u32> {
        let number = match self {
            LedgerRefusal::LowFunds => 1,
            LedgerRefusal::NotBonded => 2,
            LedgerRefusal::AlreadyBonded => 3,
            LedgerRefusal::BelowMinimum => 4,
            LedgerRefusal::NoMoreChunks => 5,
            LedgerRefusal::NoChunk => 6,
            LedgerRefusal::ZeroValue => 7,
            LedgerRefusal::SameAccount => 8,
            LedgerRefusal::IssuanceCap => 9,
            LedgerRefusal::NoMemory => return None,
        };
        Some(number)
    }

    ghost memory_has_none = { refl };

    ghost others_have_one = { only_memory };
}
