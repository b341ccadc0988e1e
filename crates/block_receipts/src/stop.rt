//! Why a call stops: it is refused, or memory ran out.
ghost use Rattle.std.specs.Prelude.{◌≡◌};
ghost use Rattle.block_receipts.specs.declared.stop.Stop.TheVariants.{NoMemory as NoMemoryStop};

use crate::Refusal;
use era_book::EraRefusal;
use npos_base::{NoMemory, Reason};
use stake_ledger::LedgerRefusal;
use voter_lists::ListRefusal;

/// Why a call stops.
#[derive(Clone, Copy, Debug, PartialEq, Eq)]
pub enum Stop {
    Refused(Refusal),
    NoMemory,
}

/// An error of a room below with which a call of a block stops.
pub trait Stops: Reason {
    ghost use Rattle.block_receipts.specs.declared.refusal.Refusal.{Refusal};

    /// The refusal that the error is, unless it is want of memory.
    ghost refusal: { Self → Refusal };

    /// The error as a refusal of a call.
    fn refusal(self) -> Refusal
        ensures { result ≡ refusal self };
}

impl Stops for LedgerRefusal {
    ghost use Rattle.block_receipts.specs.declared.refusal.Refusal.TheVariants.{Ledger};

    ghost refusal = { λ error. Ledger error };

    fn refusal(self) -> Refusal {
        Refusal::Ledger(self)
    }
}

impl Stops for ListRefusal {
    ghost use Rattle.block_receipts.specs.declared.refusal.Refusal.TheVariants.{List};

    ghost refusal = { λ error. List error };

    fn refusal(self) -> Refusal {
        Refusal::List(self)
    }
}

impl Stops for EraRefusal {
    ghost use Rattle.block_receipts.specs.declared.refusal.Refusal.TheVariants.{Era};

    ghost refusal = { λ error. Era error };

    fn refusal(self) -> Refusal {
        Refusal::Era(self)
    }
}

impl<E: Stops> From<E> for Stop {
    ghost use Rattle.block_receipts.specs.Stops.{stop_of};

    ghost from_gives = { λ error stop. stop ≡ stop_of (E.number error) (E.refusal error) };

    fn from(error: E) -> Stop {
        match error.number() {
            Some(_) => Stop::Refused(error.refusal()),
            None => Stop::NoMemory,
        }
    }
}

impl From<NoMemory> for Stop {
    ghost from_gives = { λ _ stop. stop ≡ NoMemoryStop };

    fn from(_want: NoMemory) -> Stop {
        Stop::NoMemory
    }
}
