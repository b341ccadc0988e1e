//! Want of memory, the one answer that no contract ties to a cause.
ghost use Rattle.std.specs.Prelude.{◌≡◌, ℕ, Option, None};

use std::alloc::{AllocError, AllocFailed};

/// The answer of a call that refuses for want of memory alone. The object of the call is then
/// unchanged.
#[derive(Clone, Copy, Debug, PartialEq, Eq, Hash)]
pub struct NoMemory;

impl From<AllocError> for NoMemory {
    fn from(_error: AllocError) -> NoMemory {
        NoMemory
    }
}

impl<T: Drop> From<AllocFailed<T>> for NoMemory {
    fn from(error: AllocFailed<T>) -> NoMemory {
        NoMemory::from(AllocError::from(error))
    }
}

/// The error of a call that may be refused: a reason, which has a number, or want of memory, which
/// is no reason and has none.
pub trait Reason: Copy {
    /// The number of the reason.
    ghost number: { Self → Option ℕ };

    /// The error that tells want of memory.
    ghost memory: { Self };

    /// The number that is printed; None for want of memory.
    fn number(self) -> Option<u32>
        ensures { result ≡ number self };

    ghost memory_has_none: { number memory ≡ None };

    ghost others_have_one: { (error : Self) → number error ≡ None → error ≡ memory };
}
