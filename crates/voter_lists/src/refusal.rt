//! Why a call on the lists is refused.
ghost use Rattle.std.specs.Prelude.{◌≡◌};
ghost use Rattle.voter_lists.specs.declared.refusal.ListRefusal.TheVariants.{NoMemory as NoMemoryRefusal};

use npos_base::{NoMemory, Reason};
use std::alloc::{AllocError, AllocFailed};

/// Why a call of `Roles` or `Bags` was refused. A refusal changes nothing.
#[derive(Clone, Copy, Debug, PartialEq, Eq, Hash)]
pub enum ListRefusal {
    /// A nomination names no target.
    NoTargets,
    /// A nomination names more than 24 targets.
    TooManyTargets,
    /// A nomination names a target twice.
    RepeatedTarget,
    /// A nomination names an account that is no validator, or the nominator itself.
    NotValidator,
    /// 2,048 other accounts are validators already.
    TooManyValidators,
    /// A commission is above 10^9 billionths.
    BadFraction,
    /// The account has no role, or is in no bag.
    NotListed,
    /// The account stands in the bag of its score already.
    SameBag,
    /// The two accounts stand in different bags.
    OtherBag,
    /// The account's score is not above that of the account before which it would stand.
    NotHeavier,
    NoMemory,
}

impl From<NoMemory> for ListRefusal {
    ghost from_gives = { λ _ refusal. refusal ≡ NoMemoryRefusal };

    fn from(_want: NoMemory) -> ListRefusal {
        ListRefusal::NoMemory
    }
}

impl From<AllocError> for ListRefusal {
    ghost from_gives = { λ _ refusal. refusal ≡ NoMemoryRefusal };

    fn from(_want: AllocError) -> ListRefusal {
        ListRefusal::NoMemory
    }
}

impl<T: Drop> From<AllocFailed<T>> for ListRefusal {
    ghost from_gives = { λ _ refusal. refusal ≡ NoMemoryRefusal };

    fn from(_want: AllocFailed<T>) -> ListRefusal {
        ListRefusal::NoMemory
    }
}

impl Reason for ListRefusal {
    ghost use Rattle.std.specs.Prelude.{refl};
    ghost use Rattle.voter_lists.specs.Reasons.{reason_number, only_memory};

    ghost number = { reason_number };

    ghost memory = { NoMemoryRefusal };

    fn number(self) -> Option<u32> {
        let number = match self {
            ListRefusal::NoTargets => 10,
            ListRefusal::TooManyTargets => 11,
            ListRefusal::RepeatedTarget => 12,
            ListRefusal::NotValidator => 13,
            ListRefusal::TooManyValidators => 14,
            ListRefusal::BadFraction => 15,
            ListRefusal::NotListed => 16,
            ListRefusal::SameBag => 17,
            ListRefusal::OtherBag => 18,
            ListRefusal::NotHeavier => 19,
            ListRefusal::NoMemory => return None,
        };
        Some(number)
    }

    ghost memory_has_none = { refl };

    ghost others_have_one = { only_memory };
}
