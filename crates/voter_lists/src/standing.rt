//! What an account does in elections.
ghost use Rattle.std.specs.Prelude.{◌≡◌};
ghost use Rattle.voter_lists.specs.Noted.{validates};

use npos_base::{AccountId, List};

/// The role of an account, as Substrate's staking pallet has it. A validator's commission is in
/// billionths.
#[derive(Clone, Copy, Debug, PartialEq, Eq, Hash)]
pub enum Role {
    Nobody,
    Nominator,
    Validator { commission: u32 },
}

impl Role {
    /// Whether it is the role of a validator.
    pub(crate) fn validates(self) -> bool
        ensures { result ≡ validates self }
    {
        match self {
            Role::Validator { .. } => true,
            _ => false,
        }
    }
}

/// What an account that has a role does, as contracts see it. No code makes one: the row of the
/// account keeps the same in less memory.
#[derive(Debug, Drop)]
pub enum Standing {
    /// It nominates these validators, in the order in which it named them.
    Nominator(List<AccountId>),
    /// It may be elected, and keeps this part of its rewards, in billionths.
    Validator { commission: u32 },
}
