//! The calls that change what one account has.
ghost use Rattle.std.specs.Prelude.{◌≡◌};
ghost use Rattle.stake_ledger.specs.RowCalls.{burned_of};

/// A call that changes what one account has, in units of stake.
#[derive(Clone, Copy)]
pub enum RowCall {
    /// Makes free units active, where nothing is bonded.
    Bond {
        value: u64,
        minimum: u64,
    },
    /// Makes free units active, where something is bonded already.
    BondExtra {
        value: u64,
    },
    /// Moves active units to a chunk; at least `least` stay active.
    Unbond {
        value: u64,
        release: u32,
        least: u64,
    },
    /// Makes units of the chunks active again, the latest first.
    Rebond {
        value: u64,
    },
    /// Frees the chunks that are released by the era.
    Withdraw {
        era: u32,
    },
    /// Holds free units as a deposit.
    Hold {
        value: u64,
    },
    /// Frees units that are held.
    Return {
        value: u64,
    },
    /// Burns units that are held.
    Burn {
        value: u64,
    },
}

impl RowCall {
    /// What the call burns of the amount that it moves.
    pub fn burned(self, amount: u64) -> u64
        ensures { result ≡ burned_of self amount }
    {
        match self {
            RowCall::Burn { .. } => amount,
            _ => 0,
        }
    }
}
