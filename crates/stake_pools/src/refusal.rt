//! Why an item is refused.
ghost use Rattle.std.specs.Prelude.{◌≡◌};
ghost use Rattle.stake_pools.specs.Refusals.{refusal_number};

/// Why an item is refused. A refused item changes nothing.
#[derive(Clone, Copy, Debug, PartialEq, Eq)]
pub enum PoolRefusal {
    /// The account has less free than it would pay.
    LowFunds,
    /// The value, or the points, are zero.
    ZeroValue,
    /// The pool can't pay itself.
    SameAccount,
    /// Only the pool's own account may ask this.
    NotRoot,
    /// The account is no member.
    NotMember,
    /// Fewer points of the member stay.
    LowPoints,
    /// No leave of the member is due.
    NotDue,
    /// There are 4,096 members, and the account is none of them.
    TooManyMembers,
    /// The member has 32 leaves, and none that this one could join.
    TooManyLeaves,
    /// There are points and nothing is active, so that a point has no price.
    PoolWiped,
    /// All points would not be below 2^64.
    TooManyPoints,
    /// No points stay that a reward could go to.
    NoStayer,
    /// Nothing is credited to the member.
    NothingDue,
    /// There is no era after this one.
    LastEra,
}

impl PoolRefusal {
    /// The number that is printed.
    pub fn number(self) -> u32
        ensures { result ≡ refusal_number self }
    {
        match self {
            PoolRefusal::LowFunds => 1,
            PoolRefusal::ZeroValue => 7,
            PoolRefusal::SameAccount => 8,
            PoolRefusal::NotRoot => 27,
            PoolRefusal::NotMember => 33,
            PoolRefusal::LowPoints => 35,
            PoolRefusal::NotDue => 36,
            PoolRefusal::TooManyMembers => 37,
            PoolRefusal::TooManyLeaves => 38,
            PoolRefusal::PoolWiped => 39,
            PoolRefusal::TooManyPoints => 40,
            PoolRefusal::NoStayer => 41,
            PoolRefusal::NothingDue => 42,
            PoolRefusal::LastEra => 43,
        }
    }
}
