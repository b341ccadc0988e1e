//! The lines of a receipt.

use election_check::Verdict;
use npos_base::AccountId;

/// One line of a receipt. The program prints it; here it is data.
#[derive(Clone, Copy, Debug, PartialEq, Eq)]
pub enum Line {
    /// A block begins.
    Block {
        number: u32,
    },
    /// An era begins.
    Era {
        era: u32,
    },
    /// A round begins with a snapshot of so many targets and voters, whose stakes sum to this
    /// total.
    Snapshot {
        round: u32,
        targets: u32,
        voters: u32,
        total: u64,
    },
    /// A round is void, since there are fewer targets than seats.
    VoidFew {
        round: u32,
    },
    /// A round is void, since the stakes sum to less than the seats times the seats.
    VoidPoor {
        round: u32,
    },
    /// A submission does not hold, by this verdict: its deposit is burned.
    Forfeit {
        number: u64,
        deposit: u64,
        verdict: Verdict,
    },
    /// The deposit of a submission is free again.
    Returned {
        number: u64,
        deposit: u64,
    },
    /// So much was minted to the account of the submission that won.
    Reward {
        number: u64,
        amount: u64,
    },
    /// A committee is seated, from the submission with this number.
    SeatSigned {
        round: u32,
        number: u64,
    },
    /// A committee is seated, from the fill, since no submission held.
    SeatFill {
        round: u32,
    },
    /// A member of the committee, with its support.
    Member {
        who: AccountId,
        support: u64,
    },
    /// The call at this place of the block was accepted.
    CallOk {
        index: u32,
    },
    /// The call at this place of the block was refused, for the reason with this number.
    CallRefused {
        index: u32,
        code: u32,
    },
    /// So much of an era's reward was minted to the account.
    Paid {
        who: AccountId,
        amount: u64,
    },
    /// So much was taken from the account for an offence, and burned.
    Slashed {
        who: AccountId,
        amount: u64,
    },
    /// What an offence makes due waits under this number, for the era in which it is due.
    Deferred {
        number: u64,
        due: u32,
    },
    /// The slash with this number is applied now.
    Applied {
        number: u64,
    },
}
