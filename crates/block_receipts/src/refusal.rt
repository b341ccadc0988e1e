//! Why a call of a block is refused.
ghost use Rattle.std.specs.Prelude.{◌≡◌, unwrap_or};
ghost use Rattle.block_receipts.specs.Refusals.{code_of};

use era_book::EraRefusal;
use npos_base::Reason;
use stake_ledger::LedgerRefusal;
use voter_lists::ListRefusal;

/// Why a call of a block is refused. The chain is then as it was.
#[derive(Clone, Copy, Debug, PartialEq, Eq)]
pub enum Refusal {
    /// The books refuse, for one of their reasons other than want of memory.
    Ledger(LedgerRefusal),
    /// The roles or the bags refuse, for one of their reasons other than want of memory.
    List(ListRefusal),
    /// The eras refuse, for one of their reasons other than want of memory.
    Era(EraRefusal),
    /// The queue is full, and the claim is not better than the last one in it.
    NotBetter,
    /// No round takes submissions in this block.
    WrongPhase,
    /// The submission names another round than the current one.
    WrongRound,
    /// The solution has more bytes than the genesis allows.
    SolutionTooLong,
    /// Only the root of the genesis may call this.
    NotRoot,
}

impl Refusal {
    /// The number that is printed.
    pub fn code(self) -> u32
        ensures { result ≡ code_of self }
    {
        match self {
            Refusal::Ledger(refusal) => code(refusal),
            Refusal::List(refusal) => code(refusal),
            Refusal::Era(refusal) => code(refusal),
            Refusal::NotBetter => 20,
            Refusal::NotRoot => 27,
            Refusal::WrongPhase => 28,
            Refusal::WrongRound => 29,
            Refusal::SolutionTooLong => 30,
        }
    }
}

/// The number of a reason of a room below. Want of memory is none, and would be told as 0.
fn code<R: Reason>(reason: R) -> u32
    ensures { result ≡ unwrap_or (R.number reason) 0 }
{
    reason.number().unwrap_or(0)
}
