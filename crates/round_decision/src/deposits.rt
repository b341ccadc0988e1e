//! What becomes of deposits, and what is told of it.
ghost use Rattle.std.specs.Prelude.{◌≡◌, ◌+◌, ◌++◌, ◌<◌, ◌≤◌, [], ◌∷◌, length, OnOk, OnErr};
ghost use Rattle.std.specs.Vec.{vec_len, vec_capacity};
ghost use Rattle.stake_ledger.specs.Ledger.{row_at};
ghost use Rattle.stake_ledger.specs.Calls.{deposit_held};
ghost use Rattle.submission_queue.specs.Ranking.{empty_queue};
ghost use Rattle.round_decision.specs.Deposits.{AreHeld, returned, all_returned, return_line, return_lines};

use block_receipts::Line;
use npos_base::{AccountId, NoMemory};
use stake_ledger::{Book, LedgerRefusal};
use submission_queue::{Queue, Submission};

/// The deposit is held. The account has that much free, so this fails for want of memory alone, and
/// then nothing has changed.
pub fn hold(book: &mut Book, who: AccountId, deposit: u64) -> Result<(), NoMemory>
    requires { deposit ≤ (row_at book.old who).free }
    ensures ok { OnOk result (book.new ≡ deposit_held who deposit book.old) }
    ensures err { OnErr result (book.new ≡ book.old) }
{
    match book.hold_deposit(who, deposit) {
        Ok(()) => Ok(()),
        Err(LedgerRefusal::NoMemory) => Err(NoMemory),
        Err(_) => unreachable!(),
    }
}

/// The deposit of a submission is free again. There is room for the line that tells it.
pub(crate) fn give_back(book: &mut Book, lines: &mut Vec<Line>, item: &Submission)
    requires held { item.now.deposit ≤ (row_at book.old item.now.who).held }
    requires room { vec_len lines.old < vec_capacity lines.old }
    ensures book { book.new ≡ returned book.old item.now }
    ensures line { lines.new.items ≡ lines.old.items ++ return_line item.now ∷ [] }
    ensures len { vec_len lines.new ≡ vec_len lines.old + 1 }
    ensures capacity { vec_capacity lines.new ≡ vec_capacity lines.old }
{
    book.return_deposit(item.who, item.deposit);
    lines.push_reserved(Line::Returned {
        number: item.number,
        deposit: item.deposit,
    });
}

/// The deposit of a submission is free again. Where there is no memory for the line that tells it,
/// nothing has changed.
pub fn return_deposit(
    book: &mut Book,
    lines: &mut Vec<Line>,
    item: &Submission,
) -> Result<(), NoMemory>
    requires { item.now.deposit ≤ (row_at book.old item.now.who).held }
    ensures book { OnOk result (book.new ≡ returned book.old item.now) }
    ensures line { OnOk result (lines.new.items ≡ lines.old.items ++ return_line item.now ∷ []) }
    ensures unchanged { OnErr result (book.new ≡ book.old) }
    ensures untold { OnErr result (lines.new.items ≡ lines.old.items) }
{
    lines.reserve(1)?;
    give_back(book, lines, item);
    Ok(())
}

/// The deposits of all that wait are free again, by rank, and nobody waits then. There is room for
/// the lines that tell it.
#[tactic(auto, using(crate::proofs::DepositLemmas::front, crate::proofs::DepositLemmas::held_within, crate::proofs::DepositLemmas::held_returned))]
pub(crate) fn return_all(book: &mut Book, lines: &mut Vec<Line>, queue: &mut Queue)
    requires held { AreHeld book.old queue.old.items }
    requires room { vec_len lines.old + length queue.old.items ≤ vec_capacity lines.old }
    ensures book { book.new ≡ all_returned queue.old.items book.old }
    ensures lines { lines.new.items ≡ lines.old.items ++ return_lines queue.old.items }
    ensures queue { queue.new ≡ empty_queue queue.old.places }
    ensures len { vec_len lines.new ≡ vec_len lines.old + length queue.old.items }
    ensures capacity { vec_capacity lines.new ≡ vec_capacity lines.old }
{
    'items: while let Some(item) = queue.take_best() {
        give_back(book, lines, &item);
    }
}
