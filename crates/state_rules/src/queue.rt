//! What is wrong with a submission that waits, and with what is held for those that wait.
ghost use Rattle.std.specs.Prelude.{◌≡◌, nat_eq};
ghost use Rattle.std.specs.List.{list_any};
ghost use Rattle.state_rules.specs.Lists.{bad_place};
ghost use Rattle.state_rules.specs.Known.{AreByAccount};
ghost use Rattle.state_rules.specs.Queue.{outranks, is_bad_count, is_outranking, is_bad_item, waiting_of, is_bad_deposit, is_bad_held};

use crate::QueueRow;
use crate::known::has_row;
use npos_base::AccountId;
use stake_ledger::BookRow;

/// What submissions are looked at by: whether a round is open, how many can wait, the most bytes of
/// a solution, and the number of the next submission.
#[derive(Clone, Copy, Debug)]
pub(crate) struct QueueTerms {
    pub(crate) has_round: bool,
    pub(crate) places: u32,
    pub(crate) most_bytes: u32,
    pub(crate) next: u64,
}

/// The place of the first submission that is wrong.
pub(crate) fn bad_item(terms: QueueTerms, rows: &[BookRow], queue: &[QueueRow]) -> Option<usize>
    requires { AreByAccount rows.now }
    ensures { result ≡ bad_place (is_bad_item terms.has_round terms.places terms.most_bytes rows.now terms.next) queue.now }
{
    for (place, item) in queue.iter().enumerate() {
        if is_bad_item(terms, rows, &queue[..place], item) {
            return Some(place);
        }
    }
    None
}

/// Whether the submission may not wait behind those before it, of which there are few where it has
/// a place.
fn is_bad_item(terms: QueueTerms, rows: &[BookRow], before: &[QueueRow], item: &QueueRow) -> bool
    requires { AreByAccount rows.now }
    ensures { result ≡ is_bad_item terms.has_round terms.places terms.most_bytes rows.now terms.next before.now item.now }
{
    !terms.has_round
        || before.len() >= terms.places as usize
        || !has_row(rows, item.who)
        || is_bad_count(terms.next, before, item)
        || is_outranking(before, item)
        || item.bytes.len() > terms.most_bytes as usize
}

/// Whether the number is none that was given, or an earlier submission has it.
fn is_bad_count(next: u64, before: &[QueueRow], item: &QueueRow) -> bool
    ensures { result ≡ is_bad_count next before.now item.now }
{
    item.number == 0 || item.number >= next || is_given(before, item.number)
}

/// Whether a submission has this number.
fn is_given(before: &[QueueRow], number: u64) -> bool
    ensures { result ≡ list_any (λ earlier. nat_eq earlier.number number) before.now }
{
    before.iter().any(|earlier| earlier.number == number)
}

/// Whether the claim is better, or an equal one has the lower number.
fn outranks(first: &QueueRow, later: &QueueRow) -> bool
    ensures { result ≡ outranks first.now later.now }
{
    first.score.better_than(&later.score)
        || !later.score.better_than(&first.score) && first.number < later.number
}

/// Whether the last of those before does not outrank the submission.
fn is_outranking(before: &[QueueRow], item: &QueueRow) -> bool
    ensures { result ≡ is_outranking before.now item.now }
{
    match before.last() {
        None => false,
        Some(last) => !outranks(last, item),
    }
}

/// How many submissions of the account wait.
fn waiting_of(queue: &[QueueRow], who: AccountId) -> usize
    ensures { result ≡ waiting_of queue.now who }
{
    queue.iter().filter(|item| item.who == who).count()
}

/// The place of the first row whose deposits are not those of its account's submissions.
pub(crate) fn bad_held(deposit: u64, queue: &[QueueRow], rows: &[BookRow]) -> Option<usize>
    ensures { result ≡ bad_place (is_bad_held deposit queue.now) rows.now }
{
    for (place, row) in rows.iter().enumerate() {
        if is_bad_deposit(deposit, queue, row) {
            return Some(place);
        }
    }
    None
}

/// Whether the account's deposits are not those of its submissions.
fn is_bad_deposit(deposit: u64, queue: &[QueueRow], row: &BookRow) -> bool
    ensures { result ≡ is_bad_deposit deposit queue.now row.now }
{
    u128::from(row.held) != u128::from(deposit) * waiting_of(queue, row.who) as u128
}
