//! The decision of a round.
ghost use Rattle.std.specs.Prelude.{◌≡◌, ℕ, ◌+◌, ◌++◌, ◌<◌, ◌≤◌, [], ◌∷◌, length, drop, take, is_some, true, map, slice_get, OnOk, OnErr, IfOk, IfSome};
ghost use Rattle.std.specs.Vec.{vec_len, vec_capacity};
ghost use Rattle.stake_ledger.specs.Ledger.{row_at, row_of};
ghost use Rattle.submission_queue.specs.Ranking.{empty_queue};
ghost use Rattle.weight_book.specs.Weights.{no_weights};
ghost use Rattle.weight_book.specs.Room.{HasRoom};
ghost use Rattle.weight_book.specs.Passing.{Passes};
ghost use Rattle.compact_solution.specs.Decoded.{decoded};
ghost use Rattle.election_check.specs.declared.verdict.Verdict.TheVariants.{Yes};
ghost use Rattle.election_check.specs.Packed.{weights_decoded};
ghost use Rattle.quota_fill.specs.Filled.{filled};
ghost use Rattle.block_receipts.specs.declared.line.Line.TheVariants as told;
ghost use Rattle.round_decision.specs.Deposits.{AreHeld, burned, all_burned};
ghost use Rattle.round_decision.specs.Decision.{judged, losers, others, decided_weights, forfeit_line, reward_in, rewarded, paid_out, paid_lines, rising, member_line, member_lines, books_decided, deposit_lines, Stops, IsLeft};

use crate::deposits::{give_back, return_all};
use block_receipts::Line;
use election_check::laws::{a_packed_yes_is_a_plain_yes, a_plain_yes_is_passing};
use election_check::{Checker, Elected, Verdict};
use election_snapshot::Snapshot;
use npos_base::NoMemory;
use quota_fill::fill;
use quota_fill::laws::every_fill_passes;
use stake_ledger::Book;
use std::alloc::Global;
use submission_queue::{Queue, Submission};
use weight_book::Weights;

/// The deposit of a submission that does not hold is gone. Where there is no memory for the line
/// that tells it, nothing has changed.
fn forfeit(
    book: &mut Book,
    lines: &mut Vec<Line>,
    item: &Submission,
    verdict: Verdict,
) -> Result<(), NoMemory>
    requires { item.now.deposit ≤ (row_at book.old item.now.who).held }
    ensures book { OnOk result (book.new ≡ burned book.old item.now) }
    ensures line { OnOk result (lines.new.items
        ≡ lines.old.items ++ told.Forfeit item.now.number item.now.deposit verdict ∷ []) }
    ensures unchanged { OnErr result (book.new ≡ book.old) }
    ensures untold { OnErr result (lines.new.items ≡ lines.old.items) }
{
    lines.reserve(1)?;
    book.burn_deposit(item.who, item.deposit);
    lines.push_reserved(Line::Forfeit {
        number: item.number,
        deposit: item.deposit,
        verdict,
    });
    Ok(())
}

/// Judges the submissions by rank up to the first that holds, which is the winner. The deposits of
/// those before it are burned, also where memory is refused before it is found. The weights of its
/// solution are then in `weights`.
#[tactic(auto, using(crate::proofs::DepositLemmas::holding, crate::proofs::DecisionLemmas::leaving))]
fn find_winner(
    alloc: Global,
    checker: &mut Checker,
    weights: &mut Weights,
    queue: &mut Queue,
    book: &mut Book,
    lines: &mut Vec<Line>,
) -> Result<Option<Submission>, NoMemory>
    requires empty { weights.old.plain ≡ no_weights }
    requires room { HasRoom checker.old weights.old }
    requires held { AreHeld book.old queue.old.items }
    ensures winner { IfOk result
        (λ winner. winner ≡ slice_get (others checker.old queue.old.items) 0) }
    ensures queue { OnOk result (queue.new
        ≡ record queue.old { items = drop 1 (others checker.old queue.old.items) }) }
    ensures book { OnOk result
        (book.new ≡ all_burned (losers checker.old queue.old.items) book.old) }
    ensures lines { OnOk result (lines.new.items ≡ lines.old.items
        ++ map (forfeit_line checker.old) (losers checker.old queue.old.items)) }
    ensures held { OnOk result (AreHeld book.new (others checker.old queue.old.items)) }
    ensures so_far { Stops checker.old queue.old.items book.old book.new lines.old.items
        lines.new.items }
    ensures left { IsLeft queue.old queue.new }
    ensures weights { IfOk result (λ winner. IfSome winner
        (λ item. weights.new.plain ≡ weights_decoded checker.old (decoded item.bytes))) }
    ensures valid { IfOk result (λ winner. IfSome winner
        (λ item. judged checker.old item ≡ Yes)) }
    ensures snapshot { checker.new ≡ checker.old }
{
    'items: while let Some(item) = queue.take_best() {
        let bytes = item.bytes.as_slice();
        match checker.judge_bytes(alloc, bytes, &item.score, weights)? {
            Verdict::Yes => return Ok(Some(item)),
            verdict => {
                weights.clear();
                forfeit(book, lines, &item, verdict)?;
            }
        }
    }
    Ok(None)
}

/// Mints the reward of the winner, or as much of it as may still be issued. There is room for the
/// line that tells it.
fn reward(book: &mut Book, lines: &mut Vec<Line>, winner: &Submission, reward: u64)
    requires known { is_some (row_of book.old winner.now.who) ≡ true }
    requires room { vec_len lines.old < vec_capacity lines.old }
    ensures book { book.new ≡ rewarded reward book.old winner.now }
    ensures line { lines.new.items
        ≡ lines.old.items ++ told.Reward winner.now.number (reward_in reward book.old) ∷ [] }
    ensures len { vec_len lines.new ≡ vec_len lines.old + 1 }
    ensures capacity { vec_capacity lines.new ≡ vec_capacity lines.old }
{
    let amount = reward.min(book.room());
    match book.mint_free(winner.who, amount) {
        Ok(()) => {}
        Err(_) => unreachable!(),
    }
    lines.push_reserved(Line::Reward {
        number: winner.number,
        amount,
    });
}

/// The winner gets its deposit and the reward, those behind it get their deposits, and it is told
/// whose committee is seated. Where there is no memory for the lines, nothing has changed.
fn pay_out(
    book: &mut Book,
    lines: &mut Vec<Line>,
    queue: &mut Queue,
    winner: &Submission,
    amount: u64,
    round: u32,
) -> Result<(), NoMemory>
    requires { AreHeld book.old (winner.now ∷ queue.old.items) }
    ensures book { OnOk result
        (book.new ≡ paid_out amount (winner.now ∷ queue.old.items) book.old) }
    ensures lines { OnOk result (lines.new.items
        ≡ lines.old.items ++ (paid_lines amount (winner.now ∷ queue.old.items) book.old
        ++ told.SeatSigned round winner.now.number ∷ [])) }
    ensures queue { OnOk result (queue.new ≡ empty_queue queue.old.places) }
    ensures unchanged { OnErr result (book.new ≡ book.old) }
    ensures untold { OnErr result (lines.new.items ≡ lines.old.items) }
    ensures waiting { OnErr result (queue.new ≡ queue.old) }
{
    lines.reserve(queue.items().len() + 3)?;
    give_back(book, lines, winner);
    reward(book, lines, winner, amount);
    return_all(book, lines, queue);
    lines.push_reserved(Line::SeatSigned {
        round,
        number: winner.number,
    });
    Ok(())
}

/// Seats the committee of weights that pass.
fn seat(snapshot: Snapshot, weights: Weights) -> Elected
    requires { Passes snapshot weights.plain }
    ensures snapshot { result.snapshot ≡ snapshot }
    ensures weights { result.weights.plain ≡ rising snapshot weights.plain }
{
    let elected = Elected::of(snapshot, weights);
    // The committee rises, so it is the one of the weights put in rising order.
    let _committee = elected.committee();
    elected
}

/// Seats the fill.
fn seat_fill(alloc: Global, snapshot: Snapshot) -> Result<Elected, NoMemory>
    ensures snapshot { IfOk result (λ elected. elected.snapshot ≡ snapshot) }
    ensures weights { IfOk result
        (λ elected. elected.weights.plain ≡ rising snapshot (filled snapshot)) }
{
    every_fill_passes();
    // The snapshot is well formed, so its fill passes.
    let _seats = snapshot.seats();
    let weights = fill(alloc, &snapshot)?;
    Ok(seat(snapshot, weights))
}

/// Seats the committee of a solution whose verdict is Yes.
fn seat_winner(checker: Checker, weights: Weights, winner: &Submission) -> Elected
    requires valid { judged checker winner.now ≡ Yes }
    requires weights { weights.plain ≡ weights_decoded checker (decoded winner.now.bytes) }
    ensures snapshot { result.snapshot ≡ checker }
    ensures weights { result.weights.plain
        ≡ rising checker (weights_decoded checker (decoded winner.now.bytes)) }
{
    a_packed_yes_is_a_plain_yes();
    a_plain_yes_is_passing();
    seat(checker.into_snapshot(), weights)
}

/// Settles the submissions of the round of this number, and elects its committee. The amount is the
/// reward of the winner. Where memory is refused, some of the submissions that do not hold have lost
/// their deposits, the first ones by rank, which is told; nothing else has changed in the books, and
/// the queue keeps those behind the ones that were looked at.
#[tactic(auto, using(crate::proofs::DecisionLemmas::left_whole))]
pub fn decide(
    alloc: Global,
    number: u32,
    snapshot: Snapshot,
    amount: u64,
    queue: &mut Queue,
    book: &mut Book,
    lines: &mut Vec<Line>,
) -> Result<Elected, NoMemory>
    requires { AreHeld book.old queue.old.items }
    ensures book { OnOk result
        (book.new ≡ books_decided amount snapshot queue.old.items book.old) }
    ensures lines { OnOk result (lines.new.items ≡ lines.old.items
        ++ deposit_lines number amount snapshot queue.old.items book.old) }
    ensures queue { OnOk result (queue.new ≡ empty_queue queue.old.places) }
    ensures snapshot { IfOk result (λ elected. elected.snapshot ≡ snapshot) }
    ensures weights { IfOk result (λ elected. elected.weights.plain
        ≡ rising snapshot (decided_weights snapshot (others snapshot queue.old.items))) }
    ensures stops { OnErr result (Stops snapshot queue.old.items book.old book.new
        lines.old.items lines.new.items) }
    ensures left { OnErr result (IsLeft queue.old queue.new) }
{
    let mut weights = Weights::with_room(alloc, &snapshot)?;
    let mut checker = Checker::of(alloc, snapshot)?;
    match find_winner(alloc, &mut checker, &mut weights, queue, book, lines)? {
        Some(winner) => {
            pay_out(book, lines, queue, &winner, amount, number)?;
            Ok(seat_winner(checker, weights, &winner))
        }
        None => {
            // The fill has the room that these and the tables of the checker had.
            drop(weights);
            let elected = seat_fill(alloc, checker.into_snapshot())?;
            lines.push(Line::SeatFill { round: number })?;
            Ok(elected)
        }
    }
}

/// The line of a member.
#[tactic(auto, using(crate::proofs::SeatLemmas::stands_at))]
fn member_line(elected: &Elected, member: u16) -> Line
    requires { member < length elected.now.snapshot.targets }
    ensures { result ≡ member_line elected.now.snapshot elected.now.weights.plain member }
{
    Line::Member {
        who: elected.snapshot().target(member),
        support: elected.support(member),
    }
}

/// Tells the members by rising position. Where memory is refused, the first ones are told.
#[tactic(auto, using(crate::proofs::SeatLemmas::member_next))]
pub fn tell_members(lines: &mut Vec<Line>, elected: &Elected) -> Result<(), NoMemory>
    ensures lines { OnOk result (lines.new.items
        ≡ lines.old.items ++ member_lines elected.now.snapshot elected.now.weights.plain) }
    ensures so_far { (count : ℕ) × (lines.new.items ≡ lines.old.items
        ++ take count (member_lines elected.now.snapshot elected.now.weights.plain)) }
{
    for member in elected.committee() {
        lines.push(member_line(elected, *member))?;
    }
    Ok(())
}
