//! Why a state is none that a chain has: the first cause in order.
ghost use Rattle.std.specs.Prelude.{◌≡◌, None, OnOk, IfErr};
ghost use Rattle.npos_base.specs.Refusal.{answer_of};
ghost use Rattle.state_rules.specs.Known.{AreByAccount};
ghost use Rattle.state_rules.specs.Terms.{HasSoundTerms};
ghost use Rattle.state_rules.specs.Causes.{at_place, stated, row_cause, sum_cause, role_cause, era_cause, round_cause, next_submission_cause, queue_cause, held_cause, waiting_cause, first_cause, next_slash_cause, waiting_slash_cause, slash_cause, IsDue};

use crate::eras::bad_era;
use crate::queue::{QueueTerms, bad_held, bad_item};
use crate::roles::bad_role;
use crate::round::is_bad_round;
use crate::rows::bad_row;
use crate::slashes::{SlashTerms, bad_slash};
use crate::terms::{
    bonding_eras, defer_eras, deposit, era_before, is_decided, is_next_number, is_open, places,
    seats, solution_max, thresholds,
};
use crate::waiting::is_bad_committee;
use crate::{CauseFault, State};
use stake_ledger::is_bad_sum;
use std::alloc::Global;

/// The cause with the place of what is at fault.
fn at_place(number: u32, place: Option<usize>) -> Result<(), CauseFault>
    ensures { result ≡ answer_of (at_place number place) }
{
    match place {
        None => Ok(()),
        Some(place) => Err(CauseFault::Cause {
            number,
            detail: place as u64,
        }),
    }
}

/// The cause without a place.
fn stated(number: u32, bad: bool) -> Result<(), CauseFault>
    ensures { result ≡ answer_of (stated number bad) }
{
    if bad {
        return Err(CauseFault::Cause { number, detail: 0 });
    }
    Ok(())
}

/// Whether a row is wrong: its account is not above the one before, a chunk is 0, there are more than
/// 32 chunks, releases do not rise, or one is later than what is unbonded now.
fn check_rows(state: &State) -> Result<(), CauseFault>
    requires { HasSoundTerms state.now }
    ensures ok { OnOk result ((row_cause state.now ≡ None) × AreByAccount state.now.rows) }
    ensures refused { IfErr result (IsDue (row_cause state.now)) }
{
    let latest = u64::from(era_before(state)) + u64::from(bonding_eras(state));
    at_place(3, bad_row(latest, state.rows.as_slice()))
}

/// Whether the sums of the books fail.
fn check_sums(state: &State) -> Result<(), CauseFault>
    ensures ok { OnOk result (sum_cause state.now ≡ None) }
    ensures refused { IfErr result (IsDue (sum_cause state.now)) }
{
    let rows = state.rows.as_slice();
    let bad = is_bad_sum(rows, state.genesis, state.minted, state.burned);
    stated(4, bad)
}

/// Whether a role is wrong.
fn check_roles(alloc: Global, state: &State) -> Result<(), CauseFault>
    requires { AreByAccount state.now.rows }
    ensures ok { OnOk result (role_cause state.now ≡ None) }
    ensures refused { IfErr result (IsDue (role_cause state.now)) }
{
    let rows = state.rows.as_slice();
    let place = bad_role(alloc, thresholds(state), rows, state.roles.as_slice())?;
    at_place(5, place)
}

/// Whether an era is wrong.
fn check_eras(alloc: Global, state: &State) -> Result<(), CauseFault>
    requires terms { HasSoundTerms state.now }
    requires by_account { AreByAccount state.now.rows }
    ensures ok { OnOk result (era_cause state.now ≡ None) }
    ensures refused { IfErr result (IsDue (era_cause state.now)) }
{
    let current = era_before(state);
    let rows = state.rows.as_slice();
    let has_params = state.params.is_some();
    let place = bad_era(alloc, has_params, current, rows, state.eras.as_slice())?;
    at_place(6, place)
}

/// Whether the snapshot of the round is wrong, or stands where none is open.
fn check_round(alloc: Global, state: &State) -> Result<(), CauseFault>
    requires terms { HasSoundTerms state.now }
    requires by_account { AreByAccount state.now.rows }
    ensures ok { OnOk result (round_cause state.now ≡ None) }
    ensures refused { IfErr result (IsDue (round_cause state.now)) }
{
    let Some(round) = &state.round else {
        return Ok(());
    };
    if !is_open(state) {
        return stated(7, true);
    }
    stated(
        7,
        is_bad_round(alloc, state.rows.as_slice(), seats(state), round)?,
    )
}

/// Whether the next number of submissions is wrong.
fn check_next_submission(state: &State) -> Result<(), CauseFault>
    requires { HasSoundTerms state.now }
    ensures ok { OnOk result (next_submission_cause state.now ≡ None) }
    ensures refused { IfErr result (IsDue (next_submission_cause state.now)) }
{
    stated(8, !is_next_number(state.due, state.next_submission))
}

/// Whether a submission that waits is wrong.
fn check_queue(state: &State) -> Result<(), CauseFault>
    requires { AreByAccount state.now.rows }
    ensures ok { OnOk result (queue_cause state.now ≡ None) }
    ensures refused { IfErr result (IsDue (queue_cause state.now)) }
{
    let terms = QueueTerms {
        has_round: state.round.is_some(),
        places: places(state),
        most_bytes: solution_max(state),
        next: state.next_submission,
    };
    at_place(
        8,
        bad_item(terms, state.rows.as_slice(), state.queue.as_slice()),
    )
}

/// Whether what is held of an account is not the deposits of its submissions.
fn check_held(state: &State) -> Result<(), CauseFault>
    ensures ok { OnOk result (held_cause state.now ≡ None) }
    ensures refused { IfErr result (IsDue (held_cause state.now)) }
{
    let queue = state.queue.as_slice();
    at_place(9, bad_held(deposit(state), queue, state.rows.as_slice()))
}

/// Whether the committee that waits is wrong, or waits where none was decided.
fn check_waiting(alloc: Global, state: &State) -> Result<(), CauseFault>
    requires terms { HasSoundTerms state.now }
    requires by_account { AreByAccount state.now.rows }
    ensures ok { OnOk result (waiting_cause state.now ≡ None) }
    ensures refused { IfErr result (IsDue (waiting_cause state.now)) }
{
    let Some(waiting) = &state.waiting else {
        return Ok(());
    };
    if !is_decided(state) {
        return stated(10, true);
    }
    stated(
        10,
        is_bad_committee(alloc, state.rows.as_slice(), seats(state), waiting)?,
    )
}

/// The first cause why the state is none that a chain has, but for those of slashes. The number of
/// the next block is one that a block can have, and the params are without a fault. It takes about
/// as long as sorting the accounts that the state names does.
///
/// # Errors
///
/// In this order, with the place of the first item at fault in its list, or 0: 3 a row, 4 the sums
/// of the books, 5 a role, 6 an era, 7 the snapshot of the round, 8 the next number of submissions
/// (with 0) or one that waits, 9 a row's deposits, 10 the committee that waits. `NoMemory` may come
/// at any time.
#[tactic(auto, using(crate::proofs::CauseLemmas::due_first, crate::proofs::CauseLemmas::due_then, crate::proofs::CauseLemmas::none_due))]
pub fn first_cause(alloc: Global, state: &State) -> Result<(), CauseFault>
    requires { HasSoundTerms state.now }
    ensures ok { OnOk result (first_cause state.now ≡ None) }
    ensures refused { IfErr result (IsDue (first_cause state.now)) }
{
    check_rows(state)?;
    check_sums(state)?;
    check_roles(alloc, state)?;
    check_eras(alloc, state)?;
    check_round(alloc, state)?;
    check_next_submission(state)?;
    check_queue(state)?;
    check_held(state)?;
    check_waiting(alloc, state)
}

/// The first cause why the slashes of the state are none that wait in a chain. The number of the next
/// block is one that a block can have, and the params are without a fault; what else is wrong with
/// the state does not matter. It takes about as long as sorting the accounts that it names does.
///
/// # Errors
///
/// 12 with 0 where the next number of slashes is wrong, or else with the place of the first slash
/// that is. `NoMemory` may come at any time.
#[tactic(auto, using(crate::proofs::CauseLemmas::due_first, crate::proofs::CauseLemmas::due_then, crate::proofs::CauseLemmas::none_due))]
pub fn slash_cause(alloc: Global, state: &State) -> Result<(), CauseFault>
    requires { HasSoundTerms state.now }
    ensures ok { OnOk result (slash_cause state.now ≡ None) }
    ensures refused { IfErr result (IsDue (slash_cause state.now)) }
{
    check_next_slash(state)?;
    check_slashes(alloc, state)
}

/// Whether the next number of slashes is wrong.
fn check_next_slash(state: &State) -> Result<(), CauseFault>
    requires { HasSoundTerms state.now }
    ensures ok { OnOk result (next_slash_cause state.now ≡ None) }
    ensures refused { IfErr result (IsDue (next_slash_cause state.now)) }
{
    stated(12, !is_next_number(state.due, state.next_slash))
}

/// Whether a slash that waits is wrong.
fn check_slashes(alloc: Global, state: &State) -> Result<(), CauseFault>
    requires { HasSoundTerms state.now }
    ensures ok { OnOk result (waiting_slash_cause state.now ≡ None) }
    ensures refused { IfErr result (IsDue (waiting_slash_cause state.now)) }
{
    let slashes = state.slashes.as_slice();
    if slashes.is_empty() {
        return Ok(());
    }
    let terms = SlashTerms {
        era: era_before(state),
        defer_eras: defer_eras(state),
        next: state.next_slash,
    };
    let place = bad_slash(alloc, terms, state.rows.as_slice(), slashes)?;
    at_place(12, place)
}
