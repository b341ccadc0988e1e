//! The chain that goes on from a state.
ghost use Rattle.std.specs.Prelude.{◌≡◌, ◌+◌, ◌-◌, ◌≤◌, length, map, min, None, OnOk, IfSome, IfOk, IfErr, option_map};
ghost use Rattle.npos_base.specs.declared.limits.TheConstants.{MOST_THRESHOLDS, MOST_PAST_ERAS};
ghost use Rattle.stake_ledger.specs.BookRows.{rows_fault, ledger_of};
ghost use Rattle.era_book.specs.declared.deferred.TheConstants.{MOST_SLASHES};
ghost use Rattle.chain_params.specs.Rules as rules;
ghost use Rattle.chain_params.specs.Rules.{thresholds_in};
ghost use Rattle.chain_params.specs.Faults.{AreSound, terms_fault};
ghost use Rattle.state_rules.specs.Causes as causes;
ghost use Rattle.state_rules.specs.Terms.{HasSoundTerms, params_of, defer_of, defer_in};
ghost use Rattle.state_rules.specs.Sound.{IsSoundState, HasSoundSlashes};
ghost use Rattle.state_checkpoint.specs.Layout.{state_form};
ghost use Rattle.npos_runtime.specs.Kept.Chain.{chain_of, committee_in, roles_in, bag_entry, round_in, submission_in, eras_back};
ghost use Rattle.npos_runtime.specs.Kept.Remade.{AreRolesBetween, AreSoundItems, AreSoundEras, AreSoundSlashes, IsBuiltRound};
ghost use Rattle.npos_runtime.specs.Live.{CanBeDue};
ghost use Rattle.npos_runtime.specs.Kept.Restoring.{state_fault, due_fault, params_fault, stated, IsDueFault};

use crate::remade_eras::past_of;
use crate::remade_lists::{accounts_of, queue_of};
use crate::remade_polls::{round_of, waiting_of};
use crate::{Chain, Round, StateFault, Waiting};
use block_wire::Params;
use chain_params::{check_terms, era_of};
use era_book::{DeferredSlash, EraBook};
use npos_base::{List, NoMemory};
use stake_ledger::{Book, BookRow};
use state_rules::laws::{no_cause_stands_for_sound_slashes, no_cause_stands_in_sound_states};
use state_rules::{EraRow, QueueRow, RoleRow, RoundRow, State, first_cause, slash_cause};
use std::alloc::Global;
use submission_queue::Queue;
use voter_lists::{Bags, Roles};

/// Whether the number of the next block is one that a block can have, or the one behind the last.
fn check_due(due: u64) -> Result<(), StateFault>
    ensures ok { OnOk result (due_fault due ≡ None) }
    ensures refused { IfErr result (IsDueFault (due_fault due)) }
{
    if !(1..=1 << 32).contains(&due) {
        return Err(StateFault::Cause {
            number: 1,
            detail: due,
        });
    }
    Ok(())
}

/// Whether the params are without a fault.
fn check_params(params: &Option<Params>, defer: u32) -> Result<(), StateFault>
    requires { length (thresholds_in params.now) ≤ MOST_THRESHOLDS }
    ensures ok { OnOk result (terms_fault params.now defer ≡ None) }
    ensures refused { IfErr result
        (IsDueFault (option_map params_fault (terms_fault params.now defer))) }
{
    match check_terms(params, defer) {
        Ok(()) => Ok(()),
        Err(fault) => match fault.numbers() {
            None => Err(StateFault::NoMemory),
            Some((number, _)) => Err(StateFault::Cause {
                number: 2,
                detail: u64::from(number),
            }),
        },
    }
}

/// Whether the params of the state are without a fault, which takes them out of it meanwhile.
fn check_terms_of(state: &mut State) -> Result<(), StateFault>
    requires { length (thresholds_in (params_of state.old)) ≤ MOST_THRESHOLDS }
    ensures same { OnOk result (state.new ≡ state.old) }
    ensures ok { OnOk result
        (terms_fault (params_of state.old) (defer_of state.old) ≡ None) }
    ensures refused { IfErr result (IsDueFault (option_map params_fault
        (terms_fault (params_of state.old) (defer_of state.old)))) }
{
    let Some((params, defer)) = state.params.take() else {
        return Ok(());
    };
    let terms = Some(params);
    check_params(&terms, defer)?;
    let Some(params) = terms else { unreachable!() };
    state.params = Some((params, defer));
    Ok(())
}

/// Whether the state has none of the causes but those of slashes.
#[tactic(auto, using(crate::proofs::Kept::Remade::StateLemmas::cause_stated))]
fn check_causes(alloc: Global, state: &State) -> Result<(), StateFault>
    requires { HasSoundTerms state.now }
    ensures ok { OnOk result (causes.first_cause state.now ≡ None) }
    ensures refused { IfErr result
        (IsDueFault (option_map stated (causes.first_cause state.now))) }
{
    match first_cause(alloc, state) {
        Ok(()) => Ok(()),
        Err(cause) => Err(StateFault::from(cause)),
    }
}

/// Whether the state has none of the causes of slashes.
#[tactic(auto, using(crate::proofs::Kept::Remade::StateLemmas::cause_stated))]
fn check_slashes(alloc: Global, state: &State) -> Result<(), StateFault>
    requires { HasSoundTerms state.now }
    ensures ok { OnOk result (causes.slash_cause state.now ≡ None) }
    ensures refused { IfErr result
        (IsDueFault (option_map stated (causes.slash_cause state.now))) }
{
    match slash_cause(alloc, state) {
        Ok(()) => Ok(()),
        Err(cause) => Err(StateFault::from(cause)),
    }
}

/// The params, and how many eras a slash waits.
fn terms_of(terms: Option<(Params, u32)>) -> (Option<Params>, u32)
    ensures params { result.0 ≡ option_map (λ both. both.0) terms }
    ensures defer { result.1 ≡ defer_in terms }
{
    match terms {
        None => (None, 0),
        Some((params, defer)) => (Some(params), defer),
    }
}

/// The era of the last block before the one that is due.
fn last_era(params: &Option<Params>, due: u64) -> u32
    requires sound { AreSound params.now }
    requires due { CanBeDue due }
    ensures { result ≡ rules.era_of params.now (due - 1) }
{
    if due == 1 {
        return era_of(params, 1);
    }
    era_of(params, due - 1)
}

/// The terms of a chain: its params, how many eras a slash waits, and the number of the next block.
#[derive(Drop)]
struct Terms {
    params: Option<Params>,
    defer: u32,
    due: u64,
}

/// What accounts have, with the sums of it, and what they do.
#[derive(Drop)]
struct Accounts {
    sums: (u64, u64, u64),
    rows: List<BookRow>,
    roles: List<RoleRow>,
}

/// The round that is open, and its submissions.
#[derive(Drop)]
struct Polls {
    round: Option<RoundRow>,
    next: u64,
    queue: List<QueueRow>,
}

/// The eras that are kept, and the slashes that wait.
#[derive(Drop)]
struct Past {
    next_slash: u64,
    eras: List<EraRow>,
    slashes: List<DeferredSlash>,
}

/// The parts of a state but who waits.
fn parts_of(state: State) -> (Terms, Accounts, Polls, Past)
    ensures terms { result.0 ≡ record {
      params = params_of state;
      defer = defer_of state;
      due = state.due;
    } }
    ensures accounts { result.1 ≡ record {
      sums = (state.genesis, state.minted, state.burned);
      rows = state.rows;
      roles = state.roles;
    } }
    ensures polls { result.2 ≡ record {
      round = state.round;
      next = state.next_submission;
      queue = state.queue;
    } }
    ensures past { result.3 ≡ record {
      next_slash = state.next_slash;
      eras = state.eras;
      slashes = state.slashes;
    } }
{
    let (params, defer) = terms_of(state.params);
    let terms = Terms {
        params,
        defer,
        due: state.due,
    };
    let accounts = Accounts {
        sums: (state.genesis, state.minted, state.burned),
        rows: state.rows,
        roles: state.roles,
    };
    let polls = Polls {
        round: state.round,
        next: state.next_submission,
        queue: state.queue,
    };
    let past = Past {
        next_slash: state.next_slash,
        eras: state.eras,
        slashes: state.slashes,
    };
    (terms, accounts, polls, past)
}

/// The round that is open, and the queue of its submissions.
fn polls_of(alloc: Global, terms: &Terms, polls: Polls) -> Result<(Option<Round>, Queue), NoMemory>
    requires sound { AreSound terms.now.params }
    requires due { CanBeDue terms.now.due }
    requires built { IsBuiltRound (rules.seats_of terms.now.params) polls.round }
    requires items { AreSoundItems (rules.places_of terms.now.params) polls.queue }
    ensures round { IfOk result (λ all. all.0
        ≡ option_map (round_in terms.now.params terms.now.due) polls.round) }
    ensures queue { IfOk result (λ all. all.1 ≡ record {
      items = map (submission_in terms.now.params) polls.queue;
      places = rules.places_of terms.now.params;
    }) }
{
    let round = round_of(alloc, &terms.params, terms.due, &polls.round)?;
    let queue = queue_of(alloc, &terms.params, polls.queue)?;
    Ok((round, queue))
}

/// The books, the roles and the bags.
fn accounts_in(
    alloc: Global,
    terms: &Terms,
    accounts: Accounts,
) -> Result<(Book, Roles, Bags), NoMemory>
    requires sound { AreSound terms.now.params }
    requires few { length (thresholds_in terms.now.params) ≤ MOST_THRESHOLDS }
    requires rows { rows_fault accounts.rows accounts.sums.0 accounts.sums.1 accounts.sums.2
        ≡ None }
    requires roles { AreRolesBetween (thresholds_in terms.now.params) accounts.roles }
    ensures book { IfOk result (λ all. all.0
        ≡ ledger_of accounts.rows accounts.sums.0 accounts.sums.1 accounts.sums.2) }
    ensures roles { IfOk result (λ all. all.1 ≡ roles_in accounts.roles) }
    ensures bags { IfOk result (λ all. all.2 ≡ record {
      thresholds = thresholds_in terms.now.params;
      order = map bag_entry accounts.roles;
    }) }
{
    let Accounts { sums, rows, roles } = accounts;
    accounts_of(alloc, &terms.params, sums, rows, roles)
}

/// The eras that are kept, and the slashes that wait.
fn past_in(alloc: Global, terms: &Terms, past: Past) -> Result<EraBook, NoMemory>
    requires sound { AreSound terms.now.params }
    requires due { CanBeDue terms.now.due }
    requires numbered { 1 ≤ past.next_slash }
    requires eras { AreSoundEras (rules.era_of terms.now.params (terms.now.due - 1)) past.eras }
    requires few_slashes { length past.slashes ≤ MOST_SLASHES }
    requires slashes { AreSoundSlashes past.next_slash past.slashes }
    ensures { IfOk result (λ eras. eras ≡ record {
      current = rules.era_of terms.now.params (terms.now.due - 1);
      kept = eras_back
          (min (rules.era_of terms.now.params (terms.now.due - 1) + 1) (MOST_PAST_ERAS + 1))
          (rules.era_of terms.now.params (terms.now.due - 1)) past.eras;
      queue = past.slashes;
      next_slash = past.next_slash;
    }) }
{
    let Past {
        next_slash,
        eras,
        slashes,
    } = past;
    let last = last_era(&terms.params, terms.due);
    past_of(alloc, last, next_slash, eras, slashes)
}

/// The chain that has these parts.
fn assembled(
    terms: Terms,
    accounts: (Book, Roles, Bags),
    polls: (Option<Round>, Queue),
    next: u64,
    waiting: Option<Waiting>,
    eras: EraBook,
) -> Chain
    ensures { result ≡ record {
      params = terms.params;
      defer = terms.defer;
      book = accounts.0;
      roles = accounts.1;
      bags = accounts.2;
      round = polls.0;
      queue = polls.1;
      next = next;
      waiting = waiting;
      eras = eras;
      due = terms.due;
    } }
{
    let Terms { params, defer, due } = terms;
    let (book, roles, bags) = accounts;
    let (round, queue) = polls;
    Chain {
        params,
        defer,
        book,
        roles,
        bags,
        round,
        queue,
        next,
        waiting,
        eras,
        due,
    }
}

/// The chain of these parts.
fn remake(
    alloc: Global,
    terms: Terms,
    accounts: Accounts,
    polls: Polls,
    past: Past,
    waiting: Option<Waiting>,
) -> Result<Chain, NoMemory>
    requires sound { AreSound terms.params }
    requires due { CanBeDue terms.due }
    requires few { length (thresholds_in terms.params) ≤ MOST_THRESHOLDS }
    requires rows { rows_fault accounts.rows accounts.sums.0 accounts.sums.1 accounts.sums.2
        ≡ None }
    requires roles { AreRolesBetween (thresholds_in terms.params) accounts.roles }
    requires built { IsBuiltRound (rules.seats_of terms.params) polls.round }
    requires items { AreSoundItems (rules.places_of terms.params) polls.queue }
    requires numbered { 1 ≤ past.next_slash }
    requires eras { AreSoundEras (rules.era_of terms.params (terms.due - 1)) past.eras }
    requires few_slashes { length past.slashes ≤ MOST_SLASHES }
    requires slashes { AreSoundSlashes past.next_slash past.slashes }
    ensures { IfOk result (λ chain. chain ≡ record {
      params = terms.params;
      defer = terms.defer;
      book = ledger_of accounts.rows accounts.sums.0 accounts.sums.1 accounts.sums.2;
      roles = roles_in accounts.roles;
      bags = record {
        thresholds = thresholds_in terms.params;
        order = map bag_entry accounts.roles;
      };
      round = option_map (round_in terms.params terms.due) polls.round;
      queue = record {
        items = map (submission_in terms.params) polls.queue;
        places = rules.places_of terms.params;
      };
      next = polls.next;
      waiting = waiting;
      eras = record {
        current = rules.era_of terms.params (terms.due - 1);
        kept = eras_back (min (rules.era_of terms.params (terms.due - 1) + 1) (MOST_PAST_ERAS + 1))
            (rules.era_of terms.params (terms.due - 1)) past.eras;
        queue = past.slashes;
        next_slash = past.next_slash;
      };
      due = terms.due;
    }) }
{
    let next = polls.next;
    let accounts = accounts_in(alloc, &terms, accounts)?;
    let polls = polls_of(alloc, &terms, polls)?;
    let eras = past_in(alloc, &terms, past)?;
    Ok(assembled(terms, accounts, polls, next, waiting, eras))
}

/// The chain of a state in which all is sound, with its committee that waits.
fn remake_state(alloc: Global, state: State, waiting: Option<Waiting>) -> Result<Chain, NoMemory>
    requires terms { HasSoundTerms state }
    requires sound { IsSoundState state }
    requires slashes { HasSoundSlashes state }
    requires thresholds { length (thresholds_in (params_of state)) ≤ MOST_THRESHOLDS }
    requires few { length state.slashes ≤ MOST_SLASHES }
    requires elected { waiting ≡ option_map (committee_in (params_of state)) state.waiting }
    ensures { IfOk result (λ chain. chain ≡ chain_of state) }
{
    let (terms, accounts, polls, past) = parts_of(state);
    remake(alloc, terms, accounts, polls, past, waiting)
}

/// The chain that goes on from a state whose number and params are without a fault, or the first
/// fault that it has.
#[tactic(auto, using(crate::proofs::Kept::Remade::StateLemmas::firsts))]
fn go_on(alloc: Global, state: State) -> Result<Chain, StateFault>
    requires due { due_fault state.due ≡ None }
    requires sound { terms_fault (params_of state) (defer_of state) ≡ None }
    requires thresholds { length (thresholds_in (params_of state)) ≤ MOST_THRESHOLDS }
    requires few { length state.slashes ≤ MOST_SLASHES }
    ensures ok { IfOk result (λ chain. (state_fault state ≡ None) × (chain ≡ chain_of state)) }
    ensures refused { IfErr result (IsDueFault (state_fault state)) }
{
    check_causes(alloc, &state)?;
    no_cause_stands_in_sound_states(&state);
    let waiting = waiting_of(alloc, &state)?;
    check_slashes(alloc, &state)?;
    no_cause_stands_for_sound_slashes(&state);
    let chain = remake_state(alloc, state, waiting)?;
    Ok(chain)
}

/// The chain that goes on from the state, or the first fault that the state has.
#[tactic(auto, using(crate::proofs::Kept::Remade::StateLemmas::due_first, crate::proofs::Kept::Remade::StateLemmas::terms_first))]
pub fn chain_of(alloc: Global, state: State) -> Result<Chain, StateFault>
    requires { state_form.in_range state }
    ensures ok { IfOk result (λ chain. (state_fault state ≡ None) × (chain ≡ chain_of state)) }
    ensures refused { IfErr result (IsDueFault (state_fault state)) }
{
    let mut state = state;
    check_due(state.due)?;
    check_terms_of(&mut state)?;
    go_on(alloc, state)
}
