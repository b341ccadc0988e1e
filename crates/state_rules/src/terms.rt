//! What the params say of a state.
ghost use Rattle.std.specs.Prelude.{◌≡◌, ◌-◌, ◌^◌, ◌≤◌};
ghost use Rattle.chain_params.specs.Rules as chain;
ghost use Rattle.state_rules.specs.Terms.{params_of, defer_of, HasSoundTerms, era_before, is_open, is_decided, is_next_number};

use crate::State;
use block_wire::Params;

/// The era of the block before the next one.
pub(crate) fn era_before(state: &State) -> u32
    requires { HasSoundTerms state.now }
    ensures { result ≡ era_before state.now }
{
    match &state.params {
        None => 0,
        Some((params, _)) => { (state.due.saturating_sub(2) / u64::from(params.era_blocks)) as u32 }
    }
}

/// Where the block before the one of this number stands in its era.
fn place_before(params: &Params, due: u64) -> u64
    requires { 1 ≤ params.now.era_blocks }
    ensures { result ≡ chain.place_of params.now (due - 1) }
{
    due.saturating_sub(2) % u64::from(params.era_blocks)
}

/// Whether submissions are taken in the block before the next one.
pub(crate) fn is_open(state: &State) -> bool
    requires { HasSoundTerms state.now }
    ensures { result ≡ is_open state.now }
{
    let Some((params, _)) = &state.params else {
        return false;
    };
    let place = place_before(params, state.due);
    let first = u64::from(params.offset);
    state.due > 1 && first <= place && place < first + u64::from(params.signed)
}

/// Whether the block before the next one is that of a decision, or a later one of its era.
pub(crate) fn is_decided(state: &State) -> bool
    requires { HasSoundTerms state.now }
    ensures { result ≡ is_decided state.now }
{
    let Some((params, _)) = &state.params else {
        return false;
    };
    let place = place_before(params, state.due);
    state.due > 1 && u64::from(params.offset) + u64::from(params.signed) <= place
}

/// Whether it can be the next number of a count that rises by no more than 64 a block.
pub(crate) fn is_next_number(due: u64, next: u64) -> bool
    requires counted { 1 ≤ due }
    requires numbered { due ≤ 2 ^ 32 }
    ensures { result ≡ is_next_number due next }
{
    1 <= next && next <= 64 * (due - 1) + 1
}

/// The number of eras that stake stays bonded after an unbond.
pub(crate) fn bonding_eras(state: &State) -> u32
    ensures { result ≡ chain.bonding_eras_of (params_of state.now) }
{
    match &state.params {
        None => 28,
        Some((params, _)) => params.bonding_eras,
    }
}

/// The thresholds between the bags.
pub(crate) fn thresholds(state: &State) -> &[u64]
    ensures { result.now ≡ chain.thresholds_in (params_of state.now) }
{
    match &state.params {
        None => &[],
        Some((params, _)) => params.thresholds.as_slice(),
    }
}

/// How many are elected in a round.
pub(crate) fn seats(state: &State) -> u32
    ensures { result ≡ chain.seats_of (params_of state.now) }
{
    match &state.params {
        None => 1,
        Some((params, _)) => params.seats,
    }
}

/// How many submissions can wait.
pub(crate) fn places(state: &State) -> u32
    ensures { result ≡ chain.places_of (params_of state.now) }
{
    match &state.params {
        None => 1,
        Some((params, _)) => params.queue,
    }
}

/// The most bytes of a solution.
pub(crate) fn solution_max(state: &State) -> u32
    ensures { result ≡ chain.solution_max_of (params_of state.now) }
{
    match &state.params {
        None => 1,
        Some((params, _)) => params.solution_max,
    }
}

/// What is held for a submission.
pub(crate) fn deposit(state: &State) -> u64
    ensures { result ≡ chain.deposit_of (params_of state.now) }
{
    match &state.params {
        None => 0,
        Some((params, _)) => params.deposit,
    }
}

/// How many eras a slash waits.
pub(crate) fn defer_eras(state: &State) -> u32
    ensures { result ≡ defer_of state.now }
{
    match &state.params {
        None => 0,
        Some((_, defer_eras)) => *defer_eras,
    }
}
