//! What the params of the genesis say, and what holds without params.
ghost use Rattle.std.specs.Prelude.{◌≡◌, ◌<◌, ◌≤◌, ◌^◌, IfOk};
ghost use Rattle.chain_params.specs.Rules as rules;
ghost use Rattle.chain_params.specs.Rules.{seats_of, begun_round, thresholds_in};
ghost use Rattle.chain_params.specs.Faults.{AreSound};
ghost use Rattle.npos_base.specs.declared.limits.TheConstants.{MOST_QUEUED};

use block_wire::Params;
use npos_base::{AccountId, List, NoMemory};
use std::alloc::Global;

/// Who gives points and reports offences. A plain genesis names nobody, and then it is account 0.
pub fn root_of(params: &Option<Params>) -> AccountId
    ensures { result ≡ rules.root_of params.now }
{
    params
        .as_ref()
        .map_or(AccountId { hi: 0, lo: 0 }, |params| params.root)
}

/// The number of eras that stake stays bonded after an unbond: Substrate's bonding duration.
pub fn bonding_eras_of(params: &Option<Params>) -> u32
    ensures { result ≡ rules.bonding_eras_of params.now }
{
    params.as_ref().map_or(28, |params| params.bonding_eras)
}

/// The least active stake of a bond and of an account with a role.
pub fn least_bond_of(params: &Option<Params>) -> u64
    ensures { result ≡ rules.least_bond_of params.now }
{
    params.as_ref().map_or(1, |params| params.least_bond)
}

/// The era of the block with this number.
pub fn era_of(params: &Option<Params>, number: u64) -> u32
    requires sound { AreSound params.now }
    requires counted { 1 ≤ number }
    requires numbered { number ≤ 2 ^ 32 }
    ensures value { result ≡ rules.era_of params.now number }
    ensures small { result < 2 ^ 31 }
{
    match params {
        None => 0,
        Some(params) => ((number - 1) / u64::from(params.era_blocks)) as u32,
    }
}

/// The era that begins with the block of this number, if one does.
pub fn begun_era(params: &Option<Params>, number: u64) -> Option<u32>
    requires sound { AreSound params.now }
    requires numbered { number ≤ 2 ^ 32 }
    requires counted { 1 ≤ number }
    ensures { result ≡ rules.begun_era params.now number }
{
    let Some(blocks) = params.as_ref().map(|params| u64::from(params.era_blocks)) else {
        return None;
    };
    let era = era_of(params, number);
    if (number - 1) % blocks == 0 && 0 < era {
        Some(era)
    } else {
        None
    }
}

/// How many are elected in a round.
pub fn seats_of(params: &Option<Params>) -> u32
    ensures { result ≡ seats_of params.now }
{
    params.as_ref().map_or(1, |params| params.seats)
}

/// The round whose snapshot is taken in the block of this number, if one is.
pub fn begun_round(params: &Option<Params>, number: u64) -> Option<u32>
    requires sound { AreSound params.now }
    requires numbered { number ≤ 2 ^ 32 }
    requires counted { 1 ≤ number }
    ensures { result ≡ begun_round params.now number }
{
    let Some((blocks, offset)) = params.as_ref().map(|params| (
        u64::from(params.era_blocks),
        u64::from(params.offset),
    ))
    else {
        return None;
    };
    if (number - 1) % blocks == offset {
        Some(era_of(params, number) + 1)
    } else {
        None
    }
}

/// A copy of the thresholds of the params; none where there are no params.
pub fn copy_thresholds(alloc: Global, params: &Option<Params>) -> Result<List<u64>, NoMemory>
    ensures { IfOk result (λ thresholds. thresholds ≡ thresholds_in params.now) }
{
    match params {
        None => Ok(List::new(alloc)),
        Some(params) => {
            let thresholds = Vec::from_slice(alloc, params.thresholds.as_slice())?;
            Ok(List::from_vec(thresholds))
        }
    }
}

/// What is held for a submission.
pub fn deposit_of(params: &Option<Params>) -> u64
    ensures { result ≡ rules.deposit_of params.now }
{
    params.as_ref().map_or(0, |params| params.deposit)
}

/// What the winner of a round gets.
pub fn reward_of(params: &Option<Params>) -> u64
    ensures { result ≡ rules.reward_of params.now }
{
    params.as_ref().map_or(0, |params| params.reward)
}

/// What the validators of an era share by their points.
pub fn era_reward_of(params: &Option<Params>) -> u64
    ensures { result ≡ rules.era_reward_of params.now }
{
    params.as_ref().map_or(0, |params| params.era_reward)
}

/// The most bytes of a solution.
pub fn solution_max_of(params: &Option<Params>) -> u32
    ensures { result ≡ rules.solution_max_of params.now }
{
    params.as_ref().map_or(1, |params| params.solution_max)
}

/// How many submissions can wait.
pub fn places_of(params: &Option<Params>) -> u32
    requires { AreSound params.now }
    ensures value { result ≡ rules.places_of params.now }
    ensures some { 1 ≤ result }
    ensures few { result ≤ MOST_QUEUED }
{
    params.as_ref().map_or(1, |params| params.queue)
}

/// Whether submissions are taken in the block of this number.
pub fn is_signed(params: &Option<Params>, number: u64) -> bool
    requires sound { AreSound params.now }
    requires counted { 1 ≤ number }
    ensures { result ≡ rules.is_signed params.now number }
{
    let Some(params) = params else {
        return false;
    };
    let place = (number - 1) % u64::from(params.era_blocks);
    u64::from(params.offset) <= place && place < u64::from(params.offset) + u64::from(params.signed)
}

/// Whether a round is decided in the block of this number.
pub fn is_decision(params: &Option<Params>, number: u64) -> bool
    requires sound { AreSound params.now }
    requires counted { 1 ≤ number }
    ensures { result ≡ rules.is_decision params.now number }
{
    let Some(params) = params else {
        return false;
    };
    let place = (number - 1) % u64::from(params.era_blocks);
    place == u64::from(params.offset) + u64::from(params.signed)
}
