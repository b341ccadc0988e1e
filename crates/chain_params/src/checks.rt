//! Whether params are without a fault, and else the first one.
ghost use Rattle.std.specs.Prelude.{◌≡◌, ◌≤◌, length, None, Some, IfSome, OnOk, IfErr};
ghost use Rattle.npos_base.specs.declared.limits.TheConstants.{MOST_THRESHOLDS};
ghost use Rattle.chain_params.specs.Faults.{threshold_fault, numbers_fault, limits_fault, params_fault, defer_fault, terms_fault, phases_fit};

use crate::GenesisFault;
use block_wire::Params;
use npos_base::{MOST_PAST_ERAS, MOST_QUEUED, MOST_SEATS, MOST_SOLUTION_BYTES};

/// Whether each threshold is above the one before it, and the first above 0.
fn check_thresholds(thresholds: &[u64]) -> Result<(), GenesisFault>
    requires { length thresholds.now ≤ MOST_THRESHOLDS }
    ensures ok { OnOk result (threshold_fault 0 0 thresholds.now ≡ None) }
    ensures refused { IfErr result (λ fault. threshold_fault 0 0 thresholds.now ≡ Some fault) }
{
    let mut before = 0;
    for (place, threshold) in thresholds.iter().enumerate() {
        if *threshold <= before {
            return Err(GenesisFault::BadThreshold(place as u32));
        }
        before = *threshold;
    }
    Ok(())
}

/// Whether the snapshot and the signed blocks of a round lie within its era, with a block to spare.
fn phases_fit(params: &Params) -> bool
    ensures { result ≡ phases_fit params.now }
{
    1 <= params.offset
        && 1 <= params.signed
        && u64::from(params.offset) + u64::from(params.signed) < u64::from(params.era_blocks)
}

/// The seats, the phases, the time of bonding and the least bond.
fn check_numbers(params: &Params) -> Result<(), GenesisFault>
    ensures ok { OnOk result (numbers_fault params.now ≡ None) }
    ensures refused { IfErr result (λ fault. numbers_fault params.now ≡ Some fault) }
{
    if !(1..=MOST_SEATS).contains(&params.seats) {
        return Err(GenesisFault::BadSeats(params.seats));
    }
    if !phases_fit(params) {
        return Err(GenesisFault::BadPhases(params.era_blocks));
    }
    if !(1..=MOST_PAST_ERAS).contains(&params.bonding_eras) {
        return Err(GenesisFault::BadBonding(params.bonding_eras));
    }
    if params.least_bond == 0 {
        return Err(GenesisFault::BadMinimum);
    }
    Ok(())
}

/// What a round takes of submissions.
fn check_limits(params: &Params) -> Result<(), GenesisFault>
    ensures ok { OnOk result (limits_fault params.now ≡ None) }
    ensures refused { IfErr result (λ fault. limits_fault params.now ≡ Some fault) }
{
    if !(1..=MOST_QUEUED).contains(&params.queue) {
        return Err(GenesisFault::BadQueue(params.queue));
    }
    if !(1..=MOST_SOLUTION_BYTES).contains(&params.solution_max) {
        return Err(GenesisFault::BadSolutionMax(params.solution_max));
    }
    Ok(())
}

/// The seats, phases and times first, then the thresholds, then what a round takes of submissions.
#[tactic(auto, using(crate::proofs::FaultLemmas::fault_first, crate::proofs::FaultLemmas::fault_then, crate::proofs::FaultLemmas::no_fault))]
fn check_params(params: &Params) -> Result<(), GenesisFault>
    requires { length params.now.thresholds ≤ MOST_THRESHOLDS }
    ensures ok { OnOk result (params_fault params.now ≡ None) }
    ensures refused { IfErr result (λ fault. params_fault params.now ≡ Some fault) }
{
    check_numbers(params)?;
    check_thresholds(params.thresholds.as_slice())?;
    check_limits(params)
}

/// Whether a slash waits fewer eras than stake stays bonded.
fn check_defer(params: &Params, defer_eras: u32) -> Result<(), GenesisFault>
    ensures ok { OnOk result (defer_fault params.now defer_eras ≡ None) }
    ensures refused { IfErr result (λ fault. defer_fault params.now defer_eras ≡ Some fault) }
{
    if defer_eras >= params.bonding_eras {
        return Err(GenesisFault::BadDefer(defer_eras));
    }
    Ok(())
}

/// The params first, where there are some, and then the number of eras that a slash waits.
#[tactic(auto, using(crate::proofs::FaultLemmas::fault_first, crate::proofs::FaultLemmas::fault_then, crate::proofs::FaultLemmas::no_fault))]
pub fn check_terms(params: &Option<Params>, defer_eras: u32) -> Result<(), GenesisFault>
    requires { IfSome params.now (λ params. length params.thresholds ≤ MOST_THRESHOLDS) }
    ensures ok { OnOk result (terms_fault params.now defer_eras ≡ None) }
    ensures refused { IfErr result (λ fault. terms_fault params.now defer_eras ≡ Some fault) }
{
    let Some(params) = params else {
        return Ok(());
    };
    check_params(params)?;
    check_defer(params, defer_eras)
}
