//! The params of a genesis: what they say, what holds where there are none, and the faults that a
//! genesis may have.
#![tactic(auto)]

mod checks;
mod fault;
mod rules;

pub use checks::check_terms;
pub use fault::GenesisFault;
pub use rules::{
    begun_era, begun_round, bonding_eras_of, copy_thresholds, deposit_of, era_of, era_reward_of,
    is_decision, is_signed, least_bond_of, places_of, reward_of, root_of, seats_of,
    solution_max_of,
};
