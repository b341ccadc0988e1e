//! The chain: how it starts from a genesis, and the step of a block.
#![tactic(auto)]

mod act;
mod ahead;
mod ballot;
mod begin;
mod chain;
mod decision;
mod era;
pub mod laws;
mod lists;
mod offices;
mod remade_eras;
mod remade_lists;
mod remade_polls;
mod restoring;
mod round;
mod runtime;
mod saved_eras;
mod saved_lists;
mod saved_polls;
mod saved_roles;
mod saving;
mod signed;
mod state_fault;
mod step;
mod waiting;

pub use block_receipts::{Line, Refusal};
pub use chain::Chain;
pub use chain_params::GenesisFault;
pub use round::Round;
pub use runtime::{BlockFault, Receipt, Runtime};
pub use state_fault::{SaveFault, StateFault};
pub use waiting::Waiting;
