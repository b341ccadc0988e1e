//! Who takes part in elections and how: the roles of accounts, and the bags by which nominators and
//! validators are listed, after Substrate's staking and bags-list pallets.
#![tactic(auto)]

mod bags;
mod electorate;
pub mod laws;
mod marks;
mod nodes;
mod ranking;
mod ranks;
mod refusal;
mod rings;
mod roles;
mod row;
mod standing;
mod standings;
mod targets;
mod walk;

pub use bags::Bags;
pub use electorate::Electorate;
pub use refusal::ListRefusal;
pub use roles::Roles;
pub use standing::{Role, Standing};
pub use targets::Targets;
pub use walk::Walk;
