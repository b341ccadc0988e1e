//! The state of a chain as a checkpoint tells it, and the rules by which it is one.
#![tactic(auto)]

mod causes;
mod eras;
mod fault;
mod known;
pub mod laws;
mod queue;
mod roles;
mod round;
mod rows;
mod seen;
mod slashes;
mod state;
mod terms;
mod waiting;

pub use causes::{first_cause, slash_cause};
pub use fault::CauseFault;
pub use state::{EraRow, MemberRow, QueueRow, RoleKind, RoleRow, RoundRow, State, WaitingRow};
