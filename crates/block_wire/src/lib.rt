//! What a stream of blocks is made of: the genesis, the blocks and their calls, each as a type with
//! its one spelling in SCALE.
#![tactic(auto)]

mod begun;
mod begun_genesis;
mod block;
mod bundle;
mod call;
mod genesis;
pub mod laws;
mod limits;
mod stream;
mod writing;

pub use block::Block;
pub use bundle::{Bundle, BundleVoter, Work};
pub use call::{Call, CallKind};
pub use genesis::{Endowment, Genesis, Params};
pub use limits::{MOST_NAMED, MOST_VOTES};
pub use stream::{Next, StreamReader};
