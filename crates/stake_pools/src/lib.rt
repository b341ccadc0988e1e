//! Stake pools: members share one bonded account, after the idea of Substrate's nomination pools.
//! What a member has in the pool is counted in points, and no member is diluted by another who
//! joins or leaves.
#![tactic(auto)]

mod chain;
mod earning;
mod fault;
mod input;
pub mod laws;
mod leaves;
mod line;
mod member;
mod members;
mod moves;
mod pool;
mod refusal;
mod root;
mod sharing;
mod start;
mod step;
mod stop;

use chain::PoolChain;
pub use fault::PoolFault;
pub use input::{PoolGenesis, PoolItem, PoolKind};
pub use line::{PoolLine, PoolLines};
pub use pool::{Pool, PoolBlock, PoolReceipt};
use refusal::PoolRefusal;
