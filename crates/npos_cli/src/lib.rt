//! The top call of npos: words and bytes in, receipts and a status out.
#![tactic(auto)]

mod going;
mod job;
pub mod laws;
mod output;
mod pool_lines;
mod pooling;
pub mod promises;
mod replaying;
mod resuming;
mod rewriting;
mod telling;
mod top;

pub use bundle_reports::Rewriting;
pub use election_work::Task;
pub use job::Job;
pub use npos_base::Miner;
pub use run_edges::{PIECE, Status};
pub use top::run;
