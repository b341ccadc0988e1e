//! What is answered on the bytes of a bundle, and the report of a generated election.
#![tactic(auto)]

mod answers;
mod asked;
mod demo;
mod ending;
mod mining;
mod numbers;
mod rewriting;
mod tasks;
mod telling;

pub use answers::{Answer, finding_answer, told};
pub use asked::Rewriting;
pub use demo::demo_text;
pub use ending::Ending;
pub use numbers::{FaultNumbers, numbers_of, tell_member, tell_verdict, tell_verdict_behind};
pub use rewriting::rewrite_bytes;
pub use tasks::answer_bytes;
pub use telling::tell_fault;
