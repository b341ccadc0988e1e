//! The check of solutions from whoever made them: a verdict that is exact, and committees that
//! passed it.
#![tactic(auto)]

mod checker;
mod elected;
mod entries;
mod fault;
pub mod laws;
mod packed;
mod plain;
mod prescores;
mod tables;
mod verdict;

pub use checker::Checker;
pub use elected::Elected;
pub use verdict::Verdict;
