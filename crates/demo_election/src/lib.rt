//! Elections that a seed generates: for trying miners, and for measuring.
#![tactic(auto)]

mod election;
mod generator;

pub use election::generated;

#[cfg(test)]
mod tests;
