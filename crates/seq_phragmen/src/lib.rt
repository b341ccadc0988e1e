//! Sequential Phragmén: a committee whose members load their nominators as evenly as they can.
#![tactic(auto)]

mod mining;
mod picking;
mod race;
mod rise;
mod splitting;

pub use mining::mine_seq;

#[cfg(test)]
mod tests;
