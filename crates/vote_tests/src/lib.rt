//! What no clause says of the rooms of elections, of their snapshots, solutions and bundles: that they
//! do their work where there is memory. Each module walks through the public calls of one room, on
//! rows that were worked apart from it. They stand in a crate of their own, as those of `room_tests`
//! do, and apart from these, since the tests of a crate are proved in one go.
#![tactic(auto)]

#[cfg(test)]
mod balances;
#[cfg(test)]
mod divisions;
#[cfg(test)]
mod fills;
#[cfg(test)]
mod json;
#[cfg(test)]
mod loads;
#[cfg(test)]
mod packed;
#[cfg(test)]
mod snapshots;
#[cfg(test)]
mod solutions;
#[cfg(test)]
mod verdicts;
#[cfg(test)]
mod weights;
#[cfg(test)]
mod worked;
