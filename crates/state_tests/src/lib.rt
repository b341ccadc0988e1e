//! What no clause says of states: that they are read, written and gone on from where there is memory,
//! on bytes that were made apart, and each fault of a state once. They stand in a crate of their own,
//! so that the tests' proofs are made over the crates as they are proved, and prove none of them a
//! second time.
#![tactic(auto)]

#[cfg(test)]
mod fault_rows;
#[cfg(test)]
mod faults;
#[cfg(test)]
mod states;
