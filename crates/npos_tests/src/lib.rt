//! What no clause says of the runtime and of the program: that they do their work where there is
//! memory, on worked streams, bundles and words, with texts that were made apart from them. They
//! stand in a crate of their own, so that the tests' proofs are made over the two crates as they
//! are proved, and prove neither a second time.
#![tactic(auto)]

#[cfg(test)]
mod deferred;
#[cfg(test)]
mod elections;
#[cfg(test)]
mod ordinary;
#[cfg(test)]
mod outside;
#[cfg(test)]
mod pools;
#[cfg(test)]
mod refusals;
#[cfg(test)]
mod replays;
#[cfg(test)]
mod resumes;
#[cfg(test)]
mod rewriting;
#[cfg(test)]
mod runtimes;
#[cfg(test)]
mod stream_calls;
#[cfg(test)]
mod stream_rows;
#[cfg(test)]
mod streams;
#[cfg(test)]
mod worked;
