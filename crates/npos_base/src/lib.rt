//! What every crate of npos stands on: accounts, scores and edges, lists, and the edge to the
//! outside.
#![tactic(auto)]

mod account;
mod figures;
mod front;
pub mod laws;
mod limits;
mod list;
mod memory;
mod miner;
mod no_memory;
mod outside;
mod plain;
mod room;
mod standard;

pub use account::AccountId;
pub use figures::{Edge, Score, part_of};
pub use front::remove_front;
pub use limits::{
    MOST_EDGES, MOST_ENDOWMENTS, MOST_NOMINATIONS, MOST_PAST_ERAS, MOST_QUEUED, MOST_ROUNDS,
    MOST_SEATS, MOST_SOLUTION_BYTES, MOST_TARGETS, MOST_THRESHOLDS, MOST_VALIDATORS, MOST_VOTERS,
    WHOLE_FRACTION,
};
pub use list::List;
pub use memory::{MemorySink, MemorySource};
pub use miner::Miner;
pub use no_memory::{NoMemory, Reason};
pub use outside::{Asked, Failed, PutFault, Sink, Source, Tried, put_all};
pub use plain::{PlainSink, PlainSource};
pub use room::Room;
pub use standard::{ReadSource, StdinSource, StdoutSink, Unwatched, Watch, Watched, WriteSink};
