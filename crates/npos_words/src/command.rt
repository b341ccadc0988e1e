//! What a call may ask for.

use npos_base::Miner;

/// What the program is to do.
#[derive(Clone, Copy, Debug, PartialEq, Eq)]
pub enum Command {
    /// To replay a stream.
    Replay,
    /// To judge the work of a bundle.
    Check,
    /// To make a committee of a bundle's election. PHRAGMMS has 1 to 100 balancing rounds.
    Mine(Miner),
    /// To read a bundle in JSON and to write it in SCALE.
    Pack,
    /// To read a bundle in SCALE and to write it in JSON.
    Show,
    /// To make up an election and to report on it.
    Demo {
        /// What the election is drawn from.
        seed: u64,
        /// How many voters it has, from 1 to 16,384.
        voters: u32,
        /// How many seats it has, from 1 to 512.
        seats: u32,
    },
    /// To replay a stream and to write the state behind its last block alone.
    Checkpoint,
    /// To go on from a state that a checkpoint wrote.
    Resume,
    /// To go through what is asked of a stake pool.
    Pools,
}
