//! The election that the bytes of a bundle spell.
ghost use Rattle.std.specs.Prelude.{IfOk};
ghost use Rattle.election_work.specs.Bundles.{election_in, IsReading};
ghost use Rattle.election_work.specs.Growing.{IsReadingOf};

use crate::bundle_parts::{Parts, read_parts};
use block_wire::Work;
use election_snapshot::{Snapshot, SnapshotFault};
use npos_base::NoMemory;
use scale_wire::fault::{ReadFault, WireFault};
use std::alloc::Global;

/// The most bytes of a bundle.
pub const MOST_BUNDLE: usize = 16_777_216;

/// An election, with the work that its bundle has on it.
#[derive(Drop)]
pub struct Election {
    pub snapshot: Snapshot,
    pub work: Work,
}

/// Why bytes spell no election.
#[derive(Clone, Copy, Debug)]
pub enum NoElection {
    /// There are more bytes than a bundle has.
    Long,
    /// The bytes spell no bundle.
    Refused(WireFault),
    /// The election of the bundle has this fault.
    Unelectable(SnapshotFault),
}

/// What was read: an election, or why there is none.
#[derive(Drop)]
pub enum Reading {
    Stands(Election),
    Refused(NoElection),
}

/// The election of a bundle, of which these parts are kept. It takes no memory.
fn reading_of(parts: Parts) -> Reading
    ensures { IsReadingOf parts result }
{
    let Parts {
        seats,
        growing,
        work,
    } = parts;
    match growing.finish(seats) {
        Ok(snapshot) => Reading::Stands(Election { snapshot, work }),
        Err(fault) => Reading::Refused(NoElection::Unelectable(fault)),
    }
}

/// The election that these bytes spell, or why they spell none: the first fault.
pub fn read_election(alloc: Global, bytes: &[u8]) -> Result<Reading, NoMemory>
    ensures { IfOk result (IsReading (election_in bytes.now)) }
{
    if bytes.len() > MOST_BUNDLE {
        return Ok(Reading::Refused(NoElection::Long));
    }
    match read_parts(alloc, bytes) {
        Ok(parts) => Ok(reading_of(parts)),
        Err(ReadFault::Wire(fault)) => Ok(Reading::Refused(NoElection::Refused(fault))),
        Err(ReadFault::NoMemory) => Err(NoMemory),
    }
}
