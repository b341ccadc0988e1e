//! A bundle that is read part by part. Each voter is added to the election as it is read, and let
//! go: a list of them all would have far more memory than the election has, and memory that was not
//! touched before is what costs.
ghost use Rattle.scale_wire.specs.Composite.{items, list};
ghost use Rattle.block_wire.specs.Bundles.{voter_form, election_form, bundle_form};
ghost use Rattle.election_work.specs.Growing.{grown, parts_behind_seats, parts_of, ReadsTo, KeepsParts};

use crate::growing::Growing;
use block_wire::{BundleVoter, Work};
use scale_wire::fault::{ReadFault, Why, WireFault};
use scale_wire::{Cursor, Wire, read_list};
use std::alloc::Global;

// The lengths of a bundle's lists at most.
const MOST_TARGETS: u32 = npos_base::MOST_TARGETS as u32;

const MOST_VOTERS: u32 = npos_base::MOST_VOTERS as u32;

// A voter is an account and a number, which has a byte at least, and the count of its votes, which
// has one too.
const LEAST_VOTER_BYTES: usize = 34;

/// What is kept of a bundle: its seats, the election of its targets and voters, and its work.
#[derive(Drop)]
pub struct Parts {
    pub seats: u32,
    pub growing: Growing,
    pub work: Work,
}

/// Reads this many voters. Each is added to the election and let go.
#[tactic(auto, using(crate::proofs::ReadingLemmas::none_read, crate::proofs::ReadingLemmas::one_more, crate::proofs::ReadingLemmas::all_read))]
fn read_voters(
    alloc: Global,
    growing: Growing,
    count: u32,
    cursor: &mut Cursor<'_>,
) -> Result<Growing, ReadFault>
    ensures { ReadsTo (items voter_form count) (grown growing) cursor.old result cursor.new }
{
    let mut here = cursor.fork();
    let mut so_far = growing;
    for _ in 0..count {
        let voter = BundleVoter::read(alloc, &mut here)?;
        so_far.add(&voter)?;
    }
    *cursor = here;
    Ok(so_far)
}

/// Reads the list of the voters. Room is made for no more of them than the bytes can have.
#[tactic(auto, using(crate::proofs::ReadingLemmas::list_read))]
fn read_voter_list(
    alloc: Global,
    growing: Growing,
    cursor: &mut Cursor<'_>,
) -> Result<Growing, ReadFault>
    ensures { ReadsTo (list voter_form MOST_VOTERS) (grown growing) cursor.old result cursor.new }
{
    let mut roomy = growing;
    let mut here = cursor.fork();
    let count = here.take_length(MOST_VOTERS)?;
    let room = (here.rest().len() / LEAST_VOTER_BYTES).min(count as usize);
    roomy.reserve(room)?;
    let grown = read_voters(alloc, roomy, count, &mut here)?;
    *cursor = here;
    Ok(grown)
}

/// Reads what stands behind the seats: the targets, the voters and the work.
#[tactic(auto, using(crate::proofs::ReadingLemmas::rest_read, crate::proofs::ReadingLemmas::targets_err))]
fn read_behind_seats(alloc: Global, cursor: &mut Cursor<'_>) -> Result<(Growing, Work), ReadFault>
    ensures { ReadsTo election_form parts_behind_seats cursor.old result cursor.new }
{
    let mut here = cursor.fork();
    let targets = read_list(alloc, &mut here, MOST_TARGETS)?;
    let begun = Growing::new(alloc, targets.as_slice())?;
    drop(targets);
    let growing = read_voter_list(alloc, begun, &mut here)?;
    let work = Work::read(alloc, &mut here)?;
    *cursor = here;
    Ok((growing, work))
}

/// Reads a bundle.
#[tactic(auto, using(crate::proofs::ReadingLemmas::seats_err, crate::proofs::ReadingLemmas::rest_err))]
fn read_bundle(alloc: Global, cursor: &mut Cursor<'_>) -> Result<Parts, ReadFault>
    ensures { ReadsTo bundle_form parts_of cursor.old result cursor.new }
{
    let mut here = cursor.fork();
    let seats = here.take_compact_u32()?;
    let (growing, work) = read_behind_seats(alloc, &mut here)?;
    *cursor = here;
    Ok(Parts {
        seats,
        growing,
        work,
    })
}

/// Reads a bundle that must be the whole input. The first byte behind it is refused.
pub fn read_parts(alloc: Global, bytes: &[u8]) -> Result<Parts, ReadFault>
    ensures { KeepsParts bytes.now result }
{
    let mut cursor = Cursor::new(bytes, 0);
    let parts = read_bundle(alloc, &mut cursor)?;
    if cursor.rest().is_empty() {
        Ok(parts)
    } else {
        Err(ReadFault::Wire(WireFault {
            at: cursor.at(),
            why: Why::Trailing,
        }))
    }
}
