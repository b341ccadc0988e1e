//! Bundles: an election as one value, with the work that was done on it.
ghost use Rattle.std.specs.Prelude.{◌<◌, ◌∷◌};
ghost use Rattle.scale_wire.specs.Reading.{Reads, Writes};
ghost use Rattle.scale_wire.specs.Composite.{behind_tag};
ghost use Rattle.block_wire.specs.Bundles.{plain_form, works, work_choice, work_form};

use crate::limits::{MOST_EDGES, MOST_SOLUTION_BYTES, MOST_TARGETS, MOST_VOTERS, MOST_VOTES};
use crate::writing::{write_listed, write_packed};
use npos_base::{AccountId, Edge, List, NoMemory, Score};
use scale_wire::fault::ReadFault;
use scale_wire::{BytesUpTo, Cursor, Pen, UpTo, Wire, write_fields, write_list};
use std::alloc::Global;

/// A voter: its stake, in units, and the positions of the targets that it votes for.
#[derive(Debug, Drop)]
pub struct BundleVoter {
    pub account: AccountId,
    pub stake: u64,
    pub votes: List<u16>,
}

impl Wire for BundleVoter {
    ghost use Rattle.block_wire.specs.Bundles.{voter_form};
    ghost use Rattle.block_wire.specs.BundleLaws.{voter_laws};

    ghost form = { voter_form };

    ghost laws = { voter_laws };

    fn write(&self, pen: &mut Pen) -> Result<(), NoMemory> {
        self.account.write(pen)?;
        self.stake.write(pen)?;
        write_list(&self.votes, pen)
    }

    fn read(alloc: Global, cursor: &mut Cursor<'_>) -> Result<BundleVoter, ReadFault> {
        let (account, stake, votes) = <(AccountId, u64, UpTo<u16, MOST_VOTES>)>::read(
            alloc, cursor,
        )?;
        Ok(BundleVoter {
            account,
            stake,
            votes: votes.into_list(),
        })
    }
}

/// What was done on an election.
#[derive(Debug, Drop)]
pub enum Work {
    /// Nothing yet.
    Nothing,
    /// A solution, as the chain takes it, and the score that it claims.
    Packed {
        claim: Score,
        bytes: List<u8>,
    },
    /// A committee, as positions of targets, and its weights.
    Plain {
        committee: List<u16>,
        edges: List<Edge>,
    },
}

impl Wire for Work {
    ghost use Rattle.block_wire.specs.Bundles.{work_form};
    ghost use Rattle.block_wire.specs.BundleLaws.{work_laws};

    ghost form = { work_form };

    ghost laws = { work_laws };

    fn write(&self, pen: &mut Pen) -> Result<(), NoMemory> {
        write_work(self, pen)
    }

    fn read(alloc: Global, cursor: &mut Cursor<'_>) -> Result<Work, ReadFault> {
        let mut here = cursor.fork();
        let tag = here.take_tag(3)?;
        let work = read_fields(alloc, tag, &mut here)?;
        *cursor = here;
        Ok(work)
    }
}

// The tag and the fields.
fn write_work(work: &Work, pen: &mut Pen) -> Result<(), NoMemory>
    requires { work_form.in_range work.now }
    ensures { Writes (work_form.spelling work.now) pen.old result pen.new }
{
    match work {
        Work::Nothing => write_fields(0, &(), pen),
        Work::Packed { claim, bytes } => write_packed(1, claim, bytes, pen),
        Work::Plain { committee, edges } => write_plain(committee, edges, pen),
    }
}

// The fields of the work with this tag.
fn read_fields(alloc: Global, tag: u8, cursor: &mut Cursor<'_>) -> Result<Work, ReadFault>
    requires { tag < 3 }
    ensures { Reads (behind_tag works work_choice tag) cursor.old result cursor.new }
{
    match tag {
        0 => Ok(Work::Nothing),
        1 => {
            let (claim, bytes) = <(Score, BytesUpTo<MOST_SOLUTION_BYTES>)>::read(alloc, cursor)?;
            let bytes = bytes.into_list();
            Ok(Work::Packed { claim, bytes })
        }
        _ => {
            let (committee, edges) = <(Committee, Edges)>::read(alloc, cursor)?;
            Ok(Work::Plain {
                committee: committee.into_list(),
                edges: edges.into_list(),
            })
        }
    }
}

type Committee = UpTo<u16, MOST_TARGETS>;

type Edges = UpTo<Edge, MOST_EDGES>;

#[tactic(auto, using(scale_wire::proofs::ReadLemmas::writes_behind))]
fn write_plain(committee: &List<u16>, edges: &List<Edge>, pen: &mut Pen) -> Result<(), NoMemory>
    requires { plain_form.in_range (committee.now, edges.now) }
    ensures { Writes (2 ∷ plain_form.spelling (committee.now, edges.now)) pen.old result pen.new }
{
    write_listed(2, committee, pen)?;
    write_list(edges, pen)
}

/// An election: how many seats there are, the targets, the voters, and the work that was done on
/// it.
#[derive(Debug, Drop)]
pub struct Bundle {
    pub seats: u32,
    pub targets: List<AccountId>,
    pub voters: List<BundleVoter>,
    pub work: Work,
}

// The targets, the voters and the work.
type Election = (
    UpTo<AccountId, MOST_TARGETS>,
    UpTo<BundleVoter, MOST_VOTERS>,
    Work,
);

impl Wire for Bundle {
    ghost use Rattle.block_wire.specs.Bundles.{bundle_form};
    ghost use Rattle.block_wire.specs.BundleLaws.{bundle_laws};

    ghost form = { bundle_form };

    ghost laws = { bundle_laws };

    fn write(&self, pen: &mut Pen) -> Result<(), NoMemory> {
        self.seats.write(pen)?;
        write_list(&self.targets, pen)?;
        write_list(&self.voters, pen)?;
        self.work.write(pen)
    }

    fn read(alloc: Global, cursor: &mut Cursor<'_>) -> Result<Bundle, ReadFault> {
        let (seats, (targets, voters, work)) = <(u32, Election)>::read(alloc, cursor)?;
        Ok(Bundle {
            seats,
            targets: targets.into_list(),
            voters: voters.into_list(),
            work,
        })
    }
}
