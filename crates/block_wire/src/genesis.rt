//! How a chain begins: the endowments, and the parameters of its elections.
ghost use Rattle.std.specs.Prelude.{◌<◌, ◌∷◌};
ghost use Rattle.scale_wire.specs.Reading.{Reads, Writes};
ghost use Rattle.scale_wire.specs.Composite.{behind_tag};
ghost use Rattle.block_wire.specs.Genesis.{full_form, deferred_form, geneses, genesis_choice, genesis_form};
ghost use Rattle.block_wire.specs.declared.limits.TheConstants.{GENESES};

use crate::limits::{GENESES, MOST_ENDOWMENTS, MOST_THRESHOLDS};
use crate::writing::write_listed;
use npos_base::{AccountId, List, NoMemory};
use scale_wire::fault::ReadFault;
use scale_wire::{Cursor, Pen, UpTo, Wire, write_both, write_list};
use std::alloc::Global;

/// An account and the units that it has at the beginning, free.
#[derive(Clone, Copy, Debug, PartialEq, Eq)]
pub struct Endowment {
    pub who: AccountId,
    pub value: u64,
}

impl Wire for Endowment {
    ghost use Rattle.block_wire.specs.Genesis.{endowment_form};
    ghost use Rattle.block_wire.specs.GenesisLaws.{endowment_laws};

    ghost form = { endowment_form };

    ghost laws = { endowment_laws };

    fn write(&self, pen: &mut Pen) -> Result<(), NoMemory> {
        (self.who, self.value).write(pen)
    }

    fn read(alloc: Global, cursor: &mut Cursor<'_>) -> Result<Endowment, ReadFault> {
        let (who, value) = <(AccountId, u64)>::read(alloc, cursor)?;
        Ok(Endowment { who, value })
    }
}

/// The parameters of the elections, as the staking and election pallets of Substrate take them at
/// genesis.
#[derive(Debug, Drop)]
pub struct Params {
    /// The account that gives points and reports offences.
    pub root: AccountId,
    /// How many validators a committee has.
    pub seats: u32,
    /// How many blocks an era has.
    pub era_blocks: u32,
    /// The block of an era, counted from 0, at which the snapshot is taken.
    pub offset: u32,
    /// For how many blocks from the snapshot on submissions are taken.
    pub signed: u32,
    /// How many eras pass before units that were let go are free.
    pub bonding_eras: u32,
    /// The least units that can be bonded.
    pub least_bond: u64,
    /// The upper ends of the bags of voters, in units, strictly rising.
    pub thresholds: List<u64>,
    /// How many submissions of a round are kept at most.
    pub queue: u32,
    /// How many bytes a submitted solution has at most.
    pub solution_max: u32,
    /// The units that a submission holds.
    pub deposit: u64,
    /// The units that the account whose submission is seated is paid.
    pub reward: u64,
    /// The units that the validators of an era are paid together.
    pub era_reward: u64,
}

// The root and the seats, the phases of an era, and bonding.
type Head = ((AccountId, u32), (u32, u32, u32), (u32, u64));

// Submissions, and what is paid.
type Tail = ((u32, u32, u64), (u64, u64));

impl Wire for Params {
    ghost use Rattle.block_wire.specs.Genesis.{params_form};
    ghost use Rattle.block_wire.specs.GenesisLaws.{params_laws};

    ghost form = { params_form };

    ghost laws = { params_laws };

    fn write(&self, pen: &mut Pen) -> Result<(), NoMemory> {
        let phases = (self.era_blocks, self.offset, self.signed);
        let bonding = (self.bonding_eras, self.least_bond);
        ((self.root, self.seats), phases, bonding).write(pen)?;
        write_list(&self.thresholds, pen)?;
        let submissions = (self.queue, self.solution_max, self.deposit);
        (submissions, (self.reward, self.era_reward)).write(pen)
    }

    fn read(alloc: Global, cursor: &mut Cursor<'_>) -> Result<Params, ReadFault> {
        let (head, thresholds, tail) = <(Head, UpTo<u64, MOST_THRESHOLDS>, Tail)>::read(
            alloc, cursor,
        )?;
        let ((root, seats), (era_blocks, offset, signed), (bonding_eras, least_bond)) = head;
        let ((queue, solution_max, deposit), (reward, era_reward)) = tail;
        Ok(Params {
            root,
            seats,
            era_blocks,
            offset,
            signed,
            bonding_eras,
            least_bond,
            thresholds: thresholds.into_list(),
            queue,
            solution_max,
            deposit,
            reward,
            era_reward,
        })
    }
}

/// The first value of a stream.
#[derive(Debug, Drop)]
pub enum Genesis {
    /// Endowments alone: the chain has no elections.
    Plain {
        endowments: List<Endowment>,
    },
    /// Endowments, and the parameters of the elections.
    Full {
        endowments: List<Endowment>,
        params: Params,
    },
    /// The same, and the number of eras that a slash waits.
    Deferred {
        endowments: List<Endowment>,
        params: Params,
        defer_eras: u32,
    },
}

type Endowments = UpTo<Endowment, MOST_ENDOWMENTS>;

impl Wire for Genesis {
    ghost use Rattle.block_wire.specs.Genesis.{genesis_form};
    ghost use Rattle.block_wire.specs.GenesisLaws.{genesis_laws};

    ghost form = { genesis_form };

    ghost laws = { genesis_laws };

    fn write(&self, pen: &mut Pen) -> Result<(), NoMemory> {
        write_genesis(self, pen)
    }

    fn read(alloc: Global, cursor: &mut Cursor<'_>) -> Result<Genesis, ReadFault> {
        let mut here = cursor.fork();
        let tag = here.take_tag(GENESES)?;
        let genesis = read_fields(alloc, tag, &mut here)?;
        *cursor = here;
        Ok(genesis)
    }
}

// The tag and the fields.
fn write_genesis(genesis: &Genesis, pen: &mut Pen) -> Result<(), NoMemory>
    requires { genesis_form.in_range genesis.now }
    ensures { Writes (genesis_form.spelling genesis.now) pen.old result pen.new }
{
    match genesis {
        Genesis::Plain { endowments } => write_listed(0, endowments, pen),
        Genesis::Full { endowments, params } => write_full(endowments, params, pen),
        Genesis::Deferred {
            endowments,
            params,
            defer_eras,
        } => write_deferred(endowments, params, defer_eras, pen),
    }
}

// The fields of the genesis with this tag.
fn read_fields(alloc: Global, tag: u8, cursor: &mut Cursor<'_>) -> Result<Genesis, ReadFault>
    requires { tag < GENESES }
    ensures { Reads (behind_tag geneses genesis_choice tag) cursor.old result cursor.new }
{
    match tag {
        0 => read_plain(alloc, cursor),
        1 => read_full(alloc, cursor),
        _ => read_deferred(alloc, cursor),
    }
}

fn read_plain(alloc: Global, cursor: &mut Cursor<'_>) -> Result<Genesis, ReadFault>
    ensures { Reads (behind_tag geneses genesis_choice 0) cursor.old result cursor.new }
{
    let endowments = Endowments::read(alloc, cursor)?.into_list();
    Ok(Genesis::Plain { endowments })
}

fn read_full(alloc: Global, cursor: &mut Cursor<'_>) -> Result<Genesis, ReadFault>
    ensures { Reads (behind_tag geneses genesis_choice 1) cursor.old result cursor.new }
{
    let (endowments, params) = <(Endowments, Params)>::read(alloc, cursor)?;
    let endowments = endowments.into_list();
    Ok(Genesis::Full { endowments, params })
}

fn read_deferred(alloc: Global, cursor: &mut Cursor<'_>) -> Result<Genesis, ReadFault>
    ensures { Reads (behind_tag geneses genesis_choice 2) cursor.old result cursor.new }
{
    let (endowments, params, defer_eras) = <(Endowments, Params, u32)>::read(alloc, cursor)?;
    let endowments = endowments.into_list();
    Ok(Genesis::Deferred {
        endowments,
        params,
        defer_eras,
    })
}

#[tactic(auto, using(scale_wire::proofs::ReadLemmas::writes_behind))]
fn write_full(endowments: &List<Endowment>, params: &Params, pen: &mut Pen) -> Result<(), NoMemory>
    requires { full_form.in_range (endowments.now, params.now) }
    ensures { Writes (1 ∷ full_form.spelling (endowments.now, params.now)) pen.old result pen.new }
{
    write_listed(1, endowments, pen)?;
    params.write(pen)
}

#[tactic(auto, using(scale_wire::proofs::ReadLemmas::writes_behind))]
fn write_deferred(
    endowments: &List<Endowment>,
    params: &Params,
    defer_eras: &u32,
    pen: &mut Pen,
) -> Result<(), NoMemory>
    requires { deferred_form.in_range (endowments.now, params.now, defer_eras.now) }
    ensures { Writes (2 ∷ deferred_form.spelling (endowments.now, params.now, defer_eras.now))
        pen.old result pen.new }
{
    write_listed(2, endowments, pen)?;
    write_both(params, defer_eras, pen)
}
