//! A genesis that is read from bytes which come by pieces. What was whole is kept, so that the cost
//! of a genesis does not depend on how it is cut.
ghost use Rattle.std.specs.Prelude.{◌≡◌, ◌+◌, ◌^◌, ◌<◌, ◌≤◌, length, drop, Err, MatchResult, IfSome};
ghost use Rattle.scale_wire.specs.Form.{IsBytes};
ghost use Rattle.scale_wire.specs.Reading.{Reads};
ghost use Rattle.block_wire.specs.Genesis.{genesis_form};
ghost use Rattle.block_wire.specs.declared.genesis.Genesis.TheVariants.{Plain, Full, Deferred};
ghost use Rattle.block_wire.specs.declared.begun_genesis.GenesisStep.TheVariants.{Whole};
ghost use Rattle.block_wire.specs.BegunGenesis.{ReadsGenesisHead, OpensGenesis, IsBegunGenesis, ReadsAt, GenesisSteps};

use crate::begun::read_on;
use crate::limits::{GENESES, MOST_ENDOWMENTS};
use crate::{Endowment, Genesis, Params};
use npos_base::List;
use scale_wire::fault::{ReadFault, WireFault};
use scale_wire::{Cursor, Layout, Own, Wire};
use std::alloc::Global;

/// A genesis that was not whole yet: its tag, the count of its endowments, those that were whole,
/// and the bytes that all this has.
#[derive(Drop)]
pub struct BegunGenesis {
    pub tag: u8,
    pub count: u32,
    pub endowments: Vec<Endowment>,
    pub size: usize,
}

/// What going on with a genesis comes to.
#[derive(Drop)]
pub enum GenesisStep {
    /// The genesis, and how many bytes it has.
    Whole(Genesis, usize),
    /// The bytes are refused or memory ran out, and this much of a genesis is begun.
    Stopped(Option<BegunGenesis>, ReadFault),
}

/// For how many endowments there is room from the beginning, at most.
const FIRST_ENDOWMENTS: u32 = 65_536;

/// The tag of the genesis that stands here and the count of its endowments.
#[tactic(auto, using(crate::proofs::GenesisLemmas::tag_fault, crate::proofs::GenesisLemmas::count_fault))]
fn read_head(cursor: &mut Cursor<'_>) -> Result<(u8, u32), WireFault>
    ensures { ReadsGenesisHead cursor.old result cursor.new }
{
    let tag = cursor.take_tag(GENESES)?;
    let count = cursor.take_length(MOST_ENDOWMENTS)?;
    Ok((tag, count))
}

/// Begins the genesis that stands at this place, of which no endowment is read yet. There is room for
/// all of them at once, up to so many, since a list that grows by doubling touches twice its room.
/// What is not used of it stays untouched, so a count that is too high costs nothing.
#[tactic(auto, using(crate::proofs::GenesisLemmas::genesis_opened))]
fn open_genesis(alloc: Global, bytes: &[u8], at: u64) -> Result<BegunGenesis, ReadFault>
    requires { at + length bytes.now < 2 ^ 64 }
    ensures { OpensGenesis (record { at = at; rest = bytes.now }) result }
{
    let mut here = Cursor::new(bytes, at);
    let (tag, count) = read_head(&mut here)?;
    let endowments = Vec::with_capacity(alloc, count.min(FIRST_ENDOWMENTS) as usize)?;
    let size = (here.at() - at) as usize;
    Ok(BegunGenesis {
        tag,
        count,
        endowments,
        size,
    })
}

/// Reads the endowments that are left of a genesis, or as many as are whole.
fn fill(alloc: Global, begun: &mut BegunGenesis, bytes: &[u8], at: u64) -> Result<(), ReadFault>
    requires fits { at + length bytes.now < 2 ^ 64 }
    requires begun { IsBegunGenesis begun.old (record { at = at; rest = bytes.now }) }
    ensures begun { IsBegunGenesis begun.new (record { at = at; rest = bytes.now }) }
    ensures filled { MatchResult result
        (λ _. length begun.new.endowments.items ≡ begun.new.count)
        (λ fault. Reads genesis_form (record { at = at; rest = bytes.now }) (Err fault)
        (record { at = at; rest = bytes.now })) }
{
    let (_, rest) = bytes.split_at(begun.size);
    let mut here = Cursor::new(rest, at + begun.size as u64);
    let read = read_on(alloc, &mut begun.endowments, begun.count, &mut here);
    begun.size = (here.at() - at) as usize;
    read
}

/// Reads a value at this place, and answers how many bytes it has.
pub fn read_at<V: Drop, L: Layout<V>>(
    alloc: Global,
    bytes: &[u8],
    at: u64,
) -> Result<(V, usize), ReadFault>
    requires fits { at + length bytes.now < 2 ^ 64 }
    ensures reads { ReadsAt L.form (record { at = at; rest = bytes.now }) result }
    ensures bytes { IsBytes bytes.now }
{
    let mut here = Cursor::new(bytes, at);
    let value = L::read(alloc, &mut here)?;
    let size = (here.at() - at) as usize;
    Ok((value, size))
}

/// A plain genesis is whole behind its endowments.
fn whole_plain(begun: BegunGenesis) -> GenesisStep
    ensures { result ≡ Whole (Plain begun.endowments.items) begun.size }
{
    let BegunGenesis {
        endowments,
        size,
        ..
    } = begun;
    let endowments = List::from_vec(endowments);
    GenesisStep::Whole(Genesis::Plain { endowments }, size)
}

/// A full genesis is whole behind its parameters, which have `more` bytes.
fn whole_full(begun: BegunGenesis, params: Params, more: usize) -> GenesisStep
    requires { begun.size + more < 2 ^ 64 }
    ensures { result ≡ Whole (Full begun.endowments.items params) (begun.size + more) }
{
    let BegunGenesis {
        endowments,
        size,
        ..
    } = begun;
    let endowments = List::from_vec(endowments);
    GenesisStep::Whole(Genesis::Full { endowments, params }, size + more)
}

/// A genesis whose slashes wait is whole behind the number of eras that they do.
fn whole_deferred(begun: BegunGenesis, tail: (Params, u32), more: usize) -> GenesisStep
    requires { begun.size + more < 2 ^ 64 }
    ensures { result ≡ Whole (Deferred begun.endowments.items tail.0 tail.1) (begun.size + more) }
{
    let BegunGenesis {
        endowments,
        size,
        ..
    } = begun;
    let endowments = List::from_vec(endowments);
    let (params, defer_eras) = tail;
    GenesisStep::Whole(
        Genesis::Deferred {
            endowments,
            params,
            defer_eras,
        },
        size + more,
    )
}

/// The genesis whose endowments were all read: a plain one is whole. What another has behind them is
/// few bytes, and is read anew where it is cut.
#[tactic(auto, using(crate::proofs::GenesisLemmas::genesis_ends))]
fn finish(alloc: Global, begun: BegunGenesis, bytes: &[u8], at: u64) -> GenesisStep
    requires fits { at + length bytes.now < 2 ^ 64 }
    requires begun { IsBegunGenesis begun (record { at = at; rest = bytes.now }) }
    requires filled { length begun.endowments.items ≡ begun.count }
    ensures { GenesisSteps (record { at = at; rest = bytes.now }) result }
{
    let (_, rest) = bytes.split_at(begun.size);
    let at = at + begun.size as u64;
    match begun.tag {
        0 => whole_plain(begun),
        1 => match read_at::<Params, Own>(alloc, rest, at) {
            Ok((params, more)) => whole_full(begun, params, more),
            Err(fault) => GenesisStep::Stopped(Some(begun), fault),
        },
        _ => match read_at::<(Params, u32), Own>(alloc, rest, at) {
            Ok((tail, more)) => whole_deferred(begun, tail, more),
            Err(fault) => GenesisStep::Stopped(Some(begun), fault),
        },
    }
}

/// Goes on with the genesis that was begun, or begins the one that stands at this place.
pub fn resume_genesis(
    alloc: Global,
    begun: Option<BegunGenesis>,
    bytes: &[u8],
    at: u64,
) -> GenesisStep
    requires fits { at + length bytes.now < 2 ^ 64 }
    requires begun { IfSome begun (λ some.
        IsBegunGenesis some (record { at = at; rest = bytes.now })) }
    ensures steps { GenesisSteps (record { at = at; rest = bytes.now }) result }
    ensures bytes { IsBytes bytes.now }
{
    let mut begun = match begun {
        Some(begun) => begun,
        None => match open_genesis(alloc, bytes, at) {
            Ok(begun) => begun,
            Err(fault) => return GenesisStep::Stopped(None, fault),
        },
    };
    match fill(alloc, &mut begun, bytes, at) {
        Ok(()) => finish(alloc, begun, bytes, at),
        Err(fault) => GenesisStep::Stopped(Some(begun), fault),
    }
}
