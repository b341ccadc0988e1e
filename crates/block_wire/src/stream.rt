//! The reader of a stream that comes by pieces.
ghost use Rattle.std.specs.Prelude.{◌≡◌, ◌+◌, ◌<◌, ◌≤◌, ◌^◌, ◌↔◌, [], ◌∷◌, ◌++◌, length, drop, vec_len, None, IsTrue, IfSome, OnOk, OnErr};
ghost use Rattle.std.specs.List.{AllByRecursion};
ghost use Rattle.scale_wire.specs.Form.{IsBytes};
ghost use Rattle.scale_wire.specs.Reading.{Reads};
ghost use Rattle.block_wire.specs.Genesis.{genesis_form};
ghost use Rattle.block_wire.specs.Calls.{call_form};
ghost use Rattle.block_wire.specs.Begun.{next_form, begun_bytes, front_bytes};
ghost use Rattle.block_wire.specs.Stream.{TakesMore, TakesNext};

use crate::begun::{Begun, Step, go_on, size_of, write_begun};
use crate::begun_genesis::{BegunGenesis, GenesisStep, read_at, resume_genesis};
use crate::{Block, Genesis};
use npos_base::{List, NoMemory, remove_front};
use scale_wire::fault::{ReadFault, Why, WireFault};
use scale_wire::{Layout, Pen};
use std::alloc::Global;
use std::marker::Model;

/// What stands next in a stream of blocks.
#[derive(Debug, Drop)]
pub enum Next {
    /// Bytes are missing, and more may come.
    More,
    /// A block, and the place of its number.
    Block { at: u64, block: Block },
    /// The None that ends the stream.
    End,
}

/// Takes a genesis and then blocks from bytes that it is fed by pieces. Contracts see the place
/// behind the values that were taken, counted in bytes from the first that was ever fed, and the
/// bytes that stand there. Of a genesis or a block that is not whole yet it keeps the endowments or
/// the calls that are, and goes on at the first that was not. The bytes of such calls are let go: a
/// call has one spelling, so nothing is lost.
#[derive(Drop)]
pub struct StreamReader {
    alloc: Global,
    // the bytes behind what was begun of a block, from this place on
    bytes: Vec<u8>,
    from: usize,
    at: u64,
    begun: Option<Begun>,
    begun_genesis: Option<BegunGenesis>,
}

impl Model for StreamReader {
    ghost use Rattle.std.specs.Prelude.{◌+◌, ◌<◌, ◌≤◌, ◌^◌, ◌++◌, length, drop, vec_len, IfSome};
    ghost use Rattle.scale_wire.specs.Form.{IsBytes};
    ghost use Rattle.scale_wire.specs.Reading.{Place};
    ghost use Rattle.block_wire.specs.Begun.{begun_bytes, front_bytes, IsBegun};
    ghost use Rattle.block_wire.specs.BegunGenesis.{IsBegunGenesis};

    ghost Value = { Place };

    ghost view = { λ r. record {
      at = r.at;
      rest = front_bytes r.begun ++ drop r.from r.bytes.items;
    } };

    ghost invariant = { λ r. (r.from ≤ vec_len r.bytes)
        × (r.at + length (front_bytes r.begun ++ drop r.from r.bytes.items) < 2 ^ 64)
        × IsBytes (front_bytes r.begun)
        × IfSome r.begun (λ begun. IsBegun begun
        (record { at = r.at; rest = begun_bytes begun ++ drop r.from r.bytes.items }))
        × IfSome r.begun_genesis (λ begun. IsBegunGenesis begun
        (record { at = r.at; rest = front_bytes r.begun ++ drop r.from r.bytes.items })) };
}

/// Lets go of the memory of the bytes before this place: those behind it move into a list of their
/// own. Where there is no memory for that, all stay as they are.
fn leave_behind(alloc: Global, bytes: &mut Vec<u8>, from: &mut usize)
    requires { from.old ≤ vec_len bytes.old }
    ensures same { drop from.new bytes.new.items ≡ drop from.old bytes.old.items }
    ensures within { from.new ≤ vec_len bytes.new }
{
    if let Ok(rest) = Vec::from_slice(alloc, &bytes.as_slice()[*from..]) {
        *bytes = rest;
        *from = 0;
    }
}

/// Puts the bytes of what was begun of a block back before the others, so that they can be read as
/// another value.
fn put_back(
    alloc: Global,
    begun: &mut Option<Begun>,
    bytes: &mut Vec<u8>,
    from: &mut usize,
) -> Result<(), NoMemory>
    requires within { from.old ≤ vec_len bytes.old }
    requires spelled { IfSome begun.old (λ some.
        AllByRecursion call_form.in_range some.calls.items) }
    ensures begun { OnOk result (begun.new ≡ None) }
    ensures bytes { OnOk result
        (drop from.new bytes.new.items ≡ front_bytes begun.old ++ drop from.old bytes.old.items) }
    ensures within { from.new ≤ vec_len bytes.new }
    ensures are_bytes { IsBytes bytes.old.items }
    ensures err { OnErr result ((begun.new ≡ begun.old)
        × (bytes.new.items ≡ bytes.old.items) × (from.new ≡ from.old)) }
{
    let Some(some) = begun else {
        return Ok(());
    };
    let mut pen = Pen::new(alloc);
    write_begun(some, &mut pen)?;
    pen.put_bytes(&bytes.as_slice()[*from..])?;
    *bytes = pen.finish().into_vec();
    *from = 0;
    *begun = None;
    Ok(())
}

/// Makes room for so many bytes in all.
fn reserve_all(bytes: &mut Vec<u8>, all: u64) -> Result<(), NoMemory>
    ensures fits { OnOk result (all < 2 ^ 63) }
    ensures same { bytes.new.items ≡ bytes.old.items }
{
    bytes.reserve((all as usize).saturating_sub(bytes.len()))?;
    Ok(())
}

/// Whether the bytes of what was begun and those behind it are a None alone.
fn is_none_alone(begun: &Option<Begun>, bytes: &[u8]) -> bool
    ensures { IsTrue result ↔ (front_bytes begun.now ++ bytes.now ≡ 0 ∷ []) }
{
    match begun {
        Some(_) => false,
        None => bytes.len() == 1 && bytes[0] == 0,
    }
}

impl StreamReader {
    /// A reader that was fed nothing. It takes no memory yet.
    pub fn new(alloc: Global) -> StreamReader
        ensures { result ≡ record { at = 0; rest = [] } }
    {
        StreamReader {
            alloc,
            bytes: Vec::new(alloc),
            from: 0,
            at: 0,
            begun: None,
            begun_genesis: None,
        }
    }

    /// Appends a piece of the stream to the bytes that are held.
    pub fn feed(&mut self, piece: &[u8]) -> Result<(), NoMemory>
        requires { self.old.at + (length self.old.rest + length piece.now) < 2 ^ 64 }
        ensures ok { OnOk result
            (self.new ≡ record { at = self.old.at; rest = self.old.rest ++ piece.now }) }
        ensures err { OnErr result (self.new ≡ self.old) }
    {
        remove_front(&mut self.bytes, self.from);
        self.from = 0;
        self.bytes.extend_from_slice(piece)?;
        Ok(())
    }

    /// How many bytes the values that were taken have.
    pub fn at(&self) -> u64
        ensures place { result ≡ self.now.at }
        ensures fits { self.now.at + length self.now.rest < 2 ^ 64 }
    {
        self.at
    }

    /// How many bytes were fed that belong to no value that was taken.
    pub fn len(&self) -> usize
        ensures { result ≡ length self.now.rest }
    {
        size_of(&self.begun) + (self.bytes.len() - self.from)
    }

    /// Whether these bytes are a None alone. Whether a byte follows it is then not known.
    pub fn is_lone_none(&self) -> bool
        ensures { IsTrue result ↔ (self.now.rest ≡ 0 ∷ []) }
    {
        is_none_alone(&self.begun, &self.bytes.as_slice()[self.from..])
    }

    /// The genesis that the bytes begin with, or None where they end before it does and more may
    /// come. After None, a refusal or want of memory the reader is as it was.
    pub fn take_genesis(&mut self, ended: bool) -> Result<Option<Genesis>, ReadFault>
        ensures takes { TakesMore genesis_form ended self.old result self.new }
        ensures bytes { IsBytes self.old.rest }
    {
        match self.read_genesis() {
            Ok(genesis) => Ok(Some(genesis)),
            Err(
                ReadFault::Wire(
                    WireFault {
                        why: Why::Short,
                        ..
                    },
                ),
            ) if !ended => Ok(None),
            Err(fault) => Err(fault),
        }
    }

    /// The genesis that the bytes begin with.
    fn read_genesis(&mut self) -> Result<Genesis, ReadFault>
        ensures reads { Reads genesis_form self.old result self.new }
        ensures bytes { IsBytes self.old.rest }
    {
        put_back(self.alloc, &mut self.begun, &mut self.bytes, &mut self.from)?;
        let begun = self.begun_genesis.take();
        match resume_genesis(
            self.alloc,
            begun,
            &self.bytes.as_slice()[self.from..],
            self.at,
        ) {
            GenesisStep::Whole(genesis, size) => {
                self.from += size;
                self.at += size as u64;
                leave_behind(self.alloc, &mut self.bytes, &mut self.from);
                Ok(genesis)
            }
            GenesisStep::Stopped(begun, fault) => {
                self.begun_genesis = begun;
                Err(fault)
            }
        }
    }

    /// The value of this layout that the bytes begin with, or None where they end before it does and
    /// more may come. It is read anew each time. After None, a refusal or want of memory the reader
    /// is as it was.
    pub fn take_value<V: Drop, L: Layout<V>>(&mut self, ended: bool) -> Result<Option<V>, ReadFault>
        ensures takes { TakesMore L.form ended self.old result self.new }
        ensures bytes { IsBytes self.old.rest }
    {
        match self.read_value::<V, L>() {
            Ok(value) => Ok(Some(value)),
            Err(
                ReadFault::Wire(
                    WireFault {
                        why: Why::Short,
                        ..
                    },
                ),
            ) if !ended => Ok(None),
            Err(fault) => Err(fault),
        }
    }

    /// The value of this layout that the bytes begin with.
    fn read_value<V: Drop, L: Layout<V>>(&mut self) -> Result<V, ReadFault>
        ensures reads { Reads L.form self.old result self.new }
        ensures bytes { IsBytes self.old.rest }
    {
        put_back(self.alloc, &mut self.begun, &mut self.bytes, &mut self.from)?;
        self.begun_genesis = None;
        let bytes = &self.bytes.as_slice()[self.from..];
        let (value, size) = read_at::<V, L>(self.alloc, bytes, self.at)?;
        self.from += size;
        self.at += size as u64;
        Ok(value)
    }

    /// Lets go of the memory of the bytes that were taken.
    pub fn let_go(&mut self)
        ensures { self.new ≡ self.old }
    {
        leave_behind(self.alloc, &mut self.bytes, &mut self.from);
    }

    /// Takes all bytes that are held, whatever they are.
    pub fn pass_over(&mut self)
        ensures { self.new ≡ record { at = self.old.at + length self.old.rest; rest = [] } }
    {
        self.at += self.len() as u64;
        self.begun = None;
        self.begun_genesis = None;
        self.bytes.clear();
        self.from = 0;
    }

    /// Asks for memory as if all bytes that were ever fed were still held. What is not used of it is
    /// not touched: so memory ends before a place passes 63 bits.
    pub fn make_room(&mut self) -> Result<(), NoMemory>
        ensures fits { OnOk result (self.new.at + length self.new.rest < 2 ^ 63) }
        ensures same { self.new ≡ self.old }
    {
        let end = self.at + self.len() as u64;
        reserve_all(&mut self.bytes, end)
    }

    /// What stands next: a block, the None that ends the stream, or More where the bytes end before
    /// it does and more may come. After More, a refusal or want of memory the reader is as it was.
    pub fn take_block(&mut self, ended: bool) -> Result<Next, ReadFault>
        ensures takes { TakesNext ended self.old result self.new }
        ensures bytes { IsBytes self.old.rest }
    {
        let at = self.at;
        match self.take_next() {
            Ok(Some(block)) => Ok(Next::Block { at: at + 1, block }),
            Ok(None) => Ok(Next::End),
            Err(
                ReadFault::Wire(
                    WireFault {
                        why: Why::Short,
                        ..
                    },
                ),
            ) if !ended => Ok(Next::More),
            Err(fault) => Err(fault),
        }
    }

    /// The block or the None that the bytes begin with.
    fn take_next(&mut self) -> Result<Option<Block>, ReadFault>
        ensures reads { Reads next_form self.old result self.new }
        ensures bytes { IsBytes self.old.rest }
        ensures fits { self.old.at + length self.old.rest < 2 ^ 64 }
    {
        self.begun_genesis = None;
        let begun = self.begun.take();
        match go_on(
            self.alloc,
            begun,
            &self.bytes.as_slice()[self.from..],
            self.at,
        ) {
            Step::Last => {
                self.from += 1;
                self.at += 1;
                Ok(None)
            }
            Step::Whole(begun, taken) => {
                self.from += taken;
                self.at += begun.size as u64;
                let Begun { number, calls, .. } = begun;
                Ok(Some(Block {
                    number,
                    calls: List::from_vec(calls),
                }))
            }
            Step::Stopped(begun, taken, fault) => {
                self.from += taken;
                self.begun = begun;
                Err(fault)
            }
        }
    }
}
