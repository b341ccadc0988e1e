//! An input that is taken from while its pieces come.
ghost use Rattle.std.specs.Prelude.{◌≡◌, ◌≢◌, ◌+◌, ◌-◌, ◌<◌, ◌≤◌, ◌^◌, true, false, [], ◌∷◌, length, drop, IfOk, IfErr, OnOk};
ghost use Rattle.run_edges.specs.declared.halt.Halt.TheVariants as halts;
ghost use Rattle.scale_wire.specs.Form.{IsBytes};
ghost use Rattle.scale_wire.specs.declared.fault.Why.TheVariants.{Short};
ghost use Rattle.run_edges.specs.Ahead.{IsSure};
ghost use Rattle.run_edges.specs.Intake.{HoldsMore, StaysTimely, TakesOrWaits, nothing_held};
ghost use Rattle.run_edges.specs.Owed.{Counts};

use crate::halt::Halt;
use crate::pieces::{PIECE, blank_piece, read_more};
use npos_base::{NoMemory, Source, remove_front};
use scale_wire::fault::{ReadFault, Why};
use scale_wire::{Cursor, Wire};
use std::alloc::Global;
use std::marker::Model;

/// What was read of an input and is not taken yet. Contracts see the place behind what was taken,
/// the bytes that stand there, and whether the input has ended behind them.
#[derive(Drop)]
pub struct Intake {
    piece: Vec<u8>,
    bytes: Vec<u8>,
    at: u64,
    ended: bool,
}

impl Model for Intake {
    ghost use Rattle.std.specs.Prelude.{◌≡◌, ◌+◌, ◌<◌, ◌^◌, vec_len};
    ghost use Rattle.run_edges.specs.Intake.{Held};

    ghost Value = { Held };

    ghost view = { λ i. record {
      place = record { at = i.at; rest = i.bytes.items };
      ended = i.ended;
    } };

    ghost invariant = { λ i. (i.at + vec_len i.bytes < 2 ^ 64) × (vec_len i.piece ≡ 65536) };
}

/// Whether bytes are missing that may still come, where this is refused.
pub fn is_cut(ended: bool, why: Why) -> bool
    ensures yes { result ≡ true → (ended ≡ false) × (why ≡ Short) }
    ensures no { result ≡ false → IsSure ended why }
{
    !ended && why == Why::Short
}

/// Whether these bytes are a None alone, and more may come: then it is not known yet whether a byte
/// follows it.
pub fn is_open_none(ended: bool, bytes: &[u8]) -> bool
    ensures yes { result ≡ true → (ended ≡ false) × (bytes.now ≡ 0 ∷ []) }
    ensures no { result ≡ false → ended ≡ false → bytes.now ≢ 0 ∷ [] }
    ensures bytes { IsBytes bytes.now }
{
    !ended && bytes.len() == 1 && bytes[0] == 0
}

/// A cursor at the first of these bytes, whose place is `at`.
fn cursor_at<'a>(bytes: &'a [u8], at: u64) -> Cursor<'a>
    requires { at + length bytes.now < 2 ^ 64 }
    ensures place { result ≡ record { at = at; rest = bytes.now } }
    ensures bytes { IsBytes bytes.now }
{
    Cursor::new(bytes, at)
}

/// Makes room for so many bytes in all.
fn make_room(bytes: &mut Vec<u8>, all: u64) -> Result<(), NoMemory>
    ensures fits { OnOk result (all < 2 ^ 63) }
    ensures same { bytes.new.items ≡ bytes.old.items }
{
    bytes.reserve((all as usize).saturating_sub(bytes.len()))?;
    Ok(())
}

impl Intake {
    /// An input of which nothing was read.
    pub fn new(alloc: Global) -> Result<Intake, NoMemory>
        ensures { IfOk result (λ intake. intake ≡ nothing_held) }
    {
        let piece = blank_piece(alloc, PIECE)?;
        Ok(Intake {
            piece,
            bytes: Vec::new(alloc),
            at: 0,
            ended: false,
        })
    }

    /// Whether the input has ended behind what is held.
    pub fn ended(&self) -> bool
        ensures { result ≡ self.now.ended }
    {
        self.ended
    }

    /// How many bytes are held.
    pub fn len(&self) -> usize
        ensures { result ≡ length self.now.place.rest }
    {
        self.bytes.len()
    }

    /// A cursor at the first byte that is held.
    pub fn cursor(&self) -> Cursor<'_>
        ensures place { result ≡ self.now.place }
        ensures bytes { IsBytes self.now.place.rest }
    {
        cursor_at(self.bytes.as_slice(), self.at)
    }

    /// Takes all bytes that are held but so many.
    pub fn keep(&mut self, left: usize)
        requires { left ≤ length self.old.place.rest }
        ensures place { self.new.place ≡ record {
          at = self.old.place.at + (length self.old.place.rest - left);
          rest = drop (length self.old.place.rest - left) self.old.place.rest;
        } }
        ensures ended { self.new.ended ≡ self.old.ended }
    {
        let taken = self.bytes.len() - left;
        remove_front(&mut self.bytes, taken);
        self.at += taken as u64;
    }

    /// The value that the held bytes begin with, or None where they end before it does and more may
    /// come. After None, a refusal or want of memory the same is held.
    pub fn take<T: Wire>(&mut self, alloc: Global) -> Result<Option<T>, ReadFault>
        ensures takes { TakesOrWaits T.form self.old result self.new }
        ensures bytes { IsBytes self.old.place.rest }
    {
        let mut cursor = self.cursor();
        match T::read(alloc, &mut cursor) {
            Ok(value) => {
                let left = cursor.rest().len();
                self.keep(left);
                Ok(Some(value))
            }
            Err(ReadFault::Wire(fault)) => {
                if is_cut(self.ended, fault.why) {
                    return Ok(None);
                }
                Err(ReadFault::Wire(fault))
            }
            Err(ReadFault::NoMemory) => Err(ReadFault::NoMemory),
        }
    }

    /// Reads once, and holds what came. Room is asked for as if all of the input were still held,
    /// and what is not used of it is not touched: so memory ends before a place passes 64 bits.
    pub fn read_on<S: Source>(&mut self, source: &mut S) -> Result<(), Halt>
        requires unended { self.old.ended ≡ false }
        ensures more { IfOk result
            (λ _. HoldsMore (S.left source.old) (S.left source.new) self.old self.new) }
        ensures further { IfOk result (λ _. self.new.ended ≡ false
            → length self.old.place.rest < length self.new.place.rest) }
        ensures fits { self.old.place.at + length self.old.place.rest < 2 ^ 64 }
        ensures faults { Counts halts.ReadFault (S.faults source.old) (S.faults source.new) result }
        ensures timely { StaysTimely (S.asked source.old) self.old.ended
            (S.asked source.new) self.new.ended result }
        ensures unwritten { IfErr result (λ halt. halt ≢ halts.WriteFault) }
    {
        let end = self.at + self.bytes.len() as u64;
        make_room(&mut self.bytes, end)?;
        self.ended = read_more(source, self.piece.as_mut_slice(), &mut self.bytes)?;
        Ok(())
    }
}
