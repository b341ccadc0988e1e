//! A source and a sink that never fail, for callers with all their bytes at hand.
ghost use Rattle.std.specs.Prelude.{◌≡◌, ◌<◌, ◌≤◌, ◌+◌, ◌-◌, ◌^◌, [], ◌++◌, min, length, take, drop, Some, Ok, IfOk};
ghost use Rattle.npos_base.specs.Outside.{Gives, Writes, FlushesAll, HasCause, unasked, asked_on, untried, written_on, flushed_on, flushed_more};
ghost use Rattle.npos_base.specs.Kept.{Kept, kept_told, after_keeping, Plain, after_giving};

use crate::{Asked, Failed, List, NoMemory, Sink, Source, Tried};
use std::alloc::Global;
use std::marker::Model;

/// A source over bytes in memory that never fails and gives as many bytes as the buffer takes.
/// Contracts see the bytes that are left and what was asked of it.
#[derive(Drop)]
pub struct PlainSource {
    bytes: List<u8>,
    at: usize,
    asked: Asked,
}

impl Model for PlainSource {
    ghost use Rattle.std.specs.Prelude.{◌≤◌, length, drop};
    ghost use Rattle.npos_base.specs.Kept.{Plain};

    ghost Value = { Plain };

    ghost view = { λ s. record { left = drop s.at s.bytes; asked = s.asked } };

    ghost invariant = { λ s. s.at ≤ length s.bytes };
}

impl PlainSource {
    /// A source of these bytes that has not been read. It takes no memory.
    pub fn new(bytes: List<u8>) -> PlainSource
        ensures { result ≡ record { left = bytes; asked = unasked } }
    {
        PlainSource {
            bytes,
            at: 0,
            asked: Asked::new(),
        }
    }
}

impl Source for PlainSource {
    ghost left = { λ source. Some source.left };

    ghost faults = { λ _. 0 };

    ghost asked = { λ source. source.asked };

    fn read(&mut self, buffer: &mut [u8]) -> Result<usize, Failed>
        ensures bound { IfOk result (λ n. n ≤ length buffer.new) }
        ensures bytes { Gives (Some self.old.left) (Some self.new.left) result buffer.new }
        ensures cause { HasCause 0 0 result }
        ensures asked { self.new.asked ≡ asked_on self.old.asked (length buffer.new) result }
        ensures answer { result ≡ Ok (min (length buffer.old) (length self.old.left)) }
        ensures after { self.new ≡ after_giving self.old (length buffer.old) }
    {
        let left = &self.bytes.as_slice()[self.at..];
        let count = buffer.len().min(left.len());
        buffer[..count].copy_from_slice(&left[..count]);
        self.at += count;
        self.asked.gave(buffer.len(), count);
        Ok(count)
    }
}

/// A sink that never fails. It keeps the bytes that its room takes and counts the others, so it
/// tells its bytes while they all fit.
#[derive(Drop)]
pub struct PlainSink {
    kept: Vec<u8>,
    room: usize,
    past: u64,
    flushed: usize,
    tried: Tried,
}

impl Model for PlainSink {
    ghost use Rattle.std.specs.Prelude.{◌≤◌, ◌-◌};
    ghost use Rattle.std.specs.Vec.{vec_len, vec_capacity};
    ghost use Rattle.npos_base.specs.Kept.{Kept};

    ghost Value = { Kept };

    ghost view = { λ s. record {
      kept = s.kept.items;
      room = s.room;
      past = s.past;
      flushed = s.flushed;
      tried = s.tried;
    } };

    ghost invariant = { λ s. (vec_len s.kept ≤ s.room) × (s.room ≤ vec_capacity s.kept) };
}

impl PlainSink {
    /// A sink that has taken nothing yet, with room for `room` bytes.
    pub fn new(alloc: Global, room: usize) -> Result<PlainSink, NoMemory>
        ensures { IfOk result (λ sink. sink
            ≡ record { kept = []; room = room; past = 0; flushed = 0; tried = untried }) }
    {
        let kept = Vec::with_capacity(alloc, room)?;
        Ok(PlainSink {
            kept,
            room,
            past: 0,
            flushed: 0,
            tried: Tried::new(),
        })
    }

    /// The bytes that were kept: the first ones written, as many as the room takes.
    pub fn kept(&self) -> &[u8]
        ensures { result.now ≡ self.now.kept }
    {
        self.kept.as_slice()
    }
}

impl Sink for PlainSink {
    ghost told = { kept_told };

    ghost faults = { λ _. 0 };

    ghost tried = { λ sink. sink.tried };

    fn write(&mut self, piece: &[u8]) -> Result<usize, Failed>
        ensures bound { IfOk result (λ n. n ≤ length piece.now) }
        ensures some { 0 < length piece.now → IfOk result (λ n. 0 < n) }
        ensures bytes { Writes (kept_told self.old) (kept_told self.new) result piece.now }
        ensures cause { HasCause 0 0 result }
        ensures tried { self.new.tried ≡ written_on self.old.tried result }
        ensures answer { result ≡ Ok (length piece.now) }
        ensures after { self.new ≡ after_keeping self.old piece.now }
    {
        let count = piece.len().min(self.room - self.kept.len());
        match self.kept.extend_from_slice(&piece[..count]) {
            Ok(()) => {}
            Err(_) => unreachable!(),
        }
        self.past = self.past.saturating_add((piece.len() - count) as u64);
        self.tried.wrote();
        Ok(piece.len())
    }

    fn flush(&mut self) -> Result<(), Failed>
        ensures bytes { FlushesAll (kept_told self.old) (kept_told self.new) result }
        ensures cause { HasCause 0 0 result }
        ensures tried { self.new.tried ≡ flushed_on self.old.tried result }
        ensures answer { result ≡ Ok tt }
        ensures after { self.new ≡ record self.old {
          flushed = length self.old.kept;
          tried = flushed_more self.old.tried;
        } }
    {
        self.flushed = self.kept.len();
        self.tried.flushed();
        Ok(())
    }
}
