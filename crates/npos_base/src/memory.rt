//! A source and a sink in memory, whose short and failed calls are chosen beforehand.
ghost use Rattle.std.specs.Prelude.{◌≡◌, ◌+◌, ◌<◌, ◌≤◌, ◌-◌, [], ◌∷◌, ◌++◌, length, Some, None, IfOk, OnOk, OnErr};
ghost use Rattle.npos_base.specs.Outside.{Gives, Writes, FlushesAll, HasCause, unasked, asked_on, untried, written_on, flushed_on};
ghost use Rattle.npos_base.specs.Memory.{Input, Output, read_answer, after_read, write_answer, after_write, flush_answer, after_flush, told_of, is_failing, next_call};

use crate::outside::fault;
use crate::{Asked, Failed, List, NoMemory, Sink, Source, Tried};
use std::alloc::Global;
use std::marker::Model;

/// A source over bytes in memory. A read gives at most `most` bytes, and fails exactly where its
/// number, counted from 0, stands in `failing`.
#[derive(Drop)]
pub struct MemorySource {
    bytes: List<u8>,
    at: usize,
    most: usize,
    failing: List<u64>,
    next: Option<u64>,
    faults: u64,
    asked: Asked,
}

impl Model for MemorySource {
    ghost use Rattle.std.specs.Prelude.{◌≤◌, length, drop};
    ghost use Rattle.npos_base.specs.Memory.{Input};

    ghost Value = { Input };

    ghost view = { λ s. record {
      left = drop s.at s.bytes;
      most = s.most;
      failing = s.failing;
      next = s.next;
      faults = s.faults;
      asked = s.asked;
    } };

    ghost invariant = { λ s. (s.at ≤ length s.bytes) × (1 ≤ s.most) };
}

impl MemorySource {
    /// A source of these bytes that has not been read. It takes no memory.
    pub fn new(bytes: List<u8>, most: usize, failing: List<u64>) -> MemorySource
        requires { 1 ≤ most }
        ensures { result ≡ record {
          left = bytes;
          most = most;
          failing = failing;
          next = Some 0;
          faults = 0;
          asked = unasked;
        } }
    {
        MemorySource {
            bytes,
            at: 0,
            most,
            failing,
            next: Some(0),
            faults: 0,
            asked: Asked::new(),
        }
    }

    /// The bytes that are left.
    pub fn left(&self) -> &[u8]
        ensures { result.now ≡ self.now.left }
    {
        &self.bytes.as_slice()[self.at..]
    }
}

impl Source for MemorySource {
    ghost left = { λ source. Some source.left };

    ghost faults = { λ source. source.faults };

    ghost asked = { λ source. source.asked };

    fn read(&mut self, buffer: &mut [u8]) -> Result<usize, Failed>
        ensures bound { IfOk result (λ n. n ≤ length buffer.new) }
        ensures bytes { Gives (Some self.old.left) (Some self.new.left) result buffer.new }
        ensures cause { HasCause self.old.faults self.new.faults result }
        ensures asked { self.new.asked ≡ asked_on self.old.asked (length buffer.new) result }
        ensures answer { result ≡ read_answer self.old (length buffer.old) }
        ensures after { self.new ≡ after_read self.old (length buffer.old) }
    {
        if number_fails(&mut self.next, self.failing.as_slice()) {
            self.asked.failed();
            return Err(fault(&mut self.faults));
        }
        let left = &self.bytes.as_slice()[self.at..];
        let count = self.most.min(buffer.len()).min(left.len());
        buffer[..count].copy_from_slice(&left[..count]);
        self.at += count;
        self.asked.gave(buffer.len(), count);
        Ok(count)
    }
}

/// Whether the next call is to fail. The number of the call after it is then the next.
fn number_fails(next: &mut Option<u64>, failing: &[u64]) -> bool
    ensures answer { result ≡ is_failing failing.now next.old }
    ensures next { next.new ≡ next_call next.old }
{
    let Some(number) = *next else { return false };
    *next = number.checked_add(1);
    failing.contains(&number)
}

/// A sink that keeps its bytes in memory. A write takes at most `most` bytes and no more than the
/// spare. It fails exactly where its number stands in `failing`, or where there are bytes and no
/// spare; a flush only by its number. Writes and flushes share one numbering, from 0.
#[derive(Drop)]
pub struct MemorySink {
    written: Vec<u8>,
    flushed: usize,
    most: usize,
    failing: List<u64>,
    next: Option<u64>,
    faults: u64,
    tried: Tried,
}

impl Model for MemorySink {
    ghost use Rattle.std.specs.Prelude.{◌≤◌, ◌-◌};
    ghost use Rattle.std.specs.Vec.{vec_len, vec_capacity};
    ghost use Rattle.npos_base.specs.Memory.{Output};

    ghost Value = { Output };

    ghost view = { λ s. record {
      written = s.written.items;
      flushed = s.flushed;
      spare = vec_capacity s.written - vec_len s.written;
      most = s.most;
      failing = s.failing;
      next = s.next;
      faults = s.faults;
      tried = s.tried;
    } };

    ghost invariant = { λ s. 1 ≤ s.most };
}

impl MemorySink {
    /// A sink that has taken nothing yet. It takes no memory, and may have no spare.
    pub fn new(alloc: Global, most: usize, failing: List<u64>) -> MemorySink
        requires { 1 ≤ most }
        ensures { result ≡ record {
          written = [];
          flushed = 0;
          spare = result.spare;
          most = most;
          failing = failing;
          next = Some 0;
          faults = 0;
          tried = untried;
        } }
    {
        MemorySink {
            written: Vec::new(alloc),
            flushed: 0,
            most,
            failing,
            next: Some(0),
            faults: 0,
            tried: Tried::new(),
        }
    }

    /// Makes the spare at least `n`. Nothing else changes.
    pub fn reserve(&mut self, n: usize) -> Result<(), NoMemory>
        ensures ok { OnOk result (n ≤ self.new.spare) }
        ensures same { self.new ≡ record self.old { spare = self.new.spare } }
        ensures spare { self.old.spare ≤ self.new.spare }
    {
        self.written.reserve(n)?;
        Ok(())
    }

    /// The bytes written so far.
    pub fn written(&self) -> &[u8]
        ensures { result.now ≡ self.now.written }
    {
        self.written.as_slice()
    }

    /// How many of the bytes written were flushed.
    pub fn flushed(&self) -> usize
        ensures { result ≡ self.now.flushed }
    {
        self.flushed
    }
}

impl Sink for MemorySink {
    ghost told = { told_of };

    ghost faults = { λ sink. sink.faults };

    ghost tried = { λ sink. sink.tried };

    fn write(&mut self, piece: &[u8]) -> Result<usize, Failed>
        ensures bound { IfOk result (λ n. n ≤ length piece.now) }
        ensures some { 0 < length piece.now → IfOk result (λ n. 0 < n) }
        ensures bytes { Writes (told_of self.old) (told_of self.new) result piece.now }
        ensures cause { HasCause self.old.faults self.new.faults result }
        ensures tried { self.new.tried ≡ written_on self.old.tried result }
        ensures answer { result ≡ write_answer self.old piece.now }
        ensures after { self.new ≡ after_write self.old piece.now self.new.spare }
        ensures spare { IfOk result (λ n. self.old.spare ≤ self.new.spare + n) }
        ensures spare_kept { OnErr result (self.old.spare ≤ self.new.spare) }
    {
        let spare = self.written.capacity() - self.written.len();
        let fails = number_fails(&mut self.next, self.failing.as_slice());
        if fails || (spare == 0 && !piece.is_empty()) {
            self.tried.failed();
            return Err(fault(&mut self.faults));
        }
        let count = self.most.min(piece.len()).min(spare);
        match self.written.extend_from_slice(&piece[..count]) {
            Ok(()) => {}
            Err(_) => unreachable!(),
        }
        self.tried.wrote();
        Ok(count)
    }

    fn flush(&mut self) -> Result<(), Failed>
        ensures bytes { FlushesAll (told_of self.old) (told_of self.new) result }
        ensures cause { HasCause self.old.faults self.new.faults result }
        ensures tried { self.new.tried ≡ flushed_on self.old.tried result }
        ensures answer { result ≡ flush_answer self.old }
        ensures after { self.new ≡ record (after_flush self.old) { spare = self.new.spare } }
        ensures spare { self.old.spare ≤ self.new.spare }
    {
        if number_fails(&mut self.next, self.failing.as_slice()) {
            self.tried.failed();
            return Err(fault(&mut self.faults));
        }
        self.flushed = self.written.len();
        self.tried.flushed();
        Ok(())
    }
}
