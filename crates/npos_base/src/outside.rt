//! Where bytes come from and where they go. Contracts see a source and a sink by what they tell,
//! by a count of faults that is the cause of each failure, and by whether it was called any more
//! behind a failure or the end.
ghost use Rattle.std.specs.Prelude.{◌≡◌, ◌<◌, ◌≤◌, ℕ, List, Option, length, take, IfOk, OnOk, IfErr};
ghost use Rattle.npos_base.specs.Outside.{Told, Gives, Writes, FlushesAll, Appends, HasCause, one_more, unasked, asked_on, given_more, given_none, untried, written_more, flushed_more, tried_in_vain, written_on, flushed_on, StopsTrying};

/// The answer of a call on the outside that failed. The object's count of faults rose in that call.
#[derive(Clone, Copy, Debug, PartialEq, Eq, Hash)]
pub struct Failed;

/// The answer of `put_all` where the sink failed: how many bytes of the piece were appended before.
#[derive(Clone, Copy, Debug, PartialEq, Eq, Hash)]
pub struct PutFault {
    pub put: usize,
}

/// What is told of the reads of a source so far.
#[derive(Clone, Copy, Debug, PartialEq, Eq)]
pub struct Asked {
    /// A read failed, or gave no byte for a buffer with room.
    pub ended: bool,
    /// A read was made behind such a one.
    pub late: bool,
    /// How many bytes the last read gave.
    pub last: usize,
}

impl Asked {
    /// Nothing was read yet.
    pub fn new() -> Asked
        ensures { result ≡ unasked }
    {
        Asked {
            ended: false,
            late: false,
            last: 0,
        }
    }

    /// Notes a read that gave `count` bytes for a buffer with this room.
    pub fn gave(&mut self, room: usize, count: usize)
        ensures { self.new ≡ given_more self.old room count }
    {
        self.late |= self.ended;
        self.ended |= count == 0 && room > 0;
        self.last = count;
    }

    /// Notes a read that failed.
    pub fn failed(&mut self)
        ensures { self.new ≡ given_none self.old }
    {
        self.late |= self.ended;
        self.ended = true;
        self.last = 0;
    }
}

/// What is told of the writes and flushes of a sink so far.
#[derive(Clone, Copy, Debug, PartialEq, Eq)]
pub struct Tried {
    /// A write or a flush failed.
    pub failed: bool,
    /// A write or a flush was made behind such a one.
    pub late: bool,
    /// The last of them was a flush that did not fail.
    pub flushed: bool,
}

impl Tried {
    /// Nothing was written or flushed yet.
    pub fn new() -> Tried
        ensures { result ≡ untried }
    {
        Tried {
            failed: false,
            late: false,
            flushed: false,
        }
    }

    /// Notes a write that did not fail.
    pub fn wrote(&mut self)
        ensures { self.new ≡ written_more self.old }
    {
        self.late |= self.failed;
        self.flushed = false;
    }

    /// Notes a flush that did not fail.
    pub fn flushed(&mut self)
        ensures { self.new ≡ flushed_more self.old }
    {
        self.late |= self.failed;
        self.flushed = true;
    }

    /// Notes a write or a flush that failed.
    pub fn failed(&mut self)
        ensures { self.new ≡ tried_in_vain self.old }
    {
        self.late |= self.failed;
        self.failed = true;
        self.flushed = false;
    }
}

/// Gives bytes, each once and in order.
pub trait Source {
    ghost use Rattle.npos_base.specs.declared.outside.Asked.{Asked};

    /// The bytes that are left, where the source tells them.
    ghost left: { Self → Option (List ℕ) };

    /// How often the source failed so far. Made with 0, it never falls and stays at its last value
    /// `2^64 - 1`.
    ghost faults: { Self → ℕ };

    /// Whether a read failed or found the end, whether one was made behind such a one, and how many
    /// bytes the last one gave.
    ghost asked: { Self → Asked };

    /// Puts the next bytes into the front of `buffer` and answers how many. No byte for a buffer
    /// with room is the end of input.
    fn read(&mut self, buffer: &mut [u8]) -> Result<usize, Failed>
        ensures bound { IfOk result (λ n. n ≤ length buffer.new) }
        ensures bytes { Gives (left self.old) (left self.new) result buffer.new }
        ensures cause { HasCause (faults self.old) (faults self.new) result }
        ensures asked { asked self.new ≡ asked_on (asked self.old) (length buffer.new) result };
}

/// Takes bytes, and keeps their order.
pub trait Sink {
    ghost use Rattle.npos_base.specs.declared.outside.Tried.{Tried};

    /// The bytes written and how many of them were flushed, where the sink tells them.
    ghost told: { Self → Option Told };

    /// How often the sink failed so far. Made with 0, it never falls and stays at its last value
    /// `2^64 - 1`.
    ghost faults: { Self → ℕ };

    /// Whether a write or a flush failed, whether one was made behind such a one, and whether the
    /// last one was a flush that did not fail.
    ghost tried: { Self → Tried };

    /// Appends the first bytes of `piece` and answers how many, at least one of a piece that has
    /// any.
    fn write(&mut self, piece: &[u8]) -> Result<usize, Failed>
        ensures bound { IfOk result (λ n. n ≤ length piece.now) }
        ensures some { 0 < length piece.now → IfOk result (λ n. 0 < n) }
        ensures bytes { Writes (told self.old) (told self.new) result piece.now }
        ensures cause { HasCause (faults self.old) (faults self.new) result }
        ensures tried { tried self.new ≡ written_on (tried self.old) result };

    /// Flushes all that was written.
    fn flush(&mut self) -> Result<(), Failed>
        ensures bytes { FlushesAll (told self.old) (told self.new) result }
        ensures cause { HasCause (faults self.old) (faults self.new) result }
        ensures tried { tried self.new ≡ flushed_on (tried self.old) result };
}

/// Counts one fault, the cause of the failure that is told.
pub(crate) fn fault(faults: &mut u64) -> Failed
    ensures counted { faults.new ≡ one_more faults.old }
    ensures later { faults.old ≤ faults.new }
{
    *faults = faults.saturating_add(1);
    Failed
}

/// Writes the whole piece, however short the single writes are.
pub fn put_all<K: Sink>(sink: &mut K, piece: &[u8]) -> Result<(), PutFault>
    ensures ok { OnOk result (Appends (K.told sink.old) (K.told sink.new) piece.now) }
    ensures err { IfErr result
        (λ fault. Appends (K.told sink.old) (K.told sink.new) (take fault.put piece.now)) }
    ensures bound { IfErr result (λ fault. fault.put ≤ length piece.now) }
    ensures cause { HasCause (K.faults sink.old) (K.faults sink.new) result }
    ensures stops { StopsTrying (K.tried sink.old) (K.tried sink.new) result }
{
    let mut put = 0;
    while put < piece.len() {
        match sink.write(&piece[put..]) {
            Ok(taken) => put += taken,
            Err(Failed) => return Err(PutFault { put }),
        }
    }
    Ok(())
}
