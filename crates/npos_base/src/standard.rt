//! The kit's readers and writers as sources and sinks. They tell what the reader and the writer
//! tell. Standard input and output tell nothing: which bytes those give or take is trusted.
ghost use Rattle.std.specs.Prelude.{◌≡◌, Bool, true, false, IsSome};
ghost use Rattle.npos_base.specs.Adapted.{Given, Taken, told_by};
ghost use Rattle.npos_base.specs.Outside.{unasked, untried};

use crate::outside::fault;
use crate::{Asked, Failed, Sink, Source, Tried};
use std::io::{Read, Stdin, Stdout, Write};
use std::marker::{Model, PhantomData};

/// A reader as a source. Contracts see the bytes that the reader has left, where it tells them, and
/// the count of faults.
#[derive(Drop)]
pub struct ReadSource<R: Read> {
    input: R,
    faults: u64,
    asked: Asked,
}

/// Standard input as a source. It tells no bytes.
pub type StdinSource = ReadSource<Stdin>;

impl<R: Read> Model for ReadSource<R> {
    ghost use Rattle.npos_base.specs.Adapted.{Given};

    ghost Value = { Given };

    ghost view = { λ s. record { left = R.remaining s.input; faults = s.faults; asked = s.asked } };
}

impl<R: Read> ReadSource<R> {
    /// The source of what the reader has left.
    pub fn new(input: R) -> ReadSource<R>
        ensures { result ≡ record { left = R.remaining input; faults = 0; asked = unasked } }
    {
        ReadSource {
            input,
            faults: 0,
            asked: Asked::new(),
        }
    }
}

impl<R: Read> Source for ReadSource<R> {
    ghost left = { λ source. source.left };

    ghost faults = { λ source. source.faults };

    ghost asked = { λ source. source.asked };

    fn read(&mut self, buffer: &mut [u8]) -> Result<usize, Failed> {
        match self.input.read(buffer) {
            Ok(count) => {
                self.asked.gave(buffer.len(), count);
                Ok(count)
            }
            Err(_) => {
                self.asked.failed();
                Err(fault(&mut self.faults))
            }
        }
    }
}

/// Whether contracts are told what a sink took. The sink's code is the same either way, and cannot
/// know it: so what is proved of it where it is told holds of it where it is not.
pub trait Watch {
    ghost is_told: { Bool };
}

/// What a sink took is told.
pub struct Watched;

impl Watch for Watched {
    ghost is_told = { true };
}

/// What a sink took is not told.
pub struct Unwatched;

impl Watch for Unwatched {
    ghost is_told = { false };
}

/// A writer as a sink. Contracts see what the writer holds and how much of it was flushed, where
/// that is told, and the count of faults.
#[derive(Drop)]
pub struct WriteSink<W: Write, T: Watch> {
    output: W,
    faults: u64,
    tried: Tried,
    /// How many bytes were written since the last flush.
    unflushed: u64,
    watch: PhantomData<T>,
}

/// Standard output as a sink. It tells no bytes.
pub type StdoutSink = WriteSink<Stdout, Unwatched>;

impl<W: Write, T: Watch> Model for WriteSink<W, T> {
    ghost use Rattle.npos_base.specs.Adapted.{Taken, told_by, Tells};

    ghost Value = { Taken };

    ghost view = { λ s. record {
      told = told_by T.is_told (W.contents s.output) s.unflushed;
      faults = s.faults;
      tried = s.tried;
    } };

    ghost invariant = { λ s. Tells T.is_told (W.contents s.output) };
}

impl<W: Write, T: Watch> WriteSink<W, T> {
    /// A sink over a writer. What the writer holds already counts as flushed.
    pub fn new(output: W) -> WriteSink<W, T>
        requires { T.is_told ≡ true → IsSome (W.contents output) }
        ensures { result ≡ record { told = told_by T.is_told (W.contents output) 0; faults = 0; tried = untried } }
    {
        WriteSink {
            output,
            faults: 0,
            tried: Tried::new(),
            unflushed: 0,
            watch: PhantomData,
        }
    }
}

impl<W: Write, T: Watch> Sink for WriteSink<W, T> {
    ghost told = { λ sink. sink.told };

    ghost faults = { λ sink. sink.faults };

    ghost tried = { λ sink. sink.tried };

    /// A write that takes nothing of a piece that has bytes counts as a fault, and so does one
    /// whose bytes cannot be counted any more.
    fn write(&mut self, piece: &[u8]) -> Result<usize, Failed> {
        if self.unflushed.checked_add(piece.len() as u64).is_none() {
            self.tried.failed();
            return Err(fault(&mut self.faults));
        }
        match self.output.write(piece) {
            Ok(count) if count > 0 || piece.is_empty() => {
                self.unflushed += count as u64;
                self.tried.wrote();
                Ok(count)
            }
            _ => {
                self.tried.failed();
                Err(fault(&mut self.faults))
            }
        }
    }

    fn flush(&mut self) -> Result<(), Failed> {
        match self.output.flush() {
            Ok(()) => {
                self.unflushed = 0;
                self.tried.flushed();
                Ok(())
            }
            Err(_) => {
                self.tried.failed();
                Err(fault(&mut self.faults))
            }
        }
    }
}
