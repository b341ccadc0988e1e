//! The edge of a run at which its text goes out.
ghost use Rattle.std.specs.Prelude.{◌≡◌, [], MatchResult, IfErr, OnErr};
ghost use Rattle.run_edges.specs.declared.halt.Halt.TheVariants as halts;
ghost use Rattle.npos_base.specs.Outside.{StopsTrying};
ghost use Rattle.run_edges.specs.Owed.{Counts, Ends, Puts, FlushesBy, Settles};

use crate::Status;
use crate::halt::Halt;
use npos_base::{Failed, Sink, put_all};

/// Writes the text.
pub fn put<K: Sink>(sink: &mut K, text: &[u8]) -> Result<(), Halt>
    ensures puts { Puts (K.told sink.old) (K.told sink.new) text.now result }
    ensures faults { Counts halts.WriteFault (K.faults sink.old) (K.faults sink.new) result }
    ensures stops { StopsTrying (K.tried sink.old) (K.tried sink.new) result }
{
    match put_all(sink, text) {
        Ok(()) => Ok(()),
        Err(_) => Err(Halt::WriteFault),
    }
}

/// Writes the text, where there is any. Where there is none the sink is not called.
#[tactic(auto, using(crate::proofs::EdgeLaws::puts_none, crate::proofs::AskLaws::stops_nothing))]
pub fn put_some<K: Sink>(sink: &mut K, text: &[u8]) -> Result<(), Halt>
    ensures puts { Puts (K.told sink.old) (K.told sink.new) text.now result }
    ensures faults { Counts halts.WriteFault (K.faults sink.old) (K.faults sink.new) result }
    ensures stops { StopsTrying (K.tried sink.old) (K.tried sink.new) result }
    ensures quiet { text.now ≡ [] → sink.new ≡ sink.old }
{
    if text.is_empty() {
        return Ok(());
    }
    put(sink, text)
}

/// Flushes the sink.
#[tactic(auto, using(crate::proofs::AskLaws::settles_flushed, crate::proofs::AskLaws::settles_failed))]
pub fn flush<K: Sink>(sink: &mut K) -> Result<(), Halt>
    ensures flushes { FlushesBy (K.told sink.old) (K.told sink.new) result }
    ensures faults { Counts halts.WriteFault (K.faults sink.old) (K.faults sink.new) result }
    ensures settles { Settles (K.tried sink.old) (K.tried sink.new) result }
{
    match sink.flush() {
        Ok(()) => Ok(()),
        Err(Failed) => Err(Halt::WriteFault),
    }
}

/// Writes a text that ends a run with this status, and flushes the sink.
#[tactic(auto, using(crate::proofs::EdgeLaws::deliveries, crate::proofs::AskLaws::settlings))]
pub fn deliver<K: Sink>(sink: &mut K, text: &[u8], status: Status) -> Result<Status, Halt>
    ensures ends { Ends text.now status (K.told sink.old) (K.told sink.new) result }
    ensures faults { Counts halts.WriteFault (K.faults sink.old) (K.faults sink.new) result }
    ensures settles { Settles (K.tried sink.old) (K.tried sink.new) result }
{
    if put_all(sink, text).is_err() {
        return Err(Halt::WriteFault);
    }
    match sink.flush() {
        Ok(()) => Ok(status),
        Err(Failed) => Err(Halt::WriteFault),
    }
}
