//! The replay of a stream: a genesis, and then a turn for each block until one is the last. It
//! reads piece by piece, and writes what is told of each block before it reads again.
ghost use Rattle.std.specs.Prelude.{◌≡◌, ◌≢◌, ◌+◌, ◌<◌, ◌≤◌, ℕ, List, Some, Ok, [], ◌∷◌, true, false, length, IfOk, IfErr, OnOk, IsTrue, ◌↔◌};
ghost use Rattle.npos_runtime.specs.Kept.Savable.{IsSavable};
ghost use Rattle.npos_base.specs.Outside.{Appends, StopsTrying};
ghost use Rattle.run_edges.specs.declared.halt.Halt.TheVariants as halts;
ghost use Rattle.run_edges.specs.declared.turn.Stop.TheVariants as stops;
ghost use Rattle.npos_cli.specs.declared.output.Output.TheVariants as outputs;
ghost use Rattle.npos_cli.specs.Outputs.{end_text, machine_of};
ghost use Rattle.npos_cli.specs.Ahead.{Begins, AwaitsMore};
ghost use Rattle.run_edges.specs.Ahead.{first_place};
ghost use Rattle.run_edges.specs.Owed.{Counts, AsksInTime, AsksOn, Settles};
ghost use Rattle.run_edges.specs.Status.{replay_status};
ghost use Rattle.run_edges.specs.Streaming.{Runs, RunsOn, ReplayEnds, ReadsWhile, ReadsOnWhile};
ghost use Rattle.run_edges.specs.Turning.{spot, IsGoing, TakesTurn, WritesOn, StopsHere};
ghost use Rattle.npos_cli.specs.Near.{IsNear};

use crate::output::{Output, tell_block, tell_chain};
use crate::telling::{tell_genesis_fault, tell_other_number};
use block_wire::{Genesis, Next, StreamReader};
use bundle_reports::tell_fault;
use npos_base::{NoMemory, Sink, Source, remove_front};
use npos_runtime::laws::chains_can_be_saved;
use npos_runtime::{BlockFault, Runtime};
use run_edges::{Halt, PIECE, Status, Stop, Turn, blank_piece, flush, put, put_some, read_piece};
use scale_wire::fault::{ReadFault, Why, WireFault};
use std::alloc::Global;

/// Ends the replay behind the None: with what is told of the chain, or because a byte follows.
fn tell_stop(
    alloc: Global,
    output: Output,
    reader: &StreamReader,
    runtime: &Runtime,
    text: &mut Vec<u8>,
) -> Result<Stop, NoMemory>
    requires unspent { runtime.now.spent ≡ false }
    requires savable { IsSavable runtime.now.state }
    ensures { IfOk result (StopsHere reader.now
        (end_text output runtime.now.state) text.old.items text.new.items) }
{
    if reader.len() > 0 {
        tell_fault(text, reader.at(), Why::Trailing)?;
        return Ok(Stop::Last { faulty: true });
    }
    tell_chain(alloc, output, text, runtime)?;
    Ok(Stop::Last { faulty: false })
}

/// Takes what stands next, and appends what is told of it to the text.
fn take_turn(
    alloc: Global,
    output: Output,
    ended: bool,
    reader: &mut StreamReader,
    runtime: &mut Runtime,
    text: &mut Vec<u8>,
) -> Result<Turn, NoMemory>
    requires unspent { runtime.old.spent ≡ false }
    requires savable { IsSavable runtime.old.state }
    ensures turn { IfOk result
        (TakesTurn (machine_of output) ended (spot reader.old runtime.old.state)
        (spot reader.new runtime.new.state) text.old.items text.new.items) }
    ensures unspent { IfOk result (λ turn. IsGoing turn → runtime.new.spent ≡ false) }
{
    if !ended && reader.is_lone_none() {
        return Ok(Turn::Stopped(Stop::More));
    }
    let (at, block) = match reader.take_block(ended) {
        Ok(Next::Block { at, block }) => (at, block),
        Ok(Next::More) => return Ok(Turn::Stopped(Stop::More)),
        Ok(Next::End) => {
            return Ok(Turn::Stopped(tell_stop(alloc, output, reader, runtime, text)?));
        }
        Err(ReadFault::Wire(fault)) => {
            tell_fault(text, fault.at, fault.why)?;
            return Ok(Turn::Stopped(Stop::Last { faulty: true }));
        }
        Err(ReadFault::NoMemory) => return Err(NoMemory),
    };
    match runtime.apply(block) {
        Ok(receipt) => {
            tell_block(output, text, receipt.lines.as_slice())?;
            Ok(Turn::Taken)
        }
        Err(BlockFault::WrongNumber { due, found }) => {
            tell_other_number(text, at, due, found)?;
            Ok(Turn::Stopped(Stop::Last { faulty: true }))
        }
        Err(BlockFault::Spent) => unreachable!(),
        Err(BlockFault::NoMemory) => Err(NoMemory),
    }
}

/// Takes turns and writes what is told of the blocks, until bytes are missing or the replay ends
/// with the line that is then the text. A call of a sink may cost as much as a block does, so lines
/// are written once there is a piece of them, and where no more blocks are at hand.
#[tactic(auto, using(run_edges::proofs::AskLaws::tries_nothing, run_edges::proofs::AskLaws::tries_last, run_edges::proofs::AskLaws::tries_so_far))]
fn take_turns<K: Sink>(
    alloc: Global,
    output: Output,
    ended: bool,
    reader: &mut StreamReader,
    runtime: &mut Runtime,
    text: &mut Vec<u8>,
    sink: &mut K,
) -> Result<Stop, Halt>
    requires unspent { runtime.old.spent ≡ false }
    requires savable { IsSavable runtime.old.state }
    ensures writes { WritesOn (machine_of output) ended (spot reader.old runtime.old.state)
        (spot reader.new runtime.new.state) (K.told sink.old) (K.told sink.new)
        text.new.items result }
    ensures unspent { IfOk result (λ stop. stop ≡ stops.More → runtime.new.spent ≡ false) }
    ensures faults { Counts halts.WriteFault (K.faults sink.old) (K.faults sink.new) result }
    ensures stops { StopsTrying (K.tried sink.old) (K.tried sink.new) result }
    ensures quiet { output ≡ outputs.Checkpoint → sink.new ≡ sink.old }
{
    // a law, which does nothing
    chains_can_be_saved();
    text.clear();
    'turns: loop {
        let told = text.len();
        match take_turn(alloc, output, ended, reader, runtime, text)? {
            Turn::Taken => {
                if text.len() >= PIECE {
                    put(sink, text.as_slice())?;
                    text.clear();
                }
            }
            Turn::Stopped(stop) => {
                put_some(sink, &text.as_slice()[..told])?;
                remove_front(text, told);
                return Ok(stop);
            }
        }
    }
}

/// Takes what is read until the replay ends, with a fault line or not. All but that line is then
/// written.
#[tactic(auto, using(run_edges::proofs::AskLaws::tryings))]
fn take_all<S: Source, K: Sink>(
    alloc: Global,
    output: Output,
    source: &mut S,
    reader: &mut StreamReader,
    piece: &mut [u8],
    runtime: &mut Runtime,
    text: &mut Vec<u8>,
    sink: &mut K,
) -> Result<bool, Halt>
    requires unspent { runtime.old.spent ≡ false }
    requires savable { IsSavable runtime.old.state }
    requires some { 0 < length piece.old }
    requires one_piece { length piece.old ≤ 65536 }
    requires near { IsNear (spot reader.old runtime.old.state) }
    ensures runs { RunsOn (machine_of output) (S.left source.old) (S.left source.new) (K.told sink.old)
        (K.told sink.new) (spot reader.old runtime.old.state) text.new.items result }
    ensures wary { ReadsOnWhile (machine_of output) (S.left source.old) (S.left source.new)
        (S.asked source.old).last (S.asked source.new).last (K.told sink.old)
        (spot reader.old runtime.old.state) }
    ensures reads { Counts halts.ReadFault (S.faults source.old) (S.faults source.new) result }
    ensures writes { Counts halts.WriteFault (K.faults sink.old) (K.faults sink.new) result }
    ensures asks { AsksInTime (S.asked source.old) (S.asked source.new) }
    ensures stops { StopsTrying (K.tried sink.old) (K.tried sink.new) result }
    ensures quiet { output ≡ outputs.Checkpoint → sink.new ≡ sink.old }
{
    // a law, which does nothing
    chains_can_be_saved();
    let mut ended = false;
    'pieces: loop {
        match take_turns(alloc, output, ended, reader, runtime, text, sink)? {
            Stop::Last { faulty } => return Ok(faulty),
            Stop::More => ended = read_piece(source, piece, reader)?,
        }
    }
}

/// Reads the genesis, piece by piece.
#[tactic(auto, using(run_edges::proofs::AskLaws::asks_nothing, crate::proofs::CourseLaws::awaits_first, crate::proofs::CourseLaws::awaits_none))]
fn take_genesis<S: Source>(
    source: &mut S,
    reader: &mut StreamReader,
    piece: &mut [u8],
) -> Result<Result<Genesis, WireFault>, Halt>
    requires fresh { reader.old ≡ first_place [] }
    requires some { 0 < length piece.old }
    requires one_piece { length piece.old ≤ 65536 }
    ensures begins { Begins (S.left source.old) (S.left source.new) reader.new result }
    ensures wary { AwaitsMore (S.left source.old) (S.left source.new) (S.asked source.new).last }
    ensures faults { Counts halts.ReadFault (S.faults source.old) (S.faults source.new) result }
    ensures asks { AsksInTime (S.asked source.old) (S.asked source.new) }
    ensures asks_on { IfOk result
        (λ read. OnOk read (AsksOn (S.asked source.old) (S.asked source.new))) }
{
    let mut ended = false;
    'pieces: loop {
        match reader.take_genesis(ended) {
            Ok(Some(genesis)) => return Ok(Ok(genesis)),
            Ok(None) => ended = read_piece(source, piece, reader)?,
            Err(ReadFault::Wire(fault)) => return Ok(Err(fault)),
            Err(ReadFault::NoMemory) => return Err(Halt::NoMemory),
        }
    }
}

/// Replays what is left in the source, and writes all but the last line, which is then the text.
/// Answers whether that is a fault line.
#[tactic(auto, using(run_edges::proofs::AskLaws::stoppings, crate::proofs::CourseLaws::awaits_wary))]
fn tell_replay<S: Source, K: Sink>(
    alloc: Global,
    output: Output,
    source: &mut S,
    text: &mut Vec<u8>,
    sink: &mut K,
) -> Result<bool, Halt>
    requires empty { text.old.items ≡ [] }
    ensures runs { Runs (machine_of output) (S.left source.old) (S.left source.new)
        (K.told sink.old) (K.told sink.new) text.new.items result }
    ensures wary { ReadsWhile (machine_of output) (S.left source.old) (S.left source.new)
        (S.asked source.new).last }
    ensures reads { Counts halts.ReadFault (S.faults source.old) (S.faults source.new) result }
    ensures writes { Counts halts.WriteFault (K.faults sink.old) (K.faults sink.new) result }
    ensures asks { AsksInTime (S.asked source.old) (S.asked source.new) }
    ensures stops { StopsTrying (K.tried sink.old) (K.tried sink.new) result }
    ensures quiet { output ≡ outputs.Checkpoint → sink.new ≡ sink.old }
{
    // a law, which does nothing
    chains_can_be_saved();
    let mut piece = blank_piece(alloc, PIECE)?;
    let mut reader = StreamReader::new(alloc);
    let genesis = match take_genesis(source, &mut reader, piece.as_mut_slice())? {
        Ok(genesis) => genesis,
        Err(fault) => {
            tell_fault(text, fault.at, fault.why)?;
            return Ok(true);
        }
    };
    let mut runtime = match Runtime::start(alloc, genesis) {
        Ok(runtime) => runtime,
        Err(fault) => {
            tell_genesis_fault(text, fault)?;
            return Ok(true);
        }
    };
    take_all(
        alloc,
        output,
        source,
        &mut reader,
        piece.as_mut_slice(),
        &mut runtime,
        text,
        sink,
    )
}

/// The status of a replay, whose text ends with a fault line or not.
fn replay_status(faulty: bool) -> Status
    ensures { result ≡ replay_status faulty }
{
    if faulty {
        Status::BadInput
    } else {
        Status::Done
    }
}

/// Replays what is left in the source, writes what it tells to the sink and flushes that once.
#[tactic(auto, using(run_edges::proofs::AskLaws::settles_nothing, run_edges::proofs::AskLaws::settles_behind, run_edges::proofs::AskLaws::settles_cut))]
pub fn replay<S: Source, K: Sink>(
    alloc: Global,
    output: Output,
    source: &mut S,
    sink: &mut K,
) -> Result<Status, Halt>
    ensures ends { ReplayEnds (machine_of output) (S.left source.old) (S.left source.new)
        (K.told sink.old) (K.told sink.new) result }
    ensures wary { ReadsWhile (machine_of output) (S.left source.old) (S.left source.new)
        (S.asked source.new).last }
    ensures reads { Counts halts.ReadFault (S.faults source.old) (S.faults source.new) result }
    ensures writes { Counts halts.WriteFault (K.faults sink.old) (K.faults sink.new) result }
    ensures asks { AsksInTime (S.asked source.old) (S.asked source.new) }
    ensures settles { Settles (K.tried sink.old) (K.tried sink.new) result }
    ensures quiet { output ≡ outputs.Checkpoint
        → IfErr result (λ halt. halt ≢ halts.WriteFault → sink.new ≡ sink.old) }
{
    let mut text = Vec::new(alloc);
    let faulty = tell_replay(alloc, output, source, &mut text, sink)?;
    put(sink, text.as_slice())?;
    flush(sink)?;
    Ok(replay_status(faulty))
}
