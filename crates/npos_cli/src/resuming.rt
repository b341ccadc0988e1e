//! A replay that goes on from a checkpoint: its input is read whole, and then gone through block by
//! block.
ghost use Rattle.std.specs.Prelude.{◌≡◌, ◌≢◌, Some, false, IfOk, IfErr};
ghost use Rattle.npos_cli.specs.declared.job.Job.TheVariants as jobs;
ghost use Rattle.run_edges.specs.declared.halt.Halt.TheVariants as halts;
ghost use Rattle.npos_cli.specs.declared.going.Turn.TheVariants as turns;
ghost use Rattle.npos_cli.specs.Checkpoints.{resume_machine};
ghost use Rattle.npos_cli.specs.Going.{EndsHere, GoesOn, TakesItem};
ghost use Rattle.npos_cli.specs.Owed.{FindsFor};
ghost use Rattle.run_edges.specs.Owed.{IsDrained, Counts, AsksInTime, Settles};
ghost use Rattle.npos_cli.specs.Ran.{Ran, traffic};
ghost use Rattle.npos_cli.specs.Report.{JobOwes};
ghost use Rattle.run_edges.specs.Status.{status_of};
ghost use Rattle.run_edges.specs.Turning.{spot};

use crate::going::{Turn, faulty};
use crate::telling::{tell_end, tell_lines, tell_other_number, tell_state_fault};
use block_wire::Block;
use bundle_reports::{Answer, Ending, tell_fault};
use npos_base::{NoMemory, Sink, Source};
use npos_runtime::{BlockFault, Runtime};
use run_edges::{Halt, Status, deliver, read_all, status_of};
use scale_wire::fault::{ReadFault, Why};
use scale_wire::{Cursor, Wire};
use state_checkpoint::read_state;
use std::alloc::Global;

/// Ends the text behind the blocks: with the end line, or because a byte follows.
fn tell_stop(cursor: &Cursor<'_>, runtime: &Runtime, text: &mut Vec<u8>) -> Result<Turn, NoMemory>
    ensures { IfOk result (EndsHere cursor.now (resume_machine.ending runtime.now.state)
        text.old.items text.new.items) }
{
    if !cursor.rest().is_empty() {
        tell_fault(text, cursor.at(), Why::Trailing)?;
        return Ok(Turn::Last { faulty: true });
    }
    tell_end(text, &runtime.totals())?;
    Ok(Turn::Last { faulty: false })
}

/// Takes what stands next, and appends what it tells.
fn take_block(
    alloc: Global,
    cursor: &mut Cursor<'_>,
    runtime: &mut Runtime,
    text: &mut Vec<u8>,
) -> Result<Turn, NoMemory>
    requires unspent { runtime.old.spent ≡ false }
    ensures turn { IfOk result (TakesItem resume_machine (spot cursor.old runtime.old.state)
        (spot cursor.new runtime.new.state) text.old.items text.new.items) }
    ensures unspent { IfOk result (λ turn. turn ≡ turns.Taken → runtime.new.spent ≡ false) }
{
    let at = cursor.at();
    let block = match <Option<Block>>::read(alloc, cursor) {
        Ok(Some(block)) => block,
        Ok(None) => return tell_stop(cursor, runtime, text),
        Err(ReadFault::Wire(fault)) => {
            tell_fault(text, fault.at, fault.why)?;
            return Ok(Turn::Last { faulty: true });
        }
        Err(ReadFault::NoMemory) => return Err(NoMemory),
    };
    // the place behind the block is a number, and so is each place in it
    let _behind = cursor.at();
    match runtime.apply(block) {
        Ok(receipt) => {
            tell_lines(text, receipt.lines.as_slice())?;
            Ok(Turn::Taken)
        }
        Err(BlockFault::WrongNumber { due, found }) => {
            // the number stands behind the tag of the Option
            tell_other_number(text, at + 1, due, found)?;
            Ok(Turn::Last { faulty: true })
        }
        Err(BlockFault::Spent) => unreachable!(),
        Err(BlockFault::NoMemory) => Err(NoMemory),
    }
}

/// Takes blocks until none is left or a fault stands, and answers whether a fault line ends the
/// text.
fn take_blocks(
    alloc: Global,
    cursor: &mut Cursor<'_>,
    runtime: &mut Runtime,
    text: &mut Vec<u8>,
) -> Result<bool, NoMemory>
    requires unspent { runtime.old.spent ≡ false }
    ensures { IfOk result (GoesOn resume_machine (spot cursor.old runtime.old.state)
        text.old.items text.new.items) }
{
    'turns: loop {
        match take_block(alloc, cursor, runtime, text)? {
            Turn::Taken => {}
            Turn::Last { faulty } => return Ok(faulty),
        }
    }
}

/// What is owed for the whole input of a replay that goes on.
fn resume_answer(alloc: Global, bytes: &[u8]) -> Result<Answer, NoMemory>
    ensures { IfOk result (λ answer. JobOwes (Some jobs.Resume) bytes.now
        answer.text.items (status_of answer.ending)) }
{
    let mut text = Vec::new(alloc);
    let mut cursor = Cursor::new(bytes, 0);
    let state = match read_state(alloc, &mut cursor) {
        Ok(state) => state,
        Err(ReadFault::Wire(fault)) => {
            tell_fault(&mut text, fault.at, fault.why)?;
            return Ok(faulty(text));
        }
        Err(ReadFault::NoMemory) => return Err(NoMemory),
    };
    let mut runtime = match Runtime::restore(alloc, state) {
        Ok(runtime) => runtime,
        Err(fault) => {
            tell_state_fault(&mut text, fault)?;
            return Ok(faulty(text));
        }
    };
    if take_blocks(alloc, &mut cursor, &mut runtime, &mut text)? {
        return Ok(faulty(text));
    }
    Ok(Answer {
        text,
        ending: Ending::Done,
    })
}

/// Reads all that is left in the source, and answers what is owed for it.
fn answer_left<S: Source>(alloc: Global, source: &mut S) -> Result<Answer, Halt>
    ensures due { IfOk result (λ answer. FindsFor (Some jobs.Resume) (S.left source.old)
        answer.text.items (status_of answer.ending)) }
    ensures drained { IfOk result (λ _. IsDrained (S.left source.old) (S.left source.new)) }
    ensures faults { Counts halts.ReadFault (S.faults source.old) (S.faults source.new) result }
    ensures asks { AsksInTime (S.asked source.old) (S.asked source.new) }
    ensures unwritten { IfErr result (λ halt. halt ≢ halts.WriteFault) }
{
    let bytes = read_all(alloc, source)?;
    let answer = resume_answer(alloc, bytes.as_slice())?;
    Ok(answer)
}

/// Goes on from the checkpoint that is left in the source with the blocks behind it, and writes what
/// they tell.
pub fn resume<S: Source, K: Sink>(
    alloc: Global,
    source: &mut S,
    sink: &mut K,
) -> Result<Status, Halt>
    ensures ran { Ran (Some jobs.Resume) (traffic S.left K.told S.faults K.faults
        source.old source.new sink.old sink.new) result }
    ensures unwritten { IfErr result (λ halt. halt ≢ halts.WriteFault → sink.new ≡ sink.old) }
    ensures asks { AsksInTime (S.asked source.old) (S.asked source.new) }
    ensures settles { Settles (K.tried sink.old) (K.tried sink.new) result }
{
    let answer = answer_left(alloc, source)?;
    deliver(sink, answer.text.as_slice(), status_of(answer.ending))
}
