//! What a replay tells: receipts, or the state that it comes to.
ghost use Rattle.std.specs.Prelude.{◌≡◌, ◌++◌, false, OnOk};
ghost use Rattle.npos_runtime.specs.Kept.State.{kept};
ghost use Rattle.state_checkpoint.specs.Layout.{state_form};
ghost use Rattle.npos_cli.specs.Outputs.{block_text, end_text};

use crate::telling::{tell_end, tell_lines};
use npos_base::NoMemory;
use npos_runtime::{Line, Runtime, SaveFault};
use state_checkpoint::write_state;
use std::alloc::Global;

/// What a replay tells.
#[derive(Clone, Copy, Debug, PartialEq, Eq)]
pub enum Output {
    /// The lines of each block, and the end line.
    Receipts,
    /// The checkpoint of the state behind the last block, and nothing before it.
    Checkpoint,
}

/// Appends what is told of the lines of a block.
pub fn tell_block(output: Output, text: &mut Vec<u8>, lines: &[Line]) -> Result<(), NoMemory>
    ensures { OnOk result (text.new.items ≡ text.old.items ++ block_text output lines.now) }
{
    match output {
        Output::Receipts => tell_lines(text, lines),
        Output::Checkpoint => Ok(()),
    }
}

/// Appends the checkpoint of the chain.
fn tell_checkpoint(alloc: Global, text: &mut Vec<u8>, runtime: &Runtime) -> Result<(), NoMemory>
    requires unspent { runtime.now.spent ≡ false }
    requires range { state_form.in_range (kept runtime.now.state) }
    ensures { OnOk result (text.new.items
        ≡ text.old.items ++ state_form.spelling (kept runtime.now.state)) }
{
    let state = match runtime.save(alloc) {
        Ok(state) => state,
        Err(SaveFault::Spent) => unreachable!(),
        Err(SaveFault::NoMemory) => return Err(NoMemory),
    };
    let bytes = write_state(alloc, &state)?;
    text.extend_from_slice(bytes.as_slice())?;
    Ok(())
}

/// Appends what is told of the chain where the input ends.
pub fn tell_chain(
    alloc: Global,
    output: Output,
    text: &mut Vec<u8>,
    runtime: &Runtime,
) -> Result<(), NoMemory>
    requires unspent { runtime.now.spent ≡ false }
    requires range { state_form.in_range (kept runtime.now.state) }
    ensures { OnOk result
        (text.new.items ≡ text.old.items ++ end_text output runtime.now.state) }
{
    match output {
        Output::Receipts => tell_end(text, &runtime.totals()),
        Output::Checkpoint => tell_checkpoint(alloc, text, runtime),
    }
}
