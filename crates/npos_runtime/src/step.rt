//! The parts of a step: each tells its lines and says what becomes of the chain.
ghost use Rattle.std.specs.Prelude.{◌≡◌, ◌+◌, ◌<◌, ◌≤◌, ◌^◌, ◌++◌, [], ◌∷◌, length, take, vec_len, OnOk, IfOk};
ghost use Rattle.block_receipts.specs.declared.line.Line.TheVariants as variants;
ghost use Rattle.block_receipts.specs.Refusals.{code_of};
ghost use Rattle.npos_runtime.specs.Rules.Outcome.{Goes, Outcome};
ghost use Rattle.npos_runtime.specs.Step.{call_outcome, calls_outcome, opened, step};
ghost use Rattle.npos_runtime.specs.Rules.Rounds.{round_phase};
ghost use Rattle.npos_runtime.specs.Live.{IsLive, IsReady, CanDefer};

use crate::Chain;
use crate::act::act;
use crate::ahead::Ahead;
use crate::ballot::take_snapshot;
use crate::decision::decide_round;
use crate::era::begin_era;
use block_receipts::{Line, Refusal, Stop};
use block_wire::Call;
use chain_params::begun_round;
use npos_base::NoMemory;
use std::alloc::Global;

/// A round may begin, with its snapshot.
fn begin_round(alloc: Global, chain: &mut Chain, lines: &mut Vec<Line>) -> Result<(), NoMemory>
    requires { IsLive chain.old }
    ensures { OnOk result (Goes (round_phase chain.old) chain.new lines.old.items lines.new.items) }
{
    if let Some(number) = begun_round(&chain.params, chain.due) {
        let (round, line) = take_snapshot(alloc, chain, number)?;
        lines.push(line)?;
        chain.round = Some(round);
    }
    Ok(())
}

/// The line of a call that was refused, in place of what was told of it. It is rare, and what it
/// puts together has room of its own here.
#[inline(never)]
fn tell_refused(
    lines: &mut Vec<Line>,
    told: usize,
    index: u32,
    refusal: Refusal,
) -> Result<(), NoMemory>
    requires { told ≤ vec_len lines.old }
    ensures { OnOk result (lines.new.items
        ≡ take told lines.old.items ++ variants.CallRefused index (code_of refusal) ∷ []) }
{
    lines.truncate(told);
    lines.push(Line::CallRefused {
        index,
        code: refusal.code(),
    })?;
    Ok(())
}

/// One call, at its place in the block.
fn take_call(
    alloc: Global,
    chain: &mut Chain,
    lines: &mut Vec<Line>,
    ahead: &mut Ahead,
    index: u32,
    call: Call,
) -> Result<(), NoMemory>
    requires live { IsLive chain.old }
    requires numbers { chain.old.next + 1 < 2 ^ 64 }
    requires slashes { CanDefer chain.old }
    requires slash_numbers { chain.old.eras.next_slash + 1 < 2 ^ 64 }
    ensures { OnOk result (Goes
        (call_outcome index call chain.old) chain.new lines.old.items lines.new.items) }
{
    let Call { who, kind } = call;
    let told = lines.len();
    lines.reserve(1)?;
    lines.push_reserved(Line::CallOk { index });
    match act(alloc, chain, lines, ahead, who, kind) {
        Ok(()) => Ok(()),
        Err(Stop::Refused(refusal)) => tell_refused(lines, told, index, refusal),
        Err(Stop::NoMemory) => Err(NoMemory),
    }
}

/// The calls in order.
fn take_calls(
    alloc: Global,
    chain: &mut Chain,
    lines: &mut Vec<Line>,
    calls: Vec<Call>,
) -> Result<(), NoMemory>
    requires live { IsLive chain.old }
    requires few { length calls.items < 2 ^ 32 }
    requires numbers { chain.old.next + length calls.items < 2 ^ 64 }
    requires slashes { CanDefer chain.old }
    requires slash_numbers { chain.old.eras.next_slash + length calls.items < 2 ^ 64 }
    ensures goes { OnOk result
        (Goes (calls_outcome 0 calls.items chain.old) chain.new lines.old.items lines.new.items) }
    ensures live_after { OnOk result (IsLive chain.new) }
{
    let mut ahead = Ahead::of_calls(alloc, chain, calls.as_slice())?;
    let mut index = 0;
    'turns: for call in calls {
        take_call(alloc, chain, lines, &mut ahead, index, call)?;
        index += 1;
    }
    Ok(())
}

/// The whole step of the block that is due.
pub fn take_block(
    alloc: Global,
    chain: &mut Chain,
    lines: &mut Vec<Line>,
    number: u32,
    calls: Vec<Call>,
) -> Result<(), NoMemory>
    requires ready { IsReady chain.old }
    requires few { length calls.items < 2 ^ 32 }
    requires due { number ≡ chain.old.due }
    ensures goes { OnOk result
        (Goes (step chain.old
        (record { number = number; calls = calls.items })) chain.new lines.old.items
        lines.new.items) }
    ensures ready_after { OnOk result (IsReady chain.new) }
{
    lines.push(Line::Block { number })?;
    begin_era(alloc, chain, lines)?;
    begin_round(alloc, chain, lines)?;
    decide_round(alloc, chain, lines)?;
    take_calls(alloc, chain, lines, calls)?;
    chain.due += 1;
    Ok(())
}
