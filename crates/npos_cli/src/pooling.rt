//! The input of a stake pool: its items are taken as its pieces come, and what they tell is kept
//! until the input has ended.
ghost use Rattle.std.specs.Prelude.{◌≡◌, ◌≢◌, ◌≤◌, Some, [], true, false, IfOk, IfErr, OnErr};
ghost use Rattle.scale_wire.specs.Form.{IsBytes};
ghost use Rattle.stake_pools.specs.Input.{pool_genesis_form};
ghost use Rattle.npos_cli.specs.declared.job.Job.TheVariants as jobs;
ghost use Rattle.run_edges.specs.declared.halt.Halt.TheVariants as halts;
ghost use Rattle.run_edges.specs.declared.turn.Stop.TheVariants as stops;
ghost use Rattle.npos_cli.specs.Owed.{FindsFor};
ghost use Rattle.run_edges.specs.Owed.{IsDrained, Counts, AsksInTime, Settles};
ghost use Rattle.npos_cli.specs.Ran.{Ran, traffic};
ghost use Rattle.run_edges.specs.Status.{status_of, replay_status};
ghost use Rattle.npos_cli.specs.Pools.{pool_ending, pool_machine};
ghost use Rattle.run_edges.specs.Turning.{TakesTurn, StopsHere, IsGoing};
ghost use Rattle.run_edges.specs.Intake.{TellsOn, Opens, GoesToEnd, IsSettled, StaysSettled, StaysTimely, TakesOrWaits, nothing_held};
ghost use Rattle.npos_cli.specs.Pooling.{pool_spot};

use crate::pool_lines::{tell_pool, tell_pool_fault, tell_pool_lines};
use bundle_reports::{Answer, Ending, tell_fault};
use npos_base::{NoMemory, Sink, Source};
use run_edges::{Halt, Intake, Status, Stop, Turn, deliver, is_cut, is_open_none, status_of};
use scale_wire::fault::{ReadFault, Why, WireFault};
use scale_wire::{Cursor, Wire};
use stake_pools::{Pool, PoolBlock, PoolGenesis, PoolItem};
use std::alloc::Global;

/// Ends the text behind the None: with the lines of the pool, or because a byte follows.
fn tell_stop(cursor: &Cursor<'_>, pool: &Pool, text: &mut Vec<u8>) -> Result<Stop, NoMemory>
    ensures { IfOk result (StopsHere cursor.now (pool_ending pool.now.state) text.old.items text.new.items) }
{
    if !cursor.rest().is_empty() {
        tell_fault(text, cursor.at(), Why::Trailing)?;
        return Ok(Stop::Last { faulty: true });
    }
    tell_pool(text, pool)?;
    Ok(Stop::Last { faulty: false })
}

/// Takes what stands next, and appends what it tells.
fn take_item(
    alloc: Global,
    ended: bool,
    cursor: &mut Cursor<'_>,
    pool: &mut Pool,
    asked: &mut u64,
    text: &mut Vec<u8>,
) -> Result<Turn, NoMemory>
    requires unspent { pool.old.spent ≡ false }
    requires counted { asked.old ≤ cursor.old.at }
    ensures turn { IfOk result (TakesTurn pool_machine ended
        (pool_spot cursor.old asked.old pool.old.state)
        (pool_spot cursor.new asked.new pool.new.state) text.old.items text.new.items) }
    ensures unspent { IfOk result (λ turn. IsGoing turn → pool.new.spent ≡ false) }
    ensures counted { IfOk result (λ turn. IsGoing turn → asked.new ≤ cursor.new.at) }
{
    if is_open_none(ended, cursor.rest()) {
        return Ok(Turn::Stopped(Stop::More));
    }
    let item = match <Option<PoolItem>>::read(alloc, cursor) {
        Ok(Some(item)) => item,
        Ok(None) => return Ok(Turn::Stopped(tell_stop(cursor, pool, text)?)),
        Err(ReadFault::Wire(fault)) => {
            if is_cut(ended, fault.why) {
                return Ok(Turn::Stopped(Stop::More));
            }
            tell_fault(text, fault.at, fault.why)?;
            return Ok(Turn::Stopped(Stop::Last { faulty: true }));
        }
        Err(ReadFault::NoMemory) => return Err(NoMemory),
    };
    // the place behind the item is a number, and so is the count of the items
    let _behind = cursor.at();
    match pool.take(item.who, item.kind) {
        Ok(told) => {
            tell_pool_lines(text, *asked, &told)?;
            *asked += 1;
            Ok(Turn::Taken)
        }
        Err(PoolBlock::Spent) => unreachable!(),
        Err(PoolBlock::NoMemory) => Err(NoMemory),
    }
}

/// Takes items until bytes are missing or the input ends.
fn take_items(
    alloc: Global,
    ended: bool,
    cursor: &mut Cursor<'_>,
    pool: &mut Pool,
    asked: &mut u64,
    text: &mut Vec<u8>,
) -> Result<Stop, NoMemory>
    requires unspent { pool.old.spent ≡ false }
    requires counted { asked.old ≤ cursor.old.at }
    ensures tells { IfOk result (TellsOn pool_machine ended
        (pool_spot cursor.old asked.old pool.old.state)
        (pool_spot cursor.new asked.new pool.new.state) text.old.items text.new.items) }
    ensures unspent { IfOk result (λ stop. stop ≡ stops.More → pool.new.spent ≡ false) }
    ensures counted { IfOk result (λ stop. stop ≡ stops.More → asked.new ≤ cursor.new.at) }
{
    'items: loop {
        match take_item(alloc, ended, cursor, pool, asked, text)? {
            Turn::Taken => {}
            Turn::Stopped(stop) => return Ok(stop),
        }
    }
}

/// Takes the items that are held, and keeps the bytes of one that is cut.
fn take_held(
    alloc: Global,
    intake: &mut Intake,
    pool: &mut Pool,
    asked: &mut u64,
    text: &mut Vec<u8>,
) -> Result<Stop, NoMemory>
    requires unspent { pool.old.spent ≡ false }
    requires counted { asked.old ≤ intake.old.place.at }
    ensures tells { IfOk result (TellsOn pool_machine intake.old.ended
        (pool_spot intake.old.place asked.old pool.old.state)
        (pool_spot intake.new.place asked.new pool.new.state) text.old.items text.new.items) }
    ensures ended { IfOk result (λ _. intake.new.ended ≡ intake.old.ended) }
    ensures unspent { IfOk result (λ stop. stop ≡ stops.More → pool.new.spent ≡ false) }
    ensures counted { IfOk result (λ stop. stop ≡ stops.More → asked.new ≤ intake.new.place.at) }
{
    let mut cursor = intake.cursor();
    match take_items(alloc, intake.ended(), &mut cursor, pool, asked, text)? {
        Stop::More => {
            let left = cursor.rest().len();
            intake.keep(left);
            Ok(Stop::More)
        }
        Stop::Last { faulty } => Ok(Stop::Last { faulty }),
    }
}

/// Takes items as they come until the input ends or a fault stands, and answers whether a fault line
/// ends the text.
fn take_all<S: Source>(
    alloc: Global,
    source: &mut S,
    intake: &mut Intake,
    pool: &mut Pool,
    text: &mut Vec<u8>,
) -> Result<bool, Halt>
    requires unspent { pool.old.spent ≡ false }
    ensures end { IfOk result (GoesToEnd pool_machine (S.left source.old) (S.left source.new)
        intake.old.ended intake.new.ended (pool_spot intake.old.place 0 pool.old.state)
        text.old.items text.new.items) }
    ensures faults { Counts halts.ReadFault (S.faults source.old) (S.faults source.new) result }
    ensures timely { StaysTimely (S.asked source.old) intake.old.ended
        (S.asked source.new) intake.new.ended result }
    ensures unwritten { IfErr result (λ halt. halt ≢ halts.WriteFault) }
{
    let mut asked = 0;
    'pieces: loop {
        match take_held(alloc, intake, pool, &mut asked, text)? {
            Stop::More => intake.read_on(source)?,
            Stop::Last { faulty } => return Ok(faulty),
        }
    }
}

/// The genesis, where it is tried: once so many bytes are held, or the input has ended. Then twice
/// as many are waited for, so that all tries together cost no more than a few.
fn try_genesis(
    alloc: Global,
    intake: &mut Intake,
    enough: &mut usize,
) -> Result<Option<PoolGenesis>, ReadFault>
    ensures takes { TakesOrWaits pool_genesis_form intake.old result intake.new }
    ensures bytes { OnErr result (IsBytes intake.old.place.rest) }
{
    if !intake.ended() && intake.len() < *enough {
        return Ok(None);
    }
    let genesis = intake.take(alloc)?;
    *enough = intake.len().saturating_mul(2);
    Ok(genesis)
}

/// Takes the genesis once it is held whole.
fn take_genesis<S: Source>(
    alloc: Global,
    source: &mut S,
    intake: &mut Intake,
) -> Result<Result<PoolGenesis, WireFault>, Halt>
    requires fresh { intake.old ≡ nothing_held }
    ensures opens { IfOk result
        (Opens pool_genesis_form (S.left source.old) (S.left source.new) intake.new) }
    ensures faults { Counts halts.ReadFault (S.faults source.old) (S.faults source.new) result }
    ensures timely { StaysTimely (S.asked source.old) intake.old.ended
        (S.asked source.new) intake.new.ended result }
    ensures unwritten { IfErr result (λ halt. halt ≢ halts.WriteFault) }
{
    let mut enough = 0;
    'pieces: loop {
        match try_genesis(alloc, intake, &mut enough) {
            Ok(Some(genesis)) => return Ok(Ok(genesis)),
            Ok(None) => intake.read_on(source)?,
            Err(ReadFault::Wire(fault)) => return Ok(Err(fault)),
            Err(ReadFault::NoMemory) => return Err(Halt::NoMemory),
        }
    }
}

/// Tells all of the input up to its end or a fault, and answers whether a fault line ends the text.
fn tell_input<S: Source>(
    alloc: Global,
    source: &mut S,
    intake: &mut Intake,
    text: &mut Vec<u8>,
) -> Result<bool, Halt>
    requires fresh { intake.old ≡ nothing_held }
    requires empty { text.old.items ≡ [] }
    ensures settled { IfOk result (IsSettled pool_machine (S.left source.old) (S.left source.new)
        intake.new.ended text.new.items) }
    ensures faults { Counts halts.ReadFault (S.faults source.old) (S.faults source.new) result }
    ensures timely { StaysTimely (S.asked source.old) intake.old.ended
        (S.asked source.new) intake.new.ended result }
    ensures unwritten { IfErr result (λ halt. halt ≢ halts.WriteFault) }
{
    let genesis = match take_genesis(alloc, source, intake)? {
        Ok(genesis) => genesis,
        Err(fault) => {
            tell_fault(text, fault.at, fault.why)?;
            return Ok(true);
        }
    };
    let mut pool = match Pool::start(alloc, genesis) {
        Ok(pool) => pool,
        Err(fault) => {
            tell_pool_fault(text, fault)?;
            return Ok(true);
        }
    };
    take_all(alloc, source, intake, &mut pool, text)
}

/// Reads on to the end of the input, and lets go of what comes.
fn read_out<S: Source>(source: &mut S, intake: &mut Intake) -> Result<(), Halt>
    ensures settled { IfOk result (λ _. StaysSettled pool_machine
        (S.left source.old) (S.left source.new) intake.old.ended true) }
    ensures faults { Counts halts.ReadFault (S.faults source.old) (S.faults source.new) result }
    ensures timely { StaysTimely (S.asked source.old) intake.old.ended
        (S.asked source.new) intake.new.ended result }
    ensures unwritten { IfErr result (λ halt. halt ≢ halts.WriteFault) }
{
    'pieces: while !intake.ended() {
        intake.keep(0);
        intake.read_on(source)?;
    }
    Ok(())
}

/// How an answer ends whose text ends with a fault line or not.
fn ending_of(faulty: bool) -> Ending
    ensures { status_of result ≡ replay_status faulty }
{
    if faulty {
        Ending::BadInput
    } else {
        Ending::Done
    }
}

/// Reads all that is left in the source, and answers what is owed for it.
fn answer_left<S: Source>(alloc: Global, source: &mut S) -> Result<Answer, Halt>
    ensures due { IfOk result (λ answer. FindsFor (Some jobs.Pools) (S.left source.old)
        answer.text.items (status_of answer.ending)) }
    ensures drained { IfOk result (λ _. IsDrained (S.left source.old) (S.left source.new)) }
    ensures faults { Counts halts.ReadFault (S.faults source.old) (S.faults source.new) result }
    ensures asks { AsksInTime (S.asked source.old) (S.asked source.new) }
    ensures unwritten { IfErr result (λ halt. halt ≢ halts.WriteFault) }
{
    let mut intake = Intake::new(alloc)?;
    let mut text = Vec::new(alloc);
    let faulty = tell_input(alloc, source, &mut intake, &mut text)?;
    read_out(source, &mut intake)?;
    Ok(Answer {
        text,
        ending: ending_of(faulty),
    })
}

/// Goes through the input of a pool that is left in the source, and writes what it tells.
pub fn pools<S: Source, K: Sink>(
    alloc: Global,
    source: &mut S,
    sink: &mut K,
) -> Result<Status, Halt>
    ensures ran { Ran (Some jobs.Pools) (traffic S.left K.told S.faults K.faults
        source.old source.new sink.old sink.new) result }
    ensures unwritten { IfErr result (λ halt. halt ≢ halts.WriteFault → sink.new ≡ sink.old) }
    ensures asks { AsksInTime (S.asked source.old) (S.asked source.new) }
    ensures settles { Settles (K.tried sink.old) (K.tried sink.new) result }
{
    let answer = answer_left(alloc, source)?;
    deliver(sink, answer.text.as_slice(), status_of(answer.ending))
}
