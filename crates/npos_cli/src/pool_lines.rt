//! The lines of a pool's items, of its genesis's faults, and of the pool itself.
ghost use Rattle.std.specs.Prelude.{◌≡◌, ◌≢◌, ◌++◌, ◌^◌, ◌<◌, flat_map, OnOk};
ghost use Rattle.stake_ledger.specs.Ledger.{totals_of};
ghost use Rattle.told_lines.specs.Texts.{ok_line};
ghost use Rattle.stake_pools.specs.Genesis.{fault_numbers};
ghost use Rattle.stake_pools.specs.Step.{in_order};
ghost use Rattle.stake_pools.specs.declared.fault.PoolFault.TheVariants as faults;
ghost use Rattle.npos_cli.specs.Texts.{genesis_line};
ghost use Rattle.npos_cli.specs.Chain.{end_line};
ghost use Rattle.npos_cli.specs.Pools.{figures_line, pool_line, pool_line_text};

use crate::telling::{tell_counted, tell_end, tell_fault_of_genesis, tell_two};
use npos_base::NoMemory;
use stake_pools::{Pool, PoolFault, PoolLine, PoolLines};
use told_lines::{Piece, tell, tell_amount, tell_ok};

/// Appends the line of a pool's genesis that has a fault. Want of memory is no fault of a genesis,
/// and has no line.
pub fn tell_pool_fault(text: &mut Vec<u8>, fault: PoolFault) -> Result<(), NoMemory>
    ensures line { OnOk result (text.new.items ≡ text.old.items
        ++ genesis_line (fault_numbers fault)) }
    ensures memory { OnOk result (fault ≢ faults.NoMemory) }
{
    match fault.numbers() {
        None => Err(NoMemory),
        Some((number, detail)) => tell_fault_of_genesis(text, number, detail),
    }
}

/// Appends the line of an item that was accepted. Most inputs have fewer items than 32 bits count.
fn tell_accepted(text: &mut Vec<u8>, index: u64) -> Result<(), NoMemory>
    ensures { OnOk result (text.new.items ≡ text.old.items ++ ok_line index) }
{
    match u32::try_from(index) {
        Ok(index) => tell_ok(text, index),
        Err(_) => tell_counted(text, "call ", index, " ok\n"),
    }
}

/// Appends one line of the item with this number.
fn tell_pool_line(text: &mut Vec<u8>, index: u64, line: &PoolLine) -> Result<(), NoMemory>
    ensures { OnOk result (text.new.items ≡ text.old.items ++ pool_line_text index line.now) }
{
    match *line {
        PoolLine::Accepted => tell_accepted(text, index),
        PoolLine::Refused(code) => tell_two(text, "call ", index, " refused ", u64::from(code)),
        PoolLine::Paid { who, amount } => tell_amount(text, b"paid ", who, amount),
        PoolLine::Slashed { who, amount } => tell_amount(text, b"slashed ", who, amount),
    }
}

/// Appends the lines of the item with this number, in order.
pub fn tell_pool_lines(text: &mut Vec<u8>, index: u64, told: &PoolLines) -> Result<(), NoMemory>
    ensures { OnOk result (text.new.items
        ≡ text.old.items ++ flat_map (pool_line_text index) (in_order told.now)) }
{
    tell_pool_line(text, index, &told.first)?;
    match &told.more {
        Some(more) => tell_pool_line(text, index, more),
        None => Ok(()),
    }
}

/// Appends the line of the figures of a pool.
fn tell_figures(
    text: &mut Vec<u8>,
    points: u64,
    active: u64,
    pot: u64,
    credits: u64,
) -> Result<(), NoMemory>
    ensures { OnOk result
        (text.new.items ≡ text.old.items ++ figures_line points active pot credits) }
{
    tell(
        text,
        &[
            Piece::Words("pool points "),
            Piece::Number(points),
            Piece::Words(" active "),
            Piece::Number(active),
            Piece::Words(" pot "),
            Piece::Number(pot),
            Piece::Words(" credits "),
            Piece::Number(credits),
            Piece::Words("\n"),
        ],
    )
}

/// Appends the line of the pool, and the end line.
pub fn tell_pool(text: &mut Vec<u8>, pool: &Pool) -> Result<(), NoMemory>
    ensures { OnOk result (text.new.items ≡ text.old.items
        ++ (pool_line pool.now.state ++ end_line (totals_of pool.now.state.book))) }
{
    tell_figures(
        text,
        pool.points(),
        pool.active(),
        pool.pot(),
        pool.credits(),
    )?;
    tell_end(text, &pool.book().totals())
}
