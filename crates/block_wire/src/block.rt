//! Blocks: the calls that are made at one step of the chain.

use crate::Call;
use crate::limits::MOST_CALLS;
use npos_base::{List, NoMemory};
use scale_wire::fault::ReadFault;
use scale_wire::{Cursor, Pen, UpTo, Wire, write_list};
use std::alloc::Global;

/// A block: its number, from 1, and its calls, which are made in order.
#[derive(Debug, Drop)]
pub struct Block {
    pub number: u32,
    pub calls: List<Call>,
}

impl Wire for Block {
    ghost use Rattle.block_wire.specs.Calls.{block_form};
    ghost use Rattle.block_wire.specs.CallLaws.{block_laws};

    ghost form = { block_form };

    ghost laws = { block_laws };

    fn write(&self, pen: &mut Pen) -> Result<(), NoMemory> {
        self.number.write(pen)?;
        write_list(&self.calls, pen)
    }

    fn read(alloc: Global, cursor: &mut Cursor<'_>) -> Result<Block, ReadFault> {
        let (number, calls) = <(u32, UpTo<Call, MOST_CALLS>)>::read(alloc, cursor)?;
        Ok(Block {
            number,
            calls: calls.into_list(),
        })
    }
}
