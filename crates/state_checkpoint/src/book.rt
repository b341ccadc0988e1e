//! What accounts have.
use crate::limits::MOST_CHUNKS;
use npos_base::NoMemory;
use scale_wire::fault::ReadFault;
use scale_wire::{Cursor, Layout, ListOf, Own, Pen, Wire, write_both, write_three_by};
use stake_ledger::{BookRow, Chunk};
use std::alloc::Global;

pub(crate) struct ChunkLayout;

impl Layout<Chunk> for ChunkLayout {
    ghost use Rattle.state_checkpoint.specs.Layout.{chunk_form};

    ghost form = { chunk_form };

    fn write(chunk: &Chunk, pen: &mut Pen) -> Result<(), NoMemory> {
        write_both(&chunk.value, &chunk.release, pen)
    }

    fn read(alloc: Global, cursor: &mut Cursor<'_>) -> Result<Chunk, ReadFault> {
        let (value, release) = <(u64, u32)>::read(alloc, cursor)?;
        Ok(Chunk { value, release })
    }
}

type Chunks = ListOf<ChunkLayout, MOST_CHUNKS>;

pub(crate) struct RowLayout;

impl Layout<BookRow> for RowLayout {
    ghost use Rattle.state_checkpoint.specs.Layout.{row_form};

    ghost form = { row_form };

    fn write(row: &BookRow, pen: &mut Pen) -> Result<(), NoMemory> {
        let units = (row.who, row.free, row.active);
        write_three_by::<_, _, _, Own, Chunks, Own>(&units, &row.chunks, &row.held, pen)
    }

    fn read(alloc: Global, cursor: &mut Cursor<'_>) -> Result<BookRow, ReadFault> {
        let ((who, free, active), chunks, held) = <(Own, Chunks, Own) as Layout<_>>::read(
            alloc, cursor,
        )?;
        Ok(BookRow {
            who,
            free,
            active,
            chunks,
            held,
        })
    }
}
