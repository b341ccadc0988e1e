//! An input that is read by pieces.
ghost use Rattle.std.specs.Prelude.{◌≡◌, ◌≢◌, ◌+◌, ◌<◌, ◌≤◌, ◌^◌, false, length, vec_len, IfOk, IfErr};
ghost use Rattle.run_edges.specs.declared.halt.Halt.TheVariants as halts;
ghost use Rattle.run_edges.specs.Owed.{Counts, TakesMore, TakesAtMost, AsksOnce};
ghost use Rattle.run_edges.specs.Ahead.{FeedsMore};

use crate::halt::Halt;
use block_wire::StreamReader;
use npos_base::{Failed, NoMemory, Source};
use std::alloc::Global;

/// The most bytes of one read.
pub const PIECE: usize = 65_536;

/// A buffer for one read.
pub fn blank_piece(alloc: Global, size: usize) -> Result<Vec<u8>, NoMemory>
    ensures { IfOk result (λ piece. vec_len piece ≡ size) }
{
    let piece = Vec::from_elem(alloc, 0, size)?;
    Ok(piece)
}

/// Appends what one read gives, and answers whether the input has ended.
#[tactic(auto, using(crate::proofs::EdgeLaws::takes_some, crate::proofs::EdgeLaws::takes_no_more, crate::proofs::AskLaws::piece_asks))]
pub fn read_more<S: Source>(
    source: &mut S,
    piece: &mut [u8],
    bytes: &mut Vec<u8>,
) -> Result<bool, Halt>
    requires { 0 < length piece.old }
    ensures taken { IfOk result
        (λ ended. TakesMore (S.left source.old)
        (S.left source.new) bytes.old.items bytes.new.items ended) }
    ensures longer { IfOk result (λ ended. ended ≡ false → vec_len bytes.old < vec_len bytes.new) }
    ensures within { vec_len bytes.new ≤ vec_len bytes.old + length piece.old }
    ensures few { TakesAtMost (length piece.old) (S.left source.old) (S.left source.new) }
    ensures faults { Counts halts.ReadFault (S.faults source.old) (S.faults source.new) result }
    ensures asks { AsksOnce (S.asked source.old) (S.asked source.new) result }
    ensures unwritten { IfErr result (λ halt. halt ≢ halts.WriteFault) }
{
    let count = match source.read(piece) {
        Ok(count) => count,
        Err(Failed) => return Err(Halt::ReadFault),
    };
    match bytes.extend_from_slice(&piece[..count]) {
        Ok(()) => Ok(count == 0),
        Err(refused) => Err(Halt::from(NoMemory::from(refused))),
    }
}

/// Reads once and feeds what came to the reader, and answers whether the input has ended.
#[tactic(auto, using(crate::proofs::FeedLaws::feeds, crate::proofs::AskLaws::piece_asks, crate::proofs::EdgeLaws::takes_no_more))]
pub fn read_piece<S: Source>(
    source: &mut S,
    piece: &mut [u8],
    reader: &mut StreamReader,
) -> Result<bool, Halt>
    requires some { 0 < length piece.old }
    requires one_piece { length piece.old ≤ 65536 }
    requires room { reader.old.at + length reader.old.rest + 65536 < 2 ^ 64 }
    ensures feeds { FeedsMore (S.left source.old) (S.left source.new) reader.old reader.new result }
    ensures further { IfOk result (λ ended. ended ≡ false
        → length reader.old.rest < length reader.new.rest) }
    ensures faults { Counts halts.ReadFault (S.faults source.old) (S.faults source.new) result }
    ensures asks { AsksOnce (S.asked source.old) (S.asked source.new) result }
    ensures few { TakesAtMost (S.asked source.new).last (S.left source.old) (S.left source.new) }
    ensures one_piece { (S.asked source.new).last ≤ 65536 }
{
    let Ok(count) = source.read(piece) else {
        return Err(Halt::ReadFault);
    };
    match reader.feed(&piece[..count]) {
        Ok(()) => Ok(count == 0),
        Err(NoMemory) => Err(Halt::NoMemory),
    }
}
