//! An input that is read whole, to its end or up to a limit.
ghost use Rattle.std.specs.Prelude.{◌≡◌, ◌≢◌, ◌+◌, ◌<◌, ◌≤◌, ◌^◌, true, false, [], length, vec_len, IfOk, IfErr};
ghost use Rattle.run_edges.specs.declared.halt.Halt.TheVariants as halts;
ghost use Rattle.run_edges.specs.Owed.{Counts, LeftAfter, IsAll, IsDrained, TakesMore, TakesAtMost, ReadsUpTo, AsksInTime};

use crate::halt::Halt;
use crate::pieces::{PIECE, blank_piece, read_more};
use npos_base::Source;
use std::alloc::Global;

/// Reads on until the input has ended or more than `most` bytes were read, but never more than one
/// byte beyond.
#[tactic(auto, using(crate::proofs::EdgeLaws::takings, crate::proofs::AskLaws::askings))]
pub fn read_up_to<S: Source>(alloc: Global, source: &mut S, most: usize) -> Result<Vec<u8>, Halt>
    requires { most < 2 ^ 32 }
    ensures read { IfOk result
        (λ bytes. ReadsUpTo most (S.left source.old) (S.left source.new) bytes.items) }
    ensures few { TakesAtMost (most + 1) (S.left source.old) (S.left source.new) }
    ensures faults { Counts halts.ReadFault (S.faults source.old) (S.faults source.new) result }
    ensures asks { AsksInTime (S.asked source.old) (S.asked source.new) }
    ensures unwritten { IfErr result (λ halt. halt ≢ halts.WriteFault) }
{
    let mut bytes = Vec::new(alloc);
    let mut piece = blank_piece(alloc, PIECE)?;
    'reads: while bytes.len() <= most {
        let room = (most + 1 - bytes.len()).min(PIECE);
        let (front, _) = piece.as_mut_slice().split_at_mut(room);
        if read_more(source, front, &mut bytes)? {
            return Ok(bytes);
        }
    }
    Ok(bytes)
}

/// Reads on until the input has ended.
#[tactic(auto, using(crate::proofs::EdgeLaws::all_read, crate::proofs::EdgeLaws::takes_on, crate::proofs::AskLaws::askings))]
pub fn read_all<S: Source>(alloc: Global, source: &mut S) -> Result<Vec<u8>, Halt>
    ensures all { IfOk result (λ bytes. IsAll (S.left source.old) bytes.items) }
    ensures drained { IfOk result (λ _. IsDrained (S.left source.old) (S.left source.new)) }
    ensures faults { Counts halts.ReadFault (S.faults source.old) (S.faults source.new) result }
    ensures asks { AsksInTime (S.asked source.old) (S.asked source.new) }
    ensures unwritten { IfErr result (λ halt. halt ≢ halts.WriteFault) }
{
    let mut bytes = Vec::new(alloc);
    let mut piece = blank_piece(alloc, PIECE)?;
    'reads: loop {
        if read_more(source, piece.as_mut_slice(), &mut bytes)? {
            return Ok(bytes);
        }
    }
}
