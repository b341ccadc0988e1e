//! Worked streams, whose texts were made by another program, chosen so that a rule told otherwise
//! changes one of them.
use crate::ordinary::{KEPT, KEPT_NUMBERS, KEPT_TEXT, ORDINARY, ORDINARY_NUMBERS, ORDINARY_TEXT};
use crate::outside::{calm, run_over};
use crate::stream_calls::{Call, put_block, put_blocks, put_genesis, stream_of};
use crate::stream_rows::STREAMS;
use npos_base::{List, NoMemory};
use scale_wire::Pen;
use std::alloc::Global;
use std::test::Fail;

/// What a replay of these bytes writes, and its status.
pub fn replay(alloc: Global, bytes: List<u8>) -> Result<(Vec<u8>, u8), NoMemory> {
    run_verb(alloc, "replay", bytes)
}

/// What a verb that has no options writes of these bytes, and its status.
pub fn run_verb(alloc: Global, verb: &str, bytes: List<u8>) -> Result<(Vec<u8>, u8), NoMemory> {
    let ran = run_over(alloc, &["npos", verb], bytes, calm(64))?;
    Ok((ran.written, ran.status))
}

#[test]
fn worked_streams_write_their_texts(rt: HostRuntime) -> Result<(), Fail> {
    for stream in &STREAMS {
        let bytes = stream_of(rt.alloc(), stream)?;
        let (written, status) = replay(rt.alloc(), bytes)?;
        assert_eq!(rt; written.as_slice(), stream.text.as_bytes());
        assert_eq!(rt; status, 0);
    }
    Ok(())
}

#[test]
fn an_ordinary_run_writes_its_text(rt: HostRuntime) -> Result<(), Fail> {
    let mut pen = Pen::new(rt.alloc());
    put_genesis(&mut pen, 20, 1000, 20, &ORDINARY_NUMBERS)?;
    put_blocks(&mut pen, &ORDINARY)?;
    let (written, status) = replay(rt.alloc(), pen.finish())?;
    assert_eq!(rt; written.as_slice(), ORDINARY_TEXT.as_bytes());
    assert_eq!(rt; status, 0);
    Ok(())
}

/// The calls of the block with this number.
fn kept_calls(number: u64) -> &'static [Call] {
    for &(at, calls) in &KEPT {
        if at == number {
            return calls;
        }
    }
    &[]
}

#[test]
fn an_era_goes_when_84_stand_behind_it(rt: HostRuntime) -> Result<(), Fail> {
    let mut pen = Pen::new(rt.alloc());
    put_genesis(&mut pen, 5, 100, 9, &KEPT_NUMBERS)?;
    for number in 1..260u64 {
        put_block(&mut pen, number, kept_calls(number))?;
    }
    pen.put_u8(0)?;
    let (written, status) = replay(rt.alloc(), pen.finish())?;
    assert!(rt; written.as_slice().ends_with(KEPT_TEXT.as_bytes()));
    assert_eq!(rt; status, 0);
    Ok(())
}
