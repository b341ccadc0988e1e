//! Streams that stop behind a block and go on from its checkpoint: what is written then is what the
//! whole replay writes there. The texts were made by another program.
use crate::stream_calls::{Call, Stream, put_block, put_stream_genesis};
use crate::stream_rows::{SECOND_WINS, STREAMS};
use crate::streams::run_verb;
use npos_base::{List, NoMemory};
use scale_wire::Pen;
use std::alloc::Global;
use std::test::Fail;

// The bytes of the accounts 1 and 2.
const ONE: [u8; 32] = [
    0, 0, 0, 0, 0, 0, 0, 0, 0, 0, 0, 0, 0, 0, 0, 0, 0, 0, 0, 0, 0, 0, 0, 0, 0, 0, 0, 0, 0, 0, 0, 1,
];

const TWO: [u8; 32] = [
    0, 0, 0, 0, 0, 0, 0, 0, 0, 0, 0, 0, 0, 0, 0, 0, 0, 0, 0, 0, 0, 0, 0, 0, 0, 0, 0, 0, 0, 0, 0, 2,
];

// A plain genesis: account 1 has 100 units and account 2 has none. No block follows.
const GENESIS: [&[u8]; 5] = [&[0x00, 0x08], &ONE, &[0x91, 0x01], &TWO, &[0x00, 0x00]];

// Its state: the form, no params, block 1 due, the sums, two rows, and nothing else but the next
// numbers.
const STATE: [&[u8]; 5] = [
    &[0x00, 0x00, 0x04, 0x91, 0x01, 0x00, 0x00, 0x01],
    &ONE,
    &[0x91, 0x01, 0x00, 0x00, 0x00, 0x01],
    &TWO,
    &[
        0x00, 0x00, 0x00, 0x00, 0x00, 0x00, 0x00, 0x00, 0x04, 0x00, 0x00, 0x04, 0x00,
    ],
];

// Block 1: account 1 transfers 40 and 61 to account 2. No block follows.
const TRANSFERS: [&[u8]; 9] = [
    &[0x01, 0x04, 0x08],
    &ONE,
    &[0x00],
    &TWO,
    &[0xa0],
    &ONE,
    &[0x00],
    &TWO,
    &[0xf4, 0x00],
];

const TRANSFERS_TEXT: &str =
    "block 1\ncall 0 ok\ncall 1 refused 1\nend free 100 active 0 unlocking 0 deposits 0 minted 0 burned 0 issuance 100\n";

fn put(pen: &mut Pen, parts: &[&[u8]]) -> Result<(), NoMemory> {
    for part in parts {
        pen.put_bytes(part)?;
    }
    Ok(())
}

fn joined(alloc: Global, parts: &[&[u8]]) -> Result<List<u8>, NoMemory> {
    let mut pen = Pen::new(alloc);
    put(&mut pen, parts)?;
    Ok(pen.finish())
}

fn plain_genesis(alloc: Global) -> Result<List<u8>, NoMemory> {
    joined(alloc, &GENESIS)
}

fn plain_state(alloc: Global) -> Result<List<u8>, NoMemory> {
    joined(alloc, &STATE)
}

fn state_and_transfers(alloc: Global) -> Result<List<u8>, NoMemory> {
    let mut pen = Pen::new(alloc);
    put(&mut pen, &STATE)?;
    put(&mut pen, &TRANSFERS)?;
    Ok(pen.finish())
}

/// The state where account 1 has 99 units.
fn wrong_state(alloc: Global) -> Result<List<u8>, NoMemory> {
    let mut bytes = plain_state(alloc)?.into_vec();
    if let Some(free) = bytes.get_mut(40) {
        *free = 0x8d;
    }
    Ok(List::from_vec(bytes))
}

#[test]
fn a_plain_state_is_written(rt: HostRuntime) -> Result<(), Fail> {
    let state = plain_state(rt.alloc())?;
    let (written, status) = run_verb(rt.alloc(), "checkpoint", plain_genesis(rt.alloc())?)?;
    assert_eq!(rt; (written.as_slice(), status), (state.as_slice(), 0));
    Ok(())
}

#[test]
fn a_plain_state_is_gone_on_from(rt: HostRuntime) -> Result<(), Fail> {
    let (text, status) = run_verb(rt.alloc(), "resume", state_and_transfers(rt.alloc())?)?;
    assert_eq!(rt; (text.as_slice(), status), (TRANSFERS_TEXT.as_bytes(), 0));
    Ok(())
}

#[test]
fn sums_that_do_not_hold_are_told(rt: HostRuntime) -> Result<(), Fail> {
    let (text, status) = run_verb(rt.alloc(), "resume", wrong_state(rt.alloc())?)?;
    assert_eq!(rt; text.as_slice(), b"fault 0 checkpoint 4 0\n".as_slice());
    assert_eq!(rt; status, 3);
    Ok(())
}

/// The checkpoint behind the first blocks of a stream.
fn checkpoint(alloc: Global, stream: &Stream, count: usize) -> Result<Vec<u8>, NoMemory> {
    let mut pen = Pen::new(alloc);
    put_stream_genesis(&mut pen, stream)?;
    for (place, calls) in stream.blocks.iter().enumerate() {
        if place < count {
            put_block(&mut pen, place as u64 + 1, calls)?;
        }
    }
    pen.put_u8(0)?;
    let (state, _) = run_verb(alloc, "checkpoint", pen.finish())?;
    Ok(state)
}

/// What is written of a state and of the blocks behind so many.
fn resumed(
    alloc: Global,
    state: &[u8],
    blocks: &[&[Call]],
    count: usize,
) -> Result<Vec<u8>, NoMemory> {
    let mut pen = Pen::new(alloc);
    pen.put_bytes(state)?;
    for (place, calls) in blocks.iter().enumerate() {
        if place >= count {
            put_block(&mut pen, place as u64 + 1, calls)?;
        }
    }
    pen.put_u8(0)?;
    let (text, _) = run_verb(alloc, "resume", pen.finish())?;
    Ok(text)
}

/// What is written behind so many blocks of a stream, by who goes on from there.
fn told_behind(alloc: Global, stream: &Stream, count: usize) -> Result<Vec<u8>, NoMemory> {
    let state = checkpoint(alloc, stream, count)?;
    resumed(alloc, state.as_slice(), stream.blocks, count)
}

/// Whether that is the end of the stream's text, from the next block on.
fn goes_on(alloc: Global, stream: &Stream, count: usize) -> Result<bool, Fail> {
    let text = told_behind(alloc, stream, count)?;
    let first = format!(in alloc; "block {}\n", count.saturating_add(1))?;
    let is_next = text.as_slice().starts_with(first.as_bytes());
    Ok(is_next && stream.text.as_bytes().ends_with(text.as_slice()))
}

/// Whether it is so behind each of its blocks.
fn goes_on_everywhere(alloc: Global, stream: &Stream) -> Result<bool, Fail> {
    for count in 0..stream.blocks.len() {
        if !goes_on(alloc, stream, count)? {
            return Ok(false);
        }
    }
    Ok(true)
}

#[test]
fn streams_go_on_behind_every_block(rt: HostRuntime) -> Result<(), Fail> {
    for stream in &STREAMS {
        assert!(rt; goes_on_everywhere(rt.alloc(), stream)?);
    }
    Ok(())
}

/// The checkpoint behind the decision of the fifth block, where a committee waits, with one unit more
/// in its last edge but one, which gives 60, all that the voter has.
fn overspent(alloc: Global, stream: &Stream) -> Result<Vec<u8>, NoMemory> {
    let mut state = checkpoint(alloc, stream, 5)?;
    let place = state.len().saturating_sub(6);
    if state.get(place) == Some(&0xf0) {
        if let Some(amount) = state.get_mut(place) {
            *amount = 0xf4;
        }
    }
    Ok(state)
}

/// What is told of that checkpoint.
fn told_of_overspent(alloc: Global, stream: &Stream) -> Result<Vec<u8>, NoMemory> {
    let state = overspent(alloc, stream)?;
    resumed(alloc, state.as_slice(), stream.blocks, 5)
}

#[test]
fn an_edge_gives_no_more_than_its_voter_has(rt: HostRuntime) -> Result<(), Fail> {
    let text = told_of_overspent(rt.alloc(), &SECOND_WINS)?;
    assert_eq!(rt; text.as_slice(), b"fault 0 checkpoint 11 11 0\n".as_slice());
    Ok(())
}
