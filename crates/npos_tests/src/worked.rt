//! The worked round and the worked bags, each with a genesis of its own: read and written in pieces of
//! any size, cut anywhere, and where each write fails. The texts were made
//! by another program.
use crate::outside::{Outside, Ran, calm, delivered, run_over};
use crate::stream_calls::Kind::{Bond, Claim, PutInFront, Rebag, Validate};
use crate::stream_calls::{Call, put_block, put_endowed_genesis};
use npos_base::{List, NoMemory};
use scale_wire::Pen;
use std::alloc::Global;
use std::test::Fail;

/// A stream: accounts with what each is endowed with, and the calls of the blocks from 1 on, each with
/// the lines of its block; and its last line.
#[derive(Clone, Copy)]
struct Worked {
    endowments: &'static [(u64, u64)],
    blocks: &'static [(&'static [Call], &'static str)],
    end: &'static str,
}

/// Two seats, eras of six blocks with the snapshot in the third and the decision in the fifth, one era
/// of bonding, the least bond 1, the thresholds 100 and 1000, a queue of three, solutions of 1000 bytes,
/// the deposit 12, the reward 5 and 1000 an era.
static NUMBERS: [u64; 14] = [2, 6, 2, 2, 1, 1, 2, 100, 1000, 3, 1000, 12, 5, 1000];

/// Ranks and deposits: the best claim is wrong and the second wins.
static ROUND: Worked = Worked {
    endowments: &[(1, 100), (2, 100), (3, 100), (7, 100), (8, 100)],
    blocks: &[
        (
            &[
                Call(1, Bond(60)),
                Call(1, Validate(100_000_000)),
                Call(2, Bond(40)),
                Call(2, Validate(0)),
                Call(3, Bond(30)),
                Call(3, Validate(0)),
            ],
            "block 1\ncall 0 ok\ncall 1 ok\ncall 2 ok\ncall 3 ok\ncall 4 ok\ncall 5 ok\n",
        ),
        (&[], "block 2\n"),
        (
            &[
                Call(7, Claim(40)),
                Call(7, Claim(39)),
                Call(8, Claim(38)),
                Call(8, Claim(38)),
                Call(8, Claim(41)),
            ],
            "block 3\nsnapshot 1 targets 3 voters 3 total 130\ncall 0 ok\ncall 1 ok\ncall 2 ok\n\
call 3 refused 20\ncall 4 ok\nreturn 3 12\n",
        ),
        (&[], "block 4\n"),
        (
            &[],
            "block 5\nforfeit 4 12 verdict 9 40 100 5200\nreturn 1 12\nreward 1 5\nreturn 2 12\n\
seat 1 signed 1\n\
member 0000000000000000000000000000000000000000000000000000000000000001 60\n\
member 0000000000000000000000000000000000000000000000000000000000000002 40\n",
        ),
    ],
    end: "end free 363 active 130 unlocking 0 deposits 0 minted 5 burned 12 issuance 493\n",
};

/// Bags between 100 and 1000: a heavier account of the same bag alone is put in front, and an account in
/// its bag or in none is not moved.
static BAGS: Worked = Worked {
    endowments: &[(1, 50), (2, 100), (3, 101), (4, 2000), (5, 70)],
    blocks: &[
        (
            &[
                Call(1, Bond(50)),
                Call(1, Validate(0)),
                Call(2, Bond(100)),
                Call(2, Validate(0)),
                Call(3, Bond(101)),
                Call(3, Validate(0)),
                Call(4, Bond(2000)),
                Call(4, Validate(0)),
                Call(5, Bond(70)),
                Call(5, Validate(0)),
            ],
            "block 1\ncall 0 ok\ncall 1 ok\ncall 2 ok\ncall 3 ok\ncall 4 ok\ncall 5 ok\ncall 6 ok\n\
call 7 ok\ncall 8 ok\ncall 9 ok\n",
        ),
        (
            &[
                Call(2, PutInFront(1)),
                Call(5, PutInFront(2)),
                Call(1, PutInFront(3)),
                Call(1, Rebag(1)),
                Call(1, Rebag(6)),
            ],
            "block 2\ncall 0 ok\ncall 1 refused 19\ncall 2 refused 18\ncall 3 refused 17\n\
call 4 refused 16\n",
        ),
    ],
    end: "end free 0 active 2321 unlocking 0 deposits 0 minted 0 burned 0 issuance 2321\n",
};

/// The bytes of the genesis and of so many blocks.
fn front_of(alloc: Global, worked: &Worked, count: usize) -> Result<Pen, NoMemory> {
    let mut pen = Pen::new(alloc);
    put_endowed_genesis(&mut pen, worked.endowments, &NUMBERS)?;
    for (place, (calls, _)) in worked.blocks.iter().enumerate() {
        if place < count {
            put_block(&mut pen, place as u64 + 1, calls)?;
        }
    }
    Ok(pen)
}

/// The bytes of the stream.
fn whole(alloc: Global, worked: &Worked) -> Result<List<u8>, NoMemory> {
    let mut pen = front_of(alloc, worked, worked.blocks.len())?;
    pen.put_u8(0)?;
    Ok(pen.finish())
}

/// The lines of so many blocks.
fn lines_of(alloc: Global, worked: &Worked, count: usize) -> Result<String, NoMemory> {
    let mut text = String::new(alloc);
    for (place, (_, lines)) in worked.blocks.iter().enumerate() {
        if place < count {
            text.push_str(lines)?;
        }
    }
    Ok(text)
}

/// The text of the stream.
fn text_of(alloc: Global, worked: &Worked) -> Result<String, NoMemory> {
    let mut text = lines_of(alloc, worked, worked.blocks.len())?;
    text.push_str(worked.end)?;
    Ok(text)
}

fn replayed(alloc: Global, bytes: List<u8>, outside: Outside<'_>) -> Result<Ran, NoMemory> {
    run_over(alloc, &["npos", "replay"], bytes, outside)
}

#[test]
fn pieces_of_any_size_are_the_same(rt: HostRuntime) -> Result<(), Fail> {
    for worked in [&ROUND, &BAGS] {
        let text = text_of(rt.alloc(), worked)?;
        for piece in [1, 7, 65_536] {
            let ran = replayed(rt.alloc(), whole(rt.alloc(), worked)?, calm(piece))?;
            delivered(&rt, &ran, 0, text.as_str());
        }
    }
    Ok(())
}

/// The round where this write of seven bytes, or the flush, fails.
fn with_write(alloc: Global, number: u64) -> Result<Ran, NoMemory> {
    let writes = [number];
    let outside = Outside {
        piece: 7,
        reads: &[],
        writes: &writes,
    };
    replayed(alloc, whole(alloc, &ROUND)?, outside)
}

/// How many writes and flushes the round has, where each that fails ends it with a front of its text that
/// is longer than the one before.
fn failing_writes(alloc: Global, text: &[u8]) -> Result<Option<u64>, NoMemory> {
    let mut last = 0;
    for number in 0..1000 {
        let ran = with_write(alloc, number)?;
        if ran.status == 0 {
            return Ok(if last == text.len() {
                Some(number)
            } else {
                None
            });
        }
        let length = ran.written.len();
        if ran.status != 5 || !text.starts_with(ran.written.as_slice()) || length < last {
            return Ok(None);
        }
        last = length;
    }
    Ok(None)
}

#[test]
fn each_write_of_the_round_fails_in_turn(rt: HostRuntime) -> Result<(), Fail> {
    let text = text_of(rt.alloc(), &ROUND)?;
    let count = failing_writes(rt.alloc(), text.as_bytes())?.unwrap_or(0);
    assert!(rt; count > text.len() as u64 / 7);
    Ok(())
}

/// How many blocks stand whole in so many bytes.
fn blocks_within(alloc: Global, worked: &Worked, length: usize) -> Result<usize, NoMemory> {
    let mut count = 0;
    for place in 0..worked.blocks.len() {
        if front_of(alloc, worked, place + 1)?.finish().len() <= length {
            count = place + 1;
        }
    }
    Ok(count)
}

/// Where the fault line says that bytes are missing.
fn missing_at(line: &[u8]) -> Option<usize> {
    let text = str::from_utf8(line).ok()?;
    let number = text.strip_prefix("fault ")?.strip_suffix(" short\n")?;
    number.parse::<usize>().ok()
}

/// Whether the round that is cut to so many bytes tells its whole blocks, and then that bytes are missing
/// for a value that begins there or less than an account before.
fn is_cut(alloc: Global, bytes: &[u8]) -> Result<bool, NoMemory> {
    let length = bytes.len();
    let lines = lines_of(alloc, &ROUND, blocks_within(alloc, &ROUND, length)?)?;
    let input = List::from_vec(Vec::from_slice(alloc, bytes)?);
    let ran = replayed(alloc, input, calm(4096))?;
    let Some(fault) = ran.written.as_slice().strip_prefix(lines.as_bytes()) else {
        return Ok(false);
    };
    let Some(at) = missing_at(fault) else {
        return Ok(false);
    };
    Ok(ran.status == 3 && at <= length && length - at < 32)
}

#[test]
fn each_front_of_the_round_is_short(rt: HostRuntime) -> Result<(), Fail> {
    let bytes = whole(rt.alloc(), &ROUND)?;
    let bytes = bytes.as_slice();
    assert_eq!(rt; bytes.len(), 815);
    for length in 0..bytes.len() {
        assert!(rt; is_cut(rt.alloc(), &bytes[..length])?);
    }
    Ok(())
}
