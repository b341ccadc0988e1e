//! Worked streams over an outside in memory. They show besides that runs succeed where there is
//! memory, which no contract promises.
use crate::outside::{Outside, calm, delivered, put_parts, replay_parts, run_over};
use npos_base::{List, NoMemory};
use npos_cli::laws;
use scale_wire::Pen;
use std::alloc::Global;
use std::test::Fail;

// The bytes of the accounts 1 and 9.
pub const ONE: [u8; 32] = [
    0, 0, 0, 0, 0, 0, 0, 0, 0, 0, 0, 0, 0, 0, 0, 0, 0, 0, 0, 0, 0, 0, 0, 0, 0, 0, 0, 0, 0, 0, 0, 1,
];

pub const NINE: [u8; 32] = [
    0, 0, 0, 0, 0, 0, 0, 0, 0, 0, 0, 0, 0, 0, 0, 0, 0, 0, 0, 0, 0, 0, 0, 0, 0, 0, 0, 0, 0, 0, 0, 9,
];

// A Plain genesis: account 1 has 100 units and account 2 has none.
const PLAIN: [u8; 69] = [
    0, 8, 0, 0, 0, 0, 0, 0, 0, 0, 0, 0, 0, 0, 0, 0, 0, 0, 0, 0, 0, 0, 0, 0, 0, 0, 0, 0, 0, 0, 0, 0,
    0, 1, 0x91, 1, 0, 0, 0, 0, 0, 0, 0, 0, 0, 0, 0, 0, 0, 0, 0, 0, 0, 0, 0, 0, 0, 0, 0, 0, 0, 0, 0,
    0, 0, 0, 0, 2, 0,
];

// A Full genesis: account 1 has 100 units, the root is 9, eras of 3 blocks, chunks that wait for 40
// eras.
const FULL: [&[u8]; 5] = [
    &[0x01, 0x04],
    &ONE,
    &[0x91, 0x01],
    &NINE,
    &[
        0x08, 0x0c, 0x04, 0x04, 0xa0, 0x04, 0x08, 0x91, 0x01, 0xa1, 0x0f, 0x0c, 0xa1, 0x0f, 0x30,
        0x14, 0xa1, 0x0f,
    ],
];

// Two calls: transfers of 40 and of 61 from account 1 to account 2.
const CALLS: [u8; 133] = [
    8, 0, 0, 0, 0, 0, 0, 0, 0, 0, 0, 0, 0, 0, 0, 0, 0, 0, 0, 0, 0, 0, 0, 0, 0, 0, 0, 0, 0, 0, 0, 0,
    1, 0, 0, 0, 0, 0, 0, 0, 0, 0, 0, 0, 0, 0, 0, 0, 0, 0, 0, 0, 0, 0, 0, 0, 0, 0, 0, 0, 0, 0, 0, 0,
    0, 2, 0xa0, 0, 0, 0, 0, 0, 0, 0, 0, 0, 0, 0, 0, 0, 0, 0, 0, 0, 0, 0, 0, 0, 0, 0, 0, 0, 0, 0, 0,
    0, 0, 0, 1, 0, 0, 0, 0, 0, 0, 0, 0, 0, 0, 0, 0, 0, 0, 0, 0, 0, 0, 0, 0, 0, 0, 0, 0, 0, 0, 0, 0,
    0, 0, 0, 0, 2, 0xf4,
];

// Those two calls in the block that is due.
const TRANSFERS: [&[u8]; 4] = [&PLAIN, &[0x01, 0x04], &CALLS, &[0x00]];

const TRANSFERS_TEXT: &str =
    "block 1\ncall 0 ok\ncall 1 refused 1\nend free 100 active 0 unlocking 0 deposits 0 minted 0 burned 0 issuance 100\n";

// Streams, as parts that stand one behind the other, and what they write. The last two bond 100,
// unbond 30 twice and withdraw; then the very last rebonds 70.
static SOUND: [(&[&[u8]], &str); 4] = [
    (
        &[&PLAIN, &[0x00]],
        "end free 100 active 0 unlocking 0 deposits 0 minted 0 burned 0 issuance 100\n",
    ),
    (&TRANSFERS, TRANSFERS_TEXT),
    (
        &[
            &[0x00, 0x04],
            &ONE,
            &[0x91, 0x01, 0x01, 0x04, 0x10],
            &ONE,
            &[0x01, 0x91, 0x01],
            &ONE,
            &[0x03, 0x78],
            &ONE,
            &[0x03, 0x78],
            &ONE,
            &[0x05, 0x00],
        ],
        "block 1\ncall 0 ok\ncall 1 ok\ncall 2 ok\ncall 3 ok\nend free 0 active 40 unlocking 60 deposits 0 minted 0 burned 0 issuance 100\n",
    ),
    (
        &[
            &[0x00, 0x04],
            &ONE,
            &[0x91, 0x01, 0x01, 0x04, 0x14],
            &ONE,
            &[0x01, 0x91, 0x01],
            &ONE,
            &[0x03, 0x78],
            &ONE,
            &[0x03, 0x78],
            &ONE,
            &[0x05],
            &ONE,
            &[0x04, 0x19, 0x01, 0x00],
        ],
        "block 1\ncall 0 ok\ncall 1 ok\ncall 2 ok\ncall 3 ok\ncall 4 ok\nend free 0 active 100 unlocking 0 deposits 0 minted 0 burned 0 issuance 100\n",
    ),
];

// Damaged streams, and what they write.
static DAMAGED: [(&[&[u8]], &str); 7] = [
    (&[], "fault 0 short\n"),
    (
        &[&[0x00, 0x08], &ONE, &[0x91, 0x01, 0, 0, 0, 0]],
        "fault 36 short\n",
    ),
    (
        &[&PLAIN, &[0x01, 0x04], &CALLS, &[0x00, 0xff]],
        "block 1\ncall 0 ok\ncall 1 refused 1\nfault 205 trailing\n",
    ),
    (
        &[&PLAIN, &[0x01, 0x08], &CALLS, &[0x00]],
        "fault 70 number due 1 found 2\n",
    ),
    (&[&[0x00, 0x06, 0x00, 0x04, 0x00]], "fault 1 toomany\n"),
    (&[&[0x09]], "fault 0 badtag\n"),
    (
        &[&[0x00, 0x08], &ONE, &[0x04], &ONE, &[0x04, 0x00]],
        "fault 0 genesis 1 1\n",
    ),
];

// The two transfers, and two blocks without calls.
const BLOCKS: [&[u8]; 4] = [
    &PLAIN,
    &[0x01, 0x04],
    &CALLS,
    &[0x01, 0x08, 0x00, 0x01, 0x0c, 0x00, 0x00],
];

/// An outside that fails over those blocks, and what a replay then comes to.
struct Failing {
    piece: usize,
    /// The numbers of the reads, and of the writes and the flush, that fail.
    reads: &'static [u64],
    writes: &'static [u64],
    status: u8,
    text: &'static str,
    /// How many bytes are left.
    left: usize,
}

static FAILING: [Failing; 10] = [
    Failing {
        piece: 70,
        reads: &[0],
        writes: &[],
        status: 4,
        text: "",
        left: 211,
    },
    Failing {
        piece: 70,
        reads: &[1],
        writes: &[],
        status: 4,
        text: "",
        left: 141,
    },
    Failing {
        piece: 70,
        reads: &[2],
        writes: &[],
        status: 4,
        text: "",
        left: 71,
    },
    Failing {
        piece: 70,
        reads: &[3],
        writes: &[],
        status: 4,
        text: THIRD_BLOCK,
        left: 1,
    },
    Failing {
        piece: 70,
        reads: &[4],
        writes: &[],
        status: 4,
        text: THIRD_BLOCK,
        left: 0,
    },
    Failing {
        piece: 206,
        reads: &[1],
        writes: &[],
        status: 4,
        text: FIRST_BLOCK,
        left: 5,
    },
    Failing {
        piece: 4096,
        reads: &[],
        writes: &[0],
        status: 5,
        text: "",
        left: 0,
    },
    Failing {
        piece: 20,
        reads: &[],
        writes: &[1],
        status: 5,
        text: "block 1\ncall 0 ok\nca",
        left: 0,
    },
    Failing {
        piece: 4096,
        reads: &[],
        writes: &[1],
        status: 5,
        text: THIRD_BLOCK,
        left: 0,
    },
    Failing {
        piece: 4096,
        reads: &[],
        writes: &[2],
        status: 5,
        text: WHOLE,
        left: 0,
    },
];

// The lines up to a block, and all lines.
const FIRST_BLOCK: &str = "block 1\ncall 0 ok\ncall 1 refused 1\n";

const THIRD_BLOCK: &str = "block 1\ncall 0 ok\ncall 1 refused 1\nblock 2\nblock 3\n";

const WHOLE: &str =
    "block 1\ncall 0 ok\ncall 1 refused 1\nblock 2\nblock 3\nend free 100 active 0 unlocking 0 deposits 0 minted 0 burned 0 issuance 100\n";

#[test]
fn sound_streams_end_with_the_end_line(rt: HostRuntime) -> Result<(), Fail> {
    for &(parts, text) in &SOUND {
        for piece in [1, 7, 65_536] {
            delivered(&rt, &replay_parts(rt.alloc(), parts, calm(piece))?, 0, text);
        }
    }
    Ok(())
}

#[test]
fn damaged_streams_end_with_a_fault_line(rt: HostRuntime) -> Result<(), Fail> {
    for &(parts, text) in &DAMAGED {
        for piece in [1, 7, 65_536] {
            delivered(&rt, &replay_parts(rt.alloc(), parts, calm(piece))?, 3, text);
        }
    }
    Ok(())
}

#[test]
fn a_failed_read_or_write_ends_the_run(rt: HostRuntime) -> Result<(), Fail> {
    for row in &FAILING {
        let outside = Outside {
            piece: row.piece,
            reads: row.reads,
            writes: row.writes,
        };
        let ran = replay_parts(rt.alloc(), &BLOCKS, outside)?;
        assert_eq!(rt; ran.written.as_slice(), row.text.as_bytes());
        assert_eq!(rt; (ran.status, ran.left), (row.status, row.left));
    }
    Ok(())
}

/// Whether the transfers end with a front of their text where this read of one byte fails, and nothing
/// behind it is read.
fn ends_with_read(alloc: Global, number: u64) -> Result<bool, NoMemory> {
    let reads = [number];
    let outside = Outside {
        piece: 1,
        reads: &reads,
        writes: &[],
    };
    let ran = replay_parts(alloc, &TRANSFERS, outside)?;
    let is_front = TRANSFERS_TEXT
        .as_bytes()
        .starts_with(ran.written.as_slice());
    Ok(is_front && ran.status == 4 && Some(ran.left) == 205usize.checked_sub(number as usize))
}

#[test]
fn each_read_of_the_transfers_fails_in_turn(rt: HostRuntime) -> Result<(), Fail> {
    for number in 0..206 {
        assert!(rt; ends_with_read(rt.alloc(), number)?);
    }
    Ok(())
}

#[test]
fn a_fault_ends_the_reading(rt: HostRuntime) -> Result<(), Fail> {
    let bytes = List::from_vec(Vec::from_elem(rt.alloc(), 9, 1_000_000)?);
    let ran = run_over(rt.alloc(), &["npos", "replay"], bytes, calm(1_000_000))?;
    delivered(&rt, &ran, 3, "fault 0 badtag\n");
    assert_eq!(rt; ran.left, 934_464);
    Ok(())
}

// Words that ask for nothing.
static FORMLESS: [&[&str]; 7] = [
    &["npos"],
    &["npos", "elect"],
    &["npos", "replay", "replay"],
    &["npos", "mine"],
    &["npos", "mine", "--miner"],
    &["npos", "mine", "fill", "--miner"],
    &["npos", "mine", "--miner", "fill", "fill"],
];

#[test]
fn words_without_a_form_owe_the_usage_line(rt: HostRuntime) -> Result<(), Fail> {
    for &words in &FORMLESS {
        let bytes = List::from_vec(Vec::from_slice(rt.alloc(), &PLAIN)?);
        let ran = run_over(rt.alloc(), words, bytes, calm(4096))?;
        delivered(
            &rt,
            &ran,
            2,
            "usage: npos replay|check|mine|pack|show|demo|checkpoint|resume|pools\n",
        );
        assert_eq!(rt; ran.left, 69);
    }
    Ok(())
}

/// Block 1 bonds 100, and the first block of each of the eras 0 to 32 unbonds 1.
fn many_chunks(alloc: Global) -> Result<List<u8>, NoMemory> {
    let mut pen = Pen::new(alloc);
    put_parts(&mut pen, &FULL)?;
    for number in 1..98u64 {
        let calls: &[&[u8]] = match number % 3 {
            _ if number == 1 => &[&[0x08], &ONE, &[0x01, 0x91, 0x01], &ONE, &[0x03, 0x04]],
            1 => &[&[0x04], &ONE, &[0x03, 0x04]],
            _ => &[&[0x00]],
        };
        pen.put_u8(1)?;
        pen.put_compact(number)?;
        put_parts(&mut pen, calls)?;
    }
    pen.put_u8(0)?;
    Ok(pen.finish())
}

#[test]
fn an_account_has_at_most_32_chunks(rt: HostRuntime) -> Result<(), Fail> {
    let ran = run_over(
        rt.alloc(),
        &["npos", "replay"],
        many_chunks(rt.alloc())?,
        calm(4096),
    )?;
    let end =
        b"block 97\nera 32\ncall 0 refused 5\nend free 0 active 68 unlocking 32 deposits 0 minted 0 burned 0 issuance 100\n";
    assert_eq!(rt; ran.status, 0);
    assert!(rt; ran.written.as_slice().ends_with(end));
    Ok(())
}

#[test]
fn laws_are_called() {
    laws::replays_seat_sound_committees();
    laws::replays_seat_each_round();
    laws::replays_settle_deposits();
    laws::replays_crowd_nothing_out();
    laws::replays_keep_the_bounds_of_eras();
    laws::one_answer();
    laws::one_replay();
    laws::every_input_has_a_replay();
    laws::whole_blocks_have_one_text();
    laws::whole_text_grows();
    laws::faults_stand();
}
