//! Slashes that wait: an ordinary run, and what its root reports and cancels behind it. The texts
//! were made by another program.
use crate::ordinary::{ORDINARY, ORDINARY_NUMBERS, ORDINARY_TEXT};
use crate::stream_calls::Kind::{BondExtra, CancelSlash, Chill, Offence, Unbond};
use crate::stream_calls::{Call, put_block, put_deferred_genesis};
use crate::streams::replay;
use npos_base::{List, NoMemory};
use scale_wire::Pen;
use std::alloc::Global;
use std::test::Fail;

/// What follows an ordinary run whose last block, the thirteenth, reports a validator.
#[derive(Clone, Copy)]
struct Later {
    /// How many eras a slash waits.
    defer: u64,
    /// The calls of the blocks from 14 on.
    blocks: &'static [&'static [Call]],
    /// What is told from the report on.
    text: &'static str,
}

const REPORTED: &str = "call 4 ok\n";

static ROWS: [Later; 5] = [
    // where slashes wait no era, they are taken at once
    Later {
        defer: 0,
        blocks: &[],
        text: "slashed 0000000000000000000000000000000000000000000000000000000000000002 10\n\
slashed 0000000000000000000000000000000000000000000000000000000000000007 20\n\
slashed 0000000000000000000000000000000000000000000000000000000000000008 20\n\
slashed 0000000000000000000000000000000000000000000000000000000000000009 20\n\
slashed 000000000000000000000000000000000000000000000000000000000000000a 20\ncall 5 ok\n\
end free 17805 active 2760 unlocking 50 deposits 0 minted 705 burned 90 issuance 20615\n",
    },
    // a report waits an era, and its slash is applied where the next one begins
    Later {
        defer: 1,
        blocks: &[&[], &[], &[], &[], &[], &[]],
        text: "deferred 1 3\ncall 5 ok\nblock 14\nblock 15\nsnapshot 3 targets 5 voters 17 total 2850\n\
block 16\nblock 17\nseat 3 fill\n\
member 0000000000000000000000000000000000000000000000000000000000000001 650\n\
member 0000000000000000000000000000000000000000000000000000000000000002 950\n\
member 0000000000000000000000000000000000000000000000000000000000000003 950\nblock 18\n\
block 19\nera 3\napply 1\n\
slashed 0000000000000000000000000000000000000000000000000000000000000002 10\n\
slashed 0000000000000000000000000000000000000000000000000000000000000007 20\n\
slashed 0000000000000000000000000000000000000000000000000000000000000008 20\n\
slashed 0000000000000000000000000000000000000000000000000000000000000009 20\n\
slashed 000000000000000000000000000000000000000000000000000000000000000a 20\n\
end free 17805 active 2760 unlocking 50 deposits 0 minted 705 burned 90 issuance 20615\n",
    },
    // a slash that is cancelled takes nothing
    Later {
        defer: 1,
        blocks: &[&[Call(20, CancelSlash(1))], &[], &[], &[], &[], &[]],
        text: "deferred 1 3\ncall 5 ok\nblock 14\ncall 0 ok\nblock 15\n\
snapshot 3 targets 5 voters 17 total 2850\nblock 16\nblock 17\nseat 3 fill\n\
member 0000000000000000000000000000000000000000000000000000000000000001 650\n\
member 0000000000000000000000000000000000000000000000000000000000000002 950\n\
member 0000000000000000000000000000000000000000000000000000000000000003 950\nblock 18\n\
block 19\nera 3\n\
end free 17805 active 2850 unlocking 50 deposits 0 minted 705 burned 0 issuance 20705\n",
    },
    // who is not root cancels nothing, no slash is cancelled twice, and the fraction stays
    Later {
        defer: 1,
        blocks: &[
            &[
                Call(20, CancelSlash(1)),
                Call(20, CancelSlash(1)),
                Call(1, CancelSlash(1)),
                Call(20, Offence(1, 2, 100_000_000)),
                Call(20, Offence(1, 2, 250_000_000)),
            ],
            &[],
            &[],
            &[],
            &[],
            &[],
        ],
        text: "deferred 1 3\ncall 5 ok\nblock 14\ncall 0 ok\ncall 1 refused 31\ncall 2 refused 27\n\
call 3 refused 25\ncall 4 ok\ndeferred 2 3\nblock 15\n\
snapshot 3 targets 5 voters 17 total 2850\nblock 16\nblock 17\nseat 3 fill\n\
member 0000000000000000000000000000000000000000000000000000000000000001 650\n\
member 0000000000000000000000000000000000000000000000000000000000000002 950\n\
member 0000000000000000000000000000000000000000000000000000000000000003 950\nblock 18\n\
block 19\nera 3\napply 2\n\
slashed 0000000000000000000000000000000000000000000000000000000000000002 15\n\
slashed 0000000000000000000000000000000000000000000000000000000000000007 30\n\
slashed 0000000000000000000000000000000000000000000000000000000000000008 30\n\
slashed 0000000000000000000000000000000000000000000000000000000000000009 30\n\
slashed 000000000000000000000000000000000000000000000000000000000000000a 30\n\
end free 17805 active 2715 unlocking 50 deposits 0 minted 705 burned 135 issuance 20570\n",
    },
    // slashes are applied by rising number, each from what is bonded then, and roles end that
    // nothing is behind
    Later {
        defer: 1,
        blocks: &[
            &[
                Call(20, Offence(1, 2, 1_000_000_000)),
                Call(20, Offence(1, 3, 500_000_000)),
                Call(8, Unbond(100)),
                Call(9, BondExtra(50)),
            ],
            &[],
            &[],
            &[],
            &[],
            &[
                Call(7, Chill),
                Call(2, Chill),
                Call(9, Chill),
                Call(20, CancelSlash(1)),
                Call(20, Offence(2, 1, 1_000_000_000)),
            ],
            &[],
            &[],
            &[],
            &[],
            &[],
            &[],
        ],
        text: "deferred 1 3\ncall 5 ok\nblock 14\ncall 0 ok\ndeferred 2 3\ncall 1 ok\ndeferred 3 3\n\
call 2 ok\ncall 3 ok\nblock 15\nsnapshot 3 targets 5 voters 17 total 2800\nblock 16\n\
block 17\nseat 3 fill\n\
member 0000000000000000000000000000000000000000000000000000000000000001 933\n\
member 0000000000000000000000000000000000000000000000000000000000000003 933\n\
member 0000000000000000000000000000000000000000000000000000000000000004 417\nblock 18\n\
block 19\nera 3\napply 1\n\
slashed 0000000000000000000000000000000000000000000000000000000000000002 10\n\
slashed 0000000000000000000000000000000000000000000000000000000000000007 20\n\
slashed 0000000000000000000000000000000000000000000000000000000000000008 20\n\
slashed 0000000000000000000000000000000000000000000000000000000000000009 20\n\
slashed 000000000000000000000000000000000000000000000000000000000000000a 20\napply 2\n\
slashed 0000000000000000000000000000000000000000000000000000000000000002 90\n\
slashed 0000000000000000000000000000000000000000000000000000000000000007 180\n\
slashed 0000000000000000000000000000000000000000000000000000000000000008 180\n\
slashed 0000000000000000000000000000000000000000000000000000000000000009 180\n\
slashed 000000000000000000000000000000000000000000000000000000000000000a 180\napply 3\n\
slashed 0000000000000000000000000000000000000000000000000000000000000003 50\n\
slashed 000000000000000000000000000000000000000000000000000000000000000b 100\n\
slashed 000000000000000000000000000000000000000000000000000000000000000c 100\n\
slashed 000000000000000000000000000000000000000000000000000000000000000d 100\n\
slashed 000000000000000000000000000000000000000000000000000000000000000e 100\n\
call 0 refused 16\ncall 1 refused 16\ncall 2 ok\ncall 3 refused 31\ncall 4 ok\n\
deferred 4 4\nblock 20\nblock 21\nsnapshot 4 targets 4 voters 12 total 1500\nblock 22\n\
block 23\nseat 4 fill\n\
member 0000000000000000000000000000000000000000000000000000000000000001 500\n\
member 0000000000000000000000000000000000000000000000000000000000000003 450\n\
member 0000000000000000000000000000000000000000000000000000000000000005 350\nblock 24\n\
block 25\nera 4\napply 4\n\
slashed 0000000000000000000000000000000000000000000000000000000000000006 200\n\
slashed 000000000000000000000000000000000000000000000000000000000000000f 200\n\
slashed 0000000000000000000000000000000000000000000000000000000000000010 166\n\
end free 17755 active 984 unlocking 50 deposits 0 minted 705 burned 1916 issuance 18789\n",
    },
];

fn stream_of(alloc: Global, row: &Later) -> Result<List<u8>, NoMemory> {
    let mut pen = Pen::new(alloc);
    put_deferred_genesis(&mut pen, 20, 1000, 20, &ORDINARY_NUMBERS, row.defer)?;
    for (place, calls) in ORDINARY.iter().chain(row.blocks.iter()).enumerate() {
        put_block(&mut pen, place as u64 + 1, calls)?;
    }
    pen.put_u8(0)?;
    Ok(pen.finish())
}

/// What an ordinary run tells up to the report of its last block.
fn before_report() -> &'static [u8] {
    let text = ORDINARY_TEXT.as_bytes();
    let report = REPORTED.as_bytes();
    for end in report.len()..text.len() {
        if text[..end].ends_with(report) && text[end..].starts_with("slashed".as_bytes()) {
            return &text[..end];
        }
    }
    &[]
}

#[test]
fn slashes_wait_as_long_as_the_genesis_says(rt: HostRuntime) -> Result<(), Fail> {
    for row in &ROWS {
        let (written, status) = replay(rt.alloc(), stream_of(rt.alloc(), row)?)?;
        let front = before_report();
        let written = written.as_slice();
        let rest = row.text.as_bytes();
        assert!(rt; written.starts_with(front) && written.ends_with(rest));
        assert_eq!(rt; written.len().checked_sub(front.len()), Some(rest.len()));
        assert_eq!(rt; status, 0);
    }
    Ok(())
}

#[test]
fn slashes_wait_fewer_eras_than_stake_stays_bonded(rt: HostRuntime) -> Result<(), Fail> {
    let row = Later {
        defer: 2,
        blocks: &[],
        text: "fault 0 genesis 10 2\n",
    };
    let (written, status) = replay(rt.alloc(), stream_of(rt.alloc(), &row)?)?;
    assert_eq!(rt; written.as_slice(), row.text.as_bytes());
    assert_eq!(rt; status, 3);
    Ok(())
}
