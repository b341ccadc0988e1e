//! Worked inputs of stake pools over an outside in memory, cut anywhere, and where each read fails.
use crate::outside::{Outside, Ran, calm, delivered, put_parts, run_over};
use crate::replays::{NINE, ONE};
use npos_base::{List, NoMemory};
use scale_wire::Pen;
use std::alloc::Global;
use std::test::Fail;

// The bytes of the account 2.
const TWO: [u8; 32] = [
    0, 0, 0, 0, 0, 0, 0, 0, 0, 0, 0, 0, 0, 0, 0, 0, 0, 0, 0, 0, 0, 0, 0, 0, 0, 0, 0, 0, 0, 0, 0, 2,
];

// The genesis of a pool: the accounts 1 and 2 have 100 units each, the pool is 9, and what leaves
// waits one era.
const POOL: [&[u8]; 7] = [
    &[0x08],
    &ONE,
    &[0x91, 0x01],
    &TWO,
    &[0x91, 0x01],
    &NINE,
    &[0x04],
];

// Accounts and what they ask of the pool, each behind the tag 1, and what is written of it.
static POOLED: [(&[(&[u8; 32], &[u8])], &str); 2] = [
    (
        &[
            (&ONE, &[0x00, 0xf0]), // joins with 60
            (&TWO, &[0x00, 0xa0]), // joins with 40
            (&ONE, &[0x03, 0x28]), // rewards 10
            (&NINE, &[0x05, 0xc8]), // slashes 50
            (&TWO, &[0x00, 0x28]), // joins with 10
            (&ONE, &[0x01, 0xf0]), // leaves with 60 points
            (&ONE, &[0x02]), // redeems too early
            (&NINE, &[0x06]), // begins an era
            (&ONE, &[0x02]), // redeems
            (&ONE, &[0x04]), // claims
        ],
        "call 0 ok\n\
call 1 ok\n\
call 2 ok\n\
call 3 ok\n\
slashed 0000000000000000000000000000000000000000000000000000000000000009 50\n\
call 4 ok\n\
call 5 ok\n\
call 6 refused 36\n\
call 7 ok\n\
call 8 ok\n\
paid 0000000000000000000000000000000000000000000000000000000000000001 30\n\
call 9 ok\n\
paid 0000000000000000000000000000000000000000000000000000000000000001 6\n\
pool points 60 active 30 pot 4 credits 4\n\
end free 120 active 30 unlocking 0 deposits 0 minted 0 burned 50 issuance 150\n",
    ),
    (
        &[
            (&ONE, &[0x00, 0xf0]),
            (&TWO, &[0x00, 0xa0]),
            (&ONE, &[0x03, 0x04]), // rewards 1
        ],
        "call 0 ok\n\
call 1 ok\n\
call 2 ok\n\
pool points 100 active 100 pot 1 credits 0\n\
end free 100 active 100 unlocking 0 deposits 0 minted 0 burned 0 issuance 200\n",
    ),
];

fn pool_input(alloc: Global, items: &[(&[u8; 32], &[u8])]) -> Result<List<u8>, NoMemory> {
    let mut pen = Pen::new(alloc);
    put_parts(&mut pen, &POOL)?;
    for (who, kind) in items {
        put_parts(&mut pen, &[&[0x01], *who, *kind])?;
    }
    pen.put_u8(0)?;
    Ok(pen.finish())
}

#[test]
fn pools_are_gone_through(rt: HostRuntime) -> Result<(), Fail> {
    for piece in [1, 7, 65_536] {
        for &(items, text) in &POOLED {
            let bytes = pool_input(rt.alloc(), items)?;
            let ran = run_over(rt.alloc(), &["npos", "pools"], bytes, calm(piece))?;
            delivered(&rt, &ran, 0, text);
        }
    }
    Ok(())
}

// An item that is accepted, one of a kind that there is none of, and many bytes behind it.
static DAMAGED: [&[u8]; 7] = [
    &[0x01],
    &ONE,
    &[0x00, 0xf0],
    &[0x01],
    &ONE,
    &[0x07],
    &[0; 500],
];

const DAMAGED_TEXT: &str = "call 0 ok\nfault 170 badtag\n";

/// Goes through the pool with the damaged item.
fn damaged(alloc: Global, outside: Outside<'_>) -> Result<Ran, NoMemory> {
    let mut pen = Pen::new(alloc);
    put_parts(&mut pen, &POOL)?;
    put_parts(&mut pen, &DAMAGED)?;
    run_over(alloc, &["npos", "pools"], pen.finish(), outside)
}

#[test]
fn a_pool_with_a_fault_is_read_to_its_end(rt: HostRuntime) -> Result<(), Fail> {
    for piece in [1, 7, 65_536] {
        let ran = damaged(rt.alloc(), calm(piece))?;
        delivered(&rt, &ran, 3, DAMAGED_TEXT);
        assert_eq!(rt; ran.left, 0);
    }
    Ok(())
}

/// Whether nothing is written where this read of seven bytes fails, and none is made behind it.
fn is_lost_with_read(alloc: Global, number: u64) -> Result<bool, NoMemory> {
    let reads = [number];
    let outside = Outside {
        piece: 7,
        reads: &reads,
        writes: &[],
    };
    let ran = damaged(alloc, outside)?;
    let left = 671usize.saturating_sub((number as usize).saturating_mul(7));
    Ok(ran.written.is_empty() && ran.status == 4 && ran.left == left)
}

#[test]
fn each_read_of_a_pool_fails_in_turn(rt: HostRuntime) -> Result<(), Fail> {
    for number in 0..97 {
        assert!(rt; is_lost_with_read(rt.alloc(), number)?);
    }
    Ok(())
}
