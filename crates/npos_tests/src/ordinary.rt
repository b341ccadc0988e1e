//! Long runs: their calls, and what a replay of them writes. The texts were made by another program.
use crate::stream_calls::Call;
use crate::stream_calls::Kind::{
    Bond, BondExtra, Chill, Nominate, Offence, Payout, Points, PutInFront, Rebag, Rebond, Submit,
    Unbond, Validate, Withdraw,
};

/// An ordinary run: five validators and twelve nominators elect a committee by the better of two
/// submissions; its first era is paid and slashed in the second.
pub static ORDINARY: [&[Call]; 13] = [
    &[
        Call(1, Bond(100)),
        Call(1, Validate(100_000_000)),
        Call(2, Bond(100)),
        Call(2, Validate(100_000_000)),
        Call(3, Bond(100)),
        Call(3, Validate(100_000_000)),
        Call(4, Bond(100)),
        Call(4, Validate(100_000_000)),
        Call(5, Bond(100)),
        Call(5, Validate(100_000_000)),
    ],
    &[
        Call(6, Bond(200)),
        Call(6, Nominate(&[1, 2])),
        Call(7, Bond(200)),
        Call(7, Nominate(&[1, 2])),
        Call(8, Bond(200)),
        Call(8, Nominate(&[1, 2])),
        Call(9, Bond(200)),
        Call(9, Nominate(&[2, 3])),
        Call(10, Bond(200)),
        Call(10, Nominate(&[2, 3])),
        Call(11, Bond(200)),
        Call(11, Nominate(&[2, 3])),
        Call(12, Bond(200)),
        Call(12, Nominate(&[3, 4])),
        Call(13, Bond(200)),
        Call(13, Nominate(&[3, 4])),
        Call(14, Bond(200)),
        Call(14, Nominate(&[3, 4])),
        Call(15, Bond(200)),
        Call(15, Nominate(&[1, 5])),
        Call(16, Bond(200)),
        Call(16, Nominate(&[1, 5])),
        Call(17, Bond(200)),
        Call(17, Nominate(&[1, 5])),
    ],
    &[
        Call(
            18,
            Submit {
                round: 1,
                claim: [700, 2700, 2_670_000],
                zeros: 0,
                elects: &[1, 1, 1, 2, 2, 2, 2, 2, 2, 0, 0, 0, 0, 1, 2],
            },
        ),
        Call(
            19,
            Submit {
                round: 1,
                claim: [900, 2700, 2_430_000],
                zeros: 0,
                elects: &[0, 1, 1, 1, 1, 2, 2, 2, 2, 0, 0, 0, 0, 1, 2],
            },
        ),
    ],
    &[],
    &[],
    &[],
    &[Call(20, Points(&[(1, 3), (2, 2), (3, 2)]))],
    &[],
    &[],
    &[],
    &[],
    &[],
    &[
        Call(18, Payout(1, 1)),
        Call(18, Payout(1, 2)),
        Call(18, Payout(1, 3)),
        Call(18, Payout(1, 1)),
        Call(20, Offence(1, 2, 100_000_000)),
        Call(17, Unbond(50)),
    ],
];

/// What a replay of it writes.
pub const ORDINARY_TEXT: &str =
    "block 1\ncall 0 ok\ncall 1 ok\ncall 2 ok\ncall 3 ok\ncall 4 ok\ncall 5 ok\ncall 6 ok\n\
call 7 ok\ncall 8 ok\ncall 9 ok\n\
block 2\ncall 0 ok\ncall 1 ok\ncall 2 ok\ncall 3 ok\ncall 4 ok\ncall 5 ok\ncall 6 ok\n\
call 7 ok\ncall 8 ok\ncall 9 ok\ncall 10 ok\ncall 11 ok\ncall 12 ok\ncall 13 ok\n\
call 14 ok\ncall 15 ok\ncall 16 ok\ncall 17 ok\ncall 18 ok\ncall 19 ok\ncall 20 ok\n\
call 21 ok\ncall 22 ok\ncall 23 ok\n\
block 3\nsnapshot 1 targets 5 voters 17 total 2900\ncall 0 ok\ncall 1 ok\nblock 4\n\
block 5\nreturn 2 12\nreward 2 5\nreturn 1 12\nseat 1 signed 2\nmember 0000000000000000000000000000000000000000000000000000000000000001 900\n\
member 0000000000000000000000000000000000000000000000000000000000000002 900\n\
member 0000000000000000000000000000000000000000000000000000000000000003 900\nblock 6\n\
block 7\nera 1\ncall 0 ok\nblock 8\nblock 9\nsnapshot 2 targets 5 voters 17 total 2900\n\
block 10\n\
block 11\nseat 2 fill\nmember 0000000000000000000000000000000000000000000000000000000000000001 966\n\
member 0000000000000000000000000000000000000000000000000000000000000003 966\n\
member 0000000000000000000000000000000000000000000000000000000000000004 334\nblock 12\n\
block 13\nera 2\ncall 0 ok\npaid 0000000000000000000000000000000000000000000000000000000000000001 60\n\
paid 0000000000000000000000000000000000000000000000000000000000000006 60\npaid 000000000000000000000000000000000000000000000000000000000000000f 60\n\
paid 0000000000000000000000000000000000000000000000000000000000000010 60\npaid 0000000000000000000000000000000000000000000000000000000000000011 60\n\
call 1 ok\npaid 0000000000000000000000000000000000000000000000000000000000000002 40\n\
paid 0000000000000000000000000000000000000000000000000000000000000007 40\npaid 0000000000000000000000000000000000000000000000000000000000000008 40\n\
paid 0000000000000000000000000000000000000000000000000000000000000009 40\npaid 000000000000000000000000000000000000000000000000000000000000000a 40\n\
call 2 ok\npaid 0000000000000000000000000000000000000000000000000000000000000003 40\n\
paid 000000000000000000000000000000000000000000000000000000000000000b 40\npaid 000000000000000000000000000000000000000000000000000000000000000c 40\n\
paid 000000000000000000000000000000000000000000000000000000000000000d 40\npaid 000000000000000000000000000000000000000000000000000000000000000e 40\n\
call 3 refused 24\ncall 4 ok\nslashed 0000000000000000000000000000000000000000000000000000000000000002 10\n\
slashed 0000000000000000000000000000000000000000000000000000000000000007 20\n\
slashed 0000000000000000000000000000000000000000000000000000000000000008 20\n\
slashed 0000000000000000000000000000000000000000000000000000000000000009 20\n\
slashed 000000000000000000000000000000000000000000000000000000000000000a 20\ncall 5 ok\n\
end free 17805 active 2760 unlocking 50 deposits 0 minted 705 burned 90 issuance 20615\n";

/// Three seats, eras of six blocks with the snapshot in the third, two eras of bonding, and the
/// thresholds 100 and 500.
pub const ORDINARY_NUMBERS: [u64; 14] = [3, 6, 2, 2, 2, 10, 2, 100, 500, 4, 1000, 12, 5, 700];

/// The calls of a run whose eras are kept as long as they may be, by the number of their block, and
/// the lines from the 85th era on. There are three blocks an era, and one seat.
pub static KEPT: [(u64, &[Call]); 5] = [
    (1, &[Call(1, Bond(60)), Call(1, Validate(0))]),
    (4, &[Call(9, Points(&[(1, 3)]))]),
    (253, &[Call(2, Payout(0, 1))]),
    (
        256,
        &[
            Call(2, Payout(0, 1)),
            Call(9, Offence(0, 1, 1)),
            Call(2, Payout(1, 1)),
        ],
    ),
    (
        259,
        &[
            Call(2, Payout(1, 1)),
            Call(9, Offence(1, 1, 1)),
            Call(2, Payout(2, 1)),
        ],
    ),
];

pub const KEPT_TEXT: &str =
    "block 253\nera 84\ncall 0 refused 23\nblock 254\nsnapshot 85 targets 1 voters 1 total 60\n\
block 255\nseat 85 fill\nmember 0000000000000000000000000000000000000000000000000000000000000001 60\n\
block 256\nera 85\ncall 0 refused 21\ncall 1 refused 21\ncall 2 ok\npaid 0000000000000000000000000000000000000000000000000000000000000001 7\n\
block 257\nsnapshot 86 targets 1 voters 1 total 60\n\
block 258\nseat 86 fill\nmember 0000000000000000000000000000000000000000000000000000000000000001 60\n\
block 259\nera 86\ncall 0 refused 21\ncall 1 refused 21\ncall 2 refused 26\n\
end free 447 active 60 unlocking 0 deposits 0 minted 7 burned 0 issuance 507\n";

pub const KEPT_NUMBERS: [u64; 12] = [1, 3, 1, 1, 1, 10, 0, 1, 1, 0, 0, 7];
