//! The rows of worked streams: calls, and what a replay of them writes. The texts were made by
//! another program.
use crate::stream_calls::Kind::{
    Bond, BondExtra, Chill, Claim, Nominate, Offence, Payout, Points, PutInFront, Rebag, Rebond,
    Submit, Unbond, Validate, Withdraw,
};
use crate::stream_calls::{Call, Stream};

/// Three validators with 60, 40 and 30 units.
pub const BONDS: [Call; 6] = [
    Call(1, Bond(60)),
    Call(1, Validate(100_000_000)),
    Call(2, Bond(40)),
    Call(2, Validate(0)),
    Call(3, Bond(30)),
    Call(3, Validate(0)),
];

/// The best claim is wrong, and the second wins.
pub const SECOND_WINS: Stream = Stream {
    endowment: 100,
    least_bond: 10,
    places: 3,
    blocks: &[
        &BONDS,
        &[],
        &[
            Call(4, Claim(40)),
            Call(4, Claim(39)),
            Call(5, Claim(38)),
            Call(5, Claim(38)),
            Call(5, Claim(41)),
        ],
        &[],
        &[],
    ],
    text: "block 1\ncall 0 ok\ncall 1 ok\ncall 2 ok\ncall 3 ok\ncall 4 ok\ncall 5 ok\nblock 2\n\
block 3\nsnapshot 1 targets 3 voters 3 total 130\ncall 0 ok\ncall 1 ok\ncall 2 ok\n\
call 3 refused 20\ncall 4 ok\nreturn 3 12\nblock 4\n\
block 5\nforfeit 4 12 verdict 9 40 100 5200\nreturn 1 12\nreward 1 5\nreturn 2 12\n\
seat 1 signed 1\nmember 0000000000000000000000000000000000000000000000000000000000000001 60\n\
member 0000000000000000000000000000000000000000000000000000000000000002 40\n\
end free 363 active 130 unlocking 0 deposits 0 minted 5 burned 12 issuance 493\n",
};

/// Streams, each with what a replay of it writes. There are five accounts and two seats, eras of six
/// blocks with the snapshot in the third, one era of bonding, and the thresholds 50 and 80.
pub static STREAMS: [Stream; 18] = [
    // a chunk is not free before its era, and a void round takes no submission
    Stream {
        endowment: 100,
        least_bond: 10,
        places: 3,
        blocks: &[
            &[Call(1, Bond(60)), Call(1, Unbond(20))],
            &[],
            &[],
            &[Call(2, Claim(40))],
            &[],
            &[Call(1, Withdraw)],
        ],
        text: "block 1\ncall 0 ok\ncall 1 ok\nblock 2\nblock 3\nvoid 1 few\nblock 4\ncall 0 refused 28\nblock 5\n\
block 6\ncall 0 ok\n\
end free 440 active 40 unlocking 20 deposits 0 minted 0 burned 0 issuance 500\n",
    },
    // and is free in it
    Stream {
        endowment: 100,
        least_bond: 10,
        places: 3,
        blocks: &[
            &[Call(1, Bond(60)), Call(1, Unbond(20))],
            &[],
            &[],
            &[],
            &[],
            &[],
            &[Call(1, Withdraw)],
        ],
        text: "block 1\ncall 0 ok\ncall 1 ok\nblock 2\nblock 3\nvoid 1 few\nblock 4\nblock 5\nblock 6\n\
block 7\nera 1\ncall 0 ok\n\
end free 460 active 40 unlocking 0 deposits 0 minted 0 burned 0 issuance 500\n",
    },
    // the reasons of a bond in their order
    Stream {
        endowment: 100,
        least_bond: 10,
        places: 3,
        blocks: &[&[
            Call(1, Bond(0)),
            Call(1, Bond(5)),
            Call(1, Bond(101)),
            Call(1, Bond(60)),
            Call(1, Bond(5)),
        ]],
        text: "block 1\ncall 0 refused 7\ncall 1 refused 4\ncall 2 refused 1\ncall 3 ok\ncall 4 refused 3\n\
end free 440 active 60 unlocking 0 deposits 0 minted 0 burned 0 issuance 500\n",
    },
    // a rebond takes the latest chunk first, and then a part of the one before
    Stream {
        endowment: 100,
        least_bond: 10,
        places: 3,
        blocks: &[
            &[Call(1, Bond(100)), Call(1, Unbond(30))],
            &[],
            &[],
            &[],
            &[],
            &[],
            &[Call(1, Unbond(30)), Call(1, Rebond(40)), Call(1, Withdraw)],
        ],
        text: "block 1\ncall 0 ok\ncall 1 ok\nblock 2\nblock 3\nvoid 1 few\nblock 4\nblock 5\nblock 6\n\
block 7\nera 1\ncall 0 ok\ncall 1 ok\ncall 2 ok\n\
end free 420 active 80 unlocking 0 deposits 0 minted 0 burned 0 issuance 500\n",
    },
    // as much stake as seats squared is enough
    Stream {
        endowment: 2,
        least_bond: 1,
        places: 3,
        blocks: &[
            &[
                Call(1, Bond(2)),
                Call(1, Validate(0)),
                Call(2, Bond(2)),
                Call(2, Validate(0)),
            ],
            &[],
            &[],
        ],
        text: "block 1\ncall 0 ok\ncall 1 ok\ncall 2 ok\ncall 3 ok\nblock 2\n\
block 3\nsnapshot 1 targets 2 voters 2 total 4\n\
end free 6 active 4 unlocking 0 deposits 0 minted 0 burned 0 issuance 10\n",
    },
    // and one unit less is not
    Stream {
        endowment: 2,
        least_bond: 1,
        places: 3,
        blocks: &[
            &[
                Call(1, Bond(2)),
                Call(1, Validate(0)),
                Call(2, Bond(1)),
                Call(2, Validate(0)),
            ],
            &[],
            &[],
        ],
        text: "block 1\ncall 0 ok\ncall 1 ok\ncall 2 ok\ncall 3 ok\nblock 2\nblock 3\nvoid 1 poor\n\
end free 7 active 3 unlocking 0 deposits 0 minted 0 burned 0 issuance 10\n",
    },
    // more stake moves an account to another bag, and less to another
    Stream {
        endowment: 100,
        least_bond: 10,
        places: 3,
        blocks: &[&[
            Call(1, Bond(40)),
            Call(1, Validate(0)),
            Call(2, Bond(45)),
            Call(2, Validate(0)),
            Call(2, PutInFront(1)),
            Call(2, BondExtra(10)),
            Call(2, PutInFront(1)),
            Call(2, Unbond(20)),
            Call(2, PutInFront(1)),
            Call(1, PutInFront(2)),
        ]],
        text: "block 1\ncall 0 ok\ncall 1 ok\ncall 2 ok\ncall 3 ok\ncall 4 ok\ncall 5 ok\ncall 6 refused 18\n\
call 7 ok\ncall 8 refused 19\ncall 9 ok\n\
end free 405 active 75 unlocking 20 deposits 0 minted 0 burned 0 issuance 500\n",
    },
    // a nominator of a chilled validator alone is no voter, one of three with one chilled is
    Stream {
        endowment: 100,
        least_bond: 10,
        places: 3,
        blocks: &[
            &[
                Call(1, Bond(40)),
                Call(1, Validate(0)),
                Call(2, Bond(40)),
                Call(2, Validate(0)),
                Call(3, Bond(40)),
                Call(3, Validate(0)),
                Call(4, Bond(30)),
                Call(4, Nominate(&[1, 2, 3])),
                Call(5, Bond(20)),
                Call(5, Nominate(&[3])),
            ],
            &[Call(3, Chill)],
            &[],
        ],
        text: "block 1\ncall 0 ok\ncall 1 ok\ncall 2 ok\ncall 3 ok\ncall 4 ok\ncall 5 ok\ncall 6 ok\n\
call 7 ok\ncall 8 ok\ncall 9 ok\nblock 2\ncall 0 ok\n\
block 3\nsnapshot 1 targets 2 voters 3 total 110\n\
end free 330 active 170 unlocking 0 deposits 0 minted 0 burned 0 issuance 500\n",
    },
    // a role changes both ways, and the account has one place
    Stream {
        endowment: 100,
        least_bond: 10,
        places: 3,
        blocks: &[
            &[
                Call(1, Bond(40)),
                Call(1, Validate(0)),
                Call(2, Bond(45)),
                Call(2, Validate(7)),
                Call(1, Nominate(&[2])),
                Call(1, Nominate(&[2])),
                Call(1, Rebag(1)),
                Call(1, Validate(9)),
                Call(2, Nominate(&[1])),
                Call(1, Chill),
                Call(1, PutInFront(2)),
            ],
            &[],
            &[],
        ],
        text: "block 1\ncall 0 ok\ncall 1 ok\ncall 2 ok\ncall 3 ok\ncall 4 ok\ncall 5 ok\ncall 6 refused 17\n\
call 7 ok\ncall 8 ok\ncall 9 ok\ncall 10 refused 16\nblock 2\nblock 3\nvoid 1 few\n\
end free 415 active 85 unlocking 0 deposits 0 minted 0 burned 0 issuance 500\n",
    },
    // ranks and deposits: the best claim is wrong and the second wins
    SECOND_WINS,
    // a wrong claim alone, and the fill is seated
    Stream {
        endowment: 100,
        least_bond: 10,
        places: 3,
        blocks: &[&BONDS, &[], &[Call(5, Claim(41))], &[], &[]],
        text: "block 1\ncall 0 ok\ncall 1 ok\ncall 2 ok\ncall 3 ok\ncall 4 ok\ncall 5 ok\nblock 2\n\
block 3\nsnapshot 1 targets 3 voters 3 total 130\ncall 0 ok\nblock 4\n\
block 5\nforfeit 1 12 verdict 9 40 100 5200\nseat 1 fill\nmember 0000000000000000000000000000000000000000000000000000000000000001 60\n\
member 0000000000000000000000000000000000000000000000000000000000000002 40\n\
end free 358 active 130 unlocking 0 deposits 0 minted 0 burned 12 issuance 488\n",
    },
    // the reasons of a submission in their order: too early, another round, too long, too little
    // free, no better; a better one puts an equal one out
    Stream {
        endowment: 100,
        least_bond: 10,
        places: 3,
        blocks: &[
            &BONDS,
            &[Call(4, Claim(40))],
            &[
                Call(
                    4,
                    Submit {
                        round: 2,
                        claim: [40, 100, 5200],
                        zeros: 0,
                        elects: &[0, 1],
                    },
                ),
                Call(
                    4,
                    Submit {
                        round: 1,
                        claim: [40, 100, 5200],
                        zeros: 981,
                        elects: &[0, 1],
                    },
                ),
                Call(1, Claim(40)),
                Call(2, Claim(40)),
                Call(4, Claim(40)),
                Call(4, Claim(40)),
                Call(5, Claim(40)),
                Call(5, Claim(40)),
                Call(5, Claim(41)),
                Call(4, Claim(42)),
            ],
            &[Call(4, Claim(41))],
            &[Call(4, Claim(43))],
            &[],
            &[Call(4, Claim(43))],
        ],
        text: "block 1\ncall 0 ok\ncall 1 ok\ncall 2 ok\ncall 3 ok\ncall 4 ok\ncall 5 ok\n\
block 2\ncall 0 refused 28\n\
block 3\nsnapshot 1 targets 3 voters 3 total 130\ncall 0 refused 29\ncall 1 refused 30\n\
call 2 ok\ncall 3 ok\ncall 4 ok\ncall 5 refused 20\ncall 6 refused 20\ncall 7 refused 20\n\
call 8 ok\nreturn 3 12\ncall 9 ok\nreturn 2 12\nblock 4\ncall 0 ok\nreturn 1 12\n\
block 5\nforfeit 5 12 verdict 9 40 100 5200\nforfeit 4 12 verdict 9 40 100 5200\n\
forfeit 6 12 verdict 9 40 100 5200\nseat 1 fill\nmember 0000000000000000000000000000000000000000000000000000000000000001 60\n\
member 0000000000000000000000000000000000000000000000000000000000000002 40\ncall 0 refused 28\n\
block 6\nblock 7\nera 1\ncall 0 refused 28\n\
end free 334 active 130 unlocking 0 deposits 0 minted 0 burned 36 issuance 464\n",
    },
    // too little free for the deposit
    Stream {
        endowment: 12,
        least_bond: 10,
        places: 3,
        blocks: &[
            &[
                Call(1, Bond(12)),
                Call(1, Validate(0)),
                Call(2, Bond(10)),
                Call(2, Validate(0)),
            ],
            &[],
            &[
                Call(1, Claim(40)),
                Call(2, Claim(40)),
                Call(4, Claim(40)),
                Call(4, Claim(40)),
            ],
            &[],
            &[],
        ],
        text: "block 1\ncall 0 ok\ncall 1 ok\ncall 2 ok\ncall 3 ok\nblock 2\n\
block 3\nsnapshot 1 targets 2 voters 2 total 22\ncall 0 refused 1\ncall 1 refused 1\n\
call 2 ok\ncall 3 refused 1\nblock 4\n\
block 5\nforfeit 1 12 verdict 9 10 22 244\nseat 1 fill\nmember 0000000000000000000000000000000000000000000000000000000000000001 11\n\
member 0000000000000000000000000000000000000000000000000000000000000002 10\n\
end free 26 active 22 unlocking 0 deposits 0 minted 0 burned 12 issuance 48\n",
    },
    // the reasons of calls on roles in their order, with the number of each
    Stream {
        endowment: 100,
        least_bond: 10,
        places: 3,
        blocks: &[&[
            Call(1, Bond(60)),
            Call(1, Validate(0)),
            Call(2, BondExtra(5)),
            Call(3, Nominate(&[1])),
            Call(3, Bond(30)),
            Call(3, Nominate(&[])),
            Call(3, Nominate(&[1; 25])),
            Call(3, Nominate(&[1, 1])),
            Call(3, Nominate(&[2])),
            Call(3, Nominate(&[3])),
            Call(3, Nominate(&[1])),
            Call(3, Validate(1_000_000_001)),
            Call(4, Chill),
            Call(1, Unbond(60)),
        ]],
        text: "block 1\ncall 0 ok\ncall 1 ok\ncall 2 refused 2\ncall 3 refused 2\ncall 4 ok\n\
call 5 refused 10\ncall 6 refused 11\ncall 7 refused 12\ncall 8 refused 13\n\
call 9 refused 13\ncall 10 ok\ncall 11 refused 15\ncall 12 refused 16\ncall 13 refused 4\n\
end free 410 active 90 unlocking 0 deposits 0 minted 0 burned 0 issuance 500\n",
    },
    // a queue of sixteen places, full of equal claims: an equal one is refused, a better one ejects
    // the last, and the first is judged right behind it
    Stream {
        endowment: 100,
        least_bond: 10,
        places: 16,
        blocks: &[
            &BONDS,
            &[],
            &[
                Call(4, Claim(40)),
                Call(4, Claim(40)),
                Call(4, Claim(40)),
                Call(4, Claim(40)),
                Call(4, Claim(40)),
                Call(4, Claim(40)),
                Call(4, Claim(40)),
                Call(4, Claim(40)),
                Call(5, Claim(40)),
                Call(5, Claim(40)),
                Call(5, Claim(40)),
                Call(5, Claim(40)),
                Call(5, Claim(40)),
                Call(5, Claim(40)),
                Call(5, Claim(40)),
                Call(5, Claim(40)),
                Call(3, Claim(40)),
                Call(3, Claim(41)),
                Call(3, Claim(40)),
            ],
            &[],
            &[],
        ],
        text: "block 1\ncall 0 ok\ncall 1 ok\ncall 2 ok\ncall 3 ok\ncall 4 ok\ncall 5 ok\nblock 2\n\
block 3\nsnapshot 1 targets 3 voters 3 total 130\ncall 0 ok\ncall 1 ok\ncall 2 ok\n\
call 3 ok\ncall 4 ok\ncall 5 ok\ncall 6 ok\ncall 7 ok\ncall 8 ok\ncall 9 ok\n\
call 10 ok\ncall 11 ok\ncall 12 ok\ncall 13 ok\ncall 14 ok\ncall 15 ok\ncall 16 refused 20\n\
call 17 ok\nreturn 16 12\ncall 18 refused 20\nblock 4\n\
block 5\nforfeit 17 12 verdict 9 40 100 5200\nreturn 1 12\nreward 1 5\nreturn 2 12\n\
return 3 12\nreturn 4 12\nreturn 5 12\nreturn 6 12\nreturn 7 12\nreturn 8 12\n\
return 9 12\nreturn 10 12\nreturn 11 12\nreturn 12 12\nreturn 13 12\nreturn 14 12\n\
return 15 12\nseat 1 signed 1\nmember 0000000000000000000000000000000000000000000000000000000000000001 60\n\
member 0000000000000000000000000000000000000000000000000000000000000002 40\n\
end free 363 active 130 unlocking 0 deposits 0 minted 5 burned 12 issuance 493\n",
    },
    // points, payouts and offences are refused in their order
    Stream {
        endowment: 100,
        least_bond: 10,
        places: 3,
        blocks: &[
            &[
                Call(1, Bond(60)),
                Call(1, Validate(100_000_000)),
                Call(2, Bond(40)),
                Call(2, Validate(0)),
                Call(3, Bond(30)),
                Call(3, Validate(0)),
                Call(4, Bond(20)),
                Call(4, Nominate(&[1, 2])),
            ],
            &[],
            &[],
            &[],
            &[],
            &[Call(9, Points(&[(1, 1)]))],
            &[
                Call(9, Points(&[(1, 3)])),
                Call(1, Points(&[(1, 3)])),
                Call(9, Points(&[(1, 3), (5, 4)])),
                Call(5, Points(&[])),
                Call(9, Points(&[])),
                Call(4, Payout(1, 1)),
                Call(4, Payout(2, 1)),
                Call(4, Payout(0, 1)),
                Call(4, Offence(1, 1, 100_000_000)),
                Call(9, Offence(1, 1, 0)),
                Call(9, Offence(1, 1, 1_000_000_001)),
                Call(9, Offence(2, 1, 100_000_000)),
                Call(9, Offence(1, 5, 100_000_000)),
                Call(9, Offence(1, 1, 100_000_000)),
                Call(9, Offence(1, 1, 100_000_000)),
                Call(9, Offence(1, 1, 250_000_000)),
                Call(9, Offence(1, 1, 200_000_000)),
            ],
            &[],
            &[],
            &[],
            &[],
            &[],
            &[
                Call(4, Payout(1, 1)),
                Call(4, Payout(1, 1)),
                Call(4, Payout(1, 2)),
                Call(4, Payout(1, 5)),
                Call(4, Payout(2, 1)),
                Call(4, Payout(3, 1)),
            ],
        ],
        text: "block 1\ncall 0 ok\ncall 1 ok\ncall 2 ok\ncall 3 ok\ncall 4 ok\ncall 5 ok\ncall 6 ok\n\
call 7 ok\nblock 2\nblock 3\nsnapshot 1 targets 3 voters 4 total 150\nblock 4\n\
block 5\nseat 1 fill\nmember 0000000000000000000000000000000000000000000000000000000000000001 75\n\
member 0000000000000000000000000000000000000000000000000000000000000002 45\n\
block 6\ncall 0 refused 23\n\
block 7\nera 1\ncall 0 ok\ncall 1 refused 27\ncall 2 refused 23\ncall 3 refused 27\n\
call 4 ok\ncall 5 refused 22\ncall 6 refused 21\ncall 7 refused 23\ncall 8 refused 27\n\
call 9 refused 15\ncall 10 refused 15\ncall 11 refused 21\ncall 12 refused 23\n\
call 13 ok\nslashed 0000000000000000000000000000000000000000000000000000000000000001 6\n\
slashed 0000000000000000000000000000000000000000000000000000000000000004 1\n\
call 14 refused 25\ncall 15 ok\nslashed 0000000000000000000000000000000000000000000000000000000000000001 9\n\
slashed 0000000000000000000000000000000000000000000000000000000000000004 2\ncall 16 refused 25\n\
block 8\nblock 9\nsnapshot 2 targets 3 voters 4 total 132\nblock 10\n\
block 11\nseat 2 fill\nmember 0000000000000000000000000000000000000000000000000000000000000001 62\n\
member 0000000000000000000000000000000000000000000000000000000000000002 40\nblock 12\n\
block 13\nera 2\ncall 0 ok\npaid 0000000000000000000000000000000000000000000000000000000000000001 820\n\
paid 0000000000000000000000000000000000000000000000000000000000000004 180\ncall 1 refused 24\n\
call 2 refused 26\ncall 3 refused 23\ncall 4 refused 22\ncall 5 refused 21\n\
end free 1350 active 132 unlocking 0 deposits 0 minted 1000 burned 18 issuance 1482\n",
    },
    // a role ends where a slash leaves nothing, with chunks after what is active
    Stream {
        endowment: 100,
        least_bond: 10,
        places: 3,
        blocks: &[
            &[
                Call(1, Bond(60)),
                Call(1, Validate(100_000_000)),
                Call(2, Bond(40)),
                Call(2, Validate(0)),
                Call(3, Bond(30)),
                Call(3, Validate(0)),
                Call(4, Bond(20)),
                Call(4, Nominate(&[2])),
            ],
            &[],
            &[],
            &[Call(2, Unbond(15)), Call(4, Chill), Call(4, Unbond(15))],
            &[],
            &[],
            &[
                Call(9, Offence(1, 2, 500_000_000)),
                Call(9, Offence(1, 2, 1_000_000_000)),
                Call(2, Chill),
                Call(2, Withdraw),
                Call(4, Withdraw),
                Call(1, Points(&[])),
            ],
        ],
        text: "block 1\ncall 0 ok\ncall 1 ok\ncall 2 ok\ncall 3 ok\ncall 4 ok\ncall 5 ok\ncall 6 ok\n\
call 7 ok\nblock 2\nblock 3\nsnapshot 1 targets 3 voters 4 total 150\n\
block 4\ncall 0 ok\ncall 1 ok\ncall 2 ok\n\
block 5\nseat 1 fill\nmember 0000000000000000000000000000000000000000000000000000000000000001 60\n\
member 0000000000000000000000000000000000000000000000000000000000000002 60\nblock 6\n\
block 7\nera 1\ncall 0 ok\nslashed 0000000000000000000000000000000000000000000000000000000000000002 20\n\
slashed 0000000000000000000000000000000000000000000000000000000000000004 10\n\
call 1 ok\nslashed 0000000000000000000000000000000000000000000000000000000000000002 20\n\
slashed 0000000000000000000000000000000000000000000000000000000000000004 10\n\
call 2 refused 16\ncall 3 refused 2\ncall 4 refused 2\ncall 5 refused 27\n\
end free 350 active 90 unlocking 0 deposits 0 minted 0 burned 60 issuance 440\n",
    },
    // a payout above what may still be issued is refused each time
    Stream {
        endowment: 1_844_674_407_370_955_161,
        least_bond: 10,
        places: 3,
        blocks: &[
            &[
                Call(1, Bond(60)),
                Call(1, Validate(100_000_000)),
                Call(2, Bond(40)),
                Call(2, Validate(0)),
                Call(3, Bond(30)),
                Call(3, Validate(0)),
            ],
            &[],
            &[],
            &[],
            &[],
            &[],
            &[Call(9, Points(&[(1, 3), (2, 4)]))],
            &[],
            &[],
            &[],
            &[],
            &[],
            &[
                Call(4, Payout(1, 1)),
                Call(4, Payout(1, 1)),
                Call(9, Offence(1, 1, 100_000_000)),
            ],
        ],
        text: "block 1\ncall 0 ok\ncall 1 ok\ncall 2 ok\ncall 3 ok\ncall 4 ok\ncall 5 ok\nblock 2\n\
block 3\nsnapshot 1 targets 3 voters 3 total 130\nblock 4\n\
block 5\nseat 1 fill\nmember 0000000000000000000000000000000000000000000000000000000000000001 60\n\
member 0000000000000000000000000000000000000000000000000000000000000002 40\nblock 6\n\
block 7\nera 1\ncall 0 ok\nblock 8\nblock 9\nsnapshot 2 targets 3 voters 3 total 130\nblock 10\n\
block 11\nseat 2 fill\nmember 0000000000000000000000000000000000000000000000000000000000000001 60\n\
member 0000000000000000000000000000000000000000000000000000000000000002 40\nblock 12\n\
block 13\nera 2\ncall 0 refused 9\ncall 1 refused 9\ncall 2 ok\nslashed 0000000000000000000000000000000000000000000000000000000000000001 6\n\
end free 9223372036854775675 active 124 unlocking 0 deposits 0 minted 0 burned 6 issuance 9223372036854775799\n",
    },
];
