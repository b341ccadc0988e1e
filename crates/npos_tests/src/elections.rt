//! Worked bundles, whose verdicts and committees were computed by hand or by another program,
//! through the top call.
use crate::outside::{calm, run_over};
use npos_base::{AccountId, List, NoMemory};
use scale_wire::Pen;
use std::alloc::Global;
use std::test::Fail;

/// The stakes of the voters, with their votes.
type Voters = &'static [(u64, &'static [u64])];

/// A voter with 60 for the first target, and one with 40 for the second.
const APART: Voters = &[(60, &[0]), (40, &[1])];

/// One voter with 10 for two targets.
const ONE: Voters = &[(10, &[0, 1])];

/// A bundle with two seats and packed work, and what a check of it comes to.
struct Packed {
    targets: u64,
    voters: Voters,
    claim: (u64, u64, u128),
    /// The front of the solution, which so many zeros follow.
    front: &'static [u8],
    zeros: u32,
    status: u8,
    line: &'static str,
}

static PACKED: [Packed; 18] = [
    Packed {
        targets: 3,
        voters: APART,
        claim: (40, 100, 5200),
        front: &[8, 0, 0, 4, 4],
        zeros: 15,
        status: 0,
        line: "verdict 0\n",
    },
    Packed {
        targets: 3,
        voters: APART,
        claim: (41, 100, 5200),
        front: &[8, 0, 0, 4, 4],
        zeros: 15,
        status: 1,
        line: "verdict 9 40 100 5200\n",
    },
    Packed {
        targets: 3,
        voters: APART,
        claim: (40, 100, 5200),
        front: &[],
        zeros: 0,
        status: 1,
        line: "verdict 1 0 1\n",
    },
    Packed {
        targets: 3,
        voters: APART,
        claim: (40, 100, 5200),
        front: &[8, 0, 0, 4, 4],
        zeros: 16,
        status: 1,
        line: "verdict 1 20 6\n",
    },
    // a wrong entry behind a right one
    Packed {
        targets: 3,
        voters: APART,
        claim: (40, 100, 5200),
        front: &[8, 0, 0, 8, 0],
        zeros: 15,
        status: 1,
        line: "verdict 2 2\n",
    },
    Packed {
        targets: 3,
        voters: APART,
        claim: (40, 100, 5200),
        front: &[8, 0, 0, 4, 12],
        zeros: 15,
        status: 1,
        line: "verdict 3 3\n",
    },
    Packed {
        targets: 3,
        voters: APART,
        claim: (40, 100, 5200),
        front: &[8, 0, 0, 0, 0],
        zeros: 15,
        status: 1,
        line: "verdict 4 0\n",
    },
    Packed {
        targets: 3,
        voters: APART,
        claim: (40, 100, 5200),
        front: &[4, 0, 0, 4, 4, 4, 4, 4],
        zeros: 14,
        status: 1,
        line: "verdict 5 1\n",
    },
    Packed {
        targets: 3,
        voters: APART,
        claim: (40, 100, 5200),
        front: &[8, 0, 0, 4, 0],
        zeros: 15,
        status: 1,
        line: "verdict 6 1 0\n",
    },
    Packed {
        targets: 3,
        voters: &[(60, &[0]), (40, &[0, 1])],
        claim: (40, 100, 5200),
        front: &[4, 0, 0, 4, 4, 0, 254, 255, 3, 0, 4],
        zeros: 14,
        status: 1,
        line: "verdict 7 1\n",
    },
    // and one that is wrong alone
    Packed {
        targets: 3,
        voters: APART,
        claim: (40, 100, 5200),
        front: &[0, 4, 0, 0, 4, 0],
        zeros: 14,
        status: 1,
        line: "verdict 5 0\n",
    },
    Packed {
        targets: 3,
        voters: APART,
        claim: (40, 100, 5200),
        front: &[4, 0, 4],
        zeros: 15,
        status: 1,
        line: "verdict 6 0 1\n",
    },
    Packed {
        targets: 3,
        voters: APART,
        claim: (40, 100, 5200),
        front: &[4, 0, 0],
        zeros: 15,
        status: 1,
        line: "verdict 8 1\n",
    },
    // equal to the threshold outweighs, and one unit below does not
    Packed {
        targets: 3,
        voters: &[(50, &[0, 1]), (50, &[2])],
        claim: (24, 50, 1252),
        front: &[0, 4, 0, 0, 254, 255, 1, 0, 4],
        zeros: 14,
        status: 1,
        line: "verdict 10 2 50\n",
    },
    Packed {
        targets: 3,
        voters: &[(51, &[0, 1]), (49, &[2])],
        claim: (25, 51, 1301),
        front: &[0, 4, 0, 0, 254, 255, 1, 0, 4],
        zeros: 14,
        status: 0,
        line: "verdict 0\n",
    },
    // a third of the stake, all of it, and a voter in two groups
    Packed {
        targets: 2,
        voters: ONE,
        claim: (3, 10, 58),
        front: &[0, 4, 0, 0, 86, 85, 1, 0, 4],
        zeros: 14,
        status: 0,
        line: "verdict 0\n",
    },
    Packed {
        targets: 2,
        voters: ONE,
        claim: (3, 10, 58),
        front: &[0, 4, 0, 0, 254, 255, 3, 0, 4],
        zeros: 14,
        status: 1,
        line: "verdict 7 0\n",
    },
    Packed {
        targets: 2,
        voters: ONE,
        claim: (3, 10, 58),
        front: &[4, 0, 0, 4, 0, 0, 86, 85, 1, 0, 4],
        zeros: 14,
        status: 1,
        line: "verdict 4 0\n",
    },
];

/// A bundle with two seats and other work, spelled out, and what a check of it comes to.
struct Spelled {
    targets: u64,
    voters: Voters,
    work: &'static [u8],
    status: u8,
    line: &'static str,
}

static SPELLED: [Spelled; 7] = [
    Spelled {
        targets: 3,
        voters: APART,
        work: &[0],
        status: 3,
        line: "fault 169 nosolution\n",
    },
    Spelled {
        targets: 3,
        voters: APART,
        work: &[3],
        status: 3,
        line: "fault 169 badtag\n",
    },
    Spelled {
        targets: 3,
        voters: APART,
        work: &[0, 0],
        status: 3,
        line: "fault 170 trailing\n",
    },
    Spelled {
        targets: 3,
        voters: APART,
        work: &[2, 8, 0, 4, 8, 0, 0, 244, 4, 4, 160],
        status: 1,
        line: "verdict 11 0\n",
    },
    // poor weights of a proportional committee
    Spelled {
        targets: 3,
        voters: &[(50, &[0, 2]), (50, &[0, 1])],
        work: &[2, 8, 0, 4, 8, 4, 0, 100, 4, 4, 100],
        status: 1,
        line: "verdict 10 2 50\n",
    },
    Spelled {
        targets: 3,
        voters: &[(2, &[0, 1]), (1, &[2])],
        work: &[0],
        status: 3,
        line: "fault 0 snapshot 2 3 2\n",
    },
    Spelled {
        targets: 1,
        voters: &[(9, &[0])],
        work: &[0],
        status: 3,
        line: "fault 0 snapshot 1 1 2\n",
    },
];

/// A voter for the first two targets, and one for the first.
const BOTH: Voters = &[(60, &[0, 1]), (40, &[0])];

/// Ten voters whose stakes sequential Phragmén splits so that a target outside outweighs.
const SPLIT: Voters = &[
    (2, &[0, 5, 4, 2]),
    (1, &[0]),
    (1, &[1]),
    (1, &[2, 3, 1, 4, 5]),
    (1, &[1, 2, 3]),
    (2, &[4, 5, 1, 2]),
    (2, &[3]),
    (2, &[3, 4]),
    (1, &[1, 2, 5, 0, 4]),
    (1, &[0, 1, 2, 3, 4, 5]),
];

/// Voters that give to 1 to 16 members each, and one that votes for 16 of which the part for the
/// last, which a far greater voter carries, is rounded down to nothing.
const SEVENTEEN: Voters = &[
    (1_000_000, &[0]),
    (2_000_000, &[0, 1]),
    (3_000_000, &[0, 1, 2]),
    (4_000_000, &[0, 1, 2, 3]),
    (5_000_000, &[0, 1, 2, 3, 4]),
    (6_000_000, &[0, 1, 2, 3, 4, 5]),
    (7_000_000, &[0, 1, 2, 3, 4, 5, 6]),
    (8_000_000, &[0, 1, 2, 3, 4, 5, 6, 7]),
    (9_000_000, &[0, 1, 2, 3, 4, 5, 6, 7, 8]),
    (10_000_000, &[0, 1, 2, 3, 4, 5, 6, 7, 8, 9]),
    (11_000_000, &[0, 1, 2, 3, 4, 5, 6, 7, 8, 9, 10]),
    (12_000_000, &[0, 1, 2, 3, 4, 5, 6, 7, 8, 9, 10, 11]),
    (13_000_000, &[0, 1, 2, 3, 4, 5, 6, 7, 8, 9, 10, 11, 12]),
    (14_000_000, &[0, 1, 2, 3, 4, 5, 6, 7, 8, 9, 10, 11, 12, 13]),
    (
        15_000_000,
        &[0, 1, 2, 3, 4, 5, 6, 7, 8, 9, 10, 11, 12, 13, 14],
    ),
    (
        16_000_000,
        &[0, 1, 2, 3, 4, 5, 6, 7, 8, 9, 10, 11, 12, 13, 14, 15],
    ),
    (
        20_000_000,
        &[1, 2, 3, 4, 5, 6, 7, 8, 9, 10, 11, 12, 13, 14, 15, 16],
    ),
    (1_000_000_000_000_000, &[16]),
];

/// A miner, an election with work that no miner looks at, and what comes of it.
struct Mined {
    miner: &'static str,
    seats: u64,
    targets: u64,
    voters: Voters,
    work: &'static [u8],
    status: u8,
    lines: &'static str,
}

/// Of the fill a tie that goes to the lowest, the least total, less than that, a byte too many and an
/// unknown vote. Then weights that pack, a support that is rounded as it is packed, members whom
/// nobody nominates, a solution that is no Yes, and one with entries of each length.
static MINED: [Mined; 11] = [
    Mined {
        miner: "fill",
        seats: 2,
        targets: 3,
        voters: &[(70, &[0, 1]), (30, &[2])],
        work: &[0],
        status: 0,
        lines: "member 0000000000000000000000000000000000000000000000000000000000000001 50\nmember 0000000000000000000000000000000000000000000000000000000000000003 30\nscore 30 80 3400\nverdict 0\n",
    },
    Mined {
        miner: "fill",
        seats: 2,
        targets: 3,
        voters: &[(3, &[0, 1]), (1, &[2])],
        work: &[2, 0, 4, 8, 0, 4],
        status: 0,
        lines: "member 0000000000000000000000000000000000000000000000000000000000000001 2\nmember 0000000000000000000000000000000000000000000000000000000000000002 1\nscore 1 3 5\nverdict 0\n",
    },
    Mined {
        miner: "fill",
        seats: 2,
        targets: 3,
        voters: &[(2, &[0, 1]), (1, &[2])],
        work: &[0],
        status: 3,
        lines: "fault 0 snapshot 2 3 2\n",
    },
    Mined {
        miner: "fill",
        seats: 2,
        targets: 3,
        voters: APART,
        work: &[0, 0],
        status: 3,
        lines: "fault 170 trailing\n",
    },
    Mined {
        miner: "mms",
        seats: 2,
        targets: 2,
        voters: &[(9, &[0, 2])],
        work: &[0],
        status: 3,
        lines: "fault 0 snapshot 5 0\n",
    },
    Mined {
        miner: "seq",
        seats: 2,
        targets: 3,
        voters: APART,
        work: &[0],
        status: 0,
        lines: "member 0000000000000000000000000000000000000000000000000000000000000001 60\nmember 0000000000000000000000000000000000000000000000000000000000000002 40\nscore 40 100 5200\nsolution 0800000404000000000000000000000000000000\nverdict 0\n",
    },
    Mined {
        miner: "mms",
        seats: 2,
        targets: 3,
        voters: BOTH,
        work: &[0],
        status: 0,
        lines: "member 0000000000000000000000000000000000000000000000000000000000000001 49\nmember 0000000000000000000000000000000000000000000000000000000000000002 51\nscore 49 100 5002\nsolution 040400040000a9aa040000000000000000000000000000\nverdict 0\n",
    },
    Mined {
        miner: "seq",
        seats: 2,
        targets: 2,
        voters: &[(60, &[0]), (40, &[0])],
        work: &[0],
        status: 1,
        lines: "lost 1\n",
    },
    Mined {
        miner: "mms",
        seats: 2,
        targets: 2,
        voters: &[(60, &[0]), (40, &[0])],
        work: &[0],
        status: 1,
        lines: "lost 1\n",
    },
    Mined {
        miner: "seq",
        seats: 3,
        targets: 6,
        voters: SPLIT,
        work: &[0],
        status: 1,
        lines: "member 0000000000000000000000000000000000000000000000000000000000000003 8\nmember 0000000000000000000000000000000000000000000000000000000000000004 2\nmember 0000000000000000000000000000000000000000000000000000000000000005 2\nscore 2 12 72\nsolution 1c00080c0810081408180c20082408041c0cfeff0100100000000000000000000000000000\nverdict 10 0 4\n",
    },
    Mined {
        miner: "seq",
        seats: 17,
        targets: 17,
        voters: SEVENTEEN,
        work: &[0],
        status: 0,
        lines: "member 0000000000000000000000000000000000000000000000000000000000000001 16164393\nmember 0000000000000000000000000000000000000000000000000000000000000002 12808341\nmember 0000000000000000000000000000000000000000000000000000000000000003 12577821\nmember 0000000000000000000000000000000000000000000000000000000000000004 12221129\nmember 0000000000000000000000000000000000000000000000000000000000000005 11722527\nmember 0000000000000000000000000000000000000000000000000000000000000006 10408343\nmember 0000000000000000000000000000000000000000000000000000000000000007 10412891\nmember 0000000000000000000000000000000000000000000000000000000000000008 9805891\nmember 0000000000000000000000000000000000000000000000000000000000000009 9231236\nmember 000000000000000000000000000000000000000000000000000000000000000a 8684690\nmember 000000000000000000000000000000000000000000000000000000000000000b 8163120\nmember 000000000000000000000000000000000000000000000000000000000000000c 7661389\nmember 000000000000000000000000000000000000000000000000000000000000000d 7179648\nmember 000000000000000000000000000000000000000000000000000000000000000e 6718827\nmember 000000000000000000000000000000000000000000000000000000000000000f 6291651\nmember 0000000000000000000000000000000000000000000000000000000000000010 5948103\nmember 0000000000000000000000000000000000000000000000000000000000000011 1000000000000000\nscore 5948103 1000000156000000 1000000000000001640861567218312\nsolution 0800004440040400fa360300040408005a6b02000401c908040c00a69b01000401c908a1cb0c04100041c60401c908a1cb0cb1cf10041400d5a60425a90859ab0cc9ae1091b3140418003d8c042d8e0809900ce99210f19614698818041c000d7804b579084d7b0cc57d10398114c57418bd8b1c042000116804856908e56a0c096d1005701439651825791cc57f20042400fd5a043d5c08715d0c515f10ed61147d5818e9691cb16f20257724042800ed4f0409510819520cbd5310095614bd4d18095d1c216220ad6824297128042c0059460451470841480cb14910b54b146d4418e1511c5d56201d5c24956328716d2c043000c93d04a53e08753f0cbd4010814214193c18ed471cdd4b20e9502479572825602ce56b30043400ed3504ad360861370c7d3810093a14713418c53e1c3542209d4624554c28e5532c295e30a56c34083800652e04092f08a52f0c993010f13114212d1801361cf53820c13c24ad412831482c015130795d342970384004452708c9270c952810b12914694c18152d1c8d2f20b93224d53628453c2ca14330094e34a55d3859773c043c00bd2604452708c9270c952810b12914ad2518152d1c8d2f20b93224d53628453c2ca14330094e34a55d3859773c\nverdict 0\n",
    },
];

/// Words that ask PHRAGMMS for rounds, which level an election of three seats further and further,
/// and the text.
static ROUNDS: [(&[&str], &str); 3] = [
    (
        &["npos", "mine", "--rounds=1", "--miner", "mms"],
        "member 0000000000000000000000000000000000000000000000000000000000000002 35\nmember 0000000000000000000000000000000000000000000000000000000000000003 17\nmember 0000000000000000000000000000000000000000000000000000000000000004 19\nscore 17 71 1875\nsolution 0008000416ca03000c04088a2e02000c0000000000000000000000000000\nverdict 0\n",
    ),
    (
        &["npos", "mine", "--rounds", "3", "--miner=mms"],
        "member 0000000000000000000000000000000000000000000000000000000000000002 24\nmember 0000000000000000000000000000000000000000000000000000000000000003 22\nmember 0000000000000000000000000000000000000000000000000000000000000004 25\nscore 22 71 1685\nsolution 00080004aea102000c0408aec902000c0000000000000000000000000000\nverdict 0\n",
    ),
    (
        &["npos", "mine", "--miner", "mms"],
        "member 0000000000000000000000000000000000000000000000000000000000000002 23\nmember 0000000000000000000000000000000000000000000000000000000000000003 23\nmember 0000000000000000000000000000000000000000000000000000000000000004 25\nscore 23 71 1683\nsolution 00080004ba8602000c0408b6e802000c0000000000000000000000000000\nverdict 0\n",
    ),
];

fn put_numbered(pen: &mut Pen, number: u128) -> Result<(), NoMemory> {
    pen.put_account(AccountId { hi: 0, lo: number })
}

/// Appends a bundle up to its work. Its targets are the accounts from 1 on, and its voters those behind
/// them.
fn put_election(pen: &mut Pen, seats: u64, targets: u64, voters: Voters) -> Result<(), NoMemory> {
    pen.put_compact(seats)?;
    pen.put_compact(targets)?;
    for target in 0..targets {
        put_numbered(pen, u128::from(target) + 1)?;
    }
    pen.put_compact(voters.len() as u64)?;
    for (place, (stake, votes)) in voters.iter().enumerate() {
        put_numbered(pen, u128::from(targets) + 1 + place as u128)?;
        pen.put_compact(*stake)?;
        pen.put_compact(votes.len() as u64)?;
        for vote in *votes {
            pen.put_compact(*vote)?;
        }
    }
    Ok(())
}

/// Appends packed work.
fn put_packed(
    pen: &mut Pen,
    claim: (u64, u64, u128),
    front: &[u8],
    zeros: u32,
) -> Result<(), NoMemory> {
    pen.put_u8(1)?;
    pen.put_compact(claim.0)?;
    pen.put_compact(claim.1)?;
    pen.put_u128(claim.2)?;
    pen.put_compact(front.len() as u64 + u64::from(zeros))?;
    pen.put_bytes(front)?;
    for _ in 0..zeros {
        pen.put_u8(0)?;
    }
    Ok(())
}

/// What these words and bytes write, the status, and how many bytes are left.
fn report(
    alloc: Global,
    asked: &[&str],
    bytes: List<u8>,
) -> Result<(Vec<u8>, u8, usize), NoMemory> {
    let ran = run_over(alloc, asked, bytes, calm(4096))?;
    Ok((ran.written, ran.status, ran.left))
}

/// The words of a check.
const CHECK: [&str; 2] = ["npos", "check"];

#[test]
fn packed_work_gets_its_verdict(rt: HostRuntime) -> Result<(), Fail> {
    for row in &PACKED {
        let mut pen = Pen::new(rt.alloc());
        put_election(&mut pen, 2, row.targets, row.voters)?;
        put_packed(&mut pen, row.claim, row.front, row.zeros)?;
        let (text, ended, left) = report(rt.alloc(), &CHECK, pen.finish())?;
        assert_eq!(rt; text.as_slice(), row.line.as_bytes());
        assert_eq!(rt; (ended, left), (row.status, 0));
    }
    Ok(())
}

#[test]
fn spelled_work_gets_its_verdict_or_its_fault(rt: HostRuntime) -> Result<(), Fail> {
    for row in &SPELLED {
        let mut pen = Pen::new(rt.alloc());
        put_election(&mut pen, 2, row.targets, row.voters)?;
        pen.put_bytes(row.work)?;
        let (text, ended, _) = report(rt.alloc(), &CHECK, pen.finish())?;
        assert_eq!(rt; text.as_slice(), row.line.as_bytes());
        assert_eq!(rt; ended, row.status);
    }
    Ok(())
}

#[test]
fn elections_are_mined_or_get_their_fault(rt: HostRuntime) -> Result<(), Fail> {
    for row in &MINED {
        let mut pen = Pen::new(rt.alloc());
        put_election(&mut pen, row.seats, row.targets, row.voters)?;
        pen.put_bytes(row.work)?;
        let words = ["npos", "mine", "--miner", row.miner];
        let (text, ended, left) = report(rt.alloc(), &words, pen.finish())?;
        assert_eq!(rt; text.as_slice(), row.lines.as_bytes());
        assert_eq!(rt; (ended, left), (row.status, 0));
    }
    Ok(())
}

#[test]
fn the_rounds_are_those_that_were_asked_for(rt: HostRuntime) -> Result<(), Fail> {
    for &(words, lines) in &ROUNDS {
        let mut pen = Pen::new(rt.alloc());
        put_election(&mut pen, 3, 4, &[(38, &[1, 3]), (33, &[2, 3])])?;
        pen.put_bytes(&[0])?;
        let (text, ended, left) = report(rt.alloc(), words, pen.finish())?;
        assert_eq!(rt; text.as_slice(), lines.as_bytes());
        assert_eq!(rt; (ended, left), (0, 0));
    }
    Ok(())
}

/// So many zeros, the line and how many bytes are left: as many as a bundle has at most, one too many,
/// and more.
static ZEROS: [(usize, &str, usize); 3] = [
    (16_777_216, "fault 4 trailing\n", 0),
    (16_777_217, "fault 16777216 long\n", 0),
    (16_777_220, "fault 16777216 long\n", 3),
];

#[test]
fn a_bundle_that_is_too_long_is_not_read_on(rt: HostRuntime) -> Result<(), Fail> {
    for &(count, line, rest) in &ZEROS {
        let bytes = Vec::from_elem(rt.alloc(), 0, count)?;
        let (text, ended, left) = report(rt.alloc(), &CHECK, List::from_vec(bytes))?;
        assert_eq!(rt; text.as_slice(), line.as_bytes());
        assert_eq!(rt; (ended, left), (3, rest));
    }
    Ok(())
}
