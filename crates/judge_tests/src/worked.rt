//! Committees that were judged by hand.
use crate::writing::{put_targets, put_voter};
use bundle_reports::Ending;
use committee_judge::judge_bytes;
use npos_base::{List, NoMemory};
use scale_wire::Pen;
use std::alloc::Global;
use std::test::Fail;

/// The stakes of the voters, with their votes.
type Voters = &'static [(u64, &'static [u64])];

/// One voter for the first two targets, and one for the third, who has one seat's worth of two.
const TIE: Voters = &[(50, &[0, 1]), (50, &[2])];

/// What is told of the first two targets then.
const TIED: &str =
    "denied 0000000000000000000000000000000000000000000000000000000000000002 seats 1 members 0 stake 50\nvoter 0000000000000000000000000000000000000000000000000000000000000011 50\nverdict 10 2 50\n";

/// The same voters, of whom the second has one unit less than that.
const SPLIT: Voters = &[(51, &[0, 1]), (49, &[2])];

/// A voter for the first target, and one for the second.
const APART: Voters = &[(60, &[0]), (40, &[1])];

/// The work of a bundle.
enum Work {
    /// Its bytes.
    Spelled(&'static [u8]),
    /// A solution, with the claim 0 0 0, which is wrong.
    Packed(&'static [u8]),
}

use Work::*;

/// A bundle, and what a judgement of it comes to.
struct Row {
    seats: u64,
    targets: u64,
    voters: Voters,
    work: Work,
    text: &'static str,
    ending: Ending,
}

static ROWS: [Row; 42] = [
    // a tie of one seat's worth, and one unit less
    Row {
        seats: 2,
        targets: 3,
        voters: TIE,
        work: Spelled(&[2, 8, 0, 4, 0]),
        text: TIED,
        ending: Ending::No,
    },
    Row {
        seats: 2,
        targets: 3,
        voters: SPLIT,
        work: Spelled(&[2, 8, 0, 4, 0]),
        text: "verdict 0\n",
        ending: Ending::Done,
    },
    // a tie of two seats' worth, by voters of whom one nominates no member, and one unit less
    Row {
        seats: 3,
        targets: 4,
        voters: &[(40, &[0, 1]), (20, &[0]), (30, &[2, 3])],
        work: Spelled(&[2, 12, 4, 8, 12, 0]),
        text: "denied 0000000000000000000000000000000000000000000000000000000000000000 seats 2 members 1 stake 60\nvoter 0000000000000000000000000000000000000000000000000000000000000010 40\nvoter 0000000000000000000000000000000000000000000000000000000000000011 20\nmember 0000000000000000000000000000000000000000000000000000000000000001\nverdict 10 0 30\n",
        ending: Ending::No,
    },
    Row {
        seats: 3,
        targets: 4,
        voters: &[(39, &[0, 1]), (20, &[0]), (31, &[2, 3])],
        work: Spelled(&[2, 12, 4, 8, 12, 0]),
        text: "verdict 0\n",
        ending: Ending::Done,
    },
    // a target without nominators, and none outside
    Row {
        seats: 2,
        targets: 3,
        voters: APART,
        work: Spelled(&[2, 8, 0, 4, 0]),
        text: "verdict 0\n",
        ending: Ending::Done,
    },
    Row {
        seats: 2,
        targets: 2,
        voters: &[(9, &[1])],
        work: Spelled(&[2, 8, 4, 0, 0]),
        text: "verdict 0\n",
        ending: Ending::Done,
    },
    // all voters together, and neither alone
    Row {
        seats: 2,
        targets: 3,
        voters: &[(50, &[0, 2]), (50, &[0, 2])],
        work: Spelled(&[2, 8, 0, 4, 0]),
        text: "denied 0000000000000000000000000000000000000000000000000000000000000002 seats 2 members 1 stake 100\nvoter 0000000000000000000000000000000000000000000000000000000000000010 50\nvoter 0000000000000000000000000000000000000000000000000000000000000011 50\nmember 0000000000000000000000000000000000000000000000000000000000000000\nverdict 10 2 50\n",
        ending: Ending::No,
    },
    // to one alone as much is due as to both, and then more
    Row {
        seats: 2,
        targets: 3,
        voters: &[(50, &[2]), (50, &[0, 2])],
        work: Spelled(&[2, 8, 0, 4, 0]),
        text: "denied 0000000000000000000000000000000000000000000000000000000000000002 seats 2 members 1 stake 100\nvoter 0000000000000000000000000000000000000000000000000000000000000010 50\nvoter 0000000000000000000000000000000000000000000000000000000000000011 50\nmember 0000000000000000000000000000000000000000000000000000000000000000\nverdict 10 2 50\n",
        ending: Ending::No,
    },
    Row {
        seats: 2,
        targets: 3,
        voters: &[(51, &[2]), (49, &[0, 2])],
        work: Spelled(&[2, 8, 0, 4, 0]),
        text: "denied 0000000000000000000000000000000000000000000000000000000000000002 seats 1 members 0 stake 51\nvoter 0000000000000000000000000000000000000000000000000000000000000010 51\nverdict 10 2 51\n",
        ending: Ending::No,
    },
    // the least total, less than that, and the greatest: a tie, and one unit less
    Row {
        seats: 2,
        targets: 3,
        voters: &[(2, &[0, 1]), (2, &[2])],
        work: Spelled(&[2, 8, 0, 4, 0]),
        text: "denied 0000000000000000000000000000000000000000000000000000000000000002 seats 1 members 0 stake 2\nvoter 0000000000000000000000000000000000000000000000000000000000000011 2\nverdict 10 2 2\n",
        ending: Ending::No,
    },
    Row {
        seats: 2,
        targets: 3,
        voters: &[(2, &[0, 1]), (1, &[2])],
        work: Spelled(&[2, 8, 0, 4, 0]),
        text: "fault 0 snapshot 2 3 2\n",
        ending: Ending::BadInput,
    },
    Row {
        seats: 2,
        targets: 3,
        voters: &[
            (9_223_372_036_854_775_807, &[0, 1]),
            (9_223_372_036_854_775_808, &[2]),
        ],
        work: Spelled(&[2, 8, 0, 4, 0]),
        text: "denied 0000000000000000000000000000000000000000000000000000000000000002 seats 1 members 0 stake 9223372036854775808\nvoter 0000000000000000000000000000000000000000000000000000000000000011 9223372036854775808\nverdict 10 2 9223372036854775808\n",
        ending: Ending::No,
    },
    Row {
        seats: 2,
        targets: 3,
        voters: &[
            (9_223_372_036_854_775_808, &[0, 1]),
            (9_223_372_036_854_775_807, &[2]),
        ],
        work: Spelled(&[2, 8, 0, 4, 0]),
        text: "verdict 0\n",
        ending: Ending::Done,
    },
    // seats and an excess that are rounded down
    Row {
        seats: 3,
        targets: 4,
        voters: &[(4, &[0, 3]), (3, &[3]), (3, &[1, 2])],
        work: Spelled(&[2, 12, 0, 4, 8, 0]),
        text: "denied 0000000000000000000000000000000000000000000000000000000000000003 seats 2 members 1 stake 7\nvoter 0000000000000000000000000000000000000000000000000000000000000010 4\nvoter 0000000000000000000000000000000000000000000000000000000000000011 3\nmember 0000000000000000000000000000000000000000000000000000000000000000\nverdict 10 3 3\n",
        ending: Ending::No,
    },
    // of two denied targets the lowest, to whose group less is due; and one behind a target that is
    // not denied
    Row {
        seats: 3,
        targets: 5,
        voters: &[(30, &[3]), (60, &[4])],
        work: Spelled(&[2, 12, 0, 4, 8, 0]),
        text: "denied 0000000000000000000000000000000000000000000000000000000000000003 seats 1 members 0 stake 30\nvoter 0000000000000000000000000000000000000000000000000000000000000010 30\nverdict 10 3 30\n",
        ending: Ending::No,
    },
    Row {
        seats: 2,
        targets: 4,
        voters: &[(50, &[0, 1]), (50, &[3])],
        work: Spelled(&[2, 8, 4, 8, 0]),
        text: "denied 0000000000000000000000000000000000000000000000000000000000000003 seats 1 members 0 stake 50\nvoter 0000000000000000000000000000000000000000000000000000000000000011 50\nverdict 10 3 50\n",
        ending: Ending::No,
    },
    // members and votes that are listed falling
    Row {
        seats: 3,
        targets: 4,
        voters: &[(10, &[3, 2, 0]), (20, &[2, 3, 0])],
        work: Spelled(&[2, 12, 8, 4, 0, 0]),
        text: "denied 0000000000000000000000000000000000000000000000000000000000000003 seats 3 members 2 stake 30\nvoter 0000000000000000000000000000000000000000000000000000000000000010 10\nvoter 0000000000000000000000000000000000000000000000000000000000000011 20\nmember 0000000000000000000000000000000000000000000000000000000000000000\nmember 0000000000000000000000000000000000000000000000000000000000000002\nverdict 10 3 10\n",
        ending: Ending::No,
    },
    // four voters, of whom one alone is the group of all that nominate the target
    Row {
        seats: 2,
        targets: 3,
        voters: &[(10, &[0]), (30, &[2, 0]), (50, &[2]), (10, &[1, 2])],
        work: Spelled(&[2, 8, 0, 4, 0]),
        text: "denied 0000000000000000000000000000000000000000000000000000000000000002 seats 1 members 0 stake 50\nvoter 0000000000000000000000000000000000000000000000000000000000000012 50\nverdict 10 2 50\n",
        ending: Ending::No,
    },
    // edges of no voter to no target, twice, play no part
    Row {
        seats: 2,
        targets: 3,
        voters: TIE,
        work: Spelled(&[2, 8, 0, 4, 8, 36, 36, 16, 36, 36, 16]),
        text: TIED,
        ending: Ending::No,
    },
    Row {
        seats: 2,
        targets: 3,
        voters: SPLIT,
        work: Spelled(&[2, 8, 0, 4, 8, 36, 36, 16, 36, 36, 16]),
        text: "verdict 0\n",
        ending: Ending::Done,
    },
    // members out of range, twice, and too few or too many
    Row {
        seats: 2,
        targets: 3,
        voters: TIE,
        work: Spelled(&[2, 8, 0, 12, 0]),
        text: "verdict 3 3\n",
        ending: Ending::No,
    },
    Row {
        seats: 2,
        targets: 3,
        voters: TIE,
        work: Spelled(&[2, 8, 12, 12, 0]),
        text: "verdict 3 3\n",
        ending: Ending::No,
    },
    Row {
        seats: 2,
        targets: 3,
        voters: TIE,
        work: Spelled(&[2, 12, 4, 4, 12, 0]),
        text: "verdict 5 1\n",
        ending: Ending::No,
    },
    Row {
        seats: 2,
        targets: 3,
        voters: TIE,
        work: Spelled(&[2, 4, 0, 0]),
        text: "verdict 8 1\n",
        ending: Ending::No,
    },
    Row {
        seats: 2,
        targets: 3,
        voters: TIE,
        work: Spelled(&[2, 12, 0, 4, 8, 0]),
        text: "verdict 8 3\n",
        ending: Ending::No,
    },
    // solutions that are undecodable
    Row {
        seats: 2,
        targets: 3,
        voters: TIE,
        work: Packed(&[]),
        text: "verdict 1 0 1\n",
        ending: Ending::No,
    },
    Row {
        seats: 2,
        targets: 3,
        voters: TIE,
        work: Packed(&[0, 0, 0, 0, 0, 0, 0, 0, 0, 0, 0, 0, 0, 0, 0, 0, 0]),
        text: "verdict 1 16 6\n",
        ending: Ending::No,
    },
    // with a fault of an entry, each also of a wrong size
    Row {
        seats: 2,
        targets: 3,
        voters: TIE,
        work: Packed(&[4, 8, 0, 0, 0, 0, 0, 0, 0, 0, 0, 0, 0, 0, 0, 0, 0, 0]),
        text: "verdict 2 2\n",
        ending: Ending::No,
    },
    Row {
        seats: 2,
        targets: 3,
        voters: TIE,
        work: Packed(&[4, 0, 12, 0, 0, 0, 0, 0, 0, 0, 0, 0, 0, 0, 0, 0, 0, 0]),
        text: "verdict 3 3\n",
        ending: Ending::No,
    },
    Row {
        seats: 2,
        targets: 3,
        voters: TIE,
        work: Packed(&[8, 0, 0, 0, 4, 0, 0, 0, 0, 0, 0, 0, 0, 0, 0, 0, 0, 0, 0, 0]),
        text: "verdict 4 0\n",
        ending: Ending::No,
    },
    Row {
        seats: 2,
        targets: 3,
        voters: TIE,
        work: Packed(&[0, 4, 0, 0, 4, 0, 0, 0, 0, 0, 0, 0, 0, 0, 0, 0, 0, 0, 0, 0]),
        text: "verdict 5 0\n",
        ending: Ending::No,
    },
    Row {
        seats: 2,
        targets: 3,
        voters: TIE,
        work: Packed(&[4, 4, 0, 0, 0, 0, 0, 0, 0, 0, 0, 0, 0, 0, 0, 0, 0, 0]),
        text: "verdict 6 1 0\n",
        ending: Ending::No,
    },
    Row {
        seats: 2,
        targets: 3,
        voters: TIE,
        work: Packed(&[0, 4, 0, 0, 0, 4, 0, 0, 0, 0, 0, 0, 0, 0, 0, 0, 0, 0, 0, 0]),
        text: "verdict 7 0\n",
        ending: Ending::No,
    },
    // and of a wrong size alone
    Row {
        seats: 2,
        targets: 3,
        voters: TIE,
        work: Packed(&[4, 0, 0, 0, 0, 0, 0, 0, 0, 0, 0, 0, 0, 0, 0, 0, 0, 0]),
        text: "verdict 8 1\n",
        ending: Ending::No,
    },
    // a solution whose wrong claim plays no part
    Row {
        seats: 2,
        targets: 3,
        voters: TIE,
        work: Packed(&[0, 4, 0, 0, 4, 4, 0, 0, 0, 0, 0, 0, 0, 0, 0, 0, 0, 0, 0, 0]),
        text: TIED,
        ending: Ending::No,
    },
    Row {
        seats: 2,
        targets: 3,
        voters: SPLIT,
        work: Packed(&[0, 4, 0, 0, 4, 4, 0, 0, 0, 0, 0, 0, 0, 0, 0, 0, 0, 0, 0, 0]),
        text: "verdict 0\n",
        ending: Ending::Done,
    },
    // no work, none that spells, and bytes behind it
    Row {
        seats: 2,
        targets: 3,
        voters: APART,
        work: Spelled(&[0]),
        text: "fault 169 nosolution\n",
        ending: Ending::BadInput,
    },
    Row {
        seats: 2,
        targets: 3,
        voters: APART,
        work: Spelled(&[3]),
        text: "fault 169 badtag\n",
        ending: Ending::BadInput,
    },
    Row {
        seats: 2,
        targets: 3,
        voters: APART,
        work: Spelled(&[]),
        text: "fault 169 short\n",
        ending: Ending::BadInput,
    },
    Row {
        seats: 2,
        targets: 3,
        voters: APART,
        work: Spelled(&[2, 8, 0]),
        text: "fault 172 short\n",
        ending: Ending::BadInput,
    },
    Row {
        seats: 2,
        targets: 3,
        voters: APART,
        work: Spelled(&[2, 8, 0, 4, 4, 36]),
        text: "fault 175 short\n",
        ending: Ending::BadInput,
    },
    Row {
        seats: 2,
        targets: 3,
        voters: APART,
        work: Spelled(&[2, 8, 0, 4, 0, 0]),
        text: "fault 174 trailing\n",
        ending: Ending::BadInput,
    },
];

/// The bytes of its bundle.
fn bundle(alloc: Global, row: &Row) -> Result<List<u8>, NoMemory> {
    let mut pen = Pen::new(alloc);
    put_targets(&mut pen, row.seats, row.targets)?;
    pen.put_compact(row.voters.len() as u64)?;
    for (place, (stake, votes)) in row.voters.iter().enumerate() {
        put_voter(&mut pen, place as u64, *stake, votes)?;
    }
    put_work(&mut pen, &row.work)?;
    Ok(pen.finish())
}

/// Appends the work.
fn put_work(pen: &mut Pen, work: &Work) -> Result<(), NoMemory> {
    match work {
        Spelled(bytes) => pen.put_bytes(bytes),
        Packed(solution) => {
            pen.put_u8(1)?;
            pen.put_compact(0)?;
            pen.put_compact(0)?;
            pen.put_u128(0)?;
            pen.put_compact(solution.len() as u64)?;
            pen.put_bytes(solution)
        }
    }
}

#[test]
fn committees_are_judged(rt: HostRuntime) -> Result<(), Fail> {
    for row in &ROWS {
        let bytes = bundle(rt.alloc(), row)?;
        let answer = judge_bytes(rt.alloc(), bytes.into_vec())?;
        assert_eq!(rt; answer.text.as_slice(), row.text.as_bytes());
        assert_eq!(rt; answer.ending, row.ending);
    }
    Ok(())
}
