//! Worked verdicts on packed solutions.
use crate::verdicts::{at, finished};
use compact_solution::Solution;
use election_check::{Checker, Verdict};
use election_snapshot::{Snapshot, SnapshotBuilder};
use npos_base::{List, Score};
use scale_wire::Pen;
use scale_wire::fault::Why;
use std::alloc::Global;
use std::test::Fail;
use weight_book::Weights;

/// The claim of a minimal support and a sum, with its squares.
const fn claim(minimal: u64, sum: u64, squares: u128) -> Score {
    Score {
        minimal,
        sum,
        squares,
    }
}

/// A voter's stake and votes.
type Voter<'a> = (u64, &'a [u16]);

/// Two voters, of whom the second nominates two targets.
const SIXTY: Voter<'_> = (60, &[0]);

const FORTY: Voter<'_> = (40, &[1, 2]);

/// Three targets, two voters and two seats.
fn small(alloc: Global, first: Voter<'_>, second: Voter<'_>) -> Result<Snapshot, Fail> {
    let mut builder = SnapshotBuilder::new(alloc);
    for n in 1..4 {
        builder.add_target(at(n))?;
    }
    builder.add_voter(at(4), first.0, first.1)?;
    builder.add_voter(at(5), second.0, second.1)?;
    Ok(finished(builder, 2)?)
}

/// The bytes of a solution that ends with these groups, all others of which are empty.
fn whole(alloc: Global, groups: &[u8], empty: usize) -> Result<Vec<u8>, Fail> {
    let mut bytes = groups.to_vec(alloc)?;
    for _ in 0..empty {
        bytes.push(0)?;
    }
    Ok(bytes)
}

/// The verdict on bytes with a claim, and how many members and edges the weights then have.
fn judged(
    alloc: Global,
    checker: &mut Checker,
    bytes: &[u8],
    claim: &Score,
) -> Result<(Verdict, usize, usize), Fail> {
    let mut weights = Weights::with_room(alloc, checker.snapshot())?;
    let verdict = checker.judge_bytes(alloc, bytes, claim, &mut weights)?;
    Ok((verdict, weights.committee().len(), weights.edges().len()))
}

/// The same of bytes that are a solution, which is expanded.
fn expanded(
    alloc: Global,
    checker: &mut Checker,
    bytes: &[u8],
) -> Result<Option<(Verdict, usize, usize)>, Fail> {
    let mut weights = Weights::with_room(alloc, checker.snapshot())?;
    let Ok(solution) = Solution::decode(alloc, bytes) else {
        return Ok(None);
    };
    let verdict = checker.expand(&solution, &mut weights);
    Ok(Some((verdict, weights.committee().len(), weights.edges().len())))
}

/// The right entries of both voters.
const RIGHT: [u8; 5] = [0x08, 0x00, 0x00, 0x04, 0x04];

/// The same in the wide form.
const WIDE: [u8; 6] = [0xff, 0x08, 0x00, 0x00, 0x04, 0x04];

/// Voter 0 in the 17th group of a wide solution, with target 0 time and again.
const SEVENTEENTH: [u8; 52] = [
    0xff, 0, 0, 0, 0, 0, 0, 0, 0, 0, 0, 0, 0, 0, 0, 0, 0, // 16 empty groups
    0x04, 0x00, 0, 4, 0, 4, 0, 4, 0, 4, 0, 4, 0, 4, 0, 4, 0, 4, 0, 4, 0, 4, 0, 4, 0, 4, 0, 4, 0, 4,
    0, 4, 0, 4, 0x00,
];

/// The second voter does not nominate the first target.
const UNLIKE: Verdict = Verdict::NotNominated {
    voter: 1,
    target: 0,
};

/// Each after the right entry of voter 0, how many empty groups follow, and the verdict.
static FAULTS: [(&[u8], usize, Verdict); 18] = [
    (&RIGHT, 15, Verdict::Yes),
    (
        &RIGHT,
        16,
        Verdict::Undecodable {
            at: 20,
            why: Why::Trailing,
        },
    ),
    (
        &[0x08, 0x00, 0x00, 0x04],
        0,
        Verdict::Undecodable {
            at: 4,
            why: Why::Short,
        },
    ),
    (
        &[0x08, 0x00, 0x00, 0x01, 0x00, 0x04],
        15,
        Verdict::Undecodable {
            at: 3,
            why: Why::NotShortest,
        },
    ),
    (
        &[0x08, 0x00, 0x00, 0x04, 0x02, 0x00, 0x04, 0x00],
        15,
        Verdict::Undecodable {
            at: 4,
            why: Why::TooWide,
        },
    ),
    (
        &[0x04, 0x00, 0x00, 0x06, 0x00, 0x01, 0x00],
        14,
        Verdict::Undecodable {
            at: 3,
            why: Why::TooMany,
        },
    ),
    (&[0x08, 0x00, 0x00, 0x08, 0x0c], 15, Verdict::NoVoter(2)),
    (&[0x08, 0x00, 0x00, 0x04, 0x0c], 15, Verdict::NoTarget(3)),
    (&[0x08, 0x00, 0x00, 0x00, 0x04], 15, Verdict::VoterTwice(0)),
    // The target 0 twice, of a voter that does not nominate it, with a share of 0.
    (
        &[0x04, 0x00, 0x00, 0x04, 0x04, 0x00, 0x00, 0x00],
        14,
        Verdict::TargetTwice(0),
    ),
    (&[0x08, 0x00, 0x00, 0x04, 0x00], 15, UNLIKE),
    // The target 0, which the voter does not nominate, and then the target 3.
    (
        &[0x04, 0x00, 0x00, 0x04, 0x04, 0x00, 0x04, 0x0c],
        14,
        Verdict::NoTarget(3),
    ),
    (
        &[0x04, 0x00, 0x00, 0x04, 0x04, 0x04, 0x00, 0x08],
        14,
        Verdict::BadShare(1),
    ),
    (&[0x04, 0x00, 0x00], 15, Verdict::WrongSize(1)),
    (&WIDE, 23, Verdict::Yes),
    (
        &WIDE,
        24,
        Verdict::Undecodable {
            at: 29,
            why: Why::Trailing,
        },
    ),
    (
        &[0xff],
        0,
        Verdict::Undecodable {
            at: 1,
            why: Why::Short,
        },
    ),
    (&SEVENTEENTH, 7, Verdict::TargetTwice(0)),
];

#[test]
fn the_first_fault_of_bytes_is_the_verdict(rt: HostRuntime) -> Result<(), Fail> {
    let mut checker = Checker::of(rt.alloc(), small(rt.alloc(), SIXTY, FORTY)?)?;
    let right = whole(rt.alloc(), &RIGHT, 15)?;
    let right_claim = claim(40, 100, 5200);
    for &(groups, empty, verdict) in &FAULTS {
        let bytes = whole(rt.alloc(), groups, empty)?;
        let size = if verdict == Verdict::Yes { 2 } else { 0 };
        let found = judged(rt.alloc(), &mut checker, &bytes, &right_claim)?;
        assert_eq!(rt; found, (verdict, size, size));
        let opened = expanded(rt.alloc(), &mut checker, &bytes)?;
        let is_solution = !matches!(verdict, Verdict::Undecodable { .. });
        assert_eq!(rt; opened, is_solution.then_some(found));
        // What was refused leaves nothing in the checker.
        let after = judged(rt.alloc(), &mut checker, &right, &right_claim)?;
        assert_eq!(rt; after, (Verdict::Yes, 2, 2));
    }
    Ok(())
}

#[test]
fn shares_are_rounded_down_and_the_last_target_gets_the_rest(rt: HostRuntime) -> Result<(), Fail> {
    let full = Verdict::Outweighed {
        target: 2,
        prescore: 50,
    };
    let actual = claim(24, 50, 1252);
    // The spelled share of voter 0 for target 0.
    let table: [(u64, u64, &[u8], Score, Verdict); 6] = [
        (50, 50, &[0xfe, 0xff, 0x01, 0x00], actual, full),
        (
            51,
            49,
            &[0xfe, 0xff, 0x01, 0x00],
            claim(25, 51, 1301),
            Verdict::Yes,
        ),
        (
            50,
            50,
            &[0xfe, 0xff, 0x01, 0x00],
            claim(24, 50, 1251),
            Verdict::WrongScore(actual),
        ),
        (
            50,
            50,
            &[0xfe, 0xff, 0x03, 0x00],
            actual,
            Verdict::BadShare(0),
        ),
        (50, 50, &[0xfa, 0xff, 0x03, 0x00], claim(1, 50, 2402), full),
        (50, 50, &[0x00], actual, Verdict::BadShare(0)),
    ];
    for (first, second, share, claim, verdict) in table {
        let mut bytes = vec![in rt.alloc(); 0x00, 0x04, 0x00, 0x00]?;
        bytes.extend_from_slice(share)?;
        bytes.push(0x04)?;
        let bytes = whole(rt.alloc(), &bytes, 14)?;
        let snapshot = small(rt.alloc(), (first, &[0, 1]), (second, &[2]))?;
        let mut checker = Checker::of(rt.alloc(), snapshot)?;
        let found = judged(rt.alloc(), &mut checker, &bytes, &claim)?;
        assert_eq!(rt; found.0, verdict);
    }
    Ok(())
}

/// 2,048 targets and 16,384 voters, of whom each nominates one target.
fn large(alloc: Global) -> Result<Snapshot, Fail> {
    let mut builder = SnapshotBuilder::new(alloc);
    for n in 0..2048 {
        builder.add_target(at(n))?;
    }
    for n in 0..16384 {
        builder.add_voter(at(n), 16, &[n % 2048])?;
    }
    Ok(finished(builder, 512)?)
}

/// A group of this many voters, each for the target that it nominates, and then these bytes.
fn ones(alloc: Global, count: u64, groups: &[u8]) -> Result<List<u8>, Fail> {
    let mut pen = Pen::new(alloc);
    pen.put_compact(count)?;
    for voter in 0..count {
        pen.put_compact(voter)?;
        pen.put_compact(voter % 2048)?;
    }
    pen.put_bytes(groups)?;
    Ok(pen.finish())
}

#[test]
fn the_last_entry_is_told_from_all_before_it(rt: HostRuntime) -> Result<(), Fail> {
    // Voter 0 again, in the last group.
    let again = [
        0, 0, 0, 0, 0, 0, 0, 0, 0, 0, 0, 0, 0, 0, 0x04, 0x00, 0x00, 0x04, 0x04, 0x04, 0x08, 0x04,
        0x0c, 0x04, 0x10, 0x04, 0x14, 0x04, 0x18, 0x04, 0x1c, 0x04, 0x20, 0x04, 0x24, 0x04, 0x28,
        0x04, 0x2c, 0x04, 0x30, 0x04, 0x34, 0x04, 0x38, 0x04, 0x3c,
    ];
    // The last voter, with one target twice.
    let twice = [
        0x04, 0xfd, 0xff, 0x14, 0x04, 0x14, 0, 0, 0, 0, 0, 0, 0, 0, 0, 0, 0, 0, 0, 0,
    ];
    let table: [(u64, &[u8], Verdict); 3] = [
        (16384, &again, Verdict::VoterTwice(0)),
        (16383, &twice, Verdict::TargetTwice(5)),
        (16384, &[0; 15], Verdict::WrongSize(2048)),
    ];
    let mut checker = Checker::of(rt.alloc(), large(rt.alloc())?)?;
    for (count, groups, verdict) in table {
        let mut weights = Weights::with_room(rt.alloc(), checker.snapshot())?;
        let bytes = ones(rt.alloc(), count, groups)?;
        let solution = Solution::decode(rt.alloc(), bytes.as_slice())?;
        assert_eq!(rt; checker.expand(&solution, &mut weights), verdict);
        assert!(rt; weights.committee().is_empty() && weights.edges().is_empty());
    }
    Ok(())
}
