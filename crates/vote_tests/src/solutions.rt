//! Solutions that are read and written, and bytes that are refused.
ghost use Rattle.std.specs.Prelude.{◌≡◌};

use compact_solution::{PLAIN_GROUPS, PackFault, Solution, WIDE_GROUPS, pack};
use npos_base::{Edge, NoMemory};
use scale_wire::fault::{ReadFault, Why, WireFault};
use std::alloc::Global;
use std::fmt::Write;
use std::test::Fail;

const MIXED: [u8; 38] = [
    0x04, 0x00, 0x0c, // voter 0: target 3
    0x04, 0x04, 0x00, 0x56, 0x55, 0x01, 0x00, 0x04, // voter 1: target 0 with 21,845 parts, target 1
    0x04, 0xc2, 0x45, 0x04, 0x00, // voter 70,000
    0x08, 0xfd, 0xff, 0x14, 0xfe, 0xff, 0x03, 0x00, 0x08, // 2 with 16,383, 5 with 65,535, 2
    0, 0, 0, 0, 0, 0, 0, 0, 0, 0, 0, 0, 0,
];

const MIXED_LISTED: &str = "1: 0 3\n2: 1 0*21845 1\n3: 70000 2*16383 5*65535 2\n";

// Voter 7 with the targets 0 to 23 in this order, where target i has 64 i parts.
const WIDEST: [u8; 95] = [
    0xff, 0, 0, 0, 0, 0, 0, 0, 0, 0, 0, 0, 0, 0, 0, 0, 0, 0, 0, 0, 0, 0, 0, 0, 0x04, 0x1c, // voter 7
    0x00, 0x00, 0x04, 0x01, 0x01, 0x08, 0x01, 0x02, 0x0c, 0x01, 0x03, 0x10, 0x01, 0x04, 0x14, 0x01,
    0x05, 0x18, 0x01, 0x06, 0x1c, 0x01, 0x07, 0x20, 0x01, 0x08, 0x24, 0x01, 0x09, 0x28, 0x01, 0x0a,
    0x2c, 0x01, 0x0b, 0x30, 0x01, 0x0c, 0x34, 0x01, 0x0d, 0x38, 0x01, 0x0e, 0x3c, 0x01, 0x0f, 0x40,
    0x01, 0x10, 0x44, 0x01, 0x11, 0x48, 0x01, 0x12, 0x4c, 0x01, 0x13, 0x50, 0x01, 0x14, 0x54, 0x01,
    0x15, 0x58, 0x01, 0x16, 0x5c,
];

const WIDEST_LISTED: &str =
    "24: 7 0*0 1*64 2*128 3*192 4*256 5*320 6*384 7*448 8*512 9*576 10*640 11*704 12*768 13*832 14*896 15*960 16*1024 17*1088 18*1152 19*1216 20*1280 21*1344 22*1408 23\n";

// A wide solution whose groups from the 17th on are empty.
const NARROW: [u8; 27] = [
    0xff, 0x04, 0x00, 0x0c, // voter 0: target 3
    0, 0, 0, 0, 0, 0, 0, 0, 0, 0, 0, 0, 0, 0, 0, 0, 0, 0, 0, 0, 0, 0, 0,
];

// Bytes that are refused, the place and the reason.
static REFUSED: [(&[u8], u64, Why); 14] = [
    (&[], 0, Why::Short),
    (&[0x02, 0x00, 0x01, 0x00], 4, Why::Short), // 16,384 entries without a byte behind
    (&[0x06, 0x00, 0x01, 0x00], 0, Why::TooMany),
    (&[0x04, 0x01, 0x00], 1, Why::NotShortest), // a voter
    (&[0x04, 0x07, 0, 0, 0, 0, 1], 1, Why::TooWide),
    (
        &[0x00, 0x04, 0x00, 0x00, 0x02, 0x00, 0x04, 0x00],
        4,
        Why::TooWide,
    ), // a share
    (&[0x00, 0x04, 0x00, 0x00, 0x04], 5, Why::Short), // the last target
    (&[0; 15], 15, Why::Short),
    (&[0; 17], 16, Why::Trailing),
    (&[0xff], 1, Why::Short),
    (&[0xff, 0xff], 1, Why::TooWide),
    (&[0xff, 0x06, 0x00, 0x01, 0x00], 1, Why::TooMany),
    (
        &[
            0xff, 0, 0, 0, 0, 0, 0, 0, 0, 0, 0, 0, 0, 0, 0, 0, 0, 0, 0, 0, 0, 0, 0, 0,
        ],
        24,
        Why::Short,
    ),
    (&[0x00, 0xff], 1, Why::TooWide), // a mark behind the first byte
];

// The entries, each with the number of its group, its voter and its targets.
fn listed(alloc: Global, solution: &Solution) -> Result<String, Fail> {
    let mut text = String::new(alloc);
    for j in 1..=solution.groups() {
        for entry in solution.group(j) {
            write!(text, "{j}: {}", entry.voter())?;
            for share in entry.shares() {
                write!(text, " {}*{}", share.target, share.parts)?;
            }
            write!(text, " {}\n", entry.last())?;
        }
    }
    Ok(text)
}

fn fault_of(alloc: Global, bytes: &[u8]) -> Option<WireFault> {
    match Solution::decode(alloc, bytes) {
        Err(ReadFault::Wire(fault)) => Some(fault),
        _ => None,
    }
}

// Bytes, whether they are wide, and the entries that are read.
static READ: [(&[u8], bool, &str); 3] = [
    (&MIXED, false, MIXED_LISTED),
    (&WIDEST, true, WIDEST_LISTED),
    (&NARROW, true, "1: 0 3\n"),
];

#[test]
fn solutions_are_read_and_written(rt: HostRuntime) -> Result<(), Fail> {
    for &(bytes, wide, entries) in &READ {
        let solution = Solution::decode(rt.alloc(), bytes)?;
        let groups = if wide { WIDE_GROUPS } else { PLAIN_GROUPS };
        assert_eq!(rt; (solution.wide(), solution.groups()), (wide, groups));
        assert_eq!(rt; listed(rt.alloc(), &solution)?.as_str(), entries);
        assert_eq!(rt; solution.encode(rt.alloc())?.as_slice(), bytes);
    }
    Ok(())
}

#[test]
fn bytes_are_refused_where_they_should(rt: HostRuntime) {
    for &(bytes, at, why) in &REFUSED {
        assert_eq!(rt; fault_of(rt.alloc(), bytes), Some(WireFault { at, why }));
    }
}

// An edge of a voter to a target with an amount.
fn edge(voter: u32, target: u16, amount: u64) -> Edge
    ensures { result ≡ record { voter = voter; target = target; amount = amount } }
{
    Edge {
        voter,
        target,
        amount,
    }
}

// The entries that the weights pack to, or the member that is lost.
fn told(alloc: Global, packed: Result<Solution, PackFault>) -> Result<Result<String, u16>, Fail> {
    match packed {
        Ok(solution) => Ok(Ok(listed(alloc, &solution)?)),
        Err(PackFault::LostWinner(member)) => Ok(Err(member)),
        Err(PackFault::NoMemory) => Err(Fail::from(NoMemory)),
    }
}

#[test]
fn weights_are_packed(rt: HostRuntime) -> Result<(), Fail> {
    let even = "1: 1 0\n2: 0 0*10922 1\n";
    let alloc = rt.alloc();
    let edges = [edge(0, 1, 50), edge(1, 0, 40), edge(0, 0, 10)];
    let solution = told(alloc, pack(alloc, &[60, 40], &[1, 0], &edges))?;
    assert_eq!(rt; solution.as_deref(), Ok(even));
    let edges = [edge(0, 0, 1), edge(0, 1, 999_999)];
    let lost = told(alloc, pack(alloc, &[1_000_000], &[0, 1], &edges))?;
    assert_eq!(rt; lost.err(), Some(0));
    Ok(())
}

// The members 0 to 16.
static SEVENTEEN: [u16; 17] = [0, 1, 2, 3, 4, 5, 6, 7, 8, 9, 10, 11, 12, 13, 14, 15, 16];

const EQUAL_LISTED: &str =
    "17: 0 0*3855 1*3855 2*3855 3*3855 4*3855 5*3855 6*3855 7*3855 8*3855 9*3855 10*3855 11*3855 12*3855 13*3855 14*3855 15*3855 16\n";

const KEPT_LISTED: &str =
    "1: 1 16\n16: 0 0*3276 1*3276 2*3276 3*3276 4*3276 5*3276 6*3276 7*3276 8*3276 9*3276 10*3276 11*3276 12*3276 13*3276 14*3276 15\n";

// Whether the solution is wide, the first byte of its spelling, and its entries.
fn shown(alloc: Global, solution: &Solution) -> Result<(bool, u8, String), Fail> {
    let bytes = solution.encode(alloc)?;
    let first = bytes.as_slice().first().copied().unwrap_or(0);
    Ok((solution.wide(), first, listed(alloc, solution)?))
}

// A voter that gives the same to each of 17 members.
#[test]
fn a_voter_that_keeps_17_edges_is_packed_wide(rt: HostRuntime) -> Result<(), Fail> {
    let alloc = rt.alloc();
    let edges = [
        edge(0, 0, 1),
        edge(0, 1, 1),
        edge(0, 2, 1),
        edge(0, 3, 1),
        edge(0, 4, 1),
        edge(0, 5, 1),
        edge(0, 6, 1),
        edge(0, 7, 1),
        edge(0, 8, 1),
        edge(0, 9, 1),
        edge(0, 10, 1),
        edge(0, 11, 1),
        edge(0, 12, 1),
        edge(0, 13, 1),
        edge(0, 14, 1),
        edge(0, 15, 1),
        edge(0, 16, 1),
    ];
    let solution = pack(alloc, &[17], &SEVENTEEN, &edges)?;
    let (wide, first, entries) = shown(alloc, &solution)?;
    assert_eq!(rt; (wide, first, entries.as_str()), (true, 0xff, EQUAL_LISTED));
    Ok(())
}

// The last of the edges of voter 0 is too little for a part.
#[test]
fn a_voter_that_keeps_16_of_17_edges_is_packed_plain(rt: HostRuntime) -> Result<(), Fail> {
    let alloc = rt.alloc();
    let edges = [
        edge(0, 0, 50_000),
        edge(0, 1, 50_000),
        edge(0, 2, 50_000),
        edge(0, 3, 50_000),
        edge(0, 4, 50_000),
        edge(0, 5, 50_000),
        edge(0, 6, 50_000),
        edge(0, 7, 50_000),
        edge(0, 8, 50_000),
        edge(0, 9, 50_000),
        edge(0, 10, 50_000),
        edge(0, 11, 50_000),
        edge(0, 12, 50_000),
        edge(0, 13, 50_000),
        edge(0, 14, 50_000),
        edge(0, 15, 50_000),
        edge(0, 16, 1),
        edge(1, 16, 5),
    ];
    let solution = pack(alloc, &[1_000_000, 5], &SEVENTEEN, &edges)?;
    let (wide, first, entries) = shown(alloc, &solution)?;
    assert_eq!(rt; (wide, first, entries.as_str()), (false, 0x04, KEPT_LISTED));
    Ok(())
}
