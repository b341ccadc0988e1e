//! Drawn elections, with a table that `bench/judge_table` printed. It says how they are drawn, and
//! went through all groups of voters.
ghost use Rattle.std.specs.Prelude.{◌<◌};

use crate::writing::{put_list, put_targets, put_voter};
use bundle_reports::Ending;
use committee_judge::judge_bytes;
use npos_base::{List, NoMemory};
use scale_wire::Pen;
use std::alloc::Global;
use std::fmt::Write;
use std::test::Fail;

/// Of the target that is denied its position, the seats that the stake of its group stands for, that
/// stake, the excess, the group, and the members that it nominates: both as numbers whose bits are
/// positions. All 0 where nobody is denied.
type Row = (u8, u8, u8, u8, u8, u8);

static ROWS: [Row; 200] = [
    (4, 3, 10, 3, 7, 6),
    (0, 2, 12, 7, 30, 2),
    (0, 0, 0, 0, 0, 0),
    (1, 1, 6, 6, 10, 0),
    (0, 0, 0, 0, 0, 0),
    (0, 0, 0, 0, 0, 0),
    (1, 2, 9, 4, 7, 4),
    (0, 0, 0, 0, 0, 0),
    (0, 0, 0, 0, 0, 0),
    (0, 2, 11, 5, 7, 4),
    (0, 0, 0, 0, 0, 0),
    (0, 0, 0, 0, 0, 0),
    (0, 0, 0, 0, 0, 0),
    (0, 1, 14, 14, 54, 0),
    (0, 0, 0, 0, 0, 0),
    (0, 2, 18, 9, 109, 2),
    (0, 0, 0, 0, 0, 0),
    (0, 0, 0, 0, 0, 0),
    (0, 0, 0, 0, 0, 0),
    (1, 1, 6, 6, 12, 0),
    (0, 0, 0, 0, 0, 0),
    (0, 2, 14, 7, 15, 4),
    (0, 0, 0, 0, 0, 0),
    (0, 0, 0, 0, 0, 0),
    (3, 1, 10, 10, 25, 0),
    (0, 1, 7, 7, 9, 0),
    (0, 0, 0, 0, 0, 0),
    (0, 2, 17, 8, 31, 8),
    (0, 0, 0, 0, 0, 0),
    (0, 0, 0, 0, 0, 0),
    (0, 0, 0, 0, 0, 0),
    (1, 1, 12, 12, 133, 0),
    (0, 0, 0, 0, 0, 0),
    (0, 0, 0, 0, 0, 0),
    (0, 0, 0, 0, 0, 0),
    (0, 0, 0, 0, 0, 0),
    (0, 0, 0, 0, 0, 0),
    (0, 0, 0, 0, 0, 0),
    (0, 2, 17, 9, 122, 4),
    (0, 1, 7, 7, 12, 0),
    (0, 1, 10, 10, 138, 0),
    (0, 0, 0, 0, 0, 0),
    (0, 0, 0, 0, 0, 0),
    (0, 0, 0, 0, 0, 0),
    (0, 0, 0, 0, 0, 0),
    (0, 2, 17, 9, 93, 2),
    (0, 0, 0, 0, 0, 0),
    (2, 1, 7, 7, 6, 0),
    (1, 3, 14, 9, 15, 4),
    (0, 0, 0, 0, 0, 0),
    (0, 0, 0, 0, 0, 0),
    (2, 1, 11, 11, 7, 0),
    (3, 1, 7, 7, 6, 0),
    (0, 0, 0, 0, 0, 0),
    (0, 0, 0, 0, 0, 0),
    (1, 2, 9, 4, 7, 8),
    (0, 0, 0, 0, 0, 0),
    (0, 1, 10, 10, 44, 0),
    (0, 0, 0, 0, 0, 0),
    (0, 3, 12, 8, 7, 2),
    (4, 3, 17, 11, 31, 2),
    (0, 2, 10, 5, 13, 4),
    (0, 1, 8, 8, 3, 0),
    (0, 0, 0, 0, 0, 0),
    (0, 0, 0, 0, 0, 0),
    (0, 0, 0, 0, 0, 0),
    (1, 1, 6, 6, 9, 0),
    (0, 0, 0, 0, 0, 0),
    (0, 0, 0, 0, 0, 0),
    (0, 0, 0, 0, 0, 0),
    (1, 2, 13, 6, 15, 4),
    (2, 2, 22, 12, 175, 16),
    (0, 0, 0, 0, 0, 0),
    (0, 0, 0, 0, 0, 0),
    (0, 1, 9, 9, 37, 0),
    (0, 0, 0, 0, 0, 0),
    (1, 2, 23, 13, 111, 8),
    (0, 0, 0, 0, 0, 0),
    (0, 0, 0, 0, 0, 0),
    (0, 0, 0, 0, 0, 0),
    (0, 0, 0, 0, 0, 0),
    (0, 0, 0, 0, 0, 0),
    (0, 0, 0, 0, 0, 0),
    (0, 0, 0, 0, 0, 0),
    (0, 0, 0, 0, 0, 0),
    (0, 0, 0, 0, 0, 0),
    (0, 0, 0, 0, 0, 0),
    (1, 2, 9, 5, 11, 4),
    (0, 0, 0, 0, 0, 0),
    (0, 0, 0, 0, 0, 0),
    (0, 0, 0, 0, 0, 0),
    (0, 0, 0, 0, 0, 0),
    (0, 0, 0, 0, 0, 0),
    (0, 0, 0, 0, 0, 0),
    (0, 0, 0, 0, 0, 0),
    (0, 3, 10, 6, 7, 4),
    (0, 0, 0, 0, 0, 0),
    (0, 0, 0, 0, 0, 0),
    (0, 0, 0, 0, 0, 0),
    (0, 2, 13, 6, 15, 2),
    (0, 0, 0, 0, 0, 0),
    (0, 0, 0, 0, 0, 0),
    (0, 0, 0, 0, 0, 0),
    (2, 2, 23, 14, 125, 8),
    (0, 0, 0, 0, 0, 0),
    (0, 0, 0, 0, 0, 0),
    (0, 0, 0, 0, 0, 0),
    (0, 3, 17, 11, 31, 2),
    (0, 0, 0, 0, 0, 0),
    (0, 0, 0, 0, 0, 0),
    (0, 0, 0, 0, 0, 0),
    (0, 0, 0, 0, 0, 0),
    (0, 0, 0, 0, 0, 0),
    (0, 0, 0, 0, 0, 0),
    (1, 2, 13, 6, 15, 16),
    (0, 0, 0, 0, 0, 0),
    (0, 0, 0, 0, 0, 0),
    (2, 1, 10, 10, 7, 0),
    (0, 0, 0, 0, 0, 0),
    (0, 0, 0, 0, 0, 0),
    (3, 1, 7, 7, 10, 0),
    (0, 2, 6, 3, 6, 2),
    (0, 0, 0, 0, 0, 0),
    (0, 0, 0, 0, 0, 0),
    (1, 1, 7, 7, 9, 0),
    (0, 0, 0, 0, 0, 0),
    (0, 0, 0, 0, 0, 0),
    (0, 0, 0, 0, 0, 0),
    (0, 0, 0, 0, 0, 0),
    (0, 0, 0, 0, 0, 0),
    (0, 0, 0, 0, 0, 0),
    (0, 0, 0, 0, 0, 0),
    (3, 2, 17, 8, 31, 2),
    (0, 0, 0, 0, 0, 0),
    (0, 0, 0, 0, 0, 0),
    (0, 0, 0, 0, 0, 0),
    (0, 0, 0, 0, 0, 0),
    (0, 3, 14, 9, 15, 2),
    (0, 0, 0, 0, 0, 0),
    (0, 0, 0, 0, 0, 0),
    (0, 0, 0, 0, 0, 0),
    (1, 3, 9, 3, 7, 12),
    (0, 0, 0, 0, 0, 0),
    (0, 0, 0, 0, 0, 0),
    (0, 2, 19, 9, 31, 8),
    (0, 0, 0, 0, 0, 0),
    (0, 0, 0, 0, 0, 0),
    (0, 0, 0, 0, 0, 0),
    (0, 0, 0, 0, 0, 0),
    (0, 0, 0, 0, 0, 0),
    (0, 2, 11, 6, 7, 2),
    (0, 0, 0, 0, 0, 0),
    (0, 0, 0, 0, 0, 0),
    (0, 0, 0, 0, 0, 0),
    (0, 0, 0, 0, 0, 0),
    (0, 0, 0, 0, 0, 0),
    (0, 0, 0, 0, 0, 0),
    (0, 2, 12, 6, 45, 2),
    (0, 0, 0, 0, 0, 0),
    (2, 1, 7, 7, 6, 0),
    (0, 0, 0, 0, 0, 0),
    (1, 3, 15, 10, 15, 4),
    (2, 1, 7, 7, 3, 0),
    (4, 1, 18, 18, 206, 0),
    (0, 0, 0, 0, 0, 0),
    (0, 0, 0, 0, 0, 0),
    (1, 2, 14, 7, 29, 8),
    (0, 0, 0, 0, 0, 0),
    (0, 1, 10, 10, 7, 0),
    (0, 0, 0, 0, 0, 0),
    (2, 2, 16, 8, 30, 8),
    (0, 0, 0, 0, 0, 0),
    (0, 0, 0, 0, 0, 0),
    (0, 0, 0, 0, 0, 0),
    (0, 0, 0, 0, 0, 0),
    (0, 0, 0, 0, 0, 0),
    (2, 2, 22, 12, 252, 8),
    (1, 1, 15, 15, 30, 0),
    (0, 0, 0, 0, 0, 0),
    (0, 0, 0, 0, 0, 0),
    (1, 1, 10, 10, 14, 0),
    (0, 0, 0, 0, 0, 0),
    (0, 0, 0, 0, 0, 0),
    (0, 0, 0, 0, 0, 0),
    (0, 0, 0, 0, 0, 0),
    (0, 0, 0, 0, 0, 0),
    (0, 0, 0, 0, 0, 0),
    (0, 0, 0, 0, 0, 0),
    (2, 1, 9, 9, 7, 0),
    (0, 0, 0, 0, 0, 0),
    (0, 0, 0, 0, 0, 0),
    (0, 0, 0, 0, 0, 0),
    (0, 0, 0, 0, 0, 0),
    (1, 2, 15, 7, 59, 8),
    (4, 2, 28, 14, 255, 2),
    (0, 0, 0, 0, 0, 0),
    (3, 2, 14, 8, 29, 1),
    (0, 0, 0, 0, 0, 0),
    (0, 0, 0, 0, 0, 0),
    (0, 0, 0, 0, 0, 0),
];

/// The generator of 64 bits.
#[derive(Drop)]
struct Draws {
    state: u64,
}

impl Draws {
    /// The next draw.
    fn below(&mut self, count: u64) -> u64
        requires { 0 < count }
        ensures { result < count }
    {
        self.state = self
            .state
            .wrapping_mul(6_364_136_223_846_793_005)
            .wrapping_add(1_442_695_040_888_963_407);
        (self.state >> 33) % count
    }
}

/// A bundle, and the stakes of its voters.
#[derive(Drop)]
struct Drawn {
    bytes: List<u8>,
    stakes: Vec<u64>,
}

/// Of how many draws in eight a voter votes for the target.
fn chance(committee: &[u64], target: u64) -> u64 {
    if committee.first() == Some(&target) {
        5
    } else if committee.contains(&target) {
        1
    } else {
        6
    }
}

/// As many members as there are seats, from one that is drawn on, going round.
fn draw_committee(
    alloc: Global,
    draws: &mut Draws,
    seats: u64,
    targets: u64,
) -> Result<Vec<u64>, NoMemory>
    requires { 0 < targets }
{
    let first = draws.below(targets);
    let mut committee = Vec::new(alloc);
    for i in 0..seats {
        committee.push(first.wrapping_add(i) % targets)?;
    }
    Ok(committee)
}

/// The votes of one voter.
fn draw_votes(
    alloc: Global,
    draws: &mut Draws,
    committee: &[u64],
    targets: u64,
) -> Result<Vec<u64>, NoMemory>
    requires { 0 < targets }
{
    let mut votes = Vec::new(alloc);
    for target in 0..targets {
        if draws.below(8) < chance(committee, target) {
            votes.push(target)?;
        }
    }
    if votes.is_empty() {
        votes.push(draws.below(targets))?;
    }
    Ok(votes)
}

/// The next election, with its committee as plain work without edges.
fn draw(alloc: Global, draws: &mut Draws) -> Result<Drawn, NoMemory> {
    let seats = 1 + draws.below(3);
    let targets = seats + 1 + draws.below(5 - seats);
    let committee = draw_committee(alloc, draws, seats, targets)?;
    let count = 3 + draws.below(6);
    let mut pen = Pen::new(alloc);
    put_targets(&mut pen, seats, targets)?;
    pen.put_compact(count)?;
    let mut stakes = Vec::new(alloc);
    for place in 0..count {
        let stake = 3 + draws.below(2);
        let votes = draw_votes(alloc, draws, &committee, targets)?;
        put_voter(&mut pen, place, stake, &votes)?;
        stakes.push(stake)?;
    }
    pen.put_u8(2)?;
    put_list(&mut pen, &committee)?;
    pen.put_compact(0)?;
    Ok(Drawn {
        bytes: pen.finish(),
        stakes,
    })
}

/// The front of the accounts of targets and voters, in hexadecimal.
const FRONT: &str = "00000000000000000000000000000000000000000000000000000000000000";

/// The text that the row calls for.
fn due(alloc: Global, row: &Row, stakes: &[u64]) -> Result<String, Fail> {
    let &(target, seats, stake, excess, group, members) = row;
    let mut text = String::new(alloc);
    if group == 0 {
        write!(text, "verdict 0\n")?;
        return Ok(text);
    }
    let count = members.count_ones();
    write!(
        text,
        "denied {FRONT}{target:02x} seats {seats} members {count} stake {stake}\n"
    )?;
    for place in 0..8_u8 {
        if is_in(group, place) {
            let stake = stakes.get(usize::from(place)).copied().unwrap_or(0);
            write!(text, "voter {FRONT}1{place:x} {stake}\n")?;
        }
    }
    for place in 0..8_u8 {
        if is_in(members, place) {
            write!(text, "member {FRONT}{place:02x}\n")?;
        }
    }
    write!(text, "verdict 10 {target} {excess}\n")?;
    Ok(text)
}

/// Whether the bit at this place is set.
fn is_in(bits: u8, place: u8) -> bool {
    bits.checked_shr(u32::from(place)).unwrap_or(0) % 2 == 1
}

#[test]
fn drawn_committees_are_judged(rt: HostRuntime) -> Result<(), Fail> {
    let mut draws = Draws { state: 1 };
    for row in &ROWS {
        let Drawn { bytes, stakes } = draw(rt.alloc(), &mut draws)?;
        let text = due(rt.alloc(), row, &stakes)?;
        let answer = judge_bytes(rt.alloc(), bytes.into_vec())?;
        assert_eq!(rt; answer.text.as_slice(), text.as_bytes());
        let ending = if row.4 == 0 { Ending::Done } else { Ending::No };
        assert_eq!(rt; answer.ending, ending);
    }
    Ok(())
}
