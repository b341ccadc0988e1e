//! What was mined, and how it is handed out.
ghost use Rattle.std.specs.Prelude.{◌≡◌};
ghost use Rattle.election_work.specs.Mining.{outcome_of, due_of};
ghost use Rattle.npos_c.specs.Mining.{bytes_in, handed, hand_answer, hand_of, told_outcome};

use crate::buffers::{put_bytes, put_members};
use crate::finding::{NposFinding, halves_of, told_as};
use crate::numbers::{SMALL, answer_of, verdict_answer};
use election_work::{Finding, Mined, Mining};

/// What was mined, in numbers: how many members and how many bytes of a solution there are, the
/// score, whose third part stands in two parts of 64 bits, and what was found. Where nothing was
/// mined all but the finding is 0.
#[repr(C)]
#[derive(Clone, Copy, Debug)]
pub struct NposMined {
    pub members: usize,
    pub bytes: usize,
    pub minimal: u64,
    pub sum: u64,
    pub squares_high: u64,
    pub squares_low: u64,
    pub finding: NposFinding,
}

/// The bytes of the solution. Weights that are not packed have none.
fn bytes_of(mined: &Mined) -> &[u8]
    ensures { result.now ≡ bytes_in mined.now.solution }
{
    match &mined.solution {
        Some(bytes) => bytes.as_slice(),
        None => &[],
    }
}

/// What was mined in numbers.
fn told_outcome(mined: &Mined) -> NposMined
    ensures { result ≡ told_outcome (outcome_of mined.now) }
{
    let (squares_high, squares_low) = halves_of(mined.score.squares);
    NposMined {
        members: mined.weights.committee().len(),
        bytes: bytes_of(mined).len(),
        minimal: mined.score.minimal,
        sum: mined.score.sum,
        squares_high,
        squares_low,
        finding: told_as(Finding::Judged(mined.verdict)),
    }
}

/// Hands out what was mined: the committee and the bytes, where both have room.
fn hand_mined(mined: &Mined, committee: &mut [u16], bytes: &mut [u8], told: &mut NposMined) -> u32
    ensures hand { hand_of committee.new bytes.new told.new
        ≡ handed (Ok (outcome_of mined.now)) (hand_of committee.old bytes.old told.old) }
    ensures answer { result ≡ hand_answer (Ok (outcome_of mined.now))
        (hand_of committee.old bytes.old told.old) }
{
    *told = told_outcome(mined);
    let members = mined.weights.committee();
    let solution = bytes_of(mined);
    if members.len() > committee.len() || solution.len() > bytes.len() {
        return SMALL;
    }
    put_members(committee, members);
    put_bytes(bytes, solution);
    verdict_answer(mined.verdict)
}

/// Hands out what a miner made, or what was found in its place.
pub fn hand_out(
    mining: &Mining,
    committee: &mut [u16],
    bytes: &mut [u8],
    told: &mut NposMined,
) -> u32
    ensures hand { hand_of committee.new bytes.new told.new
        ≡ handed (due_of mining.now) (hand_of committee.old bytes.old told.old) }
    ensures answer { result ≡ hand_answer (due_of mining.now)
        (hand_of committee.old bytes.old told.old) }
{
    match mining {
        Mining::Done(mined) => hand_mined(mined, committee, bytes, told),
        Mining::Refused(finding) => {
            *told = NposMined {
                members: 0,
                bytes: 0,
                minimal: 0,
                sum: 0,
                squares_high: 0,
                squares_low: 0,
                finding: told_as(*finding),
            };
            answer_of(*finding)
        }
    }
}
