//! The report on a generated election.
ghost use Rattle.std.specs.Prelude.{◌≡◌};
ghost use Rattle.npos_c.specs.Answers.{IsDemoTold};

use crate::numbers::{NO_MEMORY, UNKNOWN};
use crate::reporting::tell;
use bundle_reports::{Answer, Ending, demo_text};
use npos_base::{MOST_SEATS, MOST_VOTERS, NoMemory};
use std::alloc::Global;

/// The text that the program writes of the election that a seed generates, for 1 to 16,384 voters
/// and 1 to 512 seats; for other numbers the answer is 2. All else is as in `npos_c_report`.
#[unsafe(no_mangle)]
pub extern "C" fn npos_c_demo(
    alloc: Global,
    seed: u64,
    voters: u32,
    seats: u32,
    text: &mut [u8],
    size: &mut usize,
) -> u32
    ensures { IsDemoTold seed voters seats
        (record { text = text.old; size = size.old })
        (record { text = text.new; size = size.new }) result }
{
    if voters < 1 || voters > MOST_VOTERS as u32 || seats < 1 || seats > MOST_SEATS {
        return UNKNOWN;
    }
    match demo_text(alloc, seed, voters, seats) {
        Ok(made) => tell(
            &Answer {
                text: made,
                ending: Ending::Done,
            },
            text,
            size,
        ),
        Err(NoMemory) => NO_MEMORY,
    }
}
