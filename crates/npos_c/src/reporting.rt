//! Reports on bundles, as the program writes them.
ghost use Rattle.std.specs.Prelude.{◌≡◌, IfOk};
ghost use Rattle.bundle_reports.specs.Answer.{report_of};
ghost use Rattle.npos_c.specs.Asked.{asked_of, AskedHasRounds, IsDue};
ghost use Rattle.npos_c.specs.Answers.{IsReportedFor, told_text, told_answer};

use crate::asked::{Asked, asked_of};
use crate::buffers::put_bytes;
use crate::numbers::{NO_MEMORY, SMALL, UNKNOWN, ending_number};
use bundle_reports::{Answer, answer_bytes, rewrite_bytes};
use npos_base::NoMemory;
use std::alloc::Global;

/// The report that is asked for.
fn report_bytes(alloc: Global, bytes: &[u8], asked: Asked) -> Result<Answer, NoMemory>
    requires { AskedHasRounds asked }
    ensures { IfOk result (λ answer. IsDue asked bytes.now (report_of answer)) }
{
    let mut held = Vec::with_capacity(alloc, bytes.len())?;
    held.extend_from_slice(bytes)?;
    match asked {
        Asked::OnBundle(task) => answer_bytes(alloc, held, task),
        Asked::Rewrite(way) => rewrite_bytes(alloc, held, way),
    }
}

/// Puts a text where it has room, and tells its size.
pub fn tell(answer: &Answer, text: &mut [u8], size: &mut usize) -> u32
    ensures spot { record { text = text.new; size = size.new }
        ≡ told_text (report_of answer.now) (record { text = text.old; size = size.old }) }
    ensures answer { result ≡ told_answer (report_of answer.now) text.old }
{
    *size = answer.text.len();
    if answer.text.len() > text.len() {
        return SMALL;
    }
    put_bytes(text, answer.text.as_slice());
    ending_number(answer.ending)
}

/// The text that the program writes for a bundle. The task is 0 for the verdict, 1 to 3 for the
/// miners fill, seq and mms, 4 to pack a bundle in JSON and 5 to show one in SCALE; the rounds are
/// those of mms, from 1 to 100, and else are not looked at. The text goes to the front of the
/// buffer and its size to `size`. The answer is the exit status of the program; 2 where there is no
/// such task, and 6 where memory was refused, and then nothing is written; and 8 where the text
/// is longer than the buffer: then its size alone is told.
#[unsafe(no_mangle)]
pub extern "C" fn npos_c_report(
    alloc: Global,
    task: u32,
    rounds: u32,
    bundle: &[u8],
    text: &mut [u8],
    size: &mut usize,
) -> u32
    ensures { IsReportedFor (asked_of task rounds) bundle.now
        (record { text = text.old; size = size.old })
        (record { text = text.new; size = size.new }) result }
{
    match asked_of(task, rounds) {
        Some(asked) => match report_bytes(alloc, bundle, asked) {
            Ok(answer) => tell(&answer, text, size),
            Err(NoMemory) => NO_MEMORY,
        },
        None => UNKNOWN,
    }
}
