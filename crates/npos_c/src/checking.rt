//! The verdict on the work of a bundle.
ghost use Rattle.std.specs.Prelude.{◌≡◌, IfOk};
ghost use Rattle.election_check.specs.declared.verdict.Verdict.TheVariants.{Yes};
ghost use Rattle.election_work.specs.declared.asked.Task.TheVariants as tasks;
ghost use Rattle.election_work.specs.declared.finding.Finding.TheVariants as findings;
ghost use Rattle.election_work.specs.Findings.{bundle_found};
ghost use Rattle.election_work.specs.Sound.{IsSound};
ghost use Rattle.npos_c.specs.Answers.{IsFound};

use crate::finding::{NposFinding, told_as};
use crate::numbers::{NO_MEMORY, answer_of};
use election_work::{Finding, Reading, check_election, read_election};
use npos_base::NoMemory;
use std::alloc::Global;

/// What a check finds of the bytes of a bundle.
fn check_bytes(alloc: Global, bytes: &[u8]) -> Result<Finding, NoMemory>
    ensures found { IfOk result (λ finding. finding ≡ bundle_found bytes.now) }
    ensures sound { IfOk result (λ finding. finding ≡ findings.Judged Yes
        → IsSound tasks.Check bytes.now) }
{
    match read_election(alloc, bytes)? {
        Reading::Stands(election) => check_election(alloc, election, bytes.len() as u64),
        Reading::Refused(why) => Ok(Finding::Unread(why)),
    }
}

/// The verdict on the work of a bundle in SCALE, or its first fault, in numbers. The answer is 0
/// where the verdict is Yes, 1 where it is another one, 3 where the bundle has a fault, and 6 where
/// memory was refused; then nothing is written.
#[unsafe(no_mangle)]
pub extern "C" fn npos_c_check(alloc: Global, bundle: &[u8], finding: &mut NposFinding) -> u32
    ensures found { IsFound (bundle_found bundle.now) finding.old finding.new result }
    ensures sound { result ≡ 0 → IsSound tasks.Check bundle.now }
{
    match check_bytes(alloc, bundle) {
        Ok(found) => {
            *finding = told_as(found);
            answer_of(found)
        }
        Err(NoMemory) => NO_MEMORY,
    }
}
