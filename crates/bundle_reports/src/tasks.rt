//! What is answered on the bytes of a bundle.
ghost use Rattle.std.specs.Prelude.{◌≡◌, ◌≢◌, IfOk};
ghost use Rattle.npos_base.specs.declared.miner.Miner.TheVariants as miners;
ghost use Rattle.npos_base.specs.Miner.{HasRounds};
ghost use Rattle.election_work.specs.declared.asked.Task.TheVariants as tasks;
ghost use Rattle.election_work.specs.Findings.{found_in};
ghost use Rattle.election_work.specs.Sound.{TaskHasRounds, IsSoundElection, IsSound};
ghost use Rattle.bundle_reports.specs.declared.ending.Ending.TheVariants as endings;
ghost use Rattle.bundle_reports.specs.Bundles.{reported};
ghost use Rattle.bundle_reports.specs.Tasks.{IsMineReport, IsTaskReport, IsBundleReport};
ghost use Rattle.bundle_reports.specs.Answer.{report_of};

use crate::answers::{Answer, finding_answer};
use crate::mining::mining_answer;
use election_work::{
    Election, Finding, Reading, Task, check_election, mine_election, read_election,
};
use npos_base::{Miner, NoMemory};
use std::alloc::Global;

/// The answer of a check of an election whose bundle has so many bytes.
fn check_answer(alloc: Global, election: Election, size: u64) -> Result<Answer, NoMemory>
    ensures report { IfOk result (λ answer. report_of answer ≡ reported (found_in size election)) }
    ensures sound { IfOk result (λ answer. answer.ending ≡ endings.Done
        → IsSoundElection tasks.Check election) }
{
    let found = check_election(alloc, election, size)?;
    finding_answer(alloc, found)
}

/// The answer of a miner on an election.
fn mine_answer(alloc: Global, election: Election, miner: Miner) -> Result<Answer, NoMemory>
    requires { HasRounds miner }
    ensures report { IfOk result (λ answer. IsMineReport miner election.snapshot
        (report_of answer)) }
    ensures sound { IfOk result (λ answer. answer.ending ≡ endings.Done
        → IsSoundElection (tasks.Mine miner) election) }
    ensures passes { miner ≡ miners.Fill → IfOk result (λ answer. answer.ending ≢ endings.No) }
{
    let mining = mine_election(alloc, election, miner)?;
    mining_answer(alloc, &mining)
}

/// The answer on the election of a bundle that has so many bytes.
fn answer_election(
    alloc: Global,
    election: Election,
    task: Task,
    size: u64,
) -> Result<Answer, NoMemory>
    requires { TaskHasRounds task }
    ensures report { IfOk result (λ answer. IsTaskReport task size election (report_of answer)) }
    ensures sound { IfOk result (λ answer. answer.ending ≡ endings.Done
        → IsSoundElection task election) }
    ensures passes { task ≡ tasks.Mine miners.Fill
        → IfOk result (λ answer. answer.ending ≢ endings.No) }
{
    match task {
        Task::Check => check_answer(alloc, election, size),
        Task::Mine(miner) => mine_answer(alloc, election, miner),
    }
}

/// The answer on the bytes of a bundle, which go once they are read.
pub fn answer_bytes(alloc: Global, bytes: Vec<u8>, task: Task) -> Result<Answer, NoMemory>
    requires { TaskHasRounds task }
    ensures report { IfOk result (λ answer. IsBundleReport task bytes.items (report_of answer)) }
    ensures sound { IfOk result (λ answer. answer.ending ≡ endings.Done
        → IsSound task bytes.items) }
    ensures passes { task ≡ tasks.Mine miners.Fill
        → IfOk result (λ answer. answer.ending ≢ endings.No) }
{
    let size = bytes.len() as u64;
    let read = read_election(alloc, bytes.as_slice())?;
    drop(bytes);
    match read {
        Reading::Stands(election) => answer_election(alloc, election, task, size),
        Reading::Refused(why) => finding_answer(alloc, Finding::Unread(why)),
    }
}
