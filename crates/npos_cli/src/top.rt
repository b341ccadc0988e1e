//! The top call.
ghost use Rattle.std.specs.Prelude.{◌≡◌, ◌≢◌, false, None, Some, Err, map, IfOk, IfErr, IfSome, string_bytes};
ghost use Rattle.npos_cli.specs.declared.job.Job.TheVariants as jobs;
ghost use Rattle.election_work.specs.declared.asked.Task.TheVariants as tasks;
ghost use Rattle.npos_base.specs.declared.miner.Miner.TheVariants as miners;
ghost use Rattle.npos_words.specs.Words.{has_verb};
ghost use Rattle.run_edges.specs.Status.{status_of};
ghost use Rattle.npos_cli.specs.Words.{job_of, KeepsBounds};
ghost use Rattle.election_work.specs.Sound.{TaskHasRounds};
ghost use Rattle.npos_cli.specs.Report.{ReadsInput, IsJudged};
ghost use Rattle.npos_cli.specs.Chain.{npos_machine};
ghost use Rattle.npos_cli.specs.Checkpoints.{checkpoint_machine};
ghost use Rattle.election_work.specs.Sound.{IsSound};
ghost use Rattle.run_edges.specs.declared.status.Status.TheVariants as statuses;
ghost use Rattle.run_edges.specs.declared.halt.Halt.TheVariants as halts;
ghost use Rattle.npos_cli.specs.Owed.{FindsFor};
ghost use Rattle.run_edges.specs.Owed.{IsDrained, TakesAtMost, Counts, AsksInTime, Settles};
ghost use Rattle.run_edges.specs.Streaming.{ReadsWhile};
ghost use Rattle.bundle_reports.specs.Demo.{demo_report};
ghost use Rattle.npos_cli.specs.Ran.{Ran, traffic, calls, DemoEnds};
ghost use Rattle.npos_cli.specs.Says.{Says};

use crate::job::{Job, job_of};
use crate::laws::{
    pools_are_fair, replays_keep_their_promise, replays_start_with_their_checkpoint,
    replays_write_checkpoints, resumed_replays_keep_their_promise,
};
use crate::output::Output;
use crate::pooling::pools;
use crate::replaying::replay;
use crate::resuming::resume;
use crate::rewriting::rewrite;
use bundle_reports::{Answer, answer_bytes, demo_text};
use election_work::{MOST_BUNDLE, Task};
use npos_base::{Sink, Source};
use npos_words::command_of;
use run_edges::{Halt, Status, deliver, end_of, read_up_to, status_of};
use std::alloc::Global;

/// What the program writes where the words ask for no job.
const USAGE: &str = "usage: npos replay|check|mine|pack|show|demo|checkpoint|resume|pools\n";

/// Reads the bundle that is left in the source, no more than one byte beyond the limit, and reports
/// on it.
#[tactic(auto, using(crate::proofs::RunLaws::bundle_facts))]
fn bundle_answer<S: Source>(alloc: Global, source: &mut S, task: Task) -> Result<Answer, Halt>
    requires { TaskHasRounds task }
    ensures due { IfOk result (λ answer. FindsFor (Some (jobs.OnBundle task)) (S.left source.old)
        answer.text.items (status_of answer.ending)) }
    ensures drained { IfOk result (λ answer. IsJudged (status_of answer.ending)
        → IsDrained (S.left source.old) (S.left source.new)) }
    ensures few { TakesAtMost 16777217 (S.left source.old) (S.left source.new) }
    ensures sound { IfOk result (λ answer. status_of answer.ending ≡ statuses.Done
        → IfSome (S.left source.old) (IsSound task)) }
    ensures passes { task ≡ tasks.Mine miners.Fill
        → IfOk result (λ answer. status_of answer.ending ≢ statuses.No) }
    ensures faults { Counts halts.ReadFault (S.faults source.old) (S.faults source.new) result }
    ensures asks { AsksInTime (S.asked source.old) (S.asked source.new) }
    ensures unwritten { IfErr result (λ halt. halt ≢ halts.WriteFault) }
{
    let bytes = read_up_to(alloc, source, MOST_BUNDLE)?;
    let answer = answer_bytes(alloc, bytes, task)?;
    Ok(answer)
}

/// Reports on the bundle that is left in the source, and flushes the report.
fn report<S: Source, K: Sink>(
    alloc: Global,
    source: &mut S,
    sink: &mut K,
    task: Task,
) -> Result<Status, Halt>
    requires { TaskHasRounds task }
    ensures ran { Ran (Some (jobs.OnBundle task)) (traffic S.left K.told S.faults K.faults
        source.old source.new sink.old sink.new) result }
    ensures unwritten { IfErr result (λ halt. halt ≢ halts.WriteFault → sink.new ≡ sink.old) }
    ensures asks { AsksInTime (S.asked source.old) (S.asked source.new) }
    ensures settles { Settles (K.tried sink.old) (K.tried sink.new) result }
{
    let answer = bundle_answer(alloc, source, task)?;
    deliver(sink, answer.text.as_slice(), status_of(answer.ending))
}

/// Reports on the election that the seed generates.
fn demo<K: Sink>(
    alloc: Global,
    sink: &mut K,
    seed: u64,
    voters: u32,
    seats: u32,
) -> Result<Status, Halt>
    requires bounds { KeepsBounds (Some (jobs.Demo seed voters seats)) }
    ensures ends { DemoEnds (demo_report seed voters seats).text (K.told sink.old)
        (K.told sink.new) result }
    ensures faults { Counts halts.WriteFault (K.faults sink.old) (K.faults sink.new) result }
    ensures unwritten { IfErr result (λ halt. halt ≢ halts.WriteFault → sink.new ≡ sink.old) }
    ensures settles { Settles (K.tried sink.old) (K.tried sink.new) result }
{
    let text = demo_text(alloc, seed, voters, seats)?;
    deliver(sink, text.as_slice(), Status::Done)
}

/// Does the job, or writes the usage line where there is none.
fn run_job<S: Source, K: Sink>(
    alloc: Global,
    job: Option<Job>,
    source: &mut S,
    sink: &mut K,
) -> Result<Status, Halt>
    requires { KeepsBounds job }
    ensures ran { Ran job (traffic S.left K.told S.faults K.faults
        source.old source.new sink.old sink.new) result }
    ensures unread { (ReadsInput job → ⊥) → source.new ≡ source.old }
    ensures unwritten { (job ≡ Some jobs.Replay → ⊥)
        → IfErr result (λ halt. halt ≢ halts.WriteFault → sink.new ≡ sink.old) }
    ensures wary { job ≡ Some jobs.Replay → ReadsWhile npos_machine (S.left source.old)
        (S.left source.new) (S.asked source.new).last }
    ensures wary_checkpoint { job ≡ Some jobs.Checkpoint → ReadsWhile checkpoint_machine
        (S.left source.old) (S.left source.new) (S.asked source.new).last }
    ensures asks { AsksInTime (S.asked source.old) (S.asked source.new) }
    ensures settles { Settles (K.tried sink.old) (K.tried sink.new) result }
    ensures usage_memory { job ≡ None → result ≢ Err halts.NoMemory }
{
    match job {
        None => deliver(sink, USAGE.as_bytes(), Status::Usage),
        Some(Job::Replay) => replay(alloc, Output::Receipts, source, sink),
        Some(Job::Checkpoint) => replay(alloc, Output::Checkpoint, source, sink),
        Some(Job::Resume) => resume(alloc, source, sink),
        Some(Job::OnBundle(task)) => report(alloc, source, sink, task),
        Some(Job::Rewrite(way)) => rewrite(alloc, source, sink, way),
        Some(Job::Pools) => pools(alloc, source, sink),
        Some(
            Job::Demo {
                seed,
                voters,
                seats,
            },
        ) => demo(alloc, sink, seed, voters, seats),
    }
}

/// Finds the job that the words ask for, and does it.
fn run_words<S: Source, K: Sink>(
    alloc: Global,
    words: &[String],
    source: &mut S,
    sink: &mut K,
) -> Result<Status, Halt>
    ensures ran { Ran (job_of (map string_bytes words.now)) (traffic S.left K.told S.faults K.faults
        source.old source.new sink.old sink.new) result }
    ensures unread { (ReadsInput (job_of (map string_bytes words.now)) → ⊥)
        → source.new ≡ source.old }
    ensures unwritten { (job_of (map string_bytes words.now) ≡ Some jobs.Replay → ⊥)
        → IfErr result (λ halt. halt ≢ halts.WriteFault → sink.new ≡ sink.old) }
    ensures wary { job_of (map string_bytes words.now) ≡ Some jobs.Replay
        → ReadsWhile npos_machine (S.left source.old) (S.left source.new)
        (S.asked source.new).last }
    ensures wary_checkpoint { job_of (map string_bytes words.now) ≡ Some jobs.Checkpoint
        → ReadsWhile checkpoint_machine (S.left source.old) (S.left source.new)
        (S.asked source.new).last }
    ensures asks { AsksInTime (S.asked source.old) (S.asked source.new) }
    ensures settles { Settles (K.tried sink.old) (K.tried sink.new) result }
    ensures usage_memory { has_verb (map string_bytes words.now) ≡ false
        → result ≢ Err halts.NoMemory }
{
    let command = command_of(alloc, words)?;
    run_job(alloc, command.map(job_of), source, sink)
}

/// Does all that the program does: finds the job that the words ask for, reads its input from the
/// source, writes to the sink what is due, flushes it, and says how it ended. `words[0]` is the
/// program's name and is not looked at.
pub fn run<S: Source, K: Sink>(
    alloc: Global,
    words: &[String],
    source: &mut S,
    sink: &mut K,
) -> Status
    ensures { Says (map string_bytes words.now) (traffic S.left K.told S.faults K.faults
        source.old source.new sink.old sink.new)
        (calls S.asked K.tried source.old source.new sink.old sink.new) (source.new ≡ source.old)
        (sink.new ≡ sink.old) result }
{
    // laws, which do nothing
    replays_keep_their_promise();
    replays_write_checkpoints();
    replays_start_with_their_checkpoint();
    resumed_replays_keep_their_promise();
    pools_are_fair();
    end_of(run_words(alloc, words, source, sink))
}
