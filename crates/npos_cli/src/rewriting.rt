//! Bundles that are read from a source and written to a sink in their other form.
ghost use Rattle.std.specs.Prelude.{◌≡◌, ◌≢◌, ◌+◌, Some, IfOk, IfErr};
ghost use Rattle.npos_cli.specs.declared.job.Job.TheVariants as jobs;
ghost use Rattle.run_edges.specs.declared.halt.Halt.TheVariants as halts;
ghost use Rattle.npos_cli.specs.Owed.{FindsFor};
ghost use Rattle.run_edges.specs.Owed.{IsDrained, TakesAtMost, Counts, AsksInTime, Settles};
ghost use Rattle.npos_cli.specs.Ran.{Ran, traffic};
ghost use Rattle.run_edges.specs.Status.{status_of};
ghost use Rattle.npos_cli.specs.Report.{IsJudged};

use bundle_reports::{Answer, Rewriting, rewrite_bytes};
use election_work::MOST_BUNDLE;
use npos_base::{Sink, Source};
use run_edges::{Halt, Status, deliver, read_up_to, status_of};
use std::alloc::Global;

/// Reads the bundle that is left in the source, no more than one byte beyond the limit, and answers
/// with its other form.
#[tactic(auto, using(crate::proofs::RewriteLaws::rewrite_drained))]
fn rewrite_answer<S: Source>(alloc: Global, source: &mut S, way: Rewriting) -> Result<Answer, Halt>
    ensures due { IfOk result (λ answer. FindsFor (Some (jobs.Rewrite way)) (S.left source.old)
        answer.text.items (status_of answer.ending)) }
    ensures drained { IfOk result (λ answer. IsJudged (status_of answer.ending)
        → IsDrained (S.left source.old) (S.left source.new)) }
    ensures few { TakesAtMost 16777217 (S.left source.old) (S.left source.new) }
    ensures faults { Counts halts.ReadFault (S.faults source.old) (S.faults source.new) result }
    ensures asks { AsksInTime (S.asked source.old) (S.asked source.new) }
    ensures unwritten { IfErr result (λ halt. halt ≢ halts.WriteFault) }
{
    let bytes = read_up_to(alloc, source, MOST_BUNDLE)?;
    let answer = rewrite_bytes(alloc, bytes, way)?;
    Ok(answer)
}

/// Writes the bundle that is left in the source in its other form, and flushes it.
pub fn rewrite<S: Source, K: Sink>(
    alloc: Global,
    source: &mut S,
    sink: &mut K,
    way: Rewriting,
) -> Result<Status, Halt>
    ensures ran { Ran (Some (jobs.Rewrite way)) (traffic S.left K.told S.faults K.faults
        source.old source.new sink.old sink.new) result }
    ensures unwritten { IfErr result (λ halt. halt ≢ halts.WriteFault → sink.new ≡ sink.old) }
    ensures asks { AsksInTime (S.asked source.old) (S.asked source.new) }
    ensures settles { Settles (K.tried sink.old) (K.tried sink.new) result }
{
    let answer = rewrite_answer(alloc, source, way)?;
    deliver(sink, answer.text.as_slice(), status_of(answer.ending))
}
