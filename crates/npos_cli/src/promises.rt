//! What follows from the contract of `run`, said status by status.
ghost use Rattle.std.specs.Prelude.{◌≡◌, ◌≢◌, ◌⊎◌, ℕ, List, Some, [], ◌∷◌, codes, map, true, false, IfSome, string_bytes};
ghost use Rattle.npos_base.specs.Outside.{Rose};
ghost use Rattle.npos_cli.specs.declared.job.Job.TheVariants as jobs;
ghost use Rattle.run_edges.specs.declared.status.Status.{Status as status};
ghost use Rattle.npos_cli.specs.Words.{HasForm, job_of, usage_line};
ghost use Rattle.npos_cli.specs.Chain.{npos_machine};
ghost use Rattle.npos_cli.specs.Claim.{IsPromised};
ghost use Rattle.npos_cli.specs.Report.{IsAnswer};
ghost use Rattle.npos_cli.specs.Owed.{IsOwed};
ghost use Rattle.run_edges.specs.Owed.{Delivers, DeliversFront, DeliversReplay, DeliversReplayFront, Comes, ComesWith};

use crate::{Status, run};
use npos_base::{Sink, Source};
use std::alloc::Global;
use std::string::String;

/// What is promised of `npos replay`, whatever name the program goes by. Where it answers, exactly the
/// replay of what was read was written and flushed; whatever it ends with, a front of that was; and
/// the chain of which the text tells keeps all that is promised, behind each of its blocks: each
/// committee has a member for each seat, follows nominations, spends no voter beyond its stake and
/// denies nobody, and so has at least r members among the nominees of each group that holds the
/// stake of r seats and agrees on r targets; each round seats its committee from its own snapshot;
/// nothing valid is crowded out for free; the books count what was endowed and told; deposits are
/// settled once; eras pay no more than their rewards and take no more than what stood behind them;
/// slashes wait until they are due; and each call is accepted, or refused for a reason with a number
/// and undone. It answers unless the source or the sink failed or memory was refused.
pub fn run_as_promised<S: Source, K: Sink>(
    alloc: Global,
    words: &[String],
    source: &mut S,
    sink: &mut K,
) -> Status
    ensures replay { (name : List ℕ) → map string_bytes words.now ≡ name ∷ codes "replay" ∷ []
        → IfSome (S.left source.old)
        (λ bytes. IsPromised bytes (K.told sink.old) (K.told sink.new) result) }
    ensures uncut { (Rose (S.faults source.old) (S.faults source.new) → ⊥)
        → (Rose (K.faults sink.old) (K.faults sink.new) → ⊥)
        → result ≢ Status.NoMemory → IsAnswer result }
{
    run(alloc, words, source, sink)
}

/// Runs the program, and says of each status when it comes and what was then written and read. For
/// all words, whatever is owed comes, unless a count of faults rose or memory was refused; then of
/// Usage for all words, and of the others for a replay. The body calls `run` and nothing else, so
/// each clause here is one of `run` too.
#[tactic(auto, using(crate::proofs::PromiseLaws::usage_due, crate::proofs::PromiseLaws::unasked, crate::proofs::PromiseLaws::usage_comes))]
pub fn run_by_status<S: Source, K: Sink>(
    alloc: Global,
    words: &[String],
    source: &mut S,
    sink: &mut K,
) -> Status
    ensures owed_comes { (text : List ℕ) (due : status) → IsOwed (map string_bytes words.now)
        (S.left source.old) text due → Comes due result
        (Rose (S.faults source.old) (S.faults source.new)
        ⊎ Rose (K.faults sink.old) (K.faults sink.new)) }
    ensures usage { result ≡ Status.Usage → (HasForm (map string_bytes words.now) → ⊥)
        × Delivers (K.told sink.old) (K.told sink.new) usage_line }
    ensures usage_comes { (HasForm (map string_bytes words.now) → ⊥)
        → Comes Status.Usage result (Rose (K.faults sink.old) (K.faults sink.new)) }
    ensures usage_front { (HasForm (map string_bytes words.now) → ⊥)
        → DeliversFront (K.told sink.old) (K.told sink.new) usage_line }
    ensures nothing_read { (HasForm (map string_bytes words.now) → ⊥) → source.new ≡ source.old }
    ensures done { job_of (map string_bytes words.now) ≡ Some jobs.Replay → result ≡ Status.Done
        → IfSome (S.left source.old) (λ bytes.
        DeliversReplay npos_machine false (K.told sink.old) (K.told sink.new) bytes
        × (S.left source.new ≡ Some [])) }
    ensures done_comes { job_of (map string_bytes words.now) ≡ Some jobs.Replay
        → IfSome (S.left source.old) (λ bytes.
        ComesWith npos_machine bytes false Status.Done result
        (Rose (S.faults source.old) (S.faults source.new)
        ⊎ Rose (K.faults sink.old) (K.faults sink.new))) }
    ensures bad { job_of (map string_bytes words.now) ≡ Some jobs.Replay → result ≡ Status.BadInput
        → IfSome (S.left source.old)
        (DeliversReplay npos_machine true (K.told sink.old) (K.told sink.new)) }
    ensures bad_comes { job_of (map string_bytes words.now) ≡ Some jobs.Replay
        → IfSome (S.left source.old) (λ bytes.
        ComesWith npos_machine bytes true Status.BadInput result
        (Rose (S.faults source.old) (S.faults source.new)
        ⊎ Rose (K.faults sink.old) (K.faults sink.new))) }
    ensures no_verdict { job_of (map string_bytes words.now) ≡ Some jobs.Replay
        → result ≢ Status.No }
    ensures replay_front { job_of (map string_bytes words.now) ≡ Some jobs.Replay
        → IfSome (S.left source.old)
        (DeliversReplayFront npos_machine (K.told sink.old) (K.told sink.new)) }
{
    run(alloc, words, source, sink)
}
