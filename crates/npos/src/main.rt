//! `npos`: replays a chain's staking from standard input to standard output.
#![tactic(auto)]

ghost use Rattle.std.specs.Prelude.{◌≡◌, ◌⊎◌, ◌≤◌, map, IfOk, IfErr, string_bytes};
ghost use Rattle.std.specs.Vec.Iter.{into_iter_items};
ghost use Rattle.std.specs.Process.{exit_status};
ghost use Rattle.run_edges.specs.declared.status.Status.{Status};
ghost use Rattle.run_edges.specs.Status.{status_number};
ghost use Rattle.npos_cli.specs.Ran.{traffic, calls};
ghost use Rattle.npos_cli.specs.Says.{Says};

use npos_base::{NoMemory, Sink, Source, StdinSource, StdoutSink};
use npos_cli::{Status, run};
use std::alloc::Global;
use std::env;
use std::env::Args;
use std::io::ErrorKind;
use std::process::ExitCode;

/// The exit status where a word of the command line cannot be had. `run` never answers it.
const NO_WORDS: u8 = 7;

/// Blocks up to this size are kept. Larger ones still go back to the system, so that no run holds
/// much that it does not use.
const KEPT_BLOCK: usize = 2_000_000;

/// The same where work is checked or mined: the edges of 16,384 voters, 262,144 at most, take
/// 4 MB, and they come where the bytes of the bundle were.
const KEPT_FOR_EDGES: usize = 4_300_000;

/// Up to which size blocks are kept in a run over these words, of which the first is the program's.
fn kept_block(words: &Result<Vec<String>, u8>) -> usize {
    let Ok(words) = words else {
        return KEPT_BLOCK;
    };
    match words.get(1) {
        Some(verb) if verb.as_str() == "check" || verb.as_str() == "mine" => KEPT_FOR_EDGES,
        _ => KEPT_BLOCK,
    }
}

/// Asks for a large block and gives it back at once, untouched. The C library then takes blocks of
/// that size as something that comes and goes, and keeps what is given back for what is asked for
/// next. Else each list of some length is laid into new pages, and such a page costs more when it
/// is touched first than all that is written to it. Nothing rests on this: where the block is
/// refused, nothing happens.
fn expect_large_blocks(alloc: Global, size: usize) {
    let _ = Vec::<u8>::with_capacity(alloc, size);
}

/// The words, each in its place; or the exit status where there is no memory for their list.
fn collected(alloc: Global, args: Args) -> Result<Vec<String>, u8>
    ensures all { IfOk result (λ words. words.items ≡ into_iter_items args) }
    ensures memory { IfErr result (λ number. number ≡ 6) }
{
    let mut words = Vec::new(alloc);
    for word in args {
        if let Err(refused) = words.push(word) {
            return Err(Status::from(NoMemory::from(refused)).number());
        }
    }
    Ok(words)
}

/// The words of the command line, or the exit status where they cannot be had.
fn words(rt: &HostRuntime) -> Result<Vec<String>, u8>
    ensures number { IfErr result (λ number. (number ≡ 6) ⊎ (number ≡ 7)) }
{
    match env::args(rt) {
        Ok(args) => collected(rt.alloc(), args),
        Err(error) if error.kind() == ErrorKind::OutOfMemory => Err(Status::NoMemory.number()),
        Err(_) => Err(NO_WORDS),
    }
}

/// Runs the program over its words and ends with the number of its status, of which all holds that
/// `run` says. Where there are no words it ends with the status that says why, and reads and writes
/// nothing.
fn finish<S: Source, K: Sink>(
    alloc: Global,
    words: Result<Vec<String>, u8>,
    source: &mut S,
    sink: &mut K,
) -> ExitCode
    requires { IfErr words (λ number. number ≤ 7) }
    ensures within { exit_status result ≤ 7 }
    ensures says { IfOk words (λ words. (status : Status)
        × (exit_status result ≡ status_number status)
        × Says (map string_bytes words.items) (traffic S.left K.told S.faults K.faults
        source.old source.new sink.old sink.new)
        (calls S.asked K.tried source.old source.new sink.old sink.new) (source.new ≡ source.old) (sink.new ≡ sink.old)
        status) }
    ensures no_words { IfErr words (λ number. (exit_status result ≡ number)
        × (source.new ≡ source.old) × (sink.new ≡ sink.old)) }
{
    match words {
        Ok(words) => ExitCode::from(run(alloc, words.as_slice(), source, sink).number()),
        Err(number) => ExitCode::from(number),
    }
}

// No statement speaks of the words that the system holds, so what is trusted here is that `finish`
// gets them, and the two standard streams.
fn main(rt: HostRuntime) -> ExitCode {
    let words = words(&rt);
    expect_large_blocks(rt.alloc(), kept_block(&words));
    let mut source = StdinSource::new(rt.stdin());
    let mut sink = StdoutSink::new(rt.stdout());
    finish(rt.alloc(), words, &mut source, &mut sink)
}
