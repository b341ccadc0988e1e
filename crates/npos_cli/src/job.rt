//! The jobs that commands ask for.
ghost use Rattle.std.specs.Prelude.{◌≡◌};
ghost use Rattle.npos_cli.specs.Words.{job_by};

use bundle_reports::Rewriting;
use election_work::Task;
use npos_words::Command;

/// What the program is to do.
#[derive(Clone, Copy, Debug, PartialEq, Eq)]
pub enum Job {
    /// To replay a stream.
    Replay,
    /// To read a bundle and to report on it.
    OnBundle(Task),
    /// To read a bundle and to write it in its other form.
    Rewrite(Rewriting),
    /// To report on the election that the seed generates. Nothing is read.
    Demo { seed: u64, voters: u32, seats: u32 },
    /// To replay a stream and to write the checkpoint behind its last block alone.
    Checkpoint,
    /// To go on from a checkpoint.
    Resume,
    /// To go through the input of a stake pool.
    Pools,
}

/// The job of a command.
pub fn job_of(command: Command) -> Job
    ensures { result ≡ job_by command }
{
    match command {
        Command::Replay => Job::Replay,
        Command::Check => Job::OnBundle(Task::Check),
        Command::Mine(miner) => Job::OnBundle(Task::Mine(miner)),
        Command::Pack => Job::Rewrite(Rewriting::Pack),
        Command::Show => Job::Rewrite(Rewriting::Show),
        Command::Demo {
            seed,
            voters,
            seats,
        } => Job::Demo {
            seed,
            voters,
            seats,
        },
        Command::Checkpoint => Job::Checkpoint,
        Command::Resume => Job::Resume,
        Command::Pools => Job::Pools,
    }
}
