//! What cuts a run off.
ghost use Rattle.std.specs.Prelude.{◌≡◌};
ghost use Rattle.run_edges.specs.Status.{end_of};
ghost use Rattle.run_edges.specs.declared.halt.Halt.TheVariants as halts;

use crate::Status;
use npos_base::NoMemory;

/// What cuts a run off before it has an answer.
#[derive(Clone, Copy, Debug, PartialEq, Eq)]
pub enum Halt {
    /// A read failed.
    ReadFault,
    /// A write or the flush failed.
    WriteFault,
    /// Memory was refused.
    NoMemory,
}

impl From<NoMemory> for Halt {
    ghost from_gives = { λ _ halt. halt ≡ halts.NoMemory };

    fn from(_memory: NoMemory) -> Halt {
        Halt::NoMemory
    }
}

/// The status of a run that has this answer, or was cut off.
pub fn end_of(run: Result<Status, Halt>) -> Status
    ensures { result ≡ end_of run }
{
    match run {
        Ok(status) => status,
        Err(Halt::ReadFault) => Status::ReadFault,
        Err(Halt::WriteFault) => Status::WriteFault,
        Err(Halt::NoMemory) => Status::NoMemory,
    }
}
