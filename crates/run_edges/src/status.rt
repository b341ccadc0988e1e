//! How a run ends.
ghost use Rattle.std.specs.Prelude.{◌≡◌};
ghost use Rattle.run_edges.specs.Status.{status_number, status_of};
ghost use Rattle.run_edges.specs.declared.status.Status.TheVariants as statuses;

use bundle_reports::Ending;
use npos_base::NoMemory;

/// How a run ended. Its number is the exit status of the program.
#[derive(Clone, Copy, Debug, PartialEq, Eq)]
pub enum Status {
    /// The job was done.
    Done,
    /// A verdict was not Yes.
    No,
    /// The words have no form. Nothing was read.
    Usage,
    /// The output ends with a fault line.
    BadInput,
    /// A read failed, and the run ended there.
    ReadFault,
    /// A write or the flush failed, and the run ended there.
    WriteFault,
    /// Memory was refused, and the run ended there.
    NoMemory,
}

impl Status {
    /// The number of the status, 0 to 6.
    pub fn number(&self) -> u8
        ensures { result ≡ status_number self.now }
    {
        match self {
            Status::Done => 0,
            Status::No => 1,
            Status::Usage => 2,
            Status::BadInput => 3,
            Status::ReadFault => 4,
            Status::WriteFault => 5,
            Status::NoMemory => 6,
        }
    }
}

impl From<NoMemory> for Status {
    ghost from_gives = { λ _ status. status ≡ statuses.NoMemory };

    fn from(_memory: NoMemory) -> Status {
        Status::NoMemory
    }
}

/// The status of a run whose report ends so.
pub fn status_of(ending: Ending) -> Status
    ensures { result ≡ status_of ending }
{
    match ending {
        Ending::Done => Status::Done,
        Ending::No => Status::No,
        Ending::BadInput => Status::BadInput,
    }
}
