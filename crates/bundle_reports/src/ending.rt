//! How a report ends.

/// How a report on a bundle ends.
#[derive(Clone, Copy, Debug, PartialEq, Eq)]
pub enum Ending {
    /// What was asked is done: where it has a verdict, that is Yes.
    Done,
    /// The verdict is not Yes, or a member is lost as weights are packed.
    No,
    /// The report is a fault line.
    BadInput,
}
