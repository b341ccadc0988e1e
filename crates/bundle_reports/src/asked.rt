//! What is asked of the bytes of a bundle besides what is to be made of its election.

/// The form in which a bundle is written.
#[derive(Clone, Copy, Debug, PartialEq, Eq)]
pub enum Rewriting {
    /// In SCALE; it is read in JSON.
    Pack,
    /// In JSON; it is read in SCALE.
    Show,
}
