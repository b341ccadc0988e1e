//! What is made of an input that is read by pieces, turn by turn.

/// Where the reader of what is held stops.
#[derive(Clone, Copy, Debug, PartialEq, Eq)]
pub enum Stop {
    /// Bytes are missing, and more may come.
    More,
    /// The replay ended, with a fault line or not.
    Last { faulty: bool },
}

/// What a turn of the reader came to.
#[derive(Clone, Copy, Debug, PartialEq, Eq)]
pub enum Turn {
    /// A block or an item was taken.
    Taken,
    Stopped(Stop),
}
