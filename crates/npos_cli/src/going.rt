//! What is made of an input that was read whole, item by item.
ghost use Rattle.std.specs.Prelude.{◌≡◌};
ghost use Rattle.run_edges.specs.Status.{status_of};

use bundle_reports::{Answer, Ending};
use run_edges::Status;

/// What reading the next item came to.
pub enum Turn {
    /// An item was taken.
    Taken,
    /// The input ended here, with a fault line or not.
    Last { faulty: bool },
}

/// A text that ends with a fault line.
pub fn faulty(text: Vec<u8>) -> Answer
    ensures text { result.text.items ≡ text.items }
    ensures status { status_of result.ending ≡ Status.BadInput }
{
    Answer {
        text,
        ending: Ending::BadInput,
    }
}
