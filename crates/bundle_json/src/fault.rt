//! Why a text is refused as the JSON of a bundle.

ghost use Rattle.bundle_json.specs.declared.fault.JsonFault.TheVariants.{NoMemory as NoMemoryFault};
ghost use Rattle.std.specs.Prelude.{◌≡◌};

use npos_base::NoMemory;
use thiserror::Error;

/// Why no bundle was read from a text.
#[derive(Clone, Copy, Debug, PartialEq, Eq, Error)]
pub enum JsonFault {
    /// The text has no reading as JSON.
    #[error("the text is no JSON")]
    Json,
    /// It has one, which is not of the shape of a bundle.
    #[error("the JSON has not the shape of a bundle")]
    Shape,
    /// There was no memory.
    #[error("out of memory")]
    NoMemory,
}

impl From<NoMemory> for JsonFault {
    ghost from_gives = { λ _ fault. fault ≡ NoMemoryFault };

    fn from(_error: NoMemory) -> JsonFault {
        JsonFault::NoMemory
    }
}
