//! What follows for all bundles. Each law is the clause of a function that does nothing, or no
//! more than the calls that it speaks of.
ghost use Rattle.std.specs.Prelude.{◌≡◌, IfOk, IfErr};
ghost use Rattle.block_wire.specs.Bundles.{bundle_form};
ghost use Rattle.bundle_json.specs.Laws.{StandsForItself, ReadsAsWritten, LineStands, IsInRange};
ghost use Rattle.bundle_json.specs.Limits.{AreTheLimits};

use crate::{JsonFault, bundle_from_json, bundle_to_json};
use block_wire::Bundle;
use std::alloc::Global;

/// The value that a bundle in range is written as stands for that bundle, and its text reads as
/// that value. With a line feed behind it, the text still stands for the bundle.
pub fn written_bundles_stand()
    ensures shape { StandsForItself }
    ensures text { ReadsAsWritten }
    ensures line { LineStands }
{}

/// No JSON stands for a bundle out of range.
pub fn bundles_of_json_are_in_range()
    ensures { IsInRange }
{}

/// Reads what is written of the bundle: the same bundle, unless memory is wanting.
pub fn reread(alloc: Global, bundle: &Bundle) -> Result<Bundle, JsonFault>
    requires { bundle_form.in_range bundle.now }
    ensures same { IfOk result (λ back. back ≡ bundle.now) }
    ensures fault { IfErr result (λ fault. fault ≡ JsonFault.NoMemory) }
{
    let text = bundle_to_json(alloc, bundle)?;
    bundle_from_json(alloc, text.as_slice())
}

/// The limits that the code names are these numbers.
pub fn the_limits_are_these()
    ensures { AreTheLimits }
{}
