//! What the stream's types are bounded by. Each law is the clause of a function that does nothing.
//! That every type here has one spelling for each value, and one reading or one fault for all
//! bytes, is said for each `Wire` by the laws of `scale_wire`.
ghost use Rattle.std.specs.Prelude.{◌<◌, ◌^◌};
ghost use Rattle.scale_wire.specs.Form.{IsWire, IsShorter};
ghost use Rattle.scale_wire.specs.Composite.{optional};
ghost use Rattle.block_wire.specs.Genesis.{genesis_form};
ghost use Rattle.block_wire.specs.Calls.{block_form};
ghost use Rattle.block_wire.specs.Limits.{AreTheLimits};

/// A genesis keeps what every type that is spelled in SCALE keeps, and no spelling of one has 2^23
/// bytes.
pub fn a_genesis_is_bounded()
    ensures keeps { IsWire genesis_form }
    ensures longest { IsShorter genesis_form (2 ^ 23) }
{}

/// The same of an Option of a block, and 2^28.
pub fn an_option_of_a_block_is_bounded()
    ensures keeps { IsWire (optional block_form) }
    ensures longest { IsShorter (optional block_form) (2 ^ 28) }
{}

/// The limits that the code names are these numbers.
pub fn the_limits_are_these()
    ensures { AreTheLimits }
{}
