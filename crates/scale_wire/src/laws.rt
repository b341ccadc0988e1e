//! What follows for every type that is spelled in SCALE. Each law is the clause of a function that
//! does nothing.
ghost use Rattle.scale_wire.specs.Form.{IsWire};
ghost use Rattle.scale_wire.specs.Compact.{IsLeast, least_bytes};
ghost use Rattle.scale_wire.specs.Parts.{fixed_u8, fixed_u32, fixed_u128, byte_string, tag_form, length_form};
ghost use Rattle.scale_wire.specs.Composite.{run};
ghost use Rattle.scale_wire.specs.Laws.{IsReadBack, IsDecided, IsDecidedWhole, FaultsPersist, NeverTrails, IsBounded};

use crate::Wire;

/// A value is read back from its spelling, whatever follows: no spelling begins another, and no two
/// values in range have one spelling.
pub fn values_are_read_back<T: Wire>()
    ensures { IsReadBack T.form }
{}

/// All bytes begin with the spelling of exactly one value in range, or are refused at exactly one
/// place and for exactly one reason.
pub fn bytes_are_decided<T: Wire>()
    ensures { IsDecided T.form }
{}

/// The same of a whole input, in which a byte behind the value is refused as `Trailing`.
pub fn whole_inputs_are_decided<T: Wire>()
    ensures { IsDecidedWhole T.form }
{}

/// A refusal that is not `Short` stands whatever follows.
pub fn faults_persist<T: Wire>()
    ensures { FaultsPersist T.form }
{}

/// No reader answers `Trailing`, which is for a byte behind a value that must be the whole input.
pub fn only_whole_inputs_trail<T: Wire>()
    ensures { NeverTrails T.form }
{}

/// No spelling is longer than the form's `longest`, and bytes that are refused as `Short` are fewer
/// than that. Of a form without a longest spelling, such as that of a run, nothing is said.
pub fn spellings_are_bounded<T: Wire>()
    ensures { IsBounded T.form }
{}

/// Numbers of one, four and sixteen bytes keep what every form keeps.
pub fn fixed_numbers_keep_the_laws()
    ensures one { IsWire fixed_u8 }
    ensures four { IsWire fixed_u32 }
    ensures sixteen { IsWire fixed_u128 }
{}

/// Strings of as many bytes keep what every form keeps.
pub fn byte_strings_keep_the_laws(count: usize)
    ensures { IsWire (byte_string count) }
{}

/// Tags below a number keep what every form keeps.
pub fn tags_keep_the_laws(below: u8)
    ensures { IsWire (tag_form below) }
{}

/// Lengths up to a limit keep what every form keeps.
pub fn lengths_keep_the_laws(limit: u32)
    ensures { IsWire (length_form limit) }
{}

/// Runs of items keep what every form keeps. They have no longest spelling.
pub fn runs_keep_the_laws<T: Wire>()
    ensures { IsWire (run T.form) }
{}

/// The value bytes of a compact integer in its longest mode are the fewest, from four on, that hold
/// it.
pub fn value_bytes_are_the_fewest(number: u64)
    ensures { IsLeast number (least_bytes number) }
{}
