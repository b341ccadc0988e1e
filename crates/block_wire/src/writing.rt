//! Writing the variants of enums: the tag, and then the fields.
ghost use Rattle.std.specs.Prelude.{◌∷◌, ◌++◌, length};
ghost use Rattle.std.specs.List.{AllByRecursion};
ghost use Rattle.scale_wire.specs.Compact.{compact_bytes};
ghost use Rattle.scale_wire.specs.Composite.{list_bytes};
ghost use Rattle.scale_wire.specs.Reading.{Writes};

use npos_base::{List, NoMemory};
use scale_wire::{Pen, Wire, write_bytes, write_fields, write_list, write_tag};

// A variant with one field, a list.
#[tactic(auto, using(scale_wire::proofs::ReadLemmas::writes_behind))]
pub(crate) fn write_listed<T: Wire>(tag: u8, items: &List<T>, pen: &mut Pen) -> Result<(), NoMemory>
    requires { AllByRecursion T.form.in_range items.now }
    ensures { Writes (tag ∷ list_bytes T.form items.now) pen.old result pen.new }
{
    write_tag(tag, pen)?;
    write_list(items, pen)
}

// A variant whose last field is a list of bytes.
#[tactic(auto, using(scale_wire::proofs::ReadLemmas::writes_behind))]
pub(crate) fn write_packed<T: Wire>(
    tag: u8,
    fields: &T,
    bytes: &List<u8>,
    pen: &mut Pen,
) -> Result<(), NoMemory>
    requires { T.form.in_range fields.now }
    ensures { Writes
        (tag ∷ (T.form.spelling fields.now ++ (compact_bytes (length bytes.now) ++ bytes.now)))
        pen.old result pen.new }
{
    write_fields(tag, fields, pen)?;
    write_bytes(bytes, pen)
}
