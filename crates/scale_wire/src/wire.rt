//! Values that have a spelling in SCALE.
ghost use Rattle.std.specs.Prelude.{◌≡◌, ◌+◌, [], ◌∷◌, ◌++◌, ◌<◌, ◌≤◌, ◌^◌, length, flat_map};
ghost use Rattle.std.specs.List.{AllByRecursion};
ghost use Rattle.scale_wire.specs.Form.{IsBytes, Form, IsWire};
ghost use Rattle.scale_wire.specs.Composite.{pair, list, list_bytes, byte_list};
ghost use Rattle.scale_wire.specs.Compact.{compact_bytes};
ghost use Rattle.scale_wire.specs.Writing.{Appends};
ghost use Rattle.scale_wire.specs.Reading.{Reads, Writes, ReadsWhole};
ghost use Rattle.scale_wire.specs.WholeReading.{AnswersAs};

use crate::fault::{ReadFault, Why, WireFault};
use crate::layout::{
    Layout, Own, read_list_by, read_option_by, write_both_by, write_list_by, write_option_by,
    write_three_by,
};
use crate::{Cursor, Pen};
use npos_base::{List, NoMemory};
use std::alloc::Global;

/// A type whose values are spelled in SCALE, the byte format of Substrate.
///
/// `form` says how a value is spelled, which values have a spelling, where and why other bytes are
/// refused, and how long a spelling is at most, if there is a bound; `laws` are what every such form
/// keeps (`IsWire`).
pub trait Wire: Drop {
    ghost form: { Form Self };

    ghost laws: { IsWire form };

    /// Appends the value's spelling. Where memory runs out, a front of it was appended.
    fn write(&self, pen: &mut Pen) -> Result<(), NoMemory>
        requires { form.in_range self.now }
        ensures { Writes (form.spelling self.now) pen.old result pen.new };

    /// Reads a value at the cursor's place and moves the cursor behind it, or refuses the bytes
    /// there.
    fn read(alloc: Global, cursor: &mut Cursor<'_>) -> Result<Self, ReadFault>
        ensures { Reads form cursor.old result cursor.new };
}

impl<A: Wire, B: Wire> Wire for (A, B) {
    ghost use Rattle.scale_wire.specs.Composite.{pair};
    ghost use Rattle.scale_wire.specs.FormLaws.{pair_laws};

    ghost form = { pair A.form B.form };

    ghost laws = { pair_laws A.form B.form A.laws B.laws };

    fn write(&self, pen: &mut Pen) -> Result<(), NoMemory> {
        write_both(&self.0, &self.1, pen)
    }

    fn read(alloc: Global, cursor: &mut Cursor<'_>) -> Result<(A, B), ReadFault> {
        <(Own, Own) as Layout<(A, B)>>::read(alloc, cursor)
    }
}

impl<A: Wire, B: Wire, C: Wire> Wire for (A, B, C) {
    ghost use Rattle.scale_wire.specs.Composite.{triple};
    ghost use Rattle.scale_wire.specs.FormLaws.{triple_laws};

    ghost form = { triple A.form B.form C.form };

    ghost laws = { triple_laws A.form B.form C.form A.laws B.laws C.laws };

    fn write(&self, pen: &mut Pen) -> Result<(), NoMemory> {
        write_three_by::<A, B, C, Own, Own, Own>(&self.0, &self.1, &self.2, pen)
    }

    fn read(alloc: Global, cursor: &mut Cursor<'_>) -> Result<(A, B, C), ReadFault> {
        <(Own, Own, Own) as Layout<(A, B, C)>>::read(alloc, cursor)
    }
}

impl<A: Wire> Wire for Option<A> {
    ghost use Rattle.scale_wire.specs.Composite.{optional};
    ghost use Rattle.scale_wire.specs.FormLaws.{optional_laws};
    ghost use Rattle.scale_wire.specs.PartLaws.{tag_laws};

    ghost form = { optional A.form };

    ghost laws = { optional_laws A.form A.laws (tag_laws 2) };

    fn write(&self, pen: &mut Pen) -> Result<(), NoMemory> {
        write_option_by::<A, Own>(self, pen)
    }

    fn read(alloc: Global, cursor: &mut Cursor<'_>) -> Result<Option<A>, ReadFault> {
        read_option_by::<A, Own>(alloc, cursor)
    }
}

/// Appends a tag, the number of a variant.
pub fn write_tag(tag: u8, pen: &mut Pen) -> Result<(), NoMemory>
    ensures { Appends (tag ∷ []) result pen.old pen.new }
{
    pen.put_bytes(&[tag])
}

/// Appends a variant: its tag, and then what its fields are together.
#[tactic(auto, using(crate::proofs::ReadLemmas::writes_behind))]
pub fn write_fields<T: Wire>(tag: u8, fields: &T, pen: &mut Pen) -> Result<(), NoMemory>
    requires { T.form.in_range fields.now }
    ensures { Writes (tag ∷ T.form.spelling fields.now) pen.old result pen.new }
{
    write_tag(tag, pen)?;
    fields.write(pen)
}

/// Appends the first and then the second, as a pair of the two is spelled.
pub fn write_both<A: Wire, B: Wire>(first: &A, second: &B, pen: &mut Pen) -> Result<(), NoMemory>
    requires { (pair A.form B.form).in_range (first.now, second.now) }
    ensures { Writes
        ((pair A.form B.form).spelling (first.now, second.now)) pen.old result pen.new }
{
    write_both_by::<A, B, Own, Own>(first, second, pen)
}

/// Reads a value that must be the whole input. The first byte behind it is refused as `Trailing`.
/// The bytes determine every answer but want of memory.
pub fn read_whole<T: Wire>(alloc: Global, bytes: &[u8]) -> Result<T, ReadFault>
    ensures grammar { ReadsWhole T.form bytes.now result }
    ensures function { AnswersAs T.form T.laws bytes.now result }
{
    read_to_end(alloc, bytes)
}

// The same by the grammar alone.
#[tactic(auto, using(crate::proofs::ReadLemmas::bad_whole))]
fn read_to_end<T: Wire>(alloc: Global, bytes: &[u8]) -> Result<T, ReadFault>
    ensures grammar { ReadsWhole T.form bytes.now result }
    ensures bytes { IsBytes bytes.now }
{
    let mut cursor = Cursor::new(bytes, 0);
    let value = T::read(alloc, &mut cursor)?;
    if cursor.rest().is_empty() {
        Ok(value)
    } else {
        Err(ReadFault::Wire(WireFault {
            at: cursor.at(),
            why: Why::Trailing,
        }))
    }
}

/// Reads a list of at most `limit` items.
pub fn read_list<T: Wire>(
    alloc: Global,
    cursor: &mut Cursor<'_>,
    limit: u32,
) -> Result<List<T>, ReadFault>
    ensures { Reads (list T.form limit) cursor.old result cursor.new }
{
    read_list_by::<T, Own>(alloc, cursor, limit)
}

/// Appends a list: its length and then its items.
pub fn write_list<T: Wire>(items: &List<T>, pen: &mut Pen) -> Result<(), NoMemory>
    requires { AllByRecursion T.form.in_range items.now }
    ensures { Writes (list_bytes T.form items.now) pen.old result pen.new }
{
    write_list_by::<T, Own>(items, pen)
}

/// Reads a list of at most `limit` bytes.
pub fn read_bytes(alloc: Global, cursor: &mut Cursor<'_>, limit: u32) -> Result<List<u8>, ReadFault>
    ensures { Reads (byte_list limit) cursor.old result cursor.new }
{
    let mut here = cursor.fork();
    let count = here.take_length(limit)?;
    let bytes = here.take_bytes(count as usize)?;
    let bytes = bytes.to_vec(alloc)?;
    *cursor = here;
    Ok(List::from_vec(bytes))
}

/// Appends a list of bytes: its length and then the bytes as they are.
pub fn write_bytes(bytes: &List<u8>, pen: &mut Pen) -> Result<(), NoMemory>
    ensures { Writes (compact_bytes (length bytes.now) ++ bytes.now) pen.old result pen.new }
{
    pen.put_compact(bytes.len() as u64)?;
    pen.put_bytes(bytes.as_slice())
}
