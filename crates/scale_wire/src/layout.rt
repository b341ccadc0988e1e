//! Ways to spell values, also of types that stand in other crates than their spelling.
ghost use Rattle.std.specs.Prelude.{◌≡◌, ◌∷◌, flat_map};
ghost use Rattle.std.specs.List.{AllByRecursion};
ghost use Rattle.scale_wire.specs.Form.{Form};
ghost use Rattle.scale_wire.specs.Composite.{pair, triple, items as items_of, list, list_bytes, optional, optional_bytes, run, run_bytes, turns_bytes};
ghost use Rattle.scale_wire.specs.Reading.{Reads, Writes};

use crate::fault::ReadFault;
use crate::wire::{Wire, write_tag};
use crate::{Cursor, Pen};
use npos_base::{List, NoMemory};
use std::alloc::Global;

/// A way to spell the values of a type. It has no values of its own that matter: a layout is named
/// where a type alone would not do, since the crate of the type knows nothing of its spelling.
pub trait Layout<V: Drop> {
    ghost form: { Form V };

    /// Appends the value's spelling. Where memory runs out, a front of it was appended.
    fn write(value: &V, pen: &mut Pen) -> Result<(), NoMemory>
        requires { form.in_range value.now }
        ensures { Writes (form.spelling value.now) pen.old result pen.new };

    /// Reads a value at the cursor's place and moves the cursor behind it, or refuses the bytes
    /// there.
    fn read(alloc: Global, cursor: &mut Cursor<'_>) -> Result<V, ReadFault>
        ensures { Reads form cursor.old result cursor.new };
}

/// The layout of a type that has its own.
pub struct Own;

impl<T: Wire> Layout<T> for Own {
    ghost form = { T.form };

    fn write(value: &T, pen: &mut Pen) -> Result<(), NoMemory> {
        value.write(pen)
    }

    fn read(alloc: Global, cursor: &mut Cursor<'_>) -> Result<T, ReadFault> {
        T::read(alloc, cursor)
    }
}

impl<V: Drop, W: Drop, L: Layout<V>, M: Layout<W>> Layout<(V, W)> for (L, M) {
    ghost use Rattle.scale_wire.specs.Composite.{pair};

    ghost form = { pair L.form M.form };

    fn write(value: &(V, W), pen: &mut Pen) -> Result<(), NoMemory> {
        write_both_by::<V, W, L, M>(&value.0, &value.1, pen)
    }

    #[tactic(auto, using(crate::proofs::ReadLemmas::pair_err))]
    fn read(alloc: Global, cursor: &mut Cursor<'_>) -> Result<(V, W), ReadFault> {
        let mut here = cursor.fork();
        let first = L::read(alloc, &mut here)?;
        let second = M::read(alloc, &mut here)?;
        *cursor = here;
        Ok((first, second))
    }
}

impl<V: Drop, W: Drop, X: Drop, L: Layout<V>, M: Layout<W>, N: Layout<X>> Layout<(V, W, X)>
    for (L, M, N) {
    ghost use Rattle.scale_wire.specs.Composite.{triple};

    ghost form = { triple L.form M.form N.form };

    fn write(value: &(V, W, X), pen: &mut Pen) -> Result<(), NoMemory> {
        write_three_by::<V, W, X, L, M, N>(&value.0, &value.1, &value.2, pen)
    }

    #[tactic(auto, using(crate::proofs::ReadLemmas::triple_err))]
    fn read(alloc: Global, cursor: &mut Cursor<'_>) -> Result<(V, W, X), ReadFault> {
        let mut here = cursor.fork();
        let first = L::read(alloc, &mut here)?;
        let (second, third) = <(M, N) as Layout<(W, X)>>::read(alloc, &mut here)?;
        *cursor = here;
        Ok((first, second, third))
    }
}

/// The layout of a list that has at most `LIMIT` items of one layout.
pub struct ListOf<L, const LIMIT: u32> {
    item: L,
}

impl<V: Drop, L: Layout<V>, const LIMIT: u32> Layout<List<V>> for ListOf<L, LIMIT> {
    ghost use Rattle.scale_wire.specs.Composite.{list};

    ghost form = { list L.form LIMIT };

    fn write(items: &List<V>, pen: &mut Pen) -> Result<(), NoMemory> {
        write_list_by::<V, L>(items, pen)
    }

    fn read(alloc: Global, cursor: &mut Cursor<'_>) -> Result<List<V>, ReadFault> {
        read_list_by::<V, L>(alloc, cursor, LIMIT)
    }
}

/// The layout of a run, a list of any number of items of one layout: the items, each behind a tag 1,
/// and then a tag 0.
pub struct RunOf<L> {
    item: L,
}

impl<V: Drop, L: Layout<V>> Layout<List<V>> for RunOf<L> {
    ghost use Rattle.scale_wire.specs.Composite.{run};

    ghost form = { run L.form };

    #[tactic(auto, using(crate::proofs::ReadLemmas::front_more, crate::proofs::ReadLemmas::writes_behind))]
    fn write(items: &List<V>, pen: &mut Pen) -> Result<(), NoMemory> {
        write_turns::<V, L>(items.as_slice(), pen)?;
        write_tag(0, pen)
    }

    fn read(alloc: Global, cursor: &mut Cursor<'_>) -> Result<List<V>, ReadFault> {
        let mut here = cursor.fork();
        let mut items = Vec::new(alloc);
        while let Some(item) = read_option_by::<V, L>(alloc, &mut here)? {
            items.push(item)?;
        }
        *cursor = here;
        Ok(List::from_vec(items))
    }
}

/// The layout of what may be missing: a tag 0, or a tag 1 and the value.
pub struct OptionOf<L> {
    value: L,
}

impl<V: Drop, L: Layout<V>> Layout<Option<V>> for OptionOf<L> {
    ghost use Rattle.scale_wire.specs.Composite.{optional};

    ghost form = { optional L.form };

    fn write(value: &Option<V>, pen: &mut Pen) -> Result<(), NoMemory> {
        write_option_by::<V, L>(value, pen)
    }

    fn read(alloc: Global, cursor: &mut Cursor<'_>) -> Result<Option<V>, ReadFault> {
        read_option_by::<V, L>(alloc, cursor)
    }
}

/// Appends the first and then the second, as a pair of the two is spelled.
pub fn write_both_by<V: Drop, W: Drop, L: Layout<V>, M: Layout<W>>(
    first: &V,
    second: &W,
    pen: &mut Pen,
) -> Result<(), NoMemory>
    requires { (pair L.form M.form).in_range (first.now, second.now) }
    ensures { Writes
        ((pair L.form M.form).spelling (first.now, second.now)) pen.old result pen.new }
{
    L::write(first, pen)?;
    M::write(second, pen)
}

/// Appends the first, the second and the third, as a triple of the three is spelled.
#[tactic(auto, using(crate::proofs::ReadLemmas::front_more))]
pub fn write_three_by<V: Drop, W: Drop, X: Drop, L: Layout<V>, M: Layout<W>, N: Layout<X>>(
    first: &V,
    second: &W,
    third: &X,
    pen: &mut Pen,
) -> Result<(), NoMemory>
    requires { (triple L.form M.form N.form).in_range (first.now, second.now, third.now) }
    ensures { Writes
        ((triple L.form M.form N.form).spelling (first.now, second.now, third.now))
        pen.old result pen.new }
{
    L::write(first, pen)?;
    write_both_by::<W, X, M, N>(second, third, pen)
}

// A tag 0, or a tag 1 and the value.
pub(crate) fn write_option_by<V: Drop, L: Layout<V>>(
    value: &Option<V>,
    pen: &mut Pen,
) -> Result<(), NoMemory>
    requires { (optional L.form).in_range value.now }
    ensures { Writes (optional_bytes L.form value.now) pen.old result pen.new }
{
    match value {
        None => write_tag(0, pen),
        Some(value) => write_turn::<V, L>(value, pen),
    }
}

// A tag 1 and the item.
#[tactic(auto, using(crate::proofs::ReadLemmas::writes_behind))]
fn write_turn<V: Drop, L: Layout<V>>(item: &V, pen: &mut Pen) -> Result<(), NoMemory>
    requires { L.form.in_range item.now }
    ensures { Writes (1 ∷ L.form.spelling item.now) pen.old result pen.new }
{
    write_tag(1, pen)?;
    L::write(item, pen)
}

// A tag below 2, and a value behind the tag 1.
pub(crate) fn read_option_by<V: Drop, L: Layout<V>>(
    alloc: Global,
    cursor: &mut Cursor<'_>,
) -> Result<Option<V>, ReadFault>
    ensures { Reads (optional L.form) cursor.old result cursor.new }
{
    let mut here = cursor.fork();
    let tag = here.take_tag(2)?;
    let value = if tag == 0 {
        None
    } else {
        Some(L::read(alloc, &mut here)?)
    };
    *cursor = here;
    Ok(value)
}

// The length and then the items.
#[tactic(auto, using(crate::proofs::ReadLemmas::writes_behind))]
pub(crate) fn write_list_by<V: Drop, L: Layout<V>>(
    items: &List<V>,
    pen: &mut Pen,
) -> Result<(), NoMemory>
    requires { AllByRecursion L.form.in_range items.now }
    ensures { Writes (list_bytes L.form items.now) pen.old result pen.new }
{
    pen.put_compact(items.len() as u64)?;
    write_items::<V, L>(items.as_slice(), pen)
}

// A length of at most `limit`, and then as many items.
pub(crate) fn read_list_by<V: Drop, L: Layout<V>>(
    alloc: Global,
    cursor: &mut Cursor<'_>,
    limit: u32,
) -> Result<List<V>, ReadFault>
    ensures { Reads (list L.form limit) cursor.old result cursor.new }
{
    let mut here = cursor.fork();
    let count = here.take_length(limit)?;
    let items = read_items::<V, L>(alloc, &mut here, count)?;
    *cursor = here;
    Ok(items)
}

// Reads this many items. Room for them is made at once where as many bytes are left.
fn read_items<V: Drop, L: Layout<V>>(
    alloc: Global,
    cursor: &mut Cursor<'_>,
    count: u32,
) -> Result<List<V>, ReadFault>
    ensures { Reads (items_of L.form count) cursor.old result cursor.new }
{
    let mut here = cursor.fork();
    let room = here.rest().len().min(count as usize);
    let mut items = Vec::with_capacity(alloc, room)?;
    for _ in 0..count {
        let item = L::read(alloc, &mut here)?;
        items.push(item)?;
    }
    *cursor = here;
    Ok(List::from_vec(items))
}

// The items, one behind the other.
#[tactic(auto, using(crate::proofs::ListLemmas::items_front))]
fn write_items<V: Drop, L: Layout<V>>(items: &[V], pen: &mut Pen) -> Result<(), NoMemory>
    requires { AllByRecursion L.form.in_range items.now }
    ensures { Writes (flat_map L.form.spelling items.now) pen.old result pen.new }
{
    for item in items {
        L::write(item, pen)?;
    }
    Ok(())
}

// The items, each behind a tag 1.
#[tactic(auto, using(crate::proofs::ListLemmas::turns_front))]
fn write_turns<V: Drop, L: Layout<V>>(items: &[V], pen: &mut Pen) -> Result<(), NoMemory>
    requires { AllByRecursion L.form.in_range items.now }
    ensures { Writes (turns_bytes L.form items.now) pen.old result pen.new }
{
    for item in items {
        write_turn::<V, L>(item, pen)?;
    }
    Ok(())
}
