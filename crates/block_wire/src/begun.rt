//! A block that is read from bytes which come by pieces. What was whole is kept, and its bytes are
//! let go: so the cost of a block does not depend on how it is cut, and no byte of it is held twice.
ghost use Rattle.std.specs.Prelude.{◌≡◌, ◌+◌, ◌^◌, ◌<◌, ◌≤◌, ◌++◌, length, vec_len, Err, MatchResult, IfSome, OnOk};
ghost use Rattle.std.specs.List.{AllByRecursion, flat_map};
ghost use Rattle.scale_wire.specs.Form.{IsBytes};
ghost use Rattle.scale_wire.specs.Reading.{Reads, Writes};
ghost use Rattle.block_wire.specs.Calls.{call_form};
ghost use Rattle.block_wire.specs.Begun.{next_form, begun_bytes, front_bytes, begun_size, ReadsHead, ReadsOn, Opens, GoesFurther, IsBegun, IsWholeBlock, Steps};

use crate::Call;
use crate::limits::MOST_CALLS;
use npos_base::NoMemory;
use scale_wire::fault::{ReadFault, WireFault};
use scale_wire::{Cursor, Pen, Wire, write_fields};
use std::alloc::Global;

/// A block whose calls were not all whole yet: its number, the count of its calls, those that were
/// whole, and the bytes that all this has.
#[derive(Drop)]
pub struct Begun {
    pub number: u32,
    pub count: u32,
    pub calls: Vec<Call>,
    pub size: usize,
}

/// What going on with a stream comes to, and how many of the bytes belong to it.
#[derive(Drop)]
pub enum Step {
    /// The None that ends the stream.
    Last,
    /// A block, all of whose calls were read.
    Whole(Begun, usize),
    /// The bytes are refused or memory ran out, and this much of a block is begun.
    Stopped(Option<Begun>, usize, ReadFault),
}

/// The number of the block that stands here and the count of its calls, if it is not the None.
#[tactic(auto, using(crate::proofs::BegunLemmas::heads))]
fn read_head(cursor: &mut Cursor<'_>) -> Result<Option<(u32, u32)>, WireFault>
    ensures { ReadsHead cursor.old result cursor.new }
{
    let tag = cursor.take_tag(2)?;
    if tag == 0 {
        return Ok(None);
    }
    let number = cursor.take_compact_u32()?;
    let count = cursor.take_length(MOST_CALLS)?;
    Ok(Some((number, count)))
}

/// Begins what stands at this place: a block, of which no call is read yet, or the None.
#[tactic(auto, using(crate::proofs::BegunLemmas::opened_none, crate::proofs::BegunLemmas::opened))]
fn open_block(alloc: Global, bytes: &[u8], at: u64) -> Result<Option<Begun>, ReadFault>
    requires { at + length bytes.now < 2 ^ 64 }
    ensures { Opens (record { at = at; rest = bytes.now }) result }
{
    let mut here = Cursor::new(bytes, at);
    let Some((number, count)) = read_head(&mut here)? else {
        return Ok(None);
    };
    let calls = Vec::with_capacity(alloc, count as usize)?;
    let size = (here.at() - at) as usize;
    Ok(Some(Begun {
        number,
        count,
        calls,
        size,
    }))
}

/// Reads items until there are as many, or until one is refused or memory runs out, and leaves the
/// cursor behind the last that was read.
#[tactic(auto, using(crate::proofs::BegunLemmas::no_more, crate::proofs::BegunLemmas::on_more))]
pub fn read_on<T: Wire>(
    alloc: Global,
    items: &mut Vec<T>,
    count: u32,
    cursor: &mut Cursor<'_>,
) -> Result<(), ReadFault>
    requires { vec_len items.old ≤ count }
    ensures on { ReadsOn T.form items.old.items cursor.old items.new.items cursor.new }
    ensures few { vec_len items.new ≤ count }
    ensures forward { cursor.old.at ≤ cursor.new.at }
    ensures stopped { MatchResult result (λ _. length items.new.items ≡ count)
        (λ fault. (length items.new.items < count)
        × Reads T.form cursor.new (Err fault) cursor.new) }
{
    'items: while items.len() < count as usize {
        let mut here = cursor.fork();
        let item = T::read(alloc, &mut here)?;
        items.push(item)?;
        *cursor = here;
    }
    Ok(())
}

/// How many bytes what was begun has.
pub fn size_of(begun: &Option<Begun>) -> usize
    ensures { result ≡ begun_size begun.now }
{
    match begun {
        Some(begun) => begun.size,
        None => 0,
    }
}

/// Appends the items, one behind the other.
#[tactic(auto, using(scale_wire::proofs::ListLemmas::items_front))]
fn write_each<T: Wire>(items: &[T], pen: &mut Pen) -> Result<(), NoMemory>
    requires { AllByRecursion T.form.in_range items.now }
    ensures { Writes (flat_map T.form.spelling items.now) pen.old result pen.new }
{
    for item in items {
        item.write(pen)?;
    }
    Ok(())
}

/// Appends the bytes of what was begun.
pub fn write_begun(begun: &Begun, pen: &mut Pen) -> Result<(), NoMemory>
    requires { AllByRecursion call_form.in_range begun.now.calls.items }
    ensures { OnOk result (pen.new ≡ pen.old ++ begun_bytes begun.now) }
{
    let number = begun.number;
    write_fields(1, &number, pen)?;
    pen.put_compact(u64::from(begun.count))?;
    write_each(begun.calls.as_slice(), pen)
}

/// Reads the calls that are left of a block, or as many as are whole, from the bytes behind what was
/// begun. The block stands at this place.
fn fill(alloc: Global, begun: &mut Begun, bytes: &[u8], at: u64) -> Result<(), ReadFault>
    requires fits { at + (begun.old.size + length bytes.now) < 2 ^ 64 }
    requires begun { IsBegun begun.old
        (record { at = at; rest = begun_bytes begun.old ++ bytes.now }) }
    ensures begun { IsBegun begun.new
        (record { at = at; rest = begun_bytes begun.old ++ bytes.now }) }
    ensures grows { begun.old.size ≤ begun.new.size }
    ensures filled { MatchResult result
        (λ _. IsWholeBlock begun.new (record { at = at; rest = begun_bytes begun.old ++ bytes.now }))
        (λ fault. Reads next_form (record { at = at; rest = begun_bytes begun.old ++ bytes.now })
        (Err fault) (record { at = at; rest = begun_bytes begun.old ++ bytes.now })) }
{
    let mut here = Cursor::new(bytes, at + begun.size as u64);
    let read = read_on(alloc, &mut begun.calls, begun.count, &mut here);
    begun.size = (here.at() - at) as usize;
    read
}

/// The block that was begun, or else the one that begins here, if it is not the None.
fn begin(
    alloc: Global,
    begun: Option<Begun>,
    bytes: &[u8],
    at: u64,
) -> Result<Option<Begun>, ReadFault>
    requires fits { at + (begun_size begun + length bytes.now) < 2 ^ 64 }
    requires begun { IfSome begun (λ some.
        IsBegun some (record { at = at; rest = begun_bytes some ++ bytes.now })) }
    ensures opens { Opens (record { at = at; rest = front_bytes begun ++ bytes.now }) result }
    ensures further { GoesFurther begun result }
{
    match begun {
        Some(begun) => Ok(Some(begun)),
        None => open_block(alloc, bytes, at),
    }
}

/// Goes on with the block that was begun, whose other bytes these are, or begins what stands at this
/// place.
pub fn go_on(alloc: Global, begun: Option<Begun>, bytes: &[u8], at: u64) -> Step
    requires fits { at + (begun_size begun + length bytes.now) < 2 ^ 64 }
    requires begun { IfSome begun (λ some.
        IsBegun some (record { at = at; rest = begun_bytes some ++ bytes.now })) }
    requires are_bytes { IsBytes (front_bytes begun) }
    ensures steps { Steps begun at bytes.now result }
    ensures bytes { IsBytes bytes.now }
{
    let before = size_of(&begun);
    let mut begun = match begin(alloc, begun, bytes, at) {
        Ok(Some(begun)) => begun,
        Ok(None) => return Step::Last,
        Err(fault) => return Step::Stopped(None, 0, fault),
    };
    let (_, rest) = bytes.split_at(begun.size - before);
    let read = fill(alloc, &mut begun, rest, at);
    let taken = begun.size - before;
    match read {
        Ok(()) => Step::Whole(begun, taken),
        Err(fault) => Step::Stopped(Some(begun), taken, fault),
    }
}
