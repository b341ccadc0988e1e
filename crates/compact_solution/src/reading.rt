//! Reading the groups of a solution.
ghost use Rattle.std.specs.Prelude.{◌≡◌, ◌<◌, ◌≤◌, ◌+◌, ◌*◌, ◌/◌, [], min, vec_capacity, IfOk};
ghost use Rattle.scale_wire.specs.Marked.{begins_with};
ghost use Rattle.scale_wire.specs.Composite.{items as items_of};
ghost use Rattle.scale_wire.specs.Reading.{Takes, Reads};
ghost use Rattle.compact_solution.specs.Solution.{share_form, entry_form, group_form, groups_form, solution_form};
ghost use Rattle.compact_solution.specs.Widths.{behind_mark};

use crate::entry::{Entry, Share, WIDE_GROUPS, WIDE_MARK, groups_in};
use npos_base::{List, MOST_VOTERS, NoMemory};
use scale_wire::Cursor;
use scale_wire::fault::{ReadFault, WireFault};
use std::alloc::Global;

// The groups of a solution: those of a wide one where the bytes begin with its mark, and those of a
// plain one otherwise.
pub(crate) fn read_solution(
    alloc: Global,
    cursor: &mut Cursor<'_>,
) -> Result<List<List<Entry>>, ReadFault>
    ensures { Reads solution_form cursor.old result cursor.new }
{
    let mut here = cursor.fork();
    let wide = take_mark(&mut here);
    let groups = read_groups(alloc, &mut here, groups_in(wide))?;
    *cursor = here;
    Ok(groups)
}

// Whether the bytes begin with the mark of a wide solution. Then the cursor moves behind it.
fn take_mark(cursor: &mut Cursor<'_>) -> bool
    ensures wide { result ≡ begins_with WIDE_MARK cursor.old.rest }
    ensures place { cursor.new ≡ behind_mark result cursor.old }
{
    let mut here = cursor.fork();
    let Ok(first) = here.take_u8() else {
        return false;
    };
    if first != WIDE_MARK {
        return false;
    }
    *cursor = here;
    true
}

// This many groups, one behind the other. The entries of the first have no share.
fn read_groups(
    alloc: Global,
    cursor: &mut Cursor<'_>,
    count: usize,
) -> Result<List<List<Entry>>, ReadFault>
    requires { count ≤ WIDE_GROUPS }
    ensures { Reads (groups_form count) cursor.old result cursor.new }
{
    let mut here = cursor.fork();
    let mut groups = Vec::with_capacity(alloc, count)?;
    for shares in 0..count {
        groups.push(read_group(alloc, &mut here, shares)?)?;
    }
    *cursor = here;
    Ok(List::from_vec(groups))
}

// The group whose entries have this many shares. Each voter of a snapshot can have an entry in it.
fn read_group(
    alloc: Global,
    cursor: &mut Cursor<'_>,
    shares: usize,
) -> Result<List<Entry>, ReadFault>
    requires { shares < WIDE_GROUPS }
    ensures { Reads (group_form shares) cursor.old result cursor.new }
{
    let mut here = cursor.fork();
    let count = here.take_length(MOST_VOTERS as u32)?;
    let entries = read_entries(alloc, &mut here, shares, count)?;
    *cursor = here;
    Ok(entries)
}

// This many entries.
fn read_entries(
    alloc: Global,
    cursor: &mut Cursor<'_>,
    shares: usize,
    count: u32,
) -> Result<List<Entry>, ReadFault>
    requires { shares < WIDE_GROUPS }
    ensures { Reads (items_of (entry_form shares) count) cursor.old result cursor.new }
{
    if shares == 0 {
        read_singles(alloc, cursor, count)
    } else {
        read_shared(alloc, cursor, shares, count)
    }
}

// Room for as many of so many entries as the bytes left can hold, at a byte for each number: an
// entry with this many shares has the voter, a target and a share each, and the last target.
fn room_for(alloc: Global, count: u32, left: usize, shares: usize) -> Result<Vec<Entry>, NoMemory>
    requires { shares < WIDE_GROUPS }
    ensures held { IfOk result (λ entries. 2 * vec_capacity entries ≤ left) }
    ensures room { IfOk result (λ entries.
        vec_capacity entries ≡ min (left / (2 * shares + 2)) count) }
    ensures empty { IfOk result (λ entries. entries.items ≡ []) }
{
    let room = (left / (2 * shares + 2)).min(count as usize);
    let entries = Vec::with_capacity(alloc, room)?;
    Ok(entries)
}

// This many entries of a single target. Room is made at once for those that the bytes left can
// hold, so none is wanting. A function by itself keeps what its loop
// needs in registers.
#[inline(never)]
fn read_singles(
    alloc: Global,
    cursor: &mut Cursor<'_>,
    count: u32,
) -> Result<List<Entry>, ReadFault>
    ensures { Reads (items_of (entry_form 0) count) cursor.old result cursor.new }
{
    let mut here = cursor.fork();
    let mut entries = room_for(alloc, count, here.rest().len(), 0)?;
    for _ in 0..count {
        entries.push_reserved(take_single(alloc, &mut here)?);
    }
    *cursor = here;
    Ok(List::from_vec(entries))
}

// An entry of a single target, which takes no memory.
fn take_single(alloc: Global, cursor: &mut Cursor<'_>) -> Result<Entry, WireFault>
    ensures { Takes (entry_form 0) cursor.old result cursor.new }
{
    let mut here = cursor.fork();
    let voter = here.take_compact_u32()?;
    let target = here.take_compact_u16()?;
    *cursor = here;
    Ok(Entry::new(voter, List::new(alloc), target))
}

// This many entries with shares. Room is made at once for those that the bytes left can hold.
fn read_shared(
    alloc: Global,
    cursor: &mut Cursor<'_>,
    shares: usize,
    count: u32,
) -> Result<List<Entry>, ReadFault>
    requires { shares < WIDE_GROUPS }
    ensures { Reads (items_of (entry_form shares) count) cursor.old result cursor.new }
{
    let mut here = cursor.fork();
    let mut entries = room_for(alloc, count, here.rest().len(), shares)?;
    for _ in 0..count {
        entries.push(read_entry(alloc, &mut here, shares)?)?;
    }
    *cursor = here;
    Ok(List::from_vec(entries))
}

// An entry with this many shares.
fn read_entry(alloc: Global, cursor: &mut Cursor<'_>, shares: usize) -> Result<Entry, ReadFault>
    requires { shares < WIDE_GROUPS }
    ensures { Reads (entry_form shares) cursor.old result cursor.new }
{
    let mut here = cursor.fork();
    let voter = here.take_compact_u32()?;
    let listed = read_shares(alloc, &mut here, shares)?;
    let last = here.take_compact_u16()?;
    *cursor = here;
    Ok(Entry::new(voter, listed, last))
}

// This many shares.
fn read_shares(
    alloc: Global,
    cursor: &mut Cursor<'_>,
    count: usize,
) -> Result<List<Share>, ReadFault>
    requires { count < WIDE_GROUPS }
    ensures { Reads (items_of share_form count) cursor.old result cursor.new }
{
    let mut here = cursor.fork();
    let mut shares = Vec::with_capacity(alloc, count)?;
    for _ in 0..count {
        shares.push_reserved(take_share(&mut here)?);
    }
    *cursor = here;
    Ok(List::from_vec(shares))
}

// A target and its share.
fn take_share(cursor: &mut Cursor<'_>) -> Result<Share, WireFault>
    ensures { Takes share_form cursor.old result cursor.new }
{
    let mut here = cursor.fork();
    let target = here.take_compact_u16()?;
    let parts = here.take_compact_u16()?;
    *cursor = here;
    Ok(Share { target, parts })
}
