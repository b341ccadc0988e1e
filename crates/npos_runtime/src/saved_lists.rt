//! Copies of the lists that a chain keeps.
ghost use Rattle.std.specs.Prelude.{◌≡◌, map, IfOk};
ghost use Rattle.npos_runtime.specs.Kept.State.{queue_row};

use era_book::DeferredSlash;
use npos_base::{List, NoMemory};
use state_rules::QueueRow;
use std::alloc::Global;
use submission_queue::Submission;

/// A copy of the items.
pub fn copied<T: Copy>(alloc: Global, items: &[T]) -> Result<List<T>, NoMemory>
    ensures { IfOk result (λ copy. copy ≡ items.now) }
{
    let copy = Vec::from_slice(alloc, items)?;
    Ok(List::from_vec(copy))
}

/// A submission that waits, without its deposit.
fn queue_row(alloc: Global, item: &Submission) -> Result<QueueRow, NoMemory>
    ensures { IfOk result (λ row. row ≡ queue_row item.now) }
{
    let bytes = copied(alloc, item.bytes.as_slice())?;
    Ok(QueueRow {
        number: item.number,
        who: item.who,
        score: item.score,
        bytes,
    })
}

/// The submissions that wait, by rank.
pub fn queue_rows(alloc: Global, items: &[Submission]) -> Result<List<QueueRow>, NoMemory>
    ensures { IfOk result (λ rows. rows ≡ map queue_row items.now) }
{
    let mut rows = List::new(alloc);
    for item in items {
        let row = queue_row(alloc, item)?;
        rows.put(row)?;
    }
    Ok(rows)
}

/// A copy of a slash that waits.
fn slash_copy(alloc: Global, slash: &DeferredSlash) -> Result<DeferredSlash, NoMemory>
    ensures { IfOk result (λ copy. copy ≡ slash.now) }
{
    let lines = copied(alloc, slash.lines.as_slice())?;
    Ok(DeferredSlash {
        number: slash.number,
        due: slash.due,
        lines,
    })
}

/// A copy of the slashes that wait, by rising number.
pub fn slash_rows(alloc: Global, slashes: &[DeferredSlash]) -> Result<List<DeferredSlash>, NoMemory>
    ensures { IfOk result (λ copies. copies ≡ slashes.now) }
{
    let mut copies = List::new(alloc);
    for slash in slashes {
        let copy = slash_copy(alloc, slash)?;
        copies.put(copy)?;
    }
    Ok(copies)
}
