//! The eras that are kept, as rows.
ghost use Rattle.std.specs.Prelude.{◌≡◌, ◌++◌, map, IfOk, OnOk};
ghost use Rattle.era_book.specs.Eras.{members_in};
ghost use Rattle.era_book.specs.Records.{entry_from};
ghost use Rattle.npos_runtime.specs.Kept.State.{member_row, era_row, era_rows};

use era_book::{EraBook, Exposure, MemberRecord};
use npos_base::{List, MOST_PAST_ERAS, NoMemory};
use state_rules::{EraRow, MemberRow};
use std::alloc::Global;

/// A member as a row, which needs no support: it is the sum of what the backers give.
fn member_row(value: MemberRecord) -> MemberRow
    ensures { result ≡ member_row (entry_from value) }
{
    let MemberRecord {
        exposure,
        points,
        claimed,
        fraction,
    } = value;
    let Exposure {
        validator,
        commission,
        support: _,
        backers,
    } = exposure;
    MemberRow {
        who: validator,
        commission,
        backers,
        points,
        claimed,
        fraction,
    }
}

/// The members of an era, which move into their rows.
fn member_rows(alloc: Global, values: List<MemberRecord>) -> Result<List<MemberRow>, NoMemory>
    ensures { IfOk result (λ rows. rows ≡ map member_row (map entry_from values)) }
{
    let mut rows = List::new(alloc);
    for value in values.into_vec() {
        rows.put(member_row(value))?;
    }
    Ok(rows)
}

/// Appends the row of an era. An era without members has none.
fn put_era(alloc: Global, rows: &mut List<EraRow>, eras: &EraBook, era: u32) -> Result<(), NoMemory>
    ensures { OnOk result (rows.new ≡ rows.old ++ era_row era (members_in eras.now era)) }
{
    let values = eras.era_members(alloc, era)?;
    if values.is_empty() {
        return Ok(());
    }
    let members = member_rows(alloc, values)?;
    rows.put(EraRow { era, members })
}

/// The eras that have members, by rising era: the current one and up to 84 before it.
pub fn era_rows(alloc: Global, eras: &EraBook) -> Result<List<EraRow>, NoMemory>
    ensures { IfOk result (λ rows. rows ≡ era_rows eras.now.current eras.now.kept) }
{
    let current = eras.current();
    let past = current.min(MOST_PAST_ERAS);
    let mut rows = List::new(alloc);
    for i in 0..past + 1 {
        put_era(alloc, &mut rows, eras, current - past + i)?;
    }
    Ok(rows)
}
