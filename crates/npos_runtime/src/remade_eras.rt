//! The eras of a state and the slashes that wait, made anew.
ghost use Rattle.std.specs.Prelude.{◌≡◌, ◌+◌, ◌^◌, ◌<◌, ◌≤◌, [], length, map, min, false, OnOk, IfOk};
ghost use Rattle.npos_base.specs.declared.limits.TheConstants.{MOST_PAST_ERAS};
ghost use Rattle.era_book.specs.declared.deferred.TheConstants.{MOST_SLASHES};
ghost use Rattle.era_book.specs.Exposures.{amount_sum};
ghost use Rattle.era_book.specs.Eras.{is_unknown, with_members};
ghost use Rattle.era_book.specs.Records.{entry_from, members_from};
ghost use Rattle.npos_runtime.specs.Kept.Chain.{member_entry, eras_back};
ghost use Rattle.npos_runtime.specs.Kept.Remade.{AreSoundMembers, AreSoundEras, AreSoundSlashes};

use era_book::{Backer, DeferredSlash, EraBook, Exposure, MemberRecord};
use npos_base::{List, NoMemory};
use state_rules::{EraRow, MemberRow};
use std::alloc::Global;

/// What the backers give together.
fn amount_sum(backers: &[Backer]) -> u64
    requires { amount_sum backers.now < 2 ^ 64 }
    ensures { result ≡ amount_sum backers.now }
{
    let mut sum = 0;
    for backer in backers {
        sum += backer.amount;
    }
    sum
}

/// A member with its support.
fn record_of(row: MemberRow) -> MemberRecord
    requires { amount_sum row.backers < 2 ^ 64 }
    ensures { entry_from result ≡ member_entry row }
{
    let support = amount_sum(row.backers.as_slice());
    MemberRecord {
        exposure: Exposure {
            validator: row.who,
            commission: row.commission,
            support,
            backers: row.backers,
        },
        points: row.points,
        claimed: row.claimed,
        fraction: row.fraction,
    }
}

/// The members of an era.
fn records_of(alloc: Global, rows: List<MemberRow>) -> Result<List<MemberRecord>, NoMemory>
    requires { AreSoundMembers rows }
    ensures { IfOk result (λ records. members_from records ≡ map member_entry rows) }
{
    let mut records = Vec::with_capacity(alloc, rows.len())?;
    for row in rows.into_vec() {
        records.push(record_of(row))?;
    }
    Ok(List::from_vec(records))
}

/// An era gets its members.
fn put_era(alloc: Global, book: &mut EraBook, row: EraRow) -> Result<(), NoMemory>
    requires known { is_unknown book.old row.era ≡ false }
    requires members { AreSoundMembers row.members }
    ensures { OnOk result
        (book.new ≡ with_members row.era (map member_entry row.members) book.old) }
{
    let records = records_of(alloc, row.members)?;
    book.put_era(row.era, records)
}

/// The eras up to the last one, with these members, while no slash waits.
fn eras_of(
    alloc: Global,
    last: u32,
    next_slash: u64,
    rows: List<EraRow>,
) -> Result<EraBook, NoMemory>
    requires numbered { 1 ≤ next_slash }
    requires sound { AreSoundEras last rows }
    ensures { IfOk result (λ eras. eras ≡ record {
      current = last;
      kept = eras_back (min (last + 1) (MOST_PAST_ERAS + 1)) last rows;
      queue = [];
      next_slash = next_slash;
    }) }
{
    let mut book = EraBook::at_era(alloc, last, next_slash)?;
    for row in rows.into_vec() {
        put_era(alloc, &mut book, row)?;
    }
    Ok(book)
}

/// The slashes wait, of which none did.
fn put_slashes(book: &mut EraBook, slashes: List<DeferredSlash>) -> Result<(), NoMemory>
    requires none { book.old.queue ≡ [] }
    requires few { length slashes ≤ MOST_SLASHES }
    requires sound { AreSoundSlashes book.old.next_slash slashes }
    ensures { OnOk result (book.new ≡ record book.old { queue = slashes }) }
{
    for slash in slashes.into_vec() {
        book.put_slash(slash)?;
    }
    Ok(())
}

/// The eras up to the last one, with these members, and the slashes that wait.
pub fn past_of(
    alloc: Global,
    last: u32,
    next_slash: u64,
    rows: List<EraRow>,
    slashes: List<DeferredSlash>,
) -> Result<EraBook, NoMemory>
    requires numbered { 1 ≤ next_slash }
    requires sound { AreSoundEras last rows }
    requires few { length slashes ≤ MOST_SLASHES }
    requires waiting { AreSoundSlashes next_slash slashes }
    ensures { IfOk result (λ eras. eras ≡ record {
      current = last;
      kept = eras_back (min (last + 1) (MOST_PAST_ERAS + 1)) last rows;
      queue = slashes;
      next_slash = next_slash;
    }) }
{
    let mut eras = eras_of(alloc, last, next_slash, rows)?;
    put_slashes(&mut eras, slashes)?;
    Ok(eras)
}
