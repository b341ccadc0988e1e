//! What is wrong with a slash that waits.
ghost use Rattle.std.specs.Prelude.{◌≡◌, IfOk};
ghost use Rattle.state_rules.specs.Lists.{bad_place};
ghost use Rattle.state_rules.specs.Slashes.{is_bad_count, is_bad_due, is_bad_slash};

use crate::eras::has_bad_line;
use crate::seen::{accounts_of, names_unknown};
use era_book::DeferredSlash;
use npos_base::NoMemory;
use stake_ledger::BookRow;
use std::alloc::Global;

/// What slashes are looked at by: the current era, how many eras a slash waits, and the number of
/// the next slash.
#[derive(Clone, Copy, Debug)]
pub(crate) struct SlashTerms {
    pub(crate) era: u32,
    pub(crate) defer_eras: u32,
    pub(crate) next: u64,
}

/// The place of the first slash that is wrong. It takes about as long as to look up each
/// account of the rows and of the slashes. The rows may stand in any order.
pub(crate) fn bad_slash(
    alloc: Global,
    terms: SlashTerms,
    rows: &[BookRow],
    slashes: &[DeferredSlash],
) -> Result<Option<usize>, NoMemory>
    ensures { IfOk result (λ place. place ≡ bad_place (is_bad_slash terms.era terms.defer_eras terms.next rows.now) slashes.now) }
{
    let known = accounts_of(alloc, rows)?;
    for (place, slash) in slashes.iter().enumerate() {
        let before = &slashes[..place];
        if is_bad_count(terms.next, before, slash)
            || is_bad_due(terms, before, slash)
            || names_unknown(&known, rows, slash.lines.as_slice())
            || has_bad_line(alloc, slash.lines.as_slice())?
        {
            return Ok(Some(place));
        }
    }
    Ok(None)
}

/// Whether the number is none that was given, or is not above the one before.
fn is_bad_count(next: u64, before: &[DeferredSlash], slash: &DeferredSlash) -> bool
    ensures { result ≡ is_bad_count next before.now slash.now }
{
    if slash.number == 0 || slash.number >= next {
        return true;
    }
    match before.last() {
        None => false,
        Some(last) => last.number >= slash.number,
    }
}

/// Whether the slash is due by now, later than any waits, or before the one before.
fn is_bad_due(terms: SlashTerms, before: &[DeferredSlash], slash: &DeferredSlash) -> bool
    ensures { result ≡ is_bad_due terms.era terms.defer_eras before.now slash.now }
{
    let latest = u64::from(terms.era) + u64::from(terms.defer_eras);
    if slash.due <= terms.era || u64::from(slash.due) > latest {
        return true;
    }
    match before.last() {
        None => false,
        Some(last) => last.due > slash.due,
    }
}
