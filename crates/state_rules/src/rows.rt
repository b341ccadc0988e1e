//! What is wrong with a row.
ghost use Rattle.std.specs.Prelude.{◌≡◌, nat_lt, None};
ghost use Rattle.std.specs.List.{list_any};
ghost use Rattle.state_rules.specs.Lists.{bad_place};
ghost use Rattle.state_rules.specs.Known.{AreByAccount};
ghost use Rattle.state_rules.specs.Rows.{is_late, is_bad_row};

use stake_ledger::{BookRow, Chunk};

/// The place of the first row that is wrong, where no chunk may be released later than in this era.
pub(crate) fn bad_row(latest: u64, rows: &[BookRow]) -> Option<usize>
    ensures place { result ≡ bad_place (is_bad_row latest) rows.now }
    ensures by_account { result ≡ None → AreByAccount rows.now }
{
    for (place, row) in rows.iter().enumerate() {
        if is_bad_row(latest, &rows[..place], row) {
            return Some(place);
        }
    }
    None
}

/// Whether no book has the row behind those before it, or a chunk of it comes too late.
fn is_bad_row(latest: u64, before: &[BookRow], row: &BookRow) -> bool
    ensures { result ≡ is_bad_row latest before.now row.now }
{
    let last = match before.last() {
        None => None,
        Some(earlier) => Some(earlier.who),
    };
    stake_ledger::is_bad_row(last, row) || is_late(latest, row.chunks.as_slice())
}

/// Whether a chunk is released later than in this era.
fn is_late(latest: u64, chunks: &[Chunk]) -> bool
    ensures { result ≡ list_any (λ chunk. nat_lt latest chunk.release) chunks.now }
{
    chunks.iter().any(|chunk| u64::from(chunk.release) > latest)
}
