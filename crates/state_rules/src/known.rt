//! Accounts that have a row.
ghost use Rattle.std.specs.Prelude.{◌≡◌, Some, is_some, option_copied, nat_lt};
ghost use Rattle.std.specs.List.{list_any};
ghost use Rattle.state_rules.specs.Known.{row_of, has_row, is_bonded, AreByAccount};

use npos_base::AccountId;
use stake_ledger::{BookRow, Chunk};

/// The row of an account, where it has one. Rows stand by rising account.
pub(crate) fn row_of(rows: &[BookRow], who: AccountId) -> Option<&BookRow>
    requires { AreByAccount rows.now }
    ensures { option_copied result ≡ row_of rows.now who }
{
    match rows.binary_search_by_key(&who, |row| row.who) {
        Ok(place) => Some(&rows[place]),
        Err(_) => None,
    }
}

/// Whether the account has a row.
pub(crate) fn has_row(rows: &[BookRow], who: AccountId) -> bool
    requires { AreByAccount rows.now }
    ensures { result ≡ has_row rows.now who }
{
    row_of(rows, who).is_some()
}

/// Whether some chunk is above 0.
fn has_chunk(chunks: &[Chunk]) -> bool
    ensures { result ≡ list_any (λ chunk. nat_lt 0 chunk.value) chunks.now }
{
    chunks.iter().any(|chunk| chunk.value > 0)
}

/// Whether something of a row is active or on its way out.
fn is_bonded_row(row: &BookRow) -> bool
    ensures { result ≡ is_bonded (Some row.now) }
{
    row.active > 0 || has_chunk(row.chunks.as_slice())
}

/// Whether something of the account is active or on its way out.
pub(crate) fn is_bonded(rows: &[BookRow], who: AccountId) -> bool
    requires { AreByAccount rows.now }
    ensures { result ≡ is_bonded (row_of rows.now who) }
{
    match row_of(rows, who) {
        None => false,
        Some(row) => is_bonded_row(row),
    }
}
