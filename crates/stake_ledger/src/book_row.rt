//! The rows of a book, as values.
ghost use Rattle.std.specs.Prelude.{◌≡◌, ◌+◌, ◌^◌, ◌<◌, ◌≤◌, None, IfSome, IfNone};
ghost use Rattle.stake_ledger.specs.Chunks.{chunk_sum};
ghost use Rattle.stake_ledger.specs.Rows.{worth};
ghost use Rattle.stake_ledger.specs.BookRows.{has_bad_chunk, is_out_of_order, is_bad_row, first_bad_row, entry_of, total_worth, is_bad_sum};

use crate::Chunk;
use crate::book::CAP;
use crate::chunks::MOST_CHUNKS;
use npos_base::{AccountId, List};

/// What one account has, in units of stake: free, bonded and active, bonded and on its way out by
/// rising release, and held as deposits.
#[derive(Debug, Drop)]
pub struct BookRow {
    pub who: AccountId,
    pub free: u64,
    pub active: u64,
    pub chunks: List<Chunk>,
    pub held: u64,
}

/// Whether a row is bad that stands behind the row of the account `before`, or behind none: its
/// account is not above that one, a chunk is 0, there are more than 32 chunks, or their releases do
/// not rise strictly.
pub fn is_bad_row(before: Option<AccountId>, row: &BookRow) -> bool
    ensures { result ≡ is_bad_row before row.now }
{
    if let Some(account) = before
        && row.who <= account
    {
        return true;
    }
    row.chunks.len() > MOST_CHUNKS || has_bad_chunk(row.chunks.as_slice())
}

/// Whether a chunk is 0, or is not released later than the one before it.
fn has_bad_chunk(chunks: &[Chunk]) -> bool
    ensures { result ≡ has_bad_chunk None chunks.now }
{
    let mut before = None;
    for chunk in chunks {
        if chunk.value == 0 || before.is_some_and(|release| chunk.release <= release) {
            return true;
        }
        before = Some(chunk.release);
    }
    false
}

/// The place of the first bad row.
pub fn first_bad_row(rows: &[BookRow]) -> Option<usize>
    ensures { result ≡ first_bad_row None rows.now }
{
    let mut before = None;
    for (place, row) in rows.iter().enumerate() {
        if is_bad_row(before, row) {
            return Some(place);
        }
        before = Some(row.who);
    }
    None
}

/// Whether what the rows hold and what was burned is not what the genesis gave and what was minted,
/// or that is above 2^63 - 1.
pub fn is_bad_sum(rows: &[BookRow], genesis: u64, minted: u64, burned: u64) -> bool
    ensures { result ≡ is_bad_sum rows.now genesis minted burned }
{
    if genesis > CAP || minted > CAP - genesis {
        return true;
    }
    let Some(total) = total_worth(rows) else {
        return true;
    };
    total.checked_add(burned) != Some(genesis + minted)
}

/// What the rows hold together, where that is below 2^64.
fn total_worth(rows: &[BookRow]) -> Option<u64>
    ensures some { IfSome result (λ total. total ≡ total_worth rows.now) }
    ensures none { IfNone result (2 ^ 64 ≤ total_worth rows.now) }
{
    let mut total: u64 = 0;
    for row in rows {
        total = total.checked_add(row.worth()?)?;
    }
    Some(total)
}

/// What the chunks hold together, where that is below 2^64.
fn chunk_total(chunks: &[Chunk]) -> Option<u64>
    ensures some { IfSome result (λ total. total ≡ chunk_sum chunks.now) }
    ensures none { IfNone result (2 ^ 64 ≤ chunk_sum chunks.now) }
{
    let mut total: u64 = 0;
    for chunk in chunks {
        total = total.checked_add(chunk.value)?;
    }
    Some(total)
}

impl BookRow {
    /// What the chunks hold together.
    pub(crate) fn unlocking(&self) -> u64
        requires { chunk_sum self.now.chunks < 2 ^ 64 }
        ensures { result ≡ chunk_sum self.now.chunks }
    {
        self.chunks.as_slice().iter().map(|chunk| chunk.value).sum()
    }

    /// What the account has, where that is below 2^64.
    fn worth(&self) -> Option<u64>
        ensures some { IfSome result (λ total. total ≡ worth (entry_of self.now).1) }
        ensures none { IfNone result (2 ^ 64 ≤ worth (entry_of self.now).1) }
    {
        let bonded = self
            .active
            .checked_add(chunk_total(self.chunks.as_slice())?)?;
        self.free.checked_add(bonded)?.checked_add(self.held)
    }
}
