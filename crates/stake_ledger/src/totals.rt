//! The sums over all accounts.
ghost use Rattle.std.specs.Prelude.{◌≡◌, ◌+◌, ◌^◌, ◌<◌, false};
ghost use Rattle.stake_ledger.specs.Parts.{Covers, replaced};
ghost use Rattle.stake_ledger.specs.Ledger.{totals_of};
ghost use Rattle.stake_ledger.specs.BookRows.{is_bad_sum, ledger_of};

use crate::book_row::BookRow;
use crate::parts::Parts;

/// What all accounts have together, in units of stake. `issuance` is what the endowments gave and
/// what was minted, less what was burned.
#[derive(Clone, Copy, Debug, PartialEq, Eq)]
pub struct Totals {
    pub free: u64,
    pub active: u64,
    pub unlocking: u64,
    pub deposits: u64,
    pub minted: u64,
    pub burned: u64,
    pub issuance: u64,
}

impl Totals {
    /// The sums over the rows.
    pub(crate) fn of(rows: &[BookRow], genesis: u64, minted: u64, burned: u64) -> Totals
        requires { is_bad_sum rows.now genesis minted burned ≡ false }
        ensures { result ≡ totals_of (ledger_of rows.now genesis minted burned) }
    {
        let mut totals = Totals {
            free: 0,
            active: 0,
            unlocking: 0,
            deposits: 0,
            minted,
            burned,
            issuance: genesis + minted - burned,
        };
        for row in rows {
            totals.free += row.free;
            totals.active += row.active;
            totals.unlocking += row.unlocking();
            totals.deposits += row.held;
        }
        totals
    }

    /// Puts what an account has now in the place of what it had.
    pub(crate) fn replace(&mut self, before: Parts, after: Parts)
        requires covered { Covers self.old before }
        requires fits { self.old.free + self.old.active + self.old.unlocking + self.old.deposits
            + after.free + after.active + after.unlocking + after.held < 2 ^ 64 }
        ensures { self.new ≡ replaced before after self.old }
    {
        self.free = self.free - before.free + after.free;
        self.active = self.active - before.active + after.active;
        self.unlocking = self.unlocking - before.unlocking + after.unlocking;
        self.deposits = self.deposits - before.held + after.held;
    }
}
