//! Accounts that came before, and those that have a row.
ghost use Rattle.std.specs.Prelude.{◌≡◌, List, [], ◌∷◌, ◌++◌, map, IfOk};
ghost use Rattle.npos_base.specs.declared.account.AccountId.{AccountId};
ghost use Rattle.account_places.specs.Places.{by_account};
ghost use Rattle.state_rules.specs.Accounts.{stands_in, AreNoted};
ghost use Rattle.state_rules.specs.Known.{has_row};
ghost use Rattle.state_rules.specs.Eras.{names_unknown};

use account_places::Places;
use era_book::Backer;
use npos_base::{AccountId, NoMemory};
use stake_ledger::BookRow;
use std::alloc::Global;

/// The accounts of a list so far, each of which has a place: so each is found in the logarithm of
/// their number at most, whatever they are.
#[derive(Drop)]
pub(crate) struct Seen {
    accounts: Places,
}

impl Seen {
    /// No account.
    pub(crate) fn new(alloc: Global) -> Seen
        ensures { AreNoted (by_account result.accounts) [] }
    {
        Seen {
            accounts: Places::new(alloc),
        }
    }

    /// Notes an account, and tells whether it was noted before.
    #[tactic(auto, using(crate::proofs::NotedLemmas::noted_more, crate::proofs::NotedLemmas::noted_again))]
    pub(crate) fn note(&mut self, who: AccountId) -> Result<bool, NoMemory>
        ensures { IfOk result (λ stood. (accounts : List AccountId) → AreNoted (by_account self.old.accounts) accounts
            → (stood ≡ stands_in accounts who) × AreNoted (by_account self.new.accounts) (accounts ++ who ∷ [])) }
    {
        if self.accounts.find(who).is_some() {
            return Ok(true);
        }
        self.accounts.put(who)?;
        Ok(false)
    }

    /// Whether an account was noted.
    pub(crate) fn has(&self, who: AccountId) -> bool
        ensures { (accounts : List AccountId) → AreNoted (by_account self.now.accounts) accounts
            → result ≡ stands_in accounts who }
    {
        self.accounts.find(who).is_some()
    }
}

/// The accounts of the rows.
pub(crate) fn accounts_of(alloc: Global, rows: &[BookRow]) -> Result<Seen, NoMemory>
    ensures { IfOk result (λ known. AreNoted (by_account known.accounts) (map (λ row. row.who) rows.now)) }
{
    let mut known = Seen::new(alloc);
    for row in rows {
        let _ = known.note(row.who)?;
    }
    Ok(known)
}

/// Whether the account has a row.
pub(crate) fn is_known(known: &Seen, rows: &[BookRow], who: AccountId) -> bool
    requires { AreNoted (by_account known.now.accounts) (map (λ row. row.who) rows.now) }
    ensures { result ≡ has_row rows.now who }
{
    let _ = rows;
    known.has(who)
}

/// Whether some line is of an account that has no row.
pub(crate) fn names_unknown(known: &Seen, rows: &[BookRow], lines: &[Backer]) -> bool
    requires { AreNoted (by_account known.now.accounts) (map (λ row. row.who) rows.now) }
    ensures { result ≡ names_unknown rows.now lines.now }
{
    for line in lines {
        if !is_known(known, rows, line.who) {
            return true;
        }
    }
    false
}
