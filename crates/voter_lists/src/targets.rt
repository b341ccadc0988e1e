//! Those whom a nominator names.
ghost use Rattle.std.specs.Prelude.{◌≡◌, ◌<◌, [], ◌↔◌, length, slice_get, IsTrue, Some, IfOk};
ghost use Rattle.voter_lists.specs.Chosen.{chosen_in};
ghost use Rattle.voter_lists.specs.Noted.{AreWithin, accounts_at};

use crate::row::Chosen;
use account_places::Places;
use npos_base::{AccountId, List, NoMemory};
use std::alloc::Global;
use std::marker::Model;

/// Those whom a nominator names, in the order in which it named them. The roles keep them by their
/// places, so a target takes 4 bytes where its account has 32. Contracts see the list of them.
#[derive(Drop)]
pub struct Targets<'a> {
    places: &'a Places,
    chosen: Chosen<'a>,
}

impl<'a> Model for Targets<'a> {
    ghost use Rattle.std.specs.Prelude.{List};
    ghost use Rattle.npos_base.specs.declared.account.AccountId.{AccountId};
    ghost use Rattle.voter_lists.specs.Chosen.{chosen_in};
    ghost use Rattle.voter_lists.specs.Noted.{AreWithin, accounts_at};

    ghost Value = { List AccountId };

    ghost view = { λ t. accounts_at t.places.now (chosen_in t.chosen) };

    ghost invariant = { λ t. AreWithin t.places.now (chosen_in t.chosen) };
}

impl<'a> Targets<'a> {
    /// The accounts at these places.
    pub(crate) fn of(places: &'a Places, chosen: Chosen<'a>) -> Targets<'a>
        requires { AreWithin places.now (chosen_in chosen) }
        ensures { result ≡ accounts_at places.now (chosen_in chosen.entry) }
    {
        Targets { places, chosen }
    }

    /// Nobody.
    pub(crate) fn none(places: &'a Places) -> Targets<'a>
        ensures { result ≡ [] }
    {
        Targets {
            places,
            chosen: Chosen::Near(&[]),
        }
    }

    /// How many there are.
    pub fn len(&self) -> usize
        ensures { result ≡ length self.now }
    {
        self.chosen.len()
    }

    /// Whether nobody is named.
    pub fn is_empty(&self) -> bool
        ensures { IsTrue result ↔ (self.now ≡ []) }
    {
        self.len() == 0
    }

    /// The target of this number.
    pub fn at(&self, i: usize) -> AccountId
        requires { i < length self.now }
        ensures { slice_get self.now i ≡ Some result }
    {
        self.places.account(self.chosen.at(i))
    }

    /// The targets as a list of accounts.
    pub fn to_list(&self, alloc: Global) -> Result<List<AccountId>, NoMemory>
        ensures { IfOk result (λ accounts. accounts ≡ self.now) }
    {
        let mut accounts = Vec::with_capacity(alloc, self.len())?;
        for i in 0..self.len() {
            accounts.push_reserved(self.at(i));
        }
        Ok(List::from_vec(accounts))
    }
}
