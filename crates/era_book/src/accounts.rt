//! The accounts of an era, which the eras behind it share where they have the same.
ghost use Rattle.std.specs.Prelude.{◌≡◌, [], true, IfOk};

use npos_base::{AccountId, NoMemory};
use std::alloc::Global;
use std::marker::Model;
use std::rc::Rc;

/// Accounts by place. The electorates of eras that follow one another are mostly the same, and then
/// stand in memory once. Contracts see the list of them.
#[derive(Drop)]
pub struct Accounts {
    list: Option<Rc<Vec<AccountId>>>,
}

impl Model for Accounts {
    ghost use Rattle.std.specs.Prelude.{List};
    ghost use Rattle.npos_base.specs.declared.account.AccountId.{AccountId};
    ghost use Rattle.era_book.specs.Accounts.{accounts_in};

    ghost Value = { List AccountId };

    ghost view = { λ accounts. accounts_in accounts.list };
}

/// Whether the accounts are the same, in the same order.
fn are_same(accounts: &[AccountId], others: &[AccountId]) -> bool
    ensures { result ≡ true → accounts.now ≡ others.now }
{
    accounts == others
}

impl Accounts {
    /// No account. It takes no memory.
    pub fn none() -> Accounts
        ensures { result ≡ [] }
    {
        Accounts { list: None }
    }

    /// These accounts.
    pub fn new(alloc: Global, accounts: Vec<AccountId>) -> Result<Accounts, NoMemory>
        ensures { IfOk result (λ made. made ≡ accounts.items) }
    {
        let list = Rc::new(alloc, accounts)?;
        Ok(Accounts { list: Some(list) })
    }

    /// These accounts, in the memory of those that there are if they are the same.
    pub fn or_same(&self, alloc: Global, accounts: Vec<AccountId>) -> Result<Accounts, NoMemory>
        ensures { IfOk result (λ made. made ≡ accounts.items) }
    {
        match &self.list {
            Some(list) if are_same(list.as_slice(), accounts.as_slice()) => Ok(Accounts {
                list: Some(Rc::clone(list)?),
            }),
            _ => Accounts::new(alloc, accounts),
        }
    }

    /// The accounts, by place.
    pub fn as_slice(&self) -> &[AccountId]
        ensures { result.now ≡ self.now }
    {
        match &self.list {
            Some(list) => list.as_slice(),
            None => &[],
        }
    }
}
