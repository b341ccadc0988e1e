//! The accounts of an era, each kept once where that can be, and named by its place.
ghost use Rattle.std.specs.Prelude.{◌≡◌, ◌<◌, [], length, IfSome, IfOk};
ghost use Rattle.npos_base.specs.Account.{account_at};
ghost use Rattle.era_book.specs.Seats.{Grows};

use npos_base::{AccountId, NoMemory};
use std::alloc::Global;
use std::marker::Model;

/// How many slots there are: four times as many as voters.
const SLOTS: usize = 65_536;

/// Accounts by place. Where an account stands is guessed by its last bytes, and nothing rests on
/// the guess: an account that is not found by it gets one more place. Contracts see the accounts.
#[derive(Drop)]
pub struct Names {
    accounts: Vec<AccountId>,
    /// In each slot the place of the account that was named there last.
    slots: Vec<u32>,
}

impl Model for Names {
    ghost use Rattle.std.specs.Prelude.{List};
    ghost use Rattle.npos_base.specs.declared.account.AccountId.{AccountId};

    ghost Value = { List AccountId };

    ghost view = { λ names. names.accounts.items };
}

impl Names {
    /// No account.
    pub fn new(alloc: Global) -> Result<Names, NoMemory>
        ensures { IfOk result (λ names. names ≡ []) }
    {
        let slots = vec![in alloc; 0; SLOTS]?;
        Ok(Names {
            accounts: Vec::new(alloc),
            slots,
        })
    }

    /// The place of the account, which gets one where it is not found.
    pub fn place(&mut self, who: AccountId) -> Result<usize, NoMemory>
        ensures grows { Grows self.old self.new }
        ensures within { IfOk result (λ place. place < length self.new) }
        ensures there { IfOk result (λ place. account_at self.new place ≡ who) }
    {
        let slot = slot_of(who);
        if let Some(place) = guessed(self.accounts.as_slice(), self.slots.get(slot), who) {
            return Ok(place);
        }
        let place = self.accounts.len();
        self.accounts.push(who)?;
        if let Some(noted) = self.slots.get_mut(slot) {
            // a guess, of which 32 bits are enough
            *noted = (place & 0xffff_ffff) as u32;
        }
        Ok(place)
    }

    /// The accounts, in no more memory than they take.
    pub fn accounts(&self, alloc: Global) -> Result<Vec<AccountId>, NoMemory>
        ensures { IfOk result (λ accounts. accounts.items ≡ self.now) }
    {
        let accounts = Vec::from_slice(alloc, self.accounts.as_slice())?;
        Ok(accounts)
    }
}

/// The slot of an account, by its last bytes.
fn slot_of(who: AccountId) -> usize {
    (who.lo & 0xffff) as usize
}

/// The place that is guessed for the account, where it stands there.
fn guessed(accounts: &[AccountId], guess: Option<&u32>, who: AccountId) -> Option<usize>
    ensures within { IfSome result (λ place. place < length accounts.now) }
    ensures there { IfSome result (λ place. account_at accounts.now place ≡ who) }
{
    let place = *guess? as usize;
    match accounts.get(place) {
        Some(account) if *account == who => Some(place),
        _ => None,
    }
}
