//! The moves of a pool on the books.
ghost use Rattle.std.specs.Prelude.{◌≡◌, ◌≢◌, ◌<◌, ◌≤◌, [], min, OnOk};
ghost use Rattle.stake_ledger.specs.Rows.{activated};
ghost use Rattle.stake_ledger.specs.Ledger.{row_at, changed};
ghost use Rattle.stake_ledger.specs.Calls.{transferred};
ghost use Rattle.stake_pools.specs.Moves.{freed, invested, paid_out, burned};

use npos_base::{AccountId, NoMemory};
use stake_ledger::{Book, LedgerRefusal};

/// Moves the value from what one account has free to another.
pub fn send(book: &mut Book, from: AccountId, to: AccountId, value: u64) -> Result<(), NoMemory>
    requires some { 0 < value }
    requires apart { from ≢ to }
    requires there { value ≤ (row_at book.old from).free }
    ensures { OnOk result (book.new ≡ transferred from to value book.old) }
{
    match book.transfer(from, to, value) {
        Ok(()) => Ok(()),
        Err(LedgerRefusal::NoMemory) => Err(NoMemory),
        Err(_) => unreachable!(),
    }
}

/// Makes free units of the pool active.
fn bond(book: &mut Book, pool: AccountId, value: u64)
    requires some { 0 < value }
    requires there { value ≤ (row_at book.old pool).free }
    ensures { book.new ≡ changed pool (activated value) book.old }
{
    // most often the pool is bonded
    if book.bond_extra(pool, value).is_ok() {
        return;
    }
    let Ok(()) = book.bond(pool, value, 0) else {
        unreachable!()
    };
}

/// Moves the value from what the account has free to what the pool has active.
pub fn invest(book: &mut Book, who: AccountId, pool: AccountId, value: u64) -> Result<(), NoMemory>
    requires some { 0 < value }
    requires apart { who ≢ pool }
    requires there { value ≤ (row_at book.old who).free }
    ensures { OnOk result (book.new ≡ invested who pool value book.old) }
{
    send(book, who, pool, value)?;
    bond(book, pool, value);
    Ok(())
}

/// Moves the amount from what the pool has active to what it has free, by way of a chunk that is
/// released in this era.
#[tactic(auto, using(crate::proofs::MoveLemmas::unbond_allowed, crate::proofs::MoveLemmas::withdraw_allowed))]
fn release(book: &mut Book, pool: AccountId, era: u32, amount: u64) -> Result<(), NoMemory>
    requires some { 0 < amount }
    requires there { amount ≤ (row_at book.old pool).active }
    requires unchunked { (row_at book.old pool).chunks ≡ [] }
    ensures { OnOk result (book.new ≡ changed pool (freed amount) book.old) }
{
    match book.unbond(pool, amount, era, 0) {
        Ok(_) => {}
        Err(LedgerRefusal::NoMemory) => return Err(NoMemory),
        Err(_) => unreachable!(),
    }
    match book.withdraw(pool, era) {
        Ok(_) => Ok(()),
        Err(_) => unreachable!(),
    }
}

/// Moves the amount from what the pool has active to what the account has free.
pub fn pay_out(
    book: &mut Book,
    pool: AccountId,
    who: AccountId,
    era: u32,
    amount: u64,
) -> Result<(), NoMemory>
    requires apart { who ≢ pool }
    requires there { amount ≤ (row_at book.old pool).active }
    requires unchunked { (row_at book.old pool).chunks ≡ [] }
    ensures { OnOk result (book.new ≡ paid_out pool who amount book.old) }
{
    if amount == 0 {
        return Ok(());
    }
    release(book, pool, era, amount)?;
    send(book, pool, who, amount)
}

/// Burns up to the amount of what the pool has active, and answers how much.
pub fn burn(book: &mut Book, pool: AccountId, amount: u64) -> u64
    requires unchunked { (row_at book.old pool).chunks ≡ [] }
    ensures amount { result ≡ min amount (row_at book.old pool).active }
    ensures after { book.new ≡ burned pool result book.old }
{
    if amount == 0 {
        return 0;
    }
    book.slash(pool, amount)
}
