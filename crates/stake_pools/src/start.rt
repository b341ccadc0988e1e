//! How a pool starts from a genesis.
ghost use Rattle.std.specs.Prelude.{◌≡◌, ◌≤◌, [], length, None, OnOk, IfOk, IfErr};
ghost use Rattle.npos_base.specs.declared.limits.TheConstants.{MOST_ENDOWMENTS};
ghost use Rattle.stake_ledger.specs.Ledger.{empty_ledger};
ghost use Rattle.stake_ledger.specs.Calls.{endowed};
ghost use Rattle.stake_pools.specs.Genesis.{endowment_fault, endowed_all, bonding_fault, pool_fault, pool_chain, IsFault};
ghost use Rattle.stake_pools.specs.Opening.{opening_fault};

use crate::members::Members;
use crate::{PoolChain, PoolFault, PoolGenesis};
use npos_base::{AccountId, MOST_PAST_ERAS};
use stake_ledger::{Book, LedgerRefusal};
use std::alloc::Global;

/// Opens the endowment at this place.
fn endow(
    book: &mut Book,
    pool: AccountId,
    place: u32,
    endowment: (AccountId, u64),
) -> Result<(), PoolFault>
    requires { book.old.minted ≡ 0 }
    ensures ok { OnOk result ((opening_fault pool book.old place endowment ≡ None)
        × (book.new ≡ endowed endowment.0 endowment.1 book.old)) }
    ensures refused { IfErr result (IsFault (opening_fault pool book.old place endowment)) }
{
    let (who, value) = endowment;
    if book.knows(who) {
        return Err(PoolFault::RepeatedAccount(place));
    }
    match book.endow(who, value) {
        Ok(()) => {}
        Err(LedgerRefusal::NoMemory) => return Err(PoolFault::NoMemory),
        Err(_) => return Err(PoolFault::TooMuch(place)),
    }
    if who == pool {
        return Err(PoolFault::PoolEndowed(place));
    }
    Ok(())
}

/// Opens the endowments in order, up to the first fault.
#[tactic(auto, using(crate::proofs::EndowLemmas::openings))]
fn endow_all(
    book: &mut Book,
    pool: AccountId,
    endowments: &[(AccountId, u64)],
) -> Result<(), PoolFault>
    requires unopened { book.old ≡ empty_ledger }
    requires few { length endowments.now ≤ MOST_ENDOWMENTS }
    ensures ok { OnOk result ((endowment_fault pool [] endowments.now ≡ None)
        × (book.new ≡ endowed_all endowments.now book.old)) }
    ensures refused { IfErr result (IsFault (endowment_fault pool [] endowments.now)) }
{
    for (place, endowment) in endowments.iter().enumerate() {
        endow(book, pool, place as u32, *endowment)?;
    }
    Ok(())
}

/// How long points are on their way out must be between 1 and 84 eras.
fn check_bonding(eras: u32) -> Result<(), PoolFault>
    ensures ok { OnOk result (bonding_fault eras ≡ None) }
    ensures refused { IfErr result (IsFault (bonding_fault eras)) }
{
    if eras < 1 || eras > MOST_PAST_ERAS {
        return Err(PoolFault::BadBonding(eras));
    }
    Ok(())
}

/// The pool that starts from a genesis, or the first fault that the genesis has.
#[tactic(auto, using(crate::proofs::FaultLemmas::is_first, crate::proofs::FaultLemmas::is_then))]
pub fn begin(alloc: Global, genesis: PoolGenesis) -> Result<PoolChain, PoolFault>
    requires { length genesis.endowments ≤ MOST_ENDOWMENTS }
    ensures ok { IfOk result (λ chain. (pool_fault genesis ≡ None)
        × (chain ≡ pool_chain genesis)) }
    ensures refused { IfErr result (IsFault (pool_fault genesis)) }
{
    let PoolGenesis {
        endowments,
        pool,
        bonding_eras,
    } = genesis;
    let mut book = Book::new(alloc);
    endow_all(&mut book, pool, endowments.as_slice())?;
    check_bonding(bonding_eras)?;
    Ok(PoolChain {
        account: pool,
        bonding: bonding_eras,
        book,
        era: 0,
        members: Members::new(alloc),
    })
}
