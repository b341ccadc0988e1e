//! How a chain starts from a genesis.
ghost use Rattle.std.specs.Prelude.{◌≡◌, ◌≤◌, [], length, None, Some, OnOk, IfOk, IfErr};
ghost use Rattle.npos_base.specs.declared.limits.TheConstants.{MOST_ENDOWMENTS, MOST_THRESHOLDS};
ghost use Rattle.stake_ledger.specs.Ledger.{empty_ledger};
ghost use Rattle.stake_ledger.specs.Calls.{endowed};
ghost use Rattle.npos_runtime.specs.Genesis.{genesis_fault, genesis_chain, endowment_fault, opening_fault, endowed_all, IsFault, endowments_of, thresholds_of};
ghost use Rattle.chain_params.specs.Faults.{AreSound};
ghost use Rattle.chain_params.specs.Rules.{thresholds_in};

use crate::Chain;
use block_wire::{Endowment, Genesis, Params};
use chain_params::{GenesisFault, check_terms, copy_thresholds, places_of};
use era_book::EraBook;
use npos_base::NoMemory;
use stake_ledger::{Book, LedgerRefusal};
use std::alloc::Global;
use submission_queue::Queue;
use voter_lists::{Bags, Roles};

/// Opens the endowment at this place.
fn endow(book: &mut Book, place: u32, endowment: Endowment) -> Result<(), GenesisFault>
    requires { book.old.minted ≡ 0 }
    ensures ok { OnOk result ((opening_fault book.old place endowment ≡ None)
        × (book.new ≡ endowed endowment.who endowment.value book.old)) }
    ensures refused { IfErr result (IsFault (opening_fault book.old place endowment)) }
{
    if book.knows(endowment.who) {
        return Err(GenesisFault::RepeatedAccount(place));
    }
    match book.endow(endowment.who, endowment.value) {
        Ok(()) => Ok(()),
        Err(LedgerRefusal::NoMemory) => Err(GenesisFault::NoMemory),
        Err(_) => Err(GenesisFault::TooMuch(place)),
    }
}

/// Opens the endowments in order, up to the first fault.
#[tactic(auto, using(crate::proofs::Rules::EndowLemmas::fault_ahead, crate::proofs::Rules::EndowLemmas::opened_more, crate::proofs::Rules::EndowLemmas::all_opened))]
fn endow_all(book: &mut Book, endowments: &[Endowment]) -> Result<(), GenesisFault>
    requires unopened { book.old ≡ empty_ledger }
    requires few { length endowments.now ≤ MOST_ENDOWMENTS }
    ensures ok { OnOk result ((endowment_fault [] endowments.now ≡ None)
        × (book.new ≡ endowed_all endowments.now book.old)) }
    ensures refused { IfErr result (IsFault (endowment_fault [] endowments.now)) }
{
    for (place, endowment) in endowments.iter().enumerate() {
        endow(book, place as u32, *endowment)?;
    }
    Ok(())
}

/// Books with nobody in them, and room for so many accounts: so the endowments of a genesis come
/// without a move of those before them.
fn empty_book(alloc: Global, room: usize) -> Result<Book, NoMemory>
    ensures { IfOk result (λ book. book ≡ empty_ledger) }
{
    let mut book = Book::new(alloc);
    book.reserve(room)?;
    Ok(book)
}

/// Roles of nobody, with room for those of so many accounts.
fn empty_roles(alloc: Global, room: usize) -> Result<Roles, NoMemory>
    ensures { IfOk result (λ roles. roles ≡ []) }
{
    let mut roles = Roles::new(alloc);
    roles.reserve(room)?;
    Ok(roles)
}

/// Bags with nobody in them, between the thresholds of the params, with room for so many accounts.
fn empty_bags(alloc: Global, params: &Option<Params>, room: usize) -> Result<Bags, NoMemory>
    requires sound { AreSound params.now }
    requires few { length (thresholds_in params.now) ≤ MOST_THRESHOLDS }
    ensures { IfOk result (λ bags. bags
        ≡ record { thresholds = thresholds_in params.now; order = [] }) }
{
    let thresholds = copy_thresholds(alloc, params)?;
    let mut bags = Bags::new(alloc, thresholds)?;
    bags.reserve(room)?;
    Ok(bags)
}

/// The chain that starts from a genesis, or the first fault that the genesis has.
#[tactic(auto, using(crate::proofs::Rules::FaultLemmas::is_first, crate::proofs::Rules::FaultLemmas::is_then, chain_params::proofs::FaultLemmas::no_fault))]
pub fn begin(alloc: Global, genesis: Genesis) -> Result<Chain, GenesisFault>
    requires few_endowments { length (endowments_of genesis) ≤ MOST_ENDOWMENTS }
    requires few_thresholds { length (thresholds_of genesis) ≤ MOST_THRESHOLDS }
    ensures ok { IfOk result (λ chain. (genesis_fault genesis ≡ None)
        × (chain ≡ genesis_chain genesis)) }
    ensures refused { IfErr result (IsFault (genesis_fault genesis)) }
{
    let (endowments, params, defer) = match genesis {
        Genesis::Plain { endowments } => (endowments, None, 0),
        Genesis::Full { endowments, params } => (endowments, Some(params), 0),
        Genesis::Deferred {
            endowments,
            params,
            defer_eras,
        } => (endowments, Some(params), defer_eras),
    };
    let accounts = endowments.len();
    let mut book = empty_book(alloc, accounts)?;
    endow_all(&mut book, endowments.as_slice())?;
    check_terms(&params, defer)?;
    let roles = empty_roles(alloc, accounts)?;
    let bags = empty_bags(alloc, &params, accounts)?;
    let queue = Queue::new(alloc, places_of(&params))?;
    Ok(Chain {
        params,
        defer,
        book,
        roles,
        bags,
        round: None,
        queue,
        next: 1,
        waiting: None,
        eras: EraBook::new(alloc),
        due: 1,
    })
}
