//! Runtimes start and take blocks where there is memory, which no clause says; and the faults of a
//! genesis by their numbers. What blocks make of a chain is tested over streams, by the program.
use block_wire::{Block, Endowment, Genesis, Params};
use npos_base::{AccountId, List, NoMemory};
use npos_runtime::{BlockFault, GenesisFault, Receipt, Runtime, laws};
use std::alloc::Global;
use std::test::Fail;

const FIRST: AccountId = AccountId { hi: 0, lo: 1 };

/// An account with 100 units.
fn endowments(alloc: Global) -> Result<List<Endowment>, NoMemory> {
    let mut list = List::new(alloc);
    let endowment = Endowment {
        who: FIRST,
        value: 100,
    };
    list.push(endowment).map_err(|_| NoMemory)?;
    Ok(list)
}

/// Starts a runtime from a genesis that is not too long.
fn start(alloc: Global, genesis: Genesis) -> Result<Runtime, GenesisFault> {
    let lengths = match &genesis {
        Genesis::Plain { endowments } => (endowments.len(), 0),
        Genesis::Full { endowments, params } => (endowments.len(), params.thresholds.len()),
        Genesis::Deferred {
            endowments,
            params,
            ..
        } => (endowments.len(), params.thresholds.len()),
    };
    if lengths.0 > 9 || lengths.1 > 9 {
        return Err(GenesisFault::NoMemory);
    }
    Runtime::start(alloc, genesis)
}

/// Takes an empty block.
fn take(alloc: Global, runtime: &mut Runtime, number: u32) -> Result<Receipt, BlockFault> {
    runtime.apply(Block {
        number,
        calls: List::new(alloc),
    })
}

/// A chain of one account, without elections.
fn plain(alloc: Global) -> Result<Runtime, GenesisFault> {
    let endowments = match endowments(alloc) {
        Ok(endowments) => endowments,
        Err(NoMemory) => return Err(GenesisFault::NoMemory),
    };
    start(alloc, Genesis::Plain { endowments })
}

#[test]
fn a_runtime_takes_the_block_that_is_due(rt: HostRuntime) -> Result<(), Fail> {
    let mut runtime = plain(rt.alloc())?;
    let fault = take(rt.alloc(), &mut runtime, 2).err();
    assert_eq!(rt; fault, Some(BlockFault::WrongNumber { due: 1, found: 2 }));
    let receipt = take(rt.alloc(), &mut runtime, 1)?;
    assert_eq!(rt; receipt.lines.len(), 1);
    assert_eq!(rt; runtime.due(), 2);
    Ok(())
}

#[test]
fn a_runtime_tells_its_parts(rt: HostRuntime) -> Result<(), Fail> {
    let runtime = plain(rt.alloc())?;
    assert_eq!(rt; runtime.totals().free, 100);
    assert!(rt; runtime.book().knows(FIRST));
    assert_eq!(rt; runtime.roles().validator_count(), 0);
    assert!(rt; runtime.bags().first().is_none());
    assert_eq!(rt; runtime.queue().len(), 0);
    assert!(rt; runtime.seated().is_none());
    assert_eq!(rt; runtime.eras().current(), 0);
    laws::books_balance(&runtime);
    Ok(())
}

#[test]
fn the_laws_hold(_rt: HostRuntime) {
    laws::every_history_starts_ready();
    laws::every_seated_committee_is_sound();
    laws::every_open_round_seats_a_committee();
    laws::every_round_ends_as_it_began();
    laws::deposits_are_held();
    laws::each_deposit_has_one_fate();
    laws::deposits_are_settled();
    laws::deposits_go_on();
    laws::nothing_valid_is_crowded_out_for_free();
    laws::each_round_is_decided_once();
    laws::eras_follow_the_blocks();
    laws::payouts_are_within_the_reward();
    laws::payouts_go_on();
    laws::slashes_are_within_the_stake();
    laws::dues_go_on();
    laws::slashes_that_wait_take_what_is_due();
}

/// Params without fault but for the one with this number, if there is one.
fn with_fault(alloc: Global, number: u8) -> Result<Params, NoMemory> {
    let mut params = Params {
        root: FIRST,
        seats: 1,
        era_blocks: 3,
        offset: 1,
        signed: 1,
        bonding_eras: 40,
        least_bond: 1,
        thresholds: List::new(alloc),
        queue: 1,
        solution_max: 1,
        deposit: 0,
        reward: 0,
        era_reward: 0,
    };
    match number {
        3 => params.seats = 513,
        4 => params.signed = 2,
        5 => params.bonding_eras = 85,
        6 => params.least_bond = 0,
        7 => params.thresholds = List::from_vec(Vec::from_slice(alloc, &[7, 7])?),
        8 => params.queue = 17,
        9 => params.solution_max = 2_097_153,
        _ => {}
    }
    Ok(params)
}

/// The number and the detail of the fault of a genesis with these params, where a slash waits so
/// many eras, if it waits any.
fn fault_of(alloc: Global, params: Params, wait: Option<u32>) -> Result<(u8, u32), NoMemory> {
    let endowments = endowments(alloc)?;
    let genesis = match wait {
        None => Genesis::Full { endowments, params },
        Some(defer_eras) => Genesis::Deferred {
            endowments,
            params,
            defer_eras,
        },
    };
    Ok(match start(alloc, genesis) {
        Ok(_) => (0, 0),
        Err(fault) => fault.numbers().ok_or(NoMemory)?,
    })
}

#[test]
fn params_are_at_fault(rt: HostRuntime) -> Result<(), Fail> {
    let table = [
        (0, 0),
        (3, 513),
        (4, 3),
        (5, 85),
        (6, 0),
        (7, 1),
        (8, 17),
        (9, 2_097_153),
    ];
    for (number, detail) in table {
        for wait in [None, Some(39)] {
            let params = with_fault(rt.alloc(), number)?;
            let fault = fault_of(rt.alloc(), params, wait)?;
            assert_eq!(rt; fault, (number, detail));
        }
    }
    Ok(())
}

#[test]
fn a_slash_that_waits_too_long_is_the_last_fault(rt: HostRuntime) -> Result<(), Fail> {
    for (number, fault) in [(0, (10, 40)), (6, (6, 0)), (9, (9, 2_097_153))] {
        let params = with_fault(rt.alloc(), number)?;
        let found = fault_of(rt.alloc(), params, Some(40))?;
        assert_eq!(rt; found, fault);
    }
    Ok(())
}
