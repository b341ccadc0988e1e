//! The state that a chain keeps, as a value.
ghost use Rattle.std.specs.Prelude.{◌≡◌, option_map, IfOk};
ghost use Rattle.stake_ledger.specs.Ledger.{IsBalanced};
ghost use Rattle.npos_runtime.specs.Kept.State.{kept};
ghost use Rattle.npos_runtime.specs.Live.{IsReady};

use crate::Chain;
use crate::saved_eras::era_rows;
use crate::saved_lists::{copied, queue_rows, slash_rows};
use crate::saved_polls::{open_row, waiting_row};
use crate::saved_roles::role_rows;
use block_wire::Params;
use npos_base::NoMemory;
use stake_ledger::Book;
use state_rules::State;
use std::alloc::Global;

/// A copy of the params.
fn params_copy(alloc: Global, params: &Params) -> Result<Params, NoMemory>
    ensures { IfOk result (λ copy. copy ≡ params.now) }
{
    let thresholds = copied(alloc, params.thresholds.as_slice())?;
    Ok(Params {
        root: params.root,
        seats: params.seats,
        era_blocks: params.era_blocks,
        offset: params.offset,
        signed: params.signed,
        bonding_eras: params.bonding_eras,
        least_bond: params.least_bond,
        thresholds,
        queue: params.queue,
        solution_max: params.solution_max,
        deposit: params.deposit,
        reward: params.reward,
        era_reward: params.era_reward,
    })
}

/// The params with the eras that a slash waits.
fn terms_of(
    alloc: Global,
    params: &Option<Params>,
    defer: u32,
) -> Result<Option<(Params, u32)>, NoMemory>
    ensures { IfOk result (λ terms. terms ≡ option_map (λ params. (params, defer)) params.now) }
{
    match params {
        None => Ok(None),
        Some(params) => {
            let params = params_copy(alloc, params)?;
            Ok(Some((params, defer)))
        }
    }
}

/// The units that the genesis gave: all that is there or was burned, but what was minted.
fn genesis_units(book: &Book) -> u64
    requires { IsBalanced book.now }
    ensures { result ≡ book.now.genesis }
{
    let totals = book.totals();
    totals.issuance + totals.burned - totals.minted
}

/// The state that the chain keeps.
pub fn state_of(alloc: Global, chain: &Chain) -> Result<State, NoMemory>
    requires { IsReady chain.now }
    ensures { IfOk result (λ state. state ≡ kept chain.now) }
{
    let totals = chain.book.totals();
    Ok(State {
        params: terms_of(alloc, &chain.params, chain.defer)?,
        due: chain.due,
        genesis: genesis_units(&chain.book),
        minted: totals.minted,
        burned: totals.burned,
        rows: chain.book.to_rows(alloc)?,
        roles: role_rows(alloc, &chain.roles, &chain.bags)?,
        eras: era_rows(alloc, &chain.eras)?,
        round: open_row(alloc, &chain.round)?,
        next_submission: chain.next,
        queue: queue_rows(alloc, chain.queue.items())?,
        waiting: waiting_row(alloc, &chain.waiting)?,
        next_slash: chain.eras.next_slash(),
        slashes: slash_rows(alloc, chain.eras.queued())?,
    })
}
