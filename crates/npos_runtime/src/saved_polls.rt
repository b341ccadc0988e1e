//! The round that is open and the committee that waits, as rows.
ghost use Rattle.std.specs.Prelude.{◌≡◌, ◌<◌, length, map, filter, option_map, IfOk};
ghost use Rattle.std.specs.List.{zip};
ghost use Rattle.election_snapshot.specs.Snapshot.{voter_at};
ghost use Rattle.weight_book.specs.GivenEdges.{gives, kept_edges};
ghost use Rattle.npos_runtime.specs.Kept.Parts.{open_of, kept_committee};
ghost use Rattle.npos_runtime.specs.Kept.State.{voter_row, round_row, open_row, waiting_row};
ghost use Rattle.npos_runtime.specs.Live.{AreNoted, IsSoundRound, IsNotedCommittee};

use crate::saved_lists::copied;
use crate::{Round, Waiting};
use block_wire::BundleVoter;
use election_check::Elected;
use election_snapshot::Snapshot;
use npos_base::{AccountId, Edge, List, NoMemory};
use state_rules::{RoundRow, WaitingRow};
use std::alloc::Global;

/// The targets with their commissions.
fn target_rows(
    alloc: Global,
    snapshot: &Snapshot,
    commissions: &[u32],
) -> Result<List<(AccountId, u32)>, NoMemory>
    requires { AreNoted snapshot.now.targets commissions.now }
    ensures { IfOk result (λ rows. rows ≡ zip snapshot.now.targets commissions.now) }
{
    let mut rows = List::new(alloc);
    for i in 0..snapshot.target_count() {
        rows.put((snapshot.target(i as u16), commissions[i]))?;
    }
    Ok(rows)
}

/// A voter with its votes.
fn voter_row(alloc: Global, snapshot: &Snapshot, i: u32) -> Result<BundleVoter, NoMemory>
    requires { i < length snapshot.now.voters }
    ensures { IfOk result (λ row. row ≡ voter_row (voter_at snapshot.now i)) }
{
    let votes = copied(alloc, snapshot.votes(i))?;
    Ok(BundleVoter {
        account: snapshot.voter(i),
        stake: snapshot.stake(i),
        votes,
    })
}

/// The voters in their order.
fn voter_rows(alloc: Global, snapshot: &Snapshot) -> Result<List<BundleVoter>, NoMemory>
    ensures { IfOk result (λ rows. rows ≡ map voter_row snapshot.now.voters) }
{
    let mut rows = List::new(alloc);
    for i in 0..snapshot.voter_count() {
        let row = voter_row(alloc, snapshot, i as u32)?;
        rows.put(row)?;
    }
    Ok(rows)
}

/// A snapshot with the commissions of its targets.
fn round_row(alloc: Global, snapshot: &Snapshot, commissions: &[u32]) -> Result<RoundRow, NoMemory>
    requires { AreNoted snapshot.now.targets commissions.now }
    ensures { IfOk result (λ row. row ≡ round_row snapshot.now commissions.now) }
{
    let targets = target_rows(alloc, snapshot, commissions)?;
    let voters = voter_rows(alloc, snapshot)?;
    Ok(RoundRow { targets, voters })
}

/// The round, where it is open.
pub fn open_row(alloc: Global, round: &Option<Round>) -> Result<Option<RoundRow>, NoMemory>
    requires { IsSoundRound round.now }
    ensures { IfOk result (λ row. row ≡ open_row (open_of round.now)) }
{
    match round {
        Some(
            Round::Open {
                number: _,
                snapshot,
                commissions,
            },
        ) => {
            let row = round_row(alloc, snapshot, commissions.as_slice())?;
            Ok(Some(row))
        }
        _ => Ok(None),
    }
}

/// The edges that give something, in the order in which they stand.
fn giving(alloc: Global, edges: &[Edge]) -> Result<Vec<Edge>, NoMemory>
    ensures { IfOk result (λ giving. giving.items ≡ filter gives edges.now) }
{
    let giving = edges
        .iter()
        .copied()
        .filter(|edge| edge.amount > 0)
        .collect(alloc)?;
    Ok(giving)
}

/// The edges that give something, by voter and then by target.
fn edge_rows(alloc: Global, elected: &Elected) -> Result<List<Edge>, NoMemory>
    ensures { IfOk result (λ edges. edges ≡ kept_edges elected.now.weights.plain.edges) }
{
    // The snapshot is well formed and the weights are feasible: no two edges have one place.
    let _seats = elected.snapshot().seats();
    let _members = elected.committee();
    let mut edges = giving(alloc, elected.edges())?;
    edges.sort_unstable_by_key(|edge| edge.place());
    Ok(List::from_vec(edges))
}

/// The committee that waits, where one does.
pub fn waiting_row(alloc: Global, waiting: &Option<Waiting>) -> Result<Option<WaitingRow>, NoMemory>
    requires { IsNotedCommittee waiting.now }
    ensures { IfOk result (λ row. row
        ≡ option_map waiting_row (option_map kept_committee waiting.now)) }
{
    match waiting {
        None => Ok(None),
        Some(waiting) => {
            let elected = &waiting.elected;
            let round = round_row(alloc, elected.snapshot(), waiting.commissions.as_slice())?;
            let committee = copied(alloc, elected.committee())?;
            let edges = edge_rows(alloc, elected)?;
            Ok(Some(WaitingRow {
                round,
                committee,
                edges,
            }))
        }
    }
}
