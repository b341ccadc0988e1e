//! What is wrong with a committee that waits for its era.
ghost use Rattle.std.specs.Prelude.{◌≡◌, nat_eq, nat_lt, not, IfOk};
ghost use Rattle.std.specs.List.{list_any};
ghost use Rattle.state_rules.specs.Lists.{follows, is_rising};
ghost use Rattle.state_rules.specs.Known.{AreByAccount};
ghost use Rattle.state_rules.specs.Waiting.{edge_below, are_bad_edges, is_bad_committee};

use crate::WaitingRow;
use crate::round::is_bad_round;
use npos_base::{Edge, NoMemory};
use stake_ledger::BookRow;
use std::alloc::Global;

/// Whether the snapshot is wrong, the committee or the edges do not rise, or an edge gives nothing.
pub(crate) fn is_bad_committee(
    alloc: Global,
    rows: &[BookRow],
    seats: u32,
    waiting: &WaitingRow,
) -> Result<bool, NoMemory>
    requires { AreByAccount rows.now }
    ensures { IfOk result (λ bad. bad ≡ is_bad_committee rows.now seats waiting.now) }
{
    if !is_rising_committee(waiting.committee.as_slice())
        || are_bad_edges(waiting.edges.as_slice())
    {
        return Ok(true);
    }
    is_bad_round(alloc, rows, seats, &waiting.round)
}

/// Whether the last of those before is below the member.
fn follows_member(before: &[u16], member: u16) -> bool
    ensures { result ≡ follows nat_lt before.now member }
{
    match before.last() {
        None => true,
        Some(last) => *last < member,
    }
}

/// Whether the members rise strictly.
fn is_rising_committee(committee: &[u16]) -> bool
    ensures { result ≡ is_rising nat_lt committee.now }
{
    for (place, member) in committee.iter().enumerate() {
        if !follows_member(&committee[..place], *member) {
            return false;
        }
    }
    true
}

/// Whether the last of those before is an edge of a lower voter, or of the same to a lower target.
fn follows_edge(before: &[Edge], edge: &Edge) -> bool
    ensures { result ≡ follows edge_below before.now edge.now }
{
    match before.last() {
        None => true,
        Some(last) => {
            last.voter < edge.voter || last.voter == edge.voter && last.target < edge.target
        }
    }
}

/// Whether the edges rise strictly by voter and then by target.
fn is_rising_edges(edges: &[Edge]) -> bool
    ensures { result ≡ is_rising edge_below edges.now }
{
    for (place, edge) in edges.iter().enumerate() {
        if !follows_edge(&edges[..place], edge) {
            return false;
        }
    }
    true
}

/// Whether the edges do not rise, or one gives nothing.
fn are_bad_edges(edges: &[Edge]) -> bool
    ensures { result ≡ are_bad_edges edges.now }
{
    !is_rising_edges(edges) || has_empty(edges)
}

/// Whether some edge gives nothing.
fn has_empty(edges: &[Edge]) -> bool
    ensures { result ≡ list_any (λ edge. nat_eq edge.amount 0) edges.now }
{
    edges.iter().any(|edge| edge.amount == 0)
}
