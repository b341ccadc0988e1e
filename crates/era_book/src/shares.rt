//! The shares of a committee's targets, from the edges by which it was elected.
ghost use Rattle.std.specs.Prelude.{◌≡◌, ℕ, ◌++◌, [], ◌∷◌, length, slice_index_or, All, IfOk, OnOk};
ghost use Rattle.era_book.specs.Committee.{IsWithin};
ghost use Rattle.era_book.specs.Seats.{edge_share, shares_among, shares_of};

use crate::seat::Share;
use npos_base::{AccountId, Edge, List, NoMemory};
use std::alloc::Global;

/// The shares of each target, by the places of the voters: the validator's own, then the others in
/// the order of the edges.
pub fn shares_by_target(
    alloc: Global,
    targets: &[AccountId],
    voters: &[AccountId],
    edges: &[Edge],
) -> Result<Vec<List<Share>>, NoMemory>
    requires { All (IsWithin targets.now voters.now) edges.now }
    ensures count { IfOk result (λ lists. length lists.items ≡ length targets.now) }
    ensures lists { IfOk result (λ lists. (k : ℕ) → slice_index_or lists.items k []
        ≡ shares_of targets.now voters.now edges.now k) }
{
    let counts = share_counts(alloc, targets.len(), edges)?;
    let mut lists = empty_lists(alloc, counts.as_slice())?;
    gather(&mut lists, targets, voters, edges, true)?;
    gather(&mut lists, targets, voters, edges, false)?;
    Ok(lists)
}

/// How many edges lead to each of so many targets.
fn share_counts(alloc: Global, targets: usize, edges: &[Edge]) -> Result<Vec<usize>, NoMemory>
    ensures { IfOk result (λ counts. length counts.items ≡ targets) }
{
    let mut counts: Vec<usize> = vec![in alloc; 0; targets]?;
    for edge in edges {
        if let Some(count) = counts.get_mut(usize::from(edge.target)) {
            *count = count.saturating_add(1);
        }
    }
    Ok(counts)
}

/// Lists without an item, each with room for so many.
fn empty_lists(alloc: Global, counts: &[usize]) -> Result<Vec<List<Share>>, NoMemory>
    ensures count { IfOk result (λ lists. length lists.items ≡ length counts.now) }
    ensures empty { IfOk result (λ lists.
        (k : ℕ) → slice_index_or lists.items k [] ≡ []) }
{
    let mut lists = Vec::with_capacity(alloc, counts.len())?;
    for count in counts {
        let list = Vec::with_capacity(alloc, *count)?;
        lists.push(List::from_vec(list))?;
    }
    Ok(lists)
}

/// Appends to the list of each target the shares of those who give to it: the validator itself, or
/// the others.
fn gather(
    lists: &mut Vec<List<Share>>,
    targets: &[AccountId],
    voters: &[AccountId],
    edges: &[Edge],
    own: bool,
) -> Result<(), NoMemory>
    requires count { length lists.old.items ≡ length targets.now }
    requires edges { All (IsWithin targets.now voters.now) edges.now }
    ensures count { length lists.new.items ≡ length lists.old.items }
    ensures lists { OnOk result ((k : ℕ) → slice_index_or lists.new.items k []
        ≡ slice_index_or lists.old.items k []
        ++ shares_among own targets.now voters.now edges.now k) }
{
    for edge in edges {
        let who = voters[edge.voter as usize];
        let target = usize::from(edge.target);
        if edge.amount > 0 && (who == targets[target]) == own {
            put(&mut lists[target], *edge)?;
        }
    }
    Ok(())
}

/// Appends the share of an edge.
fn put(shares: &mut List<Share>, edge: Edge) -> Result<(), NoMemory>
    ensures ok { OnOk result (shares.new ≡ shares.old ++ edge_share edge ∷ []) }
{
    shares.put(Share {
        place: edge.voter as usize,
        amount: edge.amount,
    })
}
