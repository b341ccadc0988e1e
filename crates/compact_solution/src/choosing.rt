//! Which edges of each voter are kept.
ghost use Rattle.std.specs.Prelude.{◌≡◌, ◌<◌, ◌≤◌, All, length, IfOk, OnOk};
ghost use Rattle.std.specs.List.{insert};
ghost use Rattle.compact_solution.specs.Packing.{chosen, placed, choices_of, kept_of, stake_at};
ghost use Rattle.compact_solution.specs.Packing.{parts_in as parts_of_stake, has_part as gives_part, greater as greater_of};
ghost use Rattle.compact_solution.specs.Choosing.{Fits, AllFit, no_choice, chosen_next, no_choices};

use crate::entry::WHOLE_STAKE;
use npos_base::{Edge, List, NoMemory};
use std::alloc::Global;
use std::marker::Model;

/// What there is to keep of one voter's edges: those with a part, by rising target, and the first
/// of the greatest.
#[derive(Drop)]
struct Choice {
    with_part: Vec<Edge>,
    greatest: Option<Edge>,
}

impl Model for Choice {
    ghost use Rattle.compact_solution.specs.Packing.{Choice};

    ghost Value = { Choice };

    ghost view = { λ c. record { with_part = c.with_part.items; greatest = c.greatest } };
}

impl Choice {
    /// Nothing, with room for so many edges.
    fn with_room(alloc: Global, edges: usize) -> Result<Choice, NoMemory>
        ensures { IfOk result (λ choice. choice ≡ no_choice) }
    {
        Ok(Choice {
            with_part: Vec::with_capacity(alloc, edges)?,
            greatest: None,
        })
    }

    /// One more edge of a voter with this stake.
    fn take(&mut self, stake: u64, edge: Edge) -> Result<(), NoMemory>
        requires { Fits stake edge }
        ensures { OnOk result (self.new ≡ chosen_next stake self.old edge) }
    {
        if has_part(stake, edge) {
            place(&mut self.with_part, edge)?;
        }
        self.greatest = greater(self.greatest, edge);
        Ok(())
    }

    /// The edges that are kept.
    fn into_kept(self) -> Result<List<Edge>, NoMemory>
        ensures { IfOk result (λ kept. kept ≡ chosen self) }
    {
        let Choice {
            mut with_part,
            greatest,
        } = self;
        if with_part.is_empty()
            && let Some(edge) = greatest
        {
            with_part.push(edge)?;
        }
        Ok(List::from_vec(with_part))
    }
}

/// How many parts of its voter's stake the edge gives.
pub(crate) fn parts_in(stake: u64, edge: Edge) -> u16
    requires { Fits stake edge }
    ensures { result ≡ parts_of_stake stake edge }
{
    (u128::from(edge.amount) * u128::from(WHOLE_STAKE) / u128::from(stake)) as u16
}

/// Whether the edge gives a part of its voter's stake at least.
fn has_part(stake: u64, edge: Edge) -> bool
    requires { Fits stake edge }
    ensures { result ≡ gives_part stake edge }
{
    u128::from(stake) <= u128::from(edge.amount) * u128::from(WHOLE_STAKE)
}

/// Puts the edge before the first one with a higher target.
fn place(edges: &mut Vec<Edge>, edge: Edge) -> Result<(), NoMemory>
    ensures { OnOk result (edges.new.items ≡ placed edges.old.items edge) }
{
    let at = place_in(edges.as_slice(), edge);
    edges.insert(at, edge)?;
    Ok(())
}

/// The place before the first edge with a higher target.
#[tactic(auto, using(crate::proofs::PackLemmas::placed_at))]
fn place_in(edges: &[Edge], edge: Edge) -> usize
    ensures bound { result ≤ length edges.now }
    ensures place { insert edges.now result edge ≡ placed edges.now edge }
{
    for at in 0..edges.len() {
        if edge.target < edges[at].target {
            return at;
        }
    }
    edges.len()
}

/// The better of the best so far and the next edge: a later one has to give more.
fn greater(best: Option<Edge>, edge: Edge) -> Option<Edge>
    ensures { result ≡ greater_of best edge }
{
    match best {
        Some(best) if best.amount >= edge.amount => Some(best),
        _ => Some(edge),
    }
}

/// How many edges each of so many voters has.
fn count_edges(alloc: Global, voters: usize, edges: &[Edge]) -> Result<Vec<usize>, NoMemory>
    requires { All (λ edge. edge.voter < voters) edges.now }
    ensures { IfOk result (λ counts. length counts.items ≡ voters) }
{
    let mut counts = vec![in alloc; 0; voters]?;
    for edge in edges {
        counts[edge.voter as usize] += 1;
    }
    Ok(counts)
}

/// Nothing to keep, by voter, with room for as many edges as each has.
#[tactic(auto, using(crate::proofs::PackLemmas::choices_more))]
fn no_choices(alloc: Global, counts: &[usize]) -> Result<Vec<Choice>, NoMemory>
    ensures { IfOk result (λ choices. choices.items ≡ no_choices (length counts.now)) }
{
    let mut choices = Vec::with_capacity(alloc, counts.len())?;
    for count in counts {
        choices.push(Choice::with_room(alloc, *count)?)?;
    }
    Ok(choices)
}

/// What there is to keep, by voter.
#[tactic(auto, using(crate::proofs::PackLemmas::choose_more, crate::proofs::PackLemmas::choices_many))]
fn choose(alloc: Global, stakes: &[u64], edges: &[Edge]) -> Result<Vec<Choice>, NoMemory>
    requires range { All (λ edge. edge.voter < length stakes.now) edges.now }
    requires fit { AllFit stakes.now edges.now }
    ensures { IfOk result (λ choices. choices.items ≡ choices_of stakes.now edges.now) }
{
    let counts = count_edges(alloc, stakes.len(), edges)?;
    let mut choices = no_choices(alloc, counts.as_slice())?;
    for edge in edges {
        let voter = edge.voter as usize;
        choices[voter].take(stakes[voter], *edge)?;
    }
    Ok(choices)
}

/// The edges that are kept, by voter.
pub(crate) fn keep(
    alloc: Global,
    stakes: &[u64],
    edges: &[Edge],
) -> Result<Vec<List<Edge>>, NoMemory>
    requires range { All (λ edge. edge.voter < length stakes.now) edges.now }
    requires fit { AllFit stakes.now edges.now }
    ensures { IfOk result (λ kept. kept.items ≡ kept_of stakes.now edges.now) }
{
    let choices = choose(alloc, stakes, edges)?;
    let mut kept = Vec::with_capacity(alloc, choices.len())?;
    for choice in choices {
        kept.push(choice.into_kept()?)?;
    }
    Ok(kept)
}
