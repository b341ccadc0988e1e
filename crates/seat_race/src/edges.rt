//! Edges in their order, as weights have them.
ghost use Rattle.std.specs.Prelude.{◌≡◌, [], OnOk, IsPermutation};
ghost use Rattle.std.specs.List.Sorted.{IsNonDecreasingBy};
ghost use Rattle.npos_base.specs.Edge.{place_of};
ghost use Rattle.weight_book.specs.Room.{KeepsRoom};

use npos_base::{Edge, NoMemory};
use weight_book::Weights;

/// Puts the edges in order, by voter and then by target, and appends them to the weights, which
/// have none yet.
pub fn put_by_voter(edges: &mut [Edge], weights: &mut Weights) -> Result<(), NoMemory>
    requires { weights.old.plain.edges ≡ [] }
    ensures order { OnOk result (IsNonDecreasingBy place_of weights.new.plain.edges) }
    ensures same { OnOk result (IsPermutation edges.old weights.new.plain.edges) }
    ensures members { OnOk result (weights.new.plain.committee ≡ weights.old.plain.committee) }
    ensures room { KeepsRoom weights.old weights.new }
{
    edges.sort_unstable_by_key(|edge| edge.place());
    put_edges(edges, weights)?;
    Ok(())
}

/// Appends the edges to the weights.
fn put_edges(edges: &[Edge], weights: &mut Weights) -> Result<(), NoMemory>
    requires { weights.old.plain.edges ≡ [] }
    ensures edges { OnOk result (weights.new.plain.edges ≡ edges.now) }
    ensures members { OnOk result (weights.new.plain.committee ≡ weights.old.plain.committee) }
    ensures room { KeepsRoom weights.old weights.new }
{
    weights.reserve(0, edges.len())?;
    for edge in edges {
        weights.push_edge(*edge);
    }
    Ok(())
}
