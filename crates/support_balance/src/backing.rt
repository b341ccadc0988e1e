//! A committee whose voters hand out their stake, kept so that turns are fast.
ghost use Rattle.std.specs.Prelude.{◌≡◌, ◌<◌, ◌≤◌, ◌++◌, ◌∷◌, [], ℕ, false, IsFalse, length, slice_index_or, IfOk, OnOk, OnErr, vec_len};
ghost use Rattle.std.specs.List.{AllPairs};
ghost use Rattle.std.specs.Vec.{vec_capacity};
ghost use Rattle.election_snapshot.specs.Snapshot.{has, stake_of};
ghost use Rattle.weight_book.specs.Passing.{nominators};
ghost use Rattle.weight_book.specs.Weights.{no_weights, Follows, support, spent};
ghost use Rattle.weight_book.specs.Room.{KeepsRoom};
ghost use Rattle.support_balance.specs.Rounds.{GiveSame, IsBalanced, IsBefore, AreListed};
ghost use Rattle.support_balance.specs.Backing.{above_zero, IsKept};

use crate::laying::{
    Joining, all_slots, in_order, lay, mark, note_joining, put_joining, supports_of,
};
use crate::rounds::rounds;
use crate::spans::Span;
use election_snapshot::Snapshot;
use npos_base::{Edge, NoMemory};
use std::alloc::Global;
use std::marker::Model;
use weight_book::{Weights, count_votes};

/// A committee of a snapshot with what each voter gives to each member that it nominates, in units
/// of stake. Contracts see the snapshot, and weights that have an edge for each of these pairs, be
/// its amount 0. It is public because the miner of Cevallos and Stewart balances after each pick
/// and should not read the edges anew each time.
#[derive(Drop)]
pub struct Backing<'a> {
    snapshot: &'a Snapshot,
    members: Vec<u16>,
    is_member: Vec<bool>,
    /// An edge along each nomination of a member, be its amount 0, by rising voter, then rising
    /// target. A member joins within this list. A list that grows by doubling is moved, and leaves
    /// holes of its earlier sizes behind: so `new` takes the room for all nominations at once.
    edges: Vec<Edge>,
    /// Where the edges of the member go that joined last. Only the room is of use between calls.
    joining: Vec<Joining>,
    /// By target, what the edges to it sum to.
    supports: Vec<u128>,
    /// What the last balancing noted of its voters. Only the room for all of them is of use.
    spans: Vec<Span>,
}

impl<'a> Model for Backing<'a> {
    ghost use Rattle.std.specs.Prelude.{length, ◌≤◌};
    ghost use Rattle.std.specs.Vec.{vec_capacity};
    ghost use Rattle.support_balance.specs.Backing.{Backing, IsKept};

    ghost Value = { Backing };

    ghost view = { λ b. record {
      snapshot = b.snapshot.now;
      weights = record { committee = b.members.items; edges = b.edges.items };
    } };

    ghost invariant = { λ b. IsKept b.snapshot.now b.members.items b.is_member.items
        b.edges.items b.supports.items × (length b.snapshot.now.voters ≤ vec_capacity b.spans) };
}

impl<'a> Backing<'a> {
    /// No member yet, and so no edge. The error is want of memory alone; then nothing is kept. It
    /// takes room for a mark and a support of each target, for a span of each voter, and for an edge
    /// along each nomination, so that the edges are not moved elsewhere when members join.
    pub fn new(alloc: Global, snapshot: &'a Snapshot) -> Result<Backing<'a>, NoMemory>
        ensures { IfOk result (λ backing. backing
            ≡ record { snapshot = snapshot.now; weights = no_weights }) }
    {
        let is_member = vec![in alloc; false; snapshot.target_count()]?;
        let supports = vec![in alloc; 0; snapshot.target_count()]?;
        let edges = Vec::with_capacity(alloc, count_votes(snapshot))?;
        Backing::of(alloc, snapshot, Vec::new(alloc), is_member, edges, supports)
    }

    /// The committee of these weights in its order, and what they give: a voter gives each target
    /// the same as there. The weights follow the nominations to members, no pair twice, in whatever
    /// order. The error is want of memory alone.
    pub fn over(
        alloc: Global,
        snapshot: &'a Snapshot,
        weights: &Weights,
    ) -> Result<Backing<'a>, NoMemory>
        requires { Follows snapshot.now weights.now.plain }
        ensures snapshot { IfOk result (λ backing. backing.snapshot ≡ snapshot.now) }
        ensures committee { IfOk result (λ backing. backing.weights.committee
            ≡ weights.now.plain.committee) }
        ensures same { IfOk result (λ backing.
            GiveSame weights.now.plain.edges backing.weights.edges) }
    {
        let members = Vec::from_slice(alloc, weights.committee())?;
        let mut is_member = vec![in alloc; false; snapshot.target_count()]?;
        mark(&members, &mut is_member);
        let (edges, supports) = lay_weights(alloc, snapshot, &is_member, weights)?;
        Backing::of(alloc, snapshot, members, is_member, edges, supports)
    }

    /// The committee and what its voters give, as they are at hand; nothing is copied. The room for a
    /// span of each voter is taken here, after all other memory.
    fn of(
        alloc: Global,
        snapshot: &'a Snapshot,
        members: Vec<u16>,
        is_member: Vec<bool>,
        edges: Vec<Edge>,
        supports: Vec<u128>,
    ) -> Result<Backing<'a>, NoMemory>
        requires { IsKept snapshot.now members.items is_member.items edges.items supports.items }
        ensures { IfOk result (λ backing. backing ≡ record {
          snapshot = snapshot.now;
          weights = record { committee = members.items; edges = edges.items };
        }) }
    {
        let spans = Vec::with_capacity(alloc, snapshot.voter_count())?;
        Ok(Backing {
            snapshot,
            members,
            is_member,
            edges,
            joining: Vec::new(alloc),
            supports,
            spans,
        })
    }

    /// A target that is outside joins as the last member, by its position in the snapshot. The
    /// voters are those that nominate it, by rising position: who balances after each pick has a
    /// table of them, and no other voter is looked at. Nobody gives the member anything yet, and
    /// what others get stays. The error is want of memory alone, and then nothing has changed.
    pub fn add_member(&mut self, target: u16, voters: &[u32]) -> Result<(), NoMemory>
        requires in_range { target < length self.old.snapshot.targets }
        requires outside { IsFalse (has self.old.weights.committee target) }
        requires voters { voters.now ≡ nominators self.old.snapshot target }
        ensures snapshot { self.new.snapshot ≡ self.old.snapshot }
        ensures committee { OnOk result (self.new.weights.committee
            ≡ self.old.weights.committee ++ target ∷ []) }
        ensures same { OnOk result (GiveSame self.old.weights.edges self.new.weights.edges) }
        ensures err { OnErr result (self.new ≡ self.old) }
    {
        self.members.reserve(1)?;
        note_joining(target, voters, &self.edges, &mut self.joining)?;
        self.edges.reserve(self.joining.len())?;
        self.is_member[usize::from(target)] = true;
        put_joining(target, &self.joining, &mut self.edges);
        push_within(&mut self.members, target);
        Ok(())
    }

    /// Makes rounds of turns, one at each voter by rising position, until one changes nothing or
    /// the asked number is made. It tells how many were made, the one that changed nothing among
    /// them. The committee stays. Where at least one is asked, no voter then gives more than its
    /// stake. It takes no memory, and so it cannot fail.
    pub fn balance(&mut self, asked: u32) -> u32
        ensures snapshot { self.new.snapshot ≡ self.old.snapshot }
        ensures committee { self.new.weights.committee ≡ self.old.weights.committee }
        ensures balanced { IsBalanced self.old.snapshot self.old.weights.committee asked result
            self.old.weights.edges self.new.weights.edges }
        ensures spends { 1 ≤ asked → (voter : ℕ) → voter < length self.new.snapshot.voters
            → spent self.new.weights.edges voter ≤ stake_of self.new.snapshot voter }
    {
        rounds(
            asked,
            self.snapshot,
            &mut self.edges,
            &mut self.supports,
            &mut self.spans,
        )
    }

    /// The edges, by rising voter, then rising target, those of amount 0 among them. They lead
    /// along nominations to members, no pair twice.
    pub fn edges(&self) -> &[Edge]
        ensures edges { result.now ≡ self.now.weights.edges }
        ensures follows { Follows self.now.snapshot self.now.weights }
        ensures rising { AllPairs IsBefore result.now }
    {
        self.edges.as_slice()
    }

    /// By target of the snapshot, be it a member or not, what it gets from all voters, in units of
    /// stake. It is read from a table, and nothing is summed here.
    pub fn supports(&self) -> &[u128]
        ensures supports { (target : ℕ) → slice_index_or result.now target 0
            ≡ support self.now.weights.edges target }
        ensures count { length result.now ≡ length self.now.snapshot.targets }
    {
        self.supports.as_slice()
    }

    /// Whether the target, by its position in the snapshot, is a member.
    pub fn is_member(&self, target: u16) -> bool
        requires { target < length self.now.snapshot.targets }
        ensures { result ≡ has self.now.weights.committee target }
    {
        self.is_member[usize::from(target)]
    }

    /// Puts the committee and the edges above 0 in place of what the weights hold, the edges by
    /// rising voter, then rising target. The error is want of memory alone; it comes before
    /// anything changes, and the room of the weights does not shrink either way.
    pub fn put_into(&self, weights: &mut Weights) -> Result<(), NoMemory>
        ensures committee { OnOk result (weights.new.plain.committee
            ≡ self.now.weights.committee) }
        ensures same { OnOk result (GiveSame self.now.weights.edges weights.new.plain.edges) }
        ensures listed { OnOk result (AreListed weights.new.plain.edges) }
        ensures follows { OnOk result (Follows self.now.snapshot weights.new.plain) }
        ensures room { KeepsRoom weights.old weights.new }
        ensures err { OnErr result (weights.new.plain ≡ weights.old.plain) }
    {
        weights.reserve(self.members.len(), self.edges.len())?;
        weights.clear();
        put_members(&self.members, weights);
        put_edges(&self.edges, weights);
        Ok(())
    }
}

/// The edges of the weights, with one of amount 0 along each other nomination of a member, and what
/// the targets get. The slots along which they are laid are needed here alone.
fn lay_weights(
    alloc: Global,
    snapshot: &Snapshot,
    is_member: &[bool],
    weights: &Weights,
) -> Result<(Vec<Edge>, Vec<u128>), NoMemory>
    requires follows { Follows snapshot.now weights.now.plain }
    requires marks { (target : ℕ) → slice_index_or is_member.now target false
        ≡ has weights.now.plain.committee target }
    requires count { length is_member.now ≡ length snapshot.now.targets }
    ensures kept { IfOk result (λ laid. IsKept snapshot.now weights.now.plain.committee
        is_member.now laid.0.items laid.1.items) }
    ensures same { IfOk result (λ laid. GiveSame weights.now.plain.edges laid.0.items) }
{
    let targets = snapshot.target_count();
    let slots = all_slots(alloc, snapshot)?;
    let sorted = in_order(alloc, weights.edges())?;
    let laid = lay(alloc, &slots, is_member, &sorted)?;
    let supports = supports_of(alloc, targets, &laid)?;
    Ok((laid, supports))
}

/// Appends an item to a vector with room.
fn push_within(items: &mut Vec<u16>, item: u16)
    requires { vec_len items.old < vec_capacity items.old }
    ensures { items.new.items ≡ items.old.items ++ item ∷ [] }
{
    match items.push(item) {
        Ok(()) => {}
        Err(_) => unreachable!(),
    }
}

/// Appends the members.
fn put_members(members: &[u16], weights: &mut Weights)
    requires { length members.now ≤ weights.old.member_spare }
    ensures members { weights.new.plain.committee ≡ weights.old.plain.committee ++ members.now }
    ensures edges { weights.new.plain.edges ≡ weights.old.plain.edges }
    ensures spare { weights.new.edge_spare ≡ weights.old.edge_spare }
    ensures room { KeepsRoom weights.old weights.new }
{
    for member in members {
        weights.push_member(*member);
    }
}

/// Appends the edges whose amounts are above 0.
fn put_edges(edges: &[Edge], weights: &mut Weights)
    requires { length edges.now ≤ weights.old.edge_spare }
    ensures edges { weights.new.plain.edges ≡ weights.old.plain.edges ++ above_zero edges.now }
    ensures members { weights.new.plain.committee ≡ weights.old.plain.committee }
    ensures room { KeepsRoom weights.old weights.new }
{
    for edge in edges {
        if edge.amount > 0 {
            weights.push_edge(*edge);
        }
    }
}
