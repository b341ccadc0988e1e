//! Weights with room made beforehand.
ghost use Rattle.std.specs.Prelude.{◌≡◌, ℕ, ◌<◌, ◌≤◌, ◌^◌, ◌+◌, [], ◌∷◌, ◌++◌, if◌then◌else◌, length, max, nat_eq, slice_index_or, IfOk, OnOk, IsPermutation};
ghost use Rattle.std.specs.List.{IsDistinct};
ghost use Rattle.std.specs.List.Sorted.{IsNonDecreasing};
ghost use Rattle.weight_book.specs.Weights.{no_weights, support, spent, amount_sum};
ghost use Rattle.weight_book.specs.Scoring.{score_of};
ghost use Rattle.weight_book.specs.Room.{HasRoom, HasNoMoreRoom, KeepsRoom, vote_count};
ghost use Rattle.weight_book.specs.Kept.{AreSupports};

use election_snapshot::Snapshot;
use npos_base::{Edge, List, NoMemory, Score};
use std::alloc::Global;
use std::marker::Model;

/// A committee and edges. Contracts see their lists and the spare of each: how many more members or
/// edges it takes before memory is asked for. The room of a list is its length and its spare
/// together; no call lowers it. They also see for how many targets the support is kept.
#[derive(Drop)]
pub struct Weights {
    members: Vec<u16>,
    edges: Vec<Edge>,
    /// By target of the election, what the edges to it sum to. It is kept up as edges come, so that
    /// no call looks for them.
    supports: Vec<u128>,
}

impl Model for Weights {
    ghost use Rattle.std.specs.Prelude.{◌-◌, length};
    ghost use Rattle.std.specs.Vec.{vec_len, vec_capacity};
    ghost use Rattle.weight_book.specs.Room.{WeightBook};
    ghost use Rattle.weight_book.specs.Kept.{AreSupports};

    ghost Value = { WeightBook };

    ghost view = { λ w. record {
      plain = record { committee = w.members.items; edges = w.edges.items };
      member_spare = vec_capacity w.members - vec_len w.members;
      edge_spare = vec_capacity w.edges - vec_len w.edges;
      support_count = length w.supports.items;
    } };

    ghost invariant = { λ w. AreSupports w.edges.items w.supports.items };
}

impl Weights {
    /// No member and no edge, and room for each target as a member and for an edge along each
    /// nomination.
    pub fn with_room(alloc: Global, snapshot: &Snapshot) -> Result<Weights, NoMemory>
        ensures empty { IfOk result (λ weights. weights.plain ≡ no_weights) }
        ensures room { IfOk result (HasRoom snapshot.now) }
        ensures no_more { IfOk result (HasNoMoreRoom snapshot.now) }
    {
        let members = Vec::with_capacity(alloc, snapshot.target_count())?;
        let edges = Vec::with_capacity(alloc, count_votes(snapshot))?;
        let supports = zeros(alloc, snapshot.target_count())?;
        Ok(Weights {
            members,
            edges,
            supports,
        })
    }

    /// The members and edges that are at hand. Neither is copied, and no room is made for more of
    /// them. The supports are kept for so many targets.
    pub fn of(
        alloc: Global,
        target_count: usize,
        members: List<u16>,
        edges: List<Edge>,
    ) -> Result<Weights, NoMemory>
        ensures plain { IfOk result (λ weights. weights.plain
            ≡ record { committee = members; edges = edges }) }
        ensures supports { IfOk result (λ weights. weights.support_count ≡ target_count) }
    {
        let mut supports = zeros(alloc, target_count)?;
        let edges = edges.into_vec();
        sum_supports(edges.as_slice(), &mut supports);
        Ok(Weights {
            members: members.into_vec(),
            edges,
            supports,
        })
    }

    /// Makes room for this many more members and edges, where there is less.
    pub fn reserve(&mut self, members: usize, edges: usize) -> Result<(), NoMemory>
        ensures same { self.new.plain ≡ self.old.plain }
        ensures members { OnOk result (self.new.member_spare ≡ max self.old.member_spare members) }
        ensures edges { OnOk result (self.new.edge_spare ≡ max self.old.edge_spare edges) }
        ensures room { KeepsRoom self.old self.new }
    {
        self.members.reserve_exact(members)?;
        self.edges.reserve_exact(edges)?;
        Ok(())
    }

    /// Appends a member. It cannot fail, since there is room.
    pub fn push_member(&mut self, target: u16)
        requires { 0 < self.old.member_spare }
        ensures members { self.new.plain.committee ≡ self.old.plain.committee ++ target ∷ [] }
        ensures edges { self.new.plain.edges ≡ self.old.plain.edges }
        ensures member_spare { self.old.member_spare ≤ self.new.member_spare + 1 }
        ensures edge_spare { self.new.edge_spare ≡ self.old.edge_spare }
        ensures room { KeepsRoom self.old self.new }
    {
        self.members.push_reserved(target);
    }

    /// Appends an edge. It cannot fail, since there is room.
    pub fn push_edge(&mut self, edge: Edge)
        requires { 0 < self.old.edge_spare }
        ensures edges { self.new.plain.edges ≡ self.old.plain.edges ++ edge ∷ [] }
        ensures members { self.new.plain.committee ≡ self.old.plain.committee }
        ensures edge_spare { self.old.edge_spare ≤ self.new.edge_spare + 1 }
        ensures member_spare { self.new.member_spare ≡ self.old.member_spare }
        ensures room { KeepsRoom self.old self.new }
    {
        // A vector has fewer than 2^64 edges, which only a call tells: so a support stays below 2^128.
        let _count = self.edges.len();
        raise_support(&mut self.supports, edge.target, edge.amount);
        self.edges.push_reserved(edge);
    }

    /// Leaves no member and no edge. Their room is then spare.
    pub fn clear(&mut self)
        ensures empty { self.new.plain ≡ no_weights }
        ensures room { KeepsRoom self.old self.new }
    {
        self.members.clear();
        self.edges.clear();
        self.supports.fill(0);
    }

    /// Puts the members in rising order. It takes no memory.
    pub fn sort_members(&mut self)
        ensures rising { IsNonDecreasing self.new.plain.committee }
        ensures same { IsPermutation self.old.plain.committee self.new.plain.committee }
        ensures edges { self.new.plain.edges ≡ self.old.plain.edges }
        ensures room { KeepsRoom self.old self.new }
    {
        self.members.sort_unstable();
    }

    /// The members, in the order in which they were appended or put since.
    pub fn committee(&self) -> &[u16]
        ensures { result.now ≡ self.now.plain.committee }
    {
        self.members.as_slice()
    }

    /// The edges, in the order in which they were appended.
    pub fn edges(&self) -> &[Edge]
        ensures { result.now ≡ self.now.plain.edges }
    {
        self.edges.as_slice()
    }

    /// The sum of the amounts over the edges to the target. It is looked up for each target of the
    /// election that the weights were made for.
    pub fn support(&self, target: u16) -> u128
        ensures { result ≡ support self.now.plain.edges target }
    {
        match self.supports.get(usize::from(target)) {
            Some(support) => *support,
            None => sum_to(self.edges(), target),
        }
    }

    /// The sum of the amounts over the edges from the voter. It goes through all edges.
    pub fn spent(&self, voter: u32) -> u128
        ensures { result ≡ spent self.now.plain.edges voter }
    {
        let mut sum = 0;
        for edge in self.edges.as_slice() {
            if edge.voter == voter {
                sum += u128::from(edge.amount);
            }
        }
        sum
    }

    /// The score of these weights, in one pass over the members.
    pub fn score(&self) -> Score
        requires some { 1 ≤ length self.now.plain.committee }
        requires distinct { IsDistinct nat_eq self.now.plain.committee }
        requires fits { amount_sum self.now.plain.edges < 2 ^ 64 }
        ensures { result ≡ score_of self.now.plain }
    {
        let mut score = Score {
            minimal: u64::MAX,
            sum: 0,
            squares: 0,
        };
        for member in self.committee() {
            let support = self.support(*member) as u64;
            score.minimal = score.minimal.min(support);
            score.sum += support;
            score.squares += u128::from(support) * u128::from(support);
        }
        score
    }
}

/// The sum of the amounts over the edges to the target. It goes through all edges.
fn sum_to(edges: &[Edge], target: u16) -> u128
    ensures { result ≡ support edges.now target }
{
    let mut sum = 0;
    for edge in edges {
        if edge.target == target {
            sum += u128::from(edge.amount);
        }
    }
    sum
}

/// Sums what each target gets.
fn sum_supports(edges: &[Edge], supports: &mut [u128])
    requires { (target : ℕ) → slice_index_or supports.old target 0 ≡ 0 }
    ensures sums { AreSupports edges.now supports.new }
    ensures count { length supports.new ≡ length supports.old }
{
    for edge in edges {
        raise_support(supports, edge.target, edge.amount);
    }
}

/// Adds the amount to the support of the target, where it is kept.
fn raise_support(supports: &mut [u128], target: u16, amount: u64)
    requires { slice_index_or supports.old target 0 + amount < 2 ^ 128 }
    ensures raised { (other : ℕ) → other < length supports.old
        → slice_index_or supports.new other 0
        ≡ slice_index_or supports.old other 0 + (if nat_eq target other then amount else 0) }
    ensures count { length supports.new ≡ length supports.old }
{
    let place = usize::from(target);
    if place < supports.len() {
        supports[place] += u128::from(amount);
    }
}

/// As many zeros.
fn zeros(alloc: Global, count: usize) -> Result<Vec<u128>, NoMemory>
    ensures count { IfOk result (λ zeros. length zeros.items ≡ count) }
    ensures zero { IfOk result (λ zeros. (k : ℕ) → slice_index_or zeros.items k 0 ≡ 0) }
{
    let zeros = vec![in alloc; 0; count]?;
    Ok(zeros)
}

/// How many nominations there are, each voter looked at once. No list of edges along nominations is
/// longer, so who makes room for so many never asks for more.
pub fn count_votes(snapshot: &Snapshot) -> usize
    ensures { result ≡ vote_count snapshot.now }
{
    let mut votes = 0;
    for voter in 0..snapshot.voter_count() {
        votes += snapshot.votes(voter as u32).len();
    }
    votes
}
