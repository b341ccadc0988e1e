//! What voters offer members, and what is moved between them.
ghost use Rattle.std.specs.Prelude.{◌≡◌, ◌≢◌, ℕ, ◌+◌, ◌-◌, ◌≤◌, ◌<◌, ◌^◌, length, slice_set};
ghost use Rattle.committee_answer.specs.Offers.{AreMoved, AreSmall, IsGiven, IsTaken, at, edge_at};

use npos_base::Edge;

/// What the nominators of one target offer the members that they nominate. A voter offers its stake
/// times the seats, and a member takes at most the total stake, so that amounts need no fractions.
#[derive(Drop)]
pub(crate) struct Offers {
    /// What is given along each nomination of a member, by voter.
    pub edges: Vec<Edge>,
    /// By voter, what it has left of its offer.
    pub left: Vec<u128>,
    /// By target, how much more it takes: nothing where it is no member.
    pub spare: Vec<u64>,
    /// What all have left together.
    pub rest: u128,
}

impl Offers {
    /// Gives this much more along the edge.
    pub fn give(&mut self, place: usize, amount: u64)
        requires small { AreSmall self.old }
        requires place { place < length self.old.edges.items }
        requires left { amount ≤ at self.old.left.items (edge_at self.old place).voter }
        requires spare { amount ≤ at self.old.spare.items (edge_at self.old place).target }
        requires rest { amount ≤ self.old.rest }
        ensures small { AreSmall self.new }
        ensures moved { AreMoved self.old self.new }
        ensures given { IsGiven self.old self.new place amount }
        ensures rest { self.new.rest ≡ self.old.rest - amount }
    {
        let edge = self.edges[place];
        let more = Edge {
            voter: edge.voter,
            target: edge.target,
            amount: edge.amount + amount,
        };
        let left = self.left[edge.voter as usize] - u128::from(amount);
        let spare = self.spare[usize::from(edge.target)] - amount;
        let rest = self.rest - u128::from(amount);
        self.put(place, more, left, spare, rest);
    }

    /// Takes this much back of what is given along the edge.
    pub fn take_back(&mut self, place: usize, amount: u64)
        requires small { AreSmall self.old }
        requires place { place < length self.old.edges.items }
        requires given { amount ≤ (edge_at self.old place).amount }
        ensures small { AreSmall self.new }
        ensures moved { AreMoved self.old self.new }
        ensures taken { IsTaken self.old self.new place amount }
        ensures rest { self.new.rest ≡ self.old.rest + amount }
    {
        let edge = self.edges[place];
        let less = Edge {
            voter: edge.voter,
            target: edge.target,
            amount: edge.amount - amount,
        };
        let left = self.left[edge.voter as usize] + u128::from(amount);
        let spare = self.spare[usize::from(edge.target)] + amount;
        let rest = self.rest + u128::from(amount);
        self.put(place, less, left, spare, rest);
    }

    /// Gives along the edge as much as its voter has and its member takes.
    pub fn give_all(&mut self, place: usize)
        requires small { AreSmall self.old }
        requires place { place < length self.old.edges.items }
        ensures small { AreSmall self.new }
        ensures moved { AreMoved self.old self.new }
        ensures rest { self.new.rest ≤ self.old.rest }
        ensures less { 0 < at self.old.left.items (edge_at self.old place).voter
            → 0 < at self.old.spare.items (edge_at self.old place).target → self.new.rest < self.old.rest }
    {
        let edge = self.edges[place];
        let left = self.left[edge.voter as usize];
        let spare = self.spare[usize::from(edge.target)];
        let amount = u128::from(spare).min(left);
        self.give(place, amount as u64);
    }

    /// The voter of the edge gives in place of that of another edge to the same member, as much as it
    /// has left and that one gives.
    pub fn hand_over(&mut self, place: usize, back: usize)
        requires small { AreSmall self.old }
        requires place { place < length self.old.edges.items }
        requires back { back < length self.old.edges.items }
        requires same { (edge_at self.old back).target ≡ (edge_at self.old place).target }
        ensures small { AreSmall self.new }
        ensures moved { AreMoved self.old self.new }
        ensures rest { self.new.rest ≡ self.old.rest }
        ensures spare { (target : ℕ) → at self.new.spare.items target ≡ at self.old.spare.items target }
        ensures others { (other : ℕ) → other ≢ back
            → (edge_at self.old other).amount ≤ (edge_at self.new other).amount }
        ensures got { (edge_at self.old back).voter ≢ (edge_at self.old place).voter
            → 0 < at self.old.left.items (edge_at self.old place).voter → 0 < (edge_at self.old back).amount
            → 0 < at self.new.left.items (edge_at self.old back).voter }
    {
        let edge = self.edges[place];
        let given = u128::from(self.edges[back].amount);
        let amount = given.min(self.left[edge.voter as usize]) as u64;
        self.take_back(back, amount);
        self.give(place, amount);
    }

    /// Puts the edge in place of one with the same ends, and what is left then.
    fn put(&mut self, place: usize, edge: Edge, left: u128, spare: u64, rest: u128)
        requires small { AreSmall self.old }
        requires place { place < length self.old.edges.items }
        requires voter { edge.voter ≡ (edge_at self.old place).voter }
        requires target { edge.target ≡ (edge_at self.old place).target }
        requires left { left + edge.amount
            ≡ at self.old.left.items edge.voter + (edge_at self.old place).amount }
        requires spare { spare + edge.amount
            ≡ at self.old.spare.items edge.target + (edge_at self.old place).amount }
        requires rest { rest + edge.amount ≡ self.old.rest + (edge_at self.old place).amount }
        ensures small { AreSmall self.new }
        ensures moved { AreMoved self.old self.new }
        ensures edges { self.new.edges.items ≡ slice_set self.old.edges.items place edge }
        ensures left { self.new.left.items ≡ slice_set self.old.left.items edge.voter left }
        ensures spare { self.new.spare.items ≡ slice_set self.old.spare.items edge.target spare }
        ensures rest { self.new.rest ≡ rest }
    {
        self.left[edge.voter as usize] = left;
        self.spare[usize::from(edge.target)] = spare;
        self.edges[place] = edge;
        self.rest = rest;
    }
}
