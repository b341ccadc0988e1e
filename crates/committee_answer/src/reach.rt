//! From whom there is a way to a member that takes more.
ghost use Rattle.std.specs.Prelude.{◌≡◌, ◌≤◌, ◌<◌, ℕ, length, nat_lt, IsTrue, IsFalse, IfOk, OnOk};
ghost use Rattle.npos_base.specs.declared.limits.TheConstants.{MOST_TARGETS};
ghost use Rattle.committee_answer.specs.Offers.{AreSmall, edge_at};
ghost use Rattle.committee_answer.specs.Ways.{AreLists, IsReach, IsReached, IsWhole, MembersFollow, SparesFollow, StayReached, VotersFollow, unreached};

use crate::lists::Lists;
use crate::offers::Offers;
use election_snapshot::Snapshot;
use npos_base::NoMemory;
use std::alloc::Global;

/// More steps than any way has.
const FAR: u32 = u32::MAX;

/// How far it is to a member that takes more, and along which edge it goes first.
#[derive(Clone, Copy)]
pub(crate) struct Way {
    pub steps: u32,
    pub edge: usize,
}

const NO_WAY: Way = Way {
    steps: FAR,
    edge: 0,
};

impl Way {
    /// Whether it is one.
    pub fn leads(&self) -> bool
        ensures { result ≡ nat_lt self.now.steps FAR }
    {
        self.steps < FAR
    }
}

/// The ways of voters and members.
#[derive(Drop)]
pub(crate) struct Reach {
    /// By voter.
    pub voters: Vec<Way>,
    /// By target.
    pub members: Vec<Way>,
    /// The members in the order in which they are reached.
    queue: Vec<u16>,
    /// The voters in the order in which they are reached, mostly by rising steps: no answer rests on
    /// it.
    pub order: Vec<u32>,
}

impl Reach {
    /// No way yet, and room for the voters and targets of the snapshot.
    pub fn new(alloc: Global, snapshot: &Snapshot) -> Result<Reach, NoMemory>
        ensures voters { IfOk result (λ reach. length reach.voters.items ≡ length snapshot.now.voters) }
        ensures targets { IfOk result (λ reach. length reach.members.items ≡ length snapshot.now.targets) }
    {
        let voters = vec![in alloc; NO_WAY; snapshot.voter_count()]?;
        let members = vec![in alloc; NO_WAY; snapshot.target_count()]?;
        Ok(Reach {
            voters,
            members,
            queue: Vec::with_capacity(alloc, snapshot.target_count())?,
            order: Vec::with_capacity(alloc, snapshot.voter_count())?,
        })
    }

    /// Finds all ways.
    pub fn find(&mut self, offers: &Offers, lists: &Lists) -> Result<(), NoMemory>
        requires small { AreSmall offers.now }
        requires lists { AreLists offers.now lists.now }
        requires voters { length self.old.voters.items ≡ length offers.now.left.items }
        requires members { length self.old.members.items ≡ length offers.now.spare.items }
        requires few { length offers.now.spare.items ≤ MOST_TARGETS }
        ensures reach { OnOk result (IsReach offers.now self.new.voters.items self.new.members.items) }
        ensures whole { OnOk result (IsWhole offers.now self.new.voters.items self.new.members.items) }
    {
        self.begin(offers)?;
        self.search(offers, lists)?;
        'spreads: while self.spread(offers) {}
        Ok(())
    }

    /// The members that take more are reached, and nobody else yet.
    fn begin(&mut self, offers: &Offers) -> Result<(), NoMemory>
        requires voters { length self.old.voters.items ≡ length offers.now.left.items }
        requires members { length self.old.members.items ≡ length offers.now.spare.items }
        requires few { length offers.now.spare.items ≤ MOST_TARGETS }
        ensures reach { OnOk result (IsReach offers.now self.new.voters.items self.new.members.items) }
        ensures spare { OnOk result (SparesFollow offers.now self.new.members.items) }
    {
        self.voters.fill(NO_WAY);
        self.members.fill(NO_WAY);
        self.queue.clear();
        self.order.clear();
        for target in 0..offers.spare.len() {
            if offers.spare[target] > 0 {
                self.members[target] = Way { steps: 0, edge: 0 };
                self.queue.push(target as u16)?;
            }
        }
        Ok(())
    }

    /// Searches from member to member, in the order in which they are reached.
    fn search(&mut self, offers: &Offers, lists: &Lists) -> Result<(), NoMemory>
        requires small { AreSmall offers.now }
        requires lists { AreLists offers.now lists.now }
        requires reach { IsReach offers.now self.old.voters.items self.old.members.items }
        ensures reach { OnOk result (IsReach offers.now self.new.voters.items self.new.members.items) }
        ensures stay { OnOk result (StayReached self.old.members.items self.new.members.items) }
    {
        for next in 0..offers.spare.len() {
            if next >= self.queue.len() {
                return Ok(());
            }
            let target = self.queue[next];
            self.search_member(target, offers, lists)?;
        }
        Ok(())
    }

    /// Reaches the voters that nominate the member, and searches on from them.
    fn search_member(&mut self, target: u16, offers: &Offers, lists: &Lists) -> Result<(), NoMemory>
        requires small { AreSmall offers.now }
        requires lists { AreLists offers.now lists.now }
        requires reach { IsReach offers.now self.old.voters.items self.old.members.items }
        ensures reach { OnOk result (IsReach offers.now self.new.voters.items self.new.members.items) }
        ensures stay { OnOk result (StayReached self.old.members.items self.new.members.items) }
    {
        if usize::from(target) >= lists.heads.len() {
            return Ok(());
        }
        let mut place = lists.heads[usize::from(target)];
        'edges: for _ in 0..offers.edges.len() {
            if place >= offers.edges.len() {
                return Ok(());
            }
            if self.reach_voter(offers, place) {
                self.search_voter(offers.edges[place].voter, offers, lists)?;
            }
            place = lists.nexts[place];
        }
        Ok(())
    }

    /// Reaches the members that have something of the voter.
    fn search_voter(&mut self, voter: u32, offers: &Offers, lists: &Lists) -> Result<(), NoMemory>
        requires small { AreSmall offers.now }
        requires lists { AreLists offers.now lists.now }
        requires voter { voter < length offers.now.left.items }
        requires reach { IsReach offers.now self.old.voters.items self.old.members.items }
        ensures reach { OnOk result (IsReach offers.now self.new.voters.items self.new.members.items) }
        ensures stay { OnOk result (StayReached self.old.members.items self.new.members.items) }
    {
        self.order.push(voter)?;
        for place in lists.begins[voter as usize]..offers.edges.len() {
            if offers.edges[place].voter != voter {
                return Ok(());
            }
            if self.reach_member(offers, place) {
                self.queue.push(offers.edges[place].target)?;
            }
        }
        Ok(())
    }

    /// Reaches the voter of the edge, where its member is reached. Tells whether it was not before.
    fn reach_voter(&mut self, offers: &Offers, place: usize) -> bool
        requires small { AreSmall offers.now }
        requires place { place < length offers.now.edges.items }
        requires reach { IsReach offers.now self.old.voters.items self.old.members.items }
        ensures reach { IsReach offers.now self.new.voters.items self.new.members.items }
        ensures members { self.new.members.items ≡ self.old.members.items }
        ensures stay { StayReached self.old.voters.items self.new.voters.items }
        ensures follows { IsReached self.new.members.items (edge_at offers.now place).target
            → IsReached self.new.voters.items (edge_at offers.now place).voter }
    {
        let edge = offers.edges[place];
        let way = self.members[usize::from(edge.target)];
        let is_new = way.leads() && !self.voters[edge.voter as usize].leads();
        if is_new {
            self.voters[edge.voter as usize] = Way {
                steps: way.steps,
                edge: place,
            };
        }
        is_new
    }

    /// Reaches the member of the edge, where its voter is reached and something is given. Tells
    /// whether it was not before.
    fn reach_member(&mut self, offers: &Offers, place: usize) -> bool
        requires small { AreSmall offers.now }
        requires place { place < length offers.now.edges.items }
        requires reach { IsReach offers.now self.old.voters.items self.old.members.items }
        ensures reach { IsReach offers.now self.new.voters.items self.new.members.items }
        ensures voters { self.new.voters.items ≡ self.old.voters.items }
        ensures stay { StayReached self.old.members.items self.new.members.items }
        ensures follows { IsReached self.new.voters.items (edge_at offers.now place).voter
            → 0 < (edge_at offers.now place).amount
            → IsReached self.new.members.items (edge_at offers.now place).target }
        ensures none { IsFalse result → self.new.members.items ≡ self.old.members.items }
        ensures fewer { IsTrue result → unreached self.new.members.items < unreached self.old.members.items }
    {
        let edge = offers.edges[place];
        let way = self.voters[edge.voter as usize];
        if !way.leads() || edge.amount == 0 {
            return false;
        }
        if self.members[usize::from(edge.target)].leads() {
            return false;
        }
        self.members[usize::from(edge.target)] = Way {
            steps: way.steps + 1,
            edge: place,
        };
        true
    }

    /// Looks at each edge once more, whatever was found. Tells whether a member was reached that was
    /// not before.
    fn spread(&mut self, offers: &Offers) -> bool
        requires small { AreSmall offers.now }
        requires reach { IsReach offers.now self.old.voters.items self.old.members.items }
        ensures reach { IsReach offers.now self.new.voters.items self.new.members.items }
        ensures stay { StayReached self.old.members.items self.new.members.items }
        ensures voters { IsFalse result → VotersFollow offers.now self.new.voters.items
            self.new.members.items (length offers.now.edges.items) }
        ensures members { IsFalse result → MembersFollow offers.now self.new.voters.items
            self.new.members.items (length offers.now.edges.items) }
        ensures fewer { IsTrue result → unreached self.new.members.items < unreached self.old.members.items }
    {
        self.reach_voters(offers);
        self.reach_members(offers)
    }

    /// Reaches the voters of all edges to members that are reached.
    fn reach_voters(&mut self, offers: &Offers)
        requires small { AreSmall offers.now }
        requires reach { IsReach offers.now self.old.voters.items self.old.members.items }
        ensures reach { IsReach offers.now self.new.voters.items self.new.members.items }
        ensures members { self.new.members.items ≡ self.old.members.items }
        ensures follow { VotersFollow offers.now self.new.voters.items
            self.new.members.items (length offers.now.edges.items) }
    {
        for place in 0..offers.edges.len() {
            self.reach_voter(offers, place);
        }
    }

    /// Reaches the members of all edges that give something from voters that are reached. Tells
    /// whether one was not before.
    fn reach_members(&mut self, offers: &Offers) -> bool
        requires small { AreSmall offers.now }
        requires reach { IsReach offers.now self.old.voters.items self.old.members.items }
        ensures reach { IsReach offers.now self.new.voters.items self.new.members.items }
        ensures voters { self.new.voters.items ≡ self.old.voters.items }
        ensures stay { StayReached self.old.members.items self.new.members.items }
        ensures follow { MembersFollow offers.now self.new.voters.items
            self.new.members.items (length offers.now.edges.items) }
        ensures none { IsFalse result → self.new.members.items ≡ self.old.members.items }
        ensures fewer { IsTrue result → unreached self.new.members.items < unreached self.old.members.items }
    {
        let mut is_new = false;
        for place in 0..offers.edges.len() {
            if self.reach_member(offers, place) {
                is_new = true;
            }
        }
        is_new
    }
}
