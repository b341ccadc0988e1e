//! Where the edges of voters and members stand.
ghost use Rattle.std.specs.Prelude.{◌≡◌, ◌<◌, ℕ, length, IfOk, OnOk};
ghost use Rattle.committee_answer.specs.Offers.{AreSmall};
ghost use Rattle.committee_answer.specs.Ways.{AreLists};

use crate::offers::Offers;
use election_snapshot::Snapshot;
use npos_base::NoMemory;
use std::alloc::Global;

/// No edge stands here.
const NOWHERE: usize = usize::MAX;

/// Where the edges of voters and members stand. It only says in which order edges are looked at: no
/// answer rests on it, so nothing is proved of it but that it is long enough.
#[derive(Drop)]
pub(crate) struct Lists {
    /// By voter, where its edges begin.
    pub begins: Vec<usize>,
    /// By target, the first edge to it.
    pub heads: Vec<usize>,
    /// By edge, the next one to its target.
    pub nexts: Vec<usize>,
}

impl Lists {
    /// Lists for the voters and targets of the snapshot, with no edge.
    pub fn new(alloc: Global, snapshot: &Snapshot) -> Result<Lists, NoMemory>
        ensures voters { IfOk result (λ lists. length lists.begins.items ≡ length snapshot.now.voters) }
        ensures targets { IfOk result (λ lists. length lists.heads.items ≡ length snapshot.now.targets) }
    {
        let begins = vec![in alloc; NOWHERE; snapshot.voter_count()]?;
        let heads = vec![in alloc; NOWHERE; snapshot.target_count()]?;
        Ok(Lists {
            begins,
            heads,
            nexts: Vec::new(alloc),
        })
    }

    /// Lists the edges, which stand by voter.
    pub fn fill(&mut self, offers: &Offers) -> Result<(), NoMemory>
        requires small { AreSmall offers.now }
        requires voters { length self.old.begins.items ≡ length offers.now.left.items }
        requires targets { length self.old.heads.items ≡ length offers.now.spare.items }
        ensures lists { OnOk result (AreLists offers.now self.new) }
        ensures voters { length self.new.begins.items ≡ length offers.now.left.items }
        ensures targets { length self.new.heads.items ≡ length offers.now.spare.items }
    {
        self.heads.fill(NOWHERE);
        self.nexts.clear();
        self.nexts.resize(offers.edges.len(), NOWHERE)?;
        for back in 0..offers.edges.len() {
            let place = offers.edges.len() - 1 - back;
            let edge = offers.edges[place];
            self.begins[edge.voter as usize] = place;
            self.nexts[place] = self.heads[usize::from(edge.target)];
            self.heads[usize::from(edge.target)] = place;
        }
        Ok(())
    }
}
