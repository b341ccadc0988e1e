//! The search for a target that is denied.
ghost use Rattle.std.specs.Prelude.{◌≡◌, ◌≤◌, ◌<◌, ℕ, length, nat_eq, All, IsTrue, IsFalse, IfOk, IfSome, OnOk};
ghost use Rattle.std.specs.List.{IsDistinct};
ghost use Rattle.weight_book.specs.Answered.{IsAnswered, IsDenied};
ghost use Rattle.weight_book.specs.Passing.{nominators};
ghost use Rattle.committee_answer.specs.Denials.{IsCase, IsFound};
ghost use Rattle.committee_answer.specs.Offers.{AreMoved, AreSmall};
ghost use Rattle.committee_answer.specs.Search.{AreTables, IsStuck};
ghost use Rattle.committee_answer.specs.Ways.{AreLists, stuck};

use crate::committee::Committee;
use crate::denied::Denied;
use crate::laying::{give_first, lay, no_offers};
use crate::lists::Lists;
use crate::moving::{first_mover, lead, move_all};
use crate::offers::Offers;
use crate::reach::Reach;
use crate::telling::{members_of_group, stake_of_group, stuck_of};
use election_snapshot::Snapshot;
use npos_base::NoMemory;
use seat_race::Nominators;
use std::alloc::Global;

/// Finds the lowest target that the committee denies a seat, and whom by, or None where it denies
/// nobody, which is where it has PJR+ of Brill and Peters (2023), with stakes. The group that is told
/// is that to which most is due, its stake times the seats less the total stake for each member that
/// it nominates; of several such it is the largest.
///
/// For each target its nominators give the members what they can of their offers. As long as the
/// price of a seat is left, what somebody has left goes to a member that takes more, maybe in place of
/// others, who then give elsewhere. The nominators that cannot do so are the group. Each round moves at
/// least one unit, so there are at most as many as the stakes have units times seats, and each takes
/// time linear in the nominations of the members by nominators of the target: in practice a few
/// rounds a target.
pub fn find_denied(
    alloc: Global,
    snapshot: &Snapshot,
    committee: &[u16],
) -> Result<Option<Denied>, NoMemory>
    requires distinct { IsDistinct nat_eq committee.now }
    requires in_range { All (λ member. member < length snapshot.now.targets) committee.now }
    ensures answered { result ≡ Ok None → IsAnswered snapshot.now committee.now }
    ensures denied { IfOk result (λ answer. IfSome answer (IsFound snapshot.now committee.now)) }
{
    let committee = Committee::new(alloc, snapshot, committee)?;
    let nominators = Nominators::new(alloc, snapshot)?;
    let mut search = Search::new(alloc, snapshot)?;
    for target in 0..snapshot.target_count() {
        let target = target as u16;
        let voters = nominators.of(target);
        if search.denies(snapshot, &committee, target, voters)? {
            let found = search.tell(alloc, snapshot, &committee, target, voters)?;
            return Ok(Some(found));
        }
    }
    Ok(None)
}

/// The tables of the search, which serve one target after the other.
#[derive(Drop)]
struct Search {
    offers: Offers,
    lists: Lists,
    reach: Reach,
    cursors: Vec<usize>,
}

impl Search {
    fn new(alloc: Global, snapshot: &Snapshot) -> Result<Search, NoMemory>
        ensures { IfOk result (AreTables snapshot.now) }
    {
        let offers = no_offers(alloc, snapshot)?;
        let lists = Lists::new(alloc, snapshot)?;
        let reach = Reach::new(alloc, snapshot)?;
        let cursors = vec![in alloc; 0; snapshot.target_count()]?;
        Ok(Search {
            offers,
            lists,
            reach,
            cursors,
        })
    }

    /// Whether the target, whose nominators are given, is denied: then the voters from whom there is no
    /// way show it.
    fn denies(
        &mut self,
        snapshot: &Snapshot,
        committee: &Committee<'_>,
        target: u16,
        voters: &[u32],
    ) -> Result<bool, NoMemory>
        requires distinct { IsDistinct nat_eq committee.now }
        requires members { All (λ member. member < length snapshot.now.targets) committee.now }
        requires target { target < length snapshot.now.targets }
        requires voters { voters.now ≡ nominators snapshot.now target }
        requires tables { AreTables snapshot.now self.old }
        ensures tables { OnOk result (AreTables snapshot.now self.new) }
        ensures no { IfOk result (λ denies. IsFalse denies → IsDenied snapshot.now committee.now target → ⊥) }
        ensures yes { IfOk result (λ denies. IsTrue denies → IsCase snapshot.now committee.now target
            (stuck self.new.reach.voters.items voters.now)) }
    {
        if committee.has(target) {
            return Ok(false);
        }
        lay(snapshot, committee, voters, &mut self.offers)?;
        let price = u128::from(snapshot.total());
        if self.offers.rest < price {
            return Ok(false);
        }
        give_first(&mut self.offers);
        self.lists.fill(&self.offers)?;
        let is_stuck = self.settle(snapshot, price, voters)?;
        Ok(is_stuck)
    }

    /// Moves what voters have left, until less than the price is left, or nothing can be moved.
    fn settle(&mut self, snapshot: &Snapshot, price: u128, voters: &[u32]) -> Result<bool, NoMemory>
        requires tables { AreTables snapshot.now self.old }
        requires small { AreSmall self.old.offers }
        requires lists { AreLists self.old.offers self.old.lists }
        requires voters { All (λ voter. voter < length snapshot.now.voters) voters.now }
        ensures tables { OnOk result (AreTables snapshot.now self.new) }
        ensures moved { OnOk result (AreMoved self.old.offers self.new.offers) }
        ensures no { IfOk result (λ is_stuck. IsFalse is_stuck → self.new.offers.rest < price) }
        ensures yes { IfOk result (λ is_stuck. IsTrue is_stuck → IsStuck price voters.now self.new.offers
            self.new.reach.voters.items self.new.reach.members.items) }
    {
        let _targets = snapshot.target_count();
        'rounds: while self.offers.rest >= price {
            self.reach.find(&self.offers, &self.lists)?;
            match first_mover(&self.offers, &self.reach, voters) {
                None => return Ok(true),
                Some(voter) => {
                    lead(&mut self.offers, &self.reach, voter);
                    move_all(
                        &mut self.offers,
                        &self.reach,
                        &self.lists,
                        &mut self.cursors,
                    );
                }
            }
        }
        Ok(false)
    }

    /// Tells of the target that is denied.
    fn tell(
        &self,
        alloc: Global,
        snapshot: &Snapshot,
        committee: &Committee<'_>,
        target: u16,
        voters: &[u32],
    ) -> Result<Denied, NoMemory>
        requires voters { voters.now ≡ nominators snapshot.now target }
        requires tables { AreTables snapshot.now self.now }
        requires case { IsCase snapshot.now committee.now target
            (stuck self.now.reach.voters.items voters.now) }
        requires lowest { (lower : ℕ) → lower < target → IsDenied snapshot.now committee.now lower → ⊥ }
        ensures { IfOk result (IsFound snapshot.now committee.now) }
    {
        let group = stuck_of(alloc, voters, &self.reach)?;
        let stake = stake_of_group(snapshot, &group);
        let members = members_of_group(alloc, snapshot, committee, &group)?;
        let seats = u128::from(snapshot.seats()) * u128::from(stake) / u128::from(snapshot.total());
        Ok(Denied {
            target,
            group,
            members,
            stake,
            seats: seats as u64,
        })
    }
}
