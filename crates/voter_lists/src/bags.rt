//! The bags, after Substrate's bags-list pallet: accounts by coarse score, so that no list is ever
//! sorted.
ghost use Rattle.std.specs.Prelude.{◌≡◌, ◌≢◌, ◌≤◌, [], ◌∷◌, length, IsTrue, Some, None, Ok, IfOk, IsOk, IfErr, OnOk, OnErr, not, true, false, slice_get};
ghost use Rattle.std.specs.List.{IsDistinct};
ghost use Rattle.npos_base.specs.Account.{same_account};
ghost use Rattle.npos_base.specs.declared.limits.TheConstants.{MOST_THRESHOLDS};
ghost use Rattle.voter_lists.specs.Owed.{Meets};
ghost use Rattle.voter_lists.specs.declared.refusal.ListRefusal.TheVariants as refusals;
ghost use Rattle.voter_lists.specs.Bags.{Listing, IsRisingFrom, bag_of, number_of, is_listed, walk, account_after, inserted, removed, moved, updated, is_at_home, rebag_refusal, put_in_front, put_in_front_refusal};

use crate::ListRefusal;
use crate::nodes::Nodes;
use crate::walk::Walk;
use npos_base::{AccountId, List, NoMemory};
use std::alloc::Global;
use std::marker::Model;

/// The bags between thresholds of score. Contracts see the thresholds and the one list of accounts
/// with the numbers of their bags, in the order of the walk.
#[derive(Drop)]
pub struct Bags {
    thresholds: List<u64>,
    nodes: Nodes,
}

impl Model for Bags {
    ghost use Rattle.voter_lists.specs.Bags.{Listing};

    ghost Value = { Listing };

    ghost use Rattle.voter_lists.specs.BagRows.{walk_from};
    ghost use Rattle.voter_lists.specs.Nodes.{bags_in, AreLinked};

    ghost view = { λ b. record {
      thresholds = b.thresholds;
      order = walk_from 0 (bags_in b.nodes);
    } };

    ghost invariant = { λ b. AreLinked b.thresholds b.nodes };
}

impl Bags {
    /// Empty bags, one more than there are thresholds.
    pub fn new(alloc: Global, thresholds: List<u64>) -> Result<Bags, NoMemory>
        requires few { length thresholds ≤ MOST_THRESHOLDS }
        requires rising { IsRisingFrom 0 thresholds }
        ensures { IfOk result (λ bags. bags ≡ record { thresholds = thresholds; order = [] }) }
    {
        let nodes = Nodes::new(alloc, thresholds.len() + 1)?;
        Ok(Bags { thresholds, nodes })
    }

    /// Makes room for so many accounts more, so that they come without a move of those that are
    /// there. What is not used of it stays untouched.
    pub fn reserve(&mut self, more: usize) -> Result<(), NoMemory>
        ensures { self.new ≡ self.old }
    {
        self.nodes.reserve(more)
    }

    /// The account joins the tail of the bag of its score.
    pub fn insert(&mut self, who: AccountId, score: u64) -> Result<(), NoMemory>
        requires { is_listed self.old.order who ≡ false }
        ensures ok { OnOk result (self.new ≡ inserted self.old who score) }
        ensures err { OnErr result (self.new ≡ self.old) }
    {
        let number = number_of_score(self.thresholds.as_slice(), score);
        self.nodes.join(who, number)
    }

    /// The account leaves its bag. It takes no memory.
    pub fn remove(&mut self, who: AccountId)
        requires { is_listed self.old.order who ≡ true }
        ensures { self.new ≡ removed self.old who }
    {
        self.nodes.leave(who);
    }

    /// Whether the account stands in a bag.
    pub fn contains(&self, who: AccountId) -> bool
        ensures { result ≡ is_listed self.now.order who }
    {
        self.nodes.find(who).is_some()
    }

    /// The number of the bag in which the account stands: that of the lowest is 0.
    pub fn bag(&self, who: AccountId) -> u32
        requires { is_listed self.now.order who ≡ true }
        ensures { number_of self.now.order who ≡ Some result }
    {
        let Some((_, home)) = self.nodes.find(who) else {
            unreachable!()
        };
        home as u32
    }

    /// What the first slot of the account says, by which it is found. Nothing rests on it: who peeks
    /// for many accounts has read their slots before the first of them is sought.
    pub fn peek(&self, who: AccountId) -> u32 {
        self.nodes.peek(who)
    }

    /// Moves the account to the tail of the bag of this score, where that is another one, and tells
    /// whether it was. It takes no memory.
    pub fn update(&mut self, who: AccountId, score: u64) -> Result<bool, NoMemory>
        requires { is_listed self.old.order who ≡ true }
        ensures answer { IfOk result (λ changed. changed ≡ not (is_at_home self.old who score)) }
        ensures ok { OnOk result (self.new ≡ updated self.old who score) }
        ensures err { OnErr result (self.new ≡ self.old) }
        ensures never { IsOk result }
    {
        let Some((place, home)) = self.nodes.find(who) else {
            unreachable!()
        };
        let number = number_of_score(self.thresholds.as_slice(), score);
        if home == number {
            return Ok(false);
        }
        self.nodes.move_to(place, home, number);
        Ok(true)
    }

    /// Moves the account to the tail of the bag of this score. It takes no memory.
    pub fn rebag(&mut self, who: AccountId, score: u64) -> Result<(), ListRefusal>
        ensures meets { Meets (rebag_refusal self.old who score)
            (moved self.old who score) self.old self.new result }
        ensures never { IfErr result (λ refusal. refusal ≢ refusals.NoMemory) }
    {
        if !self.contains(who) {
            return Err(ListRefusal::NotListed);
        }
        if !self.update(who, score)? {
            return Err(ListRefusal::SameBag);
        }
        Ok(())
    }

    /// Moves the account directly before a lighter one of its bag. In front of itself it stays
    /// where it is. It takes no memory.
    pub fn put_in_front(
        &mut self,
        who: AccountId,
        score: u64,
        lighter: AccountId,
        lighter_score: u64,
    ) -> Result<(), ListRefusal>
        ensures meets { Meets (put_in_front_refusal self.old who score lighter lighter_score)
            (put_in_front self.old who lighter) self.old self.new result }
        ensures never { IfErr result (λ refusal. refusal ≢ refusals.NoMemory) }
    {
        let Some((place, home)) = self.nodes.find(who) else {
            return Err(ListRefusal::NotListed);
        };
        let Some((other, other_home)) = self.nodes.find(lighter) else {
            return Err(ListRefusal::NotListed);
        };
        if home != other_home {
            return Err(ListRefusal::OtherBag);
        }
        if score <= lighter_score {
            return Err(ListRefusal::NotHeavier);
        }
        if who == lighter {
            return Ok(());
        }
        self.nodes.put_before(place, home, other);
        Ok(())
    }

    /// The first account of the walk.
    pub fn first(&self) -> Option<AccountId>
        ensures { result ≡ slice_get (walk self.now.order) 0 }
    {
        self.nodes.first_below(self.nodes.count())
    }

    /// The account after this one in the walk, from the highest bag down and within a bag from head
    /// to tail.
    pub fn next(&self, who: AccountId) -> Option<AccountId>
        requires { is_listed self.now.order who ≡ true }
        ensures { result ≡ account_after (walk self.now.order) who }
    {
        let Some((place, home)) = self.nodes.find(who) else {
            unreachable!()
        };
        match self.nodes.next_in(place, home) {
            Some(other) => Some(self.nodes.account(other, home)),
            None => self.nodes.first_below(home),
        }
    }

    /// The walk over all accounts, from the highest bag down and within a bag from head to tail. It
    /// comes to each once.
    pub fn walk(&self) -> Walk<'_>
        ensures accounts { result ≡ walk self.now.order }
        ensures once { IsDistinct same_account (walk self.now.order) }
    {
        Walk::over(&self.nodes)
    }
}

/// How many thresholds are below the score.
fn number_of_score(thresholds: &[u64], score: u64) -> usize
    requires { IsRisingFrom 0 thresholds.now }
    ensures number { result ≡ bag_of thresholds.now score }
    ensures within { result ≤ length thresholds.now }
{
    thresholds.partition_point(|threshold| *threshold < score)
}
