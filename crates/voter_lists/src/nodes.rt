//! The accounts of all bags as linked nodes, so that no call searches a bag.
ghost use Rattle.std.specs.Prelude.{◌≡◌, ◌≢◌, ℕ, ◌+◌, ◌<◌, ◌≤◌, [], ◌∷◌, ◌++◌, length, Some, None, IfOk, IfSome, IfNone, OnOk, OnErr, map, take, slice_get, slice_set, slice_index_or};
ghost use Rattle.npos_base.specs.declared.account.AccountId.{AccountId};
ghost use Rattle.account_places.specs.Places.{place_in, by_account};
ghost use Rattle.voter_lists.specs.Bag.{without, with_before};
ghost use Rattle.voter_lists.specs.Bags.{account_after};
ghost use Rattle.voter_lists.specs.BagRows.{falling};
ghost use Rattle.voter_lists.specs.Rings.{list_of, list_count, items, after, IsFit, Relinks};
ghost use Rattle.npos_base.specs.Account.{account_at};
ghost use Rattle.voter_lists.specs.Nodes.{bags_in, home_of, IsStanding, Becomes, Stays, IsTop, IsWalk, moved_bags, ahead};

use crate::rings::Rings;
use account_places::Places;
use npos_base::{AccountId, NoMemory};
use std::alloc::Global;

/// A node for each account that was ever listed: its place among the accounts, and that place in
/// the list of its bag, where it is listed. An account keeps its place for good, so that it leaves
/// and comes back without a change of the places.
#[derive(Drop)]
pub(crate) struct Nodes {
    rings: Rings,
    places: Places,
    bags: usize,
}

impl Nodes {
    /// So many empty bags.
    pub(crate) fn new(alloc: Global, bags: usize) -> Result<Nodes, NoMemory>
        requires { bags ≤ 256 }
        ensures bags { IfOk result (λ nodes. (number : ℕ) → items nodes.rings number ≡ []) }
        ensures count { IfOk result (λ nodes. nodes.bags ≡ bags) }
        ensures homes { IfOk result (λ nodes. nodes.places ≡ []) }
        ensures standing { IfOk result (λ nodes. IsStanding nodes) }
    {
        let rings = Rings::new(alloc, bags)?;
        Ok(Nodes {
            rings,
            places: Places::new(alloc),
            bags,
        })
    }

    /// Makes room for so many accounts more.
    pub(crate) fn reserve(&mut self, more: usize) -> Result<(), NoMemory>
        ensures rings { self.new.rings ≡ self.old.rings }
        ensures places { self.new.places ≡ self.old.places }
        ensures bags { self.new.bags ≡ self.old.bags }
    {
        self.places.reserve(more)?;
        self.rings.reserve(more)
    }

    /// The place of a listed account, and its bag.
    pub(crate) fn find(&self, who: AccountId) -> Option<(usize, usize)>
        requires { IsStanding self.now }
        ensures found { IfSome result (λ at. (place_in (by_account self.now.places) who ≡ Some at.0)
            × (home_of self.now who ≡ Some at.1) × (at.1 < self.now.bags)) }
        ensures absent { IfNone result (home_of self.now who ≡ None) }
    {
        let place = self.places.find(who)?;
        match self.rings.list_of(place) {
            Some(number) => Some((place, number)),
            None => None,
        }
    }

    /// What the first slot of the account says. Nothing rests on it.
    pub(crate) fn peek(&self, who: AccountId) -> u32 {
        self.places.peek(who)
    }

    /// The place of an account, which has one from now on, with room for its links.
    fn place_for(&mut self, who: AccountId) -> Result<usize, NoMemory>
        requires { IsStanding self.old }
        ensures place { OnOk result (IfOk result (λ place.
            place_in (by_account self.new.places) who ≡ Some place)) }
        ensures stays { Stays self.old self.new }
    {
        if let Some(place) = self.places.find(who) {
            return Ok(place);
        }
        let place = self.places.count();
        self.rings.reserve_key(place)?;
        self.places.put(who)?;
        Ok(place)
    }

    /// An account that is not listed joins the tail of a bag.
    pub(crate) fn join(&mut self, who: AccountId, number: usize) -> Result<(), NoMemory>
        requires standing { IsStanding self.old }
        requires within { number < self.old.bags }
        requires absent { home_of self.old who ≡ None }
        ensures ok { OnOk result (Becomes self.old self.new
            (slice_set (bags_in self.old) number (slice_index_or (bags_in self.old) number [] ++ who
            ∷ []))
            who (Some number)) }
        ensures err { OnErr result (Stays self.old self.new) }
    {
        let place = self.place_for(who)?;
        self.rings.push_back(number, place);
        Ok(())
    }

    /// A listed account leaves its bag.
    pub(crate) fn leave(&mut self, who: AccountId)
        requires standing { IsStanding self.old }
        requires listed { home_of self.old who ≢ None }
        ensures { (number : ℕ) × (home_of self.old who ≡ Some number) × Becomes self.old self.new
            (slice_set (bags_in self.old) number
            (without (slice_index_or (bags_in self.old) number []) who))
            who None }
    {
        let Some((place, number)) = self.find(who) else {
            unreachable!()
        };
        self.rings.unlink(number, place);
    }

    /// A listed account leaves its bag for the tail of another one.
    pub(crate) fn move_to(&mut self, place: usize, home: usize, number: usize)
        requires standing { IsStanding self.old }
        requires listed { list_of self.old.rings place ≡ Some home }
        requires within { home < self.old.bags }
        requires number { number < self.old.bags }
        requires apart { home ≢ number }
        ensures { (who : AccountId) → place_in (by_account self.old.places) who ≡ Some place
            → Becomes self.old self.new (moved_bags (bags_in self.old) who home number) who
            (Some number) }
    {
        self.relink(place, home, number);
    }

    /// A listed account goes directly before another one of its bag.
    pub(crate) fn put_before(&mut self, place: usize, number: usize, other: usize)
        requires standing { IsStanding self.old }
        requires listed { list_of self.old.rings place ≡ Some number }
        requires beside { list_of self.old.rings other ≡ Some number }
        requires within { number < self.old.bags }
        requires apart { other ≢ place }
        ensures { (who lighter : AccountId) → place_in (by_account self.old.places) who ≡ Some place
            → place_in (by_account self.old.places) lighter ≡ Some other
            → Becomes self.old self.new
            (slice_set (bags_in self.old) number
            (with_before (without (slice_index_or (bags_in self.old) number []) who) who lighter))
            who (Some number) }
    {
        self.rings.unlink(number, place);
        self.rings.put_before(number, place, other);
    }

    /// A place leaves one list for the end of another.
    fn relink(&mut self, place: usize, from: usize, to: usize)
        requires fit { IsFit self.old.rings }
        requires listed { list_of self.old.rings place ≡ Some from }
        requires within { to < list_count self.old.rings }
        ensures nodes { self.new ≡ record self.old { rings = self.new.rings } }
        ensures relinks { Relinks self.old.rings self.new.rings place from to }
    {
        self.rings.unlink(from, place);
        self.rings.push_back(to, place);
    }

    /// The highest bag below this number that has an account, and the place of its head.
    pub(crate) fn top_below(&self, number: usize) -> Option<(usize, usize)>
        requires standing { IsStanding self.now }
        requires within { number ≤ self.now.bags }
        ensures some { IfSome result (λ top. IsTop self.now number top.0 top.1) }
        ensures none { IfNone result (falling (take number (bags_in self.now)) ≡ []) }
    {
        let mut lower = number;
        while lower > 0 {
            lower -= 1;
            if let Some(place) = self.rings.front(lower) {
                return Some((lower, place));
            }
        }
        None
    }

    /// The place at which a walk goes on, and its bag.
    pub(crate) fn next_place(&self, here: Option<usize>, number: usize) -> Option<(usize, usize)>
        requires { IsWalk self.now number here }
        ensures some { IfSome result
            (λ at. (ahead self.now number here ≡ ahead self.now at.0 (Some at.1))
            × (list_of self.now.rings at.1 ≡ Some at.0) × (at.0 < self.now.bags)) }
        ensures none { IfNone result (ahead self.now number here ≡ []) }
    {
        match here {
            Some(place) => Some((number, place)),
            None => self.top_below(number),
        }
    }

    /// The first account of the bags below this number, from the highest down.
    pub(crate) fn first_below(&self, number: usize) -> Option<AccountId>
        requires standing { IsStanding self.now }
        requires within { number ≤ self.now.bags }
        ensures { result ≡ slice_get (falling (take number (bags_in self.now))) 0 }
    {
        match self.top_below(number) {
            Some((number, place)) => Some(self.account(place, number)),
            None => None,
        }
    }

    /// How many bags there are.
    pub(crate) fn count(&self) -> usize
        ensures { result ≡ self.now.bags }
    {
        self.bags
    }

    /// The account at a place in a bag.
    pub(crate) fn account(&self, place: usize, number: usize) -> AccountId
        requires standing { IsStanding self.now }
        requires listed { list_of self.now.rings place ≡ Some number }
        ensures { result ≡ account_at self.now.places place }
    {
        self.places.account(place)
    }

    /// The place after this one in its bag.
    pub(crate) fn next_in(&self, place: usize, number: usize) -> Option<usize>
        requires { list_of self.now.rings place ≡ Some number }
        ensures value { result ≡ after place (items self.now.rings number) }
        ensures member { IfSome result (λ other. list_of self.now.rings other ≡ Some number) }
    {
        self.rings.next(number, place)
    }
}
