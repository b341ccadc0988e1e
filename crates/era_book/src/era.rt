//! The members of one era.
ghost use Rattle.std.specs.Prelude.{◌≡◌, ◌<◌, ◌≤◌, [], length, map, fold, is_some, IfSome, IfOk};
ghost use Rattle.std.specs.List.{list_all};
ghost use Rattle.era_book.specs.Payouts.{part};
ghost use Rattle.era_book.specs.Members.{member_of, members_with, with_points, with_member, total_points};
ghost use Rattle.era_book.specs.Committee.{IsElected, edges_by_voter, exposure_of};
ghost use Rattle.std.specs.List.Sorted.{IsStrictlySortedBy};
ghost use Rattle.std.specs.Map.{keys_of, values_of};
ghost use Rattle.npos_base.specs.Account.{account_cmp};
ghost use Rattle.era_book.specs.Records.{members_from, record_of};
ghost use Rattle.era_book.specs.Calls.{claiming, keeping};

use crate::accounts::Accounts;
use crate::elected::seats_by_voter;
use crate::member::Member;
use crate::names::Names;
use crate::seat::Seat;
use crate::seats::Seats;
use crate::{Exposure, MemberRecord};
use npos_base::{AccountId, Edge, List, NoMemory, Room};
use std::alloc::Global;
use std::marker::Model;

/// The members of one era, and all their points together. Contracts see the list of accounts with
/// their members, by rising account.
#[derive(Drop)]
pub struct Era {
    /// The accounts of the backers, by place.
    accounts: Accounts,
    members: Seats,
    points: u128,
}

impl Model for Era {
    ghost use Rattle.era_book.specs.Members.{Members, IsCounted};
    ghost use Rattle.era_book.specs.Seats.{members_seen};

    ghost Value = { Members };

    ghost view = { λ era. members_seen era.accounts era.members };

    ghost invariant = { λ era.
        IsCounted (members_seen era.accounts era.members) era.points };
}

impl Era {
    /// No member. It takes no memory.
    pub fn new(alloc: Global) -> Era
        ensures { result ≡ [] }
    {
        Era {
            accounts: Accounts::none(),
            members: Seats::new(alloc),
            points: 0,
        }
    }

    /// The members of an era that begins with these exposures, which move into it.
    pub fn with_exposures(alloc: Global, exposures: List<Exposure>) -> Result<Era, NoMemory>
        ensures { IfOk result (λ era. era ≡ members_with exposures) }
    {
        if exposures.is_empty() {
            return Ok(Era::new(alloc));
        }
        let mut names = Names::new(alloc)?;
        let mut members = Seats::with_room(alloc, exposures.len())?;
        for exposure in exposures.into_vec() {
            let member = Seat::new(alloc, &mut names, &exposure)?;
            members.insert(member)?;
        }
        let named = names.accounts(alloc)?;
        let accounts = Accounts::new(alloc, named)?;
        Ok(Era {
            accounts,
            members,
            points: 0,
        })
    }

    /// The members that these values stand for, whose accounts rise strictly.
    pub fn with_values(alloc: Global, values: List<MemberRecord>) -> Result<Era, NoMemory>
        requires { IsStrictlySortedBy account_cmp (keys_of (members_from values)) }
        ensures { IfOk result (λ era. era ≡ members_from values) }
    {
        if values.is_empty() {
            return Ok(Era::new(alloc));
        }
        let mut names = Names::new(alloc)?;
        let mut members = Seats::with_room(alloc, values.len())?;
        let mut points = 0;
        for value in values.into_vec() {
            let seat = Seat::of(alloc, &mut names, &value)?;
            members.insert(seat)?;
            points += u128::from(value.points);
        }
        let named = names.accounts(alloc)?;
        let accounts = Accounts::new(alloc, named)?;
        Ok(Era {
            accounts,
            members,
            points,
        })
    }

    /// The members as values, by rising account.
    pub fn values(&self, alloc: Global) -> Result<List<MemberRecord>, NoMemory>
        ensures { IfOk result (λ values. values ≡ map record_of (values_of self.now)) }
    {
        let mut values = Room::with_room(alloc, self.members.len())?;
        for seat in self.members.as_slice() {
            let value = seat.value(alloc, self.accounts.as_slice())?;
            values.push_within(value);
        }
        Ok(values.into_list())
    }

    /// The members of an era that begins with an elected committee, with their exposures by the
    /// edges in the order of the voters. The voters are kept as the accounts of the backers, in the
    /// memory of those of the era before if they are the same.
    pub fn elected(
        alloc: Global,
        before: &Era,
        targets: &[AccountId],
        commissions: &[u32],
        supports: &[u64],
        voters: List<AccountId>,
        members: &[u16],
        edges: &[Edge],
    ) -> Result<Era, NoMemory>
        requires commissions { length commissions.now ≡ length targets.now }
        requires supports { length supports.now ≡ length targets.now }
        requires elected { IsElected targets.now voters commissions.now supports.now edges.now
            members.now }
        ensures { IfOk result (λ era. era ≡ members_with (map
            (exposure_of targets.now commissions.now supports.now voters
            (edges_by_voter (length voters) edges.now)) members.now)) }
    {
        let members = seats_by_voter(
            alloc,
            targets,
            commissions,
            supports,
            voters.as_slice(),
            members,
            edges,
        )?;
        let accounts = before.accounts.or_same(alloc, voters.into_vec())?;
        Ok(Era {
            accounts,
            members,
            points: 0,
        })
    }

    /// The member with this account. It has at most the points of all together.
    pub fn get(&self, who: AccountId) -> Option<Member<'_>>
        ensures member { result ≡ member_of self.now who }
        ensures points { IfSome result (λ member. member.points ≤ total_points self.now) }
    {
        match self.members.get(who) {
            Some(seat) => Some(Member::of(self.accounts.as_slice(), seat)),
            None => None,
        }
    }

    /// Whether all these accounts are members.
    pub fn contains_all(&self, items: &[(AccountId, u32)]) -> bool
        ensures { result ≡ list_all (λ item. is_some (member_of self.now item.0)) items.now }
    {
        items.iter().all(|item| self.contains(item.0))
    }

    /// Whether the account is a member.
    fn contains(&self, who: AccountId) -> bool
        ensures { result ≡ is_some (member_of self.now who) }
    {
        self.members.contains(who)
    }

    /// The part of the reward that so many of the points earn.
    pub fn earned(&self, points: u32, reward: u64) -> u64
        requires some { 0 < points }
        requires within { points ≤ total_points self.now }
        ensures part { result ≡ part reward points (total_points self.now) }
        ensures within { result ≤ reward }
    {
        (u128::from(reward) * u128::from(points) / self.points) as u64
    }

    /// Adds points to members, one item after the other.
    pub fn gain_all(&mut self, items: &[(AccountId, u32)])
        ensures { self.new ≡ fold with_points self.old items.now }
    {
        for (who, points) in items {
            self.gain(*who, *points);
        }
    }

    /// Adds points to a member, up to the most that it can have.
    fn gain(&mut self, who: AccountId, points: u32)
        ensures { self.new ≡ with_points self.old (who, points) }
    {
        // There are fewer members than 2^64, so all their points fit.
        let _count = self.members.len();
        self.points += u128::from(self.members.gain(who, points));
    }

    /// Marks the member's part of the era's reward as claimed.
    pub fn claim(&mut self, who: AccountId)
        ensures { self.new ≡ with_member who claiming self.old }
    {
        self.members.claim(who);
    }

    /// Keeps the fraction for the member.
    pub fn keep(&mut self, who: AccountId, fraction: u32)
        ensures { self.new ≡ with_member who (keeping fraction) self.old }
    {
        self.members.keep(who, fraction);
    }
}
