//! How a member is kept: its backers by the places of their accounts.
ghost use Rattle.std.specs.Prelude.{◌≡◌, ◌+◌, ◌<◌, ◌^◌, List as list, IfOk};
ghost use Rattle.npos_base.specs.declared.account.AccountId.{AccountId};
ghost use Rattle.npos_base.specs.Account.{account_at};
ghost use Rattle.era_book.specs.Members.{newcomer, gaining};
ghost use Rattle.era_book.specs.Records.{member_from, record_of};
ghost use Rattle.era_book.specs.Seats.{Grows, AreWithin, backers_seen, member_seen};

use crate::names::Names;
use crate::{Backer, Exposure, MemberRecord};
use npos_base::{AccountId, List, NoMemory, Room};
use std::alloc::Global;

/// A backer by the place of its account among those of the era. A voter backs up to 24 validators,
/// and this takes 16 bytes where a backer with its account takes 48.
#[derive(Clone, Copy, Debug)]
pub struct Share {
    pub place: usize,
    pub amount: u64,
}

/// A member as it is kept.
#[derive(Debug, Drop)]
pub struct Seat {
    pub validator: AccountId,
    pub commission: u32,
    pub support: u64,
    pub shares: List<Share>,
    /// At most 2^32 - 1, where they stay.
    pub points: u32,
    /// Whether its part of the era's reward is claimed.
    pub claimed: bool,
    /// The greatest fraction that was reported, in billionths; 0 at first.
    pub fraction: u32,
}

impl Seat {
    /// A member as its era begins. The accounts of its backers are named.
    pub fn new(alloc: Global, names: &mut Names, exposure: &Exposure) -> Result<Seat, NoMemory>
        ensures grows { Grows names.old names.new }
        ensures seen { IfOk result
            (λ seat. member_seen names.new seat ≡ newcomer exposure.now) }
        ensures within { IfOk result (λ seat. AreWithin names.new seat.shares) }
    {
        let shares = named(alloc, names, exposure.backers.as_slice())?;
        Ok(Seat {
            validator: exposure.validator,
            commission: exposure.commission,
            support: exposure.support,
            shares,
            points: 0,
            claimed: false,
            fraction: 0,
        })
    }

    /// The member that the value stands for. The accounts of its backers are named.
    pub fn of(alloc: Global, names: &mut Names, value: &MemberRecord) -> Result<Seat, NoMemory>
        ensures grows { Grows names.old names.new }
        ensures seen { IfOk result
            (λ seat. member_seen names.new seat ≡ member_from value.now) }
        ensures within { IfOk result (λ seat. AreWithin names.new seat.shares) }
        ensures points { IfOk result (λ seat. seat.points < 2 ^ 32) }
    {
        let seat = Seat::new(alloc, names, &value.exposure)?;
        Ok(seat.later(value.points, value.claimed, value.fraction))
    }

    /// The seat after this became of its member.
    fn later(self, points: u32, claimed: bool, fraction: u32) -> Seat
        ensures seat { result
            ≡ record self { points = points; claimed = claimed; fraction = fraction } }
        ensures points { result.points < 2 ^ 32 }
    {
        let mut seat = self;
        seat.points = points;
        seat.claimed = claimed;
        seat.fraction = fraction;
        seat
    }

    /// The member as a value, with the accounts of its backers by place.
    pub fn value(&self, alloc: Global, accounts: &[AccountId]) -> Result<MemberRecord, NoMemory>
        ensures { IfOk result (λ value. value ≡ record_of (member_seen accounts.now self.now)) }
    {
        let backers = backers_at(alloc, accounts, self.shares.as_slice())?;
        let exposure = Exposure {
            validator: self.validator,
            commission: self.commission,
            support: self.support,
            backers,
        };
        Ok(MemberRecord {
            exposure,
            points: self.points,
            claimed: self.claimed,
            fraction: self.fraction,
        })
    }

    /// Adds the points, up to the most that a member can have, and answers how many those were.
    pub fn gain(&mut self, points: u32) -> u32
        ensures member { (accounts : list AccountId) → member_seen accounts self.new
            ≡ gaining points (member_seen accounts self.old) }
        ensures added { self.old.points + result ≡ self.new.points }
    {
        let added = points.min(u32::MAX - self.points);
        self.points += added;
        added
    }
}

/// The backers by the places of their accounts.
fn named(alloc: Global, names: &mut Names, backers: &[Backer]) -> Result<List<Share>, NoMemory>
    ensures grows { Grows names.old names.new }
    ensures seen { IfOk result (λ shares. backers_seen names.new shares ≡ backers.now) }
    ensures within { IfOk result (λ shares. AreWithin names.new shares) }
{
    let mut shares = Room::with_room(alloc, backers.len())?;
    for backer in backers {
        let place = names.place(backer.who)?;
        shares.push_within(Share {
            place,
            amount: backer.amount,
        });
    }
    Ok(shares.into_list())
}

/// The backers whose accounts stand at these places.
fn backers_at(
    alloc: Global,
    accounts: &[AccountId],
    shares: &[Share],
) -> Result<List<Backer>, NoMemory>
    ensures { IfOk result (λ backers. backers ≡ backers_seen accounts.now shares.now) }
{
    let mut backers = Room::with_room(alloc, shares.len())?;
    for share in shares {
        backers.push_within(Backer {
            who: account_at(accounts, share.place),
            amount: share.amount,
        });
    }
    Ok(backers.into_list())
}

/// The account at the place.
pub fn account_at(accounts: &[AccountId], place: usize) -> AccountId
    ensures { result ≡ account_at accounts.now place }
{
    match accounts.get(place) {
        Some(account) => *account,
        None => AccountId { hi: 0, lo: 0 },
    }
}
