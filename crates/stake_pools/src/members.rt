//! The members of a pool, each found by its account.
ghost use Rattle.std.specs.Prelude.{◌≡◌, ◌+◌, ◌*◌, ◌/◌, ◌^◌, ◌<◌, ◌≤◌, [], length, is_some, option_map, IfOk, OnErr, OnOk, if◌then◌else◌};
ghost use Rattle.std.specs.BTreeMap.{is_at};
ghost use Rattle.std.specs.Map.{remove_entry};
ghost use Rattle.npos_base.specs.Account.{account_cmp};
ghost use Rattle.npos_base.specs.Refusal.{Meets, MeetsAlways};
ghost use Rattle.stake_pools.specs.declared.stop.Stop.TheVariants as stops;
ghost use Rattle.stake_pools.specs.Asking.{parting_refusal, redeem_refusal, claim_refusal};
ghost use Rattle.stake_pools.specs.Leaves.{leaving, due_leaves};
ghost use Rattle.stake_pools.specs.Members.{points_of, member_of, member_at, all_points, all_staying, all_credits, changed, joined, left, redeemed, all_rewarded, claimed};

use crate::PoolRefusal;
use crate::member::Member;
use crate::stop::Stop;
use npos_base::{AccountId, NoMemory};
use std::alloc::Global;
use std::collections::BTreeMap;
use std::marker::Model;

/// The most members that a pool may have.
pub const MOST_MEMBERS: usize = 4096;

/// The members by account. Contracts see the accounts with what each has, by rising account.
#[derive(Drop)]
pub struct Members {
    alloc: Global,
    entries: BTreeMap<AccountId, Member>,
    /// All points.
    points: u64,
    /// All points that stay.
    staying: u64,
}

impl Model for Members {
    ghost use Rattle.std.specs.Prelude.{List};
    ghost use Rattle.npos_base.specs.declared.account.AccountId.{AccountId};
    ghost use Rattle.stake_pools.specs.declared.member.Member.{Member};
    ghost use Rattle.stake_pools.specs.Kept.{AreSummed};

    ghost Value = { List (AccountId × Member) };

    ghost view = { λ m. m.entries.entries };

    ghost invariant = { λ m. AreSummed m.entries.entries m.points m.staying };
}

/// The part of a reward that so many of all staying points get, rounded down.
#[tactic(auto, using(crate::proofs::Quotients::part_within))]
fn share(value: u64, staying: u64, all: u64) -> u64
    requires some { 0 < all }
    requires part { staying ≤ all }
    ensures { result ≡ value * staying / all }
{
    let part = u128::from(value) * u128::from(staying) / u128::from(all);
    part as u64
}

/// Adds staying points to what the account has among these entries.
fn enter(
    alloc: Global,
    entries: &mut BTreeMap<AccountId, Member>,
    who: AccountId,
    points: u64,
) -> Result<(), NoMemory>
    requires some { 0 < points }
    requires fits { (member_at entries.old.entries who).staying + points < 2 ^ 64 }
    ensures ok { OnOk result (entries.new.entries
        ≡ changed who (joined points) entries.old.entries) }
    ensures err { OnErr result (entries.new.entries ≡ entries.old.entries) }
{
    if let Some(member) = entries.get_mut(&who) {
        member.staying += points;
        return Ok(());
    }
    let mut member = Member::new(alloc);
    member.staying += points;
    entries.insert(who, member)?;
    Ok(())
}

/// Takes out the account's entry, if it is done.
fn dismiss(entries: &mut BTreeMap<AccountId, Member>, who: AccountId, is_done: bool)
    ensures { entries.new.entries ≡ (if is_done
        then remove_entry (is_at (account_cmp who)) entries.old.entries else entries.old.entries) }
{
    if is_done {
        let _ = entries.remove(&who);
    }
}

/// Moves staying points of the account among these entries to a leave with this release.
fn leave(
    entries: &mut BTreeMap<AccountId, Member>,
    who: AccountId,
    points: u64,
    release: u64,
) -> Result<(), Stop>
    requires { points_of (member_at entries.old.entries who) < 2 ^ 64 }
    ensures { Meets stops.NoMemory
        (option_map stops.Refused (parting_refusal entries.old.entries who points release))
        (changed who (left points release) entries.old.entries)
        entries.old.entries entries.new.entries result }
{
    let Some(member) = entries.get_mut(&who) else {
        return Err(Stop::Refused(PoolRefusal::NotMember));
    };
    member.leave(points, release)
}

/// Takes out the leaves of the account among these entries that are paid out in this era.
fn redeem(
    entries: &mut BTreeMap<AccountId, Member>,
    who: AccountId,
    era: u64,
) -> Result<u64, PoolRefusal>
    requires { points_of (member_at entries.old.entries who) < 2 ^ 64 }
    ensures meets { MeetsAlways (redeem_refusal entries.old.entries who era)
        (changed who (redeemed era) entries.old.entries)
        entries.old.entries entries.new.entries result }
    ensures points { IfOk result (λ points. points
        ≡ leaving (due_leaves era (member_at entries.old.entries who).leaves)) }
{
    let Some(member) = entries.get_mut(&who) else {
        return Err(PoolRefusal::NotMember);
    };
    let points = member.redeem(era)?;
    let is_done = member.has_nothing();
    dismiss(entries, who, is_done);
    Ok(points)
}

/// Takes the credit of the account among these entries.
fn claim(entries: &mut BTreeMap<AccountId, Member>, who: AccountId) -> Result<u64, PoolRefusal>
    ensures meets { MeetsAlways (claim_refusal entries.old.entries who)
        (changed who claimed entries.old.entries)
        entries.old.entries entries.new.entries result }
    ensures credit { IfOk result
        (λ credit. credit ≡ (member_at entries.old.entries who).credit) }
{
    let Some(member) = entries.get_mut(&who) else {
        return Err(PoolRefusal::NotMember);
    };
    let credit = member.claim()?;
    let is_done = member.has_nothing();
    dismiss(entries, who, is_done);
    Ok(credit)
}

impl Members {
    /// No members.
    pub fn new(alloc: Global) -> Members
        ensures { result ≡ [] }
    {
        Members {
            alloc,
            entries: BTreeMap::new(alloc),
            points: 0,
            staying: 0,
        }
    }

    /// How many members there are.
    pub fn count(&self) -> usize
        ensures { result ≡ length self.now }
    {
        self.entries.len()
    }

    /// Whether the account is a member.
    pub fn has(&self, who: AccountId) -> bool
        ensures { result ≡ is_some (member_of self.now who) }
    {
        self.entries.contains_key(&who)
    }

    /// All points.
    pub fn points(&self) -> u64
        ensures { result ≡ all_points self.now }
    {
        self.points
    }

    /// All points that stay.
    pub fn staying(&self) -> u64
        ensures { result ≡ all_staying self.now }
    {
        self.staying
    }

    /// All credits.
    pub fn credits(&self) -> u64
        ensures { result ≡ all_credits self.now }
    {
        self.entries.values().map(|member| member.credit).sum()
    }

    /// Adds staying points to what the account has, which is a member from then on.
    #[tactic(auto, using(crate::proofs::MemberLemmas::staying_within, crate::proofs::MemberLemmas::fewer_stay))]
    pub fn join(&mut self, who: AccountId, points: u64) -> Result<(), NoMemory>
        requires some { 0 < points }
        requires fits { all_points self.old + points < 2 ^ 64 }
        ensures ok { OnOk result (self.new ≡ changed who (joined points) self.old) }
        ensures err { OnErr result (self.new ≡ self.old) }
    {
        enter(self.alloc, &mut self.entries, who, points)?;
        self.points += points;
        self.staying += points;
        Ok(())
    }

    /// Moves staying points of the account to a leave with this release.
    pub fn leave(&mut self, who: AccountId, points: u64, release: u64) -> Result<(), Stop>
        ensures { Meets stops.NoMemory
            (option_map stops.Refused (parting_refusal self.old who points release))
            (changed who (left points release) self.old) self.old self.new result }
    {
        leave(&mut self.entries, who, points, release)?;
        self.staying -= points;
        Ok(())
    }

    /// Takes out the account's leaves that are paid out in this era, and answers how many points
    /// they have. Who has nothing then is no member any more.
    pub fn redeem(&mut self, who: AccountId, era: u64) -> Result<u64, PoolRefusal>
        ensures meets { MeetsAlways (redeem_refusal self.old who era)
            (changed who (redeemed era) self.old) self.old self.new result }
        ensures points { IfOk result (λ points. points
            ≡ leaving (due_leaves era (member_at self.old who).leaves)) }
        ensures within { IfOk result (λ points. points ≤ all_points self.old) }
    {
        let points = redeem(&mut self.entries, who, era)?;
        self.points -= points;
        Ok(points)
    }

    /// Adds to each credit the part of the value that the member's staying points are of all of
    /// them.
    pub fn reward(&mut self, value: u64)
        requires stayer { 0 < all_staying self.old }
        requires fits { all_credits self.old + value < 2 ^ 64 }
        ensures { self.new ≡ all_rewarded value self.old }
    {
        let all = self.staying;
        self.entries.retain(|_who, member| {
            member.credit += share(value, member.staying, all);
            true
        });
    }

    /// Takes the account's credit, and answers it. Who has nothing then is no member any more.
    pub fn claim(&mut self, who: AccountId) -> Result<u64, PoolRefusal>
        ensures meets { MeetsAlways (claim_refusal self.old who) (changed who claimed self.old)
            self.old self.new result }
        ensures credit { IfOk result (λ credit. credit ≡ (member_at self.old who).credit) }
    {
        claim(&mut self.entries, who)
    }
}
