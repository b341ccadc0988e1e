//! The eras that are kept.
ghost use Rattle.std.specs.Prelude.{◌≡◌, ◌≤◌, ◌<◌, ◌-◌, ◌^◌, [], length, map, replicate, position, None, is_none, IfSome, IfOk, OnOk, OnErr, IfErr};
ghost use Rattle.std.specs.Option.{option_copied};
ghost use Rattle.npos_base.specs.Refusal.{MeetsAlways, answer_of};
ghost use Rattle.era_book.specs.Owed.{IsDue, Meets};
ghost use Rattle.era_book.specs.Exposures.{amount_sum, AreApart, AreSound};
ghost use Rattle.era_book.specs.Committee.{IsElected, edges_by_voter, exposure_of};
ghost use Rattle.era_book.specs.Eras.{first_era, started, begun_with, member_in, era_of, is_unknown, OthersStay, EarlierStay, HasExposures, HasNoOther, AreMembers, AreKept};
ghost use Rattle.era_book.specs.Calls.{points_refusal, pointed, payout_refusal, payout_in, IsUnclaimed, paid, slash_refusal, slash_in, IsBelow, reported};
ghost use Rattle.era_book.specs.Records.{bare_at, records_in, AreMembersFor, era_put, CanJoin, slash_put};
ghost use Rattle.era_book.specs.Deferred.{has_number, queue_refusal, queueing, IsQueueable, cancel_refusal, cancelling, next_due, without_next_due, AreQueued};

use crate::era::Era;
use crate::{Backer, DeferredSlash, EraRefusal, Exposure, MOST_SLASHES, MemberRecord, Payout};
use npos_base::{AccountId, Edge, List, MOST_PAST_ERAS, NoMemory, WHOLE_FRACTION};
use std::alloc::Global;
use std::marker::Model;
use std::mem;

/// The current era and the 84 before it: who was exposed in each, and what happened since; and the
/// slashes that wait. Contracts see the current era's number, for each era that is kept, the latest
/// first, the list of accounts with their members, and the slashes by rising number, with the
/// number of the next one.
#[derive(Drop)]
pub struct EraBook {
    alloc: Global,
    current: u32,
    latest: Era,
    /// The eras before the current one, the latest first.
    earlier: Vec<Era>,
    /// The slashes that wait, by rising number.
    queue: Vec<DeferredSlash>,
    next_slash: u64,
}

impl Model for EraBook {
    ghost use Rattle.std.specs.Prelude.{◌∷◌};
    ghost use Rattle.era_book.specs.Eras.{Eras, AreKept};
    ghost use Rattle.era_book.specs.Deferred.{AreQueued};

    ghost Value = { Eras };

    ghost view = { λ book. record {
      current = book.current;
      kept = book.latest ∷ book.earlier.items;
      queue = book.queue.items;
      next_slash = book.next_slash;
    } };

    ghost invariant = { λ book.
        let eras : Eras = record {
          current = book.current;
          kept = book.latest ∷ book.earlier.items;
          queue = book.queue.items;
          next_slash = book.next_slash;
        } in AreKept eras × AreQueued eras };
}

/// Where the slash of this number stands.
fn place_of(slashes: &[DeferredSlash], number: u64) -> Option<usize>
    ensures { result ≡ position (has_number number) slashes.now }
{
    slashes.iter().position(|slash| slash.number == number)
}

/// So many eras without members.
fn empty_eras(alloc: Global, count: usize) -> Result<Vec<Era>, NoMemory>
    ensures { IfOk result (λ eras. eras.items ≡ replicate count []) }
{
    let mut eras = Vec::with_capacity(alloc, count)?;
    for _ in 0..count {
        eras.push(Era::new(alloc))?;
    }
    Ok(eras)
}

impl EraBook {
    /// The book at era 0, which has no exposure. It takes no memory.
    pub fn new(alloc: Global) -> EraBook
        ensures { result ≡ first_era }
    {
        EraBook {
            alloc,
            current: 0,
            latest: Era::new(alloc),
            earlier: Vec::new(alloc),
            queue: Vec::new(alloc),
            next_slash: 1,
        }
    }

    /// The book at an era, in which nobody was ever exposed and no slash waits. The next slash has
    /// this number.
    pub fn at_era(alloc: Global, current: u32, next_slash: u64) -> Result<EraBook, NoMemory>
        requires { 1 ≤ next_slash }
        ensures { IfOk result (λ book. book ≡ bare_at current next_slash) }
    {
        let past = current.min(MOST_PAST_ERAS) as usize;
        let earlier = empty_eras(alloc, past)?;
        Ok(EraBook {
            alloc,
            current,
            latest: Era::new(alloc),
            earlier,
            queue: Vec::new(alloc),
            next_slash,
        })
    }

    /// The era has these members, in place of any that it had: it is the current one or one of the
    /// 84 before it, the members rise strictly by account, no commission is above the whole, no
    /// account backs one member twice, and each support is the sum of its backers' amounts.
    pub fn put_era(&mut self, era: u32, members: List<MemberRecord>) -> Result<(), NoMemory>
        requires { AreMembersFor self.old era members }
        ensures ok { OnOk result (self.new ≡ era_put era members self.old) }
        ensures err { OnErr result (self.new ≡ self.old) }
    {
        let members = Era::with_values(self.alloc, members)?;
        let age = (self.current - era) as usize;
        if age == 0 {
            self.latest = members;
        } else {
            self.earlier[age - 1] = members;
        }
        Ok(())
    }

    /// The members of an era as values, by rising account. An era that is not kept has none.
    pub fn era_members(&self, alloc: Global, era: u32) -> Result<List<MemberRecord>, NoMemory>
        ensures { IfOk result (λ members. members ≡ records_in self.now era) }
    {
        match self.era(era) {
            Some(members) => members.values(alloc),
            None => Ok(List::new(alloc)),
        }
    }

    /// The number of the current era. Each kept member has a sound exposure.
    pub fn current(&self) -> u32
        ensures current { result ≡ self.now.current }
        ensures kept { AreKept self.now }
    {
        self.current
    }

    /// The next era begins, with these exposures. The eras older than 84 before it go.
    pub fn start_era(&mut self, exposures: List<Exposure>) -> Result<(), NoMemory>
        requires more { self.old.current < 2 ^ 32 - 1 }
        requires sound { AreSound exposures }
        ensures ok { OnOk result (self.new ≡ started exposures self.old) }
        ensures err { OnErr result (self.new ≡ self.old) }
        ensures newcomers { OnOk result (HasExposures self.new self.new.current exposures) }
        ensures nobody_else { OnOk result (HasNoOther self.new self.new.current exposures) }
        ensures earlier { OnOk result (EarlierStay self.old self.new) }
    {
        let era = Era::with_exposures(self.alloc, exposures)?;
        self.begin(era)
    }

    /// The next era begins with an elected committee, its edges in whatever order: it is what
    /// `start_era` does with the members' exposures, and takes less time and memory. Of the edges
    /// with an amount above 0 the validator's own stands first among its backers, then the others
    /// in the order of the voters. Accounts, commissions in billionths and supports stand by target,
    /// and accounts by voter, which are kept with the era.
    pub fn start_elected(
        &mut self,
        targets: &[AccountId],
        commissions: &[u32],
        supports: &[u64],
        voters: List<AccountId>,
        members: &[u16],
        edges: &[Edge],
    ) -> Result<(), NoMemory>
        requires more { self.old.current < 2 ^ 32 - 1 }
        requires commissions { length commissions.now ≡ length targets.now }
        requires supports { length supports.now ≡ length targets.now }
        requires elected { IsElected targets.now voters commissions.now supports.now edges.now
            members.now }
        ensures ok { OnOk result (self.new ≡ started (map
            (exposure_of targets.now commissions.now supports.now voters
            (edges_by_voter (length voters) edges.now)) members.now) self.old) }
        ensures err { OnErr result (self.new ≡ self.old) }
        ensures newcomers { OnOk result (HasExposures self.new self.new.current (map
            (exposure_of targets.now commissions.now supports.now voters
            (edges_by_voter (length voters) edges.now)) members.now)) }
        ensures nobody_else { OnOk result (HasNoOther self.new self.new.current (map
            (exposure_of targets.now commissions.now supports.now voters
            (edges_by_voter (length voters) edges.now)) members.now)) }
        ensures earlier { OnOk result (EarlierStay self.old self.new) }
    {
        let era = Era::elected(
            self.alloc,
            &self.latest,
            targets,
            commissions,
            supports,
            voters,
            members,
            edges,
        )?;
        self.begin(era)
    }

    /// The era begins, and is the current one. The eras older than 84 before it go.
    fn begin(&mut self, era: Era) -> Result<(), NoMemory>
        requires more { self.old.current < 2 ^ 32 - 1 }
        requires sound { AreMembers era }
        ensures ok { OnOk result (self.new ≡ begun_with era self.old) }
        ensures err { OnErr result (self.new ≡ self.old) }
    {
        self.earlier.reserve(1)?;
        let past = mem::replace(&mut self.latest, era);
        match self.earlier.insert(0, past) {
            Ok(()) => {}
            Err(_) => unreachable!(),
        }
        self.earlier.truncate(MOST_PAST_ERAS as usize);
        self.current += 1;
        Ok(())
    }

    /// Adds points to members of the current era, one item after the other. The points of one
    /// member stay at 2^32 - 1 where they would pass it. It takes no memory, and refuses with
    /// `NotExposed` where one of the accounts is no member.
    pub fn add_points(&mut self, items: &[(AccountId, u32)]) -> Result<(), EraRefusal>
        ensures meets { MeetsAlways (points_refusal self.old items.now)
            (pointed items.now self.old) self.old self.new result }
        ensures answer { result ≡ answer_of (points_refusal self.old items.now) }
    {
        if !self.latest.contains_all(items) {
            return Err(EraRefusal::NotExposed);
        }
        self.latest.gain_all(items);
        Ok(())
    }

    /// What is paid for the validator's points in an era that is over, of the reward of that era in
    /// units of stake. It refuses with `UnknownEra`, `EraNotOver`, `NotExposed`, `AlreadyClaimed`
    /// or `NoPoints`.
    pub fn payout_list(
        &self,
        alloc: Global,
        era: u32,
        validator: AccountId,
        era_reward: u64,
    ) -> Result<Payout, EraRefusal>
        ensures ok { IfOk result (λ payout. payout ≡ payout_in self.now era validator era_reward) }
        ensures accepted { OnOk result (payout_refusal self.now era validator ≡ None) }
        ensures refused { IfErr result (IsDue (payout_refusal self.now era validator)) }
        ensures markable { OnOk result (IsUnclaimed (member_in self.now era validator)) }
        ensures total { IfOk result (λ payout. payout.total ≡ amount_sum payout.lines) }
        ensures within { IfOk result (λ payout. payout.total ≤ era_reward) }
    {
        let Some(members) = self.era(era) else {
            return Err(EraRefusal::UnknownEra);
        };
        if era == self.current {
            return Err(EraRefusal::EraNotOver);
        }
        let Some(member) = members.get(validator) else {
            return Err(EraRefusal::NotExposed);
        };
        if member.claimed() {
            return Err(EraRefusal::AlreadyClaimed);
        }
        if member.points() == 0 {
            return Err(EraRefusal::NoPoints);
        }
        let value = members.earned(member.points(), era_reward);
        let payout = member.payout(alloc, value)?;
        Ok(payout)
    }

    /// The validator's part of the era is claimed. It takes no memory.
    pub fn mark_paid(&mut self, era: u32, validator: AccountId)
        requires { IsUnclaimed (member_in self.old era validator) }
        ensures marked { self.new ≡ paid era validator self.old }
        ensures others { OthersStay era validator self.old self.new }
    {
        let age = (self.current - era) as usize;
        if age == 0 {
            self.latest.claim(validator);
        } else {
            self.earlier[age - 1].claim(validator);
        }
    }

    /// What is due from those who back the validator in the era where this fraction, in billionths,
    /// is reported: what it is more than the fraction that is kept. No account has two lines. It
    /// refuses with `BadFraction`, `UnknownEra`, `NotExposed` or `NotGreater`.
    pub fn slash_list(
        &self,
        alloc: Global,
        era: u32,
        validator: AccountId,
        fraction: u32,
    ) -> Result<List<Backer>, EraRefusal>
        ensures ok { IfOk result (λ lines. lines ≡ slash_in self.now era validator fraction) }
        ensures accepted { OnOk result (slash_refusal self.now era validator fraction ≡ None) }
        ensures refused { IfErr result (IsDue (slash_refusal self.now era validator fraction)) }
        ensures markable { OnOk result (IsBelow fraction (member_in self.now era validator)) }
        ensures distinct { IfOk result (λ lines. AreApart lines) }
    {
        if fraction == 0 || fraction > WHOLE_FRACTION {
            return Err(EraRefusal::BadFraction);
        }
        let Some(members) = self.era(era) else {
            return Err(EraRefusal::UnknownEra);
        };
        let Some(member) = members.get(validator) else {
            return Err(EraRefusal::NotExposed);
        };
        if fraction <= member.fraction() {
            return Err(EraRefusal::NotGreater);
        }
        let lines = member.dues(alloc, fraction)?;
        Ok(lines)
    }

    /// The fraction is kept for the validator and the era. It takes no memory.
    pub fn mark_slashed(&mut self, era: u32, validator: AccountId, fraction: u32)
        requires { IsBelow fraction (member_in self.old era validator) }
        ensures marked { self.new ≡ reported era validator fraction self.old }
        ensures others { OthersStay era validator self.old self.new }
    {
        let age = (self.current - era) as usize;
        if age == 0 {
            self.latest.keep(validator, fraction);
        } else {
            self.earlier[age - 1].keep(validator, fraction);
        }
    }

    /// The slash waits for the era in which it is due, under the number that is answered: the first
    /// slash has number 1, the next one 2, and so on. It is due in an era that has not begun, and
    /// not before one that waits already. It refuses with `TooManySlashes` where 256 slashes wait.
    pub fn queue_slash(&mut self, due: u32, lines: List<Backer>) -> Result<u64, EraRefusal>
        requires queueable { IsQueueable due lines self.old }
        requires numbered { self.old.next_slash < 2 ^ 64 - 1 }
        ensures meets { Meets (queue_refusal self.old) (queueing due lines self.old)
            self.old self.new result }
        ensures number { IfOk result (λ number. number ≡ self.old.next_slash) }
    {
        if self.queue.len() >= MOST_SLASHES {
            return Err(EraRefusal::TooManySlashes);
        }
        let number = self.next_slash;
        let slash = DeferredSlash { number, due, lines };
        if let Err(refused) = self.queue.push(slash) {
            return Err(EraRefusal::from(NoMemory::from(refused)));
        }
        self.next_slash += 1;
        Ok(number)
    }

    /// The slash waits behind the others, under the number that it has: that is above theirs and
    /// below the next one. It is not due before them, fewer than 256 wait, and no account has two of
    /// its lines.
    pub fn put_slash(&mut self, slash: DeferredSlash) -> Result<(), NoMemory>
        requires { CanJoin slash self.old }
        ensures ok { OnOk result (self.new ≡ slash_put slash self.old) }
        ensures err { OnErr result (self.new ≡ self.old) }
    {
        self.queue.push(slash)?;
        Ok(())
    }

    /// The number that the next queued slash takes.
    pub fn next_slash(&self) -> u64
        ensures { result ≡ self.now.next_slash }
    {
        self.next_slash
    }

    /// The slash of this number waits no more. It takes no memory, and refuses with `NoSlash` where
    /// no such slash waits.
    pub fn cancel_slash(&mut self, number: u64) -> Result<(), EraRefusal>
        ensures meets { MeetsAlways (cancel_refusal number self.old) (cancelling number self.old)
            self.old self.new result }
        ensures answer { result ≡ answer_of (cancel_refusal number self.old) }
    {
        let Some(place) = place_of(self.queue.as_slice(), number) else {
            return Err(EraRefusal::NoSlash);
        };
        self.queue.remove(place);
        Ok(())
    }

    /// Takes out, of the slashes that are due in the current era or were before it, the one of
    /// least number. None where none is due. It takes no memory.
    pub fn take_due(&mut self) -> Option<DeferredSlash>
        ensures taken { result ≡ next_due self.old }
        ensures after { self.new ≡ without_next_due self.old }
    {
        let first = self.queue.first()?;
        if first.due > self.current {
            return None;
        }
        Some(self.queue.remove(0))
    }

    /// The slashes that wait, by rising number.
    pub fn queued(&self) -> &[DeferredSlash]
        ensures queue { result.now ≡ self.now.queue }
        ensures queued { AreQueued self.now }
    {
        self.queue.as_slice()
    }

    /// The members of an era that is known.
    fn era(&self, era: u32) -> Option<&Era>
        ensures members { option_copied result ≡ era_of self.now era }
        ensures known { is_none result ≡ is_unknown self.now era }
        ensures sound { IfSome result (λ members. AreMembers members.now) }
    {
        if era > self.current {
            return None;
        }
        let age = (self.current - era) as usize;
        if age == 0 {
            return Some(&self.latest);
        }
        self.earlier.get(age - 1)
    }
}
