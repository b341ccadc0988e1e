//! The targets and voters of a snapshot, as lists that grow.
ghost use Rattle.std.specs.Prelude.{◌≡◌, ◌<◌, ◌≤◌, [], ◌∷◌, ◌++◌, length, Some, None, IfOk, IfErr, OnOk, OnErr, slice_get, slice_index_or};
ghost use Rattle.npos_base.specs.declared.limits.TheConstants.{MOST_TARGETS};
ghost use Rattle.npos_base.specs.Refusal.{Meets};
ghost use Rattle.account_places.specs.Places.{place_in, by_account};
ghost use Rattle.election_snapshot.specs.declared.fault.SnapshotFault.TheVariants.{NoMemory as NoMemoryFault};
ghost use Rattle.election_snapshot.specs.Snapshot.{nobody, stakes_of, total_of, AreVotersOf};
ghost use Rattle.election_snapshot.specs.Draft.{Draft, place_of, target_fault, with_target, voter_fault, with_voter, finish_fault, first_seats_fault, seated};

use crate::voters::KeptVoters;
use crate::{Snapshot, SnapshotFault};
use account_places::Places;
use indexmap::IndexSet;
use npos_base::{AccountId, MOST_SEATS, MOST_TARGETS, NoMemory};
use std::alloc::Global;
use std::marker::Model;

/// The targets and voters of a snapshot so far, for whoever knows that what it adds has no fault.
/// Contracts see both lists in the order of their addition.
#[derive(Drop)]
pub struct SnapshotParts {
    targets: IndexSet<AccountId>,
    voters: KeptVoters,
}

impl Model for SnapshotParts {
    ghost use Rattle.election_snapshot.specs.Draft.{Draft};

    ghost Value = { Draft };

    ghost use Rattle.election_snapshot.specs.Kept.{voters_of, AreKept};

    ghost view = { λ b. record {
      targets = b.targets.keys;
      voters = voters_of b.voters.accounts.items b.voters.stakes.items b.voters.ballots.items;
    } };

    ghost invariant = { λ b. AreKept b.targets.keys b.voters.accounts.items b.voters.stakes.items
        b.voters.ballots.items b.voters.total };
}

impl SnapshotParts {
    /// No target and no voter. It takes no memory yet.
    pub fn new(alloc: Global) -> SnapshotParts
        ensures { result ≡ record { targets = []; voters = [] } }
    {
        SnapshotParts {
            targets: IndexSet::new(alloc),
            voters: KeptVoters::new(alloc),
        }
    }

    /// Takes room for so many voters more than stand, so that adding them moves none. Contracts see
    /// no change, whatever the result. After `NoMemory` voters are added one by one as before.
    pub fn reserve(&mut self, voters: usize) -> Result<(), NoMemory>
        ensures same { self.new ≡ self.old }
    {
        self.voters.reserve(voters)
    }

    /// Adds a target behind those that stand, or tells its fault.
    pub fn add_target(&mut self, who: AccountId) -> Result<(), SnapshotFault>
        ensures { Meets NoMemoryFault (target_fault self.old who)
            (with_target self.old who) self.old self.new result }
    {
        if self.targets.len() >= MOST_TARGETS {
            return Err(SnapshotFault::TooManyTargets);
        }
        if self.targets.contains(&who) {
            return Err(SnapshotFault::RepeatedTarget(self.targets.len() as u32));
        }
        match self.put_target(who) {
            Ok(()) => Ok(()),
            Err(NoMemory) => Err(SnapshotFault::NoMemory),
        }
    }

    /// Adds a target that has no fault behind those that stand.
    pub fn put_target(&mut self, who: AccountId) -> Result<(), NoMemory>
        requires { target_fault self.old who ≡ None }
        ensures ok { OnOk result (self.new ≡ with_target self.old who) }
        ensures err { OnErr result (self.new ≡ self.old) }
    {
        self.targets.insert(who)?;
        Ok(())
    }

    /// The position of the target with this account. It takes no memory.
    pub fn position(&self, who: AccountId) -> Option<u16>
        ensures { result ≡ place_of self.now.targets who }
    {
        match self.targets.get_index_of(&who) {
            Some(place) => Some(place as u16),
            None => None,
        }
    }

    /// Adds a voter that has no fault behind those that stand.
    pub fn put_voter(&mut self, who: AccountId, stake: u64, votes: &[u16]) -> Result<(), NoMemory>
        requires { voter_fault self.old who stake votes.now ≡ None }
        ensures ok { OnOk result (self.new ≡ with_voter self.old who stake votes.now) }
        ensures err { OnErr result (self.new ≡ self.old) }
    {
        self.voters.reserve(1)?;
        self.voters.push_within(who, stake, votes);
        Ok(())
    }

    /// Adds a voter that has no fault behind those that stand, and its account behind those that
    /// are noted: both, or neither.
    pub(crate) fn put_noted(
        &mut self,
        noted: &mut Places,
        who: AccountId,
        stake: u64,
        votes: &[u16],
    ) -> Result<(), NoMemory>
        requires fault { voter_fault self.old who stake votes.now ≡ None }
        requires is_new { place_in (by_account noted.old) who ≡ None }
        ensures voter { OnOk result (self.new ≡ with_voter self.old who stake votes.now) }
        ensures account { OnOk result (noted.new ≡ noted.old ++ who ∷ []) }
        ensures err { OnErr result ((self.new ≡ self.old) × (noted.new ≡ noted.old)) }
    {
        // The room comes first, since an account that is noted stays so.
        self.voters.reserve(1)?;
        noted.put(who)?;
        self.voters.push_within(who, stake, votes);
        Ok(())
    }

    /// Takes the targets and voters as the snapshot of an election of this many seats. It takes no
    /// memory.
    pub fn finish(self, seats: u32) -> Result<Snapshot, SnapshotFault>
        ensures ok { IfOk result (λ snapshot. (finish_fault self seats ≡ None)
            × (snapshot ≡ seated self seats)) }
        ensures err { IfErr result (λ fault. finish_fault self seats ≡ Some fault) }
    {
        match self.seats_fault(seats) {
            Some(fault) => Err(fault),
            None => Ok(Snapshot::new(self, seats)),
        }
    }

    /// The first fault of a number of seats.
    pub(crate) fn seats_fault(&self, seats: u32) -> Option<SnapshotFault>
        ensures { result ≡ finish_fault self.now seats }
    {
        seats_fault(self.targets.len(), self.voters.total, seats)
    }

    /// What holds of the targets and voters.
    pub(crate) fn well_built(&self)
        ensures { AreVotersOf self.now.targets self.now.voters }
    {
        let _ = &self.targets;
    }

    pub(crate) fn target(&self, i: usize) -> AccountId
        requires { i < length self.now.targets }
        ensures { slice_get self.now.targets i ≡ Some result }
    {
        match self.targets.get_index(i) {
            Some(account) => *account,
            None => unreachable!(),
        }
    }

    pub(crate) fn target_count(&self) -> usize
        ensures { result ≡ length self.now.targets }
    {
        self.targets.len()
    }

    pub(crate) fn voter(&self, i: usize) -> AccountId
        requires { i < length self.now.voters }
        ensures { result ≡ (slice_index_or self.now.voters i nobody).account }
    {
        self.voters.accounts[i]
    }

    pub(crate) fn voter_count(&self) -> usize
        ensures { result ≡ length self.now.voters }
    {
        self.voters.accounts.len()
    }

    pub(crate) fn stakes(&self) -> &[u64]
        ensures { result.now ≡ stakes_of self.now.voters }
    {
        self.voters.stakes.as_slice()
    }

    pub(crate) fn votes(&self, i: usize) -> &[u16]
        requires { i < length self.now.voters }
        ensures { result.now ≡ (slice_index_or self.now.voters i nobody).votes }
    {
        self.voters.ballots.votes(i)
    }

    pub(crate) fn total(&self) -> u64
        ensures { result ≡ total_of self.now.voters }
    {
        self.voters.total
    }
}

/// The first fault of a number of seats.
fn seats_fault(targets: usize, total: u64, seats: u32) -> Option<SnapshotFault>
    requires { targets ≤ MOST_TARGETS }
    ensures { result ≡ first_seats_fault targets total seats }
{
    let targets = targets as u32;
    if seats == 0 || seats > MOST_SEATS {
        return Some(SnapshotFault::BadSeats(seats));
    }
    if targets < seats {
        return Some(SnapshotFault::Few { targets, seats });
    }
    if total < u64::from(seats) * u64::from(seats) {
        return Some(SnapshotFault::Poor { total, seats });
    }
    None
}
