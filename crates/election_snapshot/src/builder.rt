//! Building a snapshot, target by target and voter by voter.
ghost use Rattle.std.specs.Prelude.{◌≡◌, ◌<◌, [], Some, None, Bool, IsTrue, false, nat_le, IfOk, IfErr, IfNone, OnOk, OnErr};
ghost use Rattle.std.specs.List.{list_any};
ghost use Rattle.std.specs.List.Sorted.{IsStrictlyIncreasing};
ghost use Rattle.npos_base.specs.declared.limits.TheConstants.{MOST_VOTERS};
ghost use Rattle.npos_base.specs.Refusal.{Meets};
ghost use Rattle.account_places.specs.Places.{place_in, by_account};
ghost use Rattle.election_snapshot.specs.declared.fault.SnapshotFault.TheVariants.{NoMemory as NoMemoryFault};
ghost use Rattle.election_snapshot.specs.Draft.{accounts_of, place_of, has_repeat, target_fault, with_target, voter_fault, voter_fault_by, with_voter, finish_fault, seated};

use crate::{Snapshot, SnapshotFault, SnapshotParts};
use account_places::Places;
use npos_base::{AccountId, MOST_NOMINATIONS, MOST_VOTERS, NoMemory};
use std::alloc::Global;
use std::marker::Model;

/// The targets and voters of a snapshot so far, each looked at before it is added. The accounts of
/// the voters have places too: a repeated one is found by slots, and in order where accounts crowd
/// the slots, so that no choice of accounts makes a look-up longer than the logarithm of their
/// number. Contracts see both lists in the order of their addition.
#[derive(Drop)]
pub struct SnapshotBuilder {
    parts: SnapshotParts,
    voters: Places,
}

impl Model for SnapshotBuilder {
    ghost use Rattle.std.specs.Prelude.{◌≡◌};
    ghost use Rattle.election_snapshot.specs.Draft.{Draft, accounts_of};

    ghost Value = { Draft };

    ghost view = { λ b. b.parts };

    ghost invariant = { λ b. b.voters ≡ accounts_of b.parts.voters };
}

impl SnapshotBuilder {
    /// No target and no voter. It takes no memory yet.
    pub fn new(alloc: Global) -> SnapshotBuilder
        ensures { result ≡ record { targets = []; voters = [] } }
    {
        SnapshotBuilder {
            parts: SnapshotParts::new(alloc),
            voters: Places::new(alloc),
        }
    }

    /// Takes room for so many voters more than stand, so that adding them moves none. Contracts see
    /// no change, whatever the result. After `NoMemory` voters are added one by one as before.
    pub fn reserve(&mut self, voters: usize) -> Result<(), NoMemory>
        ensures same { self.new ≡ self.old }
    {
        self.parts.reserve(voters)?;
        self.voters.reserve(voters)
    }

    /// Adds a target behind those that stand.
    pub fn add_target(&mut self, who: AccountId) -> Result<(), SnapshotFault>
        ensures { Meets NoMemoryFault (target_fault self.old who)
            (with_target self.old who) self.old self.new result }
    {
        self.parts.add_target(who)
    }

    /// Adds a target that has no fault behind those that stand.
    pub fn put_target(&mut self, who: AccountId) -> Result<(), NoMemory>
        requires { target_fault self.old who ≡ None }
        ensures ok { OnOk result (self.new ≡ with_target self.old who) }
        ensures err { OnErr result (self.new ≡ self.old) }
    {
        self.parts.put_target(who)
    }

    /// The position of the target with this account. It takes no memory.
    pub fn position(&self, who: AccountId) -> Option<u16>
        ensures { result ≡ place_of self.now.targets who }
    {
        self.parts.position(who)
    }

    /// Adds a voter behind those that stand.
    pub fn add_voter(
        &mut self,
        who: AccountId,
        stake: u64,
        votes: &[u16],
    ) -> Result<(), SnapshotFault>
        ensures { Meets NoMemoryFault (voter_fault self.old who stake votes.now)
            (with_voter self.old who stake votes.now) self.old self.new result }
    {
        if let Some(fault) = self.voter_fault(who, stake, votes) {
            return Err(fault);
        }
        match self.parts.put_noted(&mut self.voters, who, stake, votes) {
            Ok(()) => Ok(()),
            Err(NoMemory) => Err(SnapshotFault::NoMemory),
        }
    }

    /// The first fault of a voter. Where it has none, its account has no place.
    #[tactic(auto, using(crate::proofs::PlaceLemmas::has_place))]
    fn voter_fault(&self, who: AccountId, stake: u64, votes: &[u16]) -> Option<SnapshotFault>
        ensures fault { result ≡ voter_fault self.now who stake votes.now }
        ensures place { IfNone result
            (place_in (by_account (accounts_of self.now.voters)) who ≡ None) }
    {
        let voters = self.parts.voter_count();
        if voters >= MOST_VOTERS {
            return Some(SnapshotFault::TooManyVoters);
        }
        let number = voters as u32;
        if self.voters.find(who).is_some() {
            return Some(SnapshotFault::RepeatedVoter(number));
        }
        new_fault(
            self.parts.target_count(),
            number,
            self.parts.total(),
            stake,
            votes,
        )
    }

    /// Takes the targets and voters as the snapshot of an election of this many seats, or hands
    /// them back. It takes no memory.
    pub fn finish(self, seats: u32) -> Result<Snapshot, (SnapshotBuilder, SnapshotFault)>
        ensures ok { IfOk result (λ snapshot. (finish_fault self seats ≡ None)
            × (snapshot ≡ seated self seats)) }
        ensures err { IfErr result (λ back. (back.0 ≡ self)
            × (finish_fault self seats ≡ Some back.1)) }
    {
        match self.parts.seats_fault(seats) {
            Some(fault) => Err((self, fault)),
            None => {
                let SnapshotBuilder { parts, voters: _ } = self;
                Ok(Snapshot::new(parts, seats))
            }
        }
    }
}

/// The first fault of a voter that is the next after so many, and whose account does not stand.
fn new_fault(
    targets: usize,
    number: u32,
    total: u64,
    stake: u64,
    votes: &[u16],
) -> Option<SnapshotFault>
    requires { number < MOST_VOTERS }
    ensures { result ≡ voter_fault_by targets number false total stake votes.now }
{
    if stake == 0 {
        return Some(SnapshotFault::ZeroStake(number));
    }
    if votes.is_empty() {
        return Some(SnapshotFault::NoVotes(number));
    }
    if votes.len() > MOST_NOMINATIONS {
        return Some(SnapshotFault::TooManyVotes(number));
    }
    if pass(votes, targets) {
        return Some(SnapshotFault::UnknownTarget(number));
    }
    if repeats(votes) {
        return Some(SnapshotFault::RepeatedVote(number));
    }
    if total.checked_add(stake).is_none() {
        return Some(SnapshotFault::TotalTooLarge(number));
    }
    None
}

/// Whether some vote is past the targets.
fn pass(votes: &[u16], targets: usize) -> bool
    ensures { result ≡ list_any (λ target. nat_le targets target) votes.now }
{
    votes.iter().any(|target| targets <= usize::from(*target))
}

/// Whether some vote stands twice. None does where they rise, as they mostly do. Else each is looked
/// for behind itself: the votes are few, at most as many as a voter can nominate.
#[tactic(auto, using(crate::proofs::RepeatLemmas::rising_repeat_nothing))]
fn repeats(votes: &[u16]) -> bool
    ensures { result ≡ has_repeat votes.now }
{
    if rise(votes) {
        return false;
    }
    let mut rest = votes;
    while let Some((first, others)) = rest.split_first() {
        if others.contains(first) {
            return true;
        }
        rest = others;
    }
    false
}

/// Whether each vote is less than the next.
fn rise(votes: &[u16]) -> bool
    ensures { IsTrue result → IsStrictlyIncreasing votes.now }
{
    for place in 1..votes.len() {
        if votes[place] <= votes[place - 1] {
            return false;
        }
    }
    true
}
