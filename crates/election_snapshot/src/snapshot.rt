//! A snapshot that is well formed.
ghost use Rattle.std.specs.Prelude.{◌≡◌, ◌<◌, ◌≤◌, ◌*◌, length, Some, None, slice_get};
ghost use Rattle.npos_base.specs.declared.limits.TheConstants.{MOST_TARGETS, MOST_VOTERS, MOST_SEATS};
ghost use Rattle.election_snapshot.specs.Snapshot.{IsWellFormed, IsVoterOf, voter_at, stake_of, votes_of, stakes_of, nominates, total_stake, threshold};
ghost use Rattle.election_snapshot.specs.Draft.{finish_fault, seated};

use crate::SnapshotParts;
use npos_base::AccountId;
use std::marker::Model;

/// The instance of one election. Contracts see its targets, voters and seats, which are well
/// formed.
#[derive(Drop)]
pub struct Snapshot {
    parts: SnapshotParts,
    seats: u32,
}

impl Model for Snapshot {
    ghost use Rattle.election_snapshot.specs.Snapshot.{Snapshot, IsWellFormed};
    ghost use Rattle.election_snapshot.specs.Draft.{seated};

    ghost Value = { Snapshot };

    ghost view = { λ s. seated s.parts s.seats };

    ghost invariant = { λ s. IsWellFormed (seated s.parts s.seats) };
}

impl Snapshot {
    /// The snapshot of these targets and voters, which have no fault with this many seats.
    pub(crate) fn new(parts: SnapshotParts, seats: u32) -> Snapshot
        requires { finish_fault parts seats ≡ None }
        ensures { result ≡ seated parts seats }
    {
        parts.well_built();
        Snapshot { parts, seats }
    }

    /// The account of a target.
    pub fn target(&self, i: u16) -> AccountId
        requires { i < length self.now.targets }
        ensures { slice_get self.now.targets i ≡ Some result }
    {
        self.parts.target(usize::from(i))
    }

    /// How many targets there are, at most 2,048.
    pub fn target_count(&self) -> usize
        ensures count { result ≡ length self.now.targets }
        ensures most { result ≤ MOST_TARGETS }
        ensures well_formed { IsWellFormed self.now }
    {
        self.parts.target_count()
    }

    /// The account of a voter.
    pub fn voter(&self, i: u32) -> AccountId
        requires { i < length self.now.voters }
        ensures { result ≡ (voter_at self.now i).account }
    {
        self.parts.voter(i as usize)
    }

    /// How many voters there are, at most 16,384.
    pub fn voter_count(&self) -> usize
        ensures count { result ≡ length self.now.voters }
        ensures most { result ≤ MOST_VOTERS }
        ensures well_formed { IsWellFormed self.now }
    {
        self.parts.voter_count()
    }

    /// The stake of a voter, above 0.
    pub fn stake(&self, i: u32) -> u64
        requires { i < length self.now.voters }
        ensures stake { result ≡ stake_of self.now i }
        ensures above { 0 < result }
        ensures within { result ≤ total_stake self.now }
    {
        self.parts.stakes()[i as usize]
    }

    /// The stakes in the order of the voters.
    pub fn stakes(&self) -> &[u64]
        ensures stakes { result.now ≡ stakes_of self.now.voters }
        ensures count { length result.now ≡ length self.now.voters }
        ensures well_formed { IsWellFormed self.now }
    {
        self.parts.stakes()
    }

    /// The nominations of a voter, in the order in which they were added: 1 to 24 different
    /// positions of targets.
    pub fn votes(&self, i: u32) -> &[u16]
        requires { i < length self.now.voters }
        ensures votes { result.now ≡ votes_of self.now i }
        ensures sound { IsVoterOf (length self.now.targets) (voter_at self.now i) }
    {
        self.parts.votes(i as usize)
    }

    /// Whether the voter nominates the target.
    pub fn nominates(&self, voter: u32, target: u16) -> bool
        requires voter { voter < length self.now.voters }
        requires target { target < length self.now.targets }
        ensures { result ≡ nominates self.now voter target }
    {
        self.parts.votes(voter as usize).contains(&target)
    }

    /// How many seats there are, 1 to 512.
    pub fn seats(&self) -> u32
        ensures seats { result ≡ self.now.seats }
        ensures some { 1 ≤ result }
        ensures most { result ≤ MOST_SEATS }
        ensures well_formed { IsWellFormed self.now }
    {
        self.seats
    }

    /// The sum of the stakes, at least the seats times the seats.
    pub fn total(&self) -> u64
        ensures total { result ≡ total_stake self.now }
        ensures enough { self.now.seats * self.now.seats ≤ result }
        ensures well_formed { IsWellFormed self.now }
    {
        self.parts.total()
    }

    /// The stake that one seat stands for, rounded down: at least as many units as there are seats.
    pub fn threshold(&self) -> u64
        ensures threshold { result ≡ threshold self.now }
        ensures enough { self.now.seats ≤ result }
        ensures well_formed { IsWellFormed self.now }
    {
        self.parts.total() / u64::from(self.seats)
    }
}
