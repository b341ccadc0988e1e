//! The nominators of each target, each with a link to the next.
ghost use Rattle.std.specs.Prelude.{◌≡◌, ◌≢◌, ℕ, ◌+◌, ◌*◌, ◌<◌, ◌≤◌, List, length, nat_eq, false, All, IfOk, Some, slice_get, slice_index_or};
ghost use Rattle.std.specs.List.{IsDistinct};
ghost use Rattle.npos_base.specs.declared.limits.TheConstants.{MOST_NOMINATIONS};
ghost use Rattle.election_snapshot.specs.Snapshot.{has, votes_of};
ghost use Rattle.seat_race.specs.Tables.{says};
ghost use Rattle.quota_fill.specs.Chains.{nowhere, Leads, IsAt, AreStarts, AreChained, AreChains};

use election_snapshot::Snapshot;
use npos_base::NoMemory;
use std::alloc::Global;

/// The voter of a link that leads nowhere. No snapshot has so many voters.
const NOBODY: u16 = 0xffff;

/// A voter that nominates a target, and the place of that nomination among those of the voter.
#[derive(Clone, Copy)]
pub(crate) struct Link {
    pub(crate) voter: u16,
    pub(crate) place: u16,
}

impl Link {
    /// A link that leads nowhere.
    fn nowhere() -> Link
        ensures { result ≡ nowhere }
    {
        Link {
            voter: NOBODY,
            place: 0,
        }
    }

    /// Whether the link leads to a voter.
    pub(crate) fn leads(self) -> bool
        ensures no { result ≡ false → self.voter ≡ nowhere.voter }
        ensures yes { self.voter ≡ nowhere.voter → result ≡ false }
    {
        self.voter != NOBODY
    }
}

/// By target, its nominators in rising order, each with a link to the next: so one pass over the
/// nominations makes them all, and of those of a target that is not picked none is looked at again.
#[derive(Drop)]
pub(crate) struct Chains {
    // by target, its first nominator
    firsts: Vec<Link>,
    // by nomination, the next nominator of the same target; those of a voter lie behind those of the one
    // before it
    nexts: Vec<Link>,
    // by voter, where its nominations begin, and where those of the last one end
    starts: Vec<u32>,
}

impl Chains {
    /// The chains of all targets.
    pub(crate) fn new(alloc: Global, snapshot: &Snapshot) -> Result<Chains, NoMemory>
        ensures { IfOk result (AreChains snapshot.now) }
    {
        let starts = starts_of(alloc, snapshot)?;
        let count = starts[snapshot.voter_count()];
        let mut firsts = vec![in alloc; Link::nowhere(); snapshot.target_count()]?;
        let mut nexts = vec![in alloc; Link::nowhere(); count as usize]?;
        link_all(snapshot, &starts, &mut firsts, &mut nexts);
        Ok(Chains {
            firsts,
            nexts,
            starts,
        })
    }

    /// The first nominator of a target.
    pub(crate) fn first(&self, snapshot: &Snapshot, target: u16) -> Link
        requires chains { AreChains snapshot.now self.now }
        requires target { target < length snapshot.now.targets }
        ensures { Leads snapshot.now target 0 result }
    {
        self.firsts[usize::from(target)]
    }

    /// The nominator after the one to which this link leads.
    pub(crate) fn next(&self, snapshot: &Snapshot, link: Link) -> Link
        requires chains { AreChains snapshot.now self.now }
        requires voter { link.voter < length snapshot.now.voters }
        requires place { link.place < length (votes_of snapshot.now link.voter) }
        ensures { (target : ℕ) → IsAt snapshot.now target link
            → Leads snapshot.now target (link.voter + 1) result }
    {
        let start = self.starts[usize::from(link.voter)] as usize;
        self.nexts[start + usize::from(link.place)]
    }
}

/// Where the nominations of each voter begin, and where those of the last one end.
fn starts_of(alloc: Global, snapshot: &Snapshot) -> Result<Vec<u32>, NoMemory>
    ensures { IfOk result (λ starts. AreStarts snapshot.now starts.items) }
{
    let mut starts = Vec::with_capacity(alloc, snapshot.voter_count() + 1)?;
    let mut end = 0;
    starts.push(end)?;
    for voter in 0..snapshot.voter_count() {
        end += snapshot.votes(voter as u32).len() as u32;
        starts.push(end)?;
    }
    Ok(starts)
}

/// Links the nominations of all voters, from the last to the first.
fn link_all(snapshot: &Snapshot, starts: &[u32], firsts: &mut [Link], nexts: &mut [Link])
    requires starts { AreStarts snapshot.now starts.now }
    requires firsts { length firsts.old ≡ length snapshot.now.targets }
    requires nexts { length nexts.old ≡ says starts.now (length snapshot.now.voters) }
    requires nowhere { (target : ℕ) → slice_index_or firsts.old target nowhere ≡ nowhere }
    ensures firsts { length firsts.new ≡ length firsts.old }
    ensures nexts { length nexts.new ≡ length nexts.old }
    ensures chained { AreChained snapshot.now starts.now 0 firsts.new nexts.new }
{
    for voter in (0..snapshot.voter_count()).rev() {
        link_voter(
            snapshot.votes(voter as u32),
            voter as u16,
            starts[voter] as usize,
            firsts,
            nexts,
        );
    }
}

/// Puts a voter before the nominators of each of its votes, all of which are above it.
fn link_voter(votes: &[u16], voter: u16, start: usize, firsts: &mut [Link], nexts: &mut [Link])
    requires in_range { All (λ vote. vote < length firsts.old) votes.now }
    requires distinct { IsDistinct nat_eq votes.now }
    requires few { length votes.now ≤ MOST_NOMINATIONS }
    requires room { start + length votes.now ≤ length nexts.old }
    ensures firsts { length firsts.new ≡ length firsts.old }
    ensures nexts { length nexts.new ≡ length nexts.old }
    ensures others { (target : ℕ) → has votes.now target ≡ false
        → slice_index_or firsts.new target nowhere ≡ slice_index_or firsts.old target nowhere }
    ensures here { (place target : ℕ) → slice_get votes.now place ≡ Some target
        → slice_index_or firsts.new target nowhere ≡ record { voter = voter; place = place } }
    ensures linked { (place target : ℕ) → slice_get votes.now place ≡ Some target
        → slice_index_or nexts.new (start + place) nowhere ≡ slice_index_or firsts.old target nowhere }
    ensures kept { (slot : ℕ) → start + length votes.now ≤ slot
        → slice_index_or nexts.new slot nowhere ≡ slice_index_or nexts.old slot nowhere }
{
    for place in 0..votes.len() {
        let target = usize::from(votes[place]);
        nexts[start + place] = firsts[target];
        firsts[target] = Link {
            voter,
            place: place as u16,
        };
    }
}
