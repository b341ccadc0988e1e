//! The nominators of each target.
ghost use Rattle.std.specs.Prelude.{◌≡◌, ℕ, ◌+◌, ◌<◌, ◌≤◌, ◌^◌, ◌∷◌, [], ◌++◌, if◌then◌else◌, length, nat_eq, slice_index_or, slice_set, All, IsTrue, ◌≢◌, IfOk, OnOk};
ghost use Rattle.std.specs.List.{IsDistinct};
ghost use Rattle.election_snapshot.specs.Snapshot.{has};
ghost use Rattle.weight_book.specs.Passing.{nominators};
ghost use Rattle.seat_race.specs.Tables.{says, AreNominators};
ghost use Rattle.seat_race.specs.Parts.{held, AreRooms};

use crate::votes::raise_at;
use election_snapshot::Snapshot;
use npos_base::NoMemory;
use std::alloc::Global;
use std::marker::Model;

/// By target, the voters that nominate it, in one list: those of a target begin where those of the
/// one before it end. Contracts see a list for each target.
#[derive(Drop)]
pub struct Nominators {
    voters: Vec<u32>,
    // one more than there are targets
    starts: Vec<u32>,
}

impl Model for Nominators {
    ghost use Rattle.std.specs.Prelude.{List, ℕ};
    ghost use Rattle.seat_race.specs.Parts.{parted, ArePartings};

    ghost Value = { List (List ℕ) };

    ghost view = { λ n. parted n.voters.items n.starts.items };

    ghost invariant = { λ n. ArePartings n.voters.items n.starts.items };
}

impl Nominators {
    /// The nominators of each target, in rising order. It looks at each nomination twice.
    pub fn new(alloc: Global, snapshot: &Snapshot) -> Result<Nominators, NoMemory>
        ensures count { IfOk result (λ lists. length lists ≡ length snapshot.now.targets) }
        ensures nominators { IfOk result (λ lists. AreNominators snapshot.now lists) }
    {
        let mut counts = vec![in alloc; 0; snapshot.target_count()]?;
        count_nominators(snapshot, &mut counts);
        let mut rooms = Rooms::new(alloc, &counts)?;
        list_nominators(snapshot, &mut rooms);
        let Rooms { items, starts, .. } = rooms;
        Ok(Nominators {
            voters: items,
            starts,
        })
    }

    /// The nominators of a target.
    #[tactic(auto, using(crate::proofs::PartLemmas::part_within, crate::proofs::PartLemmas::part_is))]
    pub fn of(&self, target: u16) -> &[u32]
        requires { target < length self.now }
        ensures { result.now ≡ slice_index_or self.now target [] }
    {
        let target = usize::from(target);
        let (start, end) = (self.starts[target], self.starts[target + 1]);
        &self.voters[start as usize..end as usize]
    }
}

/// By target, how many voters nominate it.
fn count_nominators(snapshot: &Snapshot, counts: &mut [u64])
    requires { length counts.old ≡ length snapshot.now.targets }
    ensures count { length counts.new ≡ length snapshot.now.targets }
    ensures counts { (target : ℕ) → target < length snapshot.now.targets
        → says counts.new target ≡ length (nominators snapshot.now target) }
{
    counts.fill(0);
    for voter in 0..snapshot.voter_count() {
        raise_at(snapshot.votes(voter as u32), 1, counts);
    }
}

/// Lists in one, each in a room of its own, which is filled from its start.
#[derive(Drop)]
struct Rooms {
    items: Vec<u32>,
    // one more than there are rooms
    starts: Vec<u32>,
    // by room, where its next item goes
    nexts: Vec<u32>,
}

impl Rooms {
    /// Empty rooms of these sizes.
    fn new(alloc: Global, sizes: &[u64]) -> Result<Rooms, NoMemory>
        ensures rooms { IfOk result (λ rooms.
            AreRooms rooms.items.items rooms.starts.items rooms.nexts.items) }
        ensures count { IfOk result (λ rooms. length rooms.nexts.items ≡ length sizes.now) }
        ensures sizes { IfOk result (λ rooms. (room : ℕ) → room < length sizes.now
            → says rooms.starts.items (room + 1)
            ≡ says rooms.starts.items room + says sizes.now room) }
        ensures empty { IfOk result (λ rooms. (room : ℕ) → room < length sizes.now
            → says rooms.nexts.items room ≡ says rooms.starts.items room) }
    {
        let starts = starts_of(alloc, sizes)?;
        let last = starts[sizes.len()];
        let items = vec![in alloc; 0; last as usize]?;
        let nexts = Vec::from_slice(alloc, &starts[..sizes.len()])?;
        Ok(Rooms {
            items,
            starts,
            nexts,
        })
    }

    /// Puts the item into the room, which is not full.
    #[tactic(auto, using(crate::proofs::PartLemmas::part_steps))]
    fn put(&mut self, room: usize, item: u32)
        requires rooms { AreRooms self.old.items.items self.old.starts.items self.old.nexts.items }
        requires there { room < length self.old.nexts.items }
        requires free { says self.old.nexts.items room < says self.old.starts.items (room + 1) }
        ensures rooms { AreRooms self.new.items.items self.new.starts.items self.new.nexts.items }
        ensures starts { self.new.starts.items ≡ self.old.starts.items }
        ensures nexts { self.new.nexts.items
            ≡ slice_set self.old.nexts.items room (says self.old.nexts.items room + 1) }
        ensures here { held self.new.items.items self.new.starts.items self.new.nexts.items room
            ≡ held self.old.items.items self.old.starts.items self.old.nexts.items room ++ item ∷ [] }
        ensures others { (other : ℕ) → other < length self.old.nexts.items → other ≢ room
            → held self.new.items.items self.new.starts.items self.new.nexts.items other
            ≡ held self.old.items.items self.old.starts.items self.old.nexts.items other }
    {
        let next = self.nexts[room];
        self.items[next as usize] = item;
        self.nexts[room] = next + 1;
    }
}

/// Where rooms of these sizes start that lie one behind the other, and where the last one ends.
fn starts_of(alloc: Global, sizes: &[u64]) -> Result<Vec<u32>, NoMemory>
    ensures count { IfOk result (λ starts. length starts.items ≡ length sizes.now + 1) }
    ensures sizes { IfOk result (λ starts. (room : ℕ) → room < length sizes.now
        → says starts.items (room + 1) ≡ says starts.items room + says sizes.now room) }
{
    let mut starts = Vec::with_capacity(alloc, sizes.len())?;
    let mut end = 0_u32;
    starts.push(end)?;
    for size in sizes {
        let size = u32::try_from(*size).map_err(|_| NoMemory)?;
        end = end.checked_add(size).ok_or(NoMemory)?;
        starts.push(end)?;
    }
    Ok(starts)
}

/// Puts each voter into the rooms of its votes.
fn list_nominators(snapshot: &Snapshot, rooms: &mut Rooms)
    requires rooms { AreRooms rooms.old.items.items rooms.old.starts.items rooms.old.nexts.items }
    requires count { length rooms.old.nexts.items ≡ length snapshot.now.targets }
    requires sizes { (target : ℕ) → target < length snapshot.now.targets
        → says rooms.old.starts.items (target + 1)
        ≡ says rooms.old.starts.items target + length (nominators snapshot.now target) }
    requires empty { (target : ℕ) → target < length snapshot.now.targets
        → says rooms.old.nexts.items target ≡ says rooms.old.starts.items target }
    ensures rooms { AreRooms rooms.new.items.items rooms.new.starts.items rooms.new.nexts.items }
    ensures count { length rooms.new.nexts.items ≡ length snapshot.now.targets }
    ensures full { (target : ℕ) → target < length snapshot.now.targets
        → says rooms.new.nexts.items target ≡ says rooms.new.starts.items (target + 1) }
    ensures lists { (target : ℕ) → target < length snapshot.now.targets
        → held rooms.new.items.items rooms.new.starts.items rooms.new.nexts.items target
        ≡ nominators snapshot.now target }
{
    for voter in 0..snapshot.voter_count() {
        let voter = voter as u32;
        note_voter(snapshot.votes(voter), voter, rooms);
    }
}

/// Puts the voter into the room of each of its votes.
fn note_voter(votes: &[u16], voter: u32, rooms: &mut Rooms)
    requires in_range { All (λ vote. vote < length rooms.old.nexts.items) votes.now }
    requires distinct { IsDistinct nat_eq votes.now }
    requires rooms { AreRooms rooms.old.items.items rooms.old.starts.items rooms.old.nexts.items }
    requires free { (target : ℕ) → target < length rooms.old.nexts.items
        → IsTrue (has votes.now target)
        → says rooms.old.nexts.items target < says rooms.old.starts.items (target + 1) }
    ensures rooms { AreRooms rooms.new.items.items rooms.new.starts.items rooms.new.nexts.items }
    ensures starts { rooms.new.starts.items ≡ rooms.old.starts.items }
    ensures count { length rooms.new.nexts.items ≡ length rooms.old.nexts.items }
    ensures lists { (target : ℕ) → target < length rooms.old.nexts.items
        → held rooms.new.items.items rooms.new.starts.items rooms.new.nexts.items target
        ≡ if has votes.now target
        then held rooms.old.items.items rooms.old.starts.items rooms.old.nexts.items target
        ++ voter ∷ []
        else held rooms.old.items.items rooms.old.starts.items rooms.old.nexts.items target }
{
    for vote in votes {
        rooms.put(usize::from(*vote), voter);
    }
}
