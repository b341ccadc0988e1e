//! The votes of all voters, one list behind the other.
ghost use Rattle.std.specs.Prelude.{◌≡◌, ◌<◌, ◌≤◌, [], ◌∷◌, ◌++◌, length, OnOk, slice_index_or};
ghost use Rattle.npos_base.specs.declared.limits.TheConstants.{MOST_NOMINATIONS, MOST_VOTERS};
ghost use Rattle.election_snapshot.specs.Ballots.{start_of};

use npos_base::{MOST_NOMINATIONS, NoMemory};
use std::alloc::Global;
use std::marker::Model;

/// The votes of all voters in one list, those of each behind those of the voter before it, and where
/// those of each end. So memory follows the votes: two bytes for a vote, and four for a voter.
/// Contracts see the votes of each voter, and how many voters more there is room for, each with the
/// most votes.
#[derive(Drop)]
pub(crate) struct Ballots {
    votes: Vec<u16>,
    ends: Vec<u32>,
}

impl Model for Ballots {
    ghost use Rattle.std.specs.Prelude.{◌-◌, List, ℕ};
    ghost use Rattle.std.specs.Vec.{vec_len, vec_capacity};
    ghost use Rattle.npos_base.specs.Room.{RoomOf};
    ghost use Rattle.election_snapshot.specs.Ballots.{cut_at, room_for, AreEnds};

    ghost Value = { RoomOf (List ℕ) };

    ghost view = { λ b. record {
      items = cut_at b.votes.items 0 b.ends.items;
      spare = room_for (vec_capacity b.votes - vec_len b.votes)
          (vec_capacity b.ends - vec_len b.ends);
    } };

    ghost invariant = { λ b. AreEnds b.votes.items b.ends.items };
}

impl Ballots {
    /// No voter. It takes no memory yet.
    pub(crate) fn new(alloc: Global) -> Ballots
        ensures { result.items ≡ [] }
    {
        Ballots {
            votes: Vec::new(alloc),
            ends: Vec::new(alloc),
        }
    }

    /// Takes room for so many voters more, each with the most votes. It touches none of it.
    pub(crate) fn reserve(&mut self, voters: usize) -> Result<(), NoMemory>
        ensures room { OnOk result (voters ≤ self.new.spare) }
        ensures same { self.new.items ≡ self.old.items }
    {
        // A product that saturates is room that no list has.
        self.votes.reserve(voters.saturating_mul(MOST_NOMINATIONS))?;
        self.ends.reserve(voters)?;
        Ok(())
    }

    /// Appends the votes of one more voter. It cannot fail, since there is room. An end fits its
    /// 32 bits, since neither the voters nor the votes of one are many.
    #[tactic(auto, using(crate::proofs::BallotLemmas::cut_count, crate::proofs::BallotLemmas::cut_with, crate::proofs::BallotLemmas::ends_with))]
    pub(crate) fn push_within(&mut self, votes: &[u16])
        requires room { 0 < self.old.spare }
        requires few { length votes.now ≤ MOST_NOMINATIONS }
        requires voters { length self.old.items < MOST_VOTERS }
        ensures { self.new.items ≡ self.old.items ++ votes.now ∷ [] }
    {
        match self.votes.extend_from_slice(votes) {
            Ok(()) => {}
            Err(_) => unreachable!(),
        }
        self.ends.push_reserved(self.votes.len() as u32);
    }

    /// The votes of a voter.
    #[tactic(auto, using(crate::proofs::BallotLemmas::ballot_cuts))]
    pub(crate) fn votes(&self, voter: usize) -> &[u16]
        requires { voter < length self.now.items }
        ensures { result.now ≡ slice_index_or self.now.items voter [] }
    {
        let start = start_of(&self.ends, voter);
        let end = self.ends[voter] as usize;
        &self.votes[start..end]
    }
}

/// Where the votes of a voter begin: where those of the voter before it end.
fn start_of(ends: &[u32], voter: usize) -> usize
    requires { voter < length ends.now }
    ensures { result ≡ start_of ends.now voter }
{
    if voter == 0 {
        return 0;
    }
    ends[voter - 1] as usize
}
