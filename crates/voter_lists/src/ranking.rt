//! The ranks of the validators, by the places of accounts.
ghost use Rattle.std.specs.Prelude.{◌≡◌, ◌<◌, [], length, Some, OnOk, IfOk, slice_get, filter_map};
ghost use Rattle.npos_base.specs.declared.account.AccountId.{AccountId};
ghost use Rattle.voter_lists.specs.Chosen.{chosen_in};
ghost use Rattle.voter_lists.specs.Noted.{AreWithin, accounts_at};
ghost use Rattle.voter_lists.specs.RankedAt.{AreRankedAt};
ghost use Rattle.voter_lists.specs.Ranking.{rank_in, AreTold, IsRanking};
ghost use Rattle.voter_lists.specs.Roles.{validators_of};
ghost use Rattle.voter_lists.specs.Votes.{rank_of, votes_of};

use crate::row::Chosen;
use crate::standing::Role;
use crate::standings::Standings;
use npos_base::NoMemory;
use std::alloc::Global;

/// The entry of an account that is no validator.
const NO_RANK: u16 = 0xffff;

/// The rank of each validator in a table, at the place of its account.
#[derive(Drop)]
pub(crate) struct Ranking<'a> {
    pub(crate) standings: &'a Standings,
    pub(crate) ranks: Vec<u16>,
}

/// The rank that an entry tells.
fn rank_in(entry: u16) -> Option<u16>
    ensures { result ≡ rank_in entry }
{
    if entry == NO_RANK { None } else { Some(entry) }
}

/// The table of the ranks of the validators at these places.
fn table(alloc: Global, standings: &Standings, validators: &[usize]) -> Result<Vec<u16>, NoMemory>
    requires { AreRankedAt standings.now validators.now }
    ensures { IfOk result (λ ranks. AreTold ranks.items standings.now.accounts
        (rank_of (validators_of standings.now.roles))) }
{
    let mut ranks = vec![in alloc; NO_RANK; standings.count()]?;
    for (rank, place) in validators.iter().enumerate() {
        ranks[*place] = rank as u16;
    }
    Ok(ranks)
}

impl<'a> Ranking<'a> {
    /// The ranks of the validators, which stand at these places.
    pub(crate) fn new(
        alloc: Global,
        standings: &'a Standings,
        validators: &[usize],
    ) -> Result<Ranking<'a>, NoMemory>
        requires { AreRankedAt standings.now validators.now }
        ensures sound { IfOk result (λ ranking. IsRanking ranking) }
        ensures roles { IfOk result (λ ranking. ranking.standings.now ≡ standings.now) }
    {
        let ranks = table(alloc, standings, validators)?;
        Ok(Ranking { standings, ranks })
    }

    /// The rank of the account at this place.
    fn rank_at(&self, place: usize) -> Option<u16>
        requires ranking { IsRanking self.now }
        requires there { place < length self.now.standings.now.accounts }
        ensures { (who : AccountId) → slice_get self.now.standings.now.accounts place ≡ Some who
            → result ≡ rank_of (validators_of self.now.standings.now.roles) who }
    {
        rank_in(self.ranks[place])
    }

    /// Adds the votes for the accounts at these places. Whether there is room is asked once for all
    /// of them.
    fn cast_for(&self, chosen: Chosen<'_>, votes: &mut Vec<u16>) -> Result<(), NoMemory>
        requires ranking { IsRanking self.now }
        requires within { AreWithin self.now.standings.now.accounts (chosen_in chosen) }
        requires none { votes.old.items ≡ [] }
        ensures { OnOk result (votes.new.items
            ≡ filter_map (rank_of (validators_of self.now.standings.now.roles))
            (accounts_at self.now.standings.now.accounts (chosen_in chosen.entry))) }
    {
        votes.reserve(chosen.len())?;
        for i in 0..chosen.len() {
            if let Some(rank) = self.rank_at(chosen.at(i)) {
                votes.push_reserved(rank);
            }
        }
        Ok(())
    }

    /// Adds the votes of the account at this place.
    pub(crate) fn cast(&self, place: usize, votes: &mut Vec<u16>) -> Result<(), NoMemory>
        requires ranking { IsRanking self.now }
        requires there { place < length self.now.standings.now.accounts }
        requires none { votes.old.items ≡ [] }
        ensures { OnOk result ((who : AccountId)
            → slice_get self.now.standings.now.accounts place ≡ Some who
            → votes.new.items ≡ votes_of self.now.standings.now.roles who) }
    {
        let row = self.standings.row(place);
        match row.role() {
            Role::Nominator => self.cast_for(row.chosen(), votes),
            Role::Validator { .. } => {
                if let Some(rank) = self.rank_at(place) {
                    votes.push(rank)?;
                }
                Ok(())
            }
            Role::Nobody => Ok(()),
        }
    }
}
