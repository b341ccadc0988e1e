//! The votes of accounts.
ghost use Rattle.std.specs.Prelude.{◌≡◌, ◌≤◌, length, IfOk, OnOk};
ghost use Rattle.voter_lists.specs.RankedAt.{AreRankedAt};
ghost use Rattle.voter_lists.specs.Votes.{votes_of};

use crate::ranking::Ranking;
use crate::standings::Standings;
use npos_base::{AccountId, NoMemory};
use std::alloc::Global;
use std::marker::Model;

/// The roles as they are, with the ranks of the validators where their accounts stand, so that the
/// votes of many accounts are read, and neither searched nor compared, whatever the accounts are.
/// Contracts see the roles.
#[derive(Drop)]
pub struct Electorate<'a> {
    ranking: Ranking<'a>,
    guess: usize,
}

impl<'a> Model for Electorate<'a> {
    ghost use Rattle.voter_lists.specs.Roles.{RoleList};
    ghost use Rattle.voter_lists.specs.Ranking.{IsRanking};

    ghost Value = { RoleList };

    ghost view = { λ e. e.ranking.standings.now.roles };

    ghost invariant = { λ e. IsRanking e.ranking };
}

impl<'a> Electorate<'a> {
    /// The electorate of the validators, which stand at these places.
    pub(crate) fn new(
        alloc: Global,
        standings: &'a Standings,
        validators: &[usize],
    ) -> Result<Electorate<'a>, NoMemory>
        requires { AreRankedAt standings.now validators.now }
        ensures { IfOk result (λ electorate. electorate ≡ standings.now.roles) }
    {
        let ranking = Ranking::new(alloc, standings, validators)?;
        Ok(Electorate { ranking, guess: 0 })
    }

    /// At least as many accounts as have a role, for whoever takes room for all that vote.
    pub fn most_voters(&self) -> usize
        ensures { length self.now ≤ result }
    {
        self.ranking.standings.count()
    }

    /// Writes whom the account votes for, as ranks among the validators by rising account, in the
    /// order of its choices. A choice that is no validator now gets no vote. Accounts that are
    /// asked for in about the order in which they first had a role need not be found.
    pub fn cast(&mut self, who: AccountId, votes: &mut Vec<u16>) -> Result<(), NoMemory>
        ensures kept { self.new ≡ self.old }
        ensures votes { OnOk result (votes.new.items ≡ votes_of self.old who) }
    {
        votes.clear();
        let Some(place) = self.ranking.standings.place_from(self.guess, who) else {
            return Ok(());
        };
        self.guess = place.wrapping_add(1);
        self.ranking.cast(place, votes)
    }
}
