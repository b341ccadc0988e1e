//! What is kept of each account that has a role.
ghost use Rattle.std.specs.Prelude.{◌≡◌, ◌<◌, ◌≤◌, [], false, Some, None, IfOk, IfNone, OnOk, OnErr, IfSome, is_some, length, slice_get};
ghost use Rattle.npos_base.specs.declared.account.AccountId.{AccountId};
ghost use Rattle.account_places.specs.Places.{place_in, by_account, Stand};
ghost use Rattle.voter_lists.specs.declared.standing.Standing.{Standing};
ghost use Rattle.voter_lists.specs.declared.standing.Role.TheVariants.{Nobody};
ghost use Rattle.voter_lists.specs.Marks.{IsMark, AreMarks, AreNamed, KeepPlaces, RepeatAlike};
ghost use Rattle.voter_lists.specs.Noted.{IsPlaced, NotesTargets, standing_noted};
ghost use Rattle.voter_lists.specs.Roles.{standing_of, role_of, nominated_by, is_validator, nominated, validating, with_standing, without_role};

use crate::marks::{Marks, UNKNOWN, marks_of};
use crate::row::Row;
use crate::standing::Role;
use crate::targets::Targets;
use account_places::Places;
use npos_base::{AccountId, List, NoMemory};
use std::alloc::Global;
use std::marker::Model;

/// The standings of accounts. An account that ever had one, or that a nominator ever named, keeps
/// its place for good. Contracts see the list of accounts with their standings, by rising account,
/// and the accounts in the order of their places.
#[derive(Drop)]
pub(crate) struct Standings {
    alloc: Global,
    places: Places,
    rows: Vec<Row>,
}

impl Model for Standings {
    ghost use Rattle.account_places.specs.Places.{by_account};
    ghost use Rattle.voter_lists.specs.Standings.{PlacedRoles, standings_in, standings_placed, AreBeside};

    ghost Value = { PlacedRoles };

    ghost view = { λ s. record {
      roles = standings_placed (standings_in s.places s.rows.items) (by_account s.places);
      accounts = s.places;
    } };

    ghost invariant = { λ s. AreBeside s.rows.items s.places };
}

impl Standings {
    /// Nobody has a standing. It takes no memory.
    pub(crate) fn new(alloc: Global) -> Standings
        ensures { result ≡ record { roles = []; accounts = [] } }
    {
        Standings {
            alloc,
            places: Places::new(alloc),
            rows: Vec::new(alloc),
        }
    }

    /// Makes room for so many accounts more.
    pub(crate) fn reserve(&mut self, more: usize) -> Result<(), NoMemory>
        ensures { self.new ≡ self.old }
    {
        self.places.reserve(more)?;
        self.rows.reserve(more)?;
        Ok(())
    }

    /// How many accounts have a place: at least as many as have a standing.
    pub(crate) fn count(&self) -> usize
        ensures count { result ≡ length self.now.accounts }
        ensures most { length self.now.roles ≤ result }
        ensures stand { Stand self.now.accounts (by_account self.now.accounts) }
    {
        self.places.count()
    }

    /// The account at a place.
    pub(crate) fn account(&self, place: usize) -> AccountId
        requires { place < length self.now.accounts }
        ensures { slice_get self.now.accounts place ≡ Some result }
    {
        self.places.account(place)
    }

    /// The place of an account.
    fn place_of(&self, who: AccountId) -> Option<usize>
        ensures place { result ≡ place_in (by_account self.now.accounts) who }
        ensures stand { Stand self.now.accounts (by_account self.now.accounts) }
    {
        self.places.find(who)
    }

    /// The place of an account, which may be the one that is guessed.
    pub(crate) fn place_from(&self, guess: usize, who: AccountId) -> Option<usize>
        ensures place { result ≡ place_in (by_account self.now.accounts) who }
        ensures stand { Stand self.now.accounts (by_account self.now.accounts) }
        ensures absent { IfNone result (standing_of self.now.roles who ≡ None) }
    {
        self.places.find_from(guess, who)
    }

    /// What the first slot of the account says. Nothing rests on it.
    pub(crate) fn peek(&self, who: AccountId) -> u32 {
        self.places.peek(who)
    }

    /// What is kept at the place of an account.
    pub(crate) fn row(&self, place: usize) -> &Row
        requires { place < length self.now.accounts }
        ensures standing { (who : AccountId) → slice_get self.now.accounts place ≡ Some who
            → standing_noted self.now.accounts result.now ≡ standing_of self.now.roles who }
        ensures placed { IsPlaced self.now.accounts result.now }
    {
        &self.rows[place]
    }

    /// The role of an account that stands at this place, or nowhere, and whom it names.
    fn noted(&self, place: Option<usize>) -> (Role, Targets<'_>)
        requires { IfSome place (λ place. place < length self.now.accounts) }
        ensures role { (who : AccountId) → place ≡ place_in (by_account self.now.accounts) who
            → result.0 ≡ role_of self.now.roles who }
        ensures targets { (who : AccountId) → place ≡ place_in (by_account self.now.accounts) who
            → result.1 ≡ nominated_by self.now.roles who }
    {
        match place {
            Some(place) => {
                let row = self.row(place);
                (row.role(), Targets::of(&self.places, row.chosen()))
            }
            None => (Role::Nobody, Targets::none(&self.places)),
        }
    }

    /// The role of an account, and whom it names.
    pub(crate) fn get(&self, who: AccountId) -> (Role, Targets<'_>)
        ensures role { result.0 ≡ role_of self.now.roles who }
        ensures targets { result.1 ≡ nominated_by self.now.roles who }
    {
        self.noted(self.place_of(who))
    }

    /// The role of an account, and whom it names. The account may stand at the guess; the next
    /// guess is the place behind it.
    pub(crate) fn get_from(&self, guess: &mut usize, who: AccountId) -> (Role, Targets<'_>)
        ensures role { result.0 ≡ role_of self.now.roles who }
        ensures targets { result.1 ≡ nominated_by self.now.roles who }
    {
        let place = self.place_from(*guess, who);
        if let Some(place) = place {
            *guess = place.wrapping_add(1);
        }
        self.noted(place)
    }

    /// Whether the account is a validator.
    pub(crate) fn is_validator(&self, who: AccountId) -> bool
        ensures { result ≡ is_validator self.now.roles who }
    {
        let (role, _) = self.get(who);
        role.validates()
    }

    /// Whether the account is a validator, which need not be found where its place is known.
    pub(crate) fn is_validator_at(&self, mark: u32, who: AccountId) -> bool
        requires { IsMark self.now.accounts mark who }
        ensures { result ≡ is_validator self.now.roles who }
    {
        if mark == UNKNOWN {
            return self.is_validator(who);
        }
        self.row(mark as usize).role().validates()
    }

    /// The marks of these accounts. Each is found once.
    pub(crate) fn marks_of(&self, targets: &[AccountId]) -> Result<Marks, NoMemory>
        ensures marks { IfOk result (λ marks. AreMarks self.now.accounts marks targets.now) }
        ensures alike { IfOk result (λ marks. RepeatAlike marks targets.now) }
    {
        marks_of(self.alloc, &self.places, targets)
    }

    /// The place of an account, which has one from now on. It has no standing for that.
    fn place_for(&mut self, who: AccountId) -> Result<usize, NoMemory>
        ensures place { OnOk result (IfOk result (λ place.
            place_in (by_account self.new.accounts) who ≡ Some place)) }
        ensures there { OnOk result (IfOk result (λ place.
            slice_get self.new.accounts place ≡ Some who)) }
        ensures kept { KeepPlaces self.old.accounts self.new.accounts }
        ensures roles { self.new.roles ≡ self.old.roles }
    {
        if let Some(place) = self.places.find(who) {
            return Ok(place);
        }
        let place = self.places.count();
        self.rows.reserve(1)?;
        self.places.put(who)?;
        match self.rows.push(Row::nobody()) {
            Ok(()) => Ok(place),
            Err(_) => unreachable!(),
        }
    }

    /// The marks of these accounts, each of which has a place from now on.
    pub(crate) fn marks_for(&mut self, targets: &[AccountId]) -> Result<Marks, NoMemory>
        ensures marks { OnOk result (IfOk result (λ marks.
            AreMarks self.new.accounts marks targets.now)) }
        ensures kept { KeepPlaces self.old.accounts self.new.accounts }
        ensures roles { self.new.roles ≡ self.old.roles }
    {
        let marks = self.marks_of(targets)?;
        if !marks.as_slice().contains(&UNKNOWN) {
            return Ok(marks);
        }
        self.places_for(targets)?;
        self.marks_of(targets)
    }

    /// The places of these accounts, each of which has one from now on.
    fn places_for(&mut self, targets: &[AccountId]) -> Result<List<usize>, NoMemory>
        ensures named { OnOk result (IfOk result (λ places.
            AreNamed self.new.accounts places targets.now)) }
        ensures kept { KeepPlaces self.old.accounts self.new.accounts }
        ensures roles { self.new.roles ≡ self.old.roles }
    {
        let mut places = List::new(self.alloc);
        for target in targets {
            let place = self.place_for(*target)?;
            places.put(place)?;
        }
        Ok(places)
    }

    /// The row of a nominator of these targets, which have these marks.
    fn row_for(&mut self, targets: &[AccountId], marks: Marks) -> Result<Row, NoMemory>
        requires { AreMarks self.old.accounts marks targets.now }
        ensures named { OnOk result (IfOk result (λ row. NotesTargets self.new.accounts row targets.now)) }
        ensures kept { KeepPlaces self.old.accounts self.new.accounts }
        ensures roles { self.new.roles ≡ self.old.roles }
    {
        if !marks.as_slice().contains(&UNKNOWN) {
            return Ok(Row::near(marks));
        }
        let places = self.places_for(targets)?;
        Ok(Row::far(places))
    }

    /// The account has this row in place of any that it had. It tells the place of the account, and
    /// the role that it had before.
    fn put(&mut self, who: AccountId, row: Row) -> Result<(usize, Role), NoMemory>
        requires { IsPlaced self.old.accounts row }
        ensures place { OnOk result (IfOk result (λ put.
            slice_get self.new.accounts put.0 ≡ Some who)) }
        ensures before { IfOk result (λ put. put.1 ≡ role_of self.old.roles who) }
        ensures kept { KeepPlaces self.old.accounts self.new.accounts }
        ensures ok { (standing : Standing) → standing_noted self.old.accounts row ≡ Some standing
            → OnOk result (self.new.roles ≡ with_standing self.old.roles who standing) }
        ensures err { OnErr result (self.new.roles ≡ self.old.roles) }
    {
        let place = self.place_for(who)?;
        let before = self.rows[place].role();
        self.rows[place] = row;
        Ok((place, before))
    }

    /// The account is a nominator of these targets, which have these marks. It tells the role that
    /// the account had before.
    pub(crate) fn put_nominator(
        &mut self,
        who: AccountId,
        targets: &[AccountId],
        marks: Marks,
    ) -> Result<Role, NoMemory>
        requires { AreMarks self.old.accounts marks targets.now }
        ensures before { IfOk result (λ before. before ≡ role_of self.old.roles who) }
        ensures kept { KeepPlaces self.old.accounts self.new.accounts }
        ensures ok { OnOk result (self.new.roles ≡ nominated self.old.roles who targets.now) }
        ensures err { OnErr result (self.new.roles ≡ self.old.roles) }
    {
        let row = self.row_for(targets, marks)?;
        let (_, before) = self.put(who, row)?;
        Ok(before)
    }

    /// The account is a validator with this commission. It tells the place of the account, and the
    /// role that it had before.
    pub(crate) fn put_validator(
        &mut self,
        who: AccountId,
        commission: u32,
    ) -> Result<(usize, Role), NoMemory>
        ensures place { OnOk result (IfOk result (λ put.
            slice_get self.new.accounts put.0 ≡ Some who)) }
        ensures before { IfOk result (λ put. put.1 ≡ role_of self.old.roles who) }
        ensures kept { KeepPlaces self.old.accounts self.new.accounts }
        ensures ok { OnOk result (self.new.roles ≡ validating self.old.roles who commission) }
        ensures err { OnErr result (self.new.roles ≡ self.old.roles) }
    {
        self.put(who, Row::validator(commission))
    }

    /// The account has no standing any more. It tells the role that the account had before, and takes
    /// no memory.
    pub(crate) fn remove(&mut self, who: AccountId) -> Role
        ensures before { result ≡ role_of self.old.roles who }
        ensures gone { self.new.roles ≡ without_role self.old.roles who }
        ensures kept { result ≡ Nobody → self.new.roles ≡ self.old.roles }
        ensures places { self.new.accounts ≡ self.old.accounts }
    {
        let Some(place) = self.places.find(who) else {
            return Role::Nobody;
        };
        let before = self.rows[place].role();
        self.rows[place] = Row::nobody();
        before
    }
}
