//! The roles of accounts, after Substrate's staking pallet.
ghost use Rattle.std.specs.Prelude.{◌≡◌, ◌≢◌, ◌<◌, ◌≤◌, ◌+◌, ◌||◌, [], ◌∷◌, length, drop, nat_eq, None, Some, IfOk, IfErr, OnOk, OnErr, slice_get, slice_index_or, position, is_some};
ghost use Rattle.std.specs.List.{list_any};
ghost use Rattle.std.specs.List.Sorted.{IsStrictlySortedBy};
ghost use Rattle.npos_base.specs.Account.{account_cmp, same_account};
ghost use Rattle.npos_base.specs.declared.limits.TheConstants.{MOST_VALIDATORS};
ghost use Rattle.npos_base.specs.Refusal.{IsDue, MeetsAlways, answer_of};
ghost use Rattle.voter_lists.specs.declared.refusal.ListRefusal.TheVariants.{NoMemory as NoMemoryRefusal};
ghost use Rattle.voter_lists.specs.Marks.{unknown, AreMarks, RepeatAlike, has_repeated_mark};
ghost use Rattle.voter_lists.specs.Owed.{Meets};
ghost use Rattle.voter_lists.specs.RankedAt.{AreRankedAt};
ghost use Rattle.voter_lists.specs.Roles.{role_of, nominated_by, validators_of, is_validator, KeepsOthers, has_repeated_account, is_no_target, nominate_refusal, nominated, validate_refusal, validating, chill_refusal, without_role};
ghost use Rattle.voter_lists.specs.Taken.{CanTake, with_role};

use crate::ListRefusal;
use crate::electorate::Electorate;
use crate::marks::{Marks, UNKNOWN};
use crate::ranks::{enter_where, leave_where, rank_among};
use crate::standing::Role;
use crate::standings::Standings;
use crate::targets::Targets;
use npos_base::{AccountId, List, MOST_NOMINATIONS, MOST_VALIDATORS, NoMemory, WHOLE_FRACTION};
use std::alloc::Global;
use std::marker::Model;

/// The classes of marks, by what is left of them behind so many.
const CLASSES: usize = 256;

/// Who is a validator and who a nominator. The validators stand by the places of their accounts, by
/// rising account. Contracts see the list of accounts with their standings, by rising account.
#[derive(Drop)]
pub struct Roles {
    standings: Standings,
    validators: Vec<usize>,
}

impl Model for Roles {
    ghost use Rattle.voter_lists.specs.Roles.{RoleList};

    ghost Value = { RoleList };

    ghost use Rattle.voter_lists.specs.RankedAt.{AreRankedAt};

    ghost view = { λ r. r.standings.roles };

    ghost invariant = { λ r. AreRankedAt r.standings r.validators.items };
}

impl Roles {
    /// Nobody has a role. It takes no memory.
    pub fn new(alloc: Global) -> Roles
        ensures { result ≡ [] }
    {
        Roles {
            standings: Standings::new(alloc),
            validators: Vec::new(alloc),
        }
    }

    /// Makes room for the roles of so many accounts more, so that they come without a move of those
    /// that are there. What is not used of it stays untouched.
    pub fn reserve(&mut self, more: usize) -> Result<(), NoMemory>
        ensures { self.new ≡ self.old }
    {
        self.standings.reserve(more)?;
        Ok(())
    }

    /// The account becomes a nominator of these targets, in place of any role that it had.
    pub fn nominate(&mut self, who: AccountId, targets: List<AccountId>) -> Result<(), ListRefusal>
        ensures meets { Meets (nominate_refusal self.old who targets)
            (nominated self.old who targets) self.old self.new result }
        ensures others { KeepsOthers self.old self.new who }
    {
        self.nominate_anew(who, targets)?;
        Ok(())
    }

    /// Does what `nominate` does, and tells the role that the account had before. The account is
    /// searched for once.
    pub fn nominate_anew(
        &mut self,
        who: AccountId,
        targets: List<AccountId>,
    ) -> Result<Role, ListRefusal>
        ensures meets { Meets (nominate_refusal self.old who targets)
            (nominated self.old who targets) self.old self.new result }
        ensures others { KeepsOthers self.old self.new who }
        ensures before { IfOk result (λ before. before ≡ role_of self.old who) }
    {
        let marks = check_targets(&self.standings, who, targets.as_slice())?;
        let before = put_nominator(
            &mut self.standings,
            &mut self.validators,
            who,
            targets.as_slice(),
            marks,
        )?;
        Ok(before)
    }

    /// The account becomes a validator with this commission in billionths, in place of any role
    /// that it had.
    pub fn validate(&mut self, who: AccountId, commission: u32) -> Result<(), ListRefusal>
        ensures meets { Meets (validate_refusal self.old who commission)
            (validating self.old who commission) self.old self.new result }
        ensures others { KeepsOthers self.old self.new who }
    {
        self.validate_anew(who, commission)?;
        Ok(())
    }

    /// Does what `validate` does, and tells the role that the account had before. The account is
    /// searched for once, and twice only where there are as many validators as may be, since a
    /// newcomer is refused then.
    pub fn validate_anew(&mut self, who: AccountId, commission: u32) -> Result<Role, ListRefusal>
        ensures meets { Meets (validate_refusal self.old who commission)
            (validating self.old who commission) self.old self.new result }
        ensures others { KeepsOthers self.old self.new who }
        ensures before { IfOk result (λ before. before ≡ role_of self.old who) }
    {
        if commission > WHOLE_FRACTION {
            return Err(ListRefusal::BadFraction);
        }
        if self.validator_count() >= MOST_VALIDATORS && !self.standings.is_validator(who) {
            return Err(ListRefusal::TooManyValidators);
        }
        let before = self.put_validator(who, commission)?;
        Ok(before)
    }

    /// The account takes the role, in place of any that it had: that of a nominator with these
    /// targets, at most 24, none of them twice or the account itself, whatever the targets do; or
    /// that of a validator, to whom targets mean nothing. It fails for want of memory alone.
    pub fn put_role(
        &mut self,
        who: AccountId,
        role: Role,
        targets: List<AccountId>,
    ) -> Result<(), NoMemory>
        requires { CanTake self.old who role targets }
        ensures ok { OnOk result (self.new ≡ with_role self.old who role targets) }
        ensures err { OnErr result (self.new ≡ self.old) }
        ensures others { KeepsOthers self.old self.new who }
    {
        match role {
            Role::Nobody => unreachable!(),
            Role::Nominator => {
                let marks = self.standings.marks_for(targets.as_slice())?;
                put_nominator(
                    &mut self.standings,
                    &mut self.validators,
                    who,
                    targets.as_slice(),
                    marks,
                )?;
            }
            Role::Validator { commission } => {
                self.put_validator(who, commission)?;
            }
        }
        Ok(())
    }

    /// The account becomes a validator with this commission. It tells the role that the account had
    /// before.
    fn put_validator(&mut self, who: AccountId, commission: u32) -> Result<Role, NoMemory>
        requires { validate_refusal self.old who commission ≡ None }
        ensures before { IfOk result (λ before. before ≡ role_of self.old who) }
        ensures ok { OnOk result (self.new ≡ validating self.old who commission) }
        ensures err { OnErr result (self.new ≡ self.old) }
        ensures others { KeepsOthers self.old self.new who }
    {
        self.validators.reserve(1)?;
        let (place, before) = self.standings.put_validator(who, commission)?;
        let missing = !before.validates();
        enter_where(&self.standings, &mut self.validators, who, place, missing);
        Ok(before)
    }

    /// The account has no role any more. It takes no memory.
    pub fn chill(&mut self, who: AccountId) -> Result<(), ListRefusal>
        ensures meets { MeetsAlways (chill_refusal self.old who)
            (without_role self.old who) self.old self.new result }
        ensures answer { result ≡ answer_of (chill_refusal self.old who) }
        ensures others { KeepsOthers self.old self.new who }
    {
        match self.standings.remove(who) {
            Role::Nobody => Err(ListRefusal::NotListed),
            before => {
                let there = before.validates();
                leave_where(&self.standings, &mut self.validators, who, there);
                Ok(())
            }
        }
    }

    /// The role of an account.
    pub fn role(&self, who: AccountId) -> Role
        ensures { result ≡ role_of self.now who }
    {
        let (role, _) = self.standings.get(who);
        role
    }

    /// What the first slot of the account says, by which it is found. Nothing rests on it: who peeks
    /// for many accounts has read their slots before the first of them is sought.
    pub fn peek(&self, who: AccountId) -> u32 {
        self.standings.peek(who)
    }

    /// The role of an account and its targets, for accounts that are asked for in about the order
    /// in which they first had one: the account may be found by the guess, which then is of the
    /// account that came next.
    pub fn role_from(&self, guess: &mut usize, who: AccountId) -> (Role, Targets<'_>)
        ensures role { result.0 ≡ role_of self.now who }
        ensures targets { result.1 ≡ nominated_by self.now who }
    {
        self.standings.get_from(guess, who)
    }

    /// The targets of a nominator, in the order in which it named them. Nobody else has any.
    pub fn targets_of(&self, who: AccountId) -> Targets<'_>
        ensures { result ≡ nominated_by self.now who }
    {
        let (_, targets) = self.standings.get(who);
        targets
    }

    /// How many validators there are, at most 2,048. They rise strictly by account.
    pub fn validator_count(&self) -> usize
        ensures count { result ≡ length (validators_of self.now) }
        ensures most { result ≤ MOST_VALIDATORS }
        ensures rising { IsStrictlySortedBy account_cmp (validators_of self.now) }
    {
        self.validators.len()
    }

    /// The validator at this place among all by rising account.
    pub fn validator_at(&self, i: usize) -> AccountId
        requires { i < length (validators_of self.now) }
        ensures { slice_get (validators_of self.now) i ≡ Some result }
    {
        self.standings.account(self.validators[i])
    }

    /// The place of a validator among all by rising account. It is found in the logarithm of their
    /// number.
    pub fn rank(&self, who: AccountId) -> Option<u16>
        ensures place { result ≡ position (same_account who) (validators_of self.now) }
        ensures some { is_some result ≡ is_validator self.now who }
    {
        rank_among(&self.standings, self.validators.as_slice(), who)
    }

    /// The electorate as it is now. It takes two bytes for each account that ever had a role or was
    /// named.
    pub fn electorate(&self, alloc: Global) -> Result<Electorate<'_>, NoMemory>
        ensures { IfOk result (λ electorate. electorate ≡ self.now) }
    {
        Electorate::new(alloc, &self.standings, self.validators.as_slice())
    }
}

/// The account becomes a nominator of these targets, which have these marks. It tells the role that
/// the account had before.
fn put_nominator(
    standings: &mut Standings,
    validators: &mut Vec<usize>,
    who: AccountId,
    targets: &[AccountId],
    marks: Marks,
) -> Result<Role, NoMemory>
    requires ranked { AreRankedAt standings.old validators.old.items }
    requires marks { AreMarks standings.old.accounts marks targets.now }
    ensures before { IfOk result (λ before. before ≡ role_of standings.old.roles who) }
    ensures ok { OnOk result (standings.new.roles ≡ nominated standings.old.roles who targets.now) }
    ensures err { OnErr result (standings.new.roles ≡ standings.old.roles) }
    ensures ranked { AreRankedAt standings.new validators.new.items }
{
    let before = standings.put_nominator(who, targets, marks)?;
    leave_where(standings, validators, who, before.validates());
    Ok(before)
}

/// The marks of these targets, where the account may nominate them. Each is found once.
fn check_targets(
    standings: &Standings,
    who: AccountId,
    targets: &[AccountId],
) -> Result<Marks, ListRefusal>
    ensures ok { IfOk result (λ marks. AreMarks standings.now.accounts marks targets.now) }
    ensures none { OnOk result (nominate_refusal standings.now.roles who targets.now ≡ None) }
    ensures due { IfErr result
        (IsDue NoMemoryRefusal (nominate_refusal standings.now.roles who targets.now)) }
{
    if targets.is_empty() {
        return Err(ListRefusal::NoTargets);
    }
    if targets.len() > MOST_NOMINATIONS {
        return Err(ListRefusal::TooManyTargets);
    }
    let marks = standings.marks_of(targets)?;
    if repeats(marks.as_slice(), targets) {
        return Err(ListRefusal::RepeatedTarget);
    }
    if misses(standings, who, marks.as_slice(), targets) {
        return Err(ListRefusal::NotValidator);
    }
    Ok(marks)
}

/// Whether a target is no validator, or is the nominator itself.
fn misses(standings: &Standings, who: AccountId, marks: &[u32], targets: &[AccountId]) -> bool
    requires { AreMarks standings.now.accounts marks.now targets.now }
    ensures { result ≡ list_any (λ target. is_no_target standings.now.roles who target) targets.now }
{
    for i in 0..targets.len() {
        if !standings.is_validator_at(marks[i], targets[i]) || targets[i] == who {
            return true;
        }
    }
    false
}

/// Whether some target stands twice, which their marks tell where all are known.
fn repeats(marks: &[u32], targets: &[AccountId]) -> bool
    requires { RepeatAlike marks.now targets.now }
    ensures { result ≡ has_repeated_account targets.now }
{
    if !doubts(marks) {
        return false;
    }
    if marks.contains(&UNKNOWN) {
        return repeats_account(targets);
    }
    true
}

/// Whether some account stands twice. The accounts are few.
fn repeats_account(accounts: &[AccountId]) -> bool
    ensures { result ≡ has_repeated_account accounts.now }
{
    let mut rest = accounts;
    while let Some((first, others)) = rest.split_first() {
        if others.contains(first) {
            return true;
        }
        rest = others;
    }
    false
}

/// Whether some mark is not known or stands twice. It goes from the last mark to the first, and
/// mostly the classes of those behind a mark tell that it is none of them, and the classes of all
/// that each is known.
fn doubts(marks: &[u32]) -> bool
    ensures { result ≡ list_any (λ mark. nat_eq mark unknown) marks.now || has_repeated_mark marks.now }
{
    let mut is_met = [false; CLASSES];
    for i in (0..marks.len()).rev() {
        let class = marks[i] as usize % CLASSES;
        if is_met[class] && stands_again(marks, i) {
            return true;
        }
        is_met[class] = true;
    }
    is_met[UNKNOWN as usize % CLASSES] && marks.contains(&UNKNOWN)
}

/// Whether the mark at this place stands behind it again.
fn stands_again(marks: &[u32], i: usize) -> bool
    requires { i < length marks.now }
    ensures { result ≡ list_any (λ other. nat_eq other (slice_index_or marks.now i 0))
        (drop (i + 1) marks.now) }
{
    marks[i + 1..].contains(&marks[i])
}
