//! What is wrong with a role.
ghost use Rattle.std.specs.Prelude.{◌≡◌, length, map, IfOk};
ghost use Rattle.state_rules.specs.Lists.{bad_place, has_bad};
ghost use Rattle.state_rules.specs.Accounts.{stands_in};
ghost use Rattle.state_rules.specs.Known.{AreByAccount};
ghost use Rattle.state_rules.specs.Roles.{is_scoreless, is_validator, validators_in, are_bad_targets, is_bad_kind, is_bad_bag, is_bad_role};

use crate::known::is_bonded;
use crate::seen::Seen;
use crate::{RoleKind, RoleRow};
use npos_base::{AccountId, MOST_NOMINATIONS, MOST_VALIDATORS, NoMemory, WHOLE_FRACTION};
use stake_ledger::BookRow;
use std::alloc::Global;

/// The place of the first role that is wrong. It takes about as long as sorting the roles does.
pub(crate) fn bad_role(
    alloc: Global,
    thresholds: &[u64],
    rows: &[BookRow],
    roles: &[RoleRow],
) -> Result<Option<usize>, NoMemory>
    requires { AreByAccount rows.now }
    ensures { IfOk result (λ place. place
        ≡ bad_place (is_bad_role thresholds.now rows.now) roles.now) }
{
    let mut seen = Seen::new(alloc);
    let mut validators = 0;
    for (place, role) in roles.iter().enumerate() {
        let twice = seen.note(role.who)?;
        let before = &roles[..place];
        if !is_bonded(rows, role.who)
            || twice
            || is_bad_bag(thresholds, before, role)
            || is_bad_kind(role.who, validators, &role.role)
        {
            return Ok(Some(place));
        }
        validators += usize::from(is_validator(&role.role));
    }
    Ok(None)
}

/// Whether the role is a validator's.
fn is_validator(role: &RoleKind) -> bool
    ensures { result ≡ is_validator role.now }
{
    matches!(role, RoleKind::Validator { .. })
}

/// Whether no score is in the bag.
fn is_scoreless(thresholds: &[u64], bag: u32) -> bool
    ensures { result ≡ is_scoreless thresholds.now bag }
{
    bag as usize == thresholds.len() && thresholds.last() == Some(&u64::MAX)
}

/// Whether there is no such bag, or it is above the bag of the last role.
fn is_bad_bag(thresholds: &[u64], before: &[RoleRow], role: &RoleRow) -> bool
    ensures { result ≡ is_bad_bag thresholds.now before.now role.now }
{
    if thresholds.len() < role.bag as usize || is_scoreless(thresholds, role.bag) {
        return true;
    }
    match before.last() {
        None => false,
        Some(last) => role.bag > last.bag,
    }
}

/// Whether some account stands twice.
fn repeats(targets: &[AccountId]) -> bool
    ensures { result ≡ has_bad stands_in targets.now }
{
    for (place, target) in targets.iter().enumerate() {
        if targets[..place].contains(target) {
            return true;
        }
    }
    false
}

/// Whether the accounts are none, too many, not different, or the nominator's own among them. The
/// accounts that are compared with each other are few.
fn are_bad_targets(who: AccountId, targets: &[AccountId]) -> bool
    ensures { result ≡ are_bad_targets who targets.now }
{
    targets.is_empty()
        || targets.len() > MOST_NOMINATIONS
        || repeats(targets)
        || targets.contains(&who)
}

/// Whether the role says what no role of its kind may, where so many validators stand before it.
fn is_bad_kind(who: AccountId, validators: usize, role: &RoleKind) -> bool
    ensures { result ≡ is_bad_kind who validators role.now }
{
    match role {
        RoleKind::Nominator { targets } => are_bad_targets(who, targets.as_slice()),
        RoleKind::Validator { commission } => {
            *commission > WHOLE_FRACTION || validators >= MOST_VALIDATORS
        }
    }
}
