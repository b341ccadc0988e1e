//! The accounts with a role as rows, in the order in which they are polled.
ghost use Rattle.std.specs.Prelude.{◌≡◌, true, map, IfOk};
ghost use Rattle.voter_lists.specs.Bags.{is_listed, number_of, number_at};
ghost use Rattle.voter_lists.specs.Roles.{standing_of};
ghost use Rattle.npos_runtime.specs.Kept.State.{kind_in, role_row};

use npos_base::{AccountId, List, NoMemory};
use state_rules::{RoleKind, RoleRow};
use std::alloc::Global;
use voter_lists::{Bags, Role, Roles};

/// What an account does in elections. It may be found by the guess, as `role_from` says.
fn kind_of(
    alloc: Global,
    roles: &Roles,
    guess: &mut usize,
    who: AccountId,
) -> Result<RoleKind, NoMemory>
    ensures { IfOk result (λ kind. kind ≡ kind_in (standing_of roles.now who)) }
{
    match roles.role_from(guess, who) {
        (Role::Nobody, _) => Ok(RoleKind::Nominator {
            targets: List::new(alloc),
        }),
        (Role::Nominator, targets) => {
            let targets = targets.to_list(alloc)?;
            Ok(RoleKind::Nominator { targets })
        }
        (Role::Validator { commission }, _) => Ok(RoleKind::Validator { commission }),
    }
}

/// The row of an account that stands in the bags.
fn role_row(
    alloc: Global,
    roles: &Roles,
    bags: &Bags,
    guess: &mut usize,
    who: AccountId,
) -> Result<RoleRow, NoMemory>
    requires { is_listed bags.now.order who ≡ true }
    ensures { IfOk result (λ row. row
        ≡ role_row roles.now (who, number_at (number_of bags.now.order who))) }
{
    let role = kind_of(alloc, roles, guess, who)?;
    let bag = bags.bag(who);
    Ok(RoleRow { who, bag, role })
}

/// The accounts with a role, the highest bag first.
pub fn role_rows(alloc: Global, roles: &Roles, bags: &Bags) -> Result<List<RoleRow>, NoMemory>
    ensures { IfOk result (λ rows. rows ≡ map (role_row roles.now) bags.now.order) }
{
    let mut rows = List::new(alloc);
    let mut guess = 0;
    for who in bags.walk() {
        let row = role_row(alloc, roles, bags, &mut guess, who)?;
        rows.put(row)?;
    }
    Ok(rows)
}
