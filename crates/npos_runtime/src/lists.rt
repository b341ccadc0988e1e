//! Who has a role, and when a role ends.
ghost use Rattle.std.specs.Prelude.{◌≡◌};
ghost use Rattle.stake_ledger.specs.Rows.{is_bonded};
ghost use Rattle.stake_ledger.specs.Ledger.{row_at};
ghost use Rattle.npos_runtime.specs.Live.{IsJoined};
ghost use Rattle.npos_runtime.specs.Rules.Lists.{has_role, is_role, retired};

use crate::Chain;
use npos_base::AccountId;
use voter_lists::Role;

/// Whether the account has a role.
#[tactic(auto, using(crate::proofs::Rules::ListLemmas::role_tells))]
pub fn has_role(chain: &Chain, who: AccountId) -> bool
    ensures { result ≡ has_role chain.now.roles who }
{
    is_role(chain.roles.role(who))
}

/// Whether this is a role.
pub fn is_role(role: Role) -> bool
    ensures { result ≡ is_role role }
{
    match role {
        Role::Nobody => false,
        Role::Nominator | Role::Validator { .. } => true,
    }
}

/// A role ends where nothing is bonded behind it any more.
pub fn retire(chain: &mut Chain, who: AccountId)
    requires { IsJoined chain.old.roles chain.old.bags }
    ensures { chain.new ≡ retired who chain.old }
{
    let bonded = chain.book.bonded(who);
    retire_unless(chain, who, bonded);
}

/// Does what `retire` does, where it is known whether anything is bonded.
pub fn retire_unless(chain: &mut Chain, who: AccountId, bonded: bool)
    requires joined { IsJoined chain.old.roles chain.old.bags }
    requires known { bonded ≡ is_bonded (row_at chain.old.book who) }
    ensures { chain.new ≡ retired who chain.old }
{
    if !bonded && has_role(chain, who) {
        let _ = chain.roles.chill(who);
        chain.bags.remove(who);
    }
}
