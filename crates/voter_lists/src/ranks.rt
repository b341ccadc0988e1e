//! The validators by the places of their accounts, each once and by rising account, so that the one
//! at a rank is at hand. A place takes 8 bytes where an account takes 32, so fewer bytes move when a
//! validator comes or goes.
ghost use Rattle.std.specs.Prelude.{◌≡◌, ◌<◌, ◌≤◌, false, length, vec_len, Some, IfOk, IfErr, slice_get};
ghost use Rattle.std.specs.Vec.{vec_capacity};
ghost use Rattle.std.specs.BTreeMap.{is_at};
ghost use Rattle.std.specs.BTreeSet.{insert_key};
ghost use Rattle.std.specs.Set.{remove_key};
ghost use Rattle.std.specs.List.{insert};
ghost use Rattle.std.specs.List.Sorted.{IsSearchInRange};
ghost use Rattle.npos_base.specs.Account.{account_cmp};
ghost use Rattle.npos_base.specs.declared.limits.TheConstants.{MOST_VALIDATORS};
ghost use Rattle.voter_lists.specs.Noted.{AreWithin, accounts_at};
ghost use Rattle.voter_lists.specs.RankedAt.{BelongsAt, RiseAt};
ghost use Rattle.voter_lists.specs.Votes.{rank_of};

use crate::standings::Standings;
use npos_base::AccountId;
use std::cmp::Ordering;

/// The rank of the account, or else the one that it would have. It is found in the logarithm of the
/// number of validators. It is written out here, since the search of the standard library asks for
/// a function of any number, and only some numbers are places of accounts.
fn search(standings: &Standings, validators: &[usize], who: AccountId) -> Result<usize, usize>
    requires { RiseAt standings.now.accounts validators.now }
    ensures range { IsSearchInRange result (length validators.now) }
    ensures found { IfOk result (λ rank.
        slice_get (accounts_at standings.now.accounts validators.now) rank ≡ Some who) }
    ensures missed { IfErr result (λ rank.
        BelongsAt who (accounts_at standings.now.accounts validators.now) rank) }
{
    let mut low = 0;
    let mut high = validators.len();
    while low < high {
        let middle = low + (high - low) / 2;
        match standings.account(validators[middle]).cmp(&who) {
            Ordering::Less => low = middle + 1,
            Ordering::Equal => return Ok(middle),
            Ordering::Greater => high = middle,
        }
    }
    Err(low)
}

/// Puts the place of the account at its rank, where it is not there already.
fn enter(standings: &Standings, validators: &mut Vec<usize>, who: AccountId, place: usize)
    requires there { slice_get standings.now.accounts place ≡ Some who }
    requires rising { RiseAt standings.now.accounts validators.old.items }
    requires room { vec_len validators.old < vec_capacity validators.old }
    ensures within { AreWithin standings.now.accounts validators.new.items }
    ensures entered { accounts_at standings.now.accounts validators.new.items
        ≡ insert_key account_cmp (accounts_at standings.now.accounts validators.old.items) who }
{
    match search(standings, validators.as_slice(), who) {
        Ok(_) => {}
        Err(rank) => put_at(validators, rank, place),
    }
}

/// Puts the place of the account at its rank, where it is known to be missing or not. Who is there
/// need not be searched for.
pub(crate) fn enter_where(
    standings: &Standings,
    validators: &mut Vec<usize>,
    who: AccountId,
    place: usize,
    missing: bool,
)
    requires there { slice_get standings.now.accounts place ≡ Some who }
    requires rising { RiseAt standings.now.accounts validators.old.items }
    requires room { vec_len validators.old < vec_capacity validators.old }
    requires known { missing ≡ false → insert_key account_cmp
        (accounts_at standings.now.accounts validators.old.items) who
        ≡ accounts_at standings.now.accounts validators.old.items }
    ensures within { AreWithin standings.now.accounts validators.new.items }
    ensures entered { accounts_at standings.now.accounts validators.new.items
        ≡ insert_key account_cmp (accounts_at standings.now.accounts validators.old.items) who }
{
    if missing {
        enter(standings, validators, who, place);
    }
}

/// Puts the place at the rank. There is room, and it is asked for all the same: where the compiler
/// sees it, `insert` moves the places behind the rank by one `memmove`, and else one by one, for
/// more than twice as many instructions.
fn put_at(validators: &mut Vec<usize>, rank: usize, place: usize)
    requires within { rank ≤ vec_len validators.old }
    requires room { vec_len validators.old < vec_capacity validators.old }
    ensures { validators.new.items ≡ insert validators.old.items rank place }
{
    if validators.len() < validators.capacity() {
        match validators.insert(rank, place) {
            Ok(()) => {}
            Err(_) => unreachable!(),
        }
    }
}

/// Takes the place of the account out, where it is there.
fn leave(standings: &Standings, validators: &mut Vec<usize>, who: AccountId)
    requires { RiseAt standings.now.accounts validators.old.items }
    ensures within { AreWithin standings.now.accounts validators.new.items }
    ensures left { accounts_at standings.now.accounts validators.new.items
        ≡ remove_key (is_at (account_cmp who))
        (accounts_at standings.now.accounts validators.old.items) }
{
    match search(standings, validators.as_slice(), who) {
        Ok(rank) => {
            let _ = validators.remove(rank);
        }
        Err(_) => {}
    }
}

/// Takes the place of the account out, where it is known to be there or not. Who is not there need
/// not be searched for.
pub(crate) fn leave_where(
    standings: &Standings,
    validators: &mut Vec<usize>,
    who: AccountId,
    there: bool,
)
    requires rising { RiseAt standings.now.accounts validators.old.items }
    requires known { there ≡ false → remove_key (is_at (account_cmp who))
        (accounts_at standings.now.accounts validators.old.items)
        ≡ accounts_at standings.now.accounts validators.old.items }
    ensures within { AreWithin standings.now.accounts validators.new.items }
    ensures left { accounts_at standings.now.accounts validators.new.items
        ≡ remove_key (is_at (account_cmp who))
        (accounts_at standings.now.accounts validators.old.items) }
{
    if there {
        leave(standings, validators, who);
    }
}

/// The rank of the account among the validators, where it is one of them.
pub(crate) fn rank_among(standings: &Standings, validators: &[usize], who: AccountId) -> Option<u16>
    requires rising { RiseAt standings.now.accounts validators.now }
    requires few { length validators.now ≤ MOST_VALIDATORS }
    ensures { result ≡ rank_of (accounts_at standings.now.accounts validators.now) who }
{
    match search(standings, validators, who) {
        Ok(rank) => Some(rank as u16),
        Err(_) => None,
    }
}
