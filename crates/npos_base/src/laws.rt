//! What holds of accounts and scores. Each law is the contract of a function that does nothing: it
//! reads its numbers once, since the range of one behind a reference is known where it is read.
ghost use Rattle.std.specs.Prelude.{◌≡◌, ◌↔◌, IsTrue, true, false};
ghost use Rattle.std.specs.Ordering.{nat_cmp, is_eq};
ghost use Rattle.std.specs.Cmp.Lexicographic.{slice_cmp};
ghost use Rattle.npos_base.specs.Account.{account_bytes, account_of, account_cmp, same_account};
ghost use Rattle.npos_base.specs.Limits.{AreTheLimits};
ghost use Rattle.npos_base.specs.Score.{is_better};

use crate::{AccountId, Score};

/// Reading an account from bytes and writing it gives the bytes back.
pub fn an_account_keeps_its_bytes(bytes: &[u8; 32])
    ensures { account_bytes (account_of bytes.now) ≡ bytes.now }
{
    let _ = AccountId::from_bytes(bytes);
}

/// Writing an account and reading its bytes gives the account back.
pub fn bytes_keep_their_account(account: &AccountId)
    ensures { account_of (account_bytes account.now) ≡ account.now }
{
    let _hi = account.hi;
    let _lo = account.lo;
}

/// The order of accounts is the order of their bytes.
pub fn accounts_stand_in_the_order_of_their_bytes(a: &AccountId, b: &AccountId)
    ensures bytes { slice_cmp nat_cmp (account_bytes a.now) (account_bytes b.now)
        ≡ account_cmp a.now b.now }
    ensures derived { ⟦<AccountId as Ord>⟧.cmp a.now b.now ≡ account_cmp a.now b.now }
{
    let _a_hi = a.hi;
    let _a_lo = a.lo;
    let _b_hi = b.hi;
    let _b_lo = b.lo;
}

/// The one equality of accounts tells exactly which are one. It agrees with their order and with
/// `==`.
pub fn equality_tells_accounts_apart(a: &AccountId, b: &AccountId)
    ensures decides { IsTrue (same_account a.now b.now) ↔ (a.now ≡ b.now) }
    ensures ordered { same_account a.now b.now ≡ is_eq (account_cmp a.now b.now) }
    ensures derived { ⟦<AccountId as PartialEq>⟧.eq a.now b.now ≡ same_account a.now b.now }
{
    let _a_hi = a.hi;
    let _a_lo = a.lo;
    let _b_hi = b.hi;
    let _b_lo = b.lo;
}

/// No score is better than itself.
pub fn no_score_is_better_than_itself(score: &Score)
    ensures { is_better score.now score.now ≡ false }
{
    let _score = *score;
}

/// What is better than a better score is better.
pub fn better_than_a_better_score_is_better(best: &Score, middle: &Score, last: &Score)
    ensures { is_better best.now middle.now ≡ true → is_better middle.now last.now ≡ true
        → is_better best.now last.now ≡ true }
{
    let _best = *best;
    let _middle = *middle;
    let _last = *last;
}

/// Scores of which neither is better are one score.
pub fn scores_that_tie_are_equal(a: &Score, b: &Score)
    ensures { is_better a.now b.now ≡ false → is_better b.now a.now ≡ false → a.now ≡ b.now }
{
    let _a = *a;
    let _b = *b;
}

/// The limits that the code names are these numbers.
pub fn the_limits_are_these()
    ensures { AreTheLimits }
{}
