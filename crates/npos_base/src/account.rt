//! Accounts, as Substrate numbers them: 32 bytes, kept as two big-endian halves.
ghost use Rattle.std.specs.Prelude.{◌≡◌, take, drop};
ghost use Rattle.std.specs.Int.{w128, from_be_bytes, to_be_bytes};
ghost use Rattle.std.proofs.Common.{rules};
ghost use Rattle.std.specs.Cmp.{partial_order_from_own_ties};
ghost use Rattle.std.specs.Cmp.Rules.{comparing};
ghost use Rattle.std.specs.Ordering.{nat_cmp, on, then_cmp, as_partial_cmp};
ghost use Rattle.npos_base.specs.Account.{account_bytes, account_of};

use std::cmp::Ordering;

/// An account: an identity of 32 bytes. `hi` is the first 16 bytes read big-endian, `lo` the last
/// 16, so the order of accounts is the order of their bytes.
#[derive(Clone, Copy, Debug, PartialEq, Eq, Hash)]
pub struct AccountId {
    pub hi: u128,
    pub lo: u128,
}

impl Ord for AccountId {
    ghost cmp = { then_cmp (on (λ account. account.hi) nat_cmp)
        (on (λ account. account.lo) nat_cmp) };

    ghost total = { Prim.search (comparing, rules) };

    ghost matches_partial_cmp = { Prim.search (comparing, rules) };

    ghost matches_eq = { Prim.search (comparing, rules) };

    /// The order of the bytes. `Greater` is asked first, since a search in a map of accounts asks
    /// it at each key.
    fn cmp(&self, other: &AccountId) -> Ordering {
        if self.hi > other.hi {
            Ordering::Greater
        } else if self.hi < other.hi {
            Ordering::Less
        } else {
            self.lo.cmp(&other.lo)
        }
    }
}

impl PartialOrd for AccountId {
    ghost partial_cmp = { as_partial_cmp
        (then_cmp (on (λ account. account.hi) nat_cmp) (on (λ account. account.lo) nat_cmp)) };

    ghost laws = { partial_order_from_own_ties (Prim.search (comparing, rules))
        (Prim.search (comparing, rules)) };

    fn partial_cmp(&self, other: &AccountId) -> Option<Ordering> {
        Some(self.cmp(other))
    }
}

impl AccountId {
    /// The account with these bytes.
    pub fn from_bytes(bytes: &[u8; 32]) -> AccountId
        ensures { result ≡ account_of bytes.now }
    {
        let mut hi = [0; 16];
        let mut lo = [0; 16];
        hi.copy_from_slice(&bytes[..16]);
        lo.copy_from_slice(&bytes[16..]);
        AccountId {
            hi: u128::from_be_bytes(hi),
            lo: u128::from_be_bytes(lo),
        }
    }

    /// The account's bytes.
    pub fn to_bytes(&self) -> [u8; 32]
        ensures { result ≡ account_bytes self.now }
    {
        let mut bytes = [0; 32];
        bytes[..16].copy_from_slice(&self.hi.to_be_bytes());
        bytes[16..].copy_from_slice(&self.lo.to_be_bytes());
        bytes
    }
}
