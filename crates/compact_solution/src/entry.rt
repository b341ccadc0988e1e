//! Entries: a voter, its targets and their shares.
ghost use Rattle.std.specs.Prelude.{◌≡◌, ◌+◌, ◌<◌, ◌≤◌, length, slice_index};
ghost use Rattle.compact_solution.specs.Solution.{groups_in, targets_of, parts_of};

use npos_base::List;
use std::marker::Model;

/// How many groups a plain solution has: its entries name up to 16 targets.
pub const PLAIN_GROUPS: usize = 16;

/// How many groups a wide solution has: its entries name up to 24 targets. This is a number of the
/// form of solutions; a chain lets a voter nominate no more than that.
pub const WIDE_GROUPS: usize = 24;

/// The byte that stands before a wide solution. No length of a plain group begins with it.
pub(crate) const WIDE_MARK: u8 = 0xff;

/// The whole of a voter's stake, of which the shares of a solution are parts.
pub const WHOLE_STAKE: u64 = 65_535;

/// A target with its share of the voter's stake, in parts of 65,535.
#[derive(Clone, Copy, Debug, PartialEq, Eq)]
pub struct Share {
    pub target: u16,
    pub parts: u16,
}

/// What one voter gives: some targets with their shares, and a last target that gets the rest of
/// its stake. Contracts see the voter, the list of shares and the last target. An entry of one
/// target takes no memory of its own.
#[derive(Drop)]
pub struct Entry {
    voter: u32,
    last: u16,
    shares: List<Share>,
}

impl Model for Entry {
    ghost use Rattle.std.specs.Prelude.{◌<◌, length};
    ghost use Rattle.compact_solution.specs.declared.entry.TheConstants.{WIDE_GROUPS};
    ghost use Rattle.compact_solution.specs.Solution.{Entry};

    ghost Value = { Entry };

    ghost view = { λ e. record { voter = e.voter; shares = e.shares; last = e.last } };

    ghost invariant = { λ e. length e.shares < WIDE_GROUPS };
}

impl Entry {
    pub(crate) fn new(voter: u32, shares: List<Share>, last: u16) -> Entry
        requires { length shares < WIDE_GROUPS }
        ensures { result ≡ record { voter = voter; shares = shares; last = last } }
    {
        Entry {
            voter,
            last,
            shares,
        }
    }

    /// The position of the voter in the snapshot that the solution is for.
    pub fn voter(&self) -> u32
        ensures { result ≡ self.now.voter }
    {
        self.voter
    }

    /// How many targets the entry names: at least one, and at most as many as a wide solution has
    /// groups.
    pub fn len(&self) -> usize
        ensures count { result ≡ length (targets_of self.now) }
        ensures most { result ≤ WIDE_GROUPS }
    {
        self.shares().len() + 1
    }

    /// The position of one of the targets.
    pub fn target(&self, i: usize) -> u16
        requires { i < length (targets_of self.now) }
        ensures { result ≡ slice_index (targets_of self.now) i }
    {
        match self.shares().get(i) {
            Some(share) => share.target,
            None => self.last,
        }
    }

    /// The share of one of the targets but the last, in parts of 65,535.
    pub fn share(&self, i: usize) -> u16
        requires { i + 1 < length (targets_of self.now) }
        ensures { result ≡ slice_index (parts_of self.now) i }
    {
        self.shares()[i].parts
    }

    /// All targets but the last, with their shares.
    pub fn shares(&self) -> &[Share]
        ensures shares { result.now ≡ self.now.shares }
        ensures most { length result.now < WIDE_GROUPS }
    {
        self.shares.as_slice()
    }

    /// The last target, which gets what the shares leave of the voter's stake.
    pub fn last(&self) -> u16
        ensures { result ≡ self.now.last }
    {
        self.last
    }
}

/// How many groups a wide or a plain solution has.
pub(crate) fn groups_in(wide: bool) -> usize
    ensures number { result ≡ groups_in wide }
    ensures most { result ≤ WIDE_GROUPS }
{
    if wide { WIDE_GROUPS } else { PLAIN_GROUPS }
}
