//! The committee, with a mark for each member.
ghost use Rattle.std.specs.Prelude.{◌≡◌, ◌<◌, length, All, IfOk};
ghost use Rattle.election_snapshot.specs.Snapshot.{has};

use election_snapshot::Snapshot;
use npos_base::NoMemory;
use std::alloc::Global;
use std::marker::Model;

/// The members of a committee. Contracts see them in the order of the list.
#[derive(Drop)]
pub(crate) struct Committee<'a> {
    members: &'a [u16],
    is_member: Vec<bool>,
}

impl<'a> Model for Committee<'a> {
    ghost use Rattle.std.specs.Prelude.{List, ℕ};
    ghost use Rattle.seat_race.specs.Tables.{AreMarks};

    ghost Value = { List ℕ };

    ghost view = { λ c. c.members.now };

    ghost invariant = { λ c. AreMarks c.is_member.items c.members.now };
}

impl<'a> Committee<'a> {
    /// The committee of these members.
    pub fn new(
        alloc: Global,
        snapshot: &Snapshot,
        members: &'a [u16],
    ) -> Result<Committee<'a>, NoMemory>
        requires { All (λ member. member < length snapshot.now.targets) members.now }
        ensures { IfOk result (λ committee. committee ≡ members.now) }
    {
        let mut is_member = vec![in alloc; false; snapshot.target_count()]?;
        for member in members {
            is_member[usize::from(*member)] = true;
        }
        Ok(Committee { members, is_member })
    }

    /// Whether the target is a member.
    pub fn has(&self, target: u16) -> bool
        ensures { result ≡ has self.now target }
    {
        match self.is_member.get(usize::from(target)) {
            Some(is_member) => *is_member,
            None => false,
        }
    }
}
