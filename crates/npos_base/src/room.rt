//! A list whose room is made beforehand, so that its growth cannot be refused.
ghost use Rattle.std.specs.Prelude.{◌≡◌, ◌↔◌, ◌+◌, ◌≤◌, ◌<◌, [], ◌∷◌, ◌++◌, length, IsTrue, OnOk, OnErr, IfOk, IsSorted, IsPermutation};

use crate::{List, NoMemory};
use std::alloc::Global;
use std::marker::Model;

/// A list with room made beforehand. Contracts see it as its items and its spare: how many more
/// items it takes.
#[derive(Debug, Drop)]
pub struct Room<T> {
    items: Vec<T>,
}

impl<T> Model for Room<T> {
    ghost use Rattle.std.specs.Prelude.{◌-◌};
    ghost use Rattle.std.specs.Vec.{vec_len, vec_capacity};
    ghost use Rattle.npos_base.specs.Room.{RoomOf};

    ghost Value = { RoomOf T };

    ghost view = { λ r. record {
      items = r.items.items;
      spare = vec_capacity r.items - vec_len r.items;
    } };
}

impl<T> Room<T> {
    /// No item, and room for at least `n`.
    pub fn with_room(alloc: Global, n: usize) -> Result<Room<T>, NoMemory>
        ensures items { IfOk result (λ room. room.items ≡ []) }
        ensures spare { IfOk result (λ room. n ≤ room.spare) }
    {
        let items = Vec::with_capacity(alloc, n)?;
        Ok(Room { items })
    }

    /// Makes room for at least `n` more items. The spare never falls.
    pub fn reserve(&mut self, n: usize) -> Result<(), NoMemory>
        ensures items { self.new.items ≡ self.old.items }
        ensures spare { OnOk result (n ≤ self.new.spare) }
        ensures no_less { self.old.spare ≤ self.new.spare }
    {
        self.items.reserve(n)?;
        Ok(())
    }

    /// Appends the item. It cannot fail, since there is room.
    pub fn push_within(&mut self, item: T)
        requires { 0 < self.old.spare }
        ensures items { self.new.items ≡ self.old.items ++ item ∷ [] }
        ensures spare { self.old.spare ≤ self.new.spare + 1 }
    {
        match self.items.push(item) {
            Ok(()) => {}
            Err(_) => unreachable!(),
        }
    }

    /// Leaves no item. The room of the old items is then spare.
    pub fn clear(&mut self)
    where
        T: Drop,
        ensures items { self.new.items ≡ [] }
        ensures spare { length self.old.items + self.old.spare ≤ self.new.spare }
    {
        self.items.clear();
    }

    /// Puts the items in rising order. It takes no memory.
    pub fn sort_unstable(&mut self)
    where
        T: Ord,
        ensures sorted { IsSorted T.cmp self.new.items }
        ensures same { IsPermutation self.old.items self.new.items }
        ensures count { length self.new.items ≡ length self.old.items }
        ensures spare { self.new.spare ≡ self.old.spare }
    {
        self.items.sort_unstable();
    }

    /// The items, in order.
    pub fn as_slice(&self) -> &[T]
        ensures { result.now ≡ self.now.items }
    {
        self.items.as_slice()
    }

    /// How many items there are.
    pub fn len(&self) -> usize
        ensures { result ≡ length self.now.items }
    {
        self.items.len()
    }

    /// Whether there is no item.
    pub fn is_empty(&self) -> bool
        ensures { IsTrue result ↔ (self.now.items ≡ []) }
    {
        self.items.is_empty()
    }

    /// The same items as a list. It takes no memory.
    pub fn into_list(self) -> List<T>
        ensures { result ≡ self.items }
    {
        let Room { items } = self;
        List::from_vec(items)
    }
}
