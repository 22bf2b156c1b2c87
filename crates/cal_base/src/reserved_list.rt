//! A list whose reserved room contracts see.
ghost use Rattle.std.specs.Prelude.{◌≡◌, ◌-◌, ◌<◌, ◌≤◌, [], ◌∷◌, ◌++◌, length, OnOk, OnErr, IsOk};

use crate::list::List;
use crate::no_memory::NoMemory;
use std::alloc::Global;
use std::marker::Model;

/// A list and the room that it has for more items without looking for memory again.
///
/// It stands beside `List`, since two lists of equal items are equal whatever their room: where
/// contracts see the room of a list, it is no longer just the list of its items.
#[derive(Drop)]
pub struct ReservedList<T> {
    items: Vec<T>,
}

impl<T> Model for ReservedList<T> {
    ghost use Rattle.std.specs.Prelude.{◌-◌, vec_len, vec_capacity};
    ghost use Rattle.cal_base.specs.Lists.Reserved.{Reserved};

    ghost Value = { Reserved T };

    ghost view = { λ r. record { items = r.items.items; room = vec_capacity r.items - vec_len r.items } };
}

impl<T> ReservedList<T> {
    /// An empty list without room. It takes no memory yet.
    pub fn new(alloc: Global) -> ReservedList<T>
        ensures { result ≡ record { items = []; room = 0 } }
    {
        ReservedList {
            items: Vec::new(alloc),
        }
    }

    /// For how many more items there is room.
    pub fn room(&self) -> usize
        ensures { result ≡ self.now.room }
    {
        self.items.capacity() - self.items.len()
    }

    /// How many items there are.
    pub fn len(&self) -> usize
        ensures { result ≡ length self.now.items }
    {
        self.items.len()
    }

    /// The items.
    pub fn as_slice(&self) -> &[T]
        ensures { result.now ≡ self.now.items }
    {
        self.items.as_slice()
    }

    /// Makes room for so many more items. Where there is that room already it cannot fail; without
    /// memory all stays as it was.
    pub fn reserve(&mut self, additional: usize) -> Result<(), NoMemory>
        ensures items { self.new.items ≡ self.old.items }
        ensures room { OnOk result (additional ≤ self.new.room) }
        ensures grows { self.old.room ≤ self.new.room }
        ensures succeeds { additional ≤ self.old.room → IsOk result }
        ensures err { OnErr result (self.new ≡ self.old) }
    {
        if self.items.reserve(additional).is_err() {
            return Err(NoMemory);
        }
        Ok(())
    }

    /// Puts an item at the end, where there is room. Takes no memory.
    pub fn push(&mut self, value: T)
        requires { 0 < self.old.room }
        ensures { self.new ≡ record { items = self.old.items ++ value ∷ []; room = self.old.room - 1 } }
    {
        self.items.push_reserved(value);
    }

    /// The list of the items.
    pub fn into_list(self) -> List<T>
        ensures { result ≡ self.items }
    {
        let ReservedList { items } = self;
        List::from_vec(items)
    }
}

impl<T: Copy> ReservedList<T> {
    /// Puts a copy of each item of a slice at the end, where there is room. Takes no memory.
    pub fn extend_from_slice(&mut self, other: &[T])
        requires { length other.now ≤ self.old.room }
        ensures items { self.new.items ≡ self.old.items ++ other.now }
        ensures room { self.old.room - length other.now ≤ self.new.room }
    {
        let _ = self.items.extend_from_slice(other);
    }
}
