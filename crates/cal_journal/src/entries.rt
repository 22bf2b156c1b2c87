//! Entries and their list.
ghost use Rattle.std.specs.Prelude.{◌≡◌, ◌-◌, ◌<◌, ◌≤◌, [], ◌∷◌, ◌++◌, length, slice_get, OnOk, OnErr, IsOk};
ghost use Rattle.std.specs.Option.{option_copied};

use cal_base::{NoMemory, ReservedList};
use cal_model::Change;
use std::alloc::Global;
use std::marker::Model;

/// A change that was accepted.
#[derive(Drop)]
pub struct Entry {
    /// The number of the session that asked for it.
    pub session: u64,
    /// The number of the user who asked for it.
    pub who: u32,
    /// When it was asked for, in seconds since 1970.
    pub moment: i64,
    pub change: Change,
    /// The status of the reply.
    pub status: u16,
}

/// The entries in their order, and the room that there is for more of them. An entry's number counts
/// from 0.
#[derive(Drop)]
pub struct Journal {
    entries: ReservedList<Entry>,
}

impl Model for Journal {
    ghost use Rattle.cal_base.specs.Lists.Reserved.{Reserved};
    ghost use Rattle.cal_journal.specs.declared.entries.Entry.{Entry};
    ghost use Rattle.cal_journal.specs.contracts.entries.Entry as entry;
    ghost use Rattle.std.specs.Coded.{codes};

    ghost Value = { Reserved Entry };

    ghost coded = { Prim.hlevel (codes, entry.the_row.coded) };

    ghost view = { λ j. j.entries };
}

impl Journal {
    /// No entries, and room for none. Takes no memory yet.
    pub fn new(alloc: Global) -> Journal
        ensures { result ≡ record { items = []; room = 0 } }
    {
        Journal {
            entries: ReservedList::new(alloc),
        }
    }

    /// How many entries there are.
    pub fn len(&self) -> u64
        ensures { result ≡ length self.now.items }
    {
        self.entries.len() as u64
    }

    /// The entry of a number, if there is one. Takes no memory.
    pub fn at(&self, number: u64) -> Option<&Entry>
        ensures { option_copied result ≡ slice_get self.now.items number }
    {
        self.entries.as_slice().get(number as usize)
    }

    /// The entries in order.
    pub(crate) fn entries(&self) -> &[Entry]
        ensures { result.now ≡ self.now.items }
    {
        self.entries.as_slice()
    }

    /// For how many entries there is room.
    pub fn spare(&self) -> u64
        ensures { result ≡ self.now.room }
    {
        self.entries.room() as u64
    }

    /// Makes room for one entry more. Where there is room already it cannot fail; without memory all
    /// stays as it was.
    pub fn reserve(&mut self) -> Result<(), NoMemory>
        ensures entries { self.new.items ≡ self.old.items }
        ensures room { OnOk result (1 ≤ self.new.room) }
        ensures grows { self.old.room ≤ self.new.room }
        ensures succeeds { 1 ≤ self.old.room → IsOk result }
        ensures err { OnErr result (self.new ≡ self.old) }
    {
        self.entries.reserve(1)
    }

    /// Puts an entry behind the others, where there is room for it. Takes no memory.
    pub fn push(&mut self, entry: Entry)
        requires { 1 ≤ self.old.room }
        ensures { self.new ≡ record { items = self.old.items ++ entry ∷ []; room = self.old.room - 1 } }
    {
        self.entries.push(entry);
    }
}
