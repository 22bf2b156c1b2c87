//! A page: the pieces of as many objects as have their origins one behind another.
ghost use Rattle.std.specs.Prelude.{◌≡◌, ℕ, ◌<◌, ◌==◌, [], length, slice_index_or, if◌then◌else◌, OnOk, OnErr, IfOk};

use cal_base::{Copies, NoMemory, SharedList};
use cal_model::Piece;
use std::alloc::Global;
use std::marker::Model;

/// The pieces of objects, in one slot each. Where there is no slot, there are no pieces.
#[derive(Drop)]
pub(crate) struct Page {
    slots: Vec<SharedList<Piece>>,
}

impl Model for Page {
    ghost use Rattle.std.specs.Prelude.{List};
    ghost use Rattle.cal_model.specs.declared.piece.Piece.{Piece};

    ghost Value = { List (List Piece) };

    ghost view = { λ p. p.slots.items };
}

/// Makes empty slots up to a place and at it. Without memory there may be fewer.
fn fill(slots: &mut Vec<SharedList<Piece>>, at: usize) -> Result<(), NoMemory>
    ensures there { OnOk result (at < length slots.new.items) }
    ensures same { (k : ℕ) → slice_index_or slots.new.items k [] ≡ slice_index_or slots.old.items k [] }
{
    while slots.len() <= at {
        if slots.push(SharedList::new()).is_err() {
            return Err(NoMemory);
        }
    }
    Ok(())
}

/// Each slot again, with its pieces shared.
fn copy_slots(
    alloc: Global,
    slots: &[SharedList<Piece>],
) -> Result<Vec<SharedList<Piece>>, NoMemory>
    ensures { IfOk result (λ copies. copies.items ≡ slots.now) }
{
    let mut copies = Vec::new(alloc);
    if copies.reserve(slots.len()).is_err() {
        return Err(NoMemory);
    }
    'slots: for slot in slots {
        if copies.push(SharedList::try_clone(slot)?).is_err() {
            return Err(NoMemory);
        }
    }
    Ok(copies)
}

impl Page {
    /// A page without a slot. It takes no memory yet.
    pub(crate) fn new(alloc: Global) -> Page
        ensures { result ≡ [] }
    {
        Page {
            slots: Vec::new(alloc),
        }
    }

    /// The pieces in a slot.
    pub(crate) fn get(&self, at: usize) -> &[Piece]
        ensures { result.now ≡ slice_index_or self.now at [] }
    {
        match self.slots.get(at) {
            Some(slot) => slot.as_slice(),
            None => &[],
        }
    }

    /// Writes the pieces of a slot anew.
    pub(crate) fn set(&mut self, at: usize, pieces: SharedList<Piece>) -> Result<(), NoMemory>
        ensures ok { OnOk result ((k : ℕ) → slice_index_or self.new k [] ≡ (if k == at then pieces else slice_index_or self.old k [])) }
        ensures err { OnErr result ((k : ℕ) → slice_index_or self.new k [] ≡ slice_index_or self.old k []) }
    {
        fill(&mut self.slots, at)?;
        self.slots[at] = pieces;
        Ok(())
    }
}

impl Copies for Page {
    fn copied(&self, alloc: Global) -> Result<Page, NoMemory> {
        let slots = copy_slots(alloc, &self.slots)?;
        Ok(Page { slots })
    }
}
