//! The shelf: pieces by origin, of which looks are taken.
ghost use Rattle.std.specs.Prelude.{◌≡◌, ℕ, ℤ, ◌==◌, if◌then◌else◌, None, IfOk, OnOk, OnErr};
ghost use Rattle.std.specs.Option.{option_copied};
ghost use Rattle.cal_model.specs.Pieces.PieceLists.{rows_at};
ghost use Rattle.piece_shelf.specs.Shelves.{held_on, slot_of};

use crate::pages::Pages;
use cal_base::{Arc, List, NoMemory, Shared, SharedList};
use cal_model::{Piece, Row};
use std::alloc::Global;
use std::marker::Model;

/// The pieces of objects by origin, which contracts see in their pages and slots. A look at a shelf is
/// a shelf of its own, which shares what it has until one of the two is changed.
#[derive(Drop)]
pub struct Shelf {
    pages: Shared<Pages>,
}

impl Model for Shelf {
    ghost use Rattle.std.specs.Prelude.{List};
    ghost use Rattle.cal_model.specs.declared.piece.Piece.{Piece};

    ghost Value = { List (List (List Piece)) };

    ghost view = { λ s. s.pages };
}

/// The rows of the first of some pieces that is of an object and a window.
fn rows_among(pieces: &[Piece], origin: u64, window: i32) -> Option<&Arc<List<Row>>>
    ensures { option_copied result ≡ rows_at origin window pieces.now }
{
    'pieces: for piece in pieces {
        if piece.origin == origin && piece.window == window {
            return Some(&piece.rows);
        }
    }
    None
}

/// Pieces to be shared; of none it takes no memory.
fn slot_with(alloc: Global, pieces: List<Piece>) -> Result<SharedList<Piece>, NoMemory>
    ensures { IfOk result (λ slot. slot ≡ pieces) }
{
    if pieces.is_empty() {
        return Ok(SharedList::new());
    }
    SharedList::of(alloc, pieces)
}

/// Writes the pieces of an object anew in the pages of a shelf, which are copied where looks share
/// them.
fn set_in(
    alloc: Global,
    pages: &mut Shared<Pages>,
    origin: u64,
    pieces: SharedList<Piece>,
) -> Result<(), NoMemory>
    ensures ok { OnOk result ((o : ℕ) → slot_of pages.new o ≡ (if o == origin then pieces else slot_of pages.old o)) }
    ensures err { OnErr result ((o : ℕ) → slot_of pages.new o ≡ slot_of pages.old o) }
{
    match pages.make_own(alloc) {
        Ok(own) => own.set(alloc, origin, pieces),
        Err(NoMemory) => Err(NoMemory),
    }
}

impl Shelf {
    /// A shelf without a piece.
    pub fn new(alloc: Global) -> Result<Shelf, NoMemory>
        ensures { IfOk result (λ s. (o : ℕ) (w : ℤ) → held_on s o w ≡ None) }
    {
        let pages = Shared::new(alloc, Pages::new(alloc))?;
        Ok(Shelf { pages })
    }

    /// A shelf with the same pieces, in constant time: a change of this one does not show there. Takes
    /// no memory; it fails only where there are 2^63 of them.
    pub fn look(&self) -> Result<Shelf, NoMemory>
        ensures { IfOk result (λ s. s ≡ self.now) }
    {
        let pages = self.pages.look()?;
        Ok(Shelf { pages })
    }

    /// The rows of an object in a window, where there is a piece of them. Takes no memory.
    pub fn get(&self, origin: u64, window: i32) -> Option<&Arc<List<Row>>>
        ensures { option_copied result ≡ held_on self.now origin window }
    {
        rows_among(self.pages.get(origin), origin, window)
    }

    /// Writes the pieces of an object anew. Looks that share them keep what they have; what is copied
    /// for them is the list of pages and the page of the object. Without memory all stays as it was.
    pub fn set(&mut self, alloc: Global, origin: u64, pieces: List<Piece>) -> Result<(), NoMemory>
        ensures ok { OnOk result ((o : ℕ) (w : ℤ) → held_on self.new o w ≡ (if o == origin then rows_at origin w pieces else held_on self.old o w)) }
        ensures err { OnErr result ((o : ℕ) (w : ℤ) → held_on self.new o w ≡ held_on self.old o w) }
    {
        if pieces.is_empty() && self.pages.get(origin).is_empty() {
            return Ok(());
        }
        let slot = slot_with(alloc, pieces)?;
        set_in(alloc, &mut self.pages, origin, slot)
    }
}
