//! The shelf beside the index, of which looks are taken.
ghost use Rattle.std.specs.Prelude.{◌≡◌, ℕ, ℤ, ◌≤◌, ◌==◌, if◌then◌else◌, List, None, OnOk, OnErr, IfOk, IfSome};
ghost use Rattle.cal_model.specs.declared.piece.Piece.{Piece as Kept};
ghost use Rattle.cal_model.specs.Pieces.PieceLists.{rows_at};
ghost use Rattle.piece_shelf.specs.Shelves.{held_on};
ghost use Rattle.piece_claims.specs.Shelved.{AreSameBut, IsFilled};

use cal_base::NoMemory;
use piece_index::Index;
use piece_shelf::Shelf;
use std::alloc::Global;

/// The pieces of how many entries a look puts on the shelf at most, so that none takes long.
const FILLED_AT_ONCE: u64 = 256;

/// A shelf, where there was memory for one.
#[derive(Drop)]
pub(crate) struct Shelving {
    alloc: Global,
    shelf: Option<Shelf>,
    /// Of how many entries the objects have their pieces on the shelf.
    filled: u64,
}

/// Writes the pieces of an object anew on a shelf. Without memory it stays as it was.
fn write(alloc: Global, shelf: &mut Shelf, index: &Index, origin: u64) -> Result<(), NoMemory>
    ensures ok { OnOk result ((o : ℕ) (w : ℤ) → held_on shelf.new o w ≡ (if o == origin then rows_at origin w index.now.pieces else held_on shelf.old o w)) }
    ensures err { OnErr result ((o : ℕ) (w : ℤ) → held_on shelf.new o w ≡ held_on shelf.old o w) }
{
    let pieces = index.pieces_of(alloc, origin)?;
    shelf.set(alloc, origin, pieces)
}

/// Puts the pieces of the objects of more entries on a shelf, as far as there is memory, and tells of
/// how many entries they are there.
fn fill(alloc: Global, shelf: &mut Shelf, index: &Index, from: u64, to: u64) -> u64
    requires order { from ≤ to }
    requires filled { IsFilled from index.now.pieces shelf.old }
    ensures filled { IsFilled result index.now.pieces shelf.new }
    ensures within { result ≤ to }
{
    for origin in from..to {
        if write(alloc, shelf, index, origin).is_err() {
            return origin;
        }
    }
    to
}

/// A look at a shelf, where the pieces of all entries are there; before that, those of some more are
/// put there.
fn look_at(
    alloc: Global,
    shelf: &mut Shelf,
    filled: &mut u64,
    index: &Index,
    entries: u64,
) -> Result<Shelf, NoMemory>
    requires within { filled.old ≤ entries }
    requires filled { IsFilled filled.old index.now.pieces shelf.old }
    ensures within { filled.new ≤ entries }
    ensures filled { IsFilled filled.new index.now.pieces shelf.new }
    ensures look { IfOk result (IsFilled entries index.now.pieces) }
{
    let to = if entries - *filled > FILLED_AT_ONCE {
        *filled + FILLED_AT_ONCE
    } else {
        entries
    };
    *filled = fill(alloc, shelf, index, *filled, to);
    if *filled < entries {
        return Err(NoMemory);
    }
    shelf.look()
}

impl Shelving {
    /// No shelf yet.
    pub(crate) fn new(alloc: Global) -> Shelving
        ensures shelf { result.shelf ≡ None }
        ensures filled { result.filled ≡ 0 }
    {
        Shelving {
            alloc,
            shelf: None,
            filled: 0,
        }
    }

    /// The pieces of an object changed, and are written anew on the shelf. Where there is no memory for
    /// that, the shelf is given up, and a later look begins another.
    pub(crate) fn renew(&mut self, index: &Index, origin: u64)
        ensures within { self.new.filled ≤ self.old.filled }
        ensures filled { (before : List Kept) → AreSameBut origin before index.now.pieces → IfSome self.old.shelf (IsFilled self.old.filled before) → IfSome self.new.shelf (IsFilled self.new.filled index.now.pieces) }
    {
        if origin >= self.filled {
            return;
        }
        let Some(shelf) = &mut self.shelf else {
            return;
        };
        if write(self.alloc, shelf, index, origin).is_err() {
            self.shelf = None;
            self.filled = 0;
        }
    }

    /// Begins a shelf where there is none.
    fn begin(&mut self) -> Result<(), NoMemory>
        ensures within { self.new.filled ≤ self.old.filled }
        ensures filled { (pieces : List Kept) → IfSome self.old.shelf (IsFilled self.old.filled pieces) → IfSome self.new.shelf (IsFilled self.new.filled pieces) }
    {
        if self.shelf.is_some() {
            return Ok(());
        }
        self.filled = 0;
        self.shelf = Some(Shelf::new(self.alloc)?);
        Ok(())
    }

    /// A look at the shelf, with the pieces of all entries. Where there is no memory for it, or more
    /// objects are left to be put there than a look may, there is none, and the next one goes on.
    pub(crate) fn look(&mut self, index: &Index, entries: u64) -> Result<Shelf, NoMemory>
        requires within { self.old.filled ≤ entries }
        requires filled { IfSome self.old.shelf (IsFilled self.old.filled index.now.pieces) }
        ensures within { self.new.filled ≤ entries }
        ensures filled { IfSome self.new.shelf (IsFilled self.new.filled index.now.pieces) }
        ensures look { IfOk result (IsFilled entries index.now.pieces) }
    {
        self.begin()?;
        match &mut self.shelf {
            Some(shelf) => look_at(self.alloc, shelf, &mut self.filled, index, entries),
            None => Err(NoMemory),
        }
    }
}
