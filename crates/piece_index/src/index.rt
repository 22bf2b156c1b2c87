//! The index: pieces by origin and window, within a budget of rows.
ghost use Rattle.std.specs.Prelude.{◌≡◌, ◌≢◌, ℕ, ℤ, ◌+◌, None, Some, [], ◌∷◌, filter, length, MatchOption, IfNone, IfOk};
ghost use Rattle.std.specs.Option.{option_copied};
ghost use Rattle.cal_model.specs.Pieces.PieceLists.{rows_at, rows_in, is_piece_of, is_other_piece};
ghost use Rattle.cal_model.specs.Pieces.KeptPieces.{IsWithinBudget};

use crate::chains::Chains;
use cal_base::{Arc, List, NoMemory, Steps};
use cal_model::{Piece, Row};
use std::alloc::Global;
use std::marker::Model;
use std::sync::ledger::Ledger;

/// What became of a piece that was to be added.
#[derive(Drop)]
pub enum Added {
    /// It is the newest piece of the index.
    Done,
    /// It alone has more rows than the budget. It is given back, and nothing changed.
    Full(Piece),
    /// There was no memory for it. It is given back, and nothing changed.
    NoMemory(Piece),
}

/// Pieces, which contracts see from the oldest to the newest.
///
/// No two are of one object and window, and together they have no more rows than the budget.
#[derive(Drop)]
pub struct Index {
    chains: Chains,
    /// How many rows the pieces have in all.
    rows: u64,
    budget: u64,
    /// No piece has a window below this one, nor one above the next. Pieces that go leave both as
    /// they are.
    least_window: i32,
    greatest_window: i32,
}

impl Model for Index {
    ghost use Rattle.cal_model.specs.Pieces.KeptPieces.{KeptPieces};
    ghost use Rattle.piece_index.specs.Counted.{IsCounted};
    ghost use Rattle.piece_index.specs.Entries.{pieces_of};
    ghost use Rattle.piece_index.specs.Bounds.{AreBetween};

    ghost Value = { KeptPieces };

    ghost view = { λ i. record { budget = i.budget; pieces = pieces_of i.chains } };

    ghost invariant = { λ i. IsCounted i.rows i.budget (pieces_of i.chains) × AreBetween i.least_window i.greatest_window (pieces_of i.chains) };
}

impl Index {
    ghost use Rattle.piece_index.specs.Added.{IsAdded};

    /// An index with no pieces. It takes no memory yet.
    pub fn new(alloc: Global, budget: u64) -> Index
        ensures { result ≡ record { budget = budget; pieces = [] } }
    {
        Index {
            chains: Chains::new(alloc),
            rows: 0,
            budget,
            least_window: i32::MAX,
            greatest_window: i32::MIN,
        }
    }

    /// The rows of the piece of an object in a window, found along the object's chain. Takes no memory.
    ///
    /// A window outside those of all pieces is answered at once.
    pub fn get(&self, origin: u64, window: i32) -> Option<&Arc<List<Row>>>
        ensures { option_copied result ≡ rows_at origin window self.now.pieces }
    {
        if window < self.least_window || window > self.greatest_window {
            return None;
        }
        self.chains.find(origin, window)
    }

    /// The pieces of an object, the newest first, with their rows shared. It goes along the object's
    /// chain alone.
    pub fn pieces_of(&self, alloc: Global, origin: u64) -> Result<List<Piece>, NoMemory>
        ensures { IfOk result (λ pieces. (w : ℤ) → rows_at origin w pieces ≡ rows_at origin w self.now.pieces) }
    {
        self.chains.pieces_of(alloc, origin)
    }

    /// How many rows the pieces have in all: no more than the budget.
    pub fn rows(&self) -> u64
        ensures rows { result ≡ rows_in self.now.pieces }
        ensures within { IsWithinBudget self.now }
    {
        self.rows
    }

    /// Adds a piece as the newest, and drops from the old end as few as make room for it.
    ///
    /// Memory is taken before anything is dropped.
    pub fn add(&mut self, piece: Piece) -> Added
        requires { rows_at piece.origin piece.window self.old.pieces ≡ None }
        ensures added { IsAdded self.old piece self.new result }
        ensures found { result ≡ Added.Done → rows_at piece.origin piece.window self.new.pieces ≡ Some piece.rows }
    {
        let needed = piece.row_count();
        if needed > self.budget {
            return Added::Full(piece);
        }
        let window = piece.window;
        if let Err(piece) = self.chains.put(piece) {
            return Added::NoMemory(piece);
        }
        self.least_window = self.least_window.min(window);
        self.greatest_window = self.greatest_window.max(window);
        let rows = u128::from(self.rows) + u128::from(needed);
        self.rows = self.chains.shrink(rows, self.budget);
        Added::Done
    }

    /// Drops the oldest piece, and gives it. Takes no memory.
    pub fn drop_oldest(&mut self) -> Option<Piece>
        ensures piece { MatchOption result (self.old.pieces ≡ []) (λ piece. self.old.pieces ≡ piece ∷ self.new.pieces) }
        ensures none { IfNone result (self.new ≡ self.old) }
        ensures budget { self.new.budget ≡ self.old.budget }
    {
        let Some(piece) = self.chains.take_oldest() else {
            return None;
        };
        self.rows -= piece.row_count();
        Some(piece)
    }

    /// Drops the pieces of an object, with one step for each. Takes no memory.
    ///
    /// It goes along the object's chain alone: the time grows with the number of its pieces and with
    /// the logarithm of the number of objects, whatever else the index holds.
    pub fn drop_object<L: Ledger>(&mut self, origin: u64, steps: &mut Steps<L>)
        ensures pieces { self.new ≡ record self.old { pieces = filter (is_other_piece origin) self.old.pieces } }
        ensures gone { (window : ℤ) → rows_at origin window self.new.pieces ≡ None }
        ensures others { (other : ℕ) (window : ℤ) → other ≢ origin → rows_at other window self.new.pieces ≡ rows_at other window self.old.pieces }
        ensures cost { steps.new ≡ steps.old + length (filter (is_piece_of origin) self.old.pieces) }
    {
        self.rows = self.chains.drop_of(origin, self.rows, steps);
    }
}
