//! The pieces as one list by age, each call going through all of it. Its clauses are the index's.
ghost use Rattle.std.specs.Prelude.{◌≡◌, ◌+◌, ◌≤◌, ◌<◌, ◌^◌, None, Some, [], ◌∷◌, filter, length, MatchOption, vec_len, vec_capacity};
ghost use Rattle.std.specs.Option.{option_copied};
ghost use Rattle.cal_model.specs.Pieces.PieceLists.{rows_at, rows_in, is_piece_of, is_other_piece, is_piece_at, newest_within};
ghost use Rattle.cal_model.specs.Pieces.KeptPieces.{IsWithinBudget};

use cal_base::{Arc, List, Steps};
use cal_model::{Piece, Row};
use piece_index::Added;
use std::alloc::Global;
use std::marker::Model;
use std::sync::ledger::Ledger;

/// Pieces, which contracts see from the oldest to the newest.
#[derive(Drop)]
pub struct PlainList {
    pieces: Vec<Piece>,
    /// How many rows the pieces have in all.
    rows: u64,
    budget: u64,
}

impl Model for PlainList {
    ghost use Rattle.cal_model.specs.Pieces.KeptPieces.{KeptPieces};
    ghost use Rattle.piece_index.specs.Counted.{IsCounted};

    ghost Value = { KeptPieces };

    ghost view = { λ i. record { budget = i.budget; pieces = i.pieces.items } };

    ghost invariant = { λ i. IsCounted i.rows i.budget i.pieces.items };
}

/// Whether a piece is of an object and a window.
fn is_at(piece: &Piece, origin: u64, window: i32) -> bool
    ensures { result ≡ is_piece_at origin window piece.now }
{
    piece.origin == origin && piece.window == window
}

/// The rows of the piece of an object in a window.
fn rows_of(pieces: &[Piece], origin: u64, window: i32) -> Option<&Arc<List<Row>>>
    ensures { option_copied result ≡ rows_at origin window pieces.now }
{
    for piece in pieces {
        if is_at(piece, origin, window) {
            return Some(&piece.rows);
        }
    }
    None
}

/// How many rows the pieces of other objects have.
fn rows_of_others(pieces: &[Piece], origin: u64) -> u64
    requires { rows_in pieces.now < 2 ^ 64 }
    ensures { result ≡ rows_in (filter (is_other_piece origin) pieces.now) }
{
    let mut rows = 0;
    for piece in pieces {
        if piece.origin != origin {
            rows += piece.row_count();
        }
    }
    rows
}

/// Takes a step for each piece of an object.
fn count_pieces<L: Ledger>(pieces: &[Piece], origin: u64, steps: &mut Steps<L>)
    ensures { steps.new ≡ steps.old + length (filter (is_piece_of origin) pieces.now) }
{
    for piece in pieces {
        if piece.origin == origin {
            steps.tick();
        }
    }
}

/// Whether a piece is of another object.
fn is_other(piece: &Piece, origin: u64) -> bool
    ensures { result ≡ is_other_piece origin piece.now }
{
    piece.origin != origin
}

/// Drops the pieces of an object.
fn retain_others(pieces: &mut Vec<Piece>, origin: u64)
    ensures { pieces.new.items ≡ filter (is_other_piece origin) pieces.old.items }
{
    pieces.retain(|piece| is_other(piece, origin));
}

/// Takes the first piece out.
fn take_front(pieces: &mut Vec<Piece>) -> Option<Piece>
    ensures front { MatchOption result (pieces.old.items ≡ []) (λ piece. pieces.old.items ≡ piece ∷ pieces.new.items) }
    ensures capacity { vec_capacity pieces.new ≡ vec_capacity pieces.old }
{
    if pieces.is_empty() {
        return None;
    }
    Some(pieces.remove(0))
}

/// Drops pieces from the front until the rows are no more than there is room for, and tells how
/// many are left.
fn shrink(pieces: &mut Vec<Piece>, rows: u64, room: u64) -> u64
    requires { rows ≡ rows_in pieces.old.items }
    ensures pieces { pieces.new.items ≡ newest_within room pieces.old.items }
    ensures rows { result ≡ rows_in pieces.new.items }
    ensures fits { result ≤ room }
    ensures len { vec_len pieces.new ≤ vec_len pieces.old }
    ensures capacity { vec_capacity pieces.new ≡ vec_capacity pieces.old }
{
    let mut left = rows;
    while left > room {
        match take_front(pieces) {
            Some(oldest) => left -= oldest.row_count(),
            None => unreachable!(),
        }
    }
    left
}

impl PlainList {
    ghost use Rattle.piece_index.specs.Added.{IsAdded};

    /// No pieces.
    pub fn new(alloc: Global, budget: u64) -> PlainList
        ensures { result ≡ record { budget = budget; pieces = [] } }
    {
        PlainList {
            pieces: Vec::new(alloc),
            rows: 0,
            budget,
        }
    }

    /// The rows of the piece of an object in a window.
    pub fn get(&self, origin: u64, window: i32) -> Option<&Arc<List<Row>>>
        ensures { option_copied result ≡ rows_at origin window self.now.pieces }
    {
        rows_of(self.pieces.as_slice(), origin, window)
    }

    /// How many rows the pieces have in all.
    pub fn rows(&self) -> u64
        ensures rows { result ≡ rows_in self.now.pieces }
        ensures within { IsWithinBudget self.now }
    {
        self.rows
    }

    /// Adds a piece as the newest, and drops from the old end as few as make room for it.
    pub fn add(&mut self, piece: Piece) -> Added
        requires { rows_at piece.origin piece.window self.old.pieces ≡ None }
        ensures added { IsAdded self.old piece self.new result }
        ensures found { result ≡ Added.Done → rows_at piece.origin piece.window self.new.pieces ≡ Some piece.rows }
    {
        let needed = piece.row_count();
        if needed > self.budget {
            return Added::Full(piece);
        }
        if self.pieces.reserve(1).is_err() {
            return Added::NoMemory(piece);
        }
        let left = shrink(&mut self.pieces, self.rows, self.budget - needed);
        self.pieces.push_reserved(piece);
        self.rows = left + needed;
        Added::Done
    }

    /// Drops the pieces of an object, with one step for each.
    pub fn drop_object<L: Ledger>(&mut self, origin: u64, steps: &mut Steps<L>)
        ensures pieces { self.new ≡ record self.old { pieces = filter (is_other_piece origin) self.old.pieces } }
        ensures cost { steps.new ≡ steps.old + length (filter (is_piece_of origin) self.old.pieces) }
    {
        count_pieces(self.pieces.as_slice(), origin, steps);
        self.rows = rows_of_others(self.pieces.as_slice(), origin);
        retain_others(&mut self.pieces, origin);
    }
}
