//! How many rows the pieces have in each window of the horizon.
ghost use Rattle.std.specs.Prelude.{◌≡◌, ℕ, ◌+◌, ◌<◌, ◌≤◌, ◌^◌, sum, length, replicate, pos, negsuc, ◌+ℤ◌, ◌≤ℤ◌};
ghost use Rattle.cal_model.specs.Pieces.PieceLists.{rows_in, ArePairsApart};
ghost use Rattle.piece_claims.specs.Counts.{count_at, size_at, sizes_to, HasMoreIn, HasMoreOf};

use crate::lanes::{WINDOWS, place_in};
use piece_index::Index;
use std::marker::Model;

/// How many rows the pieces have in each window, in the order of the windows.
#[derive(Drop)]
pub(crate) struct Counts {
    counts: [u64; 13],
}

impl Model for Counts {
    ghost use Rattle.std.specs.Prelude.{ℕ, List};

    ghost Value = { List ℕ };

    ghost view = { λ c. c.counts };
}

/// How many rows the piece of an object in a window has.
fn size_of(index: &Index, origin: u64, window: i32) -> u64
    ensures { result ≡ size_at origin window index.now.pieces }
{
    match index.get(origin, window) {
        Some(rows) => rows.len() as u64,
        None => 0,
    }
}

impl Counts {
    /// There are no rows.
    pub(crate) fn new() -> Counts
        ensures { result ≡ replicate 13 0 }
    {
        Counts { counts: [0; 13] }
    }

    /// There are so many more rows in a window.
    pub(crate) fn add(&mut self, first: i32, window: i32, rows: u64)
        requires fits { (k : ℕ) → k < 13 → count_at self.old k + rows < 2 ^ 64 }
        ensures { HasMoreIn self.old self.new first window rows }
    {
        if let Some(place) = place_in(first, window) {
            self.counts[place] += rows;
        }
    }

    /// There are so many fewer rows in a window.
    pub(crate) fn take(&mut self, first: i32, window: i32, rows: u64)
        requires there { (k : ℕ) → k < 13 → window ≡ (first +ℤ pos k) → rows ≤ count_at self.old k }
        ensures { HasMoreIn self.new self.old first window rows }
    {
        if let Some(place) = place_in(first, window) {
            self.counts[place] -= rows;
        }
    }

    /// The rows of the pieces of an object come to those that are counted.
    fn add_object(&mut self, first: i32, index: &Index, origin: u64)
        requires low { negsuc (2 ^ 30) ≤ℤ first }
        requires high { first ≤ℤ pos (2 ^ 30) }
        requires fits { (k : ℕ) → k < 13 → count_at self.old k + size_at origin (first +ℤ pos k) index.now.pieces < 2 ^ 64 }
        ensures { HasMoreOf self.old self.new first origin index.now.pieces }
    {
        for k in 0..WINDOWS {
            let rows = size_of(index, origin, first + k as i32);
            self.counts[k] += rows;
        }
    }

    /// The rows of the pieces of an object go from those that are counted.
    pub(crate) fn take_object(&mut self, first: i32, index: &Index, origin: u64)
        requires low { negsuc (2 ^ 30) ≤ℤ first }
        requires high { first ≤ℤ pos (2 ^ 30) }
        requires there { (k : ℕ) → k < 13 → size_at origin (first +ℤ pos k) index.now.pieces ≤ count_at self.old k }
        ensures { HasMoreOf self.new self.old first origin index.now.pieces }
    {
        for k in 0..WINDOWS {
            let rows = size_of(index, origin, first + k as i32);
            self.counts[k] -= rows;
        }
    }

    /// The rows in all windows.
    pub(crate) fn total(&self) -> u64
        requires { (k : ℕ) → k < 13 → count_at self.now k < 2 ^ 32 }
        ensures rows { result ≡ sum self.now }
        ensures count { length self.now ≡ 13 }
    {
        let mut rows = 0;
        for k in 0..WINDOWS {
            rows += self.counts[k];
        }
        rows
    }
}

/// Counts the rows of the pieces of so many objects.
pub(crate) fn count(index: &Index, first: i32, entries: u64) -> Counts
    requires low { negsuc (2 ^ 30) ≤ℤ first }
    requires high { first ≤ℤ pos (2 ^ 30) }
    requires apart { ArePairsApart index.now.pieces }
    requires few { rows_in index.now.pieces < 2 ^ 32 }
    ensures { (k : ℕ) → k < 13 → count_at result k ≡ sizes_to entries (first +ℤ pos k) index.now.pieces }
{
    let mut counts = Counts::new();
    for origin in 0..entries {
        counts.add_object(first, index, origin);
    }
    counts
}
