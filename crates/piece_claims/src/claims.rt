//! The keeping of claims.
ghost use Rattle.std.specs.Prelude.{◌≡◌, ℕ, ℤ, ◌+◌, ◌-◌, ◌<◌, ◌≤◌, true, false, Some, None, [], ◌∷◌, ◌++◌, length, filter, pos, negsuc, ◌≤ℤ◌, ◌^◌, slice_set, IfOk, IfSome, IsOk, OnOk, OnErr};
ghost use Rattle.cal_model.specs.History.Claims.{with_claim, without_claim};
ghost use Rattle.cal_model.specs.Pieces.KeptPieces.{IsWithinBudget};
ghost use Rattle.cal_model.specs.Pieces.PieceLists.{is_other_piece, is_piece_of, newest_within, rows_at, rows_in};
ghost use Rattle.number_set.specs.Sets.{has};
ghost use Rattle.piece_shelf.specs.Shelves.{held_on};
ghost use Rattle.piece_claims.specs.Boards.{later, pair_at, pair_in, piece_at, is_full, next_of, out_after, published, ended, gone_for, rows_limit};
ghost use Rattle.piece_claims.specs.Kept.{first_of, AreOfLive};
ghost use Rattle.cal_model.specs.Instances.Rows.{window_at};

use crate::aging::{make_room, put_in};
use crate::claimed::end;
use crate::counts::{Counts, count};
use crate::lanes::{Lanes, refresh_all};
use crate::shelving::Shelving;
use cal_base::{Arc, List, NoMemory, Steps};
use cal_model::view::Pieces;
use cal_model::{Piece, Row};
use number_set::NumberSet;
use piece_index::Index;
use piece_shelf::Shelf;
use std::alloc::Global;
use std::marker::Model;
use std::sync::ledger::Ledger;

/// What claims depend on: which entries of the journal made objects that are still there, the
/// greatest moment, the pieces, and the pairs that are claimed out.
#[derive(Drop)]
pub struct Claims {
    index: Index,
    out: Vec<(u64, i32)>,
    latest: i64,
    /// The first window of the horizon.
    first: i32,
    live: NumberSet,
    /// How many entries the journal has, and for how many there is room.
    entries: u64,
    limit: u64,
    lanes: Lanes,
    counts: Counts,
    /// The pieces once more, for looks.
    shelving: Shelving,
}

impl Model for Claims {
    ghost use Rattle.std.specs.Prelude.{◌-◌, take, vec_capacity};
    ghost use Rattle.piece_claims.specs.Boards.{Board};
    ghost use Rattle.piece_claims.specs.Out.{pairs_out};
    ghost use Rattle.piece_claims.specs.Kept.{IsKept, IsStored};
    ghost use Rattle.piece_claims.specs.Shelved.{AreShelved};

    ghost Value = { Board };

    ghost view = { λ c. record { live = take c.entries c.live; latest = c.latest; pieces = c.index.pieces; out = pairs_out c.out.items; room = c.limit - c.entries } };

    ghost invariant = { λ c. IsKept c.index.pieces c.out.items (vec_capacity c.out) c.latest c.first c.live c.entries c.limit c.lanes × IsStored c.index c.first c.live c.counts × AreShelved c.shelving.shelf c.shelving.filled c.entries c.index.pieces };
}

/// How many rows the index takes: twice as many as the pieces have in all, so that a new piece is in
/// before the oldest go.
const ROOM: u64 = 8_000_000;

/// The most pairs that are out at once.
const MOST_OUT: usize = 64;

/// The rows of the horizon at which no more claims are given.
const ENOUGH_ROWS: u64 = 3_000_000;

/// The first window of the horizon about a moment.
fn first_window(moment: i64) -> i32
    requires low { negsuc (2 ^ 29) ≤ℤ window_at moment }
    requires high { window_at moment ≤ℤ pos (2 ^ 29) }
    ensures window { result ≡ first_of moment }
    ensures low { negsuc (2 ^ 30) ≤ℤ result }
    ensures high { result ≤ℤ pos (2 ^ 30) }
{
    (moment.div_euclid(64 * 86_400) - 4) as i32
}

impl Claims {
    /// An empty journal, no piece and no claim, and room for one entry.
    pub fn new(alloc: Global) -> Result<Claims, NoMemory>
        ensures { IfOk result (λ c. c ≡ record { live = []; latest = pos 0; pieces = []; out = []; room = 1 }) }
    {
        let live = NumberSet::new(alloc)?;
        let lanes = Lanes::new(alloc)?;
        let Ok(out) = Vec::with_capacity(alloc, MOST_OUT) else {
            return Err(NoMemory);
        };
        Ok(Claims {
            index: Index::new(alloc, ROOM),
            out,
            latest: 0,
            first: -4,
            live,
            entries: 0,
            limit: 1,
            lanes,
            counts: Counts::new(),
            shelving: Shelving::new(alloc),
        })
    }

    /// Makes room for one entry more, where there is none yet, so that none of the calls that tell of
    /// an entry looks for memory. Where there is room already this takes no memory.
    pub fn reserve(&mut self) -> Result<(), NoMemory>
        ensures room { OnOk result (0 < self.new.room) }
        ensures same { self.new ≡ record self.old { room = self.new.room } }
        ensures succeeds { 0 < self.old.room → IsOk result }
        ensures err { OnErr result (self.new ≡ self.old) }
    {
        if self.entries < self.limit {
            return Ok(());
        }
        if self.entries == u64::MAX {
            return Err(NoMemory);
        }
        let needed = self.entries + 1;
        self.live.grow(needed)?;
        self.lanes.grow(needed)?;
        self.limit = needed;
        Ok(())
    }

    /// How many entries the journal has.
    pub fn entries(&self) -> u64
        ensures { result ≡ length self.now.live }
    {
        self.entries
    }

    /// For how many entries more there is room.
    pub fn room(&self) -> u64
        ensures { result ≡ self.now.room }
    {
        self.limit - self.entries
    }

    /// The journal has an entry more, which made an object or did not. Takes no memory.
    fn add(&mut self, alive: bool)
        requires { 0 < self.old.room }
        ensures { self.new ≡ record self.old { live = self.old.live ++ alive ∷ []; room = self.old.room - 1 } }
    {
        let origin = self.entries;
        self.live.put(origin, alive);
        self.lanes
            .refresh(self.first, alive, &self.index, &self.out, origin);
        self.entries = origin + 1;
    }

    /// The journal has an entry more, which made an object. Takes no memory.
    pub fn made(&mut self)
        requires { 0 < self.old.room }
        ensures { self.new ≡ record self.old { live = self.old.live ++ true ∷ []; room = self.old.room - 1 } }
    {
        self.add(true);
    }

    /// The journal has an entry more, which made no object. Takes no memory.
    pub fn changed(&mut self)
        requires { 0 < self.old.room }
        ensures { self.new ≡ record self.old { live = self.old.live ++ false ∷ []; room = self.old.room - 1 } }
    {
        self.add(false);
    }

    /// The object that an entry made is gone: so are its pieces, with one step for each. No want of
    /// memory keeps it from that: where there is none to change the shelf behind a look, the shelf is
    /// given up.
    pub fn ended<L: Ledger>(&mut self, origin: u64, steps: &mut Steps<L>)
        requires { origin < length self.old.live }
        ensures board { self.new ≡ record self.old { live = slice_set self.old.live origin false; pieces = filter (is_other_piece origin) self.old.pieces } }
        ensures cost { steps.new ≡ steps.old + length (filter (is_piece_of origin) self.old.pieces) }
    {
        self.counts.take_object(self.first, &self.index, origin);
        self.index.drop_object(origin, steps);
        self.shelving.renew(&self.index, origin);
        self.live.put(origin, false);
        self.lanes
            .refresh(self.first, false, &self.index, &self.out, origin);
    }

    /// The greatest moment of a request so far, in seconds since 1970; 0 before the first.
    pub fn latest(&self) -> i64
        ensures { result ≡ self.now.latest }
    {
        self.latest
    }

    /// A request came at a moment: where it is the greatest so far, the horizon is that about it. The
    /// windows of the horizon move only forward. Takes no memory, and goes over the entries only where
    /// the horizon moves.
    pub fn at(&mut self, moment: i64)
        requires low { negsuc (2 ^ 29) ≤ℤ window_at moment }
        requires high { window_at moment ≤ℤ pos (2 ^ 29) }
        ensures { self.new ≡ record self.old { latest = later self.old.latest moment } }
    {
        if moment <= self.latest {
            return;
        }
        let first = first_window(moment);
        self.latest = moment;
        if first == self.first {
            return;
        }
        self.first = first;
        refresh_all(
            &mut self.lanes,
            first,
            &self.live,
            &self.index,
            &self.out,
            self.entries,
        );
        self.counts = count(&self.index, first, self.entries);
    }

    /// Whether no claim is given, whatever is open: there are enough claims, or enough rows.
    fn is_full(&self) -> bool
        ensures { result ≡ is_full self.now }
    {
        self.out.len() >= MOST_OUT || self.counts.total() >= ENOUGH_ROWS
    }

    /// The pair that is claimed next: of those that are open the one with the least window, and of
    /// these the one with the least origin. None where no pair is open, where 64 pairs are out, or
    /// where the pieces of the horizon have 3,000,000 rows. Takes no memory.
    pub fn next(&self) -> Option<(u64, i32)>
        ensures pair { pair_in result ≡ next_of self.now }
        ensures live { IfSome result (λ p. has self.now.live p.0 ≡ true) }
        ensures few { IfSome result (λ p. length self.now.out < 64) }
    {
        if self.is_full() {
            return None;
        }
        self.lanes.next(self.first)
    }

    /// A pair of a live object is out. Takes no memory.
    fn put_out(&mut self, origin: u64, window: i32)
        requires live { has self.old.live origin ≡ true }
        requires few { length self.old.out < 64 }
        ensures { self.new ≡ record self.old { out = with_claim (pair_at origin window) self.old.out } }
    {
        self.out.push_reserved((origin, window));
        self.lanes
            .refresh_at(self.first, true, &self.index, &self.out, origin, window);
    }

    /// Claims the next pair, as `next` gives it: it is out from now on. Where there is none, nothing
    /// changes. Takes no memory.
    pub fn claim(&mut self) -> Option<(u64, i32)>
        ensures pair { pair_in result ≡ next_of self.old }
        ensures live { IfSome result (λ p. has self.old.live p.0 ≡ true) }
        ensures board { self.new ≡ record self.old { out = out_after (next_of self.old) self.old.out } }
    {
        let Some((origin, window)) = self.next() else {
            return None;
        };
        self.put_out(origin, window);
        Some((origin, window))
    }

    /// A claim of a pair that no object has ends. Takes no memory.
    fn end_unknown(&mut self, origin: u64, window: i32)
        requires { length self.old.live ≤ origin }
        ensures { self.new ≡ record self.old { out = without_claim (pair_at origin window) self.old.out } }
    {
        end(&mut self.out, origin, window);
    }

    /// A claim of a pair of an entry ends, and the pair is open again where it was. Takes no memory.
    fn end_known(&mut self, origin: u64, window: i32)
        requires { origin < length self.old.live }
        ensures { self.new ≡ record self.old { out = without_claim (pair_at origin window) self.old.out } }
    {
        end(&mut self.out, origin, window);
        let alive = self.live.contains(origin);
        self.lanes
            .refresh_at(self.first, alive, &self.index, &self.out, origin, window);
    }

    /// A claim ends, and nothing else changes: where its object is still there, and the window in the
    /// horizon and without a piece, it can be claimed again. Takes no memory.
    pub fn abandon(&mut self, origin: u64, window: i32)
        ensures { self.new ≡ record self.old { out = without_claim (pair_at origin window) self.old.out } }
    {
        if origin < self.entries() {
            self.end_known(origin, window);
        } else {
            self.end_unknown(origin, window);
        }
    }

    /// Keeps a piece as the newest, and drops as few of the oldest as make room, with one step for
    /// each. It takes its memory first; where there is none for the shelf, that is given up.
    fn keep<L: Ledger>(&mut self, piece: Piece, steps: &mut Steps<L>) -> Result<(), NoMemory>
        requires live { has self.old.live piece.origin ≡ true }
        requires few { length piece.rows ≤ 4_000_000 }
        requires none { rows_at piece.origin piece.window self.old.pieces ≡ None }
        ensures ok { OnOk result (self.new ≡ record self.old { pieces = newest_within (rows_limit - length piece.rows) self.old.pieces ++ piece ∷ [] }) }
        ensures err { OnErr result (self.new ≡ self.old) }
        ensures cost { OnOk result (steps.new + length self.new.pieces ≡ steps.old + length self.old.pieces + 1) }
        ensures no_cost { OnErr result (steps.new ≡ steps.old) }
    {
        let origin = piece.origin;
        let window = piece.window;
        let rows = piece.row_count();
        put_in(&mut self.index, piece)?;
        self.shelving.renew(&self.index, origin);
        self.counts.add(self.first, window, rows);
        self.lanes
            .refresh_at(self.first, true, &self.index, &self.out, origin, window);
        make_room(
            &mut self.index,
            &mut self.shelving,
            &mut self.counts,
            &mut self.lanes,
            self.first,
            &self.live,
            &self.out,
            steps,
        );
        Ok(())
    }

    /// Publishes the rows of a live object in a window: the claim ends, and the rows are kept as the
    /// newest piece. As few of the oldest as make room go, with one step for each. Where the pair has
    /// a piece already, the pieces stay as they are. Without memory the claim ends, and no piece
    /// changes.
    pub fn publish<L: Ledger>(
        &mut self,
        origin: u64,
        window: i32,
        rows: Arc<List<Row>>,
        steps: &mut Steps<L>,
    ) -> Result<(), NoMemory>
        requires live { has self.old.live origin ≡ true }
        requires few { length rows ≤ 4_000_000 }
        ensures ok { OnOk result (self.new ≡ published (piece_at origin window rows) self.old) }
        ensures err { OnErr result (self.new ≡ ended origin window self.old) }
        ensures found { OnOk result (rows_at origin window self.old.pieces ≡ None → rows_at origin window self.new.pieces ≡ Some rows) }
        ensures cost { OnOk result (steps.new ≡ steps.old + gone_for (piece_at origin window rows) self.old.pieces) }
        ensures no_cost { OnErr result (steps.new ≡ steps.old) }
    {
        self.abandon(origin, window);
        if self.index.get(origin, window).is_some() {
            return Ok(());
        }
        self.keep(
            Piece {
                origin,
                window,
                rows,
            },
            steps,
        )
    }

    /// A look at the pieces: a shelf with all of them as they are now, whatever becomes of them later.
    /// In constant time, where the pieces of all entries are on the shelf already; else those of up to
    /// 256 entries are put there first. Where more are left there is no look, as for want of memory, and
    /// the next call goes on.
    pub fn look(&mut self) -> Result<Shelf, NoMemory>
        ensures same { self.new ≡ self.old }
        ensures held { IfOk result (λ shelf. (o : ℕ) (w : ℤ) → held_on shelf o w ≡ rows_at o w self.old.pieces) }
    {
        self.shelving.look(&self.index, self.entries)
    }

    /// How many rows the pieces have in all: no more than 4,000,000. No two pieces are of one object
    /// and window, and each is of an object that is still there.
    pub fn row_count(&self) -> u64
        ensures rows { result ≡ rows_in self.now.pieces }
        ensures within { IsWithinBudget (record { budget = rows_limit; pieces = self.now.pieces }) }
        ensures live { AreOfLive self.now.live self.now.pieces }
    {
        self.index.rows()
    }
}

/// The list that is shared.
fn list_of(rows: &Arc<List<Row>>) -> &List<Row>
    ensures { result.now ≡ rows.now }
{
    rows
}

impl Pieces for Claims {
    ghost use Rattle.cal_model.specs.Pieces.PieceLists.{rows_at};
    ghost use Rattle.piece_claims.specs.Boards.{Board};

    ghost held = { λ (c : Board) origin window. rows_at origin window c.pieces };

    fn rows(&self, origin: u64, window: i32) -> Option<&List<Row>> {
        match self.index.get(origin, window) {
            Some(rows) => Some(list_of(rows)),
            None => None,
        }
    }
}
