//! The coming of new pieces and the going of the oldest.
ghost use Rattle.std.specs.Prelude.{◌≡◌, ℕ, ◌+◌, ◌<◌, ◌≤◌, ◌^◌, true, None, [], ◌∷◌, ◌++◌, length, pos, negsuc, ◌≤ℤ◌, OnOk, OnErr, IfSome};
ghost use Rattle.cal_model.specs.declared.piece.Piece.{Piece as Kept};
ghost use Rattle.cal_model.specs.Pieces.PieceLists.{newest_within, rows_at, rows_in};
ghost use Rattle.number_set.specs.Sets.{has};
ghost use Rattle.piece_claims.specs.Boards.{rows_limit};
ghost use Rattle.piece_claims.specs.Counts.{AreCounts};
ghost use Rattle.piece_claims.specs.Kept.{AreOfLive};
ghost use Rattle.piece_claims.specs.Lanes.{AreAsWide, AreLanes, AreOpen};
ghost use Rattle.piece_claims.specs.Out.{pairs_out};
ghost use Rattle.piece_claims.specs.Shelved.{IsFilled};

use crate::counts::Counts;
use crate::lanes::Lanes;
use crate::shelving::Shelving;
use cal_base::{NoMemory, Steps};
use cal_model::Piece;
use number_set::NumberSet;
use piece_index::{Added, Index};
use std::sync::ledger::Ledger;

/// The most rows that the pieces have in all.
const BUDGET: u64 = 4_000_000;

/// Puts a piece in as the newest, where the index has room for it.
pub(crate) fn put_in(index: &mut Index, piece: Piece) -> Result<(), NoMemory>
    requires none { rows_at piece.origin piece.window index.old.pieces ≡ None }
    requires room { length piece.rows + rows_in index.old.pieces ≤ index.old.budget }
    ensures ok { OnOk result (index.new ≡ record index.old { pieces = index.old.pieces ++ piece ∷ [] }) }
    ensures err { OnErr result (index.new ≡ index.old) }
{
    match index.add(piece) {
        Added::Done => Ok(()),
        Added::Full(_piece) => Err(NoMemory),
        Added::NoMemory(_piece) => Err(NoMemory),
    }
}

/// Drops the oldest piece: its rows are no longer counted, its pair is open again where it was, and it
/// goes from the shelf. Where there is no memory for that, there is no shelf from now on.
fn drop_oldest(
    index: &mut Index,
    shelving: &mut Shelving,
    counts: &mut Counts,
    lanes: &mut Lanes,
    first: i32,
    live: &NumberSet,
    out: &[(u64, i32)],
)
    requires some { 0 < length index.old.pieces }
    requires low { negsuc (2 ^ 30) ≤ℤ first }
    requires high { first ≤ℤ pos (2 ^ 30) }
    requires wide { (n : ℕ) → has live.now n ≡ true → AreLanes lanes.old (n + 1) }
    requires live { AreOfLive live.now index.old.pieces }
    requires open { AreOpen lanes.old first live.now index.old.pieces (pairs_out out.now) }
    requires counted { AreCounts counts.old first index.old.pieces }
    requires shelved { IfSome shelving.old.shelf (IsFilled shelving.old.filled index.old.pieces) }
    ensures pieces { (piece : Kept) × (index.old.pieces ≡ piece ∷ index.new.pieces) }
    ensures budget { index.new.budget ≡ index.old.budget }
    ensures wide { AreAsWide lanes.old lanes.new }
    ensures open { AreOpen lanes.new first live.now index.new.pieces (pairs_out out.now) }
    ensures counted { AreCounts counts.new first index.new.pieces }
    ensures shelved { IfSome shelving.new.shelf (IsFilled shelving.new.filled index.new.pieces) }
    ensures filled { shelving.new.filled ≤ shelving.old.filled }
{
    let Some(piece) = index.drop_oldest() else {
        return;
    };
    shelving.renew(index, piece.origin);
    counts.take(first, piece.window, piece.row_count());
    let alive = live.contains(piece.origin);
    lanes.refresh_at(first, alive, index, out, piece.origin, piece.window);
}

/// Drops the oldest pieces until no more rows are left than the pieces may have, with one step for
/// each.
pub(crate) fn make_room<L: Ledger>(
    index: &mut Index,
    shelving: &mut Shelving,
    counts: &mut Counts,
    lanes: &mut Lanes,
    first: i32,
    live: &NumberSet,
    out: &[(u64, i32)],
    steps: &mut Steps<L>,
)
    requires low { negsuc (2 ^ 30) ≤ℤ first }
    requires high { first ≤ℤ pos (2 ^ 30) }
    requires wide { (n : ℕ) → has live.now n ≡ true → AreLanes lanes.old (n + 1) }
    requires live { AreOfLive live.now index.old.pieces }
    requires open { AreOpen lanes.old first live.now index.old.pieces (pairs_out out.now) }
    requires counted { AreCounts counts.old first index.old.pieces }
    requires shelved { IfSome shelving.old.shelf (IsFilled shelving.old.filled index.old.pieces) }
    ensures pieces { index.new ≡ record index.old { pieces = newest_within rows_limit index.old.pieces } }
    ensures wide { AreAsWide lanes.old lanes.new }
    ensures open { AreOpen lanes.new first live.now index.new.pieces (pairs_out out.now) }
    ensures counted { AreCounts counts.new first index.new.pieces }
    ensures shelved { IfSome shelving.new.shelf (IsFilled shelving.new.filled index.new.pieces) }
    ensures filled { shelving.new.filled ≤ shelving.old.filled }
    ensures cost { steps.new + length index.new.pieces ≡ steps.old + length index.old.pieces }
{
    while index.rows() > BUDGET {
        drop_oldest(index, shelving, counts, lanes, first, live, out);
        steps.tick();
    }
}
