//! Pieces that are published.
ghost use Rattle.std.specs.Prelude.{◌≡◌, ◌≢◌, ◌+◌, ◌≤◌, true, false, Some};
ghost use Rattle.cal_model.specs.Pieces.PieceLists.{rows_at};
ghost use Rattle.piece_claims.specs.Boards.{gone_for};
ghost use Rattle.cal_book.specs.Keeping.KeptHistories.{origins_in};
ghost use Rattle.cal_book.specs.ClaimsOut.{IsMadeAt};
ghost use Rattle.cal_book.specs.Publishing.{IsPublished, piece_of};
ghost use Rattle.cal_book.specs.UpToDate.{IsUpToDate, work_with};

use crate::claims::{Expanded, Publish};
use crate::ending::origin_at;
use crate::history::History;
use cal_base::Steps;
use cal_model::Stored;
use piece_claims::Claims;
use std::sync::ledger::Ledger;

/// The origin of what is at an object's path now.
fn origin_now(history: &History, stored: &Stored) -> Option<u64>
    ensures { result ≡ origins_in history.now stored.now.path.home stored.now.path.calendar stored.now.path.object }
{
    origin_at(
        history,
        stored.path.home,
        stored.path.calendar.as_slice(),
        stored.path.object.as_slice(),
    )
}

/// Whether what is at a path now is of an origin.
fn is_origin(now: Option<u64>, origin: u64) -> bool
    ensures held { result ≡ true → now ≡ Some origin }
    ensures other { result ≡ false → now ≢ Some origin }
{
    match now {
        Some(number) => number == origin,
        None => false,
    }
}

/// Ends a claim and keeps its rows, if its object is still there, with at most one step for each piece
/// that goes by age.
pub(crate) fn publish<L: Ledger>(
    history: &History,
    claims: &mut Claims,
    expanded: Expanded,
    steps: &mut Steps<L>,
) -> Publish
    requires kept { IsUpToDate history.now.journal claims.old }
    requires of_book { IsMadeAt history.now.journal expanded.claim.origin expanded.claim.stored }
    ensures published { IsPublished expanded (work_with history.now.journal claims.old) (work_with history.now.journal claims.new) result }
    ensures found { result ≡ Publish.Published → rows_at expanded.claim.origin expanded.claim.window claims.new.pieces ≡ Some expanded.rows }
    ensures kept { IsUpToDate history.now.journal claims.new }
    ensures room { claims.new.room ≡ claims.old.room }
    ensures steps { steps.new ≤ steps.old + gone_for (piece_of expanded) claims.old.pieces }
{
    let _entries = history.entries();
    let Expanded { claim, rows } = expanded;
    let now = origin_now(history, &claim.stored);
    if !is_origin(now, claim.origin) {
        claims.abandon(claim.origin, claim.window);
        return Publish::Stale { now };
    }
    match claims.publish(claim.origin, claim.window, rows, steps) {
        Ok(()) => Publish::Published,
        Err(_) => Publish::NoMemory,
    }
}
