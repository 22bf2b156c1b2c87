//! Objects that a change ends, and their pieces.
ghost use Rattle.std.specs.Prelude.{◌≡◌, ◌+◌, ◌<◌, ◌≤◌, length, Some};
ghost use Rattle.std.specs.Option.{ForSome};
ghost use Rattle.cal_model.specs.History.KeptChanges.{kept_change};
ghost use Rattle.cal_model.specs.History.LiveObjects.{Placed, is_in_calendar};
ghost use Rattle.cal_book.specs.Keeping.KeptHistories.{origins_in};
ghost use Rattle.cal_book.specs.EndedObjects.{replaced_by, makes_object, with_entry, without_object, IsWithout};
ghost use Rattle.cal_book.specs.UpToDate.{IsUpToDate};

use crate::history::History;
use cal_base::Steps;
use cal_model::Change;
use cal_model::view::View;
use object_walk::Walks;
use piece_claims::Claims;
use std::sync::ledger::Ledger;

/// The origin of the object at a place.
pub(crate) fn origin_at(history: &History, home: u32, calendar: &[u8], name: &[u8]) -> Option<u64>
    ensures { result ≡ origins_in history.now home calendar.now name.now }
{
    match history.view().object(home, calendar, name) {
        Some((_, origin)) => Some(origin),
        None => None,
    }
}

/// The origin of the object that a change replaces.
pub(crate) fn replaced(history: &History, change: &Change) -> Option<u64>
    ensures { result ≡ replaced_by (origins_in history.now) (kept_change change.now) }
{
    match change {
        Change::Put(stored) => origin_at(
            history,
            stored.path.home,
            stored.path.calendar.as_slice(),
            stored.path.object.as_slice(),
        ),
        _ => None,
    }
}

/// Whether a change makes an object.
pub(crate) fn makes(change: &Change) -> bool
    ensures { result ≡ makes_object (kept_change change.now) }
{
    matches!(change, Change::Put(_))
}

/// Tells of one entry more.
pub(crate) fn note(claims: &mut Claims, made: bool)
    requires { 0 < claims.old.room }
    ensures { claims.new ≡ with_entry made claims.old }
{
    if made {
        claims.made();
    } else {
        claims.changed();
    }
}

/// Ends an object, if there is one, with one step for each of its pieces.
pub(crate) fn end<L: Ledger>(claims: &mut Claims, origin: Option<u64>, steps: &mut Steps<L>)
    requires { ForSome origin (λ n. n < length claims.old.live) }
    ensures board { claims.new ≡ without_object origin claims.old }
    ensures steps { steps.new + length claims.new.pieces ≡ steps.old + length claims.old.pieces }
{
    if let Some(origin) = origin {
        claims.ended(origin, steps);
    }
}

/// Ends the objects of a calendar one after another, with one step for each of their pieces.
pub(crate) fn end_all<L: Ledger>(
    history: &History,
    claims: &mut Claims,
    home: u32,
    calendar: &[u8],
    steps: &mut Steps<L>,
)
    requires kept { IsUpToDate history.now.journal claims.old }
    ensures board { IsWithout history.now.journal (λ (placed : Placed). is_in_calendar placed home calendar.now) claims.old claims.new }
    ensures steps { steps.new + length claims.new.pieces ≡ steps.old + length claims.old.pieces }
{
    let _entries = history.entries();
    let view = history.view();
    'walk: for (_, origin) in view.objects(home, calendar) {
        claims.ended(origin, steps);
    }
}
