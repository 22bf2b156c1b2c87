//! The step of the book, and of a look at it, for requests that only read: `reads` has their replies.
ghost use Rattle.std.specs.Prelude.{◌≡◌, ◌+◌, ◌≤◌, ◌<◌, ◌≤ℤ◌, ℕ, List, length, pos, true, [], IfOk, IsTrue};
ghost use Rattle.cal_model.specs.History.Origins.{Origins, AreLive};
ghost use Rattle.cal_model.specs.Paths.TargetPaths.{is_path};
ghost use Rattle.cal_model.specs.Pieces.PieceLists.{rows_at};
ghost use Rattle.cal_model.specs.Requests.BookableRequests.{IsBookable};
ghost use Rattle.cal_model.specs.Requests.ContentBounds.{ZoneIsShort};
ghost use Rattle.cal_model.specs.Requests.MethodContents.{Suits};
ghost use Rattle.cal_model.specs.Requests.Methods.{has_method};
ghost use Rattle.cal_model.specs.Serving.EventReplies.{reply_to};
ghost use Rattle.cal_model.specs.Serving.Outcomes.{is_reading};
ghost use Rattle.cal_book.specs.Answering.ReadingCost.{reading_cost};
ghost use Rattle.dav_reports.specs.CalendarObjects.{AreHeldRight};
ghost use Rattle.request_checks.specs.Sightings.{AreShort};
ghost use Rattle.cal_book.specs.Keeping.KeptHistories.{users_in, directory_in};
ghost use Rattle.cal_book.specs.EventSteps.{state_behind, stepped};
ghost use Rattle.cal_book.specs.UpToDate.{IsUpToDate, work_with};

use crate::history::History;
use crate::reads::answer_reading;
use cal_base::{NoMemory, ReservedList, Steps};
use cal_model::view::Pieces;
use cal_model::{Event, Reply, Seen};
use object_walk::Walks;
use piece_claims::Claims;
use std::alloc::Global;
use std::sync::ledger::Ledger;

/// Names of users and groups are short, so a body that tells which privilege is lacking fits the
/// room for it.
pub(crate) fn names_are_short(history: &History)
    ensures { AreShort (directory_in history.now) }
{
    let _count = history.users().len();
}

/// The reply to a request that only reads, by what a view shows and what pieces hold.
pub(crate) fn read_shown<V: Walks, P: Pieces, L: Ledger>(
    alloc: Global,
    view: &V,
    pieces: &P,
    event: &Event,
    room: &mut ReservedList<u8>,
    steps: &mut Steps<L>,
) -> Result<Reply, NoMemory>
    requires reading { is_reading event.now.request.method ≡ true }
    requires user { event.now.who < length (V.directory view.now).names }
    requires names { AreShort (V.directory view.now) }
    requires zone { ZoneIsShort event.now.request.content }
    requires suits { Suits event.now.request.method event.now.request.content }
    requires allowed { IsTrue (has_method event.now.request.path event.now.request.method) }
    requires path { IsTrue (is_path event.now.request.path) }
    requires from_1970 { pos 0 ≤ℤ event.now.moment }
    requires to_9999 { event.now.moment ≤ℤ pos 253_402_300_799 }
    requires right { (home : ℕ) (calendar : List ℕ) → AreHeldRight (P.held pieces.now) (V.origins view.now) (V.state view.now) home calendar }
    requires room { room.old.items ≡ [] }
    ensures reply { IfOk result (λ reply. reply ≡ reply_to (V.directory view.now) (V.state view.now) event.now) }
    ensures steps { steps.new ≤ steps.old + reading_cost (P.held pieces.now) (V.origins view.now) (V.directory view.now) (V.state view.now) event.now }
    ensures empty { room.new.items ≡ [] }
{
    let seen = Seen {
        view,
        who: event.who,
    };
    let answer = answer_reading(alloc, &seen, pieces, event, room, steps);
    let Seen {
        view: _view,
        who: _who,
    } = seen;
    answer
}

/// The reply to a request that only reads.
pub(crate) fn read<L: Ledger>(
    alloc: Global,
    history: &History,
    claims: &Claims,
    event: &Event,
    room: &mut ReservedList<u8>,
    steps: &mut Steps<L>,
) -> Result<Reply, NoMemory>
    requires kept { IsUpToDate history.now.journal claims.now }
    requires reading { is_reading event.now.request.method ≡ true }
    requires bookable { IsBookable (users_in history.now) event.now.who event.now.request }
    requires from_1970 { pos 0 ≤ℤ event.now.moment }
    requires to_9999 { event.now.moment ≤ℤ pos 253_402_300_799 }
    requires room { room.old.items ≡ [] }
    ensures reply { IfOk result (λ reply. reply ≡ reply_to (directory_in history.now) (state_behind (users_in history.now) history.now.journal) event.now) }
    ensures work { work_with history.now.journal claims.now ≡ stepped (users_in history.now) event.now (work_with history.now.journal claims.now) }
    ensures steps { (origins : Origins) → AreLive history.now.journal origins → steps.new ≤ steps.old + reading_cost (λ origin window. rows_at origin window claims.now.pieces) origins (directory_in history.now) (state_behind (users_in history.now) history.now.journal) event.now }
    ensures empty { room.new.items ≡ [] }
{
    names_are_short(history);
    let _entries = history.entries();
    let view = history.view();
    read_shown(alloc, &view, claims, event, room, steps)
}
