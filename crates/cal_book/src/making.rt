//! Changes that are made.
ghost use Rattle.std.specs.Prelude.{◌≡◌, ◌+◌, ◌<◌, ◌≤◌, ◌∷◌, ◌++◌, [], false, length, Some, IsSome, OnOk, OnErr};
ghost use Rattle.cal_model.specs.History.Journal.{entry_of};
ghost use Rattle.cal_model.specs.History.KeptChanges.{kept_change, is_deletion};
ghost use Rattle.cal_model.specs.History.RightPieces.{live_pieces};
ghost use Rattle.cal_model.specs.State.Changes.{delete_object as object_deleted, delete_calendar as calendar_deleted};
ghost use Rattle.cal_model.specs.State.ServerState.{calendar_at, octets_at};
ghost use Rattle.cal_book.specs.Keeping.KeptHistories.{IsNext, users_in, directory_in, state_in};
ghost use Rattle.cal_book.specs.UpToDate.{IsUpToDate};

use crate::ending::{end, end_all, makes, note, origin_at, replaced};
use crate::history::{Asked, History};
use cal_base::{NoMemory, Steps};
use cal_journal::Entry;
use cal_model::{Change, Event};
use piece_claims::Claims;
use std::sync::ledger::Ledger;

/// The entry of a change that an event asks for.
fn entry(event: &Event, change: Change, status: u16) -> Entry
    ensures { result ≡ record { session = event.now.session; who = event.now.who; moment = event.now.moment; change = change; status = status } }
{
    Entry {
        session: event.session,
        who: event.who,
        moment: event.moment,
        change,
        status,
    }
}

/// Makes a change that is no deletion. The pieces of the object that it replaces go, with one step for
/// each. Without memory nothing is changed.
pub(crate) fn make<L: Ledger>(
    history: &mut History,
    claims: &mut Claims,
    change: Change,
    event: &Event,
    status: u16,
    steps: &mut Steps<L>,
) -> Result<(), NoMemory>
    requires kept { IsUpToDate history.old.journal claims.old }
    requires room { 1 ≤ history.old.room }
    requires places { 0 < claims.old.room }
    requires next { IsNext (directory_in history.old) (state_in history.old) (entry_of event.now (kept_change change) status) }
    requires adds { is_deletion (kept_change change) ≡ false }
    ensures users { users_in history.new ≡ users_in history.old }
    ensures entries { OnOk result (history.new.journal ≡ history.old.journal ++ entry_of event.now (kept_change change) status ∷ []) }
    ensures pieces { OnOk result (claims.new.pieces ≡ live_pieces history.new.journal claims.old.pieces) }
    ensures latest { claims.new.latest ≡ claims.old.latest }
    ensures out { claims.new.out ≡ claims.old.out }
    ensures kept { IsUpToDate history.new.journal claims.new }
    ensures steps { steps.new + length claims.new.pieces ≡ steps.old + length claims.old.pieces }
    ensures err { OnErr result ((history.new.journal ≡ history.old.journal) × (claims.new ≡ claims.old)) }
{
    let _entries = history.entries();
    let origin = replaced(history, &change);
    let made = makes(&change);
    history.accept(entry(event, change, status))?;
    end(claims, origin, steps);
    note(claims, made);
    Ok(())
}

/// Who asks for what an event asks for.
fn asked(event: &Event) -> Asked
    ensures { result ≡ record { session = event.now.session; who = event.now.who; moment = event.now.moment } }
{
    Asked {
        session: event.session,
        who: event.who,
        moment: event.moment,
    }
}

/// Deletes an object. Its pieces go, with one step for each. Needs no memory.
pub(crate) fn delete_object<L: Ledger>(
    history: &mut History,
    claims: &mut Claims,
    home: u32,
    calendar: &[u8],
    name: &[u8],
    event: &Event,
    steps: &mut Steps<L>,
)
    requires kept { IsUpToDate history.old.journal claims.old }
    requires room { 1 ≤ history.old.room }
    requires places { 0 < claims.old.room }
    requires there { IsSome (octets_at (state_in history.old) home calendar.now name.now) }
    requires next { IsNext (directory_in history.old) (state_in history.old) (entry_of event.now (object_deleted home calendar.now name.now) 204) }
    ensures users { users_in history.new ≡ users_in history.old }
    ensures entries { history.new.journal ≡ history.old.journal ++ entry_of event.now (object_deleted home calendar.now name.now) 204 ∷ [] }
    ensures pieces { claims.new.pieces ≡ live_pieces history.new.journal claims.old.pieces }
    ensures latest { claims.new.latest ≡ claims.old.latest }
    ensures out { claims.new.out ≡ claims.old.out }
    ensures kept { IsUpToDate history.new.journal claims.new }
    ensures steps { steps.new + length claims.new.pieces ≡ steps.old + length claims.old.pieces }
{
    let _entries = history.entries();
    let origin = origin_at(history, home, calendar, name);
    history.delete_object(home, calendar, name, asked(event));
    end(claims, origin, steps);
    note(claims, false);
}

/// Deletes a calendar with its objects. Their pieces go, with one step for each. Needs no memory.
pub(crate) fn delete_calendar<L: Ledger>(
    history: &mut History,
    claims: &mut Claims,
    home: u32,
    name: &[u8],
    event: &Event,
    steps: &mut Steps<L>,
)
    requires kept { IsUpToDate history.old.journal claims.old }
    requires room { 1 ≤ history.old.room }
    requires places { 0 < claims.old.room }
    requires there { IsSome (calendar_at (state_in history.old) home name.now) }
    requires next { IsNext (directory_in history.old) (state_in history.old) (entry_of event.now (calendar_deleted home name.now) 204) }
    ensures users { users_in history.new ≡ users_in history.old }
    ensures entries { history.new.journal ≡ history.old.journal ++ entry_of event.now (calendar_deleted home name.now) 204 ∷ [] }
    ensures pieces { claims.new.pieces ≡ live_pieces history.new.journal claims.old.pieces }
    ensures latest { claims.new.latest ≡ claims.old.latest }
    ensures out { claims.new.out ≡ claims.old.out }
    ensures kept { IsUpToDate history.new.journal claims.new }
    ensures steps { steps.new + length claims.new.pieces ≡ steps.old + length claims.old.pieces }
{
    end_all(history, claims, home, name, steps);
    history.delete_calendar(home, name, asked(event));
    note(claims, false);
}
