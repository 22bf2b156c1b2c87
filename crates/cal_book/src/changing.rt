//! The book's own steps for requests that change something: `changes` decides them, and here they are
//! made.
ghost use Rattle.std.specs.Prelude.{◌≡◌, ◌+◌, ◌<◌, ◌≤◌, [], false, length, IfOk, IsOk, OnOk, OnErr};
ghost use Rattle.cal_model.specs.History.RightPieces.{live_pieces};
ghost use Rattle.cal_model.specs.Requests.BookableRequests.{IsBookable};
ghost use Rattle.cal_model.specs.Serving.EventReplies.{reply_to};
ghost use Rattle.cal_model.specs.Serving.Outcomes.{is_reading};
ghost use Rattle.cal_book.specs.Checking.Checks.{IsChecked, IsDecided, IsMade, IsDeletion};
ghost use Rattle.cal_book.specs.Keeping.KeptHistories.{users_in, directory_in, state_in};
ghost use Rattle.cal_book.specs.EventSteps.{journal_after, state_behind, stepped};
ghost use Rattle.cal_book.specs.UpToDate.{IsUpToDate, work_with};

use crate::changes::{ChangeCheck, check_change};
use crate::history::History;
use crate::making::{delete_calendar, delete_object, make};
use crate::reading::names_are_short;
use cal_base::{NoMemory, ReservedList, Steps};
use cal_model::{Change, Event, Method, Path, Reply, Seen, bare_reply};
use piece_claims::Claims;
use preconditions::PutReading;
use std::alloc::Global;
use std::sync::ledger::Ledger;

/// What becomes of a request that changes something. Of a DELETE that is known without memory, where
/// there is the room.
fn check(
    alloc: Global,
    history: &History,
    event: &Event,
    reading: &mut Option<PutReading>,
    room: &mut ReservedList<u8>,
) -> ChangeCheck
    requires changing { is_reading event.now.request.method ≡ false }
    requires bookable { IsBookable (users_in history.now) event.now.who event.now.request }
    requires room { room.old.items ≡ [] }
    ensures checked { IsChecked (directory_in history.now) (state_in history.now) event.now result }
    ensures decided { event.now.request.method ≡ Method.Delete → 4096 ≤ room.old.room → IsDecided result }
    ensures empty { room.new.items ≡ [] }
{
    names_are_short(history);
    let _entries = history.entries();
    let view = history.view();
    let seen = Seen {
        view: &view,
        who: event.who,
    };
    let checked = check_change(alloc, &seen, event, reading, room);
    let Seen {
        view: _view,
        who: _who,
    } = seen;
    checked
}

/// Makes a change that is accepted and no deletion.
fn enter<L: Ledger>(
    history: &mut History,
    claims: &mut Claims,
    change: Change,
    reply: &Reply,
    event: &Event,
    steps: &mut Steps<L>,
) -> Result<(), NoMemory>
    requires kept { IsUpToDate history.old.journal claims.old }
    requires room { 1 ≤ history.old.room }
    requires places { 0 < claims.old.room }
    requires bookable { IsBookable (users_in history.old) event.now.who event.now.request }
    requires made { IsMade (directory_in history.old) (state_in history.old) event.now change reply.now }
    ensures users { users_in history.new ≡ users_in history.old }
    ensures entered { OnOk result (history.new.journal ≡ journal_after (users_in history.old) event.now history.old.journal) }
    ensures pieces { OnOk result (claims.new.pieces ≡ live_pieces history.new.journal claims.old.pieces) }
    ensures latest { claims.new.latest ≡ claims.old.latest }
    ensures out { claims.new.out ≡ claims.old.out }
    ensures kept { IsUpToDate history.new.journal claims.new }
    ensures steps { steps.new + length claims.new.pieces ≡ steps.old + length claims.old.pieces }
    ensures err { OnErr result ((history.new.journal ≡ history.old.journal) × (claims.new ≡ claims.old)) }
{
    let _entries = history.entries();
    make(history, claims, change, event, reply.status, steps)
}

/// Deletes what the path of a request names, which is there. Needs no memory.
fn delete<L: Ledger>(
    history: &mut History,
    claims: &mut Claims,
    home: u32,
    event: &Event,
    steps: &mut Steps<L>,
)
    requires kept { IsUpToDate history.old.journal claims.old }
    requires room { 1 ≤ history.old.room }
    requires places { 0 < claims.old.room }
    requires bookable { IsBookable (users_in history.old) event.now.who event.now.request }
    requires deletes { IsDeletion (directory_in history.old) (state_in history.old) event.now home }
    ensures users { users_in history.new ≡ users_in history.old }
    ensures entered { history.new.journal ≡ journal_after (users_in history.old) event.now history.old.journal }
    ensures pieces { claims.new.pieces ≡ live_pieces history.new.journal claims.old.pieces }
    ensures latest { claims.new.latest ≡ claims.old.latest }
    ensures out { claims.new.out ≡ claims.old.out }
    ensures kept { IsUpToDate history.new.journal claims.new }
    ensures steps { steps.new + length claims.new.pieces ≡ steps.old + length claims.old.pieces }
{
    let _entries = history.entries();
    match &event.request.path {
        Path::Object(_, calendar, name) => delete_object(
            history,
            claims,
            home,
            calendar.as_slice(),
            name.as_slice(),
            event,
            steps,
        ),
        Path::Calendar(_, name) => {
            delete_calendar(history, claims, home, name.as_slice(), event, steps)
        }
        _ => unreachable!(),
    }
}

/// Does what a check says, and gives the reply.
fn carry_out<L: Ledger>(
    alloc: Global,
    history: &mut History,
    claims: &mut Claims,
    checked: ChangeCheck,
    event: &Event,
    steps: &mut Steps<L>,
) -> Result<Reply, NoMemory>
    requires kept { IsUpToDate history.old.journal claims.old }
    requires room { 1 ≤ history.old.room }
    requires places { 0 < claims.old.room }
    requires changing { is_reading event.now.request.method ≡ false }
    requires bookable { IsBookable (users_in history.old) event.now.who event.now.request }
    requires checked { IsChecked (directory_in history.old) (state_behind (users_in history.old) history.old.journal) event.now checked }
    ensures users { users_in history.new ≡ users_in history.old }
    ensures reply { IfOk result (λ reply. reply ≡ reply_to (directory_in history.old) (state_behind (users_in history.old) history.old.journal) event.now) }
    ensures work { OnOk result (work_with history.new.journal claims.new ≡ stepped (users_in history.old) event.now (work_with history.old.journal claims.old)) }
    ensures kept { IsUpToDate history.new.journal claims.new }
    ensures steps { steps.new + length claims.new.pieces ≡ steps.old + length claims.old.pieces }
    ensures busy { OnErr result (work_with history.new.journal claims.new ≡ work_with history.old.journal claims.old) }
    ensures decided { event.now.request.method ≡ Method.Delete → IsDecided checked → IsOk result }
{
    let _entries = history.entries();
    match checked {
        ChangeCheck::Made(change, reply) => {
            match enter(history, claims, change, &reply, event, steps) {
                Ok(()) => Ok(reply),
                Err(NoMemory) => Err(NoMemory),
            }
        }
        ChangeCheck::Deletes(home) => {
            delete(history, claims, home, event, steps);
            Ok(bare_reply(alloc, 204))
        }
        ChangeCheck::Refused(reply) => Ok(reply),
        ChangeCheck::NoMemory => Err(NoMemory),
    }
}

/// The reply to a request that changes something, once its change is made. Pieces of objects that it
/// ends go, with one step for each. Without memory nothing is changed.
pub(crate) fn change<L: Ledger>(
    alloc: Global,
    history: &mut History,
    claims: &mut Claims,
    room: &mut ReservedList<u8>,
    event: &Event,
    reading: &mut Option<PutReading>,
    steps: &mut Steps<L>,
) -> Result<Reply, NoMemory>
    requires kept { IsUpToDate history.old.journal claims.old }
    requires places { 1 ≤ history.old.room }
    requires flags { 0 < claims.old.room }
    requires changing { is_reading event.now.request.method ≡ false }
    requires bookable { IsBookable (users_in history.old) event.now.who event.now.request }
    requires room { room.old.items ≡ [] }
    ensures users { users_in history.new ≡ users_in history.old }
    ensures reply { IfOk result (λ reply. reply ≡ reply_to (directory_in history.old) (state_behind (users_in history.old) history.old.journal) event.now) }
    ensures work { OnOk result (work_with history.new.journal claims.new ≡ stepped (users_in history.old) event.now (work_with history.old.journal claims.old)) }
    ensures kept { IsUpToDate history.new.journal claims.new }
    ensures steps { steps.new + length claims.new.pieces ≡ steps.old + length claims.old.pieces }
    ensures busy { OnErr result (work_with history.new.journal claims.new ≡ work_with history.old.journal claims.old) }
    ensures decided { event.now.request.method ≡ Method.Delete → 4096 ≤ room.old.room → IsOk result }
    ensures empty { room.new.items ≡ [] }
{
    let _entries = history.entries();
    let checked = check(alloc, history, event, reading, room);
    carry_out(alloc, history, claims, checked, event, steps)
}
