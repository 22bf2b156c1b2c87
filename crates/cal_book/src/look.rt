//! Looks: what requests that only read are answered from while the book goes on.
ghost use Rattle.std.specs.Prelude.{◌≡◌, ◌≢◌, ◌+◌, ◌≤◌, ◌≤ℤ◌, pos, true, IfOk};
ghost use Rattle.cal_model.specs.Replies.BareReplies.{bare_reply as reply_of_status};
ghost use Rattle.cal_model.specs.Requests.BookableRequests.{IsBookable};
ghost use Rattle.cal_model.specs.Serving.EventReplies.{reply_to};
ghost use Rattle.cal_model.specs.Serving.Outcomes.{is_reading};
ghost use Rattle.cal_model.specs.Sight.LookingAlike.{LookAlike};
ghost use Rattle.cal_model.specs.State.ServerState.{ServerState};
ghost use Rattle.cal_book.specs.Answering.ReadingCost.{reading_cost};
ghost use Rattle.piece_shelf.specs.Shelves.{held_on};
ghost use Rattle.request_checks.specs.Sightings.{AreShort};

use crate::reading::read_shown;
use cal_base::{Arc, List, NoMemory, ReservedList, Steps};
use cal_model::view::Pieces;
use cal_model::{Event, Reply, Row, bare_reply};
use collections::ShownView;
use piece_shelf::Shelf;
use privileges::Users;
use std::alloc::Global;
use std::marker::Model;
use std::sync::ledger::Ledger;

/// The state of the server with its users, and pieces of its objects, as they were at one journal.
/// What becomes of the book later does not show here.
#[derive(Drop)]
pub struct Look {
    users: Arc<Users>,
    shown: ShownView,
    shelf: Shelf,
    /// The greatest moment that the book had counted.
    latest: i64,
}

impl Model for Look {
    ghost use Rattle.cal_book.specs.Looks.{Sight, IsLook};
    ghost use Rattle.piece_shelf.specs.Shelves.{held_on};

    ghost Value = { Sight };

    ghost view = { λ l. record { users = l.users; kept = l.shown; shelf = l.shelf; latest = l.latest } };

    ghost invariant = { λ l. IsLook l.users l.shown (held_on l.shelf) };
}

impl Look {
    ghost use Rattle.cal_book.specs.Looks.{IsLook, look_directory, look_state, look_origins, look_held};

    /// The look of what is shown and held.
    pub(crate) fn of(users: Arc<Users>, shown: ShownView, shelf: Shelf, latest: i64) -> Look
        requires { IsLook users shown (held_on shelf) }
        ensures { result ≡ record { users = users; kept = shown; shelf = shelf; latest = latest } }
    {
        Look {
            users,
            shown,
            shelf,
            latest,
        }
    }

    /// The reply to a request that only reads, in the state of the look; 503 for want of memory. It goes
    /// by what its caller sees of that state, and by nothing else.
    pub fn answer<L: Ledger>(&self, alloc: Global, event: &Event, steps: &mut Steps<L>) -> Reply
        requires reading { is_reading event.now.request.method ≡ true }
        requires bookable { IsBookable self.now.users event.now.who event.now.request }
        requires from_1970 { pos 0 ≤ℤ event.now.moment }
        requires to_9999 { event.now.moment ≤ℤ pos 253_402_300_799 }
        ensures reply { result.status ≢ 503 → result ≡ reply_to (look_directory self.now) (look_state self.now) event.now }
        ensures busy { result.status ≡ 503 → result ≡ reply_of_status 503 }
        ensures known { result.status ≢ 501 }
        ensures alike { result.status ≢ 503 → (other : ServerState) → LookAlike (look_directory self.now) (look_state self.now) other event.now.who → result ≡ reply_to (look_directory self.now) other event.now }
        ensures steps { steps.new ≤ steps.old + reading_cost (look_held self.now) (look_origins self.now) (look_directory self.now) (look_state self.now) event.now }
    {
        match self.read(alloc, event, steps) {
            Ok(reply) => reply,
            Err(NoMemory) => bare_reply(alloc, 503),
        }
    }

    /// The greatest moment that the book had counted, in seconds since 1970.
    pub fn latest(&self) -> i64
        ensures { result ≡ self.now.latest }
    {
        self.latest
    }

    /// Names of users and groups are short, so a body that tells which privilege is lacking fits the
    /// room for it.
    fn names_are_short(&self)
        ensures { AreShort (look_directory self.now) }
    {
        let _count = self.users.len();
    }

    /// The reply to a request that only reads.
    fn read<L: Ledger>(
        &self,
        alloc: Global,
        event: &Event,
        steps: &mut Steps<L>,
    ) -> Result<Reply, NoMemory>
        requires reading { is_reading event.now.request.method ≡ true }
        requires bookable { IsBookable self.now.users event.now.who event.now.request }
        requires from_1970 { pos 0 ≤ℤ event.now.moment }
        requires to_9999 { event.now.moment ≤ℤ pos 253_402_300_799 }
        ensures reply { IfOk result (λ reply. reply ≡ reply_to (look_directory self.now) (look_state self.now) event.now) }
        ensures steps { steps.new ≤ steps.old + reading_cost (look_held self.now) (look_origins self.now) (look_directory self.now) (look_state self.now) event.now }
    {
        self.names_are_short();
        let mut room = ReservedList::new(alloc);
        read_shown(alloc, &self.shown, self, event, &mut room, steps)
    }
}

/// The list that is shared.
fn list_of(rows: &Arc<List<Row>>) -> &List<Row>
    ensures { result.now ≡ rows.now }
{
    rows
}

impl Pieces for Look {
    ghost use Rattle.cal_book.specs.Looks.{look_held};

    ghost held = { look_held };

    fn rows(&self, origin: u64, window: i32) -> Option<&List<Row>> {
        match self.shelf.get(origin, window) {
            Some(rows) => Some(list_of(rows)),
            None => None,
        }
    }
}
