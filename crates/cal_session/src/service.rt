//! Sessions over the book.
ghost use Rattle.std.specs.Prelude.{◌≡◌, ◌≤◌, false, [], Some, IfOk};
ghost use Rattle.cal_model.specs.History.Journal.{IsLegal};
ghost use Rattle.cal_model.specs.State.ServerState.{directory_of};
ghost use Rattle.cal_session.specs.SessionStates.{environment_of, session_state};
ghost use Rattle.cal_session.specs.Sessions.{HasServed};

use crate::served::{Ended, OnEnd};
use crate::session::serve_on;
use cal_base::{Arc, Clock, Link, NoMemory};
use cal_book::Book;
use privileges::Users;
use std::alloc::Global;
use std::marker::Model;
use std::sync::Wait;
use turn_lock::{Pass, TurnLock};

/// The book under its lock. Contracts see which lock it is.
#[derive(Drop)]
pub struct Service {
    lock: TurnLock<Book>,
}

impl Model for Service {
    ghost use Rattle.atomic_table.specs.Seated.{TableId, table_id_coded};

    ghost Value = { TableId };

    ghost coded = { table_id_coded };

    ghost view = { λ s. s.lock };
}

impl Service {
    /// A service with the book at its start, and the first pass.
    pub fn start(alloc: Global, users: Arc<Users>) -> Result<(Service, Pass<Book>), NoMemory>
        ensures { IfOk result (λ r. r.1 ≡ record { lock = r.0; number = 0; base = Some users; seen = []; looks = []; kin = []; gone = []; holds_turn = false }) }
    {
        let book = Book::start(alloc, users)?;
        match TurnLock::new(alloc, book) {
            Ok((lock, pass)) => Ok((Service { lock }, pass)),
            Err(_) => Err(NoMemory),
        }
    }

    /// The lock round the book.
    pub fn lock(&self) -> &TurnLock<Book>
        ensures { result.now ≡ self.now }
    {
        &self.lock
    }
}

/// Serves a connection, as `serve_on` does with any desk: a book is never broken.
pub fn serve_connection<L: Link, C: Clock, R: Wait>(
    rt: &R,
    alloc: Global,
    service: &Service,
    pass: &mut Pass<Book>,
    users: &Users,
    link: &mut L,
    clock: &mut C,
) -> Ended
    requires same { pass.old.lock ≡ service.now }
    requires free { pass.old.holds_turn ≡ false }
    requires users { pass.old.base ≡ Some users.now }
    ensures pass { pass.new ≡ record pass.old { seen = pass.new.seen; looks = pass.new.looks } }
    ensures session { HasServed (environment_of C.Clock users.now clock.old) (session_state L.Link pass.old link.old) (session_state L.Link pass.new link.new) result }
    ensures legal { IsLegal (directory_of users.now) pass.new.seen }
    ensures clock { C.moment clock.new ≡ C.moment clock.old }
    ensures never_falls { L.faults link.old ≤ L.faults link.new }
{
    match serve_on(rt, alloc, service.lock(), pass, users, link, clock) {
        OnEnd::Ended(ended) => ended,
        OnEnd::Broken(never, _) => match never {},
    }
}
