//! One session, over any desk.
ghost use Rattle.std.specs.Prelude.{◌≡◌, ◌≤◌, ◌<◌, ℕ, List, [], false, length, Some, IfOk, OnOk, IsNone};
ghost use Rattle.cal_model.specs.History.Journal.{Entry, IsLegal};
ghost use Rattle.cal_model.specs.State.ServerState.{directory_of};
ghost use Rattle.cal_model.specs.Streams.StreamRequests.{front};
ghost use Rattle.cal_model.specs.Streams.WireLimits.{request_limit};
ghost use Rattle.cal_model.specs.Users.UsersFile.{Users};
ghost use Rattle.cal_session.specs.SessionStates.{Environment, SessionState, environment_of, session_state};
ghost use Rattle.cal_session.specs.Sessions.{HasServedOn};
ghost use Rattle.cal_session.specs.UnderWay.{IsUnderWay, IsWaiting, GoesOnOrEnds, EndsAtEnd, EndsIn, StopsSo, IsEndWith};
ghost use Rattle.http_wire.specs.Wires.{Stands};
ghost use Rattle.turn_lock.specs.Passes.{PassState};

use crate::answering::{Stop, answer_due};
use crate::context::Context;
use crate::counts::Counts;
use crate::served::{Ended, How, OnEnd, Served};
use crate::turn::tell_at_end;
use cal_base::{Clock, Gate, Link, NoMemory, OpenGate, ReservedList, Steps};
use cal_book::{Desk, journals_are_told};
use http_wire::{REQUEST_LIMIT, Wire};
use privileges::Users;
use std::alloc::Global;
use std::marker::Brand;
use std::sync::Wait;
use std::sync::ledger::{Blank, Ledger};
use turn_lock::{Pass, TurnLock};

/// How many octets are asked for at a time.
const PIECE: usize = 16_384;

/// Serves a connection: reads its requests, and answers each by a turn of its own at the desk, until
/// the connection ends. A request is read before its turn and its reply is written after it. One that
/// only reads is answered from a look at the desk, once the turn was given back, where there is one.
///
/// The replies are those of the users' one history, each at the place that its turn tells, or 503 for
/// want of memory; what the session changed stands there once each, under the pass's number. What was
/// written is the replies in order. After a write that failed all or a part of the last one is
/// missing, and for want of memory it may be. The desk's fault comes back where the desk broke when
/// it was asked.
pub fn serve_on<B: Desk, L: Link, C: Clock, R: Wait>(
    rt: &R,
    alloc: Global,
    lock: &TurnLock<B>,
    pass: &mut Pass<B>,
    users: &Users,
    link: &mut L,
    clock: &mut C,
) -> OnEnd<B::Fault>
    requires same { pass.old.lock ≡ lock.now }
    requires free { pass.old.holds_turn ≡ false }
    requires users { pass.old.base ≡ Some users.now }
    ensures pass { pass.new ≡ record pass.old { seen = pass.new.seen; looks = pass.new.looks } }
    ensures session { HasServedOn (environment_of C.Clock users.now clock.old) (session_state L.Link pass.old link.old) (session_state L.Link pass.new link.new) result }
    ensures legal { IsLegal (directory_of users.now) pass.new.seen }
    ensures clock { C.moment clock.new ≡ C.moment clock.old }
    ensures never_falls { L.faults link.old ≤ L.faults link.new }
{
    serve_behind(rt, alloc, lock, pass, users, link, clock, &OpenGate::new())
}

/// The same, where a gate is passed with its place before a request is answered from a look, so that a
/// test can hold the answer.
pub fn serve_behind<B: Desk, L: Link, C: Clock, R: Wait, T: Gate>(
    rt: &R,
    alloc: Global,
    lock: &TurnLock<B>,
    pass: &mut Pass<B>,
    users: &Users,
    link: &mut L,
    clock: &mut C,
    gate: &T,
) -> OnEnd<B::Fault>
    requires same { pass.old.lock ≡ lock.now }
    requires free { pass.old.holds_turn ≡ false }
    requires users { pass.old.base ≡ Some users.now }
    ensures pass { pass.new ≡ record pass.old { seen = pass.new.seen; looks = pass.new.looks } }
    ensures session { HasServedOn (environment_of C.Clock users.now clock.old) (session_state L.Link pass.old link.old) (session_state L.Link pass.new link.new) result }
    ensures legal { IsLegal (directory_of users.now) pass.new.seen }
    ensures clock { C.moment clock.new ≡ C.moment clock.old }
    ensures never_falls { L.faults link.old ≤ L.faults link.new }
{
    let context = Context {
        rt,
        alloc,
        lock,
        users,
        gate,
    };
    let end = serve_under::<B, L, C, R, T, Brand>(&context, pass, link, clock, Blank::new(1));
    // A look at what was seen, and the law of the test that it passes, tell a proof that it is legal.
    let _seen = pass.seen_len();
    journals_are_told();
    end
}

/// The same, with a ledger for the steps of expansion, of which nothing is told.
fn serve_under<B: Desk, L: Link, C: Clock, R: Wait, T: Gate, G: Ledger>(
    context: &Context<'_, R, B, T>,
    pass: &mut Pass<B>,
    link: &mut L,
    clock: &mut C,
    blank: Blank,
) -> OnEnd<B::Fault>
    requires same { pass.old.lock ≡ context.now.lock.now }
    requires free { pass.old.holds_turn ≡ false }
    requires users { pass.old.base ≡ Some context.now.users.now }
    requires name { blank.name ≡ G.name }
    requires parts { blank.parts ≡ G.parts }
    requires some { 0 < blank.parts }
    ensures pass { pass.new ≡ record pass.old { seen = pass.new.seen; looks = pass.new.looks } }
    ensures session { HasServedOn (environment_of C.Clock context.now.users.now clock.old) (session_state L.Link pass.old link.old) (session_state L.Link pass.new link.new) result }
    ensures clock { C.moment clock.new ≡ C.moment clock.old }
    ensures never_falls { L.faults link.old ≤ L.faults link.new }
{
    let mut counts = Counts::new(Steps::<G>::open(blank));
    let mut turns = ReservedList::new(context.alloc);
    let mut wire = Wire::new(context.alloc);
    let stop = serve_new(
        context,
        pass,
        &mut wire,
        &mut turns,
        link,
        clock,
        &mut counts,
    );
    tell_at_end(context, pass, &stop, &mut counts);
    end_with(stop, turns)
}

/// Serves a connection of which nothing was read yet, where there is memory for its turns and reads.
fn serve_new<B: Desk, L: Link, C: Clock, R: Wait, T: Gate, G: Ledger>(
    context: &Context<'_, R, B, T>,
    pass: &mut Pass<B>,
    wire: &mut Wire,
    turns: &mut ReservedList<Served>,
    link: &mut L,
    clock: &mut C,
    counts: &mut Counts<G>,
) -> Stop<B::Fault>
    requires same { pass.old.lock ≡ context.now.lock.now }
    requires free { pass.old.holds_turn ≡ false }
    requires base { pass.old.base ≡ Some context.now.users.now }
    requires new { Stands [] wire.old }
    requires none { turns.old.items ≡ [] }
    ensures pass { pass.new ≡ record pass.old { seen = pass.new.seen; looks = pass.new.looks } }
    ensures session { StopsSo (environment_of C.Clock context.now.users.now clock.old) (session_state L.Link pass.old link.old) (session_state L.Link pass.new link.new) turns.new.items result }
    ensures clock { C.moment clock.new ≡ C.moment clock.old }
    ensures never_falls { L.faults link.old ≤ L.faults link.new }
{
    match prepare(context.alloc, turns) {
        Ok(mut piece) => {
            let piece = piece.as_mut_slice();
            serve_all(context, pass, wire, piece, turns, link, clock, counts)
        }
        Err(NoMemory) => Stop::Ended(How::NoMemory),
    }
}

/// Reads and answers until the session stops.
fn serve_all<B: Desk, L: Link, C: Clock, R: Wait, T: Gate, G: Ledger>(
    context: &Context<'_, R, B, T>,
    pass: &mut Pass<B>,
    wire: &mut Wire,
    piece: &mut [u8],
    turns: &mut ReservedList<Served>,
    link: &mut L,
    clock: &mut C,
    counts: &mut Counts<G>,
) -> Stop<B::Fault>
    requires same { pass.old.lock ≡ context.now.lock.now }
    requires free { pass.old.holds_turn ≡ false }
    requires base { pass.old.base ≡ Some context.now.users.now }
    requires place { 0 < length piece.old }
    requires new { Stands [] wire.old }
    requires none { turns.old.items ≡ [] }
    requires room { request_limit ≤ turns.old.room }
    ensures pass { pass.new ≡ record pass.old { seen = pass.new.seen; looks = pass.new.looks } }
    ensures session { StopsSo (environment_of C.Clock context.now.users.now clock.old) (session_state L.Link pass.old link.old) (session_state L.Link pass.new link.new) turns.new.items result }
    ensures clock { C.moment clock.new ≡ C.moment clock.old }
    ensures never_falls { L.faults link.old ≤ L.faults link.new }
{
    'reading: loop {
        match answer_due(context, pass, wire, turns, link, clock, counts) {
            Err(stop) => return stop,
            Ok(()) => match take_piece(context.alloc, wire, piece, link) {
                Some(how) => return Stop::Ended(how),
                None => {}
            },
        }
    }
}

/// An end with the turns so far.
fn end_with<X>(stop: Stop<X>, turns: ReservedList<Served>) -> OnEnd<X>
    ensures { IsEndWith stop turns.items result }
{
    let turns = turns.into_list();
    match stop {
        Stop::Ended(how) => OnEnd::Ended(Ended { how, turns }),
        Stop::Broken(fault) => OnEnd::Broken(fault, turns),
    }
}

/// Makes room for the turns, and a place for the octets of one read.
fn prepare(alloc: Global, turns: &mut ReservedList<Served>) -> Result<Vec<u8>, NoMemory>
    ensures turns { turns.new.items ≡ turns.old.items }
    ensures room { OnOk result (request_limit ≤ turns.new.room) }
    ensures place { IfOk result (λ piece. 0 < length piece.items) }
{
    turns.reserve(REQUEST_LIMIT)?;
    match Vec::from_elem(alloc, 0u8, PIECE) {
        Ok(piece) => Ok(piece),
        Err(_) => Err(NoMemory),
    }
}

/// Reads the next octets of the connection, and says how the session ends where there are none.
fn take_piece<L: Link>(
    alloc: Global,
    wire: &mut Wire,
    piece: &mut [u8],
    link: &mut L,
) -> Option<How>
    requires { 0 < length piece.old }
    ensures session { (environment : Environment) (before : SessionState) (pass : PassState Entry Users) (turns : List Served) → IsWaiting environment before (session_state L.Link pass link.old) turns wire.old → GoesOnOrEnds (IsUnderWay environment before (session_state L.Link pass link.new) turns wire.new) (EndsIn environment before (session_state L.Link pass link.new) turns) result }
    ensures place { length piece.new ≡ length piece.old }
    ensures fewer { IsNone result → L.allowance link.new < L.allowance link.old }
    ensures never_falls { L.faults link.old ≤ L.faults link.new }
{
    match link.read(piece) {
        Err(_) => Some(How::ReadFault),
        Ok(0) => Some(end_of(wire)),
        Ok(n) => match wire.feed(alloc, &piece[..n]) {
            Ok(()) => None,
            Err(NoMemory) => Some(How::NoMemory),
        },
    }
}

/// How a session ends with its octets.
fn end_of(wire: &Wire) -> How
    ensures { (octets : List ℕ) → Stands octets wire.now → EndsAtEnd (front octets) result }
{
    if wire.idle() {
        How::Closed
    } else {
        How::CutInRequest
    }
}
