//! Answering the requests of a connection.
ghost use Rattle.std.specs.Prelude.{◌≡◌, ◌≤◌, ◌<◌, ◌+◌, ℕ, List, false, length, Some, IfOk, OnOk};
ghost use Rattle.cal_base.specs.World.Outside.{IsMoment};
ghost use Rattle.cal_model.specs.History.Journal.{Entry};
ghost use Rattle.cal_model.specs.Replies.Statuses.{reason};
ghost use Rattle.cal_model.specs.Streams.StreamRequests.{Begins, front, fault};
ghost use Rattle.cal_model.specs.Streams.WireLimits.{body_limit, request_limit};
ghost use Rattle.cal_model.specs.Users.UsersFile.{Users};
ghost use Rattle.cal_session.specs.AskedTurns.{EndsAt};
ghost use Rattle.cal_session.specs.SessionStates.{SessionState, environment_of, session_state};
ghost use Rattle.cal_session.specs.WrittenReplies.{GoesOnBehind};
ghost use Rattle.cal_session.specs.UnderWay.{IsReached, IsUnderWay, IsWaiting, EndsIn, StopsSo, ComesTo, GoesOnOrStops, IfAnswered};
ghost use Rattle.http_wire.specs.Wires.{Stands};
ghost use Rattle.turn_lock.specs.Passes.{PassState};

use crate::context::Context;
use crate::counts::Counts;
use crate::served::{How, Served};
use crate::turn::ask_once;
use crate::writing::{send_fault, send_reply};
use cal_base::{Clock, Gate, Link, ReservedList};
use cal_book::{Desk, Told, read_put, replies_have_reasons};
use cal_model::{Event, Reply};
use dav_request::{Asked, read_request};
use http_wire::{Next, REQUEST_LIMIT, Wire, WireFault, WireRequest, bare_reply};
use std::sync::Wait;
use std::sync::ledger::Ledger;
use turn_lock::Pass;

/// Why a session goes no further.
#[derive(Drop)]
pub(crate) enum Stop<X> {
    Ended(How),
    /// The desk broke.
    Broken(X),
}

/// Answers one after the other the requests that are whole, until one closes the connection, or
/// nothing more is whole.
pub(crate) fn answer_due<B: Desk, L: Link, C: Clock, R: Wait, T: Gate, G: Ledger>(
    context: &Context<'_, R, B, T>,
    pass: &mut Pass<B>,
    wire: &mut Wire,
    turns: &mut ReservedList<Served>,
    link: &mut L,
    clock: &mut C,
    counts: &mut Counts<G>,
) -> Result<(), Stop<B::Fault>>
    requires same { pass.old.lock ≡ context.now.lock.now }
    requires free { pass.old.holds_turn ≡ false }
    requires base { pass.old.base ≡ Some context.now.users.now }
    requires room { request_limit ≤ length turns.old.items + turns.old.room }
    requires under_way { (before : SessionState) × IsUnderWay (environment_of C.Clock context.now.users.now clock.old) before (session_state L.Link pass.old link.old) turns.old.items wire.old }
    ensures pass { pass.new ≡ record pass.old { seen = pass.new.seen; looks = pass.new.looks } }
    ensures room { length turns.new.items + turns.new.room ≡ length turns.old.items + turns.old.room }
    ensures session { let environment = environment_of C.Clock context.now.users.now clock.old in let now = session_state L.Link pass.new link.new in (before : SessionState) → IsUnderWay environment before (session_state L.Link pass.old link.old) turns.old.items wire.old → GoesOnOrStops (IsWaiting environment before now turns.new.items wire.new) (StopsSo environment before now turns.new.items) result }
    ensures clock { C.moment clock.new ≡ C.moment clock.old }
    ensures allowance { L.allowance link.new ≡ L.allowance link.old }
    ensures never_falls { L.faults link.old ≤ L.faults link.new }
{
    'due: loop {
        match answer_next(context, pass, wire, turns, link, clock, counts) {
            Due::Answered => {}
            Due::Waits => return Ok(()),
            Due::Stops(stop) => return Err(stop),
        }
    }
}

/// What comes of the octets that are there.
enum Due<X> {
    /// A request was whole, and was answered.
    Answered,
    /// None is whole.
    Waits,
    Stops(Stop<X>),
}

/// Answers the next request, if it is whole.
fn answer_next<B: Desk, L: Link, C: Clock, R: Wait, T: Gate, G: Ledger>(
    context: &Context<'_, R, B, T>,
    pass: &mut Pass<B>,
    wire: &mut Wire,
    turns: &mut ReservedList<Served>,
    link: &mut L,
    clock: &mut C,
    counts: &mut Counts<G>,
) -> Due<B::Fault>
    requires same { pass.old.lock ≡ context.now.lock.now }
    requires free { pass.old.holds_turn ≡ false }
    requires base { pass.old.base ≡ Some context.now.users.now }
    requires few { length turns.old.items < request_limit }
    requires room { 0 < turns.old.room }
    requires stands { (octets : List ℕ) × Stands octets wire.old }
    ensures pass { pass.new ≡ record pass.old { seen = pass.new.seen; looks = pass.new.looks } }
    ensures room { length turns.new.items + turns.new.room ≡ length turns.old.items + turns.old.room }
    ensures session { let environment = environment_of C.Clock context.now.users.now clock.old in let now = session_state L.Link pass.new link.new in (before : SessionState) → IsUnderWay environment before (session_state L.Link pass.old link.old) turns.old.items wire.old → ComesTo (IsUnderWay environment before now turns.new.items wire.new) (IsWaiting environment before now turns.new.items wire.new) (StopsSo environment before now turns.new.items) result }
    ensures longer { IfAnswered result (length turns.new.items ≡ length turns.old.items + 1) }
    ensures clock { C.moment clock.new ≡ C.moment clock.old }
    ensures allowance { L.allowance link.new ≡ L.allowance link.old }
    ensures never_falls { L.faults link.old ≤ L.faults link.new }
{
    match wire.next(context.alloc) {
        Next::Need => Due::Waits,
        Next::NoMemory => Due::Stops(Stop::Ended(How::NoMemory)),
        Next::Fault(why) => Due::Stops(Stop::Ended(refuse(context, why, link, clock))),
        Next::Request(request) => {
            let answered = answer_request(context, pass, &request, turns, link, clock, counts);
            drop(request);
            match answered {
                Ok(()) => Due::Answered,
                Err(stop) => Due::Stops(stop),
            }
        }
    }
}

/// Writes the reply to a fault of the octets, behind which nothing is read.
fn refuse<B: Desk, L: Link, C: Clock, R, T>(
    context: &Context<'_, R, B, T>,
    why: WireFault,
    link: &mut L,
    clock: &mut C,
) -> How
    ensures session { let environment = environment_of C.Clock context.now.users.now clock.old in (before : SessionState) (pass : PassState Entry Users) (turns : List Served) (stream rest : List ℕ) → IsReached environment before (session_state L.Link pass link.old) turns stream rest → front rest ≡ fault why → EndsIn environment before (session_state L.Link pass link.new) turns result }
    ensures clock { C.moment clock.new ≡ C.moment clock.old }
    ensures allowance { L.allowance link.new ≡ L.allowance link.old }
    ensures never_falls { L.faults link.old ≤ L.faults link.new }
{
    let moment = clock.now();
    match send_fault(context.alloc, why, moment, link) {
        Some(how) => how,
        None => How::WireRefused(why),
    }
}

/// Answers one request: notes its turn, and writes its reply.
fn answer_request<B: Desk, L: Link, C: Clock, R: Wait, T: Gate, G: Ledger>(
    context: &Context<'_, R, B, T>,
    pass: &mut Pass<B>,
    wire: &WireRequest,
    turns: &mut ReservedList<Served>,
    link: &mut L,
    clock: &mut C,
    counts: &mut Counts<G>,
) -> Result<(), Stop<B::Fault>>
    requires same { pass.old.lock ≡ context.now.lock.now }
    requires free { pass.old.holds_turn ≡ false }
    requires base { pass.old.base ≡ Some context.now.users.now }
    requires body { length wire.now.body ≤ body_limit }
    requires few { length turns.old.items < request_limit }
    requires room { 0 < turns.old.room }
    ensures pass { pass.new ≡ record pass.old { seen = pass.new.seen; looks = pass.new.looks } }
    ensures room { length turns.new.items + turns.new.room ≡ length turns.old.items + turns.old.room }
    ensures session { let environment = environment_of C.Clock context.now.users.now clock.old in let now = session_state L.Link pass.new link.new in (before : SessionState) (stream rest behind : List ℕ) → IsReached environment before (session_state L.Link pass.old link.old) turns.old.items stream rest → Begins rest wire.now behind → GoesOnOrStops (IsReached environment before now turns.new.items stream behind) (StopsSo environment before now turns.new.items) result }
    ensures longer { OnOk result (length turns.new.items ≡ length turns.old.items + 1) }
    ensures clock { C.moment clock.new ≡ C.moment clock.old }
    ensures allowance { L.allowance link.new ≡ L.allowance link.old }
    ensures never_falls { L.faults link.old ≤ L.faults link.new }
{
    let moment = clock.now();
    match reply_to(context, pass, wire, moment, counts) {
        Err(fault) => Err(Stop::Broken(fault)),
        Ok((at, reply)) => {
            let before = turns.len();
            turns.push(Served {
                at,
                moment,
                status: reply.status,
            });
            let sent = send_reply(context.alloc, before, wire, &reply, moment, link);
            drop(reply);
            match sent {
                Some(how) => Err(Stop::Ended(how)),
                None => go_on_behind(before, wire),
            }
        }
    }
}

/// The reply to a request, and how many entries there were when it was answered; or the fault of a
/// desk that broke. The request is read before the turn, and so is what a PUT brings. One that is
/// refused as it stands needs no turn, and is answered at what the pass has seen.
fn reply_to<B: Desk, R: Wait, T: Gate, G: Ledger>(
    context: &Context<'_, R, B, T>,
    pass: &mut Pass<B>,
    wire: &WireRequest,
    moment: i64,
    counts: &mut Counts<G>,
) -> Result<(u64, Reply), B::Fault>
    requires same { pass.old.lock ≡ context.now.lock.now }
    requires free { pass.old.holds_turn ≡ false }
    requires base { pass.old.base ≡ Some context.now.users.now }
    requires body { length wire.now.body ≤ body_limit }
    requires moment { IsMoment moment }
    ensures pass { pass.new ≡ record pass.old { seen = pass.new.seen; looks = pass.new.looks } }
    ensures answered { EndsAt context.now.users.now pass.old pass.new wire.now moment result }
    ensures known { IfOk result (λ given. 0 < length (reason given.1.status)) }
{
    replies_have_reasons();
    match read_request(context.alloc, wire, context.users) {
        Asked::Request { who, request } => {
            let event = Event {
                session: pass.number(),
                who,
                moment,
                request,
            };
            let mut reading = read_put(context.alloc, &event);
            let (at, told) = ask_once(context, pass, &event, &mut reading, counts);
            drop(reading);
            drop(event);
            match told {
                Told::Reply(reply) => Ok((at, reply)),
                Told::Broken(fault) => Err(fault),
            }
        }
        Asked::Refused(reply) => Ok((pass.seen_len(), reply)),
        Asked::NoMemory => Ok((pass.seen_len(), bare_reply(context.alloc, 503))),
    }
}

/// Whether the session goes on behind a request that was answered, where so many were before it.
fn go_on_behind<X>(before: usize, wire: &WireRequest) -> Result<(), Stop<X>>
    requires { before < request_limit }
    ensures { GoesOnBehind before wire.now result }
{
    if before + 1 >= REQUEST_LIMIT {
        return Err(Stop::Ended(How::Limit));
    }
    if wire.close {
        return Err(Stop::Ended(How::Closed));
    }
    Ok(())
}
