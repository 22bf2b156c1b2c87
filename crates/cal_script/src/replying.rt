//! The reply to a request, and its octets.
ghost use Rattle.std.specs.Prelude.{◌≡◌, ◌<◌, ◌≤◌, pos, length, IfOk};
ghost use Rattle.cal_base.specs.World.Outside.{IsMoment};
ghost use Rattle.cal_book.specs.Cores.{state_in};
ghost use Rattle.cal_book.specs.Desks.{IfReply};
ghost use Rattle.cal_model.specs.Replies.Statuses.{reason};
ghost use Rattle.cal_model.specs.Requests.AskedRequests.{asked_of};
ghost use Rattle.cal_model.specs.Streams.WireLimits.{body_limit, request_limit};
ghost use Rattle.cal_model.specs.Transcripts.Transcript.{IsAnswer};
ghost use Rattle.cal_model.specs.Words.Limits.{last_moment};
ghost use Rattle.cal_script.specs.Answering.{IsBookOf, GoesOn, IsAnswered, IsBrokenBy, IsToldBy};
ghost use Rattle.cal_script.specs.EnteredRequests.{events_by};

use crate::answering::{Stop, Unwritten};
use crate::frame::Arrival;
use cal_base::{NoMemory, Octets, Steps};
use cal_book::{Desk, Told, journals_follow, replies_have_reasons};
use cal_model::Event;
use dav_request::{Asked, read_request};
use http_wire::{WireRequest, bare_reply, write_answer};
use privileges::Users;
use std::alloc::Global;
use std::sync::ledger::Ledger;

/// Answers a request that came on a connection: refused as it stands, or by the desk. Without memory
/// it is answered 503, and nothing is changed. A desk that is broken then tells its fault.
///
/// The desk makes room beforehand, so that taking away needs none; where it finds none, the request
/// is made all the same.
fn reply_to<B: Desk, L: Ledger>(
    alloc: Global,
    desk: &mut B,
    users: &Users,
    arrival: Arrival<'_>,
    wire: &WireRequest,
    steps: &mut Steps<L>,
) -> Told<B::Fault>
    requires book { IsBookOf users.now (B.book desk.old) }
    requires moment { arrival.moment ≤ last_moment }
    requires body { length wire.now.body ≤ body_limit }
    ensures answer { IfReply result (λ reply. IsAnswer users.now (state_in (B.book desk.old)) arrival.entry.connection arrival.entry.moment wire.now (record { reply = reply; server = state_in (B.book desk.new) })) }
    ensures known { IfReply result (λ reply. 0 < length (reason reply.status)) }
    ensures book { IsBookOf users.now (B.book desk.new) }
    ensures goes_on { GoesOn users.now (events_by arrival.entry.connection arrival.entry.moment (asked_of users.now wire.now)) (B.book desk.old) (B.book desk.new) }
    ensures broken { IsToldBy result (B.broken desk.old) (B.faults desk.old) (B.broken desk.new) (B.faults desk.new) }
    ensures never_falls { B.faults desk.old ≤ B.faults desk.new }
{
    journals_follow();
    replies_have_reasons();
    match read_request(alloc, wire, users) {
        Asked::Request { who, request } => {
            let _ = desk.reserve();
            let event = Event {
                session: arrival.connection as u64,
                who,
                moment: seconds(arrival.moment),
                request,
            };
            let told = desk.ask(alloc, &event, &mut None, steps);
            drop(event);
            told
        }
        Asked::Refused(reply) => Told::Reply(reply),
        Asked::NoMemory => Told::Reply(bare_reply(alloc, 503)),
    }
}

/// Answers a request that came on a connection, where so many were answered there before, and gives
/// the octets of the reply. Without memory for these the request may have been acted on.
pub(crate) fn answer<B: Desk, L: Ledger>(
    alloc: Global,
    desk: &mut B,
    users: &Users,
    arrival: Arrival<'_>,
    before: usize,
    wire: &WireRequest,
    steps: &mut Steps<L>,
) -> Result<Octets, Stop<B::Fault>>
    requires book { IsBookOf users.now (B.book desk.old) }
    requires moment { arrival.moment ≤ last_moment }
    requires before { before < request_limit }
    requires body { length wire.now.body ≤ body_limit }
    ensures answered { IfOk result (IsAnswered users.now arrival.entry.connection arrival.entry.moment before wire.now (state_in (B.book desk.old)) (state_in (B.book desk.new))) }
    ensures book { IsBookOf users.now (B.book desk.new) }
    ensures goes_on { GoesOn users.now (events_by arrival.entry.connection arrival.entry.moment (asked_of users.now wire.now)) (B.book desk.old) (B.book desk.new) }
    ensures broken { IsBrokenBy result (B.broken desk.old) (B.faults desk.old) (B.broken desk.new) (B.faults desk.new) }
    ensures desk_never_falls { B.faults desk.old ≤ B.faults desk.new }
{
    match reply_to(alloc, desk, users, arrival, wire, steps) {
        Told::Reply(reply) => {
            match write_answer(alloc, before, wire, &reply, seconds(arrival.moment)) {
                Ok(octets) => {
                    drop(reply);
                    Ok(octets)
                }
                Err(NoMemory) => {
                    drop(reply);
                    Err(Stop::Unwritten(Unwritten::NoMemory))
                }
            }
        }
        Told::Broken(fault) => Err(Stop::Broken(fault)),
    }
}

/// A moment, as replies and events have it.
pub(crate) fn seconds(moment: u64) -> i64
    requires { moment ≤ last_moment }
    ensures value { result ≡ pos moment }
    ensures within { IsMoment result }
{
    moment as i64
}
