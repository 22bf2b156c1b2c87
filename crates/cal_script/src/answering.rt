//! Answering what the octets of one frame complete on their connection.
ghost use Rattle.std.specs.Prelude.{◌≡◌, ◌≤◌, ◌<◌, ◌++◌, ℕ, List, length, OnOk, IsErrOf, pos, take};
ghost use Rattle.cal_base.specs.World.Outside.{Rose, Adds};
ghost use Rattle.cal_book.specs.Cores.{state_in};
ghost use Rattle.cal_model.specs.Requests.AskedRequests.{asked_of};
ghost use Rattle.cal_model.specs.Streams.WireLimits.{body_limit, request_limit};
ghost use Rattle.cal_model.specs.Transcripts.ScriptFrames.{reply_frame};
ghost use Rattle.cal_model.specs.Replies.WireReplies as spec;
ghost use Rattle.cal_model.specs.Words.Limits.{last_moment};
ghost use Rattle.cal_script.specs.Answering.{IsBookOf, GoesOn, GoesOnBy, WroteAnswer, WroteAnswerInPart, WroteAll, WroteInPart, WroteBefore, StopsSo, IsBrokenBy};
ghost use Rattle.cal_script.specs.EnteredRequests.{events_by};
ghost use Rattle.cal_script.specs.Readings.{Rests};

use crate::connections::{Connection, Due};
use crate::frame::Arrival;
use crate::reply_frame::write_frame;
use crate::replying::{answer, seconds};
use cal_base::{Sink, Steps};
use cal_book::Desk;
use http_wire::{WireFault, WireRequest, write_fault};
use privileges::Users;
use std::alloc::Global;
use std::sync::ledger::Ledger;

/// Why nothing more is written.
#[derive(Clone, Copy)]
pub(crate) enum Unwritten {
    /// A write failed.
    Output,
    /// There was no memory.
    NoMemory,
}

/// Why a frame was not answered.
#[derive(Drop)]
pub(crate) enum Stop<X> {
    Unwritten(Unwritten),
    /// The desk is broken, and told so when it was asked.
    Broken(X),
}

/// Feeds the octets to their connection, and answers one after the other what they complete there:
/// requests, and perhaps a fault behind them.
pub(crate) fn answer_arrival<B: Desk, O: Sink, L: Ledger>(
    alloc: Global,
    desk: &mut B,
    users: &Users,
    connection: &mut Connection,
    arrival: Arrival<'_>,
    output: &mut O,
    steps: &mut Steps<L>,
) -> Result<(), Stop<B::Fault>>
    requires book { IsBookOf users.now (B.book desk.old) }
    requires reads { (stream : List ℕ) × Rests stream connection.old }
    requires moment { arrival.moment ≤ last_moment }
    ensures all { OnOk result ((stream : List ℕ) → Rests stream connection.old → WroteAll users.now arrival.entry.connection arrival.entry.moment stream arrival.entry.payload.now (state_in (B.book desk.old)) (state_in (B.book desk.new)) (O.written output.old) (O.written output.new)) }
    ensures stopped { StopsSo result ((stream : List ℕ) → Rests stream connection.old → WroteInPart users.now arrival.entry.connection arrival.entry.moment stream arrival.entry.payload.now (state_in (B.book desk.old)) (O.written output.old) (O.written output.new)) ((stream : List ℕ) → Rests stream connection.old → WroteBefore users.now arrival.entry.connection arrival.entry.moment stream arrival.entry.payload.now (state_in (B.book desk.old)) (O.written output.old) (O.written output.new)) }
    ensures rests { OnOk result ((stream : List ℕ) → Rests stream connection.old → Rests (stream ++ arrival.entry.payload.now) connection.new) }
    ensures book { IsBookOf users.now (B.book desk.new) }
    ensures goes_on { (stream : List ℕ) → Rests stream connection.old → GoesOnBy users.now arrival.entry.connection arrival.entry.moment stream arrival.entry.payload.now (B.book desk.old) (B.book desk.new) }
    ensures broken { IsBrokenBy result (B.broken desk.old) (B.faults desk.old) (B.broken desk.new) (B.faults desk.new) }
    ensures desk_never_falls { B.faults desk.old ≤ B.faults desk.new }
    ensures fault { IsErrOf result (Stop.Unwritten Unwritten.Output) → Rose (O.faults output.old) (O.faults output.new) }
    ensures never_falls { O.faults output.old ≤ O.faults output.new }
{
    let Ok(()) = connection.feed(alloc, arrival.payload) else {
        return Err(Stop::Unwritten(Unwritten::NoMemory));
    };
    'due: loop {
        match connection.next(alloc) {
            Due::Nothing => return Ok(()),
            Due::NoMemory => return Err(Stop::Unwritten(Unwritten::NoMemory)),
            Due::Fault(why) => match answer_fault(alloc, arrival, why, output) {
                Ok(()) => {}
                Err(why) => return Err(Stop::Unwritten(why)),
            },
            Due::Request(before, wire) => {
                match answer_request(alloc, desk, users, arrival, before, &wire, output, steps) {
                    Ok(()) => drop(wire),
                    Err(stop) => {
                        drop(wire);
                        return Err(stop);
                    }
                }
            }
        }
    }
}

/// Answers one request, and writes the reply.
fn answer_request<B: Desk, O: Sink, L: Ledger>(
    alloc: Global,
    desk: &mut B,
    users: &Users,
    arrival: Arrival<'_>,
    before: usize,
    wire: &WireRequest,
    output: &mut O,
    steps: &mut Steps<L>,
) -> Result<(), Stop<B::Fault>>
    requires book { IsBookOf users.now (B.book desk.old) }
    requires moment { arrival.moment ≤ last_moment }
    requires before { before < request_limit }
    requires body { length wire.now.body ≤ body_limit }
    ensures whole { OnOk result (WroteAnswer users.now arrival.entry.connection arrival.entry.moment before wire.now (state_in (B.book desk.old)) (state_in (B.book desk.new)) (O.written output.old) (O.written output.new)) }
    ensures stopped { StopsSo result (WroteAnswerInPart users.now arrival.entry.connection arrival.entry.moment before wire.now (state_in (B.book desk.old)) (O.written output.old) (O.written output.new)) (O.written output.new ≡ O.written output.old) }
    ensures book { IsBookOf users.now (B.book desk.new) }
    ensures goes_on { GoesOn users.now (events_by arrival.entry.connection arrival.entry.moment (asked_of users.now wire.now)) (B.book desk.old) (B.book desk.new) }
    ensures broken { IsBrokenBy result (B.broken desk.old) (B.faults desk.old) (B.broken desk.new) (B.faults desk.new) }
    ensures desk_never_falls { B.faults desk.old ≤ B.faults desk.new }
    ensures fault { IsErrOf result (Stop.Unwritten Unwritten.Output) → Rose (O.faults output.old) (O.faults output.new) }
    ensures never_falls { O.faults output.old ≤ O.faults output.new }
{
    match answer(alloc, desk, users, arrival, before, wire, steps) {
        Ok(octets) => match write_frame(alloc, arrival.connection, octets.as_slice(), output) {
            Ok(()) => Ok(()),
            Err(why) => Err(Stop::Unwritten(why)),
        },
        Err(Stop::Unwritten(_)) => Err(Stop::Unwritten(Unwritten::NoMemory)),
        Err(Stop::Broken(fault)) => Err(Stop::Broken(fault)),
    }
}

/// Answers a fault of a connection.
fn answer_fault<O: Sink>(
    alloc: Global,
    arrival: Arrival<'_>,
    why: WireFault,
    output: &mut O,
) -> Result<(), Unwritten>
    requires moment { arrival.moment ≤ last_moment }
    ensures whole { OnOk result (Adds (O.written output.old) (reply_frame arrival.entry.connection (spec.fault_octets why (pos arrival.entry.moment))) (O.written output.new)) }
    ensures in_part { (many : ℕ) × Adds (O.written output.old) (take many (reply_frame arrival.entry.connection (spec.fault_octets why (pos arrival.entry.moment)))) (O.written output.new) }
    ensures fault { IsErrOf result Unwritten.Output → Rose (O.faults output.old) (O.faults output.new) }
    ensures never_falls { O.faults output.old ≤ O.faults output.new }
{
    let Ok(octets) = write_fault(alloc, why, seconds(arrival.moment)) else {
        return Err(Unwritten::NoMemory);
    };
    write_frame(alloc, arrival.connection, octets.as_slice(), output)
}
