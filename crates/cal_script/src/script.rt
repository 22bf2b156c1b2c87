//! A running script, and the turn of one frame.
ghost use Rattle.std.specs.Prelude.{◌≡◌, ◌≤◌, [], List as ListOf, replicate, IfOk, OnOk, IsErrOf};
ghost use Rattle.std.specs.List.{AllZip};
ghost use Rattle.cal_base.specs.World.Outside.{Rose};
ghost use Rattle.cal_model.specs.History.Claims.{Pair};
ghost use Rattle.cal_model.specs.Transcripts.ScriptFrames.{AreInBounds, IsFrame, bytes, last_slot};
ghost use Rattle.cal_model.specs.Transcripts.Transcript.{Standing};
ghost use Rattle.cal_script.specs.AnsweredFrames.{TookTurn, TookTurnInPart, BrokeInTurn};
ghost use Rattle.cal_script.specs.Answering.{StopsSo, IsBrokenBy};
ghost use Rattle.cal_script.specs.EnteredRequests.{FrameEnters};
ghost use Rattle.cal_script.specs.FirstFrames.{frame_of};
ghost use Rattle.cal_script.specs.Readings.{Rests};
ghost use Rattle.cal_script.specs.Standings.{IsSound, StandsAt, running};

use crate::answering::{Stop, Unwritten, answer_arrival};
use crate::connections::Connection;
use crate::frame::{Arrival, Frame};
use crate::head::Action;
use crate::slots::{Slot, act};
use cal_base::{List, NoMemory, Sink, Steps};
use cal_book::Desk;
use privileges::Users;
use std::alloc::Global;
use std::sync::ledger::Ledger;

/// How many connections a script has.
const CONNECTIONS: usize = 16;

/// How many slots workers have.
const SLOTS: usize = 64;

/// A script that runs at a desk: its connections and the slots of its workers.
#[derive(Drop)]
pub(crate) struct Script {
    connections: Vec<Connection>,
    pub(crate) slots: Vec<Slot>,
}

/// The script at its start.
pub(crate) fn start(alloc: Global) -> Result<Script, NoMemory>
    ensures connections { IfOk result (λ script. AllZip Rests (replicate 16 []) script.connections.items) }
    ensures slots { IfOk result (λ script. script.slots.items ≡ replicate 64 Slot.Empty) }
{
    let connections = new_connections(alloc)?;
    let slots = empty_slots(alloc)?;
    Ok(Script { connections, slots })
}

/// Connections on which nothing came yet.
fn new_connections(alloc: Global) -> Result<Vec<Connection>, NoMemory>
    ensures { IfOk result (λ connections. AllZip Rests (replicate CONNECTIONS []) connections.items) }
{
    let mut connections = List::new(alloc);
    'opening: while connections.len() < CONNECTIONS {
        connections.push(Connection::new(alloc))?;
    }
    Ok(connections.into_vec())
}

/// Slots that hold nothing.
fn empty_slots(alloc: Global) -> Result<Vec<Slot>, NoMemory>
    ensures { IfOk result (λ slots. slots.items ≡ replicate SLOTS Slot.Empty) }
{
    let mut slots = List::new(alloc);
    while slots.len() < SLOTS {
        slots.push(Slot::Empty)?;
    }
    Ok(slots.into_vec())
}

/// Takes the turn of one frame: what its octets complete is answered, or a worker's slot changes,
/// which prints nothing.
pub(crate) fn take_turn<B: Desk, O: Sink, L: Ledger>(
    alloc: Global,
    desk: &mut B,
    users: &Users,
    script: &mut Script,
    frame: Frame<'_>,
    output: &mut O,
    steps: &mut Steps<L>,
) -> Result<(), Stop<B::Fault>>
    requires sound { (kept : ListOf Pair) × IsSound users.now kept (running (B.book desk.old) script.old) }
    requires stands { (standing : Standing) × StandsAt standing (running (B.book desk.old) script.old) }
    requires frame { IsFrame (frame_of frame) }
    ensures turn { OnOk result ((standing : Standing) → StandsAt standing (running (B.book desk.old) script.old) → TookTurn users.now (frame_of frame.entry) standing (running (B.book desk.new) script.new) (O.written output.old) (O.written output.new)) }
    ensures stopped { StopsSo result ((standing : Standing) → StandsAt standing (running (B.book desk.old) script.old) → TookTurnInPart users.now (frame_of frame.entry) standing (O.written output.old) (O.written output.new)) ((standing : Standing) → StandsAt standing (running (B.book desk.old) script.old) → BrokeInTurn users.now (frame_of frame.entry) standing (O.written output.old) (O.written output.new)) }
    ensures entered { (standing : Standing) → StandsAt standing (running (B.book desk.old) script.old) → FrameEnters users.now standing.streams (frame_of frame.entry) (B.book desk.old).work.journal (B.book desk.new).work.journal }
    ensures sound { (kept : ListOf Pair) → IsSound users.now kept (running (B.book desk.old) script.old) → IsSound users.now kept (running (B.book desk.new) script.new) }
    ensures broken { IsBrokenBy result (B.broken desk.old) (B.faults desk.old) (B.broken desk.new) (B.faults desk.new) }
    ensures desk_never_falls { B.faults desk.old ≤ B.faults desk.new }
    ensures fault { IsErrOf result (Stop.Unwritten Unwritten.Output) → Rose (O.faults output.old) (O.faults output.new) }
    ensures never_falls { O.faults output.old ≤ O.faults output.new }
{
    match frame {
        Frame::Bytes(arrival) => take_bytes(alloc, desk, users, script, arrival, output, steps),
        Frame::Worker(action, slot) => {
            take_action(alloc, desk, users, script, action, slot, steps);
            Ok(())
        }
    }
}

/// Takes the turn of octets that come on a connection.
fn take_bytes<B: Desk, O: Sink, L: Ledger>(
    alloc: Global,
    desk: &mut B,
    users: &Users,
    script: &mut Script,
    arrival: Arrival<'_>,
    output: &mut O,
    steps: &mut Steps<L>,
) -> Result<(), Stop<B::Fault>>
    requires sound { (kept : ListOf Pair) × IsSound users.now kept (running (B.book desk.old) script.old) }
    requires stands { (standing : Standing) × StandsAt standing (running (B.book desk.old) script.old) }
    requires bounds { AreInBounds arrival.connection arrival.moment arrival.payload.now }
    ensures turn { OnOk result ((standing : Standing) → StandsAt standing (running (B.book desk.old) script.old) → TookTurn users.now (bytes arrival.entry.connection arrival.entry.moment arrival.entry.payload.now) standing (running (B.book desk.new) script.new) (O.written output.old) (O.written output.new)) }
    ensures stopped { StopsSo result ((standing : Standing) → StandsAt standing (running (B.book desk.old) script.old) → TookTurnInPart users.now (bytes arrival.entry.connection arrival.entry.moment arrival.entry.payload.now) standing (O.written output.old) (O.written output.new)) ((standing : Standing) → StandsAt standing (running (B.book desk.old) script.old) → BrokeInTurn users.now (bytes arrival.entry.connection arrival.entry.moment arrival.entry.payload.now) standing (O.written output.old) (O.written output.new)) }
    ensures entered { (standing : Standing) → StandsAt standing (running (B.book desk.old) script.old) → FrameEnters users.now standing.streams (bytes arrival.entry.connection arrival.entry.moment arrival.entry.payload.now) (B.book desk.old).work.journal (B.book desk.new).work.journal }
    ensures sound { (kept : ListOf Pair) → IsSound users.now kept (running (B.book desk.old) script.old) → IsSound users.now kept (running (B.book desk.new) script.new) }
    ensures broken { IsBrokenBy result (B.broken desk.old) (B.faults desk.old) (B.broken desk.new) (B.faults desk.new) }
    ensures desk_never_falls { B.faults desk.old ≤ B.faults desk.new }
    ensures fault { IsErrOf result (Stop.Unwritten Unwritten.Output) → Rose (O.faults output.old) (O.faults output.new) }
    ensures never_falls { O.faults output.old ≤ O.faults output.new }
{
    let connection = &mut script.connections[arrival.connection];
    match answer_arrival(alloc, desk, users, connection, arrival, output, steps) {
        Ok(()) => Ok(()),
        Err(stop) => Err(stop),
    }
}

/// Takes the turn of a worker with its slot.
fn take_action<B: Desk, L: Ledger>(
    alloc: Global,
    desk: &mut B,
    users: &Users,
    script: &mut Script,
    action: Action,
    slot: usize,
    steps: &mut Steps<L>,
)
    requires sound { (kept : ListOf Pair) × IsSound users.now kept (running (B.book desk.old) script.old) }
    requires bounds { slot ≤ last_slot }
    ensures stands { (standing : Standing) → StandsAt standing (running (B.book desk.old) script.old) → StandsAt standing (running (B.book desk.new) script.new) }
    ensures journal { (B.book desk.new).work.journal ≡ (B.book desk.old).work.journal }
    ensures sound { (kept : ListOf Pair) → IsSound users.now kept (running (B.book desk.old) script.old) → IsSound users.now kept (running (B.book desk.new) script.new) }
    ensures broken { B.broken desk.new ≡ B.broken desk.old }
    ensures desk_never_falls { B.faults desk.old ≤ B.faults desk.new }
{
    let slot = &mut script.slots[slot];
    act(alloc, desk, slot, action, steps);
}
