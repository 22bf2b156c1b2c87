//! Connections: what the octets that come on one complete.
ghost use Rattle.std.specs.Prelude.{◌<◌};
ghost use Rattle.cal_model.specs.Streams.WireLimits.{request_limit};

use cal_base::NoMemory;
use http_wire::{Next, Wire, WireFault, WireRequest, closes_after};
use std::alloc::Global;

/// What the octets of a connection complete next.
#[derive(Drop)]
pub(crate) enum Due {
    /// A request, and how many were answered before it.
    Request(usize, WireRequest),
    /// A fault, behind which nothing is read any more.
    Fault(WireFault),
    /// Nothing more.
    Nothing,
    /// There was no memory to read it.
    NoMemory,
}

/// A connection: the reading of its octets, and how far it was answered.
#[derive(Drop)]
pub(crate) struct Connection {
    wire: Wire,
    /// How many requests were answered. While it is open they are fewer than a connection has.
    answered: usize,
    /// Whether a reply said that it closes. Behind that nothing is read.
    closed: bool,
    ghost few: { answered < request_limit },
}

impl Connection {
    ghost use Rattle.std.specs.Prelude.{ℕ, List, [], ◌++◌, OnOk};
    ghost use Rattle.cal_model.specs.Transcripts.ConnectionAnswers.{Completed};
    ghost use Rattle.cal_script.specs.Readings.{IsReading, Rests, IsDue, HasShortBody, IsEarly, IsSomething, may_come};

    /// A connection on which nothing came yet.
    pub(crate) fn new(alloc: Global) -> Connection
        ensures { Rests [] result }
    {
        Connection {
            wire: Wire::new(alloc),
            answered: 0,
            closed: false,
        }
    }

    /// Takes octets that come on it.
    pub(crate) fn feed(&mut self, alloc: Global, piece: &[u8]) -> Result<(), NoMemory>
        ensures { OnOk result ((stream : List ℕ) (given : List Completed) → IsReading stream given self.old → IsReading (stream ++ piece.now) given self.new) }
    {
        if self.closed {
            return Ok(());
        }
        self.wire.feed(alloc, piece)?;
        Ok(())
    }

    /// What its octets complete next, by all that came.
    pub(crate) fn next(&mut self, alloc: Global) -> Due
        ensures due { (stream : List ℕ) (given : List Completed) → IsReading stream given self.old → IsDue result stream given self.new }
        ensures short { (stream : List ℕ) (given : List Completed) → IsReading stream given self.old → HasShortBody result }
        ensures early { IsEarly result }
        ensures fewer { IsSomething result → may_come self.new < may_come self.old }
    {
        if self.closed {
            return Due::Nothing;
        }
        match self.wire.next(alloc) {
            Next::Request(request) => {
                let before = self.answered;
                if closes_after(before, &request) {
                    self.closed = true;
                } else {
                    self.answered = before + 1;
                }
                Due::Request(before, request)
            }
            Next::Need => Due::Nothing,
            Next::Fault(why) => {
                self.closed = true;
                Due::Fault(why)
            }
            Next::NoMemory => Due::NoMemory,
        }
    }
}
