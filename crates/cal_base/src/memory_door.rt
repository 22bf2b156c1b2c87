//! A door over links in memory, and a gate that holds nobody.
ghost use Rattle.std.specs.Prelude.{◌≡◌, ◌≤◌, ◌↔◌, [], Some, IsTrue, IsErr, IfOk, OnOk, OnErr, slice_get};
ghost use Rattle.cal_base.specs.World.Outside.{IsMoment, IsNext};
ghost use Rattle.cal_base.specs.World.Memory.{is_listed, new_door, door_after_fault, door_after_success, accept_fails, door_after_failed_accept, door_after_accept};

use crate::clock::Clock;
use crate::door::{Door, Gate};
use crate::failed::Failed;
use crate::failing_calls::FailingCalls;
use crate::list::List;
use crate::memory_clock::FixedClock;
use crate::memory_link::MemoryLink;
use std::alloc::Global;
use std::marker::Model;
use std::sync::Wait;

/// A gate that holds nobody.
#[derive(Clone, Copy)]
pub struct OpenGate;

impl OpenGate {
    /// The open gate.
    pub fn new() -> OpenGate {
        OpenGate
    }
}

impl Gate for OpenGate {
    fn pass<R: Wait>(&self, _rt: &R, _number: u64) {}
}

/// A door that gives its links in order. Its calls of `open`, `another` and `accept` are numbered
/// together; each fails exactly where its number is listed, and an `accept` also where no link is
/// left.
#[derive(Drop)]
pub struct MemoryDoor {
    links: List<MemoryLink>,
    clock: FixedClock,
    tries: u64,
    calls: FailingCalls,
}

impl Model for MemoryDoor {
    ghost use Rattle.cal_base.specs.World.Memory.{DoorState};

    ghost Value = { DoorState };

    ghost view = { λ d. record { links = d.links; moment = d.clock; tries = d.tries; calls = d.calls } };
}

impl MemoryDoor {
    /// A door with these links and a clock of this moment, whose calls with the numbers in
    /// `failing` fail. Calls are counted from 0.
    pub fn new(links: List<MemoryLink>, moment: i64, failing: List<u64>) -> MemoryDoor
        requires { IsMoment moment }
        ensures { result ≡ new_door links moment failing }
    {
        MemoryDoor {
            links,
            clock: FixedClock::new(moment),
            tries: 0,
            calls: FailingCalls::new(failing),
        }
    }
}

impl Door for MemoryDoor {
    type Link = MemoryLink;

    type Clock = FixedClock;

    ghost faults = { λ d. d.calls.faults };

    ghost tries = { λ d. d.tries };

    ghost moment = { λ d. Some d.moment };

    fn open(&mut self, _address: &str) -> Result<(), Failed>
        ensures fails { IsErr result ↔ IsTrue (is_listed self.old.calls) }
        ensures fault { OnErr result (self.new ≡ door_after_fault self.old) }
        ensures after { OnOk result (self.new ≡ door_after_success self.old) }
        ensures never_falls { self.old.calls.faults ≤ self.new.calls.faults }
    {
        if self.calls.is_listed() {
            return Err(self.calls.fail());
        }
        self.calls.succeed();
        Ok(())
    }

    /// A door without links, whose clock gives the same moment, and of whose calls none is listed.
    fn another(&mut self, alloc: Global) -> Result<MemoryDoor, Failed>
        ensures fails { IsErr result ↔ IsTrue (is_listed self.old.calls) }
        ensures fault { OnErr result (self.new ≡ door_after_fault self.old) }
        ensures door { IfOk result (λ door. door ≡ new_door [] self.old.moment []) }
        ensures after { OnOk result (self.new ≡ door_after_success self.old) }
        ensures never_falls { self.old.calls.faults ≤ self.new.calls.faults }
    {
        if self.calls.is_listed() {
            return Err(self.calls.fail());
        }
        self.calls.succeed();
        Ok(MemoryDoor {
            links: List::new(alloc),
            clock: self.clock,
            tries: 0,
            calls: FailingCalls::new(List::new(alloc)),
        })
    }

    fn accept<R: Wait>(&mut self, _rt: &R) -> Result<MemoryLink, Failed>
        ensures fails { IsErr result ↔ IsTrue (accept_fails self.old) }
        ensures fault { OnErr result (self.new ≡ door_after_failed_accept self.old) }
        ensures first { IfOk result (λ link. slice_get self.old.links 0 ≡ Some link) }
        ensures after { OnOk result (self.new ≡ door_after_accept self.old) }
        ensures tried { IsNext self.old.tries self.new.tries }
        ensures never_falls { self.old.calls.faults ≤ self.new.calls.faults }
    {
        self.tries = self.tries.saturating_add(1);
        if self.calls.is_listed() {
            return Err(self.calls.fail());
        }
        let Some(link) = self.links.pop_front() else {
            return Err(self.calls.fail());
        };
        self.calls.succeed();
        Ok(link)
    }

    fn clock(&self) -> FixedClock
        ensures { result ≡ self.now.moment }
    {
        self.clock
    }

    fn rest<R: Wait>(&mut self, _rt: &R)
        ensures { self.new ≡ self.old }
    {}
}
