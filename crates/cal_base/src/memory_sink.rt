//! A sink in memory.
ghost use Rattle.std.specs.Prelude.{◌≡◌, ◌≤◌, [], length, Some, IsTrue, IsErr, IfOk, OnOk, OnErr};
ghost use Rattle.cal_base.specs.World.Memory.{no_calls, is_listed, sink_after_fault, sink_after_write};

use crate::failed::Failed;
use crate::failing_calls::FailingCalls;
use crate::list::{List, Octets};
use crate::stream::Sink;
use std::alloc::Global;
use std::marker::Model;

/// A sink that keeps what is written. A write fails where its number is listed, or for want of
/// memory; every other write takes the whole piece.
#[derive(Drop)]
pub struct MemorySink {
    written: Octets,
    calls: FailingCalls,
}

impl Model for MemorySink {
    ghost use Rattle.cal_base.specs.World.Memory.{SinkState};

    ghost Value = { SinkState };

    ghost view = { λ s. record { written = s.written; calls = s.calls } };
}

impl MemorySink {
    /// An empty sink, whose writes with the numbers in `failing` fail. Writes are counted from 0.
    /// It takes no memory yet.
    pub fn new(alloc: Global, failing: List<u64>) -> MemorySink
        ensures { result ≡ record { written = []; calls = no_calls failing } }
    {
        MemorySink {
            written: Octets::new(alloc),
            calls: FailingCalls::new(failing),
        }
    }

    /// What was written so far.
    pub fn written(&self) -> &[u8]
        ensures { result.now ≡ self.now.written }
    {
        self.written.as_slice()
    }
}

impl Sink for MemorySink {
    ghost faults = { λ s. s.calls.faults };

    ghost written = { λ s. Some s.written };

    fn write(&mut self, piece: &[u8]) -> Result<usize, Failed>
        ensures listed { IsTrue (is_listed self.old.calls) → IsErr result }
        ensures fault { OnErr result (self.new ≡ sink_after_fault self.old) }
        ensures count { IfOk result (λ n. n ≡ length piece.now) }
        ensures after { OnOk result (self.new ≡ sink_after_write self.old piece.now) }
        ensures never_falls { self.old.calls.faults ≤ self.new.calls.faults }
    {
        if self.calls.is_listed() || self.written.extend_from_slice(piece).is_err() {
            return Err(self.calls.fail());
        }
        self.calls.succeed();
        Ok(piece.len())
    }
}
