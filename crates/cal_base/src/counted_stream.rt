//! A reader or writer of the standard library, with the counts that the traits of streams ask for.
ghost use Rattle.std.specs.Prelude.{◌≡◌, ◌<◌, ◌≤◌, ◌^◌, [], length, Some, None, if◌then◌else◌, IfOk, OnOk, OnErr};
ghost use Rattle.cal_base.specs.World.Outside.{Rose};
ghost use Rattle.cal_base.specs.World.Adapter.{new_stream};

use crate::failed::Failed;
use crate::stream::Source;
use std::io::{Read, Write};
use std::marker::Model;

/// How many octets an adapter may give in all: 2^62, which no real source reaches.
const ALLOWANCE: u64 = 1 << 62;

/// A stream, the count of its failed calls, how many octets it may still give, and whether its end
/// was met: from then on a read gives no octet and does not ask the stream again.
#[derive(Drop)]
pub(crate) struct CountedStream<T> {
    stream: T,
    allowed: u64,
    faults: u64,
    ended: bool,
}

impl<T> Model for CountedStream<T> {
    ghost use Rattle.std.specs.Prelude.{◌≤◌, ◌^◌};
    ghost use Rattle.cal_base.specs.World.Adapter.{StreamState};

    ghost Value = { StreamState };

    ghost view = { λ s. record { faults = s.faults; allowance = s.allowed; ended = s.ended } };

    ghost invariant = { λ s. s.allowed ≤ 2 ^ 62 };
}

impl<T> CountedStream<T> {
    /// A stream of which nothing was asked yet.
    pub(crate) fn new(stream: T) -> CountedStream<T>
        ensures { result ≡ new_stream }
    {
        CountedStream {
            stream,
            allowed: ALLOWANCE,
            faults: 0,
            ended: false,
        }
    }

    /// The stream itself.
    pub(crate) fn stream(&self) -> &T {
        &self.stream
    }

    /// Counts a failed call.
    pub(crate) fn fail(&mut self) -> Failed
        ensures rose { Rose self.old.faults self.new.faults }
        ensures never_falls { self.old.faults ≤ self.new.faults }
        ensures allowance_kept { self.new.allowance ≡ self.old.allowance }
        ensures ended_kept { self.new.ended ≡ self.old.ended }
        ensures bounded { self.old.allowance ≤ 2 ^ 62 }
    {
        self.faults = self.faults.saturating_add(1);
        Failed
    }
}

impl<T: Read> Source for CountedStream<T> {
    ghost faults = { λ s. s.faults };

    ghost left = { λ s. if s.ended then Some [] else None };

    ghost allowance = { λ s. s.allowance };

    fn read(&mut self, into: &mut [u8]) -> Result<usize, Failed> {
        if self.allowed == 0 {
            return Err(self.fail());
        }
        if self.ended {
            return Ok(0);
        }
        let room = (into.len() as u64).min(self.allowed) as usize;
        let Ok(n) = self.stream.read(&mut into[..room]) else {
            return Err(self.fail());
        };
        self.allowed -= n as u64;
        self.ended = n == 0 && 0 < room;
        Ok(n)
    }
}

impl<T: Write> CountedStream<T> {
    /// Writes the front of a piece and flushes.
    pub(crate) fn write(&mut self, piece: &[u8]) -> Result<usize, Failed>
        ensures failed { OnErr result (Rose self.old.faults self.new.faults) }
        ensures uncounted { OnOk result (self.new.faults ≡ self.old.faults) }
        ensures never_falls { self.old.faults ≤ self.new.faults }
        ensures allowance_kept { self.new.allowance ≡ self.old.allowance }
        ensures ended_kept { self.new.ended ≡ self.old.ended }
        ensures within { IfOk result (λ n. n ≤ length piece.now) }
        ensures some { IfOk result (λ n. 0 < length piece.now → 0 < n) }
    {
        let Ok(n) = write_some(&mut self.stream, piece) else {
            return Err(self.fail());
        };
        Ok(n)
    }
}

/// Writes the front of a piece and flushes. It is a failure, which the caller counts, where either
/// fails, and where nothing was taken of a piece that is not empty.
fn write_some<W: Write>(writer: &mut W, piece: &[u8]) -> Result<usize, Failed>
    ensures within { IfOk result (λ n. n ≤ length piece.now) }
    ensures some { IfOk result (λ n. 0 < length piece.now → 0 < n) }
{
    let Ok(n) = writer.write(piece) else {
        return Err(Failed);
    };
    if writer.flush().is_err() || n == 0 && !piece.is_empty() {
        return Err(Failed);
    }
    Ok(n)
}
