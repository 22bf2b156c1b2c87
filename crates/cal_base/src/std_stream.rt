//! Standard input as a source, and standard output as a sink.
ghost use Rattle.std.specs.Prelude.{◌≡◌, [], Some, None, if◌then◌else◌};
ghost use Rattle.cal_base.specs.World.Adapter.{new_stream};

use crate::counted_stream::CountedStream;
use crate::failed::Failed;
use crate::stream::{Sink, Source};
use std::io;
use std::io::{Input, Write};
use std::marker::Model;

/// Standard input. It tells nothing of what is left until its end.
#[derive(Drop)]
pub struct StdSource<R: Input> {
    source: CountedStream<R::Reader>,
}

impl<R: Input> Model for StdSource<R> {
    ghost use Rattle.cal_base.specs.World.Adapter.{StreamState};

    ghost Value = { StreamState };

    ghost view = { λ s. s.source };
}

impl<R: Input> StdSource<R> {
    /// The standard input of the runtime.
    pub fn new(rt: &R) -> StdSource<R>
        ensures { result ≡ new_stream }
    {
        StdSource {
            source: CountedStream::new(rt.reader()),
        }
    }
}

impl<R: Input> Source for StdSource<R> {
    ghost faults = { λ s. s.faults };

    ghost left = { λ s. if s.ended then Some [] else None };

    ghost allowance = { λ s. s.allowance };

    fn read(&mut self, into: &mut [u8]) -> Result<usize, Failed> {
        self.source.read(into)
    }
}

/// Standard output. It tells nothing of what was written.
#[derive(Drop)]
pub struct StdSink<R: Print + Copy + Drop> {
    sink: CountedStream<StdWriter<R>>,
}

impl<R: Print + Copy + Drop> Model for StdSink<R> {
    ghost use Rattle.cal_base.specs.World.Adapter.{StreamState};

    ghost Value = { StreamState };

    ghost view = { λ s. s.sink };
}

impl<R: Print + Copy + Drop> StdSink<R> {
    /// The standard output of the runtime.
    pub fn new(rt: &R) -> StdSink<R>
        ensures { result ≡ new_stream }
    {
        StdSink {
            sink: CountedStream::new(StdWriter { rt: *rt }),
        }
    }
}

impl<R: Print + Copy + Drop> Sink for StdSink<R> {
    ghost faults = { λ s. s.faults };

    ghost written = { λ _. None };

    fn write(&mut self, piece: &[u8]) -> Result<usize, Failed> {
        self.sink.write(piece)
    }
}

/// What writes to the standard output of a runtime that it has a copy of.
#[derive(Drop)]
struct StdWriter<R: Print + Copy + Drop> {
    rt: R,
}

impl<R: Print + Copy + Drop> Write for StdWriter<R> {
    fn write(&mut self, buf: &[u8]) -> io::Result<usize> {
        io::writer(&self.rt).write(buf)
    }

    fn flush(&mut self) -> io::Result<()> {
        io::writer(&self.rt).flush()
    }
}
