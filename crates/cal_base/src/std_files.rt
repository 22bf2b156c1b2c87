//! The files of the system.
ghost use Rattle.std.specs.Prelude.{◌≡◌, ◌≤◌, None, IsErrOf};
ghost use Rattle.cal_base.specs.World.Outside.{Rose};
ghost use Rattle.cal_base.specs.World.Adapter.{fault_told};

use crate::counted_stream::CountedStream;
use crate::files::{FileFault, Files};
use crate::list::Octets;
use crate::read_whole::{ReadEnd, read_up_to};
use std::alloc::Global;
use std::fs;
use std::marker::Model;

/// The files of the system. Contracts see how many of its calls failed.
#[derive(Drop)]
pub struct StdFiles<R: std::rt::Files + Copy + Drop> {
    rt: R,
    faults: u64,
}

impl<R: std::rt::Files + Copy + Drop> Model for StdFiles<R> {
    ghost use Rattle.std.specs.Prelude.{ℕ};

    ghost Value = { ℕ };

    ghost view = { λ f. f.faults };
}

impl<R: std::rt::Files + Copy + Drop> StdFiles<R> {
    /// The files that the runtime reaches.
    pub fn new(rt: &R) -> StdFiles<R>
        ensures { result ≡ 0 }
    {
        StdFiles { rt: *rt, faults: 0 }
    }

    /// What is told where the reading of an open file ended so; a failure is counted.
    fn told(&mut self, end: ReadEnd) -> FileFault
        ensures fault { result ≡ fault_told end }
        ensures failed { result ≡ FileFault.Failed → Rose self.old self.new }
        ensures no_memory { result ≡ FileFault.NoMemory → self.new ≡ self.old }
        ensures never_falls { self.old ≤ self.new }
    {
        match end {
            ReadEnd::Failed => {
                self.faults = self.faults.saturating_add(1);
                FileFault::Failed
            }
            ReadEnd::TooLong => FileFault::TooLong,
            ReadEnd::NoMemory => FileFault::NoMemory,
        }
    }
}

impl<R: std::rt::Files + Copy + Drop> Files for StdFiles<R> {
    ghost faults = { λ f. f };

    ghost content = { λ _ _. None };

    /// Reads at most `limit` + 1 octets of the file.
    fn read(&mut self, alloc: Global, path: &str, limit: u64) -> Result<Octets, FileFault> {
        let Ok(file) = fs::open(&self.rt, path) else {
            return Err(self.told(ReadEnd::Failed));
        };
        match read_up_to(alloc, &mut CountedStream::new(file), limit) {
            Ok(octets) => Ok(octets),
            Err(end) => Err(self.told(end)),
        }
    }
}
