//! Files in memory.
ghost use Rattle.std.specs.Prelude.{◌≡◌, ◌<◌, ◌≤◌, ◌↔◌, ◌∷◌, length, Some, IsTrue, IfOk, IfSome, OnOk, IsErrOf};
ghost use Rattle.std.specs.Option.{option_copied};
ghost use Rattle.cal_base.specs.World.Memory.{no_calls, content_of, files_read_fails, files_after_fault, files_after_read};

use crate::failing_calls::FailingCalls;
use crate::files::{FileFault, Files};
use crate::list::{List, Octets};
use std::alloc::Global;
use std::marker::Model;

/// Files in memory. A read fails exactly where its number is listed or there is no file with that
/// path; of two files with one path the first counts.
#[derive(Drop)]
pub struct MemoryFiles {
    files: List<(Octets, Octets)>,
    calls: FailingCalls,
}

impl Model for MemoryFiles {
    ghost use Rattle.cal_base.specs.World.Memory.{FilesState};

    ghost Value = { FilesState };

    ghost view = { λ f. record { files = f.files; calls = f.calls } };
}

impl MemoryFiles {
    /// These pairs of a path and a content, where the reads with the numbers in `failing` fail.
    /// Reads are counted from 0; one that found no memory is not counted.
    pub fn new(files: List<(Octets, Octets)>, failing: List<u64>) -> MemoryFiles
        ensures { result ≡ record { files = files; calls = no_calls failing } }
    {
        MemoryFiles {
            files,
            calls: FailingCalls::new(failing),
        }
    }
}

impl Files for MemoryFiles {
    ghost faults = { λ f. f.calls.faults };

    ghost content = { λ f path. content_of f.files path };

    fn read(&mut self, alloc: Global, path: &str, limit: u64) -> Result<Octets, FileFault>
        ensures fails { IsErrOf result FileFault.Failed ↔ IsTrue (files_read_fails self.old path.now) }
        ensures fault { IsErrOf result FileFault.Failed → self.new ≡ files_after_fault self.old }
        ensures too_long { IsErrOf result FileFault.TooLong → IfSome (content_of self.old.files path.now) (λ all. limit < length all) }
        ensures counted { IsErrOf result FileFault.TooLong → self.new ≡ files_after_read self.old }
        ensures no_memory { IsErrOf result FileFault.NoMemory → self.new ≡ self.old }
        ensures whole { IfOk result (λ octets. content_of self.old.files path.now ≡ Some octets) }
        ensures within { IfOk result (λ octets. length octets ≤ limit) }
        ensures after { OnOk result (self.new ≡ files_after_read self.old) }
        ensures never_falls { self.old.calls.faults ≤ self.new.calls.faults }
    {
        if self.calls.is_listed() {
            let _failed = self.calls.fail();
            return Err(FileFault::Failed);
        }
        let Some(content) = content_at(self.files.as_slice(), path.as_bytes()) else {
            let _failed = self.calls.fail();
            return Err(FileFault::Failed);
        };
        if limit < content.len() as u64 {
            self.calls.succeed();
            return Err(FileFault::TooLong);
        }
        let Ok(octets) = Octets::of(alloc, content) else {
            return Err(FileFault::NoMemory);
        };
        self.calls.succeed();
        Ok(octets)
    }
}

/// The content of the first file with this path.
fn content_at<'a>(files: &'a [(Octets, Octets)], path: &[u8]) -> Option<&'a [u8]>
    ensures { option_copied result ≡ content_of files.now path.now }
{
    'files: for file in files {
        if file.0.as_slice() == path {
            return Some(file.1.as_slice());
        }
    }
    None
}
