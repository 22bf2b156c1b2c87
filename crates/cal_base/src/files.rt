//! Files that lie outside the program, read whole.
ghost use Rattle.std.specs.Prelude.{◌≡◌, ℕ, ◌<◌, ◌≤◌, List, length, Option, IfOk, IfSome, IsErrOf};
ghost use Rattle.cal_base.specs.World.Outside.{Rose};

use crate::list::Octets;
use std::alloc::Global;

/// Why a file was not read.
#[derive(Debug, Clone, Copy, PartialEq, Eq)]
pub enum FileFault {
    /// The call failed, and was counted.
    Failed,
    /// The file has more octets than the limit.
    TooLong,
    /// There was no memory for the content.
    NoMemory,
}

/// Whole files are read from it.
pub trait Files {
    /// How many of its calls failed. It never falls.
    ghost faults: { Self → ℕ };

    /// What the file at a path has, where that is told. No read changes it.
    ghost content: { Self → List ℕ → Option (List ℕ) };

    /// The whole content of the file at a path, if it has at most `limit` octets.
    ///
    /// `TooLong` comes exactly where it has more, want of memory and a failed call aside. After
    /// `NoMemory` all is as before.
    fn read(&mut self, alloc: Global, path: &str, limit: u64) -> Result<Octets, FileFault>
        ensures never_falls { faults self.old ≤ faults self.new }
        ensures failed { IsErrOf result FileFault.Failed → Rose (faults self.old) (faults self.new) }
        ensures content_kept { (p : List ℕ) → content self.new p ≡ content self.old p }
        ensures within { IfOk result (λ octets. length octets ≤ limit) }
        ensures whole { IfOk result (λ octets. IfSome (content self.old path.now) (λ all. octets ≡ all)) }
        ensures too_long { IsErrOf result FileFault.TooLong → IfSome (content self.old path.now) (λ all. limit < length all) }
        ensures no_memory { IsErrOf result FileFault.NoMemory → self.new ≡ self.old };
}
