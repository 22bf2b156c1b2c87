//! Streams of octets that lie outside the program: what is read, what is written, and both.
ghost use Rattle.std.specs.Prelude.{◌≡◌, ℕ, ◌+◌, ◌<◌, ◌≤◌, ◌^◌, List, [], length, take, ◌⊎◌, Option, Some, None, IsErr, IfOk, OnOk, OnErr};
ghost use Rattle.cal_base.specs.World.Outside.{Rose, Takes, Adds};

use crate::failed::Failed;

/// Octets come from it.
pub trait Source {
    /// How many of its calls failed. It never falls.
    ghost faults: { Self → ℕ };

    /// What is left to read, where that is told.
    ghost left: { Self → Option (List ℕ) };

    /// How many octets it may still give: at most 2^62, and fewer by what each read gives, so that
    /// a loop over it ends.
    ghost allowance: { Self → ℕ };

    /// Reads the next octets of what is left into the front of a place, and says how many.
    ///
    /// `Ok(0)` for a place that is not empty says that nothing is left; any other read tells nothing
    /// of what was not told before. A read fails where the allowance is spent; after a failure
    /// nothing was read. A read that does not fail is not counted.
    fn read(&mut self, into: &mut [u8]) -> Result<usize, Failed>
        ensures never_falls { faults self.old ≤ faults self.new }
        ensures failed { OnErr result (Rose (faults self.old) (faults self.new)) }
        ensures uncounted { OnOk result (faults self.new ≡ faults self.old) }
        ensures nothing_read { OnErr result (left self.new ≡ left self.old) }
        ensures allowance_kept { OnErr result (allowance self.new ≡ allowance self.old) }
        ensures within { IfOk result (λ n. n ≤ length into.old) }
        ensures taken { IfOk result (λ n. Takes (left self.old) (take n into.new) (left self.new)) }
        ensures at_end { IfOk result (λ n. n ≡ 0 → 0 < length into.old → left self.new ≡ Some []) }
        ensures untold { IfOk result (λ n. ((0 < n) ⊎ (length into.old ≡ 0)) → left self.old ≡ None → left self.new ≡ None) }
        ensures allowed { IfOk result (λ n. n + allowance self.new ≤ allowance self.old) }
        ensures spent { allowance self.old ≡ 0 → IsErr result }
        ensures bounded { allowance self.old ≤ 2 ^ 62 };
}

/// Octets go to it.
pub trait Sink {
    /// How many of its calls failed. It never falls.
    ghost faults: { Self → ℕ };

    /// What was written, where that is told.
    ghost written: { Self → Option (List ℕ) };

    /// Writes the front of a piece, and says how many octets: at least one, where the piece is not
    /// empty. After a failure nothing was written; a write that does not fail is not counted.
    fn write(&mut self, piece: &[u8]) -> Result<usize, Failed>
        ensures never_falls { faults self.old ≤ faults self.new }
        ensures failed { OnErr result (Rose (faults self.old) (faults self.new)) }
        ensures uncounted { OnOk result (faults self.new ≡ faults self.old) }
        ensures nothing_written { OnErr result (written self.new ≡ written self.old) }
        ensures within { IfOk result (λ n. n ≤ length piece.now) }
        ensures some { IfOk result (λ n. 0 < length piece.now → 0 < n) }
        ensures added { IfOk result (λ n. Adds (written self.old) (take n piece.now) (written self.new)) };
}

/// A connection: octets come from it and go to it, with one count of faults.
pub trait Link {
    /// How many of its calls failed. It never falls.
    ghost faults: { Self → ℕ };

    /// What is left to read, where that is told.
    ghost left: { Self → Option (List ℕ) };

    /// What was written, where that is told.
    ghost written: { Self → Option (List ℕ) };

    /// How many octets it may still give: at most 2^62, and fewer by what each read gives.
    ghost allowance: { Self → ℕ };

    /// Reads as a `Source` does, and writes nothing.
    fn read(&mut self, into: &mut [u8]) -> Result<usize, Failed>
        ensures never_falls { faults self.old ≤ faults self.new }
        ensures failed { OnErr result (Rose (faults self.old) (faults self.new)) }
        ensures uncounted { OnOk result (faults self.new ≡ faults self.old) }
        ensures nothing_read { OnErr result (left self.new ≡ left self.old) }
        ensures allowance_kept { OnErr result (allowance self.new ≡ allowance self.old) }
        ensures written_kept { written self.new ≡ written self.old }
        ensures within { IfOk result (λ n. n ≤ length into.old) }
        ensures taken { IfOk result (λ n. Takes (left self.old) (take n into.new) (left self.new)) }
        ensures at_end { IfOk result (λ n. n ≡ 0 → 0 < length into.old → left self.new ≡ Some []) }
        ensures untold { IfOk result (λ n. ((0 < n) ⊎ (length into.old ≡ 0)) → left self.old ≡ None → left self.new ≡ None) }
        ensures allowed { IfOk result (λ n. n + allowance self.new ≤ allowance self.old) }
        ensures spent { allowance self.old ≡ 0 → IsErr result }
        ensures bounded { allowance self.old ≤ 2 ^ 62 };

    /// Writes as a `Sink` does, and reads nothing.
    fn write(&mut self, piece: &[u8]) -> Result<usize, Failed>
        ensures never_falls { faults self.old ≤ faults self.new }
        ensures failed { OnErr result (Rose (faults self.old) (faults self.new)) }
        ensures uncounted { OnOk result (faults self.new ≡ faults self.old) }
        ensures nothing_written { OnErr result (written self.new ≡ written self.old) }
        ensures left_kept { left self.new ≡ left self.old }
        ensures allowance_kept { allowance self.new ≡ allowance self.old }
        ensures within { IfOk result (λ n. n ≤ length piece.now) }
        ensures some { IfOk result (λ n. 0 < length piece.now → 0 < n) }
        ensures added { IfOk result (λ n. Adds (written self.old) (take n piece.now) (written self.new)) };
}
