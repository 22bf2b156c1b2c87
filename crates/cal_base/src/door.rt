//! Where connections come in, and what may hold a thread back.
ghost use Rattle.std.specs.Prelude.{◌≡◌, ℕ, ℤ, ◌≤◌, Option, IfOk, OnErr};
ghost use Rattle.cal_base.specs.World.Outside.{Rose, IsNext};

use crate::clock::Clock;
use crate::failed::Failed;
use crate::stream::Link;
use std::alloc::Global;
use std::sync::Wait;

/// It may hold its callers back, as a test does to bring about one order of threads.
pub trait Gate {
    /// Passes the gate with a number. It changes nothing, and may wait.
    fn pass<R: Wait>(&self, rt: &R, number: u64);
}

/// Connections come through it. A door, its links and its clocks may go to another thread, and may
/// be let go at any time.
pub trait Door: Sized + Send + Drop {
    type Link: Link + Send + Drop;

    type Clock: Clock + Send + Drop;

    /// How many of its calls failed. It never falls.
    ghost faults: { Self → ℕ };

    /// How often a connection was asked for, whether one came or not.
    ghost tries: { Self → ℕ };

    /// The moment that its clock gives, where it tells one.
    ghost moment: { Self → Option ℤ };

    /// Listens at an address.
    fn open(&mut self, address: &str) -> Result<(), Failed>
        ensures never_falls { faults self.old ≤ faults self.new }
        ensures failed { OnErr result (Rose (faults self.old) (faults self.new)) }
        ensures tries_kept { tries self.new ≡ tries self.old }
        ensures moment_kept { moment self.new ≡ moment self.old };

    /// A second door to the same place, with counts of its own.
    fn another(&mut self, alloc: Global) -> Result<Self, Failed>
        ensures never_falls { faults self.old ≤ faults self.new }
        ensures failed { OnErr result (Rose (faults self.old) (faults self.new)) }
        ensures tries_kept { tries self.new ≡ tries self.old }
        ensures moment_kept { moment self.new ≡ moment self.old }
        ensures no_faults { IfOk result (λ door. faults door ≡ 0) }
        ensures no_tries { IfOk result (λ door. tries door ≡ 0) }
        ensures same_moment { IfOk result (λ door. moment door ≡ moment self.old) };

    /// Waits for the next connection.
    fn accept<R: Wait>(&mut self, rt: &R) -> Result<Self::Link, Failed>
        ensures never_falls { faults self.old ≤ faults self.new }
        ensures failed { OnErr result (Rose (faults self.old) (faults self.new)) }
        ensures tried { IsNext (tries self.old) (tries self.new) }
        ensures moment_kept { moment self.new ≡ moment self.old };

    /// The clock of the place.
    fn clock(&self) -> Self::Clock
        ensures { Self.Clock.moment result ≡ moment self.now };

    /// Waits a while, where there is nothing to do. It changes nothing.
    fn rest<R: Wait>(&mut self, rt: &R)
        ensures faults_kept { faults self.new ≡ faults self.old }
        ensures tries_kept { tries self.new ≡ tries self.old }
        ensures moment_kept { moment self.new ≡ moment self.old };
}
