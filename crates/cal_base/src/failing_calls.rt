//! The calls of an implementation in memory, some of which fail.
ghost use Rattle.std.specs.Prelude.{◌≡◌, ◌≤◌};
ghost use Rattle.cal_base.specs.World.Memory.{no_calls, is_listed, after_success, after_fault};

use crate::failed::Failed;
use crate::list::List;
use std::marker::Model;

/// The numbers of the calls that fail, counted from 0, how many calls there were, and how many of
/// them failed. Both counts stay at the last value of a u64.
#[derive(Drop)]
pub struct FailingCalls {
    failing: List<u64>,
    made: u64,
    faults: u64,
}

impl Model for FailingCalls {
    ghost use Rattle.cal_base.specs.World.Memory.{Calls};

    ghost Value = { Calls };

    ghost view = { λ c. record { failing = c.failing; made = c.made; faults = c.faults } };
}

impl FailingCalls {
    /// Before the first call.
    pub fn new(failing: List<u64>) -> FailingCalls
        ensures { result ≡ no_calls failing }
    {
        FailingCalls {
            failing,
            made: 0,
            faults: 0,
        }
    }

    /// How many calls there were.
    pub fn made(&self) -> u64
        ensures { result ≡ self.now.made }
    {
        self.made
    }

    /// Whether the next call is one of those that fail.
    pub fn is_listed(&self) -> bool
        ensures { result ≡ is_listed self.now }
    {
        self.failing.as_slice().contains(&self.made)
    }

    /// Counts a call that did not fail.
    pub fn succeed(&mut self)
        ensures { self.new ≡ after_success self.old }
    {
        self.made = self.made.saturating_add(1);
    }

    /// Counts a call that failed.
    pub fn fail(&mut self) -> Failed
        ensures after { self.new ≡ after_fault self.old }
        ensures never_falls { self.old.faults ≤ self.new.faults }
    {
        self.made = self.made.saturating_add(1);
        self.faults = self.faults.saturating_add(1);
        Failed
    }
}
