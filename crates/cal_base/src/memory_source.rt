//! A source in memory, for tests and for runs over a text that is at hand.
ghost use Rattle.std.specs.Prelude.{◌≡◌, ◌≤◌, ◌^◌, ◌↔◌, ◌++◌, length, take, drop, Some, IsTrue, IsErr, IfOk, OnErr};
ghost use Rattle.cal_base.specs.World.Memory.{no_calls, given_len, source_read_fails, source_after_fault, source_after_read};

use crate::failed::Failed;
use crate::failing_calls::FailingCalls;
use crate::list::{List, Octets};
use crate::octet_supply::OctetSupply;
use crate::stream::Source;
use std::marker::Model;

/// A source over octets. A read fails exactly where its number is listed or the allowance is
/// spent; every other read gives as many octets as there are, as fit and as are allowed.
#[derive(Drop)]
pub struct MemorySource {
    supply: OctetSupply,
    calls: FailingCalls,
}

impl Model for MemorySource {
    ghost use Rattle.std.specs.Prelude.{◌≤◌, ◌^◌};
    ghost use Rattle.cal_base.specs.World.Memory.{SourceState};

    ghost Value = { SourceState };

    ghost view = { λ s. record { supply = s.supply; calls = s.calls } };

    ghost invariant = { λ s. s.supply.allowance ≤ 2 ^ 62 };
}

impl MemorySource {
    /// A source of the octets, of which `allowance` may be given, whose reads with the numbers in
    /// `failing` fail. Reads are counted from 0.
    pub fn new(octets: Octets, failing: List<u64>, allowance: u64) -> MemorySource
        requires { allowance ≤ 2 ^ 62 }
        ensures { result ≡ record { supply = record { rest = octets; allowance = allowance }; calls = no_calls failing } }
    {
        MemorySource {
            supply: OctetSupply::new(octets, allowance),
            calls: FailingCalls::new(failing),
        }
    }
}

impl Source for MemorySource {
    ghost faults = { λ s. s.calls.faults };

    ghost left = { λ s. Some s.supply.rest };

    ghost allowance = { λ s. s.supply.allowance };

    fn read(&mut self, into: &mut [u8]) -> Result<usize, Failed>
        ensures fails { IsErr result ↔ IsTrue (source_read_fails self.old) }
        ensures fault { OnErr result (self.new ≡ source_after_fault self.old) }
        ensures place_kept { OnErr result (into.new ≡ into.old) }
        ensures count { IfOk result (λ n. n ≡ given_len self.old.supply (length into.old)) }
        ensures octets { IfOk result (λ n. into.new ≡ take n self.old.supply.rest ++ drop n into.old) }
        ensures after { IfOk result (λ n. self.new ≡ source_after_read self.old n) }
        ensures never_falls { self.old.calls.faults ≤ self.new.calls.faults }
        ensures bounded { self.old.supply.allowance ≤ 2 ^ 62 }
    {
        if self.calls.is_listed() || self.supply.is_spent() {
            return Err(self.calls.fail());
        }
        self.calls.succeed();
        Ok(self.supply.give(into))
    }
}
