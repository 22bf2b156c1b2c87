//! A link in memory, for sessions without a network.
ghost use Rattle.std.specs.Prelude.{◌≡◌, ◌≤◌, ◌^◌, ◌↔◌, ◌++◌, [], length, take, drop, Some, IsTrue, IsErr, IfOk, OnOk, OnErr};
ghost use Rattle.cal_base.specs.World.Memory.{no_calls, given_len, is_listed, link_read_fails, link_after_fault, link_after_read, link_after_write};

use crate::failed::Failed;
use crate::failing_calls::FailingCalls;
use crate::list::{List, Octets};
use crate::octet_supply::OctetSupply;
use crate::stream::Link;
use std::alloc::Global;
use std::marker::Model;

/// A link over octets that keeps what is written. Its reads and writes are numbered together. A
/// read fails exactly where its number is listed or the allowance is spent, a write where its
/// number is listed or for want of memory; every other read gives as many octets as there are, as
/// fit and as are allowed, and every other write takes the whole piece.
#[derive(Drop)]
pub struct MemoryLink {
    supply: OctetSupply,
    written: Octets,
    calls: FailingCalls,
}

impl Model for MemoryLink {
    ghost use Rattle.std.specs.Prelude.{◌≤◌, ◌^◌};
    ghost use Rattle.cal_base.specs.World.Memory.{LinkState};

    ghost Value = { LinkState };

    ghost view = { λ l. record { supply = l.supply; written = l.written; calls = l.calls } };

    ghost invariant = { λ l. l.supply.allowance ≤ 2 ^ 62 };
}

impl MemoryLink {
    /// A link from which the octets come, of which `allowance` may be given, and whose calls with
    /// the numbers in `failing` fail. Calls are counted from 0. It takes no memory yet.
    pub fn new(alloc: Global, octets: Octets, failing: List<u64>, allowance: u64) -> MemoryLink
        requires { allowance ≤ 2 ^ 62 }
        ensures { result ≡ record { supply = record { rest = octets; allowance = allowance }; written = []; calls = no_calls failing } }
    {
        MemoryLink {
            supply: OctetSupply::new(octets, allowance),
            written: Octets::new(alloc),
            calls: FailingCalls::new(failing),
        }
    }

    /// What was written so far.
    pub fn written(&self) -> &[u8]
        ensures { result.now ≡ self.now.written }
    {
        self.written.as_slice()
    }
}

impl Link for MemoryLink {
    ghost faults = { λ l. l.calls.faults };

    ghost left = { λ l. Some l.supply.rest };

    ghost written = { λ l. Some l.written };

    ghost allowance = { λ l. l.supply.allowance };

    fn read(&mut self, into: &mut [u8]) -> Result<usize, Failed>
        ensures fails { IsErr result ↔ IsTrue (link_read_fails self.old) }
        ensures fault { OnErr result (self.new ≡ link_after_fault self.old) }
        ensures place_kept { OnErr result (into.new ≡ into.old) }
        ensures count { IfOk result (λ n. n ≡ given_len self.old.supply (length into.old)) }
        ensures octets { IfOk result (λ n. into.new ≡ take n self.old.supply.rest ++ drop n into.old) }
        ensures after { IfOk result (λ n. self.new ≡ link_after_read self.old n) }
        ensures never_falls { self.old.calls.faults ≤ self.new.calls.faults }
        ensures bounded { self.old.supply.allowance ≤ 2 ^ 62 }
    {
        if self.calls.is_listed() || self.supply.is_spent() {
            return Err(self.calls.fail());
        }
        self.calls.succeed();
        Ok(self.supply.give(into))
    }

    fn write(&mut self, piece: &[u8]) -> Result<usize, Failed>
        ensures listed { IsTrue (is_listed self.old.calls) → IsErr result }
        ensures fault { OnErr result (self.new ≡ link_after_fault self.old) }
        ensures count { IfOk result (λ n. n ≡ length piece.now) }
        ensures after { OnOk result (self.new ≡ link_after_write self.old piece.now) }
        ensures never_falls { self.old.calls.faults ≤ self.new.calls.faults }
    {
        if self.calls.is_listed() || self.written.extend_from_slice(piece).is_err() {
            return Err(self.calls.fail());
        }
        self.calls.succeed();
        Ok(piece.len())
    }
}
