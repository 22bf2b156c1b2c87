//! A door that tells where it listens.

use cal_base::{Door, Failed};
use std::alloc::Global;
use std::io::Eprint;
use std::sync::Wait;

/// A door that is another one, and that writes a line on standard error once it listens.
#[derive(Drop)]
pub(crate) struct TellingDoor<R: Eprint + Copy + Drop, D: Door> {
    rt: R,
    door: D,
}

impl<R: Eprint + Copy + Drop, D: Door> TellingDoor<R, D> {
    pub(crate) fn new(rt: &R, door: D) -> TellingDoor<R, D> {
        TellingDoor { rt: *rt, door }
    }
}

impl<R: Eprint + Copy + Drop + Send, D: Door> Door for TellingDoor<R, D> {
    type Link = D::Link;

    type Clock = D::Clock;

    ghost faults = { λ d. D.faults d.door };

    ghost tries = { λ d. D.tries d.door };

    ghost moment = { λ d. D.moment d.door };

    fn open(&mut self, address: &str) -> Result<(), Failed> {
        self.door.open(address)?;
        let _ = eprintln!(self.rt; "listening on {address}");
        Ok(())
    }

    fn another(&mut self, alloc: Global) -> Result<TellingDoor<R, D>, Failed> {
        let door = self.door.another(alloc)?;
        Ok(TellingDoor { rt: self.rt, door })
    }

    fn accept<W: Wait>(&mut self, rt: &W) -> Result<D::Link, Failed> {
        self.door.accept(rt)
    }

    fn clock(&self) -> D::Clock {
        self.door.clock()
    }

    fn rest<W: Wait>(&mut self, rt: &W) {
        self.door.rest(rt);
    }
}
