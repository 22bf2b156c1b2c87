//! The clock of the system.
ghost use Rattle.std.specs.Prelude.{◌≡◌, min, pos, None};

use crate::clock::Clock;
use std::marker::Model;

/// The last moment that a clock may give, 9999-12-31T23:59:59Z.
const LAST_MOMENT: u64 = 253402300799;

/// The clock of the system. It gives the nearest moment in a clock's range; where the system gives
/// none it gives its last moment again, and 0 before the first. Contracts see that last moment.
#[derive(Drop)]
pub struct SystemClock<R: std::rt::Clock + Copy + Drop> {
    rt: R,
    last: i64,
}

impl<R: std::rt::Clock + Copy + Drop> Model for SystemClock<R> {
    ghost use Rattle.std.specs.Prelude.{ℤ};
    ghost use Rattle.cal_base.specs.World.Outside.{IsMoment};

    ghost Value = { ℤ };

    ghost view = { λ c. c.last };

    ghost invariant = { λ c. IsMoment c.last };
}

impl<R: std::rt::Clock + Copy + Drop> SystemClock<R> {
    /// The clock of the runtime.
    pub fn new(rt: &R) -> SystemClock<R>
        ensures { result ≡ pos 0 }
    {
        SystemClock { rt: *rt, last: 0 }
    }
}

impl<R: std::rt::Clock + Copy + Drop> Clock for SystemClock<R> {
    ghost moment = { λ _. None };

    fn now(&mut self) -> i64 {
        if let Ok(since) = self.rt.since_1970() {
            self.last = nearest_moment(since.as_secs());
        }
        self.last
    }
}

/// The moment nearest to so many seconds.
fn nearest_moment(seconds: u64) -> i64
    ensures { result ≡ pos (min seconds 253402300799) }
{
    seconds.min(LAST_MOMENT) as i64
}
