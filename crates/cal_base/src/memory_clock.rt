//! Clocks that give the moment that they were told.
ghost use Rattle.std.specs.Prelude.{◌≡◌, ℤ, Some};
ghost use Rattle.cal_base.specs.World.Outside.{IsMoment};

use crate::clock::Clock;
use std::marker::Model;

/// A clock that always gives the same moment. Contracts see that moment.
#[derive(Clone, Copy)]
pub struct FixedClock {
    moment: i64,
}

impl Model for FixedClock {
    ghost Value = { ℤ };

    ghost view = { λ c. c.moment };

    ghost invariant = { λ c. IsMoment c.moment };

    ghost inverse = { λ m. record { moment = m } };
}

impl FixedClock {
    /// A clock of this moment.
    pub fn new(moment: i64) -> FixedClock
        requires { IsMoment moment }
        ensures { result ≡ moment }
    {
        FixedClock { moment }
    }
}

impl Clock for FixedClock {
    ghost moment = { λ c. Some c };

    fn now(&mut self) -> i64 {
        self.moment
    }
}

/// A clock that gives the moment to which it was last set. Contracts see that moment.
#[derive(Clone, Copy)]
pub struct SetClock {
    moment: i64,
}

impl Model for SetClock {
    ghost Value = { ℤ };

    ghost view = { λ c. c.moment };

    ghost invariant = { λ c. IsMoment c.moment };

    ghost inverse = { λ m. record { moment = m } };
}

impl SetClock {
    /// A clock set to this moment.
    pub fn new(moment: i64) -> SetClock
        requires { IsMoment moment }
        ensures { result ≡ moment }
    {
        SetClock { moment }
    }

    /// Sets it to another moment.
    pub fn set(&mut self, moment: i64)
        requires { IsMoment moment }
        ensures { self.new ≡ moment }
    {
        self.moment = moment;
    }
}

impl Clock for SetClock {
    ghost moment = { λ c. Some c };

    fn now(&mut self) -> i64 {
        self.moment
    }
}
