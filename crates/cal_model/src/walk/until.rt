//! UNTIL (RFC 5545, 3.3.10).
ghost use Rattle.std.specs.Prelude.{◌≡◌, Some, nat_le, nat_lt, pos, ◌*◌, ◌<◌, ◌^◌, ◌+ℤ◌, ◌≤ℤ◌};
ghost use Rattle.cal_moment.specs.Calendar.{IsCalendarDay, IsCalendarMoment, day_number, day_of_moment, moment_of_seconds};
ghost use Rattle.cal_model.specs.Recurrence.RuleBounds.{IsWritten, IsWrittenUntil};
ghost use Rattle.cal_model.specs.Values.LocalTimes.{moment_of_local};
ghost use Rattle.cal_model.specs.Recurrence.RecurrenceSet as spec;
ghost use Rattle.cal_model.specs.Walks.Clocks.{reading_by, IsClock};

use crate::rule::Until;
use crate::walk::clock::Clock;
use crate::walk::cursor::is_before;
use cal_moment::{Local, Utc};

/// The seconds of a moment since the year 0.
pub fn moment_of(m: Local) -> u64
    requires { IsWritten m }
    ensures value { result ≡ moment_of_local m }
    ensures bound { result < 2 ^ 40 }
{
    (m.day as i64 * 86_400 + m.second as i64 + 62_167_219_200) as u64
}

/// The same of the digits of a moment in UTC.
fn moment_in_utc(u: Utc) -> u64
    requires { IsCalendarMoment u.0 }
    ensures value { result ≡ moment_of_seconds u.0 }
    ensures bound { result < 2 ^ 40 }
{
    (u.0 + 62_167_219_200) as u64
}

/// Whether a moment lies on a day or before it.
fn is_by_day(m: Local, day: i32) -> bool
    requires written { IsWritten m }
    requires day { IsCalendarDay day }
    ensures { result ≡ nat_le (day_of_moment (moment_of_local m)) (day_number day) }
{
    m.day <= day
}

/// Whether a moment is not past UNTIL.
#[tactic(auto, using(crate::proofs::Walks::KeptLemmas::seconds_of_written))]
fn is_by(clock: &Clock, until: Until, m: Local) -> bool
    requires clock { IsClock clock.now }
    requires written { IsWritten m }
    requires until { IsWrittenUntil (Some until) }
    ensures { result ≡ spec.not_past (reading_by clock.now) until (moment_of_local m) }
{
    match until {
        Until::Day(day) => is_by_day(m, day.0),
        Until::Local(local) => match clock {
            Clock::Date => is_by_day(m, local.day),
            _ => !is_before(local, m),
        },
        Until::Utc(utc) => match clock {
            Clock::Date => moment_of(m) / 86_400 <= moment_in_utc(utc) / 86_400,
            Clock::Floating => moment_of(m) <= moment_in_utc(utc),
            _ => clock.instant(m) <= utc.0,
        },
    }
}

/// Whether a moment is not past UNTIL, if there is one.
pub fn until_passes(clock: &Clock, until: Option<Until>, m: Local) -> bool
    requires clock { IsClock clock.now }
    requires written { IsWritten m }
    requires until { IsWrittenUntil until }
    ensures { result ≡ spec.until_passes (reading_by clock.now) until (moment_of_local m) }
{
    match until {
        None => true,
        Some(until) => is_by(clock, until, m),
    }
}
