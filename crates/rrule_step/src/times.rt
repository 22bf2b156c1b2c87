//! The times of a day that three sets hold, in order and without a list.
ghost use Rattle.std.specs.Prelude.{◌≡◌, ℕ, ◌<◌, ◌≤◌, ◌/◌, ◌%◌};
ghost use Rattle.cal_model.specs.Recurrence.Passing as spec;
ghost use Rattle.rrule_step.specs.Clock.{in_hour, in_day};
ghost use Rattle.rrule_step.specs.Firsts.{FindsFirst};

use crate::parts::{hour_part, time_part};
use crate::set::Set;
use cal_model::Rule;

/// The hours, minutes and seconds at which a rule passes on a day.
#[derive(Clone, Copy)]
pub struct Times {
    pub hours: Set,
    pub minutes: Set,
    pub seconds: Set,
}

/// What a rule asks of the time of day. Beside a start that is a DATE that is midnight, whatever the
/// rule says.
pub fn times_of(rule: &Rule, second: u32, dated: bool) -> Times
    requires { second < 86_400 }
    ensures { (k : ℕ) → k < 86_400 → spec.time_passes rule.now second dated k ≡ in_day result.hours result.minutes result.seconds k }
{
    if dated {
        let midnight = Set::only(0);
        return Times {
            hours: midnight,
            minutes: midnight,
            seconds: midnight,
        };
    }
    Times {
        hours: hour_part(rule.freq, &rule.by_hour, second / 3600),
        minutes: time_part(&rule.by_minute, second / 60 % 60),
        seconds: time_part(&rule.by_second, second % 60),
    }
}

/// The first second of an hour from one on.
fn next_in_hour(minutes: Set, seconds: Set, from: u32) -> Option<u32>
    ensures { FindsFirst (in_hour minutes seconds) from 3600 result }
{
    let mut minute = from / 60;
    while let Some(next) = minutes.next(minute, 60) {
        if let Some(second) = seconds.next(from.saturating_sub(60 * next), 60) {
            return Some(60 * next + second);
        }
        minute = next + 1;
    }
    None
}

/// The first second of a day from one on.
pub fn next_in_day(hours: Set, minutes: Set, seconds: Set, from: u32) -> Option<u32>
    ensures { FindsFirst (in_day hours minutes seconds) from 86_400 result }
{
    let mut hour = from / 3600;
    while let Some(next) = hours.next(hour, 24) {
        if let Some(second) = next_in_hour(minutes, seconds, from.saturating_sub(3600 * next)) {
            return Some(3600 * next + second);
        }
        hour = next + 1;
    }
    None
}
