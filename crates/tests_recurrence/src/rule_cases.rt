//! Rules and moments to test with, whose parts keep their bounds.
ghost use Rattle.std.specs.Prelude.{◌≡◌, ℕ, ◌+◌, ◌*◌, ◌<◌, ◌≤◌, All, IfSome, false, true};
ghost use Rattle.std.specs.Int.{IsInRange};
ghost use Rattle.cal_model.specs.Recurrence.NextPassing.{is_fine, end_day};
ghost use Rattle.cal_model.specs.Recurrence.RuleBounds.{IsWritten, IsUsable, IsPlace, IsDayPart};
ghost use Rattle.cal_model.specs.Values.LocalTimes.{moment_of_local};

use cal_base::List;
use cal_model::{DayPart, Freq, Rule};
use cal_moment::{Local, day_of};
use std::alloc::Global;

/// The parts of a rule that a case sets; the others are absent.
#[derive(Clone, Copy)]
pub struct Parts {
    pub months: &'static [u8],
    pub weeks: &'static [i16],
    pub year_days: &'static [i16],
    pub month_days: &'static [i16],
    pub days: &'static [(i16, u8)],
    pub hours: &'static [u8],
    pub minutes: &'static [u8],
}

/// No part at all.
pub const NONE: Parts = Parts {
    months: &[],
    weeks: &[],
    year_days: &[],
    month_days: &[],
    days: &[],
    hours: &[],
    minutes: &[],
};

/// The numbers of a part from one to another. Without memory there are fewer.
fn numbers(alloc: Global, part: &[u8], low: u8, high: u8) -> List<u8>
    ensures { All (IsInRange low high) result }
{
    let mut list = List::new(alloc);
    for number in part {
        if low <= *number && *number <= high {
            let _ = list.push(*number);
        }
    }
    list
}

/// The numbers of a part below an end.
fn below(alloc: Global, part: &[u8], end: u8) -> List<u8>
    ensures { All (λ n. n < end) result }
{
    let mut list = List::new(alloc);
    for number in part {
        if *number < end {
            let _ = list.push(*number);
        }
    }
    list
}

/// The numbers of a part up to a size, from the front and from the end.
fn places(alloc: Global, part: &[i16], greatest: u16) -> List<i16>
    ensures { All (IsPlace greatest) result }
{
    let mut list = List::new(alloc);
    for number in part {
        if *number != 0 && number.unsigned_abs() <= greatest {
            let _ = list.push(*number);
        }
    }
    list
}

/// The weekdays of a part, each with its ordinal or with 0.
fn weekdays(alloc: Global, part: &[(i16, u8)]) -> List<DayPart>
    ensures { All IsDayPart result }
{
    let mut list = List::new(alloc);
    'parts: for (ordinal, weekday) in part {
        if ordinal.unsigned_abs() <= 53 && *weekday < 7 {
            let _ = list.push(DayPart {
                ordinal: *ordinal,
                weekday: *weekday,
            });
        }
    }
    list
}

/// A rule with those parts.
pub fn rule_of(alloc: Global, freq: Freq, interval: u32, week_start: u8, parts: Parts) -> Rule
    requires interval { 0 < interval }
    requires week_start { week_start < 7 }
    ensures usable { IsUsable result }
    ensures freq { result.freq ≡ freq }
{
    Rule {
        freq,
        interval,
        count: None,
        until: None,
        week_start,
        by_month: numbers(alloc, parts.months, 1, 12),
        by_week: places(alloc, parts.weeks, 53),
        by_year_day: places(alloc, parts.year_days, 366),
        by_month_day: places(alloc, parts.month_days, 31),
        by_day: weekdays(alloc, parts.days),
        by_hour: below(alloc, parts.hours, 24),
        by_minute: below(alloc, parts.minutes, 60),
        by_second: List::new(alloc),
        by_set_pos: List::new(alloc),
    }
}

/// A moment by its date and second of the day, if the calendar has the date.
pub fn moment(date: (i32, u8, u8), second: u32) -> Option<Local>
    requires { second < 86_400 }
    ensures { IfSome result (λ m. IsWritten m) }
{
    match day_of(date.0, date.1, date.2) {
        Some(day) => Some(Local { day: day.0, second }),
        None => None,
    }
}

/// The moment a second later.
pub fn after(m: Local) -> Local
    requires written { IsWritten m }
    requires before_end { moment_of_local m < 86_400 * end_day }
    ensures { IsWritten result }
{
    if m.second < 86_399 {
        Local {
            day: m.day,
            second: m.second + 1,
        }
    } else {
        Local {
            day: m.day + 1,
            second: 0,
        }
    }
}
