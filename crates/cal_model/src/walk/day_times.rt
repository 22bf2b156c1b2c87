//! The times of a day at which the moments of a rule stand (RFC 5545, 3.3.10).
ghost use Rattle.std.specs.Prelude.{◌≡◌, ◌+◌, ◌*◌, ◌<◌, ◌++◌, false, filter, OnOk};
ghost use Rattle.cal_model.specs.declared.rule.Freq.TheVariants.{Hourly};
ghost use Rattle.cal_model.specs.Recurrence.NextPassing.{is_fine};
ghost use Rattle.cal_model.specs.Recurrence.RuleBounds.{IsUsable, IsWritten};
ghost use Rattle.cal_model.specs.Recurrence.Passing.{part_passes};
ghost use Rattle.cal_model.specs.Values.LocalTimes.{moment_of_local};
ghost use Rattle.cal_model.specs.Walks.DayTimes.{minute_passes, second_passes, times_of_day, AreTimes};
ghost use Rattle.cal_model.specs.Words.Lists.{has_number, numbers_between};

use crate::rule::Rule;
use cal_base::{List, NoMemory};
use cal_moment::Local;

/// Whether a part has a number.
fn has(part: &List<u8>, number: u32) -> bool
    ensures { result ≡ has_number part.now number }
{
    part.iter().any(|n| *n as u32 == number)
}

/// Whether a part of the time lets a value pass: where it is absent the start's alone.
fn passes(part: &List<u8>, of_start: u32, value: u32) -> bool
    ensures { result ≡ part_passes part.now of_start value }
{
    if part.is_empty() {
        value == of_start
    } else {
        has(part, value)
    }
}

/// Puts the seconds of a minute of the day that BYSECOND lets pass behind the others, in order.
fn put_seconds(rule: &Rule, of_start: u32, minute: u32, out: &mut List<u32>) -> Result<(), NoMemory>
    requires minute { minute < 1440 }
    ensures { OnOk result (out.new ≡ out.old ++ filter (second_passes rule.now of_start) (numbers_between (60 * minute) (60 * minute + 60))) }
{
    for second in 0..60u32 {
        if passes(&rule.by_second, of_start % 60, second) {
            out.push(60 * minute + second)?;
        }
    }
    Ok(())
}

/// Puts the seconds of an hour of the day that BYMINUTE and BYSECOND let pass behind the others, in order.
fn put_minutes(rule: &Rule, of_start: u32, hour: u32, out: &mut List<u32>) -> Result<(), NoMemory>
    requires hour { hour < 24 }
    ensures { OnOk result (out.new ≡ out.old ++ filter (minute_passes rule.now of_start) (numbers_between (3600 * hour) (3600 * hour + 3600))) }
{
    for minute in 0..60u32 {
        if passes(&rule.by_minute, of_start / 60 % 60, minute) {
            put_seconds(rule, of_start, 60 * hour + minute, out)?;
        }
    }
    Ok(())
}

/// Puts the seconds of a day at which the parts of the time let a moment pass behind the others, in
/// order; where `dated`, the start is a DATE, and the first second stands for the day.
fn put_day_times(
    rule: &Rule,
    start: Local,
    dated: bool,
    out: &mut List<u32>,
) -> Result<(), NoMemory>
    requires start { IsWritten start }
    requires rule { IsUsable rule.now }
    requires coarse { is_fine rule.now.freq ≡ false }
    requires whole { rule.now.freq ≡ Hourly → ⊥ }
    ensures { OnOk result (out.new ≡ out.old ++ times_of_day rule.now (moment_of_local start) dated) }
{
    if dated {
        return out.push(0);
    }
    for hour in 0..24u32 {
        if passes(&rule.by_hour, start.second / 3600, hour) {
            put_minutes(rule, start.second, hour, out)?;
        }
    }
    Ok(())
}

/// Finds these seconds, unless they were found.
pub fn find_times(
    rule: &Rule,
    start: Local,
    dated: bool,
    times: &mut List<u32>,
) -> Result<(), NoMemory>
    requires start { IsWritten start }
    requires rule { IsUsable rule.now }
    requires coarse { is_fine rule.now.freq ≡ false }
    requires whole { rule.now.freq ≡ Hourly → ⊥ }
    requires times { AreTimes rule.now (moment_of_local start) dated times.old }
    ensures { OnOk result (times.new ≡ times_of_day rule.now (moment_of_local start) dated) }
{
    if times.is_empty() {
        put_day_times(rule, start, dated, times)
    } else {
        Ok(())
    }
}
