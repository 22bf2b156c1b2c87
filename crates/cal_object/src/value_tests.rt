//! Whether the value of a line can be read, and is not too long (RFC 5545, 3.3 and 3.8).
ghost use Rattle.std.specs.Prelude.{◌≡◌, [], is_some, pos, neg_ℤ, IfOk};
ghost use Rattle.std.specs.List.{list_all};
ghost use Rattle.cal_moment.specs.Calendar.{IsBetween};
ghost use Rattle.cal_moment.specs.declared.stamp.Period.{Period};
ghost use Rattle.cal_model.specs.Ranges.Overlap as overlap;
ghost use Rattle.cal_model.specs.Values.RuleTexts.{rule_of};
ghost use Rattle.cal_model.specs.Values.StampTexts.{trigger_of};
ghost use Rattle.cal_model.specs.Values.ValueTexts.{length_of};
ghost use Rattle.cal_model.specs.Objects.LineValues as spec;
ghost use Rattle.cal_object.specs.Properties.{test_of};

use crate::dates::has_periods;
use crate::property::Property;
use cal_base::{Line, NoMemory};
use cal_model::Trigger;
use cal_moment::{Length, Period, PeriodEnd};
use ical_values::{
    ValueFault, ZoneNames, read_duration, read_periods_of_any_zone, read_repeat, read_rule,
    read_stamps_of_any_zone, read_trigger, read_utc_offset,
};
use std::alloc::Global;

/// The most seconds of a length: 200,000 days.
const LONGEST: i128 = 17_280_000_000;

/// The seconds of a length, a day as 86,400.
fn seconds_of(length: Length) -> i128
    ensures value { result ≡ overlap.seconds_of length }
    ensures small { IsBetween (neg_ℤ (pos 1_000_000_000_000_000_000_000_000)) (pos 1_000_000_000_000_000_000_000_000) result }
{
    length.days as i128 * 86_400 + length.seconds as i128
}

/// Whether a length is at most 200,000 days, forward or back.
fn is_short(length: Length) -> bool
    ensures { result ≡ spec.is_short length }
{
    let seconds = seconds_of(length);
    -LONGEST <= seconds && seconds <= LONGEST
}

/// Whether a period ends at a stamp or is short.
fn is_short_end(end: PeriodEnd) -> bool
    ensures { result ≡ spec.is_short_end end }
{
    match end {
        PeriodEnd::At(_) => true,
        PeriodEnd::After(length) => is_short(length),
    }
}

/// Whether a value is a short DURATION.
fn is_short_duration(text: &[u8]) -> bool
    ensures { result ≡ spec.is_short_length (length_of text.now) }
{
    match read_duration(text) {
        Ok(length) => is_short(length),
        Err(_) => false,
    }
}

/// Whether a line is a TRIGGER of a moment or of a short length.
fn is_short_trigger(line: &Line) -> bool
    ensures { result ≡ spec.is_short_trigger (trigger_of line.now) }
{
    match read_trigger(line) {
        Ok(Trigger::At(_)) => true,
        Ok(Trigger::From(_, length)) => is_short(length),
        Err(_) => false,
    }
}

/// Whether a value is a rule.
fn is_rule(alloc: Global, text: &[u8]) -> Result<bool, NoMemory>
    ensures { IfOk result (λ good. good ≡ is_some (rule_of text.now)) }
{
    match read_rule(alloc, text) {
        Ok(_) => Ok(true),
        Err(ValueFault::Bad { .. }) => Ok(false),
        Err(ValueFault::NoMemory) => Err(NoMemory),
    }
}

/// Whether a value is a stamp, or several where the line has a list.
fn is_of_stamps(alloc: Global, zones: &ZoneNames, line: &Line) -> Result<bool, NoMemory>
    requires { zones.now ≡ [] }
    ensures { IfOk result (λ good. good ≡ spec.is_of_stamps line.now) }
{
    match read_stamps_of_any_zone(alloc, line, zones) {
        Ok(_) => Ok(true),
        Err(ValueFault::Bad { .. }) => Ok(false),
        Err(ValueFault::NoMemory) => Err(NoMemory),
    }
}

/// Whether each period ends at a stamp or is short.
fn are_short(periods: &[Period]) -> bool
    ensures { result ≡ list_all (λ (period : Period). spec.is_short_end period.end) periods.now }
{
    periods.iter().all(|period| is_short_end(period.end))
}

/// Whether a value is of periods, each of them short.
fn is_of_short_periods(alloc: Global, zones: &ZoneNames, line: &Line) -> Result<bool, NoMemory>
    requires { zones.now ≡ [] }
    ensures { IfOk result (λ good. good ≡ spec.is_of_short_periods line.now) }
{
    match read_periods_of_any_zone(alloc, line, zones) {
        Ok(periods) => Ok(are_short(periods.as_slice())),
        Err(ValueFault::Bad { .. }) => Ok(false),
        Err(ValueFault::NoMemory) => Err(NoMemory),
    }
}

/// Whether a value is that of an RDATE.
fn is_of_dates(alloc: Global, zones: &ZoneNames, line: &Line) -> Result<bool, NoMemory>
    requires { zones.now ≡ [] }
    ensures { IfOk result (λ good. good ≡ spec.is_of_dates line.now) }
{
    if has_periods(line) {
        is_of_short_periods(alloc, zones, line)
    } else {
        is_of_stamps(alloc, zones, line)
    }
}

/// Whether the value of a line of a property can be read, and is not too long. A zone that is not
/// there is no fault here.
pub fn passes(
    alloc: Global,
    zones: &ZoneNames,
    property: Property,
    line: &Line,
) -> Result<bool, NoMemory>
    requires { zones.now ≡ [] }
    ensures { IfOk result (λ good. good ≡ test_of property line.now) }
{
    let text = line.value.as_slice();
    match property {
        Property::Duration => Ok(is_short_duration(text)),
        Property::Rule => is_rule(alloc, text),
        Property::Dates => is_of_dates(alloc, zones, line),
        Property::FreeBusy => is_of_short_periods(alloc, zones, line),
        Property::Trigger => Ok(is_short_trigger(line)),
        Property::Repeat => Ok(read_repeat(text).is_some()),
        Property::OffsetFrom | Property::OffsetTo => Ok(read_utc_offset(text).is_ok()),
        _ => is_of_stamps(alloc, zones, line),
    }
}
