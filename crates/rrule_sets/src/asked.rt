//! The starts that a component and its RDATEs give in a range of digits (RFC 5545, 3.8.5.2).
ghost use Rattle.std.specs.Prelude.{◌≡◌, ◌+◌, ◌*◌, ◌<◌, ◌≤◌, ◌++◌, ◌∷◌, List, [], length, filter, map, All, OnOk, pos, neg_ℤ, ℤ, ◌-ℤ◌, ◌+ℤ◌, if◌then◌else◌};
ghost use Rattle.cal_moment.specs.Calendar.{IsBetween};
ghost use Rattle.cal_model.specs.Instances.Alignment as alignment;
ghost use Rattle.cal_model.specs.Instances.Starts as spec;
ghost use Rattle.override_merge.specs.AlignedStamps.{aligned_by, HasDigits};
ghost use Rattle.override_merge.specs.Conversions.{tables_of, HasZone, IsConvertible};
ghost use Rattle.override_merge.specs.ExpandableComponents.{IsConvertibleEnd, IsConvertiblePeriod};
ghost use Rattle.rrule_sets.specs.DigitRanges.{starts_in};
ghost use Rattle.rrule_sets.specs.PeriodSpans.{period_span, span_starts_in};

use crate::range::{Digits, holds};
use cal_base::{List, NoMemory, Steps};
use cal_model::{LocalTimes, written_value};
use cal_moment::{Period, PeriodEnd, Stamp};
use override_merge::ends::plus_length;
use override_merge::stamps::{Aligned, align, midnight_of};
use override_merge::zones::{instant_beside, local_beside};
use std::sync::ledger::Ledger;

/// Puts a start behind the others, if its digits lie in a range.
pub fn put_start(
    zones: &[LocalTimes<'_>],
    stamp: Stamp,
    range: Digits,
    start: i64,
    out: &mut List<i64>,
) -> Result<(), NoMemory>
    requires stamp { HasZone (length zones.now) stamp }
    requires near { IsBetween (neg_ℤ (pos 180_000_000_000_000)) (pos 180_000_000_000_000) start }
    ensures { OnOk result (out.new ≡ out.old ++ filter (starts_in (tables_of zones.now) stamp range) (start ∷ [])) }
{
    if holds(range, local_beside(zones, stamp, start)) {
        out.push(start)?;
    }
    Ok(())
}

/// The digits of a stamp's time of day: how long after its midnight it is written.
fn time_of_day(stamp: Stamp) -> i64
    requires { IsBetween (neg_ℤ (pos 1_099_511_627_776)) (pos 1_099_511_627_776) (alignment.written_value stamp) }
    ensures value { result ≡ alignment.written_value stamp -ℤ alignment.midnight_of (alignment.written_value stamp) }
    ensures near { IsBetween (pos 0) (pos 86_400) result }
{
    let written = written_value(stamp);
    written - midnight_of(written)
}

/// The digits of a local day at the time of day of a stamp.
fn at_time_of(midnight: i64, stamp: Stamp) -> i64
    requires midnight { IsBetween (neg_ℤ (pos 1_099_511_627_776)) (pos 1_099_511_627_776) midnight }
    requires stamp { IsBetween (neg_ℤ (pos 1_099_511_627_776)) (pos 1_099_511_627_776) (alignment.written_value stamp) }
    ensures value { result ≡ midnight +ℤ (alignment.written_value stamp -ℤ alignment.midnight_of (alignment.written_value stamp)) }
    ensures near { IsBetween (neg_ℤ (pos 1_150_000_000_000)) (pos 1_150_000_000_000) result }
{
    midnight + time_of_day(stamp)
}

/// The start that an RDATE gives beside the start of its component: a local day is read at the time of
/// day of that.
fn start_on(zones: &[LocalTimes<'_>], stamp: Stamp, name: Aligned) -> i64
    requires stamp { IsConvertible (length zones.now) stamp }
    requires name { HasDigits name }
    ensures { result ≡ alignment.start_on (alignment.reading_of (tables_of zones.now) stamp) stamp (aligned_by name) }
{
    match name {
        Aligned::At(value) => value,
        Aligned::OnDay(midnight) => instant_beside(zones, stamp, at_time_of(midnight, stamp)),
    }
}

/// The same of its stamp.
pub fn date_start(zones: &[LocalTimes<'_>], stamp: Stamp, date: Stamp) -> i64
    requires stamp { IsConvertible (length zones.now) stamp }
    requires date { IsConvertible (length zones.now) date }
    ensures value { result ≡ spec.date_start (tables_of zones.now) stamp date }
    ensures near { IsBetween (neg_ℤ (pos 1_200_000_000_000)) (pos 1_200_000_000_000) result }
{
    start_on(zones, stamp, align(zones, date, stamp))
}

/// Puts the starts that RDATEs give in a range behind the others. Each takes a step.
pub fn put_dates<L: Ledger>(
    zones: &[LocalTimes<'_>],
    stamp: Stamp,
    range: Digits,
    dates: &[Stamp],
    out: &mut List<i64>,
    steps: &mut Steps<L>,
) -> Result<(), NoMemory>
    requires stamp { IsConvertible (length zones.now) stamp }
    requires dates { All (IsConvertible (length zones.now)) dates.now }
    ensures steps { steps.new ≤ steps.old + length dates.now }
    ensures starts { OnOk result (out.new ≡ out.old ++ filter (starts_in (tables_of zones.now) stamp range) (map (spec.date_start (tables_of zones.now) stamp) dates.now)) }
{
    let mut rest = dates;
    'dates: while let Some((date, behind)) = rest.split_first() {
        steps.tick();
        put_start(zones, stamp, range, date_start(zones, stamp, *date), out)?;
        rest = behind;
    }
    Ok(())
}

/// The end of an RDATE period beside the start of its component, where it starts at `start`.
fn end_of_period(zones: &[LocalTimes<'_>], stamp: Stamp, start: i64, end: PeriodEnd) -> i64
    requires stamp { IsConvertible (length zones.now) stamp }
    requires start { IsBetween (neg_ℤ (pos 1_200_000_000_000)) (pos 1_200_000_000_000) start }
    requires end { IsConvertibleEnd (length zones.now) end }
    ensures { result ≡ spec.end_of_period (tables_of zones.now) stamp start end }
{
    match end {
        PeriodEnd::At(end) => date_start(zones, stamp, end),
        PeriodEnd::After(lasting) => plus_length(zones, stamp, start, lasting),
    }
}

/// The start and the end of an RDATE period beside the start of its component.
fn period_span(zones: &[LocalTimes<'_>], stamp: Stamp, period: &Period) -> (i64, i64)
    requires stamp { IsConvertible (length zones.now) stamp }
    requires period { IsConvertiblePeriod (length zones.now) period.now }
    ensures value { result ≡ period_span (tables_of zones.now) stamp period.now }
    ensures near { IsBetween (neg_ℤ (pos 1_200_000_000_000)) (pos 1_200_000_000_000) result.0 }
{
    let start = date_start(zones, stamp, period.start);
    (start, end_of_period(zones, stamp, start, period.end))
}

/// Puts a period behind the others, if the digits of its start lie in a range.
fn put_period(
    zones: &[LocalTimes<'_>],
    stamp: Stamp,
    range: Digits,
    span: (i64, i64),
    out: &mut List<(i64, i64)>,
) -> Result<(), NoMemory>
    requires stamp { HasZone (length zones.now) stamp }
    requires near { IsBetween (neg_ℤ (pos 1_200_000_000_000)) (pos 1_200_000_000_000) span.0 }
    ensures { OnOk result (out.new ≡ out.old ++ filter (span_starts_in (tables_of zones.now) stamp range) (span ∷ [])) }
{
    if holds(range, local_beside(zones, stamp, span.0)) {
        out.push(span)?;
    }
    Ok(())
}

/// Puts the starts and ends of RDATE periods that start in a range behind the others. Each takes a
/// step.
pub fn put_periods<L: Ledger>(
    zones: &[LocalTimes<'_>],
    stamp: Stamp,
    range: Digits,
    periods: &[Period],
    out: &mut List<(i64, i64)>,
    steps: &mut Steps<L>,
) -> Result<(), NoMemory>
    requires stamp { IsConvertible (length zones.now) stamp }
    requires periods { All (IsConvertiblePeriod (length zones.now)) periods.now }
    ensures steps { steps.new ≤ steps.old + length periods.now }
    ensures periods { OnOk result (out.new ≡ out.old ++ filter (span_starts_in (tables_of zones.now) stamp range) (map (period_span (tables_of zones.now) stamp) periods.now)) }
{
    let mut rest = periods;
    'periods: while let Some((period, behind)) = rest.split_first() {
        steps.tick();
        put_period(zones, stamp, range, period_span(zones, stamp, period), out)?;
        rest = behind;
    }
    Ok(())
}

/// Puts the starts of periods behind others.
pub fn put_period_starts(periods: &List<(i64, i64)>, out: &mut List<i64>) -> Result<(), NoMemory>
    ensures { OnOk result (out.new ≡ out.old ++ map (λ (period : ℤ × ℤ). period.0) periods.now) }
{
    let mut rest = periods.as_slice();
    'periods: while let Some((period, behind)) = rest.split_first() {
        out.push(period.0)?;
        rest = behind;
    }
    Ok(())
}

/// Puts the starts of periods behind others, where they count as local days: beside a DATE.
pub fn put_days(
    stamp: Stamp,
    periods: &List<(i64, i64)>,
    out: &mut List<i64>,
) -> Result<(), NoMemory>
    ensures { OnOk result (out.new ≡ out.old ++ (if spec.is_date stamp then map (λ (period : ℤ × ℤ). period.0) periods.now else [])) }
{
    match stamp {
        Stamp::Date(_) => put_period_starts(periods, out),
        _ => Ok(()),
    }
}
