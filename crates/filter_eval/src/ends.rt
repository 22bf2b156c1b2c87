//! The end that DTSTART and DURATION make (RFC 5545, 3.3.6): the days in local time, then the
//! seconds as time. A length may reach beyond the days that a local time counts.

ghost use Rattle.std.specs.Prelude.{◌≡◌, ◌+ℤ◌, ◌-ℤ◌, ◌*ℤ◌, ◌<ℤ◌, pos, Some, None, if◌then◌else◌, All};
ghost use Rattle.cal_moment.specs.Calendar.{IsCalendarMoment};
ghost use Rattle.cal_model.specs.Instances.Alignment as alignment;
ghost use Rattle.cal_model.specs.Ranges.Nearness.{IsNear};
ghost use Rattle.cal_model.specs.Ranges.Overlap as overlap;
ghost use Rattle.cal_model.specs.TimeZones.TableBounds.{IsTable, IsRising};
ghost use Rattle.cal_model.specs.TimeZones.Zones as conversion;
ghost use Rattle.cal_model.specs.Words.Integers.{same_int};
ghost use Rattle.filter_eval.specs.Instants as spec;

use crate::dates::Dates;
use cal_model::{Onset, ZoneTable, local_of, offset_at, to_utc, written_value};
use cal_moment::{Length, Stamp, Utc};

const DAY: i64 = 86_400;

/// The digits from which on, forward and back, the days of a local time may not reach.
const FAR: i64 = 100_000_000_000_000;

/// Whether two moments are the same.
fn is_same(first: i64, second: i64) -> bool
    ensures { result ≡ same_int first second }
{
    first == second
}

/// The local time of an instant.
fn local_time(zone: &ZoneTable, instant: i64) -> i64
    requires rising { IsRising zone.now.onsets }
    requires instant { spec.IsInReach instant }
    ensures { result ≡ conversion.local_at zone.now instant }
{
    instant + offset_at(zone, Utc(instant)) as i64
}

/// An instant, where its local time has some digits.
fn if_shown(zone: &ZoneTable, digits: i64, instant: i64) -> Option<i64>
    requires rising { IsRising zone.now.onsets }
    requires instant { spec.IsInReach instant }
    ensures { result ≡ (if same_int (conversion.local_at zone.now instant) digits then Some instant else None) }
{
    if is_same(local_time(zone, instant), digits) {
        Some(instant)
    } else {
        None
    }
}

/// The instant that an offset makes of some digits, where the zone has that offset then.
fn instant_by(zone: &ZoneTable, digits: i64, offset: i32) -> Option<i64>
    requires rising { IsRising zone.now.onsets }
    requires wide { spec.IsWide digits }
    ensures { result ≡ (if same_int (conversion.local_at zone.now (digits -ℤ offset)) digits then Some (digits -ℤ offset) else None) }
{
    if_shown(zone, digits, digits - offset as i64)
}

/// The lesser of two instants that may be there.
fn lesser(first: Option<i64>, second: Option<i64>) -> Option<i64>
    ensures { result ≡ spec.lesser first second }
{
    match (first, second) {
        (Some(first), Some(second)) => Some(if second < first { second } else { first }),
        (Some(only), None) | (None, Some(only)) => Some(only),
        (None, None) => None,
    }
}

/// The least instant that has some digits.
fn least_instant(zone: &ZoneTable, digits: i64) -> Option<i64>
    requires rising { IsRising zone.now.onsets }
    requires wide { spec.IsWide digits }
    ensures { result ≡ spec.least_there (conversion.instants_of zone.now digits) }
{
    let mut least = instant_by(zone, digits, zone.before);
    let mut rest = zone.onsets.as_slice();
    'onsets: while let Some((onset, behind)) = rest.split_first() {
        least = lesser(least, instant_by(zone, digits, onset.offset));
        rest = behind;
    }
    least
}

/// The offset before an onset that leads past some digits.
fn offset_before(zone: &ZoneTable, onset: &Onset) -> i32
    requires rising { IsRising zone.now.onsets }
    requires after { spec.earliest <ℤ onset.now.at.0 }
    ensures { result ≡ conversion.offset_at zone.now (onset.now.at.0 -ℤ pos 1) }
{
    offset_at(zone, Utc(onset.at.0 - 1))
}

/// The offset before the gap that skips some digits: that before the first onset that leads past
/// them.
fn offset_before_gap(zone: &ZoneTable, digits: i64) -> i32
    requires rising { IsRising zone.now.onsets }
    requires wide { spec.IsWide digits }
    ensures { digits -ℤ result ≡ conversion.after_gap zone.now digits (conversion.onsets_past zone.now digits) }
{
    let mut rest = zone.onsets.as_slice();
    'onsets: while let Some((onset, behind)) = rest.split_first() {
        if digits - (onset.offset as i64) < onset.at.0 {
            return offset_before(zone, onset);
        }
        rest = behind;
    }
    zone.before
}

/// The instant of some digits that the days of a local time may not reach: the least that has them,
/// else that by the offset before the gap that skips them.
fn far_instant(zone: &ZoneTable, digits: i64) -> i64
    requires rising { IsRising zone.now.onsets }
    requires wide { spec.IsWide digits }
    ensures { result ≡ conversion.instant_of zone.now digits }
{
    match least_instant(zone, digits) {
        Some(instant) => instant,
        None => digits - offset_before_gap(zone, digits) as i64,
    }
}

/// The instant of some digits in a zone.
fn instant_of(zone: &ZoneTable, digits: i64) -> i64
    requires zone { IsTable zone.now }
    requires wide { spec.IsWide digits }
    ensures value { result ≡ conversion.instant_of zone.now digits }
    ensures near { IsNear 86_400 result digits }
{
    if -FAR < digits && digits < FAR {
        to_utc(zone, local_of(digits)).0
    } else {
        far_instant(zone, digits)
    }
}

/// The local time of an instant of a date.
fn local_at(zone: &ZoneTable, instant: i64) -> i64
    requires zone { IsTable zone.now }
    requires instant { spec.IsNearDates instant }
    ensures value { result ≡ conversion.local_at zone.now instant }
    ensures near { IsNear 86_400 result instant }
{
    instant + offset_at(zone, Utc(instant)) as i64
}

/// The instant of some digits in a zone, so many seconds of days later by its clock.
fn days_later(zone: &ZoneTable, digits: i64, later: i64) -> i64
    requires zone { IsTable zone.now }
    requires digits { IsCalendarMoment digits }
    requires later { spec.IsOfLength later }
    ensures value { result ≡ conversion.instant_of zone.now (conversion.local_at zone.now (conversion.instant_of zone.now digits) +ℤ later) }
    ensures near { spec.IsWide result }
{
    let instant = instant_of(zone, digits);
    instant_of(zone, local_at(zone, instant) + later)
}

/// The same in the zone of that number; a number that no zone has stands for UTC.
fn zoned_later(zones: &[ZoneTable], number: u32, digits: i64, later: i64) -> i64
    requires zones { All IsTable zones.now }
    requires digits { IsCalendarMoment digits }
    requires later { spec.IsOfLength later }
    ensures value { result ≡ spec.zoned_later (alignment.zone_of zones.now number) digits later }
    ensures near { spec.IsWide result }
{
    match zones.get(number as usize) {
        Some(zone) => days_later(zone, digits, later),
        None => digits + later,
    }
}

/// The end of what starts at some digits of a zone and lasts a length: all of it counts as digits.
fn plain_end(zone: &ZoneTable, digits: i64, length: Length) -> i64
    requires zone { IsTable zone.now }
    requires digits { IsCalendarMoment digits }
    requires length { spec.IsLength length }
    ensures { result ≡ conversion.instant_of zone.now (digits +ℤ length.days *ℤ pos 86_400 +ℤ length.seconds) }
{
    instant_of(zone, digits + length.days * DAY + length.seconds)
}

/// The end of what starts at some digits of the zone of that number and lasts a length.
fn zoned_end(zones: &[ZoneTable], number: u32, digits: i64, length: Length) -> i64
    requires zones { All IsTable zones.now }
    requires digits { IsCalendarMoment digits }
    requires length { spec.IsLength length }
    ensures { result ≡ spec.zoned_later (alignment.zone_of zones.now number) digits (length.days *ℤ pos 86_400) +ℤ length.seconds }
{
    zoned_later(zones, number, digits, length.days * DAY) + length.seconds
}

/// The moment at which what starts at a stamp and lasts a length ends.
pub fn end_of(dates: &Dates, start: Stamp, length: Length) -> i64
    requires start { spec.IsDated start }
    requires length { spec.IsLength length }
    ensures { result ≡ overlap.effective_end dates.now.zones dates.now.floating start length }
{
    let digits = written_value(start);
    match start {
        Stamp::Date(_) => plain_end(dates.floating(), digits, length),
        Stamp::Floating(_) => plain_end(dates.floating(), digits, length),
        Stamp::Utc(_) => digits + length.days * DAY + length.seconds,
        Stamp::Zoned(_, number) => zoned_end(dates.zones().as_slice(), number, digits, length),
    }
}
