//! The ends of instances (RFC 5545, 3.3.6, 3.8.2.2 to 3.8.2.5).
ghost use Rattle.std.specs.Prelude.{◌≡◌, ℕ, length, ℤ, pos, neg_ℤ, ◌+ℤ◌, ◌-ℤ◌, ◌*ℤ◌};
ghost use Rattle.cal_moment.specs.Calendar.{IsBetween};
ghost use Rattle.cal_model.specs.Instances.Alignment as alignment;
ghost use Rattle.cal_model.specs.Instances.Starts as spec;
ghost use Rattle.override_merge.specs.Conversions.{tables_of, HasZone, IsConvertible, IsShortLength, IsConvertibleExtent, HasConvertibleRow, IsRowTime};

use crate::stamps::value_of;
use crate::starts::own_start;
use crate::zones::{instant_beside, local_beside};
use cal_model::{Component, Extent, LocalTimes};
use cal_moment::{Length, Stamp};

const DAY: i64 = 86_400;

/// Digits so many days later.
fn later_digits(digits: i64, days: i64) -> i64
    requires digits { IsBetween (neg_ℤ (pos 1_300_000_000_000)) (pos 1_300_000_000_000) digits }
    requires days { IsBetween (neg_ℤ (pos 200_000)) (pos 200_000) days }
    ensures value { result ≡ digits +ℤ days *ℤ pos 86_400 }
    ensures near { IsBetween (neg_ℤ (pos 1_320_000_000_000)) (pos 1_320_000_000_000) result }
{
    digits + days * DAY
}

/// The digits of a start by the clock of a stamp, so many days later.
fn digits_after(zones: &[LocalTimes<'_>], stamp: Stamp, start: i64, days: i64) -> i64
    requires zone { HasZone (length zones.now) stamp }
    requires start { IsBetween (neg_ℤ (pos 1_200_000_000_000)) (pos 1_200_000_000_000) start }
    requires days { IsBetween (neg_ℤ (pos 200_000)) (pos 200_000) days }
    ensures value { result ≡ (alignment.reading_of (tables_of zones.now) stamp).local start +ℤ days *ℤ pos 86_400 }
    ensures near { IsBetween (neg_ℤ (pos 1_320_000_000_000)) (pos 1_320_000_000_000) result }
{
    later_digits(local_beside(zones, stamp, start), days)
}

/// A start plus a length: the days in local time, by the clock of a stamp, then the seconds as time.
pub fn plus_length(zones: &[LocalTimes<'_>], stamp: Stamp, start: i64, lasting: Length) -> i64
    requires zone { HasZone (length zones.now) stamp }
    requires start { IsBetween (neg_ℤ (pos 1_200_000_000_000)) (pos 1_200_000_000_000) start }
    requires lasting { IsShortLength lasting }
    ensures { result ≡ alignment.plus_length (alignment.reading_of (tables_of zones.now) stamp) start lasting }
{
    let digits = digits_after(zones, stamp, start, lasting.days);
    instant_beside(zones, stamp, digits) + lasting.seconds
}

/// How many seconds one stamp is after another.
fn seconds_between(zones: &[LocalTimes<'_>], from: Stamp, to: Stamp) -> i64
    requires from { IsConvertible (length zones.now) from }
    requires to { IsConvertible (length zones.now) to }
    ensures value { result ≡ alignment.value_of (tables_of zones.now) to -ℤ alignment.value_of (tables_of zones.now) from }
    ensures near { IsBetween (neg_ℤ (pos 2_300_000_000_000)) (pos 2_300_000_000_000) result }
{
    value_of(zones, to) - value_of(zones, from)
}

/// The end of an instance that keeps the length of its component, whose own start is a stamp: as long
/// after its start as DTEND or DUE is after that stamp, or a DURATION, or what stands where no line
/// says it.
pub fn end_of_extent(zones: &[LocalTimes<'_>], stamp: Stamp, extent: Extent, start: i64) -> i64
    requires stamp { IsConvertible (length zones.now) stamp }
    requires extent { IsConvertibleExtent (length zones.now) extent }
    requires start { IsBetween (neg_ℤ (pos 1_200_000_000_000)) (pos 1_200_000_000_000) start }
    ensures { result ≡ spec.end_of_extent (tables_of zones.now) stamp extent start }
{
    match extent {
        Extent::End(end) | Extent::Due(end) => start + seconds_between(zones, stamp, end),
        Extent::Lasting(lasting) => plus_length(zones, stamp, start, lasting),
        Extent::WholeDay => start + DAY,
        Extent::Point | Extent::None => start,
    }
}
