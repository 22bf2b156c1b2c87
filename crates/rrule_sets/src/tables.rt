//! Conversions straight from the tables of zones (RFC 5545, 3.3.5 and 3.6.5): for one row, which takes a
//! few of them. For many in one zone its local times are made ready first.
ghost use Rattle.std.specs.Prelude.{◌≡◌, ◌<◌, length, All, ℤ, pos, neg_ℤ, ◌+ℤ◌, ◌-ℤ◌, ◌*ℤ◌};
ghost use Rattle.cal_moment.specs.Calendar.{IsBetween};
ghost use Rattle.cal_model.specs.Instances.Alignment as alignment;
ghost use Rattle.cal_model.specs.Instances.Starts as spec;
ghost use Rattle.cal_model.specs.TimeZones.TableBounds.{IsTable, IsDigits};
ghost use Rattle.cal_model.specs.TimeZones.Zones as zones;
ghost use Rattle.override_merge.specs.Conversions.{HasZone, IsConvertible, IsShortLength, IsConvertibleExtent};

use cal_model::{Extent, ZoneTable, local_of, offset_at, to_utc, written_value};
use cal_moment::{Length, Stamp, Utc};

const DAY: i64 = 86_400;

/// The instant of some digits by the clock of a zone.
fn instant_at(table: &ZoneTable, digits: i64) -> i64
    requires table { IsTable table.now }
    requires digits { IsBetween (neg_ℤ (pos 180_000_000_000_000)) (pos 180_000_000_000_000) digits }
    ensures value { result ≡ zones.instant_of table.now digits }
    ensures near { IsBetween (digits -ℤ pos 86_400) (digits +ℤ pos 86_400) result }
{
    to_utc(table, local_of(digits)).0
}

/// The instant of some digits that are written beside a stamp, or the digits where it names no zone.
fn instant_beside(zones: &[ZoneTable], stamp: Stamp, digits: i64) -> i64
    requires zones { All IsTable zones.now }
    requires zone { HasZone (length zones.now) stamp }
    requires digits { IsBetween (neg_ℤ (pos 180_000_000_000_000)) (pos 180_000_000_000_000) digits }
    ensures value { result ≡ (alignment.reading_of zones.now stamp).instant digits }
    ensures near { IsBetween (digits -ℤ pos 86_400) (digits +ℤ pos 86_400) result }
{
    match stamp {
        Stamp::Zoned(_, number) => instant_at(&zones[number as usize], digits),
        _ => digits,
    }
}

/// The digits that the clock of a zone shows at an instant.
fn shown(table: &ZoneTable, instant: i64) -> i64
    requires table { IsTable table.now }
    requires near { IsDigits instant }
    ensures value { result ≡ zones.local_at table.now instant }
    ensures near { IsBetween (instant -ℤ pos 86_400) (instant +ℤ pos 86_400) result }
{
    instant + offset_at(table, Utc(instant)) as i64
}

/// The digits that the clock of a stamp shows at an instant, or the same digits where it names no zone.
pub fn local_beside(zones: &[ZoneTable], stamp: Stamp, instant: i64) -> i64
    requires zones { All IsTable zones.now }
    requires zone { HasZone (length zones.now) stamp }
    requires near { IsDigits instant }
    ensures value { result ≡ (alignment.reading_of zones.now stamp).local instant }
    ensures near { IsBetween (instant -ℤ pos 86_400) (instant +ℤ pos 86_400) result }
{
    match stamp {
        Stamp::Zoned(_, number) => shown(&zones[number as usize], instant),
        _ => instant,
    }
}

/// The value of a stamp by itself: its instant, its digits, or the midnight of its day.
pub fn value_of(zones: &[ZoneTable], stamp: Stamp) -> i64
    requires zones { All IsTable zones.now }
    requires stamp { IsConvertible (length zones.now) stamp }
    ensures value { result ≡ alignment.value_of zones.now stamp }
    ensures near { IsBetween (neg_ℤ (pos 1_200_000_000_000)) (pos 1_200_000_000_000) result }
{
    instant_beside(zones, stamp, written_value(stamp))
}

/// The digits of an instant by the clock of a stamp, so many days later.
fn digits_after(zones: &[ZoneTable], stamp: Stamp, start: i64, days: i64) -> i64
    requires zones { All IsTable zones.now }
    requires zone { HasZone (length zones.now) stamp }
    requires start { IsBetween (neg_ℤ (pos 1_200_000_000_000)) (pos 1_200_000_000_000) start }
    requires days { IsBetween (neg_ℤ (pos 200_000)) (pos 200_000) days }
    ensures value { result ≡ (alignment.reading_of zones.now stamp).local start +ℤ days *ℤ pos 86_400 }
    ensures near { IsBetween (neg_ℤ (pos 1_320_000_000_000)) (pos 1_320_000_000_000) result }
{
    local_beside(zones, stamp, start) + days * DAY
}

/// A start plus a length: the days in local time, by the clock of a stamp, then the seconds as time.
fn plus_length(zones: &[ZoneTable], stamp: Stamp, start: i64, lasting: Length) -> i64
    requires zones { All IsTable zones.now }
    requires zone { HasZone (length zones.now) stamp }
    requires start { IsBetween (neg_ℤ (pos 1_200_000_000_000)) (pos 1_200_000_000_000) start }
    requires lasting { IsShortLength lasting }
    ensures { result ≡ alignment.plus_length (alignment.reading_of zones.now stamp) start lasting }
{
    let digits = digits_after(zones, stamp, start, lasting.days);
    instant_beside(zones, stamp, digits) + lasting.seconds
}

/// The end of a component that starts at a stamp, whose value is given.
pub fn own_end(zones: &[ZoneTable], stamp: Stamp, extent: Extent, start: i64) -> i64
    requires zones { All IsTable zones.now }
    requires zone { HasZone (length zones.now) stamp }
    requires extent { IsConvertibleExtent (length zones.now) extent }
    requires near { IsBetween (neg_ℤ (pos 1_200_000_000_000)) (pos 1_200_000_000_000) start }
    requires start { start ≡ alignment.value_of zones.now stamp }
    ensures { result ≡ spec.end_of_extent zones.now stamp extent start }
{
    match extent {
        Extent::End(end) | Extent::Due(end) => value_of(zones, end),
        Extent::Lasting(lasting) => plus_length(zones, stamp, start, lasting),
        Extent::WholeDay => start + DAY,
        Extent::Point | Extent::None => start,
    }
}
