//! Rows, dates and stored periods as moments: floating times and dates are read in a given zone.

ghost use Rattle.std.specs.Prelude.{◌≡◌, neg_ℤ, pos, ◌≤ℤ◌, ◌<ℤ◌, ◌+ℤ◌, ◌*ℤ◌, ◌&&◌, int_le, int_lt, All};
ghost use Rattle.cal_model.specs.Values.LocalTimes.{local_seconds};
ghost use Rattle.cal_model.specs.Instances.Alignment as alignment;
ghost use Rattle.cal_moment.specs.Calendar.{IsBetween};
ghost use Rattle.cal_model.specs.Ranges.Overlap as spec;
ghost use Rattle.cal_model.specs.TimeZones.TableBounds.{IsTable};
ghost use Rattle.cal_model.specs.TimeZones.Zones.{instant_of};
ghost use Rattle.overlap_rules.specs.Bounds.{IsOfDays, HasDays, IsNearRow};

use cal_base::List;
use cal_model::{Fixed, Row, RowKind, ZoneTable, local_of, to_utc, written_value};
use cal_moment::{Length, Local, Period, PeriodEnd, Stamp};

const DAY: i64 = 86_400;

/// The instant of some digits in a zone.
fn instant(zone: &ZoneTable, digits: i64) -> i64
    requires zone { IsTable zone.now }
    requires near { IsOfDays digits }
    ensures { result ≡ instant_of zone.now digits }
{
    to_utc(zone, local_of(digits)).0
}

/// A moment of a row: floating times and dates are read in the zone, instants stand for themselves.
fn in_zone(kind: RowKind, zone: &ZoneTable, moment: i64) -> i64
    requires zone { IsTable zone.now }
    requires near { IsOfDays moment }
    ensures { result ≡ spec.in_zone kind zone.now moment }
{
    match kind {
        RowKind::Floating | RowKind::Date => instant(zone, moment),
        RowKind::Instant | RowKind::Undated => moment,
    }
}

/// The start and the end of a row in UTC.
pub(crate) fn moments_of(row: &Row, zone: &ZoneTable) -> Fixed
    requires zone { IsTable zone.now }
    requires near { HasDays row.now }
    ensures { result ≡ spec.fixed row.now zone.now }
{
    Fixed {
        start: in_zone(row.kind, zone, row.start),
        end: in_zone(row.kind, zone, row.end),
    }
}

/// The start and the end of a row in UTC, floating times and dates read in a zone.
pub fn fixed(row: &Row, zone: &ZoneTable) -> Fixed
    requires zone { IsTable zone.now }
    requires near { IsNearRow row.now }
    ensures { result ≡ spec.fixed row.now zone.now }
{
    moments_of(row, zone)
}

/// The seconds of a length, a day as 86,400.
pub(crate) fn seconds_of(length: Length) -> i128
    ensures value { result ≡ spec.seconds_of length }
    ensures small { IsBetween (neg_ℤ (pos 1_000_000_000_000_000_000_000_000)) (pos 1_000_000_000_000_000_000_000_000) result }
{
    length.days as i128 * DAY as i128 + length.seconds as i128
}

/// The end of a stored period that starts at a moment.
fn period_end(start: i64, end: PeriodEnd) -> i128
    ensures { result ≡ spec.period_end start end }
{
    match end {
        PeriodEnd::At(stamp) => written_value(stamp) as i128,
        PeriodEnd::After(length) => start as i128 + seconds_of(length),
    }
}

/// The moments at which a FREEBUSY period starts and ends, in seconds after 1970 in UTC.
pub fn stored_period(period: &Period) -> (i128, i128)
    ensures { result ≡ spec.stored_period period.now }
{
    let start = written_value(period.start);
    (start as i128, period_end(start, period.end))
}

/// The instant of a local time in the zone of that number; a number that no zone has stands for UTC.
#[tactic(auto, using(crate::proofs::UtcMoments::instant_of_utc))]
fn instant_in(zones: &[ZoneTable], number: u32, local: Local) -> i64
    requires { All IsTable zones.now }
    ensures { result ≡ instant_of (alignment.zone_of zones.now number) (local_seconds local) }
{
    match zones.get(number as usize) {
        Some(zone) => to_utc(zone, local).0,
        None => local.day as i64 * DAY + local.second as i64,
    }
}

/// The instant of a date as it is written, floating times and dates read in a given zone.
pub fn date_in(zones: &List<ZoneTable>, zone: &ZoneTable, date: Stamp) -> i64
    requires zones { All IsTable zones.now }
    requires zone { IsTable zone.now }
    ensures { result ≡ spec.date_in zones.now zone.now date }
{
    match date {
        Stamp::Date(day) => {
            let midnight = Local {
                day: day.0,
                second: 0,
            };
            to_utc(zone, midnight).0
        }
        Stamp::Floating(local) => to_utc(zone, local).0,
        Stamp::Zoned(local, number) => instant_in(zones.as_slice(), number, local),
        Stamp::Utc(moment) => moment.0,
    }
}
