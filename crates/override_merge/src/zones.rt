//! Conversions in the zones of an object (RFC 5545, 3.3.5 and 3.6.5).
ghost use Rattle.std.specs.Prelude.{◌≡◌, length, pos, neg_ℤ, ◌+ℤ◌, ◌-ℤ◌};
ghost use Rattle.cal_moment.specs.Calendar.{IsBetween};
ghost use Rattle.cal_model.specs.Instances.Alignment.{reading_of};
ghost use Rattle.cal_model.specs.TimeZones.TableBounds.{IsDigits};
ghost use Rattle.cal_model.specs.TimeZones.Zones as spec;
ghost use Rattle.override_merge.specs.Conversions.{tables_of, HasZone};

use cal_model::{LocalTimes, local_of, offset_at};
use cal_moment::{Stamp, Utc};

/// The instant of some digits that are written beside a stamp, or the digits where it names no zone.
pub fn instant_beside(zones: &[LocalTimes<'_>], stamp: Stamp, digits: i64) -> i64
    requires zone { HasZone (length zones.now) stamp }
    requires digits { IsBetween (neg_ℤ (pos 180_000_000_000_000)) (pos 180_000_000_000_000) digits }
    ensures value { result ≡ (reading_of (tables_of zones.now) stamp).instant digits }
    ensures near { IsBetween (digits -ℤ pos 86_400) (digits +ℤ pos 86_400) result }
{
    match stamp {
        Stamp::Zoned(_, number) => zones[number as usize].to_utc(local_of(digits)).0,
        _ => digits,
    }
}

/// The digits that the clock of a zone shows at an instant.
fn shown(times: &LocalTimes<'_>, instant: i64) -> i64
    requires { IsDigits instant }
    ensures { result ≡ spec.local_at times.now.table.now instant }
{
    instant + offset_at(times.table, Utc(instant)) as i64
}

/// The digits that the clock of a stamp shows at an instant, or the same digits where it names no zone.
pub fn local_beside(zones: &[LocalTimes<'_>], stamp: Stamp, instant: i64) -> i64
    requires zone { HasZone (length zones.now) stamp }
    requires near { IsDigits instant }
    ensures value { result ≡ (reading_of (tables_of zones.now) stamp).local instant }
    ensures near { IsBetween (instant -ℤ pos 86_400) (instant +ℤ pos 86_400) result }
{
    match stamp {
        Stamp::Zoned(_, number) => shown(&zones[number as usize], instant),
        _ => instant,
    }
}
