//! Stamps beside a start (RFC 5545, 3.8.4.4 and 3.8.5.1).
ghost use Rattle.std.specs.Prelude.{◌≡◌, ℕ, ◌<◌, length, ℤ, pos, ◌+ℤ◌, ◌-ℤ◌};
ghost use Rattle.cal_moment.specs.Calendar.{IsBetween};
ghost use Rattle.cal_model.specs.Instances.Alignment as spec;
ghost use Rattle.cal_model.specs.TimeZones.TableBounds.{IsDigits};
ghost use Rattle.override_merge.specs.Conversions.{tables_of, HasZone, IsConvertible, IsRowTime};
ghost use Rattle.override_merge.specs.AlignedStamps.{aligned_by, HasDigits};

use crate::zones::instant_beside;
use cal_model::{LocalTimes, RowKind, written_value};
use cal_moment::Stamp;

const DAY: i64 = 86_400;

/// What a stamp says beside a start, in seconds since 1970.
#[derive(Clone, Copy)]
pub enum Aligned {
    /// One value.
    At(i64),
    /// A local day, by its midnight.
    OnDay(i64),
}

/// The value of a stamp by itself: its instant, its digits, or the midnight of its day.
pub fn value_of(zones: &[LocalTimes<'_>], stamp: Stamp) -> i64
    requires { IsConvertible (length zones.now) stamp }
    ensures value { result ≡ spec.value_of (tables_of zones.now) stamp }
    ensures near { IsBetween (spec.written_value stamp -ℤ pos 86_400) (spec.written_value stamp +ℤ pos 86_400) result }
{
    instant_beside(zones, stamp, written_value(stamp))
}

/// What the moments of a component count that starts so.
pub fn kind_of(stamp: Stamp) -> RowKind
    ensures { result ≡ spec.kind_of stamp }
{
    match stamp {
        Stamp::Date(_) => RowKind::Date,
        Stamp::Floating(_) => RowKind::Floating,
        Stamp::Zoned(_, _) | Stamp::Utc(_) => RowKind::Instant,
    }
}

/// The midnight of the day of some digits.
pub fn midnight_of(digits: i64) -> i64
    requires { IsDigits digits }
    ensures { result ≡ spec.midnight_of digits }
{
    digits.div_euclid(DAY) * DAY
}

/// A stamp beside a start that is zoned or in UTC.
fn align_timed(zones: &[LocalTimes<'_>], stamp: Stamp, start: Stamp) -> Aligned
    requires stamp { IsConvertible (length zones.now) stamp }
    requires start { HasZone (length zones.now) start }
    ensures digits { HasDigits result }
    ensures value { aligned_by result ≡ spec.align_timed (tables_of zones.now) stamp start }
{
    match stamp {
        Stamp::Date(_) => Aligned::OnDay(written_value(stamp)),
        Stamp::Floating(_) => Aligned::At(instant_beside(zones, start, written_value(stamp))),
        Stamp::Zoned(_, _) => Aligned::At(value_of(zones, stamp)),
        Stamp::Utc(moment) => Aligned::At(moment.0),
    }
}

/// A stamp beside a floating start.
fn align_floating(stamp: Stamp) -> Aligned
    requires { IsRowTime (spec.written_value stamp) }
    ensures digits { HasDigits result }
    ensures value { aligned_by result ≡ spec.align_floating stamp }
{
    match stamp {
        Stamp::Date(_) => Aligned::OnDay(written_value(stamp)),
        _ => Aligned::At(written_value(stamp)),
    }
}

/// What a stamp says beside a start.
pub fn align(zones: &[LocalTimes<'_>], stamp: Stamp, start: Stamp) -> Aligned
    requires stamp { IsConvertible (length zones.now) stamp }
    requires start { HasZone (length zones.now) start }
    ensures digits { HasDigits result }
    ensures value { aligned_by result ≡ spec.align (tables_of zones.now) stamp start }
{
    match start {
        Stamp::Date(_) => Aligned::At(midnight_of(written_value(stamp))),
        Stamp::Floating(_) => align_floating(stamp),
        Stamp::Zoned(_, _) | Stamp::Utc(_) => align_timed(zones, stamp, start),
    }
}
