//! A stamp beside a start (RFC 5545, 3.8.4.4 and 3.8.5.1).
ghost use Rattle.std.specs.Prelude.{◌≡◌, true, ◌<◌, length};
ghost use Rattle.cal_model.specs.Instances.Alignment as spec;
ghost use Rattle.cal_model.specs.Objects.ResourceFaults.{can_align};
ghost use Rattle.cal_model.specs.TimeZones.TableBounds.{IsDigits};
ghost use Rattle.cal_model.specs.Values.LocalTimes.{local_seconds};
ghost use Rattle.cal_object.specs.Alignments.{tables_of, aligned_by, HasZone, HasZoneBeside};
ghost use Rattle.cal_object.specs.PartDates.{HasMoment};

use crate::local_times::instant_in;
use cal_model::{LocalTimes, written_value};
use cal_moment::{Local, Stamp};

const DAY: i64 = 86_400;

/// What a stamp says beside a start, in seconds since 1970.
#[derive(Clone, Copy)]
pub(crate) enum Aligned {
    /// One value.
    At(i64),
    /// A local day, by its midnight.
    OnDay(i64),
}

/// The digits of a local time.
fn digits_of(local: Local) -> i64
    ensures value { result ≡ local_seconds local }
    ensures near { IsDigits result }
{
    local.day as i64 * DAY + local.second as i64
}

/// The midnight of the day of some digits.
fn midnight_of(digits: i64) -> i64
    requires { IsDigits digits }
    ensures { result ≡ spec.midnight_of digits }
{
    digits.div_euclid(DAY) * DAY
}

/// The midnight of the day that a stamp is written with.
fn written_midnight(stamp: Stamp) -> i64
    requires { HasMoment stamp }
    ensures { result ≡ spec.midnight_of (spec.written_value stamp) }
{
    match stamp {
        Stamp::Date(day) => midnight_of(day.0 as i64 * DAY),
        Stamp::Floating(local) | Stamp::Zoned(local, _) => midnight_of(digits_of(local)),
        Stamp::Utc(moment) => midnight_of(moment.0),
    }
}

/// The instant of a local time beside a start that is zoned or in UTC.
fn instant_beside(zones: &[LocalTimes<'_>], start: Stamp, local: Local) -> i64
    requires { HasZone (length zones.now) start }
    ensures { result ≡ (spec.reading_of (tables_of zones.now) start).instant (local_seconds local) }
{
    match start {
        Stamp::Zoned(_, number) => instant_in(zones, number, local),
        _ => digits_of(local),
    }
}

/// A stamp beside a start that is zoned or in UTC.
pub(crate) fn align_timed(zones: &[LocalTimes<'_>], stamp: Stamp, start: Stamp) -> Aligned
    requires { HasZoneBeside (length zones.now) stamp start }
    ensures { aligned_by result ≡ spec.align_timed (tables_of zones.now) stamp start }
{
    match stamp {
        Stamp::Date(_) => Aligned::OnDay(written_value(stamp)),
        Stamp::Floating(local) => Aligned::At(instant_beside(zones, start, local)),
        Stamp::Zoned(local, number) => Aligned::At(instant_in(zones, number, local)),
        Stamp::Utc(moment) => Aligned::At(moment.0),
    }
}

/// A stamp beside a floating start.
pub(crate) fn align_floating(stamp: Stamp) -> Aligned
    ensures { aligned_by result ≡ spec.align_floating stamp }
{
    match stamp {
        Stamp::Date(_) => Aligned::OnDay(written_value(stamp)),
        _ => Aligned::At(written_value(stamp)),
    }
}

/// What a stamp says beside a start, where the zone that this needs is there.
pub(crate) fn align(zones: &[LocalTimes<'_>], stamp: Stamp, start: Stamp) -> Aligned
    requires zone { can_align (tables_of zones.now) stamp start ≡ true }
    requires read { HasMoment stamp }
    ensures { aligned_by result ≡ spec.align (tables_of zones.now) stamp start }
{
    match start {
        Stamp::Date(_) => Aligned::At(written_midnight(stamp)),
        Stamp::Floating(_) => align_floating(stamp),
        Stamp::Zoned(_, _) | Stamp::Utc(_) => align_timed(zones, stamp, start),
    }
}
