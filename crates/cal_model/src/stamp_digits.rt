//! The digits of stamps, in seconds from 1970 (RFC 5545, 3.3.5).
ghost use Rattle.std.specs.Prelude.{◌≡◌, ◌<◌, pos, neg_ℤ};
ghost use Rattle.cal_moment.specs.Calendar.{IsBetween};
ghost use Rattle.cal_model.specs.Instances.Alignment as spec;
ghost use Rattle.cal_model.specs.Values.LocalTimes.{local_seconds};

use cal_moment::{Local, Stamp};

const DAY: i64 = 86_400;

/// The digits that a stamp is written with; of a DATE those of its midnight, of an instant its own.
pub fn written_value(stamp: Stamp) -> i64
    ensures { result ≡ spec.written_value stamp }
{
    match stamp {
        Stamp::Date(day) => day.0 as i64 * DAY,
        Stamp::Floating(local) | Stamp::Zoned(local, _) => {
            local.day as i64 * DAY + local.second as i64
        }
        Stamp::Utc(moment) => moment.0,
    }
}

/// The local time of some digits.
pub fn local_of(digits: i64) -> Local
    requires { IsBetween (neg_ℤ (pos 180_000_000_000_000)) (pos 180_000_000_000_000) digits }
    ensures value { local_seconds result ≡ digits }
    ensures second { result.second < 86_400 }
{
    Local {
        day: digits.div_euclid(DAY) as i32,
        second: digits.rem_euclid(DAY) as u32,
    }
}
