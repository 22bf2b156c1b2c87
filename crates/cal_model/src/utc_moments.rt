//! The moments that texts name in UTC, and the range between two moments.
ghost use Rattle.std.specs.Prelude.{◌≡◌};
ghost use Rattle.cal_moment.specs.Calendar.{IsCalendarDay};
ghost use Rattle.cal_model.specs.Bodies.RangeElements.{range_between};
ghost use Rattle.cal_model.specs.Values.UtcTexts.{moment_in_utc, utc_of};
ghost use Rattle.cal_model.specs.Values.ValueTexts.{utc_of_local};

use crate::row::Range;
use cal_moment::{Local, Utc, read_date_time};

const DAY: i64 = 86_400;

/// The moment that a DATE-TIME in UTC names (RFC 5545, 3.3.5), in seconds since 1970; none for any
/// other text.
#[tactic(auto, using(crate::proofs::Values::UtcLaws::utc_read))]
pub fn utc_of(text: &[u8]) -> Option<i64>
    ensures { result ≡ utc_of text.now }
{
    match read_date_time(text) {
        Ok((local, utc)) => moment_in_utc(local, utc),
        Err(_) => None,
    }
}

/// The moment of a local time, if it is one of UTC.
#[tactic(auto, using(crate::proofs::Values::UtcLaws::moment_of_utc, crate::proofs::Values::UtcLaws::moment_of_none))]
fn moment_in_utc(local: Local, utc: bool) -> Option<i64>
    requires { IsCalendarDay local.day }
    ensures { result ≡ moment_in_utc (local, utc) }
{
    if utc {
        Some(moment_of_local(local))
    } else {
        None
    }
}

fn moment_of_local(local: Local) -> i64
    requires { IsCalendarDay local.day }
    ensures { result ≡ (utc_of_local local).0 }
{
    i64::from(local.day) * DAY + i64::from(local.second)
}

/// The range from a moment up to a later one, in seconds since 1970; none where it is not later.
pub fn range_between(start: i64, end: i64) -> Option<Range>
    ensures { result ≡ range_between start end }
{
    if start < end {
        Some(Range {
            start: Utc(start),
            end: Utc(end),
        })
    } else {
        None
    }
}
