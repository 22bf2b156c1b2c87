//! Where the walk of a rule of a zone ends (RFC 5545, 3.3.10).
ghost use Rattle.std.specs.Prelude.{◌≡◌, ℕ, true, ◌+◌, ◌*◌, ◌<◌, Some, ℤ, pos, neg_ℤ, ◌+ℤ◌, ◌*ℤ◌, ◌≤ℤ◌, ◌<ℤ◌};
ghost use Rattle.cal_moment.specs.Calendar.{IsCalendarMoment, day_number};
ghost use Rattle.cal_model.specs.Recurrence.NextPassing.{end_day};
ghost use Rattle.cal_model.specs.Recurrence.RuleBounds.{IsWritten, IsWrittenUntil};
ghost use Rattle.cal_model.specs.Recurrence.RecurrenceSet.{not_past, onset_reading, until_passes};
ghost use Rattle.cal_model.specs.Values.LocalTimes.{moment_of_local};
ghost use Rattle.cal_model.specs.TimeZones.TableBounds.{IsOffset};

use cal_model::Until;
use cal_model::walk::rule_walk::END;
use cal_moment::{Local, Utc};

/// The day after that of an instant in UTC.
fn day_after(utc: Utc) -> i32
    requires { IsCalendarMoment utc.0 }
    ensures from { neg_ℤ (pos 719_162) ≤ℤ result }
    ensures to { result ≤ℤ pos 2_932_897 }
    ensures after { utc.0 <ℤ (pos 86_400 *ℤ result) }
{
    ((utc.0 + 62_135_596_800) as u64 / 86_400) as i32 - 719_161
}

/// A day after which UNTIL lets no onset come. Where it is in UTC, the offset before an onset may
/// put the clock a day ahead.
fn last_day(until: Until) -> i32
    requires { IsWrittenUntil (Some until) }
    ensures from { neg_ℤ (pos 719_162) ≤ℤ result }
    ensures to { result ≤ℤ pos 2_932_897 }
    ensures none_after { (from : ℤ) (m : ℕ) → IsOffset from → not_past (onset_reading from) until m ≡ true → m < 86_400 * (day_number result + 1) }
{
    match until {
        Until::Day(day) => day.0,
        Until::Local(local) => local.day,
        Until::Utc(utc) => day_after(utc),
    }
}

/// A moment from which on UNTIL lets no onset come, and at which at the latest all rules end.
pub fn end_by(until: Option<Until>) -> Local
    requires { IsWrittenUntil until }
    ensures written { IsWritten result }
    ensures none_after { (from : ℤ) (m : ℕ) → IsOffset from → m < 86_400 * end_day → until_passes (onset_reading from) until m ≡ true → m < moment_of_local result }
{
    match until {
        None => END,
        Some(until) => Local {
            day: last_day(until).min(END.day - 1) + 1,
            second: 0,
        },
    }
}
