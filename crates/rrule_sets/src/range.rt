//! Ranges of local digits.
ghost use Rattle.std.specs.Prelude.{◌≡◌, ℕ, ◌*◌, ◌<◌, ◌≤◌, ◌<ℤ◌, ◌≤ℤ◌, pos, neg_ℤ, ◌+ℤ◌, ◌*ℤ◌, nat_le, nat_lt, int_le, int_lt};
ghost use Rattle.cal_model.specs.Instances.Rows.{window_seconds};
ghost use Rattle.cal_moment.specs.Calendar.{seconds_since_1970};
ghost use Rattle.cal_model.specs.Recurrence.NextPassing.{end_day};
ghost use Rattle.cal_model.specs.Recurrence.RuleBounds.{IsWritten};
ghost use Rattle.cal_model.specs.Recurrence.RecurrenceSet.{first_moment};
ghost use Rattle.cal_model.specs.Values.LocalTimes.{moment_of_local};
ghost use Rattle.rrule_sets.specs.DigitRanges.{in_digits};

use cal_model::local_of;
use cal_model::walk::rule_walk::{END, FIRST};
use cal_moment::Local;

/// The digits of `FIRST`, 1 January of the year 1, and of `END`, 1 January 2102.
pub const FIRST_DIGITS: i64 = -62_135_596_800;

const END_DIGITS: i64 = 4_165_516_800;

/// 64 days, in seconds.
const WINDOW: i64 = 5_529_600;

/// Digits from `low` on and before `high`, in seconds since 1970.
#[derive(Clone, Copy)]
pub struct Digits {
    pub low: i64,
    pub high: i64,
}

/// The digits of a window of 64 days, counted from 1970.
pub fn window_digits(window: i32) -> Digits
    ensures low { result.low ≡ window *ℤ window_seconds }
    ensures high { result.high ≡ (window +ℤ pos 1) *ℤ window_seconds }
{
    Digits {
        low: window as i64 * WINDOW,
        high: (window as i64 + 1) * WINDOW,
    }
}

/// Whether digits lie in a range.
pub fn holds(range: Digits, digits: i64) -> bool
    ensures { result ≡ in_digits range digits }
{
    range.low <= digits && digits < range.high
}

/// The moment of some digits, or what is nearest to it of the moments that rules give.
pub fn moment_at(digits: i64) -> Local
    ensures written { IsWritten result }
    ensures within { moment_of_local result ≤ 86_400 * end_day }
    ensures from { (m : ℕ) → first_moment ≤ m → m < 86_400 * end_day → nat_le (moment_of_local result) m ≡ int_le digits (seconds_since_1970 m) }
    ensures before { (m : ℕ) → first_moment ≤ m → m < 86_400 * end_day → nat_lt m (moment_of_local result) ≡ int_lt (seconds_since_1970 m) digits }
    ensures by { (n : ℕ) → neg_ℤ (pos 62_135_596_800) <ℤ digits → digits ≤ℤ seconds_since_1970 n → moment_of_local result ≤ n }
    ensures early { digits ≤ℤ neg_ℤ (pos 62_135_596_800) → moment_of_local result ≡ first_moment }
{
    if digits <= FIRST_DIGITS {
        FIRST
    } else if digits >= END_DIGITS {
        END
    } else {
        local_of(digits)
    }
}
