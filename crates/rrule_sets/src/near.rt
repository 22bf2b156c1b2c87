//! The rows of a list in order that may start in a range of digits.
ghost use Rattle.std.specs.Prelude.{◌≡◌, AllPairs, filter, int_le, int_lt, pos, ◌+ℤ◌, ◌-ℤ◌};
ghost use Rattle.cal_model.specs.declared.row.Row.{Row};
ghost use Rattle.rrule_sets.specs.NearRows.{is_near, HasLesserId};

use crate::range::Digits;
use cal_model::Row;

/// A day, in seconds: more than any offset of a zone.
const DAY: i128 = 86_400;

/// The rows behind those whose id lies before a value.
pub fn rows_from(rows: &[Row], low: i128) -> &[Row]
    requires { AllPairs HasLesserId rows.now }
    ensures { result.now ≡ filter (λ (row : Row). int_le low row.id) rows.now }
{
    let first = rows.partition_point(|row| (row.id as i128) < low);
    let (_, rest) = rows.split_at(first);
    rest
}

/// The rows whose id lies before a value.
pub fn rows_before(rows: &[Row], high: i128) -> &[Row]
    requires { AllPairs HasLesserId rows.now }
    ensures { result.now ≡ filter (λ (row : Row). int_lt row.id high) rows.now }
{
    let end = rows.partition_point(|row| (row.id as i128) < high);
    let (near, _) = rows.split_at(end);
    near
}

/// A day before a range begins.
fn day_before(range: Digits) -> i128
    ensures { result ≡ range.low -ℤ pos 86400 }
{
    range.low as i128 - DAY
}

/// A day after a range ends.
fn day_after(range: Digits) -> i128
    ensures { result ≡ range.high +ℤ pos 86400 }
{
    range.high as i128 + DAY
}

/// The rows, of some that stand by their ids, whose id lies within a day of a range: all whose digits
/// lie in it. They are found by two searches.
pub fn near_rows(rows: &[Row], range: Digits) -> &[Row]
    requires { AllPairs HasLesserId rows.now }
    ensures { result.now ≡ filter (is_near range) rows.now }
{
    rows_before(rows_from(rows, day_before(range)), day_after(range))
}
