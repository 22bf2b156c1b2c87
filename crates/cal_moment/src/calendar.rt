//! The calendar of the years 1 to 9999.

ghost use Rattle.std.specs.Prelude.{◌≡◌, ◌↔◌, ◌<◌, unsigned_abs, IsSome, IfSome};
ghost use Rattle.cal_moment.specs.Calendar.{IsDateOf, IsCalendarDay, IsFieldsOf, day_of_date, day_number, weekday_of};

use crate::stamp::Day;
use jiff_core::civil::Date;

/// How many days 1970-01-01 lies after the first day of `jiff_core`, -9999-01-01.
const DAYS_TO_EPOCH: i32 = 4_371_587;

/// The day of a date of the years 1 to 9999; `None` where the calendar has no such date.
pub fn day_of(year: i32, month: u8, day: u8) -> Option<Day>
    ensures some { IsSome result ↔ IsDateOf year month day }
    ensures value { IfSome result (λ d. IsCalendarDay d.0 × (day_number d.0 ≡ day_of_date (unsigned_abs year) month day)) }
    ensures fields { IfSome result (λ d. IsFieldsOf (day_number d.0) (unsigned_abs year) month day) }
{
    if year < 1 || year > 9999 || month > 12 || day > 31 {
        return None;
    }
    match Date::new(year as i16, month as i8, day as i8) {
        Ok(date) => Some(Day(date.to_unix_epoch_day())),
        Err(_) => None,
    }
}

/// The year, the month and the day of the month of a day of the years 1 to 9999.
pub fn fields_of(day: Day) -> (i32, u8, u8)
    requires { IsCalendarDay day.0 }
    ensures date { IsDateOf result.0 result.1 result.2 }
    ensures value { day_of_date (unsigned_abs result.0) result.1 result.2 ≡ day_number day.0 }
    ensures fields { IsFieldsOf (day_number day.0) (unsigned_abs result.0) result.1 result.2 }
{
    let date = Date::from_days_since_min((day.0 + DAYS_TO_EPOCH) as u32);
    (date.year as i32, date.month, date.day)
}

/// The day of the week of a day of the years 1 to 9999, where 0 is Monday.
pub fn weekday(day: Day) -> u8
    requires { IsCalendarDay day.0 }
    ensures value { result ≡ weekday_of (day_number day.0) }
    ensures bound { result < 7 }
{
    Date::from_days_since_min((day.0 + DAYS_TO_EPOCH) as u32)
        .weekday()
        .index()
}
