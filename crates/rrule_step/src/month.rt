//! Months of the calendar.
ghost use Rattle.std.specs.Prelude.{◌≡◌, ℕ, ◌+◌, ◌-◌, ◌*◌, ◌/◌, ◌%◌, ◌<◌, ◌≤◌};
ghost use Rattle.cal_moment.specs.Calendar as cal;

use cal_moment::{Day, fields_of};

/// 1 January 1970, counted from 1 January of the year 0.
const EPOCH_DAY: i32 = 719_528;

/// A month of the years 1 to 2101.
#[derive(Drop)]
pub struct Month {
    pub year: u32,
    /// 1 to 12.
    pub month: u32,
    /// Its first day, counted from 1 January of the year 0.
    pub first: u32,
    /// How many days it has.
    pub size: u32,
    ghost year_is: { (1 ≤ year) × (year ≤ 2101) },
    ghost month_is: { (1 ≤ month) × (month ≤ 12) },
    ghost first_is: { first ≡ cal.day_of_date year month 1 },
    ghost size_is: { size ≡ cal.month_length year month },
}

/// How many days lie before 1 January of a year.
pub fn first_of_year(year: u32) -> u32
    requires { year ≤ 10_001 }
    ensures { result ≡ cal.first_of_year year }
{
    365 * year + (year + 3) / 4 + (year + 399) / 400 - (year + 99) / 100
}

/// Every fourth year, but of the centuries only every fourth.
pub fn is_leap(year: u32) -> bool
    ensures { result ≡ cal.is_leap year }
{
    year % 4 == 0 && (year % 100 != 0 || year % 400 == 0)
}

/// The days of a year.
pub fn year_length(year: u32) -> u32
    ensures { result ≡ cal.year_length year }
{
    if is_leap(year) { 366 } else { 365 }
}

/// The days of a month.
fn month_length(year: u32, month: u32) -> u32
    ensures { result ≡ cal.month_length year month }
{
    match month {
        2 => { if is_leap(year) { 29 } else { 28 } }
        4 | 6 | 9 | 11 => 30,
        _ => 31,
    }
}

/// How many days of a year lie before the first of a month.
pub fn days_before_month(year: u32, month: u32) -> u32
    requires { (1 ≤ month) × (month ≤ 12) }
    ensures value { result ≡ cal.days_before_month year month }
    ensures bound { result ≤ 335 }
{
    let february = month_length(year, 2);
    match month {
        1 => 0,
        2 => 31,
        3 => 31 + february,
        4 => 62 + february,
        5 => 92 + february,
        6 => 123 + february,
        7 => 153 + february,
        8 => 184 + february,
        9 => 215 + february,
        10 => 245 + february,
        11 => 276 + february,
        _ => 306 + february,
    }
}

impl Month {
    /// The month of a number: twelve for each year, and in it from 0.
    pub fn new(number: u32) -> Month
        requires from { 12 ≤ number }
        requires to { number < 25_224 }
        ensures year { result.year ≡ number / 12 }
        ensures month { result.month ≡ number % 12 + 1 }
    {
        let year = number / 12;
        let month = number % 12 + 1;
        Month {
            year,
            month,
            first: first_of_year(year) + days_before_month(year, month),
            size: month_length(year, month),
        }
    }
}

/// The day of the week, where 0 is Monday.
pub fn weekday_of(day: u32) -> u32
    requires { day < 3_652_425 }
    ensures value { result ≡ cal.weekday_of day }
    ensures bound { result < 7 }
{
    (day + 5) % 7
}

/// A day as it is counted from 1970.
fn since_1970(day: u32) -> i32
    requires { day < 3_652_425 }
    ensures value { cal.day_number result ≡ day }
    ensures calendar { 366 ≤ day → cal.IsCalendarDay result }
{
    day as i32 - EPOCH_DAY
}

/// The year, the month and the day of the month of a day.
pub fn date_of(day: u32) -> (u32, u32, u32)
    requires from { 366 ≤ day }
    requires to { day < 3_652_425 }
    ensures year { result.0 ≡ cal.year_of day }
    ensures month { result.1 ≡ cal.month_of day }
    ensures of_month { result.2 ≡ cal.day_of_month day }
    ensures bounds { (1 ≤ result.0) × (result.0 ≤ 9999) × (1 ≤ result.1) × (result.1 ≤ 12) × (1 ≤ result.2) × (result.2 ≤ 31) }
{
    let (year, month, of_month) = fields_of(Day(since_1970(day)));
    (year as u32, month as u32, of_month as u32)
}
