//! A day, and what the calendar says of it.
ghost use Rattle.std.specs.Prelude.{◌≡◌, ℕ, ◌+◌, ◌-◌, ◌*◌, ◌/◌, ◌%◌, ◌<◌, ◌≤◌};
ghost use Rattle.cal_moment.specs.Calendar as cal;

use cal_moment::{Day, fields_of};

/// 1 January 1970, counted from 1 January of the year 0.
const EPOCH_DAY: i32 = 719_528;

/// A day of the years 1 to 9999, counted from 1 January of the year 0, with its date.
#[derive(Drop)]
pub struct Today {
    pub day: u32,
    pub year: u32,
    pub month: u32,
    /// The day of the month, from 1.
    pub of_month: u32,
    /// The day of the year, from 1.
    pub of_year: u32,
    ghost day_is: { (366 ≤ day) × (day < 3_652_425) },
    ghost year_is: { year ≡ cal.year_of day },
    ghost month_is: { month ≡ cal.month_of day },
    ghost of_month_is: { of_month ≡ cal.day_of_month day },
    ghost of_year_is: { of_year ≡ cal.day_of_year day },
    ghost year_bound: { year ≤ 9999 },
    ghost of_month_bound: { of_month ≤ 31 },
    ghost of_year_bound: { of_year ≤ 366 },
}

/// How many days lie before 1 January of a year.
pub fn first_of_year(year: u32) -> u32
    requires { year ≤ 10_001 }
    ensures { result ≡ cal.first_of_year year }
{
    365 * year + (year + 3) / 4 + (year + 399) / 400 - (year + 99) / 100
}

/// Every fourth year, but of the centuries only every fourth.
fn is_leap(year: u32) -> bool
    ensures { result ≡ cal.is_leap year }
{
    year % 4 == 0 && (year % 100 != 0 || year % 400 == 0)
}

/// The days of a year.
pub fn year_length(year: u32) -> u32
    ensures { result ≡ cal.year_length year }
{
    if is_leap(year) { 366 } else { 365 }
}

/// The days of a month.
pub fn month_length(year: u32, month: u32) -> u32
    ensures { result ≡ cal.month_length year month }
{
    match month {
        2 => { if is_leap(year) { 29 } else { 28 } }
        4 | 6 | 9 | 11 => 30,
        _ => 31,
    }
}

/// The day of the week, where 0 is Monday.
pub fn weekday_of(day: u32) -> u32
    requires { day < 3_652_425 }
    ensures value { result ≡ cal.weekday_of day }
    ensures bound { result < 7 }
{
    (day + 5) % 7
}

/// A day as it is counted from 1970.
fn since_1970(day: u32) -> i32
    requires { day < 3_652_425 }
    ensures value { cal.day_number result ≡ day }
    ensures calendar { 366 ≤ day → cal.IsCalendarDay result }
{
    day as i32 - EPOCH_DAY
}

/// The year, the month and the day of the month of a day.
fn date_of(day: u32) -> (u32, u32, u32)
    requires from { 366 ≤ day }
    requires to { day < 3_652_425 }
    ensures year { result.0 ≡ cal.year_of day }
    ensures month { result.1 ≡ cal.month_of day }
    ensures of_month { result.2 ≡ cal.day_of_month day }
    ensures bounds { (result.0 ≤ 9999) × (result.2 ≤ 31) }
{
    let (year, month, of_month) = fields_of(Day(since_1970(day)));
    (year as u32, month as u32, of_month as u32)
}

impl Today {
    /// A day with its date.
    #[tactic(auto, using(cal_model::proofs::Recurrence::DayTimes::year_first, cal_model::proofs::Recurrence::DayTimes::year_last, cal_model::proofs::Recurrence::DayTimes::year_end))]
    pub fn new(day: u32) -> Today
        requires from { 366 ≤ day }
        requires to { day < 3_652_425 }
        ensures { result.day ≡ day }
    {
        let (year, month, of_month) = date_of(day);
        let of_year = day - first_of_year(year) + 1;
        Today {
            day,
            year,
            month,
            of_month,
            of_year,
        }
    }
}
