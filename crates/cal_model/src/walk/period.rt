//! The period in which a moment lies (RFC 5545, 3.3.10).
ghost use Rattle.std.specs.Prelude.{◌≡◌, ◌⊎◌, ◌+◌, ◌*◌, ◌<◌, ◌≤◌, false};
ghost use Rattle.cal_moment.specs.Calendar as cal;
ghost use Rattle.cal_model.specs.declared.rule.Freq.TheVariants.{Monthly, Yearly};
ghost use Rattle.cal_model.specs.Recurrence.NextPassing.{end_day, is_fine};
ghost use Rattle.cal_model.specs.Recurrence.RuleBounds.{IsWritten, IsUsable};
ghost use Rattle.cal_model.specs.Values.LocalTimes.{moment_of_local};
ghost use Rattle.cal_model.specs.Walks.KeptMoments.{number_of, EndsPeriod, IsPeriodFirst};

use crate::rule::{Freq, Rule};
use crate::walk::until::moment_of;
use cal_moment::{Day, Local, fields_of};

/// The year and the month of a day.
fn month_of(day: i32) -> (u32, u32)
    requires { cal.IsCalendarDay day }
    ensures year { result.0 ≡ cal.year_of (cal.day_number day) }
    ensures month { result.1 ≡ cal.month_of (cal.day_number day) }
    ensures bounds { (result.0 ≤ 9999) × (result.1 ≤ 12) }
{
    let (year, month, _) = fields_of(Day(day));
    (year as u32, month as u32)
}

/// The day of the month of a day.
fn day_of_month(day: i32) -> u32
    requires { cal.IsCalendarDay day }
    ensures value { result ≡ cal.day_of_month (cal.day_number day) }
    ensures bounds { (1 ≤ result) × (result ≤ 31) }
{
    let (_, _, of_month) = fields_of(Day(day));
    of_month as u32
}

/// The number of a moment's period.
pub fn period_of(rule: &Rule, m: Local) -> u64
    requires written { IsWritten m }
    requires rule { IsUsable rule.now }
    ensures { result ≡ number_of rule.now (moment_of_local m) }
{
    let moment = moment_of(m);
    let day = moment / 86_400;
    match rule.freq {
        Freq::Secondly => moment,
        Freq::Minutely => moment / 60,
        Freq::Hourly => moment / 3600,
        Freq::Daily => day,
        Freq::Weekly => (day + 12 - rule.week_start as u64) / 7,
        Freq::Monthly => {
            let (year, month) = month_of(m.day);
            12 * year as u64 + month as u64
        }
        Freq::Yearly => {
            let (year, _) = month_of(m.day);
            year as u64
        }
    }
}

/// A day as it is counted from the year 0.
fn day_number(day: i32) -> u32
    requires { cal.IsCalendarDay day }
    ensures value { result ≡ cal.day_number day }
    ensures bound { result < 3_652_425 }
{
    (day + 719_528) as u32
}

/// A midnight of the years 1 to 9999.
fn midnight(day: u32) -> Local
    requires from { 366 ≤ day }
    requires to { day < 3_652_425 }
    ensures written { IsWritten result }
    ensures value { moment_of_local result ≡ 86400 * day }
{
    Local {
        day: day as i32 - 719_528,
        second: 0,
    }
}

/// How many days lie before 1 January of a year.
fn first_of_year(year: u32) -> u32
    requires { year ≤ 10_001 }
    ensures { result ≡ cal.first_of_year year }
{
    365 * year + (year + 3) / 4 + (year + 399) / 400 - (year + 99) / 100
}

/// The first of the year of a day.
#[tactic(auto, using(crate::proofs::Walks::BeginLemmas::year_begins))]
fn year_begin(day: i32) -> (u32, u32)
    requires { cal.IsCalendarDay day }
    ensures year { result.1 ≡ cal.first_of_year result.0 }
    ensures from { 366 ≤ result.1 }
    ensures to { result.1 ≤ cal.day_number day }
{
    let (year, _) = month_of(day);
    (year, first_of_year(year))
}

/// A midnight at or before a moment, on both sides of which no period lies: the first of its year,
/// its week or its day.
pub fn period_first(rule: &Rule, m: Local) -> Local
    requires written { IsWritten m }
    requires late { 86400 * 731 ≤ moment_of_local m }
    requires rule { IsUsable rule.now }
    requires coarse { is_fine rule.now.freq ≡ false }
    ensures written { IsWritten result }
    ensures before { moment_of_local result ≤ moment_of_local m }
    ensures first { IsPeriodFirst rule.now (moment_of_local result) }
{
    let day = day_number(m.day);
    match rule.freq {
        Freq::Weekly => midnight(day - (day + 12 - rule.week_start as u32) % 7),
        Freq::Monthly | Freq::Yearly => midnight(year_begin(m.day).1),
        _ => midnight(day),
    }
}

/// Every fourth year, but of the centuries only every fourth.
fn is_leap(year: u32) -> bool
    ensures { result ≡ cal.is_leap year }
{
    year % 4 == 0 && (year % 100 != 0 || year % 400 == 0)
}

/// The days of a month.
fn month_length(year: u32, month: u32) -> u32
    ensures value { result ≡ cal.month_length year month }
    ensures bound { result ≤ 31 }
{
    match month {
        2 => { if is_leap(year) { 29 } else { 28 } }
        4 | 6 | 9 | 11 => 30,
        _ => 31,
    }
}

/// The day behind the month of a day.
fn month_end(day: i32) -> u32
    requires { cal.IsCalendarDay day }
    ensures { result ≡ cal.day_of_date (cal.year_of (cal.day_number day)) (cal.month_of (cal.day_number day)) 1
        + cal.month_length (cal.year_of (cal.day_number day)) (cal.month_of (cal.day_number day)) }
{
    let (year, month) = month_of(day);
    let size = month_length(year, month);
    day_number(day) + 1 + size - day_of_month(day)
}

/// The day behind the year of a day.
fn year_end(day: i32) -> u32
    requires { cal.IsCalendarDay day }
    ensures { result ≡ cal.first_of_year (cal.year_of (cal.day_number day) + 1) }
{
    let (year, _) = month_of(day);
    first_of_year(year + 1)
}

/// The first second behind the month or the year of a moment.
pub fn period_end(rule: &Rule, m: Local) -> Local
    requires written { IsWritten m }
    requires early { moment_of_local m < 86400 * end_day }
    requires long { (rule.now.freq ≡ Monthly) ⊎ (rule.now.freq ≡ Yearly) }
    ensures written { IsWritten result }
    ensures within { moment_of_local result ≤ 86400 * end_day }
    ensures ends { EndsPeriod rule.now (moment_of_local m) (moment_of_local result) }
{
    match rule.freq {
        Freq::Monthly => midnight(month_end(m.day)),
        _ => midnight(year_end(m.day)),
    }
}
