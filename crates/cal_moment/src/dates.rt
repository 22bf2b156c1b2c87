//! Texts of dates (RFC 5545, 3.3.4).

ghost use Rattle.std.specs.Prelude.{◌≡◌, ◌++◌, List, ℕ, ◌≤◌, IfOk, IfErr};
ghost use Rattle.cal_moment.specs.declared.stamp.Day.{Day};
ghost use Rattle.cal_moment.specs.BadPlace.{IsIn, IsBadAt};
ghost use Rattle.cal_moment.specs.Texts.{SpellsDate, date_text, written_date};
ghost use Rattle.cal_moment.specs.Calendar.{month_length, IsCalendarDay, IsDate, day_number};
ghost use Rattle.cal_moment.specs.Stops.{Opens, Stops};

use crate::calendar::{day_of, fields_of};
use crate::pieces::{bad, decimal, number};
use crate::stamp::{Bad, Day};
use jiff_core::civil;

/// The days of a month of the years 1 to 9999.
fn days_of_month(year: u32, month: u32) -> u32
    requires year { year ≤ 9999 }
    requires month { month ≤ 12 }
    ensures value { result ≡ month_length year month }
    ensures some { 28 ≤ result }
    ensures bound { result ≤ 31 }
{
    u32::from(civil::days_in_month(year as i16, month as u8))
}

/// The day of a date that the calendar has.
fn day_of_fields(year: u32, month: u32, day: u32) -> Day
    requires { IsDate year month day }
    ensures spelled { SpellsDate (date_text year month day) result }
    ensures range { IsCalendarDay result.0 }
{
    match day_of(year as i32, month as u8, day as u8) {
        Some(day) => day,
        None => unreachable!(),
    }
}

/// Reads a date at the front of a text.
pub fn date_in_front(text: &[u8]) -> Result<(Day, &[u8]), &[u8]>
    ensures ok { IfOk result (λ found. (front : List ℕ) × SpellsDate front found.0 × (text.now ≡ front ++ found.1.now)) }
    ensures range { IfOk result (λ found. IsCalendarDay found.0.0) }
    ensures err { IfErr result (λ left. Stops (Opens (IsIn SpellsDate)) text.now left.now) }
{
    let (year, rest) = number(text, 4, 1, 9999)?;
    let (month, rest) = number(rest, 2, 1, 12)?;
    let (day, rest) = number(rest, 2, 1, days_of_month(year, month))?;
    Ok((day_of_fields(year, month, day), rest))
}

/// The day that the whole text spells.
fn whole_date(text: &[u8]) -> Result<Day, &[u8]>
    ensures ok { IfOk result (SpellsDate text.now) }
    ensures range { IfOk result (λ day. IsCalendarDay day.0) }
    ensures err { IfErr result (λ left. Stops (IsIn SpellsDate) text.now left.now) }
{
    let (day, rest) = date_in_front(text)?;
    if rest.is_empty() { Ok(day) } else { Err(rest) }
}

/// Reads a DATE: four digits of the year, two of the month and two of the day.
pub fn read_date(text: &[u8]) -> Result<Day, Bad>
    ensures ok { IfOk result (SpellsDate text.now) }
    ensures range { IfOk result (λ day. IsCalendarDay day.0) }
    ensures only { (day : Day) → SpellsDate text.now day → result ≡ Ok day }
    ensures err { IfErr result (λ fault. IsBadAt SpellsDate text.now fault.place) }
{
    match whole_date(text) {
        Ok(day) => Ok(day),
        Err(left) => Err(bad(text, left)),
    }
}

/// The eight octets of a date.
fn date_octets(year: u32, month: u32, day: u32) -> [u8; 8]
    requires year { year ≤ 9999 }
    requires month { month ≤ 99 }
    requires day { day ≤ 99 }
    ensures { result ≡ date_text year month day }
{
    [
        decimal(year / 1000),
        decimal(year / 100 % 10),
        decimal(year / 10 % 10),
        decimal(year % 10),
        decimal(month / 10),
        decimal(month % 10),
        decimal(day / 10),
        decimal(day % 10),
    ]
}

/// Writes a day of the years 1 to 9999 as a DATE, which spells it.
pub fn write_date(day: Day) -> [u8; 8]
    requires { IsCalendarDay day.0 }
    ensures text { result ≡ written_date (day_number day.0) }
    ensures read { SpellsDate result day }
{
    let (year, month, day) = fields_of(day);
    date_octets(year as u32, u32::from(month), u32::from(day))
}
