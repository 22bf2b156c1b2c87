//! Texts of a date and a time (RFC 5545, 3.3.5).

ghost use Rattle.std.specs.Prelude.{◌≡◌, ◌≤◌, ◌<◌, ◌+◌, ◌*◌, ◌++◌, List, ℕ, Bool, IfOk, IfErr, min, ◌/◌, ◌%◌, true, false, codes};
ghost use Rattle.cal_moment.specs.declared.stamp.Local.{Local};
ghost use Rattle.cal_moment.specs.BadPlace.{IsIn, IsBadAt};
ghost use Rattle.cal_moment.specs.Texts.{SpellsTime, SpellsDateTime, local_of_seconds, time_text, utc_text, written_local};
ghost use Rattle.cal_moment.specs.Calendar.{IsCalendarDay, IsCalendarMoment, moment_number, moment_of_seconds};
ghost use Rattle.cal_moment.specs.Stops.{IsUtcText, Opens, Stops};

use crate::dates::{date_in_front, write_date};
use crate::pieces::{bad, decimal, letter, number};
use crate::stamp::{Bad, Day, Local, Utc};

/// How many days 1970-01-01 lies after 0001-01-01.
const DAYS_TO_EPOCH: i32 = 719_162;

/// The same in seconds.
const SECONDS_TO_EPOCH: i64 = 62_135_596_800;

/// Reads a time of day at the front of a text, as the second of the day.
pub fn time_in_front(text: &[u8]) -> Result<(u32, &[u8]), &[u8]>
    ensures ok { IfOk result (λ found. (front : List ℕ) × SpellsTime front found.0 × (text.now ≡ front ++ found.1.now)) }
    ensures range { IfOk result (λ found. found.0 < 86400) }
    ensures err { IfErr result (λ left. Stops (Opens (IsIn SpellsTime)) text.now left.now) }
{
    let (hour, rest) = number(text, 2, 0, 23)?;
    let (minute, rest) = number(rest, 2, 0, 59)?;
    let (second, rest) = number(rest, 2, 0, 60)?;
    // A leap second is read as the second before it.
    Ok((3600 * hour + 60 * minute + second.min(59), rest))
}

/// Reads the end of a time: nothing, or the Z of UTC.
fn whole_utc(text: &[u8]) -> Result<bool, &[u8]>
    ensures ok { IfOk result (λ utc. text.now ≡ utc_text utc) }
    ensures err { IfErr result (λ left. Stops IsUtcText text.now left.now) }
{
    if text.is_empty() {
        return Ok(false);
    }
    let Some(rest) = letter(text, b'Z') else {
        return Err(text);
    };
    if rest.is_empty() { Ok(true) } else { Err(rest) }
}

/// The local time that the whole text spells, and whether it is of UTC.
fn whole_date_time(text: &[u8]) -> Result<(Local, bool), &[u8]>
    ensures ok { IfOk result (SpellsDateTime text.now) }
    ensures day { IfOk result (λ found. IsCalendarDay found.0.day) }
    ensures second { IfOk result (λ found. found.0.second < 86400) }
    ensures err { IfErr result (λ left. Stops (IsIn SpellsDateTime) text.now left.now) }
{
    let (day, rest) = date_in_front(text)?;
    let Some(time) = letter(rest, b'T') else {
        return Err(rest);
    };
    let (second, rest) = time_in_front(time)?;
    let utc = whole_utc(rest)?;
    Ok((Local { day: day.0, second }, utc))
}

/// Reads a DATE-TIME, and whether it ends in the Z of UTC. Second 60 is read as 59.
pub fn read_date_time(text: &[u8]) -> Result<(Local, bool), Bad>
    ensures ok { IfOk result (SpellsDateTime text.now) }
    ensures day { IfOk result (λ found. IsCalendarDay found.0.day) }
    ensures second { IfOk result (λ found. found.0.second < 86400) }
    ensures only { (value : Local × Bool) → SpellsDateTime text.now value → result ≡ Ok value }
    ensures err { IfErr result (λ fault. IsBadAt SpellsDateTime text.now fault.place) }
{
    match whole_date_time(text) {
        Ok(value) => Ok(value),
        Err(left) => Err(bad(text, left)),
    }
}

/// The six octets of a time of day.
fn time_octets(second: u32) -> [u8; 6]
    requires { second < 86400 }
    ensures { result ≡ time_text (second / 3600) (second / 60 % 60) (second % 60) }
{
    let (hour, minute, second) = (second / 3600, second / 60 % 60, second % 60);
    [
        decimal(hour / 10),
        decimal(hour % 10),
        decimal(minute / 10),
        decimal(minute % 10),
        decimal(second / 10),
        decimal(second % 10),
    ]
}

/// Writes a local time of the years 1 to 9999 as a DATE-TIME without Z, which spells it.
pub fn write_local(local: Local) -> [u8; 15]
    requires day { IsCalendarDay local.day }
    requires second { local.second < 86400 }
    ensures text { result ≡ written_local (moment_number local.day local.second) }
    ensures read { SpellsDateTime result (local, false) }
{
    let mut octets = [b'T'; 15];
    octets[..8].copy_from_slice(&write_date(Day(local.day)));
    octets[9..].copy_from_slice(&time_octets(local.second));
    octets
}

/// The local time in UTC of a moment of the years 1 to 9999.
fn local_of(utc: Utc) -> Local
    requires { IsCalendarMoment utc.0 }
    ensures value { result ≡ local_of_seconds utc.0 }
    ensures day { IsCalendarDay result.day }
    ensures second { result.second < 86400 }
{
    let since_year_one = (utc.0 + SECONDS_TO_EPOCH) as u64;
    Local {
        day: (since_year_one / 86_400) as i32 - DAYS_TO_EPOCH,
        second: (since_year_one % 86_400) as u32,
    }
}

/// Writes a moment of the years 1 to 9999 as a DATE-TIME with Z, which spells it.
pub fn write_utc(utc: Utc) -> [u8; 16]
    requires { IsCalendarMoment utc.0 }
    ensures text { result ≡ written_local (moment_of_seconds utc.0) ++ codes "Z" }
    ensures read { SpellsDateTime result (local_of_seconds utc.0, true) }
{
    let mut octets = [b'Z'; 16];
    octets[..15].copy_from_slice(&write_local(local_of(utc)));
    octets
}
