//! Texts of lengths of time (RFC 5545, 3.3.6).

ghost use Rattle.std.specs.Prelude.{◌≡◌, ◌≤◌, ◌<◌, ◌+◌, ◌*◌, ◌^◌, ◌∷◌, ◌++◌, ℕ, ℤ, pos, neg_ℤ, List, length, IfOk, IfErr, IfSome, IfNone};
ghost use Rattle.cal_moment.specs.declared.stamp.Length.{Length};
ghost use Rattle.cal_moment.specs.Calendar.{IsBetween};
ghost use Rattle.cal_moment.specs.BadPlace.{IsIn, IsBadAt};
ghost use Rattle.cal_moment.specs.Texts.{digits, signed};
ghost use Rattle.cal_moment.specs.LengthTexts.{SpellsBody, SpellsLength, SpellsTimes, time_units, unit_letter, unit_seconds};
ghost use Rattle.cal_moment.specs.Stops.{BeginsWithNoDigit, Stops};
ghost use Rattle.cal_moment.specs.LengthPieces.{AreApart, CutsSign, GoesOnToCount, IsBody, IsLongestCount, SpellsBehind, SpellsBehindDays};

use crate::pieces::{bad, digit, letter, sign};
use crate::stamp::{Bad, Length};

/// A unit of time with a letter of its own.
#[derive(Clone, Copy)]
enum TimeUnit {
    Hour,
    Minute,
    Second,
}

/// The units of a time, in the order in which they are written.
const TIME_UNITS: [TimeUnit; 3] = [TimeUnit::Hour, TimeUnit::Minute, TimeUnit::Second];

impl TimeUnit {
    /// Its letter.
    fn letter(self) -> u8
        ensures { result ≡ unit_letter self }
    {
        match self {
            TimeUnit::Hour => b'H',
            TimeUnit::Minute => b'M',
            TimeUnit::Second => b'S',
        }
    }

    /// Its seconds.
    fn seconds(self) -> u64
        ensures value { result ≡ unit_seconds self }
        ensures bound { result ≤ 3600 }
    {
        match self {
            TimeUnit::Hour => 3600,
            TimeUnit::Minute => 60,
            TimeUnit::Second => 1,
        }
    }
}

/// The least number of ten digits.
const BILLION: u64 = 1_000_000_000;

/// Goes on with a number of so many digits, to one of at most nine.
fn more_digits(text: &[u8], value: u64, width: u32) -> (u64, &[u8])
    requires width { width ≤ 9 }
    requires fits { value < 10 ^ width }
    ensures { GoesOnToCount width value text.now result.0 result.1.now }
{
    if width == 9 {
        return (value, text);
    }
    match digit(text) {
        Some((next, rest)) => more_digits(rest, 10 * value + u64::from(next), width + 1),
        None => (value, text),
    }
}

/// Reads a number of one to nine digits, as many as there are.
fn count(text: &[u8]) -> Option<(u64, &[u8])>
    ensures some { IfSome result (λ found. IsLongestCount text.now found.0 found.1.now) }
    ensures bound { IfSome result (λ found. found.0 < BILLION) }
    ensures none { IfNone result (BeginsWithNoDigit text.now) }
{
    let (first, rest) = digit(text)?;
    Some(more_digits(rest, u64::from(first), 1))
}

/// The first of some units, and the later ones.
fn first_unit(units: &[TimeUnit]) -> (TimeUnit, &[TimeUnit])
    requires { 0 < length units.now }
    ensures { units.now ≡ result.0 ∷ result.1.now }
{
    (units[0], &units[1..])
}

/// Reads what follows a number of a time that is read to its end: the letter of one of the units,
/// and numbers of the later ones. Gives the seconds of it all.
fn parts_behind<'a>(number: u64, text: &'a [u8], units: &[TimeUnit]) -> Result<u64, &'a [u8]>
    requires number { number < BILLION }
    requires some { 0 < length units.now }
    requires apart { AreApart units.now }
    requires most { length units.now ≤ 3 }
    ensures ok { IfOk result (SpellsBehind units.now number text.now) }
    ensures bound { IfOk result (λ seconds. seconds ≤ 3600 * BILLION * length units.now) }
    ensures err { IfErr result (λ left. Stops (IsIn (SpellsBehind units.now number)) text.now left.now) }
{
    let (unit, later) = first_unit(units);
    let Some(rest) = letter(text, unit.letter()) else {
        if later.is_empty() {
            return Err(text);
        }
        return parts_behind(number, text, later);
    };
    let seconds = number * unit.seconds();
    if rest.is_empty() {
        return Ok(seconds);
    }
    if later.is_empty() {
        return Err(rest);
    }
    let Some((next, behind)) = count(rest) else {
        return Err(rest);
    };
    let others = parts_behind(next, behind, later)?;
    Ok(seconds + others)
}

/// The seconds of the times that the whole text spells.
fn whole_times(text: &[u8]) -> Result<u64, &[u8]>
    ensures ok { IfOk result (SpellsTimes text.now) }
    ensures bound { IfOk result (λ seconds. seconds ≤ 10800 * BILLION) }
    ensures err { IfErr result (λ left. Stops (IsIn SpellsTimes) text.now left.now) }
{
    let Some((number, rest)) = count(text) else {
        return Err(text);
    };
    parts_behind(number, rest, &TIME_UNITS)
}

/// The seconds behind the D of days: none, or T and times.
fn whole_behind_days(text: &[u8]) -> Result<u64, &[u8]>
    ensures ok { IfOk result (SpellsBehindDays text.now) }
    ensures bound { IfOk result (λ seconds. seconds ≤ 10800 * BILLION) }
    ensures err { IfErr result (λ left. Stops (IsIn SpellsBehindDays) text.now left.now) }
{
    if text.is_empty() {
        return Ok(0);
    }
    let Some(times) = letter(text, b'T') else {
        return Err(text);
    };
    whole_times(times)
}

/// The days and the seconds that the whole text behind the P spells.
fn whole_body(text: &[u8]) -> Result<(u64, u64), &[u8]>
    ensures ok { IfOk result (λ found. SpellsBody text.now found.0 found.1) }
    ensures days { IfOk result (λ found. found.0 ≤ 6_999_999_993) }
    ensures seconds { IfOk result (λ found. found.1 ≤ 10800 * BILLION) }
    ensures err { IfErr result (λ left. Stops IsBody text.now left.now) }
{
    if let Some(times) = letter(text, b'T') {
        let seconds = whole_times(times)?;
        return Ok((0, seconds));
    }
    let Some((number, rest)) = count(text) else {
        return Err(text);
    };
    if let Some(end) = letter(rest, b'W') {
        return if end.is_empty() {
            Ok((7 * number, 0))
        } else {
            Err(end)
        };
    }
    let Some(rest) = letter(rest, b'D') else {
        return Err(rest);
    };
    let seconds = whole_behind_days(rest)?;
    Ok((number, seconds))
}

/// Cuts a sign off a text, and says whether it is a minus; none is plus.
fn optional_sign(text: &[u8]) -> (bool, &[u8])
    ensures { CutsSign text.now result.0 result.1.now }
{
    sign(text).unwrap_or((false, text))
}

/// A number with its sign.
fn signed_number(negative: bool, number: u64) -> i64
    requires { number ≤ 10800 * BILLION }
    ensures value { result ≡ signed negative number }
    ensures range { IsBetween (neg_ℤ (pos number)) (pos number) result }
{
    if negative {
        -(number as i64)
    } else {
        number as i64
    }
}

/// The length that the whole text spells.
fn whole_length(text: &[u8]) -> Result<Length, &[u8]>
    ensures ok { IfOk result (SpellsLength text.now) }
    ensures days { IfOk result (λ length. IsBetween (neg_ℤ (pos 6_999_999_993)) (pos 6_999_999_993) length.days) }
    ensures seconds { IfOk result (λ length. IsBetween (neg_ℤ (pos 10_800_000_000_000)) (pos 10_800_000_000_000) length.seconds) }
    ensures err { IfErr result (λ left. Stops (IsIn SpellsLength) text.now left.now) }
{
    let (negative, rest) = optional_sign(text);
    let Some(body) = letter(rest, b'P') else {
        return Err(rest);
    };
    let (days, seconds) = whole_body(body)?;
    Ok(Length {
        days: signed_number(negative, days),
        seconds: signed_number(negative, seconds),
    })
}

/// Reads a DURATION. Weeks are seven days each; hours and minutes are seconds.
pub fn read_length(text: &[u8]) -> Result<Length, Bad>
    ensures ok { IfOk result (SpellsLength text.now) }
    ensures days { IfOk result (λ length. IsBetween (neg_ℤ (pos 6_999_999_993)) (pos 6_999_999_993) length.days) }
    ensures seconds { IfOk result (λ length. IsBetween (neg_ℤ (pos 10_800_000_000_000)) (pos 10_800_000_000_000) length.seconds) }
    ensures only { (length : Length) → SpellsLength text.now length → result ≡ Ok length }
    ensures err { IfErr result (λ fault. IsBadAt SpellsLength text.now fault.place) }
{
    match whole_length(text) {
        Ok(length) => Ok(length),
        Err(left) => Err(bad(text, left)),
    }
}
