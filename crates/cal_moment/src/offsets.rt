//! Texts of offsets from UTC (RFC 5545, 3.3.14).

ghost use Rattle.std.specs.Prelude.{◌≡◌, ◌≤◌, ◌<◌, ◌+◌, ◌*◌, ℤ, pos, neg_ℤ, IfOk, IfErr};
ghost use Rattle.cal_moment.specs.Calendar.{IsBetween};
ghost use Rattle.cal_moment.specs.BadPlace.{IsIn, IsBadAt};
ghost use Rattle.cal_moment.specs.Texts.{SpellsOffset, SpellsSecond, signed};
ghost use Rattle.cal_moment.specs.Stops.{Stops};

use crate::pieces::{bad, number, sign};
use crate::stamp::Bad;

/// Reads the end of an offset: nothing, or two digits of a second.
fn whole_second(text: &[u8]) -> Result<u32, &[u8]>
    ensures ok { IfOk result (λ second. (second ≤ 59) × SpellsSecond text.now second) }
    ensures err { IfErr result (λ left. Stops (IsIn SpellsSecond) text.now left.now) }
{
    if text.is_empty() {
        return Ok(0);
    }
    let (second, rest) = number(text, 2, 0, 59)?;
    if rest.is_empty() {
        Ok(second)
    } else {
        Err(rest)
    }
}

/// A number of seconds with its sign.
fn signed_seconds(negative: bool, seconds: u32) -> i32
    requires { seconds < 86400 }
    ensures value { result ≡ signed negative seconds }
    ensures range { IsBetween (neg_ℤ (pos 86399)) (pos 86399) result }
{
    if negative {
        -(seconds as i32)
    } else {
        seconds as i32
    }
}

/// The offset that the whole text spells, in seconds.
fn whole_offset(text: &[u8]) -> Result<i32, &[u8]>
    ensures ok { IfOk result (SpellsOffset text.now) }
    ensures range { IfOk result (IsBetween (neg_ℤ (pos 86399)) (pos 86399)) }
    ensures err { IfErr result (λ left. Stops (IsIn SpellsOffset) text.now left.now) }
{
    let Some((negative, rest)) = sign(text) else {
        return Err(text);
    };
    let (hour, rest) = number(rest, 2, 0, 23)?;
    let (minute, rest) = number(rest, 2, 0, 59)?;
    let second = whole_second(rest)?;
    Ok(signed_seconds(negative, 3600 * hour + 60 * minute + second))
}

/// Reads a UTC-OFFSET, in seconds: positive east of Greenwich, and below a day in size.
pub fn read_offset(text: &[u8]) -> Result<i32, Bad>
    ensures ok { IfOk result (SpellsOffset text.now) }
    ensures range { IfOk result (IsBetween (neg_ℤ (pos 86399)) (pos 86399)) }
    ensures only { (seconds : ℤ) → SpellsOffset text.now seconds → result ≡ Ok seconds }
    ensures err { IfErr result (λ fault. IsBadAt SpellsOffset text.now fault.place) }
{
    match whole_offset(text) {
        Ok(seconds) => Ok(seconds),
        Err(left) => Err(bad(text, left)),
    }
}
