//! Days of BYDAY (RFC 5545, 3.3.10).
ghost use Rattle.std.specs.Prelude.{◌≡◌, ◌≤◌, ◌++◌, length, take, drop, Some, IfOk, IfErr};
ghost use Rattle.cal_moment.specs.BadPlace.{IsBadAt};
ghost use Rattle.cal_model.specs.Values.BadValues.{Reads};
ghost use Rattle.cal_model.specs.Values.RuleTexts.{day_of};
ghost use Rattle.ical_values.specs.DayForms.{EndsLow, Low, SpellsOrdinalDay};

use crate::rule_numbers::read_place;
use crate::rule_words::read_weekday;
use cal_model::DayPart;
use cal_moment::Bad;

/// The greatest ordinal.
const WEEKS: u32 = 53;

/// Reads a day: perhaps an ordinal, and a weekday.
pub fn read_day(text: &[u8]) -> Result<DayPart, Bad>
    ensures ok { IfOk result (λ day. day_of text.now ≡ Some day) }
    ensures bad { IfErr result (λ fault. IsBadAt (Reads day_of) text.now fault.place) }
{
    match read_weekday(text) {
        Ok(weekday) => Ok(DayPart {
            ordinal: 0,
            weekday,
        }),
        Err(word) => match read_ordinal_day(text) {
            Ok(day) => Ok(day),
            // What goes on longest decides.
            Err(day) => Err(Bad {
                place: word.place.max(day.place),
            }),
        },
    }
}

/// Reads an ordinal and a weekday.
fn read_ordinal_day(text: &[u8]) -> Result<DayPart, Bad>
    ensures ok { IfOk result (λ day. SpellsOrdinalDay text.now day) }
    ensures bad { IfErr result (λ fault. IsBadAt SpellsOrdinalDay text.now fault.place) }
{
    let width = ordinal_width(text);
    read_parts(text, &text[..width], &text[width..])
}

/// Reads the ordinal and the weekday that a text is cut into.
fn read_parts(text: &[u8], front: &[u8], behind: &[u8]) -> Result<DayPart, Bad>
    requires split { text.now ≡ front.now ++ behind.now }
    requires low { Low front.now }
    requires ends { EndsLow behind.now }
    ensures ok { IfOk result (λ day. SpellsOrdinalDay text.now day) }
    ensures bad { IfErr result (λ fault. IsBadAt SpellsOrdinalDay text.now fault.place) }
{
    match read_place(front, WEEKS) {
        Ok(ordinal) => match read_weekday(behind) {
            Ok(weekday) => Ok(DayPart { ordinal, weekday }),
            Err(fault) => Err(Bad {
                place: front.len() as u64 + fault.place,
            }),
        },
        Err(fault) => Err(fault),
    }
}

/// How many octets in front may be those of an ordinal.
fn ordinal_width(text: &[u8]) -> usize
    ensures within { result ≤ length text.now }
    ensures low { Low (take result text.now) }
    ensures ends { EndsLow (drop result text.now) }
{
    'octets: for (place, octet) in text.iter().enumerate() {
        if *octet > b'9' {
            return place;
        }
    }
    text.len()
}
