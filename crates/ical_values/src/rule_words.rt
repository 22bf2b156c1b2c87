//! Words in the parts of rules (RFC 5545, 3.3.10).
ghost use Rattle.std.specs.Prelude.{◌≡◌, ◌≤◌, length, Some, None, IfOk, IfErr};
ghost use Rattle.cal_base.specs.Texts.Text.{raised_all};
ghost use Rattle.cal_moment.specs.BadPlace.{IsBadAt};
ghost use Rattle.cal_model.specs.Values.BadValues.{Reads};
ghost use Rattle.cal_model.specs.Values.RuleTexts.{weekday_named, weekdays};
ghost use Rattle.ical_values.specs.RuleWords.{common, most_common};

use cal_base::{is_word, raised};
use cal_moment::Bad;

/// How many octets a text and a word, whose letters are upper case, have in common from the front,
/// without ASCII case.
pub fn common(text: &[u8], word: &[u8]) -> u64
    ensures value { result ≡ common (raised_all text.now) word.now }
    ensures within { result ≤ length text.now }
{
    let [octet, rest @ ..] = text else {
        return 0;
    };
    let [letter, more @ ..] = word else {
        return 0;
    };
    if raised(*octet) == *letter {
        1 + common(rest, more)
    } else {
        0
    }
}

/// Reads a weekday: Monday is 0.
pub fn read_weekday(text: &[u8]) -> Result<u8, Bad>
    ensures ok { IfOk result (λ weekday. weekday_named text.now ≡ Some weekday) }
    ensures bad { IfErr result (λ fault. IsBadAt (Reads weekday_named) text.now fault.place) }
{
    match weekday_named(text) {
        Some(weekday) => Ok(weekday),
        None => Err(Bad {
            place: weekday_place(text),
        }),
    }
}

/// The weekday of a word.
fn weekday_named(text: &[u8]) -> Option<u8>
    ensures { result ≡ weekday_named text.now }
{
    if is_word(text, b"MO") {
        Some(0)
    } else if is_word(text, b"TU") {
        Some(1)
    } else if is_word(text, b"WE") {
        Some(2)
    } else if is_word(text, b"TH") {
        Some(3)
    } else if is_word(text, b"FR") {
        Some(4)
    } else if is_word(text, b"SA") {
        Some(5)
    } else if is_word(text, b"SU") {
        Some(6)
    } else {
        None
    }
}

/// The most that a text has in common with a weekday.
fn weekday_place(text: &[u8]) -> u64
    ensures { result ≡ most_common weekdays (raised_all text.now) }
{
    common(text, b"MO")
        .max(common(text, b"TU"))
        .max(common(text, b"WE"))
        .max(common(text, b"TH"))
        .max(common(text, b"FR"))
        .max(common(text, b"SA"))
        .max(common(text, b"SU"))
}
