//! Values that are no list: moments, lengths, offsets, triggers and words.
ghost use Rattle.std.specs.Prelude.{◌≡◌, pos, neg_ℤ, ◌+ℤ◌, ◌*ℤ◌, IfOk, IfErr};
ghost use Rattle.cal_moment.specs.BadPlace.{IsBadAt};
ghost use Rattle.cal_moment.specs.Calendar.{IsBetween, IsCalendarDay};
ghost use Rattle.cal_model.specs.Values.BadValues.{Reads};
ghost use Rattle.cal_model.specs.Values.ValueTexts.{length_of, moment_of, offset_of, utc_of_local};
ghost use Rattle.cal_model.specs.Values.StampTexts.{related_of, trigger_of};
ghost use Rattle.cal_model.specs.Objects.ComponentReading.{busy_words, class_of};
ghost use Rattle.cal_model.specs.Values.RuleTexts.{word_of};
ghost use Rattle.ical_values.specs.LineTexts.{trigger_by_value};

use crate::params::{param_is, param_value};
use cal_base::{Line, is_word};
use cal_model::{Class, Related, Trigger};
use cal_moment::{Bad, Length, Local, Utc, read_date_time, read_length, read_offset};

/// The seconds of a day.
const DAY_SECONDS: i64 = 86_400;

/// Reads a DATE-TIME that is read as UTC, with or without its Z (RFC 5545, 3.3.5): the values of
/// COMPLETED, CREATED, DTSTAMP and LAST-MODIFIED.
pub fn read_moment(text: &[u8]) -> Result<Utc, Bad>
    ensures ok { IfOk result (λ moment. moment_of text.now ≡ Some moment) }
    ensures outside { IfErr result (λ _. moment_of text.now ≡ None) }
    ensures bad { IfErr result (λ fault. IsBadAt (Reads moment_of) text.now fault.place) }
{
    match read_date_time(text) {
        Ok((local, _)) => Ok(moment_of_local(local)),
        Err(fault) => Err(fault),
    }
}

/// The moment of a local time of UTC.
pub fn moment_of_local(local: Local) -> Utc
    requires { IsCalendarDay local.day }
    ensures { result ≡ utc_of_local local }
{
    Utc(i64::from(local.day) * DAY_SECONDS + i64::from(local.second))
}

/// Reads a DURATION (RFC 5545, 3.3.6).
pub fn read_duration(text: &[u8]) -> Result<Length, Bad>
    ensures ok { IfOk result (λ length. length_of text.now ≡ Some length) }
    ensures days { IfOk result (λ length. IsBetween (neg_ℤ (pos 6_999_999_993)) (pos 6_999_999_993) length.days) }
    ensures seconds { IfOk result (λ length. IsBetween (neg_ℤ (pos 10_800_000_000_000)) (pos 10_800_000_000_000) length.seconds) }
    ensures outside { IfErr result (λ _. length_of text.now ≡ None) }
    ensures bad { IfErr result (λ fault. IsBadAt (Reads length_of) text.now fault.place) }
{
    match read_length(text) {
        Ok(length) => Ok(length),
        Err(fault) => Err(fault),
    }
}

/// Reads a UTC-OFFSET, in seconds (RFC 5545, 3.3.14): the values of TZOFFSETFROM and TZOFFSETTO.
pub fn read_utc_offset(text: &[u8]) -> Result<i32, Bad>
    ensures ok { IfOk result (λ seconds. offset_of text.now ≡ Some seconds) }
    ensures range { IfOk result (IsBetween (neg_ℤ (pos 86399)) (pos 86399)) }
    ensures outside { IfErr result (λ _. offset_of text.now ≡ None) }
    ensures bad { IfErr result (λ fault. IsBadAt (Reads offset_of) text.now fault.place) }
{
    match read_offset(text) {
        Ok(seconds) => Ok(seconds),
        Err(fault) => Err(fault),
    }
}

/// Reads the value of a TRIGGER: a moment where VALUE is DATE-TIME, else a length from the start or,
/// where RELATED is END, from the end (RFC 5545, 3.8.6.3).
pub fn read_trigger(line: &Line) -> Result<Trigger, Bad>
    ensures ok { IfOk result (λ trigger. trigger_of line.now ≡ Some trigger) }
    ensures outside { IfErr result (λ _. trigger_of line.now ≡ None) }
    ensures bad { IfErr result (λ fault. IsBadAt (Reads (trigger_by_value line.now)) line.now.value fault.place) }
{
    let text = line.value.as_slice();
    if param_is(line, b"VALUE", b"DATE-TIME") {
        return match read_moment(text) {
            Ok(moment) => Ok(Trigger::At(moment)),
            Err(fault) => Err(fault),
        };
    }
    match read_duration(text) {
        Ok(length) => Ok(Trigger::From(related(line), length)),
        Err(fault) => Err(fault),
    }
}

/// The end of a component that a trigger counts from.
fn related(line: &Line) -> Related
    ensures { result ≡ related_of line.now }
{
    if param_is(line, b"RELATED", b"END") {
        Related::End
    } else {
        Related::Start
    }
}

/// How busy the periods of a FREEBUSY make: none where FBTYPE is FREE, and BUSY where it is absent
/// or another word than the standard's (RFC 5545, 3.2.9).
pub fn read_busy_type(line: &Line) -> Option<Class>
    ensures { result ≡ class_of line.now }
{
    match param_value(line, b"FBTYPE") {
        Some(word) => busy_type(word).unwrap_or(Some(Class::Busy)),
        None => Some(Class::Busy),
    }
}

/// The class that a word of FBTYPE says: none where the periods are free.
fn busy_type(word: &[u8]) -> Option<Option<Class>>
    ensures { result ≡ word_of busy_words word.now }
{
    if is_word(word, b"FREE") {
        Some(None)
    } else if is_word(word, b"BUSY") {
        Some(Some(Class::Busy))
    } else if is_word(word, b"BUSY-UNAVAILABLE") {
        Some(Some(Class::Unavailable))
    } else if is_word(word, b"BUSY-TENTATIVE") {
        Some(Some(Class::Tentative))
    } else {
        None
    }
}
