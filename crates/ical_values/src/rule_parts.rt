//! The parts of rules that have a meaning, and what each says (RFC 5545, 3.3.10).
ghost use Rattle.std.specs.Prelude.{◌≡◌};
ghost use Rattle.std.specs.Option.{option_copied};
ghost use Rattle.cal_base.specs.Texts.Text.{raised_all};
ghost use Rattle.ical_values.specs.RuleParts.{name_of, named_in, part_named, put, put_counts, put_places};

use crate::rule_lists::{CountForm, PlaceForm};
use cal_base::{List, is_word};
use cal_model::{DayPart, Freq, Rule, Until};

/// A part that has a meaning.
#[derive(Clone, Copy)]
pub enum RulePart {
    Freq,
    Interval,
    Count,
    Until,
    WeekStart,
    Days,
    /// A list of numbers that are not negative.
    Counts(CountForm),
    /// A list of numbers that count from the front or from the end.
    Places(PlaceForm),
}

/// What a part says.
#[derive(Drop)]
pub enum PartValue {
    Freq(Freq),
    Interval(u32),
    Count(u32),
    Until(Until),
    WeekStart(u8),
    Days(List<DayPart>),
    Counts(CountForm, List<u8>),
    Places(PlaceForm, List<i16>),
}

/// All parts that have a meaning.
pub const PARTS: [RulePart; 14] = [
    RulePart::Freq,
    RulePart::Interval,
    RulePart::Count,
    RulePart::Until,
    RulePart::WeekStart,
    RulePart::Counts(CountForm::Month),
    RulePart::Places(PlaceForm::Week),
    RulePart::Places(PlaceForm::YearDay),
    RulePart::Places(PlaceForm::MonthDay),
    RulePart::Days,
    RulePart::Counts(CountForm::Hour),
    RulePart::Counts(CountForm::Minute),
    RulePart::Counts(CountForm::Second),
    RulePart::Places(PlaceForm::SetPos),
];

/// The name of a part, in upper case.
pub fn name_of(part: RulePart) -> &'static [u8]
    ensures { result.now ≡ name_of part }
{
    match part {
        RulePart::Freq => b"FREQ",
        RulePart::Interval => b"INTERVAL",
        RulePart::Count => b"COUNT",
        RulePart::Until => b"UNTIL",
        RulePart::WeekStart => b"WKST",
        RulePart::Days => b"BYDAY",
        RulePart::Counts(CountForm::Month) => b"BYMONTH",
        RulePart::Counts(CountForm::Hour) => b"BYHOUR",
        RulePart::Counts(CountForm::Minute) => b"BYMINUTE",
        RulePart::Counts(CountForm::Second) => b"BYSECOND",
        RulePart::Places(PlaceForm::Week) => b"BYWEEKNO",
        RulePart::Places(PlaceForm::YearDay) => b"BYYEARDAY",
        RulePart::Places(PlaceForm::MonthDay) => b"BYMONTHDAY",
        RulePart::Places(PlaceForm::SetPos) => b"BYSETPOS",
    }
}

/// The part of a name, without ASCII case.
pub fn part_named(name: &[u8]) -> Option<RulePart>
    ensures { result ≡ part_named (raised_all name.now) }
{
    named_in(&PARTS, name).copied()
}

/// The first of some parts that has a name.
fn named_in<'a>(parts: &'a [RulePart], name: &[u8]) -> Option<&'a RulePart>
    ensures { option_copied result ≡ named_in parts.now (raised_all name.now) }
{
    parts.iter().find(|part| is_word(name, name_of(**part)))
}

/// Puts what a part says into a rule.
pub fn put(rule: &mut Rule, value: PartValue)
    ensures { rule.new ≡ put value rule.old }
{
    match value {
        PartValue::Freq(freq) => rule.freq = freq,
        PartValue::Interval(number) => rule.interval = number,
        PartValue::Count(number) => rule.count = Some(number),
        PartValue::Until(until) => rule.until = Some(until),
        PartValue::WeekStart(weekday) => rule.week_start = weekday,
        PartValue::Days(days) => rule.by_day = days,
        PartValue::Counts(form, numbers) => put_counts(rule, form, numbers),
        PartValue::Places(form, numbers) => put_places(rule, form, numbers),
    }
}

/// Puts a list of numbers that are not negative into a rule.
fn put_counts(rule: &mut Rule, form: CountForm, numbers: List<u8>)
    ensures { rule.new ≡ put_counts form numbers rule.old }
{
    match form {
        CountForm::Month => rule.by_month = numbers,
        CountForm::Hour => rule.by_hour = numbers,
        CountForm::Minute => rule.by_minute = numbers,
        CountForm::Second => rule.by_second = numbers,
    }
}

/// Puts a list of numbers that count from the front or from the end into a rule.
fn put_places(rule: &mut Rule, form: PlaceForm, numbers: List<i16>)
    ensures { rule.new ≡ put_places form numbers rule.old }
{
    match form {
        PlaceForm::Week => rule.by_week = numbers,
        PlaceForm::YearDay => rule.by_year_day = numbers,
        PlaceForm::MonthDay => rule.by_month_day = numbers,
        PlaceForm::SetPos => rule.by_set_pos = numbers,
    }
}
