//! What may stand beside the parts of a rule that are read (RFC 5545, 3.3.10).
ghost use Rattle.std.specs.Prelude.{◌≡◌, ℕ, Some, IfOk, false, IfErr, IsErrOf};
ghost use Rattle.std.specs.List.{list_any};
ghost use Rattle.cal_moment.specs.BadPlace.{IsBadAt};
ghost use Rattle.cal_model.specs.Values.BadValues.{Reads};
ghost use Rattle.cal_model.specs.Values.RuleTexts.{has_ordinals, is_ordinal, list_of};
ghost use Rattle.ical_values.specs.RuleBeside.{day_by, has_month_days, has_weeks, has_year_days, refusing, takes, takes_ordinals, value_beside};
ghost use Rattle.ical_values.specs.RuleParts.{value_of};
ghost use Rattle.ical_values.specs.declared.rule_parts.RulePart.TheVariants.{Freq as FreqPart, Days as DaysPart};

use crate::fault::ValueFault;
use crate::list::{Items, read_list};
use crate::rule_days::read_day;
use crate::rule_freq::{Refusing, read_freq};
use crate::rule_lists::{CountForm, PlaceForm, read_counts, read_places};
use crate::rule_numbers::read_number;
use crate::rule_parts::{PartValue, RulePart};
use crate::rule_until::read_until;
use crate::rule_words::read_weekday;
use cal_base::List;
use cal_model::{DayPart, Freq, Rule};
use cal_moment::Bad;
use std::alloc::Global;

/// The greatest INTERVAL and COUNT.
const MOST: u32 = 999_999_999;

/// Whether a part that has not come yet may stand beside those of a rule, whose frequency is YEARLY
/// as long as it is not known.
pub fn takes(rule: &Rule, part: RulePart) -> bool
    ensures { result ≡ takes rule.now part }
{
    match part {
        RulePart::Count => rule.until.is_none(),
        RulePart::Until => rule.count.is_none(),
        RulePart::Places(PlaceForm::Week) => has_weeks(rule.freq) && !has_ordinal(rule),
        RulePart::Places(PlaceForm::YearDay) => has_year_days(rule.freq),
        RulePart::Places(PlaceForm::MonthDay) => has_month_days(rule.freq),
        _ => true,
    }
}

/// Whether a frequency may have BYWEEKNO.
fn has_weeks(freq: Freq) -> bool
    ensures { result ≡ has_weeks freq }
{
    matches!(freq, Freq::Yearly)
}

/// Whether a frequency may have BYYEARDAY.
fn has_year_days(freq: Freq) -> bool
    ensures { result ≡ has_year_days freq }
{
    !matches!(freq, Freq::Daily | Freq::Weekly | Freq::Monthly)
}

/// Whether a frequency may have BYMONTHDAY.
fn has_month_days(freq: Freq) -> bool
    ensures { result ≡ has_month_days freq }
{
    !matches!(freq, Freq::Weekly)
}

/// Whether the weekdays of a frequency may have ordinals.
fn has_ordinals(freq: Freq) -> bool
    ensures { result ≡ has_ordinals freq }
{
    matches!(freq, Freq::Monthly | Freq::Yearly)
}

/// Whether a day of BYDAY has an ordinal.
fn has_ordinal(rule: &Rule) -> bool
    ensures { result ≡ list_any is_ordinal rule.now.by_day }
{
    any_ordinal(rule.by_day.as_slice())
}

/// Whether one of some days has an ordinal.
fn any_ordinal(days: &[DayPart]) -> bool
    ensures { result ≡ list_any is_ordinal days.now }
{
    days.iter().any(|day| is_ordinal(*day))
}

/// Whether a day has an ordinal.
fn is_ordinal(day: DayPart) -> bool
    ensures { result ≡ is_ordinal day }
{
    day.ordinal != 0
}

/// The parts of a rule that refuse frequencies.
fn refusing(rule: &Rule) -> Refusing
    ensures { result ≡ refusing rule.now }
{
    Refusing {
        weeks: !rule.by_week.is_empty(),
        year_days: !rule.by_year_day.is_empty(),
        month_days: !rule.by_month_day.is_empty(),
        ordinals: has_ordinal(rule),
    }
}

/// Whether a day of BYDAY may have an ordinal beside the parts of a rule.
fn takes_ordinals(rule: &Rule) -> bool
    ensures { result ≡ takes_ordinals rule.now }
{
    has_ordinals(rule.freq) && rule.by_week.is_empty()
}

/// Reads what a part says, where that may stand beside the parts of a rule.
pub fn read_value(
    alloc: Global,
    rule: &Rule,
    part: RulePart,
    text: &[u8],
) -> Result<PartValue, ValueFault>
    ensures ok { IfOk result (λ value. value_beside rule.now part text.now ≡ Some value) }
    ensures bad { (place : ℕ) → IsErrOf result (ValueFault.Bad place) → IsBadAt (Reads (value_beside rule.now part)) text.now place }
{
    match part {
        RulePart::Freq => read_freq_value(text, rule),
        RulePart::Interval => read_interval(text),
        RulePart::Count => read_count(text),
        RulePart::Until => read_until_value(text),
        RulePart::WeekStart => read_week_start(text),
        RulePart::Days => read_days_value(alloc, text, rule),
        RulePart::Counts(form) => read_counts_value(alloc, text, form),
        RulePart::Places(form) => read_places_value(alloc, text, form),
    }
}

/// Reads FREQ.
fn read_freq_value(text: &[u8], rule: &Rule) -> Result<PartValue, ValueFault>
    ensures ok { IfOk result (λ value. value_beside rule.now FreqPart text.now ≡ Some value) }
    ensures bad { (place : ℕ) → IsErrOf result (ValueFault.Bad place) → IsBadAt (Reads (value_beside rule.now FreqPart)) text.now place }
{
    match read_freq(text, refusing(rule)) {
        Ok(freq) => Ok(PartValue::Freq(freq)),
        Err(fault) => Err(ValueFault::Bad { place: fault.place }),
    }
}

/// Reads INTERVAL.
fn read_interval(text: &[u8]) -> Result<PartValue, ValueFault>
    ensures ok { IfOk result (λ value. value_of RulePart.Interval text.now ≡ Some value) }
    ensures bad { (place : ℕ) → IsErrOf result (ValueFault.Bad place) → IsBadAt (Reads (value_of RulePart.Interval)) text.now place }
{
    match read_number(text, 1, MOST) {
        Ok(number) => Ok(PartValue::Interval(number)),
        Err(fault) => Err(ValueFault::Bad { place: fault.place }),
    }
}

/// Reads COUNT.
fn read_count(text: &[u8]) -> Result<PartValue, ValueFault>
    ensures ok { IfOk result (λ value. value_of RulePart.Count text.now ≡ Some value) }
    ensures bad { (place : ℕ) → IsErrOf result (ValueFault.Bad place) → IsBadAt (Reads (value_of RulePart.Count)) text.now place }
{
    match read_number(text, 1, MOST) {
        Ok(number) => Ok(PartValue::Count(number)),
        Err(fault) => Err(ValueFault::Bad { place: fault.place }),
    }
}

/// Reads UNTIL.
fn read_until_value(text: &[u8]) -> Result<PartValue, ValueFault>
    ensures ok { IfOk result (λ value. value_of RulePart.Until text.now ≡ Some value) }
    ensures bad { (place : ℕ) → IsErrOf result (ValueFault.Bad place) → IsBadAt (Reads (value_of RulePart.Until)) text.now place }
{
    match read_until(text) {
        Ok(until) => Ok(PartValue::Until(until)),
        Err(fault) => Err(ValueFault::Bad { place: fault.place }),
    }
}

/// Reads WKST.
fn read_week_start(text: &[u8]) -> Result<PartValue, ValueFault>
    ensures ok { IfOk result (λ value. value_of RulePart.WeekStart text.now ≡ Some value) }
    ensures bad { (place : ℕ) → IsErrOf result (ValueFault.Bad place) → IsBadAt (Reads (value_of RulePart.WeekStart)) text.now place }
{
    match read_weekday(text) {
        Ok(weekday) => Ok(PartValue::WeekStart(weekday)),
        Err(fault) => Err(ValueFault::Bad { place: fault.place }),
    }
}

/// Reads BYDAY.
fn read_days_value(alloc: Global, text: &[u8], rule: &Rule) -> Result<PartValue, ValueFault>
    ensures ok { IfOk result (λ value. value_beside rule.now DaysPart text.now ≡ Some value) }
    ensures bad { (place : ℕ) → IsErrOf result (ValueFault.Bad place) → IsBadAt (Reads (value_beside rule.now DaysPart)) text.now place }
{
    let form = DayForm {
        ordinals: takes_ordinals(rule),
    };
    match read_days(alloc, text, form) {
        Ok(days) => Ok(PartValue::Days(days)),
        Err(fault) => Err(fault),
    }
}

/// Reads a list of numbers that are not negative.
fn read_counts_value(alloc: Global, text: &[u8], form: CountForm) -> Result<PartValue, ValueFault>
    ensures ok { IfOk result (λ value. value_of (RulePart.Counts form) text.now ≡ Some value) }
    ensures bad { (place : ℕ) → IsErrOf result (ValueFault.Bad place) → IsBadAt (Reads (value_of (RulePart.Counts form))) text.now place }
{
    match read_counts(alloc, text, form) {
        Ok(numbers) => Ok(PartValue::Counts(form, numbers)),
        Err(fault) => Err(fault),
    }
}

/// Reads a list of numbers that count from the front or from the end.
fn read_places_value(alloc: Global, text: &[u8], form: PlaceForm) -> Result<PartValue, ValueFault>
    ensures ok { IfOk result (λ value. value_of (RulePart.Places form) text.now ≡ Some value) }
    ensures bad { (place : ℕ) → IsErrOf result (ValueFault.Bad place) → IsBadAt (Reads (value_of (RulePart.Places form))) text.now place }
{
    match read_places(alloc, text, form) {
        Ok(numbers) => Ok(PartValue::Places(form, numbers)),
        Err(fault) => Err(fault),
    }
}

/// Days that may have ordinals or not.
#[derive(Clone, Copy)]
struct DayForm {
    ordinals: bool,
}

impl Items for DayForm {
    type Value = DayPart;

    ghost use Rattle.ical_values.specs.RuleBeside.{day_by};

    ghost reads = { λ form. day_by form.ordinals };

    fn read(&self, text: &[u8]) -> Result<DayPart, Bad> {
        if self.ordinals {
            read_day(text)
        } else {
            read_each_weekday(text)
        }
    }
}

/// Reads a weekday without an ordinal.
fn read_each_weekday(text: &[u8]) -> Result<DayPart, Bad>
    ensures ok { IfOk result (λ day. day_by false text.now ≡ Some day) }
    ensures bad { IfErr result (λ fault. IsBadAt (Reads (day_by false)) text.now fault.place) }
{
    match read_weekday(text) {
        Ok(weekday) => Ok(DayPart {
            ordinal: 0,
            weekday,
        }),
        Err(fault) => Err(fault),
    }
}

/// Reads a list of days.
fn read_days(alloc: Global, text: &[u8], form: DayForm) -> Result<List<DayPart>, ValueFault>
    ensures ok { IfOk result (λ days. list_of (day_by form.ordinals) text.now ≡ Some days) }
    ensures bad { (place : ℕ) → IsErrOf result (ValueFault.Bad place) → IsBadAt (Reads (list_of (day_by form.ordinals))) text.now place }
{
    read_list(alloc, text, &form)
}
