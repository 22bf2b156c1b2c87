//! Lists of numbers in the parts of rules (RFC 5545, 3.3.10).
ghost use Rattle.std.specs.Prelude.{◌≡◌, ◌≤◌, ℕ, Some, IfOk, IfErr, IsErrOf};
ghost use Rattle.cal_moment.specs.BadPlace.{IsBadAt};
ghost use Rattle.cal_model.specs.Values.BadValues.{Reads};
ghost use Rattle.cal_model.specs.Values.RuleTexts.{list_of, number_of, second_number};
ghost use Rattle.ical_values.specs.RuleForms.{count_by, most_of, place_by};

use crate::fault::ValueFault;
use crate::list::{Items, read_list};
use crate::rule_numbers::{read_number, read_place};
use cal_base::List;
use cal_moment::Bad;
use std::alloc::Global;

/// The parts whose numbers are not negative.
#[derive(Clone, Copy)]
pub enum CountForm {
    Month,
    Hour,
    Minute,
    Second,
}

/// The parts whose numbers count from the front, or from the end where they are negative.
#[derive(Clone, Copy)]
pub enum PlaceForm {
    Week,
    YearDay,
    MonthDay,
    /// Places among the moments of a period.
    SetPos,
}

impl Items for CountForm {
    type Value = u8;

    ghost reads = { count_by };

    fn read(&self, text: &[u8]) -> Result<u8, Bad> {
        match *self {
            CountForm::Month => read_small(text, 1, 12),
            CountForm::Hour => read_small(text, 0, 23),
            CountForm::Minute => read_small(text, 0, 59),
            CountForm::Second => read_second(text),
        }
    }
}

/// Reads a number of at most 60.
fn read_small(text: &[u8], low: u32, high: u32) -> Result<u8, Bad>
    requires least { low ≤ 1 }
    requires some { 1 ≤ high }
    requires most { high ≤ 60 }
    ensures ok { IfOk result (λ number. number_of low high text.now ≡ Some number) }
    ensures bad { IfErr result (λ fault. IsBadAt (Reads (number_of low high)) text.now fault.place) }
{
    match read_number(text, low, high) {
        Ok(number) => Ok(number as u8),
        Err(fault) => Err(fault),
    }
}

/// Reads a second; a leap second is the second before it.
fn read_second(text: &[u8]) -> Result<u8, Bad>
    ensures ok { IfOk result (λ second. second_number text.now ≡ Some second) }
    ensures bad { IfErr result (λ fault. IsBadAt (Reads second_number) text.now fault.place) }
{
    match read_small(text, 0, 60) {
        Ok(second) => Ok(second.min(59)),
        Err(fault) => Err(fault),
    }
}

impl Items for PlaceForm {
    type Value = i16;

    ghost reads = { place_by };

    fn read(&self, text: &[u8]) -> Result<i16, Bad> {
        read_place(text, most_of(*self))
    }
}

/// The greatest number of a part.
fn most_of(form: PlaceForm) -> u32
    ensures value { result ≡ most_of form }
    ensures some { 1 ≤ result }
    ensures most { result ≤ 366 }
{
    match form {
        PlaceForm::Week => 53,
        PlaceForm::YearDay | PlaceForm::SetPos => 366,
        PlaceForm::MonthDay => 31,
    }
}

/// Reads a list of numbers that are not negative.
pub fn read_counts(alloc: Global, text: &[u8], form: CountForm) -> Result<List<u8>, ValueFault>
    ensures ok { IfOk result (λ numbers. list_of (count_by form) text.now ≡ Some numbers) }
    ensures bad { (place : ℕ) → IsErrOf result (ValueFault.Bad place) → IsBadAt (Reads (list_of (count_by form))) text.now place }
{
    read_list(alloc, text, &form)
}

/// Reads a list of numbers that count from the front or from the end.
pub fn read_places(alloc: Global, text: &[u8], form: PlaceForm) -> Result<List<i16>, ValueFault>
    ensures ok { IfOk result (λ numbers. list_of (place_by form) text.now ≡ Some numbers) }
    ensures bad { (place : ℕ) → IsErrOf result (ValueFault.Bad place) → IsBadAt (Reads (list_of (place_by form))) text.now place }
{
    read_list(alloc, text, &form)
}
