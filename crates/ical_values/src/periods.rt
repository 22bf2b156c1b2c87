//! Periods (RFC 5545, 3.3.9).
ghost use Rattle.std.specs.Prelude.{◌≡◌, ℕ, List, length, option_map, IfOk, IfErr, IsErrOf};
ghost use Rattle.std.specs.List.{list_all};
ghost use Rattle.cal_moment.specs.BadPlace.{IsBadAt};
ghost use Rattle.cal_model.specs.Values.BadValues.{Reads, IsBadPeriodsAt, periods_by_value};
ghost use Rattle.cal_model.specs.Values.ValueTexts.{cut, is_negative};
ghost use Rattle.cal_model.specs.Values.StampTexts.{is_period_known, length_ahead, written_period_end, period_of, periods_in_grammar, periods_of};
ghost use Rattle.ical_values.specs.Forms.{alone, end_has_zone_below, period_by, period_has_zones_below, time_by};

use crate::cuts::cut;
use crate::fault::ValueFault;
use crate::list::{Items, read_list};
use crate::single::read_duration;
use crate::stamps::{TimeForm, has_zone_below, is_list, is_utc, line_zone, read_time};
use crate::zones::ZoneNames;
use cal_base::{Line, List};
use cal_moment::{Bad, Period, PeriodEnd};
use std::alloc::Global;

/// How the periods of a line are read.
#[derive(Clone, Copy)]
struct PeriodForm(TimeForm);

impl Items for PeriodForm {
    type Value = Period;

    ghost reads = { λ form. period_by form.0 };

    fn read(&self, text: &[u8]) -> Result<Period, Bad> {
        read_period(text, self.0)
    }
}

/// Reads a period: a DATE-TIME, a slash, and a DATE-TIME or a length without a minus.
fn read_period(text: &[u8], form: TimeForm) -> Result<Period, Bad>
    ensures ok { IfOk result (λ period. period_by form text.now ≡ Some period) }
    ensures bad { IfErr result (λ fault. IsBadAt (Reads (period_by form)) text.now fault.place) }
{
    match cut(text, b'/') {
        Some((start, end)) => read_ends(text, start, end, form),
        None => Err(without_end(text, form)),
    }
}

/// The fault of a period that has no slash.
fn without_end(text: &[u8], form: TimeForm) -> Bad
    requires { cut 47 text.now ≡ None }
    ensures { IsBadAt (Reads (period_by form)) text.now result.place }
{
    match read_time(text, form) {
        Ok(_) => Bad {
            place: text.len() as u64,
        },
        Err(fault) => fault,
    }
}

/// Reads a period whose ends are cut at its slash.
fn read_ends(text: &[u8], start: &[u8], end: &[u8], form: TimeForm) -> Result<Period, Bad>
    requires { cut 47 text.now ≡ Some (start.now, end.now) }
    ensures ok { IfOk result (λ period. period_by form text.now ≡ Some period) }
    ensures bad { IfErr result (λ fault. IsBadAt (Reads (period_by form)) text.now fault.place) }
{
    match read_time(start, form) {
        Ok(first) => match read_end(end, form) {
            Ok(last) => Ok(Period {
                start: first,
                end: last,
            }),
            Err(fault) => Err(Bad {
                place: (start.len() + 1) as u64 + fault.place,
            }),
        },
        Err(fault) => Err(fault),
    }
}

/// Reads the end of a period.
fn read_end(text: &[u8], form: TimeForm) -> Result<PeriodEnd, Bad>
    ensures ok { IfOk result (λ end. written_period_end (time_by form) text.now ≡ Some end) }
    ensures bad { IfErr result (λ fault. IsBadAt (Reads (written_period_end (time_by form))) text.now fault.place) }
{
    match read_time(text, form) {
        Ok(stamp) => Ok(PeriodEnd::At(stamp)),
        Err(time) => match read_length_ahead(text) {
            Ok(end) => Ok(end),
            // What goes on longest decides.
            Err(length) => Err(Bad {
                place: time.place.max(length.place),
            }),
        },
    }
}

/// Reads a length without a minus, as the end of a period.
fn read_length_ahead(text: &[u8]) -> Result<PeriodEnd, Bad>
    ensures ok { IfOk result (λ end. length_ahead text.now ≡ Some end) }
    ensures bad { IfErr result (λ fault. IsBadAt (Reads length_ahead) text.now fault.place) }
{
    if is_negative(text) {
        return Err(Bad { place: 0 });
    }
    match read_duration(text) {
        Ok(length) => Ok(PeriodEnd::After(length)),
        Err(fault) => Err(fault),
    }
}

/// Whether a text begins with a minus.
fn is_negative(text: &[u8]) -> bool
    ensures { result ≡ is_negative text.now }
{
    match text {
        [b'-', ..] => true,
        _ => false,
    }
}

/// How the periods of a line are read, by its name and its parameters.
fn period_form(line: &Line, zones: &ZoneNames) -> TimeForm
    ensures { (text : List ℕ) → period_by result text ≡ period_of zones.now line.now text }
{
    if is_utc(&line.name) {
        TimeForm::Utc
    } else {
        TimeForm::Local(line_zone(line, zones))
    }
}

/// Reads the periods of a line's value, an RDATE or a FREEBUSY. A zone that is none of the object's
/// is no fault here: a stamp then has the number behind the last.
pub fn read_periods_of_any_zone(
    alloc: Global,
    line: &Line,
    zones: &ZoneNames,
) -> Result<List<Period>, ValueFault>
    ensures ok { IfOk result (λ periods. periods_in_grammar zones.now line.now ≡ Some periods) }
    ensures outside { (place : ℕ) → IsErrOf result (ValueFault.Bad place) → periods_in_grammar zones.now line.now ≡ None }
    ensures bad { (place : ℕ) → IsErrOf result (ValueFault.Bad place) → IsBadAt (Reads (periods_by_value zones.now line.now)) line.now.value place }
{
    let form = period_form(line, zones);
    if is_list(&line.name) {
        read_list(alloc, line.value.as_slice(), &PeriodForm(form))
    } else {
        read_alone(alloc, line.value.as_slice(), form)
    }
}

/// Reads one period, as a list.
fn read_alone(alloc: Global, text: &[u8], form: TimeForm) -> Result<List<Period>, ValueFault>
    ensures ok { IfOk result (λ periods. option_map alone (period_by form text.now) ≡ Some periods) }
    ensures bad { (place : ℕ) → IsErrOf result (ValueFault.Bad place) → IsBadAt (Reads (period_by form)) text.now place }
{
    let period = read_period(text, form)?;
    let mut periods = List::new(alloc);
    periods.push(period)?;
    Ok(periods)
}

/// Reads the periods of a line's value, each stamp of them in UTC, in no zone or in one of the
/// object's.
pub fn read_periods(
    alloc: Global,
    line: &Line,
    zones: &ZoneNames,
) -> Result<List<Period>, ValueFault>
    ensures ok { IfOk result (λ periods. periods_of zones.now line.now ≡ Some periods) }
    ensures outside { (place : ℕ) → IsErrOf result (ValueFault.Bad place) → periods_of zones.now line.now ≡ None }
    ensures bad { (place : ℕ) → IsErrOf result (ValueFault.Bad place) → IsBadPeriodsAt zones.now line.now place }
{
    let periods = match read_periods_of_any_zone(alloc, line, zones) {
        Ok(periods) => periods,
        Err(fault) => return Err(fault),
    };
    if are_known(periods.as_slice(), zones.len()) {
        Ok(periods)
    } else {
        Err(ValueFault::Bad { place: 0 })
    }
}

/// Whether each zone of some periods is one of so many.
fn are_known(periods: &[Period], zones: u32) -> bool
    ensures { (names : List (List ℕ)) → length names ≡ zones → result ≡ list_all (is_period_known names) periods.now }
{
    have_zones_below(periods, zones)
}

/// Whether the number of each zone of some periods is below a count.
fn have_zones_below(periods: &[Period], zones: u32) -> bool
    ensures { result ≡ list_all (period_has_zones_below zones) periods.now }
{
    periods
        .iter()
        .all(|period| period_has_zones_below(*period, zones))
}

/// Whether the number of each zone of a period is below a count.
fn period_has_zones_below(period: Period, zones: u32) -> bool
    ensures { result ≡ period_has_zones_below zones period }
{
    has_zone_below(period.start, zones) && end_has_zone_below(period.end, zones)
}

/// Whether the number of the zone of a period's end, if it has one, is below a count.
fn end_has_zone_below(end: PeriodEnd, zones: u32) -> bool
    ensures { result ≡ end_has_zone_below zones end }
{
    match end {
        PeriodEnd::At(stamp) => has_zone_below(stamp, zones),
        PeriodEnd::After(_) => true,
    }
}
