//! Stamps: dates, and times of UTC, of a zone or of none (RFC 5545, 3.3.4, 3.3.5 and 3.8).
ghost use Rattle.std.specs.Prelude.{◌≡◌, ℕ, List, length, bytes_eq, option_map, IfOk, IfErr, IsErrOf};
ghost use Rattle.std.specs.List.{list_all, list_any};
ghost use Rattle.cal_moment.specs.Calendar.{IsCalendarDay};
ghost use Rattle.cal_moment.specs.BadPlace.{IsBadAt};
ghost use Rattle.cal_model.specs.Values.BadValues.{Reads, IsBadStampsAt, stamps_by_value};
ghost use Rattle.cal_model.specs.Values.StampTexts.{is_known, list_names, stamp_of, stamps_in_grammar, stamps_of, utc_names, line_zone};
ghost use Rattle.ical_values.specs.Forms.{alone, has_zone_below, stamp_by, stamp_by_value, stamp_in, time_by};

use crate::fault::ValueFault;
use crate::list::{Items, read_list};
use crate::params::{param_is, param_value};
use crate::single::moment_of_local;
use crate::zones::ZoneNames;
use cal_base::{Line, List, Name};
use cal_moment::{Bad, Local, Stamp, read_date, read_date_time};
use std::alloc::Global;

/// How the DATE-TIMEs of a line are read.
#[derive(Clone, Copy)]
pub enum TimeForm {
    /// As UTC, with or without the Z.
    Utc,
    /// By its Z, else in the zone of this number, if there is one.
    Local(Option<u32>),
}

/// How the stamps of a line are read.
#[derive(Clone, Copy)]
pub enum StampForm {
    /// As DATE-TIMEs.
    Time(TimeForm),
    /// As DATEs.
    Date,
    /// As DATEs where they have eight octets, else as DATE-TIMEs.
    DateOrTime(Option<u32>),
}

/// Reads a DATE-TIME.
pub fn read_time(text: &[u8], form: TimeForm) -> Result<Stamp, Bad>
    ensures ok { IfOk result (λ stamp. time_by form text.now ≡ Some stamp) }
    ensures bad { IfErr result (λ fault. IsBadAt (Reads (time_by form)) text.now fault.place) }
{
    match read_date_time(text) {
        Ok((local, utc)) => Ok(stamp_in(form, local, utc)),
        Err(fault) => Err(fault),
    }
}

/// The stamp of a DATE-TIME: of UTC where that is meant or it says so, else of a zone, else of none.
fn stamp_in(form: TimeForm, local: Local, utc: bool) -> Stamp
    requires { IsCalendarDay local.day }
    ensures { result ≡ stamp_in form (local, utc) }
{
    match form {
        TimeForm::Local(Some(number)) if !utc => Stamp::Zoned(local, number),
        TimeForm::Local(None) if !utc => Stamp::Floating(local),
        _ => Stamp::Utc(moment_of_local(local)),
    }
}

/// Reads a DATE.
fn read_day(text: &[u8]) -> Result<Stamp, Bad>
    ensures ok { IfOk result (λ stamp. stamp_by StampForm.Date text.now ≡ Some stamp) }
    ensures bad { IfErr result (λ fault. IsBadAt (Reads (stamp_by StampForm.Date)) text.now fault.place) }
{
    match read_date(text) {
        Ok(day) => Ok(Stamp::Date(day)),
        Err(fault) => Err(fault),
    }
}

/// Reads a DATE where the text has eight octets, else a DATE-TIME.
fn read_day_or_time(text: &[u8], zone: Option<u32>) -> Result<Stamp, Bad>
    ensures ok { IfOk result (λ stamp. stamp_by (StampForm.DateOrTime zone) text.now ≡ Some stamp) }
    ensures bad { IfErr result (λ fault. IsBadAt (Reads (stamp_by (StampForm.DateOrTime zone))) text.now fault.place) }
{
    match read_time(text, TimeForm::Local(zone)) {
        Ok(stamp) => Ok(stamp),
        // Eight octets that are no DATE are bad where they are as a DATE-TIME.
        Err(fault) if text.len() == 8 => day_or(text, zone, fault),
        Err(fault) => Err(fault),
    }
}

/// Reads a DATE of eight octets that are no DATE-TIME, with the fault that they have as one.
fn day_or(text: &[u8], zone: Option<u32>, fault: Bad) -> Result<Stamp, Bad>
    requires eight { length text.now ≡ 8 }
    requires fault { IsBadAt (Reads (time_by (TimeForm.Local zone))) text.now fault.place }
    ensures ok { IfOk result (λ stamp. stamp_by (StampForm.DateOrTime zone) text.now ≡ Some stamp) }
    ensures bad { IfErr result (λ fault. IsBadAt (Reads (stamp_by (StampForm.DateOrTime zone))) text.now fault.place) }
{
    match read_day(text) {
        Ok(stamp) => Ok(stamp),
        Err(_) => Err(fault),
    }
}

/// Reads one stamp.
pub fn read_form(text: &[u8], form: StampForm) -> Result<Stamp, Bad>
    ensures ok { IfOk result (λ stamp. stamp_by form text.now ≡ Some stamp) }
    ensures bad { IfErr result (λ fault. IsBadAt (Reads (stamp_by form)) text.now fault.place) }
{
    match form {
        StampForm::Time(form) => read_time(text, form),
        StampForm::Date => read_day(text),
        StampForm::DateOrTime(zone) => read_day_or_time(text, zone),
    }
}

/// How the stamps of a line are read, by its name and its parameters.
pub fn stamp_form(line: &Line, zones: &ZoneNames) -> StampForm
    ensures { (text : List ℕ) → stamp_by result text ≡ stamp_of zones.now line.now text }
{
    if is_utc(&line.name) {
        StampForm::Time(TimeForm::Utc)
    } else if param_is(line, b"VALUE", b"DATE") {
        StampForm::Date
    } else {
        StampForm::DateOrTime(line_zone(line, zones))
    }
}

/// The number of the zone that a line names.
pub fn line_zone(line: &Line, zones: &ZoneNames) -> Option<u32>
    ensures { result ≡ line_zone zones.now line.now }
{
    match param_value(line, b"TZID") {
        Some(name) => Some(zones.number(name)),
        None => None,
    }
}

/// Whether the moments of a line of this name are read as UTC.
pub fn is_utc(name: &Name) -> bool
    ensures { result ≡ list_any (bytes_eq name.now) utc_names }
{
    is_named(name, b"COMPLETED")
        || is_named(name, b"CREATED")
        || is_named(name, b"DTSTAMP")
        || is_named(name, b"LAST-MODIFIED")
        || is_named(name, b"FREEBUSY")
        || is_named(name, b"TRIGGER")
}

/// Whether the value of a line of this name is a list.
pub fn is_list(name: &Name) -> bool
    ensures { result ≡ list_any (bytes_eq name.now) list_names }
{
    is_named(name, b"EXDATE") || is_named(name, b"RDATE") || is_named(name, b"FREEBUSY")
}

/// Whether a name is this one.
fn is_named(name: &Name, other: &[u8]) -> bool
    ensures { result ≡ bytes_eq name.now other.now }
{
    name.as_slice() == other
}

impl Items for StampForm {
    type Value = Stamp;

    ghost reads = { stamp_by };

    fn read(&self, text: &[u8]) -> Result<Stamp, Bad> {
        read_form(text, *self)
    }
}

/// Reads the stamp that the whole value of a line is: that of DTSTART, DTEND, DUE or RECURRENCE-ID,
/// or of a line whose moment is read as UTC. A zone that is none of the object's is no fault here:
/// the stamp then has the number behind the last. Takes no memory.
pub fn read_stamp(line: &Line, zones: &ZoneNames) -> Result<Stamp, Bad>
    ensures ok { IfOk result (λ stamp. stamp_of zones.now line.now line.now.value ≡ Some stamp) }
    ensures outside { IfErr result (λ _. stamp_of zones.now line.now line.now.value ≡ None) }
    ensures bad { IfErr result (λ fault. IsBadAt (Reads (stamp_by_value zones.now line.now)) line.now.value fault.place) }
{
    match read_form(line.value.as_slice(), stamp_form(line, zones)) {
        Ok(stamp) => Ok(stamp),
        Err(fault) => Err(fault),
    }
}

/// Reads the stamps of a line's value: several where the line is EXDATE, RDATE or FREEBUSY, else
/// one. A zone that is none of the object's is no fault here: a stamp then has the number behind the
/// last.
pub fn read_stamps_of_any_zone(
    alloc: Global,
    line: &Line,
    zones: &ZoneNames,
) -> Result<List<Stamp>, ValueFault>
    ensures ok { IfOk result (λ stamps. stamps_in_grammar zones.now line.now ≡ Some stamps) }
    ensures outside { (place : ℕ) → IsErrOf result (ValueFault.Bad place) → stamps_in_grammar zones.now line.now ≡ None }
    ensures bad { (place : ℕ) → IsErrOf result (ValueFault.Bad place) → IsBadAt (Reads (stamps_by_value zones.now line.now)) line.now.value place }
{
    let form = stamp_form(line, zones);
    if is_list(&line.name) {
        read_list(alloc, line.value.as_slice(), &form)
    } else {
        read_alone(alloc, line.value.as_slice(), form)
    }
}

/// Reads one stamp, as a list.
fn read_alone(alloc: Global, text: &[u8], form: StampForm) -> Result<List<Stamp>, ValueFault>
    ensures ok { IfOk result (λ stamps. option_map alone (stamp_by form text.now) ≡ Some stamps) }
    ensures bad { (place : ℕ) → IsErrOf result (ValueFault.Bad place) → IsBadAt (Reads (stamp_by form)) text.now place }
{
    let stamp = read_form(text, form)?;
    let mut stamps = List::new(alloc);
    stamps.push(stamp)?;
    Ok(stamps)
}

/// Reads the stamps of a line's value, each of them in UTC, in no zone or in one of the object's.
pub fn read_stamps(alloc: Global, line: &Line, zones: &ZoneNames) -> Result<List<Stamp>, ValueFault>
    ensures ok { IfOk result (λ stamps. stamps_of zones.now line.now ≡ Some stamps) }
    ensures outside { (place : ℕ) → IsErrOf result (ValueFault.Bad place) → stamps_of zones.now line.now ≡ None }
    ensures bad { (place : ℕ) → IsErrOf result (ValueFault.Bad place) → IsBadStampsAt zones.now line.now place }
{
    let stamps = match read_stamps_of_any_zone(alloc, line, zones) {
        Ok(stamps) => stamps,
        Err(fault) => return Err(fault),
    };
    if are_known(stamps.as_slice(), zones.len()) {
        Ok(stamps)
    } else {
        Err(ValueFault::Bad { place: 0 })
    }
}

/// Whether each zone of some stamps is one of so many.
fn are_known(stamps: &[Stamp], zones: u32) -> bool
    ensures { (names : List (List ℕ)) → length names ≡ zones → result ≡ list_all (is_known names) stamps.now }
{
    have_zones_below(stamps, zones)
}

/// Whether the number of each zone of some stamps is below a count.
fn have_zones_below(stamps: &[Stamp], zones: u32) -> bool
    ensures { result ≡ list_all (has_zone_below zones) stamps.now }
{
    stamps.iter().all(|stamp| has_zone_below(*stamp, zones))
}

/// Whether the number of a stamp's zone, if it has one, is below a count.
pub fn has_zone_below(stamp: Stamp, zones: u32) -> bool
    ensures { result ≡ has_zone_below zones stamp }
{
    match stamp {
        Stamp::Zoned(_, number) => number < zones,
        Stamp::Date(_) | Stamp::Floating(_) | Stamp::Utc(_) => true,
    }
}
