//! The first date outside those that are served, of the components of the four kinds and of their
//! alarms.
ghost use Rattle.std.specs.Prelude.{◌≡◌, ◌++◌, ℕ, List, [], None, find, flat_map, option_map, IfOk, OnOk};
ghost use Rattle.std.specs.Option.{option_copied};
ghost use Rattle.cal_base.specs.Texts.Text.{raised_all};
ghost use Rattle.cal_base.specs.Lines.ComponentTrees.{component_name, nesting_fault, or_else};
ghost use Rattle.cal_model.specs.Values.StampTexts as texts;
ghost use Rattle.cal_model.specs.Objects.DatedLines as dated;
ghost use Rattle.cal_model.specs.Objects.DateFaults as faults;
ghost use Rattle.cal_object.specs.DatesOutside as spec;

use crate::dates::{periods_in, stamps_in};
use crate::marks::{is_begin, is_end};
use crate::named::has_name;
use cal_base::{Line, List, NoMemory, Octets, Stack, is_word};
use cal_model::{FIRST_DATE, LAST_DATE, Trigger, written_value};
use cal_moment::{Period, PeriodEnd, Stamp};
use ical_values::{ZoneNames, param_value, read_trigger};
use std::alloc::Global;

/// A date that was found before the zones of its object are known.
#[derive(Drop)]
pub struct FoundDate {
    /// The date, read beside no zones: the number of its zone says nothing.
    pub stamp: Stamp,
    /// The TZID of its line.
    pub zone: Option<Octets>,
}

/// What a component is, as far as dates are looked at in it.
#[derive(Clone, Copy)]
pub enum OpenKind {
    /// One of the four kinds that a calendar stores.
    Kind,
    /// A VALARM.
    Alarm,
    Other,
}

/// Whether a name is one of the four kinds, without ASCII case.
fn is_kind_name(name: &[u8]) -> bool
    ensures { result ≡ spec.is_kind_name (raised_all name.now) }
{
    is_word(name, b"VEVENT")
        || is_word(name, b"VTODO")
        || is_word(name, b"VJOURNAL")
        || is_word(name, b"VFREEBUSY")
}

/// What the component is that a BEGIN opens.
fn kind_opened(line: &Line) -> OpenKind
    ensures { result ≡ spec.kind_of_name (component_name line.now) }
{
    let name = line.value.as_slice();
    if is_kind_name(name) {
        OpenKind::Kind
    } else if is_word(name, b"VALARM") {
        OpenKind::Alarm
    } else {
        OpenKind::Other
    }
}

/// Goes over a line.
fn go_over(levels: &mut Stack<OpenKind>, line: &Line) -> Result<(), NoMemory>
    ensures { OnOk result (levels.new ≡ spec.kinds_behind levels.old line.now) }
{
    if is_begin(line) {
        return levels.push(kind_opened(line));
    }
    if is_end(line) {
        let _ = levels.pop();
    }
    Ok(())
}

/// Whether a line has dates that are looked at in a component of the four kinds.
fn is_dated(line: &Line) -> bool
    ensures { result ≡ texts.is_one_of dated.dated_names line.now }
{
    has_name(line, b"DTSTART")
        || has_name(line, b"DTEND")
        || has_name(line, b"DUE")
        || has_name(line, b"RECURRENCE-ID")
        || has_name(line, b"RDATE")
        || has_name(line, b"EXDATE")
        || has_name(line, b"FREEBUSY")
}

/// Puts the stamps of periods behind others: of each its start, and its end where that is a stamp.
fn put_stamps(periods: &[Period], stamps: &mut List<Stamp>) -> Result<(), NoMemory>
    ensures { OnOk result (stamps.new ≡ stamps.old ++ flat_map dated.stamps_of_period periods.now) }
{
    let mut rest = periods;
    'periods: while let Some((period, behind)) = rest.split_first() {
        put_period(*period, stamps)?;
        rest = behind;
    }
    Ok(())
}

/// Puts the stamps of one period behind others.
fn put_period(period: Period, stamps: &mut List<Stamp>) -> Result<(), NoMemory>
    ensures { OnOk result (stamps.new ≡ stamps.old ++ dated.stamps_of_period period) }
{
    stamps.push(period.start)?;
    match period.end {
        PeriodEnd::At(end) => stamps.push(end),
        PeriodEnd::After(_) => Ok(()),
    }
}

/// The dates of a line of a component of the four kinds.
pub fn dated_stamps(alloc: Global, zones: &ZoneNames, line: &Line) -> Result<List<Stamp>, NoMemory>
    ensures { IfOk result (λ stamps. stamps ≡ dated.dated_stamps zones.now line.now) }
{
    if !is_dated(line) {
        return Ok(List::new(alloc));
    }
    let mut stamps = stamps_in(alloc, zones, line)?;
    let periods = periods_in(alloc, zones, line)?;
    put_stamps(periods.as_slice(), &mut stamps)?;
    Ok(stamps)
}

/// The moment of a TRIGGER that names one.
fn trigger_stamps(alloc: Global, line: &Line) -> Result<List<Stamp>, NoMemory>
    ensures { IfOk result (λ stamps. stamps ≡ faults.trigger_stamps line.now) }
{
    let mut stamps = List::new(alloc);
    if has_name(line, b"TRIGGER")
        && let Ok(Trigger::At(moment)) = read_trigger(line)
    {
        stamps.push(Stamp::Utc(moment))?;
    }
    Ok(stamps)
}

/// Whether this is a component of the four kinds.
fn is_kind(component: Option<OpenKind>) -> bool
    ensures { result ≡ spec.is_kind component }
{
    matches!(component, Some(OpenKind::Kind))
}

/// Whether this is a VALARM.
fn is_alarm(component: Option<OpenKind>) -> bool
    ensures { result ≡ spec.is_alarm component }
{
    matches!(component, Some(OpenKind::Alarm))
}

/// Whether a component of the four kinds is open within the outermost one, and nothing in it.
fn is_in_kind(levels: &Stack<OpenKind>) -> bool
    ensures { result ≡ spec.in_kind levels.now }
{
    levels.len() == 2 && is_kind(levels.at(0).copied())
}

/// Whether a VALARM of such a component is open.
fn is_in_alarm(levels: &Stack<OpenKind>) -> bool
    ensures { result ≡ spec.in_alarm levels.now }
{
    levels.len() == 3 && is_alarm(levels.at(0).copied()) && is_kind(levels.at(1).copied())
}

/// The dates of a line, by what is open where it stands.
fn dates_within(
    alloc: Global,
    zones: &ZoneNames,
    levels: &Stack<OpenKind>,
    line: &Line,
) -> Result<List<Stamp>, NoMemory>
    requires { zones.now ≡ [] }
    ensures { IfOk result (λ dates. dates ≡ spec.dates_within levels.now line.now) }
{
    if is_in_kind(levels) {
        dated_stamps(alloc, zones, line)
    } else if is_in_alarm(levels) {
        trigger_stamps(alloc, line)
    } else {
        Ok(List::new(alloc))
    }
}

/// Whether a date lies before those that are served.
fn is_early(stamp: Stamp) -> bool
    ensures { result ≡ faults.is_early stamp }
{
    written_value(stamp) < FIRST_DATE
}

/// Whether a date lies after those that are served.
fn is_late(stamp: Stamp) -> bool
    ensures { result ≡ faults.is_late stamp }
{
    LAST_DATE < written_value(stamp)
}

/// A date with the TZID of its line.
fn found_in(alloc: Global, line: &Line, stamp: Stamp) -> Result<FoundDate, NoMemory>
    ensures { IfOk result (λ found. found ≡ spec.found_in line.now stamp) }
{
    let zone = match param_value(line, b"TZID") {
        Some(name) => Some(Octets::of(alloc, name)?),
        None => None,
    };
    Ok(FoundDate { stamp, zone })
}

/// Keeps the first date that was found, unless there was one before.
fn keep_first(
    alloc: Global,
    line: &Line,
    found: Option<Stamp>,
    first: &mut Option<FoundDate>,
) -> Result<(), NoMemory>
    ensures { OnOk result (first.new ≡ or_else first.old (option_map (spec.found_in line.now) found)) }
{
    if first.is_none()
        && let Some(stamp) = found
    {
        *first = Some(found_in(alloc, line, stamp)?);
    }
    Ok(())
}

/// Keeps the first early date of a line and the first late one, unless there were some before.
fn keep_of_line(
    alloc: Global,
    zones: &ZoneNames,
    levels: &Stack<OpenKind>,
    line: &Line,
    early: &mut Option<FoundDate>,
    late: &mut Option<FoundDate>,
) -> Result<(), NoMemory>
    requires { zones.now ≡ [] }
    ensures early { OnOk result (early.new ≡ or_else early.old (option_map (spec.found_in line.now) (find faults.is_early (spec.dates_within levels.now line.now)))) }
    ensures late { OnOk result (late.new ≡ or_else late.old (option_map (spec.found_in line.now) (find faults.is_late (spec.dates_within levels.now line.now)))) }
{
    let dates = dates_within(alloc, zones, levels, line)?;
    let first = early_among(dates.as_slice()).copied();
    keep_first(alloc, line, first, early)?;
    let first = late_among(dates.as_slice()).copied();
    keep_first(alloc, line, first, late)?;
    Ok(())
}

/// Goes over lines, and keeps the first early date of them and the first late one.
fn keep_of_lines(
    alloc: Global,
    zones: &ZoneNames,
    lines: &[Line],
    levels: &mut Stack<OpenKind>,
    early: &mut Option<FoundDate>,
    late: &mut Option<FoundDate>,
) -> Result<(), NoMemory>
    requires { zones.now ≡ [] }
    ensures early { OnOk result (early.new ≡ or_else early.old (spec.first_early (spec.dates_from levels.old lines.now))) }
    ensures late { OnOk result (late.new ≡ or_else late.old (spec.first_late (spec.dates_from levels.old lines.now))) }
{
    let mut rest = lines;
    'lines: while let Some((line, behind)) = rest.split_first() {
        keep_of_line(alloc, zones, levels, line, early, late)?;
        go_over(levels, line)?;
        rest = behind;
    }
    Ok(())
}

/// The first early date of lines, and the first late one.
fn first_dates(
    alloc: Global,
    zones: &ZoneNames,
    lines: &[Line],
) -> Result<(Option<FoundDate>, Option<FoundDate>), NoMemory>
    requires { zones.now ≡ [] }
    ensures early { IfOk result (λ found. found.0 ≡ spec.first_early (spec.dates_from [] lines.now)) }
    ensures late { IfOk result (λ found. found.1 ≡ spec.first_late (spec.dates_from [] lines.now)) }
{
    let mut levels = Stack::new(alloc);
    let mut early = None;
    let mut late = None;
    keep_of_lines(alloc, zones, lines, &mut levels, &mut early, &mut late)?;
    Ok((early, late))
}

/// The first of some dates that is early.
fn early_among(dates: &[Stamp]) -> Option<&Stamp>
    ensures { option_copied result ≡ find faults.is_early dates.now }
{
    dates.iter().find(|date| is_early(**date))
}

/// The first of some dates that is late.
fn late_among(dates: &[Stamp]) -> Option<&Stamp>
    ensures { option_copied result ≡ find faults.is_late dates.now }
{
    dates.iter().find(|date| is_late(**date))
}

/// The first of two dates that is there.
fn either(first: Option<FoundDate>, second: Option<FoundDate>) -> Option<FoundDate>
    ensures { result ≡ or_else first second }
{
    match first {
        Some(date) => Some(date),
        None => second,
    }
}

/// The first date of the lines, as it is written, that is too early, or else the first that is too
/// late. Which lines are looked at goes by what is open around them. One pass.
pub fn date_outside(alloc: Global, lines: &[Line]) -> Result<Option<FoundDate>, NoMemory>
    ensures { IfOk result (λ found. nesting_fault lines.now ≡ None → (names : List (List ℕ)) → option_map (spec.stamp_beside names) found ≡ faults.stamp_outside names lines.now) }
{
    let zones = ZoneNames::of(alloc, &List::new(alloc))?;
    let (early, late) = first_dates(alloc, &zones, lines)?;
    Ok(either(early, late))
}

/// A stamp with the number of its zone, where it is in one.
fn numbered(number: Option<u32>, stamp: Stamp) -> Stamp
    ensures { result ≡ spec.numbered number stamp }
{
    match (number, stamp) {
        (Some(number), Stamp::Zoned(local, _)) => Stamp::Zoned(local, number),
        _ => stamp,
    }
}

/// A date that was found, beside the names of the object's zones.
fn stamp_beside(found: &FoundDate, names: &ZoneNames) -> Stamp
    ensures { result ≡ spec.stamp_beside names.now found.now }
{
    let number = match &found.zone {
        Some(name) => Some(names.number(name.as_slice())),
        None => None,
    };
    numbered(number, found.stamp)
}

/// The date outside that a scan found, once the names of the object's zones are known.
pub fn stamp_outside(found: &Option<FoundDate>, names: &ZoneNames) -> Option<Stamp>
    ensures { result ≡ option_map (spec.stamp_beside names.now) found.now }
{
    match found {
        Some(found) => Some(stamp_beside(found, names)),
        None => None,
    }
}
