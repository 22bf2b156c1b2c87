//! What the lines of a part of a zone say (RFC 5545, 3.6.5): its dates by their digits, its rules and
//! its offsets.
ghost use Rattle.std.specs.Prelude.{◌≡◌, ◌++◌, [], map, option_to_list, All, IfOk, OnOk};
ghost use Rattle.cal_moment.specs.Calendar.{IsCalendarMoment};
ghost use Rattle.cal_moment.specs.Texts.{local_of_seconds};
ghost use Rattle.cal_moment.specs.declared.stamp.Period.{Period};
ghost use Rattle.cal_model.specs.Values.StampTexts as texts;
ghost use Rattle.cal_model.specs.Values.RuleTexts.{rule_of};
ghost use Rattle.cal_model.specs.Values.ValueTexts.{offset_of};
ghost use Rattle.cal_model.specs.Objects.LineValues as values;
ghost use Rattle.cal_model.specs.Objects.ZoneReading as spec;
ghost use Rattle.cal_object.specs.PartDates.{HasMoment, StartsAtMoment};

use crate::dates::{periods_in, stamps_in};
use crate::named::has_name;
use cal_base::{Line, List, NoMemory};
use cal_model::Rule;
use cal_moment::{Local, Period, Stamp, Utc};
use ical_values::{ValueFault, ZoneNames, one_of, read_rule, read_utc_offset};
use std::alloc::Global;

const DAY: u64 = 86_400;
/// The days from 1 January of the year 1 to that of 1970.
const DAYS_TO_EPOCH: i32 = 719_162;
/// The same in seconds.
const SECONDS_TO_EPOCH: i64 = 62_135_596_800;

/// The digits of a moment in UTC.
fn digits_of_moment(moment: Utc) -> Local
    requires { IsCalendarMoment moment.0 }
    ensures { result ≡ local_of_seconds moment.0 }
{
    let since_year_one = (moment.0 + SECONDS_TO_EPOCH) as u64;
    Local {
        day: (since_year_one / DAY) as i32 - DAYS_TO_EPOCH,
        second: (since_year_one % DAY) as u32,
    }
}

/// The digits of a stamp as they stand in its text; a date is its midnight.
pub fn local_digits(stamp: Stamp) -> Local
    requires { HasMoment stamp }
    ensures { result ≡ texts.local_digits stamp }
{
    match stamp {
        Stamp::Date(day) => Local {
            day: day.0,
            second: 0,
        },
        Stamp::Floating(local) | Stamp::Zoned(local, _) => local,
        Stamp::Utc(moment) => digits_of_moment(moment),
    }
}

/// Puts the digits of stamps behind others.
fn put_stamps(stamps: &[Stamp], dates: &mut List<Local>) -> Result<(), NoMemory>
    requires { All HasMoment stamps.now }
    ensures { OnOk result (dates.new ≡ dates.old ++ map texts.local_digits stamps.now) }
{
    let mut rest = stamps;
    'stamps: while let Some((stamp, behind)) = rest.split_first() {
        dates.push(local_digits(*stamp))?;
        rest = behind;
    }
    Ok(())
}

/// Puts the digits of the starts of periods behind others.
fn put_starts(periods: &[Period], dates: &mut List<Local>) -> Result<(), NoMemory>
    requires { All StartsAtMoment periods.now }
    ensures { OnOk result (dates.new ≡ dates.old ++ map texts.local_digits (map (λ (period : Period). period.start) periods.now)) }
{
    let mut rest = periods;
    'periods: while let Some((period, behind)) = rest.split_first() {
        dates.push(local_digits(period.start))?;
        rest = behind;
    }
    Ok(())
}

/// Puts the dates of an RDATE behind others.
fn put_dates(
    alloc: Global,
    zones: &ZoneNames,
    line: &Line,
    dates: &mut List<Local>,
) -> Result<(), NoMemory>
    requires { zones.now ≡ [] }
    ensures { OnOk result (dates.new ≡ dates.old ++ spec.dates_of_line line.now) }
{
    let stamps = stamps_in(alloc, zones, line)?;
    put_stamps(stamps.as_slice(), dates)?;
    let periods = periods_in(alloc, zones, line)?;
    put_starts(periods.as_slice(), dates)
}

/// The RDATEs of a part by their digits, of a period those of its start.
pub fn part_dates(alloc: Global, zones: &ZoneNames, lines: &[Line]) -> Result<List<Local>, NoMemory>
    requires { zones.now ≡ [] }
    ensures { IfOk result (λ dates. dates ≡ spec.part_dates lines.now) }
{
    let mut dates = List::new(alloc);
    let mut rest = lines;
    'lines: while let Some((line, behind)) = rest.split_first() {
        if has_name(line, b"RDATE") {
            put_dates(alloc, zones, line, &mut dates)?;
        }
        rest = behind;
    }
    Ok(dates)
}

/// Puts the rule of a line behind others, where its value is one.
fn put_rule(alloc: Global, line: &Line, rules: &mut List<Rule>) -> Result<(), NoMemory>
    ensures { OnOk result (rules.new ≡ rules.old ++ option_to_list (rule_of line.now.value)) }
{
    match read_rule(alloc, line.value.as_slice()) {
        Ok(rule) => rules.push(rule),
        Err(ValueFault::Bad { .. }) => Ok(()),
        Err(ValueFault::NoMemory) => Err(NoMemory),
    }
}

/// The rules of a component's lines, in order.
pub fn rules_of(alloc: Global, lines: &[Line]) -> Result<List<Rule>, NoMemory>
    ensures { IfOk result (λ rules. rules ≡ values.rules_of lines.now) }
{
    let mut rules = List::new(alloc);
    let mut rest = lines;
    'lines: while let Some((line, behind)) = rest.split_first() {
        if has_name(line, b"RRULE") {
            put_rule(alloc, line, &mut rules)?;
        }
        rest = behind;
    }
    Ok(rules)
}

/// The offset that the first line of a name says.
pub fn offset_at(lines: &[Line], name: &[u8]) -> Option<i32>
    ensures { result ≡ values.value_at offset_of name.now lines.now }
{
    match one_of(lines, name) {
        Some(line) => read_utc_offset(line.value.as_slice()).ok(),
        None => None,
    }
}
