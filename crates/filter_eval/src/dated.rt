//! Tests of the dates of a component (RFC 4791, 9.7.2 and 9.9): those that its lines say, and the end
//! that DTSTART and DURATION make.

ghost use Rattle.std.specs.Prelude.{◌≡◌, ◌&&◌, true, IfOk, IfSome, map, filter_map, bytes_eq, option_to_list};
ghost use Rattle.std.specs.List.{list_any};
ghost use Rattle.cal_model.specs.Filters.DateProperties as spec;
ghost use Rattle.cal_model.specs.Filters.Matching.{date_reading};
ghost use Rattle.cal_model.specs.Objects.ComponentLines.{has_name, all_of};
ghost use Rattle.cal_model.specs.Ranges.Overlap.{is_in};
ghost use Rattle.filter_eval.specs.Instants.{IsDated};
ghost use Rattle.filter_eval.specs.Passing.{date_passes};
ghost use Rattle.filter_eval.specs.Places.{IsReady, matched_of};
ghost use Rattle.filter_eval.specs.ReadyTexts.{HasTexts, line_in, lines_in};
ghost use Rattle.filter_eval.specs.Tests.{param_filter_of};

use crate::asked::{AskedLine, Lines, Params};
use crate::components::{is_named, line_is_named};
use crate::dates::Dates;
use crate::ends::end_of;
use crate::params::{ParamTester, all_hold};
use crate::subject::{Spot, Subject};
use cal_base::{Line, List, Name, NoMemory, Node};
use cal_model::Range;
use cal_moment::Stamp;
use ical_values::{length_in, one_of};
use std::alloc::Global;

/// Whether a name is one of the date properties (RFC 5545, 3.8.2 and 3.8.7).
fn is_date_name(name: &Name) -> bool
    ensures { result ≡ spec.is_date_name name.now }
{
    is_named(name, b"COMPLETED")
        || is_named(name, b"CREATED")
        || is_named(name, b"DTEND")
        || is_named(name, b"DTSTAMP")
        || is_named(name, b"DTSTART")
        || is_named(name, b"DUE")
        || is_named(name, b"LAST-MODIFIED")
}

/// Whether a moment lies in a range: at its start or after it, and before its end.
fn is_in(range: Range, moment: i64) -> bool
    ensures { result ≡ is_in range moment }
{
    range.start.0 <= moment && moment < range.end.0
}

/// Whether some date of a name lies in a range and has all that is asked of its parameters.
pub fn some_date_passes(
    alloc: Global,
    name: &Name,
    range: Range,
    params: &List<ParamTester>,
    subject: &Subject,
    spot: &Spot,
) -> Result<bool, NoMemory>
    requires ready { IsReady subject.now }
    requires texts { HasTexts spot.now }
    ensures { IfOk result (λ passes. passes ≡ list_any (date_passes range (map param_filter_of params.now)) (spec.dates_named (date_reading (matched_of subject.now)) spot.now.in_timezone spot.now.node.now name.now)) }
{
    if !is_date_name(name) {
        return Ok(false);
    }
    if let Some(dates) = subject.dates {
        return some_date_read_passes(alloc, dates, name, range, params, spot);
    }
    let dates = Dates::of(alloc, &subject.object.zones, subject.zone)?;
    some_date_read_passes(alloc, &dates, name, range, params, spot)
}

/// The same, by the reading of the dates.
fn some_date_read_passes(
    alloc: Global,
    dates: &Dates,
    name: &Name,
    range: Range,
    params: &List<ParamTester>,
    spot: &Spot,
) -> Result<bool, NoMemory>
    requires name { spec.is_date_name name.now ≡ true }
    requires texts { HasTexts spot.now }
    ensures { IfOk result (λ passes. passes ≡ list_any (date_passes range (map param_filter_of params.now)) (spec.dates_named dates.now spot.now.in_timezone spot.now.node.now name.now)) }
{
    let lines = Lines::of(spot);
    if some_written_date(alloc, dates, name, range, params, spot.in_timezone, &lines)? {
        return Ok(true);
    }
    effective_passes(alloc, dates, name, range, params, spot)
}

/// Whether a line of a name is a date in a range and has all that is asked of its parameters.
fn date_passes(
    alloc: Global,
    dates: &Dates,
    name: &Name,
    range: Range,
    params: &List<ParamTester>,
    in_timezone: bool,
    line: &AskedLine,
) -> Result<bool, NoMemory>
    ensures { IfOk result (λ passes. passes ≡ (has_name name.now (line_in line.now) && list_any (date_passes range (map param_filter_of params.now)) (option_to_list (spec.date_of_line dates.now in_timezone (line_in line.now))))) }
{
    let written = line.written();
    if !line_is_named(written, name) {
        return Ok(false);
    }
    let Some(stamp) = dates.stamp(alloc, in_timezone, written)? else {
        return Ok(false);
    };
    if !is_in(range, dates.moment(stamp)) {
        return Ok(false);
    }
    all_hold(alloc, params, &line.params())
}

/// Whether some line of a name is such a date.
fn some_written_date(
    alloc: Global,
    dates: &Dates,
    name: &Name,
    range: Range,
    params: &List<ParamTester>,
    in_timezone: bool,
    lines: &Lines,
) -> Result<bool, NoMemory>
    ensures { IfOk result (λ passes. passes ≡ list_any (date_passes range (map param_filter_of params.now)) (filter_map (spec.date_of_line dates.now in_timezone) (all_of name.now (lines_in lines.now)))) }
{
    let mut rest = *lines;
    'lines: while let Some((line, behind)) = rest.split_first() {
        if date_passes(alloc, dates, name, range, params, in_timezone, &line)? {
            return Ok(true);
        }
        rest = behind;
    }
    Ok(false)
}

/// The start that DTSTART gives.
fn start_in(
    alloc: Global,
    dates: &Dates,
    in_timezone: bool,
    lines: &[Line],
) -> Result<Option<Stamp>, NoMemory>
    ensures start { IfOk result (λ start. start ≡ spec.start_in dates.now in_timezone lines.now) }
    ensures dated { IfOk result (λ start. IfSome start IsDated) }
{
    match one_of(lines, b"DTSTART") {
        Some(line) => dates.stamp(alloc, in_timezone, line),
        None => Ok(None),
    }
}

/// Whether a name is that of the property that says when a component ends.
fn is_end_name(name: &Name, node: &Node) -> bool
    ensures { result ≡ bytes_eq name.now (spec.effective_end_name node.now) }
{
    if is_named(&node.name, b"VTODO") {
        is_named(name, b"DUE")
    } else {
        is_named(name, b"DTEND")
    }
}

/// Whether the end that DTSTART and DURATION make is asked for, lies in a range, and has, without
/// parameters, all that is asked of them.
fn effective_passes(
    alloc: Global,
    dates: &Dates,
    name: &Name,
    range: Range,
    params: &List<ParamTester>,
    spot: &Spot,
) -> Result<bool, NoMemory>
    ensures { IfOk result (λ passes. passes ≡ list_any (date_passes range (map param_filter_of params.now)) (spec.effective_lines_named dates.now spot.now.in_timezone spot.now.node.now name.now)) }
{
    let lines = spot.node.lines.as_slice();
    if !is_end_name(name, spot.node) {
        return Ok(false);
    }
    let Some(length) = length_in(lines) else {
        return Ok(false);
    };
    let Some(start) = start_in(alloc, dates, spot.in_timezone, lines)? else {
        return Ok(false);
    };
    if !is_in(range, end_of(dates, start, length)) {
        return Ok(false);
    }
    all_hold(alloc, params, &Params::Written(&[]))
}
