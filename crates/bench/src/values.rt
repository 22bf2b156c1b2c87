//! The stamps, and the days of rules, in the values of content lines.

use cal_base::{Line, List, NoMemory};
use ical_lines::{LineFault, split_lines};
use ical_values::{ValueFault, ZoneNames, read_rule, read_stamps};
use std::alloc::Global;
use std::io;

/// How many stamps a line has, or days of the year its rule.
fn count_of(alloc: Global, line: &Line, zones: &ZoneNames) -> Result<usize, ValueFault> {
    if line.name.as_slice() == b"RRULE".as_slice() {
        match read_rule(alloc, line.value.as_slice()) {
            Ok(rule) => Ok(rule.by_year_day.len()),
            Err(fault) => Err(fault),
        }
    } else {
        match read_stamps(alloc, line, zones) {
            Ok(stamps) => Ok(stamps.len()),
            Err(fault) => Err(fault),
        }
    }
}

/// How many stamps and days the lines have, unless one is not read.
fn count_values(alloc: Global, lines: &[Line]) -> Result<Option<usize>, NoMemory> {
    let zones = ZoneNames::of(alloc, &List::new(alloc))?;
    let mut count: usize = 0;
    for line in lines {
        match count_of(alloc, line, &zones) {
            Ok(more) => count = count.saturating_add(more),
            Err(ValueFault::Bad { .. }) => return Ok(None),
            Err(ValueFault::NoMemory) => return Err(NoMemory),
        }
    }
    Ok(Some(count))
}

/// Prints how many stamps and days of the year the lines of a text have, or that one is not read.
pub fn measure(rt: &HostRuntime, text: &[u8]) -> io::Result<()> {
    match split_lines(rt.alloc(), text) {
        Ok(lines) => print_count(rt, lines.as_slice()),
        Err(LineFault::At { place }) => println!(rt; "bad line at octet {place}"),
        Err(LineFault::NoMemory) => println!(rt; "out of memory"),
    }
}

/// Prints how many the lines have.
fn print_count(rt: &HostRuntime, lines: &[Line]) -> io::Result<()> {
    match count_values(rt.alloc(), lines) {
        Ok(Some(count)) => println!(rt; "{count} values"),
        Ok(None) => println!(rt; "a value was not read"),
        Err(NoMemory) => println!(rt; "out of memory"),
    }
}
