//! The stamps and the periods of one line (RFC 5545, 3.3.9 and 3.8.5.2).
ghost use Rattle.std.specs.Prelude.{◌≡◌, IfOk};
ghost use Rattle.cal_model.specs.Values.StampTexts as texts;
ghost use Rattle.cal_model.specs.Objects.LineValues as spec;

use crate::named::has_name;
use cal_base::{Line, List, NoMemory};
use cal_moment::{Period, Stamp};
use ical_values::{
    ValueFault, ZoneNames, param_is, read_periods_of_any_zone, read_stamps_of_any_zone,
};
use std::alloc::Global;

/// Whether a line is an RDATE that says that it has periods.
pub fn has_periods(line: &Line) -> bool
    ensures { result ≡ texts.has_periods line.now }
{
    has_name(line, b"RDATE") && param_is(line, b"VALUE", b"PERIOD")
}

/// Whether a line has periods: such an RDATE, and each FREEBUSY.
pub fn is_of_periods(line: &Line) -> bool
    ensures { result ≡ spec.is_of_periods line.now }
{
    has_periods(line) || has_name(line, b"FREEBUSY")
}

/// The stamps of a line: none where it has periods, or where its value cannot be read.
pub fn stamps_in(alloc: Global, zones: &ZoneNames, line: &Line) -> Result<List<Stamp>, NoMemory>
    ensures { IfOk result (λ stamps. stamps ≡ spec.stamps_in zones.now line.now) }
{
    if is_of_periods(line) {
        return Ok(List::new(alloc));
    }
    match read_stamps_of_any_zone(alloc, line, zones) {
        Ok(stamps) => Ok(stamps),
        Err(ValueFault::Bad { .. }) => Ok(List::new(alloc)),
        Err(ValueFault::NoMemory) => Err(NoMemory),
    }
}

/// The periods of a line: none where it has stamps, or where its value cannot be read.
pub fn periods_in(alloc: Global, zones: &ZoneNames, line: &Line) -> Result<List<Period>, NoMemory>
    ensures { IfOk result (λ periods. periods ≡ spec.periods_in zones.now line.now) }
{
    if !is_of_periods(line) {
        return Ok(List::new(alloc));
    }
    match read_periods_of_any_zone(alloc, line, zones) {
        Ok(periods) => Ok(periods),
        Err(ValueFault::Bad { .. }) => Ok(List::new(alloc)),
        Err(ValueFault::NoMemory) => Err(NoMemory),
    }
}
