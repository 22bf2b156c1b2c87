//! The dates that the lines of a component say, by their names (RFC 5545, 3.8.2 and 3.8.5).
ghost use Rattle.std.specs.Prelude.{◌≡◌, ◌++◌, false, bytes_eq, OnOk, IfOk};
ghost use Rattle.std.specs.List.{list_any};
ghost use Rattle.cal_base.specs.Lines.ComponentTrees.{first};
ghost use Rattle.cal_model.specs.Objects.LineValues as spec;
ghost use Rattle.cal_model.specs.Values.StampTexts.{list_names};

use crate::dates::{periods_in, stamps_in};
use crate::named::has_name;
use cal_base::{Line, List, NoMemory};
use cal_moment::{Period, Stamp};
use ical_values::{ZoneNames, read_stamp};
use std::alloc::Global;

/// Adds the stamps of a line to those of others.
fn add_stamps(
    alloc: Global,
    zones: &ZoneNames,
    line: &Line,
    stamps: &mut List<Stamp>,
) -> Result<(), NoMemory>
    ensures { OnOk result (stamps.new ≡ stamps.old ++ spec.stamps_in zones.now line.now) }
{
    let more = stamps_in(alloc, zones, line)?;
    stamps.extend_from_slice(more.as_slice())
}

/// Adds the periods of a line to those of others.
fn add_periods(
    alloc: Global,
    zones: &ZoneNames,
    line: &Line,
    periods: &mut List<Period>,
) -> Result<(), NoMemory>
    ensures { OnOk result (periods.new ≡ periods.old ++ spec.periods_in zones.now line.now) }
{
    let more = periods_in(alloc, zones, line)?;
    periods.extend_from_slice(more.as_slice())
}

/// The stamps of all lines of a name, in order.
#[tactic(auto, using(crate::proofs::NamedLists::more_named, crate::proofs::NamedLists::same_named))]
pub fn stamps_at(
    alloc: Global,
    zones: &ZoneNames,
    lines: &[Line],
    name: &[u8],
) -> Result<List<Stamp>, NoMemory>
    ensures { IfOk result (λ stamps. stamps ≡ spec.stamps_at zones.now name.now lines.now) }
{
    let mut stamps = List::new(alloc);
    'lines: for line in lines {
        if has_name(line, name) {
            add_stamps(alloc, zones, line, &mut stamps)?;
        }
    }
    Ok(stamps)
}

/// The periods of all lines of a name, in order.
#[tactic(auto, using(crate::proofs::NamedLists::more_named, crate::proofs::NamedLists::same_named))]
pub fn periods_at(
    alloc: Global,
    zones: &ZoneNames,
    lines: &[Line],
    name: &[u8],
) -> Result<List<Period>, NoMemory>
    ensures { IfOk result (λ periods. periods ≡ spec.periods_at zones.now name.now lines.now) }
{
    let mut periods = List::new(alloc);
    'lines: for line in lines {
        if has_name(line, name) {
            add_periods(alloc, zones, line, &mut periods)?;
        }
    }
    Ok(periods)
}

/// The stamp of a line that has no list; none where it cannot be read. Takes no memory.
fn stamp_in(zones: &ZoneNames, line: &Line) -> Option<Stamp>
    requires { list_any (bytes_eq line.now.name) list_names ≡ false }
    ensures { result ≡ first (spec.stamps_in zones.now line.now) }
{
    match read_stamp(line, zones) {
        Ok(stamp) => Some(stamp),
        Err(_) => None,
    }
}

/// The one stamp of a name whose lines have no list: the first that can be read. Takes no memory.
#[tactic(auto, using(crate::proofs::NamedLists::first_named))]
pub fn stamp_at(zones: &ZoneNames, lines: &[Line], name: &[u8]) -> Option<Stamp>
    requires { list_any (bytes_eq name.now) list_names ≡ false }
    ensures { result ≡ spec.stamp_at zones.now name.now lines.now }
{
    'lines: for line in lines {
        if has_name(line, name) {
            if let Some(stamp) = stamp_in(zones, line) {
                return Some(stamp);
            }
        }
    }
    None
}
