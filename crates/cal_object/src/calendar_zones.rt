//! What keeps a tree of lines from being a calendar, its components of the four kinds aside, and the
//! zones of one.
ghost use Rattle.std.specs.Prelude.{◌≡◌, ◌<◌, ◌^◌, All, None, length, IfOk, IfErr};
ghost use Rattle.cal_base.specs.Lines.ContentLines.{placed_lines};
ghost use Rattle.cal_model.specs.Recurrence.RecurrenceSet.{every_moment};
ghost use Rattle.cal_model.specs.TimeZones.TableBounds.{IsTable};
ghost use Rattle.cal_model.specs.Objects.ObjectReading.{calendar_faults, first_there};
ghost use Rattle.cal_model.specs.Objects.ZoneReading as spec;
ghost use Rattle.cal_object.specs.Faults.{IsFound};
ghost use Rattle.cal_object.specs.Outlines.{IsTextScan, IsTreeOf, line_faults, zones_fault};

use crate::fault::ReadFault;
use crate::named::is_named;
use crate::outline::{at_child, at_line};
use crate::scan::Scan;
use crate::zones::{ZoneFault, read_zones};
use cal_base::{List, NoMemory, Node, Octets};
use cal_model::ZoneTable;
use ical_values::ZoneNames;
use std::alloc::Global;

/// The outermost component is a VCALENDAR, and each line can stand.
fn check_lines(octets: &[u8], scan: &Scan, calendar: &Node) -> Result<(), ReadFault>
    requires tree { IsTreeOf octets.now calendar.now }
    requires scan { IsTextScan octets.now scan.now }
    ensures good { IfOk result (λ _. first_there (line_faults (placed_lines octets.now) calendar.now) ≡ None) }
    ensures fault { IfErr result (IsFound (first_there (line_faults (placed_lines octets.now) calendar.now))) }
{
    if !is_named(calendar, b"VCALENDAR") {
        return Err(at_line(octets, 0));
    }
    match scan.own_fault {
        Some(number) => Err(at_line(octets, number)),
        None => Ok(()),
    }
}

/// The zones of a calendar, or the place of the first that cannot stand.
fn good_zones(
    alloc: Global,
    octets: &[u8],
    scan: &Scan,
    calendar: &Node,
) -> Result<List<ZoneTable>, ReadFault>
    requires tree { IsTreeOf octets.now calendar.now }
    requires scan { IsTextScan octets.now scan.now }
    ensures zones { IfOk result (λ zones. zones ≡ spec.zones_of every_moment calendar.now) }
    ensures convertible { IfOk result (All IsTable) }
    ensures good { IfOk result (λ _. zones_fault (placed_lines octets.now) calendar.now ≡ None) }
    ensures fault { IfErr result (IsFound (zones_fault (placed_lines octets.now) calendar.now)) }
{
    match read_zones(alloc, calendar) {
        Ok(zones) => Ok(zones),
        Err(ZoneFault::Bad { child }) => Err(at_child(octets, &scan.children, child)),
        Err(ZoneFault::NoMemory) => Err(ReadFault::NoMemory),
    }
}

/// The zones of a calendar, or what keeps a tree from being one: another name than VCALENDAR, then
/// the first line that cannot stand, then the first VTIMEZONE that cannot.
pub(crate) fn calendar_zones(
    alloc: Global,
    octets: &[u8],
    scan: &Scan,
    calendar: &Node,
) -> Result<List<ZoneTable>, ReadFault>
    requires tree { IsTreeOf octets.now calendar.now }
    requires scan { IsTextScan octets.now scan.now }
    ensures zones { IfOk result (λ zones. zones ≡ spec.zones_of every_moment calendar.now) }
    ensures convertible { IfOk result (All IsTable) }
    ensures good { IfOk result (λ _. first_there (calendar_faults every_moment (placed_lines octets.now) calendar.now) ≡ None) }
    ensures fault { IfErr result (IsFound (first_there (calendar_faults every_moment (placed_lines octets.now) calendar.now))) }
{
    match check_lines(octets, scan, calendar) {
        Ok(()) => good_zones(alloc, octets, scan, calendar),
        Err(fault) => Err(fault),
    }
}

/// The names of zones.
fn copied_names(alloc: Global, zones: &[ZoneTable]) -> Result<List<Octets>, NoMemory>
    ensures { IfOk result (λ names. names ≡ spec.zone_names zones.now) }
{
    let mut names = List::new(alloc);
    let mut rest = zones;
    'zones: while let Some((zone, behind)) = rest.split_first() {
        names.push(Octets::of(alloc, zone.name.as_slice())?)?;
        rest = behind;
    }
    Ok(names)
}

/// The names of zones at hand.
pub(crate) fn names_of(alloc: Global, zones: &[ZoneTable]) -> Result<ZoneNames, NoMemory>
    requires { length zones.now < 2 ^ 32 }
    ensures { IfOk result (λ names. names ≡ spec.zone_names zones.now) }
{
    let names = copied_names(alloc, zones)?;
    ZoneNames::of(alloc, &names)
}
