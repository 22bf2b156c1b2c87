//! Reading the text of a time zone.
ghost use Rattle.std.specs.Prelude.{◌≡◌, ◌<◌, ◌^◌, All, Ok, None, Some, length, IfOk, IfErr, IfSome};
ghost use Rattle.cal_base.specs.Lines.ContentLines.{placed_lines};
ghost use Rattle.cal_base.specs.Lines.ComponentTrees.{first};
ghost use Rattle.cal_model.specs.Recurrence.RecurrenceSet.{every_moment};
ghost use Rattle.cal_model.specs.TimeZones.TableBounds.{IsTable};
ghost use Rattle.cal_model.specs.Objects.ObjectReading as spec;
ghost use Rattle.cal_object.specs.Faults.{IsFaultOf};
ghost use Rattle.cal_object.specs.Outlines.{IsTextScan, IsTreeOf};

use crate::calendar_zones::calendar_zones;
use crate::fault::ReadFault;
use crate::outline::{Outline, read_outline};
use crate::scan::Scan;
use cal_base::{List, Node};
use cal_model::{NotResource, ZoneTable};
use std::alloc::Global;

/// The first of some zones.
fn first_zone(zones: List<ZoneTable>) -> Option<ZoneTable>
    requires { All IsTable zones }
    ensures zone { result ≡ first zones }
    ensures convertible { IfSome result IsTable }
{
    let mut zones = zones;
    zones.pop_front()
}

/// The zone that a tree of lines is, or what keeps it from being one.
fn zone_of_tree(
    alloc: Global,
    octets: &[u8],
    scan: &Scan,
    calendar: &Node,
) -> Result<ZoneTable, ReadFault>
    requires tree { IsTreeOf octets.now calendar.now }
    requires scan { IsTextScan octets.now scan.now }
    ensures ok { IfOk result (λ zone. spec.read_zone_tree every_moment (placed_lines octets.now) calendar.now ≡ Ok zone) }
    ensures convertible { IfOk result IsTable }
    ensures fault { IfErr result (IsFaultOf (spec.read_zone_tree every_moment (placed_lines octets.now) calendar.now)) }
{
    let zones = calendar_zones(alloc, octets, scan, calendar)?;
    match first_zone(zones) {
        Some(zone) => Ok(zone),
        None => Err(ReadFault::NotResource(NotResource::ZoneMissing)),
    }
}

/// The zone of a calendar that has one: its first VTIMEZONE (RFC 4791, 5.2.2), or the first fault.
/// The faults are those of `read_object` up to its time zones; a calendar without any lacks a zone.
/// Its other components are not looked at beyond their lines.
pub fn read_zone(alloc: Global, octets: &[u8]) -> Result<ZoneTable, ReadFault>
    requires few { length octets.now < 2 ^ 32 }
    ensures ok { IfOk result (λ zone. spec.read_zone octets.now ≡ Ok zone) }
    ensures convertible { IfOk result IsTable }
    ensures fault { IfErr result (IsFaultOf (spec.read_zone octets.now)) }
{
    let Outline { scan, calendar } = read_outline(alloc, octets)?;
    zone_of_tree(alloc, octets, &scan, &calendar)
}
