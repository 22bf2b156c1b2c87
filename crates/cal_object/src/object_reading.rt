//! Reading a calendar object.
ghost use Rattle.std.specs.Prelude.{◌≡◌, ◌<◌, ◌^◌, All, None, Ok, length, IfOk, IfErr};
ghost use Rattle.cal_base.specs.Lines.ContentLines.{placed_lines};
ghost use Rattle.cal_model.specs.Recurrence.RecurrenceSet.{every_moment};
ghost use Rattle.cal_model.specs.TimeZones.TableBounds.{IsTable};
ghost use Rattle.cal_model.specs.Objects.ObjectReading as spec;
ghost use Rattle.cal_model.specs.Objects.ZoneReading.{zones_of};
ghost use Rattle.cal_object.specs.Faults.{IsFaultOf, IsFound};
ghost use Rattle.cal_object.specs.Outlines.{IsTextScan, IsTreeOf};

use crate::calendar_zones::{calendar_zones, names_of};
use crate::contents::object_with;
use crate::fault::ReadFault;
use crate::object_fault::check_object;
use crate::outline::{Outline, read_outline};
use crate::scan::Scan;
use crate::settled::settled;
use cal_base::{List, Node};
use cal_model::{Object, ZoneTable};
use std::alloc::Global;

/// The object that a calendar is beside its zones, or what keeps it from being one.
fn object_beside(
    alloc: Global,
    octets: &[u8],
    scan: &Scan,
    calendar: Node,
    zones: List<ZoneTable>,
) -> Result<Object, ReadFault>
    requires tree { IsTreeOf octets.now calendar }
    requires scan { IsTextScan octets.now scan.now }
    requires zones { zones ≡ zones_of every_moment calendar }
    requires convertible { All IsTable zones }
    ensures object { IfOk result (λ object. object ≡ spec.object_in every_moment (placed_lines octets.now) calendar) }
    ensures good { IfOk result (λ object. spec.first_there (spec.object_faults (placed_lines octets.now) calendar object) ≡ None) }
    ensures components { IfOk result (λ object. length object.components < 2 ^ 32) }
    ensures fault { IfErr result (IsFound (spec.first_there (spec.object_faults (placed_lines octets.now) calendar (spec.object_in every_moment (placed_lines octets.now) calendar)))) }
{
    let Ok(names) = names_of(alloc, zones.as_slice()) else {
        drop(zones);
        drop(calendar);
        return Err(ReadFault::NoMemory);
    };
    let Ok(object) = object_with(alloc, zones, &names, calendar) else {
        drop(names);
        return Err(ReadFault::NoMemory);
    };
    match check_object(alloc, octets, scan, &names, &object) {
        Ok(()) => Ok(object),
        Err(fault) => {
            drop(object);
            Err(fault)
        }
    }
}

/// The object that a tree of lines is, or what keeps it from being one.
fn object_of_tree(
    alloc: Global,
    octets: &[u8],
    scan: &Scan,
    calendar: Node,
) -> Result<Object, ReadFault>
    requires tree { IsTreeOf octets.now calendar }
    requires scan { IsTextScan octets.now scan.now }
    ensures ok { IfOk result (λ object. spec.read_tree every_moment (placed_lines octets.now) calendar ≡ Ok object) }
    ensures components { IfOk result (λ object. length object.components < 2 ^ 32) }
    ensures fault { IfErr result (IsFaultOf (spec.read_tree every_moment (placed_lines octets.now) calendar)) }
{
    match calendar_zones(alloc, octets, scan, &calendar) {
        Ok(zones) => match object_beside(alloc, octets, scan, calendar, zones) {
            Ok(object) => Ok(settled(object)),
            Err(fault) => Err(fault),
        },
        Err(fault) => Err(fault),
    }
}

/// The calendar object that octets are, or the first fault (RFC 5545, 3.4 to 3.6 and 3.8; RFC 4791,
/// 4.1), in the order of `ReadFault`. What is no calendar is looked for in this order: a line, the
/// nesting of components, the name of the outermost one, the first line whose value cannot stand, the
/// first time zone that cannot, and the first event, to-do, journal entry or free-busy time that
/// cannot.
///
/// Time and memory are in proportion to the octets, whatever they are, but for sorting and for the
/// moments that the rules of time zones give.
pub fn read_object(alloc: Global, octets: &[u8]) -> Result<Object, ReadFault>
    requires few { length octets.now < 2 ^ 32 }
    ensures ok { IfOk result (λ object. spec.read_object octets.now ≡ Ok object) }
    ensures components { IfOk result (λ object. length object.components < 2 ^ 32) }
    ensures fault { IfErr result (IsFaultOf (spec.read_object octets.now)) }
{
    match read_outline(alloc, octets) {
        Ok(Outline { scan, calendar }) => object_of_tree(alloc, octets, &scan, calendar),
        Err(fault) => Err(fault),
    }
}
