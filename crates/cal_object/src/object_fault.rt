//! What keeps a calendar from being an object.
ghost use Rattle.std.specs.Prelude.{◌≡◌, All, None, IfOk, IfErr};
ghost use Rattle.cal_base.specs.Lines.ContentLines.{line_fault, placed_lines};
ghost use Rattle.cal_model.specs.TimeZones.TableBounds.{IsTable};
ghost use Rattle.cal_model.specs.Objects.ComponentLines.{children_of};
ghost use Rattle.cal_model.specs.Objects.ObjectReading.{object_faults, first_there};
ghost use Rattle.cal_model.specs.Objects.ZoneReading.{zone_names};
ghost use Rattle.cal_object.specs.Alignments.{tables_of};
ghost use Rattle.cal_object.specs.Faults.{IsFound};
ghost use Rattle.cal_object.specs.Identifiers.{HasReadId};
ghost use Rattle.cal_object.specs.KindNodes.{components_from};
ghost use Rattle.cal_object.specs.Outlines.{IsTextScan};

use crate::contents::bad_component;
use crate::fault::ReadFault;
use crate::outline::at_child;
use crate::outside::stamp_outside;
use crate::resource_fault::resource_fault;
use crate::scan::Scan;
use cal_model::{LocalTimes, Object, local_times_of};
use ical_values::ZoneNames;
use std::alloc::Global;

/// The same with the zones at hand.
fn check_with(
    alloc: Global,
    octets: &[u8],
    scan: &Scan,
    zones: &[LocalTimes<'_>],
    names: &ZoneNames,
    object: &Object,
) -> Result<(), ReadFault>
    requires lines { line_fault octets.now ≡ None }
    requires scan { IsTextScan octets.now scan.now }
    requires zones { tables_of zones.now ≡ object.now.zones }
    requires names { names.now ≡ zone_names object.now.zones }
    requires ids { All HasReadId object.now.components }
    requires made { object.now.components ≡ components_from names.now 0 (children_of object.now.tree) }
    ensures good { IfOk result (λ _. first_there (object_faults (placed_lines octets.now) object.now.tree object.now) ≡ None) }
    ensures fault { IfErr result (IsFound (first_there (object_faults (placed_lines octets.now) object.now.tree object.now))) }
{
    let nodes = object.tree.children.as_slice();
    if let Some(number) = bad_component(zones, names, nodes, object.components.as_slice()) {
        return Err(at_child(octets, &scan.children, number));
    }
    if let Some(why) = resource_fault(alloc, zones, names, object)? {
        return Err(ReadFault::NotResource(why));
    }
    match stamp_outside(&scan.outside, names) {
        Some(stamp) => Err(ReadFault::DateOutside(object.kind, stamp)),
        None => Ok(()),
    }
}

/// Tells the first fault of an object: a component that cannot stand, then what is not stored, then a
/// date outside those that are served. It is given what the lines of its text say, and the names of
/// its zones.
pub(crate) fn check_object(
    alloc: Global,
    octets: &[u8],
    scan: &Scan,
    names: &ZoneNames,
    object: &Object,
) -> Result<(), ReadFault>
    requires lines { line_fault octets.now ≡ None }
    requires scan { IsTextScan octets.now scan.now }
    requires zones { All IsTable object.now.zones }
    requires names { names.now ≡ zone_names object.now.zones }
    requires ids { All HasReadId object.now.components }
    requires made { object.now.components ≡ components_from names.now 0 (children_of object.now.tree) }
    ensures good { IfOk result (λ _. first_there (object_faults (placed_lines octets.now) object.now.tree object.now) ≡ None) }
    ensures fault { IfErr result (IsFound (first_there (object_faults (placed_lines octets.now) object.now.tree object.now))) }
{
    let zones = local_times_of(alloc, object.zones.as_slice())?;
    check_with(alloc, octets, scan, zones.as_slice(), names, object)
}
