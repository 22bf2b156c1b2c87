//! What a calendar does not store (RFC 4791, 4.1).
ghost use Rattle.std.specs.Prelude.{◌≡◌, All, List, nat_lt, length, IfOk};
ghost use Rattle.cal_base.specs.Lines.ContentLines.{Placed};
ghost use Rattle.cal_model.specs.Objects.ComponentLines.{children_of};
ghost use Rattle.cal_model.specs.Objects.CalendarChildren.{children_in, kinds_among};
ghost use Rattle.cal_model.specs.Objects.ResourceFaults as faults;
ghost use Rattle.cal_model.specs.Objects.ZoneReading.{zone_names};
ghost use Rattle.cal_object.specs.Alignments.{tables_of};
ghost use Rattle.cal_object.specs.Identifiers.{HasReadId};
ghost use Rattle.cal_object.specs.KindNodes as spec;

use crate::identifiers::has_repeated_id;
use crate::kinds::{has_exrule, has_kind, has_mixed_kinds, has_mixed_uids, lacks_uid};
use crate::missing_zone::has_missing_zone;
use crate::named::has;
use cal_base::NoMemory;
use cal_model::{Component, LocalTimes, NotResource, Object};
use ical_values::ZoneNames;
use std::alloc::Global;

/// Whether two components have no RECURRENCE-ID.
fn has_two_masters(components: &[Component]) -> bool
    ensures { result ≡ nat_lt 1 (length (spec.masters_among components.now)) }
{
    let mut found = false;
    let mut rest = components;
    'components: while let Some((component, behind)) = rest.split_first() {
        if component.recurrence_id.is_none() {
            if found {
                return true;
            }
            found = true;
        }
        rest = behind;
    }
    false
}

/// The first row of the table that holds, of those that ask no memory.
fn plain_fault(object: &Object) -> Option<NotResource>
    ensures { result ≡ spec.row_that_holds (spec.plain_rows object.now (children_of object.now.tree)) }
{
    let nodes = object.tree.children.as_slice();
    if has(object.tree.lines.as_slice(), b"METHOD") {
        Some(NotResource::Method)
    } else if !has_kind(nodes) {
        Some(NotResource::NoComponent)
    } else if has_mixed_kinds(nodes) {
        Some(NotResource::MixedKinds)
    } else if lacks_uid(nodes) {
        Some(NotResource::NoUid)
    } else if has_mixed_uids(nodes) {
        Some(NotResource::MixedUids)
    } else if has_two_masters(object.components.as_slice()) {
        Some(NotResource::TwoMasters)
    } else {
        None
    }
}

/// The first of the other rows that holds.
fn other_fault(
    alloc: Global,
    zones: &[LocalTimes<'_>],
    names: &ZoneNames,
    object: &Object,
) -> Result<Option<NotResource>, NoMemory>
    requires zones { tables_of zones.now ≡ object.now.zones }
    requires names { names.now ≡ zone_names object.now.zones }
    requires ids { All HasReadId object.now.components }
    ensures { IfOk result (λ fault. fault ≡ spec.row_that_holds (spec.other_rows object.now (children_of object.now.tree))) }
{
    let nodes = object.tree.children.as_slice();
    if has_repeated_id(alloc, zones, object)? {
        Ok(Some(NotResource::SameRecurrenceId))
    } else if has_missing_zone(alloc, names, nodes)? {
        Ok(Some(NotResource::ZoneMissing))
    } else if has_exrule(nodes) {
        Ok(Some(NotResource::ExRule))
    } else {
        Ok(None)
    }
}

/// Why a calendar is not stored: the first row of the table of `NotResource` that holds. What stands
/// in components of other kinds does not count.
pub(crate) fn resource_fault(
    alloc: Global,
    zones: &[LocalTimes<'_>],
    names: &ZoneNames,
    object: &Object,
) -> Result<Option<NotResource>, NoMemory>
    requires zones { tables_of zones.now ≡ object.now.zones }
    requires names { names.now ≡ zone_names object.now.zones }
    requires ids { All HasReadId object.now.components }
    ensures { IfOk result (λ fault. (placed : List Placed) → fault ≡ faults.resource_fault object.now (kinds_among (children_in placed object.now.tree))) }
{
    match plain_fault(object) {
        Some(fault) => Ok(Some(fault)),
        None => other_fault(alloc, zones, names, object),
    }
}
