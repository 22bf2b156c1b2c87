//! The starts of components (RFC 5545, 3.6.1 to 3.6.4).
ghost use Rattle.std.specs.Prelude.{◌≡◌, option_to_list};
ghost use Rattle.override_merge.specs.IdStarts.{master_stamps_of, master_stamps, id_stamps};
ghost use Rattle.cal_model.specs.Instances.Starts as spec;
ghost use Rattle.cal_model.specs.Instances.Rows as rows;

use cal_model::{Component, Extent, Kind, Object};
use cal_moment::Stamp;

/// DTSTART, or of a VTODO without it DUE.
pub fn start_or_due(component: &Component) -> Option<Stamp>
    ensures { result ≡ spec.start_or_due component.now.kind component.now.start component.now.extent }
{
    match (component.kind, component.start, component.extent) {
        (Kind::Todo, None, Extent::Due(due)) => Some(due),
        _ => component.start,
    }
}

/// The stamp from which a component starts: DTSTART, or of a VTODO without it DUE; of a VFREEBUSY
/// DTSTART where DTEND stands beside it. None where its row is Undated.
pub fn own_start(component: &Component) -> Option<Stamp>
    ensures { result ≡ spec.own_start component.now }
{
    match (component.kind, component.extent) {
        (Kind::FreeBusy, Extent::End(_)) => component.start,
        (Kind::FreeBusy, _) => None,
        _ => start_or_due(component),
    }
}

/// DTSTART, or of a VTODO without it DUE, of a component that is no override.
fn master_stamp(component: &Component) -> Option<Stamp>
    ensures { option_to_list result ≡ master_stamps_of component.now }
{
    match component.recurrence_id {
        Some(_) => None,
        None => start_or_due(component),
    }
}

/// The first such stamp of components.
fn first_master_stamp(components: &[Component]) -> Option<Stamp>
    ensures { result ≡ rows.first_of (master_stamps components.now) }
{
    let mut rest = components;
    'masters: while let Some((component, behind)) = rest.split_first() {
        if let Some(stamp) = master_stamp(component) {
            return Some(stamp);
        }
        rest = behind;
    }
    None
}

/// The first RECURRENCE-ID of components.
fn first_id(components: &[Component]) -> Option<Stamp>
    ensures { result ≡ rows.first_of (id_stamps components.now) }
{
    let mut rest = components;
    'overrides: while let Some((component, behind)) = rest.split_first() {
        if let Some(stamp) = component.recurrence_id {
            return Some(stamp);
        }
        rest = behind;
    }
    None
}

/// The stamp beside which the ids of an object are aligned: the master's DTSTART, or of a VTODO without
/// it DUE; where the master has neither, or there is none, the first RECURRENCE-ID.
pub fn ids_start(object: &Object) -> Option<Stamp>
    ensures { result ≡ rows.ids_start object.now }
{
    let components = object.components.as_slice();
    match first_master_stamp(components) {
        Some(stamp) => Some(stamp),
        None => first_id(components),
    }
}
