//! Which components move all later instances (RFC 5545, 3.2.13): those whose RECURRENCE-ID says so and
//! whose DTSTART is there, of the kind of the object's ids.
ghost use Rattle.std.specs.Prelude.{◌≡◌, List, map};
ghost use Rattle.cal_model.specs.Objects.ObjectReading as spec;

use crate::component_fault::is_same_kind;
use crate::identifiers::ids_start;
use cal_base::List;
use cal_model::{Component, Object};
use cal_moment::Stamp;

/// Whether a start is there, of the kind of the ids.
fn is_like(ids: Option<Stamp>, start: Option<Stamp>) -> bool
    ensures { result ≡ spec.is_like ids start }
{
    match (ids, start) {
        (Some(ids), Some(start)) => is_same_kind(start, ids),
        _ => false,
    }
}

/// Components with what of them moves later instances, beside the stamp of the ids.
fn settle(components: List<Component>, ids: Option<Stamp>) -> List<Component>
    ensures { result ≡ map (spec.settled_component ids) components }
{
    let mut items = components.into_vec();
    for component in items.iter_mut() {
        component.future &= is_like(ids, component.start);
    }
    List::from_vec(items)
}

/// An object whose components say what their lines say, once it is settled.
pub(crate) fn settled(object: Object) -> Object
    ensures { result ≡ spec.settled object }
{
    let ids = ids_start(&object);
    let Object {
        kind,
        uid,
        tree,
        zones,
        components,
    } = object;
    Object {
        kind,
        uid,
        tree,
        zones,
        components: settle(components, ids),
    }
}
