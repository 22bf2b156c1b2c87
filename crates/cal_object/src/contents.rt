//! The object that a calendar is, faults aside, and its components that cannot stand.
ghost use Rattle.std.specs.Prelude.{◌≡◌, ◌<◌, ◌^◌, ◌++◌, [], length, unwrap_or, IfOk, OnOk};
ghost use Rattle.cal_base.specs.Lines.ComponentTrees.{first};
ghost use Rattle.cal_model.specs.Objects.ComponentLines.{children_of};
ghost use Rattle.cal_model.specs.Objects.ZoneReading.{zone_names};
ghost use Rattle.cal_object.specs.Alignments.{tables_of};
ghost use Rattle.cal_object.specs.KindNodes as spec;

use crate::component::read_component;
use crate::component_fault::has_component_fault;
use crate::kinds::{first_uid, is_kind};
use crate::named::kind_of;
use cal_base::{List, NoMemory, Node, Octets};
use cal_model::{Component, Kind, LocalTimes, Object, ZoneTable};
use ical_values::ZoneNames;
use std::alloc::Global;

/// Puts the component that the child of a number is, if it is of the four kinds, behind others.
fn put_component(
    alloc: Global,
    names: &ZoneNames,
    number: u32,
    node: &Node,
    components: &mut List<Component>,
) -> Result<(), NoMemory>
    ensures { OnOk result (components.new ≡ components.old ++ spec.component_at names.now number node.now) }
{
    match kind_of(node) {
        Some(kind) => components.push(read_component(alloc, names, number, kind, node)?),
        None => Ok(()),
    }
}

/// The components of the four kinds among those of a calendar, in order.
fn components_of(
    alloc: Global,
    names: &ZoneNames,
    nodes: &[Node],
) -> Result<List<Component>, NoMemory>
    requires { length nodes.now < 2 ^ 32 }
    ensures { IfOk result (λ components. components ≡ spec.components_from names.now 0 nodes.now) }
{
    let mut components = List::new(alloc);
    let mut number = 0u32;
    let mut rest = nodes;
    'nodes: while let Some((node, behind)) = rest.split_first() {
        put_component(alloc, names, number, node, &mut components)?;
        number += 1;
        rest = behind;
    }
    Ok(components)
}

/// The kind of the first component; where there is none it says nothing.
fn first_kind(components: &[Component]) -> Kind
    ensures { result ≡ spec.first_kind components.now }
{
    match components.first() {
        Some(component) => component.kind,
        None => Kind::Event,
    }
}

/// The first UID of the components of the four kinds; where there is none it is empty.
fn uid_among(alloc: Global, nodes: &[Node]) -> Result<Octets, NoMemory>
    ensures { IfOk result (λ uid. uid ≡ unwrap_or (first (spec.uids_of nodes.now)) []) }
{
    match first_uid(nodes) {
        Some(uid) => Octets::of(alloc, uid),
        None => Ok(Octets::new(alloc)),
    }
}

/// The components of a calendar, and its UID.
fn contents_of(
    alloc: Global,
    names: &ZoneNames,
    nodes: &[Node],
) -> Result<(List<Component>, Octets), NoMemory>
    requires { length nodes.now < 2 ^ 32 }
    ensures components { IfOk result (λ contents. contents.0 ≡ spec.components_from names.now 0 nodes.now) }
    ensures uid { IfOk result (λ contents. contents.1 ≡ unwrap_or (first (spec.uids_of nodes.now)) []) }
{
    let uid = uid_among(alloc, nodes)?;
    match components_of(alloc, names, nodes) {
        Ok(components) => Ok((components, uid)),
        Err(NoMemory) => Err(NoMemory),
    }
}

/// The object that a calendar is beside its zones, faults aside.
pub(crate) fn object_with(
    alloc: Global,
    zones: List<ZoneTable>,
    names: &ZoneNames,
    calendar: Node,
) -> Result<Object, NoMemory>
    requires names { names.now ≡ zone_names zones }
    requires few { length (children_of calendar) < 2 ^ 32 }
    ensures { IfOk result (λ object. object ≡ spec.object_with zones calendar) }
{
    match contents_of(alloc, names, calendar.children.as_slice()) {
        Ok((components, uid)) => Ok(Object {
            kind: first_kind(components.as_slice()),
            uid,
            tree: calendar,
            zones,
            components,
        }),
        Err(NoMemory) => Err(NoMemory),
    }
}

/// The first component of the four kinds that cannot stand, by its number among the components of the
/// calendar, from 0. It is given these, and what those of the four kinds among them were read as.
pub(crate) fn bad_component(
    zones: &[LocalTimes<'_>],
    names: &ZoneNames,
    nodes: &[Node],
    components: &[Component],
) -> Option<usize>
    requires names { names.now ≡ zone_names (tables_of zones.now) }
    requires made { components.now ≡ spec.components_from names.now 0 nodes.now }
    ensures { result ≡ spec.first_bad_component (tables_of zones.now) 0 nodes.now }
{
    let mut number = 0usize;
    let mut rest = nodes;
    let mut left = components;
    'nodes: while let Some((node, behind)) = rest.split_first() {
        if is_kind(node)
            && let Some((component, others)) = left.split_first()
        {
            if has_component_fault(zones, names, component, node) {
                return Some(number);
            }
            left = others;
        }
        number += 1;
        rest = behind;
    }
    None
}
