//! The components and properties that calendar-data picks (RFC 4791, 9.6.1 to 9.6.4).
ghost use Rattle.std.specs.Prelude.{◌≡◌, map, filter, flat_map, codes, IfOk};
ghost use Rattle.std.specs.List.{list_any};
ghost use Rattle.cal_model.specs.Bodies.ElementParts.{has_name, item_elements, lacks_name};
ghost use Rattle.cal_model.specs.Bodies.DataElements as spec;
ghost use Rattle.cal_model.specs.Words.Namespaces.{caldav};
ghost use Rattle.dav_elements.specs.NamelessPicks.{is_nameless_to};

use crate::filters::GREATEST_DEPTH;
use crate::parts::{CALDAV, has, lacks_name, name_of, named, says};
use cal_base::{Element, Item, List, Name, NoMemory};
use cal_model::{CompPick, PropPick};
use std::alloc::Global;

/// A component that is kept, and what of it.
pub(crate) fn read_comp_pick(alloc: Global, element: &Element) -> Result<CompPick, NoMemory>
    ensures { IfOk result (λ pick. pick ≡ spec.comp_pick element.now) }
{
    read_comp_pick_to(alloc, element, GREATEST_DEPTH)
}

#[cycle(comp_picks)]
fn read_comp_pick_to(alloc: Global, element: &Element, depth: u32) -> Result<CompPick, NoMemory>
    ensures { IfOk result (λ pick. pick ≡ spec.comp_pick_to depth element.now) }
{
    if depth == 0 {
        return no_comp_pick(alloc);
    }
    let name = name_of(alloc, element)?;
    let props = read_prop_picks(alloc, element.items.as_slice())?;
    let comps = read_comp_picks(alloc, element.items.as_slice(), depth - 1)?;
    Ok(CompPick {
        name,
        all_props: has(element, b"allprop"),
        props,
        all_comps: has(element, b"allcomp"),
        comps,
    })
}

#[cycle(comp_picks)]
fn read_comp_picks(alloc: Global, items: &[Item], depth: u32) -> Result<List<CompPick>, NoMemory>
    ensures { IfOk result (λ picks. picks ≡ map (spec.comp_pick_to depth) (filter (has_name caldav (codes "comp")) (flat_map item_elements items.now))) }
{
    let mut picks = List::new(alloc);
    'items: for item in items {
        if let Some(element) = named(item, CALDAV, b"comp") {
            picks.push(read_comp_pick_to(alloc, element, depth)?)?;
        }
    }
    Ok(picks)
}

/// What stands for a pick below the greatest depth, where none is.
fn no_comp_pick(alloc: Global) -> Result<CompPick, NoMemory>
    ensures { IfOk result (λ pick. (element : Element) → pick ≡ spec.comp_pick_to 0 element) }
{
    let name = Name::of(alloc, b"")?;
    Ok(CompPick {
        name,
        all_props: false,
        props: List::new(alloc),
        all_comps: false,
        comps: List::new(alloc),
    })
}

fn read_prop_picks(alloc: Global, items: &[Item]) -> Result<List<PropPick>, NoMemory>
    ensures { IfOk result (λ picks. picks ≡ map spec.prop_pick (filter (has_name caldav (codes "prop")) (flat_map item_elements items.now))) }
{
    let mut picks = List::new(alloc);
    'items: for item in items {
        if let Some(element) = named(item, CALDAV, b"prop") {
            picks.push(read_prop_pick(alloc, element)?)?;
        }
    }
    Ok(picks)
}

/// A property that is kept, perhaps without its value.
fn read_prop_pick(alloc: Global, element: &Element) -> Result<PropPick, NoMemory>
    ensures { IfOk result (λ pick. pick ≡ spec.prop_pick element.now) }
{
    let name = name_of(alloc, element)?;
    Ok(PropPick {
        name,
        no_value: says(element, b"novalue", b"yes"),
    })
}

/// Whether a component, or one or a property within it, has no name.
pub(crate) fn is_nameless(element: &Element) -> bool
    ensures { result ≡ is_nameless_to 32 element.now }
{
    is_nameless_to(element, GREATEST_DEPTH)
}

#[cycle(nameless)]
fn is_nameless_to(element: &Element, depth: u32) -> bool
    ensures { result ≡ is_nameless_to depth element.now }
{
    depth != 0
        && (lacks_name(element)
            || has_nameless_prop(element.items.as_slice())
            || has_nameless_comp(element.items.as_slice(), depth - 1))
}

#[cycle(nameless)]
fn has_nameless_comp(items: &[Item], depth: u32) -> bool
    ensures { result ≡ list_any (is_nameless_to depth) (filter (has_name caldav (codes "comp")) (flat_map item_elements items.now)) }
{
    'items: for item in items {
        if let Some(element) = named(item, CALDAV, b"comp") {
            if is_nameless_to(element, depth) {
                return true;
            }
        }
    }
    false
}

fn has_nameless_prop(items: &[Item]) -> bool
    ensures { result ≡ list_any lacks_name (filter (has_name caldav (codes "prop")) (flat_map item_elements items.now)) }
{
    'items: for item in items {
        if let Some(element) = named(item, CALDAV, b"prop") {
            if lacks_name(element) {
                return true;
            }
        }
    }
    false
}
