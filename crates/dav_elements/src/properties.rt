//! The properties that are asked for (RFC 4918, 14.2, 14.18 and 14.20).
ghost use Rattle.std.specs.Prelude.{◌≡◌, map, filter, flat_map, IfOk};
ghost use Rattle.std.specs.Option.{option_copied, option_to_list};
ghost use Rattle.cal_model.specs.Bodies.ElementParts.{item_elements};
ghost use Rattle.cal_model.specs.Bodies.AskedProperties as spec;
ghost use Rattle.cal_model.specs.Bodies.PropertyBodies.{find_content};
ghost use Rattle.cal_model.specs.Bodies.ReportBodies.{asked_data};

use crate::parts::{CALDAV, DAV, element_in, first_named, has_name};
use crate::refusals::bad_request;
use cal_base::{Element, Item, List, NoMemory, Octets};
use cal_model::{Content, PropName, Props};
use std::alloc::Global;

/// The body of PROPFIND: a root without any of allprop, propname and prop asks for nothing.
pub fn read_find(alloc: Global, deep: bool, root: &Element) -> Result<Content, NoMemory>
    ensures { IfOk result (λ content. content ≡ find_content deep root.now) }
{
    if !has_name(root, DAV, b"propfind") || asked_props(root).is_none() {
        return Ok(bad_request());
    }
    let props = read_props(alloc, root)?;
    Ok(Content::Find(props, deep))
}

/// The first of allprop, propname and prop in an element.
pub(crate) fn asked_props(root: &Element) -> Option<&Element>
    ensures { option_to_list (option_copied result) ≡ spec.asked_props root.now }
{
    'items: for item in root.items.as_slice() {
        if let Some(asked) = props_in(item) {
            return Some(asked);
        }
    }
    None
}

/// The allprop, propname or prop that an item is, if it is one.
fn props_in(item: &Item) -> Option<&Element>
    ensures { option_to_list (option_copied result) ≡ filter spec.is_props (item_elements item.now) }
{
    match item {
        Item::Element(element) if is_props(element) => Some(element),
        _ => None,
    }
}

fn is_props(element: &Element) -> bool
    ensures { result ≡ spec.is_props element.now }
{
    has_name(element, DAV, b"allprop")
        || has_name(element, DAV, b"propname")
        || has_name(element, DAV, b"prop")
}

/// What an element says of the properties that are asked for.
pub(crate) fn read_props(alloc: Global, root: &Element) -> Result<Props, NoMemory>
    ensures { IfOk result (λ props. props ≡ spec.props_of root.now) }
{
    let Some(asked) = asked_props(root) else {
        return Ok(Props::None);
    };
    if has_name(asked, DAV, b"allprop") {
        Ok(Props::All)
    } else if has_name(asked, DAV, b"propname") {
        Ok(Props::Names)
    } else {
        Ok(Props::Some(read_names(alloc, asked.items.as_slice())?))
    }
}

/// The names of the elements among some items, in order.
fn read_names(alloc: Global, items: &[Item]) -> Result<List<PropName>, NoMemory>
    ensures { IfOk result (λ names. names ≡ map spec.property_name (flat_map item_elements items.now)) }
{
    let mut names = List::new(alloc);
    'items: for item in items {
        if let Some(element) = element_in(item) {
            names.push(property_name(alloc, element)?)?;
        }
    }
    Ok(names)
}

/// The name of the property that an element stands for.
pub(crate) fn property_name(alloc: Global, element: &Element) -> Result<PropName, NoMemory>
    ensures { IfOk result (λ name. name ≡ spec.property_name element.now) }
{
    let space = Octets::of(alloc, element.space.as_slice())?;
    let name = Octets::of(alloc, element.name.as_slice())?;
    Ok(PropName { space, name })
}

/// The first calendar-data among the properties that are named.
pub(crate) fn asked_data(root: &Element) -> Option<&Element>
    ensures { option_to_list (option_copied result) ≡ asked_data root.now }
{
    match asked_props(root) {
        Some(asked) if has_name(asked, DAV, b"prop") => {
            first_named(asked, CALDAV, b"calendar-data")
        }
        _ => None,
    }
}
