//! Properties that are set and removed (RFC 4918, 9.2 and 14.19 to 14.26; RFC 4791, 5.3.1).
ghost use Rattle.std.specs.Prelude.{◌≡◌, ◌++◌, ◌∷◌, [], map, filter, flat_map, codes, if◌then◌else◌, Some, None, IfOk, OnOk};
ghost use Rattle.std.specs.List.{list_any, join_with_byte};
ghost use Rattle.cal_base.specs.Texts.Octets.{comma};
ghost use Rattle.std.specs.Option.{option_copied, option_to_list};
ghost use Rattle.cal_model.specs.Bodies.ElementParts.{has_name, item_elements, lacks_name, name_of};
ghost use Rattle.cal_model.specs.Bodies.PropertyBodies as spec;
ghost use Rattle.cal_model.specs.Words.Namespaces.{caldav};

use crate::parts::{
    CALDAV, DAV, element_in, first_named, has_name, is_childless, lacks_name, name_of, named,
    own_text,
};
use crate::properties::property_name;
use crate::refusals::bad_request;
use cal_base::{Element, Item, List, NoMemory, Octets};
use cal_model::{Content, PropSet};
use std::alloc::Global;

/// The body of PROPPATCH: its sets and removes in order.
pub fn read_patch(alloc: Global, root: &Element) -> Result<Content, NoMemory>
    ensures { IfOk result (λ content. content ≡ spec.patch_content root.now) }
{
    if !has_name(root, DAV, b"propertyupdate") || are_bad(root.items.as_slice()) {
        return Ok(bad_request());
    }
    let settings = read_settings(alloc, root.items.as_slice())?;
    Ok(Content::Patch(settings))
}

/// The body of MKCALENDAR: its one set.
pub fn read_make(alloc: Global, root: &Element) -> Result<Content, NoMemory>
    ensures { IfOk result (λ content. content ≡ spec.make_content root.now) }
{
    if !has_name(root, CALDAV, b"mkcalendar") {
        return Ok(bad_request());
    }
    match first_named(root, DAV, b"set") {
        Some(instruction) if !is_bad(instruction) => {
            let mut settings = List::new(alloc);
            push_settings(alloc, instruction, &mut settings)?;
            Ok(Content::Make(settings))
        }
        _ => Ok(bad_request()),
    }
}

/// The set or the remove that an item is, if it is one.
fn instruction_in(item: &Item) -> Option<&Element>
    ensures { option_to_list (option_copied result) ≡ filter spec.is_instruction (item_elements item.now) }
{
    match item {
        Item::Element(element) if is_instruction(element) => Some(element),
        _ => None,
    }
}

fn is_instruction(element: &Element) -> bool
    ensures { result ≡ spec.is_instruction element.now }
{
    is_set(element) || has_name(element, DAV, b"remove")
}

fn is_set(element: &Element) -> bool
    ensures { result ≡ spec.is_set element.now }
{
    has_name(element, DAV, b"set")
}

/// Whether there is no set or remove among some items, or one of them is bad.
fn are_bad(items: &[Item]) -> bool
    ensures { result ≡ spec.are_bad (filter spec.is_instruction (flat_map item_elements items.now)) }
{
    let mut some = false;
    'items: for item in items {
        if let Some(instruction) = instruction_in(item) {
            if is_bad(instruction) {
                return true;
            }
            some = true;
        }
    }
    !some
}

/// Whether a set or a remove has no prop, or a set a component set with a component without a name.
fn is_bad(instruction: &Element) -> bool
    ensures { result ≡ spec.are_bad (instruction.now ∷ []) }
{
    match first_named(instruction, DAV, b"prop") {
        Some(prop) => is_set(instruction) && has_nameless(prop.items.as_slice()),
        None => true,
    }
}

/// Whether a component set among some items has a component without a name.
fn has_nameless(items: &[Item]) -> bool
    ensures { result ≡ list_any spec.has_nameless_component (flat_map item_elements items.now) }
{
    'items: for item in items {
        if let Some(property) = element_in(item) {
            if is_nameless_set(property) {
                return true;
            }
        }
    }
    false
}

/// Whether a property is a component set that has a component without a name.
fn is_nameless_set(property: &Element) -> bool
    ensures { result ≡ spec.has_nameless_component property.now }
{
    is_component_set(property) && has_nameless_component(property.items.as_slice())
}

fn is_component_set(property: &Element) -> bool
    ensures { result ≡ spec.is_component_set property.now }
{
    has_name(property, CALDAV, b"supported-calendar-component-set")
}

fn has_nameless_component(items: &[Item]) -> bool
    ensures { result ≡ list_any lacks_name (filter (has_name caldav (codes "comp")) (flat_map item_elements items.now)) }
{
    'items: for item in items {
        if let Some(component) = named(item, CALDAV, b"comp") {
            if lacks_name(component) {
                return true;
            }
        }
    }
    false
}

/// The settings of the sets and removes among some items.
fn read_settings(alloc: Global, items: &[Item]) -> Result<List<PropSet>, NoMemory>
    ensures { IfOk result (λ settings. settings ≡ flat_map spec.settings_of (filter spec.is_instruction (flat_map item_elements items.now))) }
{
    let mut settings = List::new(alloc);
    'items: for item in items {
        if let Some(instruction) = instruction_in(item) {
            push_settings(alloc, instruction, &mut settings)?;
        }
    }
    Ok(settings)
}

/// Appends the settings of a set or a remove.
fn push_settings(
    alloc: Global,
    instruction: &Element,
    settings: &mut List<PropSet>,
) -> Result<(), NoMemory>
    ensures { OnOk result (settings.new ≡ settings.old ++ spec.settings_of instruction.now) }
{
    match first_named(instruction, DAV, b"prop") {
        Some(prop) => push_each(alloc, is_set(instruction), prop.items.as_slice(), settings),
        None => Ok(()),
    }
}

/// Appends the settings of the properties among some items.
fn push_each(
    alloc: Global,
    sets: bool,
    items: &[Item],
    settings: &mut List<PropSet>,
) -> Result<(), NoMemory>
    ensures { OnOk result (settings.new ≡ settings.old ++ map (if sets then spec.setting else spec.removal) (flat_map item_elements items.now)) }
{
    'items: for item in items {
        if let Some(property) = element_in(item) {
            settings.push(read_setting(alloc, sets, property)?)?;
        }
    }
    Ok(())
}

fn read_setting(alloc: Global, sets: bool, property: &Element) -> Result<PropSet, NoMemory>
    ensures { IfOk result (λ setting. setting ≡ (if sets then spec.setting else spec.removal) property.now) }
{
    let name = property_name(alloc, property)?;
    let value = read_value_if(alloc, sets, property)?;
    Ok(PropSet { name, value })
}

fn read_value_if(alloc: Global, sets: bool, property: &Element) -> Result<Option<Octets>, NoMemory>
    ensures { IfOk result (λ value. value ≡ (if sets then Some (spec.set_value property.now) else None)) }
{
    if sets {
        Ok(Some(read_value(alloc, property)?))
    } else {
        Ok(None)
    }
}

/// The value that a property is set to.
fn read_value(alloc: Global, property: &Element) -> Result<Octets, NoMemory>
    ensures { IfOk result (λ value. value ≡ spec.set_value property.now) }
{
    if is_component_set(property) {
        read_component_names(alloc, property.items.as_slice())
    } else if is_childless(property) {
        own_text(alloc, property)
    } else {
        Octets::of(alloc, &[0])
    }
}

/// The names of the components among some items, in upper case and with commas between them.
fn read_component_names(alloc: Global, items: &[Item]) -> Result<Octets, NoMemory>
    ensures { IfOk result (λ names. names ≡ join_with_byte comma (map name_of (filter (has_name caldav (codes "comp")) (flat_map item_elements items.now)))) }
{
    let mut names = Octets::new(alloc);
    let mut first = true;
    'items: for item in items {
        if let Some(component) = named(item, CALDAV, b"comp") {
            push_name(alloc, first, component, &mut names)?;
            first = false;
        }
    }
    Ok(names)
}

/// Appends the name of a component, and a comma before it unless it is the first.
fn push_name(
    alloc: Global,
    first: bool,
    component: &Element,
    names: &mut Octets,
) -> Result<(), NoMemory>
    ensures { OnOk result (names.new ≡ names.old ++ ((if first then [] else comma ∷ []) ++ name_of component.now)) }
{
    if !first {
        names.push(b',')?;
    }
    let name = name_of(alloc, component)?;
    names.extend_from_slice(name.as_slice())
}
