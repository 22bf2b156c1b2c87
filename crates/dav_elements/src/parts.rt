//! What is looked for in an element. Whatever else stands in it is passed over (RFC 4918, 17).
ghost use Rattle.std.specs.Prelude.{◌≡◌, ◌++◌, filter, flat_map, option_map, bytes_eq, IfOk, OnOk};
ghost use Rattle.std.specs.Option.{option_copied, option_to_list};
ghost use Rattle.cal_base.specs.Texts.Text.{raised_all};
ghost use Rattle.cal_model.specs.Words.Lists.{is_empty};
ghost use Rattle.cal_model.specs.Bodies.ElementParts as spec;
ghost use Rattle.dav_elements.specs.Texts.{text_there};

use cal_base::{Attr, Element, Item, Name, NoMemory, Octets, is_word};
use std::alloc::Global;

/// The namespace of WebDAV (RFC 4918, 21.1).
pub(crate) const DAV: &[u8] = b"DAV:";

/// The namespace of CalDAV (RFC 4791, 4).
pub(crate) const CALDAV: &[u8] = b"urn:ietf:params:xml:ns:caldav";

/// Whether an element has this namespace and this name.
pub(crate) fn has_name(element: &Element, space: &[u8], name: &[u8]) -> bool
    ensures { result ≡ spec.has_name space.now name.now element.now }
{
    element.space.as_slice() == space && element.name.as_slice() == name
}

/// The element that an item is, if it is one.
pub(crate) fn element_in(item: &Item) -> Option<&Element>
    ensures { option_to_list (option_copied result) ≡ spec.item_elements item.now }
{
    match item {
        Item::Element(element) => Some(element),
        Item::Text(_) => None,
    }
}

/// The element that an item is, if it is one of this name.
pub(crate) fn named<'a>(item: &'a Item, space: &[u8], name: &[u8]) -> Option<&'a Element>
    ensures { option_to_list (option_copied result) ≡ filter (spec.has_name space.now name.now) (spec.item_elements item.now) }
{
    match item {
        Item::Element(element) if has_name(element, space, name) => Some(element),
        _ => None,
    }
}

/// The first element of a name in an element.
pub(crate) fn first_named<'a>(
    element: &'a Element,
    space: &[u8],
    name: &[u8],
) -> Option<&'a Element>
    ensures { option_to_list (option_copied result) ≡ spec.first_named space.now name.now element.now }
{
    'items: for item in element.items.as_slice() {
        if let Some(found) = named(item, space, name) {
            return Some(found);
        }
    }
    None
}

/// The first element of this name in CalDAV's namespace.
pub(crate) fn only<'a>(element: &'a Element, name: &[u8]) -> Option<&'a Element>
    ensures { option_to_list (option_copied result) ≡ spec.only name.now element.now }
{
    first_named(element, CALDAV, name)
}

/// Whether there is an element of this name in CalDAV's namespace.
pub(crate) fn has(element: &Element, name: &[u8]) -> bool
    ensures { result ≡ spec.has name.now element.now }
{
    only(element, name).is_some()
}

/// Whether an element has no element in it.
pub(crate) fn is_childless(element: &Element) -> bool
    ensures { result ≡ is_empty (spec.children element.now) }
{
    'items: for item in element.items.as_slice() {
        if let Some(_child) = element_in(item) {
            return false;
        }
    }
    true
}

/// A copy of an element's own text, without that of the elements in it.
pub(crate) fn own_text(alloc: Global, element: &Element) -> Result<Octets, NoMemory>
    ensures { IfOk result (λ text. text ≡ spec.own_text element.now) }
{
    let mut text = Octets::new(alloc);
    push_texts(element.items.as_slice(), &mut text)?;
    Ok(text)
}

fn push_texts(items: &[Item], text: &mut Octets) -> Result<(), NoMemory>
    ensures { OnOk result (text.new ≡ text.old ++ flat_map spec.item_text items.now) }
{
    'items: for item in items {
        push_text(item, text)?;
    }
    Ok(())
}

fn push_text(item: &Item, text: &mut Octets) -> Result<(), NoMemory>
    ensures { OnOk result (text.new ≡ text.old ++ spec.item_text item.now) }
{
    match item {
        Item::Element(_) => Ok(()),
        Item::Text(piece) => text.extend_from_slice(piece.as_slice()),
    }
}

/// The value of an attribute in no namespace.
pub(crate) fn attribute<'a>(element: &'a Element, name: &[u8]) -> Option<&'a [u8]>
    ensures { option_map text_there result ≡ spec.attribute_of name.now element.now }
{
    'attrs: for attr in element.attrs.as_slice() {
        if is_attribute(attr, name) {
            return Some(attr.value.as_slice());
        }
    }
    None
}

fn is_attribute(attr: &Attr, name: &[u8]) -> bool
    ensures { result ≡ spec.is_attribute name.now attr.now }
{
    attr.space.is_empty() && attr.name.as_slice() == name
}

/// Whether an element lacks the attribute `name`.
pub(crate) fn lacks_name(element: &Element) -> bool
    ensures { result ≡ spec.lacks_name element.now }
{
    attribute(element, b"name").is_none()
}

/// The attribute `name` in upper case: the empty text, where it is absent.
pub(crate) fn name_of(alloc: Global, element: &Element) -> Result<Name, NoMemory>
    ensures { IfOk result (λ name. name ≡ spec.name_of element.now) }
{
    Name::of(alloc, name_text(element))
}

/// Whether the attribute `name` is this one, which is in upper case, without case.
pub(crate) fn is_named(element: &Element, name: &[u8]) -> bool
    ensures { result ≡ bytes_eq (spec.name_of element.now) name.now }
{
    is_word(name_text(element), name)
}

fn name_text(element: &Element) -> &[u8]
    ensures { raised_all result.now ≡ spec.name_of element.now }
{
    match attribute(element, b"name") {
        Some(text) => text,
        None => b"",
    }
}

/// Whether an attribute has this very value.
pub(crate) fn says(element: &Element, name: &[u8], value: &[u8]) -> bool
    ensures { result ≡ spec.says name.now value.now element.now }
{
    match attribute(element, name) {
        Some(other) => other == value,
        None => false,
    }
}

/// Whether an attribute has another value.
pub(crate) fn says_other(element: &Element, name: &[u8], value: &[u8]) -> bool
    ensures { result ≡ spec.says_other name.now value.now element.now }
{
    match attribute(element, name) {
        Some(other) => other != value,
        None => false,
    }
}
