//! Elements as they are written.
ghost use Rattle.std.specs.Prelude.{◌≡◌, ◌++◌, ◌<◌, ◌↔◌, IfOk, OnOk, IsTrue, length, map, List, ℕ, ◌^◌};
ghost use Rattle.std.specs.List.{concat};
ghost use Rattle.cal_base.specs.Xml.CanonicalXml.{prefixes, written_element, written_body};
ghost use Rattle.cal_base.specs.Xml.XmlBodies.{IsBody};
ghost use Rattle.dav_write.specs.ElementTexts.{item_text};
ghost use Rattle.dav_write.specs.Readable.{IsSpellable};

use crate::names::{push_end, push_text};
use crate::tags::push_tag_front;
use cal_base::{Element, Item, NoMemory, Octets};
use std::alloc::Global;

/// What stands before the root.
const XML_DECLARATION: &[u8] = b"<?xml version=\"1.0\" encoding=\"utf-8\"?>\n";

/// The declarations of the root.
const PREFIXES: &[u8] = b" xmlns:D=\"DAV:\" xmlns:C=\"urn:ietf:params:xml:ns:caldav\"";

/// The one text of an element as a body (RFC 4918, 14; Namespaces in XML 1.0). Where the element can
/// stand in a body, this text is a body that spells it; so it is for each element that was read.
///
/// The octets are written once, in time in proportion to their number. An element within another
/// takes a frame of the stack; one that was read is at most 32 deep.
pub fn write_body(alloc: Global, element: &Element) -> Result<Octets, NoMemory>
    ensures text { IfOk result (λ octets. octets ≡ written_body element.now) }
    ensures read_back { IfOk result (λ octets. IsSpellable element.now → IsBody octets element.now) }
    ensures written_again { IfOk result (λ octets. (body : List ℕ) → length body < 2 ^ 64 → IsBody body element.now → IsBody octets element.now) }
{
    let mut out = Octets::new(alloc);
    out.extend_from_slice(XML_DECLARATION)?;
    push_root(element, &mut out)?;
    Ok(out)
}

#[tactic(auto, unfolding(cal_base::specs::Xml::CanonicalXml::attribute_text))]
fn push_root(element: &Element, out: &mut Octets) -> Result<(), NoMemory>
    ensures { OnOk result (out.new ≡ out.old ++ written_element element.now prefixes) }
{
    push_element(element, PREFIXES, out)
}

/// Appends an element with these declarations first in its tag.
#[cycle(elements)]
fn push_element(element: &Element, declarations: &[u8], out: &mut Octets) -> Result<(), NoMemory>
    ensures { OnOk result (out.new ≡ out.old ++ written_element element.now declarations.now) }
{
    push_tag_front(element, declarations, out)?;
    if !has_content(element.items.as_slice()) {
        return out.extend_from_slice(b"/>");
    }
    out.push(b'>')?;
    'items: for item in element.items.as_slice() {
        push_item(item, out)?;
    }
    push_end(element.space.as_slice(), element.name.as_slice(), out)
}

/// Appends an item of an element.
#[cycle(elements)]
fn push_item(item: &Item, out: &mut Octets) -> Result<(), NoMemory>
    ensures { OnOk result (out.new ≡ out.old ++ item_text item.now) }
{
    match item {
        Item::Element(element) => push_element(element, b"", out),
        Item::Text(text) => push_text(text.as_slice(), out),
    }
}

/// Whether something is written of some items.
fn has_content(items: &[Item]) -> bool
    ensures { IsTrue result ↔ (0 < length (concat (map item_text items.now))) }
{
    'items: for item in items {
        if is_written(item) {
            return true;
        }
    }
    false
}

fn is_written(item: &Item) -> bool
    ensures { IsTrue result ↔ (0 < length (item_text item.now)) }
{
    match item {
        Item::Element(_) => true,
        Item::Text(text) => !text.is_empty(),
    }
}
