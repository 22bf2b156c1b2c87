//! Tags of elements as they are written.
ghost use Rattle.std.specs.Prelude.{◌≡◌, ◌++◌, OnOk};
ghost use Rattle.cal_base.specs.Xml.CanonicalXml.{written_attributes, written_attribute};
ghost use Rattle.dav_write.specs.ElementTexts.{tag_front, own_prefix, known_attribute, own_attribute};

use crate::names::{prefix_of, push_name, push_own_declaration, push_value};
use cal_base::{Attr, Element, NoMemory, Octets};
use itoa::Buffer;

/// Appends the tag that opens an element, without its end: its name, these declarations, that of its
/// own namespace and its attributes.
pub(crate) fn push_tag_front(
    element: &Element,
    declarations: &[u8],
    out: &mut Octets,
) -> Result<(), NoMemory>
    ensures { OnOk result (out.new ≡ out.old ++ tag_front declarations.now element.now.space element.now.name element.now.attrs) }
{
    out.push(b'<')?;
    push_name(element.space.as_slice(), element.name.as_slice(), out)?;
    out.extend_from_slice(declarations)?;
    push_own_declaration(element.space.as_slice(), out)?;
    push_attributes(element.attrs.as_slice(), out)
}

/// Appends the attributes of an element.
fn push_attributes(attrs: &[Attr], out: &mut Octets) -> Result<(), NoMemory>
    ensures { OnOk result (out.new ≡ out.old ++ written_attributes attrs.now) }
{
    'attributes: for (place, attr) in attrs.iter().enumerate() {
        push_attribute(place, attr, out)?;
    }
    Ok(())
}

/// Appends an attribute of its place, counted from 0; that place makes the prefix of a namespace
/// without one at the root.
fn push_attribute(place: usize, attr: &Attr, out: &mut Octets) -> Result<(), NoMemory>
    ensures { OnOk result (out.new ≡ out.old ++ written_attribute (place, attr.now)) }
{
    match prefix_of(attr.space.as_slice()) {
        Some(prefix) => push_known_attribute(prefix, attr, out),
        None => push_own_attribute(place, attr, out),
    }
}

fn push_known_attribute(prefix: &[u8], attr: &Attr, out: &mut Octets) -> Result<(), NoMemory>
    ensures { OnOk result (out.new ≡ out.old ++ known_attribute prefix.now attr.now) }
{
    out.push(b' ')?;
    out.extend_from_slice(prefix)?;
    out.extend_from_slice(attr.name.as_slice())?;
    push_value(attr.value.as_slice(), out)
}

fn push_own_attribute(place: usize, attr: &Attr, out: &mut Octets) -> Result<(), NoMemory>
    ensures { OnOk result (out.new ≡ out.old ++ own_attribute place attr.now) }
{
    out.extend_from_slice(b" xmlns:")?;
    push_own_prefix(place, out)?;
    push_value(attr.space.as_slice(), out)?;
    out.push(b' ')?;
    push_own_prefix(place, out)?;
    out.push(b':')?;
    out.extend_from_slice(attr.name.as_slice())?;
    push_value(attr.value.as_slice(), out)
}

#[tactic(auto, unfolding(crate::specs::ElementTexts::own_prefix))]
fn push_own_prefix(place: usize, out: &mut Octets) -> Result<(), NoMemory>
    ensures { OnOk result (out.new ≡ out.old ++ own_prefix place) }
{
    let mut digits = Buffer::new();
    out.push(b'y')?;
    out.extend_from_slice(digits.format(place).as_bytes())
}
