//! What a tag names, and why it cannot stand (Namespaces in XML 1.0, 5 and 6).
ghost use Rattle.std.specs.Prelude.{◌≡◌, ◌++◌, ◌∷◌, false, [], map, option_map, unwrap_or, IfOk, OnOk};
ghost use Rattle.std.specs.List.{list_any};
ghost use Rattle.cal_base.specs.Xml.XmlScopes.{declarations, attribute_space, attribute_in, attributes_in, has_repeat, is_same_written, is_same_attribute, is_bad_binding, has_undeclared_prefix, space_of};
ghost use Rattle.dav_body.specs.Kept.{IsResolved};
ghost use Rattle.dav_body.specs.Reading.{opened};
ghost use Rattle.dav_body.specs.OpenParts.{open_part};
ghost use Rattle.dav_body.specs.Pairs.{pair_key, written_key, attribute_key};
ghost use Rattle.dav_body.specs.Tags.{scope_within, attrs_of, is_undeclared, any_undeclared, scoped_fault};
ghost use Rattle.dav_body.specs.Texts.{text_there};
ghost use Rattle.dav_body.specs.Faults.{why_told};

use crate::attributes::WrittenAttribute;
use crate::bindings::{declared, has_bad_binding, is_declaration};
use crate::fault::Why;
use crate::open_elements::{OpenElement, bound};
use crate::repeats::has_repeat;
use crate::room::take_room;
use crate::scoped_tag::ScopedTag;
use crate::tags::Tag;
use crate::values::value_octets;
use cal_base::{Attr, List, NoMemory, Octets, Stack};
use std::alloc::Global;

/// The greatest depth of an element, the root being at 1.
const GREATEST_DEPTH: usize = 32;

/// Two texts as one, so that no other two make the same: each octet of the first stands behind a 1,
/// and the second behind a 0.
#[tactic(auto, using(crate::proofs::PairKeys::key_step, crate::proofs::PairKeys::key_end))]
fn pair_key(alloc: Global, first: &[u8], second: &[u8]) -> Result<Octets, NoMemory>
    ensures { IfOk result (λ key. key ≡ pair_key first.now second.now) }
{
    let mut key = Octets::new(alloc);
    let mut rest = first;
    'octets: while let Some((octet, behind)) = rest.split_first() {
        key.push(1)?;
        key.push(*octet)?;
        rest = behind;
    }
    key.push(0)?;
    key.extend_from_slice(second)?;
    Ok(key)
}

/// Whether two attributes have the same name as it is written.
#[tactic(auto, using(crate::proofs::PairKeys::written_repeats))]
fn has_repeat_written(alloc: Global, attributes: &[WrittenAttribute<'_>]) -> Result<bool, NoMemory>
    ensures { IfOk result (λ repeats. repeats ≡ has_repeat is_same_written attributes.now) }
{
    let names = written_keys(alloc, attributes)?;
    has_repeat(alloc, names)
}

/// The name of an attribute as it is written, as one text.
fn written_key(alloc: Global, attribute: &WrittenAttribute<'_>) -> Result<Octets, NoMemory>
    ensures { IfOk result (λ key. key ≡ written_key attribute.now) }
{
    pair_key(alloc, attribute.name().prefix(), attribute.name().local())
}

/// The written names of attributes, each as one text.
fn written_keys(
    alloc: Global,
    attributes: &[WrittenAttribute<'_>],
) -> Result<List<Octets>, NoMemory>
    ensures { IfOk result (λ keys. keys ≡ map written_key attributes.now) }
{
    let mut keys = List::new(alloc);
    'attributes: for attribute in attributes {
        keys.push(written_key(alloc, attribute)?)?;
    }
    Ok(keys)
}

/// Whether two attributes have the same namespace and name.
#[tactic(auto, using(crate::proofs::PairKeys::named_repeats))]
fn has_repeat_named(alloc: Global, attrs: &[Attr]) -> Result<bool, NoMemory>
    ensures { IfOk result (λ repeats. repeats ≡ has_repeat is_same_attribute attrs.now) }
{
    let names = attribute_keys(alloc, attrs)?;
    has_repeat(alloc, names)
}

/// The namespaces and names of attributes, each as one text.
fn attribute_keys(alloc: Global, attrs: &[Attr]) -> Result<List<Octets>, NoMemory>
    ensures { IfOk result (λ keys. keys ≡ map attribute_key attrs.now) }
{
    let mut keys = List::new(alloc);
    'attrs: for attr in attrs {
        keys.push(pair_key(alloc, attr.name.as_slice(), attr.space.as_slice())?)?;
    }
    Ok(keys)
}

/// What a prefix stands for at a tag.
#[tactic(auto, using(crate::proofs::Bound::own_space, crate::proofs::Bound::outer_space_of))]
fn space_at<'s, 'x>(
    tag: &'s ScopedTag<'x>,
    around: &'s Stack<OpenElement<'x>>,
    prefix: &[u8],
) -> Option<&'s [u8]>
    ensures { text_there result ≡ space_of (scope_within tag.now around.now) prefix.now }
{
    match tag.space_of(prefix) {
        Some(space) => Some(space),
        None => bound(around, prefix),
    }
}

/// The namespace of an attribute: none without a prefix, whatever the default.
fn attribute_space<'s, 'x>(
    tag: &'s ScopedTag<'x>,
    around: &'s Stack<OpenElement<'x>>,
    attribute: &WrittenAttribute<'x>,
) -> Option<&'s [u8]>
    ensures { text_there result ≡ attribute_space (scope_within tag.now around.now) attribute.now.name }
{
    let prefix = attribute.name().prefix();
    if prefix.is_empty() {
        Some(b"")
    } else {
        space_at(tag, around, prefix)
    }
}

/// An attribute of a tag with its namespace, if its prefix is declared.
fn attribute_in<'x>(
    alloc: Global,
    room: &mut usize,
    tag: &ScopedTag<'x>,
    around: &Stack<OpenElement<'x>>,
    attribute: &WrittenAttribute<'x>,
) -> Result<Option<Attr>, NoMemory>
    ensures { IfOk result (λ attr. attr ≡ attribute_in (scope_within tag.now around.now) attribute.now) }
{
    match attribute_space(tag, around, attribute) {
        Some(space) => {
            take_room(room, space.len())?;
            Ok(Some(Attr {
                space: Octets::of(alloc, space)?,
                name: Octets::of(alloc, attribute.name().local())?,
                value: value_octets(alloc, attribute.value())?,
            }))
        }
        None => Ok(None),
    }
}

/// Puts an attribute behind others; a declaration, and one with an undeclared prefix, is left out.
#[tactic(auto, using(crate::proofs::Growing::attrs_declaration, crate::proofs::Growing::attrs_some, crate::proofs::Growing::attrs_none))]
fn push_attribute<'x>(
    alloc: Global,
    room: &mut usize,
    tag: &ScopedTag<'x>,
    around: &Stack<OpenElement<'x>>,
    attribute: &WrittenAttribute<'x>,
    attrs: &mut List<Attr>,
) -> Result<(), NoMemory>
    ensures { OnOk result (attrs.new ≡ attrs.old ++ attrs_of (scope_within tag.now around.now) (attribute.now ∷ [])) }
{
    if is_declaration(attribute.name()) {
        return Ok(());
    }
    match attribute_in(alloc, room, tag, around, attribute)? {
        Some(attr) => attrs.push(attr),
        None => Ok(()),
    }
}

/// The attributes of a tag but its declarations, those with an undeclared prefix left out.
#[tactic(auto, using(crate::proofs::Growing::attrs_step))]
fn attributes_in<'x>(
    alloc: Global,
    room: &mut usize,
    tag: &ScopedTag<'x>,
    around: &Stack<OpenElement<'x>>,
) -> Result<List<Attr>, NoMemory>
    ensures { IfOk result (λ attrs. attrs ≡ attributes_in (scope_within tag.now around.now) tag.now) }
{
    let mut attrs = List::new(alloc);
    let attributes = tag.tag().attributes();
    'attributes: for attribute in attributes {
        push_attribute(alloc, room, tag, around, attribute, &mut attrs)?;
    }
    Ok(attrs)
}

/// Whether an attribute is no declaration and has an undeclared prefix.
fn is_undeclared<'x>(
    tag: &ScopedTag<'x>,
    around: &Stack<OpenElement<'x>>,
    attribute: &WrittenAttribute<'x>,
) -> bool
    ensures { result ≡ is_undeclared (scope_within tag.now around.now) attribute.now }
{
    !is_declaration(attribute.name()) && attribute_space(tag, around, attribute).is_none()
}

/// Whether one of some attributes has an undeclared prefix.
#[tactic(auto, using(crate::proofs::Growing::undeclared_here, crate::proofs::Growing::undeclared_later))]
fn any_undeclared<'x>(
    tag: &ScopedTag<'x>,
    around: &Stack<OpenElement<'x>>,
    attributes: &[WrittenAttribute<'x>],
) -> bool
    ensures { result ≡ any_undeclared (scope_within tag.now around.now) attributes.now }
{
    'attributes: for attribute in attributes {
        if is_undeclared(tag, around, attribute) {
            return true;
        }
    }
    false
}

/// Whether a tag or one of its attributes has an undeclared prefix.
fn has_undeclared_prefix<'x>(tag: &ScopedTag<'x>, around: &Stack<OpenElement<'x>>) -> bool
    ensures { result ≡ has_undeclared_prefix (scope_within tag.now around.now) tag.now }
{
    space_at(tag, around, tag.tag().name().prefix()).is_none()
        || any_undeclared(tag, around, tag.tag().attributes())
}

/// A tag that can stand, as an element without content, or why it cannot.
#[derive(Drop)]
pub enum Resolved<'a> {
    /// Why it cannot stand.
    Fault(Why),
    /// The element.
    Open(OpenElement<'a>),
}

/// Why a tag cannot stand whose declarations and written names are good.
fn scoped_fault<'x>(
    alloc: Global,
    tag: &ScopedTag<'x>,
    around: &Stack<OpenElement<'x>>,
    attrs: &[Attr],
) -> Result<Option<Why>, NoMemory>
    ensures { IfOk result (λ why. option_map why_told why ≡ scoped_fault around.now tag.now attrs.now) }
{
    if has_repeat_named(alloc, attrs)? {
        Ok(Some(Why::Syntax))
    } else if has_undeclared_prefix(tag, around) {
        Ok(Some(Why::Prefix))
    } else if around.len() >= GREATEST_DEPTH {
        Ok(Some(Why::TooDeep))
    } else {
        Ok(None)
    }
}

/// The namespace of a tag's element.
fn element_space<'x>(
    alloc: Global,
    room: &mut usize,
    tag: &ScopedTag<'x>,
    around: &Stack<OpenElement<'x>>,
) -> Result<Octets, NoMemory>
    ensures { IfOk result (λ space. space ≡ unwrap_or (space_of (scope_within tag.now around.now) tag.now.name.prefix) []) }
{
    match space_at(tag, around, tag.tag().name().prefix()) {
        Some(space) => {
            take_room(room, space.len())?;
            Octets::of(alloc, space)
        }
        None => Ok(Octets::new(alloc)),
    }
}

/// The namespace and the local name of a tag's element.
fn element_name<'x>(
    alloc: Global,
    room: &mut usize,
    tag: &ScopedTag<'x>,
    around: &Stack<OpenElement<'x>>,
) -> Result<(Octets, Octets), NoMemory>
    ensures space { IfOk result (λ name. name.0 ≡ unwrap_or (space_of (scope_within tag.now around.now) tag.now.name.prefix) []) }
    ensures local { IfOk result (λ name. name.1 ≡ tag.now.name.local) }
{
    let space = element_space(alloc, room, tag, around)?;
    let local = Octets::of(alloc, tag.tag().name().local())?;
    Ok((space, local))
}

/// The element of a tag that can stand, with its attributes and without content.
fn open_element<'a>(
    alloc: Global,
    room: &mut usize,
    tag: ScopedTag<'a>,
    around: &Stack<OpenElement<'a>>,
    attrs: List<Attr>,
) -> Result<OpenElement<'a>, NoMemory>
    requires { attrs ≡ attributes_in (scope_within tag around.now) tag }
    ensures { IfOk result (λ open_one. open_part open_one ≡ opened tag.entry (map open_part around.now)) }
{
    match element_name(alloc, room, &tag, around) {
        Err(error) => {
            drop(tag);
            drop(attrs);
            Err(error)
        }
        Ok((space, name)) => Ok(OpenElement {
            tag,
            space,
            name,
            attrs,
            items: List::new(alloc),
            text: Octets::new(alloc),
        }),
    }
}

/// A tag whose declarations and written names are good.
#[tactic(auto, using(crate::proofs::TagFaults::resolved_fault, crate::proofs::TagFaults::resolved_open))]
fn resolve_scoped<'a>(
    alloc: Global,
    room: &mut usize,
    tag: ScopedTag<'a>,
    around: &Stack<OpenElement<'a>>,
) -> Result<Resolved<'a>, NoMemory>
    requires names { has_repeat is_same_written tag.attributes ≡ false }
    requires bindings { list_any is_bad_binding (declarations tag) ≡ false }
    ensures { IfOk result (λ found. IsResolved around.now tag.entry found) }
{
    let attrs = attributes_in(alloc, room, &tag, around)?;
    match scoped_fault(alloc, &tag, around, attrs.as_slice()) {
        Err(error) => {
            drop(tag);
            drop(attrs);
            Err(error)
        }
        Ok(Some(why)) => {
            drop(tag);
            drop(attrs);
            Ok(Resolved::Fault(why))
        }
        Ok(None) => Ok(Resolved::Open(open_element(alloc, room, tag, around, attrs)?)),
    }
}

/// A tag within these elements: the element that it opens, or why it cannot stand.
#[tactic(auto, using(crate::proofs::TagFaults::bad_bindings, crate::proofs::TagFaults::bad_names))]
pub fn resolve_tag<'a>(
    alloc: Global,
    room: &mut usize,
    tag: Tag<'a>,
    around: &Stack<OpenElement<'a>>,
) -> Result<Resolved<'a>, NoMemory>
    ensures { IfOk result (λ found. IsResolved around.now tag.entry found) }
{
    let bindings = declared(alloc, tag.attributes())?;
    if has_bad_binding(bindings.as_slice()) || has_repeat_written(alloc, tag.attributes())? {
        Ok(Resolved::Fault(Why::Syntax))
    } else {
        let scoped = ScopedTag::of(alloc, tag, bindings)?;
        resolve_scoped(alloc, room, scoped, around)
    }
}
