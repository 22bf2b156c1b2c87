//! The elements that are open at a place.
ghost use Rattle.std.specs.Prelude.{◌≡◌, [], ◌++◌, ◌∷◌, map, IfOk};
ghost use Rattle.cal_base.specs.declared.element.Item.TheVariants.{Element as InnerElement};
ghost use Rattle.cal_base.specs.Xml.XmlScopes.{outer_scope, space_of};
ghost use Rattle.cal_base.specs.Xml.XmlBodies.{text_items};
ghost use Rattle.dav_body.specs.Reading.{whole, with_child, scope_of};
ghost use Rattle.dav_body.specs.OpenParts.{open_part};
ghost use Rattle.dav_body.specs.Tags.{declared_at};
ghost use Rattle.dav_body.specs.Texts.{text_there};

use crate::bindings::XML_SPACE;
use crate::scoped_tag::ScopedTag;
use cal_base::{Attr, Element, Item, List, NoMemory, Octets, Stack};
use std::alloc::Global;

/// An element whose end tag has not come, with what stands in it so far.
#[derive(Drop)]
pub struct OpenElement<'a> {
    /// Its tag, with what that declares.
    pub tag: ScopedTag<'a>,
    /// The namespace, empty for none.
    pub space: Octets,
    /// The local name.
    pub name: Octets,
    /// The attributes, declarations aside.
    pub attrs: List<Attr>,
    /// The content before the text.
    pub items: List<Item>,
    /// The text behind the items.
    pub text: Octets,
}

/// What the element at a depth, counted from the innermost, itself binds a prefix to.
fn declared_at<'s>(
    around: &'s Stack<OpenElement<'_>>,
    depth: usize,
    prefix: &[u8],
) -> Option<&'s [u8]>
    ensures { text_there result ≡ declared_at depth around.now prefix.now }
{
    match around.at(depth) {
        Some(one) => one.tag.space_of(prefix),
        None => None,
    }
}

/// What a prefix stands for in the elements that are open, the innermost first, and around them.
/// Elements are at most 32 deep, so this takes 33 look-ups at most.
#[tactic(auto, using(crate::proofs::Bound::bound_here, crate::proofs::Bound::bound_around, crate::proofs::Bound::bound_outside))]
pub fn bound<'s>(around: &'s Stack<OpenElement<'_>>, prefix: &[u8]) -> Option<&'s [u8]>
    ensures { text_there result ≡ space_of (scope_of (map open_part around.now)) prefix.now }
{
    let mut depth = 0;
    'open: while depth < around.len() {
        if let Some(space) = declared_at(around, depth, prefix) {
            return Some(space);
        }
        depth += 1;
    }
    outer_space(prefix)
}

/// What holds around the root: no default, and the prefix `xml`.
fn outer_space(prefix: &[u8]) -> Option<&'static [u8]>
    ensures { text_there result ≡ space_of outer_scope prefix.now }
{
    if prefix.is_empty() {
        Some(b"")
    } else if prefix == b"xml".as_slice() {
        Some(XML_SPACE)
    } else {
        None
    }
}

/// An element's items with the text behind them as one more, if it is not empty.
#[tactic(auto, using(crate::proofs::ItemsBehind::no_text, crate::proofs::ItemsBehind::some_text))]
fn with_text(mut items: List<Item>, text: Octets) -> Result<List<Item>, NoMemory>
    ensures { IfOk result (λ those. those ≡ items ++ text_items text) }
{
    if !text.is_empty() {
        items.push(Item::Text(text))?;
    }
    Ok(items)
}

/// The element whose end tag has come.
pub fn whole(inner: OpenElement<'_>) -> Result<Element, NoMemory>
    ensures { IfOk result (λ element. element ≡ whole (open_part inner.entry) []) }
{
    Ok(Element {
        space: inner.space,
        name: inner.name,
        attrs: inner.attrs,
        items: with_text(inner.items, inner.text)?,
    })
}

/// The items, the text behind them if it is not empty, and an element.
fn with_item(items: List<Item>, text: Octets, element: Element) -> Result<List<Item>, NoMemory>
    ensures { IfOk result (λ those. those ≡ items ++ text_items text ++ InnerElement element ∷ []) }
{
    let mut items = with_text(items, text)?;
    items.push(Item::Element(element))?;
    Ok(items)
}

/// An element with one more in it.
pub fn with_element<'a>(
    alloc: Global,
    outer: OpenElement<'a>,
    element: Element,
) -> Result<OpenElement<'a>, NoMemory>
    ensures { IfOk result (λ after. open_part after ≡ with_child (open_part outer.entry) element) }
{
    let items = with_item(outer.items, outer.text, element)?;
    Ok(OpenElement {
        tag: outer.tag,
        space: outer.space,
        name: outer.name,
        attrs: outer.attrs,
        items,
        text: Octets::new(alloc),
    })
}
