//! Tags as they are written (XML 1.0, 3.1).
ghost use Rattle.std.specs.Prelude.{◌≡◌, ◌≤◌, length, IfOk, option_map};
ghost use Rattle.std.specs.List.{prefix_len};
ghost use Rattle.cal_base.specs.Xml.XmlMarkup.{is_not_blank, opening, closing, tag_of, opening_of, closing_of};

use crate::attributes::{WrittenAttribute, attributes_of};
use crate::blanks::{is_blank, without_last_blanks};
use crate::ends::{ends, inside};
use crate::names::WrittenName;
use cal_base::{List, NoMemory};
use std::alloc::Global;
use std::marker::Model;

/// A start tag, or the tag of an empty element.
#[derive(Drop)]
pub struct Tag<'a> {
    name: WrittenName<'a>,
    attributes: List<WrittenAttribute<'a>>,
    is_empty: bool,
}

impl<'a> Model for Tag<'a> {
    ghost use Rattle.cal_base.specs.Xml.XmlMarkup.{Tag as WrittenTag};

    ghost Value = { WrittenTag };

    ghost view = { λ tag. record { name = tag.name; attributes = tag.attributes; is_empty = tag.is_empty } };
}

impl<'a> Tag<'a> {
    /// The name of the element.
    pub fn name(&self) -> &WrittenName<'a>
        ensures { result.now ≡ self.now.name }
    {
        &self.name
    }

    /// The attributes as they are written, declarations too.
    pub fn attributes(&self) -> &[WrittenAttribute<'a>]
        ensures { result.now ≡ self.now.attributes }
    {
        self.attributes.as_slice()
    }

    /// Whether the tag is that of an empty element.
    pub fn is_empty(&self) -> bool
        ensures { result ≡ self.now.is_empty }
    {
        self.is_empty
    }
}

/// How many octets stand before the first blank.
#[tactic(auto, using(crate::proofs::NameSizes::name_size_here, crate::proofs::NameSizes::name_size_step, crate::proofs::NameSizes::name_size_nil))]
pub fn size_to_blank(text: &[u8]) -> usize
    ensures size { result ≡ prefix_len is_not_blank text.now }
    ensures within { result ≤ length text.now }
{
    let mut rest = text;
    'octets: while let Some((octet, behind)) = rest.split_first() {
        if is_blank(*octet) {
            return text.len() - rest.len();
        }
        rest = behind;
    }
    text.len()
}

/// A tag of what stands between `<` and `>` or `/>`.
fn tag_of(alloc: Global, is_empty: bool, text: &[u8]) -> Result<Option<Tag<'_>>, NoMemory>
    ensures { IfOk result (λ tag. option_map opening tag ≡ tag_of is_empty text.now) }
{
    let size = size_to_blank(text);
    let Some(name) = WrittenName::of(&text[..size]) else {
        return Ok(None);
    };
    let Some(attributes) = attributes_of(alloc, &text[size..])? else {
        return Ok(None);
    };
    Ok(Some(Tag {
        name,
        attributes,
        is_empty,
    }))
}

/// The tag that a text is.
#[tactic(auto, using(crate::proofs::Shapes::opening_within))]
pub fn opening_of(alloc: Global, text: &[u8]) -> Result<Option<Tag<'_>>, NoMemory>
    ensures { IfOk result (λ tag. option_map opening tag ≡ opening_of text.now) }
{
    if ends(text, b"/>") {
        match inside(1, b"/>", text) {
            Some(text) => tag_of(alloc, true, text),
            None => Ok(None),
        }
    } else {
        match inside(1, b">", text) {
            Some(text) => tag_of(alloc, false, text),
            None => Ok(None),
        }
    }
}

/// The end tag that a text is: a name, and perhaps blanks.
#[tactic(auto, using(crate::proofs::Shapes::closing_within))]
pub fn closing_of(text: &[u8]) -> Option<WrittenName<'_>>
    ensures { option_map closing result ≡ closing_of text.now }
{
    match inside(2, b">", text) {
        Some(name) => WrittenName::of(without_last_blanks(name)),
        None => None,
    }
}
