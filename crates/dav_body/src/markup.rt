//! What a markup is by itself (XML 1.0, 2.4 to 2.7, 3.1 and 4.1).
ghost use Rattle.std.specs.Prelude.{◌≡◌, ◌<◌, ℕ, List, map, length, option_map, is_some, IfOk, ◌++◌, if◌then◌else◌};
ghost use Rattle.std.specs.Borrow.{Bor};
ghost use Rattle.cal_base.specs.Xml.XmlMarkup.{skipped, comment_of, section_of, instruction_of, is_target, markup_of, is_one_markup, can_go_on};
ghost use Rattle.dav_body.specs.Texts.{text_there};
ghost use Rattle.dav_body.specs.Endings.{any_ends};
ghost use Rattle.dav_body.specs.Shown.{shown, reference_name};

use crate::characters::{is_plain_name, is_xml_text};
use crate::cut::markup_size;
use crate::ends::{begins, holds, inside};
use crate::names::WrittenName;
use crate::references::reference_of;
use crate::tags::{Tag, closing_of, opening_of, size_to_blank};
use cal_base::{Name, NoMemory, Octets};
use std::alloc::Global;

#[derive(Drop)]
pub enum Markup<'a> {
    /// A start tag, or the tag of an empty element.
    Opening(Tag<'a>),
    /// An end tag.
    Closing(WrittenName<'a>),
    /// A character of text, or CR LF.
    Character(&'a [u8]),
    /// A CDATA section, by what it holds.
    Section(&'a [u8]),
    /// A reference, by what stands between `&` and `;`.
    Reference(&'a [u8]),
    /// A comment or a processing instruction.
    Skipped,
}

/// What stands between `&` and `;`, where a markup is a reference.
pub fn reference_name<'a>(markup: Markup<'a>) -> Option<&'a [u8]>
    ensures { text_there result ≡ reference_name (shown markup.entry) }
{
    match markup {
        Markup::Reference(name) => Some(name),
        Markup::Opening(_) => None,
        Markup::Closing(_) => None,
        Markup::Character(_) => None,
        Markup::Section(_) => None,
        Markup::Skipped => None,
    }
}

/// Whether a text is a comment: no `--` stands in it, nor a `-` before its end.
#[tactic(auto, using(crate::proofs::Comments::comment_is, crate::proofs::Comments::comment_none))]
fn is_comment(text: &[u8]) -> bool
    ensures { result ≡ is_some (comment_of text.now) }
{
    match inside(4, b"-->", text) {
        // The comment and the first octet of its end: so a `-` before the end shows as `--`.
        Some(_) => !holds(b"--", &text[4..text.len() - 2]),
        None => false,
    }
}

/// Whether a text is a target: a name, and not `xml` in any case.
fn is_target(alloc: Global, target: &[u8]) -> Result<bool, NoMemory>
    ensures { IfOk result (λ is. is ≡ is_target target.now) }
{
    Ok(is_plain_name(target) && Name::of(alloc, target)?.as_slice() != b"XML".as_slice())
}

/// Whether a text is an instruction: a target, and nothing or a blank and more behind it.
fn is_instruction(alloc: Global, text: &[u8]) -> Result<bool, NoMemory>
    ensures { IfOk result (λ is. is ≡ is_some (instruction_of text.now)) }
{
    match inside(2, b"?>", text) {
        Some(instruction) => is_target(alloc, &instruction[..size_to_blank(instruction)]),
        None => Ok(false),
    }
}

fn skipped_if<'a>(is: bool) -> Option<Markup<'a>>
    ensures { option_map shown result ≡ (if is then Some skipped else None) }
{
    if is { Some(Markup::Skipped) } else { None }
}

/// The markup that a text is by itself.
pub fn markup_of(alloc: Global, text: &[u8]) -> Result<Option<Markup<'_>>, NoMemory>
    ensures { IfOk result (λ markup. option_map shown markup ≡ markup_of text.now) }
{
    if !is_xml_text(text) {
        Ok(None)
    } else if begins(text, b"<!--") {
        Ok(skipped_if(is_comment(text)))
    } else if begins(text, b"<![CDATA[") {
        Ok(inside(9, b"]]>", text).map(|text| Markup::Section(text)))
    } else if begins(text, b"<?") {
        Ok(skipped_if(is_instruction(alloc, text)?))
    } else if begins(text, b"</") {
        Ok(closing_of(text).map(|name| Markup::Closing(name)))
    } else if begins(text, b"<") {
        Ok(opening_of(alloc, text)?.map(|tag| Markup::Opening(tag)))
    } else if begins(text, b"&") {
        Ok(reference_of(text).map(|name| Markup::Reference(name)))
    } else if begins(text, b"]]>") {
        Ok(None)
    } else {
        Ok(Some(Markup::Character(text)))
    }
}

/// Whether the whole text is one markup.
fn is_one_markup(alloc: Global, text: &[u8]) -> Result<bool, NoMemory>
    requires { 0 < length text.now }
    ensures { IfOk result (λ is. is ≡ is_one_markup text.now) }
{
    Ok(markup_size(text) == text.len() && markup_of(alloc, text)?.is_some())
}

/// For each place in a markup at which it can be cut, one text that ends it.
const ENDINGS: [&[u8]; 25] = [
    b"!---->",
    b"---->",
    b"--->",
    b"-->",
    b"->",
    b">",
    b"[CDATA[]]>",
    b"CDATA[]]>",
    b"DATA[]]>",
    b"ATA[]]>",
    b"TA[]]>",
    b"A[]]>",
    b"[]]>",
    b"]]>",
    b"a?>",
    b"?>",
    b"a>",
    b"a=\"\">",
    b"=\"\">",
    b"\"\">",
    b"\">",
    b"'>",
    b"a;",
    b"0;",
    b";",
];

/// Whether a text with an ending behind it is one markup.
fn is_ended(alloc: Global, text: &[u8], ending: &[u8]) -> Result<bool, NoMemory>
    requires { 0 < length text.now }
    ensures { IfOk result (λ is. is ≡ is_one_markup (text.now ++ ending.now)) }
{
    let mut longer = Octets::of(alloc, text)?;
    longer.extend_from_slice(ending)?;
    is_one_markup(alloc, longer.as_slice())
}

/// Whether a text with one of these endings behind it is one markup.
#[tactic(auto, using(crate::proofs::EndingSteps::ended_here, crate::proofs::EndingSteps::ended_later))]
fn is_ended_by_any(alloc: Global, text: &[u8], endings: &[&[u8]]) -> Result<bool, NoMemory>
    requires { 0 < length text.now }
    ensures { IfOk result (λ is. is ≡ any_ends text.now (map (λ (ending : Bor (List ℕ)). ending.now) endings.now)) }
{
    'endings: for ending in endings {
        if is_ended(alloc, text, ending)? {
            return Ok(true);
        }
    }
    Ok(false)
}

/// Whether a text behind a markup would make it whole. It is asked where a text is no markup, which
/// ends the reading.
pub fn can_go_on(alloc: Global, text: &[u8]) -> Result<bool, NoMemory>
    requires { 0 < length text.now }
    ensures { IfOk result (λ can. can ≡ can_go_on text.now) }
{
    is_ended_by_any(alloc, text, &ENDINGS)
}
