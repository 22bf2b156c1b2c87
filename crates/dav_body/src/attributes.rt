//! Attributes as they are written (XML 1.0, 3.1).
ghost use Rattle.std.specs.Prelude.{◌≡◌, IfOk, Option, None};
ghost use Rattle.cal_base.specs.Xml.XmlMarkup.{attribute_name, attribute_of, attributes_of, quoted_pieces};
ghost use Rattle.dav_body.specs.Quotes.{AreQuoted, LeavesLess};

use crate::blanks::{are_blanks, begins_with_blank, without_first_blanks, without_last_blanks};
use crate::ends::{ends, holds};
use crate::names::WrittenName;
use crate::splits::{split_at_octet, split_at_quote};
use cal_base::{List, NoMemory};
use std::alloc::Global;
use std::marker::Model;

/// An attribute, with its value as it stands between the quotes.
#[derive(Drop)]
pub struct WrittenAttribute<'a> {
    name: WrittenName<'a>,
    value: &'a [u8],
}

impl<'a> Model for WrittenAttribute<'a> {
    ghost use Rattle.cal_base.specs.Xml.XmlMarkup.{WrittenAttribute as Attribute};

    ghost Value = { Attribute };

    ghost view = { λ attribute. record { name = attribute.name; value = attribute.value.now } };
}

impl<'a> WrittenAttribute<'a> {
    /// The name, which may be that of a declaration.
    pub fn name(&self) -> &WrittenName<'a>
        ensures { result.now ≡ self.now.name }
    {
        &self.name
    }

    /// The value as it stands between the quotes.
    pub fn value(&self) -> &'a [u8]
        ensures { result.now ≡ self.now.value }
    {
        self.value
    }
}

/// The name of an attribute, of what stands before its value: blanks, the name, and `=`, with or
/// without blanks around it.
fn attribute_name(text: &[u8]) -> Option<WrittenName<'_>>
    ensures { result ≡ attribute_name text.now }
{
    let front = without_last_blanks(text);
    if begins_with_blank(text) && ends(front, b"=") {
        let name = without_first_blanks(&front[..front.len() - 1]);
        WrittenName::of(without_last_blanks(name))
    } else {
        None
    }
}

/// An attribute; no `<` stands in its value.
fn attribute_of<'a>(before: &'a [u8], value: &'a [u8]) -> Option<WrittenAttribute<'a>>
    ensures { result ≡ attribute_of before.now value.now }
{
    if holds(b"<", value) {
        return None;
    }
    let name = attribute_name(before)?;
    Some(WrittenAttribute { name, value })
}

/// What a text has before, in and behind its first quotes.
#[derive(Drop)]
enum Quoted<'a> {
    /// No quote.
    No,
    /// A quote that is not closed.
    Open,
    /// A text in quotes.
    Whole {
        before: &'a [u8],
        value: &'a [u8],
        behind: &'a [u8],
    },
}

#[tactic(auto, using(crate::proofs::Colons::quoted_no, crate::proofs::Colons::quoted_open, crate::proofs::Colons::quoted_whole))]
fn first_quoted(text: &[u8]) -> Quoted<'_>
    ensures pieces { AreQuoted text.now result }
    ensures shorter { LeavesLess text.now result }
{
    let Some((before, quote, rest)) = split_at_quote(text) else {
        return Quoted::No;
    };
    match split_at_octet(rest, quote) {
        None => Quoted::Open,
        Some((value, behind)) => Quoted::Whole {
            before,
            value,
            behind: &behind[1..],
        },
    }
}

/// The attributes that stand behind a tag's name, if each is one and there is nothing else.
#[tactic(auto, using(crate::proofs::Colons::attributes_cons, crate::proofs::Colons::attributes_bad))]
pub fn attributes_of(
    alloc: Global,
    text: &[u8],
) -> Result<Option<List<WrittenAttribute<'_>>>, NoMemory>
    ensures { IfOk result (λ attributes. attributes ≡ attributes_of (quoted_pieces None text.now)) }
{
    let mut attributes = List::new(alloc);
    let mut rest = text;
    'attributes: loop {
        match first_quoted(rest) {
            Quoted::No => return Ok(if are_blanks(rest) {
                Some(attributes)
            } else {
                None
            }),
            Quoted::Open => return Ok(None),
            Quoted::Whole {
                before,
                value,
                behind,
            } => {
                let Some(attribute) = attribute_of(before, value) else {
                    return Ok(None);
                };
                attributes.push(attribute)?;
                rest = behind;
            }
        }
    }
}
