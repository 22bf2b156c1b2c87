//! The front of a body: perhaps a byte order mark, and then perhaps a declaration (XML 1.0, 2.8).
ghost use Rattle.std.specs.Prelude.{◌≡◌, ◌≤◌, ◌&&◌, if◌then◌else◌, None, length, drop, filter_map, option_map, IfOk, IfErr};
ghost use Rattle.cal_base.specs.Xml.XmlNames.{is_blank};
ghost use Rattle.cal_base.specs.Xml.XmlMarkup.{markups, markup_of};
ghost use Rattle.cal_base.specs.Xml.XmlFaults.{mark_size, is_declaration, quoted_text, assigned_text, encoding_name, is_known_encoding, declaration_fault, body_fault};
ghost use Rattle.cal_base.specs.Xml.XmlBodies.{body_element};
ghost use Rattle.dav_body.specs.Front.{encoding_at, names_other};
ghost use Rattle.dav_body.specs.Keeping.{nothing, fault_with, element_with};
ghost use Rattle.dav_body.specs.Texts.{text_there};
ghost use Rattle.dav_body.specs.Faults.{fault_told, IsFaultOf};

use crate::blanks::{begins_with_blank, is_blank, without_first_blanks};
use crate::characters::is_xml_text;
use crate::cut::{first_markup, is_quote};
use crate::ends::{begins, ends};
use crate::fault::{BodyFault, Fault, Why};
use crate::splits::split_at_octet;
use cal_base::{Name, NoMemory};
use std::alloc::Global;

/// How many octets the byte order mark has, if there is one.
fn mark_size(octets: &[u8]) -> usize
    ensures size { result ≡ mark_size octets.now }
    ensures within { result ≤ length octets.now }
{
    if begins(octets, b"\xEF\xBB\xBF") {
        3
    } else {
        0
    }
}

/// Whether a text is a declaration: `<?xml` and a blank, whatever stands behind.
fn is_declaration(text: &[u8]) -> bool
    ensures { result ≡ is_declaration text.now }
{
    begins(text, b"<?xml") && begins_with_blank(&text[5..])
}

/// The text between two quotes that a text begins with.
#[tactic(auto, using(crate::proofs::FrontSteps::quoted_whole, crate::proofs::FrontSteps::quoted_open, crate::proofs::FrontSteps::quoted_other))]
fn quoted_text(text: &[u8]) -> Option<&[u8]>
    ensures { text_there result ≡ quoted_text text.now }
{
    let Some((quote, rest)) = text.split_first() else {
        return None;
    };
    if !is_quote(*quote) {
        return None;
    }
    match split_at_octet(rest, *quote) {
        Some((value, _)) => Some(value),
        None => None,
    }
}

/// What is assigned in a text that begins with `=`, with or without blanks around it.
fn assigned_text(text: &[u8]) -> Option<&[u8]>
    ensures { text_there result ≡ assigned_text text.now }
{
    match text.split_first() {
        Some((octet, rest)) => {
            if *octet == b'=' {
                quoted_text(without_first_blanks(rest))
            } else {
                None
            }
        }
        None => None,
    }
}

/// The encoding that is named where a blank stands before a text, if one is.
fn encoding_at(octet: u8, behind: &[u8]) -> Option<&[u8]>
    ensures { text_there result ≡ encoding_at octet behind.now }
{
    if is_blank(octet) && begins(behind, b"encoding") {
        assigned_text(without_first_blanks(&behind[8..]))
    } else {
        None
    }
}

/// The encoding that a declaration names.
#[tactic(auto, using(crate::proofs::FrontSteps::encoding_here, crate::proofs::FrontSteps::encoding_later))]
fn encoding_name(text: &[u8]) -> Option<&[u8]>
    ensures { text_there result ≡ encoding_name text.now }
{
    let mut rest = text;
    'places: while let Some((octet, behind)) = rest.split_first() {
        if let Some(name) = encoding_at(*octet, behind) {
            return Some(name);
        }
        rest = behind;
    }
    None
}

/// Whether an encoding is UTF-8, in any case, where one is named.
fn is_known_encoding(alloc: Global, name: Option<&[u8]>) -> Result<bool, NoMemory>
    ensures { IfOk result (λ known. known ≡ is_known_encoding (text_there name.entry)) }
{
    match name {
        None => Ok(true),
        Some(name) => Ok(Name::of(alloc, name)?.as_slice() == b"UTF-8".as_slice()),
    }
}

/// Whether a whole declaration names another encoding than UTF-8.
fn names_other(alloc: Global, text: &[u8]) -> Result<bool, NoMemory>
    ensures { IfOk result (λ other. other ≡ names_other text.now) }
{
    if ends(text, b"?>") {
        Ok(!is_known_encoding(alloc, encoding_name(text))?)
    } else {
        Ok(false)
    }
}

/// The fault of a declaration, given the end of the body.
fn declaration_fault(
    alloc: Global,
    end: u64,
    place: u64,
    text: &[u8],
) -> Result<Option<Fault>, NoMemory>
    ensures { IfOk result (λ fault. option_map fault_told fault ≡ declaration_fault end place text.now) }
{
    if names_other(alloc, text)? {
        Ok(Some(Fault {
            place,
            why: Why::Encoding,
        }))
    } else if !is_xml_text(text) {
        Ok(Some(Fault {
            place,
            why: Why::Syntax,
        }))
    } else if !ends(text, b"?>") {
        Ok(Some(Fault {
            place: end,
            why: Why::Cut,
        }))
    } else {
        Ok(None)
    }
}

/// Where the markup behind the mark and the declaration begins.
#[tactic(auto, using(crate::proofs::FrontSteps::empty_faults, crate::proofs::FrontSteps::empty_elements, crate::proofs::FrontSteps::plain_faults, crate::proofs::FrontSteps::plain_elements, crate::proofs::FrontSteps::declared_stop))]
pub fn front_size(alloc: Global, octets: &[u8]) -> Result<usize, BodyFault>
    ensures within { IfOk result (λ size. size ≤ length octets.now) }
    ensures faults { IfOk result (λ size. fault_with (length octets.now) nothing size (markups (drop size octets.now)) ≡ body_fault octets.now) }
    ensures elements { IfOk result (λ size. element_with nothing (filter_map markup_of (markups (drop size octets.now))) ≡ body_element octets.now) }
    ensures stop { IfErr result (λ fault. IsFaultOf (body_fault octets.now) fault) }
{
    let mark = mark_size(octets);
    let rest = &octets[mark..];
    if rest.is_empty() {
        return Ok(mark);
    }
    let (text, _) = first_markup(rest);
    if !is_declaration(text) {
        return Ok(mark);
    }
    match declaration_fault(alloc, octets.len() as u64, mark as u64, text)? {
        Some(fault) => Err(BodyFault::At {
            place: fault.place,
            why: fault.why,
        }),
        None => Ok(mark + text.len()),
    }
}
