//! What text and values stand for (XML 1.0, 2.11 and 3.3.3).
ghost use Rattle.std.specs.Prelude.{◌≡◌, ◌++◌, Option, Some, IfOk, OnOk, option_map, unwrap_or, encode_utf8};
ghost use Rattle.cal_base.specs.Xml.XmlMarkup.{markup_of, referenced};
ghost use Rattle.cal_base.specs.Xml.XmlScopes.{piece_octets, value_octets};
ghost use Rattle.cal_base.specs.Xml.XmlBodies.{with_line_feeds};
ghost use Rattle.dav_body.specs.Shown.{shown};
ghost use Rattle.dav_body.specs.LineFeeds.{end_shown, octet_shown};

use crate::cut::first_markup;
use crate::markup::{Markup, markup_of, reference_name};
use crate::references::referenced;
use cal_base::{NoMemory, Octets};
use std::alloc::Global;

/// Puts the UTF-8 of a character behind some octets.
pub fn push_character(out: &mut Octets, character: char) -> Result<(), NoMemory>
    ensures { OnOk result (out.new ≡ out.old ++ encode_utf8 character) }
{
    let mut buffer = [0u8; 4];
    let text = character.encode_utf8(&mut buffer);
    out.extend_from_slice(text.as_bytes())
}

/// Puts what a reference in a value stands for behind some octets; of a reference at fault, itself.
fn push_reference(out: &mut Octets, piece: &[u8], name: &[u8]) -> Result<(), NoMemory>
    ensures { OnOk result (out.new ≡ out.old ++ unwrap_or (referenced name.now) piece.now) }
{
    match referenced(name) {
        Some(character) => push_character(out, character),
        None => out.extend_from_slice(piece),
    }
}

/// Puts what a piece of a value stands for behind some octets, given the markup that the piece is.
#[tactic(auto, using(crate::proofs::ValueSteps::piece_reference, crate::proofs::ValueSteps::piece_other))]
fn push_markup(out: &mut Octets, piece: &[u8], markup: Markup<'_>) -> Result<(), NoMemory>
    requires { Some (shown markup) ≡ markup_of piece.now }
    ensures { OnOk result (out.new ≡ out.old ++ piece_octets piece.now) }
{
    match reference_name(markup) {
        Some(name) => push_reference(out, piece, name),
        None => out.extend_from_slice(piece),
    }
}

/// Puts what a piece of a value stands for behind some octets.
#[tactic(auto, using(crate::proofs::ValueSteps::piece_none))]
fn push_piece(alloc: Global, out: &mut Octets, piece: &[u8]) -> Result<(), NoMemory>
    ensures { OnOk result (out.new ≡ out.old ++ piece_octets piece.now) }
{
    match markup_of(alloc, piece)? {
        Some(markup) => push_markup(out, piece, markup),
        None => out.extend_from_slice(piece),
    }
}

/// An attribute's value: its references are replaced, and its white space stays as it is.
#[tactic(auto, using(crate::proofs::ValueSteps::value_step))]
pub fn value_octets(alloc: Global, value: &[u8]) -> Result<Octets, NoMemory>
    ensures { IfOk result (λ octets. octets ≡ value_octets value.now) }
{
    let mut out = Octets::new(alloc);
    let mut rest = value;
    'pieces: while !rest.is_empty() {
        let (piece, behind) = first_markup(rest);
        push_piece(alloc, &mut out, piece)?;
        rest = behind;
    }
    Ok(out)
}

/// Puts the end of a line behind some octets, of a CR: the LF that follows it speaks for both.
fn push_end(out: &mut Octets, behind: &[u8]) -> Result<(), NoMemory>
    ensures { OnOk result (out.new ≡ out.old ++ end_shown behind.now) }
{
    match behind {
        [] => out.push(b'\n'),
        [next, ..] => {
            if *next == b'\n' {
                Ok(())
            } else {
                out.push(b'\n')
            }
        }
    }
}

/// Puts an octet of text behind some octets, given what stands behind it.
fn push_shown(out: &mut Octets, octet: u8, behind: &[u8]) -> Result<(), NoMemory>
    ensures { OnOk result (out.new ≡ out.old ++ octet_shown octet behind.now) }
{
    if octet == b'\r' {
        push_end(out, behind)
    } else {
        out.push(octet)
    }
}

/// Puts a text behind some octets, with each CR LF, and each CR alone, as one LF.
#[tactic(auto, using(crate::proofs::ValueSteps::line_feeds_step))]
pub fn push_with_line_feeds(out: &mut Octets, text: &[u8]) -> Result<(), NoMemory>
    ensures { OnOk result (out.new ≡ out.old ++ with_line_feeds text.now) }
{
    let mut rest = text;
    'octets: while let Some((octet, behind)) = rest.split_first() {
        push_shown(out, *octet, behind)?;
        rest = behind;
    }
    Ok(())
}
