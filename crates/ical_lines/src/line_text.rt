//! The text of a logical line, read by its grammar (RFC 5545, 3.1).
ghost use Rattle.std.specs.Prelude.{◌≡◌, map, IfOk};
ghost use Rattle.std.specs.List.{list_any, list_all};
ghost use Rattle.cal_base.specs.Texts.Octets.{comma, semicolon};
ghost use Rattle.cal_base.specs.Lines.ContentLines.{is_name_octet, is_name, is_special, param_value, every, param_of, line_of};
ghost use Rattle.cal_base.specs.Lines.UnquotedParts.{later_pieces};
ghost use Rattle.cal_base.specs.Texts.LentTexts.{text_there};

use cal_base::{
    Line, List, Name, NoMemory, Octets, Param, first_unquoted_piece, split_unquoted,
    without_end_quote,
};
use std::alloc::Global;

/// The line that a logical line's text is, if it is in the grammar.
pub fn read_line(alloc: Global, raw: Octets) -> Result<Option<Line>, NoMemory>
    ensures { IfOk result (λ line. line ≡ line_of raw) }
{
    let Some((head, value)) = split_unquoted(raw.as_slice(), b':') else {
        return Ok(None);
    };
    let (name, params) = first_unquoted_piece(head, b';');
    if !is_name(name) {
        return Ok(None);
    }
    let Some(params) = read_params(alloc, params)? else {
        return Ok(None);
    };
    let name = Name::of(alloc, name)?;
    let value = Octets::of(alloc, value)?;
    Ok(Some(Line {
        name,
        params,
        value,
        raw,
    }))
}

/// The parameters in a text between semicolons, if each is in the grammar. No text has none.
fn read_params(alloc: Global, text: Option<&[u8]>) -> Result<Option<List<Param>>, NoMemory>
    ensures { IfOk result (λ params. params ≡ every (map param_of (later_pieces semicolon (text_there text.entry)))) }
{
    let mut params = List::new(alloc);
    let mut rest = text;
    'params: while let Some(text) = rest {
        let (piece, behind) = first_unquoted_piece(text, b';');
        let Some(param) = read_param(alloc, piece)? else {
            return Ok(None);
        };
        params.push(param)?;
        rest = behind;
    }
    Ok(Some(params))
}

/// A parameter: name "=" value *("," value).
fn read_param(alloc: Global, text: &[u8]) -> Result<Option<Param>, NoMemory>
    ensures { IfOk result (λ param. param ≡ param_of text.now) }
{
    let Some((name, values)) = split_unquoted(text, b'=') else {
        return Ok(None);
    };
    if !is_name(name) {
        return Ok(None);
    }
    let Some(values) = read_values(alloc, Some(values))? else {
        return Ok(None);
    };
    let name = Name::of(alloc, name)?;
    Ok(Some(Param { name, values }))
}

/// The values in a text between commas, if each is in the grammar.
fn read_values(alloc: Global, text: Option<&[u8]>) -> Result<Option<List<Octets>>, NoMemory>
    ensures { IfOk result (λ values. values ≡ every (map param_value (later_pieces comma (text_there text.entry)))) }
{
    let mut values = List::new(alloc);
    let mut rest = text;
    'values: while let Some(text) = rest {
        let (piece, behind) = first_unquoted_piece(text, b',');
        let Some(value) = unquote(piece) else {
            return Ok(None);
        };
        values.push(Octets::of(alloc, value)?)?;
        rest = behind;
    }
    Ok(Some(values))
}

/// A parameter's value: in double quotes, which are no part of it, or with none of `" ; : ,`.
fn unquote(text: &[u8]) -> Option<&[u8]>
    ensures { text_there result ≡ param_value text.now }
{
    match text {
        [] => Some(text),
        [b'"', behind @ ..] => without_end_quote(behind),
        _ => { if has_special(text) { None } else { Some(text) } }
    }
}

fn has_special(text: &[u8]) -> bool
    ensures { result ≡ list_any is_special text.now }
{
    text.iter().any(|octet| is_special(*octet))
}

fn is_special(octet: u8) -> bool
    ensures { result ≡ is_special octet }
{
    octet == b'"' || octet == b';' || octet == b':' || octet == b','
}

fn is_name(text: &[u8]) -> bool
    ensures { result ≡ is_name text.now }
{
    !text.is_empty() && are_name_octets(text)
}

fn are_name_octets(text: &[u8]) -> bool
    ensures { result ≡ list_all is_name_octet text.now }
{
    text.iter().all(|octet| is_name_octet(*octet))
}

fn is_name_octet(octet: u8) -> bool
    ensures { result ≡ is_name_octet octet }
{
    octet.is_ascii_alphanumeric() || octet == b'-'
}
