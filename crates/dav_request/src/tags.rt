//! The values of If-Match and If-None-Match (RFC 9110, 8.8.3, 13.1.1 and 13.1.2).
ghost use Rattle.std.specs.Prelude.{◌≡◌, false, if◌then◌else◌, option_map, option_and_then, Some, None, IfOk};
ghost use Rattle.std.specs.List.{list_all};
ghost use Rattle.cal_base.specs.Lines.ContentLines.{unquoted_pieces};
ghost use Rattle.cal_base.specs.Texts.LentTexts.{text_there};
ghost use Rattle.cal_base.specs.Texts.Octets.{comma};
ghost use Rattle.cal_model.specs.Requests.AskedRequests.{tags_in};
ghost use Rattle.cal_model.specs.Requests.ConditionalTags.{is_tag_octet, opaque_tag, entity_tag, tags_of};
ghost use Rattle.dav_request.specs.TagPieces.{tag_in, tags_in_all, weak_and_text};

use cal_base::{List, NoMemory, Octets, first_unquoted_piece, without_end_quote};
use cal_model::{Tags, trimmed};
use std::alloc::Global;

/// The tags of a field, if it is there and well formed.
pub(crate) fn read_tags(alloc: Global, field: &Option<Octets>) -> Result<Option<Tags>, NoMemory>
    ensures { IfOk result (λ tags. tags ≡ tags_in field.now) }
{
    match field {
        Some(value) => tags_of(alloc, value.as_slice()),
        None => Ok(None),
    }
}

/// The tags of a value, if it is well formed: `*`, or one or more tags with commas between them.
fn tags_of(alloc: Global, value: &[u8]) -> Result<Option<Tags>, NoMemory>
    ensures { IfOk result (λ tags. tags ≡ tags_of value.now) }
{
    if value == b"*".as_slice() {
        return Ok(Some(Tags::Any));
    }
    match read_listed(alloc, value)? {
        Some(tags) => Ok(Some(Tags::Listed(tags))),
        None => Ok(None),
    }
}

/// The tags between the commas, if each piece is one.
fn read_listed(alloc: Global, value: &[u8]) -> Result<Option<List<(bool, Octets)>>, NoMemory>
    ensures { IfOk result (λ tags. tags ≡ tags_in_all (unquoted_pieces comma false value.now)) }
{
    let mut tags = List::new(alloc);
    let mut rest = Some(value);
    'pieces: while let Some(text) = rest {
        let (piece, behind) = first_unquoted_piece(text, b',');
        let Some((weak, tag)) = tag_in(piece) else {
            return Ok(None);
        };
        tags.push((weak, Octets::of(alloc, tag)?))?;
        rest = behind;
    }
    Ok(Some(tags))
}

/// The tag that a piece is, without the spaces and tabs around it, and whether it is weak.
fn tag_in(piece: &[u8]) -> Option<(bool, &[u8])>
    ensures { option_map weak_and_text result ≡ tag_in piece.now }
{
    entity_tag(trimmed(piece))
}

/// Whether a tag is weak, and its octets without the quotes.
fn entity_tag(text: &[u8]) -> Option<(bool, &[u8])>
    ensures { option_map weak_and_text result ≡ entity_tag text.now }
{
    if text.starts_with(b"W/") {
        marked(true, opaque_tag(&text[2..]))
    } else {
        marked(false, opaque_tag(text))
    }
}

fn marked(weak: bool, tag: Option<&[u8]>) -> Option<(bool, &[u8])>
    ensures { option_map weak_and_text result ≡ option_map (λ text. (weak, text)) (text_there tag.entry) }
{
    match tag {
        Some(tag) => Some((weak, tag)),
        None => None,
    }
}

/// The octets between the quotes of a tag.
fn opaque_tag(text: &[u8]) -> Option<&[u8]>
    ensures { text_there result ≡ opaque_tag text.now }
{
    match text {
        [b'"', behind @ ..] => if_tag(without_end_quote(behind)),
        _ => None,
    }
}

/// A text, if each of its octets can stand in a tag.
fn if_tag(text: Option<&[u8]>) -> Option<&[u8]>
    ensures { text_there result ≡ option_and_then (λ tag. if list_all is_tag_octet tag then Some tag else None) (text_there text.entry) }
{
    match text {
        Some(tag) => { if are_tag_octets(tag) { Some(tag) } else { None } }
        None => None,
    }
}

fn are_tag_octets(tag: &[u8]) -> bool
    ensures { result ≡ list_all is_tag_octet tag.now }
{
    tag.iter().all(|octet| is_tag_octet(*octet))
}

/// Whether an octet can stand in a tag.
fn is_tag_octet(octet: u8) -> bool
    ensures { result ≡ is_tag_octet octet }
{
    32 < octet && octet != 127 && octet != b'"'
}
