//! Names of elements with the declarations of their namespaces, values of attributes, and text, as
//! they are written. What is appended leaves what was there, also where memory is wanting on the way.
ghost use Rattle.std.specs.Prelude.{◌≡◌, ◌++◌, ◌+◌, ◌<◌, OnOk, IfSome, length, take, drop, option_map, position, codes};
ghost use Rattle.cal_base.specs.Xml.CanonicalXml.{text_octet, xml_text, attribute_text, value_octet, known_prefix};
ghost use Rattle.dav_write.specs.ElementTexts.{element_name, own_declaration, value_text, end_tag};
ghost use Rattle.dav_write.specs.EscapedOctets.{is_escaped};

use cal_base::{NoMemory, Octets};

/// Appends the tag that closes an element.
pub fn push_end(space: &[u8], name: &[u8], out: &mut Octets) -> Result<(), NoMemory>
    ensures text { OnOk result (out.new ≡ out.old ++ end_tag space.now name.now) }
    ensures front { take (length out.old) out.new ≡ out.old }
{
    out.extend_from_slice(b"</")?;
    push_name(space, name, out)?;
    out.push(b'>')
}

/// Appends the name of an element with the prefix of its namespace.
#[tactic(auto, unfolding(crate::specs::ElementTexts::element_name))]
pub fn push_name(space: &[u8], name: &[u8], out: &mut Octets) -> Result<(), NoMemory>
    ensures text { OnOk result (out.new ≡ out.old ++ element_name space.now name.now) }
    ensures front { take (length out.old) out.new ≡ out.old }
{
    match prefix_of(space) {
        Some(prefix) => out.extend_from_slice(prefix)?,
        None => out.extend_from_slice(b"x:")?,
    }
    out.extend_from_slice(name)
}

/// Appends the declaration of a namespace that has no prefix at the root.
pub fn push_own_declaration(space: &[u8], out: &mut Octets) -> Result<(), NoMemory>
    ensures text { OnOk result (out.new ≡ out.old ++ own_declaration space.now) }
    ensures front { take (length out.old) out.new ≡ out.old }
{
    match prefix_of(space) {
        Some(_) => Ok(()),
        None => push_declaration(space, out),
    }
}

fn push_declaration(space: &[u8], out: &mut Octets) -> Result<(), NoMemory>
    ensures text { OnOk result (out.new ≡ out.old ++ (codes " xmlns:x" ++ value_text space.now)) }
    ensures front { take (length out.old) out.new ≡ out.old }
{
    out.extend_from_slice(b" xmlns:x")?;
    push_value(space, out)
}

/// Appends what is assigned to an attribute, in quotes.
#[tactic(auto, unfolding(crate::specs::ElementTexts::value_text))]
pub(crate) fn push_value(value: &[u8], out: &mut Octets) -> Result<(), NoMemory>
    ensures text { OnOk result (out.new ≡ out.old ++ value_text value.now) }
    ensures front { take (length out.old) out.new ≡ out.old }
{
    out.extend_from_slice(b"=\"")?;
    push_value_octets(value, out)?;
    out.push(b'"')
}

#[tactic(auto, unfolding(cal_base::specs::Xml::CanonicalXml::attribute_text))]
fn push_value_octets(value: &[u8], out: &mut Octets) -> Result<(), NoMemory>
    ensures text { OnOk result (out.new ≡ out.old ++ attribute_text value.now) }
    ensures front { take (length out.old) out.new ≡ out.old }
{
    'octets: for octet in value {
        push_value_octet(*octet, out)?;
    }
    Ok(())
}

fn push_value_octet(octet: u8, out: &mut Octets) -> Result<(), NoMemory>
    ensures text { OnOk result (out.new ≡ out.old ++ value_octet octet) }
    ensures front { take (length out.old) out.new ≡ out.old }
{
    if octet == b'"' {
        out.extend_from_slice(b"&quot;")
    } else {
        push_text_octet(octet, out)
    }
}

/// What stands before a name in a namespace that needs no declaration of its own.
pub(crate) fn prefix_of(space: &[u8]) -> Option<&'static [u8]>
    ensures { option_map (λ prefix. prefix.now) result ≡ known_prefix space.now }
{
    if space.is_empty() {
        Some(b"".as_slice())
    } else if space == b"DAV:".as_slice() {
        Some(b"D:".as_slice())
    } else if space == b"urn:ietf:params:xml:ns:caldav".as_slice() {
        Some(b"C:".as_slice())
    } else if space == b"http://www.w3.org/XML/1998/namespace".as_slice() {
        Some(b"xml:".as_slice())
    } else {
        None
    }
}

/// Appends some octets as text. What stands between two octets that are escaped is copied as a whole:
/// in calendar data these are its lines.
pub fn push_text(text: &[u8], out: &mut Octets) -> Result<(), NoMemory>
    ensures text { OnOk result (out.new ≡ out.old ++ xml_text text.now) }
    ensures front { take (length out.old) out.new ≡ out.old }
{
    let mut rest = text;
    'runs: while let Some(place) = first_escaped(rest) {
        out.extend_from_slice(&rest[..place])?;
        push_text_octet(rest[place], out)?;
        rest = behind(rest, place);
    }
    out.extend_from_slice(rest)
}

/// What stands behind an octet of a text.
fn behind(text: &[u8], place: usize) -> &[u8]
    requires { place < length text.now }
    ensures { result.now ≡ drop (place + 1) text.now }
{
    &text[place + 1..]
}

/// Where the first octet stands that text does not have as it is.
fn first_escaped(text: &[u8]) -> Option<usize>
    ensures first { result ≡ position is_escaped text.now }
    ensures within { IfSome result (λ place. place < length text.now) }
{
    text.iter().position(|octet| is_escaped(*octet))
}

/// Whether text does not have an octet as it is.
fn is_escaped(octet: u8) -> bool
    ensures { result ≡ is_escaped octet }
{
    octet == b'&' || octet == b'<' || octet == b'>' || octet == b'\r'
}

/// Appends an octet of text. A CR is escaped, since a reader of XML would make it a line feed.
fn push_text_octet(octet: u8, out: &mut Octets) -> Result<(), NoMemory>
    ensures text { OnOk result (out.new ≡ out.old ++ text_octet octet) }
    ensures front { take (length out.old) out.new ≡ out.old }
{
    match octet {
        b'&' => out.extend_from_slice(b"&amp;"),
        b'<' => out.extend_from_slice(b"&lt;"),
        b'>' => out.extend_from_slice(b"&gt;"),
        b'\r' => out.extend_from_slice(b"&#13;"),
        _ => out.push(octet),
    }
}
