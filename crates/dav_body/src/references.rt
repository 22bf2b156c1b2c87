//! References (XML 1.0, 4.1 and 4.6).
ghost use Rattle.std.specs.Prelude.{◌≡◌, ◌<◌, ◌≤◌, option_map, is_some, encode_utf8, IfSome};
ghost use Rattle.cal_base.specs.Xml.XmlMarkup.{digit_value, number_of_digits, referenced_number, is_reference, reference, reference_of, entity_octets, character_octets, referenced};
ghost use Rattle.dav_body.specs.Numbers.{capped, IsBase};
ghost use Rattle.dav_body.specs.Texts.{text_there};

use crate::characters::{is_plain_name, is_xml_character};
use crate::ends::{begins, inside};

/// A number above that of every character.
const NO_CHARACTER: u32 = 0x11_0000;

/// The value of a digit of the base 10 or 16.
fn digit_value(base: u32, octet: u8) -> Option<u32>
    ensures value { result ≡ digit_value base octet }
    ensures within { IfSome result (λ digit. digit < 16) }
{
    if 48 <= octet && octet <= 57 {
        Some(octet as u32 - 48)
    } else if base == 16 && 97 <= octet && octet <= 102 {
        Some(octet as u32 - 87)
    } else if base == 16 && 65 <= octet && octet <= 70 {
        Some(octet as u32 - 55)
    } else {
        None
    }
}

/// The number of at least one digit, or one that is no character's where it is too great for one.
#[tactic(auto, using(crate::proofs::Digits::digits_step, crate::proofs::Digits::digits_bad, crate::proofs::Digits::digits_end, crate::proofs::Digits::number_some))]
fn number_of_digits(base: u32, text: &[u8]) -> Option<u32>
    requires { IsBase base }
    ensures { result ≡ option_map capped (number_of_digits base text.now) }
{
    if text.is_empty() {
        return None;
    }
    let mut number = 0;
    let mut rest = text;
    'digits: while let Some((octet, behind)) = rest.split_first() {
        let digit = digit_value(base, *octet)?;
        number = (number * base + digit).min(NO_CHARACTER);
        rest = behind;
    }
    Some(number)
}

/// The number of a character reference: `#x` and hexadecimal digits, or `#` and decimal ones.
fn referenced_number(text: &[u8]) -> Option<u32>
    ensures { result ≡ option_map capped (referenced_number text.now) }
{
    if begins(text, b"#x") {
        number_of_digits(16, &text[2..])
    } else if begins(text, b"#") {
        number_of_digits(10, &text[1..])
    } else {
        None
    }
}

/// A reference by name or by number, whether it stands for something or not.
fn is_reference(text: &[u8]) -> bool
    ensures { result ≡ is_reference text.now }
{
    is_plain_name(text) || referenced_number(text).is_some()
}

/// What stands between `&` and `;`, if a text is a reference.
#[tactic(auto, using(crate::proofs::Shapes::is_reference_within, crate::proofs::Shapes::no_reference_within))]
pub fn reference_of(text: &[u8]) -> Option<&[u8]>
    ensures { option_map reference (text_there result) ≡ reference_of text.now }
{
    match inside(1, b";", text) {
        Some(name) => { if is_reference(name) { Some(name) } else { None } }
        None => None,
    }
}

/// The entities that need no declaration.
fn entity(name: &[u8]) -> Option<char>
    ensures { option_map encode_utf8 result ≡ entity_octets name.now }
{
    if b"amp".as_slice() == name {
        Some('&')
    } else if b"lt".as_slice() == name {
        Some('<')
    } else if b"gt".as_slice() == name {
        Some('>')
    } else if b"quot".as_slice() == name {
        Some('"')
    } else if b"apos".as_slice() == name {
        Some('\'')
    } else {
        None
    }
}

/// The character of a number.
fn character(number: u32) -> Option<char>
    ensures { option_map encode_utf8 result ≡ character_octets number }
{
    let character = char::from_u32(number)?;
    if is_xml_character(character) {
        Some(character)
    } else {
        None
    }
}

/// The character that a reference stands for; none for another entity, and for the number of no
/// character.
pub fn referenced(name: &[u8]) -> Option<char>
    ensures { option_map encode_utf8 result ≡ referenced name.now }
{
    match referenced_number(name) {
        None => entity(name),
        Some(number) => character(number),
    }
}
