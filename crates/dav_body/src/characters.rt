//! Characters and names without a colon (XML 1.0, 2.2 and 2.3; Namespaces in XML 1.0, 3).
ghost use Rattle.std.specs.Prelude.{◌≡◌, ◌&&◌, slice_get};
ghost use Rattle.std.specs.List.{list_all};
ghost use Rattle.std.specs.Str.{is_utf8, chars};
ghost use Rattle.cal_base.specs.Xml.XmlNames.{is_among, name_followers, is_xml_character, is_xml_text, is_name_start, is_name_character, are_name_characters, is_plain_name};

use std::str;

/// A character that may stand in a body (XML 1.0, 2.2).
pub fn is_xml_character(character: char) -> bool
    ensures { result ≡ is_xml_character character }
{
    matches!(character,
        '\u{9}'..='\u{A}' | '\u{D}' | '\u{20}'..='\u{D7FF}' | '\u{E000}'..='\u{FFFD}'
        | '\u{10000}'..='\u{10FFFF}')
}

/// UTF-8 of characters of XML.
pub fn is_xml_text(text: &[u8]) -> bool
    ensures { result ≡ is_xml_text text.now }
{
    match str::from_utf8(text) {
        Ok(text) => are_xml_characters(text),
        Err(_) => false,
    }
}

fn are_xml_characters(text: &str) -> bool
    ensures { result ≡ list_all is_xml_character (chars text.now) }
{
    text.chars().all(|character| is_xml_character(character))
}

fn is_name_start(character: char) -> bool
    ensures { result ≡ is_name_start character }
{
    matches!(character,
        'A'..='Z' | '_' | 'a'..='z' | '\u{C0}'..='\u{D6}' | '\u{D8}'..='\u{F6}'
        | '\u{F8}'..='\u{2FF}' | '\u{370}'..='\u{37D}' | '\u{37F}'..='\u{1FFF}'
        | '\u{200C}'..='\u{200D}' | '\u{2070}'..='\u{218F}' | '\u{2C00}'..='\u{2FEF}'
        | '\u{3001}'..='\u{D7FF}' | '\u{F900}'..='\u{FDCF}' | '\u{FDF0}'..='\u{FFFD}'
        | '\u{10000}'..='\u{EFFFF}')
}

fn is_name_follower(character: char) -> bool
    ensures { result ≡ is_among name_followers character }
{
    matches!(character,
        '-' | '.' | '0'..='9' | '\u{B7}' | '\u{300}'..='\u{36F}' | '\u{203F}'..='\u{2040}')
}

fn is_name_character(character: char) -> bool
    ensures { result ≡ is_name_character character }
{
    is_name_start(character) || is_name_follower(character)
}

/// A name without a colon.
pub fn is_plain_name(text: &[u8]) -> bool
    ensures { result ≡ is_plain_name text.now }
{
    match str::from_utf8(text) {
        Ok(text) => are_name_characters(text),
        Err(_) => false,
    }
}

#[tactic(auto, using(crate::proofs::Utf8Texts::name_characters_first, crate::proofs::Utf8Texts::name_characters_other, crate::proofs::Utf8Texts::name_characters_none))]
fn are_name_characters(text: &str) -> bool
    ensures { result ≡ are_name_characters (chars text.now) }
{
    match first_character(text) {
        Some(first) => is_name_start(first) && are_all_name_characters(text),
        None => false,
    }
}

fn are_all_name_characters(text: &str) -> bool
    ensures { result ≡ list_all is_name_character (chars text.now) }
{
    text.chars().all(|character| is_name_character(character))
}

fn first_character(text: &str) -> Option<char>
    ensures { result ≡ slice_get (chars text.now) 0 }
{
    text.chars().next()
}
