//! Physical lines: they end in CRLF or LF, and the last may lack its end.
ghost use Rattle.std.specs.Prelude.{◌≡◌, ℕ, ◌+◌, ◌-◌, ◌<◌, ◌∷◌, ◌||◌, not, List, length, position, ◌==◌};
ghost use Rattle.std.specs.List.{list_any};
ghost use Rattle.std.specs.Str.{is_utf8, chars};
ghost use Rattle.cal_base.specs.Texts.Octets.{line_feed};
ghost use Rattle.cal_base.specs.Lines.ContentLines.{Physical, begins_with_blank, is_refused_character, pieces, physical_from, without_return};

use std::str;

/// The text of the first physical line, without its end, and what stands behind its end.
pub fn first_physical(octets: &[u8]) -> (&[u8], &[u8])
    requires { 0 < length octets.now }
    ensures shorter { length result.1.now < length octets.now }
    ensures line { (place : ℕ) → physical_from place (pieces line_feed octets.now) ≡ record { place = place; text = result.0.now } ∷ physical_from (place + (length octets.now - length result.1.now)) (pieces line_feed result.1.now) }
{
    match line_feed_place(octets) {
        Some(end) => (before_return(&octets[..end]), &octets[end + 1..]),
        None => (octets, &octets[octets.len()..]),
    }
}

fn line_feed_place(octets: &[u8]) -> Option<usize>
    ensures { result ≡ position (λ octet. octet == line_feed) octets.now }
{
    octets.iter().position(|octet| *octet == b'\n')
}

/// A text without a CR at its end.
fn before_return(text: &[u8]) -> &[u8]
    ensures { result.now ≡ without_return text.now }
{
    if text.is_empty() {
        return text;
    }
    let end = text.len() - 1;
    if text[end] == b'\r' {
        &text[..end]
    } else {
        text
    }
}

/// Whether a physical line is not UTF-8, or has a control other than TAB, U+FFFE or U+FFFF.
pub fn is_refused(text: &[u8]) -> bool
    ensures { result ≡ (not (is_utf8 text.now) || list_any is_refused_character (chars text.now)) }
{
    match str::from_utf8(text) {
        Ok(text) => has_refused(text),
        Err(_) => true,
    }
}

fn has_refused(text: &str) -> bool
    ensures { result ≡ list_any is_refused_character (chars text.now) }
{
    text.chars()
        .any(|character| is_refused_character(character))
}

fn is_refused_character(character: char) -> bool
    ensures { result ≡ is_refused_character character }
{
    (character < ' ' && character != '\t') || character == '\u{FFFE}' || character == '\u{FFFF}'
}

/// Whether a physical line continues the one before it.
pub fn begins_with_blank(text: &[u8]) -> bool
    ensures { result ≡ begins_with_blank text.now }
{
    match text.first() {
        Some(octet) => *octet == b' ' || *octet == b'\t',
        None => false,
    }
}
