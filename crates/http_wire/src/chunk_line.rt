//! The line in front of a chunk (RFC 9112, 7.1).
ghost use Rattle.std.specs.Prelude.{◌≡◌, ◌≤◌, ◌&&◌, length, nat_le, is_some, None, option_map};
ghost use Rattle.std.specs.List.{list_all};
ghost use Rattle.httparse.specs.Grammar.{is_extension_byte};
ghost use Rattle.cal_model.specs.Streams.Chunks.{before_extension, before_break, begins_chunk_line, chunk_size, line_size as first_size, text_size};
ghost use Rattle.http_wire.specs.BodyParts.{LineReads};
ghost use Rattle.http_wire.specs.Parts.{text_there};

use crate::cuts::{at_most, before_last, front, line_size};
use crate::digits::number;
use cal_model::cut;

/// The most octets of a chunk line, its CRLF counted.
const LINE_LIMIT: usize = 256;

/// What the octets at a chunk line are.
pub(crate) enum ChunkLine {
    /// A whole line of so many octets, that states a size.
    Whole { len: usize, size: usize },
    /// The start of a line.
    Cut,
    /// No line begins so.
    Bad,
}

/// Reads the chunk line at the front.
pub(crate) fn read_chunk_line(octets: &[u8]) -> ChunkLine
    ensures { LineReads result octets.now }
{
    let near = at_most(octets, LINE_LIMIT);
    match line_size(near) {
        Some(len) => match size_of_line(front(near, len)) {
            Some(size) => ChunkLine::Whole { len, size },
            None => ChunkLine::Bad,
        },
        None => {
            if begins_line(near) {
                ChunkLine::Cut
            } else {
                ChunkLine::Bad
            }
        }
    }
}

/// The size that a line states, if it is one.
fn size_of_line(line: &[u8]) -> Option<usize>
    requires { length line.now ≤ 256 }
    ensures { result ≡ chunk_size line.now }
{
    match before_break(line) {
        Some(text) => size_of_text(text),
        None => None,
    }
}

/// A line without its CRLF, if it has it.
fn before_break(line: &[u8]) -> Option<&[u8]>
    ensures { option_map text_there result ≡ before_break line.now }
{
    match before_last(line, b'\n') {
        Some(text) => before_last(text, b'\r'),
        None => None,
    }
}

/// The size that a line without its CRLF states: digits, and perhaps an extension, which is passed
/// over.
fn size_of_text(text: &[u8]) -> Option<usize>
    ensures { result ≡ text_size text.now }
{
    if !is_extension(text) {
        return None;
    }
    number(16, before_extension(text), 8)
}

/// Whether no octet is CR or LF.
fn is_extension(text: &[u8]) -> bool
    ensures { result ≡ list_all is_extension_byte text.now }
{
    text.iter().all(|octet| is_extension_octet(*octet))
}

fn is_extension_octet(octet: u8) -> bool
    ensures { result ≡ is_extension_byte octet }
{
    !(octet == b'\r' || octet == b'\n')
}

/// What stands before the semicolon, or all where there is none.
fn before_extension(text: &[u8]) -> &[u8]
    ensures { result.now ≡ before_extension text.now }
{
    match cut(text, b';') {
        Some((digits, _)) => digits,
        None => text,
    }
}

/// Whether a chunk line can begin so and go on.
fn begins_line(near: &[u8]) -> bool
    requires { first_size near.now ≡ None }
    ensures { result ≡ begins_chunk_line near.now }
{
    if near.is_empty() {
        return true;
    }
    match before_last(near, b'\r') {
        Some(text) => states_size(text),
        None => states_size(near),
    }
}

/// Whether a text and CRLF are a chunk line.
fn states_size(text: &[u8]) -> bool
    ensures { result ≡ (nat_le (length text.now) 254 && is_some (text_size text.now)) }
{
    text.len() <= LINE_LIMIT - 2 && size_of_text(text).is_some()
}
