//! Splitting a text into its content lines.
ghost use Rattle.std.specs.Prelude.{◌≡◌, ℕ, ◌+◌, ◌-◌, ◌<◌, ◌^◌, List, [], All, get_or, length, slice_get, Option, None, Some, IfOk, IsErrOf, Ok, Err};
ghost use Rattle.std.specs.Option.{option_map_or, option_or, option_to_list};
ghost use Rattle.cal_base.specs.declared.line.Line.{Line};
ghost use Rattle.cal_base.specs.Texts.Octets.{line_feed};
ghost use Rattle.cal_base.specs.Lines.ContentLines.{Placed, pieces, physical_from, groups, logical_lines, place_of, placed_lines, line_fault, read_lines};
ghost use Rattle.cal_base.specs.Lines.LineGrammar.{IsReadLine, LinesAreTheGrammar};
ghost use Rattle.ical_lines.specs.GroupReading.{place_among, place_text, refused_place, text_fault, text_lines, read_groups, read_text};

use crate::line_text::read_line;
use crate::physical::{begins_with_blank, first_physical, is_refused};
use cal_base::{Line, List, NoMemory, Octets};
use std::alloc::Global;

/// Why the lines of a text were not read.
#[derive(Debug, Clone, Copy, PartialEq, Eq)]
pub enum LineFault {
    /// A physical line that has a refused octet, or the first one of a logical line outside the
    /// grammar: the place of its first octet in the text, of the first such line.
    At { place: u64 },
    /// There was no memory.
    NoMemory,
}

impl From<NoMemory> for LineFault {
    ghost use Rattle.std.specs.Prelude.{◌≡◌};
    ghost use Rattle.ical_lines.specs.declared.split.LineFault.TheVariants.{NoMemory as WithoutMemory};

    ghost from_gives = { λ _ fault. fault ≡ WithoutMemory };

    fn from(_error: NoMemory) -> LineFault {
        LineFault::NoMemory
    }
}

/// The content lines of a text, in order, the empty ones left out (RFC 5545, 3.1).
///
/// Physical lines end in CRLF or LF, and the last may lack its end; one that begins with SPACE or
/// TAB continues the line before it, without that octet. Refused are octets that are not UTF-8
/// within a physical line, controls other than TAB, U+FFFE and U+FFFF.
pub fn split_lines(alloc: Global, octets: &[u8]) -> Result<List<Line>, LineFault>
    ensures lines { IfOk result (λ lines. read_lines octets.now ≡ Ok lines) }
    ensures own_texts { IfOk result (λ lines. All IsReadLine lines) }
    ensures fault { (place : ℕ) → IsErrOf result (LineFault.At place) → read_lines octets.now ≡ Err place }
    ensures grammar { LinesAreTheGrammar }
{
    let mut lines = List::new(alloc);
    let mut rest = octets;
    'logical: while !rest.is_empty() {
        let place = (octets.len() - rest.len()) as u64;
        let logical = take_logical(alloc, rest, place)?;
        if let Some(line) = logical_line(alloc, place, logical.raw, logical.refused)? {
            lines.push(line)?;
        }
        rest = logical.rest;
    }
    Ok(lines)
}

/// A logical line as it stands in a text.
#[derive(Drop)]
struct Logical<'a> {
    /// Its text, unfolded.
    raw: Octets,
    /// The place of its first refused physical line.
    refused: Option<u64>,
    /// What stands behind it.
    rest: &'a [u8],
}

/// The first logical line of octets that stand at a place.
fn take_logical(alloc: Global, octets: &[u8], place: u64) -> Result<Logical<'_>, NoMemory>
    requires some { 0 < length octets.now }
    requires fits { place + length octets.now < 2 ^ 64 }
    ensures shorter { IfOk result (λ logical. length logical.rest.now < length octets.now) }
    ensures reads { IfOk result (λ logical. (done : List Line) → read_groups done (groups (physical_from place (pieces line_feed octets.now))) ≡ read_text done place logical.raw logical.refused (groups (physical_from (place + (length octets.now - length logical.rest.now)) (pieces line_feed logical.rest.now)))) }
{
    let (text, mut rest) = first_physical(octets);
    let mut raw = Octets::of(alloc, text)?;
    let mut refused = first_refused(None, text, place);
    'folds: while begins_with_blank(rest) {
        let at = place + (octets.len() - rest.len()) as u64;
        let (text, behind) = first_physical(rest);
        refused = first_refused(refused, text, at);
        raw.extend_from_slice(&text[1..])?;
        rest = behind;
    }
    Ok(Logical { raw, refused, rest })
}

/// The place of the first refused line: the one that is known, or else that of a physical line.
fn first_refused(refused: Option<u64>, text: &[u8], place: u64) -> Option<u64>
    ensures { result ≡ option_or refused (refused_place (record { place = place; text = text.now })) }
{
    if refused.is_none() && is_refused(text) {
        Some(place)
    } else {
        refused
    }
}

/// The line of a logical line's text, none if it is empty, or its first fault.
fn logical_line(
    alloc: Global,
    place: u64,
    raw: Octets,
    refused: Option<u64>,
) -> Result<Option<Line>, LineFault>
    ensures line { IfOk result (λ line. option_to_list line ≡ text_lines raw) }
    ensures none { IfOk result (λ line. text_fault place raw refused ≡ None) }
    ensures fault { (at : ℕ) → IsErrOf result (LineFault.At at) → text_fault place raw refused ≡ Some at }
{
    if raw.is_empty() {
        return unless_refused(None, refused);
    }
    match read_line(alloc, raw)? {
        None => Err(LineFault::At { place }),
        line => unless_refused(line, refused),
    }
}

/// The line, unless a physical line of it is refused.
fn unless_refused(line: Option<Line>, refused: Option<u64>) -> Result<Option<Line>, LineFault>
    ensures line { IfOk result (λ kept. kept ≡ line) }
    ensures none { IfOk result (λ kept. refused ≡ None) }
    ensures fault { (at : ℕ) → IsErrOf result (LineFault.At at) → refused ≡ Some at }
{
    match refused {
        Some(place) => Err(LineFault::At { place }),
        None => Ok(line),
    }
}

/// Whether the first logical line of octets has a text, and what stands behind it.
fn first_logical(octets: &[u8]) -> (bool, &[u8])
    requires some { 0 < length octets.now }
    ensures shorter { length result.1.now < length octets.now }
    ensures places { (number place : ℕ) → place_among number (groups (physical_from place (pieces line_feed octets.now))) ≡ place_text number place result.0 (groups (physical_from (place + (length octets.now - length result.1.now)) (pieces line_feed result.1.now))) }
{
    let (text, mut rest) = first_physical(octets);
    let mut has_text = !text.is_empty();
    'more: while begins_with_blank(rest) {
        let (text, behind) = first_physical(rest);
        has_text = has_text || 1 < text.len();
        rest = behind;
    }
    (has_text, rest)
}

/// The place in a text of the logical line of a number, counted from 0, the empty ones left out, or
/// 0 where there is no such line. It reads no line: it is for the place of a fault that was found.
pub fn line_place(octets: &[u8], number: usize) -> u64
    ensures logical { result ≡ place_of (get_or (logical_lines octets.now) number []) }
    ensures placed { line_fault octets.now ≡ None → result ≡ option_map_or (λ (line : Placed). line.place) (slice_get (placed_lines octets.now) number) 0 }
{
    let mut left = number;
    let mut rest = octets;
    'logical: while !rest.is_empty() {
        let place = (octets.len() - rest.len()) as u64;
        let (has_text, behind) = first_logical(rest);
        if has_text {
            if left == 0 {
                return place;
            }
            left -= 1;
        }
        rest = behind;
    }
    0
}
