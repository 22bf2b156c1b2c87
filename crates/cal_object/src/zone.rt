//! The parts of a VTIMEZONE, and whether it can stand (RFC 5545, 3.6.5).
ghost use Rattle.std.specs.Prelude.{◌≡◌, ◌++◌, [], filter, filter_map, option_to_list, IfOk, OnOk};
ghost use Rattle.std.specs.List.{list_any};
ghost use Rattle.cal_base.specs.declared.line.Node.{Node};
ghost use Rattle.cal_model.specs.declared.zone.ZonePart.{ZonePart};
ghost use Rattle.cal_model.specs.Recurrence.NextPassing as passing;
ghost use Rattle.cal_model.specs.Objects.ComponentLines.{lines_of};
ghost use Rattle.cal_model.specs.Objects.ZoneReading as spec;

use crate::line_dates::stamp_at;
use crate::named::{has, is_named};
use crate::zone_dates::{local_digits, offset_at, part_dates, rules_of};
use cal_base::{Line, List, NoMemory, Node};
use cal_model::{Freq, Rule, ZonePart};
use ical_values::{ZoneNames, one_of};
use std::alloc::Global;

/// The most rules of a part.
const MOST_RULES: usize = 8;

/// The part that lines say: they have DTSTART and both offsets. What lacks one of them is no part.
fn part_of_lines(
    alloc: Global,
    zones: &ZoneNames,
    lines: &[Line],
) -> Result<Option<ZonePart>, NoMemory>
    requires { zones.now ≡ [] }
    ensures { IfOk result (λ part. part ≡ spec.part_of_lines lines.now) }
{
    let start = stamp_at(zones, lines, b"DTSTART");
    let from = offset_at(lines, b"TZOFFSETFROM");
    let to = offset_at(lines, b"TZOFFSETTO");
    match (start, from, to) {
        (Some(start), Some(from), Some(to)) => Ok(Some(ZonePart {
            start: local_digits(start),
            from,
            to,
            rules: rules_of(alloc, lines)?,
            dates: part_dates(alloc, zones, lines)?,
        })),
        _ => Ok(None),
    }
}

/// Whether a component of a zone is a part.
fn is_part(node: &Node) -> bool
    ensures { result ≡ spec.is_part node.now }
{
    is_named(node, b"STANDARD") || is_named(node, b"DAYLIGHT")
}

/// Puts the part that a component says, if it says one, behind others.
fn put_part(
    alloc: Global,
    zones: &ZoneNames,
    node: &Node,
    parts: &mut List<ZonePart>,
) -> Result<(), NoMemory>
    requires { zones.now ≡ [] }
    ensures { OnOk result (parts.new ≡ parts.old ++ option_to_list (spec.part_of_lines (lines_of node.now))) }
{
    match part_of_lines(alloc, zones, node.lines.as_slice())? {
        Some(part) => parts.push(part),
        None => Ok(()),
    }
}

/// The parts among the components of a zone, in order.
fn parts_among(alloc: Global, zones: &ZoneNames, nodes: &[Node]) -> Result<List<ZonePart>, NoMemory>
    requires { zones.now ≡ [] }
    ensures { IfOk result (λ parts. parts ≡ filter_map (λ (node : Node). spec.part_of_lines (lines_of node)) (filter spec.is_part nodes.now)) }
{
    let mut parts = List::new(alloc);
    let mut rest = nodes;
    'nodes: while let Some((node, behind)) = rest.split_first() {
        if is_part(node) {
            put_part(alloc, zones, node, &mut parts)?;
        }
        rest = behind;
    }
    Ok(parts)
}

/// The parts of a zone. `zones` has no name: the dates of a zone are read by their digits.
pub fn parts_of_zone(
    alloc: Global,
    zones: &ZoneNames,
    zone: &Node,
) -> Result<List<ZonePart>, NoMemory>
    requires { zones.now ≡ [] }
    ensures { IfOk result (λ parts. parts ≡ spec.parts_of_zone zone.now) }
{
    parts_among(alloc, zones, zone.children.as_slice())
}

/// Whether a rule repeats within the hour.
fn is_fine(freq: Freq) -> bool
    ensures { result ≡ passing.is_fine freq }
{
    match freq {
        Freq::Secondly | Freq::Minutely => true,
        Freq::Hourly | Freq::Daily | Freq::Weekly | Freq::Monthly | Freq::Yearly => false,
    }
}

/// Whether a part has a rule that repeats within the hour.
fn is_fine_part(part: &ZonePart) -> bool
    ensures { result ≡ spec.is_fine_part part.now }
{
    part.rules.iter().any(|rule| is_fine(rule.freq))
}

/// Whether there are more than eight rules.
pub fn are_many(rules: &[Rule]) -> bool
    ensures { result ≡ spec.are_many rules.now }
{
    MOST_RULES < rules.len()
}

/// Whether some part has a rule that repeats within the hour.
fn some_fine(parts: &[ZonePart]) -> bool
    ensures { result ≡ list_any spec.is_fine_part parts.now }
{
    parts.iter().any(|part| is_fine_part(part))
}

/// Whether some part has more than eight rules.
fn some_many(parts: &[ZonePart]) -> bool
    ensures { result ≡ list_any (λ (part : ZonePart). spec.are_many part.rules) parts.now }
{
    parts.iter().any(|part| are_many(part.rules.as_slice()))
}

/// Whether a zone cannot stand by itself: it has no TZID, no part, a rule that repeats within the
/// hour, or a part with more than eight rules.
pub fn has_zone_fault(zone: &Node, parts: &[ZonePart]) -> bool
    requires { parts.now ≡ spec.parts_of_zone zone.now }
    ensures { result ≡ spec.has_zone_fault zone.now }
{
    !has(zone.lines.as_slice(), b"TZID") || parts.is_empty() || some_fine(parts) || some_many(parts)
}

/// The value of TZID, which is compared octet by octet.
pub fn zone_name(zone: &Node) -> &[u8]
    ensures { result.now ≡ spec.zone_name zone.now }
{
    match one_of(zone.lines.as_slice(), b"TZID") {
        Some(line) => line.value.as_slice(),
        None => &[],
    }
}
