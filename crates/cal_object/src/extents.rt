//! How a component says when it ends (RFC 5545, 3.6.1 to 3.6.4).
ghost use Rattle.std.specs.Prelude.{◌≡◌, codes, option_map, pos, neg_ℤ, IfSome};
ghost use Rattle.cal_moment.specs.Calendar.{IsBetween};
ghost use Rattle.cal_model.specs.Objects.ComponentReading as spec;
ghost use Rattle.cal_model.specs.Objects.LineValues.{stamp_at, value_at};
ghost use Rattle.cal_model.specs.Values.ValueTexts.{length_of};

use crate::line_dates::stamp_at;
use cal_base::Line;
use cal_model::{Extent, Kind};
use cal_moment::{Length, Stamp};
use ical_values::{ZoneNames, length_in};

/// The extent of a component that no line ends: a DATE lasts its day in a VEVENT and a VJOURNAL.
fn end_by_start(kind: Kind, start: Option<Stamp>) -> Extent
    ensures { result ≡ spec.end_by_start kind start }
{
    match (kind, start) {
        (Kind::Event | Kind::Journal, Some(Stamp::Date(_))) => Extent::WholeDay,
        (Kind::Todo, None) | (Kind::FreeBusy, _) => Extent::None,
        _ => Extent::Point,
    }
}

/// The extent of a component that neither DTEND nor DUE ends.
fn extent_without_end(kind: Kind, start: Option<Stamp>, length: Option<Length>) -> Extent
    ensures { result ≡ spec.extent_without_end kind start length }
{
    match length {
        Some(length) => Extent::Lasting(length),
        None => end_by_start(kind, start),
    }
}

/// The extent that DUE gives a VTODO, and DTEND all others.
fn end_stamp(zones: &ZoneNames, kind: Kind, lines: &[Line]) -> Option<Extent>
    ensures { result ≡ spec.end_stamp zones.now kind lines.now }
{
    match kind {
        Kind::Todo => due_stamp(zones, lines),
        Kind::Event | Kind::Journal | Kind::FreeBusy => other_end(zones, lines),
    }
}

/// The extent that DUE gives.
fn due_stamp(zones: &ZoneNames, lines: &[Line]) -> Option<Extent>
    ensures { result ≡ option_map Extent.Due (stamp_at zones.now (codes "DUE") lines.now) }
{
    match stamp_at(zones, lines, b"DUE") {
        Some(stamp) => Some(Extent::Due(stamp)),
        None => None,
    }
}

/// The extent that DTEND gives.
fn other_end(zones: &ZoneNames, lines: &[Line]) -> Option<Extent>
    ensures { result ≡ option_map Extent.End (stamp_at zones.now (codes "DTEND") lines.now) }
{
    match stamp_at(zones, lines, b"DTEND") {
        Some(stamp) => Some(Extent::End(stamp)),
        None => None,
    }
}

/// How a component says when it ends.
pub fn read_extent(zones: &ZoneNames, kind: Kind, lines: &[Line]) -> Extent
    ensures { result ≡ spec.extent_of zones.now kind lines.now }
{
    match end_stamp(zones, kind, lines) {
        Some(extent) => extent,
        None => extent_without_end(kind, stamp_at(zones, lines, b"DTSTART"), length_in(lines)),
    }
}
