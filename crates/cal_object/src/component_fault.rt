//! Components that cannot stand (RFC 5545, 3.6.1 to 3.6.4, 3.8.2.2 to 3.8.2.6 and 3.8.5.2).
ghost use Rattle.std.specs.Prelude.{◌≡◌, ◌++◌, Option, true, map, pos, neg_ℤ, ◌*ℤ◌, int_lt, codes};
ghost use Rattle.std.specs.List.{list_any};
ghost use Rattle.cal_moment.specs.Calendar.{IsBetween};
ghost use Rattle.cal_model.specs.declared.object.Class.{Class};
ghost use Rattle.cal_moment.specs.declared.stamp.Period.{Period};
ghost use Rattle.cal_model.specs.Instances.Alignment as alignment;
ghost use Rattle.cal_model.specs.Objects.ComponentLines.{lines_of};
ghost use Rattle.cal_model.specs.Objects.ComponentReading.{component_of, stored_busy_of};
ghost use Rattle.cal_model.specs.Objects.LineValues.{periods_at, value_at};
ghost use Rattle.cal_model.specs.Objects.ComponentFaults as spec;
ghost use Rattle.cal_model.specs.Objects.ZoneReading.{zone_names};
ghost use Rattle.cal_model.specs.Ranges.Overlap as overlap;
ghost use Rattle.cal_model.specs.Values.StampTexts as texts;
ghost use Rattle.cal_model.specs.Values.ValueTexts.{length_of};
ghost use Rattle.cal_object.specs.Alignments.{tables_of, aligned_by};
ghost use Rattle.cal_object.specs.BadDates.{has_bad_dates};
ghost use Rattle.cal_object.specs.Classes.{period_of_entry};

use crate::aligned::{Aligned, align_floating, align_timed};
use crate::line_dates::stamp_at;
use crate::named::has;
use cal_base::{Line, Node};
use cal_model::{Class, Component, LocalTimes, written_value};
use cal_moment::{Day, Length, Period, PeriodEnd, Stamp};
use ical_values::{ZoneNames, length_in};

const DAY: i64 = 86_400;

/// The most rules of a component.
const MOST_RULES: usize = 8;

/// Whether the zone of a stamp, if it has one, is there.
fn is_known(zones: &[LocalTimes<'_>], stamp: Stamp) -> bool
    ensures { result ≡ texts.is_known (zone_names (tables_of zones.now)) stamp }
{
    match stamp {
        Stamp::Zoned(_, number) => (number as usize) < zones.len(),
        Stamp::Date(_) | Stamp::Floating(_) | Stamp::Utc(_) => true,
    }
}

/// Whether one value lies before another; a local day lies before none.
fn is_before(end: Aligned, start: Aligned) -> bool
    ensures { result ≡ spec.is_before (aligned_by end) (aligned_by start) }
{
    match (end, start) {
        (Aligned::At(end), Aligned::At(start)) => end < start,
        _ => false,
    }
}

/// Whether the day of a stamp lies before a DATE.
fn is_before_day(end: Stamp, day: Day) -> bool
    ensures { result ≡ int_lt (alignment.midnight_of (alignment.written_value end)) (alignment.midnight_of (day.0 *ℤ pos 86_400)) }
{
    written_value(end).div_euclid(DAY) < day.0 as i64
}

/// Whether an end lies before a start, beside that start, where the zones of both are there.
fn known_ends_early(zones: &[LocalTimes<'_>], start: Stamp, end: Stamp) -> bool
    requires { spec.are_known (tables_of zones.now) start end ≡ true }
    ensures { result ≡ spec.is_before (alignment.align (tables_of zones.now) end start) (alignment.align (tables_of zones.now) start start) }
{
    match start {
        Stamp::Date(day) => is_before_day(end, day),
        Stamp::Floating(_) => is_before(align_floating(end), align_floating(start)),
        Stamp::Zoned(_, _) | Stamp::Utc(_) => {
            is_before(
                align_timed(zones, end, start),
                align_timed(zones, start, start),
            )
        }
    }
}

/// Whether an end lies before a start, beside that start; where a zone is missing, they are not
/// compared.
fn ends_early(zones: &[LocalTimes<'_>], start: Stamp, end: Stamp) -> bool
    ensures { result ≡ spec.ends_early (tables_of zones.now) start end }
{
    is_known(zones, start) && is_known(zones, end) && known_ends_early(zones, start, end)
}

/// Whether two stamps are both dates, both floating times, or both instants.
pub(crate) fn is_same_kind(one: Stamp, other: Stamp) -> bool
    ensures { result ≡ spec.same_kind (alignment.kind_of one) (alignment.kind_of other) }
{
    match one {
        Stamp::Date(_) => matches!(other, Stamp::Date(_)),
        Stamp::Floating(_) => matches!(other, Stamp::Floating(_)),
        Stamp::Zoned(_, _) | Stamp::Utc(_) => matches!(other, Stamp::Zoned(_, _) | Stamp::Utc(_)),
    }
}

/// Whether an end is of another kind than its start, or lies before it.
fn is_bad_end(zones: &[LocalTimes<'_>], start: Option<Stamp>, end: Option<Stamp>) -> bool
    ensures { result ≡ spec.is_bad_end (tables_of zones.now) start end }
{
    let (Some(start), Some(end)) = (start, end) else {
        return false;
    };
    !is_same_kind(end, start) || ends_early(zones, start, end)
}

/// Whether a period ends before it starts.
fn is_bad_period(zones: &[LocalTimes<'_>], period: Period) -> bool
    ensures { result ≡ spec.is_bad_period (tables_of zones.now) period }
{
    match period.end {
        PeriodEnd::At(end) => ends_early(zones, period.start, end),
        PeriodEnd::After(_) => false,
    }
}

/// Whether one of some periods ends before it starts.
fn has_bad_period(zones: &[LocalTimes<'_>], periods: &[Period]) -> bool
    ensures { result ≡ list_any (spec.is_bad_period (tables_of zones.now)) periods.now }
{
    periods.iter().any(|period| is_bad_period(zones, *period))
}

/// The same of the periods of FREEBUSY lines.
fn has_bad_busy(zones: &[LocalTimes<'_>], busy: &[(Option<Class>, Period)]) -> bool
    ensures { result ≡ list_any (λ (entry : Option Class × Period). spec.is_bad_period (tables_of zones.now) (period_of_entry entry)) busy.now }
{
    busy.iter().any(|entry| is_bad_period(zones, entry.1))
}

/// Whether a period of an RDATE or of a FREEBUSY ends before it starts.
#[tactic(auto, using(crate::proofs::BusyPeriods::any_of_both))]
fn has_early_period(
    zones: &[LocalTimes<'_>],
    periods: &[Period],
    busy: &[(Option<Class>, Period)],
) -> bool
    ensures { result ≡ list_any (spec.is_bad_period (tables_of zones.now)) (periods.now ++ map period_of_entry busy.now) }
{
    has_bad_period(zones, periods) || has_bad_busy(zones, busy)
}

/// Whether DTEND or DUE does not fit the start of a component, or a period of it ends early.
#[tactic(auto, using(crate::proofs::BusyPeriods::busy_periods))]
fn has_bad_dates(
    zones: &[LocalTimes<'_>],
    names: &ZoneNames,
    component: &Component,
    lines: &[Line],
) -> bool
    requires periods { component.now.periods ≡ periods_at names.now (codes "RDATE") lines.now }
    requires busy { component.now.stored_busy ≡ stored_busy_of names.now lines.now }
    ensures { result ≡ has_bad_dates names.now (tables_of zones.now) component.now.start lines.now }
{
    is_bad_end(zones, component.start, stamp_at(names, lines, b"DTEND"))
        || is_bad_end(zones, component.start, stamp_at(names, lines, b"DUE"))
        || has_early_period(
            zones,
            component.periods.as_slice(),
            component.stored_busy.as_slice(),
        )
}

/// Whether a length that is written has a minus and is not 0.
fn is_negative(length: Length) -> bool
    requires days { IsBetween (neg_ℤ (pos 6_999_999_993)) (pos 6_999_999_993) length.days }
    requires seconds { IsBetween (neg_ℤ (pos 10_800_000_000_000)) (pos 10_800_000_000_000) length.seconds }
    ensures { result ≡ int_lt (overlap.seconds_of length) (pos 0) }
{
    length.days * DAY + length.seconds < 0
}

/// Whether a length beside a DATE is not of whole days.
fn is_part_of_day(start: Option<Stamp>, length: Length) -> bool
    ensures { result ≡ spec.is_part_of_day start length }
{
    match start {
        Some(Stamp::Date(_)) => length.seconds.unsigned_abs() % DAY as u64 != 0,
        _ => false,
    }
}

/// Whether the DURATION of some lines is negative or does not fit their start.
fn has_bad_length(start: Option<Stamp>, lines: &[Line]) -> bool
    ensures { result ≡ spec.is_bad_length start (value_at length_of (codes "DURATION") lines.now) }
{
    match length_in(lines) {
        Some(length) => is_negative(length) || is_part_of_day(start, length),
        None => false,
    }
}

/// Whether two lines say when a component ends.
fn has_two_ends(lines: &[Line]) -> bool
    ensures { result ≡ spec.has_two_ends lines.now }
{
    has(lines, b"DURATION") && (has(lines, b"DTEND") || has(lines, b"DUE"))
}

/// Whether a component cannot stand: it has more than eight rules, two lines that say its end, an end
/// that is of another kind than its start or lies before it, a period that ends before it starts, or a
/// length that is negative or, beside a DATE, not of whole days. DTEND and DUE are both looked at, and
/// periods too, whatever the kind is. The component is the one that its node was read as.
#[tactic(auto, using(crate::proofs::FaultOrder::grouped))]
pub fn has_component_fault(
    zones: &[LocalTimes<'_>],
    names: &ZoneNames,
    component: &Component,
    node: &Node,
) -> bool
    requires names { names.now ≡ zone_names (tables_of zones.now) }
    requires made { component.now ≡ component_of names.now component.now.child component.now.kind node.now }
    ensures { result ≡ spec.has_component_fault (tables_of zones.now) (lines_of node.now) }
{
    let lines = node.lines.as_slice();
    component.rules.len() > MOST_RULES
        || has_two_ends(lines)
        || has_bad_dates(zones, names, component, lines)
        || has_bad_length(component.start, lines)
}
