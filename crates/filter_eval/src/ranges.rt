//! Whether a component passes a range by its rows, and an alarm by its triggers (RFC 4791, 9.7.1 and
//! 9.9; RFC 5545, 3.6.6). Each test asks for itself for some row of all that are given: row by row, or of
//! an alarm by the moments of the rows where these were made ready.

ghost use Rattle.std.specs.Prelude.{◌≡◌, ◌&&◌, ◌==◌, ◌∷◌, [], ℕ, List, All, Some, option_to_list};
ghost use Rattle.std.specs.List.{list_any, slice_get};
ghost use Rattle.cal_model.specs.Instances.Rows.{Numbered};
ghost use Rattle.cal_model.specs.Filters.ComponentRanges as spec;
ghost use Rattle.cal_model.specs.Filters.ComponentRanges.{Site};
ghost use Rattle.cal_model.specs.Objects.ComponentReading as reading;
ghost use Rattle.cal_model.specs.Ranges.Overlap as overlap;
ghost use Rattle.cal_model.specs.declared.row.Row.{Row as Instance};
ghost use Rattle.overlap_rules.specs.Bounds.{IsNearRow};
ghost use Rattle.filter_eval.specs.Places.{IsAt, IsReady, matched_of};

use crate::alarms::has_trigger;
use crate::moments::{dated_fixed, ready_moments, some_goes_off};
use crate::place::Place;
use crate::subject::{Spot, Subject};
use crate::walks::{first_component, first_row, next_component, next_row};
use cal_base::Node;
use cal_model::{Alarm, Component, Range, Row, Trigger};
use ical_values::{alarm_of, is_alarm};
use overlap_rules::{alarm_overlaps, lone_alarm_overlaps, row_overlaps};

/// Whether a row is one of a component and overlaps a range.
fn row_passes(
    subject: &Subject,
    range: Range,
    number: usize,
    component: &Component,
    row: &Row,
) -> bool
    requires ready { IsReady subject.now }
    requires near { IsNearRow row.now }
    ensures { result ≡ ((row.now.component == number) && overlap.row_overlaps component.now row.now range subject.now.zone.now) }
{
    row.component as usize == number && row_overlaps(component, row, range, subject.zone)
}

/// Whether some row of a component overlaps a range.
fn component_passes(subject: &Subject, range: Range, number: usize, component: &Component) -> bool
    requires { IsReady subject.now }
    ensures { result ≡ spec.component_passes (matched_of subject.now) range (record { number = number; component = component.now }) }
{
    let mut place = first_row(subject, number);
    'rows: while let Some(row) = subject.rows.get(place) {
        if row_passes(subject, range, number, component, row) {
            return true;
        }
        place = match subject.row_links {
            Some(links) => next_row(subject, links, number, place, row),
            None => place + 1,
        };
    }
    false
}

/// Whether a component is the child of a place and passes a range.
fn placed_passes(
    subject: &Subject,
    range: Range,
    child: usize,
    number: usize,
    component: &Component,
) -> bool
    requires { IsReady subject.now }
    ensures { result ≡ ((component.now.child == child) && spec.component_passes (matched_of subject.now) range (record { number = number; component = component.now })) }
{
    component.child as usize == child && component_passes(subject, range, number, component)
}

/// Whether some component that is the child of a place passes a range.
fn child_passes(subject: &Subject, range: Range, child: usize) -> bool
    requires { IsReady subject.now }
    ensures { result ≡ list_any (spec.component_passes (matched_of subject.now) range) (spec.component_at subject.now.object.now child) }
{
    let components = subject.object.components.as_slice();
    let mut number = first_component(subject, child);
    'components: while let Some(component) = components.get(number) {
        if placed_passes(subject, range, child, number, component) {
            return true;
        }
        number = next_component(subject, child, number, component);
    }
    false
}

/// Whether a row is one of a component, and an alarm of that goes off in a range by it.
fn alarm_passes_by_row(
    subject: &Subject,
    range: Range,
    number: usize,
    component: &Component,
    alarm: &Alarm,
    row: &Row,
) -> bool
    requires ready { IsReady subject.now }
    requires near { IsNearRow row.now }
    ensures { result ≡ ((row.now.component == number) && overlap.alarm_overlaps alarm.now component.now (overlap.dated_fixed row.now subject.now.zone.now) range) }
{
    row.component as usize == number
        && alarm_overlaps(alarm, component, dated_fixed(row, subject.zone), range)
}

/// Whether an alarm of a component goes off in a range by some row.
fn alarm_passes_by_rows(
    subject: &Subject,
    range: Range,
    number: usize,
    component: &Component,
    alarm: &Alarm,
) -> bool
    requires { IsReady subject.now }
    ensures { result ≡ list_any (λ (row : Instance). overlap.alarm_overlaps alarm.now component.now (overlap.dated_fixed row subject.now.zone.now) range) (spec.rows_of_number (matched_of subject.now) number) }
{
    let mut place = first_row(subject, number);
    'rows: while let Some(row) = subject.rows.get(place) {
        if alarm_passes_by_row(subject, range, number, component, alarm, row) {
            return true;
        }
        place = match subject.row_links {
            Some(links) => next_row(subject, links, number, place, row),
            None => place + 1,
        };
    }
    false
}

/// Whether an alarm of a component goes off in a range: an absolute one by no row, another by some row.
fn alarm_passes(
    subject: &Subject,
    range: Range,
    number: usize,
    component: &Component,
    alarm: &Alarm,
) -> bool
    requires ready { IsReady subject.now }
    requires component { slice_get subject.now.object.now.components number ≡ Some component.now }
    ensures { result ≡ spec.alarm_passes (matched_of subject.now) range (record { number = number; component = component.now }) alarm.now }
{
    match alarm.trigger {
        Trigger::At(_) => alarm_overlaps(alarm, component, None, range),
        Trigger::From(related, after) => match ready_moments(subject, number, related) {
            Some(moments) => some_goes_off(moments, alarm, after, range),
            None => alarm_passes_by_rows(subject, range, number, component, alarm),
        },
    }
}

/// Whether an alarm that stands directly in a component, behind so many others, passes a range.
fn held_alarm_passes(
    subject: &Subject,
    range: Range,
    node: &Node,
    number: usize,
    component: &Component,
    before: usize,
) -> bool
    requires ready { IsReady subject.now }
    requires component { slice_get subject.now.object.now.components number ≡ Some component.now }
    ensures { (site : Site) (place : ℕ) (more : List Numbered) → site.node ≡ node.now → before ≡ spec.alarms_before subject.now.object.now place component.now.child → result ≡ spec.valarm_passes (matched_of subject.now) range (record site { path = place ∷ component.now.child ∷ [] }) (record { number = number; component = component.now } ∷ more) }
{
    if !has_trigger(node) {
        return false;
    }
    match component.alarms.get(before) {
        Some(alarm) => alarm_passes(subject, range, number, component, alarm),
        None => false,
    }
}

/// Whether an alarm that stands directly in a child of the outermost component, behind so many
/// others, passes a range.
fn inner_alarm_passes(
    subject: &Subject,
    range: Range,
    node: &Node,
    child: usize,
    before: usize,
) -> bool
    requires { IsReady subject.now }
    ensures { (site : Site) (place : ℕ) → site.node ≡ node.now → before ≡ spec.alarms_before subject.now.object.now place child → result ≡ spec.valarm_passes (matched_of subject.now) range (record site { path = place ∷ child ∷ [] }) (spec.component_at subject.now.object.now child) }
{
    let components = subject.object.components.as_slice();
    let mut number = first_component(subject, child);
    'components: while let Some(component) = components.get(number) {
        if component.child as usize == child {
            return held_alarm_passes(subject, range, node, number, component, before);
        }
        number = next_component(subject, child, number, component);
    }
    lone_alarm_passes(range, node)
}

/// Whether an alarm that stands elsewhere passes a range: by its absolute trigger alone.
fn lone_alarm_passes(range: Range, node: &Node) -> bool
    ensures { result ≡ list_any (spec.lone_alarm_passes range) (option_to_list (reading.alarm_of node.now)) }
{
    match alarm_of(node) {
        Some(alarm) => lone_alarm_overlaps(&alarm, range),
        None => false,
    }
}

/// Whether a component passes a range: a VALARM by some trigger, one of the four kinds by some row,
/// and no other.
pub fn range_passes(subject: &Subject, range: Range, spot: &Spot) -> bool
    requires { IsReady subject.now }
    ensures { (site : Site) → IsAt subject.now.object.now spot.now site → result ≡ spec.range_passes (matched_of subject.now) range site }
{
    match (is_alarm(spot.node), spot.place) {
        (true, Place::Within { child, alarms }) => {
            inner_alarm_passes(subject, range, spot.node, child, alarms)
        }
        (true, _) => lone_alarm_passes(range, spot.node),
        (false, Place::Child(child)) => child_passes(subject, range, child),
        (false, _) => false,
    }
}

/// Whether a component passes a range that may be asked of it.
pub fn time_passes(subject: &Subject, time: Option<Range>, spot: &Spot) -> bool
    requires { IsReady subject.now }
    ensures { (site : Site) → IsAt subject.now.object.now spot.now site → result ≡ spec.time_range_passes (matched_of subject.now) time site }
{
    match time {
        Some(range) => range_passes(subject, range, spot),
        None => true,
    }
}
