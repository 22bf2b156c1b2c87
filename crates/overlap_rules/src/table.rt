//! The table of RFC 4791, 9.9: which line fits a component, and what each line asks of a range.

ghost use Rattle.std.specs.Prelude.{◌≡◌, pos, ◌+ℤ◌, ◌*ℤ◌, ◌&&◌, ◌||◌, int_le, int_lt, map, true, ℤ, Option, nat_le};
ghost use Rattle.cal_model.specs.declared.object.Class.{Class};
ghost use Rattle.cal_model.specs.declared.object.Component.{Component};
ghost use Rattle.cal_moment.specs.declared.stamp.Period.{Period};
ghost use Rattle.cal_model.specs.Ranges.Overlap as spec;
ghost use Rattle.cal_model.specs.TimeZones.TableBounds.{IsTable};
ghost use Rattle.overlap_rules.specs.Bounds.{HasDays, IsNearRow};

use crate::moments::{moments_of, stored_period};
use cal_base::List;
use cal_model::{Class, Component, Extent, Fixed, Kind, Range, Row, RowKind, ZoneTable};
use cal_moment::{Length, Period, Stamp, Utc};

/// The lines of events and days: the instance lasts up to its end.
fn spans(at: Fixed, range: Range) -> bool
    ensures { result ≡ spec.holds spec.spans range.start.0 range.end.0 at.start at.end }
{
    range.start.0 < at.end && at.start < range.end.0
}

/// The lines of an instance that stands at its start alone.
fn begins(at: Fixed, range: Range) -> bool
    ensures { result ≡ spec.holds spec.begins range.start.0 range.end.0 at.start at.end }
{
    range.start.0 <= at.start && at.start < range.end.0
}

/// The line of a to-do with DTSTART and DURATION.
fn lasts(at: Fixed, range: Range) -> bool
    ensures { result ≡ spec.holds spec.lasts range.start.0 range.end.0 at.start at.end }
{
    range.start.0 <= at.end && (at.start < range.end.0 || at.end <= range.end.0)
}

/// The line of a to-do with DTSTART and DUE.
fn runs_to_due(at: Fixed, range: Range) -> bool
    ensures { result ≡ spec.holds spec.runs_to_due range.start.0 range.end.0 at.start at.end }
{
    (range.start.0 < at.end || range.start.0 <= at.start)
        && (at.start < range.end.0 || at.end <= range.end.0)
}

/// The line of a to-do with DUE alone.
fn due_alone(at: Fixed, range: Range) -> bool
    ensures { result ≡ spec.holds spec.due_alone range.start.0 range.end.0 at.start at.end }
{
    range.start.0 < at.end && at.end <= range.end.0
}

/// The line of a VFREEBUSY with DTSTART and DTEND.
fn stated(at: Fixed, range: Range) -> bool
    ensures { result ≡ spec.holds spec.stated range.start.0 range.end.0 at.start at.end }
{
    range.start.0 <= at.end && at.start < range.end.0
}

/// Whether a length is more than nothing.
fn is_positive(length: Length) -> bool
    ensures { result ≡ spec.is_positive length }
{
    0 < length.days || 0 < length.seconds
}

/// An event, by DTSTART and its end.
fn event_overlaps(start: Option<Stamp>, extent: Extent, at: Fixed, range: Range) -> bool
    ensures { result ≡ spec.holds (spec.line_of_event start extent) range.start.0 range.end.0 at.start at.end }
{
    if start.is_none() {
        return false;
    }
    match extent {
        Extent::End(_) | Extent::WholeDay => spans(at, range),
        Extent::Lasting(length) if is_positive(length) => spans(at, range),
        _ => begins(at, range),
    }
}

/// One of two moments lies at a range's start or after it.
fn one_is_from(start: Utc, first: Utc, second: Utc) -> bool
    ensures { result ≡ (int_le start.0 first.0 || int_le start.0 second.0) }
{
    start.0 <= first.0 || start.0 <= second.0
}

/// One of two moments lies at a range's end or before it.
fn one_is_until(end: Utc, first: Utc, second: Utc) -> bool
    ensures { result ≡ (int_le first.0 end.0 || int_le second.0 end.0) }
{
    first.0 <= end.0 || second.0 <= end.0
}

/// The line of a to-do with COMPLETED and CREATED and without DTSTART and DUE.
fn from_created_to_completed(completed: Utc, created: Utc, range: Range) -> bool
    ensures { (s e : ℤ) → result ≡ spec.holds (spec.completed_and_created completed.0 created.0) range.start.0 range.end.0 s e }
{
    one_is_from(range.start, created, completed) && one_is_until(range.end, created, completed)
}

/// A to-do without DTSTART and DUE, by COMPLETED and CREATED, as far as they are there.
fn dates_overlap(completed: Option<Utc>, created: Option<Utc>, range: Range) -> bool
    ensures { (s e : ℤ) → result ≡ spec.holds (spec.line_of_dates completed created) range.start.0 range.end.0 s e }
{
    match (completed, created) {
        (Some(done), Some(made)) => from_created_to_completed(done, made, range),
        (Some(done), None) => range.start.0 <= done.0 && done.0 <= range.end.0,
        (None, Some(made)) => made.0 < range.end.0,
        (None, None) => true,
    }
}

/// A to-do, by DTSTART and its end, else by its other dates.
fn todo_overlaps(component: &Component, at: Fixed, range: Range) -> bool
    ensures { result ≡ spec.holds (spec.line_of_todo component.now.start component.now.extent (spec.line_of_dates component.now.completed component.now.created)) range.start.0 range.end.0 at.start at.end }
{
    match (component.start, component.extent) {
        (Some(_), Extent::Lasting(_)) => lasts(at, range),
        (Some(_), Extent::Due(_)) => runs_to_due(at, range),
        (Some(_), _) => begins(at, range),
        (None, Extent::Due(_)) => due_alone(at, range),
        (None, _) => dates_overlap(component.completed, component.created, range),
    }
}

/// A journal, by DTSTART.
fn journal_overlaps(start: Option<Stamp>, at: Fixed, range: Range) -> bool
    ensures { result ≡ spec.holds (spec.line_of_journal start) range.start.0 range.end.0 at.start at.end }
{
    match start {
        None => false,
        Some(Stamp::Date(_)) => spans(at, range),
        Some(_) => begins(at, range),
    }
}

/// A stored period against a range: they share a second.
pub fn period_overlaps(period: &Period, range: Range) -> bool
    ensures { result ≡ (int_lt range.start.0 (spec.stored_period period.now).1 && int_lt (spec.stored_period period.now).0 range.end.0) }
{
    let (start, end) = stored_period(period);
    (range.start.0 as i128) < end && start < range.end.0 as i128
}

/// A VFREEBUSY without DTSTART or DTEND, by its periods, whatever their classes.
fn some_period_overlaps(periods: &[(Option<Class>, Period)], range: Range) -> bool
    ensures { result ≡ spec.some_meets range.start.0 range.end.0 (map (λ (s : Option Class × Period). spec.stored_period s.1) periods.now) }
{
    periods
        .iter()
        .any(|stored| period_overlaps(&stored.1, range))
}

/// A VFREEBUSY, by DTSTART and DTEND, else by its periods.
fn free_busy_overlaps(component: &Component, at: Fixed, range: Range) -> bool
    ensures { result ≡ spec.holds (spec.line_of_free_busy component.now.start component.now.extent (map (λ (s : Option Class × Period). spec.stored_period s.1) component.now.stored_busy)) range.start.0 range.end.0 at.start at.end }
{
    match (component.start, component.extent) {
        (Some(_), Extent::End(_)) => stated(at, range),
        _ => some_period_overlaps(component.stored_busy.as_slice(), range),
    }
}

/// Whether an instance of a component from and to these moments overlaps a range (RFC 4791, 9.9).
/// Of a VJOURNAL that is a DATE the instance has to end with its day, as `row_overlaps` sees to.
pub fn overlaps(component: &Component, at: Fixed, range: Range) -> bool
    ensures { result ≡ spec.overlaps component.now at range }
{
    match component.kind {
        Kind::Event => event_overlaps(component.start, component.extent, at, range),
        Kind::Todo => todo_overlaps(component, at, range),
        Kind::Journal => journal_overlaps(component.start, at, range),
        Kind::FreeBusy => free_busy_overlaps(component, at, range),
    }
}

/// A row as a range looks at it: a VJOURNAL that is a DATE lasts that day, whatever its end is.
fn row_for_range(kind: Kind, row: &Row) -> Row
    requires { IsNearRow row.now }
    ensures value { (c : Component) → c.kind ≡ kind → result ≡ spec.row_for_range c row.now }
    ensures near { HasDays result }
{
    match (kind, row.kind) {
        (Kind::Journal, RowKind::Date) => Row {
            end: row.start + 86_400,
            ..*row
        },
        _ => *row,
    }
}

/// Whether a row of a component overlaps a range (RFC 4791, 9.9), floating times and dates read in a
/// zone.
pub fn row_overlaps(component: &Component, row: &Row, range: Range, zone: &ZoneTable) -> bool
    requires zone { IsTable zone.now }
    requires near { IsNearRow row.now }
    ensures { result ≡ spec.row_overlaps component.now row.now range zone.now }
{
    let row = row_for_range(component.kind, row);
    overlaps(component, moments_of(&row, zone), range)
}
