//! The rows of several windows.
ghost use Rattle.std.specs.Prelude.{◌≡◌, ℕ, ◌+◌, ◌≤◌, ◌<◌, ◌^◌, ◌++◌, length, false, Some, All, AllPairs, IfOk, OnOk, filter, flat_map, map, sum, ℤ, pos, ◌+ℤ◌, ◌-ℤ◌, ◌*ℤ◌, ◌≤ℤ◌};
ghost use Rattle.cal_model.specs.Instances.Rows as spec;
ghost use Rattle.cal_model.specs.Instances.Rows.{window_seconds};
ghost use Rattle.cal_model.specs.Objects.ObjectFacts.{IsRead};
ghost use Rattle.cal_model.specs.Ranges.Cost.{cost};
ghost use Rattle.override_merge.specs.Conversions.{tables_of, HasZone, HasConvertibleRow, HasConvertibleRows, HasRowTimes};
ghost use Rattle.rrule_sets.specs.ExpandableObjects.{HasRowsToFind};
ghost use Rattle.rrule_sets.specs.MasterRows.{governed_rows};
ghost use Rattle.rrule_sets.specs.NearRows.{HasLesserId, LiesWhereInner};
ghost use Rattle.rrule_sets.specs.NeededDigits.{HasRange};
ghost use Rattle.rrule_sets.specs.SeveralWindows.{HasNeeded, looks_of};

use crate::governors::has_future;
use crate::near::{near_rows, rows_before, rows_from};
use crate::needed::{joined, needed};
use crate::once::{only_row, row_in_windows};
use crate::placed::{placed_rows, put_rows_of};
use crate::range::Digits;
use crate::window::{governed_rows, rows_beside};
use cal_base::{List, NoMemory, Steps};
use cal_model::{Component, LocalTimes, Object, Row, local_times_of};
use cal_moment::Stamp;
use override_merge::rows::Part;
use override_merge::starts::ids_start;
use override_merge::{has_overrides, merged_rows, put_asked_rows};
use std::alloc::Global;
use std::sync::ledger::Ledger;

/// A window, and the digits whose starts it needs.
#[derive(Clone, Copy)]
pub struct Needed {
    pub window: i32,
    pub range: Digits,
}

/// The digits that each of several windows needs. Takes a step for each window, and one for each
/// override beside it.
fn needed_of_each<L: Ledger>(
    alloc: Global,
    zones: &[LocalTimes<'_>],
    ids: Stamp,
    components: &[Component],
    windows: &[i32],
    steps: &mut Steps<L>,
) -> Result<List<Needed>, NoMemory>
    requires ids { HasZone (length zones.now) ids }
    requires components { All (HasConvertibleRow (length zones.now)) components.now }
    ensures steps { steps.new ≤ steps.old + sum (map (looks_of components.now) windows.now) }
    ensures windows { IfOk result (λ each. map (λ (n : Needed). n.window) each ≡ windows.now) }
    ensures needed { IfOk result (λ each. All (HasNeeded (tables_of zones.now) ids components.now) each) }
{
    let mut each = List::new(alloc);
    each.reserve(windows.len())?;
    let mut rest = windows;
    'windows: while let Some((window, behind)) = rest.split_first() {
        steps.tick();
        let range = needed(zones, ids, components, *window, steps);
        each.push(Needed {
            window: *window,
            range,
        })?;
        rest = behind;
    }
    Ok(each)
}

/// One range that has a first one and those of several windows.
fn joined_with(first: Digits, each: &[Needed]) -> Digits
    ensures first { HasRange result first }
    ensures each { All (λ (n : Needed). HasRange result n.range) each.now }
    ensures least { (z : ℤ) → first.high ≤ℤ z → All (λ (n : Needed). n.range.high ≤ℤ z) each.now → result.high ≤ℤ z }
{
    let mut range = first;
    let mut rest = each;
    'widening: while let Some((needed, behind)) = rest.split_first() {
        range = joined(range, needed.range);
        rest = behind;
    }
    range
}

/// Puts the rows of a window of an object that may have overrides behind others, given the rows of the
/// master, with those moved that overrides govern, in a range that has what the window needs.
fn put_with_overrides(
    alloc: Global,
    zones: &[LocalTimes<'_>],
    ids: Stamp,
    object: &Object,
    range: Digits,
    rows: &[Row],
    needed: &Needed,
    out: &mut List<Row>,
) -> Result<(), NoMemory>
    requires object { HasRowsToFind object.now }
    requires zones { tables_of zones.now ≡ object.now.zones }
    requires ids { Some ids ≡ spec.ids_start object.now }
    requires rows { rows.now ≡ governed_rows object.now ids range }
    requires range { HasRange range needed.now.range }
    requires needed { HasNeeded object.now.zones ids object.now.components needed.now }
    ensures { OnOk result (out.new ≡ out.old ++ spec.rows_in object.now needed.now.window) }
{
    let _ = range;
    let near = near_rows(rows, needed.range);
    let part = Part::Window(needed.window);
    let found = merged_rows(alloc, zones, ids, object, near, part)?;
    out.extend_from_slice(found.as_slice())
}

/// A day after a window of 64 days begins.
fn inner_start(window: i32) -> i128
    ensures { result ≡ window *ℤ window_seconds +ℤ pos 86_400 }
{
    window as i128 * 5_529_600 + 86_400
}

/// A day before a window of 64 days ends.
fn inner_end(window: i32) -> i128
    ensures { result ≡ (window +ℤ pos 1) *ℤ window_seconds -ℤ pos 86_400 }
{
    (window as i128 + 1) * 5_529_600 - 86_400
}

/// Puts the rows that lie in a window behind others. Of those that start a day or more within it, by
/// their ids, none is looked at.
fn put_near(
    zones: &[LocalTimes<'_>],
    object: &Object,
    window: i32,
    rows: &[Row],
    out: &mut List<Row>,
) -> Result<(), NoMemory>
    requires object { HasConvertibleRows object.now }
    requires zones { tables_of zones.now ≡ object.now.zones }
    requires times { All HasRowTimes rows.now }
    requires rising { AllPairs HasLesserId rows.now }
    requires inner { All (LiesWhereInner object.now window) rows.now }
    ensures { OnOk result (out.new ≡ out.old ++ filter (spec.lies_in_window object.now window) rows.now) }
{
    let (from, to) = (inner_start(window), inner_end(window));
    let first = rows_before(rows, from);
    let rest = rows_from(rows, from);
    let inner = rows_before(rest, to);
    let last = rows_from(rest, to);
    put_asked_rows(zones, object, first, Part::Window(window), out)?;
    out.extend_from_slice(inner)?;
    put_asked_rows(zones, object, last, Part::Window(window), out)
}

/// Puts the rows of a window behind others, given the rows of the master, with those moved that overrides
/// govern, in a range that has what the window needs. Without overrides they are those of the master
/// that lie in it, as they stand.
fn put_window(
    alloc: Global,
    zones: &[LocalTimes<'_>],
    ids: Stamp,
    object: &Object,
    range: Digits,
    rows: &[Row],
    needed: &Needed,
    out: &mut List<Row>,
) -> Result<(), NoMemory>
    requires object { HasRowsToFind object.now }
    requires zones { tables_of zones.now ≡ object.now.zones }
    requires ids { Some ids ≡ spec.ids_start object.now }
    requires rows { rows.now ≡ governed_rows object.now ids range }
    requires range { HasRange range needed.now.range }
    requires needed { HasNeeded object.now.zones ids object.now.components needed.now }
    ensures { OnOk result (out.new ≡ out.old ++ spec.rows_in object.now needed.now.window) }
{
    if has_overrides(object.components.as_slice()) {
        return put_with_overrides(alloc, zones, ids, object, range, rows, needed, out);
    }
    let near = near_rows(rows, needed.range);
    out.reserve(near.len())?;
    put_near(zones, object, needed.window, near, out)
}

/// The rows of several windows of an object of which overrides move later instances, given the rows of
/// the master, with those moved, in a range that has what each of them needs. What a window has may stand
/// anywhere among them, so they are put by their windows once.
fn rows_by_windows(
    alloc: Global,
    zones: &[LocalTimes<'_>],
    ids: Stamp,
    object: &Object,
    range: Digits,
    rows: &[Row],
    each: &[Needed],
) -> Result<List<Row>, NoMemory>
    requires object { HasRowsToFind object.now }
    requires zones { tables_of zones.now ≡ object.now.zones }
    requires ids { Some ids ≡ spec.ids_start object.now }
    requires rows { rows.now ≡ governed_rows object.now ids range }
    requires range { All (λ (n : Needed). HasRange range n.range) each.now }
    requires needed { All (HasNeeded object.now.zones ids object.now.components) each.now }
    ensures { IfOk result (λ rows. rows ≡ flat_map (spec.rows_in object.now) (map (λ (n : Needed). n.window) each.now)) }
{
    let _ = range;
    let placed = placed_rows(alloc, zones, ids, object, rows)?;
    let mut out = List::new(alloc);
    let mut rest = each;
    'windows: while let Some((needed, behind)) = rest.split_first() {
        put_rows_of(alloc, placed.as_slice(), needed.window, &mut out)?;
        rest = behind;
    }
    Ok(out)
}

/// The rows of several windows, given the rows of the master, with those moved that overrides govern, in
/// a range that has what each of them needs, window by window.
fn rows_of_windows(
    alloc: Global,
    zones: &[LocalTimes<'_>],
    ids: Stamp,
    object: &Object,
    range: Digits,
    rows: &[Row],
    each: &[Needed],
) -> Result<List<Row>, NoMemory>
    requires object { HasRowsToFind object.now }
    requires zones { tables_of zones.now ≡ object.now.zones }
    requires ids { Some ids ≡ spec.ids_start object.now }
    requires rows { rows.now ≡ governed_rows object.now ids range }
    requires range { All (λ (n : Needed). HasRange range n.range) each.now }
    requires needed { All (HasNeeded object.now.zones ids object.now.components) each.now }
    ensures { IfOk result (λ rows. rows ≡ flat_map (spec.rows_in object.now) (map (λ (n : Needed). n.window) each.now)) }
{
    let mut out = List::new(alloc);
    let mut rest = each;
    'windows: while let Some((needed, behind)) = rest.split_first() {
        put_window(alloc, zones, ids, object, range, rows, needed, &mut out)?;
        rest = behind;
    }
    Ok(out)
}

/// The rows of several windows, given the rows of the master, with those moved that overrides govern, in
/// a range that has what each of them needs.
fn rows_in_range(
    alloc: Global,
    zones: &[LocalTimes<'_>],
    ids: Stamp,
    object: &Object,
    range: Digits,
    rows: &[Row],
    each: &[Needed],
) -> Result<List<Row>, NoMemory>
    requires object { HasRowsToFind object.now }
    requires zones { tables_of zones.now ≡ object.now.zones }
    requires ids { Some ids ≡ spec.ids_start object.now }
    requires rows { rows.now ≡ governed_rows object.now ids range }
    requires range { All (λ (n : Needed). HasRange range n.range) each.now }
    requires needed { All (HasNeeded object.now.zones ids object.now.components) each.now }
    ensures { IfOk result (λ rows. rows ≡ flat_map (spec.rows_in object.now) (map (λ (n : Needed). n.window) each.now)) }
{
    if has_future(object.components.as_slice()) {
        return rows_by_windows(alloc, zones, ids, object, range, rows, each);
    }
    rows_of_windows(alloc, zones, ids, object, range, rows, each)
}

/// The rows of several windows, of which it is known what they need.
fn rows_of_needed<L: Ledger>(
    alloc: Global,
    zones: &[LocalTimes<'_>],
    ids: Stamp,
    object: &Object,
    each: &[Needed],
    steps: &mut Steps<L>,
) -> Result<List<Row>, NoMemory>
    requires object { HasRowsToFind object.now }
    requires zones { tables_of zones.now ≡ object.now.zones }
    requires ids { Some ids ≡ spec.ids_start object.now }
    requires needed { All (HasNeeded object.now.zones ids object.now.components) each.now }
    ensures steps { (before : ℕ) → steps.old ≤ before + sum (map (looks_of object.now.components) (map (λ (n : Needed). n.window) each.now)) → steps.new ≤ before + sum (map (cost object.now) (map (λ (n : Needed). n.window) each.now)) }
    ensures rows { IfOk result (λ rows. rows ≡ flat_map (spec.rows_in object.now) (map (λ (n : Needed). n.window) each.now)) }
{
    let Some((first, others)) = each.split_first() else {
        return Ok(List::new(alloc));
    };
    let range = joined_with(first.range, others);
    let rows = governed_rows(alloc, zones, ids, object, range, steps)?;
    rows_in_range(alloc, zones, ids, object, range, rows.as_slice(), each)
}

/// The rows of several windows, found in one walk over each rule as far as the last of them.
fn rows_of_one_walk<L: Ledger>(
    alloc: Global,
    zones: &[LocalTimes<'_>],
    ids: Stamp,
    object: &Object,
    windows: &[i32],
    steps: &mut Steps<L>,
) -> Result<List<Row>, NoMemory>
    requires object { HasRowsToFind object.now }
    requires zones { tables_of zones.now ≡ object.now.zones }
    requires ids { Some ids ≡ spec.ids_start object.now }
    ensures steps { steps.new ≤ steps.old + sum (map (cost object.now) windows.now) }
    ensures rows { IfOk result (λ rows. rows ≡ flat_map (spec.rows_in object.now) windows.now) }
{
    let components = object.components.as_slice();
    let each = needed_of_each(alloc, zones, ids, components, windows, steps)?;
    rows_of_needed(alloc, zones, ids, object, each.as_slice(), steps)
}

/// The same, each window by itself: of a rule without COUNT only what a window needs is walked over.
fn rows_of_each<L: Ledger>(
    alloc: Global,
    zones: &[LocalTimes<'_>],
    ids: Stamp,
    object: &Object,
    windows: &[i32],
    steps: &mut Steps<L>,
) -> Result<List<Row>, NoMemory>
    requires object { HasRowsToFind object.now }
    requires zones { tables_of zones.now ≡ object.now.zones }
    requires ids { Some ids ≡ spec.ids_start object.now }
    ensures steps { steps.new ≤ steps.old + sum (map (cost object.now) windows.now) }
    ensures rows { IfOk result (λ rows. rows ≡ flat_map (spec.rows_in object.now) windows.now) }
{
    let mut out = List::new(alloc);
    let mut rest = windows;
    'windows: while let Some((window, behind)) = rest.split_first() {
        steps.tick();
        let rows = rows_beside(alloc, zones, ids, object, *window, steps)?;
        out.extend_from_slice(rows.as_slice())?;
        rest = behind;
    }
    Ok(out)
}

/// Whether a rule of some components counts its occurrences, so that a walk over it begins with its
/// start.
fn is_counted(components: &[Component]) -> bool {
    components.iter().any(|component| component
        .rules
        .as_slice()
        .iter()
        .any(|rule| rule.count.is_some()))
}

/// Whether windows in rising order stand side by side, so that a walk over all of them goes over no other.
fn are_neighbours(windows: &[i32]) -> bool {
    match (windows.first(), windows.last()) {
        (Some(first), Some(last)) => (*last as i64 - *first as i64) < windows.len() as i64,
        _ => false,
    }
}

/// The dated rows of several windows: of each window those that `window_rows` gives, in the order of
/// the windows given. Rules are walked over once for all windows where these stand side by side, and
/// where a rule counts its occurrences.
/// Takes no more steps than finding the rows of each window by itself may cost.
pub fn windows_rows<L: Ledger>(
    alloc: Global,
    object: &Object,
    windows: &[i32],
    steps: &mut Steps<L>,
) -> Result<List<Row>, NoMemory>
    requires read { IsRead object.now }
    requires few { length object.now.components < 2 ^ 32 }
    requires coarse { spec.has_fine_rule object.now ≡ false }
    ensures steps { steps.new ≤ steps.old + sum (map (cost object.now) windows.now) }
    ensures rows { IfOk result (λ rows. rows ≡ flat_map (spec.rows_in object.now) windows.now) }
{
    if let Some((row, its)) = only_row(object) {
        return row_in_windows(alloc, row, its, windows);
    }
    let Some(ids) = ids_start(object) else {
        return Ok(List::new(alloc));
    };
    let zones = local_times_of(alloc, object.zones.as_slice())?;
    if are_neighbours(windows) || is_counted(object.components.as_slice()) {
        rows_of_one_walk(alloc, zones.as_slice(), ids, object, windows, steps)
    } else {
        rows_of_each(alloc, zones.as_slice(), ids, object, windows, steps)
    }
}
