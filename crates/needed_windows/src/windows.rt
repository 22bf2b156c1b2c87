//! The windows of 64 days in which ranges may meet the rows of an object.
ghost use Rattle.std.specs.Prelude.{◌≡◌, ◌<◌, ◌≤◌, ◌^◌, ◌&&◌, ◌++◌, ℕ, ℤ, pos, neg_ℤ, ◌+ℤ◌, ◌*ℤ◌, ◌≤ℤ◌, int_le, int_lt, nat_le, nat_lt, max, length, is_some, [], filter, flat_map, All, AllPairs, IfOk, IfSome, OnOk};
ghost use Rattle.std.specs.List.{list_any};
ghost use Rattle.std.specs.List.Sorted.{IsPermutation};
ghost use Rattle.cal_moment.specs.Calendar.{IsBetween};
ghost use Rattle.cal_model.specs.declared.object.Component.{Component as ComponentSpec};
ghost use Rattle.cal_model.specs.declared.row.Range.{Range};
ghost use Rattle.cal_model.specs.Instances.HappensOnce.{IsOnlyRow, window_of_start};
ghost use Rattle.cal_model.specs.Instances.Rows.{overrides, window_seconds};
ghost use Rattle.cal_model.specs.Ranges.Cost.{window_meets};
ghost use Rattle.cal_model.specs.Reports.NeededWindows.{counts, first_window, is_stated_window, stated_windows};
ghost use Rattle.cal_model.specs.Words.Integers.{same_int};
ghost use Rattle.cal_model.specs.Words.Lists.{numbers_between};
ghost use Rattle.override_merge.specs.Conversions.{tables_of, HasConvertibleRow, IsConvertible};
ghost use Rattle.override_merge.specs.ExpandableComponents.{IsExpandable};
ghost use Rattle.needed_windows.specs.Stretches.{IsStretch, Puts, StartsNoLater, holds, override_windows, places, places_in, window_of_place, windows_at};

use crate::margin::{margin, only_margin};
use cal_base::{List, NoMemory};
use cal_model::{Component, LocalTimes, Object, Range, Row};
use cal_moment::Stamp;
use override_merge::stamps::value_of;
use override_merge::starts::own_start;
use override_merge::zones::local_beside;
use std::alloc::Global;

/// 64 days, in seconds.
const WINDOW: i128 = 5_529_600;

/// The first window that has a date that is served.
const FIRST: i32 = -2_112;

/// How many windows have one.
const PLACES: i128 = 2_860;

/// The windows from one place on, up to another: places among those that have a date that is served.
#[derive(Clone, Copy)]
pub(crate) struct Stretch {
    pub(crate) first: u32,
    pub(crate) end: u32,
}

/// The place of a window, or the nearest of all places and the one behind them.
fn place_near(window: i128) -> u32
    requires { IsBetween (neg_ℤ (pos (2 ^ 121))) (pos (2 ^ 121)) window }
    ensures bound { result ≤ places }
    ensures from { (place : ℕ) → place < places → nat_le result place ≡ int_le window (window_of_place place) }
    ensures before { (place : ℕ) → place < places → nat_lt place result ≡ int_lt (window_of_place place) window }
{
    let place = window - FIRST as i128;
    if place < 0 {
        0
    } else if place > PLACES {
        PLACES as u32
    } else {
        place as u32
    }
}

/// The first place whose window ends behind a moment; the one behind all places where none does.
fn first_place(moment: i128) -> u32
    requires { IsBetween (neg_ℤ (pos (2 ^ 120))) (pos (2 ^ 120)) moment }
    ensures bound { result ≤ places }
    ensures from { (place : ℕ) → place < places → nat_le result place ≡ int_lt moment ((window_of_place place +ℤ pos 1) *ℤ window_seconds) }
{
    place_near(moment.div_euclid(WINDOW))
}

/// The place behind the last whose window begins before a moment; 0 where none does.
fn end_place(moment: i128) -> u32
    requires { IsBetween (neg_ℤ (pos (2 ^ 120))) (pos (2 ^ 120)) moment }
    ensures bound { result ≤ places }
    ensures before { (place : ℕ) → place < places → nat_lt place result ≡ int_lt (window_of_place place *ℤ window_seconds) moment }
{
    place_near((moment - 1).div_euclid(WINDOW) + 1)
}

/// The windows that have a moment from one moment on up to another.
fn stretch_between(start: i128, end: i128) -> Stretch
    requires start { IsBetween (neg_ℤ (pos (2 ^ 120))) (pos (2 ^ 120)) start }
    requires end { IsBetween (neg_ℤ (pos (2 ^ 120))) (pos (2 ^ 120)) end }
    ensures stretch { IsStretch result }
    ensures windows { (place : ℕ) → place < places → holds place result ≡ (int_lt start ((window_of_place place +ℤ pos 1) *ℤ window_seconds) && int_lt (window_of_place place *ℤ window_seconds) end) }
{
    Stretch {
        first: first_place(start),
        end: end_place(end),
    }
}

/// The windows that meet a range that is widened on both sides.
fn widened(range: Range, by: u128) -> Stretch
    requires { by < 2 ^ 115 }
    ensures stretch { IsStretch result }
    ensures windows { (place : ℕ) → place < places → holds place result ≡ window_meets by range (window_of_place place) }
{
    let by = by as i128;
    stretch_between(range.start.0 as i128 - by, range.end.0 as i128 + by)
}

/// Whether a window meets a range that is widened on both sides.
fn window_meets(by: u128, range: Range, window: i32) -> bool
    requires { by < 2 ^ 115 }
    ensures { result ≡ window_meets by range window }
{
    let by = by as i128;
    let begin = window as i128 * WINDOW;
    range.start.0 as i128 - by < begin + WINDOW && begin < range.end.0 as i128 + by
}

/// The same of one of several ranges.
fn meets_some(by: u128, ranges: &[Range], window: i32) -> bool
    requires { by < 2 ^ 115 }
    ensures { result ≡ list_any (λ (range : Range). window_meets by range window) ranges.now }
{
    let mut rest = ranges;
    'meeting: while let Some((range, behind)) = rest.split_first() {
        if window_meets(by, *range, window) {
            return true;
        }
        rest = behind;
    }
    false
}

/// Whether a window has a date that is served.
fn is_stated(window: i32) -> bool
    ensures { result ≡ is_stated_window window }
{
    FIRST <= window && window as i128 - (FIRST as i128) < PLACES
}

/// Whether some ranges may need a window of an object that happens once, given its row.
pub fn is_needed(object: &Object, row: &Row, ranges: &[Range], window: i32) -> bool
    requires only { IsOnlyRow object.now row.now }
    requires alone { overrides object.now ≡ [] }
    ensures { result ≡ (is_stated_window window && counts object.now ranges.now window) }
{
    is_stated(window) && meets_some(only_margin(object, row), ranges, window)
}

/// Puts the windows that meet a range, widened on both sides, to others.
fn put_range(range: Range, by: u128, out: &mut List<Stretch>) -> Result<(), NoMemory>
    requires { by < 2 ^ 115 }
    ensures { OnOk result (Puts (λ place. window_meets by range (window_of_place place)) out.old out.new) }
{
    out.push(widened(range, by))
}

/// The same of several ranges.
fn put_ranges(ranges: &[Range], by: u128, out: &mut List<Stretch>) -> Result<(), NoMemory>
    requires { by < 2 ^ 115 }
    ensures { OnOk result (Puts (λ place. list_any (λ (range : Range). window_meets by range (window_of_place place)) ranges.now) out.old out.new) }
{
    let mut rest = ranges;
    'widening: while let Some((range, behind)) = rest.split_first() {
        put_range(*range, by, out)?;
        rest = behind;
    }
    Ok(())
}

/// The window in which a component starts.
fn stretch_of_start(zones: &[LocalTimes<'_>], stamp: Stamp) -> Stretch
    requires { IsConvertible (length zones.now) stamp }
    ensures stretch { IsStretch result }
    ensures window { (place : ℕ) → place < places → holds place result ≡ same_int (window_of_place place) (window_of_start (tables_of zones.now) stamp) }
{
    let start = local_beside(zones, stamp, value_of(zones, stamp)) as i128;
    stretch_between(start, start + 1)
}

/// Puts the window in which an override starts to others.
fn put_override(
    zones: &[LocalTimes<'_>],
    component: &Component,
    out: &mut List<Stretch>,
) -> Result<(), NoMemory>
    requires { HasConvertibleRow (length zones.now) component.now }
    ensures { OnOk result (Puts (λ place. list_any (same_int (window_of_place place)) (override_windows (tables_of zones.now) component.now)) out.old out.new) }
{
    if component.recurrence_id.is_none() {
        return Ok(());
    }
    match own_start(component) {
        Some(stamp) => out.push(stretch_of_start(zones, stamp)),
        None => Ok(()),
    }
}

/// The same of the overrides among some components.
fn put_overrides(
    zones: &[LocalTimes<'_>],
    components: &[Component],
    out: &mut List<Stretch>,
) -> Result<(), NoMemory>
    requires { All (IsExpandable (length zones.now)) components.now }
    ensures { OnOk result (Puts (λ place. list_any (same_int (window_of_place place)) (flat_map (override_windows (tables_of zones.now)) components.now)) out.old out.new) }
{
    let mut rest = components;
    'overrides: while let Some((component, behind)) = rest.split_first() {
        put_override(zones, component, out)?;
        rest = behind;
    }
    Ok(())
}

/// Stretches by their first windows.
fn by_first(stretches: List<Stretch>) -> Result<List<Stretch>, NoMemory>
    ensures same { IfOk result (IsPermutation stretches) }
    ensures rising { IfOk result (AllPairs StartsNoLater) }
{
    let mut items = stretches.into_vec();
    match items.sort_by_key(|stretch| stretch.first) {
        Ok(()) => Ok(List::from_vec(items)),
        Err(_) => Err(NoMemory),
    }
}

/// The window at a place.
fn window_at(place: u32) -> i32
    requires { place < places }
    ensures { result ≡ window_of_place place }
{
    FIRST + place as i32
}

/// Puts the windows from one place up to another behind others.
fn put_between(first: u32, end: u32, out: &mut List<i32>) -> Result<(), NoMemory>
    requires { end ≤ places }
    ensures { OnOk result (out.new ≡ out.old ++ windows_at (numbers_between first end)) }
{
    let mut place = first;
    'places: while place < end {
        out.push(window_at(place))?;
        place += 1;
    }
    Ok(())
}

/// The later of two places.
fn later(a: u32, b: u32) -> u32
    ensures { result ≡ max a b }
{
    if a < b { b } else { a }
}

/// The windows of stretches, in order and each once. The stretches come by their first windows.
fn windows_of(alloc: Global, stretches: &[Stretch]) -> Result<List<i32>, NoMemory>
    requires each { All IsStretch stretches.now }
    requires rising { AllPairs StartsNoLater stretches.now }
    ensures { IfOk result (λ windows. windows ≡ windows_at (places_in stretches.now)) }
{
    let mut windows = List::new(alloc);
    let mut next = 0;
    let mut rest = stretches;
    'stretches: while let Some((stretch, behind)) = rest.split_first() {
        let first = later(stretch.first, next);
        put_between(first, stretch.end, &mut windows)?;
        next = later(stretch.end, next);
        rest = behind;
    }
    Ok(windows)
}

/// Whether one of some components is an override.
fn has_override(components: &[Component]) -> bool
    ensures { result ≡ list_any (λ (c : ComponentSpec). is_some c.recurrence_id) components.now }
{
    components
        .iter()
        .any(|component| component.recurrence_id.is_some())
}

/// The windows of an object that some ranges may need, where there is one range and no override.
fn only_stretch(zones: &[LocalTimes<'_>], object: &Object, ranges: &[Range]) -> Option<Stretch>
    requires zones { tables_of zones.now ≡ object.now.zones }
    requires lengths { All (IsExpandable (length zones.now)) object.now.components }
    ensures stretch { IfSome result IsStretch }
    ensures windows { IfSome result (λ stretch. (place : ℕ) → place < places → holds place stretch ≡ counts object.now ranges.now (window_of_place place)) }
{
    let (range, more) = ranges.split_first()?;
    if !more.is_empty() || has_override(object.components.as_slice()) {
        return None;
    }
    Some(widened(*range, margin(zones, object)))
}

/// The windows of an object that some ranges may need, in order: those that meet one of them, widened
/// by how far a row can be met, and those in which an override starts; none where there is no range.
pub fn windows_needed(
    alloc: Global,
    zones: &[LocalTimes<'_>],
    object: &Object,
    ranges: &[Range],
) -> Result<List<i32>, NoMemory>
    requires zones { tables_of zones.now ≡ object.now.zones }
    requires lengths { All (IsExpandable (length zones.now)) object.now.components }
    ensures { IfOk result (λ windows. windows ≡ filter (counts object.now ranges.now) stated_windows) }
{
    if ranges.is_empty() {
        return Ok(List::new(alloc));
    }
    if let Some(stretch) = only_stretch(zones, object, ranges) {
        return windows_of(alloc, &[stretch]);
    }
    let mut stretches = List::new(alloc);
    put_ranges(ranges, margin(zones, object), &mut stretches)?;
    put_overrides(zones, object.components.as_slice(), &mut stretches)?;
    let stretches = by_first(stretches)?;
    windows_of(alloc, stretches.as_slice())
}
