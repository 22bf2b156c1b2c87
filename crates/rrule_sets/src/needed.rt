//! The digits whose starts a window needs.
ghost use Rattle.std.specs.Prelude.{◌≡◌, ◌+◌, ◌∷◌, [], length, All, IfSome, flat_map, option_to_list, pos, ℤ, ◌+ℤ◌, ◌*ℤ◌, ◌≤ℤ◌};
ghost use Rattle.cal_moment.specs.declared.stamp.Stamp.{Stamp};
ghost use Rattle.cal_model.specs.Instances.Alignment as alignment;
ghost use Rattle.cal_model.specs.Instances.Rows.{window_at, window_seconds};
ghost use Rattle.cal_model.specs.Words.Integers.{same_int};
ghost use Rattle.override_merge.specs.Conversions.{tables_of, HasZone, HasConvertibleRow, IsConvertible, IsRowTime};
ghost use Rattle.rrule_sets.specs.HeldGovernors.{days_of_movers};
ghost use Rattle.rrule_sets.specs.NeededDigits.{HasWindow, HasDay, HasRange, days_needed, overrides_in};
ghost use Rattle.rrule_sets.specs.NeededRanges.{HasMovedOfAll, IsBehind, IsNeeded};

use crate::governors::{day_of, day_of_mover, has_future};
use crate::moved::moved_digits_of;
use crate::range::{Digits, window_digits};
use cal_base::Steps;
use cal_model::{Component, LocalTimes};
use cal_moment::Stamp;
use override_merge::stamps::{align, value_of};
use override_merge::starts::own_start;
use override_merge::zones::local_beside;
use std::sync::ledger::Ledger;

/// 64 days, in seconds.
const WINDOW: i64 = 5_529_600;

const DAY: i64 = 86_400;

/// Whether a component that starts at a stamp starts in a window.
fn starts_in_window(zones: &[LocalTimes<'_>], stamp: Stamp, window: i32) -> bool
    requires { IsConvertible (length zones.now) stamp }
    ensures { result ≡ same_int (window_at ((alignment.reading_of (tables_of zones.now) stamp).local (alignment.value_of (tables_of zones.now) stamp))) window }
{
    local_beside(zones, stamp, value_of(zones, stamp)).div_euclid(WINDOW) == window as i64
}

/// The local day that an override names, by its midnight, where it names one and its own row lies in the
/// window.
fn day_needed(
    zones: &[LocalTimes<'_>],
    ids: Stamp,
    window: i32,
    component: &Component,
) -> Option<i64>
    requires ids { HasZone (length zones.now) ids }
    requires component { HasConvertibleRow (length zones.now) component.now }
    ensures value { option_to_list result ≡ days_needed (tables_of zones.now) ids window component.now }
    ensures near { IfSome result IsRowTime }
{
    let id = component.recurrence_id?;
    let stamp = own_start(component)?;
    if starts_in_window(zones, stamp, window) {
        day_of(align(zones, id, ids))
    } else {
        None
    }
}

/// The range with a local day.
fn with_midnight(range: Digits, midnight: i64) -> Digits
    requires { IsRowTime midnight }
    ensures range { HasRange result range }
    ensures day { HasDay result midnight }
    ensures least { (z : ℤ) → range.high ≤ℤ z → (midnight +ℤ pos 86400) ≤ℤ z → result.high ≤ℤ z }
{
    Digits {
        low: range.low.min(midnight),
        high: range.high.max(midnight + DAY),
    }
}

/// The range with a local day, if one is given.
fn with_day(range: Digits, day: Option<i64>) -> Digits
    requires { IfSome day IsRowTime }
    ensures range { HasRange result range }
    ensures day { All (HasDay result) (option_to_list day) }
    ensures least { (z : ℤ) → range.high ≤ℤ z → All (λ midnight. (midnight +ℤ pos 86400) ≤ℤ z) (option_to_list day) → result.high ≤ℤ z }
{
    match day {
        Some(midnight) => with_midnight(range, midnight),
        None => range,
    }
}

/// One step for an override.
fn count_override<L: Ledger>(component: &Component, steps: &mut Steps<L>)
    ensures { steps.new ≡ steps.old + overrides_in (component.now ∷ []) }
{
    if component.recurrence_id.is_some() {
        steps.tick();
    }
}

/// The digits of a window, and of each local day that an override names whose own row lies in it. Takes a
/// step for each override.
fn with_own_days<L: Ledger>(
    zones: &[LocalTimes<'_>],
    ids: Stamp,
    components: &[Component],
    window: i32,
    steps: &mut Steps<L>,
) -> Digits
    requires ids { HasZone (length zones.now) ids }
    requires components { All (HasConvertibleRow (length zones.now)) components.now }
    ensures steps { steps.new ≡ steps.old + overrides_in components.now }
    ensures window { HasWindow window result }
    ensures days { All (HasDay result) (flat_map (days_needed (tables_of zones.now) ids window) components.now) }
    ensures least { (z : ℤ) → ((window +ℤ pos 1) *ℤ window_seconds) ≤ℤ z → All (λ midnight. (midnight +ℤ pos 86400) ≤ℤ z) (flat_map (days_needed (tables_of zones.now) ids window) components.now) → result.high ≤ℤ z }
{
    let mut range = window_digits(window);
    let mut rest = components;
    'overrides: while let Some((component, behind)) = rest.split_first() {
        count_override(component, steps);
        range = with_day(range, day_needed(zones, ids, window, component));
        rest = behind;
    }
    range
}

/// One range that has two.
pub fn joined(a: Digits, b: Digits) -> Digits
    ensures first { HasRange result a }
    ensures second { HasRange result b }
    ensures least { (z : ℤ) → a.high ≤ℤ z → b.high ≤ℤ z → result.high ≤ℤ z }
{
    Digits {
        low: a.low.min(b.low),
        high: a.high.max(b.high),
    }
}

/// The range with another, if one is given.
fn with_digits(range: Digits, more: Option<Digits>) -> Digits
    ensures range { HasRange result range }
    ensures more { All (HasRange result) (option_to_list more) }
    ensures least { (z : ℤ) → range.high ≤ℤ z → All (λ (part : Digits). part.high ≤ℤ z) (option_to_list more) → result.high ≤ℤ z }
{
    match more {
        Some(more) => joined(range, more),
        None => range,
    }
}

/// The range with the digits whose starts overrides may move into a window, and with the local days
/// that these name.
fn with_moved(
    zones: &[LocalTimes<'_>],
    ids: Stamp,
    components: &[Component],
    window: i32,
    range: Digits,
) -> Digits
    requires ids { HasZone (length zones.now) ids }
    requires components { All (HasConvertibleRow (length zones.now)) components.now }
    ensures range { HasRange result range }
    ensures moved { HasMovedOfAll (tables_of zones.now) ids window components.now result }
    ensures days { All (HasDay result) (days_of_movers (tables_of zones.now) ids components.now) }
    ensures least { (z : ℤ) → range.high ≤ℤ z → IsBehind (tables_of zones.now) ids window components.now z → result.high ≤ℤ z }
{
    let mut range = range;
    let mut rest = components;
    'overrides: while let Some((component, behind)) = rest.split_first() {
        range = with_day(range, day_of_mover(zones, ids, component));
        range = with_digits(range, moved_digits_of(zones, ids, window, component));
        rest = behind;
    }
    range
}

/// The digits whose starts are needed for the rows of a window: those of the window, and of each local
/// day that an override names whose own row lies in it; and those that overrides may move into it which
/// move later instances, and each local day that one of these names. Takes a step for each override.
pub fn needed<L: Ledger>(
    zones: &[LocalTimes<'_>],
    ids: Stamp,
    components: &[Component],
    window: i32,
    steps: &mut Steps<L>,
) -> Digits
    requires ids { HasZone (length zones.now) ids }
    requires components { All (HasConvertibleRow (length zones.now)) components.now }
    ensures steps { steps.new ≡ steps.old + overrides_in components.now }
    ensures needed { IsNeeded (tables_of zones.now) ids components.now window result }
{
    let range = with_own_days(zones, ids, components, window, steps);
    if has_future(components) {
        with_moved(zones, ids, components, window, range)
    } else {
        range
    }
}
