//! How far from its start a row can meet a range.
ghost use Rattle.std.specs.Prelude.{◌≡◌, ℕ, ◌+◌, ◌*◌, ◌<◌, ◌^◌, List, length, map, flat_map, option_to_list, max, Some, All, unsigned_abs, ◌-ℤ◌};
ghost use Rattle.cal_moment.specs.declared.stamp.Period.{Period};
ghost use Rattle.cal_moment.specs.declared.stamp.Stamp.{Stamp};
ghost use Rattle.cal_model.specs.declared.object.Component.{Component};
ghost use Rattle.cal_model.specs.Instances.Alignment as alignment;
ghost use Rattle.cal_model.specs.Instances.HappensOnce.{IsOnlyRow, row_from_start};
ghost use Rattle.cal_model.specs.Ranges.Cost as spec;
ghost use Rattle.cal_model.specs.Ranges.Overlap.{seconds_of};
ghost use Rattle.override_merge.specs.Conversions.{tables_of, IsConvertible, IsConvertibleExtent};
ghost use Rattle.override_merge.specs.ExpandableComponents.{IsConvertiblePeriod, IsExpandable};
ghost use Rattle.cal_model.specs.declared.zone.ZoneTable.{ZoneTable};
ghost use Rattle.needed_windows.specs.Lengths.{start_distance};

use cal_model::{Alarm, Component, Extent, LocalTimes, Object, Row, Trigger};
use cal_moment::{Length, Period, PeriodEnd, Stamp};
use override_merge::stamps::value_of;
use override_merge::starts::own_start;

const DAY: i128 = 86_400;

/// Four days: what zones and whole days may move a row by, in seconds.
const FOUR_DAYS: u128 = 345_600;

/// The greater of two numbers.
fn greater(a: u128, b: u128) -> u128
    ensures { result ≡ max a b }
{
    if a < b { b } else { a }
}

/// The size of a length in seconds, a day as 86,400.
fn size_of(length: Length) -> u128
    ensures value { result ≡ unsigned_abs (seconds_of length) }
    ensures small { result < 2 ^ 81 }
{
    (length.days as i128 * DAY + length.seconds as i128).unsigned_abs()
}

/// How far one stamp lies from another, in seconds.
fn distance(zones: &[LocalTimes<'_>], start: Stamp, end: Stamp) -> u128
    requires start { IsConvertible (length zones.now) start }
    requires end { IsConvertible (length zones.now) end }
    ensures value { result ≡ unsigned_abs (alignment.value_of (tables_of zones.now) end -ℤ alignment.value_of (tables_of zones.now) start) }
    ensures small { result < 2 ^ 81 }
{
    (value_of(zones, end) - value_of(zones, start)).unsigned_abs() as u128
}

/// The same where there is a start; without one there is no distance.
fn distance_from(zones: &[LocalTimes<'_>], start: Option<Stamp>, end: Stamp) -> u128
    requires start { All (IsConvertible (length zones.now)) (option_to_list start) }
    requires end { IsConvertible (length zones.now) end }
    ensures value { result ≡ start_distance (tables_of zones.now) start end }
    ensures small { result < 2 ^ 81 }
{
    match start {
        Some(start) => distance(zones, start, end),
        None => 0,
    }
}

/// The size of the length that a component writes: of DURATION, or from its start to DTEND or DUE.
fn extent_length(zones: &[LocalTimes<'_>], start: Option<Stamp>, extent: Extent) -> u128
    requires start { All (IsConvertible (length zones.now)) (option_to_list start) }
    requires extent { IsConvertibleExtent (length zones.now) extent }
    ensures value { result ≡ spec.extent_length (tables_of zones.now) start extent }
    ensures small { result < 2 ^ 81 }
{
    match extent {
        Extent::Lasting(length) => size_of(length),
        Extent::End(end) => distance_from(zones, start, end),
        Extent::Due(end) => distance_from(zones, start, end),
        _ => 0,
    }
}

/// The size of the length of an RDATE period.
fn period_length(zones: &[LocalTimes<'_>], period: &Period) -> u128
    requires { IsConvertiblePeriod (length zones.now) period.now }
    ensures value { result ≡ spec.length_to (tables_of zones.now) period.now.start period.now.end }
    ensures small { result < 2 ^ 81 }
{
    match period.end {
        PeriodEnd::At(end) => distance(zones, period.start, end),
        PeriodEnd::After(length) => size_of(length),
    }
}

/// The greatest of the lengths that a component writes.
fn longest_of(zones: &[LocalTimes<'_>], component: &Component) -> u128
    requires { IsExpandable (length zones.now) component.now }
    ensures value { result ≡ spec.greatest (spec.lengths (tables_of zones.now) component.now) }
    ensures small { result < 2 ^ 81 }
{
    let mut longest = extent_length(zones, own_start(component), component.extent);
    let mut rest = component.periods.as_slice();
    'periods: while let Some((period, behind)) = rest.split_first() {
        longest = greater(longest, period_length(zones, period));
        rest = behind;
    }
    longest
}

/// The greatest of the lengths that some components write.
fn longest(zones: &[LocalTimes<'_>], components: &[Component]) -> u128
    requires { All (IsExpandable (length zones.now)) components.now }
    ensures value { result ≡ spec.greatest (flat_map (spec.lengths (tables_of zones.now)) components.now) }
    ensures small { result < 2 ^ 81 }
{
    let mut longest = 0;
    let mut rest = components;
    'components: while let Some((component, behind)) = rest.split_first() {
        longest = greater(longest, longest_of(zones, component));
        rest = behind;
    }
    longest
}

/// How far from a row an alarm may go off: the size of its trigger's length, and of all its gaps.
fn alarm_reach(alarm: &Alarm) -> u128
    ensures value { result ≡ spec.alarm_reach alarm.now }
    ensures small { result < 2 ^ 114 }
{
    let first = match alarm.trigger {
        Trigger::At(_) => 0,
        Trigger::From(_, length) => size_of(length),
    };
    first + alarm.repeat as u128 * size_of(alarm.gap)
}

/// The greatest reach of the alarms of a component.
fn reach_of(alarms: &[Alarm]) -> u128
    ensures value { result ≡ spec.greatest (map spec.alarm_reach alarms.now) }
    ensures small { result < 2 ^ 114 }
{
    let mut reach = 0;
    let mut rest = alarms;
    'alarms: while let Some((alarm, behind)) = rest.split_first() {
        reach = greater(reach, alarm_reach(alarm));
        rest = behind;
    }
    reach
}

/// The greatest reach of the alarms of some components.
fn alarms_reach(components: &[Component]) -> u128
    ensures value { result ≡ spec.greatest (flat_map (λ (c : Component). map spec.alarm_reach c.alarms) components.now) }
    ensures small { result < 2 ^ 114 }
{
    let mut reach = 0;
    let mut rest = components;
    'components: while let Some((component, behind)) = rest.split_first() {
        reach = greater(reach, reach_of(component.alarms.as_slice()));
        rest = behind;
    }
    reach
}

/// How far from a row's start, by the clock beside which it starts, a range may lie that meets the row,
/// in seconds.
pub(crate) fn margin(zones: &[LocalTimes<'_>], object: &Object) -> u128
    requires zones { tables_of zones.now ≡ object.now.zones }
    requires lengths { All (IsExpandable (length zones.now)) object.now.components }
    ensures value { result ≡ spec.margin object.now }
    ensures small { result < 2 ^ 115 }
{
    let components = object.components.as_slice();
    FOUR_DAYS + (longest(zones, components) + alarms_reach(components))
}

/// The size of the length that an extent writes, given the row of its component from the component's
/// own start.
fn row_length(extent: Extent, row: &Row) -> u128
    ensures value { (zones : List ZoneTable) (s : Stamp) → row.now ≡ row_from_start zones s extent → result ≡ spec.extent_length zones (Some s) extent }
    ensures small { result < 2 ^ 81 }
{
    match extent {
        Extent::Lasting(length) => size_of(length),
        Extent::End(_) => (row.end as i128 - row.start as i128).unsigned_abs(),
        Extent::Due(_) => (row.end as i128 - row.start as i128).unsigned_abs(),
        _ => 0,
    }
}

/// The same of the components of an object that happens once.
fn only_length(object: &Object, row: &Row) -> u128
    requires { IsOnlyRow object.now row.now }
    ensures value { result ≡ spec.longest object.now }
    ensures small { result < 2 ^ 81 }
{
    match object.components.get(0) {
        Some(component) => row_length(component.extent, row),
        None => 0,
    }
}

/// The same as `margin`, of an object that happens once, given its row: no stamp is converted.
pub(crate) fn only_margin(object: &Object, row: &Row) -> u128
    requires { IsOnlyRow object.now row.now }
    ensures value { result ≡ spec.margin object.now }
    ensures small { result < 2 ^ 115 }
{
    FOUR_DAYS + (only_length(object, row) + alarms_reach(object.components.as_slice()))
}
