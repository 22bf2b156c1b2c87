//! The rows of overrides, and which rows are asked for (RFC 5545, 3.8.4.4).
ghost use Rattle.std.specs.Prelude.{◌≡◌, ℕ, ◌<◌, ◌^◌, ◌++◌, ◌∷◌, List, [], length, All, AllPairs, IfOk, OnOk, IfSome, filter, flat_map, option_to_list, ℤ, pos, neg_ℤ, Option, option_and_then, slice_get, Some};
ghost use Rattle.cal_moment.specs.Calendar.{IsBetween};
ghost use Rattle.cal_model.specs.Instances.Alignment as alignment;
ghost use Rattle.cal_model.specs.Instances.Rows as spec;
ghost use Rattle.override_merge.specs.Conversions.{tables_of, HasZone, IsConvertible, HasConvertibleRow, HasConvertibleRows, HasRowTimes};
ghost use Rattle.override_merge.specs.AlignedStamps.{aligned_by, HasDigits};
ghost use Rattle.override_merge.specs.DayStarts.{RisesByDay};
ghost use Rattle.override_merge.specs.Parts.{id_by, own_row_by, lies_in};

use crate::days::{DayStart, first_on};
use crate::ends::end_of_extent;
use crate::stamps::{Aligned, align, kind_of, value_of};
use crate::starts::own_start;
use crate::zones::{instant_beside, local_beside};
use cal_base::{List, NoMemory};
use cal_model::{Component, LocalTimes, Object, Row, RowKind};
use cal_moment::Stamp;

/// 64 days, in seconds.
const WINDOW: i64 = 5_529_600;

/// Which rows are asked for.
#[derive(Clone, Copy)]
pub enum Part {
    All,
    /// Those whose nominal start lies in a window of 64 days, counted from 1970.
    Window(i32),
}

/// The id of an override: what its RECURRENCE-ID says beside the stamp of the ids, or of a local day the
/// first start on it, else its midnight.
fn id_of(zones: &[LocalTimes<'_>], ids: Stamp, days: &[DayStart], name: Aligned) -> i64
    requires ids { HasZone (length zones.now) ids }
    requires days { AllPairs RisesByDay days.now }
    requires name { HasDigits name }
    ensures { result ≡ id_by (alignment.reading_of (tables_of zones.now) ids) days.now (aligned_by name) }
{
    match name {
        Aligned::At(value) => value,
        Aligned::OnDay(midnight) => first_on(days, midnight, instant_beside(zones, ids, midnight)),
    }
}

/// The row of a component from its own start, with its own length.
fn row_from(
    zones: &[LocalTimes<'_>],
    ids: Stamp,
    component: &Component,
    number: u32,
    stamp: Stamp,
    id: i64,
) -> Row
    requires stamp { IsConvertible (length zones.now) stamp }
    requires component { HasConvertibleRow (length zones.now) component.now }
    ensures near { IsBetween (neg_ℤ (pos 1_200_000_000_000)) (pos 1_200_000_000_000) result.start }
    ensures value { result ≡ spec.row_of id (alignment.value_of (tables_of zones.now) stamp) (spec.end_of_extent (tables_of zones.now) stamp component.now.extent (alignment.value_of (tables_of zones.now) stamp)) number (alignment.kind_of ids) (alignment.kind_of stamp) }
{
    let start = value_of(zones, stamp);
    Row {
        id,
        start,
        end: end_of_extent(zones, stamp, component.extent, start),
        component: number,
        id_kind: kind_of(ids),
        kind: kind_of(stamp),
    }
}

/// The row of an override, if it has a start of its own.
pub fn own_row(
    zones: &[LocalTimes<'_>],
    ids: Stamp,
    days: &[DayStart],
    component: &Component,
    number: u32,
) -> Option<Row>
    requires ids { HasZone (length zones.now) ids }
    requires days { AllPairs RisesByDay days.now }
    requires component { HasConvertibleRow (length zones.now) component.now }
    ensures value { option_to_list result ≡ own_row_by (tables_of zones.now) ids days.now component.now number }
    ensures near { IfSome result (λ row. IsBetween (neg_ℤ (pos 1_200_000_000_000)) (pos 1_200_000_000_000) row.start) }
{
    let id = component.recurrence_id?;
    let stamp = own_start(component)?;
    let id = id_of(zones, ids, days, align(zones, id, ids));
    Some(row_from(zones, ids, component, number, stamp, id))
}

/// The start of a row by the digits of the clock beside which its component starts.
fn nominal_start(zones: &[LocalTimes<'_>], stamp: Option<Stamp>, start: i64) -> i64
    requires stamp { All (IsConvertible (length zones.now)) (option_to_list stamp) }
    requires start { IsBetween (neg_ℤ (pos 1_200_000_000_000)) (pos 1_200_000_000_000) start }
    ensures { result ≡ spec.nominal_beside (tables_of zones.now) start stamp }
{
    match stamp {
        Some(stamp) => local_beside(zones, stamp, start),
        None => start,
    }
}

/// The start of the component of that number, if there is one.
fn start_of(components: &[Component], number: u32) -> Option<Stamp>
    ensures { result ≡ option_and_then spec.own_start (slice_get components.now number) }
{
    own_start(components.get(number as usize)?)
}

/// Whether a row lies in a window.
fn lies_in_window(zones: &[LocalTimes<'_>], object: &Object, window: i32, row: &Row) -> bool
    requires zones { tables_of zones.now ≡ object.now.zones }
    requires object { HasConvertibleRows object.now }
    requires start { IsBetween (neg_ℤ (pos 1_200_000_000_000)) (pos 1_200_000_000_000) row.now.start }
    ensures { result ≡ spec.lies_in_window object.now window row.now }
{
    if row.kind == RowKind::Undated {
        return false;
    }
    let stamp = start_of(object.components.as_slice(), row.component);
    nominal_start(zones, stamp, row.start).div_euclid(WINDOW) == window as i64
}

/// The window of 64 days, counted from 1970, in which the nominal start of a row lies.
pub fn window_of(zones: &[LocalTimes<'_>], object: &Object, row: &Row) -> i64
    requires zones { tables_of zones.now ≡ object.now.zones }
    requires object { HasConvertibleRows object.now }
    requires start { IsBetween (neg_ℤ (pos 1_200_000_000_000)) (pos 1_200_000_000_000) row.now.start }
    ensures { result ≡ spec.window_of object.now row.now }
{
    let stamp = start_of(object.components.as_slice(), row.component);
    nominal_start(zones, stamp, row.start).div_euclid(WINDOW)
}

/// Whether a row is asked for.
pub fn lies_in(zones: &[LocalTimes<'_>], object: &Object, part: Part, row: &Row) -> bool
    requires zones { tables_of zones.now ≡ object.now.zones }
    requires object { HasConvertibleRows object.now }
    requires start { IsBetween (neg_ℤ (pos 1_200_000_000_000)) (pos 1_200_000_000_000) row.now.start }
    ensures { result ≡ lies_in object.now part row.now }
{
    match part {
        Part::All => true,
        Part::Window(window) => lies_in_window(zones, object, window, row),
    }
}
