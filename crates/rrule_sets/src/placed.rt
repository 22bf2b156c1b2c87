//! The rows of an object by the windows in which they lie, for many windows at once: where overrides
//! move later instances, the rows of a window may stand anywhere among those of the master.
ghost use Rattle.std.specs.Prelude.{◌≡◌, ℕ, ◌<◌, ◌^◌, ◌++◌, length, not, All, AllPairs, IfOk, IfSome, OnOk, Some, filter, map, option_to_list, ℤ, pos, neg_ℤ, int_le};
ghost use Rattle.cal_moment.specs.Calendar.{IsBetween};
ghost use Rattle.cal_model.specs.declared.row.Row.{Row as SpecRow};
ghost use Rattle.cal_model.specs.Instances.Alignment.{reading_of};
ghost use Rattle.cal_model.specs.Instances.Rows as spec;
ghost use Rattle.cal_model.proofs.Instances.RisingLists.{IsBelow};
ghost use Rattle.override_merge.specs.Conversions.{tables_of, HasZone, HasConvertibleRows, HasRowTimes};
ghost use Rattle.override_merge.specs.DayStarts.{RisesByDay};
ghost use Rattle.override_merge.specs.NamedStarts.{has_name};
ghost use Rattle.override_merge.specs.Parts.{own_rows_by};
ghost use Rattle.rrule_sets.specs.declared.placed.Placed.{Placed as SpecPlaced};
ghost use Rattle.rrule_sets.specs.PlacedRows.{merged_in, rows_at, HasNoLaterWindow};

use cal_base::{List, NoMemory};
use cal_model::{LocalTimes, Object, Row, RowKind};
use cal_moment::Stamp;
use override_merge::days::{DayStart, day_starts};
use override_merge::names::{Names, names_of_overrides};
use override_merge::order::put_in_order;
use override_merge::rows::{own_row, window_of};
use override_merge::unnamed;
use std::alloc::Global;

/// A row that has a date, and the window of 64 days in which it lies, counted from 1970.
#[derive(Clone, Copy)]
pub struct Placed {
    pub window: i64,
    pub row: Row,
}

/// Whether a row has a date.
fn is_dated(row: &Row) -> bool
    ensures { result ≡ spec.is_dated row.now }
{
    row.kind != RowKind::Undated
}

/// Puts a row, where there is one that has a date, with its window behind the others.
fn put_placed(
    zones: &[LocalTimes<'_>],
    object: &Object,
    row: Option<Row>,
    out: &mut List<Placed>,
) -> Result<(), NoMemory>
    requires zones { tables_of zones.now ≡ object.now.zones }
    requires object { HasConvertibleRows object.now }
    requires start { IfSome row (λ r. IsBetween (neg_ℤ (pos 1_200_000_000_000)) (pos 1_200_000_000_000) r.start) }
    ensures { OnOk result ((window : ℤ) → rows_at window out.new ≡ rows_at window out.old ++ filter (spec.lies_in_window object.now window) (option_to_list row)) }
{
    let Some(row) = row else {
        return Ok(());
    };
    if !is_dated(&row) {
        return Ok(());
    }
    let window = window_of(zones, object, &row);
    out.push(Placed { window, row })?;
    Ok(())
}

/// Puts the rows of the overrides with their windows behind the others.
fn put_own(
    zones: &[LocalTimes<'_>],
    ids: Stamp,
    object: &Object,
    days: &[DayStart],
    out: &mut List<Placed>,
) -> Result<(), NoMemory>
    requires zones { tables_of zones.now ≡ object.now.zones }
    requires object { HasConvertibleRows object.now }
    requires ids { HasZone (length zones.now) ids }
    requires days { AllPairs RisesByDay days.now }
    ensures { OnOk result ((window : ℤ) → rows_at window out.new ≡ rows_at window out.old ++ filter (spec.lies_in_window object.now window) (own_rows_by object.now.zones ids days.now 0 object.now.components)) }
{
    let mut rest = object.components.as_slice();
    let mut number = 0u32;
    'overrides: while let Some((component, behind)) = rest.split_first() {
        put_placed(
            zones,
            object,
            own_row(zones, ids, days, component, number),
            out,
        )?;
        number += 1;
        rest = behind;
    }
    Ok(())
}

/// Puts the rows that no override names with their windows behind the others.
fn put_unnamed(
    zones: &[LocalTimes<'_>],
    ids: Stamp,
    object: &Object,
    names: &Names,
    rows: &[Row],
    out: &mut List<Placed>,
) -> Result<(), NoMemory>
    requires zones { tables_of zones.now ≡ object.now.zones }
    requires object { HasConvertibleRows object.now }
    requires ids { HasZone (length zones.now) ids }
    requires values { AllPairs IsBelow names.now.values }
    requires days { AllPairs IsBelow names.now.days }
    requires near { All HasRowTimes rows.now }
    ensures { OnOk result ((window : ℤ) → rows_at window out.new ≡ rows_at window out.old ++ filter (spec.lies_in_window object.now window) (filter (λ (r : SpecRow). not (has_name (reading_of object.now.zones ids) r.id names.now)) rows.now)) }
{
    let mut rest = rows;
    'rows: while let Some((row, behind)) = rest.split_first() {
        put_placed(zones, object, unnamed(zones, ids, names, row), out)?;
        rest = behind;
    }
    Ok(())
}

/// Rows by their windows, those of one window as they stood.
fn by_window(placed: List<Placed>) -> Result<List<Placed>, NoMemory>
    ensures rising { IfOk result (λ sorted. AllPairs HasNoLaterWindow sorted) }
    ensures kept { IfOk result (λ sorted. (window : ℤ) → rows_at window sorted ≡ rows_at window placed) }
{
    let mut items = placed.into_vec();
    match items.sort_by_key(|placed| placed.window) {
        Ok(()) => Ok(List::from_vec(items)),
        Err(_) => Err(NoMemory),
    }
}

/// The rows of an object with overrides by their windows, given the rows of its master, with those
/// moved that overrides govern: those of the overrides in place of the rows that they name, or added
/// where they name none. An override by a local day takes its id from the rows that are given.
pub fn placed_rows(
    alloc: Global,
    zones: &[LocalTimes<'_>],
    ids: Stamp,
    object: &Object,
    rows: &[Row],
) -> Result<List<Placed>, NoMemory>
    requires zones { tables_of zones.now ≡ object.now.zones }
    requires object { HasConvertibleRows object.now }
    requires ids { HasZone (length zones.now) ids }
    requires near { All HasRowTimes rows.now }
    ensures rising { IfOk result (λ placed. AllPairs HasNoLaterWindow placed) }
    ensures rows { IfOk result (λ placed. (window : ℤ) → rows_at window placed ≡ merged_in object.now ids rows.now window) }
{
    let names = names_of_overrides(alloc, zones, ids, object.components.as_slice())?;
    let days = day_starts(alloc, zones, ids, rows)?;
    let mut out = List::new(alloc);
    put_own(zones, ids, object, days.as_slice(), &mut out)?;
    put_unnamed(zones, ids, object, &names, rows, &mut out)?;
    let placed = by_window(out)?;
    Ok(placed)
}

/// The rows behind those that lie in earlier windows.
fn placed_from(placed: &[Placed], window: i64) -> &[Placed]
    requires { AllPairs HasNoLaterWindow placed.now }
    ensures { result.now ≡ filter (λ (p : SpecPlaced). int_le window p.window) placed.now }
{
    let first = placed.partition_point(|placed| placed.window < window);
    let (_, rest) = placed.split_at(first);
    rest
}

/// The rows before those that lie in later windows.
fn placed_to(placed: &[Placed], window: i64) -> &[Placed]
    requires { AllPairs HasNoLaterWindow placed.now }
    ensures { result.now ≡ filter (λ (p : SpecPlaced). int_le p.window window) placed.now }
{
    let end = placed.partition_point(|placed| placed.window <= window);
    let (its, _) = placed.split_at(end);
    its
}

/// Rows without their windows.
fn rows_of(alloc: Global, placed: &[Placed]) -> Result<List<Row>, NoMemory>
    ensures { IfOk result (λ rows. rows ≡ map (λ (p : SpecPlaced). p.row) placed.now) }
{
    let mut rows = List::new(alloc);
    rows.reserve(placed.len())?;
    let mut rest = placed;
    'rows: while let Some((placed, behind)) = rest.split_first() {
        rows.push(placed.row)?;
        rest = behind;
    }
    Ok(rows)
}

/// The rows of a window in order.
fn rows_in_window(alloc: Global, placed: &[Placed], window: i64) -> Result<List<Row>, NoMemory>
    requires { AllPairs HasNoLaterWindow placed.now }
    ensures { IfOk result (λ rows. rows ≡ spec.in_order (rows_at window placed.now)) }
{
    let its = placed_to(placed_from(placed, window), window);
    let rows = rows_of(alloc, its)?;
    put_in_order(rows)
}

/// Puts the rows of a window in order behind others.
pub fn put_rows_of(
    alloc: Global,
    placed: &[Placed],
    window: i32,
    out: &mut List<Row>,
) -> Result<(), NoMemory>
    requires { AllPairs HasNoLaterWindow placed.now }
    ensures { OnOk result (out.new ≡ out.old ++ spec.in_order (rows_at window placed.now)) }
{
    let rows = rows_in_window(alloc, placed, window as i64)?;
    out.extend_from_slice(rows.as_slice())
}
