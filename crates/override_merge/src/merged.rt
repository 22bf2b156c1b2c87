//! The rows of an object from those of its master (RFC 5545, 3.8.4.4).
ghost use Rattle.std.specs.Prelude.{◌≡◌, ℕ, ◌+◌, ◌<◌, ◌≤◌, ◌^◌, IfSome, is_some, option_to_list, ◌++◌, ◌∷◌, List, [], length, All, AllPairs, IfOk, OnOk, filter, flat_map, map, not, ℤ, pos, neg_ℤ};
ghost use Rattle.std.specs.List.{list_any};
ghost use Rattle.cal_moment.specs.Calendar.{IsBetween};
ghost use Rattle.cal_model.specs.Instances.Alignment as alignment;
ghost use Rattle.cal_model.specs.Instances.Rows as spec;
ghost use Rattle.cal_model.proofs.Instances.RisingLists.{IsBelow};
ghost use Rattle.override_merge.specs.Conversions.{tables_of, HasZone, HasConvertibleRow, HasConvertibleRows, HasRowTimes};
ghost use Rattle.override_merge.specs.DayStarts.{RisesByDay};
ghost use Rattle.override_merge.specs.NamedStarts.{has_name};
ghost use Rattle.override_merge.specs.Parts.{lies_in, own_rows_by};

use crate::days::{DayStart, day_starts};
use crate::names::{Names, is_named, names_of_overrides};
use crate::order::put_in_order;
use crate::rows::{Part, lies_in, own_row};
use crate::starts::ids_start;
use cal_base::{List, NoMemory};
use cal_model::{Component, LocalTimes, Object, Row, local_times_of};
use cal_moment::Stamp;
use std::alloc::Global;

/// Puts a row, where there is one that is asked for, behind the others.
fn put_row(
    zones: &[LocalTimes<'_>],
    object: &Object,
    part: Part,
    row: Option<Row>,
    out: &mut List<Row>,
) -> Result<(), NoMemory>
    requires zones { tables_of zones.now ≡ object.now.zones }
    requires object { HasConvertibleRows object.now }
    requires start { IfSome row (λ r. IsBetween (neg_ℤ (pos 1_200_000_000_000)) (pos 1_200_000_000_000) r.start) }
    ensures { OnOk result (out.new ≡ out.old ++ filter (lies_in object.now part) (option_to_list row)) }
{
    if let Some(row) = row {
        if lies_in(zones, object, part, &row) {
            out.push(row)?;
        }
    }
    Ok(())
}

/// Puts the rows of the overrides that are asked for behind the others.
fn put_own_rows(
    zones: &[LocalTimes<'_>],
    ids: Stamp,
    object: &Object,
    days: &[DayStart],
    part: Part,
    out: &mut List<Row>,
) -> Result<(), NoMemory>
    requires zones { tables_of zones.now ≡ object.now.zones }
    requires object { HasConvertibleRows object.now }
    requires ids { HasZone (length zones.now) ids }
    requires days { AllPairs RisesByDay days.now }
    ensures { OnOk result (out.new ≡ out.old ++ filter (lies_in object.now part) (own_rows_by object.now.zones ids days.now 0 object.now.components)) }
{
    let mut rest = object.components.as_slice();
    let mut number = 0u32;
    'overrides: while let Some((component, behind)) = rest.split_first() {
        put_row(
            zones,
            object,
            part,
            own_row(zones, ids, days, component, number),
            out,
        )?;
        if !behind.is_empty() {
            number += 1;
        }
        rest = behind;
    }
    Ok(())
}

/// A row, if no override names it.
pub fn unnamed(zones: &[LocalTimes<'_>], ids: Stamp, names: &Names, row: &Row) -> Option<Row>
    requires ids { HasZone (length zones.now) ids }
    requires values { AllPairs IsBelow names.now.values }
    requires days { AllPairs IsBelow names.now.days }
    requires near { HasRowTimes row.now }
    ensures value { option_to_list result ≡ filter (λ (r : Row). not (has_name (alignment.reading_of (tables_of zones.now) ids) r.id names.now)) (row.now ∷ []) }
    ensures near { IfSome result HasRowTimes }
{
    if is_named(zones, ids, names, row.id) {
        None
    } else {
        Some(*row)
    }
}

/// Puts the rows that no override names and that are asked for behind the others.
fn put_unnamed_rows(
    zones: &[LocalTimes<'_>],
    ids: Stamp,
    object: &Object,
    names: &Names,
    rows: &[Row],
    part: Part,
    out: &mut List<Row>,
) -> Result<(), NoMemory>
    requires zones { tables_of zones.now ≡ object.now.zones }
    requires object { HasConvertibleRows object.now }
    requires ids { HasZone (length zones.now) ids }
    requires values { AllPairs IsBelow names.now.values }
    requires days { AllPairs IsBelow names.now.days }
    requires near { All HasRowTimes rows.now }
    ensures { OnOk result (out.new ≡ out.old ++ filter (lies_in object.now part) (filter (λ (r : Row). not (has_name (alignment.reading_of object.now.zones ids) r.id names.now)) rows.now)) }
{
    let mut rest = rows;
    'rows: while let Some((row, behind)) = rest.split_first() {
        put_row(zones, object, part, unnamed(zones, ids, names, row), out)?;
        rest = behind;
    }
    Ok(())
}

/// Whether some component is an override.
pub fn has_overrides(components: &[Component]) -> bool
    ensures { result ≡ list_any (λ (c : Component). is_some c.recurrence_id) components.now }
{
    components
        .iter()
        .any(|component| component.recurrence_id.is_some())
}

/// Puts those of some rows that are asked for behind others.
pub fn put_asked_rows(
    zones: &[LocalTimes<'_>],
    object: &Object,
    rows: &[Row],
    part: Part,
    out: &mut List<Row>,
) -> Result<(), NoMemory>
    requires zones { tables_of zones.now ≡ object.now.zones }
    requires object { HasConvertibleRows object.now }
    requires near { All HasRowTimes rows.now }
    ensures { OnOk result (out.new ≡ out.old ++ filter (lies_in object.now part) rows.now) }
{
    let mut rest = rows;
    'rows: while let Some((row, behind)) = rest.split_first() {
        put_row(zones, object, part, Some(*row), out)?;
        rest = behind;
    }
    Ok(())
}

/// The rows of a part, of an object without overrides: no row is named, and none is added.
fn without_overrides(
    alloc: Global,
    zones: &[LocalTimes<'_>],
    object: &Object,
    rows: &[Row],
    part: Part,
) -> Result<List<Row>, NoMemory>
    requires zones { tables_of zones.now ≡ object.now.zones }
    requires object { HasConvertibleRows object.now }
    requires near { All HasRowTimes rows.now }
    ensures { IfOk result (λ out. out ≡ spec.in_order (filter (lies_in object.now part) rows.now)) }
{
    let mut out = List::new(alloc);
    put_asked_rows(zones, object, rows, part, &mut out)?;
    put_in_order(out)
}

/// The rows of a part: those of the overrides in place of the rows that they name, or added where they
/// name none, by id, then component. The stamp is that beside which the ids of the object are aligned.
/// An override by a local day takes its id from the rows that are given, so they have to hold those of
/// each day that an override of the part names.
pub fn merged_rows(
    alloc: Global,
    zones: &[LocalTimes<'_>],
    ids: Stamp,
    object: &Object,
    rows: &[Row],
    part: Part,
) -> Result<List<Row>, NoMemory>
    requires zones { tables_of zones.now ≡ object.now.zones }
    requires object { HasConvertibleRows object.now }
    requires ids { HasZone (length zones.now) ids }
    requires near { All HasRowTimes rows.now }
    ensures { IfOk result (λ merged. merged ≡ spec.in_order
        (filter (lies_in object.now part) (flat_map (spec.override_row object.now ids (map (λ (r : Row). r.id) rows.now)) (spec.overrides object.now))
        ++ filter (lies_in object.now part) (filter (λ (r : Row). not (spec.is_named object.now ids r.id)) rows.now))) }
{
    if !has_overrides(object.components.as_slice()) {
        return without_overrides(alloc, zones, object, rows, part);
    }
    let names = names_of_overrides(alloc, zones, ids, object.components.as_slice())?;
    let days = day_starts(alloc, zones, ids, rows)?;
    let mut out = List::new(alloc);
    put_own_rows(zones, ids, object, days.as_slice(), part, &mut out)?;
    put_unnamed_rows(zones, ids, object, &names, rows, part, &mut out)?;
    put_in_order(out)
}

/// The rows of a master with the overrides of its object put in: the row of an override stands in place
/// of each row whose id it names, or is added where it names none, and one without a start of its own
/// takes away what it names. The rows are in the order of their ids, then of their components.
pub fn merge(alloc: Global, master: &List<Row>, object: &Object) -> Result<List<Row>, NoMemory>
    requires object { HasConvertibleRows object.now }
    requires near { All HasRowTimes master.now }
    ensures { IfOk result (λ rows. rows ≡ spec.merged_with object.now master.now) }
{
    let Some(ids) = ids_start(object) else {
        return Ok(List::new(alloc));
    };
    let zones = local_times_of(alloc, object.zones.as_slice())?;
    merged_rows(
        alloc,
        zones.as_slice(),
        ids,
        object,
        master.as_slice(),
        Part::All,
    )
}
