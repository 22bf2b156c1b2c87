//! Overrides that move all later instances, and the rows of the starts that they govern (RFC 5545,
//! 3.2.13 and 3.8.4.4).
ghost use Rattle.std.specs.Prelude.{◌≡◌, ℕ, ◌<◌, ◌^◌, ◌∷◌, ◌++◌, [], length, map, flat_map, option_to_list, All, AllPairs, IfOk, IfSome, OnOk, ℤ, pos, neg_ℤ};
ghost use Rattle.std.specs.List.{list_any};
ghost use Rattle.cal_moment.specs.Calendar.{IsBetween};
ghost use Rattle.cal_model.specs.declared.object.Component.{Component};
ghost use Rattle.cal_model.specs.declared.row.Row.{Row};
ghost use Rattle.cal_model.specs.Instances.Alignment as alignment;
ghost use Rattle.cal_model.specs.Instances.Rows as defined;
ghost use Rattle.cal_model.proofs.Instances.KeptStarts.{stand_in};
ghost use Rattle.cal_model.proofs.Instances.RisingLists.{IsBelow};
ghost use Rattle.override_merge.specs.AlignedStamps.{aligned_by, HasDigits};
ghost use Rattle.override_merge.specs.Conversions.{tables_of, HasConvertibleRow, HasConvertibleRows, HasRowTimes, HasZone, IsRowTime};
ghost use Rattle.override_merge.specs.DayStarts.{starts_on, RisesByDay};
ghost use Rattle.override_merge.specs.NamedStarts.{days_in};
ghost use Rattle.override_merge.specs.Parts.{id_by};
ghost use Rattle.rrule_sets.specs.HeldGovernors.{HasNoGreaterId, HoldsGovernors, IsMovable, days_of_movers, governors_by, governors_of, held, last_before, stand_in_by};
ghost use Rattle.rrule_sets.specs.HeldGovernors as spec;

use cal_base::{List, NoMemory};
use cal_model::{Component, Extent, FIRST_DATE, LAST_DATE, LocalTimes, Object, Row, written_value};
use cal_moment::Stamp;
use override_merge::days::{DayStart, day_starts, first_on};
use override_merge::ends::end_of_extent;
use override_merge::names::{Names, is_named, names_of_overrides};
use override_merge::stamps::{Aligned, align, kind_of};
use override_merge::starts::own_start;
use override_merge::zones::{instant_beside, local_beside};
use std::alloc::Global;

/// An override that moves all later instances.
#[derive(Clone, Copy)]
pub struct Governor {
    /// The id of its own row.
    pub id: i64,
    /// The number of its component.
    pub number: u32,
    /// The stamp from which it starts, and what says its end.
    pub stamp: Stamp,
    pub extent: Extent,
    /// By how many local digits it moves a start.
    pub moved: i64,
}

/// Whether some component moves later instances.
pub fn has_future(components: &[Component]) -> bool
    ensures { result ≡ list_any (λ (c : Component). c.future) components.now }
{
    components.iter().any(|component| component.future)
}

/// The start that a RECURRENCE-ID means: its value, or of a local day the first start on it, else its
/// midnight.
fn start_meant(zones: &[LocalTimes<'_>], ids: Stamp, days: &[DayStart], name: Aligned) -> i64
    requires ids { HasZone (length zones.now) ids }
    requires days { AllPairs RisesByDay days.now }
    requires name { HasDigits name }
    ensures { result ≡ id_by (alignment.reading_of (tables_of zones.now) ids) days.now (aligned_by name) }
{
    match name {
        Aligned::At(value) => value,
        Aligned::OnDay(midnight) => first_on(days, midnight, instant_beside(zones, ids, midnight)),
    }
}

/// An override that moves later instances, where its id is known.
fn governor_at(
    zones: &[LocalTimes<'_>],
    component: &Component,
    number: u32,
    stamp: Stamp,
    id: i64,
) -> Governor
    requires zone { HasZone (length zones.now) stamp }
    requires near { IsRowTime (alignment.written_value stamp) }
    requires id { IsBetween (neg_ℤ (pos 1_200_000_000_000)) (pos 1_200_000_000_000) id }
    ensures value { result ≡ held (tables_of zones.now) (spec.governor_at (record { number = number; component = component.now }) stamp id) }
    ensures moved { IsBetween (neg_ℤ (pos 2_300_000_000_000)) (pos 2_300_000_000_000) result.moved }
{
    Governor {
        id,
        number,
        stamp,
        extent: component.extent,
        moved: written_value(stamp) - local_beside(zones, stamp, id),
    }
}

/// The override that a component is, if it moves later instances.
fn governor_of(
    zones: &[LocalTimes<'_>],
    ids: Stamp,
    days: &[DayStart],
    component: &Component,
    number: u32,
) -> Option<Governor>
    requires ids { HasZone (length zones.now) ids }
    requires days { AllPairs RisesByDay days.now }
    requires near { (midnight : ℤ) → All IsRowTime (starts_on midnight days.now) }
    requires component { HasConvertibleRow (length zones.now) component.now }
    ensures value { option_to_list result ≡ map (held (tables_of zones.now)) (governors_of (id_by (alignment.reading_of (tables_of zones.now) ids) days.now) (tables_of zones.now) ids (record { number = number; component = component.now })) }
    ensures movable { All (IsMovable (length zones.now)) (option_to_list result) }
{
    if !component.future {
        return None;
    }
    let name = component.recurrence_id?;
    let stamp = own_start(component)?;
    let id = start_meant(zones, ids, days, align(zones, name, ids));
    Some(governor_at(zones, component, number, stamp, id))
}

/// Puts an override, where there is one, behind others.
fn put_governor(governor: Option<Governor>, out: &mut List<Governor>) -> Result<(), NoMemory>
    ensures { OnOk result (out.new ≡ out.old ++ option_to_list governor) }
{
    match governor {
        Some(governor) => out.push(governor),
        None => Ok(()),
    }
}

/// Puts the overrides that move later instances behind others, as they stand.
fn put_governors(
    zones: &[LocalTimes<'_>],
    ids: Stamp,
    days: &[DayStart],
    components: &[Component],
    out: &mut List<Governor>,
) -> Result<(), NoMemory>
    requires ids { HasZone (length zones.now) ids }
    requires days { AllPairs RisesByDay days.now }
    requires near { (midnight : ℤ) → All IsRowTime (starts_on midnight days.now) }
    requires components { All (HasConvertibleRow (length zones.now)) components.now }
    requires few { length components.now < 2 ^ 32 }
    requires movable { All (IsMovable (length zones.now)) out.old }
    ensures made { OnOk result (out.new ≡ out.old ++ map (held (tables_of zones.now)) (governors_by (tables_of zones.now) ids days.now components.now)) }
    ensures movable { OnOk result (All (IsMovable (length zones.now)) out.new) }
{
    let mut rest = components;
    let mut number = 0u32;
    'overrides: while let Some((component, behind)) = rest.split_first() {
        put_governor(governor_of(zones, ids, days, component, number), out)?;
        if !behind.is_empty() {
            number += 1;
        }
        rest = behind;
    }
    Ok(())
}

/// Overrides by their ids, those of one id as they stood.
fn put_by_id(governors: List<Governor>) -> Result<List<Governor>, NoMemory>
    ensures rising { IfOk result (λ sorted. AllPairs HasNoGreaterId sorted) }
    ensures kept { IfOk result (λ sorted. (id : ℤ) → spec.with_id id sorted ≡ spec.with_id id governors) }
    ensures movable { IfOk result (λ sorted. (zones : ℕ) → All (IsMovable zones) governors → All (IsMovable zones) sorted) }
{
    let mut items = governors.into_vec();
    match items.sort_by_key(|governor| governor.id) {
        Ok(()) => Ok(List::from_vec(items)),
        Err(_) => Err(NoMemory),
    }
}

/// The overrides that move later instances, by their ids, those of one id as their components stand.
/// The starts by their days tell which start a RECURRENCE-ID means that names a local day.
pub fn governors(
    alloc: Global,
    zones: &[LocalTimes<'_>],
    ids: Stamp,
    days: &[DayStart],
    components: &[Component],
) -> Result<List<Governor>, NoMemory>
    requires ids { HasZone (length zones.now) ids }
    requires days { AllPairs RisesByDay days.now }
    requires near { (midnight : ℤ) → All IsRowTime (starts_on midnight days.now) }
    requires components { All (HasConvertibleRow (length zones.now)) components.now }
    requires few { length components.now < 2 ^ 32 }
    ensures held { IfOk result (HoldsGovernors (tables_of zones.now) (governors_by (tables_of zones.now) ids days.now components.now)) }
    ensures movable { IfOk result (λ governors. All (IsMovable (length zones.now)) governors) }
{
    let mut found = List::new(alloc);
    put_governors(zones, ids, days, components, &mut found)?;
    put_by_id(found)
}

/// The override that governs a start: the last whose id lies before it.
pub fn governing(governors: &[Governor], start: i64) -> Option<Governor>
    requires { AllPairs HasNoGreaterId governors.now }
    ensures { option_to_list result ≡ last_before start governors.now }
{
    let place = governors.partition_point(|governor| governor.id < start);
    if place == 0 {
        None
    } else {
        Some(governors[place - 1])
    }
}

/// The digits to which an override moves a start, by the clock of its own.
pub fn moved_digits(zones: &[LocalTimes<'_>], governor: Governor, start: i64) -> i64
    requires governor { IsMovable (length zones.now) governor }
    requires start { IsBetween (neg_ℤ (pos 180_000_000_000_000)) (pos 180_000_000_000_000) start }
    ensures { result ≡ spec.moved_digits (tables_of zones.now) governor start }
{
    local_beside(zones, governor.stamp, start) + governor.moved
}

/// Whether digits are those of dates that are served.
pub fn are_served(digits: i64) -> bool
    ensures { result ≡ defined.are_served digits }
{
    FIRST_DATE <= digits && digits <= LAST_DATE
}

/// The row that an override makes of a start whose digits it has moved.
fn row_from(zones: &[LocalTimes<'_>], ids: Stamp, governor: Governor, id: i64, digits: i64) -> Row
    requires governor { IsMovable (length zones.now) governor }
    requires digits { IsRowTime digits }
    ensures { result ≡ spec.row_from (tables_of zones.now) ids id governor digits }
{
    let start = instant_beside(zones, governor.stamp, digits);
    Row {
        id,
        start,
        end: end_of_extent(zones, governor.stamp, governor.extent, start),
        component: governor.number,
        id_kind: kind_of(ids),
        kind: kind_of(governor.stamp),
    }
}

/// The row of a start that an override governs, if its digits are served.
fn moved_row(zones: &[LocalTimes<'_>], ids: Stamp, governor: Governor, start: i64) -> Option<Row>
    requires governor { IsMovable (length zones.now) governor }
    requires start { IsRowTime start }
    ensures { option_to_list result ≡ spec.moved_row (tables_of zones.now) ids start governor }
{
    let digits = moved_digits(zones, governor, start);
    if are_served(digits) {
        Some(row_from(zones, ids, governor, start, digits))
    } else {
        None
    }
}

/// The row that stands for the master's at a start that no override names: that row itself where none
/// governs it.
fn moved_by(zones: &[LocalTimes<'_>], ids: Stamp, governors: &[Governor], row: &Row) -> Option<Row>
    requires rising { AllPairs HasNoGreaterId governors.now }
    requires movable { All (IsMovable (length zones.now)) governors.now }
    requires start { IsRowTime row.now.id }
    ensures { option_to_list result ≡ spec.moved_by (tables_of zones.now) ids row.now (last_before row.now.id governors.now) }
{
    match governing(governors, row.id) {
        Some(governor) => moved_row(zones, ids, governor, row.id),
        None => Some(*row),
    }
}

/// The row that stands for the master's at a start: that row itself where an override names the start
/// or none governs it.
fn governed(
    zones: &[LocalTimes<'_>],
    ids: Stamp,
    names: &Names,
    governors: &[Governor],
    row: &Row,
) -> Option<Row>
    requires ids { HasZone (length zones.now) ids }
    requires values { AllPairs IsBelow names.now.values }
    requires days { AllPairs IsBelow names.now.days }
    requires rising { AllPairs HasNoGreaterId governors.now }
    requires movable { All (IsMovable (length zones.now)) governors.now }
    requires start { IsRowTime row.now.id }
    ensures { option_to_list result ≡ stand_in_by (tables_of zones.now) ids names.now governors.now row.now }
{
    if is_named(zones, ids, names, row.id) {
        Some(*row)
    } else {
        moved_by(zones, ids, governors, row)
    }
}

/// Puts a row, where there is one, behind others.
fn put_row(row: Option<Row>, out: &mut List<Row>) -> Result<(), NoMemory>
    ensures { OnOk result (out.new ≡ out.old ++ option_to_list row) }
{
    match row {
        Some(row) => out.push(row),
        None => Ok(()),
    }
}

/// Puts what stands for the rows of a master behind other rows.
fn put_governed(
    zones: &[LocalTimes<'_>],
    ids: Stamp,
    names: &Names,
    governors: &[Governor],
    rows: &[Row],
    out: &mut List<Row>,
) -> Result<(), NoMemory>
    requires ids { HasZone (length zones.now) ids }
    requires values { AllPairs IsBelow names.now.values }
    requires days { AllPairs IsBelow names.now.days }
    requires rising { AllPairs HasNoGreaterId governors.now }
    requires movable { All (IsMovable (length zones.now)) governors.now }
    requires near { All HasRowTimes rows.now }
    ensures { OnOk result (out.new ≡ out.old ++ flat_map (stand_in_by (tables_of zones.now) ids names.now governors.now) rows.now) }
{
    let mut rest = rows;
    'rows: while let Some((row, behind)) = rest.split_first() {
        put_row(governed(zones, ids, names, governors, row), out)?;
        rest = behind;
    }
    Ok(())
}

/// The overrides that move later instances, beside the rows of a master.
pub fn governors_beside(
    alloc: Global,
    zones: &[LocalTimes<'_>],
    ids: Stamp,
    object: &Object,
    rows: &[Row],
) -> Result<List<Governor>, NoMemory>
    requires object { HasConvertibleRows object.now }
    requires zones { tables_of zones.now ≡ object.now.zones }
    requires ids { HasZone (length zones.now) ids }
    requires near { All HasRowTimes rows.now }
    ensures held { IfOk result (HoldsGovernors object.now.zones (defined.governors object.now ids (map (λ (r : Row). r.id) rows.now))) }
    ensures movable { IfOk result (λ governors. All (IsMovable (length zones.now)) governors) }
{
    let days = day_starts(alloc, zones, ids, rows)?;
    governors(
        alloc,
        zones,
        ids,
        days.as_slice(),
        object.components.as_slice(),
    )
}

/// The rows of a master with those moved that overrides govern, of an object that may have such
/// overrides.
fn with_governed(
    alloc: Global,
    zones: &[LocalTimes<'_>],
    ids: Stamp,
    object: &Object,
    rows: &[Row],
) -> Result<List<Row>, NoMemory>
    requires object { HasConvertibleRows object.now }
    requires zones { tables_of zones.now ≡ object.now.zones }
    requires ids { HasZone (length zones.now) ids }
    requires near { All HasRowTimes rows.now }
    ensures { IfOk result (λ moved. moved ≡ flat_map (stand_in object.now ids (map (λ (r : Row). r.id) rows.now)) rows.now) }
{
    let names = names_of_overrides(alloc, zones, ids, object.components.as_slice())?;
    let governors = governors_beside(alloc, zones, ids, object, rows)?;
    let mut out = List::new(alloc);
    put_governed(zones, ids, &names, governors.as_slice(), rows, &mut out)?;
    Ok(out)
}

/// The rows of a master with those moved that overrides govern, and those left out that are moved out
/// of the dates that are served. An override by a local day takes its id from the rows that are given,
/// so they have to hold those of each day that an override names which moves later instances.
pub fn moved_rows(
    alloc: Global,
    zones: &[LocalTimes<'_>],
    ids: Stamp,
    object: &Object,
    rows: List<Row>,
) -> Result<List<Row>, NoMemory>
    requires object { HasConvertibleRows object.now }
    requires zones { tables_of zones.now ≡ object.now.zones }
    requires ids { HasZone (length zones.now) ids }
    requires near { All HasRowTimes rows }
    ensures { IfOk result (λ moved. moved ≡ flat_map (stand_in object.now ids (map (λ (r : Row). r.id) rows)) rows) }
{
    if has_future(object.components.as_slice()) {
        with_governed(alloc, zones, ids, object, rows.as_slice())
    } else {
        Ok(rows)
    }
}

/// The local day that a RECURRENCE-ID names, by its midnight, if it names one.
pub fn day_of(name: Aligned) -> Option<i64>
    requires { HasDigits name }
    ensures value { option_to_list result ≡ days_in (aligned_by name ∷ []) }
    ensures near { IfSome result IsRowTime }
{
    match name {
        Aligned::At(_) => None,
        Aligned::OnDay(midnight) => Some(midnight),
    }
}

/// The local day that a component names which moves later instances, by its midnight.
pub fn day_of_mover(zones: &[LocalTimes<'_>], ids: Stamp, component: &Component) -> Option<i64>
    requires ids { HasZone (length zones.now) ids }
    requires component { HasConvertibleRow (length zones.now) component.now }
    ensures value { option_to_list result ≡ days_of_movers (tables_of zones.now) ids (component.now ∷ []) }
    ensures near { IfSome result IsRowTime }
{
    if !component.future {
        return None;
    }
    day_of(align(zones, component.recurrence_id?, ids))
}
