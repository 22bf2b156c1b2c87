//! RECURRENCE-IDs that stand for one instance (RFC 5545, 3.8.4.4).
ghost use Rattle.std.specs.Prelude.{◌≡◌, ◌∷◌, ◌++◌, [], All, option_to_list, IfOk, OnOk};
ghost use Rattle.cal_model.specs.Instances.Rows as rows;
ghost use Rattle.cal_model.specs.Instances.Starts as starts;
ghost use Rattle.cal_model.specs.Objects.ResourceFaults as spec;
ghost use Rattle.cal_model.specs.Objects.ZoneReading.{zone_names};
ghost use Rattle.cal_model.specs.Values.StampTexts.{is_known};
ghost use Rattle.cal_object.specs.Alignments.{tables_of, aligned_by};
ghost use Rattle.cal_object.specs.Identifiers as ids;

use crate::aligned::{Aligned, align};
use cal_base::{List, NoMemory};
use cal_model::{Component, Extent, Kind, LocalTimes, Object};
use cal_moment::Stamp;
use std::alloc::Global;

/// DTSTART, or of a VTODO without it DUE.
fn start_or_due(component: &Component) -> Option<Stamp>
    ensures { result ≡ starts.start_or_due component.now.kind component.now.start component.now.extent }
{
    match (component.kind, component.start, component.extent) {
        (Kind::Todo, None, Extent::Due(due)) => Some(due),
        _ => component.start,
    }
}

/// The start of a component that is no override.
fn master_stamp(component: &Component) -> Option<Stamp>
    ensures { option_to_list result ≡ ids.master_stamps_of component.now }
{
    match component.recurrence_id {
        Some(_) => None,
        None => start_or_due(component),
    }
}

/// The first such start of components.
fn first_master_stamp(components: &[Component]) -> Option<Stamp>
    ensures { result ≡ rows.first_of (ids.master_stamps components.now) }
{
    let mut rest = components;
    'masters: while let Some((component, behind)) = rest.split_first() {
        if let Some(stamp) = master_stamp(component) {
            return Some(stamp);
        }
        rest = behind;
    }
    None
}

/// The first RECURRENCE-ID of components.
fn first_id(components: &[Component]) -> Option<Stamp>
    ensures { result ≡ rows.first_of (ids.id_stamps components.now) }
{
    let mut rest = components;
    'overrides: while let Some((component, behind)) = rest.split_first() {
        if let Some(stamp) = component.recurrence_id {
            return Some(stamp);
        }
        rest = behind;
    }
    None
}

/// The stamp beside which the RECURRENCE-IDs of an object are compared: DTSTART of the component
/// without one, or of a VTODO without DTSTART its DUE, else the first RECURRENCE-ID.
pub(crate) fn ids_start(object: &Object) -> Option<Stamp>
    ensures { result ≡ rows.ids_start object.now }
{
    let components = object.components.as_slice();
    match first_master_stamp(components) {
        Some(stamp) => Some(stamp),
        None => first_id(components),
    }
}

/// Whether the zone of a stamp, if it has one, is there.
fn is_known(zones: &[LocalTimes<'_>], stamp: Stamp) -> bool
    ensures { result ≡ is_known (zone_names (tables_of zones.now)) stamp }
{
    match stamp {
        Stamp::Zoned(_, number) => (number as usize) < zones.len(),
        Stamp::Date(_) | Stamp::Floating(_) | Stamp::Utc(_) => true,
    }
}

/// Whether the zone is there that aligning a stamp beside a start needs.
fn can_align(zones: &[LocalTimes<'_>], stamp: Stamp, start: Stamp) -> bool
    ensures { result ≡ spec.can_align (tables_of zones.now) stamp start }
{
    match (stamp, start) {
        (_, Stamp::Date(_) | Stamp::Floating(_)) => true,
        (Stamp::Floating(_), _) => is_known(zones, start),
        _ => is_known(zones, stamp),
    }
}

/// Puts what a stamp says beside a start behind the values or the days.
fn put_aligned(
    aligned: Aligned,
    values: &mut List<i64>,
    days: &mut List<i64>,
) -> Result<(), NoMemory>
    ensures values { OnOk result (values.new ≡ values.old ++ ids.values_in (aligned_by aligned ∷ [])) }
    ensures days { OnOk result (days.new ≡ days.old ++ ids.days_in (aligned_by aligned ∷ [])) }
{
    match aligned {
        Aligned::At(value) => values.push(value),
        Aligned::OnDay(midnight) => days.push(midnight),
    }
}

/// Puts what the RECURRENCE-ID of a component says, where it has one that can be aligned, behind the
/// values or the days.
fn put_id(
    zones: &[LocalTimes<'_>],
    start: Stamp,
    component: &Component,
    values: &mut List<i64>,
    days: &mut List<i64>,
) -> Result<(), NoMemory>
    requires { ids.HasReadId component.now }
    ensures values { OnOk result (values.new ≡ values.old ++ ids.values_in (ids.ids_of_component (tables_of zones.now) start component.now)) }
    ensures days { OnOk result (days.new ≡ days.old ++ ids.days_in (ids.ids_of_component (tables_of zones.now) start component.now)) }
{
    match component.recurrence_id {
        Some(id) if can_align(zones, id, start) => {
            put_aligned(align(zones, id, start), values, days)
        }
        _ => Ok(()),
    }
}

/// Whether a number stands twice. They are put in order.
fn has_double(numbers: List<i64>) -> Result<bool, NoMemory>
    ensures { IfOk result (λ double. double ≡ ids.has_double numbers) }
{
    let mut items = numbers.into_vec();
    let count = items.len();
    if items.sort().is_err() {
        return Err(NoMemory);
    }
    items.dedup();
    Ok(items.len() < count)
}

/// What the RECURRENCE-IDs of components say beside a start: the values, and the midnights of the
/// local days.
fn numbers_beside(
    alloc: Global,
    zones: &[LocalTimes<'_>],
    start: Stamp,
    components: &[Component],
) -> Result<(List<i64>, List<i64>), NoMemory>
    requires { All ids.HasReadId components.now }
    ensures values { IfOk result (λ numbers. numbers.0 ≡ ids.values_in (ids.ids_beside (tables_of zones.now) start components.now)) }
    ensures days { IfOk result (λ numbers. numbers.1 ≡ ids.days_in (ids.ids_beside (tables_of zones.now) start components.now)) }
{
    let mut values = List::new(alloc);
    let mut days = List::new(alloc);
    let mut rest = components;
    'components: while let Some((component, behind)) = rest.split_first() {
        put_id(zones, start, component, &mut values, &mut days)?;
        rest = behind;
    }
    Ok((values, days))
}

/// Whether two RECURRENCE-IDs of components say the same beside a start.
fn has_repeat_beside(
    alloc: Global,
    zones: &[LocalTimes<'_>],
    start: Stamp,
    components: &[Component],
) -> Result<bool, NoMemory>
    requires { All ids.HasReadId components.now }
    ensures { IfOk result (λ repeats. repeats ≡ spec.has_repeat (ids.ids_beside (tables_of zones.now) start components.now)) }
{
    let (values, days) = numbers_beside(alloc, zones, start, components)?;
    Ok(has_double(values)? || has_double(days)?)
}

/// Whether two overrides of an object stand for one instance: whether their RECURRENCE-IDs say the
/// same beside the object's start. Those whose zone is not there do not count. The time is that of
/// putting them in order.
pub(crate) fn has_repeated_id(
    alloc: Global,
    zones: &[LocalTimes<'_>],
    object: &Object,
) -> Result<bool, NoMemory>
    requires zones { tables_of zones.now ≡ object.now.zones }
    requires ids { All ids.HasReadId object.now.components }
    ensures { IfOk result (λ repeats. repeats ≡ spec.has_repeat (spec.aligned_ids object.now)) }
{
    match ids_start(object) {
        Some(start) => has_repeat_beside(alloc, zones, start, object.components.as_slice()),
        None => Ok(false),
    }
}
