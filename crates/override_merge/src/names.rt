//! Which starts are named, by EXDATE or by RECURRENCE-ID (RFC 5545, 3.8.4.4 and 3.8.5.1).
ghost use Rattle.std.specs.Prelude.{◌≡◌, ◌<◌, ◌∷◌, ◌++◌, List, [], length, All, AllPairs, IfOk, OnOk, pos, neg_ℤ, flat_map, option_to_list, map};
ghost use Rattle.std.specs.List.{list_any};
ghost use Rattle.cal_moment.specs.Calendar.{IsBetween};
ghost use Rattle.cal_model.specs.Words.Integers.{same_int};
ghost use Rattle.cal_model.specs.Instances.Alignment as alignment;
ghost use Rattle.cal_model.specs.Instances.Starts.{ascending};
ghost use Rattle.cal_model.proofs.Instances.RisingLists.{IsBelow};
ghost use Rattle.override_merge.specs.Conversions.{tables_of, HasZone, IsConvertible, HasConvertibleRow, IsRowTime};
ghost use Rattle.override_merge.specs.AlignedStamps.{aligned_by};
ghost use Rattle.override_merge.specs.NamedStarts.{values_in, days_in, has_name, IsNamesOf, named_beside};

use crate::stamps::{Aligned, align, midnight_of};
use crate::zones::local_beside;
use cal_base::{List, NoMemory};
use cal_model::{Component, LocalTimes};
use cal_moment::Stamp;
use std::alloc::Global;

/// The starts that EXDATEs or RECURRENCE-IDs name beside a start: single values and local days, both
/// in rising order.
#[derive(Drop)]
pub struct Names {
    /// In seconds since 1970.
    pub values: List<i64>,
    /// Their midnights, in local seconds since 1970.
    pub days: List<i64>,
}

/// The numbers of a list in rising order, each once.
pub fn rising(numbers: List<i64>) -> Result<List<i64>, NoMemory>
    ensures { IfOk result (λ r. r ≡ ascending numbers) }
{
    let mut items = numbers.into_vec();
    if items.sort().is_err() {
        return Err(NoMemory);
    }
    items.dedup();
    Ok(List::from_vec(items))
}

/// Whether a rising list has a number.
pub fn is_among(numbers: &List<i64>, number: i64) -> bool
    requires { AllPairs IsBelow numbers.now }
    ensures { result ≡ list_any (same_int number) numbers.now }
{
    numbers.as_slice().binary_search(&number).is_ok()
}

/// The names of values and days that stand in any order.
pub fn names_of(values: List<i64>, days: List<i64>) -> Result<Names, NoMemory>
    ensures values { IfOk result (λ names. names.values ≡ ascending values) }
    ensures days { IfOk result (λ names. names.days ≡ ascending days) }
{
    let values = rising(values)?;
    let days = rising(days)?;
    Ok(Names { values, days })
}

/// Puts what a stamp says beside a start behind the values or the days.
pub fn put_name(name: Aligned, values: &mut List<i64>, days: &mut List<i64>) -> Result<(), NoMemory>
    ensures values { OnOk result (values.new ≡ values.old ++ values_in (aligned_by name ∷ [])) }
    ensures days { OnOk result (days.new ≡ days.old ++ days_in (aligned_by name ∷ [])) }
{
    match name {
        Aligned::At(value) => values.push(value),
        Aligned::OnDay(midnight) => days.push(midnight),
    }
}

/// Puts what a RECURRENCE-ID says, where there is one, behind the values or the days.
fn put_id(
    zones: &[LocalTimes<'_>],
    ids: Stamp,
    id: Option<Stamp>,
    values: &mut List<i64>,
    days: &mut List<i64>,
) -> Result<(), NoMemory>
    requires ids { HasZone (length zones.now) ids }
    requires id { All (IsConvertible (length zones.now)) (option_to_list id) }
    ensures values { OnOk result (values.new ≡ values.old ++ values_in (map (λ x. alignment.align (tables_of zones.now) x ids) (option_to_list id))) }
    ensures days { OnOk result (days.new ≡ days.old ++ days_in (map (λ x. alignment.align (tables_of zones.now) x ids) (option_to_list id))) }
{
    match id {
        Some(id) => put_name(align(zones, id, ids), values, days),
        None => Ok(()),
    }
}

/// The starts that the RECURRENCE-IDs of components name beside the stamp of an object's ids.
pub fn names_of_overrides(
    alloc: Global,
    zones: &[LocalTimes<'_>],
    ids: Stamp,
    components: &[Component],
) -> Result<Names, NoMemory>
    requires ids { HasZone (length zones.now) ids }
    requires components { All (HasConvertibleRow (length zones.now)) components.now }
    ensures { IfOk result (IsNamesOf (named_beside (tables_of zones.now) ids components.now)) }
{
    let mut values = List::new(alloc);
    let mut days = List::new(alloc);
    let mut rest = components;
    'overrides: while let Some((component, behind)) = rest.split_first() {
        put_id(zones, ids, component.recurrence_id, &mut values, &mut days)?;
        rest = behind;
    }
    names_of(values, days)
}

/// Whether some day is that of a start, by the clock of a stamp. Without a day none is made of the start.
fn is_on_day(zones: &[LocalTimes<'_>], ids: Stamp, days: &List<i64>, start: i64) -> bool
    requires ids { HasZone (length zones.now) ids }
    requires days { AllPairs IsBelow days.now }
    requires near { IsBetween (neg_ℤ (pos 180_000_000_000_000)) (pos 180_000_000_000_000) start }
    ensures { result ≡ list_any (same_int (alignment.midnight_of ((alignment.reading_of (tables_of zones.now) ids).local start))) days.now }
{
    !days.is_empty() && is_among(days, midnight_of(local_beside(zones, ids, start)))
}

/// Whether a start is named, in the steps of two searches.
pub fn is_named(zones: &[LocalTimes<'_>], ids: Stamp, names: &Names, start: i64) -> bool
    requires ids { HasZone (length zones.now) ids }
    requires values { AllPairs IsBelow names.now.values }
    requires days { AllPairs IsBelow names.now.days }
    requires near { IsBetween (neg_ℤ (pos 180_000_000_000_000)) (pos 180_000_000_000_000) start }
    ensures { result ≡ has_name (alignment.reading_of (tables_of zones.now) ids) start names.now }
{
    is_among(&names.values, start) || is_on_day(zones, ids, &names.days, start)
}
