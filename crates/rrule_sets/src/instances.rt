//! The instances of a master in a range of digits: their starts and ends, EXDATEs taken off
//! (RFC 5545, 3.8.5).
ghost use Rattle.std.specs.Prelude.{◌≡◌, ℕ, ◌+◌, ◌≤◌, ◌<◌, ◌++◌, ◌∷◌, List, [], length, All, AllPairs, Some, IfOk, OnOk, filter, flat_map, map, not, pos, neg_ℤ, ℤ, if◌then◌else◌};
ghost use Rattle.std.specs.List.Sorted.{IsPermutation};
ghost use Rattle.cal_moment.specs.Calendar.{IsBetween};
ghost use Rattle.cal_moment.specs.declared.stamp.Stamp.{Stamp};
ghost use Rattle.cal_model.specs.Instances.Alignment as alignment;
ghost use Rattle.cal_model.specs.Instances.Starts as spec;
ghost use Rattle.cal_model.specs.Ranges.Cost.{component_cost};
ghost use Rattle.cal_model.specs.Recurrence.RecurrenceSet.{every_moment};
ghost use Rattle.cal_model.proofs.Instances.RisingLists.{IsBelow};
ghost use Rattle.override_merge.specs.Conversions.{tables_of, HasZone, IsConvertible, IsConvertibleExtent};
ghost use Rattle.override_merge.specs.ExpandableComponents.{IsExpandable};
ghost use Rattle.override_merge.specs.NamedStarts.{has_name, IsNamesOf};
ghost use Rattle.rrule_sets.specs.AskedStarts.{end_by, exceptions_of, instances_in, later_starts, plain_of, row_by, spans_of};
ghost use Rattle.rrule_sets.specs.DigitRanges.{starts_in};
ghost use Rattle.rrule_sets.specs.NeededDigits.{EndsBy};
ghost use Rattle.rrule_sets.specs.PeriodSpans.{IsNotAfter, period_span, span_starts_in};

use crate::asked::{put_dates, put_days, put_period_starts, put_periods, put_start};
use crate::ends::{exceptions, last_end, recurs, spans_in_order};
use crate::later::put_later_starts;
use crate::range::Digits;
use cal_base::{List, NoMemory, Steps};
use cal_model::{Component, Extent, LocalTimes, Row, Rules};
use cal_moment::Stamp;
use override_merge::ends::end_of_extent;
use override_merge::names::{Names, is_among, is_named, rising};
use override_merge::stamps::{kind_of, value_of};
use std::alloc::Global;
use std::sync::ledger::Ledger;

/// The starts that keep the length of their component, and the RDATE periods, both in order.
#[derive(Drop)]
pub struct Asked {
    pub plain: List<i64>,
    /// The start and the end of each.
    pub periods: List<(i64, i64)>,
}

/// Puts what the rules, RDATEs and RDATE periods of a component give in a range behind the starts that
/// keep its length, and behind the periods.
fn put_recurring<R: Rules, L: Ledger>(
    alloc: Global,
    body: &R,
    zones: &[LocalTimes<'_>],
    stamp: Stamp,
    component: &Component,
    range: Digits,
    plain: &mut List<i64>,
    periods: &mut List<(i64, i64)>,
    steps: &mut Steps<L>,
) -> Result<(), NoMemory>
    requires component { IsExpandable (length zones.now) component.now }
    requires start { component.now.start ≡ Some stamp }
    ensures steps { (day : ℕ) → EndsBy range day → steps.new ≤ steps.old + component_cost every_moment day component.now }
    ensures periods { OnOk result (periods.new ≡ periods.old ++ filter (span_starts_in (tables_of zones.now) stamp range) (map (period_span (tables_of zones.now) stamp) component.now.periods)) }
    ensures plain { OnOk result (plain.new ≡ plain.old
        ++ flat_map (later_starts (tables_of zones.now) stamp range) component.now.rules
        ++ filter (starts_in (tables_of zones.now) stamp range) (map (spec.date_start (tables_of zones.now) stamp) component.now.dates)
        ++ (if spec.is_date stamp then map (λ (period : ℤ × ℤ). period.0) periods.new else [])) }
{
    let rules = component.rules.as_slice();
    let dates = component.dates.as_slice();
    let spans = component.periods.as_slice();
    put_later_starts(alloc, body, zones, stamp, rules, range, plain, steps)?;
    put_dates(zones, stamp, range, dates, plain, steps)?;
    put_periods(zones, stamp, range, spans, periods, steps)?;
    put_days(stamp, periods, plain)
}

/// Puts what a component gives beside its own start, if it recurs.
fn put_others<R: Rules, L: Ledger>(
    alloc: Global,
    body: &R,
    zones: &[LocalTimes<'_>],
    stamp: Stamp,
    component: &Component,
    range: Digits,
    plain: &mut List<i64>,
    periods: &mut List<(i64, i64)>,
    steps: &mut Steps<L>,
) -> Result<(), NoMemory>
    requires component { IsExpandable (length zones.now) component.now }
    requires start { spec.own_start component.now ≡ Some stamp }
    requires own { plain.old ≡ filter (starts_in (tables_of zones.now) stamp range) (alignment.value_of (tables_of zones.now) stamp ∷ []) }
    requires empty { periods.old ≡ [] }
    ensures steps { (day : ℕ) → EndsBy range day → steps.new ≤ steps.old + component_cost every_moment day component.now }
    ensures plain { OnOk result (spec.ascending plain.new ≡ spec.ascending (filter (starts_in (tables_of zones.now) stamp range) (plain_of (tables_of zones.now) stamp component.now))) }
    ensures periods { OnOk result (periods.new ≡ filter (span_starts_in (tables_of zones.now) stamp range) (spans_of (tables_of zones.now) stamp component.now)) }
{
    if recurs(component) {
        put_recurring(
            alloc, body, zones, stamp, component, range, plain, periods, steps,
        )
    } else {
        Ok(())
    }
}

/// Starts and periods in order.
fn in_order(plain: List<i64>, periods: List<(i64, i64)>) -> Result<Asked, NoMemory>
    ensures plain { IfOk result (λ asked. asked.plain ≡ spec.ascending plain) }
    ensures rising { IfOk result (λ asked. AllPairs IsNotAfter asked.periods) }
    ensures periods { IfOk result (λ asked. IsPermutation periods asked.periods) }
{
    let plain = rising(plain)?;
    let periods = spans_in_order(periods)?;
    Ok(Asked { plain, periods })
}

/// What a component starts with in a range, EXDATEs aside.
fn what_is_asked<R: Rules, L: Ledger>(
    alloc: Global,
    body: &R,
    zones: &[LocalTimes<'_>],
    stamp: Stamp,
    component: &Component,
    range: Digits,
    steps: &mut Steps<L>,
) -> Result<Asked, NoMemory>
    requires component { IsExpandable (length zones.now) component.now }
    requires own { spec.own_start component.now ≡ Some stamp }
    ensures steps { (day : ℕ) → EndsBy range day → steps.new ≤ steps.old + component_cost every_moment day component.now }
    ensures plain { IfOk result (λ asked. asked.plain ≡ spec.ascending (filter (starts_in (tables_of zones.now) stamp range) (plain_of (tables_of zones.now) stamp component.now))) }
    ensures rising { IfOk result (λ asked. AllPairs IsNotAfter asked.periods) }
    ensures periods { IfOk result (λ asked. IsPermutation (filter (span_starts_in (tables_of zones.now) stamp range) (spans_of (tables_of zones.now) stamp component.now)) asked.periods) }
{
    let mut plain = List::new(alloc);
    let mut periods = List::new(alloc);
    put_start(zones, stamp, range, value_of(zones, stamp), &mut plain)?;
    put_others(
        alloc,
        body,
        zones,
        stamp,
        component,
        range,
        &mut plain,
        &mut periods,
        steps,
    )?;
    in_order(plain, periods)
}

/// All starts of what was asked, in order, each once.
fn all_starts(alloc: Global, asked: &Asked) -> Result<List<i64>, NoMemory>
    ensures { IfOk result (λ starts. starts ≡ spec.ascending (asked.now.plain ++ map (λ (period : ℤ × ℤ). period.0) asked.now.periods)) }
{
    let mut starts = List::of(alloc, asked.plain.as_slice())?;
    put_period_starts(&asked.periods, &mut starts)?;
    rising(starts)
}

/// What the EXDATEs of a component name, where they count.
pub fn component_exceptions(
    alloc: Global,
    zones: &[LocalTimes<'_>],
    stamp: Stamp,
    component: &Component,
) -> Result<Names, NoMemory>
    requires stamp { HasZone (length zones.now) stamp }
    requires except { All (IsConvertible (length zones.now)) component.now.except }
    ensures { IfOk result (IsNamesOf (map (λ (x : Stamp). alignment.align (tables_of zones.now) x stamp) (exceptions_of component.now))) }
{
    if recurs(component) {
        exceptions(alloc, zones, stamp, component.except.as_slice())
    } else {
        exceptions(alloc, zones, stamp, &[])
    }
}

/// The end of an instance: the component's length, or of a start that RDATE periods alone give the end
/// of the longest.
fn end_of(zones: &[LocalTimes<'_>], stamp: Stamp, extent: Extent, asked: &Asked, start: i64) -> i64
    requires stamp { IsConvertible (length zones.now) stamp }
    requires extent { IsConvertibleExtent (length zones.now) extent }
    requires plain { AllPairs IsBelow asked.now.plain }
    requires periods { AllPairs IsNotAfter asked.now.periods }
    requires start { IsBetween (neg_ℤ (pos 1_200_000_000_000)) (pos 1_200_000_000_000) start }
    ensures { result ≡ end_by (tables_of zones.now) stamp extent asked.now.plain asked.now.periods start }
{
    if is_among(&asked.plain, start) {
        end_of_extent(zones, stamp, extent, start)
    } else {
        last_end(asked.periods.as_slice(), start)
    }
}

/// The row of an instance.
fn row_at(
    zones: &[LocalTimes<'_>],
    stamp: Stamp,
    extent: Extent,
    number: u32,
    asked: &Asked,
    start: i64,
) -> Row
    requires stamp { IsConvertible (length zones.now) stamp }
    requires extent { IsConvertibleExtent (length zones.now) extent }
    requires plain { AllPairs IsBelow asked.now.plain }
    requires periods { AllPairs IsNotAfter asked.now.periods }
    requires start { IsBetween (neg_ℤ (pos 1_200_000_000_000)) (pos 1_200_000_000_000) start }
    ensures { result ≡ row_by (tables_of zones.now) stamp extent asked.now.plain asked.now.periods number start }
{
    let kind = kind_of(stamp);
    Row {
        id: start,
        start,
        end: end_of(zones, stamp, extent, asked, start),
        component: number,
        id_kind: kind,
        kind,
    }
}

/// Puts the row of a start behind the others, if no EXDATE names it.
fn put_instance(
    zones: &[LocalTimes<'_>],
    stamp: Stamp,
    extent: Extent,
    number: u32,
    asked: &Asked,
    excepted: &Names,
    start: i64,
    out: &mut List<Row>,
) -> Result<(), NoMemory>
    requires stamp { IsConvertible (length zones.now) stamp }
    requires extent { IsConvertibleExtent (length zones.now) extent }
    requires plain { AllPairs IsBelow asked.now.plain }
    requires periods { AllPairs IsNotAfter asked.now.periods }
    requires values { AllPairs IsBelow excepted.now.values }
    requires days { AllPairs IsBelow excepted.now.days }
    requires near { IsBetween (neg_ℤ (pos 1_200_000_000_000)) (pos 1_200_000_000_000) start }
    ensures { OnOk result (out.new ≡ out.old ++ map (row_by (tables_of zones.now) stamp extent asked.now.plain asked.now.periods number) (filter (λ r. not (has_name (alignment.reading_of (tables_of zones.now) stamp) r excepted.now)) (start ∷ []))) }
{
    if !is_named(zones, stamp, excepted, start) {
        out.push(row_at(zones, stamp, extent, number, asked, start))?;
    }
    Ok(())
}

/// The rows at starts that no EXDATE names.
fn rows_at(
    alloc: Global,
    zones: &[LocalTimes<'_>],
    stamp: Stamp,
    extent: Extent,
    number: u32,
    asked: &Asked,
    excepted: &Names,
    starts: &[i64],
) -> Result<List<Row>, NoMemory>
    requires stamp { IsConvertible (length zones.now) stamp }
    requires extent { IsConvertibleExtent (length zones.now) extent }
    requires plain { AllPairs IsBelow asked.now.plain }
    requires periods { AllPairs IsNotAfter asked.now.periods }
    requires values { AllPairs IsBelow excepted.now.values }
    requires days { AllPairs IsBelow excepted.now.days }
    requires near { All (IsBetween (neg_ℤ (pos 1_200_000_000_000)) (pos 1_200_000_000_000)) starts.now }
    ensures { IfOk result (λ rows. rows ≡ map (row_by (tables_of zones.now) stamp extent asked.now.plain asked.now.periods number) (filter (λ r. not (has_name (alignment.reading_of (tables_of zones.now) stamp) r excepted.now)) starts.now)) }
{
    let mut rows = List::new(alloc);
    rows.reserve(starts.len())?;
    let mut rest = starts;
    'starts: while let Some((start, behind)) = rest.split_first() {
        put_instance(
            zones, stamp, extent, number, asked, excepted, *start, &mut rows,
        )?;
        rest = behind;
    }
    Ok(rows)
}

/// The rows of a component's instances that start in a range of digits, in order, EXDATEs taken off.
/// Takes a step for each moment that is taken from a rule, and one for each RDATE.
pub fn instances<R: Rules, L: Ledger>(
    alloc: Global,
    body: &R,
    zones: &[LocalTimes<'_>],
    stamp: Stamp,
    component: &Component,
    number: u32,
    range: Digits,
    steps: &mut Steps<L>,
) -> Result<List<Row>, NoMemory>
    requires component { IsExpandable (length zones.now) component.now }
    requires own { spec.own_start component.now ≡ Some stamp }
    ensures steps { (day : ℕ) → EndsBy range day → steps.new ≤ steps.old + component_cost every_moment day component.now }
    ensures rows { IfOk result (λ rows. rows ≡ instances_in (tables_of zones.now) stamp component.now number range) }
{
    let asked = what_is_asked(alloc, body, zones, stamp, component, range, steps)?;
    let excepted = component_exceptions(alloc, zones, stamp, component)?;
    let starts = all_starts(alloc, &asked)?;
    rows_at(
        alloc,
        zones,
        stamp,
        component.extent,
        number,
        &asked,
        &excepted,
        starts.as_slice(),
    )
}
