//! The moments from which the alarms of a component count, made ready in order where there are many
//! rows: an alarm is then looked for among them by searches, from each moment to the next at which it
//! goes off.

ghost use Rattle.std.specs.Prelude.{◌≡◌, ◌++◌, ◌==◌, ◌≤◌, ◌<ℤ◌, ℤ, length, if◌then◌else◌, None, Some, IfOk, IfSome, OnOk, option_to_list};
ghost use Rattle.std.specs.List.{AllWithin, list_any, slice_get};
ghost use Rattle.std.specs.List.Sorted.{IsSorted};
ghost use Rattle.std.specs.Option.{option_and_then, option_copied};
ghost use Rattle.std.specs.Ordering.{int_cmp};
ghost use Rattle.cal_model.specs.declared.object.Component.{Component as Whole};
ghost use Rattle.cal_model.specs.Ranges.Overlap as overlap;
ghost use Rattle.cal_model.specs.TimeZones.TableBounds.{IsTable};
ghost use Rattle.overlap_rules.specs.Bounds.{IsNearRow};
ghost use Rattle.overlap_rules.specs.NextMoments.{goes_off};
ghost use Rattle.filter_eval.specs.AlarmMoments as spec;
ghost use Rattle.filter_eval.specs.Places.{IsReady, matched_of};

use crate::subject::Subject;
use crate::walks::{first_row, next_row};
use cal_base::{List, NoMemory};
use cal_model::{Alarm, Component, Fixed, Range, Related, Row, RowKind, Trigger, ZoneTable};
use cal_moment::Length;
use overlap_rules::{fixed, moment_related, next_moment};
use std::alloc::Global;

/// The moments from which the alarms of a component count, in rising order: those at which its rows
/// start and those at which they end, each where some alarm counts from it.
#[derive(Drop)]
pub struct AlarmMoments {
    starts: Option<List<i64>>,
    ends: Option<List<i64>>,
}

/// The start and the end of a row with a date.
pub fn dated_fixed(row: &Row, zone: &ZoneTable) -> Option<Fixed>
    requires zone { IsTable zone.now }
    requires near { IsNearRow row.now }
    ensures { result ≡ overlap.dated_fixed row.now zone.now }
{
    if row.kind == RowKind::Undated {
        None
    } else {
        Some(fixed(row, zone))
    }
}

/// Whether an alarm counts from the one end of a row.
fn counts_from(alarm: &Alarm, related: Related) -> bool {
    matches!(alarm.trigger, Trigger::From(end, _) if end == related)
}

/// The moment of a row from which alarms of a component count, if it is a row of that.
fn moment_of(
    subject: &Subject,
    number: usize,
    component: &Component,
    related: Related,
    row: &Row,
) -> Option<i64>
    requires ready { IsReady subject.now }
    requires near { IsNearRow row.now }
    ensures { result ≡ (if row.now.component == number then spec.moment_of (matched_of subject.now) related component.now row.now else None) }
{
    if row.component as usize != number {
        return None;
    }
    match dated_fixed(row, subject.zone) {
        Some(at) => moment_related(related, component, at),
        None => None,
    }
}

/// Puts a moment, if there is one, behind others.
fn put_moment(moment: Option<i64>, moments: &mut List<i64>) -> Result<(), NoMemory>
    ensures { OnOk result (moments.new ≡ moments.old ++ option_to_list moment) }
{
    match moment {
        Some(moment) => moments.push(moment),
        None => Ok(()),
    }
}

/// The moments from which alarms of a component count, in the order of its rows.
fn moments_of(
    alloc: Global,
    subject: &Subject,
    number: usize,
    component: &Component,
    related: Related,
) -> Result<List<i64>, NoMemory>
    requires { IsReady subject.now }
    ensures { IfOk result (λ moments. moments ≡ spec.moments_of (matched_of subject.now) (record { number = number; component = component.now }) related) }
{
    let mut moments = List::new(alloc);
    let mut place = first_row(subject, number);
    'rows: while let Some(row) = subject.rows.get(place) {
        let moment = moment_of(subject, number, component, related, row);
        put_moment(moment, &mut moments)?;
        place = match subject.row_links {
            Some(links) => next_row(subject, links, number, place, row),
            None => place + 1,
        };
    }
    Ok(moments)
}

/// Moments in rising order. Takes no memory, and where they rise or fall already no more than a look
/// at each.
fn in_order(moments: List<i64>) -> List<i64>
    ensures { spec.AreInOrder moments result }
{
    let mut moments = moments.into_vec();
    moments.sort_unstable();
    List::from_vec(moments)
}

/// The moments from which alarms of a component count, in rising order, if some alarm does.
fn ordered_moments(
    alloc: Global,
    subject: &Subject,
    number: usize,
    component: &Component,
    related: Related,
) -> Result<Option<List<i64>>, NoMemory>
    requires { IsReady subject.now }
    ensures { IfOk result (λ ordered. IfSome ordered (spec.AreInOrder (spec.moments_of (matched_of subject.now) (record { number = number; component = component.now }) related))) }
{
    let counted = component
        .alarms
        .iter()
        .any(|alarm| counts_from(alarm, related));
    if !counted {
        return Ok(None);
    }
    match moments_of(alloc, subject, number, component, related) {
        Ok(moments) => Ok(Some(in_order(moments))),
        Err(fault) => Err(fault),
    }
}

/// The moments that were made ready, if they were.
fn slice_of(moments: &Option<List<i64>>) -> Option<&[i64]>
    ensures { option_copied result ≡ moments.now }
{
    match moments {
        Some(moments) => Some(moments.as_slice()),
        None => None,
    }
}

impl AlarmMoments {
    /// Those of the component of a number.
    fn of(
        alloc: Global,
        subject: &Subject,
        number: usize,
        component: &Component,
    ) -> Result<AlarmMoments, NoMemory>
        requires { IsReady subject.now }
        ensures { IfOk result (spec.AreMomentsOf (matched_of subject.now) (record { number = number; component = component.now })) }
    {
        let starts = ordered_moments(alloc, subject, number, component, Related::Start)?;
        let ends = ordered_moments(alloc, subject, number, component, Related::End)?;
        Ok(AlarmMoments { starts, ends })
    }

    /// Those from which an alarm counts.
    fn by(&self, related: Related) -> Option<&[i64]>
        ensures { option_copied result ≡ spec.ordered_by self.now related }
    {
        match related {
            Related::Start => slice_of(&self.starts),
            Related::End => slice_of(&self.ends),
        }
    }
}

/// The moments of each component of an object, at its number. They take 16 to 32 octets for each row
/// of a component with alarms.
pub fn all_moments(alloc: Global, subject: &Subject) -> Result<List<AlarmMoments>, NoMemory>
    requires { IsReady subject.now }
    ensures { IfOk result (spec.AreAllMoments (matched_of subject.now)) }
{
    let mut all = List::new(alloc);
    'components: for component in subject.object.components.as_slice() {
        let moments = AlarmMoments::of(alloc, subject, all.len(), component)?;
        all.push(moments)?;
    }
    Ok(all)
}

/// Those of the component of a number, from which an alarm counts.
fn moments_at(all: &List<AlarmMoments>, number: usize, related: Related) -> Option<&[i64]>
    ensures { option_copied result ≡ option_and_then (λ moments. spec.ordered_by moments related) (slice_get all.now number) }
{
    match all.get(number) {
        Some(moments) => moments.by(related),
        None => None,
    }
}

/// The moments from which an alarm of a component counts, where they were made ready.
pub fn ready_moments<'m>(
    subject: &Subject<'_, '_, 'm, '_, '_>,
    number: usize,
    related: Related,
) -> Option<&'m [i64]>
    requires { IsReady subject.now }
    ensures { (component : Whole) → slice_get subject.now.object.now.components number ≡ Some component → IfSome result (λ moments. spec.AreInOrder (spec.moments_of (matched_of subject.now) (record { number = number; component = component }) related) moments.now) }
{
    match subject.moments {
        Some(all) => moments_at(all, number, related),
        None => None,
    }
}

/// Up to where some moments in rising order are looked through for those that lie before another: as far
/// as these reach, and no more than twice as far.
fn reach_of(moments: &[i64], upper: i128) -> usize
    ensures { result ≤ length moments.now }
{
    let mut reach = 1;
    'doubling: while reach < moments.len() && (moments[reach] as i128) < upper {
        reach *= 2;
    }
    reach.min(moments.len())
}

/// How many of some moments in rising order lie before another.
fn count_before(moments: &[i64], upper: i128) -> usize
    requires { IsSorted int_cmp moments.now }
    ensures bound { result ≤ length moments.now }
    ensures before { AllWithin (λ (moment : ℤ). moment <ℤ upper) moments.now 0 result }
{
    moments.partition_point(|moment| (*moment as i128) < upper)
}

/// The same, in the logarithm of their number.
fn skipped(moments: &[i64], upper: i128) -> usize
    requires { IsSorted int_cmp moments.now }
    ensures bound { result ≤ length moments.now }
    ensures before { AllWithin (λ (moment : ℤ). moment <ℤ upper) moments.now 0 result }
{
    let reach = reach_of(moments, upper);
    let (front, _) = moments.split_at(reach);
    count_before(front, upper)
}

/// Whether an alarm that goes off first so long after a moment goes off in a range, counted from one
/// of some moments in rising order. Each look leads to the next moment that can do. So few more of them
/// are looked at than the alarm has times, and than lie where it may go off in the range; and two at
/// most where its gap is no longer than the range.
pub fn some_goes_off(moments: &[i64], alarm: &Alarm, after: Length, range: Range) -> bool
    requires { IsSorted int_cmp moments.now }
    ensures { result ≡ list_any (goes_off alarm.now after range) moments.now }
{
    let mut rest = moments;
    'search: while let Some((moment, behind)) = rest.split_first() {
        let Some(next) = next_moment(alarm, after, range, *moment) else {
            return false;
        };
        if next <= *moment as i128 {
            return true;
        }
        let count = skipped(behind, next);
        let (_, left) = behind.split_at(count);
        rest = left;
    }
    false
}
