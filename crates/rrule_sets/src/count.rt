//! The number of an object's rows.
ghost use Rattle.std.specs.Prelude.{◌≡◌, ◌+◌, ◌≤◌, ◌<◌, ◌^◌, ◌++◌, ◌∷◌, Bool, List, [], length, count_by, false, All, AllPairs, IfOk, OnOk, MatchOption, Some, filter, flat_map, map, take, pos, neg_ℤ};
ghost use Rattle.cal_moment.specs.Calendar.{IsBetween};
ghost use Rattle.cal_moment.specs.declared.stamp.Period.{Period};
ghost use Rattle.cal_moment.specs.declared.stamp.Stamp.{Stamp};
ghost use Rattle.cal_model.specs.declared.rule.Rule.{Rule};
ghost use Rattle.cal_model.specs.Instances.Alignment as alignment;
ghost use Rattle.cal_model.specs.Instances.Starts as spec;
ghost use Rattle.cal_model.specs.Instances.Rows as rows;
ghost use Rattle.cal_model.specs.Objects.ObjectFacts.{IsRead, IsServed};
ghost use Rattle.cal_model.specs.Recurrence.NextPassing.{is_fine};
ghost use Rattle.cal_model.specs.Recurrence.RuleBounds.{IsUsable};
ghost use Rattle.cal_model.specs.Recurrence.RecurrenceSet.{every_moment};
ghost use Rattle.cal_model.specs.Walks.PickedRest.{IsPicks};
ghost use Rattle.override_merge.specs.Conversions.{tables_of, HasConvertibleRow, HasZone, IsConvertible, IsRowTime};
ghost use Rattle.override_merge.specs.ExpandableComponents.{IsConvertiblePeriod, IsExpandable};
ghost use Rattle.rrule_sets.specs.CountedRows.{IsCountOf, IsMasterOf, IsSearchable, IsTakenFrom, IsTrimmed, all_later, dates_in, first_row, has_own_row, is_left, is_out, is_taken, left_starts, master_starts, other_starts, periods_in, rules_in, starts_of_walk};
ghost use Rattle.rrule_sets.specs.ExpandableObjects.{HasRowsToFind};
ghost use Rattle.rrule_sets.specs.HeldGovernors.{HasNoGreaterId, HoldsGovernors, IsMovable, days_of_movers};

use crate::asked::date_start;
use crate::ends::recurs;
use crate::governors::{
    Governor, are_served, day_of_mover, governing, governors_beside, has_future, moved_digits,
};
use crate::instances::{component_exceptions, instances};
use crate::later::{clock_beside, start_moment};
use crate::range::Digits;
use crate::window::master_of;
use cal_base::{List, NoMemory, Steps};
use cal_model::walk::cursor::is_dated;
use cal_model::walk::rule_walk::{END, FIRST, RuleWalk, begin_walk, next_moment};
use cal_model::{Component, LocalTimes, Object, Row, Rule, Rules, local_times_of};
use cal_moment::{Period, Stamp};
use override_merge::names::{Names, is_named, names_of_overrides, rising};
use override_merge::stamps::value_of;
use override_merge::starts::own_start;
use rrule_step::PeriodStep;
use std::alloc::Global;
use std::marker::Brand;
use std::sync::ledger::{Blank, Ledger};

const DAY: i64 = 86_400;

/// How many rows an object has, as far as a limit.
pub enum Counted {
    /// So many, and no more than the limit.
    Within(u32),
    /// More than the limit.
    Over,
    NoMemory,
}

/// What takes starts away from a master: its EXDATEs, the RECURRENCE-IDs of the overrides, and moves
/// out of the dates that are served.
#[derive(Drop)]
struct Taken {
    excepted: Names,
    named: Names,
    /// The overrides that move later instances, in the order of their ids.
    governors: List<Governor>,
}

/// Whether an override that is held moves a start out of the dates that are served.
fn is_moved_out(zones: &[LocalTimes<'_>], governors: &[Governor], start: i64) -> bool
    requires rising { AllPairs HasNoGreaterId governors.now }
    requires movable { All (IsMovable (length zones.now)) governors.now }
    requires near { IsBetween (neg_ℤ (pos 1_200_000_000_000)) (pos 1_200_000_000_000) start }
    ensures { result ≡ is_out (tables_of zones.now) governors.now start }
{
    match governing(governors, start) {
        Some(governor) => !are_served(moved_digits(zones, governor, start)),
        None => false,
    }
}

/// Whether an EXDATE or an override names a start, or an override moves it out of the dates that are
/// served.
fn is_taken(zones: &[LocalTimes<'_>], stamp: Stamp, taken: &Taken, start: i64) -> bool
    requires stamp { HasZone (length zones.now) stamp }
    requires taken { IsSearchable (length zones.now) taken.now }
    requires near { IsBetween (neg_ℤ (pos 1_200_000_000_000)) (pos 1_200_000_000_000) start }
    ensures { result ≡ is_taken (tables_of zones.now) stamp taken.now start }
{
    is_named(zones, stamp, &taken.excepted, start)
        || is_named(zones, stamp, &taken.named, start)
        || is_moved_out(zones, taken.governors.as_slice(), start)
}

/// Puts a start behind the others, if nothing takes it away.
fn put_left(
    zones: &[LocalTimes<'_>],
    stamp: Stamp,
    taken: &Taken,
    start: i64,
    out: &mut List<i64>,
) -> Result<(), NoMemory>
    requires stamp { HasZone (length zones.now) stamp }
    requires taken { IsSearchable (length zones.now) taken.now }
    requires near { IsBetween (neg_ℤ (pos 1_200_000_000_000)) (pos 1_200_000_000_000) start }
    ensures { OnOk result (out.new ≡ out.old ++ filter (is_left (tables_of zones.now) stamp taken.now) (start ∷ [])) }
{
    if !is_taken(zones, stamp, taken, start) {
        out.push(start)?;
    }
    Ok(())
}

/// Starts, in order and each once where the list has grown long; none where they are more than there is
/// room for.
fn trimmed(starts: List<i64>, room: u32) -> Result<Option<List<i64>>, NoMemory>
    ensures { IfOk result (IsTrimmed room starts) }
{
    if starts.len() as u64 <= 2 * room as u64 + 64 {
        return Ok(Some(starts));
    }
    let starts = rising(starts)?;
    if starts.len() as u64 <= room as u64 {
        Ok(Some(starts))
    } else {
        Ok(None)
    }
}

/// The starts with those that a walk over a rule still gives; none where they are more than there is
/// room for, and then the rest of the walk is not taken.
fn with_moments<L: Ledger>(
    zones: &[LocalTimes<'_>],
    stamp: Stamp,
    taken: &Taken,
    rule: &Rule,
    room: u32,
    starts: List<i64>,
    walk: &mut RuleWalk,
    steps: &mut Steps<L>,
) -> Result<Option<List<i64>>, NoMemory>
    requires stamp { HasZone (length zones.now) stamp }
    requires served { IsServed stamp }
    requires taken { IsSearchable (length zones.now) taken.now }
    requires usable { IsUsable rule.now }
    requires coarse { is_fine rule.now.freq ≡ false }
    requires walk { (dated : Bool) → IsPicks rule.now (alignment.written_moment stamp) dated walk.old.picks }
    ensures { IfOk result (IsTrimmed room (starts ++ filter (is_left (tables_of zones.now) stamp taken.now) (starts_of_walk (tables_of zones.now) stamp rule.now walk.old))) }
{
    let clock = clock_beside(zones, stamp);
    let start = start_moment(stamp);
    let ready = PeriodStep.ready(rule, start, is_dated(&clock));
    let mut starts = starts;
    'moments: loop {
        let Some(m) = next_moment(&ready, rule, start, &clock, FIRST, END, walk, steps)? else {
            return Ok(Some(starts));
        };
        put_left(zones, stamp, taken, clock.instant(m), &mut starts)?;
        let Some(kept) = trimmed(starts, room)? else {
            return Ok(None);
        };
        starts = kept;
    }
}

/// The starts with those that a rule gives; none where they are more than there is room for, and then
/// the rest of the rule is not taken.
fn with_rule<L: Ledger>(
    alloc: Global,
    zones: &[LocalTimes<'_>],
    stamp: Stamp,
    taken: &Taken,
    rule: &Rule,
    room: u32,
    starts: List<i64>,
    steps: &mut Steps<L>,
) -> Result<Option<List<i64>>, NoMemory>
    requires stamp { HasZone (length zones.now) stamp }
    requires served { IsServed stamp }
    requires taken { IsSearchable (length zones.now) taken.now }
    requires usable { IsUsable rule.now }
    requires coarse { is_fine rule.now.freq ≡ false }
    ensures { IfOk result (IsTrimmed room (starts ++ filter (is_left (tables_of zones.now) stamp taken.now) (all_later (tables_of zones.now) stamp rule.now))) }
{
    let mut walk = begin_walk(alloc, rule, start_moment(stamp), FIRST);
    with_moments(zones, stamp, taken, rule, room, starts, &mut walk, steps)
}

/// The same of several rules, one after the other.
fn with_rules<L: Ledger>(
    alloc: Global,
    zones: &[LocalTimes<'_>],
    stamp: Stamp,
    taken: &Taken,
    rules: &[Rule],
    room: u32,
    starts: List<i64>,
    steps: &mut Steps<L>,
) -> Result<Option<List<i64>>, NoMemory>
    requires stamp { HasZone (length zones.now) stamp }
    requires served { All (λ (rule : Rule). IsServed stamp) rules.now }
    requires taken { IsSearchable (length zones.now) taken.now }
    requires usable { All IsUsable rules.now }
    requires coarse { All (λ (rule : Rule). is_fine rule.freq ≡ false) rules.now }
    ensures { IfOk result (IsTrimmed room (starts ++ filter (is_left (tables_of zones.now) stamp taken.now) (flat_map (all_later (tables_of zones.now) stamp) rules.now))) }
{
    let mut starts = starts;
    let mut rest = rules;
    'rules: while let Some((rule, behind)) = rest.split_first() {
        let Some(kept) = with_rule(alloc, zones, stamp, taken, rule, room, starts, steps)? else {
            return Ok(None);
        };
        starts = kept;
        rest = behind;
    }
    Ok(Some(starts))
}

/// Puts the starts of RDATEs that nothing takes away behind the others.
fn put_left_dates(
    zones: &[LocalTimes<'_>],
    stamp: Stamp,
    taken: &Taken,
    dates: &[Stamp],
    out: &mut List<i64>,
) -> Result<(), NoMemory>
    requires stamp { IsConvertible (length zones.now) stamp }
    requires taken { IsSearchable (length zones.now) taken.now }
    requires dates { All (IsConvertible (length zones.now)) dates.now }
    ensures { OnOk result (out.new ≡ out.old ++ filter (is_left (tables_of zones.now) stamp taken.now) (map (spec.date_start (tables_of zones.now) stamp) dates.now)) }
{
    let mut rest = dates;
    'dates: while let Some((date, behind)) = rest.split_first() {
        put_left(zones, stamp, taken, date_start(zones, stamp, *date), out)?;
        rest = behind;
    }
    Ok(())
}

/// The same of RDATE periods.
fn put_left_periods(
    zones: &[LocalTimes<'_>],
    stamp: Stamp,
    taken: &Taken,
    periods: &[Period],
    out: &mut List<i64>,
) -> Result<(), NoMemory>
    requires stamp { IsConvertible (length zones.now) stamp }
    requires taken { IsSearchable (length zones.now) taken.now }
    requires periods { All (IsConvertiblePeriod (length zones.now)) periods.now }
    ensures { OnOk result (out.new ≡ out.old ++ filter (is_left (tables_of zones.now) stamp taken.now) (map (λ (period : Period). spec.date_start (tables_of zones.now) stamp period.start) periods.now)) }
{
    let mut rest = periods;
    'periods: while let Some((period, behind)) = rest.split_first() {
        put_left(
            zones,
            stamp,
            taken,
            date_start(zones, stamp, period.start),
            out,
        )?;
        rest = behind;
    }
    Ok(())
}

/// The RDATEs of a component that count.
fn dates_of(component: &Component) -> &[Stamp]
    ensures { result.now ≡ dates_in component.now }
{
    if recurs(component) {
        component.dates.as_slice()
    } else {
        &[]
    }
}

/// Its RDATE periods that count.
fn periods_of(component: &Component) -> &[Period]
    ensures { result.now ≡ periods_in component.now }
{
    if recurs(component) {
        component.periods.as_slice()
    } else {
        &[]
    }
}

/// Its rules that count.
fn rules_of(component: &Component) -> &[Rule]
    ensures { result.now ≡ rules_in component.now }
{
    if recurs(component) {
        component.rules.as_slice()
    } else {
        &[]
    }
}

/// The starts of a component beside those of its rules, as far as nothing takes them away.
fn other_starts(
    alloc: Global,
    zones: &[LocalTimes<'_>],
    stamp: Stamp,
    component: &Component,
    taken: &Taken,
) -> Result<List<i64>, NoMemory>
    requires component { IsExpandable (length zones.now) component.now }
    requires stamp { IsConvertible (length zones.now) stamp }
    requires taken { IsSearchable (length zones.now) taken.now }
    ensures { IfOk result (λ starts. starts ≡ filter (is_left (tables_of zones.now) stamp taken.now) (other_starts (tables_of zones.now) stamp component.now)) }
{
    let mut starts = List::new(alloc);
    put_left(zones, stamp, taken, value_of(zones, stamp), &mut starts)?;
    put_left_dates(zones, stamp, taken, dates_of(component), &mut starts)?;
    put_left_periods(zones, stamp, taken, periods_of(component), &mut starts)?;
    Ok(starts)
}

/// The number of starts, each once; none where they are more than there is room for.
fn count_starts(starts: List<i64>, room: u32) -> Result<Option<u32>, NoMemory>
    ensures { IfOk result (λ r. MatchOption r (room < length (spec.ascending starts)) (λ n. (n ≡ length (spec.ascending starts)) × (n ≤ room))) }
{
    let starts = rising(starts)?;
    if starts.len() as u64 <= room as u64 {
        Ok(Some(starts.len() as u32))
    } else {
        Ok(None)
    }
}

/// How many instances of a component no override names; none where they are more than there is room
/// for.
fn count_left<L: Ledger>(
    alloc: Global,
    zones: &[LocalTimes<'_>],
    stamp: Stamp,
    component: &Component,
    taken: &Taken,
    room: u32,
    steps: &mut Steps<L>,
) -> Result<Option<u32>, NoMemory>
    requires component { IsExpandable (length zones.now) component.now }
    requires own { spec.own_start component.now ≡ Some stamp }
    requires taken { IsSearchable (length zones.now) taken.now }
    ensures { IfOk result (λ r. MatchOption r (room < length (left_starts (tables_of zones.now) stamp component.now taken.now)) (λ n. (n ≡ length (left_starts (tables_of zones.now) stamp component.now taken.now)) × (n ≤ room))) }
{
    let starts = other_starts(alloc, zones, stamp, component, taken)?;
    let rules = rules_of(component);
    let Some(starts) = with_rules(alloc, zones, stamp, taken, rules, room, starts, steps)? else {
        return Ok(None);
    };
    count_starts(starts, room)
}

/// Whether a component has a row of itself: it has no start, or it is an override.
fn has_own_row(component: &Component) -> bool
    ensures { result ≡ has_own_row component.now }
{
    own_start(component).is_none() || component.recurrence_id.is_some()
}

/// How many components have a row of themselves.
fn own_rows(components: &[Component]) -> u32
    requires { length components.now < 2 ^ 32 }
    ensures { result ≡ count_by has_own_row components.now }
{
    let mut rest = components;
    let mut count = 0u32;
    'components: while let Some((component, behind)) = rest.split_first() {
        if has_own_row(component) {
            count += 1;
        }
        rest = behind;
    }
    count
}

/// Puts the first row behind others, if there is one.
fn put_first(rows: &[Row], out: &mut List<Row>) -> Result<(), NoMemory>
    ensures { OnOk result (out.new ≡ out.old ++ take 1 rows.now) }
{
    match rows.first() {
        Some(row) => out.push(*row),
        None => Ok(()),
    }
}

/// Puts the row of the first start of a component on a local day behind others, if there is one.
fn put_first_on<L: Ledger>(
    alloc: Global,
    zones: &[LocalTimes<'_>],
    stamp: Stamp,
    component: &Component,
    midnight: i64,
    out: &mut List<Row>,
    steps: &mut Steps<L>,
) -> Result<(), NoMemory>
    requires component { IsExpandable (length zones.now) component.now }
    requires own { spec.own_start component.now ≡ Some stamp }
    requires near { IsRowTime midnight }
    ensures { OnOk result (out.new ≡ out.old ++ first_row (tables_of zones.now) stamp component.now midnight) }
{
    let range = Digits {
        low: midnight,
        high: midnight + DAY,
    };
    let rows = instances(alloc, &PeriodStep, zones, stamp, component, 0, range, steps)?;
    put_first(rows.as_slice(), out)
}

/// The row of the first start of a master on each local day that components name which move later
/// instances. One day is walked after the other, so that no more than the rows of a day are kept.
fn first_rows<L: Ledger>(
    alloc: Global,
    zones: &[LocalTimes<'_>],
    stamp: Stamp,
    component: &Component,
    components: &[Component],
    steps: &mut Steps<L>,
) -> Result<List<Row>, NoMemory>
    requires component { IsExpandable (length zones.now) component.now }
    requires own { spec.own_start component.now ≡ Some stamp }
    requires stamp { HasZone (length zones.now) stamp }
    requires components { All (HasConvertibleRow (length zones.now)) components.now }
    ensures { IfOk result (λ rows. rows ≡ flat_map (first_row (tables_of zones.now) stamp component.now) (days_of_movers (tables_of zones.now) stamp components.now)) }
{
    let mut firsts = List::new(alloc);
    let mut rest = components;
    'movers: while let Some((mover, behind)) = rest.split_first() {
        if let Some(midnight) = day_of_mover(zones, stamp, mover) {
            put_first_on(alloc, zones, stamp, component, midnight, &mut firsts, steps)?;
        }
        rest = behind;
    }
    Ok(firsts)
}

/// The overrides of an object that move later instances, beside all starts of its master.
fn governors_of<L: Ledger>(
    alloc: Global,
    zones: &[LocalTimes<'_>],
    stamp: Stamp,
    component: &Component,
    object: &Object,
    steps: &mut Steps<L>,
) -> Result<List<Governor>, NoMemory>
    requires object { HasRowsToFind object.now }
    requires zones { tables_of zones.now ≡ object.now.zones }
    requires master { IsMasterOf object.now component.now }
    requires own { spec.own_start component.now ≡ Some stamp }
    ensures held { IfOk result (HoldsGovernors object.now.zones (rows.governors object.now stamp (rows.starts every_moment object.now))) }
    ensures movable { IfOk result (All (IsMovable (length zones.now))) }
{
    let components = object.components.as_slice();
    if !has_future(components) {
        return Ok(List::new(alloc));
    }
    let firsts = first_rows(alloc, zones, stamp, component, components, steps)?;
    governors_beside(alloc, zones, stamp, object, firsts.as_slice())
}

/// What takes starts away from the master of an object.
fn taken_of<L: Ledger>(
    alloc: Global,
    zones: &[LocalTimes<'_>],
    stamp: Stamp,
    component: &Component,
    object: &Object,
    steps: &mut Steps<L>,
) -> Result<Taken, NoMemory>
    requires object { HasRowsToFind object.now }
    requires zones { tables_of zones.now ≡ object.now.zones }
    requires master { IsMasterOf object.now component.now }
    requires own { spec.own_start component.now ≡ Some stamp }
    ensures taken { IfOk result (IsTakenFrom object.now stamp component.now) }
    ensures searchable { IfOk result (IsSearchable (length zones.now)) }
{
    let governors = governors_of(alloc, zones, stamp, component, object, steps)?;
    let excepted = component_exceptions(alloc, zones, stamp, component)?;
    let named = names_of_overrides(alloc, zones, stamp, object.components.as_slice())?;
    Ok(Taken {
        excepted,
        named,
        governors,
    })
}

/// How many rows a master has, where the zones are at hand; none where they are more than there is room
/// for.
fn count_beside<L: Ledger>(
    alloc: Global,
    zones: &[LocalTimes<'_>],
    stamp: Stamp,
    component: &Component,
    object: &Object,
    room: u32,
    steps: &mut Steps<L>,
) -> Result<Option<u32>, NoMemory>
    requires object { HasRowsToFind object.now }
    requires zones { tables_of zones.now ≡ object.now.zones }
    requires master { IsMasterOf object.now component.now }
    requires own { spec.own_start component.now ≡ Some stamp }
    ensures { IfOk result (λ r. MatchOption r (room < length (master_starts object.now)) (λ n. (n ≡ length (master_starts object.now)) × (n ≤ room))) }
{
    let taken = taken_of(alloc, zones, stamp, component, object, steps)?;
    count_left(alloc, zones, stamp, component, &taken, room, steps)
}

/// How many rows the master of an object has; none where they are more than there is room for.
fn master_count<L: Ledger>(
    alloc: Global,
    object: &Object,
    room: u32,
    blank: Blank,
) -> Result<Option<u32>, NoMemory>
    requires object { HasRowsToFind object.now }
    requires name { L.name ≡ blank.name }
    requires parts { L.parts ≡ blank.parts }
    requires some { 0 < blank.parts }
    ensures { IfOk result (λ r. MatchOption r (room < length (master_starts object.now)) (λ n. (n ≡ length (master_starts object.now)) × (n ≤ room))) }
{
    let Some((component, _)) = master_of(object.components.as_slice()) else {
        return Ok(Some(0));
    };
    let Some(stamp) = own_start(component) else {
        return Ok(Some(0));
    };
    let zones = local_times_of(alloc, object.zones.as_slice())?;
    let mut steps = Steps::<L>::open(blank);
    count_beside(
        alloc,
        zones.as_slice(),
        stamp,
        component,
        object,
        room,
        &mut steps,
    )
}

/// How many rows an object has: `Within` their number, and `Over` exactly where they are more than the
/// limit. It ends as soon as the starts that nothing takes away are more, and keeps some twice the limit
/// of them at most, and the rows of one day.
pub fn count_rows(alloc: Global, object: &Object, limit: u32) -> Counted
    requires read { IsRead object.now }
    requires few { length object.now.components < 2 ^ 32 }
    requires coarse { spec.has_fine_rule object.now ≡ false }
    ensures { IsCountOf (length (rows.rows object.now)) limit result }
{
    let own = own_rows(object.components.as_slice());
    if own > limit {
        return Counted::Over;
    }
    match master_count::<Brand>(alloc, object, limit - own, Blank::new(1)) {
        Ok(Some(count)) => Counted::Within(own + count),
        Ok(None) => Counted::Over,
        Err(NoMemory) => Counted::NoMemory,
    }
}
