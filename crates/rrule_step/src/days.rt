//! The days of a month that pass a rule, as a set: 0 is the first of the month.
ghost use Rattle.std.specs.Prelude.{◌≡◌, ℕ, ℤ, List, ◌+◌, ◌-◌, ◌*◌, ◌<◌, ◌≤◌, ◌==◌, true, false, if◌then◌else◌, slice_index_or};
ghost use Rattle.std.specs.List.{list_any};
ghost use Rattle.cal_moment.specs.Calendar as cal;
ghost use Rattle.cal_model.specs.declared.rule.DayPart.{DayPart};
ghost use Rattle.cal_model.specs.Recurrence.RuleBounds.{IsUsable};
ghost use Rattle.cal_model.specs.Recurrence.Passing as spec;
ghost use Rattle.cal_model.specs.Words.Lists as lists;
ghost use Rattle.cal_model.specs.Words.Integers.{some_names_place};
ghost use Rattle.rrule_step.specs.DaySets.{AreDaySets, AreMonthDays, AreYearDays};
ghost use Rattle.rrule_step.specs.Ordinals.{AreOrdinals, asks_for, asks_of};
ghost use Rattle.rrule_step.specs.Sets.{has};

use crate::day_sets::{DaySets, MonthDays, YearDays};
use crate::month::{Month, days_before_month, is_leap, weekday_of, year_length};
use crate::ordinals::{Ordinals, is_asked};
use crate::parts::numbers_of;
use crate::set::Set;
use crate::start::Start;
use crate::weeks::week_days;
use cal_base::List;
use cal_model::{Freq, Rule};

/// The places that numbers name in a month of so many days.
fn named_in_month(days: &MonthDays, size: u32) -> Set
    requires { (28 ≤ size) × (size ≤ 31) }
    ensures { (numbers : List ℤ) → AreMonthDays numbers days.now → (i : ℕ) → i < size → has result i ≡ some_names_place numbers (i + 1) size }
{
    match size {
        28 => days.of_28,
        29 => days.of_29,
        30 => days.of_30,
        _ => days.of_31,
    }
}

/// BYMONTHDAY.
fn month_days(rule: &Rule, days: &MonthDays, month: &Month) -> Set
    requires days { AreMonthDays rule.now.by_month_day days.now }
    ensures { (i : ℕ) → i < month.now.size → has result i ≡ spec.month_day_passes rule.now (month.now.first + i) }
{
    if rule.by_month_day.is_empty() {
        Set::all()
    } else {
        named_in_month(days, month.size)
    }
}

/// Whether a table of a year marks a day.
fn is_marked(table: &[bool; 366], day: u32) -> bool
    requires { day < 366 }
    ensures { result ≡ slice_index_or table.now day false }
{
    table[day as usize]
}

/// The days of a month that a table of its year marks, `before` of which lie before the month.
fn marked_days(table: &[bool; 366], before: u32, count: u32) -> Set
    requires count { count ≤ 31 }
    requires within { before + count ≤ 366 }
    ensures { (i : ℕ) → i < count → has result i ≡ slice_index_or table.now (before + i) false }
{
    let mut set = Set::none();
    for i in 0..count {
        let marked = is_marked(table, before + i);
        set = set.with_if(i, marked);
    }
    set
}

/// BYYEARDAY.
fn year_days(rule: &Rule, days: &YearDays, month: &Month) -> Set
    requires days { AreYearDays rule.now.by_year_day days.now }
    ensures { (i : ℕ) → i < month.now.size → has result i ≡ spec.year_day_passes rule.now (month.now.first + i) }
{
    if rule.by_year_day.is_empty() {
        return Set::all();
    }
    let before = days_before_month(month.year, month.month);
    if is_leap(month.year) {
        marked_days(&days.of_366, before, month.size)
    } else {
        marked_days(&days.of_365, before, month.size)
    }
}

/// The days of a weekday, from a first day on.
fn weekdays(weekday: u32, first: u32) -> Set
    requires weekday { weekday < 7 }
    requires first { first < 3_652_425 }
    ensures { (i : ℕ) → i < 31 → has result i ≡ (cal.weekday_of (first + i) == weekday) }
{
    let mut set = Set::none();
    let at = (weekday + 7 - weekday_of(first)) % 7;
    for week in 0..5u32 {
        set = set.with(at + 7 * week);
    }
    set
}

/// A set with the days of a weekday whose occurrence is asked for.
fn with_weeks(
    set: Set,
    front: Set,
    back: Set,
    weekday: u32,
    first: u32,
    before: u32,
    size: u32,
) -> Set
    requires weekday { weekday < 7 }
    requires first { first < 3_652_425 }
    requires before { before ≤ 366 }
    requires size { size ≤ 366 }
    ensures { (i : ℕ) → i < 31 → has result i ≡ (if (if weekday == cal.weekday_of (first + i) then asks_for (has front) (has back) (before + i + 1) size else false) then true else has set i) }
{
    let mut set = set;
    let at = (weekday + 7 - weekday_of(first)) % 7;
    for week in 0..5u32 {
        let day = at + 7 * week;
        if is_asked(front, back, before + day + 1, size) {
            set = set.with(day);
        }
    }
    set
}

/// A set with the days of a weekday that BYDAY names. Most rules name few weekdays.
fn with_weekday(
    set: Set,
    ordinals: &Ordinals,
    weekday: u32,
    first: u32,
    before: u32,
    size: u32,
) -> Set
    requires weekday { weekday < 7 }
    requires first { first < 3_652_425 }
    requires before { before ≤ 366 }
    requires size { size ≤ 366 }
    ensures { (i : ℕ) → i < 31 → has result i ≡ (if cal.weekday_of (first + i) == weekday then (if asks_of ordinals.now weekday (before + i + 1) size then true else has set i) else has set i) }
{
    let front = ordinals.counted(weekday);
    let back = ordinals.counted_back(weekday);
    if front.is_none() && back.is_none() {
        return set;
    }
    with_weeks(set, front, back, weekday, first, before, size)
}

/// The days that values of BYDAY name, weekday by weekday.
fn all_weekdays(ordinals: &Ordinals, first: u32, before: u32, size: u32) -> Set
    requires first { first < 3_652_425 }
    requires before { before ≤ 366 }
    requires size { size ≤ 366 }
    ensures { (parts : List DayPart) → AreOrdinals parts ordinals.now → (i : ℕ) → i < 31 → has result i ≡ list_any (spec.weekday_passes (cal.weekday_of (first + i)) (before + i + 1) size) parts }
{
    let mut set = Set::none();
    for weekday in 0..7u32 {
        set = with_weekday(set, ordinals, weekday, first, before, size);
    }
    set
}

/// Whether ordinals count in the month; else they count in the year.
fn counts_in_month(freq: Freq, by_month: &List<u8>) -> bool
    ensures { result ≡ spec.counts_in_month freq by_month.now }
{
    match freq {
        Freq::Monthly => true,
        _ => !by_month.is_empty(),
    }
}

/// BYDAY: ordinals count in the month under MONTHLY and beside BYMONTH, else in the year.
fn by_days(rule: &Rule, ordinals: &Ordinals, month: &Month) -> Set
    requires ordinals { AreOrdinals rule.now.by_day ordinals.now }
    ensures { (i : ℕ) → i < month.now.size → has result i ≡ spec.by_day_passes rule.now (month.now.first + i) }
{
    if rule.by_day.is_empty() {
        return Set::all();
    }
    if counts_in_month(rule.freq, &rule.by_month) {
        all_weekdays(ordinals, month.first, 0, month.size)
    } else {
        let before = days_before_month(month.year, month.month);
        let size = year_length(month.year);
        all_weekdays(ordinals, month.first, before, size)
    }
}

/// Whether a part names days of a year or a month, or weekdays.
fn has_day_part(rule: &Rule) -> bool
    ensures { result ≡ spec.has_day_part rule.now }
{
    !rule.by_year_day.is_empty() || !rule.by_month_day.is_empty() || !rule.by_day.is_empty()
}

/// Whether the start leaves its day to a month under YEARLY: without BYMONTH to its own alone.
fn in_start_month(rule: &Rule, start: &Start, month: &Month) -> bool
    ensures { result ≡ (if lists.is_empty rule.now.by_month then month.now.month == start.now.month else true) }
{
    !rule.by_month.is_empty() || month.month == start.month
}

/// The start's day of the month, where it is asked for.
fn start_day_if(start: &Start, asked: bool) -> Set
    ensures { (i : ℕ) → i < 64 → has result i ≡ (if i == start.now.of_month - 1 then asked else false) }
{
    if asked {
        Set::only(start.of_month - 1)
    } else {
        Set::none()
    }
}

/// What the start gives of the day where no part does.
fn start_days(rule: &Rule, start: &Start, month: &Month) -> Set
    ensures { (i : ℕ) → i < month.now.size → has result i ≡ spec.day_default rule.now.freq rule.now start.now.day (month.now.first + i) }
{
    match rule.freq {
        Freq::Weekly => weekdays(weekday_of(start.day), month.first),
        Freq::Monthly => Set::only(start.of_month - 1),
        Freq::Yearly => start_day_if(start, in_start_month(rule, start, month)),
        _ => Set::all(),
    }
}

/// What the start gives of the day; beside BYWEEKNO alone it is the weekday.
fn default_days(rule: &Rule, start: &Start, month: &Month) -> Set
    ensures { (i : ℕ) → i < month.now.size → has result i ≡ spec.default_passes rule.now start.now.day (month.now.first + i) }
{
    if has_day_part(rule) {
        return Set::all();
    }
    if rule.by_week.is_empty() {
        start_days(rule, start, month)
    } else {
        weekdays(weekday_of(start.day), month.first)
    }
}

/// The months that may have a passing day: those of BYMONTH, or under YEARLY the start's where
/// nothing else names days.
pub fn months_of(rule: &Rule, start: &Start) -> Set
    ensures missed { (day : ℕ) → has result (cal.month_of day) ≡ false → spec.day_passes rule.now start.now.day day ≡ false }
    ensures listed { (day : ℕ) → has result (cal.month_of day) ≡ true → spec.month_passes rule.now day ≡ true }
{
    if !rule.by_month.is_empty() {
        numbers_of(&rule.by_month)
    } else if rule.freq == Freq::Yearly && !has_day_part(rule) && rule.by_week.is_empty() {
        Set::only(start.month)
    } else {
        Set::all()
    }
}

/// What five sets have in common.
fn in_all(a: Set, b: Set, c: Set, d: Set, e: Set) -> Set
    ensures { (i : ℕ) → has result i ≡ (if has a i then (if has b i then (if has c i then (if has d i then has e i else false) else false) else false) else false) }
{
    a.both(b.both(c.both(d.both(e))))
}

/// The days of a month of BYMONTH that pass all that a rule and its start say of days.
pub fn days_of(rule: &Rule, start: &Start, sets: &DaySets, month: &Month) -> Set
    requires rule { IsUsable rule.now }
    requires sets { AreDaySets rule.now sets.now }
    requires listed { (i : ℕ) → i < month.now.size → spec.month_passes rule.now (month.now.first + i) ≡ true }
    ensures { (i : ℕ) → i < month.now.size → has result i ≡ spec.day_passes rule.now start.now.day (month.now.first + i) }
{
    in_all(
        month_days(rule, &sets.month_days, month),
        by_days(rule, &sets.ordinals, month),
        year_days(rule, &sets.year_days, month),
        week_days(rule, &sets.weeks, month),
        default_days(rule, start, month),
    )
}
