//! The parts that name days of a month, days of a year or weeks, as sets that are made once (RFC 5545,
//! 3.3.10).
ghost use Rattle.std.specs.Prelude.{◌≡◌, ℕ, ◌+◌, ◌<◌, ◌≤◌, ◌==◌, true, false, if◌then◌else◌, MatchOption, slice_index_or};
ghost use Rattle.cal_model.specs.Words.Integers.{names_place, some_names_place};
ghost use Rattle.rrule_step.specs.DaySets.{AreDaySets, AreMonthDays, AreWeeks, AreYearDays};
ghost use Rattle.rrule_step.specs.Sets.{has};

use crate::ordinals::{Ordinals, ordinals_of};
use crate::set::Set;
use cal_base::List;
use cal_model::Rule;

/// The days that BYMONTHDAY names, by the length of a month: 0 is the first.
#[derive(Drop)]
pub struct MonthDays {
    pub of_28: Set,
    pub of_29: Set,
    pub of_30: Set,
    pub of_31: Set,
}

/// The days that BYYEARDAY names, by the length of a year: 0 is 1 January.
#[derive(Drop)]
pub struct YearDays {
    pub of_365: [bool; 366],
    pub of_366: [bool; 366],
}

/// The weeks that BYWEEKNO names, by how many a year has: 0 is the first.
#[derive(Drop)]
pub struct Weeks {
    pub of_52: Set,
    pub of_53: Set,
}

/// What the parts of a rule that name days say. It has no list, so that to look costs the same however
/// long the parts are.
#[derive(Drop)]
pub struct DaySets {
    pub month_days: MonthDays,
    pub year_days: YearDays,
    pub weeks: Weeks,
    pub ordinals: Ordinals,
}

/// The place that a number names among so many, counted from 0: from the front or, where the number
/// is negative, from the end.
fn named(number: i16, size: u32) -> Option<u32>
    requires { size ≤ 366 }
    ensures { MatchOption result
        ((i : ℕ) → i < size → names_place (i + 1) size number ≡ false)
        (λ d. (d < size) × ((i : ℕ) → i < size → names_place (i + 1) size number ≡ (i == d))) }
{
    if number > 0 {
        let place = number as u32;
        if place <= size { Some(place - 1) } else { None }
    } else if number < 0 {
        let back = (-(number as i32)) as u32;
        if back <= size {
            Some(size - back)
        } else {
            None
        }
    } else {
        None
    }
}

/// A set with the place that a number names among so many.
fn with_named(set: Set, number: i16, size: u32) -> Set
    requires { size ≤ 64 }
    ensures { (i : ℕ) → i < size → has result i ≡ (if names_place (i + 1) size number then true else has set i) }
{
    match named(number, size) {
        Some(place) => set.with(place),
        None => set,
    }
}

/// The places that numbers name among so many.
fn all_named(numbers: &List<i16>, size: u32) -> Set
    requires { size ≤ 64 }
    ensures { (i : ℕ) → i < size → has result i ≡ some_names_place numbers.now (i + 1) size }
{
    let mut set = Set::none();
    for number in numbers.as_slice() {
        set = with_named(set, *number, size);
    }
    set
}

/// Marks the day that a number names among so many.
fn mark_named(table: &mut [bool; 366], number: i16, size: u32)
    requires { size ≤ 366 }
    ensures { (i : ℕ) → i < size → slice_index_or table.new i false ≡ (if names_place (i + 1) size number then true else slice_index_or table.old i false) }
{
    if let Some(place) = named(number, size) {
        table[place as usize] = true;
    }
}

/// The days that numbers name among so many of a year.
fn year_table(numbers: &List<i16>, size: u32) -> [bool; 366]
    requires { size ≤ 366 }
    ensures { (i : ℕ) → i < size → slice_index_or result i false ≡ some_names_place numbers.now (i + 1) size }
{
    let mut table = [false; 366];
    for number in numbers.as_slice() {
        mark_named(&mut table, *number, size);
    }
    table
}

/// BYMONTHDAY.
fn month_days_of(numbers: &List<i16>) -> MonthDays
    ensures { AreMonthDays numbers.now result }
{
    MonthDays {
        of_28: all_named(numbers, 28),
        of_29: all_named(numbers, 29),
        of_30: all_named(numbers, 30),
        of_31: all_named(numbers, 31),
    }
}

/// BYYEARDAY.
fn year_days_of(numbers: &List<i16>) -> YearDays
    ensures { AreYearDays numbers.now result }
{
    YearDays {
        of_365: year_table(numbers, 365),
        of_366: year_table(numbers, 366),
    }
}

/// BYWEEKNO.
fn weeks_of(numbers: &List<i16>) -> Weeks
    ensures { AreWeeks numbers.now result }
{
    Weeks {
        of_52: all_named(numbers, 52),
        of_53: all_named(numbers, 53),
    }
}

/// What the parts of a rule that name days say.
pub fn day_sets_of(rule: &Rule) -> DaySets
    ensures { AreDaySets rule.now result }
{
    DaySets {
        month_days: month_days_of(&rule.by_month_day),
        year_days: year_days_of(&rule.by_year_day),
        weeks: weeks_of(&rule.by_week),
        ordinals: ordinals_of(&rule.by_day),
    }
}
