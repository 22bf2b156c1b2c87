//! BYWEEKNO: the weeks of the year that touch a month, each tested once (RFC 5545, 3.3.10).
ghost use Rattle.std.specs.Prelude.{◌≡◌, ◌≢◌, ℕ, ◌+◌, ◌-◌, ◌*◌, ◌/◌, ◌%◌, ◌<◌, ◌≤◌, ◌==◌, true, false, if◌then◌else◌};
ghost use Rattle.cal_moment.specs.Calendar as cal;
ghost use Rattle.cal_model.specs.Recurrence.RuleBounds.{IsUsable};
ghost use Rattle.cal_model.specs.Recurrence.Passing as spec;
ghost use Rattle.cal_model.specs.Words.Integers as integers;
ghost use Rattle.cal_model.specs.Words.Lists as lists;
ghost use Rattle.rrule_step.specs.DaySets.{AreWeeks};
ghost use Rattle.rrule_step.specs.Sets.{has};

use crate::day_sets::Weeks;
use crate::month::{Month, first_of_year, weekday_of};
use crate::set::Set;
use cal_model::Rule;

/// Whether BYWEEKNO names a week of a year that has so many.
fn is_named(rule: &Rule, weeks: &Weeks, week: u32, count: u32) -> bool
    requires weeks { AreWeeks rule.now.by_week weeks.now }
    requires week { (1 ≤ week) × (week ≤ count) }
    requires count { (52 ≤ count) × (count ≤ 53) }
    ensures { result ≡ integers.some_names_place rule.now.by_week week count }
{
    let _ = rule;
    if count == 53 {
        weeks.of_53.contains(week - 1)
    } else {
        weeks.of_52.contains(week - 1)
    }
}

/// The fourth day of the first week of a year, where weeks begin on that weekday.
fn first_fourth_day(week_start: u8, year: u32) -> u32
    requires week { week_start < 7 }
    requires year { year ≤ 10_001 }
    ensures value { result ≡ spec.first_fourth_day week_start year }
    ensures bound { result ≤ 3_652_800 }
    ensures from { cal.first_of_year year ≤ result }
    ensures first_week { result < cal.first_of_year year + 7 }
{
    let first = first_of_year(year);
    first + (week_start as u32 + 10 - (first + 5) % 7) % 7
}

/// The fourth day of a day's week: the year to which it belongs is the week's.
fn fourth_day(week_start: u8, day: u32) -> u32
    requires week { week_start < 7 }
    requires day { (366 ≤ day) × (day < 3_652_420) }
    ensures value { result ≡ spec.fourth_day week_start day }
    ensures near { (day ≤ result + 3) × (result ≤ day + 3) }
{
    day - (weekday_of(day) + 7 - week_start as u32) % 7 + 3
}

/// The year of a day that lies at most three days outside a year.
fn near_year(year: u32, day: u32) -> u32
    requires year { (1 ≤ year) × (year ≤ 2101) }
    requires from { cal.first_of_year year ≤ day + 3 }
    requires to { day < cal.first_of_year (year + 1) + 3 }
    ensures value { result ≡ cal.year_of day }
    ensures bound { result ≤ 2102 }
    ensures last { day < cal.first_of_year (result + 1) }
{
    if day < first_of_year(year) {
        year - 1
    } else if day < first_of_year(year + 1) {
        year
    } else {
        year + 1
    }
}

/// Whether a day of a year lies in one of the weeks of BYWEEKNO.
fn week_passes(rule: &Rule, weeks: &Weeks, year: u32, day: u32) -> bool
    requires rule { IsUsable rule.now }
    requires weeks { AreWeeks rule.now.by_week weeks.now }
    requires some { (lists.is_empty rule.now.by_week) ≡ false }
    requires bounds { (1 ≤ year) × (year ≤ 2101) }
    requires from { cal.first_of_year year ≤ day }
    requires to { day < cal.first_of_year (year + 1) }
    ensures { result ≡ spec.week_passes rule.now day }
{
    let fourth = fourth_day(rule.week_start, day);
    let year = near_year(year, fourth);
    let first = first_fourth_day(rule.week_start, year);
    let count = (first_of_year(year + 1) - 1 - first) / 7 + 1;
    let week = fourth.saturating_sub(first) / 7 + 1;
    is_named(rule, weeks, week, count)
}

/// Whether a week begins on a day, or is the first that a month has.
fn begins(week_start: u8, place: u32, day: u32) -> bool
    requires { day < 3_652_425 }
    ensures { result ≡ false → (0 < place) × (cal.weekday_of day ≢ week_start) }
{
    place == 0 || weekday_of(day) == week_start as u32
}

/// Whether a day of a month lies in one of the weeks of BYWEEKNO: a week is tested at its first day
/// there, and its later days are as the day before them.
fn week_passes_at(rule: &Rule, weeks: &Weeks, month: &Month, place: u32, before: bool) -> bool
    requires rule { IsUsable rule.now }
    requires weeks { AreWeeks rule.now.by_week weeks.now }
    requires some { (lists.is_empty rule.now.by_week) ≡ false }
    requires place { place < month.now.size }
    requires before { 0 < place → before ≡ spec.week_passes rule.now (month.now.first + place - 1) }
    ensures { result ≡ spec.week_passes rule.now (month.now.first + place) }
{
    let day = month.first + place;
    if begins(rule.week_start, place, day) {
        week_passes(rule, weeks, month.year, day)
    } else {
        before
    }
}

/// The days of a month in the weeks of BYWEEKNO.
fn named_weeks(rule: &Rule, weeks: &Weeks, month: &Month) -> Set
    requires rule { IsUsable rule.now }
    requires weeks { AreWeeks rule.now.by_week weeks.now }
    requires some { (lists.is_empty rule.now.by_week) ≡ false }
    ensures { (i : ℕ) → i < month.now.size → has result i ≡ spec.week_passes rule.now (month.now.first + i) }
{
    let mut set = Set::none();
    let mut passes = false;
    for i in 0..month.size {
        passes = week_passes_at(rule, weeks, month, i, passes);
        set = set.with_if(i, passes);
    }
    set
}

/// BYWEEKNO.
pub fn week_days(rule: &Rule, weeks: &Weeks, month: &Month) -> Set
    requires rule { IsUsable rule.now }
    requires weeks { AreWeeks rule.now.by_week weeks.now }
    ensures { (i : ℕ) → i < month.now.size → has result i ≡ spec.week_passes rule.now (month.now.first + i) }
{
    if rule.by_week.is_empty() {
        Set::all()
    } else {
        named_weeks(rule, weeks, month)
    }
}
