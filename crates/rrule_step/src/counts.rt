//! How many days of a month and of a year pass, and the years that stand for all (RFC 5545, 3.3.10).
ghost use Rattle.std.specs.Prelude.{◌≡◌, ℕ, ◌+◌, ◌*◌, ◌<◌, ◌≤◌, false, count_by, IfSome};
ghost use Rattle.cal_model.specs.Recurrence.NextPassing.{end_day};
ghost use Rattle.cal_model.specs.Recurrence.RuleBounds.{IsUsable, IsWritten};
ghost use Rattle.cal_model.specs.Recurrence.Passing as spec;
ghost use Rattle.cal_model.specs.Values.LocalTimes.{moment_of_local};
ghost use Rattle.cal_model.specs.Walks.Places.{days_of_period};
ghost use Rattle.cal_model.specs.Words.Lists.{numbers_between};
ghost use Rattle.cal_moment.specs.Calendar.{first_of_year};
ghost use Rattle.rrule_step.specs.Periods.{month_begin};
ghost use Rattle.rrule_step.specs.Plans.{IsPlan};
ghost use Rattle.rrule_step.specs.Sets.{has};
ghost use Rattle.rrule_step.specs.StartMoment.{moment_of};

use crate::days::days_of;
use crate::month::{Month, date_of};
use crate::periods::END_MONTH;
use crate::set::Set;
use crate::step::{Plan, day_number};
use cal_model::{Freq, Rule};
use cal_moment::Local;

/// The first of 28 years that stand for all: whatever its first weekday, its length and those of the
/// years beside it, a year has one among them whose days pass as its own do.
const FIRST_YEAR: u32 = 2000;

const END_YEAR: u32 = 2028;

/// Their months.
const FIRST_MONTH: u32 = 24_000;

const NEXT_MONTH: u32 = 24_336;

/// How many numbers below an end a set has.
fn count_below(set: Set, end: u32) -> u64
    requires { end ≤ 31 }
    ensures value { result ≡ count_by (has set) (numbers_between 0 end) }
    ensures bound { result ≤ 31 }
{
    let mut count = 0u64;
    for number in 0..end {
        if set.contains(number) {
            count += 1;
        }
    }
    count
}

/// How many days of a month pass at most. Months are numbered twelve for each year, and in it from 0.
fn days_in_month(rule: &Rule, plan: &Plan, number: u32) -> u64
    requires usable { IsUsable rule.now }
    requires plan { IsPlan rule.now plan.now }
    requires number { (12 ≤ number) × (number < END_MONTH) }
    ensures most { count_by (spec.day_passes rule.now plan.now.start.day) (numbers_between (month_begin number) (month_begin (number + 1))) ≤ result }
    ensures bound { result ≤ 31 }
{
    if !plan.months.contains(number % 12 + 1) {
        return 0;
    }
    let month = Month::new(number);
    let days = days_of(rule, &plan.start, &plan.days, &month);
    count_below(days, month.size)
}

/// How many days of a year pass at most.
fn days_in_year(rule: &Rule, plan: &Plan, year: u32) -> u64
    requires usable { IsUsable rule.now }
    requires plan { IsPlan rule.now plan.now }
    requires year { (1 ≤ year) × (year ≤ 2101) }
    ensures { count_by (spec.day_passes rule.now plan.now.start.day) (numbers_between (first_of_year year) (first_of_year (year + 1))) ≤ result }
{
    let mut days = 0u64;
    for month in 0..12u32 {
        days += days_in_month(rule, plan, 12 * year + month);
    }
    days
}

/// Whether so many days have so many moments, where each has `times`.
fn are_enough(days: u64, times: u64, least: u64) -> bool
    ensures { result ≡ false → days * times < least }
{
    least <= days.saturating_mul(times)
}

/// How many days of the period of a moment pass at most, under MONTHLY and YEARLY.
fn days_in_period(rule: &Rule, plan: &Plan, m: Local) -> Option<u64>
    requires usable { IsUsable rule.now }
    requires plan { IsPlan rule.now plan.now }
    requires m { IsWritten m }
    requires before_end { moment_of_local m < 86_400 * end_day }
    ensures { IfSome result (λ days. days_of_period rule.now (moment_of plan.now.start) (moment_of_local m) ≤ days) }
{
    let (year, month, _) = date_of(day_number(m.day));
    match rule.freq {
        Freq::Monthly => Some(days_in_month(rule, plan, 12 * year + month - 1)),
        Freq::Yearly => Some(days_in_year(rule, plan, year)),
        _ => None,
    }
}

/// Whether the period of a moment may have so many moments, where a day that passes has `times`.
pub fn period_has(rule: &Rule, plan: &Plan, m: Local, times: u64, least: u64) -> bool
    requires usable { IsUsable rule.now }
    requires plan { IsPlan rule.now plan.now }
    requires m { IsWritten m }
    requires before_end { moment_of_local m < 86_400 * end_day }
    ensures { result ≡ false → days_of_period rule.now (moment_of plan.now.start) (moment_of_local m) * times < least }
{
    match days_in_period(rule, plan, m) {
        Some(days) => are_enough(days, times, least),
        None => true,
    }
}

/// Whether some month may have so many moments.
pub fn some_month_has(rule: &Rule, plan: &Plan, times: u64, least: u64) -> bool
    requires usable { IsUsable rule.now }
    requires plan { IsPlan rule.now plan.now }
    ensures { result ≡ false → (number : ℕ) → 12 ≤ number →
        count_by (spec.day_passes rule.now plan.now.start.day) (numbers_between (month_begin number) (month_begin (number + 1))) * times < least }
{
    for number in FIRST_MONTH..NEXT_MONTH {
        let days = days_in_month(rule, plan, number);
        if are_enough(days, times, least) {
            return true;
        }
    }
    false
}

/// Whether some year may.
fn some_year_has(rule: &Rule, plan: &Plan, times: u64, least: u64) -> bool
    requires usable { IsUsable rule.now }
    requires plan { IsPlan rule.now plan.now }
    ensures { result ≡ false → (year : ℕ) → 1 ≤ year →
        count_by (spec.day_passes rule.now plan.now.start.day) (numbers_between (first_of_year year) (first_of_year (year + 1))) * times < least }
{
    for year in FIRST_YEAR..END_YEAR {
        let days = days_in_year(rule, plan, year);
        if are_enough(days, times, least) {
            return true;
        }
    }
    false
}

/// Whether some period may, under MONTHLY and YEARLY.
pub fn some_period_has(rule: &Rule, plan: &Plan, times: u64, least: u64) -> bool
    requires usable { IsUsable rule.now }
    requires plan { IsPlan rule.now plan.now }
    ensures { result ≡ false → (m : ℕ) → 31_622_400 ≤ m → days_of_period rule.now (moment_of plan.now.start) m * times < least }
{
    match rule.freq {
        Freq::Monthly => some_month_has(rule, plan, times, least),
        Freq::Yearly => some_year_has(rule, plan, times, least),
        _ => true,
    }
}
