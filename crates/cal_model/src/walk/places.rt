//! The places of BYSETPOS that no period of a rule has (RFC 5545, 3.3.10).
ghost use Rattle.std.specs.Prelude.{◌≡◌, ℕ, ◌*◌, ◌<◌, ◌≤◌, true, false, count_by};
ghost use Rattle.std.specs.List.{list_any};
ghost use Rattle.cal_model.specs.declared.rule.Freq.TheVariants.{Hourly, Monthly, Weekly, Yearly};
ghost use Rattle.cal_model.specs.Recurrence.NextPassing.{is_fine};
ghost use Rattle.cal_model.specs.Recurrence.RuleBounds.{IsUsable};
ghost use Rattle.cal_model.specs.Recurrence.Passing.{has_day_part, part_passes};
ghost use Rattle.cal_model.specs.Walks.Places.{has_weekday, is_place_within, HasDaysAtMost, IsMostInPeriod, PicksNothing};
ghost use Rattle.cal_model.specs.Words.Lists.{has_number, is_empty, numbers_between};

use crate::rule::{DayPart, Freq, Rule};
use cal_base::List;

/// Whether a part has a number.
fn has(part: &List<u8>, number: u8) -> bool
    ensures { result ≡ has_number part.now number }
{
    part.iter().any(|n| *n == number)
}

/// How many numbers below a bound a part has, each counted once.
fn numbers_below(part: &List<u8>, bound: u8) -> u64
    ensures value { result ≡ count_by (has_number part.now) (numbers_between 0 bound) }
    ensures bound { result ≤ bound }
{
    let mut count = 0u64;
    for number in 0..bound {
        if has(part, number) {
            count += 1;
        }
    }
    count
}

/// How many values a part of the time may let pass at most: where it is absent the start's alone.
fn values_of(part: &List<u8>, bound: u8) -> u64
    requires bound { bound ≤ 60 }
    ensures most { (of_start : ℕ) → count_by (part_passes part.now of_start) (numbers_between 0 bound) ≤ result }
    ensures some { 1 ≤ result }
    ensures bound { result ≤ 60 }
{
    if part.is_empty() {
        1
    } else {
        numbers_below(part, bound).max(1)
    }
}

/// Whether BYDAY names a weekday.
fn names_weekday(parts: &List<DayPart>, weekday: u8) -> bool
    ensures { result ≡ has_weekday parts.now weekday }
{
    parts.iter().any(|part| part.weekday == weekday)
}

/// How many weekdays BYDAY names, each counted once.
fn weekdays_of(parts: &List<DayPart>) -> u64
    ensures value { result ≡ count_by (has_weekday parts.now) (numbers_between 0 7) }
    ensures bound { result ≤ 7 }
{
    let mut count = 0u64;
    for weekday in 0..7u8 {
        if names_weekday(parts, weekday) {
            count += 1;
        }
    }
    count
}

/// Whether no part names days, so that the start does.
fn names_no_days(rule: &Rule) -> bool
    ensures { result ≡ true → (is_empty rule.now.by_week ≡ true) × (has_day_part rule.now ≡ false) }
{
    rule.by_week.is_empty()
        && rule.by_year_day.is_empty()
        && rule.by_month_day.is_empty()
        && rule.by_day.is_empty()
}

/// How many days of a week may pass at most.
fn most_days_of_week(rule: &Rule) -> u64
    requires rule { IsUsable rule.now }
    requires weekly { rule.now.freq ≡ Weekly }
    ensures most { HasDaysAtMost rule.now result }
    ensures bound { result ≤ 366 }
{
    if names_no_days(rule) {
        1
    } else if rule.by_day.is_empty() {
        7
    } else {
        weekdays_of(&rule.by_day)
    }
}

/// How many days of a month BYDAY may let pass at most: four weeks have each weekday four times, and three
/// days are left.
fn most_weekdays_of_month(rule: &Rule) -> u64
    requires monthly { rule.now.freq ≡ Monthly }
    ensures most { HasDaysAtMost rule.now result }
    ensures bound { result ≤ 31 }
{
    if rule.by_day.is_empty() {
        return 31;
    }
    let weekdays = weekdays_of(&rule.by_day);
    if weekdays < 3 {
        5 * weekdays
    } else {
        4 * weekdays + 3
    }
}

/// How many days of a month may pass at most.
fn most_days_of_month(rule: &Rule) -> u64
    requires monthly { rule.now.freq ≡ Monthly }
    ensures most { HasDaysAtMost rule.now result }
    ensures bound { result ≤ 366 }
{
    if names_no_days(rule) {
        return 1;
    }
    let by_weekday = most_weekdays_of_month(rule);
    let numbers = rule.by_month_day.len() as u64;
    if rule.by_month_day.is_empty() || by_weekday < numbers {
        by_weekday
    } else {
        numbers
    }
}

/// How many days of a year may pass at most: 52 weeks have each weekday 52 times, and two days are left.
fn most_days_of_year(rule: &Rule) -> u64
    requires yearly { rule.now.freq ≡ Yearly }
    ensures most { HasDaysAtMost rule.now result }
    ensures bound { result ≤ 366 }
{
    if rule.by_day.is_empty() {
        return 366;
    }
    let weekdays = weekdays_of(&rule.by_day);
    if weekdays < 2 {
        53 * weekdays
    } else {
        52 * weekdays + 2
    }
}

/// How many days of a period may pass at most.
fn most_days(rule: &Rule) -> u64
    requires rule { IsUsable rule.now }
    requires coarse { is_fine rule.now.freq ≡ false }
    ensures most { HasDaysAtMost rule.now result }
    ensures hourly { rule.now.freq ≡ Hourly → result ≡ 1 }
    ensures bound { result ≤ 366 }
{
    match rule.freq {
        Freq::Yearly => most_days_of_year(rule),
        Freq::Monthly => most_days_of_month(rule),
        Freq::Weekly => most_days_of_week(rule),
        _ => 1,
    }
}

/// How many hours of a day may have a moment of a period; a period of HOURLY is one hour.
fn most_hours(rule: &Rule) -> u64
    ensures hourly { rule.now.freq ≡ Hourly → result ≡ 1 }
    ensures longer { (rule.now.freq ≡ Hourly → ⊥) → (of_start : ℕ) → count_by (part_passes rule.now.by_hour of_start) (numbers_between 0 24) ≤ result }
    ensures some { 1 ≤ result }
    ensures bound { result ≤ 60 }
{
    match rule.freq {
        Freq::Hourly => 1,
        _ => values_of(&rule.by_hour, 24),
    }
}

/// How many moments a period has at most.
fn most_in_period(rule: &Rule) -> u64
    requires rule { IsUsable rule.now }
    requires coarse { is_fine rule.now.freq ≡ false }
    ensures { IsMostInPeriod rule.now result }
{
    let minutes = values_of(&rule.by_minute, 60);
    let seconds = values_of(&rule.by_second, 60);
    most_days(rule) * (most_hours(rule) * (minutes * seconds))
}

/// Whether a number names one of the first or the last so many places.
fn is_within(number: i16, most: u64) -> bool
    ensures { result ≡ is_place_within most number }
{
    if number >= 0 {
        number as u64 <= most
    } else {
        ((-(number as i32 + 1)) as u64) < most
    }
}

fn some_within(numbers: &List<i16>, most: u64) -> bool
    ensures { result ≡ list_any (is_place_within most) numbers.now }
{
    numbers.iter().any(|number| is_within(*number, most))
}

/// Whether no period has a place of BYSETPOS.
pub fn picks_nothing(rule: &Rule) -> bool
    requires rule { IsUsable rule.now }
    requires coarse { is_fine rule.now.freq ≡ false }
    ensures { result ≡ true → PicksNothing rule.now }
{
    !rule.by_set_pos.is_empty() && !some_within(&rule.by_set_pos, most_in_period(rule))
}
