//! What a rule asks of a day, part by part (RFC 5545, 3.3.10).
ghost use Rattle.std.specs.Prelude.{◌≡◌, ℕ, ◌+◌, ◌-◌, ◌*◌, ◌/◌, ◌%◌, ◌<◌, ◌≤◌};
ghost use Rattle.std.specs.List.{list_any};
ghost use Rattle.cal_moment.specs.Calendar as cal;
ghost use Rattle.cal_model.specs.Recurrence.RuleBounds.{IsUsable};
ghost use Rattle.cal_model.specs.Words.Integers as integers;
ghost use Rattle.cal_model.specs.Words.Lists as lists;
ghost use Rattle.cal_model.specs.Recurrence.Passing as spec;

use crate::today::{Today, first_of_year, month_length, weekday_of, year_length};
use cal_base::List;
use cal_model::{DayPart, Freq, Rule};

/// Whether a part has a number.
pub fn has_number(part: &List<u8>, value: u32) -> bool
    ensures { result ≡ lists.has_number part.now value }
{
    part.iter().any(|n| *n as u32 == value)
}

/// Whether a written number names a place, from the front or, where it is negative, from the end.
fn names_place(place: u32, size: u32, number: i16) -> bool
    requires { place ≤ 1000 }
    ensures { result ≡ integers.names_place place size number }
{
    if number >= 0 {
        number as u32 == place
    } else {
        place + (-(number as i32 + 1)) as u32 == size
    }
}

/// Whether one of the written numbers names a place.
fn some_names_place(part: &List<i16>, place: u32, size: u32) -> bool
    requires { place ≤ 1000 }
    ensures { result ≡ integers.some_names_place part.now place size }
{
    part.iter().any(|n| names_place(place, size, *n))
}

/// BYMONTH.
fn month_passes(rule: &Rule, today: &Today) -> bool
    ensures { result ≡ spec.month_passes rule.now today.now.day }
{
    rule.by_month.is_empty() || has_number(&rule.by_month, today.month)
}

/// The fourth day of the first week of a year, where weeks begin on that weekday.
fn first_fourth_day(week_start: u8, year: u32) -> u32
    requires week { week_start < 7 }
    requires year { year ≤ 10_001 }
    ensures value { result ≡ spec.first_fourth_day week_start year }
    ensures bound { result ≤ 3_652_800 }
    ensures from { cal.first_of_year year ≤ result }
    ensures first_week { result < cal.first_of_year year + 7 }
{
    let first = first_of_year(year);
    first + (week_start as u32 + 10 - (first + 5) % 7) % 7
}

/// The fourth day of a day's week: the year to which it belongs is the week's.
fn fourth_day(week_start: u8, day: u32) -> u32
    requires week { week_start < 7 }
    requires day { (366 ≤ day) × (day < 3_652_420) }
    ensures value { result ≡ spec.fourth_day week_start day }
    ensures from { 363 ≤ result }
    ensures bound { result < 3_652_424 }
{
    day - (weekday_of(day) + 7 - week_start as u32) % 7 + 3
}

/// The year of a day, which may be one of the last days of the year 0.
#[tactic(auto, using(cal_model::proofs::Recurrence::DayTimes::year_zero, cal_model::proofs::Recurrence::DayTimes::year_last))]
fn year_of(day: u32) -> u32
    requires from { 363 ≤ day }
    requires to { day < 3_652_425 }
    ensures value { result ≡ cal.year_of day }
    ensures bound { result ≤ 9999 }
    ensures last { day < cal.first_of_year (result + 1) }
{
    if day < 366 { 0 } else { Today::new(day).year }
}

/// BYWEEKNO: weeks are counted in the year to which the week belongs.
fn week_passes(rule: &Rule, today: &Today) -> bool
    requires rule { IsUsable rule.now }
    requires day { today.now.day < 3_652_420 }
    ensures { result ≡ spec.week_passes rule.now today.now.day }
{
    if rule.by_week.is_empty() {
        return true;
    }
    let fourth = fourth_day(rule.week_start, today.day);
    let year = year_of(fourth);
    let first = first_fourth_day(rule.week_start, year);
    let weeks = (first_of_year(year + 1) - 1 - first) / 7 + 1;
    let week = fourth.saturating_sub(first) / 7 + 1;
    some_names_place(&rule.by_week, week, weeks)
}

/// BYYEARDAY.
fn year_day_passes(rule: &Rule, today: &Today) -> bool
    ensures { result ≡ spec.year_day_passes rule.now today.now.day }
{
    rule.by_year_day.is_empty()
        || some_names_place(&rule.by_year_day, today.of_year, year_length(today.year))
}

/// BYMONTHDAY.
fn month_day_passes(rule: &Rule, today: &Today) -> bool
    ensures { result ≡ spec.month_day_passes rule.now today.now.day }
{
    rule.by_month_day.is_empty()
        || some_names_place(
            &rule.by_month_day,
            today.of_month,
            month_length(today.year, today.month),
        )
}

/// Whether an ordinal means this occurrence of a weekday, by the day's place in its month or year.
fn ordinal_passes(place: u32, size: u32, ordinal: i16) -> bool
    requires { place ≤ 1000 }
    ensures { result ≡ spec.ordinal_passes place size ordinal }
{
    if ordinal >= 0 {
        ordinal == 0 || ordinal as u32 == (place + 6) / 7
    } else {
        (-(ordinal as i32 + 1)) as u32 == size.saturating_sub(place) / 7
    }
}

/// Whether a value of BYDAY holds a day.
fn weekday_passes(weekday: u32, place: u32, size: u32, part: &DayPart) -> bool
    requires { place ≤ 1000 }
    ensures { result ≡ spec.weekday_passes weekday place size part.now }
{
    part.weekday as u32 == weekday && ordinal_passes(place, size, part.ordinal)
}

/// Whether one of the values of BYDAY does.
fn some_weekday_passes(part: &List<DayPart>, weekday: u32, place: u32, size: u32) -> bool
    requires { place ≤ 1000 }
    ensures { result ≡ list_any (spec.weekday_passes weekday place size) part.now }
{
    part.iter().any(|p| weekday_passes(weekday, place, size, p))
}

/// Whether ordinals count in the month; else they count in the year.
fn counts_in_month(freq: Freq, by_month: &List<u8>) -> bool
    ensures { result ≡ spec.counts_in_month freq by_month.now }
{
    match freq {
        Freq::Monthly => true,
        _ => !by_month.is_empty(),
    }
}

/// BYDAY.
fn by_day_passes(rule: &Rule, today: &Today) -> bool
    ensures { result ≡ spec.by_day_passes rule.now today.now.day }
{
    if rule.by_day.is_empty() {
        return true;
    }
    let weekday = weekday_of(today.day);
    if counts_in_month(rule.freq, &rule.by_month) {
        let size = month_length(today.year, today.month);
        some_weekday_passes(&rule.by_day, weekday, today.of_month, size)
    } else {
        let size = year_length(today.year);
        some_weekday_passes(&rule.by_day, weekday, today.of_year, size)
    }
}

/// Whether a part names days of a year or a month, or weekdays.
fn has_day_part(rule: &Rule) -> bool
    ensures { result ≡ spec.has_day_part rule.now }
{
    !rule.by_year_day.is_empty() || !rule.by_month_day.is_empty() || !rule.by_day.is_empty()
}

/// What the start gives of the day where no part does.
fn day_default(rule: &Rule, start: &Today, today: &Today) -> bool
    ensures { result ≡ spec.day_default rule.now.freq rule.now start.now.day today.now.day }
{
    match rule.freq {
        Freq::Weekly => weekday_of(today.day) == weekday_of(start.day),
        Freq::Monthly => today.of_month == start.of_month,
        Freq::Yearly => {
            today.of_month == start.of_month
                && (!rule.by_month.is_empty() || today.month == start.month)
        }
        _ => true,
    }
}

/// What the start gives of the day; beside BYWEEKNO alone it is the weekday.
fn default_passes(rule: &Rule, start: &Today, today: &Today) -> bool
    ensures { result ≡ spec.default_passes rule.now start.now.day today.now.day }
{
    if has_day_part(rule) {
        return true;
    }
    if rule.by_week.is_empty() {
        day_default(rule, start, today)
    } else {
        weekday_of(today.day) == weekday_of(start.day)
    }
}

/// Whether a day passes all that the rule and its start say of days.
#[tactic(auto, unfolding(cal_model::specs::Recurrence::Passing::day_passes))]
pub fn day_passes(rule: &Rule, start: &Today, today: &Today) -> bool
    requires rule { IsUsable rule.now }
    requires day { today.now.day < 3_652_420 }
    ensures { result ≡ spec.day_passes rule.now start.now.day today.now.day }
{
    month_passes(rule, today)
        && month_day_passes(rule, today)
        && by_day_passes(rule, today)
        && year_day_passes(rule, today)
        && week_passes(rule, today)
        && default_passes(rule, start, today)
}
