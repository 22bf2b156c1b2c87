//! The times of a day that a rule asks for, hour by hour, minute by minute (RFC 5545, 3.3.10).
ghost use Rattle.std.specs.Prelude.{◌≡◌, ℕ, ◌+◌, ◌-◌, ◌*◌, ◌/◌, ◌%◌, ◌<◌, ◌≤◌, true, false};
ghost use Rattle.cal_model.specs.Words.Lists as lists;
ghost use Rattle.cal_model.specs.Recurrence.NextPassing.{is_fine};
ghost use Rattle.cal_model.specs.Recurrence.RuleBounds.{IsUsable};
ghost use Rattle.cal_model.specs.Recurrence.Passing as spec;
ghost use Rattle.rrule_filter.specs.StartMoment.{moment_of};
ghost use Rattle.cal_model.proofs.Recurrence.DayTimes.{Finds, hour_opens};

use crate::parts::has_number;
use crate::start::Start;
use crate::today::Today;
use cal_base::List;
use cal_model::{Freq, Rule};

/// The number of the period of an hour.
pub fn period_number(freq: Freq, week_start: u8, today: &Today, hour: u32) -> u64
    requires week { week_start < 7 }
    requires hour { hour < 24 }
    ensures { result ≡ spec.period_number freq week_start (86400 * today.now.day + 3600 * hour) }
{
    let moment = 86_400 * today.day as u64 + 3600 * hour as u64;
    match freq {
        Freq::Secondly => moment,
        Freq::Minutely => moment / 60,
        Freq::Hourly => moment / 3600,
        Freq::Daily => today.day as u64,
        Freq::Weekly => ((today.day + 12 - week_start as u32) / 7) as u64,
        Freq::Monthly => 12 * today.year as u64 + today.month as u64,
        Freq::Yearly => today.year as u64,
    }
}

/// A part of the time, or the start's value where it is absent.
fn part_passes(part: &List<u8>, of_start: u32, value: u32) -> bool
    ensures { result ≡ spec.part_passes part.now of_start value }
{
    if part.is_empty() {
        value == of_start
    } else {
        has_number(part, value)
    }
}

/// BYHOUR: under HOURLY, where it is absent, each hour.
fn hour_passes(freq: Freq, part: &List<u8>, of_start: u32, hour: u32) -> bool
    ensures { result ≡ spec.hour_passes freq part.now of_start hour }
{
    match freq {
        Freq::Hourly => part.is_empty() || has_number(part, hour),
        _ => part_passes(part, of_start, hour),
    }
}

/// Whether the period of an hour counts.
#[tactic(auto, using(cal_model::proofs::Recurrence::DayTimes::second_of_start))]
pub fn counts(rule: &Rule, start: &Start, first: u64, today: &Today, hour: u32) -> bool
    requires rule { IsUsable rule.now }
    requires first { first ≡ spec.period_number rule.now.freq rule.now.week_start (moment_of start.now) }
    requires hour { hour < 24 }
    ensures { result ≡ spec.period_passes rule.now (moment_of start.now) (86400 * today.now.day + 3600 * hour) }
{
    let this = period_number(rule.freq, rule.week_start, today, hour);
    first <= this && (this - first) % rule.interval as u64 == 0
}

/// Whether a moment may pass in an hour of a day.
#[tactic(auto, unfolding(cal_model::proofs::Recurrence::DayTimes::hour_opens), using(cal_model::proofs::Recurrence::DayTimes::second_of_start))]
fn opens(rule: &Rule, start: &Start, first: u64, today: &Today, hour: u32) -> bool
    requires rule { IsUsable rule.now }
    requires first { first ≡ spec.period_number rule.now.freq rule.now.week_start (moment_of start.now) }
    requires hour { hour < 24 }
    ensures { result ≡ hour_opens rule.now (moment_of start.now) today.now.day hour }
{
    hour_passes(rule.freq, &rule.by_hour, start.second / 3600, hour)
        && counts(rule, start, first, today, hour)
}

/// The first second of a minute that passes, from one on. Where BYSECOND is absent there is only
/// the start's.
fn next_in_minute(
    rule: &Rule,
    start: &Start,
    today: &Today,
    hour: u32,
    minute: u32,
    from: u32,
) -> Option<u32>
    requires rule { is_fine rule.now.freq ≡ false }
    requires timed { start.now.dated ≡ false }
    requires day { spec.day_passes rule.now start.now.today.day today.now.day ≡ true }
    requires opens { hour_opens rule.now (moment_of start.now) today.now.day hour ≡ true }
    requires minute_passes { spec.part_passes rule.now.by_minute (start.now.second / 60 % 60) minute ≡ true }
    requires hour { hour < 24 }
    requires minute { minute < 60 }
    requires from { from ≤ 60 }
    ensures { Finds rule.now (moment_of start.now) start.now.dated (86400 * today.now.day + 3600 * hour + 60 * minute) from 60 result }
{
    if rule.by_second.is_empty() {
        let second = start.second % 60;
        return if from <= second { Some(second) } else { None };
    }
    for second in from..60 {
        if part_passes(&rule.by_second, start.second % 60, second) {
            return Some(second);
        }
    }
    None
}

/// The same, of a minute that may fail.
fn next_at_minute(
    rule: &Rule,
    start: &Start,
    today: &Today,
    hour: u32,
    minute: u32,
    from: u32,
) -> Option<u32>
    requires rule { is_fine rule.now.freq ≡ false }
    requires timed { start.now.dated ≡ false }
    requires day { spec.day_passes rule.now start.now.today.day today.now.day ≡ true }
    requires opens { hour_opens rule.now (moment_of start.now) today.now.day hour ≡ true }
    requires hour { hour < 24 }
    requires minute { minute < 60 }
    requires from { from ≤ 60 }
    ensures { Finds rule.now (moment_of start.now) start.now.dated (86400 * today.now.day + 3600 * hour + 60 * minute) from 60 result }
{
    if part_passes(&rule.by_minute, start.second / 60 % 60, minute) {
        next_in_minute(rule, start, today, hour, minute, from)
    } else {
        None
    }
}

/// The first second of an hour that passes, from one on, where BYMINUTE is absent: it lies in the
/// minute of the start.
fn next_at_start(rule: &Rule, start: &Start, today: &Today, hour: u32, from: u32) -> Option<u32>
    requires rule { is_fine rule.now.freq ≡ false }
    requires absent { lists.is_empty rule.now.by_minute ≡ true }
    requires timed { start.now.dated ≡ false }
    requires day { spec.day_passes rule.now start.now.today.day today.now.day ≡ true }
    requires opens { hour_opens rule.now (moment_of start.now) today.now.day hour ≡ true }
    requires hour { hour < 24 }
    requires from { from ≤ 3600 }
    ensures { Finds rule.now (moment_of start.now) start.now.dated (86400 * today.now.day + 3600 * hour) from 3600 result }
{
    let minute = start.second / 60 % 60;
    if minute < from / 60 {
        return None;
    }
    let second = from.saturating_sub(60 * minute);
    match next_in_minute(rule, start, today, hour, minute, second) {
        Some(found) => Some(60 * minute + found),
        None => None,
    }
}

/// The first second of an hour that passes, from one on.
fn next_in_hour(rule: &Rule, start: &Start, today: &Today, hour: u32, from: u32) -> Option<u32>
    requires rule { is_fine rule.now.freq ≡ false }
    requires timed { start.now.dated ≡ false }
    requires day { spec.day_passes rule.now start.now.today.day today.now.day ≡ true }
    requires opens { hour_opens rule.now (moment_of start.now) today.now.day hour ≡ true }
    requires hour { hour < 24 }
    requires from { from ≤ 3600 }
    ensures { Finds rule.now (moment_of start.now) start.now.dated (86400 * today.now.day + 3600 * hour) from 3600 result }
{
    if rule.by_minute.is_empty() {
        return next_at_start(rule, start, today, hour, from);
    }
    for minute in from / 60..60 {
        let second = from.saturating_sub(60 * minute);
        if let Some(second) = next_at_minute(rule, start, today, hour, minute, second) {
            return Some(60 * minute + second);
        }
    }
    None
}

/// The same, of an hour that may fail.
fn next_at_hour(
    rule: &Rule,
    start: &Start,
    first: u64,
    today: &Today,
    hour: u32,
    from: u32,
) -> Option<u32>
    requires rule { is_fine rule.now.freq ≡ false }
    requires usable { IsUsable rule.now }
    requires timed { start.now.dated ≡ false }
    requires first { first ≡ spec.period_number rule.now.freq rule.now.week_start (moment_of start.now) }
    requires day { spec.day_passes rule.now start.now.today.day today.now.day ≡ true }
    requires hour { hour < 24 }
    requires from { from ≤ 3600 }
    ensures { Finds rule.now (moment_of start.now) start.now.dated (86400 * today.now.day + 3600 * hour) from 3600 result }
{
    if opens(rule, start, first, today, hour) {
        next_in_hour(rule, start, today, hour, from)
    } else {
        None
    }
}

/// The first second of a day that passes, from one on.
pub fn next_in_day(rule: &Rule, start: &Start, first: u64, today: &Today, from: u32) -> Option<u32>
    requires rule { is_fine rule.now.freq ≡ false }
    requires usable { IsUsable rule.now }
    requires timed { start.now.dated ≡ false }
    requires first { first ≡ spec.period_number rule.now.freq rule.now.week_start (moment_of start.now) }
    requires day { spec.day_passes rule.now start.now.today.day today.now.day ≡ true }
    requires from { from ≤ 86_400 }
    ensures { Finds rule.now (moment_of start.now) start.now.dated (86400 * today.now.day) from 86400 result }
{
    for hour in from / 3600..24 {
        let second = from.saturating_sub(3600 * hour);
        if let Some(second) = next_at_hour(rule, start, first, today, hour, second) {
            return Some(3600 * hour + second);
        }
    }
    None
}
