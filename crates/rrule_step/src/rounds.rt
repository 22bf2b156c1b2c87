//! Rules whose counted hours or days never meet BYHOUR and BYDAY: the hours of a week come round, so
//! one round of counted periods shows it (RFC 5545, 3.3.10).
ghost use Rattle.std.specs.Prelude.{◌≡◌, ◌≢◌, ℕ, ◌+◌, ◌*◌, ◌/◌, ◌%◌, ◌^◌, ◌<◌, ◌≤◌, true, false, if◌then◌else◌, ◌==◌};
ghost use Rattle.std.specs.List.{list_any};
ghost use Rattle.cal_moment.specs.Calendar as cal;
ghost use Rattle.cal_model.specs.Recurrence.RuleBounds.{IsUsable};
ghost use Rattle.cal_model.specs.Recurrence.Passing as spec;
ghost use Rattle.cal_model.specs.declared.rule.DayPart.{DayPart as SpecDayPart};
ghost use Rattle.rrule_step.specs.Plans.{IsPlan};
ghost use Rattle.rrule_step.specs.Rounds.{is_met};
ghost use Rattle.rrule_step.specs.Sets.{has};
ghost use Rattle.rrule_step.specs.StartMoment.{moment_of};

use crate::set::Set;
use crate::step::Plan;
use cal_base::List;
use cal_model::{DayPart, Freq, Rule};

/// The hours of a week. So many periods, of hours or of days, are a round at most.
const ROUND: u64 = 168;

/// A set with the weekday of a value of BYDAY.
fn with_weekday(set: Set, weekday: u8) -> Set
    ensures { (i : ℕ) → i < 7 → has result i ≡ (if weekday == i then true else has set i) }
{
    if weekday < 7 {
        set.with(weekday as u32)
    } else {
        set
    }
}

/// The weekdays of the values of BYDAY.
fn named_weekdays(parts: &List<DayPart>) -> Set
    ensures { (i : ℕ) → i < 7 → has result i ≡ list_any (λ (part : SpecDayPart). part.weekday == i) parts.now }
{
    let mut set = Set::none();
    for part in parts.as_slice() {
        set = with_weekday(set, part.weekday);
    }
    set
}

/// The weekdays that BYDAY lets pass.
fn weekdays_of(rule: &Rule) -> Set
    ensures { (day : ℕ) → spec.by_day_passes rule.now day ≡ true → has result (cal.weekday_of day) ≡ true }
{
    if rule.by_day.is_empty() {
        Set::all()
    } else {
        named_weekdays(&rule.by_day)
    }
}

/// Whether one of a round of counted hours is one of some hours on one of some weekdays. Hours are
/// counted from one of a Saturday's first.
fn meets(first: u64, interval: u64, hours: Set, weekdays: Set) -> bool
    requires first { first ≤ 90_000_000 }
    requires interval { interval < 2 ^ 40 }
    ensures { result ≡ false → (q : ℕ) → q < 168 → is_met hours weekdays (first + interval * q) ≡ false }
{
    for q in 0..ROUND {
        let hour = ((first + interval * q) % ROUND) as u32;
        if weekdays.contains((hour / 24 + 5) % 7) && hours.contains(hour % 24) {
            return true;
        }
    }
    false
}

/// Whether INTERVAL leaves out each hour that BYHOUR and BYDAY have. It leaves none out where it is 1.
pub fn never_meets(rule: &Rule, plan: &Plan) -> bool
    requires rule { IsUsable rule.now }
    requires plan { IsPlan rule.now plan.now }
    ensures { result ≡ true → (m : ℕ) → spec.passes rule.now (moment_of plan.now.start) plan.now.dated m ≡ false }
{
    if rule.interval == 1 {
        return false;
    }
    let first = plan.first as u64;
    let interval = rule.interval as u64;
    match rule.freq {
        Freq::Hourly => {
            let weekdays = weekdays_of(rule);
            !meets(first, interval, plan.times.hours, weekdays)
        }
        Freq::Daily => {
            let weekdays = weekdays_of(rule);
            !meets(24 * first, 24 * interval, Set::all(), weekdays)
        }
        _ => false,
    }
}
