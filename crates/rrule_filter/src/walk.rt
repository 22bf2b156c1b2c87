//! The walk over the days.
ghost use Rattle.std.specs.Prelude.{◌≡◌, ℕ, ◌+◌, ◌-◌, ◌*◌, ◌/◌, ◌%◌, ◌<◌, ◌≤◌, true, false, IfSome, MatchOption, pos, neg_ℤ, ◌≤ℤ◌};
ghost use Rattle.cal_moment.specs.Calendar as cal;
ghost use Rattle.cal_model.specs.Recurrence.NextPassing.{NonePasses, IsNextPassing, end_day, is_fine};
ghost use Rattle.cal_model.specs.Recurrence.RuleBounds.{IsWritten, IsUsable};
ghost use Rattle.cal_model.specs.Values.LocalTimes.{moment_of_local};
ghost use Rattle.cal_model.specs.Recurrence.Passing as spec;
ghost use Rattle.rrule_filter.specs.StartMoment.{moment_of};
ghost use Rattle.cal_model.proofs.Recurrence.DayTimes.{Finds};

use crate::parts::day_passes;
use crate::start::Start;
use crate::times::{counts, next_in_day, period_number};
use crate::today::Today;
use cal_model::{ReadyRule, Rule, Rules};
use cal_moment::Local;

/// Walks the days from the moment on, and tests the moments of each that passes. It goes over the lists
/// of the rule each time, so a rule is ready as it is.
#[derive(Drop)]
pub struct DayFilter;

/// 1 January 2102, where rules end, counted from 1 January of the year 0.
const END_DAY: u32 = 767_740;

/// A day as it is counted from the year 0.
fn day_number(day: i32) -> u32
    requires from { neg_ℤ (pos 719_162) ≤ℤ day }
    requires to { day ≤ℤ pos 2_932_896 }
    ensures value { result ≡ cal.day_number day }
    ensures from { 366 ≤ result }
    ensures to { result < 3_652_425 }
{
    (day + 719_528) as u32
}

/// A moment by its day, counted from the year 0, and its second.
fn moment_at(day: u32, second: u32) -> Local
    requires from { 366 ≤ day }
    requires to { day < 767_740 }
    requires second { second < 86_400 }
    ensures written { IsWritten result }
    ensures value { moment_of_local result ≡ 86_400 * day + second }
{
    Local {
        day: day as i32 - 719_528,
        second,
    }
}

/// The one moment of a day that stands for it beside a start that is a DATE.
fn next_midnight(rule: &Rule, start: &Start, first: u64, today: &Today, from: u32) -> Option<u32>
    requires usable { IsUsable rule.now }
    requires dated { start.now.dated ≡ true }
    requires first { first ≡ spec.period_number rule.now.freq rule.now.week_start (moment_of start.now) }
    requires day { spec.day_passes rule.now start.now.today.day today.now.day ≡ true }
    requires from { from ≤ 86_400 }
    ensures { Finds rule.now (moment_of start.now) start.now.dated (86400 * today.now.day) from 86400 result }
{
    if from != 0 {
        return None;
    }
    if counts(rule, start, first, today, 0) {
        Some(0)
    } else {
        None
    }
}

/// The first second of a day at which the rule passes, from one on.
fn next_on_day(rule: &Rule, start: &Start, first: u64, day: u32, from: u32) -> Option<u32>
    requires rule { is_fine rule.now.freq ≡ false }
    requires usable { IsUsable rule.now }
    requires first { first ≡ spec.period_number rule.now.freq rule.now.week_start (moment_of start.now) }
    requires day { (366 ≤ day) × (day < 767_740) }
    requires from { from ≤ 86_400 }
    ensures { Finds rule.now (moment_of start.now) start.now.dated (86400 * day) from 86400 result }
{
    let today = Today::new(day);
    if !day_passes(rule, &start.today, &today) {
        return None;
    }
    if start.dated {
        next_midnight(rule, start, first, &today, from)
    } else {
        next_in_day(rule, start, first, &today, from)
    }
}

/// The first moment at which the rule passes, from a second of a day on.
fn next_moment(rule: &Rule, start: &Start, first: u64, day: u32, from: u32) -> Option<(u32, u32)>
    requires rule { is_fine rule.now.freq ≡ false }
    requires usable { IsUsable rule.now }
    requires first { first ≡ spec.period_number rule.now.freq rule.now.week_start (moment_of start.now) }
    requires day { 366 ≤ day }
    requires from { from < 86_400 }
    ensures second { IfSome result (λ m. m.1 < 86_400) }
    ensures day { IfSome result (λ m. (366 ≤ m.0) × (m.0 < 767_740)) }
    ensures found { MatchOption result
        (NonePasses rule.now (moment_of start.now) start.now.dated (86_400 * day + from) (86_400 * end_day))
        (λ m. IsNextPassing rule.now (moment_of start.now) start.now.dated (86_400 * day + from) (86_400 * m.0 + m.1)) }
{
    for this in day..END_DAY {
        let second = if this == day { from } else { 0 };
        if let Some(second) = next_on_day(rule, start, first, this, second) {
            return Some((this, second));
        }
    }
    None
}

impl Rules for DayFilter {
    type Ready = DayFilter;

    fn ready(&self, rule: &Rule, start: Local, dated: bool) -> DayFilter {
        let _ = rule;
        let _ = start;
        let _ = dated;
        DayFilter
    }
}

impl ReadyRule for DayFilter {
    ghost IsReadyFor = { λ _ _ _ _. Unit {0} };

    fn next_passing(&self, rule: &Rule, start: Local, dated: bool, from: Local) -> Option<Local> {
        let today = Today::new(day_number(start.day));
        let first = period_number(rule.freq, rule.week_start, &today, start.second / 3600);
        let start = Start {
            today,
            second: start.second,
            dated,
        };
        let (day, second) = next_moment(rule, &start, first, day_number(from.day), from.second)?;
        Some(moment_at(day, second))
    }

    /// Days are not counted here.
    fn period_has(
        &self,
        rule: &Rule,
        start: Local,
        dated: bool,
        m: Local,
        times: u64,
        least: u64,
    ) -> bool {
        let _ = rule;
        let _ = start;
        let _ = dated;
        let _ = m;
        let _ = times;
        let _ = least;
        true
    }

    /// Nor are they here.
    fn some_period_has(
        &self,
        rule: &Rule,
        start: Local,
        dated: bool,
        times: u64,
        least: u64,
    ) -> bool {
        let _ = rule;
        let _ = start;
        let _ = dated;
        let _ = times;
        let _ = least;
        true
    }
}
