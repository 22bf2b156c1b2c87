//! The steps from month to month, and in a month from day to day.
ghost use Rattle.std.specs.Prelude.{◌≡◌, ℕ, ◌+◌, ◌-◌, ◌*◌, ◌/◌, ◌%◌, ◌<◌, ◌≤◌, true, false, IfNone, IfSome, MatchOption, pos, neg_ℤ, ◌≤ℤ◌};
ghost use Rattle.cal_moment.specs.Calendar as cal;
ghost use Rattle.cal_model.specs.Recurrence.NextPassing.{NonePasses, IsNextPassing, end_day, is_fine};
ghost use Rattle.cal_model.specs.Recurrence.RuleBounds.{IsWritten, IsUsable};
ghost use Rattle.cal_model.specs.Values.LocalTimes.{moment_of_local};
ghost use Rattle.cal_model.specs.Recurrence.Passing as spec;
ghost use Rattle.rrule_step.specs.StartMoment.{moment_of};
ghost use Rattle.rrule_step.specs.Plans.{IsPlan, IsFound, passes_on};
ghost use Rattle.rrule_step.specs.Firsts.{FindsFirst};
ghost use Rattle.rrule_step.specs.Periods.{month_begin};
ghost use Rattle.rrule_step.specs.Sets.{has};

use crate::counts::{period_has, some_month_has, some_period_has};
use crate::day_sets::{DaySets, day_sets_of};
use crate::days::{days_of, months_of};
use crate::month::{Month, date_of};
use crate::periods::{
    END_DAY, END_MONTH, counted_day, counted_month, hours_on, listed_month, period_of,
};
use crate::rounds::never_meets;
use crate::set::Set;
use crate::start::Start;
use crate::times::{Times, next_in_day, times_of};
use cal_model::{Freq, ReadyRule, Rule, Rules};
use cal_moment::Local;

/// Steps from period to period, and looks at the days of a month as a set.
pub struct PeriodStep;

/// A moment, by its day, counted from the year 0, and its second.
#[derive(Clone, Copy)]
pub struct Moment {
    pub day: u32,
    pub second: u32,
}

impl Moment {
    /// The second of a day from which to look, where the look begins at this moment.
    fn second_on(self, day: u32) -> u32
        ensures same { day ≡ self.day → result ≡ self.second }
        ensures later { self.day < day → result ≡ 0 }
    {
        if day <= self.day { self.second } else { 0 }
    }
}

/// What a walk of a rule needs of its start and its lists: the number of the start's period, the times
/// of a day, the months that may have a passing day, and what the parts that name days say.
#[derive(Drop)]
pub struct Plan {
    pub start: Start,
    pub dated: bool,
    pub first: u32,
    pub times: Times,
    pub months: Set,
    pub days: DaySets,
}

/// A rule made ready for steps from period to period.
#[derive(Drop)]
pub struct PeriodPlan {
    plan: Plan,
    /// Nothing passes: INTERVAL leaves out each hour that BYHOUR and BYDAY have, or no day passes.
    never: bool,
}

/// The first passing second of a day that passes, from a second on.
fn next_on_day(rule: &Rule, plan: &Plan, month: &Month, day: u32, from: u32) -> Option<u32>
    requires usable { IsUsable rule.now }
    requires coarse { is_fine rule.now.freq ≡ false }
    requires plan { IsPlan rule.now plan.now }
    requires within { (month.now.first ≤ day) × (day < month.now.first + month.now.size) }
    requires day { spec.day_passes rule.now plan.now.start.day day ≡ true }
    ensures { FindsFirst (passes_on rule.now plan.now day) from 86_400 result }
{
    let hours = hours_on(rule, plan.first, plan.times.hours, month, day);
    next_in_day(hours, plan.times.minutes, plan.times.seconds, from)
}

/// The first day of a set from one on, as far as INTERVAL may let it count; the end of the month
/// where there is none.
fn next_day(rule: &Rule, plan: &Plan, month: &Month, set: Set, day: u32) -> u32
    requires usable { IsUsable rule.now }
    requires plan { IsPlan rule.now plan.now }
    requires set { (i : ℕ) → i < month.now.size → has set i ≡ spec.day_passes rule.now plan.now.start.day (month.now.first + i) }
    requires within { (month.now.first ≤ day) × (day < month.now.first + month.now.size) }
    ensures from { day ≤ result }
    ensures to { result ≤ month.now.first + month.now.size }
    ensures none { NonePasses rule.now (moment_of plan.now.start) plan.now.dated (86_400 * day) (86_400 * result) }
    ensures passing { result < month.now.first + month.now.size → spec.day_passes rule.now plan.now.start.day result ≡ true }
{
    let end = month.first + month.size;
    let counted = counted_day(rule, plan.first, day);
    if end <= counted {
        return end;
    }
    match set.next(counted - month.first, month.size) {
        Some(place) => month.first + place,
        None => end,
    }
}

/// The first passing moment of a month, where none before the month passes.
fn next_in_month(rule: &Rule, plan: &Plan, month: &Month, from: Moment) -> Option<Moment>
    requires usable { IsUsable rule.now }
    requires coarse { is_fine rule.now.freq ≡ false }
    requires plan { IsPlan rule.now plan.now }
    requires listed { has plan.now.months month.now.month ≡ true }
    requires none { NonePasses rule.now (moment_of plan.now.start) plan.now.dated (86_400 * from.day + from.second) (86_400 * month.now.first) }
    requires second { from.second < 86_400 }
    ensures { MatchOption result
        (NonePasses rule.now (moment_of plan.now.start) plan.now.dated (86_400 * from.day + from.second) (86_400 * (month.now.first + month.now.size)))
        (IsFound rule.now plan.now from) }
{
    let days = days_of(rule, &plan.start, &plan.days, month);
    let end = month.first + month.size;
    let mut day = from.day.max(month.first);
    while day < end {
        let next = next_day(rule, plan, month, days, day);
        if next == end {
            return None;
        }
        match next_on_day(rule, plan, month, next, from.second_on(next)) {
            Some(second) => return Some(Moment { day: next, second }),
            None => day = next + 1,
        }
    }
    None
}

/// The first month from one on that INTERVAL and BYMONTH may let count; where it is that one, both do.
fn next_month(rule: &Rule, plan: &Plan, month: u32) -> u32
    requires usable { IsUsable rule.now }
    requires plan { IsPlan rule.now plan.now }
    requires month { (12 ≤ month) × (month < END_MONTH) }
    ensures from { month ≤ result }
    ensures to { result ≤ END_MONTH }
    ensures none { NonePasses rule.now (moment_of plan.now.start) plan.now.dated (86_400 * month_begin month) (86_400 * month_begin result) }
    ensures listed { result ≡ month → has plan.now.months (month % 12 + 1) ≡ true }
{
    let counted = counted_month(rule, plan.first, month);
    if counted < END_MONTH {
        listed_month(plan.months, counted)
    } else {
        counted
    }
}

/// The first passing moment from one on that lies in a month.
fn next_moment(rule: &Rule, plan: &Plan, month: u32, from: Moment) -> Option<Moment>
    requires usable { IsUsable rule.now }
    requires coarse { is_fine rule.now.freq ≡ false }
    requires plan { IsPlan rule.now plan.now }
    requires month { (12 ≤ month) × (month < END_MONTH) }
    requires begun { month_begin month ≤ from.day }
    requires second { from.second < 86_400 }
    ensures { MatchOption result
        (NonePasses rule.now (moment_of plan.now.start) plan.now.dated (86_400 * from.day + from.second) (86_400 * end_day))
        (IsFound rule.now plan.now from) }
{
    let mut month = month;
    while month < END_MONTH {
        let next = next_month(rule, plan, month);
        if next == month {
            let days = Month::new(month);
            match next_in_month(rule, plan, &days, from) {
                Some(found) => return Some(found),
                None => month += 1,
            }
        } else {
            month = next;
        }
    }
    None
}

/// A day as it is counted from the year 0.
pub fn day_number(day: i32) -> u32
    requires from { neg_ℤ (pos 719_162) ≤ℤ day }
    requires to { day ≤ℤ pos 2_932_896 }
    ensures value { result ≡ cal.day_number day }
    ensures from { 366 ≤ result }
    ensures to { result < 3_652_425 }
{
    (day + 719_528) as u32
}

/// A moment of a rule as it is given.
fn moment_at(moment: Moment) -> Local
    requires from { 366 ≤ moment.day }
    requires to { moment.day < 767_740 }
    requires second { moment.second < 86_400 }
    ensures written { IsWritten result }
    ensures value { moment_of_local result ≡ 86_400 * moment.day + moment.second }
{
    Local {
        day: moment.day as i32 - 719_528,
        second: moment.second,
    }
}

/// What a walk needs of a start and of the lists of a rule.
fn plan_of(rule: &Rule, start: Local, dated: bool) -> Plan
    requires usable { IsUsable rule.now }
    requires coarse { is_fine rule.now.freq ≡ false }
    requires written { IsWritten start }
    ensures plan { IsPlan rule.now result }
    ensures start { moment_of result.start ≡ moment_of_local start }
    ensures dated { result.dated ≡ dated }
{
    let day = day_number(start.day);
    let (year, month, of_month) = date_of(day);
    let number = period_of(rule, year, month, day);
    let first = match rule.freq {
        Freq::Hourly => number + start.second / 3600,
        _ => number,
    };
    let times = times_of(rule, start.second, dated);
    let start = Start {
        day,
        month,
        of_month,
        second: start.second,
    };
    let months = months_of(rule, &start);
    let days = day_sets_of(rule);
    Plan {
        start,
        dated,
        first,
        times,
        months,
        days,
    }
}

/// The first passing moment from one on.
fn next_from(rule: &Rule, plan: &Plan, from: Local) -> Option<Local>
    requires usable { IsUsable rule.now }
    requires coarse { is_fine rule.now.freq ≡ false }
    requires plan { IsPlan rule.now plan.now }
    requires from { IsWritten from }
    ensures written { IfSome result (λ m. IsWritten m) }
    ensures some { IfSome result (λ m. IsNextPassing rule.now (moment_of plan.now.start) plan.now.dated (moment_of_local from) (moment_of_local m)) }
    ensures none { IfNone result (NonePasses rule.now (moment_of plan.now.start) plan.now.dated (moment_of_local from) (86_400 * end_day)) }
{
    let day = day_number(from.day);
    if END_DAY <= day {
        return None;
    }
    let (year, month, _) = date_of(day);
    let second = from.second;
    let found = next_moment(rule, plan, 12 * year + month - 1, Moment { day, second })?;
    Some(moment_at(found))
}

/// Whether a part names days other than weekdays, or months. Where none does, some day passes.
fn may_lack_days(rule: &Rule) -> bool {
    rule.freq == Freq::Monthly
        || !rule.by_month.is_empty()
        || !rule.by_week.is_empty()
        || !rule.by_year_day.is_empty()
        || !rule.by_month_day.is_empty()
}

/// Whether no day passes.
fn lacks_days(rule: &Rule, plan: &Plan) -> bool
    requires usable { IsUsable rule.now }
    requires plan { IsPlan rule.now plan.now }
    ensures { result ≡ true → (day : ℕ) → 366 ≤ day → spec.day_passes rule.now plan.now.start.day day ≡ false }
{
    if !may_lack_days(rule) {
        return false;
    }
    !some_month_has(rule, plan, 1, 1)
}

/// Whether it is known that nothing passes from the year 1 on.
fn gives_nothing(rule: &Rule, plan: &Plan) -> bool
    requires usable { IsUsable rule.now }
    requires plan { IsPlan rule.now plan.now }
    ensures { result ≡ true → (m : ℕ) → 31_622_400 ≤ m → spec.passes rule.now (moment_of plan.now.start) plan.now.dated m ≡ false }
{
    if never_meets(rule, plan) {
        return true;
    }
    lacks_days(rule, plan)
}

impl ReadyRule for PeriodPlan {
    ghost use Rattle.rrule_step.specs.Plans.{IsReady};

    ghost IsReadyFor = { IsReady };

    fn next_passing(&self, rule: &Rule, start: Local, dated: bool, from: Local) -> Option<Local> {
        let _ = start;
        let _ = dated;
        if self.never {
            return None;
        }
        next_from(rule, &self.plan, from)
    }

    fn period_has(
        &self,
        rule: &Rule,
        start: Local,
        dated: bool,
        m: Local,
        times: u64,
        least: u64,
    ) -> bool {
        let _ = start;
        let _ = dated;
        period_has(rule, &self.plan, m, times, least)
    }

    fn some_period_has(
        &self,
        rule: &Rule,
        start: Local,
        dated: bool,
        times: u64,
        least: u64,
    ) -> bool {
        let _ = start;
        let _ = dated;
        some_period_has(rule, &self.plan, times, least)
    }
}

impl Rules for PeriodStep {
    type Ready = PeriodPlan;

    fn ready(&self, rule: &Rule, start: Local, dated: bool) -> PeriodPlan {
        let plan = plan_of(rule, start, dated);
        let never = gives_nothing(rule, &plan);
        PeriodPlan { plan, never }
    }
}
