//! The periods that INTERVAL lets count, and the steps from one to the next.
ghost use Rattle.std.specs.Prelude.{◌≡◌, ℕ, ◌+◌, ◌-◌, ◌*◌, ◌/◌, ◌%◌, ◌<◌, ◌≤◌, true, false, if◌then◌else◌, min};
ghost use Rattle.cal_moment.specs.Calendar as cal;
ghost use Rattle.cal_model.specs.Recurrence.NextPassing.{NonePasses, is_fine};
ghost use Rattle.cal_model.specs.Recurrence.RuleBounds.{IsUsable};
ghost use Rattle.cal_model.specs.Recurrence.Passing as spec;
ghost use Rattle.rrule_step.specs.Periods.{is_counted, month_begin};
ghost use Rattle.rrule_step.specs.Firsts.{NoneHolds};
ghost use Rattle.rrule_step.specs.Sets.{has};

use crate::month::{Month, date_of};
use crate::set::Set;
use cal_model::{Freq, Rule};

/// The number of the first month that no rule reaches: January 2102.
pub const END_MONTH: u32 = 25_224;

/// Its first day, counted from 1 January of the year 0.
pub const END_DAY: u32 = 767_740;

/// The number of the period of a day, and under HOURLY of its first hour.
pub fn period_of(rule: &Rule, year: u32, month: u32, day: u32) -> u32
    requires rule { IsUsable rule.now }
    requires coarse { is_fine rule.now.freq ≡ false }
    requires day { day < 3_652_425 }
    requires year { (year ≡ cal.year_of day) × (year ≤ 9999) }
    requires month { (month ≡ cal.month_of day) × (month ≤ 12) }
    ensures value { result ≡ spec.period_number rule.now.freq rule.now.week_start (86_400 * day) }
    ensures bound { result ≤ 90_000_000 }
{
    match rule.freq {
        Freq::Hourly => 24 * day,
        Freq::Daily => day,
        Freq::Weekly => (day + 12 - rule.week_start as u32) / 7,
        Freq::Monthly => 12 * year + month,
        Freq::Yearly => year,
        _ => unreachable!(),
    }
}

/// Whether a period counts: each INTERVAL-th from the start's on. Where INTERVAL is 1, as almost
/// everywhere, nothing is divided: a division takes longer than what else a step does.
fn counts(first: u32, interval: u32, number: u32) -> bool
    requires { 0 < interval }
    ensures { result ≡ is_counted first interval number }
{
    first <= number && (interval == 1 || (number - first) % interval == 0)
}

/// The first period from one on that counts, or a greater number than any where that is too great.
fn counted_from(first: u32, interval: u32, number: u32) -> u32
    requires { 0 < interval }
    ensures from { number ≤ result }
    ensures none { NoneHolds (is_counted first interval) number result }
{
    if number <= first {
        return first;
    }
    if interval == 1 {
        return number;
    }
    let over = (number - first) % interval;
    if over == 0 {
        number
    } else {
        number.saturating_add(interval - over)
    }
}

/// The first hours of a day that count, as a set, of those in another.
fn counted_hours(first: u32, interval: u32, hours: Set, number: u32) -> Set
    requires interval { 0 < interval }
    requires number { number ≤ 90_000_000 }
    ensures { (h : ℕ) → h < 24 → has result h ≡ (if has hours h then is_counted first interval (number + h) else false) }
{
    if interval == 1 && first <= number {
        return hours;
    }
    let mut set = Set::none();
    for hour in 0..24u32 {
        if counts(first, interval, number + hour) {
            set = set.with(hour);
        }
    }
    hours.both(set)
}

/// The hours of a day that BYHOUR has and whose period counts.
pub fn hours_on(rule: &Rule, first: u32, hours: Set, month: &Month, day: u32) -> Set
    requires rule { IsUsable rule.now }
    requires coarse { is_fine rule.now.freq ≡ false }
    requires within { (month.now.first ≤ day) × (day < month.now.first + month.now.size) }
    ensures { (h : ℕ) → h < 24 → has result h ≡ (if has hours h then is_counted first rule.now.interval (spec.period_number rule.now.freq rule.now.week_start (86_400 * day + 3600 * h)) else false) }
{
    let number = period_of(rule, month.year, month.month, day);
    match rule.freq {
        Freq::Hourly => counted_hours(first, rule.interval, hours, number),
        _ => {
            if counts(first, rule.interval, number) {
                hours
            } else {
                Set::none()
            }
        }
    }
}

/// The first day from one on that INTERVAL may let count, as far as days, weeks and hours go.
pub fn counted_day(rule: &Rule, first: u32, day: u32) -> u32
    requires rule { IsUsable rule.now }
    requires day { (366 ≤ day) × (day < 767_740) }
    ensures from { day ≤ result }
    ensures none { (m : ℕ) → 86_400 * day ≤ m → m < 86_400 * result → is_counted first rule.now.interval (spec.period_number rule.now.freq rule.now.week_start m) ≡ false }
{
    match rule.freq {
        Freq::Hourly => counted_from(first, rule.interval, 24 * day) / 24,
        Freq::Daily => counted_from(first, rule.interval, day),
        Freq::Weekly => {
            let week = (day + 12 - rule.week_start as u32) / 7;
            let counted = counted_from(first, rule.interval, week);
            if counted == week {
                day
            } else {
                first_of_week(rule.week_start, counted)
            }
        }
        _ => day,
    }
}

/// The first day of a week, where it lies before the end of rules.
fn first_of_week(week_start: u8, week: u32) -> u32
    requires week_start { week_start < 7 }
    requires week { 2 ≤ week }
    ensures { result ≡ 7 * min week 200_000 + week_start - 12 }
{
    7 * week.min(200_000) + week_start as u32 - 12
}

/// The first month from one on that has a day which INTERVAL may let count, as far as days, weeks and
/// hours go.
fn month_of_counted(rule: &Rule, first: u32, month: u32) -> u32
    requires rule { IsUsable rule.now }
    requires month { (12 ≤ month) × (month < END_MONTH) }
    ensures from { month ≤ result }
    ensures to { result ≤ END_MONTH }
    ensures none { (m : ℕ) → 86_400 * month_begin month ≤ m → m < 86_400 * month_begin result → is_counted first rule.now.interval (spec.period_number rule.now.freq rule.now.week_start m) ≡ false }
{
    let this = Month::new(month);
    let end = this.first + this.size;
    let counted = counted_day(rule, first, this.first);
    if counted < end {
        return month;
    }
    let is_past = END_DAY <= counted;
    if is_past {
        return END_MONTH;
    }
    let (year, of_year, _) = date_of(counted);
    12 * year + of_year - 1
}

/// The first month from one on that INTERVAL may let count.
pub fn counted_month(rule: &Rule, first: u32, month: u32) -> u32
    requires rule { IsUsable rule.now }
    requires month { (12 ≤ month) × (month < END_MONTH) }
    ensures from { month ≤ result }
    ensures to { result ≤ END_MONTH }
    ensures none { (m : ℕ) → 86_400 * month_begin month ≤ m → m < 86_400 * month_begin result → is_counted first rule.now.interval (spec.period_number rule.now.freq rule.now.week_start m) ≡ false }
{
    match rule.freq {
        Freq::Monthly => (counted_from(first, rule.interval, month + 1) - 1).min(END_MONTH),
        Freq::Yearly => {
            let year = counted_from(first, rule.interval, month / 12);
            if year == month / 12 {
                month
            } else {
                12 * year.min(END_MONTH / 12)
            }
        }
        _ => {
            if rule.interval < 5 {
                month
            } else {
                month_of_counted(rule, first, month)
            }
        }
    }
}

/// The first month from one on that a set has, or the next January.
pub fn listed_month(months: Set, month: u32) -> u32
    requires { (12 ≤ month) × (month < END_MONTH) }
    ensures from { month ≤ result }
    ensures to { result ≤ END_MONTH }
    ensures none { (day : ℕ) → month_begin month ≤ day → day < month_begin result → has months (cal.month_of day) ≡ false }
    ensures listed { result ≡ month → has months (month % 12 + 1) ≡ true }
{
    let january = month - month % 12;
    match months.next(month % 12 + 1, 13) {
        Some(next) => january + next - 1,
        None => january + 12,
    }
}
