//! Rules whose moments stand equally far apart: each is found by adding days to the one before (RFC 5545,
//! 3.3.10).
ghost use Rattle.std.specs.Prelude.{◌≡◌, ◌⊎◌, ◌+◌, ◌*◌, ◌<◌, ◌≤◌, ◌^◌, ◌++◌, ℕ, ℤ, pos, ◌+ℤ◌, true, false, None, nat_le, nat_lt, ◌&&◌, ◌∷◌, [], if◌then◌else◌, Some, IfSome, OnOk};
ghost use Rattle.cal_moment.specs.Calendar.{seconds_since_1970};
ghost use Rattle.cal_model.specs.Recurrence.NextPassing.{end_day};
ghost use Rattle.cal_model.specs.Recurrence.RuleBounds.{IsUsable, IsWritten};
ghost use Rattle.cal_model.specs.Recurrence.Passing.{passes};
ghost use Rattle.cal_model.specs.Recurrence.RecurrenceSet.{last_written};
ghost use Rattle.cal_model.specs.Values.LocalTimes.{moment_of_local};
ghost use Rattle.cal_model.specs.Walks.Clocks.{reading_by, IsClock};
ghost use Rattle.cal_model.specs.Walks.KeptMoments.{found_from, one_less, starts_between, starts_by, wanted};
ghost use Rattle.rrule_sets.specs.EvenRules.{IsBare, IsEven, fewer};

use cal_base::{List, NoMemory};
use cal_model::walk::clock::Clock;
use cal_model::walk::cursor::is_before;
use cal_model::walk::rule_walk::{LAST_WRITTEN, less_one};
use cal_model::{Freq, Rule};
use cal_moment::Local;

/// A place among the moments of a rule: the last that was taken, and how many COUNT still allows.
#[derive(Clone, Copy)]
pub struct Place {
    pub at: Local,
    pub left: Option<u32>,
}

/// Whether a rule has no BY part, so that the start gives all that its frequency leaves open.
fn is_bare(rule: &Rule) -> bool
    ensures { result ≡ true → IsBare rule.now }
{
    rule.by_month.is_empty()
        && rule.by_week.is_empty()
        && rule.by_year_day.is_empty()
        && rule.by_month_day.is_empty()
        && rule.by_day.is_empty()
        && rule.by_hour.is_empty()
        && rule.by_minute.is_empty()
        && rule.by_second.is_empty()
        && rule.by_set_pos.is_empty()
}

/// How many days each moment of a rule stands behind the one before, where that is always the same: a
/// DAILY or WEEKLY rule without BY parts.
pub fn days_apart(rule: &Rule) -> Option<u64>
    requires { IsUsable rule.now }
    ensures even { IfSome result (IsEven rule.now) }
    ensures bound { IfSome result (λ days. days < 2 ^ 40) }
{
    if !is_bare(rule) {
        return None;
    }
    match rule.freq {
        Freq::Daily => Some(rule.interval as u64),
        Freq::Weekly => Some(7 * rule.interval as u64),
        _ => None,
    }
}

/// A day, so many later.
fn day_behind(day: i32, days: u64) -> i64
    requires { days < 2 ^ 40 }
    ensures { result ≡ day +ℤ pos days }
{
    day as i64 + days as i64
}

/// Whether the moment so many days behind another lies before an end.
fn lies_before(at: Local, days: u64, end: Local) -> bool
    requires at { IsWritten at }
    requires end { IsWritten end }
    requires days { days < 2 ^ 40 }
    ensures { result ≡ nat_lt (moment_of_local at + 86_400 * days) (moment_of_local end) }
{
    let day = day_behind(at.day, days);
    day < end.day as i64 || (day == end.day as i64 && at.second < end.second)
}

/// The moment so many days behind another.
fn moment_behind(at: Local, days: u64) -> Local
    requires at { IsWritten at }
    requires before_end { moment_of_local at + 86_400 * days < 86_400 * end_day }
    ensures written { IsWritten result }
    ensures value { moment_of_local result ≡ moment_of_local at + 86_400 * days }
{
    Local {
        day: at.day + days as i32,
        second: at.second,
    }
}

/// How many moments of a rule that stand so many days apart lie behind its start on days before that of
/// another moment.
fn moments_before(start: Local, days: u64, low: Local) -> u32
    requires start { IsWritten start }
    requires low { IsWritten low }
    requires days { 0 < days }
    ensures { (result ≡ 0) ⊎ (moment_of_local start + 86_400 * (result * days) < moment_of_local low) }
{
    if low.day <= start.day {
        return 0;
    }
    let between = (low.day as i64 - start.day as i64 - 1) as u64;
    (between / days) as u32
}

/// So many fewer, where some are said.
fn less(left: Option<u32>, taken: u32) -> Option<u32>
    ensures { result ≡ fewer taken left }
{
    match left {
        None => None,
        Some(n) => Some(n.saturating_sub(taken)),
    }
}

/// Whether no moment is missing by a clock.
fn is_whole(clock: &Clock) -> bool
    ensures { result ≡ true → (l : ℤ) → (reading_by clock.now).exists l ≡ true }
{
    match clock {
        Clock::Zoned(_) => false,
        _ => true,
    }
}

/// Whether COUNT, if it is there, counts every moment behind the start.
fn counts_all(rule: &Rule, clock: &Clock) -> bool
    ensures { result ≡ true → (rule.now.count ≡ None) ⊎ ((l : ℤ) → (reading_by clock.now).exists l ≡ true) }
{
    rule.count.is_none() || is_whole(clock)
}

/// Where a walk may begin: at the start, or behind moments of the rule that lie before a range.
fn begin(rule: &Rule, days: u64, start: Local, clock: &Clock, low: Local) -> Place
    requires even { IsEven rule.now days }
    requires until { rule.now.until ≡ None }
    requires start { IsWritten start }
    requires own { passes rule.now (moment_of_local start) (reading_by clock.now).dated (moment_of_local start) ≡ true }
    requires start_before_end { moment_of_local start < 86_400 * end_day }
    requires low { IsWritten low }
    requires low_before_end { moment_of_local low ≤ 86_400 * end_day }
    ensures written { IsWritten result.at }
    ensures before_end { moment_of_local result.at < 86_400 * end_day }
    ensures passing { passes rule.now (moment_of_local start) (reading_by clock.now).dated (moment_of_local result.at) ≡ true }
    ensures behind { moment_of_local start ≤ moment_of_local result.at }
    ensures same { (high : ℕ) → wanted rule.now (moment_of_local start) (reading_by clock.now) (moment_of_local low) high (one_less rule.now.count) (found_from rule.now (moment_of_local start) (reading_by clock.now) (moment_of_local start + 1))
        ≡ wanted rule.now (moment_of_local start) (reading_by clock.now) (moment_of_local low) high result.left (found_from rule.now (moment_of_local start) (reading_by clock.now) (moment_of_local result.at + 1)) }
{
    if !counts_all(rule, clock) {
        return Place {
            at: start,
            left: less_one(rule.count),
        };
    }
    let taken = moments_before(start, days, low);
    Place {
        at: moment_behind(start, taken as u64 * days),
        left: less(less_one(rule.count), taken),
    }
}

/// Whether a moment lies from `low` on and can be written.
fn is_from(m: Local, low: Local) -> bool
    requires m { IsWritten m }
    requires low { IsWritten low }
    ensures { result ≡ (nat_le (moment_of_local m) last_written && nat_le (moment_of_local low) (moment_of_local m)) }
{
    !is_before(LAST_WRITTEN, m) && !is_before(m, low)
}

/// Puts the start at a moment behind the others, if it is asked for.
fn put_if(is_asked: bool, clock: &Clock, m: Local, out: &mut List<i64>) -> Result<(), NoMemory>
    requires clock { IsClock clock.now }
    requires m { IsWritten m }
    ensures { OnOk result (out.new ≡ out.old ++ (if is_asked then (reading_by clock.now).instant (seconds_since_1970 (moment_of_local m)) ∷ [] else [])) }
{
    if is_asked {
        out.push(clock.instant(m))?;
    }
    Ok(())
}

/// Takes the next moment into account: puts its start behind the others where it exists, lies in the
/// range and can be written.
fn put_moment(
    rule: &Rule,
    start: Local,
    clock: &Clock,
    low: Local,
    high: Local,
    m: Local,
    left: &mut Option<u32>,
    out: &mut List<i64>,
) -> Result<(), NoMemory>
    requires until { rule.now.until ≡ None }
    requires start { IsWritten start }
    requires low { IsWritten low }
    requires clock { IsClock clock.now }
    requires m { IsWritten m }
    requires after { moment_of_local start < moment_of_local m }
    requires before { moment_of_local m < moment_of_local high }
    requires high { moment_of_local high ≤ 86_400 * end_day }
    requires some_left { left.old ≡ Some 0 → ⊥ }
    requires passing { passes rule.now (moment_of_local start) (reading_by clock.now).dated (moment_of_local m) ≡ true }
    ensures { OnOk result (out.new ++ starts_by (reading_by clock.now) (wanted rule.now (moment_of_local start) (reading_by clock.now) (moment_of_local low) (moment_of_local high) left.new (found_from rule.now (moment_of_local start) (reading_by clock.now) (moment_of_local m + 1)))
        ≡ out.old ++ starts_by (reading_by clock.now) (wanted rule.now (moment_of_local start) (reading_by clock.now) (moment_of_local low) (moment_of_local high) left.old (found_from rule.now (moment_of_local start) (reading_by clock.now) (moment_of_local m)))) }
{
    if clock.exists(m) {
        *left = less_one(*left);
        put_if(is_from(m, low), clock, m, out)?;
    }
    Ok(())
}

/// For how many moments behind a place there is to be room: no more than there are up to the end of the
/// range, than the range can have, and than COUNT still allows.
fn room_behind(place: Place, days: u64, low: Local, high: Local) -> usize
    requires days { 0 < days }
    requires at { IsWritten place.at }
    requires low { IsWritten low }
    requires high { IsWritten high }
{
    let in_range = moments_before(low, days, high).saturating_add(1);
    let room = moments_before(place.at, days, high).min(in_range);
    match place.left {
        None => room as usize,
        Some(left) => room.min(left) as usize,
    }
}

/// Puts the starts at the moments behind a place that lie before an end behind the others.
fn put_behind(
    rule: &Rule,
    days: u64,
    start: Local,
    clock: &Clock,
    low: Local,
    high: Local,
    place: Place,
    out: &mut List<i64>,
) -> Result<(), NoMemory>
    requires even { IsEven rule.now days }
    requires days { days < 2 ^ 40 }
    requires until { rule.now.until ≡ None }
    requires start { IsWritten start }
    requires clock { IsClock clock.now }
    requires low { IsWritten low }
    requires high { IsWritten high }
    requires high_before_end { moment_of_local high ≤ 86_400 * end_day }
    requires written { IsWritten place.at }
    requires before_end { moment_of_local place.at < 86_400 * end_day }
    requires passing { passes rule.now (moment_of_local start) (reading_by clock.now).dated (moment_of_local place.at) ≡ true }
    requires behind { moment_of_local start ≤ moment_of_local place.at }
    ensures { OnOk result (out.new ≡ out.old ++ starts_by (reading_by clock.now) (wanted rule.now (moment_of_local start) (reading_by clock.now) (moment_of_local low) (moment_of_local high) place.left (found_from rule.now (moment_of_local start) (reading_by clock.now) (moment_of_local place.at + 1)))) }
{
    out.reserve(room_behind(place, days, low, high))?;
    let mut at = place.at;
    let mut left = place.left;
    'moments: loop {
        if left == Some(0) {
            return Ok(());
        }
        if !lies_before(at, days, high) {
            return Ok(());
        }
        at = moment_behind(at, days);
        put_moment(rule, start, clock, low, high, at, &mut left, out)?;
    }
}

/// Puts the later starts of a rule whose moments stand so many days apart, from `low` up to `high`, behind
/// those in `out`. COUNT takes a division, and no moment before the range is looked at, but beside a zone,
/// whose clock may skip some.
pub fn even_starts(
    rule: &Rule,
    days: u64,
    start: Local,
    clock: &Clock,
    low: Local,
    high: Local,
    out: &mut List<i64>,
) -> Result<(), NoMemory>
    requires even { IsEven rule.now days }
    requires days { days < 2 ^ 40 }
    requires until { rule.now.until ≡ None }
    requires start { IsWritten start }
    requires own { passes rule.now (moment_of_local start) (reading_by clock.now).dated (moment_of_local start) ≡ true }
    requires clock { IsClock clock.now }
    requires low { IsWritten low }
    requires low_before_end { moment_of_local low ≤ 86_400 * end_day }
    requires high { IsWritten high }
    requires high_before_end { moment_of_local high ≤ 86_400 * end_day }
    ensures { OnOk result (out.new ≡ out.old ++ starts_between rule.now (moment_of_local start) (reading_by clock.now) (moment_of_local low) (moment_of_local high)) }
{
    if !is_before(start, high) {
        return Ok(());
    }
    let place = begin(rule, days, start, clock, low);
    put_behind(rule, days, start, clock, low, high, place, out)
}

/// How many days the moments of a rule without UNTIL stand apart, beside a start that is one of them.
pub fn days_apart_beside(rule: &Rule, start: Local, clock: &Clock) -> Option<u64>
    requires usable { IsUsable rule.now }
    requires start { IsWritten start }
    ensures even { IfSome result (IsEven rule.now) }
    ensures bound { IfSome result (λ days. days < 2 ^ 40) }
    ensures until { IfSome result (λ days. rule.now.until ≡ None) }
    ensures own { IfSome result (λ days. passes rule.now (moment_of_local start) (reading_by clock.now).dated (moment_of_local start) ≡ true) }
{
    if rule.until.is_some() || (start.second != 0 && matches!(clock, Clock::Date)) {
        return None;
    }
    days_apart(rule)
}
