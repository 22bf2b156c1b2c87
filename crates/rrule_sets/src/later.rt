//! The later starts of rules in a range of digits (RFC 5545, 3.8.5.3).
ghost use Rattle.std.specs.Prelude.{◌≡◌, ℕ, ◌+◌, ◌*◌, ◌<◌, ◌≤◌, ◌++◌, length, flat_map, map, sum, count_by, All, OnOk, false};
ghost use Rattle.cal_model.specs.declared.rule.Rule.{Rule};
ghost use Rattle.cal_model.specs.Recurrence.NextPassing.{end_day, is_fine};
ghost use Rattle.cal_model.specs.Recurrence.RuleBounds.{IsWritten, IsUsable};
ghost use Rattle.cal_model.specs.Recurrence.RecurrenceSet.{every_moment};
ghost use Rattle.cal_model.specs.Objects.ObjectFacts.{IsServed};
ghost use Rattle.cal_model.specs.Ranges.Cost.{passing_up_to};
ghost use Rattle.cal_model.specs.Values.LocalTimes.{moment_of_local};
ghost use Rattle.cal_model.specs.Walks.Budgets.{last_period, passes_by};
ghost use Rattle.cal_model.specs.Walks.Clocks.{reading_by, IsClock};
ghost use Rattle.cal_model.specs.Walks.KeptMoments.{starts_between};
ghost use Rattle.cal_model.specs.Instances.Alignment as alignment;
ghost use Rattle.override_merge.specs.Conversions.{tables_of, HasZone};
ghost use Rattle.rrule_sets.specs.AskedStarts.{later_starts};
ghost use Rattle.rrule_sets.specs.NeededDigits.{EndsBy};

use crate::even::{days_apart_beside, even_starts};
use crate::range::{Digits, FIRST_DIGITS, moment_at};
use cal_base::{List, NoMemory, Steps};
use cal_model::walk::clock::Clock;
use cal_model::walk::cursor::is_dated;
use cal_model::walk::starts::rule_starts;
use cal_model::{LocalTimes, Rule, Rules, local_of, written_value};
use cal_moment::{Local, Stamp};
use std::alloc::Global;
use std::sync::ledger::Ledger;

/// The clock beside which a stamp is written.
pub fn clock_beside<'a>(zones: &[LocalTimes<'a>], stamp: Stamp) -> Clock<'a>
    requires { HasZone (length zones.now) stamp }
    ensures clock { IsClock result }
    ensures reading { reading_by result ≡ alignment.reading_of (tables_of zones.now) stamp }
{
    match stamp {
        Stamp::Date(_) => Clock::Date,
        Stamp::Floating(_) => Clock::Floating,
        Stamp::Zoned(_, number) => Clock::Zoned(zones[number as usize].table),
        Stamp::Utc(_) => Clock::Utc,
    }
}

/// Puts the later starts of a rule between two moments behind the others: by adding days where its
/// moments stand equally far apart, else from moment to moment, for which the rule is made ready once.
fn put_rule<R: Rules, L: Ledger>(
    alloc: Global,
    body: &R,
    rule: &Rule,
    start: Local,
    clock: &Clock,
    low: Local,
    high: Local,
    out: &mut List<i64>,
    steps: &mut Steps<L>,
) -> Result<(), NoMemory>
    requires start { IsWritten start }
    requires low { IsWritten low }
    requires high { IsWritten high }
    requires low_before_end { moment_of_local low ≤ 86_400 * end_day }
    requires high_before_end { moment_of_local high ≤ 86_400 * end_day }
    requires clock { IsClock clock.now }
    requires rule { IsUsable rule.now }
    requires coarse { is_fine rule.now.freq ≡ false }
    ensures steps { steps.new ≤ steps.old + (1 + count_by (passes_by rule.now (moment_of_local start) (reading_by clock.now).dated (last_period rule.now (moment_of_local high))) every_moment) }
    ensures starts { OnOk result (out.new ≡ out.old ++ starts_between rule.now (moment_of_local start) (reading_by clock.now) (moment_of_local low) (moment_of_local high)) }
{
    let Some(days) = days_apart_beside(rule, start, clock) else {
        let ready = body.ready(rule, start, is_dated(clock));
        return rule_starts(alloc, &ready, rule, start, clock, low, high, out, steps);
    };
    even_starts(rule, days, start, clock, low, high, out)
}

/// Puts the later starts of rules between two moments behind the others.
pub fn put_rules<R: Rules, L: Ledger>(
    alloc: Global,
    body: &R,
    rules: &[Rule],
    start: Local,
    clock: &Clock,
    low: Local,
    high: Local,
    out: &mut List<i64>,
    steps: &mut Steps<L>,
) -> Result<(), NoMemory>
    requires start { IsWritten start }
    requires low { IsWritten low }
    requires high { IsWritten high }
    requires low_before_end { moment_of_local low ≤ 86_400 * end_day }
    requires high_before_end { moment_of_local high ≤ 86_400 * end_day }
    requires clock { IsClock clock.now }
    requires usable { All IsUsable rules.now }
    requires coarse { All (λ (rule : Rule). is_fine rule.freq ≡ false) rules.now }
    ensures steps { steps.new ≤ steps.old + sum (map (λ (rule : Rule). 1 + count_by (passes_by rule (moment_of_local start) (reading_by clock.now).dated (last_period rule (moment_of_local high))) every_moment) rules.now) }
    ensures starts { OnOk result (out.new ≡ out.old ++ flat_map (λ (rule : Rule). starts_between rule (moment_of_local start) (reading_by clock.now) (moment_of_local low) (moment_of_local high)) rules.now) }
{
    let mut rest = rules;
    'rules: while let Some((rule, behind)) = rest.split_first() {
        put_rule(alloc, body, rule, start, clock, low, high, out, steps)?;
        rest = behind;
    }
    Ok(())
}

/// The local moment that a stamp writes.
pub fn start_moment(stamp: Stamp) -> Local
    requires { IsServed stamp }
    ensures written { IsWritten result }
    ensures value { moment_of_local result ≡ alignment.written_moment stamp }
{
    local_of(written_value(stamp))
}

/// Puts the later starts of rules in a range of digits behind the others. Takes a step for each moment
/// that is taken from a rule, and none where the range ends before the first moment of all.
pub fn put_later_starts<R: Rules, L: Ledger>(
    alloc: Global,
    body: &R,
    zones: &[LocalTimes<'_>],
    stamp: Stamp,
    rules: &[Rule],
    range: Digits,
    out: &mut List<i64>,
    steps: &mut Steps<L>,
) -> Result<(), NoMemory>
    requires stamp { HasZone (length zones.now) stamp }
    requires served { IsServed stamp }
    requires usable { All IsUsable rules.now }
    requires coarse { All (λ (rule : Rule). is_fine rule.freq ≡ false) rules.now }
    ensures steps { (day : ℕ) → EndsBy range day → steps.new ≤ steps.old + sum (map (λ (rule : Rule). 1 + passing_up_to every_moment rule stamp day) rules.now) }
    ensures starts { OnOk result (out.new ≡ out.old ++ flat_map (later_starts (tables_of zones.now) stamp range) rules.now) }
{
    if range.high <= FIRST_DIGITS {
        return Ok(());
    }
    let clock = clock_beside(zones, stamp);
    let start = start_moment(stamp);
    let (low, high) = (moment_at(range.low), moment_at(range.high));
    put_rules(alloc, body, rules, start, &clock, low, high, out, steps)
}
