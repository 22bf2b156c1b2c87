//! BYSETPOS: the moments of one period, and those of them that are picked (RFC 5545, 3.3.10).
ghost use Rattle.std.specs.Prelude.{◌≡◌, ◌⊎◌, ℕ, ◌+◌, ◌-◌, ◌*◌, ◌<◌, ◌≤◌, ◌^◌, true, false, ◌++◌, [], ◌∷◌, OnOk, IfOk, if◌then◌else◌, All, AllPairs, length, drop, IfSome, MatchOption};
ghost use Rattle.cal_model.specs.Recurrence.NextPassing.{NonePasses, end_day, is_fine};
ghost use Rattle.cal_model.specs.Recurrence.RuleBounds.{IsWritten, IsUsable};
ghost use Rattle.cal_model.specs.Words.Lists as lists;
ghost use Rattle.cal_model.specs.Values.LocalTimes.{moment_of_local};
ghost use Rattle.cal_model.specs.declared.rule.Freq.TheVariants.{Hourly, Monthly, Yearly};
ghost use Rattle.cal_model.specs.Recurrence.RecurrenceSet.{at_places, first_moment};
ghost use Rattle.cal_model.specs.Walks.Budgets.{last_period, left_to_take};
ghost use Rattle.cal_model.specs.Walks.Clocks.{reading_by, IsClock};
ghost use Rattle.cal_model.specs.Walks.Cursors.{IsAt};
ghost use Rattle.cal_model.specs.Walks.DayTimes.{times_of_day, AreTimes};
ghost use Rattle.cal_model.specs.Walks.Places.{days_of_period};
ghost use Rattle.cal_model.specs.Walks.SetPlaces.{AreSetPlaces, NeedsPlaces};
ghost use Rattle.cal_model.specs.Walks.KeptMoments.{found_from, found_between, kept_from, moments_of, number_of};

use crate::next_passing::ReadyRule;
use crate::rule::{Freq, Rule};
use crate::walk::clock::Clock;
use crate::walk::cursor::{Cursor, END, is_dated, peek, second_after};
use crate::walk::day_times::find_times;
use crate::walk::days::{keep_day, keep_if_there, next_midnight};
use crate::walk::period::{period_end, period_of};
use crate::walk::set_places::SetPlaces;
use cal_base::{List, NoMemory, Steps};
use cal_moment::Local;
use std::sync::ledger::Ledger;

/// Goes on to the next moment that passes, and says whether it lies in the period of that number.
fn stays<R: ReadyRule, L: Ledger>(
    ready: &R,
    rule: &Rule,
    start: Local,
    clock: &Clock,
    number: u64,
    cursor: &mut Cursor,
    end: Local,
    steps: &mut Steps<L>,
) -> bool
    requires ready { R.IsReadyFor ready.now rule.now (moment_of_local start) (reading_by clock.now).dated }
    requires start { IsWritten start }
    requires rule { IsUsable rule.now }
    requires coarse { is_fine rule.now.freq ≡ false }
    requires cursor { IsAt rule.now (moment_of_local start) (reading_by clock.now).dated cursor.old }
    requires from { number ≤ number_of rule.now (moment_of_local cursor.old.at) }
    requires begun { number_of rule.now (moment_of_local cursor.old.at - 1) ≤ last_period rule.now (moment_of_local end) }
    ensures cursor { IsAt rule.now (moment_of_local start) (reading_by clock.now).dated cursor.new }
    ensures forward { moment_of_local cursor.old.at ≤ moment_of_local cursor.new.at }
    ensures passed { NonePasses rule.now (moment_of_local start) (reading_by clock.now).dated (moment_of_local cursor.old.at) (moment_of_local cursor.new.at) }
    ensures steps { steps.new + left_to_take rule.now (moment_of_local start) (reading_by clock.now).dated (moment_of_local end) cursor.new ≤ steps.old + left_to_take rule.now (moment_of_local start) (reading_by clock.now).dated (moment_of_local end) cursor.old }
    ensures goes_on { result ≡ true → (cursor.new.taken ≡ true) × (number_of rule.now (moment_of_local cursor.new.at) ≡ number) }
    ensures ends { result ≡ false → All (λ m. number < number_of rule.now m) (found_from rule.now (moment_of_local start) (reading_by clock.now) (moment_of_local cursor.new.at)) }
{
    if period_of(rule, cursor.at) != number {
        return false;
    }
    let Some(next) = peek(ready, rule, start, clock, cursor, end, steps) else {
        return false;
    };
    period_of(rule, next) == number
}

/// Gathers what is found in the period of the moment at hand, one moment after the other.
pub fn gather<R: ReadyRule, L: Ledger>(
    ready: &R,
    rule: &Rule,
    start: Local,
    clock: &Clock,
    cursor: &mut Cursor,
    found: &mut List<Local>,
    end: Local,
    steps: &mut Steps<L>,
) -> Result<(), NoMemory>
    requires ready { R.IsReadyFor ready.now rule.now (moment_of_local start) (reading_by clock.now).dated }
    requires start { IsWritten start }
    requires clock { IsClock clock.now }
    requires rule { IsUsable rule.now }
    requires coarse { is_fine rule.now.freq ≡ false }
    requires cursor { IsAt rule.now (moment_of_local start) (reading_by clock.now).dated cursor.old }
    requires taken { cursor.old.taken ≡ true }
    requires empty { found.old ≡ [] }
    requires begun { number_of rule.now (moment_of_local cursor.old.at) ≤ last_period rule.now (moment_of_local end) }
    ensures cursor { IsAt rule.now (moment_of_local start) (reading_by clock.now).dated cursor.new }
    ensures steps { steps.new + left_to_take rule.now (moment_of_local start) (reading_by clock.now).dated (moment_of_local end) cursor.new ≤ steps.old + left_to_take rule.now (moment_of_local start) (reading_by clock.now).dated (moment_of_local end) cursor.old }
    ensures forward { OnOk result (moment_of_local cursor.old.at < moment_of_local cursor.new.at) }
    ensures found { OnOk result (moments_of found.new ≡ found_between rule.now (moment_of_local start) (reading_by clock.now) (moment_of_local cursor.old.at) (moment_of_local cursor.new.at)) }
    ensures written { OnOk result (All (λ l. IsWritten l) found.new) }
    ensures one { OnOk result (All (λ m. number_of rule.now m ≡ number_of rule.now (moment_of_local cursor.old.at)) (moments_of found.new)) }
    ensures later { OnOk result (All (λ m. number_of rule.now (moment_of_local cursor.old.at) < number_of rule.now m) (found_from rule.now (moment_of_local start) (reading_by clock.now) (moment_of_local cursor.new.at))) }
{
    let number = period_of(rule, cursor.at);
    'gather: loop {
        let m = cursor.at;
        keep_if_there(clock, m, found)?;
        cursor.at = second_after(m);
        cursor.taken = false;
        if !stays(ready, rule, start, clock, number, cursor, end, steps) {
            return Ok(());
        }
    }
}

/// Gathers the same day by day, where a period has whole days: one moment of each day that passes is
/// taken from the rule, and the others stand at the times of such days.
pub fn gather_days<R: ReadyRule, L: Ledger>(
    ready: &R,
    rule: &Rule,
    start: Local,
    clock: &Clock,
    times: &[u32],
    cursor: &mut Cursor,
    found: &mut List<Local>,
    end: Local,
    steps: &mut Steps<L>,
) -> Result<(), NoMemory>
    requires ready { R.IsReadyFor ready.now rule.now (moment_of_local start) (reading_by clock.now).dated }
    requires start { IsWritten start }
    requires clock { IsClock clock.now }
    requires rule { IsUsable rule.now }
    requires coarse { is_fine rule.now.freq ≡ false }
    requires whole { rule.now.freq ≡ Hourly → ⊥ }
    requires times { times.now ≡ times_of_day rule.now (moment_of_local start) (reading_by clock.now).dated }
    requires cursor { IsAt rule.now (moment_of_local start) (reading_by clock.now).dated cursor.old }
    requires taken { cursor.old.taken ≡ true }
    requires empty { found.old ≡ [] }
    requires begun { number_of rule.now (moment_of_local cursor.old.at) ≤ last_period rule.now (moment_of_local end) }
    ensures cursor { IsAt rule.now (moment_of_local start) (reading_by clock.now).dated cursor.new }
    ensures steps { steps.new + left_to_take rule.now (moment_of_local start) (reading_by clock.now).dated (moment_of_local end) cursor.new ≤ steps.old + left_to_take rule.now (moment_of_local start) (reading_by clock.now).dated (moment_of_local end) cursor.old }
    ensures forward { OnOk result (moment_of_local cursor.old.at < moment_of_local cursor.new.at) }
    ensures found { OnOk result (moments_of found.new ≡ found_between rule.now (moment_of_local start) (reading_by clock.now) (moment_of_local cursor.old.at) (moment_of_local cursor.new.at)) }
    ensures written { OnOk result (All (λ l. IsWritten l) found.new) }
    ensures one { OnOk result (All (λ m. number_of rule.now m ≡ number_of rule.now (moment_of_local cursor.old.at)) (moments_of found.new)) }
    ensures later { OnOk result (All (λ m. number_of rule.now (moment_of_local cursor.old.at) < number_of rule.now m) (found_from rule.now (moment_of_local start) (reading_by clock.now) (moment_of_local cursor.new.at))) }
{
    let number = period_of(rule, cursor.at);
    'days: loop {
        let m = cursor.at;
        keep_day(rule, start, clock, times, m, found)?;
        cursor.at = next_midnight(m);
        cursor.taken = false;
        if !stays(ready, rule, start, clock, number, cursor, end, steps) {
            return Ok(());
        }
    }
}

/// Puts a moment behind the others, if it is picked.
fn push_if(is_picked: bool, m: Local, out: &mut List<Local>) -> Result<(), NoMemory>
    requires written { IsWritten m }
    ensures picked { OnOk result (moments_of out.new ≡ moments_of out.old ++ (if is_picked then moment_of_local m ∷ [] else [])) }
    ensures written { OnOk result (All (λ l. IsWritten l) out.old → All (λ l. IsWritten l) out.new) }
{
    if is_picked {
        out.push(m)?;
    }
    Ok(())
}

/// Puts those moments of a period behind the others that BYSETPOS picks.
fn pick(
    rule: &Rule,
    places: &SetPlaces,
    found: &List<Local>,
    out: &mut List<Local>,
) -> Result<(), NoMemory>
    requires places { AreSetPlaces rule.now.by_set_pos places.now }
    requires some { lists.is_empty rule.now.by_set_pos ≡ false }
    requires rises { AllPairs (λ x y. x < y) (moments_of found.now) }
    requires one { (n : ℕ) × All (λ m. number_of rule.now m ≡ n) (moments_of found.now) }
    requires written { All (λ l. IsWritten l) found.now }
    ensures picked { OnOk result (moments_of out.new ≡ moments_of out.old ++ at_places rule.now (moments_of found.now)) }
    ensures written { OnOk result (All (λ l. IsWritten l) out.old → All (λ l. IsWritten l) out.new) }
{
    let _ = rule;
    let size = found.len();
    for k in 0..size {
        let is_picked = places.names(k as u64 + 1, size as u64);
        let m = found[k];
        push_if(is_picked, m, out)?;
    }
    Ok(())
}

/// The picked moments of a period that are still to be given, and the moments behind it.
#[derive(Drop)]
pub struct Picks {
    pub cursor: Cursor,
    /// The seconds of each day that passes at which its moments stand, once they were needed.
    pub times: List<u32>,
    /// The places that BYSETPOS names.
    pub places: SetPlaces,
    /// What was found in the period.
    pub found: List<Local>,
    /// What was picked of it.
    pub moments: List<Local>,
    /// How many of these were given.
    pub given: usize,
    /// Whether some period may have one of the places was asked.
    pub asked: bool,
}

/// Gives the next of the moments that were picked.
pub fn give(picks: &mut Picks) -> Option<Local>
    requires given { picks.old.given ≤ length picks.old.moments }
    requires written { All (λ l. IsWritten l) picks.old.moments }
    ensures given { picks.new.given ≤ length picks.new.moments }
    ensures moments { picks.new.moments ≡ picks.old.moments }
    ensures times { picks.new.times ≡ picks.old.times }
    ensures places { picks.new.places ≡ picks.old.places }
    ensures cursor { picks.new.cursor ≡ picks.old.cursor }
    ensures written { IfSome result (λ m. IsWritten m) }
    ensures next { MatchOption result (drop picks.old.given (moments_of picks.old.moments) ≡ [])
        (λ m. drop picks.old.given (moments_of picks.old.moments) ≡ moment_of_local m ∷ drop picks.new.given (moments_of picks.new.moments)) }
{
    if picks.given == picks.moments.len() {
        return None;
    }
    let m = picks.moments[picks.given];
    picks.given += 1;
    Some(m)
}

/// Gathers what is found in the period of the moment at hand: day by day, where it has whole days.
fn gather_period<R: ReadyRule, L: Ledger>(
    ready: &R,
    rule: &Rule,
    start: Local,
    clock: &Clock,
    picks: &mut Picks,
    end: Local,
    steps: &mut Steps<L>,
) -> Result<(), NoMemory>
    requires ready { R.IsReadyFor ready.now rule.now (moment_of_local start) (reading_by clock.now).dated }
    requires start { IsWritten start }
    requires clock { IsClock clock.now }
    requires rule { IsUsable rule.now }
    requires coarse { is_fine rule.now.freq ≡ false }
    requires cursor { IsAt rule.now (moment_of_local start) (reading_by clock.now).dated picks.old.cursor }
    requires taken { picks.old.cursor.taken ≡ true }
    requires empty { picks.old.found ≡ [] }
    requires times { AreTimes rule.now (moment_of_local start) (reading_by clock.now).dated picks.old.times }
    requires begun { number_of rule.now (moment_of_local picks.old.cursor.at) ≤ last_period rule.now (moment_of_local end) }
    ensures cursor { IsAt rule.now (moment_of_local start) (reading_by clock.now).dated picks.new.cursor }
    ensures times { OnOk result (AreTimes rule.now (moment_of_local start) (reading_by clock.now).dated picks.new.times) }
    ensures steps { steps.new + left_to_take rule.now (moment_of_local start) (reading_by clock.now).dated (moment_of_local end) picks.new.cursor ≤ steps.old + left_to_take rule.now (moment_of_local start) (reading_by clock.now).dated (moment_of_local end) picks.old.cursor }
    ensures forward { OnOk result (moment_of_local picks.old.cursor.at < moment_of_local picks.new.cursor.at) }
    ensures found { OnOk result (moments_of picks.new.found ≡ found_between rule.now (moment_of_local start) (reading_by clock.now) (moment_of_local picks.old.cursor.at) (moment_of_local picks.new.cursor.at)) }
    ensures written { OnOk result (All (λ l. IsWritten l) picks.new.found) }
    ensures one { OnOk result (All (λ m. number_of rule.now m ≡ number_of rule.now (moment_of_local picks.old.cursor.at)) (moments_of picks.new.found)) }
    ensures later { OnOk result (All (λ m. number_of rule.now (moment_of_local picks.old.cursor.at) < number_of rule.now m) (found_from rule.now (moment_of_local start) (reading_by clock.now) (moment_of_local picks.new.cursor.at))) }
    ensures places { picks.new.places ≡ picks.old.places }
    ensures moments { picks.new.moments ≡ picks.old.moments }
    ensures given { picks.new.given ≡ picks.old.given }
{
    if rule.freq == Freq::Hourly {
        return gather(
            ready,
            rule,
            start,
            clock,
            &mut picks.cursor,
            &mut picks.found,
            end,
            steps,
        );
    }
    find_times(rule, start, is_dated(clock), &mut picks.times)?;
    gather_days(
        ready,
        rule,
        start,
        clock,
        picks.times.as_slice(),
        &mut picks.cursor,
        &mut picks.found,
        end,
        steps,
    )
}

/// Whether no period has so many moments, where a day that passes has so many. It is asked once.
fn none_has<R: ReadyRule>(
    ready: &R,
    rule: &Rule,
    start: Local,
    dated: bool,
    times: u64,
    least: u64,
    asked: &mut bool,
) -> bool
    requires ready { R.IsReadyFor ready.now rule.now (moment_of_local start) dated }
    requires start { IsWritten start }
    requires rule { IsUsable rule.now }
    requires coarse { is_fine rule.now.freq ≡ false }
    ensures { result ≡ true → (m : ℕ) → first_moment ≤ m → m < 86400 * end_day → days_of_period rule.now (moment_of_local start) m * times < least }
{
    if *asked {
        return false;
    }
    *asked = true;
    !ready.some_period_has(rule, start, dated, times, least)
}

/// Steps over the period of the moment at hand where it has none of the places, or over all periods
/// where none has one; says whether it did.
fn step_over<R: ReadyRule>(
    ready: &R,
    rule: &Rule,
    start: Local,
    clock: &Clock,
    times: &[u32],
    least: u64,
    asked: &mut bool,
    cursor: &mut Cursor,
) -> bool
    requires ready { R.IsReadyFor ready.now rule.now (moment_of_local start) (reading_by clock.now).dated }
    requires start { IsWritten start }
    requires rule { IsUsable rule.now }
    requires coarse { is_fine rule.now.freq ≡ false }
    requires long { (rule.now.freq ≡ Monthly) ⊎ (rule.now.freq ≡ Yearly) }
    requires some { lists.is_empty rule.now.by_set_pos ≡ false }
    requires times { times.now ≡ times_of_day rule.now (moment_of_local start) (reading_by clock.now).dated }
    requires least { NeedsPlaces rule.now.by_set_pos least }
    requires cursor { IsAt rule.now (moment_of_local start) (reading_by clock.now).dated cursor.old }
    requires taken { cursor.old.taken ≡ true }
    ensures cursor { IsAt rule.now (moment_of_local start) (reading_by clock.now).dated cursor.new }
    ensures steps { (end : ℕ) → left_to_take rule.now (moment_of_local start) (reading_by clock.now).dated end cursor.new ≤ left_to_take rule.now (moment_of_local start) (reading_by clock.now).dated end cursor.old }
    ensures stays { result ≡ false → cursor.new ≡ cursor.old }
    ensures forward { result ≡ true → moment_of_local cursor.old.at < moment_of_local cursor.new.at }
    ensures kept { result ≡ true → kept_from rule.now (moment_of_local start) (reading_by clock.now) (moment_of_local cursor.old.at)
        ≡ kept_from rule.now (moment_of_local start) (reading_by clock.now) (moment_of_local cursor.new.at) }
{
    let dated = is_dated(clock);
    let count = times.len() as u64;
    // A day that passes is at hand.
    if least <= count {
        return false;
    }
    if ready.period_has(rule, start, dated, cursor.at, count, least) {
        return false;
    }
    if none_has(ready, rule, start, dated, count, least, asked) {
        cursor.at = END;
        cursor.taken = false;
        return true;
    }
    cursor.at = period_end(rule, cursor.at);
    cursor.taken = false;
    true
}

/// Whether a period may have days enough that it pays to count them first.
fn is_long(rule: &Rule) -> bool
    ensures { result ≡ true → (rule.now.freq ≡ Monthly) ⊎ (rule.now.freq ≡ Yearly) }
{
    match rule.freq {
        Freq::Monthly | Freq::Yearly => true,
        _ => false,
    }
}

/// Steps over the period of the moment at hand where it is known to have none of the places; says
/// whether it did.
fn step_if_none<R: ReadyRule>(
    ready: &R,
    rule: &Rule,
    start: Local,
    clock: &Clock,
    picks: &mut Picks,
) -> Result<bool, NoMemory>
    requires ready { R.IsReadyFor ready.now rule.now (moment_of_local start) (reading_by clock.now).dated }
    requires start { IsWritten start }
    requires rule { IsUsable rule.now }
    requires coarse { is_fine rule.now.freq ≡ false }
    requires some { lists.is_empty rule.now.by_set_pos ≡ false }
    requires cursor { IsAt rule.now (moment_of_local start) (reading_by clock.now).dated picks.old.cursor }
    requires taken { picks.old.cursor.taken ≡ true }
    requires times { AreTimes rule.now (moment_of_local start) (reading_by clock.now).dated picks.old.times }
    requires places { AreSetPlaces rule.now.by_set_pos picks.old.places }
    ensures cursor { IsAt rule.now (moment_of_local start) (reading_by clock.now).dated picks.new.cursor }
    ensures times { OnOk result (AreTimes rule.now (moment_of_local start) (reading_by clock.now).dated picks.new.times) }
    ensures places { picks.new.places ≡ picks.old.places }
    ensures steps { (end : ℕ) → left_to_take rule.now (moment_of_local start) (reading_by clock.now).dated end picks.new.cursor ≤ left_to_take rule.now (moment_of_local start) (reading_by clock.now).dated end picks.old.cursor }
    ensures stays { IfOk result (λ over. over ≡ false → picks.new.cursor ≡ picks.old.cursor) }
    ensures forward { IfOk result (λ over. over ≡ true → moment_of_local picks.old.cursor.at < moment_of_local picks.new.cursor.at) }
    ensures kept { IfOk result (λ over. over ≡ true → kept_from rule.now (moment_of_local start) (reading_by clock.now) (moment_of_local picks.old.cursor.at)
        ≡ kept_from rule.now (moment_of_local start) (reading_by clock.now) (moment_of_local picks.new.cursor.at)) }
{
    if !is_long(rule) {
        return Ok(false);
    }
    find_times(rule, start, is_dated(clock), &mut picks.times)?;
    let over = step_over(
        ready,
        rule,
        start,
        clock,
        picks.times.as_slice(),
        picks.places.least,
        &mut picks.asked,
        &mut picks.cursor,
    );
    Ok(over)
}

/// Picks from the period of the moment at hand.
fn fill<R: ReadyRule, L: Ledger>(
    ready: &R,
    rule: &Rule,
    start: Local,
    clock: &Clock,
    picks: &mut Picks,
    end: Local,
    steps: &mut Steps<L>,
) -> Result<(), NoMemory>
    requires ready { R.IsReadyFor ready.now rule.now (moment_of_local start) (reading_by clock.now).dated }
    requires start { IsWritten start }
    requires clock { IsClock clock.now }
    requires rule { IsUsable rule.now }
    requires coarse { is_fine rule.now.freq ≡ false }
    requires some { lists.is_empty rule.now.by_set_pos ≡ false }
    requires cursor { IsAt rule.now (moment_of_local start) (reading_by clock.now).dated picks.old.cursor }
    requires taken { picks.old.cursor.taken ≡ true }
    requires times { AreTimes rule.now (moment_of_local start) (reading_by clock.now).dated picks.old.times }
    requires places { AreSetPlaces rule.now.by_set_pos picks.old.places }
    requires begun { number_of rule.now (moment_of_local picks.old.cursor.at) ≤ last_period rule.now (moment_of_local end) }
    ensures cursor { OnOk result (IsAt rule.now (moment_of_local start) (reading_by clock.now).dated picks.new.cursor) }
    ensures times { OnOk result (AreTimes rule.now (moment_of_local start) (reading_by clock.now).dated picks.new.times) }
    ensures places { OnOk result (AreSetPlaces rule.now.by_set_pos picks.new.places) }
    ensures steps { steps.new + left_to_take rule.now (moment_of_local start) (reading_by clock.now).dated (moment_of_local end) picks.new.cursor ≤ steps.old + left_to_take rule.now (moment_of_local start) (reading_by clock.now).dated (moment_of_local end) picks.old.cursor }
    ensures forward { OnOk result (moment_of_local picks.old.cursor.at < moment_of_local picks.new.cursor.at) }
    ensures given { OnOk result (picks.new.given ≡ 0) }
    ensures written { OnOk result (All (λ l. IsWritten l) picks.new.moments) }
    ensures kept { OnOk result (kept_from rule.now (moment_of_local start) (reading_by clock.now) (moment_of_local picks.old.cursor.at)
        ≡ moments_of picks.new.moments ++ kept_from rule.now (moment_of_local start) (reading_by clock.now) (moment_of_local picks.new.cursor.at)) }
{
    picks.found.truncate(0);
    gather_period(ready, rule, start, clock, picks, end, steps)?;
    picks.moments.truncate(0);
    picks.given = 0;
    pick(rule, &picks.places, &picks.found, &mut picks.moments)?;
    Ok(())
}

/// Picks from the period of the moment at hand, or goes on behind it where it is known to have none of
/// the places.
pub fn refill<R: ReadyRule, L: Ledger>(
    ready: &R,
    rule: &Rule,
    start: Local,
    clock: &Clock,
    picks: &mut Picks,
    end: Local,
    steps: &mut Steps<L>,
) -> Result<(), NoMemory>
    requires ready { R.IsReadyFor ready.now rule.now (moment_of_local start) (reading_by clock.now).dated }
    requires start { IsWritten start }
    requires clock { IsClock clock.now }
    requires rule { IsUsable rule.now }
    requires coarse { is_fine rule.now.freq ≡ false }
    requires some { lists.is_empty rule.now.by_set_pos ≡ false }
    requires cursor { IsAt rule.now (moment_of_local start) (reading_by clock.now).dated picks.old.cursor }
    requires taken { picks.old.cursor.taken ≡ true }
    requires times { AreTimes rule.now (moment_of_local start) (reading_by clock.now).dated picks.old.times }
    requires places { AreSetPlaces rule.now.by_set_pos picks.old.places }
    requires begun { number_of rule.now (moment_of_local picks.old.cursor.at) ≤ last_period rule.now (moment_of_local end) }
    ensures cursor { OnOk result (IsAt rule.now (moment_of_local start) (reading_by clock.now).dated picks.new.cursor) }
    ensures times { OnOk result (AreTimes rule.now (moment_of_local start) (reading_by clock.now).dated picks.new.times) }
    ensures places { OnOk result (AreSetPlaces rule.now.by_set_pos picks.new.places) }
    ensures steps { steps.new + left_to_take rule.now (moment_of_local start) (reading_by clock.now).dated (moment_of_local end) picks.new.cursor ≤ steps.old + left_to_take rule.now (moment_of_local start) (reading_by clock.now).dated (moment_of_local end) picks.old.cursor }
    ensures forward { OnOk result (moment_of_local picks.old.cursor.at < moment_of_local picks.new.cursor.at) }
    ensures given { OnOk result (picks.new.given ≡ 0) }
    ensures written { OnOk result (All (λ l. IsWritten l) picks.new.moments) }
    ensures kept { OnOk result (kept_from rule.now (moment_of_local start) (reading_by clock.now) (moment_of_local picks.old.cursor.at)
        ≡ moments_of picks.new.moments ++ kept_from rule.now (moment_of_local start) (reading_by clock.now) (moment_of_local picks.new.cursor.at)) }
{
    let over = step_if_none(ready, rule, start, clock, picks)?;
    if over {
        picks.moments.truncate(0);
        picks.given = 0;
        return Ok(());
    }
    fill(ready, rule, start, clock, picks, end, steps)
}
