//! The moments of a rule, taken one after the other.
ghost use Rattle.std.specs.Prelude.{◌≡◌, ℕ, ◌+◌, ◌-◌, ◌*◌, ◌<◌, ◌≤◌, true, false, nat_lt, IfSome, IfNone, [], ◌∷◌, MatchOption, All};
ghost use Rattle.cal_model.specs.Recurrence.NextPassing.{NonePasses, end_day, is_fine};
ghost use Rattle.cal_model.specs.Recurrence.RuleBounds.{IsWritten, IsUsable};
ghost use Rattle.cal_model.specs.Values.LocalTimes.{moment_of_local};
ghost use Rattle.cal_model.specs.Words.Lists.{is_empty};
ghost use Rattle.cal_model.specs.Recurrence.Passing.{passes};
ghost use Rattle.cal_model.specs.Walks.Budgets.{last_period, left_to_take};
ghost use Rattle.cal_model.specs.Walks.Clocks.{reading_by, IsClock};
ghost use Rattle.cal_model.specs.Walks.Cursors.{IsAt};
ghost use Rattle.cal_model.specs.Walks.KeptMoments.{found_from, kept_from, number_of};

use crate::next_passing::ReadyRule;
use crate::rule::Rule;
use crate::walk::clock::Clock;
use cal_base::Steps;
use cal_moment::Local;
use std::sync::ledger::Ledger;

/// The end of 2101, where rules end.
pub const END: Local = Local {
    day: 48_212,
    second: 0,
};

/// A place among the moments of a rule.
#[derive(Clone, Copy)]
pub struct Cursor {
    /// What was given lies before it.
    pub at: Local,
    /// The moment at this place passes and was taken from the rule, but not yet given.
    pub taken: bool,
}

/// The second after a moment.
pub fn second_after(m: Local) -> Local
    requires written { IsWritten m }
    requires before_end { moment_of_local m < 86_400 * end_day }
    ensures written { IsWritten result }
    ensures value { moment_of_local result ≡ moment_of_local m + 1 }
{
    if m.second < 86_399 {
        Local {
            day: m.day,
            second: m.second + 1,
        }
    } else {
        Local {
            day: m.day + 1,
            second: 0,
        }
    }
}

/// Whether a moment lies before another.
pub fn is_before(a: Local, b: Local) -> bool
    requires a { IsWritten a }
    requires b { IsWritten b }
    ensures { result ≡ nat_lt (moment_of_local a) (moment_of_local b) }
{
    a.day < b.day || (a.day == b.day && a.second < b.second)
}

/// Whether a clock is that of a DATE.
pub fn is_dated(clock: &Clock) -> bool
    ensures { result ≡ (reading_by clock.now).dated }
{
    match clock {
        Clock::Date => true,
        _ => false,
    }
}

/// Whether a cursor that has no moment at hand lies at or after an end.
pub fn is_past(cursor: &Cursor, end: Local) -> bool
    requires cursor { IsWritten cursor.now.at }
    requires end { IsWritten end }
    ensures past { result ≡ true → moment_of_local end ≤ moment_of_local cursor.now.at }
    ensures before { result ≡ false → cursor.now.taken ≡ false → moment_of_local cursor.now.at < moment_of_local end }
{
    !cursor.taken && !is_before(cursor.at, end)
}

/// The next moment that passes, which stays the next one: one step where it is taken from the rule.
#[tactic(auto, using(crate::proofs::Walks::KeptLemmas::found_from_failing))]
pub fn peek<R: ReadyRule, L: Ledger>(
    ready: &R,
    rule: &Rule,
    start: Local,
    clock: &Clock,
    cursor: &mut Cursor,
    end: Local,
    steps: &mut Steps<L>,
) -> Option<Local>
    requires ready { R.IsReadyFor ready.now rule.now (moment_of_local start) (reading_by clock.now).dated }
    requires start { IsWritten start }
    requires rule { IsUsable rule.now }
    requires coarse { is_fine rule.now.freq ≡ false }
    requires cursor { IsAt rule.now (moment_of_local start) (reading_by clock.now).dated cursor.old }
    requires begun { cursor.old.taken ≡ false → number_of rule.now (moment_of_local cursor.old.at - 1) ≤ last_period rule.now (moment_of_local end) }
    ensures cursor { IsAt rule.now (moment_of_local start) (reading_by clock.now).dated cursor.new }
    ensures found { found_from rule.now (moment_of_local start) (reading_by clock.now) (moment_of_local cursor.new.at) ≡ found_from rule.now (moment_of_local start) (reading_by clock.now) (moment_of_local cursor.old.at) }
    ensures passed { NonePasses rule.now (moment_of_local start) (reading_by clock.now).dated (moment_of_local cursor.old.at) (moment_of_local cursor.new.at) }
    ensures forward { moment_of_local cursor.old.at ≤ moment_of_local cursor.new.at }
    ensures steps { steps.new + left_to_take rule.now (moment_of_local start) (reading_by clock.now).dated (moment_of_local end) cursor.new ≤ steps.old + left_to_take rule.now (moment_of_local start) (reading_by clock.now).dated (moment_of_local end) cursor.old }
    ensures some { IfSome result (λ m. (m ≡ cursor.new.at) × (cursor.new.taken ≡ true)) }
    ensures none { IfNone result (moment_of_local cursor.new.at ≡ 86_400 * end_day) }
{
    let _ = end;
    if cursor.taken {
        return Some(cursor.at);
    }
    match ready.next_passing(rule, start, is_dated(clock), cursor.at) {
        Some(m) => {
            steps.tick();
            cursor.at = m;
            cursor.taken = true;
            Some(m)
        }
        None => {
            cursor.at = END;
            None
        }
    }
}

/// The next moment of a rule without BYSETPOS, if it lies before `end`.
#[tactic(auto, using(crate::proofs::Walks::KeptLemmas::found_from_passing))]
pub fn next_plain<R: ReadyRule, L: Ledger>(
    ready: &R,
    rule: &Rule,
    start: Local,
    clock: &Clock,
    cursor: &mut Cursor,
    end: Local,
    steps: &mut Steps<L>,
) -> Option<Local>
    requires ready { R.IsReadyFor ready.now rule.now (moment_of_local start) (reading_by clock.now).dated }
    requires start { IsWritten start }
    requires end { IsWritten end }
    requires clock { IsClock clock.now }
    requires rule { IsUsable rule.now }
    requires coarse { is_fine rule.now.freq ≡ false }
    requires cursor { IsAt rule.now (moment_of_local start) (reading_by clock.now).dated cursor.old }
    ensures cursor { IsAt rule.now (moment_of_local start) (reading_by clock.now).dated cursor.new }
    ensures steps { steps.new + left_to_take rule.now (moment_of_local start) (reading_by clock.now).dated (moment_of_local end) cursor.new ≤ steps.old + left_to_take rule.now (moment_of_local start) (reading_by clock.now).dated (moment_of_local end) cursor.old }
    ensures written { IfSome result (λ m. IsWritten m) }
    ensures next { MatchOption result
        (All (λ m. moment_of_local end ≤ m) (found_from rule.now (moment_of_local start) (reading_by clock.now) (moment_of_local cursor.old.at)))
        (λ m. found_from rule.now (moment_of_local start) (reading_by clock.now) (moment_of_local cursor.old.at)
        ≡ moment_of_local m ∷ found_from rule.now (moment_of_local start) (reading_by clock.now) (moment_of_local cursor.new.at)) }
{
    'look: loop {
        if is_past(cursor, end) {
            return None;
        }
        let Some(m) = peek(ready, rule, start, clock, cursor, end, steps) else {
            return None;
        };
        if !is_before(m, end) {
            return None;
        }
        cursor.at = second_after(m);
        cursor.taken = false;
        if clock.exists(m) {
            return Some(m);
        }
    }
}
