//! The moments of a rule's set in order, with BYSETPOS or without (RFC 5545, 3.3.10).
ghost use Rattle.std.specs.Prelude.{◌≡◌, ℕ, ◌+◌, ◌*◌, ◌<◌, ◌≤◌, true, false, [], ◌∷◌, OnOk, IfOk, IfSome, All, MatchOption};
ghost use Rattle.cal_model.specs.Recurrence.NextPassing.{end_day, is_fine};
ghost use Rattle.cal_model.specs.Recurrence.RuleBounds.{IsWritten, IsUsable};
ghost use Rattle.cal_model.specs.Values.LocalTimes.{moment_of_local};
ghost use Rattle.cal_model.specs.Words.Lists.{is_empty};
ghost use Rattle.cal_model.specs.Walks.Budgets.{left_to_take};
ghost use Rattle.cal_model.specs.Walks.Clocks.{reading_by, IsClock};
ghost use Rattle.cal_model.specs.Walks.PickedRest.{IsPicks, rest_of};

use crate::next_passing::ReadyRule;
use crate::rule::Rule;
use crate::walk::clock::Clock;
use crate::walk::cursor::{is_before, is_past, next_plain, peek};
use crate::walk::picks::{Picks, give, refill};
use cal_base::{NoMemory, Steps};
use cal_moment::Local;
use std::sync::ledger::Ledger;

/// The next moment that BYSETPOS picks, if its period has begun before `end`.
fn next_picked<R: ReadyRule, L: Ledger>(
    ready: &R,
    rule: &Rule,
    start: Local,
    clock: &Clock,
    picks: &mut Picks,
    end: Local,
    steps: &mut Steps<L>,
) -> Result<Option<Local>, NoMemory>
    requires ready { R.IsReadyFor ready.now rule.now (moment_of_local start) (reading_by clock.now).dated }
    requires start { IsWritten start }
    requires end { IsWritten end }
    requires clock { IsClock clock.now }
    requires rule { IsUsable rule.now }
    requires coarse { is_fine rule.now.freq ≡ false }
    requires some { is_empty rule.now.by_set_pos ≡ false }
    requires picks { IsPicks rule.now (moment_of_local start) (reading_by clock.now).dated picks.old }
    ensures picks { OnOk result (IsPicks rule.now (moment_of_local start) (reading_by clock.now).dated picks.new) }
    ensures steps { steps.new + left_to_take rule.now (moment_of_local start) (reading_by clock.now).dated (moment_of_local end) picks.new.cursor ≤ steps.old + left_to_take rule.now (moment_of_local start) (reading_by clock.now).dated (moment_of_local end) picks.old.cursor }
    ensures written { IfOk result (λ r. IfSome r (λ m. IsWritten m)) }
    ensures next { IfOk result (λ r. MatchOption r
        (All (λ m. moment_of_local end ≤ m) (rest_of rule.now (moment_of_local start) (reading_by clock.now) picks.old))
        (λ m. rest_of rule.now (moment_of_local start) (reading_by clock.now) picks.old ≡ moment_of_local m ∷ rest_of rule.now (moment_of_local start) (reading_by clock.now) picks.new)) }
{
    'next: loop {
        if let Some(m) = give(picks) {
            return Ok(Some(m));
        }
        if is_past(&picks.cursor, end) {
            return Ok(None);
        }
        let Some(m) = peek(ready, rule, start, clock, &mut picks.cursor, end, steps) else {
            return Ok(None);
        };
        if !is_before(m, end) {
            return Ok(None);
        }
        refill(ready, rule, start, clock, picks, end, steps)?;
    }
}

/// The next moment of a rule's set, UNTIL and COUNT aside, if it or its period begins before `end`.
#[tactic(auto, using(crate::proofs::Walks::BeginLemmas::plain_rest))]
pub fn next_kept<R: ReadyRule, L: Ledger>(
    ready: &R,
    rule: &Rule,
    start: Local,
    clock: &Clock,
    picks: &mut Picks,
    end: Local,
    steps: &mut Steps<L>,
) -> Result<Option<Local>, NoMemory>
    requires ready { R.IsReadyFor ready.now rule.now (moment_of_local start) (reading_by clock.now).dated }
    requires start { IsWritten start }
    requires end { IsWritten end }
    requires clock { IsClock clock.now }
    requires rule { IsUsable rule.now }
    requires coarse { is_fine rule.now.freq ≡ false }
    requires picks { IsPicks rule.now (moment_of_local start) (reading_by clock.now).dated picks.old }
    ensures picks { OnOk result (IsPicks rule.now (moment_of_local start) (reading_by clock.now).dated picks.new) }
    ensures steps { steps.new + left_to_take rule.now (moment_of_local start) (reading_by clock.now).dated (moment_of_local end) picks.new.cursor ≤ steps.old + left_to_take rule.now (moment_of_local start) (reading_by clock.now).dated (moment_of_local end) picks.old.cursor }
    ensures written { IfOk result (λ r. IfSome r (λ m. IsWritten m)) }
    ensures next { IfOk result (λ r. MatchOption r
        (All (λ m. moment_of_local end ≤ m) (rest_of rule.now (moment_of_local start) (reading_by clock.now) picks.old))
        (λ m. rest_of rule.now (moment_of_local start) (reading_by clock.now) picks.old ≡ moment_of_local m ∷ rest_of rule.now (moment_of_local start) (reading_by clock.now) picks.new)) }
{
    if !rule.by_set_pos.is_empty() {
        return next_picked(ready, rule, start, clock, picks, end, steps);
    }
    let next = next_plain(ready, rule, start, clock, &mut picks.cursor, end, steps);
    Ok(next)
}
