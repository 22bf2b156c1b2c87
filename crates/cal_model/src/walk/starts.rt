//! The starts that a rule gives in a range.
ghost use Rattle.std.specs.Prelude.{◌≡◌, ℕ, ◌+◌, ◌*◌, ◌≤◌, false, List, ◌++◌, ◌∷◌, count_by, OnOk};
ghost use Rattle.cal_model.specs.Recurrence.NextPassing.{end_day, is_fine};
ghost use Rattle.cal_model.specs.Recurrence.RuleBounds.{IsWritten, IsUsable};
ghost use Rattle.cal_model.specs.Values.LocalTimes.{moment_of_local};
ghost use Rattle.cal_model.specs.Recurrence.RecurrenceSet.{every_moment};
ghost use Rattle.cal_model.specs.Walks.Budgets.{last_period, passes_by};
ghost use Rattle.cal_model.specs.Walks.Clocks.{reading_by, IsClock};
ghost use Rattle.cal_model.specs.Walks.KeptMoments.{starts_by, starts_between};

use crate::next_passing::ReadyRule;
use crate::rule::Rule;
use crate::walk::clock::Clock;
use crate::walk::rule_walk::{begin_walk, next_moment};
use cal_base::{List, NoMemory, Steps};
use cal_moment::Local;
use std::alloc::Global;
use std::sync::ledger::Ledger;

/// Puts the start at a moment behind the others.
fn add_start(clock: &Clock, m: Local, out: &mut List<i64>) -> Result<(), NoMemory>
    requires clock { IsClock clock.now }
    requires m { IsWritten m }
    ensures { OnOk result ((rest : List ℕ) → out.new ++ starts_by (reading_by clock.now) rest ≡ out.old ++ starts_by (reading_by clock.now) (moment_of_local m ∷ rest)) }
{
    out.push(clock.instant(m))?;
    Ok(())
}

/// Puts the later starts of a rule whose moments lie from `low` up to `high` behind those in `out`:
/// their instants, or where the start is a DATE or names no zone their digits.
pub fn rule_starts<R: ReadyRule, L: Ledger>(
    alloc: Global,
    ready: &R,
    rule: &Rule,
    start: Local,
    clock: &Clock,
    low: Local,
    high: Local,
    out: &mut List<i64>,
    steps: &mut Steps<L>,
) -> Result<(), NoMemory>
    requires ready { R.IsReadyFor ready.now rule.now (moment_of_local start) (reading_by clock.now).dated }
    requires start { IsWritten start }
    requires low { IsWritten low }
    requires high { IsWritten high }
    requires low_before_end { moment_of_local low ≤ 86_400 * end_day }
    requires clock { IsClock clock.now }
    requires rule { IsUsable rule.now }
    requires coarse { is_fine rule.now.freq ≡ false }
    ensures steps { steps.new ≤ steps.old + (1 + count_by (passes_by rule.now (moment_of_local start) (reading_by clock.now).dated (last_period rule.now (moment_of_local high))) every_moment) }
    ensures starts { OnOk result (out.new ≡ out.old ++ starts_between rule.now (moment_of_local start) (reading_by clock.now) (moment_of_local low) (moment_of_local high)) }
{
    let mut walk = begin_walk(alloc, rule, start, low);
    'sweep: loop {
        let Some(m) = next_moment(ready, rule, start, clock, low, high, &mut walk, steps)? else {
            return Ok(());
        };
        add_start(clock, m, out)?;
    }
}
