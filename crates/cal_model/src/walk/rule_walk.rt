//! The later moments of a rule's set that lie in a range, one after the other (RFC 5545, 3.8.5.3).
ghost use Rattle.std.specs.Prelude.{◌≡◌, ◌⊎◌, ℕ, None, ◌+◌, ◌*◌, ◌<◌, ◌≤◌, Bool, true, false, ◌++◌, Some, List, [], filter, nat_le, nat_lt, ◌&&◌, if◌then◌else◌, count_by, OnOk, IfOk, IfSome, MatchOption, ◌∷◌};
ghost use Rattle.cal_model.specs.Recurrence.NextPassing.{end_day, is_fine};
ghost use Rattle.cal_model.specs.Recurrence.RuleBounds.{IsWritten, IsUsable, IsWrittenUntil};
ghost use Rattle.cal_model.specs.Values.LocalTimes.{moment_of_local};
ghost use Rattle.cal_model.specs.Words.Lists.{is_empty};
ghost use Rattle.cal_model.specs.Recurrence.RecurrenceSet.{Reading, every_moment, first_moment, last_written, later_moments};
ghost use Rattle.cal_model.specs.Walks.Budgets.{last_period, left_to_take, passes_by};
ghost use Rattle.cal_model.specs.Walks.Clocks.{reading_by, IsClock};
ghost use Rattle.cal_model.specs.Walks.KeptMoments.{IsPeriodFirst, kept_from, wanted, one_less};
ghost use Rattle.cal_model.specs.Walks.PickedRest.{IsPicks, still_given};

use crate::next_passing::ReadyRule;
use crate::rule::Rule;
use crate::walk::clock::Clock;
use crate::walk::cursor::{Cursor, is_before, second_after};
use crate::walk::kept::next_kept;
use crate::walk::period::period_first;
use crate::walk::picks::Picks;
use crate::walk::places::picks_nothing;
use crate::walk::set_places::set_places_of;
use crate::walk::until::until_passes;
use cal_base::{List, NoMemory, Steps};
use cal_moment::Local;
use std::alloc::Global;
use std::sync::ledger::Ledger;

/// 1 January of the year 1, the first moment of all rules.
pub const FIRST: Local = Local {
    day: -719_162,
    second: 0,
};

/// 1 January of the year 2: the week of any later moment begins after `FIRST`.
const SECOND_YEAR: Local = Local {
    day: -718_797,
    second: 0,
};

/// The last written value of a start, the end of 2100.
pub const LAST_WRITTEN: Local = Local {
    day: 47_846,
    second: 86_399,
};

/// The first second after the last moment of all rules, 1 January of 2102.
pub const END: Local = Local {
    day: 48_212,
    second: 0,
};

/// One less, where some are said.
pub fn less_one(left: Option<u32>) -> Option<u32>
    ensures { result ≡ one_less left }
{
    match left {
        None => None,
        Some(n) => Some(n.saturating_sub(1)),
    }
}

/// Whether a moment is a written value of a start.
fn is_by_last(m: Local) -> bool
    requires m { IsWritten m }
    ensures { result ≡ nat_le (moment_of_local m) last_written }
{
    !is_before(LAST_WRITTEN, m)
}

/// Whether a moment lies from `low` up to `high`, `high` left out.
fn lies_between(m: Local, low: Local, high: Local) -> bool
    requires m { IsWritten m }
    requires low { IsWritten low }
    requires high { IsWritten high }
    ensures { result ≡ (nat_le (moment_of_local low) (moment_of_local m) && nat_lt (moment_of_local m) (moment_of_local high)) }
{
    !is_before(m, low) && is_before(m, high)
}

/// Whether it lies there and can be written.
fn is_in_range(m: Local, low: Local, high: Local) -> bool
    requires m { IsWritten m }
    requires low { IsWritten low }
    requires high { IsWritten high }
    ensures { result ≡ (nat_le (moment_of_local m) last_written && (nat_le (moment_of_local low) (moment_of_local m) && nat_lt (moment_of_local m) (moment_of_local high))) }
{
    is_by_last(m) && lies_between(m, low, high)
}

/// Takes the next kept moment of a rule into account: it may use up one of those that COUNT allows.
/// Says whether it is given.
fn is_given(
    rule: &Rule,
    start: Local,
    clock: &Clock,
    low: Local,
    high: Local,
    m: Local,
    left: &mut Option<u32>,
) -> bool
    requires start { IsWritten start }
    requires low { IsWritten low }
    requires high { IsWritten high }
    requires m { IsWritten m }
    requires clock { IsClock clock.now }
    requires until { IsWrittenUntil rule.now.until }
    requires some_left { left.old ≡ Some 0 → ⊥ }
    ensures { (rest : List ℕ) →
        wanted rule.now (moment_of_local start) (reading_by clock.now) (moment_of_local low) (moment_of_local high) left.old (moment_of_local m ∷ rest)
        ≡ (if result then moment_of_local m ∷ wanted rule.now (moment_of_local start) (reading_by clock.now) (moment_of_local low) (moment_of_local high) left.new rest
        else wanted rule.now (moment_of_local start) (reading_by clock.now) (moment_of_local low) (moment_of_local high) left.new rest) }
{
    if !is_before(start, m) {
        return false;
    }
    if !until_passes(clock, rule.until, m) {
        return false;
    }
    *left = less_one(*left);
    is_in_range(m, low, high)
}

/// The first moment that counts: right after the start, or without COUNT the first of the range, if
/// that comes later.
fn first_counted(rule: &Rule, start: Local, low: Local) -> Local
    requires start { IsWritten start }
    requires low { IsWritten low }
    requires low_before_end { moment_of_local low ≤ 86_400 * end_day }
    ensures written { IsWritten result }
    ensures within { moment_of_local result ≤ 86_400 * end_day }
    ensures which { (moment_of_local result ≤ moment_of_local start + 1) ⊎ ((moment_of_local result ≡ moment_of_local low) × (one_less rule.now.count ≡ None)) }
{
    if !is_before(start, END) {
        return END;
    }
    let after = second_after(start);
    if rule.count.is_some() {
        return after;
    }
    if is_before(after, low) { low } else { after }
}

/// A moment at or before another on both sides of which no period lies, or the first moment of all.
fn period_begin(rule: &Rule, m: Local) -> Local
    requires written { IsWritten m }
    requires rule { IsUsable rule.now }
    requires coarse { is_fine rule.now.freq ≡ false }
    ensures written { IsWritten result }
    ensures before { moment_of_local result ≤ moment_of_local m }
    ensures first { (moment_of_local result ≡ first_moment) ⊎ IsPeriodFirst rule.now (moment_of_local result) }
{
    if is_before(m, SECOND_YEAR) {
        return FIRST;
    }
    period_first(rule, m)
}

/// Where the walk over a rule's moments begins: at the first moment that counts, or with BYSETPOS at
/// or before the first of its period. Where no period has one of its places, behind all moments.
fn begin(rule: &Rule, start: Local, low: Local) -> Local
    requires start { IsWritten start }
    requires low { IsWritten low }
    requires low_before_end { moment_of_local low ≤ 86_400 * end_day }
    requires rule { IsUsable rule.now }
    requires coarse { is_fine rule.now.freq ≡ false }
    ensures written { IsWritten result }
    ensures within { moment_of_local result ≤ 86_400 * end_day }
    ensures same { (reading : Reading) (high : ℕ) →
        wanted rule.now (moment_of_local start) reading (moment_of_local low) high (one_less rule.now.count) (kept_from rule.now (moment_of_local start) reading first_moment)
        ≡ wanted rule.now (moment_of_local start) reading (moment_of_local low) high (one_less rule.now.count) (kept_from rule.now (moment_of_local start) reading (moment_of_local result)) }
{
    if picks_nothing(rule) {
        return END;
    }
    let from = first_counted(rule, start, low);
    if rule.by_set_pos.is_empty() {
        return from;
    }
    period_begin(rule, from)
}

/// A walk through the later moments of a rule's set.
#[derive(Drop)]
pub struct RuleWalk {
    /// What BYSETPOS has picked and the place behind it.
    pub picks: Picks,
    /// How many moments COUNT still allows.
    pub left: Option<u32>,
}

/// A walk that begins near `low`: at the first moment that can lie in a range from `low` on, or with
/// COUNT right after the start, and with BYSETPOS at the first of a period at or before that. Takes
/// no memory.
pub fn begin_walk(alloc: Global, rule: &Rule, start: Local, low: Local) -> RuleWalk
    requires start { IsWritten start }
    requires low { IsWritten low }
    requires low_before_end { moment_of_local low ≤ 86_400 * end_day }
    requires rule { IsUsable rule.now }
    requires coarse { is_fine rule.now.freq ≡ false }
    ensures walk { (dated : Bool) → IsPicks rule.now (moment_of_local start) dated result.picks }
    ensures steps { (dated : Bool) (high : ℕ) →
        left_to_take rule.now (moment_of_local start) dated high result.picks.cursor ≤ 1 + count_by (passes_by rule.now (moment_of_local start) dated (last_period rule.now high)) every_moment }
    ensures whole { (reading : Reading) (high : ℕ) →
        still_given rule.now (moment_of_local start) reading (moment_of_local low) high result
        ≡ filter (λ m. nat_le (moment_of_local low) m && nat_lt m high) (later_moments rule.now (moment_of_local start) reading every_moment) }
{
    RuleWalk {
        picks: Picks {
            cursor: Cursor {
                at: begin(rule, start, low),
                taken: false,
            },
            times: List::new(alloc),
            places: set_places_of(&rule.by_set_pos),
            found: List::new(alloc),
            moments: List::new(alloc),
            given: 0,
            asked: false,
        },
        left: less_one(rule.count),
    }
}

/// The next of the later moments that lie from `low` up to `high`, `high` left out; `None` exactly
/// where there is none. No moment that passes is taken from the rule twice, and no period that
/// begins at or after `high` is entered.
pub fn next_moment<R: ReadyRule, L: Ledger>(
    ready: &R,
    rule: &Rule,
    start: Local,
    clock: &Clock,
    low: Local,
    high: Local,
    walk: &mut RuleWalk,
    steps: &mut Steps<L>,
) -> Result<Option<Local>, NoMemory>
    requires ready { R.IsReadyFor ready.now rule.now (moment_of_local start) (reading_by clock.now).dated }
    requires start { IsWritten start }
    requires low { IsWritten low }
    requires high { IsWritten high }
    requires clock { IsClock clock.now }
    requires rule { IsUsable rule.now }
    requires coarse { is_fine rule.now.freq ≡ false }
    requires walk { IsPicks rule.now (moment_of_local start) (reading_by clock.now).dated walk.old.picks }
    ensures walk { OnOk result (IsPicks rule.now (moment_of_local start) (reading_by clock.now).dated walk.new.picks) }
    ensures steps { steps.new + left_to_take rule.now (moment_of_local start) (reading_by clock.now).dated (moment_of_local high) walk.new.picks.cursor ≤ steps.old + left_to_take rule.now (moment_of_local start) (reading_by clock.now).dated (moment_of_local high) walk.old.picks.cursor }
    ensures written { IfOk result (λ r. IfSome r (λ m. IsWritten m)) }
    ensures next { IfOk result (λ r. MatchOption r
        (still_given rule.now (moment_of_local start) (reading_by clock.now) (moment_of_local low) (moment_of_local high) walk.old ≡ [])
        (λ m. still_given rule.now (moment_of_local start) (reading_by clock.now) (moment_of_local low) (moment_of_local high) walk.old
        ≡ moment_of_local m ∷ still_given rule.now (moment_of_local start) (reading_by clock.now) (moment_of_local low) (moment_of_local high) walk.new)) }
{
    'next: loop {
        if walk.left == Some(0) {
            return Ok(None);
        }
        let Some(m) = next_kept(ready, rule, start, clock, &mut walk.picks, high, steps)? else {
            return Ok(None);
        };
        if is_given(rule, start, clock, low, high, m, &mut walk.left) {
            return Ok(Some(m));
        }
    }
}
