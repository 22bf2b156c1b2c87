//! What finds the moments of a rule.

ghost use Rattle.std.specs.Prelude.{◌≡◌, ℕ, Bool, false, ◌*◌, ◌<◌, ◌≤◌, IfSome, IfNone};
ghost use Rattle.cal_model.specs.declared.rule.Rule.{Rule as RuleSpec};
ghost use Rattle.cal_model.specs.Values.LocalTimes.{moment_of_local};
ghost use Rattle.cal_model.specs.Recurrence.NextPassing.{end_day, is_fine, NonePasses, IsNextPassing};
ghost use Rattle.cal_model.specs.Recurrence.RecurrenceSet.{first_moment};
ghost use Rattle.cal_model.specs.Recurrence.RuleBounds.{IsWritten, IsUsable};
ghost use Rattle.cal_model.specs.Walks.Places.{days_of_period};

use crate::rule::Rule;
use cal_moment::Local;

/// What a rule and a start are made into once, so that to find a moment costs the same however long
/// the lists of the rule are. It keeps nothing of the rule but what it was made into.
pub trait ReadyRule {
    /// It was made of this rule, the moment of this start, and whether that is a DATE.
    ghost IsReadyFor: { Self → RuleSpec → ℕ → Bool → Type 0 };

    /// The least local moment at or after `from`, and at or before the last second of 2101, that
    /// passes the rule with this start; `None` exactly where there is none. Where `dated`, the start
    /// is a DATE. No zone takes part, nor COUNT, UNTIL or BYSETPOS. Takes no memory.
    fn next_passing(&self, rule: &Rule, start: Local, dated: bool, from: Local) -> Option<Local>
        requires ready { IsReadyFor self.now rule.now (moment_of_local start) dated }
        requires start { IsWritten start }
        requires from { IsWritten from }
        requires rule { IsUsable rule.now }
        requires coarse { is_fine rule.now.freq ≡ false }
        ensures written { IfSome result (λ m. IsWritten m) }
        ensures some { IfSome result (λ m. IsNextPassing rule.now (moment_of_local start) dated (moment_of_local from) (moment_of_local m)) }
        ensures none { IfNone result (NonePasses rule.now (moment_of_local start) dated (moment_of_local from) (86400 * end_day)) };

    /// Whether the period of a moment may have so many moments, `least`, where a day that passes has
    /// `times` of them; `false` only where it has fewer. Where that takes long to tell, `true` is an
    /// answer. Takes no memory.
    fn period_has(
        &self,
        rule: &Rule,
        start: Local,
        dated: bool,
        m: Local,
        times: u64,
        least: u64,
    ) -> bool
        requires ready { IsReadyFor self.now rule.now (moment_of_local start) dated }
        requires start { IsWritten start }
        requires rule { IsUsable rule.now }
        requires coarse { is_fine rule.now.freq ≡ false }
        requires m { IsWritten m }
        requires before_end { moment_of_local m < 86400 * end_day }
        ensures { result ≡ false → days_of_period rule.now (moment_of_local start) (moment_of_local m) * times < least };

    /// Whether some period may; `false` only where each has fewer. It looks at a few years that stand for
    /// all, or answers `true`. Takes no memory.
    fn some_period_has(
        &self,
        rule: &Rule,
        start: Local,
        dated: bool,
        times: u64,
        least: u64,
    ) -> bool
        requires ready { IsReadyFor self.now rule.now (moment_of_local start) dated }
        requires start { IsWritten start }
        requires rule { IsUsable rule.now }
        requires coarse { is_fine rule.now.freq ≡ false }
        ensures { result ≡ false → (m : ℕ) → first_moment ≤ m → m < 86400 * end_day → days_of_period rule.now (moment_of_local start) m * times < least };
}

/// A way to find the moments that pass a rule, one after the other (RFC 5545, 3.3.10): the rule is made
/// ready once for each start, and then asked.
pub trait Rules {
    type Ready: ReadyRule + Drop;

    /// Makes a rule ready with a start; where `dated`, that is a DATE. Takes no memory.
    fn ready(&self, rule: &Rule, start: Local, dated: bool) -> Self::Ready
        requires start { IsWritten start }
        requires rule { IsUsable rule.now }
        requires coarse { is_fine rule.now.freq ≡ false }
        ensures { Self.Ready.IsReadyFor result rule.now (moment_of_local start) dated };
}
