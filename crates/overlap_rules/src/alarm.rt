//! Alarms against a range (RFC 4791, 9.9; RFC 5545, 3.8.6). Whether some of the times at which an
//! alarm goes off lies in the range is told by division: an alarm may repeat 999,999,999 times.

ghost use Rattle.std.specs.Prelude.{◌≡◌, ℕ, ◌+◌, ◌-◌, ◌*◌, ◌<◌, ◌≤◌, IsTrue, IfSome, ℤ, pos, neg_ℤ, ◌+ℤ◌, ◌*ℤ◌, ◌≤ℤ◌, ◌<ℤ◌, option_map, Some};
ghost use Rattle.cal_moment.specs.Calendar.{IsBetween};
ghost use Rattle.cal_model.specs.Ranges.Overlap as spec;
ghost use Rattle.cal_model.specs.Filters.ComponentRanges as ranges;
ghost use Rattle.overlap_rules.specs.Repeats.{IsRepeatIn};
ghost use Rattle.overlap_rules.specs.Bounds.{IsOfSeconds};

use crate::moments::seconds_of;
use cal_model::{Alarm, Component, Extent, Fixed, Range, Related, Trigger};

/// How many gaps it takes to cover a distance.
#[tactic(auto, using(crate::proofs::Covering::less_is_covered))]
pub(crate) fn gaps_over(distance: u128, gap: u128) -> u128
    requires some { 0 < distance }
    requires rises { 0 < gap }
    ensures positive { 0 < result }
    ensures covers { distance ≤ result * gap }
    ensures within { result * gap < distance + gap }
    ensures least { (k : ℕ) → k < result → k * gap < distance }
{
    (distance - 1) / gap + 1
}

/// Whether one of the moments that rise by a gap from the first one, and are one more than `repeat`,
/// lies at `low` or after it, and before `high`.
fn some_rising(first: i128, gap: u128, repeat: u32, low: i128, high: i128) -> bool
    requires first { IsOfSeconds first }
    requires gap { gap < 2_000_000_000_000_000_000_000_000 }
    requires low { IsOfSeconds low }
    requires high { IsOfSeconds high }
    ensures met { IsTrue result → (k : ℕ) × (k ≤ repeat) × IsRepeatIn first gap low high k }
    ensures all { (k : ℕ) → k ≤ repeat → IsRepeatIn first gap low high k → IsTrue result }
{
    if low <= first {
        return first < high;
    }
    if gap == 0 {
        return false;
    }
    let number = gaps_over((low - first) as u128, gap);
    let reached = first + (number * gap) as i128;
    number <= u128::from(repeat) && reached < high
}

/// Whether an alarm that goes off for the first time at a moment goes off in the range, then or at
/// one of its repeats. Where its gap is negative it goes backwards, and all is mirrored.

fn some_trigger(alarm: &Alarm, range: Range, first: i128) -> bool
    requires { IsOfSeconds first }
    ensures { result ≡ spec.some_trigger alarm.now range first }
{
    let (start, end) = (range.start.0 as i128, range.end.0 as i128);
    let gap = seconds_of(alarm.gap);
    if gap >= 0 {
        some_rising(first, gap as u128, alarm.repeat, start, end)
    } else {
        some_rising(-first, (-gap) as u128, alarm.repeat, 1 - end, 1 - start)
    }
}

/// Whether a component says when it ends.
fn has_end(extent: Extent) -> bool
    ensures { result ≡ spec.has_end extent }
{
    matches!(extent, Extent::End(_) | Extent::Due(_) | Extent::Lasting(_))
}

/// The moment from which an alarm of a component counts, of the start and the end of an instance, in
/// seconds since 1970 in UTC; where the component has no start, or no end, there is none by it.
pub fn moment_related(related: Related, component: &Component, at: Fixed) -> Option<i64>
    ensures { result ≡ spec.moment_related related component.now (Some at) }
{
    match related {
        Related::Start if component.start.is_some() => Some(at.start),
        Related::End if has_end(component.extent) => Some(at.end),
        _ => None,
    }
}

/// Whether an alarm of a component goes off in a range: at its absolute trigger, or at the one that
/// counts from the start or the end of an instance (none of an Undated row), or at one of its
/// repeats.
pub fn alarm_overlaps(alarm: &Alarm, component: &Component, at: Option<Fixed>, range: Range) -> bool
    ensures { result ≡ spec.alarm_overlaps alarm.now component.now at range }
{
    let Trigger::From(related, length) = alarm.trigger else {
        return lone_alarm_overlaps(alarm, range);
    };
    let Some(moments) = at else {
        return false;
    };
    match moment_related(related, component, moments) {
        Some(moment) => some_trigger(alarm, range, moment as i128 + seconds_of(length)),
        None => false,
    }
}

/// Whether an alarm that belongs to no instance goes off in a range: it has its absolute trigger
/// alone.
pub fn lone_alarm_overlaps(alarm: &Alarm, range: Range) -> bool
    ensures { result ≡ ranges.lone_alarm_passes range alarm.now }
{
    match alarm.trigger {
        Trigger::At(moment) => some_trigger(alarm, range, moment.0 as i128),
        Trigger::From(_, _) => false,
    }
}
