//! The first moment from one on at which an alarm that counts from it goes off in a range (RFC 5545,
//! 3.8.6). Of many moments in order those between need no look.

ghost use Rattle.std.specs.Prelude.{◌≡◌, ◌<◌, ◌≤◌, pos, neg_ℤ, ◌-ℤ◌, ◌<ℤ◌, MatchOption};
ghost use Rattle.cal_moment.specs.Calendar.{IsBetween};
ghost use Rattle.cal_model.specs.Ranges.Overlap as spec;
ghost use Rattle.overlap_rules.specs.Bounds.{IsFar, IsOfSeconds};
ghost use Rattle.overlap_rules.specs.NextMoments.{IsFirstToPass, NonePasses, goes_off};
ghost use Rattle.overlap_rules.specs.Repeats.{IsFirstToReach, NoneReaches, way_back};

use crate::alarm::gaps_over;
use crate::moments::seconds_of;
use cal_model::{Alarm, Range};
use cal_moment::Length;

/// The first moment from one before a range on, from which moments that rise by a gap, one more than
/// `repeat`, come to lie in the range.
fn first_below(from: i128, gap: u128, repeat: u32, low: i128, high: i128) -> i128
    requires from { IsFar from }
    requires rises { 0 < gap }
    requires gap { gap < 2_000_000_000_000_000_000_000_000 }
    requires low { IsOfSeconds low }
    requires before { from <ℤ low }
    requires some { low <ℤ high }
    ensures { IsFirstToReach gap repeat low high from result }
{
    let number = gaps_over((low - from) as u128, gap);
    if number > u128::from(repeat) {
        return low - (u128::from(repeat) * gap) as i128;
    }
    if from + ((number * gap) as i128) < high {
        return from;
    }
    low - ((number - 1) * gap) as i128
}

/// The same from any moment on; there is none where the range is empty or lies before it.
fn first_to_reach(from: i128, gap: u128, repeat: u32, low: i128, high: i128) -> Option<i128>
    requires from { IsFar from }
    requires gap { gap < 2_000_000_000_000_000_000_000_000 }
    requires low { IsOfSeconds low }
    ensures { MatchOption result (NoneReaches gap repeat low high from) (IsFirstToReach gap repeat low high from) }
{
    if high <= low {
        return None;
    }
    if high <= from {
        return None;
    }
    if low <= from {
        return Some(from);
    }
    if gap == 0 {
        return Some(low);
    }
    Some(first_below(from, gap, repeat, low, high))
}

/// How far the repeats of a gap go back: nothing, where it goes forward.
fn back_of(gap: i128, repeat: u32) -> u128
    requires { IsOfSeconds gap }
    ensures value { result ≡ way_back gap repeat }
    ensures small { result ≤ 10_000_000_000_000_000_000_000_000_000_000_000 }
{
    if gap < 0 {
        u128::from(repeat) * gap.unsigned_abs()
    } else {
        0
    }
}

/// How long after the moment from which an alarm counts it goes off the earliest time of all. Where
/// its gap is negative that is its last repeat, and from there the others rise.
fn lead_of(alarm: &Alarm, after: Length) -> i128
    ensures value { result ≡ (spec.seconds_of after -ℤ pos (way_back (spec.seconds_of alarm.now.gap) alarm.now.repeat)) }
    ensures near { IsBetween (neg_ℤ (pos 20_000_000_000_000_000_000_000_000_000_000_000)) (pos 20_000_000_000_000_000_000_000_000_000_000_000) result }
{
    seconds_of(after) - back_of(seconds_of(alarm.gap), alarm.repeat) as i128
}

/// The first moment from one on at which an alarm that goes off first so long after it goes off in a
/// range, then or at one of its repeats; none where there is no such moment. All are in seconds since
/// 1970 in UTC.
pub fn next_moment(alarm: &Alarm, after: Length, range: Range, from: i64) -> Option<i128>
    ensures { MatchOption result (NonePasses (goes_off alarm.now after range) from) (IsFirstToPass (goes_off alarm.now after range) from) }
{
    let lead = lead_of(alarm, after);
    let gap = seconds_of(alarm.gap).unsigned_abs();
    let (start, end) = (range.start.0 as i128, range.end.0 as i128);
    match first_to_reach(from as i128 + lead, gap, alarm.repeat, start, end) {
        Some(first) => Some(first - lead),
        None => None,
    }
}
