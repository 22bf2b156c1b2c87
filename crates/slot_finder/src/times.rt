//! The free times of a range.

ghost use Rattle.std.specs.Prelude.{◌≡◌, ◌<◌, All, IfOk, take};
ghost use Rattle.slot_finder.specs.FreeTimes as spec;

use crate::calendars::free_until;
use crate::slots::earliest;
use cal_base::{List, NoMemory};
use cal_model::Range;
use cal_moment::Utc;
use freebusy::Run;
use std::alloc::Global;

/// The first free times of a range, at most so many, in order: the longest stretches of seconds in the
/// range that are free in all calendars, of those that have at least so many seconds. Each calendar is
/// given by its runs, in order. A second is free where no run holds it, whatever its class.
pub fn free_times(
    alloc: Global,
    runs: &List<List<Run>>,
    range: Range,
    seconds: u32,
    most: u32,
) -> Result<List<Range>, NoMemory>
    requires order { All spec.AreInOrder runs.now }
    requires some { 0 < seconds }
    ensures { IfOk result (λ found. found ≡ take most (spec.free_times (spec.free_of_runs runs.now) range seconds)) }
{
    let mut found = List::new(alloc);
    let mut from = range.start;
    let mut left = most;
    'times: while left > 0 {
        let rest = Range {
            start: from,
            end: range.end,
        };
        let Some(start) = earliest(runs, rest, seconds) else {
            return Ok(found);
        };
        let end = Utc(free_until(runs.as_slice(), start.0, range.end.0));
        found.push(Range { start, end })?;
        from = end;
        left -= 1;
    }
    Ok(found)
}
