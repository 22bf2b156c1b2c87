//! The times of a calendar, and its runs in a range.

ghost use Rattle.std.specs.Prelude.{◌≡◌, IfOk, map};
ghost use Rattle.cal_model.specs.Busy.BusyRuns.{runs};
ghost use Rattle.freebusy.specs.Times.{time_of_run, times_of};

use crate::ends::classes_of;
use crate::sweep::{sweep, turned_round};
use cal_base::{List, NoMemory};
use cal_model::{Class, Range};
use cal_moment::Utc;
use std::alloc::Global;

/// A stretch of seconds of one class: from `start` on, up to `end`.
#[derive(Clone, Copy, PartialEq, Eq)]
pub struct Run {
    pub start: Utc,
    pub end: Utc,
    pub class: Class,
}

/// A time at which a calendar is busy, in seconds since 1970 in UTC: from `start` on, up to `end`.
/// One that ends where it starts, or before, covers nothing.
#[derive(Clone, Copy, PartialEq, Eq)]
pub struct BusyRow {
    pub class: Class,
    pub start: i64,
    pub end: i64,
}

/// The longest runs of one class in a range, in order. The class of a second is the greatest of the
/// times that cover it; from the greatest to the least these are BUSY, BUSY-UNAVAILABLE and
/// BUSY-TENTATIVE. The time taken is that of sorting the times.
pub fn busy_runs(alloc: Global, rows: &List<BusyRow>, range: Range) -> Result<List<Run>, NoMemory>
    ensures { IfOk result (λ found. map time_of_run found ≡ runs (times_of rows.now) range) }
{
    let classes = classes_of(alloc, rows)?;
    let found = sweep(alloc, &classes, range)?;
    Ok(turned_round(found))
}
