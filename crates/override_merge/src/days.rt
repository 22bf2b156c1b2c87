//! The first start of a local day.
ghost use Rattle.std.specs.Prelude.{◌≡◌, ◌<◌, ◌++◌, ◌∷◌, List, [], length, map, All, AllPairs, IfOk, OnOk, ℤ, pos, neg_ℤ, ◌≤ℤ◌};
ghost use Rattle.cal_moment.specs.Calendar.{IsBetween};
ghost use Rattle.cal_model.specs.Words.Lists.{first_or_else};
ghost use Rattle.cal_model.specs.Instances.Alignment as alignment;
ghost use Rattle.override_merge.specs.Conversions.{tables_of, HasZone, HasRowTimes};
ghost use Rattle.override_merge.specs.DayStarts.{starts_on, days_of, RisesByDay};

use crate::stamps::midnight_of;
use crate::zones::local_beside;
use cal_base::{List, NoMemory};
use cal_model::{LocalTimes, Row};
use cal_moment::Stamp;
use std::alloc::Global;

/// A start, in seconds since 1970, behind the midnight of its local day, in local seconds since 1970.
pub type DayStart = (i64, i64);

/// Starts by their local days, those of one day as they stood.
fn put_by_day(starts: List<DayStart>) -> Result<List<DayStart>, NoMemory>
    ensures rising { IfOk result (λ sorted. AllPairs RisesByDay sorted) }
    ensures kept { IfOk result (λ sorted. (midnight : ℤ) → starts_on midnight sorted ≡ starts_on midnight starts) }
{
    let mut items = starts.into_vec();
    match items.sort_by_key(|entry| entry.0) {
        Ok(()) => Ok(List::from_vec(items)),
        Err(_) => Err(NoMemory),
    }
}

/// A start behind its local day, by the clock of a stamp.
fn day_start(zones: &[LocalTimes<'_>], ids: Stamp, start: i64) -> DayStart
    requires ids { HasZone (length zones.now) ids }
    requires near { IsBetween (neg_ℤ (pos 180_000_000_000_000)) (pos 180_000_000_000_000) start }
    ensures { result ≡ (alignment.midnight_of ((alignment.reading_of (tables_of zones.now) ids).local start), start) }
{
    (midnight_of(local_beside(zones, ids, start)), start)
}

/// The ids of rows with their local days, by the clock of a stamp.
pub fn day_starts(
    alloc: Global,
    zones: &[LocalTimes<'_>],
    ids: Stamp,
    rows: &[Row],
) -> Result<List<DayStart>, NoMemory>
    requires ids { HasZone (length zones.now) ids }
    requires near { All HasRowTimes rows.now }
    ensures rising { IfOk result (λ sorted. AllPairs RisesByDay sorted) }
    ensures kept { IfOk result (λ sorted. (midnight : ℤ) → starts_on midnight sorted ≡ starts_on midnight (days_of (alignment.reading_of (tables_of zones.now) ids) rows.now)) }
{
    let mut starts = List::new(alloc);
    let mut rest = rows;
    'rows: while let Some((row, behind)) = rest.split_first() {
        starts.push(day_start(zones, ids, row.id))?;
        rest = behind;
    }
    put_by_day(starts)
}

/// The start of an entry on a local day, or what stands for it where it lies on another.
fn start_at(entry: DayStart, midnight: i64, none: i64) -> i64
    ensures { result ≡ first_or_else none (starts_on midnight (entry ∷ [])) }
{
    if entry.0 == midnight { entry.1 } else { none }
}

/// The first start of a local day, or what stands for it where there is none.
pub fn first_on(days: &[DayStart], midnight: i64, none: i64) -> i64
    requires { AllPairs RisesByDay days.now }
    ensures { result ≡ first_or_else none (starts_on midnight days.now) }
{
    let place = days.partition_point(|entry| entry.0 < midnight);
    if place < days.len() {
        start_at(days[place], midnight, none)
    } else {
        none
    }
}
