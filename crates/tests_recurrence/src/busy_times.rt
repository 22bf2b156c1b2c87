//! Runs of busy time (RFC 4791, 7.10), on 10 March 2025: the seconds of its hours are 1,741,564,800
//! and 3,600 for each hour.

use crate::common_times::{Time, runs_of};
use cal_base::{List, NoMemory};
use cal_model::{Class, Range};
use cal_moment::Utc;
use freebusy::{BusyRow, Gathered, Run};
use std::alloc::Global;
use std::test::Fail;

const MIDNIGHT: i64 = 1_741_564_800;

const NINE: i64 = 1_741_597_200;

const TEN: i64 = 1_741_600_800;

const ELEVEN: i64 = 1_741_604_400;

const NOON: i64 = 1_741_608_000;

const NEXT_MIDNIGHT: i64 = 1_741_651_200;

const DAY: (i64, i64) = (MIDNIGHT, NEXT_MIDNIGHT);

/// Busy times, a range, and their runs in it.
type Case = (&'static [Time], (i64, i64), &'static [Time]);

const CASES: [Case; 10] = [
    (&[], DAY, &[]),
    (
        &[(Class::Tentative, NINE, ELEVEN), (Class::Busy, TEN, NOON)],
        DAY,
        &[(Class::Tentative, NINE, TEN), (Class::Busy, TEN, NOON)],
    ),
    (
        &[(Class::Tentative, NINE, NOON), (Class::Busy, TEN, ELEVEN)],
        DAY,
        &[
            (Class::Tentative, NINE, TEN),
            (Class::Busy, TEN, ELEVEN),
            (Class::Tentative, ELEVEN, NOON),
        ],
    ),
    (
        &[(Class::Busy, TEN, ELEVEN), (Class::Busy, NINE, TEN)],
        DAY,
        &[(Class::Busy, NINE, ELEVEN)],
    ),
    (
        &[(Class::Busy, NINE, TEN), (Class::Unavailable, TEN, ELEVEN)],
        DAY,
        &[(Class::Busy, NINE, TEN), (Class::Unavailable, TEN, ELEVEN)],
    ),
    (
        &[(Class::Busy, NINE, TEN), (Class::Busy, ELEVEN, NOON)],
        DAY,
        &[(Class::Busy, NINE, TEN), (Class::Busy, ELEVEN, NOON)],
    ),
    (
        &[(Class::Tentative, NINE, NOON), (Class::Unavailable, 0, TEN)],
        DAY,
        &[
            (Class::Unavailable, MIDNIGHT, TEN),
            (Class::Tentative, TEN, NOON),
        ],
    ),
    (
        &[(Class::Busy, TEN, TEN), (Class::Busy, NOON, NINE)],
        DAY,
        &[],
    ),
    // A range that ends before it starts has no run.
    (&[(Class::Busy, NINE, NOON)], (TEN, TEN), &[]),
    (&[(Class::Busy, NINE, NOON)], (ELEVEN, TEN), &[]),
];

/// Whether runs are those, in their order.
fn are_those(runs: &[Run], wanted: &[Time]) -> bool {
    'wanted: for (run, one) in runs.iter().zip(wanted) {
        if (run.class, run.start.0, run.end.0) != *one {
            return false;
        }
    }
    runs.len() == wanted.len()
}

/// The runs of some times that are gathered so often, each as often as the others.
fn gathered_runs(
    alloc: Global,
    times: &[Time],
    often: usize,
    range: Range,
) -> Result<List<Run>, NoMemory> {
    let mut gathered = Gathered::new(alloc, range);
    for _ in 0..often {
        for (class, start, end) in times {
            gathered.push(BusyRow {
                class: *class,
                start: *start,
                end: *end,
            })?;
        }
    }
    gathered.runs()
}

/// Whether the runs of some times are those, also where the times are gathered, once and often.
fn is_found(alloc: Global, case: &Case) -> Result<bool, NoMemory> {
    let (times, (start, end), wanted) = *case;
    let range = Range {
        start: Utc(start),
        end: Utc(end),
    };
    let at_once = are_those(runs_of(alloc, times, range)?.as_slice(), wanted);
    let once = are_those(gathered_runs(alloc, times, 1, range)?.as_slice(), wanted);
    let often = are_those(
        gathered_runs(alloc, times, 1_500, range)?.as_slice(),
        wanted,
    );
    Ok(at_once && once && often)
}

/// So many times of a second, with a free second between each and the next.
fn seconds(alloc: Global, count: u32) -> Result<List<Time>, NoMemory> {
    let mut times = List::new(alloc);
    for second in 0..count {
        let start = MIDNIGHT + 2 * i64::from(second);
        times.push((Class::Tentative, start, start + 1))?;
    }
    Ok(times)
}

/// Whether none of those times is lost, however often their runs are put in their place.
fn is_none_lost(alloc: Global) -> Result<bool, NoMemory> {
    let day = Range {
        start: Utc(MIDNIGHT),
        end: Utc(NEXT_MIDNIGHT),
    };
    let times = seconds(alloc, 10_000)?;
    let runs = gathered_runs(alloc, times.as_slice(), 1, day)?;
    Ok(are_those(runs.as_slice(), times.as_slice()))
}

#[test]
fn runs_are_found(rt: HostRuntime) -> Result<(), Fail> {
    for (number, case) in CASES.iter().enumerate() {
        assert!(rt; is_found(rt.alloc(), case)?, "case {number}");
    }
    assert!(rt; is_none_lost(rt.alloc())?, "a gathered time is lost");
    Ok(())
}
