//! Time that is free in several calendars, on 10 March 2025: the seconds of its hours are 1,741,564,800
//! and 3,600 for each hour.
ghost use Rattle.std.specs.Prelude.{All, IfOk};
ghost use Rattle.slot_finder.specs.FreeTimes.{AreInOrder};

use cal_base::{List, NoMemory};
use cal_model::{Class, Range};
use cal_moment::Utc;
use freebusy::{BusyRow, Run, busy_runs};
use slot_finder::{earliest, free_times};
use std::alloc::Global;
use std::test::Fail;

const SEVEN: i64 = 1_741_590_000;

const EIGHT: i64 = 1_741_593_600;

const NINE: i64 = 1_741_597_200;

const HALF_PAST_NINE: i64 = 1_741_599_000;

const TEN: i64 = 1_741_600_800;

const ELEVEN: i64 = 1_741_604_400;

const NOON: i64 = 1_741_608_000;

const ONE: i64 = 1_741_611_600;

/// A busy time: its class, its start and its end.
pub type Time = (Class, i64, i64);

/// The busy times of each calendar, a range, how many seconds have to be free, how many times are
/// asked for, and the free times.
type Case = (
    &'static [&'static [Time]],
    (i64, i64),
    u32,
    u32,
    &'static [(i64, i64)],
);

const ROUND_NOON: &[&[Time]] = &[&[(Class::Tentative, NINE, TEN), (Class::Busy, TEN, NOON)]];

/// 32 calendars that take turns from eight on, for a minute each: they are free together from 8:32 on.
const TURNS: &[&[Time]] = &[
    &[(Class::Busy, EIGHT, EIGHT + 60)],
    &[(Class::Busy, EIGHT + 60, EIGHT + 120)],
    &[(Class::Busy, EIGHT + 120, EIGHT + 180)],
    &[(Class::Busy, EIGHT + 180, EIGHT + 240)],
    &[(Class::Busy, EIGHT + 240, EIGHT + 300)],
    &[(Class::Busy, EIGHT + 300, EIGHT + 360)],
    &[(Class::Busy, EIGHT + 360, EIGHT + 420)],
    &[(Class::Busy, EIGHT + 420, EIGHT + 480)],
    &[(Class::Busy, EIGHT + 480, EIGHT + 540)],
    &[(Class::Busy, EIGHT + 540, EIGHT + 600)],
    &[(Class::Busy, EIGHT + 600, EIGHT + 660)],
    &[(Class::Busy, EIGHT + 660, EIGHT + 720)],
    &[(Class::Busy, EIGHT + 720, EIGHT + 780)],
    &[(Class::Busy, EIGHT + 780, EIGHT + 840)],
    &[(Class::Busy, EIGHT + 840, EIGHT + 900)],
    &[(Class::Busy, EIGHT + 900, EIGHT + 960)],
    &[(Class::Busy, EIGHT + 960, EIGHT + 1020)],
    &[(Class::Busy, EIGHT + 1020, EIGHT + 1080)],
    &[(Class::Busy, EIGHT + 1080, EIGHT + 1140)],
    &[(Class::Busy, EIGHT + 1140, EIGHT + 1200)],
    &[(Class::Busy, EIGHT + 1200, EIGHT + 1260)],
    &[(Class::Busy, EIGHT + 1260, EIGHT + 1320)],
    &[(Class::Busy, EIGHT + 1320, EIGHT + 1380)],
    &[(Class::Busy, EIGHT + 1380, EIGHT + 1440)],
    &[(Class::Busy, EIGHT + 1440, EIGHT + 1500)],
    &[(Class::Busy, EIGHT + 1500, EIGHT + 1560)],
    &[(Class::Busy, EIGHT + 1560, EIGHT + 1620)],
    &[(Class::Busy, EIGHT + 1620, EIGHT + 1680)],
    &[(Class::Busy, EIGHT + 1680, EIGHT + 1740)],
    &[(Class::Busy, EIGHT + 1740, EIGHT + 1800)],
    &[(Class::Busy, EIGHT + 1800, EIGHT + 1860)],
    &[(Class::Busy, EIGHT + 1860, EIGHT + 1920)],
];

const CASES: [Case; 17] = [
    // Time of each class is held, and so is a second too little.
    (
        ROUND_NOON,
        (EIGHT, ONE),
        3_600,
        5,
        &[(EIGHT, NINE), (NOON, ONE)],
    ),
    (ROUND_NOON, (EIGHT, ONE), 3_601, 5, &[]),
    (ROUND_NOON, (EIGHT, ONE), 3_600, 1, &[(EIGHT, NINE)]),
    (ROUND_NOON, (EIGHT, ONE), 3_600, 0, &[]),
    (
        &[&[(Class::Unavailable, NINE, TEN)]],
        (NINE, NOON),
        60,
        5,
        &[(TEN, NOON)],
    ),
    // Without a calendar, and in one without a time, all is free.
    (&[], (EIGHT, ONE), 18_000, 5, &[(EIGHT, ONE)]),
    (&[&[]], (EIGHT, ONE), 18_001, 5, &[]),
    // Times that touch the range at both ends leave it whole, those that reach into it cut it.
    (
        &[&[(Class::Busy, EIGHT, NINE), (Class::Busy, NOON, ONE)]],
        (NINE, NOON),
        10_800,
        5,
        &[(NINE, NOON)],
    ),
    (
        &[
            &[(Class::Busy, EIGHT, HALF_PAST_NINE)],
            &[(Class::Tentative, ELEVEN, ONE)],
        ],
        (NINE, NOON),
        60,
        5,
        &[(HALF_PAST_NINE, ELEVEN)],
    ),
    // Calendars that take turns leave nothing between them.
    (
        &[
            &[(Class::Busy, EIGHT, NINE), (Class::Busy, TEN, ELEVEN)],
            &[(Class::Busy, NINE, TEN), (Class::Busy, ELEVEN, NOON)],
        ],
        (EIGHT, ONE),
        1,
        5,
        &[(NOON, ONE)],
    ),
    // What overlaps, and what lies in the midst of another.
    (
        &[
            &[(Class::Busy, NINE, TEN)],
            &[(Class::Tentative, HALF_PAST_NINE, ELEVEN)],
            &[(Class::Busy, NINE, HALF_PAST_NINE)],
        ],
        (SEVEN, NOON),
        3_600,
        5,
        &[(SEVEN, NINE), (ELEVEN, NOON)],
    ),
    // A gap that is a second too short, and one that is not.
    (
        &[&[(Class::Busy, NINE, TEN), (Class::Busy, ELEVEN - 1, NOON)]],
        (NINE, NOON),
        3_600,
        5,
        &[],
    ),
    (
        &[&[(Class::Busy, NINE, TEN), (Class::Busy, ELEVEN, NOON)]],
        (NINE, NOON),
        3_600,
        5,
        &[(TEN, ELEVEN)],
    ),
    // Many calendars are free together for 28 minutes, and not for a second more.
    (TURNS, (EIGHT, NINE), 1, 5, &[(EIGHT + 32 * 60, NINE)]),
    (TURNS, (EIGHT, NINE), 28 * 60, 5, &[(EIGHT + 32 * 60, NINE)]),
    (TURNS, (EIGHT, NINE), 28 * 60 + 1, 5, &[]),
    // A range that ends before it starts has no time.
    (&[], (ONE, EIGHT), 1, 5, &[]),
];

/// The runs of some times of a calendar.
pub fn runs_of(alloc: Global, times: &[Time], range: Range) -> Result<List<Run>, NoMemory>
    ensures { IfOk result AreInOrder }
{
    let mut rows = List::new(alloc);
    for (class, start, end) in times {
        rows.push(BusyRow {
            class: *class,
            start: *start,
            end: *end,
        })?;
    }
    busy_runs(alloc, &rows, range)
}

/// The runs of the times of each calendar.
fn runs_of_all(
    alloc: Global,
    calendars: &[&[Time]],
    range: Range,
) -> Result<List<List<Run>>, NoMemory>
    ensures { IfOk result (All AreInOrder) }
{
    let mut all = List::new(alloc);
    'calendars: for times in calendars {
        all.push(runs_of(alloc, times, range)?)?;
    }
    Ok(all)
}

/// Whether these free times were found, and the first moment is the start of the first.
fn is_found(alloc: Global, case: &Case) -> Result<bool, NoMemory> {
    let (calendars, (start, end), seconds, most, wanted) = *case;
    let whole = Range {
        start: Utc(SEVEN),
        end: Utc(ONE),
    };
    let range = Range {
        start: Utc(start),
        end: Utc(end),
    };
    let runs = runs_of_all(alloc, calendars, whole)?;
    let seconds = seconds.max(1);
    let found = free_times(alloc, &runs, range, seconds, most)?;
    let first = match earliest(&runs, range, seconds) {
        Some(moment) if 0 < most => Some(moment.0),
        _ => None,
    };
    Ok(
        found.len() == wanted.len()
            && found.iter().zip(wanted).all(|(time, other)| time.start.0 == other.0
                && time.end.0 == other.1)
            && first == wanted.first().map(|time| time.0),
    )
}

#[test]
fn common_free_times_are_found(rt: HostRuntime) -> Result<(), Fail> {
    for (number, case) in CASES.iter().enumerate() {
        assert!(rt; is_found(rt.alloc(), case)?, "case {number}");
    }
    Ok(())
}
