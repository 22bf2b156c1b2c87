//! The table of overlap (RFC 4791, 9.9), each line at the four borders of an instance: a range that
//! ends where it starts, one that ends a second later, one that starts where it ends, and one that
//! starts a second before.

use cal_base::{List, NoMemory};
use cal_model::{Class, Component, Extent, Fixed, Kind, Range};
use cal_moment::{Day, Length, Local, Period, PeriodEnd, Stamp, Utc};
use overlap_rules::overlaps;
use std::alloc::Global;
use std::process::Abort;
use std::test::Fail;

/// A range by its start and its end, and whether it overlaps.
type Asked = (i64, i64, bool);

/// What a component is, how it starts and ends, an instance of it, and ranges.
type Case = (Kind, Option<Stamp>, Extent, (i64, i64), &'static [Asked]);

const START: Option<Stamp> = Some(Stamp::Utc(Utc(100)));

const FLOATING: Option<Stamp> = Some(Stamp::Floating(Local {
    day: 0,
    second: 100,
}));

const DAY: Option<Stamp> = Some(Stamp::Date(Day(0)));

const END: Stamp = Stamp::Utc(Utc(200));

const AT_ONCE: Stamp = Stamp::Utc(Utc(100));

const LONG: Length = Length {
    days: 0,
    seconds: 100,
};

const DAYS: Length = Length {
    days: 1,
    seconds: 0,
};

const NOTHING: Length = Length {
    days: 0,
    seconds: 0,
};

/// An instance that covers the seconds up to its end.
const SPANS: &[Asked] = &[
    (50, 100, false),
    (50, 101, true),
    (200, 300, false),
    (199, 300, true),
];

/// One that stands at its start.
const BEGINS: &[Asked] = &[
    (50, 100, false),
    (50, 101, true),
    (101, 300, false),
    (100, 300, true),
];

/// A day, the first of 1970.
const WHOLE_DAY: &[Asked] = &[
    (-50, 0, false),
    (-50, 1, true),
    (86_400, 86_500, false),
    (86_399, 86_500, true),
];

/// One that a range also meets which starts at its end.
const TOUCHES: &[Asked] = &[
    (50, 100, false),
    (50, 101, true),
    (201, 300, false),
    (200, 300, true),
];

/// A to-do that ends where it starts: a range also meets it which ends there.
const AT_A_MOMENT: &[Asked] = &[
    (50, 99, false),
    (50, 100, true),
    (101, 300, false),
    (100, 300, true),
];

/// One that stands at its end, and that a range meets which ends there.
const ENDS: &[Asked] = &[
    (50, 199, false),
    (50, 200, true),
    (200, 300, false),
    (199, 300, true),
];

const NEVER: &[Asked] = &[(0, 300, false), (100, 200, false)];

const CASES: [Case; 21] = [
    (Kind::Event, START, Extent::End(END), (100, 200), SPANS),
    (Kind::Event, FLOATING, Extent::End(END), (100, 200), SPANS),
    (Kind::Event, START, Extent::Lasting(LONG), (100, 200), SPANS),
    (Kind::Event, START, Extent::Lasting(DAYS), (100, 200), SPANS),
    (
        Kind::Event,
        START,
        Extent::Lasting(NOTHING),
        (100, 100),
        BEGINS,
    ),
    (Kind::Event, START, Extent::Point, (100, 100), BEGINS),
    (Kind::Event, DAY, Extent::WholeDay, (0, 86_400), WHOLE_DAY),
    (Kind::Event, None, Extent::Point, (100, 200), NEVER),
    (
        Kind::Todo,
        START,
        Extent::Lasting(LONG),
        (100, 200),
        TOUCHES,
    ),
    (
        Kind::Todo,
        START,
        Extent::Lasting(NOTHING),
        (100, 100),
        AT_A_MOMENT,
    ),
    (Kind::Todo, START, Extent::Due(END), (100, 200), SPANS),
    (
        Kind::Todo,
        START,
        Extent::Due(AT_ONCE),
        (100, 100),
        AT_A_MOMENT,
    ),
    (Kind::Todo, START, Extent::Point, (100, 100), BEGINS),
    (Kind::Todo, None, Extent::Due(END), (200, 200), ENDS),
    (Kind::Journal, START, Extent::Point, (100, 100), BEGINS),
    (Kind::Journal, FLOATING, Extent::Point, (100, 100), BEGINS),
    (Kind::Journal, DAY, Extent::WholeDay, (0, 86_400), WHOLE_DAY),
    (Kind::Journal, None, Extent::Point, (100, 200), NEVER),
    (Kind::FreeBusy, START, Extent::End(END), (100, 200), TOUCHES),
    (Kind::FreeBusy, START, Extent::None, (100, 200), NEVER),
    (Kind::FreeBusy, None, Extent::None, (0, 0), NEVER),
];

/// How a to-do without DTSTART and DUE ends.
const NOT_DUE: &[Extent] = &[Extent::None, Extent::Lasting(LONG)];

/// COMPLETED and CREATED of a to-do without DTSTART, how it ends, an instance of it, and ranges.
type Dates = (
    Option<Utc>,
    Option<Utc>,
    &'static [Extent],
    (i64, i64),
    &'static [Asked],
);

const DATES: [Dates; 6] = [
    (
        Some(Utc(200)),
        Some(Utc(100)),
        NOT_DUE,
        (0, 0),
        &[
            (50, 99, false),
            (50, 100, true),
            (201, 300, false),
            (200, 300, true),
        ],
    ),
    (
        Some(Utc(100)),
        Some(Utc(200)),
        NOT_DUE,
        (0, 0),
        &[
            (50, 99, false),
            (50, 100, true),
            (201, 300, false),
            (200, 300, true),
        ],
    ),
    (
        Some(Utc(200)),
        None,
        NOT_DUE,
        (0, 0),
        &[
            (50, 199, false),
            (50, 200, true),
            (201, 300, false),
            (200, 300, true),
        ],
    ),
    (
        None,
        Some(Utc(100)),
        NOT_DUE,
        (0, 0),
        &[(50, 100, false), (50, 101, true), (5000, 6000, true)],
    ),
    (
        None,
        None,
        NOT_DUE,
        (0, 0),
        &[(-2, -1, true), (0, 1, true), (1000, 2000, true)],
    ),
    (
        Some(Utc(5000)),
        Some(Utc(10)),
        &[Extent::Due(END)],
        (200, 200),
        ENDS,
    ),
];

/// A component of a kind by its start and its end.
pub fn component(alloc: Global, kind: Kind, start: Option<Stamp>, extent: Extent) -> Component {
    Component {
        kind,
        child: 0,
        start,
        extent,
        recurrence_id: None,
        rules: List::new(alloc),
        dates: List::new(alloc),
        periods: List::new(alloc),
        except: List::new(alloc),
        completed: None,
        created: None,
        busy: None,
        stored_busy: List::new(alloc),
        alarms: List::new(alloc),
        future: false,
    }
}

/// Asks whether an instance overlaps each of some ranges.
fn ask(rt: &impl Abort, component: &Component, at: (i64, i64), ranges: &[Asked]) {
    let at = Fixed {
        start: at.0,
        end: at.1,
    };
    for (start, end, answer) in ranges {
        let range = Range {
            start: Utc(*start),
            end: Utc(*end),
        };
        assert!(rt;
            overlaps(component, at, range) == *answer,
            "from {start} to {end}"
        );
    }
}

#[test]
fn ranges_overlap_by_start_and_end(rt: HostRuntime) {
    for (kind, start, extent, at, ranges) in CASES {
        let asked = component(rt.alloc(), kind, start, extent);
        ask(&rt, &asked, at, ranges);
        drop(asked);
    }
}

/// They count only where there is neither DTSTART nor DUE; a DURATION alone says nothing.
#[test]
fn to_dos_count_by_completed_and_created(rt: HostRuntime) {
    for (completed, created, extents, at, ranges) in DATES {
        for extent in extents {
            let mut to_do = component(rt.alloc(), Kind::Todo, None, *extent);
            to_do.completed = completed;
            to_do.created = created;
            ask(&rt, &to_do, at, ranges);
            drop(to_do);
        }
    }
}

/// A VFREEBUSY with one period that starts at its 100th second.
fn stored(alloc: Global, class: Option<Class>, end: PeriodEnd) -> Result<Component, NoMemory> {
    let period = Period {
        start: AT_ONCE,
        end,
    };
    let periods = List::of(alloc, &[(class, period)])?;
    let mut stored = component(alloc, Kind::FreeBusy, None, Extent::None);
    stored.stored_busy = periods;
    Ok(stored)
}

/// A VFREEBUSY without DTEND has the seconds of its periods, free ones too.
#[test]
fn stored_periods_overlap(rt: HostRuntime) -> Result<(), Fail> {
    for (class, end) in [
        (None, PeriodEnd::At(END)),
        (Some(Class::Busy), PeriodEnd::After(LONG)),
    ] {
        let free_busy = stored(rt.alloc(), class, end)?;
        ask(&rt, &free_busy, (0, 0), SPANS);
        drop(free_busy);
    }
    Ok(())
}
