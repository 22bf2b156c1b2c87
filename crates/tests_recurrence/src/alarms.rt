//! Alarms against ranges (RFC 4791, 9.9; RFC 5545, 3.8.6), of an event from 09:00 to 10:00 on 10
//! March 2025.

use crate::overlaps::component;
use cal_model::{Alarm, Component, Extent, Fixed, Kind, Range, Related, Trigger};
use cal_moment::{Length, Stamp, Utc};
use overlap_rules::{alarm_overlaps, lone_alarm_overlaps};
use std::process::Abort;

/// A range by its start and its end, and whether an alarm goes off in it.
type Asked = (i64, i64, bool);

/// A component: what it is, how it starts and ends, and an instance of it.
type Of = (Kind, Option<Stamp>, Extent, (i64, i64));

/// What an alarm is of, its TRIGGER, REPEAT and DURATION, and ranges.
type Case = (Of, Trigger, u32, Length, &'static [Asked]);

/// The seconds of some times of that day.
const AT_0835: i64 = 1_741_595_700;

const AT_0840: i64 = 1_741_596_000;

const AT_0845: i64 = 1_741_596_300;

const AT_0846: i64 = 1_741_596_360;

const AT_0850: i64 = 1_741_596_600;

const AT_0851: i64 = 1_741_596_660;

const AT_0855: i64 = 1_741_596_900;

const AT_0900: i64 = 1_741_597_200;

const AT_0930: i64 = 1_741_599_000;

const AT_0945: i64 = 1_741_599_900;

const AT_1000: i64 = 1_741_600_800;

const START: Option<Stamp> = Some(Stamp::Utc(Utc(AT_0900)));

const END: Stamp = Stamp::Utc(Utc(AT_1000));

const QUARTER_BEFORE: Length = Length {
    days: 0,
    seconds: -900,
};

const FIVE_MINUTES: Length = Length {
    days: 0,
    seconds: 300,
};

const BACKWARDS: Length = Length {
    days: 0,
    seconds: -300,
};

const NOTHING: Length = Length {
    days: 0,
    seconds: 0,
};

/// The greatest gap, of 17,280,000,000 seconds: a billion of them go past every moment of 64 bits.
const AGES: Length = Length {
    days: 200_000,
    seconds: 0,
};

const BEFORE_START: Trigger = Trigger::From(Related::Start, QUARTER_BEFORE);

const BEFORE_END: Trigger = Trigger::From(Related::End, QUARTER_BEFORE);

const EVENT: Of = (Kind::Event, START, Extent::End(END), (AT_0900, AT_1000));

/// It has a start and no end.
const ENDLESS: Of = (Kind::Event, START, Extent::Point, (AT_1000, AT_1000));

/// It has an end and no start.
const DUE: Of = (Kind::Todo, None, Extent::Due(END), (AT_1000, AT_1000));

const DATELESS: Of = (Kind::Event, None, Extent::Point, (AT_0900, AT_1000));

const CASES: [Case; 11] = [
    // They go off and repeat.
    (
        EVENT,
        BEFORE_START,
        0,
        NOTHING,
        &[
            (AT_0845, AT_0846, true),
            (AT_0846, AT_0930, false),
            (0, AT_0845, false),
            (0, AT_0845 + 1, true),
            (AT_0845 + 1, AT_0846, false),
        ],
    ),
    (
        EVENT,
        BEFORE_END,
        0,
        NOTHING,
        &[
            (AT_0845, AT_0846, false),
            (AT_0945, AT_1000, true),
            (AT_0945 + 1, AT_1000, false),
        ],
    ),
    (
        EVENT,
        BEFORE_START,
        2,
        FIVE_MINUTES,
        &[
            (AT_0850, AT_0851, true),
            (AT_0855, AT_0855 + 1, true),
            (AT_0845 + 1, AT_0850, false),
            (AT_0855 + 1, AT_1000, false),
        ],
    ),
    (
        EVENT,
        BEFORE_START,
        2,
        BACKWARDS,
        &[
            (AT_0840, AT_0840 + 1, true),
            (AT_0835, AT_0835 + 1, true),
            (AT_0840 + 1, AT_0845, false),
            (0, AT_0835, false),
            (AT_0845 + 1, AT_1000, false),
        ],
    ),
    (
        EVENT,
        BEFORE_START,
        2,
        NOTHING,
        &[(AT_0845, AT_1000, true), (AT_0845 + 1, AT_1000, false)],
    ),
    (
        EVENT,
        BEFORE_START,
        999_999_999,
        AGES,
        &[
            (AT_0845 + 17_280_000_000, AT_0845 + 17_280_000_001, true),
            (AT_0845 + 1, AT_0845 + 17_280_000_000, false),
            (i64::MAX - 17_280_000_000, i64::MAX, true),
            (i64::MIN, AT_0845, false),
        ],
    ),
    // They want what they count from.
    (ENDLESS, BEFORE_START, 0, NOTHING, &[(0, AT_1000, true)]),
    (ENDLESS, BEFORE_END, 0, NOTHING, &[(0, AT_1000, false)]),
    (DUE, BEFORE_START, 0, NOTHING, &[(0, AT_1000, false)]),
    (DUE, BEFORE_END, 0, NOTHING, &[(0, AT_1000, true)]),
    // One with a moment of its own wants no instance.
    (
        DATELESS,
        Trigger::At(Utc(AT_0900)),
        1,
        FIVE_MINUTES,
        &[
            (AT_0900, AT_0900 + 1, true),
            (AT_0900 + 1, AT_0900 + 300, false),
            (AT_0900 + 300, AT_0900 + 301, true),
            (0, AT_0900, false),
        ],
    ),
];

/// Asks whether an alarm goes off in each of some ranges: with an instance; and without one, or alone, where
/// it has a moment of its own.
fn ask(rt: &impl Abort, component: &Component, at: Fixed, alarm: &Alarm, ranges: &[Asked]) {
    let is_alone = match alarm.trigger {
        Trigger::At(_) => true,
        Trigger::From(_, _) => false,
    };
    for (start, end, answer) in ranges {
        let range = Range {
            start: Utc(*start),
            end: Utc(*end),
        };
        assert!(rt;
            alarm_overlaps(alarm, component, Some(at), range) == *answer,
            "from {start} to {end}"
        );
        let alone = *answer && is_alone;
        assert!(rt; alarm_overlaps(alarm, component, None, range) == alone);
        assert!(rt; lone_alarm_overlaps(alarm, range) == alone);
    }
}

#[test]
fn alarms_go_off_in_ranges(rt: HostRuntime) {
    for ((kind, start, extent, at), trigger, repeat, gap, ranges) in CASES {
        let asked = component(rt.alloc(), kind, start, extent);
        let at = Fixed {
            start: at.0,
            end: at.1,
        };
        let alarm = Alarm {
            trigger,
            repeat,
            gap,
        };
        ask(&rt, &asked, at, &alarm, ranges);
        drop(asked);
    }
}
