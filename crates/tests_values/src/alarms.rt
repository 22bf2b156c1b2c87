//! Ranges of alarms over more rows than are gone over one by one, with the answers worked out by hand
//! from RFC 4791, 9.9, and RFC 5545, 3.8.6: each line of the table is an alarm, a range, and whether it
//! goes off in the range.
ghost use Rattle.std.specs.Prelude.{◌≡◌, [], IfOk, All};
ghost use Rattle.overlap_rules.specs.Bounds.{IsNearRow};

use crate::event::{MIDNIGHT, event, event_node, node};
use crate::filters::{answer_so, calendar, comp};
use cal_base::{List, NoMemory, Octets};
use cal_model::{Alarm, Filter, Kind, Object, Range, Related, Row, RowKind, Trigger};
use cal_moment::{Length, Utc};
use std::alloc::Global;
use std::test::Fail;

/// An alarm of an event with twenty rows, and a range in seconds of the day. The rows start at the
/// full hours from midnight on, and each lasts half an hour. Given are the end of a row from which the
/// alarm counts and so many seconds, REPEAT and the seconds of DURATION.
const CASES: [(Related, i64, u32, i64, (i64, i64), bool); 51] = [
    // A quarter of an hour before the start.
    (Related::Start, -900, 0, 0, (2_700, 2_701), true),
    (Related::Start, -900, 0, 0, (2_699, 2_700), false),
    (Related::Start, -900, 0, 0, (2_701, 6_300), false),
    (Related::Start, -900, 0, 0, (2_701, 6_301), true),
    (Related::Start, -900, 0, 0, (-900, -899), true),
    (Related::Start, -900, 0, 0, (-99_999, -900), false),
    (Related::Start, -900, 0, 0, (67_500, 67_501), true),
    (Related::Start, -900, 0, 0, (67_501, 99_999), false),
    // At the end.
    (Related::End, 0, 0, 0, (1_800, 1_801), true),
    (Related::End, 0, 0, 0, (1_801, 5_400), false),
    (Related::End, 0, 0, 0, (70_200, 70_201), true),
    (Related::End, 0, 0, 0, (70_201, 99_999), false),
    // The rows of the other event, and the row without a date.
    (Related::Start, 0, 0, 0, (2_700, 2_701), false),
    (Related::End, 0, 0, 0, (3_000, 3_001), false),
    (Related::Start, 0, 0, 0, (700, 701), false),
    (Related::End, 0, 0, 0, (700, 701), false),
    // A gap as long as the range, one second longer and one shorter.
    (Related::Start, 0, 2, 600, (1, 601), true),
    (Related::Start, 0, 2, 600, (601, 1_201), true),
    (Related::Start, 0, 2, 600, (1_201, 1_801), false),
    (Related::Start, 0, 2, 600, (1, 600), false),
    (Related::Start, 0, 2, 600, (2, 601), true),
    (Related::Start, 0, 2, 600, (601, 1_200), false),
    (Related::Start, 0, 2, 600, (600, 1_201), true),
    (Related::Start, 0, 2, 600, (1_201, 1_802), false),
    // A gap that goes backwards.
    (Related::Start, 0, 2, -600, (2_400, 2_401), true),
    (Related::Start, 0, 2, -600, (2_401, 3_000), false),
    (Related::Start, 0, 2, -600, (2_401, 3_001), true),
    (Related::Start, 0, 2, -600, (1, 2_400), false),
    (Related::Start, 0, 2, -600, (-1_200, -1_199), true),
    (Related::Start, 0, 2, -600, (-99_999, -1_200), false),
    (Related::Start, 0, 2, -600, (68_401, 99_999), false),
    // Repeats an hour and a second apart: twelve seconds past an hour is the twelfth of one of the rows.
    (Related::Start, 0, 1_000, 3_601, (108_012, 108_013), true),
    (Related::Start, 0, 1_000, 3_601, (108_011, 108_012), true),
    (Related::Start, 0, 1_000, 3_601, (108_010, 108_011), false),
    (Related::Start, 0, 1_000, 3_601, (108_005, 108_006), false),
    (
        Related::Start,
        0,
        1_000,
        3_601,
        (3_669_400, 3_669_401),
        true,
    ),
    (
        Related::Start,
        0,
        1_000,
        3_601,
        (3_669_401, 9_999_999),
        false,
    ),
    (Related::Start, 0, 1_000, -3_601, (-36_012, -36_011), true),
    (Related::Start, 0, 1_000, -3_601, (-36_010, -36_009), true),
    (Related::Start, 0, 1_000, -3_601, (-36_009, -36_008), false),
    (
        Related::Start,
        0,
        1_000,
        -3_601,
        (-3_601_000, -3_600_999),
        true,
    ),
    (
        Related::Start,
        0,
        1_000,
        -3_601,
        (-9_999_999, -3_601_000),
        false,
    ),
    // Each hour for a long time, all at once, and in a range without a second.
    (
        Related::Start,
        0,
        999_999_999,
        3_600,
        (7_200_000_000, 7_200_000_001),
        true,
    ),
    (
        Related::Start,
        0,
        999_999_999,
        3_600,
        (7_200_000_001, 7_200_003_600),
        false,
    ),
    (Related::Start, 0, 5, 0, (3_600, 3_601), true),
    (Related::Start, 0, 5, 0, (3_601, 7_200), false),
    (Related::Start, 0, 0, 0, (3_600, 3_600), false),
    (Related::Start, 0, 0, 0, (3_601, 3_600), false),
    // A long time before.
    (
        Related::End,
        -8_640_000,
        0,
        0,
        (-8_638_200, -8_638_199),
        true,
    ),
    (
        Related::End,
        -8_640_000,
        0,
        0,
        (-8_638_199, -8_634_600),
        false,
    ),
    (Related::End, -8_640_000, 0, 0, (-8_569_799, 0), false),
];

fn seconds(seconds: i64) -> Length {
    Length { days: 0, seconds }
}

/// An event with an alarm, and another one whose alarm goes off in 1970.
fn object(alloc: Global, alarm: Alarm) -> Result<Object, NoMemory>
    ensures { IfOk result (λ object. object.zones ≡ []) }
{
    let past = Alarm {
        trigger: Trigger::At(Utc(0)),
        repeat: 0,
        gap: seconds(0),
    };
    let mut children = List::new(alloc);
    children.push(event_node(alloc)?)?;
    children.push(event_node(alloc)?)?;
    let tree = node(alloc, b"VCALENDAR", List::new(alloc), children)?;
    let mut components = List::new(alloc);
    components.push(event(alloc, 0, alarm)?)?;
    components.push(event(alloc, 1, past)?)?;
    Ok(Object {
        kind: Kind::Event,
        uid: Octets::new(alloc),
        tree,
        zones: List::new(alloc),
        components,
    })
}

/// A row of a component, from one second of the day up to another.
fn row(component: u32, kind: RowKind, from: i32, to: i32) -> Row
    ensures { IsNearRow result }
{
    let start = MIDNIGHT + i64::from(from);
    Row {
        id: start,
        start,
        end: MIDNIGHT + i64::from(to),
        component,
        id_kind: RowKind::Instant,
        kind,
    }
}

/// The rows of both events by turns, in no order, and one without a date.
fn rows(alloc: Global) -> Result<List<Row>, NoMemory>
    ensures { IfOk result (All IsNearRow) }
{
    let mut rows = List::new(alloc);
    'hours: for place in 0..20u16 {
        let hour = i32::from(place * 7 % 20) * 3_600;
        rows.push(row(0, RowKind::Instant, hour, hour + 1_800))?;
        rows.push(row(1, RowKind::Instant, hour + 2_700, hour + 3_000))?;
    }
    rows.push(row(0, RowKind::Undated, 700, 700))?;
    Ok(rows)
}

/// A filter of events with an alarm in a range.
fn filter(alloc: Global, range: (i64, i64)) -> Result<Filter, NoMemory> {
    let range = Range {
        start: Utc(MIDNIGHT.saturating_add(range.0)),
        end: Utc(MIDNIGHT.saturating_add(range.1)),
    };
    let mut event = comp(alloc, b"VEVENT", false, None)?;
    event
        .comps
        .push(comp(alloc, b"VALARM", false, Some(range))?)?;
    calendar(alloc, event)
}

#[test]
fn alarm_among_many_rows(rt: HostRuntime) -> Result<(), Fail> {
    let alloc = rt.alloc();
    let rows = rows(alloc)?;
    for (end, trigger, repeat, gap, range, expected) in CASES {
        let alarm = Alarm {
            trigger: Trigger::From(end, seconds(trigger)),
            repeat,
            gap: seconds(gap),
        };
        let object = object(alloc, alarm)?;
        let filter = filter(alloc, range)?;
        assert!(rt; answer_so(alloc, &filter, &object, &rows, expected)?);
    }
    Ok(())
}
