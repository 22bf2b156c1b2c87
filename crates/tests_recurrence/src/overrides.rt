//! Overrides put among the rows of their master (RFC 5545, 3.8.4.4), by hand: meetings in UTC in March
//! 2025, and events in New York in March 2007, when its clocks went forward on the 11th at 02:00.
ghost use Rattle.std.specs.Prelude.{◌≡◌, ◌<◌, ◌^◌, length, option_to_list, All, IfOk};
ghost use Rattle.cal_model.specs.TimeZones.TableBounds.{IsTable};
ghost use Rattle.override_merge.specs.Conversions.{IsConvertible, HasConvertibleRow, HasConvertibleRows, HasRowTimes, IsRowTime};

use crate::zones::new_york;
use cal_base::{List, Name, NoMemory, Node, Octets};
use cal_model::{Component, Extent, Kind, Object, Row, RowKind};
use cal_moment::{Day, Length, Local, Stamp, Utc};
use override_merge::merge;
use std::alloc::Global;
use std::test::Fail;

/// A day since 1970 and a second of it, or the day alone.
#[derive(Clone, Copy)]
enum When {
    Utc(u16, u32),
    /// By the clock of New York.
    Local(u16, u32),
    Day(u16),
}

/// An override: its RECURRENCE-ID, its start, and the days that it lasts.
#[derive(Clone, Copy)]
struct Override {
    id: When,
    start: Option<When>,
    days: u8,
}

/// 10 March 2025, a Monday, and 10 March 2007.
const MONDAY: u16 = 20_157;

const SATURDAY: u16 = 13_582;

const NINE: u32 = 32_400;

const NOON: u32 = 43_200;

fn stamp(when: When) -> Stamp
    ensures { IsConvertible 1 result }
{
    match when {
        When::Utc(day, second) => Stamp::Utc(Utc(day as i64 * 86_400 + second as i64)),
        When::Local(day, second) => Stamp::Zoned(
            Local {
                day: day as i32,
                second,
            },
            0,
        ),
        When::Day(day) => Stamp::Date(Day(day as i32)),
    }
}

fn seconds(day: u16, second: u32) -> i64
    ensures { IsRowTime result }
{
    day as i64 * 86_400 + second as i64
}

/// A stamp, where there is one.
fn own_stamp(when: Option<When>) -> Option<Stamp>
    ensures { All (IsConvertible 1) (option_to_list result) }
{
    match when {
        Some(when) => Some(stamp(when)),
        None => None,
    }
}

fn override_of(alloc: Global, number: u32, by: Override) -> Component
    ensures { HasConvertibleRow 1 result }
{
    Component {
        kind: Kind::Event,
        child: number,
        start: own_stamp(by.start),
        extent: Extent::Lasting(Length {
            days: by.days as i64,
            seconds: 0,
        }),
        recurrence_id: Some(stamp(by.id)),
        rules: List::new(alloc),
        dates: List::new(alloc),
        periods: List::new(alloc),
        except: List::new(alloc),
        completed: None,
        created: None,
        busy: None,
        stored_busy: List::new(alloc),
        alarms: List::new(alloc),
        future: false,
    }
}

fn components_of(alloc: Global, overrides: &[Override]) -> Result<List<Component>, NoMemory>
    ensures { IfOk result (All (HasConvertibleRow 1)) }
{
    let mut components = List::new(alloc);
    'overrides: for by in overrides {
        components.push(override_of(alloc, 0, *by))?;
    }
    Ok(components)
}

fn object_of(alloc: Global, components: List<Component>) -> Result<Object, NoMemory>
    requires fit { All (HasConvertibleRow 1) components }
    requires few { length components < 2 ^ 32 }
    ensures { IfOk result HasConvertibleRows }
{
    let mut zones = List::new(alloc);
    zones.push(new_york(alloc)?)?;
    Ok(Object {
        kind: Kind::Event,
        uid: Octets::new(alloc),
        tree: Node {
            name: Name::of(alloc, b"VCALENDAR")?,
            lines: List::new(alloc),
            children: List::new(alloc),
        },
        zones,
        components,
    })
}

/// Rows of a master at nine in UTC on some days.
fn master_rows(alloc: Global, days: &[u16]) -> Result<List<Row>, NoMemory>
    ensures { IfOk result (All HasRowTimes) }
{
    let mut rows = List::new(alloc);
    'days: for day in days {
        rows.push(row_at(*day))?;
    }
    Ok(rows)
}

/// Such a row.
fn row_at(day: u16) -> Row
    ensures { HasRowTimes result }
{
    let start = seconds(day, NINE);
    Row {
        id: start,
        start,
        end: start,
        component: 9,
        id_kind: RowKind::Instant,
        kind: RowKind::Instant,
    }
}

/// That Monday at nine and at noon in UTC, and that Saturday at noon in New York.
const MONDAY_AT_NINE: i64 = 1_741_597_200;

const MONDAY_AT_NOON: i64 = 1_741_608_000;

const SATURDAY_AT_NOON: i64 = 1_173_546_000;

/// A day and a week.
const A_DAY: i64 = 86_400;

const A_WEEK: i64 = 604_800;

/// A row that is wanted: its id, start, end and component.
type Wanted = (i64, i64, i64, u32);

/// Whether rows are those, in their order.
fn are_those(rows: &[Row], wanted: &[Wanted]) -> bool {
    'wanted: for (row, one) in rows.iter().zip(wanted) {
        if (row.id, row.start, row.end, row.component) != *one {
            return false;
        }
    }
    rows.len() == wanted.len()
}

/// Whether the rows of a master and the overrides of an object are those.
fn merges_in(
    alloc: Global,
    days: &[u16],
    object: &Object,
    wanted: &[Wanted],
) -> Result<bool, NoMemory>
    requires { HasConvertibleRows object.now }
{
    let rows = merge(alloc, &master_rows(alloc, days)?, object)?;
    Ok(are_those(rows.as_slice(), wanted))
}

/// The same of a master and some overrides.
fn merges(
    alloc: Global,
    days: &[u16],
    overrides: &[Override],
    wanted: &[Wanted],
) -> Result<bool, NoMemory> {
    let components = components_of(alloc, overrides)?;
    if 10 <= components.len() || components.len() != overrides.len() {
        return Ok(false);
    }
    match object_of(alloc, components) {
        Ok(object) => {
            let merged = merges_in(alloc, days, &object, wanted);
            drop(object);
            merged
        }
        Err(NoMemory) => Err(NoMemory),
    }
}

/// What a case shows, the days of a master, overrides, and the rows that are wanted.
type Case = (
    &'static str,
    &'static [u16],
    &'static [Override],
    &'static [Wanted],
);

/// Two overrides by the day: one takes the instance of the next Monday away, and one is by a local day.
const BY_DAY: &[Override] = &[
    Override {
        id: When::Utc(MONDAY + 7, NINE),
        start: None,
        days: 0,
    },
    Override {
        id: When::Day(MONDAY),
        start: Some(When::Utc(MONDAY, NOON)),
        days: 0,
    },
];

const CASES: [Case; 4] = [
    (
        "a moved override stands at its new time with its old id, one that names no instance is added, and one without a start takes its instance away",
        &[MONDAY - 7, MONDAY, MONDAY + 7, MONDAY + 14],
        &[
            Override {
                id: When::Utc(MONDAY, NINE),
                start: Some(When::Utc(MONDAY + 30, NOON)),
                days: 0,
            },
            Override {
                id: When::Utc(MONDAY + 1, NINE),
                start: Some(When::Utc(MONDAY + 1, NINE)),
                days: 0,
            },
            Override {
                id: When::Utc(MONDAY + 14, NINE),
                start: None,
                days: 0,
            },
        ],
        &[
            (
                MONDAY_AT_NINE - A_WEEK,
                MONDAY_AT_NINE - A_WEEK,
                MONDAY_AT_NINE - A_WEEK,
                9,
            ),
            (
                MONDAY_AT_NINE,
                MONDAY_AT_NOON + 30 * A_DAY,
                MONDAY_AT_NOON + 30 * A_DAY,
                0,
            ),
            (
                MONDAY_AT_NINE + A_DAY,
                MONDAY_AT_NINE + A_DAY,
                MONDAY_AT_NINE + A_DAY,
                1,
            ),
            (
                MONDAY_AT_NINE + A_WEEK,
                MONDAY_AT_NINE + A_WEEK,
                MONDAY_AT_NINE + A_WEEK,
                9,
            ),
        ],
    ),
    (
        "an override by a local day takes the place of each instance on that day, with the id of the first",
        &[MONDAY, MONDAY + 7],
        BY_DAY,
        &[(MONDAY_AT_NINE, MONDAY_AT_NOON, MONDAY_AT_NOON, 1)],
    ),
    (
        "where there is none, its id is the day's midnight by the clock of the ids",
        &[MONDAY + 14],
        BY_DAY,
        &[
            (MONDAY_AT_NOON - 43_200, MONDAY_AT_NOON, MONDAY_AT_NOON, 1),
            (
                MONDAY_AT_NINE + 2 * A_WEEK,
                MONDAY_AT_NINE + 2 * A_WEEK,
                MONDAY_AT_NINE + 2 * A_WEEK,
                9,
            ),
        ],
    ),
    (
        "a day that an event lasts is one of the clock: from noon to noon, 23 hours where it goes forward",
        &[],
        &[Override {
            id: When::Local(SATURDAY, NOON),
            start: Some(When::Local(SATURDAY, NOON)),
            days: 1,
        }],
        &[(
            SATURDAY_AT_NOON,
            SATURDAY_AT_NOON,
            SATURDAY_AT_NOON + 82_800,
            0,
        )],
    ),
];

#[test]
fn overrides_stand_among_the_rows(rt: HostRuntime) -> Result<(), Fail> {
    for (shown, days, overrides, wanted) in CASES {
        assert!(rt; merges(rt.alloc(), days, overrides, wanted)?, "{shown}");
    }
    Ok(())
}
