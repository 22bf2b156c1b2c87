//! Floating times and days, which the zone of a request or of a calendar reads (RFC 4791, 7.3): an
//! event at 09:00 on 10 March 2025 in two zones and in UTC, and 4 November 2018 in Sao Paulo, whose
//! clocks then went from midnight to 01:00.
ghost use Rattle.std.specs.Prelude.{IfOk};
ghost use Rattle.cal_model.specs.TimeZones.TableBounds.{IsTable};
ghost use Rattle.overlap_rules.specs.Bounds.{IsNearRow};

use crate::overlaps::component;
use crate::zones::zone;
use cal_base::NoMemory;
use cal_model::{Component, Extent, Kind, Onset, Range, Row, RowKind, ZoneTable};
use cal_moment::{Day, Length, Local, Stamp, Utc};
use overlap_rules::{fixed, row_overlaps};
use std::alloc::Global;
use std::process::Abort;
use std::test::Fail;

/// Where a clock is.
#[derive(Clone, Copy)]
enum Place {
    NewYork,
    Berlin,
    SaoPaulo,
}

/// The zone of a place.
fn zone_of(alloc: Global, place: Place) -> Result<ZoneTable, NoMemory>
    ensures { IfOk result IsTable }
{
    match place {
        // Daylight saving from 9 March, 07:00Z, to 2 November, 06:00Z.
        Place::NewYork => zone(
            alloc,
            -18_000,
            Onset {
                at: Utc(1_741_503_600),
                offset: -14_400,
            },
            Onset {
                at: Utc(1_762_063_200),
                offset: -18_000,
            },
        ),
        // Winter time from 27 October 2024, 01:00Z, to 30 March, 01:00Z.
        Place::Berlin => zone(
            alloc,
            7200,
            Onset {
                at: Utc(1_729_990_800),
                offset: 3600,
            },
            Onset {
                at: Utc(1_743_296_400),
                offset: 7200,
            },
        ),
        // Daylight saving from 4 November 2018, 03:00Z, to 17 February 2019, 02:00Z.
        Place::SaoPaulo => zone(
            alloc,
            -10_800,
            Onset {
                at: Utc(1_541_300_400),
                offset: -7200,
            },
            Onset {
                at: Utc(1_550_368_800),
                offset: -10_800,
            },
        ),
    }
}

/// A row of a kind, from and to these seconds.
fn row_of(kind: RowKind, start: u32, end: u32) -> Row
    ensures { IsNearRow result }
{
    Row {
        id: start as i64,
        start: start as i64,
        end: end as i64,
        component: 0,
        id_kind: kind,
        kind,
    }
}

/// A range by its start and its end, and whether a row overlaps it.
type Asked = (i64, i64, bool);

/// Asks for the moments of a row in a zone, and whether it overlaps each of some ranges there.
fn ask(
    rt: &impl Abort,
    component: &Component,
    row: &Row,
    zone: &ZoneTable,
    moments: (i64, i64),
    ranges: &[Asked],
)
    requires zone { IsTable zone.now }
    requires near { IsNearRow row.now }
{
    let found = fixed(row, zone);
    let (start, end) = moments;
    assert!(rt;
        found.start == start && found.end == end,
        "at {start} to {end}"
    );
    for (start, end, answer) in ranges {
        let range = Range {
            start: Utc(*start),
            end: Utc(*end),
        };
        assert!(rt;
            row_overlaps(component, row, range, zone) == *answer,
            "from {start} to {end}"
        );
    }
}

/// From 13:00Z to 14:00Z.
const IN_NEW_YORK: &[(i64, i64, bool)] = &[
    (1_741_597_200, 1_741_611_600, false),
    (1_741_597_200, 1_741_611_601, true),
    (1_741_615_200, 1_741_618_800, false),
    (1_741_615_199, 1_741_618_800, true),
];

/// From 08:00Z to 09:00Z.
const IN_BERLIN: &[(i64, i64, bool)] = &[
    (1_741_590_000, 1_741_593_600, false),
    (1_741_590_000, 1_741_593_601, true),
    (1_741_597_200, 1_741_611_601, false),
    (1_741_597_199, 1_741_611_601, true),
];

/// The day begins with its first second, 01:00, and lasts 23 hours.
const SHORT_DAY: &[(i64, i64, bool)] = &[
    (1_541_296_800, 1_541_300_400, false),
    (1_541_296_800, 1_541_300_401, true),
    (1_541_383_200, 1_541_386_800, false),
    (1_541_383_199, 1_541_386_800, true),
];

/// 09:00 on 10 March 2025.
const NINE: Stamp = Stamp::Floating(Local {
    day: 20_157,
    second: 32_400,
});

const HOUR: Extent = Extent::Lasting(Length {
    days: 0,
    seconds: 3600,
});

/// 4 November 2018.
const DAY: Stamp = Stamp::Date(Day(17_839));

const TWO_DAYS: Extent = Extent::Lasting(Length {
    days: 2,
    seconds: 0,
});

/// A place, a component by its kind, start and extent, a row of it, the moments of that, and ranges.
type Case = (
    Place,
    (Kind, Stamp, Extent),
    (RowKind, u32, u32),
    (i64, i64),
    &'static [Asked],
);

const CASES: [Case; 5] = [
    // A floating time is not the same in each zone, and an instant is.
    (
        Place::NewYork,
        (Kind::Event, NINE, HOUR),
        (RowKind::Floating, 1_741_597_200, 1_741_600_800),
        (1_741_611_600, 1_741_615_200),
        IN_NEW_YORK,
    ),
    (
        Place::NewYork,
        (Kind::Event, NINE, HOUR),
        (RowKind::Instant, 1_741_597_200, 1_741_600_800),
        (1_741_597_200, 1_741_600_800),
        &[],
    ),
    (
        Place::Berlin,
        (Kind::Event, NINE, HOUR),
        (RowKind::Floating, 1_741_597_200, 1_741_600_800),
        (1_741_593_600, 1_741_597_200),
        IN_BERLIN,
    ),
    // A day may have no midnight.
    (
        Place::SaoPaulo,
        (Kind::Event, DAY, Extent::WholeDay),
        (RowKind::Date, 1_541_289_600, 1_541_376_000),
        (1_541_300_400, 1_541_383_200),
        SHORT_DAY,
    ),
    // A journal of a day counts for that day, whatever its end.
    (
        Place::SaoPaulo,
        (Kind::Journal, DAY, TWO_DAYS),
        (RowKind::Date, 1_541_289_600, 1_541_462_400),
        (1_541_300_400, 1_541_469_600),
        SHORT_DAY,
    ),
];

#[test]
fn rows_are_read_in_their_zone(rt: HostRuntime) -> Result<(), Fail> {
    for (place, (kind, stamp, extent), (row_kind, start, end), moments, ranges) in CASES {
        let zone = zone_of(rt.alloc(), place)?;
        let row = row_of(row_kind, start, end);
        let asked = component(rt.alloc(), kind, Some(stamp), extent);
        ask(&rt, &asked, &row, &zone, moments, ranges);
        drop(asked);
        drop(zone);
    }
    Ok(())
}
