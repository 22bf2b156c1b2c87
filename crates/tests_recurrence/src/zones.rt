//! The conversions of a time zone, in New York in 2007 (RFC 5545, 3.3.5 and 3.6.5; RFC 5545's own
//! example of a zone), and in a zone whose onsets lie a second apart.
ghost use Rattle.std.specs.Prelude.{IfOk, ◌<ℤ◌};
ghost use Rattle.cal_model.specs.TimeZones.TableBounds.{IsTable, IsOffset};

use cal_base::{List, NoMemory, Octets, SharedList};
use cal_model::{LocalTimes, Onset, ZoneTable, exists, offset_at, to_utc};
use cal_moment::{Local, Utc};
use std::alloc::Global;
use std::process::Abort;
use std::test::Fail;

/// 11 March, 4 July and 4 November of that year.
const SPRING: i32 = 13_583;

const JULY: i32 = 13_698;

const AUTUMN: i32 = 13_821;

/// A zone by the offset before two onsets.
pub fn zone(alloc: Global, before: i32, first: Onset, second: Onset) -> Result<ZoneTable, NoMemory>
    requires order { first.at.0 <ℤ second.at.0 }
    requires before { IsOffset before }
    requires first { IsOffset first.offset }
    requires second { IsOffset second.offset }
    ensures { IfOk result IsTable }
{
    let onsets = List::of(alloc, &[first, second])?;
    Ok(ZoneTable {
        name: Octets::new(alloc),
        before,
        onsets: SharedList::of(alloc, onsets)?,
    })
}

/// The zone of New York in that year: daylight saving from 11 March, 07:00Z, to 4 November, 06:00Z.
pub fn new_york(alloc: Global) -> Result<ZoneTable, NoMemory>
    ensures { IfOk result IsTable }
{
    let spring = Onset {
        at: Utc(1_173_596_400),
        offset: -14_400,
    };
    let autumn = Onset {
        at: Utc(1_194_156_000),
        offset: -18_000,
    };
    zone(alloc, -18_000, spring, autumn)
}

/// A local time by its day and second, whether a clock shows it, and its instant.
type Case = (i32, u32, bool, i64);

/// Asks for such times, of the table alone and with its local times at hand.
fn ask(rt: &impl Abort, alloc: Global, table: &ZoneTable, cases: &[Case]) -> Result<(), NoMemory>
    requires { IsTable table.now }
{
    let times = LocalTimes::of(alloc, table)?;
    for (day, second, is_there, at) in cases {
        let local = Local {
            day: *day,
            second: *second,
        };
        assert!(rt; exists(table, local) == *is_there, "{day} {second}");
        assert!(rt; times.exists(local) == *is_there, "{day} {second}");
        assert!(rt; to_utc(table, local).0 == *at, "{day} {second}");
        assert!(rt; times.to_utc(local).0 == *at, "{day} {second}");
    }
    Ok(())
}

/// From 02:00 to 03:00 on 11 March no clock shows a time. A skipped time is read by the offset before the
/// gap, and of two instants the first is meant.
const IN_NEW_YORK: [Case; 8] = [
    (JULY, 43_200, true, 1_183_564_800),
    (SPRING, 7199, true, 1_173_596_399),
    (SPRING, 7200, false, 1_173_596_400),
    (SPRING, 9000, false, 1_173_598_200),
    (SPRING, 10_799, false, 1_173_599_999),
    (SPRING, 10_800, true, 1_173_596_400),
    (AUTUMN, 5400, true, 1_194_154_200),
    (AUTUMN, 7200, true, 1_194_159_600),
];

/// An offset holds from the second of its onset on.
#[test]
fn times_are_converted_in_new_york(rt: HostRuntime) -> Result<(), Fail> {
    let table = new_york(rt.alloc())?;
    for (at, offset) in [
        (0, -18_000),
        (1_173_596_399, -18_000),
        (1_173_596_400, -14_400),
        (1_194_155_999, -14_400),
        (1_194_156_000, -18_000),
    ] {
        assert!(rt; offset_at(&table, Utc(at)) == offset, "{at}");
    }
    let asked = ask(&rt, rt.alloc(), &table, &IN_NEW_YORK);
    drop(table);
    Ok(asked?)
}

/// An hour, from each even second on, and none from each odd one.
fn restless_offset(k: u32) -> i32
    ensures { IsOffset result }
{
    if k % 2 == 0 { 3600 } else { 0 }
}

/// A zone with an onset in each of the first forty seconds of 1970.
fn restless(alloc: Global) -> Result<ZoneTable, NoMemory>
    ensures { IfOk result IsTable }
{
    let mut onsets = List::new(alloc);
    for k in 0u32..40 {
        onsets.push(Onset {
            at: Utc(i64::from(k)),
            offset: restless_offset(k),
        })?;
    }
    Ok(ZoneTable {
        name: Octets::new(alloc),
        before: 0,
        onsets: SharedList::of(alloc, onsets)?,
    })
}

/// Of the first forty times of that day the odd ones are shown without an offset, and the even ones
/// are skipped. Of the forty from 01:00:00 on the even ones stand twice, at first an hour earlier.
const A_SECOND_APART: [Case; 11] = [
    (-1, 86_399, true, -1),
    (0, 0, false, 0),
    (0, 1, true, 1),
    (0, 2, false, 2),
    (0, 38, false, 38),
    (0, 39, true, 39),
    (0, 40, true, 40),
    (0, 3600, true, 0),
    (0, 3601, true, 3601),
    (0, 3638, true, 38),
    (0, 3640, true, 3640),
];

#[test]
fn onsets_may_lie_a_second_apart(rt: HostRuntime) -> Result<(), Fail> {
    let table = restless(rt.alloc())?;
    let asked = ask(&rt, rt.alloc(), &table, &A_SECOND_APART);
    drop(table);
    Ok(asked?)
}
