//! The tables of zones that calendars have.
ghost use Rattle.std.specs.Prelude.{◌≡◌, All, IfSome, true};
ghost use Rattle.cal_model.specs.TimeZones.TableBounds.{IsPart, IsOffset};

use crate::rule_cases::moment;
use cal_base::List;
use cal_model::{ZonePart, ZoneTable};
use rrule_step::PeriodStep;
use std::alloc::Global;
use std::process::Abort;
use std::rt::HostRuntime;
use vtimezone::make_table;

/// Whether an offset is less than a day.
fn is_offset(offset: i32) -> bool
    ensures { result ≡ true → IsOffset offset }
{
    -86_400 < offset && offset < 86_400
}

/// A part at the start of 1970 whose offset is the one before it.
fn part_of(alloc: Global, offset: i32) -> Option<ZonePart>
    ensures { IfSome result IsPart }
{
    let start = moment((1970, 1, 1), 0)?;
    if !is_offset(offset) {
        return None;
    }
    Some(ZonePart {
        start,
        from: offset,
        to: offset,
        rules: List::new(alloc),
        dates: List::new(alloc),
    })
}

/// Puts a part behind others, where there is memory.
fn put(list: &mut List<ZonePart>, part: ZonePart)
    requires list { All IsPart list.old }
    requires part { IsPart part }
    ensures { All IsPart list.new }
{
    let _ = list.push(part);
}

/// That part alone. Without memory there is none.
fn parts_of(alloc: Global, offset: i32) -> List<ZonePart>
    ensures { All IsPart result }
{
    let mut list = List::new(alloc);
    if let Some(part) = part_of(alloc, offset) {
        put(&mut list, part);
    }
    list
}

/// Whether a table has an offset before its only onset, and from it on.
fn shows(table: &ZoneTable, offset: i32) -> bool {
    match table.onsets.as_slice() {
        [onset] => {
            table.before == offset && onset.offset == offset && onset.at.0 == -(offset as i64)
        }
        _ => false,
    }
}

/// Offsets of zones that never change.
const FIXED: [i32; 16] = [
    19_800, 3600, 10_800, -10_800, -25_200, -14_400, 36_000, 21_600, 25_200, 39_600, 18_000, 0,
    -3600, 14_400, 46_800, 43_200,
];

/// A zone of one part at the start of 1970, whose offset does not change.
fn never_changes(rt: &impl Abort, alloc: Global, offset: i32) {
    let parts = parts_of(alloc, offset);
    assert!(rt; !parts.is_empty(), "{offset}");
    match make_table(alloc, b"Zone", &parts, 1, &PeriodStep) {
        Ok((table, count)) => {
            assert!(rt; count == 1 && shows(&table, offset), "{offset}");
            drop(table);
        }
        Err(_) => assert!(rt; false, "{offset}"),
    }
    drop(parts);
}

#[test]
fn zones_that_never_change(rt: HostRuntime) {
    for offset in FIXED.iter() {
        never_changes(&rt, rt.alloc(), *offset);
    }
}
