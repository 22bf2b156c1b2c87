//! The first time that is free in many calendars that take turns.
ghost use Rattle.std.specs.Prelude.{All, IfOk};
ghost use Rattle.slot_finder.specs.FreeTimes.{AreInOrder};

use cal_base::{List, NoMemory};
use cal_model::{Class, Range};
use cal_moment::Utc;
use freebusy::{BusyRow, Run, busy_runs};
use slot_finder::earliest;
use std::alloc::Global;
use std::io;

/// How long each time is, in seconds.
const MINUTE: i64 = 60;

/// More seconds than the times of all calendars take.
const END: i64 = 1 << 60;

const RANGE: Range = Range {
    start: Utc(0),
    end: Utc(END),
};

/// The runs of the calendar at a place: of so many calendars each is busy for a minute in turn, so many
/// times. Where the turns go back, the last calendar is the first to be busy.
fn calendar(
    alloc: Global,
    place: u16,
    calendars: u16,
    times: u32,
    range: Range,
) -> Result<List<Run>, NoMemory>
    ensures { IfOk result AreInOrder }
{
    let mut rows = List::new(alloc);
    for number in 0..times {
        let start = MINUTE * (i64::from(number) * i64::from(calendars) + i64::from(place));
        rows.push(BusyRow {
            class: Class::Busy,
            start,
            end: start + MINUTE,
        })?;
    }
    busy_runs(alloc, &rows, range)
}

/// The runs of all calendars, which take turns from the first to the last, or back.
fn calendars_of(
    alloc: Global,
    calendars: u16,
    times: u32,
    back: bool,
    range: Range,
) -> Result<List<List<Run>>, NoMemory>
    ensures { IfOk result (All AreInOrder) }
{
    let mut all = List::new(alloc);
    'calendars: for number in 0..calendars {
        let place = if back { calendars - 1 - number } else { number };
        all.push(calendar(alloc, place, calendars, times, range)?)?;
    }
    Ok(all)
}

/// Prints the first moment at which all calendars are free for a minute, looked for so many times.
pub fn measure(
    rt: &HostRuntime,
    calendars: u16,
    times: u32,
    back: bool,
    looks: u32,
) -> io::Result<()> {
    let Ok(runs) = calendars_of(rt.alloc(), calendars, times, back, RANGE) else {
        return println!(rt; "out of memory");
    };
    let mut found = None;
    for _ in 0..looks {
        found = earliest(&runs, RANGE, 60);
    }
    match found {
        Some(moment) => println!(rt; "free from {}", moment.0),
        None => println!(rt; "none"),
    }
}
