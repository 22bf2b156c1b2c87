//! The runs of many busy times that all overlap.

use cal_base::{List, NoMemory};
use cal_model::{Class, Range};
use cal_moment::Utc;
use freebusy::{BusyRow, busy_runs};
use std::alloc::Global;
use std::io;

/// A prime: below it the starts lie, in no order.
const STARTS: i64 = 1_000_003;

/// Longer than the starts lie apart.
const SECONDS: i64 = 2_000_000;

/// So many times of one length that all overlap. The classes take turns.
fn overlapping(alloc: Global, number: u32) -> Result<List<BusyRow>, NoMemory> {
    let mut rows = List::new(alloc);
    for place in 0..number {
        let class = match place % 3 {
            0 => Class::Tentative,
            1 => Class::Unavailable,
            _ => Class::Busy,
        };
        let start = i64::from(place) * 48_271 % STARTS;
        rows.push(BusyRow {
            class,
            start,
            end: start + SECONDS,
        })?;
    }
    Ok(rows)
}

/// How many runs so many times have.
fn count_runs(alloc: Global, number: u32) -> Result<usize, NoMemory> {
    let rows = overlapping(alloc, number)?;
    let range = Range {
        start: Utc(0),
        end: Utc(2 * SECONDS),
    };
    let runs = busy_runs(alloc, &rows, range)?;
    Ok(runs.len())
}

/// Prints how many runs so many times have.
pub fn measure(rt: &HostRuntime, number: u32) -> io::Result<()> {
    match count_runs(rt.alloc(), number) {
        Ok(runs) => println!(rt; "{runs} runs"),
        Err(NoMemory) => println!(rt; "out of memory"),
    }
}
