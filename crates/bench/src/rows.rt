//! The rows of windows of a calendar object.
ghost use Rattle.std.specs.Prelude.{◌≡◌, ◌<◌, ◌^◌, false, length};
ghost use Rattle.cal_model.specs.Objects.ObjectFacts.{IsRead};
ghost use Rattle.cal_model.specs.Instances.Rows.{has_fine_rule};

use crate::objects::{LIMIT, print_fault};
use cal_base::{NoMemory, Steps};
use cal_model::Object;
use cal_object::read_object;
use rrule_sets::{has_fine_rule, window_rows};
use std::alloc::Global;
use std::io;
use std::marker::Brand;
use std::sync::ledger::{Blank, Ledger};
use std::time::Instant;

/// How many rows a window of an object has.
fn counted<L: Ledger>(
    alloc: Global,
    object: &Object,
    window: i32,
    blank: Blank,
) -> Result<usize, NoMemory>
    requires read { IsRead object.now }
    requires few { length object.now.components < 2 ^ 32 }
    requires coarse { has_fine_rule object.now ≡ false }
    requires name { L.name ≡ blank.name }
    requires parts { L.parts ≡ blank.parts }
    requires some { 0 < blank.parts }
{
    let mut steps = Steps::<L>::open(blank);
    let rows = window_rows(alloc, object, window, &mut steps)?;
    Ok(rows.len())
}

/// How many rows a window of an object has, on a count of steps of its own.
fn count_once(rt: &HostRuntime, object: &Object, window: i32) -> Result<usize, NoMemory>
    requires read { IsRead object.now }
    requires few { length object.now.components < 2 ^ 32 }
    requires coarse { has_fine_rule object.now ≡ false }
{
    counted::<Brand>(rt.alloc(), object, window, Blank::new(1))
}

/// Finds the rows of a window so often, and prints the time that took least.
fn print_least(rt: &HostRuntime, object: &Object, window: i32, rounds: u32) -> io::Result<()>
    requires read { IsRead object.now }
    requires few { length object.now.components < 2 ^ 32 }
    requires coarse { has_fine_rule object.now ≡ false }
{
    let mut least = u128::MAX;
    for _ in 0..rounds {
        let begin = Instant::now(rt)?;
        let found = count_once(rt, object, window);
        let spent = begin.elapsed(rt)?;
        if found.is_ok() {
            least = least.min(spent.as_nanos());
        }
    }
    println!(rt; "{least} ns")
}

/// Prints how many rows a window has, and measures if it is to.
fn run(rt: &HostRuntime, object: &Object, window: i32, rounds: u32) -> io::Result<()>
    requires read { IsRead object.now }
    requires few { length object.now.components < 2 ^ 32 }
{
    if has_fine_rule(object) {
        return println!(rt; "not expanded");
    }
    match count_once(rt, object, window) {
        Ok(rows) => println!(rt; "{rows} rows")?,
        Err(NoMemory) => println!(rt; "out of memory")?,
    }
    if rounds > 0 {
        print_least(rt, object, window, rounds)?;
    }
    Ok(())
}

/// Prints how many rows a window of 64 days of an object has, and where its rows are to be found more
/// than 0 times, the nanoseconds of the time that took least.
pub fn measure(rt: &HostRuntime, octets: &[u8], window: u16, rounds: u32) -> io::Result<()> {
    if octets.len() > LIMIT {
        return println!(rt; "more octets than are read");
    }
    match read_object(rt.alloc(), octets) {
        Ok(object) => run(rt, &object, i32::from(window), rounds),
        Err(fault) => print_fault(rt, fault),
    }
}
