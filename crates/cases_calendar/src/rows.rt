//! The rows of calendar objects, by their texts.
ghost use Rattle.std.specs.Prelude.{◌≡◌, ◌<◌, ◌^◌, false, length};
ghost use Rattle.cal_model.specs.Objects.ObjectFacts.{IsRead};
ghost use Rattle.cal_model.specs.Instances.Rows.{has_fine_rule};

use crate::texts::{case_parts, case_windows, kind_word, moment_text, print_fault};
use cal_base::{NoMemory, Steps};
use cal_model::{Object, Row};
use cal_object::read_object;
use rrule_sets::{Counted, count_rows, has_fine_rule, undated_rows, window_rows};
use std::io;
use std::marker::Brand;
use std::sync::ledger::{Blank, Ledger};

/// How many rows are counted.
const LIMIT: u32 = 250_000;

/// Prints a moment.
fn print_moment(rt: &HostRuntime, seconds: i64) -> io::Result<()> {
    let text = moment_text(seconds);
    print!(rt; " {}", str::from_utf8(&text).unwrap_or(""))
}

/// Prints a row.
fn print_row(rt: &HostRuntime, row: &Row) -> io::Result<()> {
    print!(rt; " {}", row.component)?;
    print!(rt; " {}", kind_word(row.id_kind))?;
    print_moment(rt, row.id)?;
    print!(rt; " {}", kind_word(row.kind))?;
    print_moment(rt, row.start)?;
    print_moment(rt, row.end)?;
    println!(rt;)
}

/// Prints the rows of the windows from one to another.
fn print_windows<L: Ledger>(
    rt: &HostRuntime,
    object: &Object,
    first: i32,
    last: i32,
    blank: Blank,
) -> io::Result<()>
    requires read { IsRead object.now }
    requires few { length object.now.components < 2 ^ 32 }
    requires coarse { has_fine_rule object.now ≡ false }
    requires name { L.name ≡ blank.name }
    requires parts { L.parts ≡ blank.parts }
    requires some { 0 < blank.parts }
{
    let mut steps = Steps::<L>::open(blank);
    for window in first..=last {
        match window_rows(rt.alloc(), object, window, &mut steps) {
            Ok(rows) => print_rows(rt, window, rows.as_slice())?,
            Err(NoMemory) => println!(rt; "{window} out of memory")?,
        }
    }
    Ok(())
}

/// Prints the rows of a window.
fn print_rows(rt: &HostRuntime, window: i32, rows: &[Row]) -> io::Result<()> {
    for row in rows {
        print!(rt; "{window}")?;
        print_row(rt, row)?;
    }
    Ok(())
}

/// Prints the rows that lie in no window.
fn print_undated(rt: &HostRuntime, object: &Object) -> io::Result<()>
    requires { length object.now.components < 2 ^ 32 }
{
    match undated_rows(rt.alloc(), object) {
        Ok(rows) => {
            for row in rows.as_slice() {
                println!(rt; "undated {}", row.component)?;
            }
            Ok(())
        }
        Err(NoMemory) => println!(rt; "undated out of memory"),
    }
}

/// Prints how many rows an object has.
fn print_count(rt: &HostRuntime, object: &Object) -> io::Result<()>
    requires read { IsRead object.now }
    requires few { length object.now.components < 2 ^ 32 }
    requires coarse { has_fine_rule object.now ≡ false }
{
    match count_rows(rt.alloc(), object, LIMIT) {
        Counted::Within(count) => println!(rt; "rows {count}"),
        Counted::Over => println!(rt; "rows over {LIMIT}"),
        Counted::NoMemory => println!(rt; "out of memory"),
    }
}

/// Prints the rows of an object in the windows from one to another.
fn print_object(rt: &HostRuntime, object: &Object, first: i32, last: i32) -> io::Result<()>
    requires read { IsRead object.now }
    requires few { length object.now.components < 2 ^ 32 }
{
    if has_fine_rule(object) {
        return println!(rt; "not expanded");
    }
    print_count(rt, object)?;
    print_undated(rt, object)?;
    print_windows::<Brand>(rt, object, first, last, Blank::new(1))
}

/// Prints what a case gives.
fn print_case(rt: &HostRuntime, case: &[u8]) -> io::Result<()> {
    let (head, text) = case_parts(case);
    let Some((first, last)) = case_windows(head) else {
        return println!(rt; "two windows are wanted");
    };
    if text.len() > 1 << 20 {
        return println!(rt; "more octets than are read");
    }
    match read_object(rt.alloc(), text) {
        Ok(object) => print_object(rt, &object, first, last),
        Err(fault) => print_fault(rt, fault, "object"),
    }
}

/// Prints for each case, a line `# FIRST LAST` with the numbers of two windows of 64 days and the text
/// of a calendar object behind it, how many rows the object has, up to 250,000, its undated rows, and
/// its rows window by window from the first window to the last, a row a line: the window, the
/// component, and the id, the start and the end as they are counted. Or why there is no such object.
pub fn print_objects(rt: &HostRuntime, cases: &[u8]) -> io::Result<()> {
    for case in cases.split(|octet| *octet == b'#').skip(1) {
        print_case(rt, case)?;
    }
    Ok(())
}
