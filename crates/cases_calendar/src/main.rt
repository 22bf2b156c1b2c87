//! Reads rules, time zones and calendar objects from their texts, and runs the commands over calendar
//! files, so that tables of them can be compared.
//!
//! Given: parts on standard input, each behind a line `@KIND`. Gives: for each that line, and what came
//! of its cases.
//!
//! | Kind | Cases | Printed |
//! |---|---|---|
//! | `rules` | texts of rules, one a line | what each says, or the place of its first fault |
//! | `zones` | a line `#TITLE`, and a calendar with a VTIMEZONE behind it | its onsets, or why there is none |
//! | `rows` | a line `# FIRST LAST` with two windows, and a calendar object behind it | its rows from one window to the other, or why there is no object |
//! | `files` | a line `# TITLE`, a calendar file behind it, perhaps with that of a time zone behind a `|`, and lines `$READ WRITE WORD..` with commands over them | what each command writes, how it ends, and the line that tells why |
#![tactic(auto)]

mod files;
mod rows;
mod rules;
mod texts;
mod zones;

use cal_base::{StdSource, read_up_to};
use files::print_files;
use rows::print_objects;
use rules::print_rules;
use std::io;
use texts::case_parts;
use zones::print_zones;

/// Prints the kind of a part, and what comes of it.
fn print_part(rt: &HostRuntime, part: &[u8]) -> io::Result<()> {
    let (kind, cases) = case_parts(part);
    let kind = str::from_utf8(kind).unwrap_or("");
    println!(rt; "@{kind}")?;
    match kind {
        "rules" => print_rules(rt, cases),
        "zones" => print_zones(rt, cases),
        "rows" => print_objects(rt, cases),
        "files" => print_files(rt, cases),
        _ => println!(rt; "no such part"),
    }
}

fn main(rt: HostRuntime) -> io::Result<()> {
    let mut input = StdSource::new(&rt);
    let Ok(octets) = read_up_to(rt.alloc(), &mut input, u64::MAX) else {
        return println!(rt; "the input was not read");
    };
    for part in octets.as_slice().split(|octet| *octet == b'@').skip(1) {
        print_part(&rt, part)?;
    }
    Ok(())
}
