//! The texts of cases, of moments and of faults.
ghost use Rattle.std.specs.Prelude.{◌≡◌};

use cal_model::RowKind;
use cal_moment::{Local, write_local};
use cal_object::ReadFault;
use std::io;

/// The front of a text up to the first octet of a kind, and what stands behind that.
pub fn parts(text: &[u8], at: u8) -> (&[u8], &[u8]) {
    match text.iter().position(|octet| *octet == at) {
        Some(end) => (&text[..end], &text[end + 1..]),
        None => (text, &[]),
    }
}

/// The line of a case and what stands behind it.
pub fn case_parts(case: &[u8]) -> (&[u8], &[u8]) {
    parts(case, b'\n')
}

/// A number of a case's line.
fn number(word: Option<&str>) -> Option<i32> {
    match word {
        Some(word) => word.parse::<i32>().ok(),
        None => None,
    }
}

/// The windows that a case's line names.
pub fn case_windows(head: &[u8]) -> Option<(i32, i32)> {
    let Ok(head) = str::from_utf8(head) else {
        return None;
    };
    let mut words = head.split_whitespace();
    let first = number(words.next())?;
    let last = number(words.next())?;
    Some((first, last))
}

/// The first and the last second that have a text: those of the years 1 to 9999.
const FIRST: i64 = -62_135_596_800;

const LAST: i64 = 253_402_300_799;

/// The date and time of a number of seconds since 1970.
pub fn moment_text(seconds: i64) -> [u8; 15] {
    if seconds < FIRST || LAST < seconds {
        return *b"outside-of-time";
    }
    write_local(Local {
        day: seconds.div_euclid(86_400) as i32,
        second: seconds.rem_euclid(86_400) as u32,
    })
}

/// What the numbers of a row count.
pub fn kind_word(kind: RowKind) -> &'static str {
    match kind {
        RowKind::Instant => "UTC",
        RowKind::Floating => "floating",
        RowKind::Date => "date",
        RowKind::Undated => "undated",
    }
}

/// Prints why octets are no such thing.
pub fn print_fault(rt: &HostRuntime, fault: ReadFault, thing: &str) -> io::Result<()> {
    match fault {
        ReadFault::NotCalendar { place } => println!(rt; "no calendar: octet {place}"),
        ReadFault::NotResource(_) => println!(rt; "no {thing}"),
        ReadFault::DateOutside(_, _) => println!(rt; "a date outside"),
        ReadFault::NoMemory => println!(rt; "out of memory"),
    }
}
