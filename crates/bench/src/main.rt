//! Measures one part of the server at a time, for `bench/run.py`: it has no other use.
//!
//! Given: as words the name of a part and what it takes, and its input on standard input. Without a
//! word standard input has several parts, each behind a line `# NAME WORD..`. Gives: what the part
//! found, and where it is asked to take the time itself, how long that took.
//!
//! | Part | Words | Input | Printed |
//! |---|---|---|---|
//! | `lines` | | a text | how many content lines it has |
//! | `values` | | content lines with stamps, or a rule at RRULE | how many stamps and days they have |
//! | `bodies` | | a body in XML | the attributes and items of its root |
//! | `requests` | `find`, `patch`, `report`, `acl` | a body in XML | what it asks for as that, and how much |
//! | `rules` | `times`, or none | | moments of a thousand steps of rules, onsets of a zone, with both bodies |
//! | `objects` | how often it is read, or none | a calendar object | how many were read and are kept |
//! | `rows` | a window, how often | a calendar object | how many rows the window has |
//! | `filters` | how often | a calendar-query, and each object behind a `|` | how many of them match |
//! | `index` | `add`, `find` or `drop`, objects, windows of each, rows of a piece | | pieces found, rows left |
//! | `claims` | objects, rows of a piece | | pieces published, rows before and after half of the objects end |
//! | `turns` | threads, turns of each, `times` or none | | how many turns were taken |
//! | `busy` | how many times there are | | how many runs they have |
//! | `slots` | calendars, times of each, `on` or `back`, how often | | the first moment that is free in all |
//! | `wire` | octets of a piece, or none | a stream | its requests, the octets of their bodies, how it ends |
#![tactic(auto)]

mod bodies;
mod busy;
mod claims;
mod filters;
mod index;
mod lines;
mod objects;
mod requests;
mod rows;
mod rules;
mod slots;
mod turns;
mod values;
mod wire;

use cal_base::{NoMemory, Octets, StdSource, read_up_to};
use std::sync::Wait;
use std::thread::Threads;
use std::{env, io};

/// The window that begins on 27 January 2026.
const WINDOW: u16 = 320;

/// The front of a text up to the first octet of a kind, and what stands behind that.
fn parts(text: &[u8], at: u8) -> (&[u8], &[u8]) {
    match text.iter().position(|octet| *octet == at) {
        Some(end) => (&text[..end], &text[end + 1..]),
        None => (text, &[]),
    }
}

/// The number that a word says, or another.
fn number(word: Option<&str>, other: u32) -> u32 {
    match word {
        Some(word) => word.parse::<u32>().ok().unwrap_or(other),
        None => other,
    }
}

/// The same of a small number.
fn small(word: Option<&str>, other: u16) -> u16 {
    match word {
        Some(word) => word.parse::<u16>().ok().unwrap_or(other),
        None => other,
    }
}

/// Measures the part that a line names, over its input. Turns are taken in threads.
fn measure<R: Threads + Wait + Sync>(
    rt: &HostRuntime,
    threads: &R,
    line: &str,
    input: &[u8],
) -> io::Result<()> {
    let mut words = line.split_whitespace();
    let part = words.next().unwrap_or("");
    let word = words.next();
    match part {
        "lines" => lines::measure(rt, input),
        "values" => values::measure(rt, input),
        "bodies" => bodies::measure(rt, input),
        "requests" => requests::measure(rt, input, word.unwrap_or("find")),
        "rules" => rules::measure(rt, word.is_some()),
        "objects" => objects::measure(rt, input, number(word, 0)),
        "rows" => rows::measure(rt, input, small(word, WINDOW), number(words.next(), 0)),
        "filters" => filters::measure(rt, input, number(word, 0)),
        "busy" => busy::measure(rt, number(word, 3)),
        "wire" => wire::measure(rt, input, number(word, u32::MAX)),
        _ => measure_state(rt, threads, line),
    }
}

/// Measures the part that a line names, of those that have no input.
fn measure_state<R: Threads + Wait + Sync>(
    rt: &HostRuntime,
    threads: &R,
    line: &str,
) -> io::Result<()> {
    let mut words = line.split_whitespace();
    let part = words.next().unwrap_or("");
    match part {
        "index" => {
            let task = words.next().unwrap_or("add");
            let objects = number(words.next(), 0);
            let windows = small(words.next(), 0);
            index::measure(rt, task, objects, windows, small(words.next(), 0))
        }
        "claims" => {
            let objects = number(words.next(), 0);
            claims::measure(rt, objects, small(words.next(), 0))
        }
        "slots" => {
            let calendars = small(words.next(), 32);
            let times = number(words.next(), 0);
            let back = words.next() == Some("back");
            slots::measure(rt, calendars, times, back, number(words.next(), 1))
        }
        "turns" => {
            let count = number(words.next(), 1);
            let turns = number(words.next(), 1);
            turns::measure(rt, threads, count, turns, words.next().is_some())
        }
        _ => println!(rt; "no such part"),
    }
}

/// Measures each part of some input, and prints the line that names it before.
fn measure_each<R: Threads + Wait + Sync>(
    rt: &HostRuntime,
    threads: &R,
    input: &[u8],
) -> io::Result<()> {
    for part in input.split(|octet| *octet == b'#').skip(1) {
        let (line, input) = parts(part, b'\n');
        let line = str::from_utf8(line).unwrap_or("");
        println!(rt; "#{line}")?;
        measure(rt, threads, line, input)?;
    }
    Ok(())
}

/// Puts a word and a space behind others.
fn put_word(line: &mut Octets, word: &str) -> Result<(), NoMemory> {
    line.extend_from_slice(word.as_bytes())?;
    line.push(b' ')
}

/// The words of the command, without its name.
fn words(rt: &HostRuntime) -> io::Result<Octets> {
    let mut line = Octets::new(rt.alloc());
    for word in env::args(rt)?.skip(1) {
        if put_word(&mut line, word.as_str()).is_err() {
            return Err(io::Error::from(io::ErrorKind::OutOfMemory));
        }
    }
    Ok(line)
}

fn main(rt: HostRuntime) -> io::Result<()> {
    let words = words(&rt)?;
    let mut input = StdSource::new(&rt);
    let Ok(octets) = read_up_to(rt.alloc(), &mut input, u64::MAX) else {
        return println!(rt; "the input was not read");
    };
    if words.is_empty() {
        measure_each(&rt, &rt, octets.as_slice())
    } else {
        let line = str::from_utf8(words.as_slice()).unwrap_or("");
        measure(&rt, &rt, line, octets.as_slice())
    }
}
