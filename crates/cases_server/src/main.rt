//! Runs the server's parts over texts, so that tables of what comes of them can be compared.
//!
//! Given: parts on standard input, each behind a line `@KIND`. Gives: for each that line, and what came
//! of its cases.
//! `bench/cases.py` writes the cases of `scripts`, `books`, `kept` and `journals`, and what they have to give.
//!
//! | Kind | Cases | Module |
//! |---|---|---|
//! | `props` | `find WHO DEPTH PATH PROPS`, `ask WHO PATH PROP`, `patch SETTINGS` and `make SETTINGS`, one a line | `props` |
//! | `books` | a line `#TITLE`, a line of steps, and the octets of a connection | `books` |
//! | `claims` | the frames of one script | `claims` |
//! | `kept` | a line `#TITLE`, a line `END BEGIN` or `fails`, and the frames of a script | `kept` |
//! | `scripts` | a line `#TITLE`, a line `FORM READ WRITE WORD..`, and the input of a script | `scripts` |
//! | `journals` | a line `#TITLE`, and the frames of a run, or the octets of two connections | `journals` |
//! | `sessions` | a line `# WORD NUMBER`, and the octets of a connection | `sessions` |
#![tactic(auto)]

mod books;
mod claims;
mod desks;
mod files;
mod journal_threads;
mod journals;
mod kept;
mod kept_runs;
mod looks;
mod passes;
mod props;
mod props_texts;
mod runs;
mod scenes;
mod script_case;
mod scripts;
mod sessions;
mod slot;
mod texts;
mod threads;
mod users;
mod walk;

use books::print_book;
use cal_base::{StdSource, read_up_to};
use claims::print_claims;
use journals::print_journals;
use kept::print_kept;
use props::print_props;
use scripts::print_script;
use sessions::print_sessions;
use std::io;
use std::sync::Wait;
use std::thread::Threads;
use texts::parts;

/// Prints the title of a case of books, kept books or scripts, and what comes of it.
fn print_case(rt: &HostRuntime, kind: &str, case: &[u8]) -> io::Result<()> {
    let (title, text) = parts(case, b'\n');
    println!(rt; "# {}", str::from_utf8(title).unwrap_or(""))?;
    match kind {
        "books" => print_book(rt, text),
        "kept" => print_kept(rt, text),
        _ => print_script(rt, text),
    }
}

/// Prints the titles of such cases, each with what comes of it.
fn print_cases(rt: &HostRuntime, kind: &str, cases: &[u8]) -> io::Result<()> {
    for case in cases.split(|octet| *octet == b'#').skip(1) {
        print_case(rt, kind, case)?;
    }
    Ok(())
}

/// Prints the kind of a part, and what comes of it. Sessions run in threads.
fn print_part<R: Threads + Wait + Sync + Print>(
    rt: &HostRuntime,
    threads: &R,
    part: &[u8],
) -> io::Result<()> {
    let (kind, cases) = parts(part, b'\n');
    let kind = str::from_utf8(kind).unwrap_or("");
    println!(rt; "@{kind}")?;
    match kind {
        "props" => print_props(rt, cases),
        "books" | "kept" | "scripts" => print_cases(rt, kind, cases),
        "claims" => print_claims(rt, cases),
        "journals" => print_journals(threads, rt.alloc(), cases),
        "sessions" => print_sessions(threads, rt.alloc(), cases),
        _ => println!(rt; "no such part"),
    }
}

fn main(rt: HostRuntime) -> io::Result<()> {
    let mut input = StdSource::new(&rt);
    let Ok(octets) = read_up_to(rt.alloc(), &mut input, u64::MAX) else {
        return println!(rt; "the input was not read");
    };
    for part in octets.as_slice().split(|octet| *octet == b'@').skip(1) {
        print_part(&rt, &rt, part)?;
    }
    Ok(())
}
