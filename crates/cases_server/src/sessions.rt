//! Sessions over links in memory, and what became of them.
ghost use Rattle.std.specs.Prelude.{◌≤◌, ◌^◌};

use crate::runs::{ALL, Run, link_of, serve, word_of};
use crate::scenes::print_scenes;
use crate::texts::parts;
use cal_base::{NoMemory, Octets};
use cal_session::How;
use std::alloc::Global;
use std::io;
use std::sync::Wait;
use std::thread::Threads;

/// How many requests of a session are printed.
const FIRST: usize = 8;

/// The word and the number of a case's line.
fn case_words(head: &[u8]) -> Option<(&str, u32)> {
    let Ok(head) = str::from_utf8(head) else {
        return None;
    };
    let mut words = head.split_whitespace();
    let word = words.next()?;
    let number = words.next()?;
    match number.parse::<u32>() {
        Ok(number) => Some((word, number)),
        Err(_) => None,
    }
}

/// Prints what becomes of a case.
fn print_case<R: Print + Wait>(rt: &R, alloc: Global, case: &[u8]) -> io::Result<()> {
    let (head, octets) = parts(case, b'\n');
    match case_words(head) {
        Some(("repeat", number)) => print_repeated(rt, alloc, octets, number),
        Some(("allow", number)) => print_session(rt, alloc, octets, None, u64::from(number)),
        Some(("fails", number)) => print_failing(rt, alloc, octets, u64::from(number)),
        Some(("cuts", number)) => print_cuts(rt, alloc, octets, number),
        _ => println!(rt; "no such case"),
    }
}

/// The octets so many times over.
fn print_repeated<R: Print + Wait>(
    rt: &R,
    alloc: Global,
    octets: &[u8],
    number: u32,
) -> io::Result<()> {
    let mut all = Octets::new(alloc);
    for _ in 0..number {
        if all.extend_from_slice(octets).is_err() {
            return println!(rt; "out of memory");
        }
    }
    print_session(rt, alloc, all.as_slice(), None, ALL)
}

/// Each of the first calls of the link failing in turn.
fn print_failing<R: Print + Wait>(
    rt: &R,
    alloc: Global,
    octets: &[u8],
    number: u64,
) -> io::Result<()> {
    for failing in 0..number {
        print_session(rt, alloc, octets, Some(failing), ALL)?;
    }
    Ok(())
}

/// Each beginning of the octets that has at least so many, and is not all of them.
fn print_cuts<R: Print + Wait>(
    rt: &R,
    alloc: Global,
    octets: &[u8],
    number: u32,
) -> io::Result<()> {
    let mut all = 0u64;
    let mut cut = 0u64;
    for len in (number as usize)..octets.len() {
        all = all.wrapping_add(1);
        if is_cut(rt, alloc, &octets[..len]) {
            cut = cut.wrapping_add(1);
        }
    }
    println!(rt; "of {all} beginnings {cut} are cut, without an entry and without a reply")
}

/// Whether a session over some octets is cut, and neither answers nor changes anything.
fn is_cut<R: Wait>(rt: &R, alloc: Global, octets: &[u8]) -> bool {
    let Ok(mut link) = link_of(alloc, octets, None, ALL) else {
        return false;
    };
    match serve(rt, alloc, &mut link) {
        Ok(run) => is_cut_run(&run),
        Err(NoMemory) => false,
    }
}

/// Whether a session was cut, and neither answered nor changed anything.
fn is_cut_run(run: &Run) -> bool {
    matches!(run.ended.how, How::CutInRequest)
        && run.ended.turns.is_empty()
        && run.entries == 0
        && run.replies == 0
}

/// One session, of whose calls that number fails, over so many octets at most.
fn print_session<R: Print + Wait>(
    rt: &R,
    alloc: Global,
    octets: &[u8],
    failing: Option<u64>,
    allowance: u64,
) -> io::Result<()>
    requires { allowance ≤ 2 ^ 62 }
{
    match link_of(alloc, octets, failing, allowance) {
        Ok(mut link) => match serve(rt, alloc, &mut link) {
            Ok(run) => print_run(rt, &run),
            Err(NoMemory) => println!(rt; "out of memory"),
        },
        Err(NoMemory) => println!(rt; "out of memory"),
    }
}

/// Prints what became of a session.
fn print_run<R: Print>(rt: &R, run: &Run) -> io::Result<()> {
    print!(rt;
        "{}; {} entries; {} replies, {} close; {} answered",
        word_of(run.ended.how),
        run.entries,
        run.replies,
        run.closes,
        run.ended.turns.len()
    )?;
    for turn in run.ended.turns.iter().take(FIRST) {
        print!(rt; ", {} at {}", turn.status, turn.at)?;
    }
    println!(rt; "")
}

/// Prints what becomes of sessions, each of which begins at a server without entries: how it ended,
/// how many entries there are then, how many replies were written and how many of them say that the
/// connection closes, and the first requests that were answered, each with its status and its place.
///
/// A case is a line `# WORD NUMBER` and the octets of a connection behind it. `repeat`: the octets so
/// many times over. `allow`: the link gives so many octets at most. `fails`: for each number below this
/// one a session of its own, in which the call of the link with that number fails, counted from 0.
/// `cuts`: for each beginning of the octets that has at least so many and is not all of them a session
/// of its own, of which is printed how many there were, and how many of them were cut without an entry
/// and without a reply. Behind the cases: what a session sees that another pass put, with the reply;
/// what a worker does; what two sessions in two threads are answered that change one object by one tag;
/// that a query is answered while the expansion of a worker is held; what a report shows that is held while
/// it is worked out, and what others put and read meanwhile; and how many pieces are claimed behind a report
/// of a later year, whose moment is told at the end of its session.
pub fn print_sessions<R: Threads + Wait + Sync + Print>(
    rt: &R,
    alloc: Global,
    cases: &[u8],
) -> io::Result<()> {
    for case in cases.split(|octet| *octet == b'#').skip(1) {
        print_case(rt, alloc, case)?;
    }
    print_scenes(rt, alloc)
}
