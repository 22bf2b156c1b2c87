//! Scripts at a journal file, over a disk in memory: what they leave, also where a call of the disk fails
//! and where a stop comes within one.

use crate::desks::{End, Unready, source_of};
use crate::journal_threads::{Outcome, Sessions, race_over};
use crate::kept_runs::{Found, Run, found_in, found_words, run_over};
use crate::texts::parts;
use crate::users::{THREE, TWO, shared_users};
use cal_base::{Arc, List, MemorySink, NoMemory, Octets};
use cal_keeper::MemoryDisk;
use cal_script::run_frames;
use privileges::Users;
use std::alloc::{AllocError, Global};
use std::io;
use std::sync::Wait;
use std::thread::Threads;

/// The file that runs leave, their frames, and what they wrote.
#[derive(Drop)]
struct Story {
    file: Octets,
    frames: Octets,
    written: Octets,
}

/// What is looked at for each call of a disk.
#[derive(Clone, Copy)]
enum Look<'a> {
    /// Frames at a file, where the call fails.
    Failing(&'a [u8], &'a [u8]),
    /// What a stop within the call leaves of a disk.
    Stopped(&'a MemoryDisk),
    /// Two sessions, where the call fails.
    Both(&'a Sessions<'a>),
}

/// How a run ended, in words.
fn end_words(alloc: Global, end: &End) -> Result<String, AllocError> {
    match end {
        End::Done(place) => format!(in alloc; "done {place}"),
        End::CutShort => String::from_str(alloc, "cut short"),
        End::Broken => String::from_str(alloc, "broken"),
        End::Unready(Unready::Refused(place)) => format!(in alloc; "refused at {place}"),
        End::Unready(Unready::Mismatch(place, _, _)) => format!(in alloc; "refused at {place}"),
        End::Unready(Unready::Failed) => String::from_str(alloc, "failed"),
        End::Unready(Unready::NoMemory) => String::from_str(alloc, "out of memory"),
    }
}

/// How a run ended where a call of the disk failed, how much it wrote, and what the file that is left is
/// loaded as.
fn failing_line(alloc: Global, users: &Arc<Users>, run: &Run) -> Result<String, NoMemory> {
    let end = end_words(alloc, &run.end)?;
    let found = found_words(alloc, users, run.disk.octets())?;
    let written = run.output.written().len();
    let line = format!(in alloc; "a call fails: {end}, {written} octets written, then {found}")?;
    Ok(line)
}

/// What a stop within a call leaves, with what is not synced or without it.
fn left_by(
    alloc: Global,
    users: &Arc<Users>,
    disk: &MemoryDisk,
    call: u64,
    written: bool,
) -> Result<String, NoMemory> {
    if disk.calls() <= call {
        return Err(NoMemory);
    }
    let image = disk.stopped(call, written)?;
    found_words(alloc, users, image.as_slice())
}

/// What a stop within a call leaves, with the octets of that call and those before it that are not synced,
/// and without them.
fn stop_line(
    alloc: Global,
    users: &Arc<Users>,
    disk: &MemoryDisk,
    call: u64,
) -> Result<String, NoMemory> {
    let without = left_by(alloc, users, disk, call, false)?;
    let with = left_by(alloc, users, disk, call, true)?;
    let line = format!(in alloc; "stopped within a call: {without}, or {with}")?;
    Ok(line)
}

/// What two sessions came to, behind some words.
fn outcome_line(alloc: Global, front: &str, outcome: &Outcome) -> Result<String, NoMemory> {
    let (answered, kept) = (outcome.answered, outcome.kept);
    let others = if outcome.is_right {
        ""
    } else {
        ", and others than these"
    };
    let line = format!(in alloc; "{front}{answered} answered, {kept} in the file{others}")?;
    Ok(line)
}

/// What is told of a call; an empty text, if nothing is.
fn line_at<R: Threads + Wait + Sync>(
    rt: &R,
    alloc: Global,
    users: &Arc<Users>,
    look: Look<'_>,
    call: u64,
) -> Result<String, NoMemory> {
    match look {
        Look::Failing(file, frames) => match run_over(alloc, users, file, call, frames) {
            Ok(run) => failing_line(alloc, users, &run),
            Err(NoMemory) => Err(NoMemory),
        },
        Look::Stopped(disk) => stop_line(alloc, users, disk, call),
        Look::Both(sessions) => match race_over(rt, alloc, users, sessions, call)? {
            Some(outcome) => outcome_line(alloc, "a call fails: ", &outcome),
            None => Ok(String::new(alloc)),
        },
    }
}

/// Prints what is told of each call in turn, a line for each that differs from the one before.
fn print_lines<R: Threads + Wait + Sync + Print>(
    rt: &R,
    alloc: Global,
    users: &Arc<Users>,
    look: Look<'_>,
    calls: u64,
) -> io::Result<()> {
    let mut last = String::new(alloc);
    for call in 0..calls {
        let Ok(line) = line_at(rt, alloc, users, look, call) else {
            return println!(rt; "out of memory");
        };
        if !line.as_bytes().is_empty() && line.as_bytes() != last.as_bytes() {
            println!(rt; "{line}")?;
        }
        last = line;
    }
    Ok(())
}

/// Prints how a run ended, how long its file is and what it wrote.
fn print_end<R: Print>(rt: &R, alloc: Global, run: &Run) -> io::Result<()> {
    let Ok(end) = end_words(alloc, &run.end) else {
        return println!(rt; "out of memory");
    };
    println!(rt; "{end}, a file of {} octets", run.disk.octets().len())?;
    match str::from_utf8(run.output.written()) {
        Ok(text) => print!(rt; "{text}"),
        Err(_) => println!(rt; "no text"),
    }
}

/// Puts a run behind those of a story.
fn go_on(alloc: Global, story: &mut Story, frames: &[u8], run: &Run) -> Result<(), NoMemory> {
    story.frames.extend_from_slice(frames)?;
    story.written.extend_from_slice(run.output.written())?;
    story.file = Octets::of(alloc, run.disk.octets())?;
    Ok(())
}

/// Prints a run at the file that those before it left, and goes on with it: how it ends and what it writes;
/// what comes where a call of the disk fails; and what a stop within one leaves.
fn print_run<R: Threads + Wait + Sync + Print>(
    rt: &R,
    alloc: Global,
    users: &Arc<Users>,
    story: &mut Story,
    frames: &[u8],
    run: &Run,
) -> io::Result<()> {
    print_end(rt, alloc, run)?;
    let calls = run.disk.calls();
    print_lines(
        rt,
        alloc,
        users,
        Look::Failing(story.file.as_slice(), frames),
        calls,
    )?;
    print_lines(rt, alloc, users, Look::Stopped(&run.disk), calls)?;
    match go_on(alloc, story, frames, run) {
        Ok(()) => Ok(()),
        Err(NoMemory) => println!(rt; "out of memory"),
    }
}

/// Whether all runs wrote what one run without a file writes.
fn is_written_unkept(alloc: Global, users: &Arc<Users>, story: &Story) -> Result<bool, NoMemory> {
    let shared = Arc::try_clone(users)?;
    let mut input = source_of(alloc, story.frames.as_slice())?;
    let mut output = MemorySink::new(alloc, List::new(alloc));
    let _ = run_frames(alloc, shared, &mut input, &mut output);
    Ok(output.written() == story.written.as_slice())
}

/// Prints whether they did.
fn print_unkept<R: Print>(
    rt: &R,
    alloc: Global,
    users: &Arc<Users>,
    story: &Story,
) -> io::Result<()> {
    match is_written_unkept(alloc, users, story) {
        Ok(true) => println!(rt; "without a file: the same replies"),
        Ok(false) => println!(rt; "without a file: other replies"),
        Err(NoMemory) => println!(rt; "out of memory"),
    }
}

/// Prints what the file is loaded as for other users.
fn print_for_others<R: Print>(rt: &R, alloc: Global, story: &Story) -> io::Result<()> {
    let Ok(users) = shared_users(alloc, TWO) else {
        return println!(rt; "no users");
    };
    match found_words(alloc, &users, story.file.as_slice()) {
        Ok(found) => println!(rt; "for other users: {found}"),
        Err(NoMemory) => println!(rt; "for other users: out of memory"),
    }
}

/// Prints what comes of two sessions: how many requests they are answered, and how many entries more the file
/// has; and the same where each call of the disk fails in turn.
fn print_sessions<R: Threads + Wait + Sync + Print>(
    rt: &R,
    alloc: Global,
    users: &Arc<Users>,
    sessions: &Sessions<'_>,
) -> io::Result<()> {
    let Ok(Some(outcome)) = race_over(rt, alloc, users, sessions, u64::MAX) else {
        return println!(rt; "out of memory");
    };
    let Ok(line) = outcome_line(alloc, "", &outcome) else {
        return println!(rt; "out of memory");
    };
    println!(rt; "{line}")?;
    print_lines(rt, alloc, users, Look::Both(sessions), outcome.calls)
}

/// Prints what comes of a case behind its title.
fn print_behind<R: Threads + Wait + Sync + Print>(
    rt: &R,
    alloc: Global,
    users: &Arc<Users>,
    story: &mut Story,
    title: &[u8],
    text: &[u8],
) -> io::Result<()> {
    if title == b"two sessions".as_slice() {
        let file = story.file.as_slice();
        let octets = parts(text, b'|');
        match found_in(alloc, users, file) {
            Ok(Found::Entries(before)) => {
                let sessions = Sessions {
                    file,
                    before,
                    octets,
                };
                print_sessions(rt, alloc, users, &sessions)
            }
            _ => println!(rt; "out of memory"),
        }
    } else {
        match run_over(alloc, users, story.file.as_slice(), u64::MAX, text) {
            Ok(run) => print_run(rt, alloc, users, story, text, &run),
            Err(NoMemory) => println!(rt; "out of memory"),
        }
    }
}

/// Prints the cases, and behind them what all runs wrote and what their file is loaded as for other users.
fn print_story<R: Threads + Wait + Sync + Print>(
    rt: &R,
    alloc: Global,
    users: &Arc<Users>,
    story: &mut Story,
    cases: &[u8],
) -> io::Result<()> {
    for case in cases.split(|octet| *octet == b'#').skip(1) {
        let (title, text) = parts(case, b'\n');
        println!(rt; "# {}", str::from_utf8(title).unwrap_or(""))?;
        print_behind(rt, alloc, users, story, title, text)?;
    }
    print_unkept(rt, alloc, users, story)?;
    print_for_others(rt, alloc, story)
}

/// Prints what comes of runs at one journal file of three users, which is not there before the first.
///
/// A case is a line `#TITLE` and the frames of a run, which goes on with the file that the one before it
/// left. Printed are its end, the length of its file and what it writes; then, of the same run with each
/// call of the disk failing in turn, how it ends, how much it writes, and what the file that is left is
/// loaded as; then what is loaded after a stop within each call, without and with what is not synced. Of
/// calls one behind another whose lines are the same one is printed. The case `two sessions` has the octets
/// of two connections with a `|` between, which two sessions answer at once. Printed is how many requests
/// they are answered, how many entries more the file has then, and whether these are others than what was
/// answered and at most one behind it; and then the same where each call of the disk fails in turn. Behind
/// the cases: whether the runs wrote what one without a file writes, and what the file is loaded as for
/// other users.
pub fn print_journals<R: Threads + Wait + Sync + Print>(
    rt: &R,
    alloc: Global,
    cases: &[u8],
) -> io::Result<()> {
    let Ok(users) = shared_users(alloc, THREE) else {
        return println!(rt; "no users");
    };
    let mut story = Story {
        file: Octets::new(alloc),
        frames: Octets::new(alloc),
        written: Octets::new(alloc),
    };
    print_story(rt, alloc, &users, &mut story, cases)
}
