//! Books that are kept in the file of a disk in memory: what they answer and keep, what is loaded of a file,
//! and what is answered and kept where a call of the disk fails.

use crate::claims::print_entries;
use crate::desks::{End, Unready};
use crate::kept_runs::{Found, Run, found_in, load, run_over};
use crate::runs::replies;
use crate::script_case::number;
use crate::texts::parts;
use crate::users::{TWO, shared_users};
use cal_base::{Arc, NoMemory, Octets};
use privileges::Users;
use std::alloc::Global;
use std::io;

/// More calls than the disk of a case has.
const CALLS: u64 = 200;

/// How a run ended, by a word.
fn end_word(end: &End) -> &'static str {
    match end {
        End::Done(_) => "done",
        End::CutShort => "cut short",
        End::Broken => "broken",
        End::Unready(_) => "not loaded",
    }
}

/// Octets up to one place, and behind them those from another on.
fn spliced(alloc: Global, octets: &[u8], end: usize, begin: usize) -> Result<Octets, NoMemory> {
    let mut file = Octets::of(alloc, &octets[..end.min(octets.len())])?;
    file.extend_from_slice(&octets[begin.min(octets.len())..])?;
    Ok(file)
}

/// Prints why a book is not ready.
fn print_unready(rt: &HostRuntime, why: &Unready) -> io::Result<()> {
    match why {
        Unready::Refused(place) => println!(rt; "refused at {place}"),
        Unready::Mismatch(place, kept, made) => {
            println!(rt; "at {place} status {kept} is kept, and {made} is made")
        }
        Unready::Failed => println!(rt; "a call failed"),
        Unready::NoMemory => println!(rt; "out of memory"),
    }
}

/// Prints how frames ended at a new book, how many replies were written, how many octets its file has,
/// and what is expanded next.
fn print_run(rt: &HostRuntime, run: &Run) -> io::Result<()> {
    let end = end_word(&run.end);
    let replies = replies(run.output.written());
    let octets = run.disk.octets().len();
    print!(rt; "{end}: {replies} replies, {octets} octets; ")?;
    match run.next {
        Some((origin, _)) => println!(rt; "object {origin} is expanded next"),
        None => println!(rt; "nothing is to be expanded"),
    }
}

/// Prints what a file with these octets is loaded as.
fn print_file(rt: &HostRuntime, users: &Arc<Users>, octets: &[u8]) -> io::Result<()> {
    match load(rt.alloc(), users, octets) {
        Ok(Ok(kept)) => print_entries(rt, kept.book()),
        Ok(Err((why, _))) => print_unready(rt, &why),
        Err(NoMemory) => println!(rt; "out of memory"),
    }
}

/// Prints what became of frames at a new book, and what is loaded of its file up to one place and from another
/// on.
fn print_parts(
    rt: &HostRuntime,
    users: &Arc<Users>,
    run: &Run,
    end: usize,
    begin: usize,
) -> io::Result<()> {
    print_run(rt, run)?;
    match spliced(rt.alloc(), run.disk.octets(), end, begin) {
        Ok(file) => print_file(rt, users, file.as_slice()),
        Err(NoMemory) => println!(rt; "out of memory"),
    }
}

/// The same, where frames are run at a new book.
fn print_spliced(
    rt: &HostRuntime,
    users: &Arc<Users>,
    frames: &[u8],
    end: usize,
    begin: usize,
) -> io::Result<()> {
    match run_over(rt.alloc(), users, &[], u64::MAX, frames) {
        Ok(run) => print_parts(rt, users, &run, end, begin),
        Err(NoMemory) => println!(rt; "out of memory"),
    }
}

/// How many more entries are in the file of a run than replies were written; where a call failed while the book
/// was loaded, none are owed.
fn surplus_of(alloc: Global, users: &Arc<Users>, run: &Run) -> Result<Option<u64>, NoMemory> {
    if matches!(run.end, End::Unready(Unready::Failed)) {
        return Ok(Some(0));
    }
    let replies = replies(run.output.written()) as u64;
    match found_in(alloc, users, run.disk.octets())? {
        Found::Entries(entries) => Ok(entries.checked_sub(replies)),
        _ => Ok(None),
    }
}

/// The same of frames at a new book, where the call of that number fails.
fn surplus(
    alloc: Global,
    users: &Arc<Users>,
    frames: &[u8],
    call: u64,
) -> Result<Option<u64>, NoMemory> {
    match run_over(alloc, users, &[], call, frames) {
        Ok(run) => surplus_of(alloc, users, &run),
        Err(NoMemory) => Err(NoMemory),
    }
}

/// Lets each call of the disk fail in turn, and prints how many leave a file with what was answered, and how
/// many one with one change more.
fn print_failing(rt: &HostRuntime, users: &Arc<Users>, frames: &[u8]) -> io::Result<()> {
    let mut same = 0u64;
    let mut more = 0u64;
    for call in 0..CALLS {
        match surplus(rt.alloc(), users, frames, call) {
            Ok(Some(0)) => same = same.wrapping_add(1),
            Ok(Some(1)) => more = more.wrapping_add(1),
            Ok(_) => println!(rt; "call {call} leaves another file")?,
            Err(NoMemory) => println!(rt; "out of memory at call {call}")?,
        }
    }
    println!(rt; "of {CALLS} calls {same} leave what was answered, {more} one change more")
}

/// Prints what a case of these users gives.
fn print_case(rt: &HostRuntime, users: &Arc<Users>, text: &[u8]) -> io::Result<()> {
    let (line, frames) = parts(text, b'\n');
    let (end, begin) = parts(line, b' ');
    if end == b"fails".as_slice() {
        print_failing(rt, users, frames)
    } else {
        print_spliced(
            rt,
            users,
            frames,
            number(end) as usize,
            number(begin) as usize,
        )
    }
}

/// Prints what a case gives, a line of two numbers or the word `fails`, and the frames of a script: what comes
/// of the frames at a new book of alice and bob whose file was not there.
///
/// Two numbers: how the frames ended, how many replies were written, how many octets the file has and the entry
/// of the object that is expanded next; and
/// behind that what is loaded of a file that has those octets up to the first number, and behind them those
/// from the second on: its entries, or why it is not. `fails`: each of the first 200 calls of the disk fails in
/// turn, and counted is what is loaded of the file that is left.
pub fn print_kept(rt: &HostRuntime, text: &[u8]) -> io::Result<()> {
    match shared_users(rt.alloc(), TWO) {
        Ok(users) => print_case(rt, &users, text),
        Err(NoMemory) => println!(rt; "no users"),
    }
}
