//! The CalDAV server.
//!
//! Given: the words of the command, standard input, files and the network. Gives: what the command's
//! function answers, as standard output, a line on standard error and the status. Used by: whoever
//! runs the server.
#![tactic(auto)]

mod cause;
mod desks;
mod kept_script;
mod kept_serve;
#[cfg(test)]
mod kept_tests;
mod load;
mod load_joins;
mod load_sessions;
mod migrate;
#[cfg(test)]
mod migrate_tests;
mod serve;
mod sessions;
mod slot;
#[cfg(test)]
mod slot_tests;
mod telling_door;
mod threads;

use crate::cause::print_cause;
use crate::kept_script::run_kept_script;
use crate::kept_serve::run_kept_serve;
use crate::load::run_load;
use crate::migrate::{MigrateEnd, Side, run_migrate};
use crate::serve::run_serve;
use crate::slot::run_slot;
use crate::telling_door::TellingDoor;
use cal_base::{List, NoMemory, Octets, StdFiles, StdSink, StdSource, TcpDoor, Word};
use cal_keeper::FileDisk;
use cal_script::{ScriptEnd, run_script};
use command_words::{
    HELP, MigrateWords, SCRIPT_HELP, Untaken, VERSION, check_text, expand_text, journal_path,
    load_text, migrate_text, read_migrate, serve_text, slot_text,
};
use file_commands::{ToolEnd, run_check, run_expand};
use std::process::ExitCode;
use std::sync::Wait;
use std::thread::Threads;
use std::{env, io};

/// Makes the list of words, and calls the command that the first of them names.
fn main(rt: HostRuntime) -> ExitCode {
    let Ok(words) = words(&rt) else {
        return ended(&rt, USAGE_OF_SCRIPT, WITHOUT_MEMORY);
    };
    if is_answered(&rt, &words) {
        return ExitCode::SUCCESS;
    }
    if word_at(&words, 0) == "serve" {
        let end = end_of_serve(&rt, &rt, &words);
        let status = ended(&rt, "serve", end);
        let _ = print_cause(&rt, words.as_slice(), end);
        return status;
    }
    if word_at(&words, 0) == "load" {
        let end = run_load(&rt, rt.alloc(), &words, &mut StdSink::new(&rt));
        return ended(&rt, "load", end);
    }
    if word_at(&words, 0) == "slot" {
        return ended(&rt, "slot", end_of_slot(&rt, &words));
    }
    if word_at(&words, 0) == "migrate" {
        return ended_migrate(&rt, &words);
    }
    if word_at(&words, 0) == "expand" {
        let mut files = StdFiles::new(&rt);
        let end = run_expand(rt.alloc(), &words, &mut files, &mut StdSink::new(&rt));
        return told(&rt, "expand", end);
    }
    if word_at(&words, 0) == "check" {
        let mut files = StdFiles::new(&rt);
        let end = run_check(rt.alloc(), &words, &mut files, &mut StdSink::new(&rt));
        return told(&rt, "check", end);
    }
    ended(&rt, USAGE_OF_SCRIPT, end_of_script(&rt, &words))
}

/// The end of the command `serve`, which is at a journal file where a word names one.
fn end_of_serve<R: Threads + Wait + Sync>(
    rt: &HostRuntime,
    threads: &R,
    words: &List<Word>,
) -> ScriptEnd {
    let alloc = rt.alloc();
    let mut files = StdFiles::new(rt);
    let mut door = TellingDoor::new(rt, TcpDoor::new(rt));
    let Some(path) = journal_path(words.as_slice()) else {
        return run_serve(threads, alloc, words, &mut files, &mut door);
    };
    let Ok(path) = Word::of(alloc, path) else {
        return WITHOUT_MEMORY;
    };
    let disk = FileDisk::new(rt, alloc, path);
    let (end, _disk) = run_kept_serve(threads, alloc, words, &mut files, disk, &mut door);
    end
}

/// The end of the command `script`, which is at a journal file where the words are five and the fourth of
/// them is `--journal`.
fn end_of_script(rt: &HostRuntime, words: &List<Word>) -> ScriptEnd {
    let alloc = rt.alloc();
    let mut files = StdFiles::new(rt);
    let mut input = StdSource::new(rt);
    let mut output = StdSink::new(rt);
    if words.len() != 5 || word_at(words, 3) != "--journal" {
        return run_script(alloc, words, &mut files, &mut input, &mut output);
    }
    let Ok(path) = Word::of(alloc, word_at(words, 4)) else {
        return WITHOUT_MEMORY;
    };
    let disk = FileDisk::new(rt, alloc, path);
    let (end, _disk) = run_kept_script(alloc, words, &mut files, disk, &mut input, &mut output);
    end
}

/// The end of the command `slot`. Its words name a journal file, if they are taken.
fn end_of_slot(rt: &HostRuntime, words: &List<Word>) -> ScriptEnd {
    let alloc = rt.alloc();
    let mut files = StdFiles::new(rt);
    let mut output = StdSink::new(rt);
    let path = match journal_path(words.as_slice()) {
        Some(path) => path,
        None => "",
    };
    let Ok(path) = Word::of(alloc, path) else {
        return WITHOUT_MEMORY;
    };
    let disk = FileDisk::new(rt, alloc, path);
    let (end, _disk) = run_slot(alloc, words, &mut files, disk, &mut output);
    end
}

/// Runs the command `migrate` between the two journal files that its words name, if they are taken, prints
/// its line, and gives its status to the system.
fn ended_migrate(rt: &HostRuntime, words: &List<Word>) -> ExitCode {
    let alloc = rt.alloc();
    let said = match read_migrate(alloc, words.as_slice()) {
        Ok(said) => said,
        Err(Untaken::Words) => NO_PATHS,
        Err(Untaken::NoMemory) => NO_PATHS,
    };
    let Ok(journal) = Word::of(alloc, said.journal) else {
        return ended(rt, "migrate", WITHOUT_MEMORY);
    };
    let Ok(to) = Word::of(alloc, said.to) else {
        return ended(rt, "migrate", WITHOUT_MEMORY);
    };
    let mut files = StdFiles::new(rt);
    let mut new_files = StdFiles::new(rt);
    let from = FileDisk::new(rt, alloc, journal);
    let to = FileDisk::new(rt, alloc, to);
    let (end, _from, _to) = run_migrate(alloc, words, &mut files, &mut new_files, from, to);
    let _ = report_migrate(rt, &said, &end);
    ExitCode::from(end.status())
}

/// What words say that are not taken.
const NO_PATHS: MigrateWords<'static> = MigrateWords {
    users: "",
    journal: "",
    new_users: "",
    to: "",
};

/// Prints the line of an end of `migrate`, which begins with the path of the file that it tells of.
fn report_migrate(rt: &HostRuntime, said: &MigrateWords<'_>, end: &MigrateEnd) -> io::Result<()> {
    match end {
        MigrateEnd::Done => Ok(()),
        MigrateEnd::Words => eprintln!(rt; "usage: caldav_server migrate"),
        MigrateEnd::Line(side, place) => {
            let path = users_file(said, *side);
            eprintln!(rt; "{path}: bad line at octet {place}")
        }
        MigrateEnd::Unread(side) => {
            let path = users_file(said, *side);
            eprintln!(rt; "{path}: input fault")
        }
        MigrateEnd::UserGone(name) => {
            let name = name_text(name);
            eprintln!(rt; "{}: no user {name}", said.new_users)
        }
        MigrateEnd::GroupGone(name) => {
            let name = name_text(name);
            eprintln!(rt; "{}: no group {name}", said.new_users)
        }
        MigrateEnd::Refused(place) => {
            eprintln!(rt; "{}: refused at octet {place}", said.journal)
        }
        MigrateEnd::Declined(place) => {
            eprintln!(rt;
                "{}: change at octet {place} is not accepted for the new users",
                said.journal
            )
        }
        MigrateEnd::NotEmpty(octets) => {
            eprintln!(rt; "{}: has {octets} octets already", said.to)
        }
        MigrateEnd::OldFailed => eprintln!(rt; "{}: journal fault", said.journal),
        MigrateEnd::NotBegun => eprintln!(rt; "{}: journal fault", said.to),
        MigrateEnd::NewFailed => eprintln!(rt; "{}: journal fault", said.to),
        MigrateEnd::NoMemory => eprintln!(rt; "out of memory"),
    }
}

/// The path of one of the users files.
fn users_file<'a>(said: &MigrateWords<'a>, side: Side) -> &'a str {
    match side {
        Side::Old => said.users,
        Side::New => said.new_users,
    }
}

/// A name of a users file, which is of ASCII.
fn name_text(name: &Octets) -> &str {
    match str::from_utf8(name.as_slice()) {
        Ok(text) => text,
        Err(_) => "",
    }
}

/// The words of the command `script`, as its usage shows them.
const USAGE_OF_SCRIPT: &str = "script --users FILE";

/// The end of a command for whose words there is no memory.
const WITHOUT_MEMORY: ScriptEnd = ScriptEnd {
    status: 7,
    place: 0,
};

/// The words behind the program's name. Where one is not UTF-8 there are none, which no command
/// takes.
fn words(rt: &HostRuntime) -> Result<List<Word>, NoMemory> {
    let alloc = rt.alloc();
    let mut words = List::new(alloc);
    let args = match env::args(rt) {
        Ok(args) => args,
        Err(error) if error.kind() == io::ErrorKind::OutOfMemory => return Err(NoMemory),
        Err(_) => return Ok(words),
    };
    for arg in args.skip(1) {
        words.push(Word::of(alloc, arg.as_str())?)?;
    }
    Ok(words)
}

/// The word at a place, if there is one.
fn word_at(words: &List<Word>, place: usize) -> &str {
    match words.get(place) {
        Some(word) => word.as_str(),
        None => "",
    }
}

/// Prints help or the version where the words ask for it, and says whether they do.
fn is_answered(rt: &HostRuntime, words: &List<Word>) -> bool {
    let first = word_at(words, 0);
    if first == "script" {
        return is_told(rt, word_at(words, 1), SCRIPT_HELP);
    }
    if first == "serve" {
        if let Some(text) = serve_text(rt.alloc(), words.as_slice()) {
            let _ = text.print(rt);
            return true;
        }
    }
    if first == "load" {
        if let Some(text) = load_text(rt.alloc(), words.as_slice()) {
            let _ = text.print(rt);
            return true;
        }
    }
    if first == "slot" {
        if let Some(text) = slot_text(rt.alloc(), words.as_slice()) {
            let _ = text.print(rt);
            return true;
        }
    }
    if first == "migrate" {
        if let Some(text) = migrate_text(rt.alloc(), words.as_slice()) {
            let _ = text.print(rt);
            return true;
        }
    }
    if first == "expand" {
        if let Some(text) = expand_text(rt.alloc(), words.as_slice()) {
            let _ = text.print(rt);
            return true;
        }
    }
    if first == "check" {
        if let Some(text) = check_text(rt.alloc(), words.as_slice()) {
            let _ = text.print(rt);
            return true;
        }
    }
    is_told(rt, first, HELP)
}

/// Prints this help, or the version, where the word asks for it, and says whether it does.
fn is_told(rt: &HostRuntime, word: &str, help: &str) -> bool {
    if word == "--help" || word == "-h" {
        let _ = print!(rt; "{help}");
        return true;
    }
    if word == "--version" || word == "-V" {
        let _ = println!(rt; "caldav_server {VERSION}");
        return true;
    }
    false
}

/// Prints the line that an end tells on standard error, or else that of its status, and gives the status
/// to the system.
fn told(rt: &HostRuntime, usage: &str, told: ToolEnd) -> ExitCode {
    if let Ok(line) = str::from_utf8(told.line.as_slice()) {
        if !line.is_empty() {
            let _ = eprintln!(rt; "{line}");
        }
    }
    ended(rt, usage, told.end)
}

/// Prints the line of a status on standard error, and gives the status to the system.
fn ended(rt: &HostRuntime, usage: &str, end: ScriptEnd) -> ExitCode {
    let _ = report(rt, usage, end);
    ExitCode::from(end.status)
}

/// Prints the line of a status; status 0 has none.
fn report(rt: &HostRuntime, usage: &str, end: ScriptEnd) -> io::Result<()> {
    let place = end.place;
    match end.status {
        2 => eprintln!(rt; "usage: caldav_server {usage}"),
        3 => eprintln!(rt; "users file: bad line at octet {place}"),
        4 => eprintln!(rt; "input fault"),
        5 => eprintln!(rt; "output fault"),
        6 => eprintln!(rt; "script: bad frame at octet {place}"),
        7 => eprintln!(rt; "out of memory"),
        8 => eprintln!(rt; "journal fault"),
        9 => eprintln!(rt; "journal: refused at octet {place}"),
        10 => eprintln!(rt; "slot: refused word {place}"),
        _ => Ok(()),
    }
}
