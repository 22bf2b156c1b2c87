//! What the commands `expand` and `check` tell of calendar files in memory.

use crate::texts::{case_parts, parts};
use cal_base::{List, MemoryFiles, MemorySink, NoMemory, Octets, Word};
use file_commands::{ToolEnd, run_check, run_expand};
use std::alloc::Global;
use std::io;

/// The number of no call.
const NONE: u64 = u64::MAX;

/// A file is not made longer.
const MOST_OCTETS: u64 = 1 << 20;

/// A command, and what it is run on.
#[derive(Clone, Copy)]
struct Run<'a> {
    /// The number of the read that fails.
    failing_read: u64,
    /// The number of the write that fails.
    failing_write: u64,
    /// The words, with spaces between.
    words: &'a str,
    /// What the file `file` is made of.
    file: &'a [u8],
    /// What the file `zone` is made of.
    zone: &'a [u8],
}

/// The number that a word says; of no call, where it says none.
fn number(word: &[u8]) -> u64 {
    match str::from_utf8(word) {
        Ok(word) => word.parse::<u64>().unwrap_or(NONE),
        Err(_) => NONE,
    }
}

/// The run that a line `READ WRITE WORD..` states, over these texts.
fn read_run<'a>(line: &'a [u8], texts: &'a [u8]) -> Run<'a> {
    let (read, words) = parts(line, b' ');
    let (write, words) = parts(words, b' ');
    let (file, zone) = parts(texts, b'|');
    Run {
        failing_read: number(read),
        failing_write: number(write),
        words: str::from_utf8(words).unwrap_or(""),
        file,
        zone,
    }
}

/// The words of a command.
fn words(alloc: Global, text: &str) -> Result<List<Word>, NoMemory> {
    let mut words = List::new(alloc);
    for word in text.split_whitespace() {
        words.push(Word::of(alloc, word)?)?;
    }
    Ok(words)
}

/// The first of several words.
fn first_word(words: &List<Word>) -> &str {
    match words.get(0) {
        Some(word) => word.as_str(),
        None => "",
    }
}

/// How many letters make a text of two parts as long as a number between them says.
fn letters_between(front: &[u8], length: &[u8], back: &[u8]) -> u64 {
    let length = number(length);
    if length == NONE {
        return 0;
    }
    length
        .min(MOST_OCTETS)
        .saturating_sub(front.len() as u64)
        .saturating_sub(back.len() as u64)
}

/// A text; where a number stands in it between two tildes, as many letters as make it so long.
fn filled(alloc: Global, text: &[u8]) -> Result<Octets, NoMemory> {
    let (front, rest) = parts(text, b'~');
    let (length, back) = parts(rest, b'~');
    let letters = letters_between(front, length, back);
    let mut out = Octets::of(alloc, front)?;
    for _ in 0..letters {
        out.push(b'x')?;
    }
    out.extend_from_slice(back)?;
    Ok(out)
}

/// Puts a file beside others.
fn put(
    alloc: Global,
    files: &mut List<(Octets, Octets)>,
    path: &[u8],
    text: &[u8],
) -> Result<(), NoMemory> {
    let content = filled(alloc, text)?;
    files.push((Octets::of(alloc, path)?, content))
}

/// The files of a run.
fn files(alloc: Global, run: &Run<'_>) -> Result<MemoryFiles, NoMemory> {
    let mut files = List::new(alloc);
    put(alloc, &mut files, b"file", run.file)?;
    put(alloc, &mut files, b"zone", run.zone)?;
    let failing = List::of(alloc, &[run.failing_read])?;
    Ok(MemoryFiles::new(files, failing))
}

/// Runs a command.
fn run_command(alloc: Global, run: &Run<'_>, sink: &mut MemorySink) -> Result<ToolEnd, NoMemory> {
    let words = words(alloc, run.words)?;
    let mut files = files(alloc, run)?;
    if first_word(&words) == "check" {
        Ok(run_check(alloc, &words, &mut files, sink))
    } else {
        Ok(run_expand(alloc, &words, &mut files, sink))
    }
}

/// Prints what a command wrote, how it ended, and the line that it told.
fn print_end(rt: &HostRuntime, end: &ToolEnd, written: &[u8]) -> io::Result<()> {
    print!(rt; "{}", str::from_utf8(written).unwrap_or("no text\n"))?;
    print!(rt; "status {} place {}", end.end.status, end.end.place)?;
    println!(rt;
        " line '{}'",
        str::from_utf8(end.line.as_slice()).unwrap_or("no text")
    )
}

/// Prints what comes of a run.
fn print_run(rt: &HostRuntime, run: &Run<'_>) -> io::Result<()> {
    let Ok(failing) = List::of(rt.alloc(), &[run.failing_write]) else {
        return println!(rt; "out of memory");
    };
    let mut sink = MemorySink::new(rt.alloc(), failing);
    match run_command(rt.alloc(), run, &mut sink) {
        Ok(end) => print_end(rt, &end, sink.written()),
        Err(NoMemory) => println!(rt; "out of memory"),
    }
}

/// Prints what a case gives.
fn print_case(rt: &HostRuntime, case: &[u8]) -> io::Result<()> {
    let (title, case) = case_parts(case);
    println!(rt; "#{}", str::from_utf8(title).unwrap_or(""))?;
    let (texts, lines) = parts(case, b'$');
    for line in lines.split(|octet| *octet == b'$') {
        print_run(rt, &read_run(line, texts))?;
    }
    Ok(())
}

/// Prints for each case, a line `#TITLE`, the texts of one or two files and then lines
/// `$READ WRITE WORD..`, its title and what comes of each command: what it wrote, the status and the
/// place of its end, and the line that it told.
///
/// READ and WRITE number the read of a file and the write of the output that fail, counted from 0; `-`
/// stands for none. The first text is that of the file `file`, and behind a `|` stands that of the file
/// `zone`. Where a number stands between two tildes in a text, as many letters stand there as make the
/// file so long.
pub fn print_files(rt: &HostRuntime, cases: &[u8]) -> io::Result<()> {
    for case in cases.split(|octet| *octet == b'#').skip(1) {
        print_case(rt, case)?;
    }
    Ok(())
}
