//! Scripts over words, files, an input and an output in memory.

use crate::files::files;
use crate::script_case::{Script, number, read_case};
use crate::texts::put_many;
use cal_base::{List, MemorySink, MemorySource, NoMemory, Octets, Word};
use cal_script::{ScriptEnd, run_script};
use std::alloc::Global;
use std::io;

/// What the frame of one octet begins with: 09:46:40 on 10 March 2025.
const OCTET: &[u8] = b"bytes 0 1741600000 1\n";

/// What a worker does behind it.
const WORK: &[u8] = b"\nclaim 0\nexpand 0\npublish 0\n";

/// More spaces are not put for one number.
const MOST_SPACES: u64 = 1 << 20;

/// How much a source may give.
pub const ALLOWANCE: u64 = 1 << 62;

/// The words of a command.
fn words(alloc: Global, text: &str) -> Result<List<Word>, NoMemory> {
    let mut words = List::new(alloc);
    for word in text.split_whitespace() {
        words.push(Word::of(alloc, word)?)?;
    }
    Ok(words)
}

/// Octets, one a frame, with frames of a worker behind each.
fn octet_frames(alloc: Global, text: &[u8]) -> Result<Octets, NoMemory> {
    let mut input = Octets::new(alloc);
    for octet in text {
        input.extend_from_slice(OCTET)?;
        input.push(*octet)?;
        input.extend_from_slice(WORK)?;
    }
    Ok(input)
}

/// A text, with spaces for each number between two tildes.
fn filled(alloc: Global, text: &[u8]) -> Result<Octets, NoMemory> {
    let mut out = Octets::new(alloc);
    for (place, part) in text.split(|octet| *octet == b'~').enumerate() {
        if place % 2 == 0 {
            out.extend_from_slice(part)?;
        } else {
            put_many(&mut out, b' ', number(part).min(MOST_SPACES))?;
        }
    }
    Ok(out)
}

/// The input of a case.
fn source(alloc: Global, script: &Script<'_>) -> Result<MemorySource, NoMemory> {
    let input = if script.in_octets {
        octet_frames(alloc, script.text)?
    } else {
        filled(alloc, script.text)?
    };
    let failing = List::of(alloc, &[script.failing_read])?;
    Ok(MemorySource::new(input, failing, ALLOWANCE))
}

/// Runs a case.
fn run(alloc: Global, script: &Script<'_>, sink: &mut MemorySink) -> Result<ScriptEnd, NoMemory> {
    let mut source = source(alloc, script)?;
    let words = words(alloc, script.words)?;
    let mut files = files(alloc)?;
    Ok(run_script(alloc, &words, &mut files, &mut source, sink))
}

/// Prints an end and an output.
fn print_end(rt: &HostRuntime, end: ScriptEnd, written: &[u8]) -> io::Result<()> {
    println!(rt; "status {} place {}", end.status, end.place)?;
    match str::from_utf8(written) {
        Ok(text) => print!(rt; "{text}"),
        Err(_) => println!(rt; "{} octets that are no text", written.len()),
    }
}

/// Prints how a script ended, and what it wrote.
fn print_run(rt: &HostRuntime, script: &Script<'_>) -> io::Result<()> {
    let Ok(failing) = List::of(rt.alloc(), &[script.failing_write]) else {
        return println!(rt; "out of memory");
    };
    let mut sink = MemorySink::new(rt.alloc(), failing);
    match run(rt.alloc(), script, &mut sink) {
        Ok(end) => print_end(rt, end, sink.written()),
        Err(NoMemory) => println!(rt; "out of memory"),
    }
}

/// Prints what a case gives, a line `FORM READ WRITE WORD..` and what belongs to it behind: the status and the
/// place of its end, and the output.
///
/// Behind the form `frames` stands the input of a script; behind `octets` stand octets, which the
/// input brings one a frame, with frames of a worker behind each. READ and WRITE number the read of
/// the input and the write of the output that fail, counted from 0; `-` stands for none. In the text
/// of an input a number between two tildes stands for so many spaces. The files are `users`, `bad` with
/// a bad second line, `limit` with as many octets as a users file may have, and `long` with one more.
pub fn print_script(rt: &HostRuntime, text: &[u8]) -> io::Result<()> {
    match read_case(text) {
        Some(script) => print_run(rt, &script),
        None => println!(rt; "no case"),
    }
}
