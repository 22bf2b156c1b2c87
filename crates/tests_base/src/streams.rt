//! The standard streams, over a runtime of the test's own, and the files of the system.
ghost use Rattle.std.specs.Prelude.{◌≡◌, ◌+◌, ◌≤◌, length, string_len, IfOk};

use crate::outside::is_read;
use cal_base::{Failed, FileFault, Sink, Source, StdFiles, StdSink, StdSource};
use std::alloc::Allocator;
use std::fmt::Display;
use std::io::{BufRead, ErrorKind, Input, Lines, Print, Read};
use std::sync::atomic::{AtomicUsize, Ordering};
use std::test::Fail;
use std::{fs, io};

/// An input that answers each call by the next of its numbers, in octets `x`, and fails where that
/// is `None` or there is no more.
#[derive(Drop)]
struct ScriptedReader {
    answers: [Option<usize>; 5],
    next: usize,
}

impl Read for ScriptedReader {
    fn read(&mut self, buf: &mut [u8]) -> io::Result<usize> {
        let next = self.next;
        self.next = next.saturating_add(1);
        match self.answers.get(next) {
            Some(Some(n)) => {
                let n = (*n).min(buf.len());
                buf[..n].fill(b'x');
                Ok(n)
            }
            _ => Err(io::Error::from(ErrorKind::TimedOut)),
        }
    }
}

impl BufRead for ScriptedReader {
    fn fill_buf(&mut self) -> io::Result<&[u8]> {
        Ok(&[])
    }

    fn consume(&mut self, _amount: usize) {}
}

/// A runtime with that input.
#[derive(Clone, Copy)]
struct ScriptedInput {
    answers: [Option<usize>; 5],
}

impl Input for ScriptedInput {
    type Reader = ScriptedReader;

    fn read_line<A: Allocator + Clone>(&self, _buf: &mut String<A>) -> io::Result<usize>
        ensures ok { IfOk result (λ n. string_len _buf.new ≡ string_len _buf.old + n) }
    {
        Ok(0)
    }

    fn lines<A: Allocator>(&self, alloc: A) -> Lines<ScriptedReader, A> {
        self.reader().lines(alloc)
    }

    fn reader(&self) -> ScriptedReader {
        ScriptedReader {
            answers: self.answers,
            next: 0,
        }
    }
}

/// Whether reads of these sizes give these answers.
fn reads_give(
    answers: [Option<usize>; 5],
    sizes: [usize; 5],
    wanted: [Result<usize, Failed>; 5],
) -> bool {
    let mut input = StdSource::new(&ScriptedInput { answers });
    let mut same = true;
    for (size, want) in sizes.iter().zip(wanted.iter()) {
        let mut place = [0u8; 8];
        let got = input.read(&mut place[..(*size).min(8)]);
        let count = place.iter().filter(|octet| **octet == b'x').count();
        same = same && got == *want && count == want.unwrap_or(0);
    }
    same
}

/// After the first 0 in a place that is not empty the input is not asked again.
#[test]
fn standard_input_ends_and_fails(rt: HostRuntime) {
    let (three, end, failed) = (Ok(3), Ok(0), Err(Failed));
    for (answers, sizes, wanted) in [
        (
            [Some(3), None, Some(9), Some(0), Some(3)],
            [8usize, 8, 8, 0, 8],
            [three, failed, Ok(8), end, three],
        ),
        (
            [Some(3), Some(0), Some(3), None, Some(3)],
            [8, 8, 8, 8, 8],
            [three, end, end, end, end],
        ),
    ] {
        assert!(rt; reads_give(answers, sizes, wanted));
    }
}

/// A runtime whose output takes at most so many octets of a piece and counts them, or fails.
#[derive(Clone, Copy)]
struct ShortOutput<'a> {
    most: Option<usize>,
    taken: &'a AtomicUsize,
}

impl Print for ShortOutput<'_> {
    fn print<D: Display + Drop>(&self, _value: D) -> io::Result<()> {
        Ok(())
    }

    fn println<D: Display + Drop>(&self, _value: D) -> io::Result<()> {
        Ok(())
    }

    fn write_all(&self, bytes: &[u8]) -> io::Result<()> {
        match self.write_some(bytes) {
            Ok(_) => Ok(()),
            Err(error) => Err(error),
        }
    }

    fn write_some(&self, bytes: &[u8]) -> io::Result<usize> {
        let Some(most) = self.most else {
            return Err(io::Error::from(ErrorKind::BrokenPipe));
        };
        let n = most.min(bytes.len());
        self.taken.fetch_add(n, Ordering::Relaxed);
        Ok(n)
    }
}

/// A full disk and a closed pipe are failures; so is an output that takes nothing of a piece.
#[test]
fn standard_output_takes_and_fails(rt: HostRuntime) {
    let rows: [(Option<usize>, &[u8], Result<usize, Failed>, usize); 5] = [
        (Some(9), b"abcd", Ok(4), 4),
        (Some(3), b"abcd", Ok(3), 3),
        (Some(3), b"", Ok(0), 0),
        (Some(0), b"abcd", Err(Failed), 0),
        (None, b"abcd", Err(Failed), 0),
    ];
    for (most, piece, want, count) in rows {
        let taken = AtomicUsize::new(0);
        let mut output = StdSink::new(&ShortOutput {
            most,
            taken: &taken,
        });
        assert!(rt; output.write(piece) == want && taken.load(Ordering::Relaxed) == count);
    }
}

#[test]
fn the_streams_of_the_system_are_reached(rt: HostRuntime) {
    assert!(rt; StdSource::new(&rt).read(&mut []) == Ok(0));
    assert!(rt; StdSink::new(&rt).write(b".") == Ok(1));
}

/// Whether a file of the system with four octets is whole up to those limits, refused at a lower one, and
/// none once it is gone.
fn is_whole_or_refused(rt: HostRuntime, path: &str) -> bool {
    let mut files = StdFiles::new(&rt);
    let made = fs::write(&rt, path, "abcd").is_ok();
    let long = is_read(rt.alloc(), &mut files, path, 5, Ok(4));
    let whole = is_read(rt.alloc(), &mut files, path, 4, Ok(4));
    let short = is_read(rt.alloc(), &mut files, path, 3, Err(FileFault::TooLong));
    let removed = fs::remove_file(&rt, path).is_ok();
    let gone = is_read(rt.alloc(), &mut files, path, 5, Err(FileFault::Failed));
    made && long && whole && short && removed && gone
}

#[test]
fn files_of_the_system_are_whole_or_refused(rt: HostRuntime) -> Result<(), Fail> {
    let path = format!(in rt.alloc(); "/tmp/tests_base-{}", std::process::id(rt.process()))?;
    assert!(rt; is_whole_or_refused(rt, path.as_str()));
    Ok(())
}
