//! The implementations in memory, run, and what reads and writes over them.
ghost use Rattle.std.specs.Prelude.{None};

use crate::wanted::{Wanted, with};
use cal_base::{
    Clock, Door, Failed, FileFault, Files, FixedClock, Gate, Link, List, MemoryDoor, MemoryFiles,
    MemoryLink, MemorySink, MemorySource, NoMemory, Octets, OpenGate, ReadEnd, SetClock, Sink,
    Source, SystemClock, read_up_to, send_all, write_all,
};
use std::alloc::Global;
use std::sync::Wait;
use std::test::Fail;

/// A number that no call of a test has.
const NO_CALL: u64 = 99;

fn source(
    alloc: Global,
    text: &[u8],
    failing: u64,
    allowance: u64,
) -> Result<MemorySource, NoMemory> {
    let allowance = allowance.min(1 << 62);
    let octets = Octets::of(alloc, text)?;
    Ok(MemorySource::new(octets, List::of(alloc, &[failing])?, allowance))
}

/// A link with these octets, whose call of this number fails.
pub fn link(alloc: Global, text: &[u8], failing: u64) -> Result<MemoryLink, NoMemory> {
    let octets = Octets::of(alloc, text)?;
    Ok(MemoryLink::new(alloc, octets, List::of(alloc, &[failing])?, 100))
}

/// Reads into a place of at most 8 octets, and looks at what came.
fn read_some<S: Source>(source: &mut S, size: usize, wanted: &mut Wanted<'_>) -> Option<usize> {
    let mut place = [0u8; 8];
    match source.read(&mut place[..size.min(8)]) {
        Ok(n) => {
            wanted.put(&place[..n]);
            Some(n)
        }
        Err(Failed) => None,
    }
}

/// Whether four reads of these sizes give these counts, and these octets in all.
fn four_reads_give(
    source: &mut MemorySource,
    sizes: [usize; 4],
    counts: [Option<usize>; 4],
    text: &[u8],
) -> bool {
    let mut wanted = Wanted::new(text);
    let got = [
        read_some(source, sizes[0], &mut wanted),
        read_some(source, sizes[1], &mut wanted),
        read_some(source, sizes[2], &mut wanted),
        read_some(source, sizes[3], &mut wanted),
    ];
    got == counts && wanted.is_whole()
}

/// The same of a source of six octets, one of whose calls fails.
fn six_are_given(
    alloc: Global,
    failing: u64,
    allowance: u64,
    sizes: [usize; 4],
    counts: [Option<usize>; 4],
    text: &[u8],
) -> bool {
    match source(alloc, b"abcdef", failing, allowance) {
        Ok(mut source) => four_reads_give(&mut source, sizes, counts, text),
        Err(NoMemory) => false,
    }
}

/// The call that fails, the allowance, the sizes of reads, what they give, and the octets in all.
const READS: &[(u64, u64, [usize; 4], [Option<usize>; 4], &[u8])] = &[
    (
        NO_CALL,
        100,
        [4, 4, 4, 4],
        [Some(4), Some(2), Some(0), Some(0)],
        b"abcdef",
    ),
    (
        NO_CALL,
        100,
        [0, 4, 0, 8],
        [Some(0), Some(4), Some(0), Some(2)],
        b"abcdef",
    ),
    (
        0,
        100,
        [4, 4, 4, 4],
        [None, Some(4), Some(2), Some(0)],
        b"abcdef",
    ),
    (
        1,
        100,
        [4, 4, 4, 4],
        [Some(4), None, Some(2), Some(0)],
        b"abcdef",
    ),
    (
        3,
        100,
        [4, 4, 4, 4],
        [Some(4), Some(2), Some(0), None],
        b"abcdef",
    ),
    (NO_CALL, 0, [4, 0, 4, 4], [None, None, None, None], b""),
    (NO_CALL, 1, [4, 4, 4, 4], [Some(1), None, None, None], b"a"),
    (
        NO_CALL,
        6,
        [4, 4, 4, 4],
        [Some(4), Some(2), None, None],
        b"abcdef",
    ),
];

#[test]
fn memory_source_gives_and_fails(rt: HostRuntime) {
    for (failing, allowance, sizes, counts, text) in READS {
        assert!(rt; six_are_given(rt.alloc(), *failing, *allowance, *sizes, *counts, text));
    }
}

fn sink(alloc: Global, failing: u64) -> Result<MemorySink, NoMemory> {
    Ok(MemorySink::new(alloc, List::of(alloc, &[failing])?))
}

/// Whether three writes give that, and this text is written behind them.
fn writes_give(sink: MemorySink, wanted: [Result<usize, Failed>; 3], text: &[u8]) -> bool {
    let mut sink = sink;
    let wrote = [sink.write(b"ab"), sink.write(b""), sink.write(b"cd")];
    wrote == wanted && sink.written() == text
}

/// A sink that takes one octet at a time.
struct OneAtATime {
    sink: MemorySink,
}

impl Sink for OneAtATime {
    ghost faults = { λ s. s.sink.calls.faults };

    ghost written = { λ _. None };

    fn write(&mut self, piece: &[u8]) -> Result<usize, Failed> {
        if piece.is_empty() {
            return Ok(0);
        }
        self.sink.write(&piece[..1])
    }
}

/// Whether writing a piece octet by octet ends so, and this is written behind it.
fn ends_with(sink: MemorySink, want: Result<(), Failed>, text: &[u8]) -> bool {
    let mut slow = OneAtATime { sink };
    let ended = write_all(&mut slow, b"abcd");
    let OneAtATime { sink } = slow;
    ended == want && sink.written() == text
}

/// A call of a sink that fails; what three writes give, and the text behind them; and how writing octet by
/// octet ends, and the text behind it.
type Writes = (
    u64,
    [Result<usize, Failed>; 3],
    &'static [u8],
    Result<(), Failed>,
    &'static [u8],
);

const WRITES: &[Writes] = &[
    (NO_CALL, [Ok(2), Ok(0), Ok(2)], b"abcd", Ok(()), b"abcd"),
    (0, [Err(Failed), Ok(0), Ok(2)], b"cd", Err(Failed), b""),
    (1, [Ok(2), Err(Failed), Ok(2)], b"abcd", Err(Failed), b"a"),
    (2, [Ok(2), Ok(0), Err(Failed)], b"ab", Err(Failed), b"ab"),
];

/// Whether a sink takes that.
fn is_taken(alloc: Global, writes: &Writes) -> Result<bool, NoMemory> {
    let first = writes_give(sink(alloc, writes.0)?, writes.1, writes.2);
    let second = ends_with(sink(alloc, writes.0)?, writes.3, writes.4);
    Ok(first && second)
}

/// The writing of a whole piece ends at a fault.
#[test]
fn memory_sink_takes_and_fails(rt: HostRuntime) {
    for writes in WRITES {
        assert!(rt; is_taken(rt.alloc(), writes) == Ok(true));
    }
}

/// Whether a read, a write, a read and a write of a link give that, and this text is written behind them.
fn turns_give(
    alloc: Global,
    failing: u64,
    wanted: [Result<usize, Failed>; 4],
    text: &[u8],
) -> Result<bool, NoMemory> {
    let mut link = link(alloc, b"abcdef", failing)?;
    let mut place = [0u8; 4];
    let turns = [
        link.read(&mut place),
        link.write(b"xy"),
        link.read(&mut place),
        link.write(b"z"),
    ];
    Ok(turns == wanted && link.written() == text)
}

fn is_sent_whole(alloc: Global) -> Result<bool, NoMemory> {
    let mut link = link(alloc, b"", NO_CALL)?;
    let sent = send_all(&mut link, b"whole");
    Ok(sent == Ok(()) && link.written() == b"whole".as_slice())
}

/// The call that fails, what the four turns give, and the text behind them.
const TURNS: &[(u64, [Result<usize, Failed>; 4], &[u8])] = &[
    (NO_CALL, [Ok(4), Ok(2), Ok(2), Ok(1)], b"xyz"),
    (0, [Err(Failed), Ok(2), Ok(4), Ok(1)], b"xyz"),
    (1, [Ok(4), Err(Failed), Ok(2), Ok(1)], b"z"),
    (2, [Ok(4), Ok(2), Err(Failed), Ok(1)], b"xyz"),
];

#[test]
fn memory_link_numbers_reads_and_writes_together(rt: HostRuntime) {
    for (failing, wanted, text) in TURNS {
        assert!(rt; turns_give(rt.alloc(), *failing, *wanted, text) == Ok(true));
    }
    assert!(rt;
        is_sent_whole(rt.alloc()) == Ok(true),
        "a whole piece is sent"
    );
}

fn file(alloc: Global, path: &str, content: &str) -> Result<(Octets, Octets), NoMemory> {
    let path = Octets::of(alloc, path.as_bytes())?;
    Ok((path, Octets::of(alloc, content.as_bytes())?))
}

/// Files of which two have one name, and whose call 5 fails.
fn three_files(alloc: Global) -> Result<MemoryFiles, NoMemory> {
    let failing = List::of(alloc, &[5])?;
    let files = with(List::new(alloc), file(alloc, "users", "abcd"))?;
    let files = with(files, file(alloc, "empty", ""))?;
    let files = with(files, file(alloc, "users", "second"))?;
    Ok(MemoryFiles::new(files, failing))
}

/// Whether so many octets of a file are read, or none for that reason.
pub fn is_read<F: Files>(
    alloc: Global,
    files: &mut F,
    path: &str,
    limit: u64,
    want: Result<usize, FileFault>,
) -> bool {
    match files.read(alloc, path, limit) {
        Ok(octets) => want == Ok(octets.len()),
        Err(fault) => want == Err(fault),
    }
}

/// Paths of these files and limits, each with how many octets are read, or why none.
const FILES: &[(&str, u64, Result<usize, FileFault>)] = &[
    ("users", 4, Ok(4)),
    ("users", 3, Err(FileFault::TooLong)),
    ("users", 5, Ok(4)),
    ("empty", 0, Ok(0)),
    ("absent", 9, Err(FileFault::Failed)),
    ("users", 9, Err(FileFault::Failed)),
    ("users", 0, Err(FileFault::TooLong)),
];

/// The files of the table are read so, one after another.
#[test]
fn memory_files_are_whole_or_refused(rt: HostRuntime) -> Result<(), Fail> {
    let mut files = three_files(rt.alloc())?;
    for (path, limit, want) in FILES {
        assert!(rt; is_read(rt.alloc(), &mut files, path, *limit, *want));
    }
    Ok(())
}

/// A door with two links, whose calls with these numbers fail.
fn two_links(alloc: Global, failing: &[u64]) -> Result<MemoryDoor, NoMemory> {
    let failing = List::of(alloc, failing)?;
    let links = with(List::new(alloc), link(alloc, b"first", NO_CALL))?;
    let links = with(links, link(alloc, b"second!", NO_CALL))?;
    Ok(MemoryDoor::new(links, 1741600000, failing))
}

/// How many octets the next link gives, if there is one.
fn accepted(rt: &impl Wait, door: &mut MemoryDoor) -> Option<usize> {
    match door.accept(rt) {
        Ok(mut link) => link.read(&mut [0u8; 8]).ok(),
        Err(Failed) => None,
    }
}

/// Whether a door opens at the second call, and gives its links in order, but none at its call 3.
fn gives_links(rt: &impl Wait, door: &mut MemoryDoor) -> bool {
    let opened = [door.open("anywhere"), door.open("anywhere")];
    let given = [
        accepted(rt, door),
        accepted(rt, door),
        accepted(rt, door),
        accepted(rt, door),
    ];
    opened == [Err(Failed), Ok(())] && given == [Some(5), None, Some(7), None]
}

#[test]
fn memory_door_gives_its_links_in_order(rt: HostRuntime) -> Result<(), Fail> {
    let mut door = two_links(rt.alloc(), &[0, 3])?;
    assert!(rt; gives_links(&rt, &mut door));
    Ok(())
}

/// Whether another door is made, which has no links and the same clock.
fn has_another(rt: &impl Wait, alloc: Global, door: &mut MemoryDoor) -> bool {
    match door.another(alloc) {
        Ok(mut other) => accepted(rt, &mut other) == None && other.clock().now() == 1741600000,
        Err(_) => false,
    }
}

/// Whether another door is made at the second call, and the clock of the first one stands after a rest.
fn makes_another(rt: &impl Wait, alloc: Global, door: &mut MemoryDoor) -> bool {
    let first = has_another(rt, alloc, door);
    let second = has_another(rt, alloc, door);
    door.rest(rt);
    !first && second && door.clock().now() == 1741600000
}

#[test]
fn memory_door_makes_another(rt: HostRuntime) -> Result<(), Fail> {
    let mut door = two_links(rt.alloc(), &[0])?;
    assert!(rt; makes_another(&rt, rt.alloc(), &mut door));
    OpenGate::new().pass(&rt, 7);
    Ok(())
}

#[test]
fn clocks_give_a_moment(rt: HostRuntime) {
    let mut clock = SetClock::new(253402300799);
    let before = clock.now();
    clock.set(1741600000);
    assert!(rt; FixedClock::new(0).now() == 0);
    assert!(rt; before == 253402300799 && clock.now() == 1741600000);
    // The machine's clock stands after 2024 and has not run out.
    let now = SystemClock::new(&rt).now();
    assert!(rt; 1735689600 < now && now < 253402300799);
}

/// Whether a source gives so many octets up to a limit, and so many to the next read.
fn is_read_so(
    alloc: Global,
    source: &mut MemorySource,
    limit: u64,
    want: Result<usize, ReadEnd>,
    then: Option<usize>,
) -> bool {
    let same = match read_up_to(alloc, source, limit) {
        Ok(octets) => want == Ok(octets.len()),
        Err(end) => want == Err(end),
    };
    let rest = source.read(&mut [0u8; 8]).ok();
    same && rest == then
}

/// The same of a source of six octets, one of whose calls fails.
fn six_are_read_so(
    alloc: Global,
    failing: u64,
    allowance: u64,
    limit: u64,
    want: Result<usize, ReadEnd>,
    then: Option<usize>,
) -> bool {
    match source(alloc, b"abcdef", failing, allowance) {
        Ok(mut source) => is_read_so(alloc, &mut source, limit, want, then),
        Err(NoMemory) => false,
    }
}

/// The call that fails, the allowance, the limit, how many octets are read or why none, and what the next
/// read gives.
const LIMITED: &[(u64, u64, u64, Result<usize, ReadEnd>, Option<usize>)] = &[
    (NO_CALL, 100, 6, Ok(6), Some(0)),
    (NO_CALL, 100, u64::MAX, Ok(6), Some(0)),
    (NO_CALL, 100, 5, Err(ReadEnd::TooLong), Some(0)),
    (NO_CALL, 100, 3, Err(ReadEnd::TooLong), Some(2)),
    (NO_CALL, 100, 0, Err(ReadEnd::TooLong), Some(5)),
    (NO_CALL, 6, 6, Err(ReadEnd::Failed), None),
    (0, 100, 6, Err(ReadEnd::Failed), Some(6)),
    (1, 100, 6, Err(ReadEnd::Failed), Some(0)),
];

/// The numbers from 0 up to `count`, each as its last octet.
fn counted_octets(alloc: Global, count: u32) -> Result<Octets, NoMemory> {
    let mut octets = Octets::new(alloc);
    for number in 0..count {
        octets.push((number & 0xff) as u8)?;
    }
    Ok(octets)
}

/// Whether so many octets, which take several reads, are read whole.
fn are_read_whole(alloc: Global, count: u32) -> Result<bool, NoMemory> {
    let octets = counted_octets(alloc, count)?;
    let mut source = source(alloc, octets.as_slice(), NO_CALL, 1 << 62)?;
    match read_up_to(alloc, &mut source, count as u64) {
        Ok(all) => Ok(all == octets),
        Err(_) => Ok(false),
    }
}

/// Reading stops at the limit, and goes on after the first read.
#[test]
fn sources_are_read_up_to_a_limit(rt: HostRuntime) {
    for (failing, allowance, limit, want, then) in LIMITED {
        assert!(rt; six_are_read_so(rt.alloc(), *failing, *allowance, *limit, *want, *then));
    }
    for count in [65_536, 65_537, 200_000] {
        assert!(rt; are_read_whole(rt.alloc(), count) == Ok(true));
    }
}
