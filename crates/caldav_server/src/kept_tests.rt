//! Tests of the commands at a journal file, over a disk, files, streams and a door in memory: how scripts and
//! servers end, what they write, and which file they leave, also where a call of the disk fails and where a
//! stop comes within one.
//!
//! The files are written out by hand from `docs/JOURNAL.md`, the replies from `docs/REPLIES.md`.

use crate::kept_script::run_kept_script;
use crate::kept_serve::run_kept_serve;
use crate::serve::run_serve;
use cal_base::{
    List, MemoryDoor, MemoryFiles, MemoryLink, MemorySink, MemorySource, NoMemory, Octets, Word,
};
use cal_keeper::{Disk, MemoryDisk};
use cal_script::{ScriptEnd, run_script};
use std::alloc::Global;
use std::sync::Wait;
use std::test::Fail;
use std::thread::Threads;

/// A users file of three users, each with the password `abc`.
const THREE: &[u8] =
    b"user alice ba7816bf8f01cfea414140de5dae2223b00361a396177a9cb410ff61f20015ad\n\
    user bob ba7816bf8f01cfea414140de5dae2223b00361a396177a9cb410ff61f20015ad\n\
    user carol ba7816bf8f01cfea414140de5dae2223b00361a396177a9cb410ff61f20015ad\n";

/// One without the third of them.
const TWO: &[u8] = b"user alice ba7816bf8f01cfea414140de5dae2223b00361a396177a9cb410ff61f20015ad\n\
    user bob ba7816bf8f01cfea414140de5dae2223b00361a396177a9cb410ff61f20015ad\n";

/// The journal file of the three without a record: 52 octets, the last of them a closed gate.
const BARE: &[u8] = b"caldavjournal 1\n\0\0\0\x1fuser alice\nuser bob\nuser carol\n\0";

/// The same with the record of a PUT, a payload of 231 octets: 288 octets, with gates at 51 and 287.
const ONE_PUT: &[u8] = b"caldavjournal 1\n\0\0\0\x1fuser alice\nuser bob\nuser carol\n\x01\
    \0\0\0\xe7\x01\0\0\0\0\0\0\0\0\x67\xce\xb5\0\0\xc9\0\0\0\0\x08calendar\x07one.ics\0\0\0\xbf\
    BEGIN:VCALENDAR\r\n\
    VERSION:2.0\r\n\
    PRODID:-//a//EN\r\n\
    BEGIN:VEVENT\r\n\
    UID:one\r\n\
    DTSTAMP:20250101T000000Z\r\n\
    DTSTART:20250310T090000Z\r\n\
    DTEND:20250310T100000Z\r\n\
    SUMMARY:Stand-up\r\n\
    END:VEVENT\r\n\
    END:VCALENDAR\r\n\0";

/// A frame with that PUT, of 335 octets.
const PUT: &[u8; 359] = b"bytes 0 1741600000 335\n\
    PUT /calendars/alice/calendar/one.ics HTTP/1.1\r\n\
    Host: h\r\n\
    Authorization: Basic YWxpY2U6YWJj\r\n\
    Content-Type: text/calendar\r\n\
    Content-Length: 191\r\n\r\n\
    BEGIN:VCALENDAR\r\n\
    VERSION:2.0\r\n\
    PRODID:-//a//EN\r\n\
    BEGIN:VEVENT\r\n\
    UID:one\r\n\
    DTSTAMP:20250101T000000Z\r\n\
    DTSTART:20250310T090000Z\r\n\
    DTEND:20250310T100000Z\r\n\
    SUMMARY:Stand-up\r\n\
    END:VEVENT\r\n\
    END:VCALENDAR\r\n\n";

/// A frame with a HEAD of the same object.
const HEAD: &[u8] = b"bytes 0 1741600000 95\n\
    HEAD /calendars/alice/calendar/one.ics HTTP/1.1\r\n\
    Host: h\r\n\
    Authorization: Basic YWxpY2U6YWJj\r\n\r\n\n";

/// The replies to the PUT, to the HEAD of what it stored, and to the HEAD of what is not there.
const CREATED: &[u8] = b"reply 0 154\n\
    HTTP/1.1 201 Created\r\n\
    Date: Mon, 10 Mar 2025 09:46:40 GMT\r\n\
    ETag: \"e2b908a58297f6090922388fbe2f52e0c09d7f6986555b4ac3424e3347f2b4e5\"\r\n\
    Content-Length: 0\r\n\r\n\n";

const FOUND: &[u8] = b"reply 0 195\n\
    HTTP/1.1 200 OK\r\n\
    Date: Mon, 10 Mar 2025 09:46:40 GMT\r\n\
    ETag: \"e2b908a58297f6090922388fbe2f52e0c09d7f6986555b4ac3424e3347f2b4e5\"\r\n\
    Content-Type: text/calendar; charset=utf-8\r\n\
    Content-Length: 191\r\n\r\n\n";

const ABSENT: &[u8] = b"reply 0 82\n\
    HTTP/1.1 404 Not Found\r\n\
    Date: Mon, 10 Mar 2025 09:46:40 GMT\r\n\
    Content-Length: 0\r\n\r\n\n";

/// A frame that deletes the object.
const DELETE: &[u8] = b"bytes 0 1741600000 97\n\
    DELETE /calendars/alice/calendar/one.ics HTTP/1.1\r\n\
    Host: h\r\n\
    Authorization: Basic YWxpY2U6YWJj\r\n\r\n\n";

/// Frames that share the calendar, read the object as another user, make a calendar, name it and show its name.
const SHARE: &[u8] = b"bytes 0 1741600000 299\n\
    ACL /calendars/alice/calendar/ HTTP/1.1\r\n\
    Host: h\r\n\
    Authorization: Basic YWxpY2U6YWJj\r\n\
    Content-Type: application/xml\r\n\
    Content-Length: 160\r\n\r\n\
    <D:acl xmlns:D=\"DAV:\"><D:ace><D:principal><D:href>/principals/bob/</D:href></D:principal><D:grant><D:privilege><D:read/></D:privilege></D:grant></D:ace></D:acl>\n";

const READ: &[u8] = b"bytes 1 1741600000 94\n\
    GET /calendars/alice/calendar/one.ics HTTP/1.1\r\n\
    Host: h\r\n\
    Authorization: Basic Ym9iOmFiYw==\r\n\r\n\n";

const MAKE: &[u8] = b"bytes 0 1741600000 90\n\
    MKCALENDAR /calendars/alice/work/ HTTP/1.1\r\n\
    Host: h\r\n\
    Authorization: Basic YWxpY2U6YWJj\r\n\r\n\n";

const NAME: &[u8] = b"bytes 0 1741600000 260\n\
    PROPPATCH /calendars/alice/work/ HTTP/1.1\r\n\
    Host: h\r\n\
    Authorization: Basic YWxpY2U6YWJj\r\n\
    Content-Type: application/xml\r\n\
    Content-Length: 119\r\n\r\n\
    <D:propertyupdate xmlns:D=\"DAV:\"><D:set><D:prop><D:displayname>Work</D:displayname></D:prop></D:set></D:propertyupdate>\n";

const SHOW: &[u8] = b"bytes 0 1741600000 222\n\
    PROPFIND /calendars/alice/work/ HTTP/1.1\r\n\
    Host: h\r\n\
    Authorization: Basic YWxpY2U6YWJj\r\n\
    Depth: 0\r\n\
    Content-Type: application/xml\r\n\
    Content-Length: 73\r\n\r\n\
    <D:propfind xmlns:D=\"DAV:\"><D:prop><D:displayname/></D:prop></D:propfind>\n";

/// The moment of all frames.
const MOMENT: i64 = 1_741_600_000;

/// As many octets as a stream may give.
const ALLOWANCE: u64 = 1 << 62;

/// The number of a call that is never made.
const NONE: u64 = u64::MAX;

/// More calls than a run makes of its disk.
const MOST_CALLS: u64 = 1_000;

/// The status and the place of the end of a command of whose disk a call failed.
const BROKEN: (u8, u64) = (8, 0);

/// What a command is given: its words, and what the users file and the journal file have.
#[derive(Clone, Copy)]
struct Given<'a> {
    words: &'a str,
    users: &'a [u8],
    file: &'a [u8],
}

/// What a command is run over.
#[derive(Drop)]
struct Stage {
    words: List<Word>,
    files: MemoryFiles,
    disk: MemoryDisk,
}

/// How a script ended, what it wrote, and the disk that it left.
#[derive(Drop)]
struct Outcome {
    end: ScriptEnd,
    output: MemorySink,
    disk: MemoryDisk,
}

/// What scripts wrote one behind another, and the file that they left.
#[derive(Drop)]
struct Story {
    written: Octets,
    file: Octets,
}

/// Whether two texts are the same. It promises nothing, so that no proof goes over the octets.
fn is_same(a: &[u8], b: &[u8]) -> bool {
    a == b
}

/// The words of a line.
fn words_of(alloc: Global, line: &str) -> Result<List<Word>, NoMemory> {
    let mut words = List::new(alloc);
    for word in line.split_whitespace() {
        words.push(Word::of(alloc, word)?)?;
    }
    Ok(words)
}

/// The file `users` with these octets.
fn files_of(alloc: Global, users: &[u8]) -> Result<MemoryFiles, NoMemory> {
    let mut files = List::new(alloc);
    files.push((Octets::of(alloc, b"users")?, Octets::of(alloc, users)?))?;
    Ok(MemoryFiles::new(files, List::new(alloc)))
}

/// A disk whose file has these octets, and of whose calls one fails.
fn disk_of(alloc: Global, file: &[u8], failing: u64) -> Result<MemoryDisk, NoMemory> {
    let octets = Octets::of(alloc, file)?;
    let failing = List::of(alloc, &[failing])?;
    Ok(MemoryDisk::new(alloc, octets, failing))
}

/// What a command with this is run over, where one call of the disk fails.
fn stage_of(alloc: Global, given: &Given<'_>, failing: u64) -> Result<Stage, NoMemory> {
    Ok(Stage {
        words: words_of(alloc, given.words)?,
        files: files_of(alloc, given.users)?,
        disk: disk_of(alloc, given.file, failing)?,
    })
}

/// A source that brings these octets.
fn source_of(alloc: Global, octets: &[u8]) -> Result<MemorySource, NoMemory> {
    let octets = Octets::of(alloc, octets)?;
    Ok(MemorySource::new(octets, List::new(alloc), ALLOWANCE))
}

/// Runs a script at a journal file, one call of whose disk fails.
fn run_kept(
    alloc: Global,
    given: &Given<'_>,
    frames: &[u8],
    failing: u64,
) -> Result<Outcome, NoMemory> {
    let mut input = source_of(alloc, frames)?;
    let stage = stage_of(alloc, given, failing)?;
    let Stage {
        words,
        mut files,
        disk,
    } = stage;
    let mut output = MemorySink::new(alloc, List::new(alloc));
    let (end, disk) = run_kept_script(alloc, &words, &mut files, disk, &mut input, &mut output);
    Ok(Outcome { end, output, disk })
}

/// Whether a command ended with this status and place.
fn is_end(end: ScriptEnd, wanted: (u8, u64)) -> bool {
    end.status == wanted.0 && end.place == wanted.1
}

/// Whether a script ended so, wrote this and left this file.
fn is_so(run: &Outcome, end: (u8, u64), written: &[u8], left: &[u8]) -> bool {
    let is_told = is_end(run.end, end) && is_same(run.output.written(), written);
    is_told && is_same(run.disk.octets(), left)
}

/// The words of a script at a journal file, and of one without.
const KEPT: &str = "script --users users --journal journal";

const UNKEPT: &str = "script --users users";

/// A script: its words, what the users file and the journal file have, its frames; the status and the place of its
/// end, what it writes, and the journal file that it leaves.
type Script = (
    &'static str,
    &'static [u8],
    &'static [u8],
    &'static [u8],
    (u8, u64),
    &'static [u8],
    &'static [u8],
);

const SCRIPTS: [Script; 10] = [
    // A new file is made, also without a change, and goes on with a PUT; or both in one script.
    (KEPT, THREE, b"", b"", (0, 0), b"", BARE),
    (KEPT, THREE, BARE, PUT, (0, 359), CREATED, ONE_PUT),
    (KEPT, THREE, b"", PUT, (0, 359), CREATED, ONE_PUT),
    // What a file has is seen, what it has not is not, and it stays as it is.
    (KEPT, THREE, ONE_PUT, HEAD, (0, 118), FOUND, ONE_PUT),
    (KEPT, THREE, BARE, HEAD, (0, 118), ABSENT, BARE),
    (KEPT, THREE, BARE, b"bytes 16 0 0", (6, 0), b"", BARE),
    // A file of other users is refused, and one that is no journal.
    (KEPT, TWO, ONE_PUT, HEAD, (9, 20), b"", ONE_PUT),
    (
        KEPT,
        THREE,
        b"caldavjournal 2\n",
        HEAD,
        (9, 0),
        b"",
        b"caldavjournal 2\n",
    ),
    // None is made where the words or the users file are refused.
    (UNKEPT, THREE, b"", PUT, (2, 0), b"", b""),
    (KEPT, b"user alice\n", b"", PUT, (3, 0), b"", b""),
];

/// Whether a script ends, writes and leaves what it should.
fn is_right_script(alloc: Global, script: &Script) -> Result<bool, NoMemory> {
    let (words, users, file, frames, end, written, left) = *script;
    let given = Given { words, users, file };
    let run = run_kept(alloc, &given, frames, NONE)?;
    Ok(is_so(&run, end, written, left))
}

#[test]
fn scripts_end_and_leave_what_they_should(rt: HostRuntime) -> Result<(), Fail> {
    for (number, script) in SCRIPTS.iter().enumerate() {
        assert!(rt; is_right_script(rt.alloc(), script)?, "script {number}");
    }
    Ok(())
}

/// A script of the three users at a file.
fn at_file(file: &[u8]) -> Given<'_> {
    Given {
        words: KEPT,
        users: THREE,
        file,
    }
}

/// Whether a script that asks for the object at a file is answered with it, or that it is not there, and leaves
/// the file as it was.
fn is_seen(alloc: Global, file: &[u8], there: bool) -> Result<bool, NoMemory> {
    let run = run_kept(alloc, &at_file(file), HEAD, NONE)?;
    let written = if there { FOUND } else { ABSENT };
    Ok(is_so(&run, (0, 118), written, file))
}

/// Whether a stop within a call leaves a file with the object, or without it.
fn is_right_stop(
    alloc: Global,
    disk: &MemoryDisk,
    call: u64,
    written: bool,
    there: bool,
) -> Result<bool, NoMemory> {
    if disk.calls() <= call {
        return Ok(false);
    }
    let image = disk.stopped(call, written)?;
    is_seen(alloc, image.as_slice(), there)
}

/// Within how many calls a stop leaves the file that it should, where so many calls were made before the reply.
///
/// The last two of these open the gate of the record and sync it: what they wrote may be there, and what was
/// synced before them is the file without it. Behind the reply the object is there.
fn count_right_stops(alloc: Global, disk: &MemoryDisk, replied: u64) -> Result<u64, NoMemory> {
    let mut count = 0u64;
    for call in 0..disk.calls() {
        let torn = is_right_stop(alloc, disk, call, false, replied <= call)?;
        let opened = replied.saturating_sub(call) <= 2;
        let whole = is_right_stop(alloc, disk, call, true, opened)?;
        if torn && whole {
            count = count.wrapping_add(1);
        }
    }
    Ok(count)
}

/// How many calls the PUT makes of its disk before its reply, how many were made with one more behind that, and
/// within how many of them a stop leaves the file that it should.
fn stops_of_put(alloc: Global) -> Result<(u64, u64, u64), NoMemory> {
    let run = run_kept(alloc, &at_file(BARE), PUT, NONE)?;
    let Outcome {
        end: _,
        output: _,
        mut disk,
    } = run;
    let replied = disk.calls();
    let _ = disk.len();
    let calls = disk.calls();
    let right = count_right_stops(alloc, &disk, replied);
    drop(disk);
    Ok((replied, calls, right?))
}

#[test]
fn a_stop_leaves_no_event_or_the_one_that_was_put(rt: HostRuntime) -> Result<(), Fail> {
    let (replied, calls, right) = stops_of_put(rt.alloc())?;
    assert!(rt;
        2 < replied && calls.saturating_sub(replied) == 1,
        "{replied} of {calls}"
    );
    assert_eq!(rt; right, calls);
    Ok(())
}

/// The first call of the disk, from one on, whose failing does not end a script with status 8 behind these
/// replies.
fn first_unbroken(
    alloc: Global,
    file: &[u8],
    frames: &[u8],
    from: u64,
    written: &[u8],
) -> Result<u64, NoMemory> {
    for call in from..MOST_CALLS {
        let run = run_kept(alloc, &at_file(file), frames, call)?;
        let broke = is_end(run.end, BROKEN) && is_same(run.output.written(), written);
        if !broke {
            return Ok(call);
        }
    }
    Ok(MOST_CALLS)
}

/// How many calls a script makes of its disk.
fn calls_of(alloc: Global, file: &[u8], frames: &[u8]) -> Result<u64, NoMemory> {
    let run = run_kept(alloc, &at_file(file), frames, NONE)?;
    Ok(run.disk.calls())
}

/// Octets one behind another.
fn joined(alloc: Global, parts: &[&[u8]]) -> Result<Octets, NoMemory> {
    let mut octets = Octets::new(alloc);
    for part in parts {
        octets.extend_from_slice(part)?;
    }
    Ok(octets)
}

/// The calls of the disk that end a PUT and a DELETE behind it where they fail: those in front of the reply to the
/// PUT without a reply, and those behind it with that alone. Given are the first that end neither so, and how many
/// there are.
fn calls_of_two(alloc: Global) -> Result<[u64; 4], NoMemory> {
    let both = joined(alloc, &[PUT.as_slice(), DELETE])?;
    let put = first_unbroken(alloc, BARE, both.as_slice(), 0, b"")?;
    let deleted = first_unbroken(alloc, BARE, both.as_slice(), put, CREATED)?;
    let of_put = calls_of(alloc, BARE, PUT)?;
    let of_both = calls_of(alloc, BARE, both.as_slice())?;
    Ok([put, of_put, deleted, of_both])
}

#[test]
fn a_script_ends_where_a_call_of_the_disk_fails(rt: HostRuntime) -> Result<(), Fail> {
    let alloc = rt.alloc();
    let made = first_unbroken(alloc, b"", b"", 0, b"")?;
    let of_new = calls_of(alloc, b"", b"")?;
    assert!(rt; 0 < made && made == of_new, "{made} of {of_new}");
    let [put, of_put, deleted, of_both] = calls_of_two(alloc)?;
    assert!(rt; 0 < put && put == of_put, "{put} of {of_put}");
    assert!(rt;
        put < deleted && deleted == of_both,
        "{deleted} of {of_both}"
    );
    Ok(())
}

/// Runs a script without a journal file. Gives how it ended and what it wrote.
fn run_unkept(alloc: Global, frames: &[u8]) -> Result<(ScriptEnd, MemorySink), NoMemory> {
    let mut input = source_of(alloc, frames)?;
    let words = words_of(alloc, UNKEPT)?;
    let mut files = files_of(alloc, THREE)?;
    let mut output = MemorySink::new(alloc, List::new(alloc));
    let end = run_script(alloc, &words, &mut files, &mut input, &mut output);
    Ok((end, output))
}

/// Runs one more script of a story, at the file that those before it left.
fn go_on(alloc: Global, story: &mut Story, frames: &[u8]) -> Result<(), NoMemory> {
    let run = run_kept(alloc, &at_file(story.file.as_slice()), frames, NONE)?;
    story.written.extend_from_slice(run.output.written())?;
    story.file = Octets::of(alloc, run.disk.octets())?;
    Ok(())
}

/// What scripts write, each of which goes on with the file of the one before it.
fn written_apart(alloc: Global, parts: &[&[u8]]) -> Result<Octets, NoMemory> {
    let mut story = Story {
        written: Octets::new(alloc),
        file: Octets::new(alloc),
    };
    for part in parts {
        go_on(alloc, &mut story, part)?;
    }
    let Story { written, file: _ } = story;
    Ok(written)
}

/// Whether frames are answered as without a journal file, in one script at a new one and in one script for each
/// frame.
fn is_as_unkept(alloc: Global, parts: &[&[u8]]) -> Result<bool, NoMemory> {
    let frames = joined(alloc, parts)?;
    let length = frames.len() as u64;
    let (end, output) = run_unkept(alloc, frames.as_slice())?;
    let apart = written_apart(alloc, parts)?;
    let kept = run_kept(alloc, &at_file(b""), frames.as_slice(), NONE)?;
    let once = is_end(kept.end, (0, length)) && is_same(kept.output.written(), output.written());
    Ok(is_end(end, (0, length)) && once && is_same(apart.as_slice(), output.written()))
}

#[test]
fn a_kept_script_writes_what_it_writes_unkept(rt: HostRuntime) -> Result<(), Fail> {
    let parts: [&[u8]; 9] = [PUT, HEAD, SHARE, READ, MAKE, NAME, SHOW, DELETE, HEAD];
    assert!(rt; is_as_unkept(rt.alloc(), &parts)?);
    Ok(())
}

/// Who comes to the door of a server.
#[derive(Clone, Copy)]
enum Guest {
    Nobody,
    /// A connection that brings nothing.
    Silent,
    /// A connection that brings the PUT.
    Puts,
}

/// The octets of a guest's connection.
fn octets_of(guest: Guest) -> &'static [u8] {
    match guest {
        Guest::Puts => {
            let frame: &'static [u8] = PUT;
            &frame[23..358]
        }
        _ => &[],
    }
}

/// A door to which a guest comes, and one of whose calls fails: 0 opens it, 1 makes another, and 2 takes a
/// connection.
fn door_of(alloc: Global, guest: Guest, failing: u64) -> Result<MemoryDoor, NoMemory> {
    let failing = List::of(alloc, &[failing])?;
    let mut links = List::new(alloc);
    if !matches!(guest, Guest::Nobody) {
        let octets = Octets::of(alloc, octets_of(guest))?;
        links.push(MemoryLink::new(alloc, octets, List::new(alloc), ALLOWANCE))?;
    }
    Ok(MemoryDoor::new(links, MOMENT, failing))
}

/// Runs a server at a journal file, one call of whose disk fails.
fn serve_kept<R: Threads + Wait + Sync>(
    rt: &R,
    alloc: Global,
    given: &Given<'_>,
    door: &mut MemoryDoor,
    failing: u64,
) -> Result<(ScriptEnd, MemoryDisk), NoMemory> {
    let stage = stage_of(alloc, given, failing)?;
    let Stage {
        words,
        mut files,
        disk,
    } = stage;
    Ok(run_kept_serve(rt, alloc, &words, &mut files, disk, door))
}

/// The words of a server of one connection at a journal file, and of one without.
const SERVE: &str =
    "serve --users users --journal journal --listen A --sessions 1 --workers 0 --connections 1";

const PLAIN: &str = "serve --users users --listen A --sessions 1 --workers 0 --connections 1";

/// The same without an address.
const NOWHERE: &str =
    "serve --users users --journal journal --sessions 1 --workers 0 --connections 1";

const PLAIN_NOWHERE: &str = "serve --users users --sessions 1 --workers 0 --connections 1";

/// A server: its words, what the users file and the journal file have, who comes, the call of its door that fails;
/// the status and the place of its end, and the journal file that it leaves.
type Server = (
    &'static str,
    &'static [u8],
    &'static [u8],
    Guest,
    u64,
    (u8, u64),
    &'static [u8],
);

const SERVERS: [Server; 10] = [
    // A connection that brings nothing, and none; one that is not taken.
    (SERVE, THREE, b"", Guest::Silent, NONE, (0, 0), BARE),
    (SERVE, THREE, b"", Guest::Nobody, NONE, (0, 0), BARE),
    (SERVE, THREE, b"", Guest::Puts, 2, (0, 0), BARE),
    // The door is not opened, and there is no other, behind a file that is made.
    (SERVE, THREE, b"", Guest::Silent, 0, (4, 0), BARE),
    (SERVE, THREE, b"", Guest::Puts, 1, (4, 0), BARE),
    // A change is in the file, and stays there.
    (SERVE, THREE, b"", Guest::Puts, NONE, (0, 0), ONE_PUT),
    (SERVE, THREE, ONE_PUT, Guest::Silent, NONE, (0, 0), ONE_PUT),
    // A file of other users is refused.
    (SERVE, TWO, ONE_PUT, Guest::Puts, NONE, (9, 20), ONE_PUT),
    // None is made where the words are others.
    (NOWHERE, THREE, b"", Guest::Silent, NONE, (2, 0), b""),
    (PLAIN, THREE, b"", Guest::Silent, NONE, (2, 0), b""),
];

/// Whether a server ends and leaves what it should.
fn is_right_server<R: Threads + Wait + Sync>(
    rt: &R,
    alloc: Global,
    server: &Server,
) -> Result<bool, NoMemory> {
    let (words, users, file, guest, failing, wanted, left) = *server;
    let mut door = door_of(alloc, guest, failing)?;
    let given = Given { words, users, file };
    let (end, disk) = serve_kept(rt, alloc, &given, &mut door, NONE)?;
    Ok(is_end(end, wanted) && is_same(disk.octets(), left))
}

#[test]
fn servers_end_and_leave_what_they_should(rt: HostRuntime) -> Result<(), Fail> {
    for (number, server) in SERVERS.iter().enumerate() {
        assert!(rt;
            is_right_server(&rt, rt.alloc(), server)?,
            "server {number}"
        );
    }
    Ok(())
}

/// The first call of the disk whose failing does not end a server that is brought the PUT with status 8.
fn first_served<R: Threads + Wait + Sync>(rt: &R, alloc: Global) -> Result<u64, NoMemory> {
    let given = Given {
        words: SERVE,
        users: THREE,
        file: b"",
    };
    for call in 0..MOST_CALLS {
        let mut door = door_of(alloc, Guest::Puts, NONE)?;
        let (end, _disk) = serve_kept(rt, alloc, &given, &mut door, call)?;
        if !is_end(end, BROKEN) {
            return Ok(call);
        }
    }
    Ok(MOST_CALLS)
}

#[test]
fn a_server_ends_where_a_call_of_the_disk_fails(rt: HostRuntime) -> Result<(), Fail> {
    let served = first_served(&rt, rt.alloc())?;
    let of_put = calls_of(rt.alloc(), b"", PUT)?;
    assert!(rt; 0 < served && served == of_put, "{served} of {of_put}");
    Ok(())
}

/// Servers without a journal file: the words of each, who comes, the call of its door that fails, and its status.
const UNKEPT_SERVERS: [(&str, Guest, u64, u8); 5] = [
    (PLAIN, Guest::Silent, NONE, 0),
    (PLAIN, Guest::Nobody, NONE, 0),
    (PLAIN, Guest::Silent, 0, 4),
    (PLAIN_NOWHERE, Guest::Silent, NONE, 2),
    (SERVE, Guest::Silent, NONE, 2),
];

/// How a server without a journal file ends.
fn serve_unkept<R: Threads + Wait + Sync>(
    rt: &R,
    alloc: Global,
    words: &str,
    door: &mut MemoryDoor,
) -> Result<ScriptEnd, NoMemory> {
    let words = words_of(alloc, words)?;
    let mut files = files_of(alloc, THREE)?;
    Ok(run_serve(rt, alloc, &words, &mut files, door))
}

#[test]
fn servers_without_a_journal_file_end_alike(rt: HostRuntime) -> Result<(), Fail> {
    for (words, guest, failing, status) in UNKEPT_SERVERS {
        let mut door = door_of(rt.alloc(), guest, failing)?;
        let end = serve_unkept(&rt, rt.alloc(), words, &mut door)?;
        assert!(rt; is_end(end, (status, 0)), "{words}");
    }
    Ok(())
}
