//! Tests of the command `slot` over files, a disk and an output in memory: what it prints of a calendar that
//! is tentatively busy from 9 to 11, busy from 10 to 12 and transparent from 8 to 13 on 10 March 2025, and
//! each of its statuses by its cause. The journal is written out by hand from `docs/JOURNAL.md`.

use crate::slot::run_slot;
use cal_base::{List, MemoryFiles, MemorySink, NoMemory, Octets, Word};
use cal_keeper::MemoryDisk;
use std::alloc::Global;
use std::test::Fail;

const USERS: &[u8] =
    b"user alice ba7816bf8f01cfea414140de5dae2223b00361a396177a9cb410ff61f20015ad\n\
    user bob ba7816bf8f01cfea414140de5dae2223b00361a396177a9cb410ff61f20015ad\n\
    user carol ba7816bf8f01cfea414140de5dae2223b00361a396177a9cb410ff61f20015ad\n";

/// The journal of alice's calendar with the three events, which nobody else may see.
const JOURNAL: &[u8] = b"caldavjournal 1\n\0\0\0\x1fuser alice\nuser bob\nuser carol\n\
    \x01\0\0\0\xeb\x01\0\0\0\0\0\0\0\0g\xce\xb5\0\0\xc9\0\0\0\0\x08calendar\x09maybe.ics\0\0\0\xc1BEGIN:VCALENDAR\r\n\
    VERSION:2.0\r\nPRODID:-//a//EN\r\nBEGIN:VEVENT\r\nUID:maybe\r\nDTSTAMP:20250101T000000Z\r\n\
    DTSTART:20250310T090000Z\r\nDTEND:20250310T110000Z\r\nSTATUS:TENTATIVE\r\nEND:VEVENT\r\n\
    END:VCALENDAR\r\n\
    \x01\0\0\0\xd7\x01\0\0\0\0\0\0\0\0g\xce\xb5\0\0\xc9\0\0\0\0\x08calendar\x08busy.ics\0\0\0\xaeBEGIN:VCALENDAR\r\n\
    VERSION:2.0\r\nPRODID:-//a//EN\r\nBEGIN:VEVENT\r\nUID:busy\r\nDTSTAMP:20250101T000000Z\r\n\
    DTSTART:20250310T100000Z\r\nDTEND:20250310T120000Z\r\nEND:VEVENT\r\nEND:VCALENDAR\r\n\
    \x01\0\0\0\xeb\x01\0\0\0\0\0\0\0\0g\xce\xb5\0\0\xc9\0\0\0\0\x08calendar\x08free.ics\0\0\0\xc2BEGIN:VCALENDAR\r\n\
    VERSION:2.0\r\nPRODID:-//a//EN\r\nBEGIN:VEVENT\r\nUID:free\r\nDTSTAMP:20250101T000000Z\r\n\
    DTSTART:20250310T080000Z\r\nDTEND:20250310T130000Z\r\nTRANSP:TRANSPARENT\r\nEND:VEVENT\r\n\
    END:VCALENDAR\r\n\0";

/// The words with which each run begins.
const FRONT: &[&str] = &[
    "slot",
    "--users",
    "users",
    "--journal",
    "journal",
    "--from",
    "20250310T080000Z",
    "--to",
    "20250310T130000Z",
    "--most",
    "5",
];

const ALICE: &[&str] = &[
    "--as",
    "alice",
    "--minutes",
    "60",
    "/calendars/alice/calendar/",
];

const TWO_FREE: &[u8] =
    b"free 20250310T080000Z 20250310T090000Z\nfree 20250310T120000Z 20250310T130000Z\n";

/// The words behind those, the users file and the journal file, where they are others than those above,
/// which calls of the files, of the disk and of the output fail, the status and its place, and what is
/// written.
type Case = (
    &'static [&'static str],
    Option<&'static [u8]>,
    Option<&'static [u8]>,
    [&'static [u64]; 3],
    (u8, u64),
    &'static [u8],
);

const CASES: [Case; 23] = [
    // What is free, and for how long.
    (ALICE, None, None, [&[], &[], &[]], (0, 0), TWO_FREE),
    (
        &[
            "--as",
            "alice",
            "--minutes",
            "61",
            "/calendars/alice/calendar",
        ],
        None,
        None,
        [&[], &[], &[]],
        (0, 0),
        b"none\n",
    ),
    // Words that are not taken.
    (
        &[
            "--as",
            "alice",
            "--minutes",
            "0",
            "/calendars/alice/calendar/",
        ],
        None,
        None,
        [&[0], &[0], &[0]],
        (2, 0),
        b"",
    ),
    (
        &["--as", "alice", "--minutes", "60"],
        None,
        None,
        [&[], &[], &[]],
        (2, 0),
        b"",
    ),
    // The users file has a bad line, or cannot be read; then nothing is looked at behind it.
    (
        ALICE,
        Some(b"user alice\n"),
        None,
        [&[], &[0], &[0]],
        (3, 0),
        b"",
    ),
    (ALICE, None, None, [&[0], &[0], &[0]], (4, 0), b""),
    // A call of the disk fails.
    (ALICE, None, None, [&[], &[0], &[]], (8, 0), b""),
    (ALICE, None, None, [&[], &[1], &[]], (8, 0), b""),
    (ALICE, None, None, [&[], &[2], &[]], (8, 0), b""),
    (ALICE, None, None, [&[], &[6], &[]], (8, 0), b""),
    // The journal is empty, is none, is of other users, or ends in a gate's place.
    (ALICE, None, Some(b""), [&[], &[], &[0]], (9, 0), b""),
    (ALICE, None, Some(b"x"), [&[], &[], &[0]], (9, 0), b""),
    (
        ALICE,
        None,
        Some(b"caldavjournal 1\n\0\0\0\x0buser alice\n\0"),
        [&[], &[], &[0]],
        (9, 11),
        b"",
    ),
    (
        ALICE,
        None,
        Some(b"caldavjournal 1\n\0\0\0\x1fuser alice\nuser bob\nuser carol\n"),
        [&[], &[], &[0]],
        (9, 51),
        b"",
    ),
    // No user has the name.
    (
        &[
            "--as",
            "dave",
            "--minutes",
            "60",
            "/calendars/alice/calendar/",
        ],
        None,
        None,
        [&[], &[], &[0]],
        (10, 0),
        b"",
    ),
    // A path is none, or that of something else than a calendar, or of one that is not there.
    (
        &["--as", "alice", "--minutes", "60", "calendar"],
        None,
        None,
        [&[], &[], &[0]],
        (10, 1),
        b"",
    ),
    (
        &["--as", "alice", "--minutes", "60", "/calendars/alice/"],
        None,
        None,
        [&[], &[], &[0]],
        (10, 1),
        b"",
    ),
    (
        &[
            "--as",
            "alice",
            "--minutes",
            "60",
            "/calendars/alice/calendar/",
            "/calendars/alice/calendar/busy.ics",
        ],
        None,
        None,
        [&[], &[], &[0]],
        (10, 2),
        b"",
    ),
    (
        &["--as", "alice", "--minutes", "60", "/calendars/alice/none/"],
        None,
        None,
        [&[], &[], &[0]],
        (10, 1),
        b"",
    ),
    // A calendar that is hidden is told as one that is not there.
    (
        &[
            "--as",
            "carol",
            "--minutes",
            "60",
            "/calendars/alice/calendar/",
        ],
        None,
        None,
        [&[], &[], &[0]],
        (10, 1),
        b"",
    ),
    (
        &["--as", "carol", "--minutes", "60", "/calendars/alice/none/"],
        None,
        None,
        [&[], &[], &[0]],
        (10, 1),
        b"",
    ),
    // Her own calendar is free.
    (
        &[
            "--as",
            "carol",
            "--minutes",
            "300",
            "/calendars/carol/calendar/",
        ],
        None,
        None,
        [&[], &[], &[]],
        (0, 0),
        b"free 20250310T080000Z 20250310T130000Z\n",
    ),
    // The output fails.
    (ALICE, None, None, [&[], &[], &[0]], (5, 0), b""),
];

/// Puts words behind others.
fn put_words(alloc: Global, texts: &[&str], words: &mut List<Word>) -> Result<(), NoMemory> {
    for text in texts {
        words.push(Word::of(alloc, *text)?)?;
    }
    Ok(())
}

/// The words of a run.
fn words_of(alloc: Global, texts: &[&str]) -> Result<List<Word>, NoMemory> {
    let mut words = List::new(alloc);
    put_words(alloc, FRONT, &mut words)?;
    put_words(alloc, texts, &mut words)?;
    Ok(words)
}

/// The users file, of which the calls with these numbers fail.
fn files_of(alloc: Global, users: &[u8], failing: &[u64]) -> Result<MemoryFiles, NoMemory> {
    let mut files = List::new(alloc);
    files.push((Octets::of(alloc, b"users")?, Octets::of(alloc, users)?))?;
    Ok(MemoryFiles::new(files, List::of(alloc, failing)?))
}

/// A disk with the journal file, of whose calls those with these numbers fail.
fn disk_of(alloc: Global, journal: &[u8], failing: &[u64]) -> Result<MemoryDisk, NoMemory> {
    let octets = Octets::of(alloc, journal)?;
    Ok(MemoryDisk::new(alloc, octets, List::of(alloc, failing)?))
}

/// Whether a run ends and writes as a case says, and leaves the journal file as it was.
fn ends_so(
    alloc: Global,
    words: &List<Word>,
    files: &mut MemoryFiles,
    disk: MemoryDisk,
    output: &mut MemorySink,
    case: &Case,
) -> bool {
    let (_, _, journal, _, (status, place), text) = *case;
    let (end, disk) = run_slot(alloc, words, files, disk, output);
    end.status == status
        && end.place == place
        && output.written() == text
        && disk.octets() == journal.unwrap_or(JOURNAL)
}

/// Runs a case.
fn is_right(alloc: Global, case: &Case) -> Result<bool, NoMemory> {
    let (texts, users, journal, failing, _, _) = *case;
    let words = words_of(alloc, texts)?;
    let mut files = files_of(alloc, users.unwrap_or(USERS), failing[0])?;
    let mut output = MemorySink::new(alloc, List::of(alloc, failing[2])?);
    let disk = disk_of(alloc, journal.unwrap_or(JOURNAL), failing[1])?;
    Ok(ends_so(alloc, &words, &mut files, disk, &mut output, case))
}

#[test]
fn each_status_has_its_cause(rt: HostRuntime) -> Result<(), Fail> {
    for (number, case) in CASES.iter().enumerate() {
        assert!(rt; is_right(rt.alloc(), case)?, "case {number}");
    }
    Ok(())
}
