//! Tests of the command `migrate` over files and disks in memory: a journal with an object and grants to a
//! user and to a group is carried over to users among whom others stand before, between and behind, and each
//! end has its cause. The journals are written out by hand from `docs/JOURNAL.md`.

use crate::migrate::{MigrateEnd, run_migrate};
use cal_base::{List, MemoryFiles, NoMemory, Octets, Word};
use cal_keeper::MemoryDisk;
use std::alloc::Global;
use std::test::Fail;

const OLD_USERS: &[u8] =
    b"user alice ba7816bf8f01cfea414140de5dae2223b00361a396177a9cb410ff61f20015ad\n\
    user bob ba7816bf8f01cfea414140de5dae2223b00361a396177a9cb410ff61f20015ad\n\
    group team alice bob\n";

/// alice alone, and with bob, without a group.
const ALICE: &[u8] =
    b"user alice ba7816bf8f01cfea414140de5dae2223b00361a396177a9cb410ff61f20015ad\n";

const ALICE_AND_BOB: &[u8] =
    b"user alice ba7816bf8f01cfea414140de5dae2223b00361a396177a9cb410ff61f20015ad\n\
    user bob ba7816bf8f01cfea414140de5dae2223b00361a396177a9cb410ff61f20015ad\n";

/// Others stand before, between and behind the old users, and a group before theirs.
const NEW_USERS: &[u8] =
    b"user aaron ba7816bf8f01cfea414140de5dae2223b00361a396177a9cb410ff61f20015ad\n\
    user alice ba7816bf8f01cfea414140de5dae2223b00361a396177a9cb410ff61f20015ad\n\
    user ann ba7816bf8f01cfea414140de5dae2223b00361a396177a9cb410ff61f20015ad\n\
    user bob ba7816bf8f01cfea414140de5dae2223b00361a396177a9cb410ff61f20015ad\n\
    user carol ba7816bf8f01cfea414140de5dae2223b00361a396177a9cb410ff61f20015ad\n\
    group crew aaron\n\
    group team alice bob\n";

/// The same with bob taken out of the group.
const LESS_USERS: &[u8] =
    b"user alice ba7816bf8f01cfea414140de5dae2223b00361a396177a9cb410ff61f20015ad\n\
    user bob ba7816bf8f01cfea414140de5dae2223b00361a396177a9cb410ff61f20015ad\n\
    group team alice\n";

/// alice stores an object in her calendar; she grants read to bob, and all that writes take to the team; and
/// bob, who is in the team, deletes the object.
const OLD: &[u8] = b"caldavjournal 1\n\0\0\0\x29user alice\nuser bob\ngroup team alice bob\n\
    \x01\0\0\0\xd4\x01\0\0\0\0\0\0\0\0g\xce\xb5\0\0\xc9\0\0\0\0\x08calendar\x05a.ics\0\0\0\xaeBEGIN:VCALENDAR\r\n\
    VERSION:2.0\r\nPRODID:-//a//EN\r\nBEGIN:VEVENT\r\nUID:busy\r\nDTSTAMP:20250101T000000Z\r\n\
    DTSTART:20250310T100000Z\r\nDTEND:20250310T120000Z\r\nEND:VEVENT\r\nEND:VCALENDAR\r\n\
    \x01\0\0\0\x2f\x06\0\0\0\0\0\0\0\0g\xce\xb5\x01\0\xc8\0\0\0\0\x08calendar\0\0\x01\x2c\x02\
    \x02\0\0\0\x01\0\x02\x03\0\0\0\0\0\x3c\
    \x01\0\0\0\x22\x02\0\0\0\x01\0\0\0\0g\xce\xb5\x02\0\xcc\0\0\0\0\x08calendar\x05a.ics\0";

/// The same for the new users: alice is user 1, bob is user 3, and the team is group 1.
const NEW: &[u8] =
    b"caldavjournal 1\n\0\0\0\x59user aaron\nuser alice\nuser ann\nuser bob\nuser carol\n\
    group crew aaron\ngroup team alice bob\n\
    \x01\0\0\0\xd4\x01\0\0\0\x01\0\0\0\0g\xce\xb5\0\0\xc9\0\0\0\x01\x08calendar\x05a.ics\0\0\0\xaeBEGIN:VCALENDAR\r\n\
    VERSION:2.0\r\nPRODID:-//a//EN\r\nBEGIN:VEVENT\r\nUID:busy\r\nDTSTAMP:20250101T000000Z\r\n\
    DTSTART:20250310T100000Z\r\nDTEND:20250310T120000Z\r\nEND:VEVENT\r\nEND:VCALENDAR\r\n\
    \x01\0\0\0\x2f\x06\0\0\0\x01\0\0\0\0g\xce\xb5\x01\0\xc8\0\0\0\x01\x08calendar\0\0\x01\x2c\x02\
    \x02\0\0\0\x03\0\x02\x03\0\0\0\x01\0\x3c\
    \x01\0\0\0\x22\x02\0\0\0\x03\0\0\0\0g\xce\xb5\x02\0\xcc\0\0\0\x01\x08calendar\x05a.ics\0";

/// The words of each run.
const WORDS: [&str; 9] = [
    "migrate",
    "--users",
    "users",
    "--journal",
    "journal",
    "--new-users",
    "users.new",
    "--to",
    "journal.new",
];

/// What a file has at first.
#[derive(Clone, Copy)]
enum First {
    NewUsers,
    OldUsers,
    LessUsers,
    Alice,
    AliceAndBob,
    BadLine,
    Old,
    New,
    OfAlice,
    X,
    Nothing,
}

/// Its octets.
fn octets_of(first: First) -> &'static [u8] {
    match first {
        First::NewUsers => NEW_USERS,
        First::OldUsers => OLD_USERS,
        First::LessUsers => LESS_USERS,
        First::Alice => ALICE,
        First::AliceAndBob => ALICE_AND_BOB,
        First::BadLine => b"user alice\n",
        First::Old => OLD,
        First::New => NEW,
        First::OfAlice => b"caldavjournal 1\n\0\0\0\x0buser alice\n\0",
        First::X => b"x",
        First::Nothing => b"",
    }
}

/// The new users file; the old journal; what the new one has at first; which calls for the old users file, for
/// the new one, of the old disk and of the new one fail; the status and its place; and what the new journal has
/// then.
type Case = (First, First, First, [&'static [u64]; 4], (u8, u64), First);

const CASES: [Case; 16] = [
    // Carried over to users among whom others stand, and to the same ones.
    (
        First::NewUsers,
        First::Old,
        First::Nothing,
        [&[], &[], &[], &[]],
        (0, 0),
        First::New,
    ),
    (
        First::OldUsers,
        First::Old,
        First::Nothing,
        [&[], &[], &[], &[]],
        (0, 0),
        First::Old,
    ),
    // A users file has a bad line, or cannot be read; then no disk is looked at.
    (
        First::BadLine,
        First::Old,
        First::Nothing,
        [&[], &[], &[0], &[0]],
        (3, 0),
        First::Nothing,
    ),
    (
        First::NewUsers,
        First::Old,
        First::Nothing,
        [&[0], &[], &[0], &[0]],
        (4, 0),
        First::Nothing,
    ),
    (
        First::NewUsers,
        First::Old,
        First::Nothing,
        [&[], &[0], &[0], &[0]],
        (4, 0),
        First::Nothing,
    ),
    // Somebody is gone, or a group.
    (
        First::Alice,
        First::Old,
        First::Nothing,
        [&[], &[], &[0], &[0]],
        (10, 0),
        First::Nothing,
    ),
    (
        First::AliceAndBob,
        First::Old,
        First::Nothing,
        [&[], &[], &[0], &[0]],
        (10, 0),
        First::Nothing,
    ),
    // The old journal is empty, is none, or is of other users.
    (
        First::NewUsers,
        First::Nothing,
        First::Nothing,
        [&[], &[], &[], &[0]],
        (9, 0),
        First::Nothing,
    ),
    (
        First::NewUsers,
        First::X,
        First::Nothing,
        [&[], &[], &[], &[0]],
        (9, 0),
        First::Nothing,
    ),
    (
        First::NewUsers,
        First::OfAlice,
        First::Nothing,
        [&[], &[], &[], &[0]],
        (9, 11),
        First::Nothing,
    ),
    // bob has left the team, and his deletion is not accepted any more: nothing is written.
    (
        First::LessUsers,
        First::Old,
        First::Nothing,
        [&[], &[], &[], &[0]],
        (9, 330),
        First::Nothing,
    ),
    // The new journal is there already.
    (
        First::NewUsers,
        First::Old,
        First::X,
        [&[], &[], &[], &[]],
        (12, 1),
        First::X,
    ),
    // A call of a disk fails.
    (
        First::NewUsers,
        First::Old,
        First::Nothing,
        [&[], &[], &[0], &[]],
        (8, 0),
        First::Nothing,
    ),
    (
        First::NewUsers,
        First::Old,
        First::Nothing,
        [&[], &[], &[5], &[]],
        (8, 0),
        First::Nothing,
    ),
    (
        First::NewUsers,
        First::Old,
        First::Nothing,
        [&[], &[], &[], &[0]],
        (8, 0),
        First::Nothing,
    ),
    (
        First::NewUsers,
        First::Old,
        First::Nothing,
        [&[], &[], &[], &[1]],
        (8, 0),
        First::Nothing,
    ),
];

/// The words as the program has them.
fn words_of(alloc: Global) -> Result<List<Word>, NoMemory> {
    let mut words = List::new(alloc);
    for text in WORDS {
        words.push(Word::of(alloc, text)?)?;
    }
    Ok(words)
}

/// Both users files, of which the calls with these numbers fail.
fn files_of(alloc: Global, new_users: &[u8], failing: &[u64]) -> Result<MemoryFiles, NoMemory> {
    let mut files = List::new(alloc);
    files.push((Octets::of(alloc, b"users")?, Octets::of(alloc, OLD_USERS)?))?;
    files.push((
        Octets::of(alloc, b"users.new")?,
        Octets::of(alloc, new_users)?,
    ))?;
    Ok(MemoryFiles::new(files, List::of(alloc, failing)?))
}

/// A disk with these octets, of whose calls those with these numbers fail.
fn disk_of(alloc: Global, octets: &[u8], failing: &[u64]) -> Result<MemoryDisk, NoMemory> {
    let octets = Octets::of(alloc, octets)?;
    Ok(MemoryDisk::new(alloc, octets, List::of(alloc, failing)?))
}

/// The place or the number of which an end tells.
fn place_of(end: &MigrateEnd) -> u64 {
    match end {
        MigrateEnd::Line(_, place) => *place,
        MigrateEnd::Refused(place) => *place,
        MigrateEnd::Declined(place) => *place,
        MigrateEnd::NotEmpty(octets) => *octets,
        _ => 0,
    }
}

/// Whether a run ends as a case says, leaves the old journal as it was, and the new one so.
fn is_right(alloc: Global, case: &Case) -> Result<bool, NoMemory> {
    let (new_users, old, first, failing, (status, place), written) = *case;
    let words = words_of(alloc)?;
    let mut files = files_of(alloc, octets_of(new_users), failing[0])?;
    let mut new_files = files_of(alloc, octets_of(new_users), failing[1])?;
    let from = disk_of(alloc, octets_of(old), failing[2])?;
    let to = disk_of(alloc, octets_of(first), failing[3])?;
    let (end, from, to) = run_migrate(alloc, &words, &mut files, &mut new_files, from, to);
    let is_so = end.status() == status && place_of(&end) == place;
    Ok(is_so && from.octets() == octets_of(old) && to.octets() == octets_of(written))
}

#[test]
fn each_end_has_its_cause(rt: HostRuntime) -> Result<(), Fail> {
    for (number, case) in CASES.iter().enumerate() {
        assert!(rt; is_right(rt.alloc(), case)?, "case {number}");
    }
    Ok(())
}
