//! What the tests share: users, entries, the making of a file of them, and the reading of a file to its end.
ghost use Rattle.std.specs.Prelude.{◌≡◌, ◌<◌, false, true, length, IfOk};
ghost use Rattle.cal_journal.specs.KeptEntries.{kept_entry};
ghost use Rattle.cal_keeper.specs.Files.Payloads.{HasForm};
ghost use Rattle.cal_keeper.specs.Principals.{counts_of};

use cal_base::{Arc, List, NoMemory, Octets};
use cal_journal::Entry;
use cal_keeper::{Created, Disk, Keeper, MemoryDisk, NextEntry, Opened, Reader, create, open};
use cal_model::Change;
use privileges::{Users, UsersFault, read_users};
use std::alloc::Global;
use std::process::Abort;

/// The users of the worked file.
pub(super) const USERS: &str =
    "user alice ba7816bf8f01cfea414140de5dae2223b00361a396177a9cb410ff61f20015ad\nuser bob ba7816bf8f01cfea414140de5dae2223b00361a396177a9cb410ff61f20015ad\nuser carol ba7816bf8f01cfea414140de5dae2223b00361a396177a9cb410ff61f20015ad\n";

/// The worked file with one PUT: 288 octets, with gates at 51 and 287.
pub(super) const ONE_PUT: &[u8; 288] =
    b"caldavjournal 1\n\0\0\0\x1fuser alice\nuser bob\nuser carol\n\x01\0\0\0\xe7\x01\0\0\0\0\0\0\0\0\x67\xce\xb5\0\0\xc9\0\0\0\0\x08calendar\x07one.ics\0\0\0\xbfBEGIN:VCALENDAR\r\nVERSION:2.0\r\nPRODID:-//a//EN\r\nBEGIN:VEVENT\r\nUID:one\r\nDTSTAMP:20250101T000000Z\r\nDTSTART:20250310T090000Z\r\nDTEND:20250310T100000Z\r\nSUMMARY:Stand-up\r\nEND:VEVENT\r\nEND:VCALENDAR\r\n\0";

/// The worked file without records.
pub(super) const NO_RECORD: &[u8; 52] =
    b"caldavjournal 1\n\0\0\0\x1fuser alice\nuser bob\nuser carol\n\0";

/// A file with the record of a deletion: bob's, of his calendar `calendar`, at 1741600000, with 204.
pub(super) const ONE_DELETION: &[u8; 85] =
    b"caldavjournal 1\n\0\0\0\x1fuser alice\nuser bob\nuser carol\n\x01\0\0\0\x1c\x03\0\0\0\x01\0\0\0\0\x67\xce\xb5\0\0\xcc\0\0\0\x01\x08calendar\0";

/// How the reading of a file ended.
#[derive(Clone, Copy, PartialEq)]
pub(super) enum Ending {
    NotJournal,
    OtherUsers(u64),
    Bad(u64),
    End,
    Failed,
    NoMemory,
    /// There were more records than are looked at.
    Longer,
}

/// The most records that are looked at.
const MOST_RECORDS: u32 = 200_000;

/// The three users.
pub(super) fn three_users(alloc: Global) -> Result<Users, UsersFault> {
    read_users(alloc, USERS.as_bytes())
}

/// The entry of the deletion in `ONE_DELETION`, by the second of some users.
pub(super) fn deletion(alloc: Global, users: &Users) -> Result<Entry, NoMemory>
    requires { 1 < length users.now.people }
    ensures { IfOk result (λ entry. HasForm (counts_of users.now) (kept_entry entry)) }
{
    let name = Octets::of(alloc, b"calendar".as_slice())?;
    Ok(Entry {
        session: 7,
        who: 1,
        moment: 1_741_600_000,
        change: Change::DeleteCalendar(1, Arc::new(alloc, name)?),
        status: 204,
    })
}

/// The entry of the deletion of a calendar of the first of some users, by one of the first two.
pub(super) fn deletion_by(alloc: Global, users: &Users, who: u32) -> Result<Entry, NoMemory>
    requires two { 1 < length users.now.people }
    requires who { who < 2 }
    ensures { IfOk result (λ entry. HasForm (counts_of users.now) (kept_entry entry)) }
{
    let name = Octets::of(alloc, b"work".as_slice())?;
    Ok(Entry {
        session: 7,
        who,
        moment: 1_741_500_000,
        change: Change::DeleteCalendar(0, Arc::new(alloc, name)?),
        status: 204,
    })
}

/// Makes a file of some users on a disk, and appends the record of the deletion; where `others`, those of two
/// others in front of it. Gives the disk, and whether all went through.
pub(super) fn keep<D: Disk + Drop>(
    alloc: Global,
    disk: D,
    users: &Users,
    others: bool,
) -> (D, Result<bool, NoMemory>) {
    if users.len() < 2 {
        return (disk, Ok(false));
    }
    match create(alloc, disk, users) {
        Created::Done(keeper) => {
            let mut keeper = keeper;
            let kept = append_all(alloc, &mut keeper, users, others);
            (keeper.into_disk(), kept)
        }
        Created::NotEmpty(disk, _) => (disk, Ok(false)),
        Created::Failed(disk) => (disk, Ok(false)),
        Created::NoMemory(disk) => (disk, Err(NoMemory)),
    }
}

/// Appends the record of the deletion, where `others` behind those of two others. Says whether all went
/// through.
fn append_all<D: Disk>(
    alloc: Global,
    keeper: &mut Keeper<D>,
    users: &Users,
    others: bool,
) -> Result<bool, NoMemory>
    requires two { 1 < length users.now.people }
    requires own { keeper.old.principals ≡ counts_of users.now }
    requires unbroken { keeper.old.broken ≡ false }
{
    if !others {
        return append(keeper, users, deletion(alloc, users));
    }
    if !append(keeper, users, deletion_by(alloc, users, 0))? {
        return Ok(false);
    }
    if !append(keeper, users, deletion_by(alloc, users, 1))? {
        return Ok(false);
    }
    append(keeper, users, deletion(alloc, users))
}

/// Appends the record of an entry to a file of these users, and says whether that went through.
fn append<D: Disk>(
    keeper: &mut Keeper<D>,
    users: &Users,
    entry: Result<Entry, NoMemory>,
) -> Result<bool, NoMemory>
    requires own { keeper.old.principals ≡ counts_of users.now }
    requires unbroken { keeper.old.broken ≡ false }
    requires form { IfOk entry (λ made. HasForm (counts_of users.now) (kept_entry made)) }
    ensures own { keeper.new.principals ≡ counts_of users.now }
    ensures unbroken { IfOk result (λ kept. kept ≡ true → keeper.new.broken ≡ false) }
{
    let _ = users;
    let entry = entry?;
    let kept = keeper.append(&entry).is_ok();
    drop(entry);
    Ok(kept)
}

/// How many records a file on a disk has, and how its reading ended.
pub(super) fn read_whole<D: Disk + Drop>(alloc: Global, disk: D, users: &Users) -> (u32, Ending) {
    match open(alloc, disk, users) {
        Opened::Ready(reader) => read_on(alloc, reader, users),
        Opened::NotJournal(_) => (0, Ending::NotJournal),
        Opened::OtherUsers(_, place) => (0, Ending::OtherUsers(place)),
        Opened::Failed(_) => (0, Ending::Failed),
        Opened::NoMemory(_) => (0, Ending::NoMemory),
    }
}

/// How many records a reader has in front of it, and how their reading ended.
fn read_on<D: Disk + Drop>(alloc: Global, first: Reader<D>, users: &Users) -> (u32, Ending)
    requires { counts_of users.now ≡ first.principals }
{
    let mut reader = first;
    'reading: for records in 0..MOST_RECORDS {
        match read_one(alloc, reader, users) {
            Ok(behind) => reader = behind,
            Err(ending) => return (records, ending),
        }
    }
    (MOST_RECORDS, Ending::Longer)
}

/// The reader behind the next record, or how the reading ended.
fn read_one<D: Disk + Drop>(
    alloc: Global,
    reader: Reader<D>,
    users: &Users,
) -> Result<Reader<D>, Ending>
    requires { counts_of users.now ≡ reader.principals }
    ensures { IfOk result (λ behind. counts_of users.now ≡ behind.principals) }
{
    match reader.next(alloc, users) {
        NextEntry::Entry(behind, event, _) => {
            drop(event);
            Ok(behind)
        }
        NextEntry::End(_) => Err(Ending::End),
        NextEntry::Bad(_, place) => Err(Ending::Bad(place)),
        NextEntry::Failed(_) => Err(Ending::Failed),
        NextEntry::NoMemory(_) => Err(Ending::NoMemory),
    }
}

/// A disk in memory with these octets, of whose calls the ones with the numbers in `failing` fail.
pub(super) fn memory_disk(
    alloc: Global,
    octets: &[u8],
    failing: &[u64],
) -> Result<MemoryDisk, NoMemory> {
    Ok(MemoryDisk::new(alloc, Octets::of(alloc, octets)?, List::of(alloc, failing)?))
}

/// The same of a file in memory.
pub(super) fn read_octets(
    alloc: Global,
    octets: &[u8],
    users: &Users,
) -> Result<(u32, Ending), NoMemory> {
    Ok(read_whole(alloc, memory_disk(alloc, octets, &[])?, users))
}

/// What is found in the file after a stop within a call.
fn found_of_stop(
    alloc: Global,
    users: &Users,
    disk: &MemoryDisk,
    call: u64,
    written: bool,
) -> Result<(u32, Ending), NoMemory> {
    if disk.calls() <= call {
        return Ok((0, Ending::Longer));
    }
    let image = disk.stopped(call, written)?;
    let found = read_octets(alloc, image.as_slice(), users);
    drop(image);
    found
}

/// What is found in a file of which one octet was changed.
pub(super) fn read_changed(
    alloc: Global,
    file: &[u8],
    users: &Users,
    place: usize,
    octet: u8,
) -> Result<(u32, Ending), NoMemory> {
    let Ok(mut changed) = Vec::from_slice(alloc, file) else {
        return Err(NoMemory);
    };
    let octets = changed.as_mut_slice();
    if place < octets.len() {
        octets[place] = octet;
    }
    read_octets(alloc, changed.as_slice(), users)
}

/// What is found in a file, and in it with one octet changed: the place, the octet that is put there, and
/// what is then found.
pub(super) type Changed = (usize, u8, (u32, Ending));

/// Asks it of a file.
pub(super) fn ask_changes(
    rt: &impl Abort,
    alloc: Global,
    users: &Users,
    file: &[u8],
    changes: &[Changed],
) -> Result<(), NoMemory> {
    for (place, octet, wanted) in changes {
        let found = read_changed(alloc, file, users, *place, *octet)?;
        assert!(rt; found == *wanted, "{octet} at {place}");
    }
    Ok(())
}

/// Whether all went through in the writing of a file, and what is found in it then.
pub(super) fn found_behind(
    alloc: Global,
    users: &Users,
    written: (MemoryDisk, Result<bool, NoMemory>),
) -> Result<(bool, (u32, Ending)), NoMemory> {
    let (disk, all) = written;
    let found = read_octets(alloc, disk.octets(), users);
    drop(disk);
    Ok((all?, found?))
}

/// Whether a stop within a call leaves these octets.
pub(super) fn leaves(
    disk: &MemoryDisk,
    call: u64,
    written: bool,
    octets: &[u8],
) -> Result<bool, NoMemory> {
    if disk.calls() <= call {
        return Ok(false);
    }
    let image = disk.stopped(call, written)?;
    let same = is_same(image.as_slice(), octets);
    drop(image);
    Ok(same)
}

/// How many calls there are from one on within which a stop, written and not, leaves what it should: what is
/// found in front of the end, but where it is written in one of the last two, which bring the end and sync
/// it, what is found behind.
pub(super) fn count_right_stops(
    alloc: Global,
    users: &Users,
    disk: &MemoryDisk,
    first: u64,
    front: (u32, Ending),
    behind: (u32, Ending),
) -> Result<u64, NoMemory> {
    let calls = disk.calls();
    let mut count = 0u64;
    for call in first..calls {
        let torn = found_of_stop(alloc, users, disk, call, false)?;
        let whole = found_of_stop(alloc, users, disk, call, true)?;
        let wanted = if calls.saturating_sub(call) <= 2 {
            behind
        } else {
            front
        };
        if torn == front && whole == wanted {
            count = count.wrapping_add(1);
        }
    }
    Ok(count)
}

/// Whether two texts are the same. It promises nothing, so that no proof goes over the octets.
pub(super) fn is_same(a: &[u8], b: &[u8]) -> bool {
    a == b
}
