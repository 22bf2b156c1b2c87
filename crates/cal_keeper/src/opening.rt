//! Opening a journal file.
ghost use Rattle.std.specs.Prelude.{◌≡◌, ℕ, ◌+◌, ◌<◌, ◌≤◌, ◌^◌, length, nat_eq, Ok, IfSome, IsNone, ◌≢◌, IfOk, IsErrOf, OnErr};
ghost use Rattle.std.specs.List.{common_prefix_len};
ghost use Rattle.cal_base.specs.World.Outside.{Rose};
ghost use Rattle.cal_keeper.specs.Files.Opening.{disk_left, first_difference, IsOpened, IsRightlyRefused, IsUnwritten};
ghost use Rattle.cal_keeper.specs.Steps.HeaderSteps.{FindsHeader, ReadsHeader};

use crate::disk::Disk;
use crate::header::{MARK, users_text};
use crate::principals::counts_of;
use crate::reader::Reader;
use crate::record_reading::{NoRecord, fill, read_octets};
use cal_base::{Failed, NoMemory, Octets};
use privileges::Users;
use std::alloc::Global;

/// Why no header of some users was found.
#[derive(Debug, Clone, Copy, PartialEq, Eq)]
pub(crate) enum NoHeader {
    /// The file does not begin with the form of a header.
    NotJournal,
    /// Its text of users differs, first at this place of the text.
    OtherUsers(u64),
    /// A read failed, and was counted.
    Failed,
    NoMemory,
}

/// What became of a file that was to be opened. Each end gives the disk back.
#[derive(Drop)]
pub enum Opened<D: Disk> {
    /// It is a journal file of these users, and none of its records was read yet.
    Ready(Reader<D>),
    /// The file does not begin with the form of a header.
    NotJournal(D),
    /// Its text of users is another: this is the first place of that text at which the two differ, or at
    /// which one of them ends.
    OtherUsers(D, u64),
    /// A call failed, and was counted.
    Failed(D),
    /// There was no memory for the text of users. The file can be opened again.
    NoMemory(D),
}

/// Opens a journal file of these users. It is synced first, since what an earlier run wrote last may not
/// be on the disk yet.
pub fn open<D: Disk>(alloc: Global, disk: D, users: &Users) -> Opened<D>
    ensures opened { IsOpened D.past D.faults users.now disk result }
    ensures rightly { IsRightlyRefused D.past users.now disk result }
    ensures unwritten { IsUnwritten (D.past disk) (D.past (disk_left result)) }
    ensures never_falls { D.faults disk ≤ D.faults (disk_left result) }
{
    let principals = counts_of(users);
    let mut disk = disk;
    match disk.sync() {
        Ok(()) => {}
        Err(Failed) => return Opened::Failed(disk),
    }
    match find_header(alloc, &mut disk, users) {
        Ok(place) => Opened::Ready(Reader::at(disk, principals, place)),
        Err(NoHeader::NotJournal) => Opened::NotJournal(disk),
        Err(NoHeader::OtherUsers(place)) => Opened::OtherUsers(disk, place),
        Err(NoHeader::Failed) => Opened::Failed(disk),
        Err(NoHeader::NoMemory) => Opened::NoMemory(disk),
    }
}

/// The place behind the header of these users.
fn find_header<D: Disk>(alloc: Global, disk: &mut D, users: &Users) -> Result<u64, NoHeader>
    ensures never_falls { D.faults disk.old ≤ D.faults disk.new }
    ensures failed { IsErrOf result NoHeader.Failed → Rose (D.faults disk.old) (D.faults disk.new) }
    ensures past_kept { D.past disk.new ≡ D.past disk.old }
    ensures header { FindsHeader users.now result (D.past disk.old) }
    ensures few { IfOk result (λ place. place ≤ 2 ^ 62) }
{
    let text = read_header(alloc, disk)?;
    let own = match users_text(alloc, users) {
        Ok(own) => own,
        Err(NoMemory) => return Err(NoHeader::NoMemory),
    };
    match difference(text.as_slice(), own.as_slice()) {
        Some(place) => Err(NoHeader::OtherUsers(place as u64)),
        None => Ok(20 + text.len() as u64),
    }
}

/// The text of users in a header.
fn read_header<D: Disk>(alloc: Global, disk: &mut D) -> Result<Octets, NoHeader>
    ensures never_falls { D.faults disk.old ≤ D.faults disk.new }
    ensures failed { IsErrOf result NoHeader.Failed → Rose (D.faults disk.old) (D.faults disk.new) }
    ensures past_kept { D.past disk.new ≡ D.past disk.old }
    ensures reads { ReadsHeader result (D.past disk.old) }
    ensures few { IfOk result (λ text. 20 + length text ≤ 2 ^ 62) }
{
    let mut mark = [0; 16];
    match fill(disk, 0, &mut mark) {
        Ok(true) => {}
        Ok(false) => return Err(NoHeader::NotJournal),
        Err(Failed) => return Err(NoHeader::Failed),
    }
    match difference(&mark, &MARK) {
        Some(_) => return Err(NoHeader::NotJournal),
        None => {}
    }
    let mut size = [0; 4];
    match fill(disk, 16, &mut size) {
        Ok(true) => {}
        Ok(false) => return Err(NoHeader::NotJournal),
        Err(Failed) => return Err(NoHeader::Failed),
    }
    match read_octets(alloc, disk, 20, u32::from_be_bytes(size)) {
        Ok(text) => Ok(text),
        Err(NoRecord::Bad) => Err(NoHeader::NotJournal),
        Err(NoRecord::Failed) => Err(NoHeader::Failed),
        Err(NoRecord::NoMemory) => Err(NoHeader::NoMemory),
    }
}

/// The first place at which two texts differ, if they do. One of them may end there.
fn difference(a: &[u8], b: &[u8]) -> Option<usize>
    ensures same { IsNone result → a.now ≡ b.now }
    ensures differs { IfSome result (λ place. (a.now ≢ b.now) × (place ≡ first_difference a.now b.now)) }
{
    let same = common_len(a, b);
    if same < a.len() {
        return Some(same);
    }
    if same < b.len() {
        return Some(same);
    }
    None
}

/// How many octets two texts begin with alike.
fn common_len(a: &[u8], b: &[u8]) -> usize
    ensures { result ≡ common_prefix_len nat_eq a.now b.now }
{
    let mut same = 0;
    'comparing: while same < a.len() && same < b.len() {
        if a[same] != b[same] {
            return same;
        }
        same += 1;
    }
    same
}
