//! A kept book from its file.
ghost use Rattle.std.specs.Prelude.{◌≡◌, ◌≢◌, ◌≤◌, ◌<◌, ◌≤ℤ◌, pos, [], slice_get, Some, IfOk, IfSome};
ghost use Rattle.cal_model.specs.Requests.BookableRequests.{IsBookable};
ghost use Rattle.cal_model.specs.State.Changes.{Change, change_of};
ghost use Rattle.cal_book.specs.Cores.{directory_in};
ghost use Rattle.cal_keeper.specs.Disks.CrashModel.{reading};
ghost use Rattle.cal_session.specs.LoadSteps.{remade_by, IsRemade, IsReadInto, IsReadAs, IsReadOn, KeepsWhole, loaded_by, disk_in, disk_after};
ghost use Rattle.cal_session.specs.Loading.{IsLoaded, disk_left};

use crate::kept::Kept;
use cal_base::{Arc, NoMemory, Steps};
use cal_book::Book;
use cal_keeper::{Created, Disk, Keeper, NextEntry, Opened, Reader, create, file_laws, open};
use cal_model::Event;
use privileges::Users;
use std::alloc::Global;
use std::marker::Brand;
use std::sync::ledger::{Blank, Ledger};

/// What became of a kept book that was to be loaded. Each end but the first gives the disk back.
#[derive(Drop)]
pub enum Loaded<D: Disk> {
    /// The book has all that its file stands for, or a new file was made for it. No claim is out.
    Ready(Kept<D>),
    /// The file is not one of these users, or goes on badly: at 0 it is no journal at all; at a place of the text
    /// of users that is another; or at the gate's place neither a record in the form nor a closed gate stands.
    Refused(D, u64),
    /// At the gate's place a record stands whose change is not accepted again with its status: the place, that
    /// status, and the status with which it was accepted, or 0 where it was not.
    Mismatch(D, u64, u16, u16),
    /// A call failed, and was counted.
    Failed(D),
    /// There was no memory. The file can be loaded again.
    NoMemory(D),
}

/// How the filling of a book from a file ended.
#[derive(Drop)]
enum Filled<D: Disk> {
    /// The book has all that the file stands for.
    Whole(Keeper<D>),
    /// As in `Loaded`, as are the others.
    Refused(D, u64),
    Mismatch(D, u64, u16, u16),
    Failed(D),
    NoMemory(D),
}

/// What became of a change that was asked for again.
#[derive(Drop)]
enum Remade {
    /// It was accepted with the status that is kept.
    Same,
    /// It was accepted with this other status; 0 where it was not accepted.
    Other(u16),
    /// There was no memory, and nothing is changed.
    NoMemory,
}

/// Loads the kept book of these users from its file. A file without an octet is made anew. Of another each
/// record's change is asked of a new book, which is ready only where it accepts each with the status of its
/// record. Nothing is written to a file that was there.
pub fn load_kept<D: Disk>(alloc: Global, users: Arc<Users>, disk: D) -> Loaded<D>
    ensures loaded { IsLoaded D.past D.faults users disk result }
    ensures never_falls { D.faults disk ≤ D.faults (disk_left result) }
{
    load_under::<D, Brand>(alloc, users, disk, Blank::new(1))
}

/// The same, with a ledger for the steps of expansion, which are not counted here.
fn load_under<D: Disk, G: Ledger>(
    alloc: Global,
    users: Arc<Users>,
    disk: D,
    blank: Blank,
) -> Loaded<D>
    requires name { blank.name ≡ G.name }
    requires parts { blank.parts ≡ G.parts }
    requires some { 0 < blank.parts }
    ensures loaded { IsLoaded D.past D.faults users disk result }
    ensures never_falls { D.faults disk ≤ D.faults (disk_left result) }
{
    let mut steps = Steps::<G>::open(blank);
    match start_book(alloc, &users) {
        Ok(mut book) => {
            let filled = fill(alloc, &users, disk, &mut book, &mut steps);
            loading_end(book, filled)
        }
        Err(NoMemory) => Loaded::NoMemory(disk),
    }
}

/// A book of these users at its start.
fn start_book(alloc: Global, users: &Arc<Users>) -> Result<Book, NoMemory>
    ensures users { IfOk result (λ book. book.users ≡ users.now) }
    ensures journal { IfOk result (λ book. book.work.journal ≡ []) }
    ensures out { IfOk result (λ book. book.work.out ≡ []) }
{
    let shared = Arc::try_clone(users)?;
    Book::start(alloc, shared)
}

/// Lets a book go that was not filled whole.
fn let_go(_book: Book) {}

/// The end of a loading, by that of the filling of its book.
fn loading_end<D: Disk>(book: Book, filled: Filled<D>) -> Loaded<D>
    requires { KeepsWhole D.past book filled }
    ensures { result ≡ loaded_by book filled }
{
    match filled {
        Filled::Whole(keeper) => Loaded::Ready(Kept::over(book, keeper)),
        Filled::Refused(disk, place) => {
            let_go(book);
            Loaded::Refused(disk, place)
        }
        Filled::Mismatch(disk, place, kept, made) => {
            let_go(book);
            Loaded::Mismatch(disk, place, kept, made)
        }
        Filled::Failed(disk) => {
            let_go(book);
            Loaded::Failed(disk)
        }
        Filled::NoMemory(disk) => {
            let_go(book);
            Loaded::NoMemory(disk)
        }
    }
}

/// Fills a new book from the file, which is made where there is none.
fn fill<D: Disk, G: Ledger>(
    alloc: Global,
    users: &Users,
    disk: D,
    book: &mut Book,
    steps: &mut Steps<G>,
) -> Filled<D>
    requires users { book.old.users ≡ users.now }
    requires journal { book.old.work.journal ≡ [] }
    requires out { book.old.work.out ≡ [] }
    ensures loaded { IsLoaded D.past D.faults users.now disk (loaded_by book.new result) }
    ensures never_falls { D.faults disk ≤ D.faults (disk_in result) }
{
    match create(alloc, disk, users) {
        Created::Done(keeper) => Filled::Whole(keeper),
        Created::NotEmpty(disk, _) => fill_opened(alloc, users, disk, book, steps),
        Created::Failed(disk) => Filled::Failed(disk),
        Created::NoMemory(disk) => Filled::NoMemory(disk),
    }
}

/// Fills a new book from a file that has octets.
fn fill_opened<D: Disk, G: Ledger>(
    alloc: Global,
    users: &Users,
    disk: D,
    book: &mut Book,
    steps: &mut Steps<G>,
) -> Filled<D>
    requires users { book.old.users ≡ users.now }
    requires journal { book.old.work.journal ≡ [] }
    requires out { book.old.work.out ≡ [] }
    requires some { IfSome (D.past disk) (λ p. reading p ≢ []) }
    ensures loaded { IsLoaded D.past D.faults users.now disk (loaded_by book.new result) }
    ensures never_falls { D.faults disk ≤ D.faults (disk_in result) }
{
    match open(alloc, disk, users) {
        Opened::Ready(reader) => read_all(alloc, users, reader, book, steps),
        Opened::NotJournal(disk) => Filled::Refused(disk, 0),
        Opened::OtherUsers(disk, place) => Filled::Refused(disk, place),
        Opened::Failed(disk) => Filled::Failed(disk),
        Opened::NoMemory(disk) => Filled::NoMemory(disk),
    }
}

/// Reads the records of a file into a book, until there are no more or one of them ends it.
fn read_all<D: Disk, G: Ledger>(
    alloc: Global,
    users: &Users,
    first: Reader<D>,
    book: &mut Book,
    steps: &mut Steps<G>,
) -> Filled<D>
    requires { IsReadInto D.past users.now book.old first }
    ensures read { IsReadAs D.past D.faults users.now first.disk book.new result }
    ensures never_falls { D.faults first.disk ≤ D.faults (disk_in result) }
{
    let mut reader = first;
    'records: loop {
        match read_one(alloc, users, reader, book, steps) {
            Ok(behind) => reader = behind,
            Err(end) => return end,
        }
    }
}

/// Reads the next record of a file into a book.
fn read_one<D: Disk, G: Ledger>(
    alloc: Global,
    users: &Users,
    reader: Reader<D>,
    book: &mut Book,
    steps: &mut Steps<G>,
) -> Result<Reader<D>, Filled<D>>
    requires { IsReadInto D.past users.now book.old reader }
    ensures read { IsReadOn D.past D.faults users.now reader book.new result }
    ensures never_falls { D.faults reader.disk ≤ D.faults (disk_after result) }
{
    // What is asked again can be asked: by the laws of files, for users that are told apart.
    file_laws();
    let _users = users.len();
    let _entries = book.entries();
    let place = reader.place();
    match reader.next(alloc, users) {
        NextEntry::Entry(behind, event, status) => {
            let remade = ask_again(alloc, &event, status, book, steps);
            drop(event);
            match remade {
                Remade::Same => Ok(behind),
                Remade::Other(made) => {
                    Err(Filled::Mismatch(behind.into_disk(), place, status, made))
                }
                Remade::NoMemory => Err(Filled::NoMemory(behind.into_disk())),
            }
        }
        NextEntry::End(keeper) => Err(Filled::Whole(keeper)),
        NextEntry::Bad(disk, bad) => Err(Filled::Refused(disk, bad)),
        NextEntry::Failed(disk) => Err(Filled::Failed(disk)),
        NextEntry::NoMemory(same) => Err(Filled::NoMemory(same.into_disk())),
    }
}

/// Asks a book for a change that is kept with a status.
fn ask_again<G: Ledger>(
    alloc: Global,
    event: &Event,
    status: u16,
    book: &mut Book,
    steps: &mut Steps<G>,
) -> Remade
    requires bookable { IsBookable book.old.users event.now.who event.now.request }
    requires from_1970 { pos 0 ≤ℤ event.now.moment }
    requires to_9999 { event.now.moment ≤ℤ pos 253_402_300_799 }
    requires asks { (change : Change) × (change_of (directory_in book.old) event.now.request ≡ Some change) }
    ensures users { book.new.users ≡ book.old.users }
    ensures remade { IsRemade book.old event.now status book.new result }
{
    let before = book.entries();
    let reply = book.request(alloc, event, &mut None, steps);
    let busy = reply.status == 503;
    drop(reply);
    if busy {
        Remade::NoMemory
    } else {
        remade_at(book, before, status)
    }
}

/// Whether the entry of a number is there, and has a status.
fn remade_at(book: &Book, number: u64, status: u16) -> Remade
    ensures { result ≡ remade_by (slice_get book.now.work.journal number) status }
{
    match book.entry(number) {
        None => Remade::Other(0),
        Some(entry) => {
            if entry.status == status {
                Remade::Same
            } else {
                Remade::Other(entry.status)
            }
        }
    }
}
