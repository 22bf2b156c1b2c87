//! The records of a file, read into a book of the old users and one of the new.
ghost use Rattle.std.specs.Prelude.{◌≡◌, ◌≤◌, [], IfOk};
ghost use Rattle.cal_keeper.specs.Files.NextEntries.{IsEventOf};
ghost use Rattle.cal_model.specs.History.Journal.{Entry};
ghost use Rattle.journal_migration.specs.Carrying.{AreBooksOf, AreNewBooks, IsCarried, IsAskedOn, IsReadInto, IsReadAs, IsReadOn, disk_after, IsReadFrom};
ghost use Rattle.cal_keeper.specs.Files.Opening.{IsUnwritten};
ghost use Rattle.journal_migration.specs.Renumbering.{AreAllIn, moved_event};

use crate::asking::{Remade, ask_again};
use crate::migrating::Migrated;
use crate::renumbering::moved_event;
use cal_base::{Arc, NoMemory, Steps};
use cal_book::Book;
use cal_keeper::{Disk, NextEntry, Opened, Reader, file_laws, open};
use cal_model::Event;
use privileges::Users;
use std::alloc::Global;
use std::sync::ledger::Ledger;

/// A book of the old users, and one of the new.
#[derive(Drop)]
pub(crate) struct Books {
    pub(crate) source: Book,
    pub(crate) target: Book,
}

/// What became of an event that was asked of both books.
#[derive(Drop)]
enum Carried {
    /// Both accepted it with the status that is kept.
    Same,
    /// The old users' book accepted it with this other status; 0 where it was not accepted.
    Mismatch(u16),
    /// The new users' book did so.
    Declined(u16),
    /// There was no memory.
    NoMemory,
}

/// Books of the old and the new users at their start.
pub(crate) fn start_books(
    alloc: Global,
    old_users: &Arc<Users>,
    new_users: &Arc<Users>,
) -> Result<Books, NoMemory>
    ensures { IfOk result (AreNewBooks old_users.now new_users.now) }
{
    match start_book(alloc, old_users) {
        Ok(source) => match start_book(alloc, new_users) {
            Ok(target) => Ok(Books { source, target }),
            Err(NoMemory) => {
                drop(source);
                Err(NoMemory)
            }
        },
        Err(NoMemory) => Err(NoMemory),
    }
}

/// A book of these users at its start.
fn start_book(alloc: Global, users: &Arc<Users>) -> Result<Book, NoMemory>
    ensures users { IfOk result (λ book. book.users ≡ users.now) }
    ensures journal { IfOk result (λ book. book.work.journal ≡ []) }
{
    let shared = Arc::try_clone(users)?;
    Book::start(alloc, shared)
}

/// Reads the file of the old users into new books of both. It is synced, and not written.
pub(crate) fn read_old<D: Disk, G: Ledger>(
    alloc: Global,
    old_users: &Users,
    new_users: &Users,
    from: D,
    books: &mut Books,
    steps: &mut Steps<G>,
) -> (Result<(), Migrated>, D)
    requires all { AreAllIn old_users.now new_users.now }
    requires begun { AreNewBooks old_users.now new_users.now books.old }
    ensures read { IsReadFrom D.past D.faults old_users.now new_users.now from books.new result.1 result.0 }
    ensures unwritten { IsUnwritten (D.past from) (D.past result.1) }
    ensures never_falls { D.faults from ≤ D.faults result.1 }
{
    match open(alloc, from, old_users) {
        Opened::Ready(reader) => read_all(alloc, old_users, new_users, reader, books, steps),
        Opened::NotJournal(from) => (Err(Migrated::Refused(0)), from),
        Opened::OtherUsers(from, place) => (Err(Migrated::Refused(place)), from),
        Opened::Failed(from) => (Err(Migrated::OldFailed), from),
        Opened::NoMemory(from) => (Err(Migrated::NoMemory), from),
    }
}

/// Reads the records of a file into the books, until there are no more or one of them ends it.
fn read_all<D: Disk, G: Ledger>(
    alloc: Global,
    old_users: &Users,
    new_users: &Users,
    first: Reader<D>,
    books: &mut Books,
    steps: &mut Steps<G>,
) -> (Result<(), Migrated>, D)
    requires all { AreAllIn old_users.now new_users.now }
    requires into { IsReadInto D.past old_users.now new_users.now books.old first }
    ensures read { IsReadAs D.past D.faults old_users.now new_users.now first.disk books.new result.1 result.0 }
    ensures past_kept { D.past result.1 ≡ D.past first.disk }
    ensures never_falls { D.faults first.disk ≤ D.faults result.1 }
{
    let mut reader = first;
    'records: loop {
        match read_one(alloc, old_users, new_users, reader, books, steps) {
            Ok(behind) => reader = behind,
            Err(end) => return end,
        }
    }
}

/// Reads the next record of a file into the books.
fn read_one<D: Disk, G: Ledger>(
    alloc: Global,
    old_users: &Users,
    new_users: &Users,
    reader: Reader<D>,
    books: &mut Books,
    steps: &mut Steps<G>,
) -> Result<Reader<D>, (Result<(), Migrated>, D)>
    requires all { AreAllIn old_users.now new_users.now }
    requires into { IsReadInto D.past old_users.now new_users.now books.old reader }
    ensures read { IsReadOn D.past D.faults old_users.now new_users.now reader books.new result }
    ensures past_kept { D.past (disk_after result) ≡ D.past reader.disk }
    ensures never_falls { D.faults reader.disk ≤ D.faults (disk_after result) }
{
    let _old = old_users.len();
    let _new = new_users.len();
    let _entries = books.source.entries();
    let place = reader.place();
    match reader.next(alloc, old_users) {
        NextEntry::Entry(behind, event, status) => {
            match carry(alloc, old_users, new_users, event, status, books, steps) {
                Carried::Same => Ok(behind),
                Carried::Mismatch(made) => {
                    let end = Migrated::Mismatch(place, status, made);
                    Err((Err(end), behind.into_disk()))
                }
                Carried::Declined(made) => {
                    let end = Migrated::Declined(place, status, made);
                    Err((Err(end), behind.into_disk()))
                }
                Carried::NoMemory => Err((Err(Migrated::NoMemory), behind.into_disk())),
            }
        }
        NextEntry::End(keeper) => Err((Ok(()), keeper.into_disk())),
        NextEntry::Bad(disk, bad) => Err((Err(Migrated::Refused(bad)), disk)),
        NextEntry::Failed(disk) => Err((Err(Migrated::OldFailed), disk)),
        NextEntry::NoMemory(same) => Err((Err(Migrated::NoMemory), same.into_disk())),
    }
}

/// Asks the first book for the change of a record, and then the second, for the new users.
fn carry<G: Ledger>(
    alloc: Global,
    old_users: &Users,
    new_users: &Users,
    event: Event,
    status: u16,
    books: &mut Books,
    steps: &mut Steps<G>,
) -> Carried
    requires all { AreAllIn old_users.now new_users.now }
    requires books_of { AreBooksOf old_users.now new_users.now books.old }
    requires recorded { (entry : Entry) × IsEventOf old_users.now event status entry }
    ensures books_of { AreBooksOf old_users.now new_users.now books.new }
    ensures carried { IsCarried old_users.now new_users.now event status books.old books.new result }
{
    // What is asked again can be asked: by the laws of files, for users that are told apart.
    file_laws();
    let _old = old_users.len();
    match ask_again(alloc, &event, status, &mut books.source, steps) {
        Remade::Same => {
            let target = &mut books.target;
            carry_moved(alloc, old_users, new_users, event, status, target, steps)
        }
        Remade::Other(made) => {
            drop(event);
            Carried::Mismatch(made)
        }
        Remade::NoMemory => {
            drop(event);
            Carried::NoMemory
        }
    }
}

/// Asks the second book for it, with the numbers of the new users.
fn carry_moved<G: Ledger>(
    alloc: Global,
    old_users: &Users,
    new_users: &Users,
    event: Event,
    status: u16,
    target: &mut Book,
    steps: &mut Steps<G>,
) -> Carried
    requires all { AreAllIn old_users.now new_users.now }
    requires users { target.old.users ≡ new_users.now }
    requires recorded { (entry : Entry) × IsEventOf old_users.now event status entry }
    ensures users { target.new.users ≡ target.old.users }
    ensures carried { IsAskedOn (moved_event old_users.now new_users.now event) status target.old target.new result }
{
    file_laws();
    let _old = old_users.len();
    match moved_event(alloc, old_users, new_users, event) {
        Ok(moved) => {
            let end = ask_moved(alloc, new_users, &moved, status, target, steps);
            drop(moved);
            end
        }
        Err(NoMemory) => Carried::NoMemory,
    }
}

/// Asks the second book for an event of its users.
fn ask_moved<G: Ledger>(
    alloc: Global,
    new_users: &Users,
    moved: &Event,
    status: u16,
    target: &mut Book,
    steps: &mut Steps<G>,
) -> Carried
    requires users { target.old.users ≡ new_users.now }
    requires recorded { (entry : Entry) × IsEventOf new_users.now moved.now status entry }
    ensures users { target.new.users ≡ target.old.users }
    ensures carried { IsAskedOn moved.now status target.old target.new result }
{
    file_laws();
    let _new = new_users.len();
    match ask_again(alloc, moved, status, target, steps) {
        Remade::Same => Carried::Same,
        Remade::Other(made) => Carried::Declined(made),
        Remade::NoMemory => Carried::NoMemory,
    }
}
