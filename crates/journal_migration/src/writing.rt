//! The journal of a book, written whole into a new file.
ghost use Rattle.std.specs.Prelude.{◌≡◌, ◌≤◌, false, [], slice_get, is_ok, IfSome, OnErr};
ghost use Rattle.std.specs.List.{AllByRecursion};
ghost use Rattle.cal_base.specs.World.Outside.{Rose};
ghost use Rattle.cal_keeper.specs.Files.Drafts.{IsDraftOf};
ghost use Rattle.cal_keeper.specs.Files.Standing.{IsRecorded};
ghost use Rattle.cal_keeper.specs.Principals.{counts_of};
ghost use Rattle.journal_migration.specs.Writing.{HasWritten, IsWrittenAs, IsWrittenFrom};

use crate::migrating::Migrated;
use cal_base::Failed;
use cal_book::Book;
use cal_keeper::{Disk, Draft, Drafted, Finished, begin_draft, file_laws};
use privileges::Users;
use std::alloc::Global;

/// Writes the entries of a book into a new file of these users.
pub(crate) fn write_new<D: Disk>(alloc: Global, book: &Book, users: &Users, to: D) -> (Migrated, D)
    requires { AllByRecursion (IsRecorded users.now) book.now.work.journal }
    ensures written { IsWrittenAs D.past D.faults users.now book.now.work.journal to result.1 result.0 }
    ensures never_falls { D.faults to ≤ D.faults result.1 }
{
    file_laws();
    match begin_draft(alloc, to, users) {
        Drafted::Begun(draft) => write_all(book, users, draft),
        Drafted::NotEmpty(to, octets) => (Migrated::NotEmpty(octets), to),
        Drafted::Failed(to) => (Migrated::NotBegun, to),
        Drafted::NoMemory(to) => (Migrated::NoMemory, to),
    }
}

/// Writes all entries of a book into a draft that has none, and finishes it.
fn write_all<D: Disk>(book: &Book, users: &Users, begun: Draft<D>) -> (Migrated, D)
    requires recorded { AllByRecursion (IsRecorded users.now) book.now.work.journal }
    requires principals { begun.principals ≡ counts_of users.now }
    requires unbroken { begun.broken ≡ false }
    requires drafted { IfSome (D.past begun.disk) (IsDraftOf users.now [] begun.place) }
    ensures written { IsWrittenFrom D.past D.faults users.now book.now.work.journal begun.disk result.1 result.0 }
    ensures never_falls { D.faults begun.disk ≤ D.faults result.1 }
{
    file_laws();
    let mut draft = begun;
    'entries: for number in 0..book.entries() {
        match write_entry(book, users, number, &mut draft) {
            Ok(()) => {}
            Err(Failed) => return (Migrated::NewFailed, draft.into_disk()),
        }
    }
    match draft.finish() {
        Finished::Done(to) => (Migrated::Done, to),
        Finished::Failed(to) => (Migrated::NewFailed, to),
    }
}

/// Writes the entry of a number into a draft, if the book has one.
fn write_entry<D: Disk>(
    book: &Book,
    users: &Users,
    number: u64,
    draft: &mut Draft<D>,
) -> Result<(), Failed>
    requires recorded { AllByRecursion (IsRecorded users.now) book.now.work.journal }
    requires principals { draft.old.principals ≡ counts_of users.now }
    requires unbroken { draft.old.broken ≡ false }
    ensures written { HasWritten D.past (slice_get book.now.work.journal number) draft.old draft.new (is_ok result) }
    ensures failed { OnErr result (Rose (D.faults draft.old.disk) (D.faults draft.new.disk)) }
    ensures never_falls { D.faults draft.old.disk ≤ D.faults draft.new.disk }
{
    match book.entry(number) {
        Some(entry) => draft.add(entry),
        None => Ok(()),
    }
}
