//! A journal that is carried over to other users.
ghost use Rattle.std.specs.Prelude.{◌≡◌, ◌≤◌, ◌<◌};
ghost use Rattle.cal_keeper.specs.Files.Opening.{IsUnwritten};
ghost use Rattle.journal_migration.specs.Migrations.{IsHistoryOfBoth, IsMigrated, WritesOverNothing};
ghost use Rattle.journal_migration.specs.Carrying.{AreNewBooks, AreWhole};
ghost use Rattle.journal_migration.specs.Writing.{IsWrittenAs};
ghost use Rattle.journal_migration.specs.Renumbering.{AreAllIn, moved_entries};
ghost use Rattle.journal_migration.specs.Stops.{StopsLeave};

use crate::carrying::{Books, read_old, start_books};
use crate::gone::{Principal, first_gone};
use crate::writing::write_new;
use cal_base::{Arc, NoMemory, Steps};
use cal_book::history_laws;
use cal_keeper::Disk;
use privileges::Users;
use std::alloc::Global;
use std::marker::Brand;
use std::sync::ledger::{Blank, Ledger};

/// How the carrying of a journal over to other users ended. Something is done to the new file at `Done`,
/// `NotBegun` and `NewFailed` alone.
#[derive(Clone, Copy, PartialEq, Eq, Debug)]
pub enum Migrated {
    /// The new file stands for all changes of the old one.
    Done,
    /// None of the new users or groups has the name of this old one.
    Gone(Principal),
    /// The old file is not one of the old users, or goes on badly: at 0 it is no journal at all, as where it
    /// has no octet; at a place of the text of users that is another; or at the gate's place neither a record
    /// in the form nor a closed gate stands.
    Refused(u64),
    /// At the gate's place of the old file a record stands whose change the old users' book does not accept
    /// with its status: the place, that status, and the status with which it was accepted, or 0 where it was
    /// not.
    Mismatch(u64, u16, u16),
    /// The old users' book accepts it with its status, and that of the new users does not: the same three.
    Declined(u64, u16, u16),
    /// The new file has so many octets already.
    NotEmpty(u64),
    /// A call of the old file's disk failed, and was counted.
    OldFailed,
    /// A call of the new file's disk failed before the file was begun, and was counted: it is as it was; or it
    /// had no octets, and then it has no change, but before its first sync a stop may have left anything.
    NotBegun,
    /// A later call failed, and was counted. What the file has is no journal, or the whole one.
    NewFailed,
    /// There was no memory.
    NoMemory,
}

/// Carries the journal of the old users that the first disk has over to the new users: the second disk,
/// whose file has to have no octet, gets a journal of these that stands for the same changes, in their
/// order and with their statuses. Users and groups are mapped by their names, and each old one has to be
/// among the new. Both books have to accept each change as it was before anything is written.
///
/// The old file is only read, and a new one that has octets already is not written. Once a blank is on the disk
/// in the place of the new file's mark, which comes before all else that is done to it, a stop at any moment
/// leaves what is no journal, or the whole one. Before that a stop may leave anything.
/// Gives the disks back: the old file's, and the new one's. Takes memory for both books at once; the time
/// grows with the number of changes as that of a start does, twice.
pub fn migrate<D: Disk>(
    alloc: Global,
    old_users: Arc<Users>,
    new_users: Arc<Users>,
    from: D,
    to: D,
) -> (Migrated, D, D)
    ensures end { IsMigrated D.past D.faults old_users new_users from to result.1 result.2 result.0 }

    // At any moment: the old file is as it was, or was synced; and what a stop leaves of the new one.
    ensures only_read { IsUnwritten (D.past from) (D.past result.1) }
    ensures over_nothing { WritesOverNothing (D.past to) (D.past result.2) }
    ensures stops { StopsLeave old_users new_users (D.past from) (D.past to) (D.past result.2) result.0 }

    // No count falls.
    ensures old_never_falls { D.faults from ≤ D.faults result.1 }
    ensures new_never_falls { D.faults to ≤ D.faults result.2 }
{
    match first_gone(&old_users, &new_users) {
        Some(principal) => (Migrated::Gone(principal), from, to),
        None => {
            migrate_under::<D, Brand>(alloc, &old_users, &new_users, from, to, Blank::new(1))
        }
    }
}

/// The same, with a ledger for the steps of expansion, which are not counted here.
fn migrate_under<D: Disk, G: Ledger>(
    alloc: Global,
    old_users: &Arc<Users>,
    new_users: &Arc<Users>,
    from: D,
    to: D,
    blank: Blank,
) -> (Migrated, D, D)
    requires name { blank.name ≡ G.name }
    requires parts { blank.parts ≡ G.parts }
    requires some { 0 < blank.parts }
    requires all { AreAllIn old_users.now new_users.now }
    ensures end { IsMigrated D.past D.faults old_users.now new_users.now from to result.1 result.2 result.0 }
    ensures only_read { IsUnwritten (D.past from) (D.past result.1) }
    ensures over_nothing { WritesOverNothing (D.past to) (D.past result.2) }
    ensures stops { StopsLeave old_users.now new_users.now (D.past from) (D.past to) (D.past result.2) result.0 }
    ensures old_never_falls { D.faults from ≤ D.faults result.1 }
    ensures new_never_falls { D.faults to ≤ D.faults result.2 }
{
    let mut steps = Steps::<G>::open(blank);
    match start_books(alloc, old_users, new_users) {
        Ok(mut books) => {
            let ended = migrate_in(
                alloc, old_users, new_users, from, to, &mut books, &mut steps,
            );
            drop(books);
            ended
        }
        Err(NoMemory) => (Migrated::NoMemory, from, to),
    }
}

/// Reads the old file into new books of both users, and then writes the new one.
fn migrate_in<D: Disk, G: Ledger>(
    alloc: Global,
    old_users: &Users,
    new_users: &Users,
    from: D,
    to: D,
    books: &mut Books,
    steps: &mut Steps<G>,
) -> (Migrated, D, D)
    requires all { AreAllIn old_users.now new_users.now }
    requires begun { AreNewBooks old_users.now new_users.now books.old }
    ensures end { IsMigrated D.past D.faults old_users.now new_users.now from to result.1 result.2 result.0 }
    ensures only_read { IsUnwritten (D.past from) (D.past result.1) }
    ensures over_nothing { WritesOverNothing (D.past to) (D.past result.2) }
    ensures stops { StopsLeave old_users.now new_users.now (D.past from) (D.past to) (D.past result.2) result.0 }
    ensures old_never_falls { D.faults from ≤ D.faults result.1 }
    ensures new_never_falls { D.faults to ≤ D.faults result.2 }
{
    let (read, from) = read_old(alloc, old_users, new_users, from, books, steps);
    match read {
        Ok(()) => {
            let (end, to) = write_moved(alloc, books, old_users, new_users, to);
            (end, from, to)
        }
        Err(end) => (end, from, to),
    }
}

/// Writes the entries of the new users' book, which are those of the old users' for the new ones.
fn write_moved<D: Disk>(
    alloc: Global,
    books: &Books,
    old_users: &Users,
    new_users: &Users,
    to: D,
) -> (Migrated, D)
    requires all { AreAllIn old_users.now new_users.now }
    requires whole { AreWhole old_users.now new_users.now books.now }
    ensures written { IsWrittenAs D.past D.faults new_users.now (moved_entries old_users.now new_users.now books.now.source.work.journal) to result.1 result.0 }
    ensures of_both { IsHistoryOfBoth old_users.now new_users.now books.now.source.work.journal }
    ensures never_falls { D.faults to ≤ D.faults result.1 }
{
    history_laws();
    let _old = old_users.len();
    let _new = new_users.len();
    let _source = books.source.entries();
    let _target = books.target.entries();
    write_new(alloc, &books.target, new_users, to)
}
