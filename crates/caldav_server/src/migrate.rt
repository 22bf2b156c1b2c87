//! The command `migrate`.
ghost use Rattle.std.specs.Prelude.{◌≡◌, ◌≤◌, ◌⊎◌, IfErr, IfOk, IfSome};
ghost use Rattle.cal_base.specs.World.Outside.{Rose};
ghost use Rattle.cal_model.specs.Users.UsersFile.{Users as KnownUsers};
ghost use Rattle.cal_keeper.specs.Files.Opening.{IsUnwritten};
ghost use Rattle.cal_script.specs.UsersTaken.{AreUsersOf};
ghost use Rattle.command_words.specs.MigrateWords.{TakesMigrate, users_path, new_users_path};
ghost use Rattle.journal_migration.specs.Migrations.{WritesOverNothing};
ghost use Rattle.caldav_server.specs.MigrateEnds as spec;

use cal_base::{Arc, Files, List, NoMemory, Octets, Word};
use cal_keeper::Disk;
use cal_script::{NoUsers, take_users};
use command_words::{MigrateWords, Untaken, read_migrate};
use journal_migration::{Migrated, Principal, migrate};
use privileges::Users;
use std::alloc::Global;

/// Of which users a file is.
#[derive(Clone, Copy)]
pub(crate) enum Side {
    Old,
    New,
}

/// How the command ended, and what its line on standard error tells.
#[derive(Drop)]
pub(crate) enum MigrateEnd {
    /// The new journal is whole.
    Done,
    /// The words are not taken.
    Words,
    /// A users file is too long, which is said of the place behind its limit, or has a bad line at this place.
    Line(Side, u64),
    /// A users file could not be read.
    Unread(Side),
    /// No new user has the name of this old one.
    UserGone(Octets),
    /// No new group has the name of this old one.
    GroupGone(Octets),
    /// The old journal is refused at this place: it stands for no legal history of the old users.
    Refused(u64),
    /// The change whose record stands at this place of the old journal is not accepted for the new users.
    Declined(u64),
    /// The new journal is there already, with so many octets.
    NotEmpty(u64),
    /// A call of the old journal's disk failed.
    OldFailed,
    /// A call of the new journal's disk failed before the file was begun.
    NotBegun,
    /// A later call of that disk failed.
    NewFailed,
    /// There was no memory.
    NoMemory,
}

impl MigrateEnd {
    /// The status of the program.
    pub(crate) fn status(&self) -> u8
        ensures { result ≡ spec.status_of self.now }
    {
        match self {
            MigrateEnd::Done => 0,
            MigrateEnd::Words => 2,
            MigrateEnd::Line(_, _) => 3,
            MigrateEnd::Unread(_) => 4,
            MigrateEnd::UserGone(_) => 10,
            MigrateEnd::GroupGone(_) => 10,
            MigrateEnd::Refused(_) => 9,
            MigrateEnd::Declined(_) => 9,
            MigrateEnd::NotEmpty(_) => 12,
            MigrateEnd::OldFailed => 8,
            MigrateEnd::NotBegun => 8,
            MigrateEnd::NewFailed => 8,
            MigrateEnd::NoMemory => 7,
        }
    }
}

/// Runs the command: looks at its words, then at the old users file by the first files and at the new one by
/// the second, and then carries the old journal over to the new users. Gives the disks back: the old
/// journal's, and the new one's.
pub(crate) fn run_migrate<F: Files, D: Disk>(
    alloc: Global,
    words: &List<Word>,
    files: &mut F,
    new_files: &mut F,
    from: D,
    to: D,
) -> (MigrateEnd, D, D)
    // The words, which are looked at first.
    ensures words_refused { result.0 ≡ MigrateEnd.Words → ¬ TakesMigrate words.now }
    ensures words_taken { (result.0 ≡ MigrateEnd.Words) ⊎ (result.0 ≡ MigrateEnd.NoMemory) ⊎ TakesMigrate words.now }
    ensures words_first { result.0 ≡ MigrateEnd.Words → (files.new ≡ files.old) × (new_files.new ≡ new_files.old) × (result.1 ≡ from) × (result.2 ≡ to) }

    // The users files, and the journals.
    ensures ended { (result.0 ≡ MigrateEnd.Words) ⊎ spec.IsEnd D.past D.faults (F.content files.old (users_path words.now)) (F.content new_files.old (new_users_path words.now)) from to result.1 result.2 result.0 }
    ensures files_fault { spec.HasFailed (Rose (F.faults files.old) (F.faults files.new)) (Rose (F.faults new_files.old) (F.faults new_files.new)) result.0 }

    // At any moment: the old journal is as it was, or was synced; and what a stop leaves of the new one.
    ensures only_read { IsUnwritten (D.past from) (D.past result.1) }
    ensures over_nothing { WritesOverNothing (D.past to) (D.past result.2) }
    ensures stops { spec.StopsLeave (F.content files.old (users_path words.now)) (F.content new_files.old (new_users_path words.now)) (D.past from) (D.past to) (D.past result.2) result.0 }

    // No count falls.
    ensures files_never_fall { F.faults files.old ≤ F.faults files.new }
    ensures new_files_never_fall { F.faults new_files.old ≤ F.faults new_files.new }
    ensures old_never_falls { D.faults from ≤ D.faults result.1 }
    ensures new_never_falls { D.faults to ≤ D.faults result.2 }
{
    match read_migrate(alloc, words.as_slice()) {
        Ok(said) => migrate_files(alloc, &said, files, new_files, from, to),
        Err(Untaken::Words) => (MigrateEnd::Words, from, to),
        Err(Untaken::NoMemory) => (MigrateEnd::NoMemory, from, to),
    }
}

/// Looks at the users files, and then carries the journal over.
fn migrate_files<F: Files, D: Disk>(
    alloc: Global,
    said: &MigrateWords<'_>,
    files: &mut F,
    new_files: &mut F,
    from: D,
    to: D,
) -> (MigrateEnd, D, D)
    ensures ended { spec.IsEnd D.past D.faults (F.content files.old said.now.users.now) (F.content new_files.old said.now.new_users.now) from to result.1 result.2 result.0 }
    ensures files_fault { spec.HasFailed (Rose (F.faults files.old) (F.faults files.new)) (Rose (F.faults new_files.old) (F.faults new_files.new)) result.0 }
    ensures only_read { IsUnwritten (D.past from) (D.past result.1) }
    ensures over_nothing { WritesOverNothing (D.past to) (D.past result.2) }
    ensures stops { spec.StopsLeave (F.content files.old said.now.users.now) (F.content new_files.old said.now.new_users.now) (D.past from) (D.past to) (D.past result.2) result.0 }
    ensures files_never_fall { F.faults files.old ≤ F.faults files.new }
    ensures new_files_never_fall { F.faults new_files.old ≤ F.faults new_files.new }
    ensures old_never_falls { D.faults from ≤ D.faults result.1 }
    ensures new_never_falls { D.faults to ≤ D.faults result.2 }
{
    match users_of(alloc, files, said.users, Side::Old) {
        Ok(old_users) => match users_of(alloc, new_files, said.new_users, Side::New) {
            Ok(new_users) => migrate_users(alloc, old_users, new_users, from, to),
            Err(end) => (end, from, to),
        },
        Err(end) => (end, from, to),
    }
}

/// The users of one of the users files.
fn users_of<F: Files>(
    alloc: Global,
    files: &mut F,
    path: &str,
    side: Side,
) -> Result<Arc<Users>, MigrateEnd>
    ensures taken { IfOk result (λ users. IfSome (F.content files.old path.now) (λ octets. AreUsersOf octets users)) }
    ensures refused { IfErr result (spec.IsNotRead (F.content files.old path.now) (F.faults files.old) (F.faults files.new) side) }
    ensures never_falls { F.faults files.old ≤ F.faults files.new }
{
    match take_users(alloc, files, path) {
        Ok(users) => Ok(users),
        Err(NoUsers::Line(place)) => Err(MigrateEnd::Line(side, place)),
        Err(NoUsers::Files) => Err(MigrateEnd::Unread(side)),
        Err(NoUsers::NoMemory) => Err(MigrateEnd::NoMemory),
    }
}

/// Carries the journal over, and says how that ended.
fn migrate_users<D: Disk>(
    alloc: Global,
    old_users: Arc<Users>,
    new_users: Arc<Users>,
    from: D,
    to: D,
) -> (MigrateEnd, D, D)
    ensures ended { spec.IsToldEnd D.past D.faults old_users new_users from to result.1 result.2 result.0 }
    ensures only_read { IsUnwritten (D.past from) (D.past result.1) }
    ensures over_nothing { WritesOverNothing (D.past to) (D.past result.2) }
    ensures stops { spec.ToldStops old_users new_users (D.past from) (D.past to) (D.past result.2) result.0 }
    ensures old_never_falls { D.faults from ≤ D.faults result.1 }
    ensures new_never_falls { D.faults to ≤ D.faults result.2 }
{
    match Arc::try_clone(&old_users) {
        Ok(named) => {
            let (migrated, from, to) = migrate(alloc, old_users, new_users, from, to);
            (told(alloc, &named, migrated), from, to)
        }
        Err(NoMemory) => (MigrateEnd::NoMemory, from, to),
    }
}

/// How the command ended, by the end of the carrying. Where there is no memory for the name of who is gone,
/// that is told.
fn told(alloc: Global, users: &Users, migrated: Migrated) -> MigrateEnd
    requires { spec.IsGoneOf users.now migrated }
    ensures { (spec.IsGone migrated × (result ≡ MigrateEnd.NoMemory)) ⊎ (result ≡ spec.told_of users.now migrated) }
{
    match migrated {
        Migrated::Done => MigrateEnd::Done,
        Migrated::Gone(Principal::User(user)) => match Octets::of(alloc, users.name(user)) {
            Ok(name) => MigrateEnd::UserGone(name),
            Err(NoMemory) => MigrateEnd::NoMemory,
        },
        Migrated::Gone(Principal::Group(group)) => {
            match Octets::of(alloc, users.group_name(group)) {
                Ok(name) => MigrateEnd::GroupGone(name),
                Err(NoMemory) => MigrateEnd::NoMemory,
            }
        }
        Migrated::Refused(place) => MigrateEnd::Refused(place),
        Migrated::Mismatch(place, _, _) => MigrateEnd::Refused(place),
        Migrated::Declined(place, _, _) => MigrateEnd::Declined(place),
        Migrated::NotEmpty(octets) => MigrateEnd::NotEmpty(octets),
        Migrated::OldFailed => MigrateEnd::OldFailed,
        Migrated::NotBegun => MigrateEnd::NotBegun,
        Migrated::NewFailed => MigrateEnd::NewFailed,
        Migrated::NoMemory => MigrateEnd::NoMemory,
    }
}
