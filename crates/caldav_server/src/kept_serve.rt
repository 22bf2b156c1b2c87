//! The command `serve` at a journal file.
ghost use Rattle.std.specs.Prelude.{◌≡◌, ◌≤◌, ◌<◌, ◌⊎◌, IfSome};
ghost use Rattle.std.specs.List.{AllByRecursion};
ghost use Rattle.cal_base.specs.World.Outside.{Rose};
ghost use Rattle.cal_model.specs.Users.UsersFile.{Users};
ghost use Rattle.cal_script.specs.UsersTaken.{AreUsersOf, IsRefusedAt};
ghost use Rattle.command_words.specs.ServeWords as spec;
ghost use Rattle.caldav_server.specs.KeptRuns.{IsFileRefused};
ghost use Rattle.caldav_server.specs.KeptServers.{IsKeptServeStatus, IsKeptServedStatus, LeavesJournal, LeavesMore, ServedFrom, served_status};
ghost use Rattle.caldav_server.specs.Shares.{RoseBy, share_of};

use crate::desks::serve_desk;
use crate::serve::without_place;
use crate::threads::NotServed;
use cal_base::{Arc, Door, Files, List, Word};
use cal_keeper::Disk;
use cal_script::{NoUsers, ScriptEnd, take_users};
use cal_session::{Kept, Loaded, load_kept};
use command_words::{ServeWords, Untaken, read_kept_serve};
use privileges::Users;
use std::alloc::Global;
use std::sync::Wait;
use std::thread::Threads;

/// Runs the command: looks at its words, then at the users file, then loads the journal, opens the door,
/// and serves the connections that come through it, as `run_serve` does. Each accepted change is in the
/// file before its reply is written. The disk is given back in any case.
///
/// Status 8 comes where a call of the disk failed and was counted: while the journal was loaded, or in a
/// request, which then ends the server. Status 9 comes where the file stands for no legal history of these
/// users. Where the disk tells its past, the file that a server leaves stands for a legal journal that goes
/// on from the one that was loaded; at status 8 perhaps for all but its last entry, of which nobody was told.
pub(crate) fn run_kept_serve<F: Files, K: Disk + Send + Drop, D: Door, R: Threads + Wait + Sync>(
    rt: &R,
    alloc: Global,
    words: &List<Word>,
    files: &mut F,
    disk: K,
    door: &mut D,
) -> (ScriptEnd, K)
    ensures known { IsKeptServeStatus result.0.status }

    // The words, and then the users file.
    ensures words_refused { result.0.status ≡ 2 → ¬ spec.TakesKeptServe words.now }
    ensures words_taken { (result.0.status ≡ 2) ⊎ (result.0.status ≡ 7) ⊎ spec.TakesKeptServe words.now }
    ensures words_first { result.0.status ≡ 2 → (files.new ≡ files.old) × (door.new ≡ door.old) × (result.1 ≡ disk) }
    ensures users_refused { result.0.status ≡ 3 → IfSome (F.content files.old (spec.users_path words.now)) (λ octets. IsRefusedAt octets result.0.place) }
    ensures users_first { result.0.status ≡ 3 → (door.new ≡ door.old) × (result.1 ≡ disk) }

    // The journal, and behind it the door.
    ensures journal_refused { result.0.status ≡ 9 → (door.new ≡ door.old) × (users : Users) × IfSome (F.content files.old (spec.users_path words.now)) (λ octets. AreUsersOf octets users) × IsFileRefused K.past K.faults users disk result.1 result.0.place }
    ensures journal_fault { result.0.status ≡ 8 → ((door.new ≡ door.old) × Rose (K.faults disk) (K.faults result.1)) ⊎ ((users : Users) × IfSome (F.content files.old (spec.users_path words.now)) (λ octets. AreUsersOf octets users) × ServedFrom users result.0.status (K.past disk) (K.past result.1)) }
    ensures disk_fault { result.0.status ≡ 8 → 0 < K.faults result.1 }
    ensures door_behind_journal { (door.new ≡ door.old) ⊎ ((users : Users) × IfSome (F.content files.old (spec.users_path words.now)) (λ octets. AreUsersOf octets users) × ServedFrom users result.0.status (K.past disk) (K.past result.1)) }

    // The connections.
    ensures served { result.0.status ≡ 0 → (users : Users) × IfSome (F.content files.old (spec.users_path words.now)) (λ octets. AreUsersOf octets users) × ServedFrom users result.0.status (K.past disk) (K.past result.1) }
    ensures limited { result.0.status ≡ 0 → 0 < spec.connections words.now }
    ensures tries { result.0.status ≡ 0 → RoseBy (share_of (spec.connections words.now) (spec.sessions words.now) 0) (D.tries door.old) (D.tries door.new) }
    ensures fault { result.0.status ≡ 4 → Rose (F.faults files.old) (F.faults files.new) ⊎ Rose (D.faults door.old) (D.faults door.new) }
    ensures placed { (result.0.status ≡ 3) ⊎ (result.0.status ≡ 9) ⊎ (result.0.place ≡ 0) }

    // No count falls.
    ensures files_never_fall { F.faults files.old ≤ F.faults files.new }
    ensures door_never_falls { D.faults door.old ≤ D.faults door.new }
{
    match read_kept_serve(alloc, words.as_slice()) {
        Ok(words) => serve_file(rt, alloc, &words, files, disk, door),
        Err(Untaken::Words) => (without_place(2), disk),
        Err(Untaken::NoMemory) => (without_place(7), disk),
    }
}

/// Serves the users of the users file.
#[tactic(auto, using(crate::proofs::FaultCounts::rose_since))]
fn serve_file<F: Files, K: Disk + Send + Drop, D: Door, R: Threads + Wait + Sync>(
    rt: &R,
    alloc: Global,
    words: &ServeWords<'_>,
    files: &mut F,
    disk: K,
    door: &mut D,
) -> (ScriptEnd, K)
    requires sessions { 0 < words.now.sessions }
    ensures known { IsKeptServeStatus result.0.status × ¬ (result.0.status ≡ 2) }
    ensures users_refused { result.0.status ≡ 3 → IfSome (F.content files.old words.now.users.now) (λ octets. IsRefusedAt octets result.0.place) }
    ensures users_first { result.0.status ≡ 3 → (door.new ≡ door.old) × (result.1 ≡ disk) }
    ensures journal_refused { result.0.status ≡ 9 → (door.new ≡ door.old) × (users : Users) × IfSome (F.content files.old words.now.users.now) (λ octets. AreUsersOf octets users) × IsFileRefused K.past K.faults users disk result.1 result.0.place }
    ensures journal_fault { result.0.status ≡ 8 → ((door.new ≡ door.old) × Rose (K.faults disk) (K.faults result.1)) ⊎ ((users : Users) × IfSome (F.content files.old words.now.users.now) (λ octets. AreUsersOf octets users) × ServedFrom users result.0.status (K.past disk) (K.past result.1)) }
    ensures disk_fault { result.0.status ≡ 8 → 0 < K.faults result.1 }
    ensures door_behind_journal { (door.new ≡ door.old) ⊎ ((users : Users) × IfSome (F.content files.old words.now.users.now) (λ octets. AreUsersOf octets users) × ServedFrom users result.0.status (K.past disk) (K.past result.1)) }
    ensures served { result.0.status ≡ 0 → (users : Users) × IfSome (F.content files.old words.now.users.now) (λ octets. AreUsersOf octets users) × ServedFrom users result.0.status (K.past disk) (K.past result.1) }
    ensures limited { result.0.status ≡ 0 → 0 < words.now.connections }
    ensures tries { result.0.status ≡ 0 → RoseBy (share_of words.now.connections words.now.sessions 0) (D.tries door.old) (D.tries door.new) }
    ensures fault { result.0.status ≡ 4 → Rose (F.faults files.old) (F.faults files.new) ⊎ Rose (D.faults door.old) (D.faults door.new) }
    ensures placed { (result.0.status ≡ 3) ⊎ (result.0.status ≡ 9) ⊎ (result.0.place ≡ 0) }
    ensures files_never_fall { F.faults files.old ≤ F.faults files.new }
    ensures door_never_falls { D.faults door.old ≤ D.faults door.new }
{
    match take_users(alloc, files, words.users) {
        Ok(users) => serve_at_journal(rt, alloc, words, users, disk, door),
        Err(NoUsers::Line(place)) => (ScriptEnd { status: 3, place }, disk),
        Err(NoUsers::Files) => (without_place(4), disk),
        Err(NoUsers::NoMemory) => (without_place(7), disk),
    }
}

/// Loads the journal of these users, and serves at its book.
#[tactic(auto, using(crate::proofs::FaultCounts::rose_since))]
fn serve_at_journal<K: Disk + Send + Drop, D: Door, R: Threads + Wait + Sync>(
    rt: &R,
    alloc: Global,
    words: &ServeWords<'_>,
    users: Arc<Users>,
    disk: K,
    door: &mut D,
) -> (ScriptEnd, K)
    requires sessions { 0 < words.now.sessions }
    ensures known { IsKeptServedStatus result.0.status ⊎ (result.0.status ≡ 9) }
    ensures journal_refused { result.0.status ≡ 9 → (door.new ≡ door.old) × IsFileRefused K.past K.faults users disk result.1 result.0.place }
    ensures journal_fault { result.0.status ≡ 8 → ((door.new ≡ door.old) × Rose (K.faults disk) (K.faults result.1)) ⊎ ServedFrom users result.0.status (K.past disk) (K.past result.1) }
    ensures disk_fault { result.0.status ≡ 8 → 0 < K.faults result.1 }
    ensures door_behind_journal { (door.new ≡ door.old) ⊎ ServedFrom users result.0.status (K.past disk) (K.past result.1) }
    ensures served { result.0.status ≡ 0 → ServedFrom users result.0.status (K.past disk) (K.past result.1) }
    ensures limited { result.0.status ≡ 0 → 0 < words.now.connections }
    ensures tries { result.0.status ≡ 0 → RoseBy (share_of words.now.connections words.now.sessions 0) (D.tries door.old) (D.tries door.new) }
    ensures fault { result.0.status ≡ 4 → Rose (D.faults door.old) (D.faults door.new) }
    ensures placed { (result.0.status ≡ 9) ⊎ (result.0.place ≡ 0) }
    ensures door_never_falls { D.faults door.old ≤ D.faults door.new }
{
    let Ok(shared) = Arc::try_clone(&users) else {
        return (without_place(7), disk);
    };
    match load_kept(alloc, shared, disk) {
        Loaded::Ready(kept) => {
            let (status, disk) = serve_kept(rt, alloc, words, &users, kept, door);
            (without_place(status), disk)
        }
        Loaded::Refused(disk, place) => (ScriptEnd { status: 9, place }, disk),
        Loaded::Mismatch(disk, place, _kept, _made) => (ScriptEnd { status: 9, place }, disk),
        Loaded::Failed(disk) => (without_place(8), disk),
        Loaded::NoMemory(disk) => (without_place(7), disk),
    }
}

/// Opens the door and serves at a kept book. Gives the status, and the disk.
#[tactic(auto, using(crate::proofs::FaultCounts::rose_since))]
fn serve_kept<K: Disk + Send + Drop, D: Door, R: Threads + Wait + Sync>(
    rt: &R,
    alloc: Global,
    words: &ServeWords<'_>,
    users: &Users,
    kept: Kept<K>,
    door: &mut D,
) -> (u8, K)
    requires sessions { 0 < words.now.sessions }
    requires users { kept.book.users ≡ users.now }
    requires first { AllByRecursion (λ entry. entry.session ≡ 0) kept.book.work.journal }
    ensures known { IsKeptServedStatus result.0 }
    ensures left { LeavesMore users.now kept.book.work.journal result.0 (K.past result.1) }
    ensures disk_fault { result.0 ≡ 8 → 0 < K.faults result.1 }
    ensures limited { result.0 ≡ 0 → 0 < words.now.connections }
    ensures tries { result.0 ≡ 0 → RoseBy (share_of words.now.connections words.now.sessions 0) (D.tries door.old) (D.tries door.new) }
    ensures fault { result.0 ≡ 4 → Rose (D.faults door.old) (D.faults door.new) }
    ensures never_falls { D.faults door.old ≤ D.faults door.new }
{
    if door.open(words.listen).is_err() {
        return end_of(Err(NotServed::Door), kept);
    }
    let (served, kept) = serve_desk(rt, alloc, words, users, kept, door);
    end_of(served, kept)
}

/// The status of a server that ended so over a kept book, and the disk. A session that finds the book broken
/// ends them all, so it is the book that tells why.
fn end_of<K: Disk>(served: Result<(), NotServed>, kept: Kept<K>) -> (u8, K)
    ensures status { result.0 ≡ served_status kept.keeper.broken served }
    ensures left { LeavesJournal kept.book.users kept.book.work.journal result.0 (K.past result.1) }
    ensures disk_fault { result.0 ≡ 8 → 0 < K.faults result.1 }
{
    // A look at the book, which tells a proof that its journal is legal, and that the file has it.
    let _entries = kept.book().entries();
    let status = status_of(served, kept.fault().is_some());
    (status, kept.into_disk())
}

/// The status of a server that ended so, by whether its book is broken.
fn status_of(served: Result<(), NotServed>, broken: bool) -> u8
    ensures { result ≡ served_status broken served }
{
    if broken {
        return 8;
    }
    match served {
        Ok(()) => 0,
        Err(NotServed::Door) => 4,
        Err(NotServed::NoMemory) => 7,
        Err(NotServed::Over) => 7,
    }
}
