//! The command `serve`.
ghost use Rattle.std.specs.Prelude.{◌≡◌, ◌≤◌, ◌<◌, ◌⊎◌, List, IfSome, OnOk, IsErrOf};
ghost use Rattle.cal_base.specs.World.Outside.{Rose};
ghost use Rattle.cal_model.specs.Users.UsersFile.{Users};
ghost use Rattle.cal_script.specs.UsersTaken.{AreUsersOf, IsRefusedAt};
ghost use Rattle.caldav_server.specs.ServeEnds.{IsServeStatus, IsServedStatus};
ghost use Rattle.command_words.specs.ServeWords as spec;
ghost use Rattle.caldav_server.specs.Shares.{RoseBy, share_of};

use crate::desks::serve_desk;
use crate::threads::NotServed;
use cal_base::{Arc, Door, Files, List, NoMemory, Word};
use cal_book::Book;
use cal_script::{NoUsers, ScriptEnd, take_users};
use command_words::{ServeWords, Untaken, read_serve};
use privileges::Users;
use std::alloc::Global;
use std::sync::Wait;
use std::thread::Threads;

/// Runs the command: looks at its words, then at the users file, opens the door, and serves the
/// connections that come through it, with all sessions and workers at once. It ends once as many
/// connections were served as the words say; without such a number it goes on without end.
pub(crate) fn run_serve<F: Files, D: Door, R: Threads + Wait + Sync>(
    rt: &R,
    alloc: Global,
    words: &List<Word>,
    files: &mut F,
    door: &mut D,
) -> ScriptEnd
    ensures known { IsServeStatus result.status }

    // The words, and then the users file.
    ensures words_refused { result.status ≡ 2 → ¬ spec.TakesServe words.now }
    ensures words_taken { (result.status ≡ 2) ⊎ (result.status ≡ 7) ⊎ spec.TakesServe words.now }
    ensures words_first { result.status ≡ 2 → (files.new ≡ files.old) × (door.new ≡ door.old) }
    ensures users_refused { result.status ≡ 3 → IfSome (F.content files.old (spec.users_path words.now)) (λ octets. IsRefusedAt octets result.place) }
    ensures users_first { result.status ≡ 3 → door.new ≡ door.old }
    ensures users_taken { result.status ≡ 0 → IfSome (F.content files.old (spec.users_path words.now)) (λ octets. (users : Users) × AreUsersOf octets users) }
    ensures door_behind_users { (door.new ≡ door.old) ⊎ IfSome (F.content files.old (spec.users_path words.now)) (λ octets. (users : Users) × AreUsersOf octets users) }

    // The connections.
    ensures limited { result.status ≡ 0 → 0 < spec.connections words.now }
    ensures tries { result.status ≡ 0 → RoseBy (share_of (spec.connections words.now) (spec.sessions words.now) 0) (D.tries door.old) (D.tries door.new) }
    ensures fault { result.status ≡ 4 → Rose (F.faults files.old) (F.faults files.new) ⊎ Rose (D.faults door.old) (D.faults door.new) }
    ensures placed { (result.status ≡ 3) ⊎ (result.place ≡ 0) }

    // No count falls.
    ensures files_never_fall { F.faults files.old ≤ F.faults files.new }
    ensures door_never_falls { D.faults door.old ≤ D.faults door.new }
{
    match read_serve(alloc, words.as_slice()) {
        Ok(words) => serve_file(rt, alloc, &words, files, door),
        Err(Untaken::Words) => without_place(2),
        Err(Untaken::NoMemory) => without_place(7),
    }
}

/// Serves the users of the users file.
#[tactic(auto, using(crate::proofs::FaultCounts::rose_since))]
fn serve_file<F: Files, D: Door, R: Threads + Wait + Sync>(
    rt: &R,
    alloc: Global,
    words: &ServeWords<'_>,
    files: &mut F,
    door: &mut D,
) -> ScriptEnd
    requires sessions { 0 < words.now.sessions }
    ensures known { IsServeStatus result.status × ¬ (result.status ≡ 2) }
    ensures users_refused { result.status ≡ 3 → IfSome (F.content files.old words.now.users.now) (λ octets. IsRefusedAt octets result.place) }
    ensures users_first { result.status ≡ 3 → door.new ≡ door.old }
    ensures users_taken { result.status ≡ 0 → IfSome (F.content files.old words.now.users.now) (λ octets. (users : Users) × AreUsersOf octets users) }
    ensures door_behind_users { (door.new ≡ door.old) ⊎ IfSome (F.content files.old words.now.users.now) (λ octets. (users : Users) × AreUsersOf octets users) }
    ensures limited { result.status ≡ 0 → 0 < words.now.connections }
    ensures tries { result.status ≡ 0 → RoseBy (share_of words.now.connections words.now.sessions 0) (D.tries door.old) (D.tries door.new) }
    ensures fault { result.status ≡ 4 → Rose (F.faults files.old) (F.faults files.new) ⊎ Rose (D.faults door.old) (D.faults door.new) }
    ensures placed { (result.status ≡ 3) ⊎ (result.place ≡ 0) }
    ensures files_never_fall { F.faults files.old ≤ F.faults files.new }
    ensures door_never_falls { D.faults door.old ≤ D.faults door.new }
{
    match take_users(alloc, files, words.users) {
        Ok(users) => without_place(serve_users(rt, alloc, words, users, door)),
        Err(NoUsers::Line(place)) => ScriptEnd { status: 3, place },
        Err(NoUsers::Files) => without_place(4),
        Err(NoUsers::NoMemory) => without_place(7),
    }
}

/// Opens the door and serves, and gives the status.
#[tactic(auto, using(crate::proofs::FaultCounts::rose_since))]
fn serve_users<D: Door, R: Threads + Wait + Sync>(
    rt: &R,
    alloc: Global,
    words: &ServeWords<'_>,
    users: Arc<Users>,
    door: &mut D,
) -> u8
    requires sessions { 0 < words.now.sessions }
    ensures known { IsServedStatus result }
    ensures limited { result ≡ 0 → 0 < words.now.connections }
    ensures tries { result ≡ 0 → RoseBy (share_of words.now.connections words.now.sessions 0) (D.tries door.old) (D.tries door.new) }
    ensures fault { result ≡ 4 → Rose (D.faults door.old) (D.faults door.new) }
    ensures never_falls { D.faults door.old ≤ D.faults door.new }
{
    if door.open(words.listen).is_err() {
        return 4;
    }
    match serve_at(rt, alloc, words, users, door) {
        Ok(()) => 0,
        Err(NotServed::Door) => 4,
        Err(NotServed::NoMemory) => 7,
        Err(NotServed::Over) => 7,
    }
}

/// Serves at a door that is open, over the book.
fn serve_at<D: Door, R: Threads + Wait + Sync>(
    rt: &R,
    alloc: Global,
    words: &ServeWords<'_>,
    users: Arc<Users>,
    door: &mut D,
) -> Result<(), NotServed>
    requires sessions { 0 < words.now.sessions }
    ensures limited { OnOk result (0 < words.now.connections) }
    ensures tries { OnOk result (RoseBy (share_of words.now.connections words.now.sessions 0) (D.tries door.old) (D.tries door.new)) }
    ensures door { IsErrOf result NotServed.Door → Rose (D.faults door.old) (D.faults door.new) }
    ensures never_falls { D.faults door.old ≤ D.faults door.new }
{
    let Ok(shared) = Arc::try_clone(&users) else {
        return Err(NotServed::NoMemory);
    };
    match Book::start(alloc, shared) {
        Ok(book) => {
            let (result, _book) = serve_desk(rt, alloc, words, &users, book, door);
            result
        }
        Err(NoMemory) => Err(NotServed::NoMemory),
    }
}

/// An end that no place tells more of.
pub(crate) fn without_place(status: u8) -> ScriptEnd
    ensures { result ≡ record { status = status; place = 0 } }
{
    ScriptEnd { status, place: 0 }
}
