//! Serving at a door, over any desk, which is given back.
ghost use Rattle.std.specs.Prelude.{◌≡◌, ◌≤◌, ◌<◌, [], OnOk, IsErrOf};
ghost use Rattle.std.specs.List.{AllByRecursion};
ghost use Rattle.cal_base.specs.World.Outside.{Rose};
ghost use Rattle.caldav_server.specs.ThreadPasses.{Awaits, GoesOn, Grows};
ghost use Rattle.caldav_server.specs.Shares.{RoseBy, share_of};

use crate::sessions::{Context, Settings};
use crate::threads::{NotServed, serve_in_threads};
use cal_base::{Door, NoMemory};
use cal_book::Desk;
use command_words::ServeWords;
use privileges::Users;
use std::alloc::Global;
use std::sync::atomic::{AtomicBool, AtomicU64};
use std::sync::{Mutex, Wait};
use std::thread::Threads;
use turn_lock::{Pass, TurnLock};

/// Serves at a door that is open, over a desk under a lock of its own, until all threads have ended,
/// and gives the desk back. Once it broke when a session asked it, all end: each at its next request
/// or before its next connection, and the one that waits for a connection as soon as one comes.
pub(crate) fn serve_desk<B: Desk + Send + Drop, D: Door, R: Threads + Wait + Sync>(
    rt: &R,
    alloc: Global,
    words: &ServeWords<'_>,
    users: &Users,
    desk: B,
    door: &mut D,
) -> (Result<(), NotServed>, B)
    requires sessions { 0 < words.now.sessions }
    requires users { B.base desk ≡ users.now }
    requires first { AllByRecursion (λ e. B.author e ≡ 0) (B.journal desk) }
    ensures limited { OnOk result.0 (0 < words.now.connections) }
    ensures tries { OnOk result.0 (RoseBy (share_of words.now.connections words.now.sessions 0) (D.tries door.old) (D.tries door.new)) }
    ensures door { IsErrOf result.0 NotServed.Door → Rose (D.faults door.old) (D.faults door.new) }
    ensures never_falls { D.faults door.old ≤ D.faults door.new }
    ensures users_kept { B.base result.1 ≡ users.now }
    ensures grown { Grows (B.journal desk) (B.journal result.1) }
{
    match TurnLock::new(alloc, desk) {
        Ok((lock, first)) => {
            let (result, pass) = serve_lock(rt, alloc, words, users, &lock, first, door);
            (result, lock.close(pass))
        }
        Err((desk, NoMemory)) => (Err(NotServed::NoMemory), desk),
    }
}

/// Serves over a desk under its lock, and gives the pass that is whole again.
fn serve_lock<B: Desk + Send, D: Door, R: Threads + Wait + Sync>(
    rt: &R,
    alloc: Global,
    words: &ServeWords<'_>,
    users: &Users,
    lock: &TurnLock<B>,
    first: Pass<B>,
    door: &mut D,
) -> (Result<(), NotServed>, Pass<B>)
    requires sessions { 0 < words.now.sessions }
    requires first { Awaits lock.now users.now [] first }
    ensures pass { GoesOn lock.now users.now [] first result.1 }
    ensures limited { OnOk result.0 (0 < words.now.connections) }
    ensures tries { OnOk result.0 (RoseBy (share_of words.now.connections words.now.sessions 0) (D.tries door.old) (D.tries door.new)) }
    ensures door { IsErrOf result.0 NotServed.Door → Rose (D.faults door.old) (D.faults door.new) }
    ensures never_falls { D.faults door.old ≤ D.faults door.new }
{
    let doorway = Mutex::new(());
    let running = AtomicU64::new(words.sessions);
    let over = AtomicBool::new(false);
    let context = Context {
        alloc,
        lock,
        users,
        doorway: &doorway,
        running: &running,
        over: &over,
        settings: Settings {
            sessions: words.sessions,
            workers: words.workers,
            connections: words.connections,
        },
    };
    serve_in_threads(rt, &context, first, door)
}
