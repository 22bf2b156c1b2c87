//! Two sessions at one kept book, in two threads, over a disk that breaks at one of its calls.
ghost use Rattle.std.specs.Prelude.{◌≡◌, false, Some};
ghost use Rattle.std.specs.List.{AllByRecursion};

use crate::desks::ready;
use crate::kept_runs::{Loading, disk_with, drop_loading, load};
use crate::passes::{Server, split_off, taken};
use crate::threads::serve_both;
use cal_base::{Arc, NoMemory};
use cal_book::Book;
use cal_keeper::MemoryDisk;
use cal_session::Kept;
use privileges::Users;
use std::alloc::Global;
use std::sync::Wait;
use std::thread::Threads;
use turn_lock::{Pass, TurnLock};

/// What two sessions are run at.
#[derive(Drop)]
pub struct Sessions<'a> {
    /// The file, and how many entries it has before.
    pub file: &'a [u8],
    pub before: u64,
    /// The octets of the first connection and of the second.
    pub octets: (&'a [u8], &'a [u8]),
}

/// What became of two sessions: how many requests each was answered, and the disk that is left.
#[derive(Drop)]
struct Race {
    first: usize,
    second: usize,
    disk: MemoryDisk,
}

/// What two sessions were answered, and what their file has of it.
#[derive(Drop)]
pub struct Outcome {
    /// How many calls of the disk there were.
    pub calls: u64,
    /// How many requests were answered.
    pub answered: usize,
    /// How many entries the file has behind those before.
    pub kept: u64,
    /// Whether these are what each session was answered, and nothing else but the last of them.
    pub is_right: bool,
}

/// Two sessions at a kept book, each with a pass.
fn race_of<R: Threads + Wait + Sync>(
    rt: &R,
    server: &Server<'_, Kept<MemoryDisk>>,
    first: Pass<Kept<MemoryDisk>>,
    second: Pass<Kept<MemoryDisk>>,
    octets: (&[u8], &[u8]),
) -> Race
    requires first { (first.lock ≡ server.now.lock.now) × (first.holds_turn ≡ false) × (first.base ≡ Some server.now.users.now) }
    requires second { (second.lock ≡ server.now.lock.now) × (second.holds_turn ≡ false) × (second.base ≡ Some server.now.users.now) }
{
    let ((left, first), (right, second)) = serve_both(rt, server, first, second, octets);
    let kept = taken(rt, server, first, second);
    Race {
        first: left.replies,
        second: right.replies,
        disk: kept.into_disk(),
    }
}

/// What two sessions come to under a lock, of which the first pass is given.
fn race_under<R: Threads + Wait + Sync>(
    rt: &R,
    users: &Arc<Users>,
    server: &Server<'_, Kept<MemoryDisk>>,
    first: Pass<Kept<MemoryDisk>>,
    sessions: &Sessions<'_>,
) -> Result<Outcome, NoMemory>
    requires first { (first.lock ≡ server.now.lock.now) × (first.holds_turn ≡ false) × (first.base ≡ Some server.now.users.now) }
{
    let mut first = first;
    match split_off(rt, server, &mut first) {
        Ok(second) => {
            let race = race_of(rt, server, first, second, sessions.octets);
            outcome_of(server.alloc, users, sessions.before, &race)
        }
        Err(NoMemory) => Err(NoMemory),
    }
}

/// What two sessions come to at a kept book.
fn race_at<R: Threads + Wait + Sync>(
    rt: &R,
    alloc: Global,
    users: &Arc<Users>,
    kept: Kept<MemoryDisk>,
    sessions: &Sessions<'_>,
) -> Result<Outcome, NoMemory>
    requires users { kept.book.users ≡ users.now }
    requires first { AllByRecursion (λ entry. entry.session ≡ 0) kept.book.work.journal }
{
    match TurnLock::new(alloc, kept) {
        Ok((lock, first)) => {
            let server = Server {
                alloc,
                lock: &lock,
                users,
            };
            race_under(rt, users, &server, first, sessions)
        }
        Err(_) => Err(NoMemory),
    }
}

/// What two sessions come to at a file, of whose disk's calls one fails; none where it fails while the file is
/// loaded.
pub fn race_over<R: Threads + Wait + Sync>(
    rt: &R,
    alloc: Global,
    users: &Arc<Users>,
    sessions: &Sessions<'_>,
    failing: u64,
) -> Result<Option<Outcome>, NoMemory> {
    let shared = Arc::try_clone(users)?;
    let disk = disk_with(alloc, sessions.file, failing)?;
    match ready(alloc, shared, disk) {
        Ok(kept) => match race_at(rt, alloc, users, kept, sessions) {
            Ok(outcome) => Ok(Some(outcome)),
            Err(NoMemory) => Err(NoMemory),
        },
        Err(_) => Ok(None),
    }
}

/// How many entries of a book are by a user, from one number up to another.
fn entries_by(book: &Book, from: u64, end: u64, who: u32) -> usize {
    let mut count = 0usize;
    for number in from..end {
        if let Some(entry) = book.entry(number) {
            if entry.who == who {
                count = count.wrapping_add(1);
            }
        }
    }
    count
}

/// Whether a book has, behind `before` entries, what each session was answered, and nothing else but its
/// last entry.
fn is_right(book: &Book, before: u64, race: &Race) -> bool {
    let end = book.entries();
    let last = end.saturating_sub(1);
    race.first <= entries_by(book, before, end, 0)
        && race.second <= entries_by(book, before, end, 1)
        && entries_by(book, before, last, 0) <= race.first
        && entries_by(book, before, last, 1) <= race.second
}

/// What two sessions came to, by what their file is loaded as.
fn outcome_in(loading: &Loading, before: u64, race: &Race) -> Outcome {
    let (entries, right) = match loading {
        Ok(kept) => (kept.book().entries(), is_right(kept.book(), before, race)),
        Err(_) => (before, false),
    };
    Outcome {
        calls: race.disk.calls(),
        answered: race.first.wrapping_add(race.second),
        kept: entries.saturating_sub(before),
        is_right: right,
    }
}

/// What two sessions came to at a file that had so many entries before.
fn outcome_of(
    alloc: Global,
    users: &Arc<Users>,
    before: u64,
    race: &Race,
) -> Result<Outcome, NoMemory> {
    match load(alloc, users, race.disk.octets()) {
        Ok(loading) => {
            let outcome = outcome_in(&loading, before, race);
            drop_loading(loading);
            Ok(outcome)
        }
        Err(NoMemory) => Err(NoMemory),
    }
}
