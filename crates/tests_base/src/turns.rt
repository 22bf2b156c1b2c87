//! Passes over a list of pairs of a number and an item, in one thread and in several.
ghost use Rattle.std.specs.Prelude.{◌≡◌, true, false, refl, All, IfOk};
ghost use Rattle.turn_lock.specs.Journals.{IsFollowedByOwn};

use cal_base::{List, NoMemory};
use std::alloc::Global;
use std::sync::Wait;
use std::thread;
use std::thread::join;
use turn_lock::{Held, Keeps, Pass, TurnLock};

/// A journal of items, each with the number of the pass that added it.
#[derive(Drop)]
struct Pairs {
    all: List<(u64, u64)>,
}

impl Keeps for Pairs {
    type Entry = (u64, u64);

    type Base = ();

    ghost journal = { λ p. p.all };

    ghost author = { λ e. e.0 };

    ghost base = { λ _. tt };

    ghost lawful = { λ _ _. true };

    fn entries(&self) -> u64 {
        self.all.len() as u64
    }

    ghost lawful_prefix = { λ _ _ _ _. refl };
}

/// Adds an item under a number, if there is memory.
fn append(value: &mut Pairs, number: u64, item: u64) -> bool
    ensures { IsFollowedByOwn (λ e. e.0) number value.old.all value.new.all }
{
    match value.all.push((number, item)) {
        Ok(()) => true,
        Err(_) => false,
    }
}

/// Takes a turn, adds an item under the pass's number, and gives the turn back.
fn add<R: Wait>(rt: &R, lock: &TurnLock<Pairs>, pass: &mut Pass<Pairs>, item: u64) -> bool
    requires same { pass.old.lock ≡ lock.now }
    requires free { pass.old.holds_turn ≡ false }
    ensures same { (pass.new.lock ≡ pass.old.lock) × (pass.new.number ≡ pass.old.number) × (pass.new.holds_turn ≡ false) }
    ensures sets { (pass.new.kin ≡ pass.old.kin) × (pass.new.gone ≡ pass.old.gone) }
{
    let Held { mut value } = lock.take(rt, pass);
    let number = pass.number();
    let is_added = append(&mut value, number, item);
    lock.give(pass, Held { value });
    is_added
}

/// Takes a turn in which it sees one item of the pass 1, adds an item, and gives the turn back. Whether all
/// that was so.
fn add_behind<R: Wait>(rt: &R, lock: &TurnLock<Pairs>, pass: &mut Pass<Pairs>) -> bool
    requires same { pass.old.lock ≡ lock.now }
    requires free { pass.old.holds_turn ≡ false }
    ensures same { (pass.new.lock ≡ pass.old.lock) × (pass.new.number ≡ pass.old.number) × (pass.new.holds_turn ≡ false) }
    ensures sets { (pass.new.kin ≡ pass.old.kin) × (pass.new.gone ≡ pass.old.gone) }
{
    let Held { mut value } = lock.take(rt, pass);
    let number = pass.number();
    let seen = pass.seen_len();
    let is_first = value.all.as_slice() == [(1, 5)].as_slice();
    let is_added = append(&mut value, number, 6);
    lock.give(pass, Held { value });
    is_first && seen == 1 && is_added
}

fn may_move<T: Send>(_value: &T) {}

fn may_share<T: Sync>(_value: &T) {}

/// A pass may move to another thread where the value may.
fn pass_may_move<B: Keeps + Send>(pass: &Pass<B>) {
    may_move(pass);
}

/// Threads may share a lock where the value may move to another.
fn lock_may_be_shared<B: Keeps + Send>(lock: &TurnLock<B>) {
    may_share(lock);
}

#[test]
fn a_pass_is_split_and_the_new_one_adds(rt: HostRuntime) {
    let value = Pairs {
        all: List::new(rt.alloc()),
    };
    let Ok((lock, mut first)) = TurnLock::new(rt.alloc(), value) else {
        panic!(rt; "no memory")
    };
    pass_may_move(&first);
    lock_may_be_shared(&lock);
    let Ok(mut second) = lock.split(&rt, &mut first) else {
        panic!(rt; "no memory")
    };
    let numbers = (first.number(), second.number(), second.seen_len());
    let is_added = add(&rt, &lock, &mut second, 5);
    let seen = (second.seen_len(), first.seen_len());
    let is_behind = add_behind(&rt, &lock, &mut first);
    let behind = first.seen_len();
    lock.join(&mut first, second);
    let joined = first.seen_len();
    let value = lock.close(first);
    assert!(rt; numbers == (0, 1, 0) && is_added && seen == (1, 0));
    assert!(rt; is_behind && behind == 2 && joined == 2);
    assert!(rt; value.all.as_slice() == [(1, 5), (0, 6)].as_slice());
}

#[test]
fn a_pass_is_split_and_the_new_one_adds_in_another_thread(rt: HostRuntime) {
    let value = Pairs {
        all: List::new(rt.alloc()),
    };
    let Ok((lock, mut first)) = TurnLock::new(rt.alloc(), value) else {
        panic!(rt; "no memory")
    };
    let Ok(second) = lock.split(&rt, &mut first) else {
        panic!(rt; "no memory")
    };
    let (second, ()) = join(
        &rt,
        || {
            let mut second = second;
            add(&rt, &lock, &mut second, 5);
            second
        },
        || (),
    );
    let is_behind = add_behind(&rt, &lock, &mut first);
    lock.join(&mut first, second);
    let joined = first.seen_len();
    let value = lock.close(first);
    assert!(rt; is_behind && joined == 2);
    assert!(rt; value.all.as_slice() == [(1, 5), (0, 6)].as_slice());
}

/// A pass and how many items it is to add.
#[derive(Drop)]
struct Job {
    pass: Pass<Pairs>,
    items: u64,
}

/// Adds the items 0, 1 and so on, and tells how many were added.
fn add_all<R: Wait>(rt: &R, lock: &TurnLock<Pairs>, job: Job) -> u64
    requires same { job.pass.lock ≡ lock.now }
    requires free { job.pass.holds_turn ≡ false }
{
    let Job { mut pass, items } = job;
    let mut added = 0u64;
    for item in 0..items {
        if add(rt, lock, &mut pass, item) {
            added = added.wrapping_add(1);
        }
    }
    added
}

fn jobs<R: Wait>(
    rt: &R,
    alloc: Global,
    lock: &TurnLock<Pairs>,
    first: &mut Pass<Pairs>,
    threads: u64,
    items: u64,
) -> Result<Vec<Job>, NoMemory>
    requires same { first.old.lock ≡ lock.now }
    requires free { first.old.holds_turn ≡ false }
    ensures first { IfOk result (λ _. (first.new.lock ≡ lock.now) × (first.new.holds_turn ≡ false)) }
    ensures same { IfOk result (λ v. All (λ j. j.pass.lock ≡ lock.now) v.items) }
    ensures free { IfOk result (λ v. All (λ j. j.pass.holds_turn ≡ false) v.items) }
{
    let mut jobs = Vec::new(alloc);
    for thread in 0..threads {
        let pass = lock.split(rt, first)?;
        if jobs.push(Job { pass, items }).is_err() {
            return Err(NoMemory);
        }
    }
    Ok(jobs)
}

/// Whether the items of a number are 0, 1 and so on, so many.
fn are_in_order(pairs: &[(u64, u64)], number: u64, items: u64) -> bool {
    let mut next = 0u64;
    let mut same = true;
    for (author, item) in pairs {
        if *author == number {
            same = same && *item == next;
            next = next.wrapping_add(1);
        }
    }
    same && next == items
}

/// Whether the items of the numbers 1 to 8 are 0, 1 and so on, 200 each.
fn are_all_in_order(pairs: &[(u64, u64)]) -> bool {
    let mut same = pairs.len() == 1600;
    for number in 1..9 {
        same = same && are_in_order(pairs, number, 200);
    }
    same
}

#[test]
fn eight_threads_add(rt: HostRuntime) {
    let value = Pairs {
        all: List::new(rt.alloc()),
    };
    let Ok((lock, mut first)) = TurnLock::new(rt.alloc(), value) else {
        panic!(rt; "no memory")
    };
    let Ok(jobs) = jobs(&rt, rt.alloc(), &lock, &mut first, 8, 200) else {
        panic!(rt; "no memory")
    };
    let Ok(added) = thread::map_vec(&rt, jobs, &|job| add_all(&rt, &lock, job)) else {
        panic!(rt; "no memory")
    };
    let Held { value } = lock.take(&rt, &mut first);
    let is_in_order = are_all_in_order(value.all.as_slice());
    lock.give(&mut first, Held { value });
    assert!(rt; is_in_order && first.seen_len() == 1600);
    assert!(rt; added.as_slice() == [200, 200, 200, 200, 200, 200, 200, 200].as_slice());
}
