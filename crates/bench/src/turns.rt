//! Turns at a lock.
ghost use Rattle.std.specs.Prelude.{◌≡◌, true, false, refl, [], All, IfOk};

use cal_base::NoMemory;
use std::alloc::{AllocError, Global};
use std::sync::Wait;
use std::thread::Threads;
use std::time::Instant;
use std::{io, thread};
use turn_lock::{Keeps, Pass, TurnLock};

/// A journal that stays empty.
#[derive(Drop)]
struct Nothing;

impl Keeps for Nothing {
    type Entry = u64;

    type Base = ();

    ghost journal = { λ _. [] };

    ghost author = { λ e. e };

    ghost base = { λ _. tt };

    ghost lawful = { λ _ _. true };

    fn entries(&self) -> u64 {
        0
    }

    ghost lawful_prefix = { λ _ _ _ _. refl };
}

/// A pass and how many turns it is to take.
#[derive(Drop)]
struct Job {
    pass: Pass<Nothing>,
    turns: u64,
}

/// Takes turns, and tells how many it took.
fn turns<R: Wait>(rt: &R, lock: &TurnLock<Nothing>, job: Job) -> u64
    requires same { job.pass.lock ≡ lock.now }
    requires free { job.pass.holds_turn ≡ false }
{
    let Job { mut pass, turns } = job;
    let mut taken = 0u64;
    for turn in 0..turns {
        let held = lock.take(rt, &mut pass);
        taken = taken.wrapping_add(1);
        lock.give(&mut pass, held);
    }
    taken
}

/// A job for each thread.
fn jobs<R: Wait>(
    rt: &R,
    alloc: Global,
    lock: &TurnLock<Nothing>,
    first: &mut Pass<Nothing>,
    threads: u64,
    turns: u64,
) -> Result<Vec<Job>, NoMemory>
    requires same { first.old.lock ≡ lock.now }
    requires free { first.old.holds_turn ≡ false }
    ensures same { IfOk result (λ v. All (λ j. j.pass.lock ≡ lock.now) v.items) }
    ensures free { IfOk result (λ v. All (λ j. j.pass.holds_turn ≡ false) v.items) }
{
    let mut jobs = Vec::new(alloc);
    for thread in 0..threads {
        let pass = lock.split(rt, first)?;
        if jobs.push(Job { pass, turns }).is_err() {
            return Err(NoMemory);
        }
    }
    Ok(jobs)
}

/// Runs each job in a thread of its own.
fn run_jobs<R: Threads + Wait + Sync>(
    rt: &R,
    lock: &TurnLock<Nothing>,
    jobs: Vec<Job>,
) -> Result<Vec<u64>, AllocError>
    requires same { All (λ j. j.pass.lock ≡ lock.now) jobs.items }
    requires free { All (λ j. j.pass.holds_turn ≡ false) jobs.items }
{
    thread::map_vec(rt, jobs, &|job| turns(rt, lock, job))
}

/// Takes all turns, and tells how many it took.
fn take_all<R: Threads + Wait + Sync>(
    rt: &R,
    alloc: Global,
    threads: u64,
    turns: u64,
) -> Result<u64, NoMemory> {
    let Ok((lock, mut first)) = TurnLock::new(alloc, Nothing) else {
        return Err(NoMemory);
    };
    let jobs = jobs(rt, alloc, &lock, &mut first, threads, turns)?;
    match run_jobs(rt, &lock, jobs) {
        Ok(numbers) => Ok(sum_of(numbers.as_slice())),
        Err(_) => Err(NoMemory),
    }
}

/// The sum of some numbers.
fn sum_of(numbers: &[u64]) -> u64 {
    let mut sum = 0u64;
    for number in numbers {
        sum = sum.wrapping_add(*number);
    }
    sum
}

/// Prints how many turns so many threads took, and where it is timed the microseconds of all turns.
pub fn measure<R: Threads + Wait + Sync>(
    rt: &HostRuntime,
    threads: &R,
    count: u32,
    turns: u32,
    timed: bool,
) -> io::Result<()> {
    let start = Instant::now(rt)?;
    let taken = take_all(threads, rt.alloc(), u64::from(count), u64::from(turns));
    let micros = start.elapsed(rt)?.as_micros();
    match taken {
        Ok(count) => println!(rt; "{count} turns")?,
        Err(NoMemory) => println!(rt; "out of memory")?,
    }
    if timed {
        println!(rt; "taken {micros}")?;
    }
    Ok(())
}
