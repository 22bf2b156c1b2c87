//! The threads of a server: how they are started, and how all that they were started with comes back.
//!
//! Each thread has a pass of its own, split off the first. All of them are joined into the first
//! again, whether their threads ended, could not be started, or were never tried: then it is whole,
//! and the lock can be closed.
ghost use denote.Param.Send.{IsSend, IsSync};
ghost use Rattle.std.specs.Prelude.{◌≡◌, ◌≤◌, ◌<◌, [], map, length, IfOk, IsOk, OnOk, IsErrOf};
ghost use Rattle.cal_base.specs.World.Outside.{Rose};
ghost use Rattle.caldav_server.specs.ThreadPasses.{Awaits, GoesOn, HasTakenTurns, IsSpare, TakesBack};
ghost use Rattle.caldav_server.specs.Shares.{IsPassFor, RoseBy, share_of};

use crate::sessions::{Context, Done, Job, Over, Role, run_job, serve_share, share_of};
use cal_base::{Door, List, NoMemory, ReservedList};
use cal_book::Desk;
use std::snapshot::Snapshot;
use std::sync::Wait;
use std::thread::{Promise, PromisedHandle, Threads};
use std::{mem, thread};
use turn_lock::Pass;

/// Why not all connections were served.
#[derive(Clone, Copy)]
pub(crate) enum NotServed {
    /// There was no further door.
    Door,
    /// There was no memory.
    NoMemory,
    /// All threads were to end: the desk broke when a session asked it, or a thread could not be started.
    Over,
}

/// The promise of a thread that the pass which was lent to it comes back.
#[derive(Drop)]
struct Lent<B: Desk> {
    pass: Snapshot<Pass<B>>,
}

impl<B: Desk> Promise<Done<B>> for Lent<B> {
    ghost kept_by = { λ lent done. HasTakenTurns lent.pass.value done.pass };
}

/// A thread that was started.
type Thread<B> = PromisedHandle<Done<B>, Lent<B>>;

/// Serves with all sessions, the first of which has the door that is handed in, beside all workers,
/// until the last of them has ended. Gives the pass, into which those of all threads were joined.
pub(crate) fn serve_in_threads<B: Desk + Send, D: Door, R: Threads + Wait + Sync>(
    rt: &R,
    context: &Context<'_, B>,
    first: Pass<B>,
    door: &mut D,
) -> (Result<(), NotServed>, Pass<B>)
    requires pass { Awaits context.now.lock.now context.now.users.now [] first }
    requires settings { 0 < context.now.settings.sessions }
    ensures pass { GoesOn context.now.lock.now context.now.users.now [] first result.1 }
    ensures some { OnOk result.0 (0 < context.now.settings.connections) }
    ensures tries { OnOk result.0 (RoseBy (share_of context.now.settings.connections context.now.settings.sessions 0) (D.tries door.old) (D.tries door.new)) }
    ensures door { IsErrOf result.0 NotServed.Door → Rose (D.faults door.old) (D.faults door.new) }
    ensures never_falls { D.faults door.old ≤ D.faults door.new }
{
    let mut pass = first;
    let mut jobs = ReservedList::new(context.alloc);
    match fill_jobs(rt, context, &mut pass, door, &mut jobs) {
        Ok(()) => run_jobs(rt, context, pass, door, jobs.into_list()),
        Err(why) => {
            join_jobs(context, &mut pass, jobs.into_list());
            (Err(why), pass)
        }
    }
}

/// Makes a job for each session but the first, and for each worker.
#[tactic(auto, using(crate::proofs::FaultCounts::rose_since))]
fn fill_jobs<B: Desk, D: Door, R: Wait>(
    rt: &R,
    context: &Context<'_, B>,
    pass: &mut Pass<B>,
    door: &mut D,
    jobs: &mut ReservedList<Job<B, D>>,
) -> Result<(), NotServed>
    requires pass { Awaits context.now.lock.now context.now.users.now (map (λ job. job.pass) jobs.old.items) pass.old }
    requires settings { 0 < context.now.settings.sessions }
    ensures pass { GoesOn context.now.lock.now context.now.users.now (map (λ job. job.pass) jobs.new.items) pass.old pass.new }
    ensures door { IsErrOf result NotServed.Door → Rose (D.faults door.old) (D.faults door.new) }
    ensures never_falls { D.faults door.old ≤ D.faults door.new }
    ensures tries_kept { D.tries door.new ≡ D.tries door.old }
{
    'sessions: for session in 1..context.settings.sessions {
        let role = Role::Serve(share_of(context.settings, session));
        add_job(rt, context, pass, door, role, jobs)?;
    }
    'workers: for _worker in 0..context.settings.workers {
        add_job(rt, context, pass, door, Role::Expand, jobs)?;
    }
    Ok(())
}

/// Makes a job with a pass and a door of its own, where there is room for it.
#[tactic(auto, using(crate::proofs::FaultCounts::rose_since))]
fn add_job<B: Desk, D: Door, R: Wait>(
    rt: &R,
    context: &Context<'_, B>,
    pass: &mut Pass<B>,
    door: &mut D,
    role: Role,
    jobs: &mut ReservedList<Job<B, D>>,
) -> Result<(), NotServed>
    requires { Awaits context.now.lock.now context.now.users.now (map (λ job. job.pass) jobs.old.items) pass.old }
    ensures pass { GoesOn context.now.lock.now context.now.users.now (map (λ job. job.pass) jobs.new.items) pass.old pass.new }
    ensures door { IsErrOf result NotServed.Door → Rose (D.faults door.old) (D.faults door.new) }
    ensures never_falls { D.faults door.old ≤ D.faults door.new }
    ensures tries_kept { D.tries door.new ≡ D.tries door.old }
{
    let Ok(door) = door.another(context.alloc) else {
        return Err(NotServed::Door);
    };
    let Ok(()) = jobs.reserve(1) else {
        return Err(NotServed::NoMemory);
    };
    let Ok(pass) = context.lock.split(rt, pass) else {
        return Err(NotServed::NoMemory);
    };
    jobs.push(Job { pass, door, role });
    Ok(())
}

/// Runs the first session and all jobs at once, where there is what that needs.
fn run_jobs<B: Desk + Send, D: Door, R: Threads + Wait + Sync>(
    rt: &R,
    context: &Context<'_, B>,
    first: Pass<B>,
    door: &mut D,
    jobs: List<Job<B, D>>,
) -> (Result<(), NotServed>, Pass<B>)
    requires pass { Awaits context.now.lock.now context.now.users.now (map (λ job. job.pass) jobs) first }
    requires settings { 0 < context.now.settings.sessions }
    ensures pass { GoesOn context.now.lock.now context.now.users.now [] first result.1 }
    ensures some { OnOk result.0 (0 < context.now.settings.connections) }
    ensures tries { OnOk result.0 (RoseBy (share_of context.now.settings.connections context.now.settings.sessions 0) (D.tries door.old) (D.tries door.new)) }
    ensures door { IsErrOf result.0 NotServed.Door → Rose (D.faults door.old) (D.faults door.new) }
    ensures never_falls { D.faults door.old ≤ D.faults door.new }
{
    match prepare(context, door, jobs.len()) {
        Ok((spare, threads)) => {
            let own = mem::replace(door, spare);
            let (done, own) = run_threads(rt, context, first, own, jobs, threads);
            *door = own;
            let Done { pass, end } = done;
            (served(end), pass)
        }
        Err(why) => {
            let mut pass = first;
            join_jobs(context, &mut pass, jobs);
            (Err(why), pass)
        }
    }
}

/// A door that stands in the place of the first session's while that is lent to it, and a list with
/// room for so many threads.
fn prepare<B: Desk, D: Door>(
    context: &Context<'_, B>,
    door: &mut D,
    jobs: usize,
) -> Result<(D, ReservedList<Thread<B>>), NotServed>
    ensures threads { IfOk result (λ made. (made.1.items ≡ []) × (jobs ≤ made.1.room)) }
    ensures door { IsErrOf result NotServed.Door → Rose (D.faults door.old) (D.faults door.new) }
    ensures never_falls { D.faults door.old ≤ D.faults door.new }
    ensures tries_kept { D.tries door.new ≡ D.tries door.old }
{
    let Ok(spare) = door.another(context.alloc) else {
        return Err(NotServed::Door);
    };
    let mut threads = ReservedList::new(context.alloc);
    match threads.reserve(jobs) {
        Ok(()) => Ok((spare, threads)),
        Err(NoMemory) => Err(NotServed::NoMemory),
    }
}

/// Starts a thread for each job, and serves as the first session. Gives all that comes back, and
/// the first session's door.
///
/// Where a thread cannot be started all are to end. None waits for a connection before the last was
/// tried, so none is waited for then.
fn run_threads<B: Desk + Send, D: Door, R: Threads + Wait + Sync>(
    rt: &R,
    context: &Context<'_, B>,
    first: Pass<B>,
    door: D,
    jobs: List<Job<B, D>>,
    threads: ReservedList<Thread<B>>,
) -> (Done<B>, D)
    requires pass { Awaits context.now.lock.now context.now.users.now (map (λ job. job.pass) jobs) first }
    requires none { threads.items ≡ [] }
    requires room { length jobs ≤ threads.room }
    requires settings { 0 < context.now.settings.sessions }
    ensures pass { GoesOn context.now.lock.now context.now.users.now [] first result.0.pass }
    ensures some { OnOk result.0.end (0 < context.now.settings.connections) }
    ensures tries { OnOk result.0.end (RoseBy (share_of context.now.settings.connections context.now.settings.sessions 0) (D.tries door) (D.tries result.1)) }
    ensures never_falls { D.faults door ≤ D.faults result.1 }
{
    thread::scope(
        thread::scope_env(),
        rt,
        move |scope| -> (Done<B>, D)
            requires moves { IsSend B.row × IsSend B.Fault.row × IsSend D.row × IsSend D.Link.row × IsSend D.Clock.row × IsSync R.row }
            requires pass { Awaits context.now.lock.now context.now.users.now (map (λ job. job.pass) jobs) first }
            requires none { threads.items ≡ [] }
            requires room { length jobs ≤ threads.room }
            requires settings { 0 < context.now.settings.sessions }
            ensures pass { GoesOn context.entry.now.lock.now context.entry.now.users.now [] first result.0.pass }
            ensures some { OnOk result.0.end (0 < context.entry.now.settings.connections) }
            ensures tries { OnOk result.0.end (RoseBy (share_of context.entry.now.settings.connections context.entry.now.settings.sessions 0) (D.tries door) (D.tries result.1)) }
            ensures never_falls { D.faults door ≤ D.faults result.1 }
        {
            let mut all = Done {
                pass: first,
                end: Ok(()),
            };
            let mut threads = threads;
            let mut rest = jobs;
            let doorway = context.doorway.lock(rt);
            'starting: while let Some(job) = rest.pop_front() {
                let lent = Lent {
                    pass: Snapshot::of(&job.pass),
                };
                let work = move || -> Done<B>
                    requires { IsPassFor context.now.lock.now context.now.users.now job.pass }
                    ensures { HasTakenTurns job.pass result.pass }
                { run_job(rt, context, job) };
                match scope.spawn_with(lent, work) {
                    Ok(thread) => threads.push(thread),
                    Err(refused) => {
                        context.end_all();
                        take_back(context, &mut all, (refused.value)());
                    }
                }
            }
            drop(doorway);
            let mut door = door;
            serve_first(rt, context, &mut all, &mut door);
            join_threads(rt, context, &mut all, threads.into_list());
            (all, door)
        },
    )
}

/// Serves as the first session.
fn serve_first<B: Desk, D: Door, R: Wait>(
    rt: &R,
    context: &Context<'_, B>,
    all: &mut Done<B>,
    door: &mut D,
)
    requires pass { IsPassFor context.now.lock.now context.now.users.now all.old.pass }
    requires settings { 0 < context.now.settings.sessions }
    ensures pass { HasTakenTurns all.old.pass all.new.pass }
    ensures some { OnOk all.new.end (0 < context.now.settings.connections) }
    ensures tries { OnOk all.new.end (RoseBy (share_of context.now.settings.connections context.now.settings.sessions 0) (D.tries door.old) (D.tries door.new)) }
    ensures never_falls { D.faults door.old ≤ D.faults door.new }
{
    let share = share_of(context.settings, 0);
    let end = serve_share(rt, context, &mut all.pass, door, share);
    note(&mut all.end, end);
}

/// Waits for the end of each thread.
fn join_threads<B: Desk, R: Threads>(
    rt: &R,
    context: &Context<'_, B>,
    all: &mut Done<B>,
    threads: List<Thread<B>>,
)
    requires { Awaits context.now.lock.now context.now.users.now (map (λ thread. thread.promise.pass.value) threads) all.old.pass }
    ensures pass { GoesOn context.now.lock.now context.now.users.now [] all.old.pass all.new.pass }
    ensures end { OnOk all.new.end (IsOk all.old.end) }
{
    let mut rest = threads;
    'joining: while let Some(thread) = rest.pop_front() {
        take_back(context, all, thread.join(rt));
    }
}

/// Joins the pass of a thread that has ended, and notes how it ended.
fn take_back<B: Desk>(context: &Context<'_, B>, all: &mut Done<B>, done: Done<B>)
    requires pass { IsPassFor context.now.lock.now context.now.users.now all.old.pass }
    requires back { IsSpare context.now.lock.now context.now.users.now done.pass }
    ensures pass { TakesBack context.now.lock.now context.now.users.now done.pass all.old.pass all.new.pass }
    ensures end { OnOk all.new.end (IsOk all.old.end) }
{
    let Done { pass, end } = done;
    join_pass(context, &mut all.pass, pass);
    note(&mut all.end, end);
}

/// Joins the passes of jobs for which no thread was started.
fn join_jobs<B: Desk, D: Door>(context: &Context<'_, B>, pass: &mut Pass<B>, jobs: List<Job<B, D>>)
    requires { Awaits context.now.lock.now context.now.users.now (map (λ job. job.pass) jobs) pass.old }
    ensures { GoesOn context.now.lock.now context.now.users.now [] pass.old pass.new }
{
    let mut rest = jobs;
    'joining: while let Some(job) = rest.pop_front() {
        let Job {
            pass: other,
            door: _,
            role: _,
        } = job;
        join_pass(context, pass, other);
    }
}

/// Joins a pass that was split off.
fn join_pass<B: Desk>(context: &Context<'_, B>, pass: &mut Pass<B>, other: Pass<B>)
    requires pass { IsPassFor context.now.lock.now context.now.users.now pass.old }
    requires other { IsSpare context.now.lock.now context.now.users.now other }
    ensures { TakesBack context.now.lock.now context.now.users.now other pass.old pass.new }
{
    context.lock.join(pass, other);
}

/// Notes how one more thread ended.
fn note(all: &mut Result<(), Over>, end: Result<(), Over>)
    ensures { OnOk all.new ((IsOk all.old) × (IsOk end)) }
{
    if end.is_err() {
        *all = end;
    }
}

/// Whether all connections were served.
fn served(end: Result<(), Over>) -> Result<(), NotServed>
    ensures ok { OnOk result (IsOk end) }
    ensures door { ¬ IsErrOf result NotServed.Door }
{
    match end {
        Ok(()) => Ok(()),
        Err(Over) => Err(NotServed::Over),
    }
}
