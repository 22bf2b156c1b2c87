//! What a session and a worker do, each in a thread of its own.
ghost use Rattle.std.specs.Prelude.{◌≡◌, ◌≤◌, ◌<◌, OnOk};
ghost use Rattle.cal_base.specs.World.Outside.{IsNext};
ghost use Rattle.caldav_server.specs.ThreadPasses.{HasTakenTurns};
ghost use Rattle.caldav_server.specs.Shares.{IsPassFor, RoseBy, share_of};

use cal_base::{Clock, Door, Link, OpenGate};
use cal_book::Desk;
use cal_session::{OnEnd, serve_on};
use expansion_workers::work_on;
use privileges::Users;
use std::alloc::Global;
use std::sync::atomic::{AtomicBool, AtomicU64, Ordering};
use std::sync::{Mutex, Wait};
use turn_lock::{Pass, TurnLock};

/// How many turns a worker takes before it looks whether it is still wanted.
const WORKER_TURNS: u32 = 1_000;

/// How many sessions and workers a server has, and when it ends.
#[derive(Clone, Copy)]
pub(crate) struct Settings {
    pub(crate) sessions: u64,
    pub(crate) workers: u64,
    /// After how many connections the sessions end; 0 is without end.
    pub(crate) connections: u64,
}

/// What all sessions and workers share, at any desk.
#[derive(Drop)]
pub(crate) struct Context<'a, B: Desk> {
    pub(crate) alloc: Global,
    pub(crate) lock: &'a TurnLock<B>,
    pub(crate) users: &'a Users,
    /// Who has it may wait for a connection, or starts the threads, none of which may till then.
    pub(crate) doorway: &'a Mutex<()>,
    /// How many sessions have not ended.
    pub(crate) running: &'a AtomicU64,
    /// Whether all are to end.
    pub(crate) over: &'a AtomicBool,
    pub(crate) settings: Settings,
}

impl<'a, B: Desk> Context<'a, B> {
    /// Whether all are to end.
    fn is_over(&self) -> bool {
        self.over.load(Ordering::SeqCst)
    }

    /// Tells all to end: each session before its next connection, each worker before its next turns.
    pub(crate) fn end_all(&self) {
        self.over.store(true, Ordering::SeqCst);
    }
}

/// What a thread is for.
#[derive(Clone, Copy)]
pub(crate) enum Role {
    /// It serves so many connections, or connections without end where the settings have no number.
    Serve(u64),
    /// It expands recurring events while a session runs.
    Expand,
}

/// What a thread is started with.
#[derive(Drop)]
pub(crate) struct Job<B: Desk, D: Door> {
    pub(crate) pass: Pass<B>,
    pub(crate) door: D,
    pub(crate) role: Role,
}

/// A thread ended before all was done that it was for: the desk broke when it was asked, or all were to end.
#[derive(Clone, Copy)]
pub(crate) struct Over;

/// What a thread leaves at its end.
#[derive(Drop)]
pub(crate) struct Done<B: Desk> {
    pub(crate) pass: Pass<B>,
    pub(crate) end: Result<(), Over>,
}

/// How many of the connections a session serves, where it is the one with this number. The first
/// ones get one more where the number of sessions does not divide.
#[tactic(auto, using(crate::proofs::Sharing::share_fits))]
pub(crate) fn share_of(settings: Settings, session: u64) -> u64
    requires { 0 < settings.sessions }
    ensures { result ≡ share_of settings.connections settings.sessions session }
{
    let share = settings.connections / settings.sessions;
    if session < settings.connections % settings.sessions {
        share + 1
    } else {
        share
    }
}

/// Does what a job is for.
pub(crate) fn run_job<B: Desk, D: Door, R: Wait>(
    rt: &R,
    context: &Context<'_, B>,
    job: Job<B, D>,
) -> Done<B>
    requires { IsPassFor context.now.lock.now context.now.users.now job.pass }
    ensures { HasTakenTurns job.pass result.pass }
{
    let Job {
        mut pass,
        mut door,
        role,
    } = job;
    let end = do_role(rt, context, &mut pass, &mut door, role);
    Done { pass, end }
}

/// Does a role with a pass, unless all are to end already.
#[tactic(auto, using(crate::proofs::ThreadPasses::turns_none))]
fn do_role<B: Desk, D: Door, R: Wait>(
    rt: &R,
    context: &Context<'_, B>,
    pass: &mut Pass<B>,
    door: &mut D,
    role: Role,
) -> Result<(), Over>
    requires { IsPassFor context.now.lock.now context.now.users.now pass.old }
    ensures { HasTakenTurns pass.old pass.new }
{
    if context.is_over() {
        return Err(Over);
    }
    match role {
        Role::Serve(share) => serve_share(rt, context, pass, door, share),
        Role::Expand => expand_claims(rt, context, pass, door),
    }
}

/// Serves so many connections, or connections without end where the settings have no number of them.
pub(crate) fn serve_share<B: Desk, D: Door, R: Wait>(
    rt: &R,
    context: &Context<'_, B>,
    pass: &mut Pass<B>,
    door: &mut D,
    share: u64,
) -> Result<(), Over>
    requires pass { IsPassFor context.now.lock.now context.now.users.now pass.old }
    ensures pass { HasTakenTurns pass.old pass.new }
    ensures some { OnOk result (0 < context.now.settings.connections) }
    ensures tries { OnOk result (RoseBy share (D.tries door.old) (D.tries door.new)) }
    ensures never_falls { D.faults door.old ≤ D.faults door.new }
{
    let end = serve_all(rt, context, pass, door, share);
    context.running.fetch_sub(1, Ordering::SeqCst);
    end
}

/// The same, before the session is counted as one that has ended.
#[tactic(auto, using(crate::proofs::ThreadPasses::turns_none, crate::proofs::ThreadPasses::turns_more, crate::proofs::ThreadPasses::ready_on))]
fn serve_all<B: Desk, D: Door, R: Wait>(
    rt: &R,
    context: &Context<'_, B>,
    pass: &mut Pass<B>,
    door: &mut D,
    share: u64,
) -> Result<(), Over>
    requires pass { IsPassFor context.now.lock.now context.now.users.now pass.old }
    ensures pass { HasTakenTurns pass.old pass.new }
    ensures some { OnOk result (0 < context.now.settings.connections) }
    ensures tries { OnOk result (RoseBy share (D.tries door.old) (D.tries door.new)) }
    ensures never_falls { D.faults door.old ≤ D.faults door.new }
{
    if context.settings.connections == 0 {
        'endless: for _ in rt.forever() {
            serve_next(rt, context, pass, door)?;
        }
        unreachable!()
    }
    'share: for _connection in 0..share {
        serve_next(rt, context, pass, door)?;
    }
    Ok(())
}

/// Waits for the next connection and serves it. Where none comes, as while the system has no more
/// descriptors, it rests before it goes on.
#[tactic(auto, using(crate::proofs::ThreadPasses::turns_none))]
fn serve_next<B: Desk, D: Door, R: Wait>(
    rt: &R,
    context: &Context<'_, B>,
    pass: &mut Pass<B>,
    door: &mut D,
) -> Result<(), Over>
    requires pass { IsPassFor context.now.lock.now context.now.users.now pass.old }
    ensures pass { HasTakenTurns pass.old pass.new }
    ensures tried { OnOk result (IsNext (D.tries door.old) (D.tries door.new)) }
    ensures never_falls { D.faults door.old ≤ D.faults door.new }
{
    match next_link(rt, context, door)? {
        Some(link) => serve_link(rt, context, pass, link, door.clock()),
        None => {
            door.rest(rt);
            Ok(())
        }
    }
}

/// The next connection, or none where the door failed. One session at a time waits for it, so that
/// one connection more is all that is waited for once all are to end.
fn next_link<B: Desk, D: Door, R: Wait>(
    rt: &R,
    context: &Context<'_, B>,
    door: &mut D,
) -> Result<Option<D::Link>, Over>
    ensures tried { OnOk result (IsNext (D.tries door.old) (D.tries door.new)) }
    ensures never_falls { D.faults door.old ≤ D.faults door.new }
{
    let doorway = context.doorway.lock(rt);
    let link = accept_next(rt, context, door);
    drop(doorway);
    link
}

/// The same, in the doorway. A connection that comes when all are to end is let go unanswered.
fn accept_next<B: Desk, D: Door, R: Wait>(
    rt: &R,
    context: &Context<'_, B>,
    door: &mut D,
) -> Result<Option<D::Link>, Over>
    ensures tried { OnOk result (IsNext (D.tries door.old) (D.tries door.new)) }
    ensures never_falls { D.faults door.old ≤ D.faults door.new }
{
    if context.is_over() {
        return Err(Over);
    }
    let came = door.accept(rt);
    if context.is_over() {
        return Err(Over);
    }
    match came {
        Ok(link) => Ok(Some(link)),
        Err(_) => Ok(None),
    }
}

/// Serves a connection. Where the desk breaks, all are to end.
fn serve_link<B: Desk, L: Link + Drop, C: Clock + Drop, R: Wait>(
    rt: &R,
    context: &Context<'_, B>,
    pass: &mut Pass<B>,
    mut link: L,
    mut clock: C,
) -> Result<(), Over>
    requires { IsPassFor context.now.lock.now context.now.users.now pass.old }
    ensures { HasTakenTurns pass.old pass.new }
{
    let end = serve_on(
        rt,
        context.alloc,
        context.lock,
        pass,
        context.users,
        &mut link,
        &mut clock,
    );
    match end {
        OnEnd::Ended(_) => Ok(()),
        OnEnd::Broken(_, _) => {
            context.end_all();
            Err(Over)
        }
    }
}

/// Claims and expands while a session runs, and rests where there is nothing to claim.
#[tactic(auto, using(crate::proofs::ThreadPasses::turns_none, crate::proofs::ThreadPasses::turns_more, crate::proofs::ThreadPasses::ready_on))]
fn expand_claims<B: Desk, D: Door, R: Wait>(
    rt: &R,
    context: &Context<'_, B>,
    pass: &mut Pass<B>,
    door: &mut D,
) -> Result<(), Over>
    requires { IsPassFor context.now.lock.now context.now.users.now pass.old }
    ensures { HasTakenTurns pass.old pass.new }
{
    'working: for _ in rt.forever() {
        if context.is_over() {
            return Err(Over);
        }
        if context.running.load(Ordering::SeqCst) == 0 {
            break;
        }
        if !has_worked(rt, context, pass) {
            door.rest(rt);
        }
    }
    Ok(())
}

/// Takes a worker's turns, and says whether there was something to claim.
fn has_worked<B: Desk, R: Wait>(rt: &R, context: &Context<'_, B>, pass: &mut Pass<B>) -> bool
    requires { IsPassFor context.now.lock.now context.now.users.now pass.old }
    ensures { HasTakenTurns pass.old pass.new }
{
    let worked = work_on(
        rt,
        context.alloc,
        context.lock,
        pass,
        &OpenGate::new(),
        WORKER_TURNS,
    );
    0 < worked.claimed
}
