//! The sessions and workers of `load`, each in a thread of its own over memory.
ghost use Rattle.std.specs.Prelude.{◌≡◌, ◌≤◌, ◌<◌, ◌↔◌, All, IfOk, IsTrue, count_by};
ghost use Rattle.std.specs.List.{AllZip};
ghost use Rattle.turn_lock.specs.Journals.{entries_by};
ghost use Rattle.caldav_server.specs.LoadJobs.{IsJob};
ghost use Rattle.caldav_server.specs.Shares.{IsPassFor};
ghost use Rattle.caldav_server.specs.LoadSessions.{was_accepted, HadMemory};
ghost use Rattle.caldav_server.specs.LoadDone.{Did, HasDone, IsAccountOf};

use cal_base::{FixedClock, List, MemoryLink, OpenGate};
use cal_book::Book;
use cal_session::{Ended, How, Served, Service, serve_connection};
use expansion_workers::work;
use load_requests::{MOMENT, requests_of};
use privileges::Users;
use std::alloc::{AllocError, Global};
use std::sync::Wait;
use std::thread;
use std::thread::Threads;
use turn_lock::Pass;

/// What all threads share.
#[derive(Clone, Copy)]
pub(crate) struct Context<'a> {
    pub(crate) alloc: Global,
    pub(crate) service: &'a Service,
    pub(crate) users: &'a Users,
    /// How many events each session puts, and how many turns a worker takes.
    pub(crate) puts: u32,
}

/// What a thread is for.
#[derive(Clone, Copy)]
pub(crate) enum Role {
    /// It is the session of this number.
    Serve(u32),
    /// It expands recurring events.
    Expand,
}

/// What a thread is started with.
#[derive(Drop)]
pub(crate) struct Job {
    pub(crate) pass: Pass<Book>,
    pub(crate) role: Role,
}

/// What a session did.
#[derive(Drop)]
pub(crate) struct Account {
    pub(crate) requests: u64,
    pub(crate) accepted: u64,
    /// The link, with what was written.
    pub(crate) link: MemoryLink,
}

/// What came of a role.
#[derive(Drop)]
pub(crate) enum Outcome {
    /// A session was served to its end.
    Served(Account),
    /// All turns of a worker were taken.
    Worked,
    /// There was no memory, or a request was answered so.
    Failed,
}

/// What a thread tells at its end.
#[derive(Drop)]
pub(crate) struct Done {
    pub(crate) pass: Pass<Book>,
    pub(crate) outcome: Outcome,
}

/// Runs all threads to their ends.
pub(crate) fn run_jobs<R: Threads + Wait + Sync>(
    rt: &R,
    context: &Context<'_>,
    jobs: Vec<Job>,
) -> Result<Vec<Done>, AllocError>
    requires few { context.now.puts ≤ 800 }
    requires ready { All (λ job. IsJob context.now.service.now context.now.users.now job) jobs.items }
    ensures { IfOk result (λ done. AllZip (HasDone context.now.users.now context.now.puts) jobs.items done.items) }
{
    thread::map_vec(
        rt,
        jobs,
        &|job: Job| -> Done
            requires { (context.now.puts ≤ 800) × IsJob context.now.service.now context.now.users.now job }
            ensures { HasDone context.entry.now.users.now context.entry.now.puts job result }
        { run_job(rt, context, job) },
    )
}

/// Does what a thread is for.
fn run_job<R: Wait>(rt: &R, context: &Context<'_>, job: Job) -> Done
    requires few { context.now.puts ≤ 800 }
    requires ready { IsJob context.now.service.now context.now.users.now job }
    ensures { HasDone context.now.users.now context.now.puts job result }
{
    let Job { mut pass, role } = job;
    let outcome = run_role(rt, context, role, &mut pass);
    Done { pass, outcome }
}

/// Does a role with a pass.
fn run_role<R: Wait>(rt: &R, context: &Context<'_>, role: Role, pass: &mut Pass<Book>) -> Outcome
    requires few { context.now.puts ≤ 800 }
    requires ready { IsJob context.now.service.now context.now.users.now (record { pass = pass.old; role = role }) }
    ensures pass { pass.new ≡ record pass.old { seen = pass.new.seen; looks = pass.new.looks } }
    ensures did { Did context.now.users.now context.now.puts role pass.old pass.new result }
{
    match role {
        Role::Serve(session) => serve_session(rt, context, session, pass),
        Role::Expand => {
            expand_pieces(rt, context, pass);
            Outcome::Worked
        }
    }
}

/// Takes one turn as often as a session puts events.
fn expand_pieces<R: Wait>(rt: &R, context: &Context<'_>, pass: &mut Pass<Book>)
    requires { IsPassFor context.now.service.now context.now.users.now pass.old }
    ensures pass { pass.new ≡ record pass.old { seen = pass.new.seen; looks = pass.new.looks } }
    ensures mine { entries_by (λ entry. entry.session) pass.old.number pass.new.seen ≡ entries_by (λ entry. entry.session) pass.old.number pass.old.seen }
{
    'turns: for _turn in 0..context.puts {
        let _ = work(
            rt,
            context.alloc,
            context.service.lock(),
            pass,
            &OpenGate::new(),
            1,
        );
    }
}

/// Serves a session to its end.
fn serve_session<R: Wait>(
    rt: &R,
    context: &Context<'_>,
    session: u32,
    pass: &mut Pass<Book>,
) -> Outcome
    requires few { context.now.puts ≤ 800 }
    requires session { session < 100 }
    requires ready { IsPassFor context.now.service.now context.now.users.now pass.old }
    ensures pass { pass.new ≡ record pass.old { seen = pass.new.seen; looks = pass.new.looks } }
    ensures did { Did context.now.users.now context.now.puts (Role.Serve session) pass.old pass.new result }
{
    match requests_of(context.alloc, context.users, context.puts as u64, session) {
        Ok((octets, count)) => {
            let mut link = MemoryLink::new(
                context.alloc,
                octets,
                List::new(context.alloc),
                1 << 62,
            );
            let mut clock = FixedClock::new(MOMENT);
            let ended = serve_connection(
                rt,
                context.alloc,
                context.service,
                pass,
                context.users,
                &mut link,
                &mut clock,
            );
            account_of(ended, count, link)
        }
        Err(_) => Outcome::Failed,
    }
}

/// The account of a session that ended, where it answered so many requests, none of them for want of
/// memory.
fn account_of(ended: Ended, count: u64, link: MemoryLink) -> Outcome
    ensures { IsAccountOf ended.how ended.turns count link result }
{
    let turns = ended.turns.as_slice();
    let requests = turns.len() as u64;
    if is_closed(ended.how) && requests == count && had_memory(turns) {
        let accepted = accepted_of(turns);
        Outcome::Served(Account {
            requests,
            accepted,
            link,
        })
    } else {
        Outcome::Failed
    }
}

fn is_closed(how: How) -> bool
    ensures { IsTrue result → how ≡ How.Closed }
{
    matches!(how, How::Closed)
}

/// How many requests were accepted.
fn accepted_of(turns: &[Served]) -> u64
    ensures { result ≡ count_by was_accepted turns.now }
{
    turns
        .iter()
        .filter(|turn| 200 <= turn.status && turn.status <= 299)
        .count() as u64
}

/// Whether no request met want of memory.
fn had_memory(turns: &[Served]) -> bool
    ensures { IsTrue result ↔ All HadMemory turns.now }
{
    turns.iter().all(|turn| turn.status != 503)
}
