//! Two sessions, and a session and a worker, in two threads. Their lines are the same whatever the
//! schedule.

ghost use Rattle.std.specs.Prelude.{◌≡◌, false, Some};

use crate::passes::{PUT, REPORT, Server, answer, asked, joined};
use crate::runs::replies;
use cal_base::{Gate, NoMemory};
use cal_book::{Book, Desk};
use expansion_workers::{Worked, work_on};
use std::sync::Wait;
use std::sync::atomic::{AtomicU64, Ordering};
use std::thread::{Threads, join};
use std::{io, thread};
use turn_lock::Pass;

/// A PUT of the meeting two hours later, if it is as it was put. The tag is by the program sha256sum.
const CHANGE: &[u8] =
    b"PUT /calendars/alice/calendar/one.ics HTTP/1.1\r\nHost: h\r\nAuthorization: Basic YWxpY2U6YWJj\r\nContent-Type: text/calendar\r\nIf-Match: \"e2b908a58297f6090922388fbe2f52e0c09d7f6986555b4ac3424e3347f2b4e5\"\r\nContent-Length: 173\r\n\r\nBEGIN:VCALENDAR\r\nVERSION:2.0\r\nPRODID:-//a//EN\r\nBEGIN:VEVENT\r\nUID:one\r\nDTSTAMP:20250101T000000Z\r\nDTSTART:20250310T110000Z\r\nDTEND:20250310T120000Z\r\nEND:VEVENT\r\nEND:VCALENDAR\r\n";

/// A gate that holds who comes to it until it is opened: a worker, which has its claim by then, or a
/// session, which has its look and has given its turn back.
#[derive(Drop)]
pub struct ShutGate {
    pub is_held: AtomicU64,
    pub is_open: AtomicU64,
}

impl ShutGate {
    /// A gate to which nobody came.
    pub fn new() -> ShutGate {
        ShutGate {
            is_held: AtomicU64::new(0),
            is_open: AtomicU64::new(0),
        }
    }
}

impl Gate for ShutGate {
    fn pass<R: Wait>(&self, rt: &R, _number: u64) {
        self.is_held.store(1, Ordering::SeqCst);
        await_flag(rt, &self.is_open);
    }
}

/// Waits until a flag is set.
pub fn await_flag<R: Wait>(rt: &R, flag: &AtomicU64) {
    'looks: for _ in rt.forever() {
        if flag.load(Ordering::SeqCst) == 1 {
            return;
        }
        thread::yield_now();
    }
    unreachable!()
}

/// What a session answered: the status of its first reply, 0 where there is none, and how many it wrote.
#[derive(Clone, Copy)]
pub struct Answered {
    pub status: u16,
    pub replies: usize,
}

/// Serves a connection with a pass that is given and given back.
fn serve_by<B: Desk + Drop, R: Wait>(
    rt: &R,
    server: &Server<'_, B>,
    pass: Pass<B>,
    octets: &[u8],
) -> (Answered, Pass<B>)
    requires same { pass.lock ≡ server.now.lock.now }
    requires free { pass.holds_turn ≡ false }
    requires users { pass.base ≡ Some server.now.users.now }
    ensures { result.1 ≡ record pass { seen = result.1.seen; looks = result.1.looks } }
{
    let mut pass = pass;
    match asked(rt, server, &mut pass, octets) {
        Ok((status, link)) => {
            let replies = replies(link.written());
            (Answered { status, replies }, pass)
        }
        Err(NoMemory) => {
            let none = Answered {
                status: 0,
                replies: 0,
            };
            (none, pass)
        }
    }
}

/// Two sessions in two threads.
pub fn serve_both<B: Desk + Send + Drop, R: Threads + Wait + Sync>(
    rt: &R,
    server: &Server<'_, B>,
    first: Pass<B>,
    second: Pass<B>,
    octets: (&[u8], &[u8]),
) -> ((Answered, Pass<B>), (Answered, Pass<B>))
    requires first { (first.lock ≡ server.now.lock.now) × (first.holds_turn ≡ false) × (first.base ≡ Some server.now.users.now) }
    requires second { (second.lock ≡ server.now.lock.now) × (second.holds_turn ≡ false) × (second.base ≡ Some server.now.users.now) }
    ensures first { result.0.1 ≡ record first { seen = result.0.1.seen; looks = result.0.1.looks } }
    ensures second { result.1.1 ≡ record second { seen = result.1.1.seen; looks = result.1.1.looks } }
{
    join(
        rt,
        || -> (Answered, Pass<B>)
            requires { (first.lock ≡ server.now.lock.now) × (first.holds_turn ≡ false) × (first.base ≡ Some server.now.users.now) }
        { serve_by(rt, server, first, octets.0) },
        || -> (Answered, Pass<B>)
            requires { (second.lock ≡ server.now.lock.now) × (second.holds_turn ≡ false) × (second.base ≡ Some server.now.users.now) }
        { serve_by(rt, server, second, octets.1) },
    )
}

/// Prints of two sessions that change one object by one tag the lesser status and the greater, and how many
/// entries there are behind them.
pub fn print_race<R: Threads + Wait + Sync + Print>(
    rt: &R,
    server: &Server<'_, Book>,
    first: Pass<Book>,
    second: Pass<Book>,
) -> io::Result<()>
    requires first { (first.lock ≡ server.now.lock.now) × (first.holds_turn ≡ false) × (first.base ≡ Some server.now.users.now) }
    requires second { (second.lock ≡ server.now.lock.now) × (second.holds_turn ≡ false) × (second.base ≡ Some server.now.users.now) }
{
    let mut first = first;
    answer(rt, server, &mut first, PUT);
    let ((left, first), (right, second)) = serve_both(rt, server, first, second, (CHANGE, CHANGE));
    let entries = joined(server, first, second);
    let lesser = left.status.min(right.status);
    let greater = left.status.max(right.status);
    println!(rt; "of two that race: {lesser}, {greater}; {entries} entries")
}

/// Works one turn behind a gate, and gives the pass back.
fn work_by<B: Desk + Drop, R: Wait>(
    rt: &R,
    server: &Server<'_, B>,
    pass: Pass<B>,
    gate: &ShutGate,
) -> (Worked, Pass<B>)
    requires same { pass.lock ≡ server.now.lock.now }
    requires free { pass.holds_turn ≡ false }
    ensures { result.1 ≡ record pass { seen = result.1.seen; looks = result.1.looks } }
{
    let mut pass = pass;
    let worked = work_on(rt, server.alloc, server.lock, &mut pass, gate, 1);
    (worked, pass)
}

/// Answers a query once a gate holds a worker, and opens it then.
fn answer_at<B: Desk + Drop, R: Wait>(
    rt: &R,
    server: &Server<'_, B>,
    pass: Pass<B>,
    gate: &ShutGate,
) -> (u16, Pass<B>)
    requires same { pass.lock ≡ server.now.lock.now }
    requires free { pass.holds_turn ≡ false }
    requires users { pass.base ≡ Some server.now.users.now }
    ensures { result.1 ≡ record pass { seen = result.1.seen; looks = result.1.looks } }
{
    await_flag(rt, &gate.is_held);
    let (answered, pass) = serve_by(rt, server, pass, REPORT);
    gate.is_open.store(1, Ordering::SeqCst);
    (answered.status, pass)
}

/// A worker that a gate holds, and a session that opens the gate behind its reply, in two threads.
fn answer_beside<B: Desk + Send + Drop, R: Threads + Wait + Sync>(
    rt: &R,
    server: &Server<'_, B>,
    first: Pass<B>,
    second: Pass<B>,
    gate: &ShutGate,
) -> ((Worked, Pass<B>), (u16, Pass<B>))
    requires first { (first.lock ≡ server.now.lock.now) × (first.holds_turn ≡ false) }
    requires second { (second.lock ≡ server.now.lock.now) × (second.holds_turn ≡ false) × (second.base ≡ Some server.now.users.now) }
    ensures first { result.0.1 ≡ record first { seen = result.0.1.seen; looks = result.0.1.looks } }
    ensures second { result.1.1 ≡ record second { seen = result.1.1.seen; looks = result.1.1.looks } }
{
    join(
        rt,
        || -> (Worked, Pass<B>)
            requires { (first.lock ≡ server.now.lock.now) × (first.holds_turn ≡ false) }
        { work_by(rt, server, first, gate) },
        || -> (u16, Pass<B>)
            requires { (second.lock ≡ server.now.lock.now) × (second.holds_turn ≡ false) × (second.base ≡ Some server.now.users.now) }
        { answer_at(rt, server, second, gate) },
    )
}

/// Prints the status of a query that is answered while the expansion of a worker is held, and what becomes of
/// that worker.
pub fn print_gate<R: Threads + Wait + Sync + Print>(
    rt: &R,
    server: &Server<'_, Book>,
    first: Pass<Book>,
    second: Pass<Book>,
) -> io::Result<()>
    requires first { (first.lock ≡ server.now.lock.now) × (first.holds_turn ≡ false) × (first.base ≡ Some server.now.users.now) }
    requires second { (second.lock ≡ server.now.lock.now) × (second.holds_turn ≡ false) × (second.base ≡ Some server.now.users.now) }
{
    let mut first = first;
    answer(rt, server, &mut first, PUT);
    let gate = ShutGate::new();
    let ((worked, first), (status, second)) = answer_beside(rt, server, first, second, &gate);
    let _entries = joined(server, first, second);
    println!(rt;
        "answered while an expansion is held: {status}; then {} published, {} stale, {} refused",
        worked.published, worked.stale, worked.refused
    )
}
