//! Requests that only read, which are answered from a look at their turn while others change the book.

ghost use Rattle.std.specs.Prelude.{◌≡◌, false, Some};

use crate::passes::{PUT, REPORT, Server, answer, asked, asked_behind, joined, split_off};
use crate::runs::{ALL, link_of};
use crate::threads::{ShutGate, await_flag};
use cal_base::{FixedClock, MemoryLink, NoMemory, OpenGate};
use cal_book::{Book, Desk};
use cal_session::{OnEnd, serve_on};
use expansion_workers::work;
use std::io;
use std::sync::Wait;
use std::sync::atomic::Ordering;
use std::thread::{Threads, join};
use turn_lock::Pass;

/// A PUT of a second meeting at the time of the first.
const SECOND: &[u8] =
    b"PUT /calendars/alice/calendar/two.ics HTTP/1.1\r\nHost: h\r\nAuthorization: Basic YWxpY2U6YWJj\r\nContent-Type: text/calendar\r\nContent-Length: 173\r\n\r\nBEGIN:VCALENDAR\r\nVERSION:2.0\r\nPRODID:-//a//EN\r\nBEGIN:VEVENT\r\nUID:two\r\nDTSTAMP:20250101T000000Z\r\nDTSTART:20250310T090000Z\r\nDTEND:20250310T100000Z\r\nEND:VEVENT\r\nEND:VCALENDAR\r\n";

/// A GET of it.
const READ: &[u8] =
    b"GET /calendars/alice/calendar/two.ics HTTP/1.1\r\nHost: h\r\nAuthorization: Basic YWxpY2U6YWJj\r\n\r\n";

/// Noon on 1 July 2030.
const LATER: i64 = 1_909_137_600;

/// How many meetings a reply shows.
fn meetings(reply: &[u8]) -> usize {
    reply
        .windows(12)
        .filter(|window| *window == b"BEGIN:VEVENT".as_slice())
        .count()
}

/// What a session was answered to one request: the status, and how many meetings the reply shows.
#[derive(Clone, Copy)]
struct Shown {
    status: u16,
    meetings: usize,
}

/// Nothing was answered.
const NOTHING: Shown = Shown {
    status: 0,
    meetings: 0,
};

/// What was answered, by the status and what was written.
fn shown_by(answered: Result<(u16, MemoryLink), NoMemory>) -> Shown {
    match answered {
        Ok((status, link)) => Shown {
            status,
            meetings: meetings(link.written()),
        },
        Err(NoMemory) => NOTHING,
    }
}

/// What a session was answered that a gate held, and whether it was held there.
#[derive(Clone, Copy)]
struct Reported {
    report: Shown,
    was_held: bool,
}

/// What two others were answered meanwhile.
#[derive(Clone, Copy)]
struct Changed {
    put: u16,
    read: Shown,
}

/// Asks for the report behind a gate, and sets its flag also where the session did not come to it, so that
/// nobody waits for that.
fn report_by<B: Desk + Drop, R: Wait>(
    rt: &R,
    server: &Server<'_, B>,
    pass: Pass<B>,
    gate: &ShutGate,
) -> (Reported, Pass<B>)
    requires same { pass.lock ≡ server.now.lock.now }
    requires free { pass.holds_turn ≡ false }
    requires users { pass.base ≡ Some server.now.users.now }
    ensures { result.1 ≡ record pass { seen = result.1.seen; looks = result.1.looks } }
{
    let mut pass = pass;
    let report = shown_by(asked_behind(rt, server, &mut pass, REPORT, gate));
    let was_held = gate.is_held.load(Ordering::SeqCst) == 1;
    gate.is_held.store(1, Ordering::SeqCst);
    (Reported { report, was_held }, pass)
}

/// Puts the second meeting by one session once a gate holds another, reads it by a third, and opens the
/// gate then.
fn change_at<B: Desk + Drop, R: Wait>(
    rt: &R,
    server: &Server<'_, B>,
    second: Pass<B>,
    third: Pass<B>,
    gate: &ShutGate,
) -> (Changed, Pass<B>, Pass<B>)
    requires second { (second.lock ≡ server.now.lock.now) × (second.holds_turn ≡ false) × (second.base ≡ Some server.now.users.now) }
    requires third { (third.lock ≡ server.now.lock.now) × (third.holds_turn ≡ false) × (third.base ≡ Some server.now.users.now) }
    ensures second { result.1 ≡ record second { seen = result.1.seen; looks = result.1.looks } }
    ensures third { result.2 ≡ record third { seen = result.2.seen; looks = result.2.looks } }
{
    let mut second = second;
    let mut third = third;
    await_flag(rt, &gate.is_held);
    let put = answer(rt, server, &mut second, SECOND);
    let read = shown_by(asked(rt, server, &mut third, READ));
    gate.is_open.store(1, Ordering::SeqCst);
    (Changed { put, read }, second, third)
}

/// Both, in two threads.
fn report_beside<B: Desk + Send + Drop, R: Threads + Wait + Sync>(
    rt: &R,
    server: &Server<'_, B>,
    first: Pass<B>,
    second: Pass<B>,
    third: Pass<B>,
    gate: &ShutGate,
) -> ((Reported, Pass<B>), (Changed, Pass<B>, Pass<B>))
    requires first { (first.lock ≡ server.now.lock.now) × (first.holds_turn ≡ false) × (first.base ≡ Some server.now.users.now) }
    requires second { (second.lock ≡ server.now.lock.now) × (second.holds_turn ≡ false) × (second.base ≡ Some server.now.users.now) }
    requires third { (third.lock ≡ server.now.lock.now) × (third.holds_turn ≡ false) × (third.base ≡ Some server.now.users.now) }
    ensures first { result.0.1 ≡ record first { seen = result.0.1.seen; looks = result.0.1.looks } }
    ensures second { result.1.1 ≡ record second { seen = result.1.1.seen; looks = result.1.1.looks } }
    ensures third { result.1.2 ≡ record third { seen = result.1.2.seen; looks = result.1.2.looks } }
{
    join(
        rt,
        || -> (Reported, Pass<B>)
            requires { (first.lock ≡ server.now.lock.now) × (first.holds_turn ≡ false) × (first.base ≡ Some server.now.users.now) }
        { report_by(rt, server, first, gate) },
        || -> (Changed, Pass<B>, Pass<B>)
            requires { ((second.lock ≡ server.now.lock.now) × (second.holds_turn ≡ false) × (second.base ≡ Some server.now.users.now)) × (third.lock ≡ server.now.lock.now) × (third.holds_turn ≡ false) × (third.base ≡ Some server.now.users.now) }
        { change_at(rt, server, second, third, gate) },
    )
}

/// Prints what three sessions are answered, of which the first works out a report while the second puts a
/// meeting that the third reads; and the report once more.
fn print_three<R: Threads + Wait + Sync + Print>(
    rt: &R,
    server: &Server<'_, Book>,
    first: Pass<Book>,
    second: Pass<Book>,
    third: Pass<Book>,
) -> io::Result<()>
    requires first { (first.lock ≡ server.now.lock.now) × (first.holds_turn ≡ false) × (first.base ≡ Some server.now.users.now) }
    requires second { (second.lock ≡ server.now.lock.now) × (second.holds_turn ≡ false) × (second.base ≡ Some server.now.users.now) }
    requires third { (third.lock ≡ server.now.lock.now) × (third.holds_turn ≡ false) × (third.base ≡ Some server.now.users.now) }
{
    let mut first = first;
    answer(rt, server, &mut first, PUT);
    let gate = ShutGate::new();
    let ((reported, mut first), (changed, second, _third)) = report_beside(
        rt, server, first, second, third, &gate,
    );
    let again = shown_by(asked(rt, server, &mut first, REPORT));
    let _entries = joined(server, first, second);
    println!(rt;
        "while a report is worked out (held: {}): put {}, read {} with {}; the report {} with {}, then {} with {}",
        reported.was_held,
        changed.put,
        changed.read.status,
        changed.read.meetings,
        reported.report.status,
        reported.report.meetings,
        again.status,
        again.meetings
    )
}

/// Prints it with a third pass that is split from the first.
pub fn print_beside<R: Threads + Wait + Sync + Print>(
    rt: &R,
    server: &Server<'_, Book>,
    first: Pass<Book>,
    second: Pass<Book>,
) -> io::Result<()>
    requires first { (first.lock ≡ server.now.lock.now) × (first.holds_turn ≡ false) × (first.base ≡ Some server.now.users.now) }
    requires second { (second.lock ≡ server.now.lock.now) × (second.holds_turn ≡ false) × (second.base ≡ Some server.now.users.now) }
{
    let mut first = first;
    match split_off(rt, server, &mut first) {
        Ok(third) => print_three(rt, server, first, second, third),
        Err(NoMemory) => println!(rt; "out of memory"),
    }
}

/// Serves a connection at a later moment, and gives how many requests were answered.
fn ask_later<B: Desk, R: Wait>(
    rt: &R,
    server: &Server<'_, B>,
    pass: &mut Pass<B>,
    octets: &[u8],
) -> Result<usize, NoMemory>
    requires same { pass.old.lock ≡ server.now.lock.now }
    requires free { pass.old.holds_turn ≡ false }
    requires users { pass.old.base ≡ Some server.now.users.now }
    ensures { pass.new ≡ record pass.old { seen = pass.new.seen; looks = pass.new.looks } }
{
    let alloc = server.alloc;
    let mut clock = FixedClock::new(LATER);
    let mut link = link_of(alloc, octets, None, ALL)?;
    let end = serve_on(
        rt,
        alloc,
        server.lock,
        pass,
        server.users,
        &mut link,
        &mut clock,
    );
    match end {
        OnEnd::Ended(ended) => Ok(ended.turns.len()),
        OnEnd::Broken(..) => Ok(0),
    }
}

/// Prints how many pieces a worker claims about a meeting that another pass put, and how many more once that
/// one asked for a report years later.
pub fn print_claims_later<R: Wait + Print>(
    rt: &R,
    server: &Server<'_, Book>,
    first: Pass<Book>,
    second: Pass<Book>,
) -> io::Result<()>
    requires first { (first.lock ≡ server.now.lock.now) × (first.holds_turn ≡ false) × (first.base ≡ Some server.now.users.now) }
    requires second { (second.lock ≡ server.now.lock.now) × (second.holds_turn ≡ false) × (second.base ≡ Some server.now.users.now) }
{
    let mut first = first;
    let mut second = second;
    answer(rt, server, &mut second, PUT);
    let gate = OpenGate::new();
    let before = work(rt, server.alloc, server.lock, &mut first, &gate, 20);
    let answered = ask_later(rt, server, &mut second, REPORT).unwrap_or(0);
    let behind = work(rt, server.alloc, server.lock, &mut first, &gate, 20);
    let _entries = joined(server, first, second);
    println!(rt;
        "claimed {}; {} answered in a later year; then claimed {}",
        before.claimed, answered, behind.claimed
    )
}
