//! What a session sees that another pass put, and what a worker does.

ghost use Rattle.std.specs.Prelude.{◌≡◌, false, Some, IfOk};

use crate::runs::{ALL, MOMENT, link_of};
use crate::texts::print_octets;
use cal_base::{FixedClock, Gate, MemoryLink, NoMemory, OpenGate};
use cal_book::{Book, Desk};
use cal_session::{Ended, OnEnd, serve_behind};
use expansion_workers::work;
use privileges::Users;
use std::alloc::Global;
use std::io;
use std::sync::Wait;
use turn_lock::{Held, Pass, TurnLock};

/// A PUT of a meeting from 09:00 to 10:00 on 10 March 2025.
pub const PUT: &[u8] =
    b"PUT /calendars/alice/calendar/one.ics HTTP/1.1\r\nHost: h\r\nAuthorization: Basic YWxpY2U6YWJj\r\nContent-Type: text/calendar\r\nContent-Length: 191\r\n\r\nBEGIN:VCALENDAR\r\nVERSION:2.0\r\nPRODID:-//a//EN\r\nBEGIN:VEVENT\r\nUID:one\r\nDTSTAMP:20250101T000000Z\r\nDTSTART:20250310T090000Z\r\nDTEND:20250310T100000Z\r\nSUMMARY:Stand-up\r\nEND:VEVENT\r\nEND:VCALENDAR\r\n";

/// A query for the events from 09:00 to 10:00 on that day, with their data.
pub const REPORT: &[u8] =
    b"REPORT /calendars/alice/calendar/ HTTP/1.1\r\nHost: h\r\nAuthorization: Basic YWxpY2U6YWJj\r\nContent-Type: application/xml\r\nContent-Length: 316\r\n\r\n<C:calendar-query xmlns:D=\"DAV:\" xmlns:C=\"urn:ietf:params:xml:ns:caldav\"><D:prop><D:getetag/><C:calendar-data/></D:prop><C:filter><C:comp-filter name=\"VCALENDAR\"><C:comp-filter name=\"VEVENT\"><C:time-range start=\"20250310T090000Z\" end=\"20250310T100000Z\"/></C:comp-filter></C:comp-filter></C:filter></C:calendar-query>";

/// What all sessions share, at any desk.
#[derive(Drop)]
pub struct Server<'a, B: Desk> {
    pub alloc: Global,
    pub lock: &'a TurnLock<B>,
    pub users: &'a Users,
}

/// The status of the first request that a session answered.
fn first_status(ended: &Ended) -> u16 {
    match ended.turns.get(0) {
        Some(turn) => turn.status,
        None => 0,
    }
}

/// Serves a connection of one request behind a gate, and gives the status of its reply and the link with what
/// was written.
pub fn asked_behind<B: Desk, R: Wait, T: Gate>(
    rt: &R,
    server: &Server<'_, B>,
    pass: &mut Pass<B>,
    octets: &[u8],
    gate: &T,
) -> Result<(u16, MemoryLink), NoMemory>
    requires same { pass.old.lock ≡ server.now.lock.now }
    requires free { pass.old.holds_turn ≡ false }
    requires users { pass.old.base ≡ Some server.now.users.now }
    ensures { pass.new ≡ record pass.old { seen = pass.new.seen; looks = pass.new.looks } }
{
    let alloc = server.alloc;
    let mut clock = FixedClock::new(MOMENT);
    let mut link = link_of(alloc, octets, None, ALL)?;
    let end = serve_behind(
        rt,
        alloc,
        server.lock,
        pass,
        server.users,
        &mut link,
        &mut clock,
        gate,
    );
    let status = match end {
        OnEnd::Ended(ended) => first_status(&ended),
        OnEnd::Broken(..) => 0,
    };
    Ok((status, link))
}

/// The same with no gate.
pub fn asked<B: Desk, R: Wait>(
    rt: &R,
    server: &Server<'_, B>,
    pass: &mut Pass<B>,
    octets: &[u8],
) -> Result<(u16, MemoryLink), NoMemory>
    requires same { pass.old.lock ≡ server.now.lock.now }
    requires free { pass.old.holds_turn ≡ false }
    requires users { pass.old.base ≡ Some server.now.users.now }
    ensures { pass.new ≡ record pass.old { seen = pass.new.seen; looks = pass.new.looks } }
{
    asked_behind(rt, server, pass, octets, &OpenGate::new())
}

/// Serves a connection of one request, and gives the status of its reply.
pub fn answer<B: Desk, R: Wait>(
    rt: &R,
    server: &Server<'_, B>,
    pass: &mut Pass<B>,
    octets: &[u8],
) -> u16
    requires same { pass.old.lock ≡ server.now.lock.now }
    requires free { pass.old.holds_turn ≡ false }
    requires users { pass.old.base ≡ Some server.now.users.now }
    ensures { pass.new ≡ record pass.old { seen = pass.new.seen; looks = pass.new.looks } }
{
    match asked(rt, server, pass, octets) {
        Ok((status, _)) => status,
        Err(NoMemory) => 0,
    }
}

/// Splits a second pass off the first.
pub fn split_off<B: Desk + Drop, R: Wait>(
    rt: &R,
    server: &Server<'_, B>,
    first: &mut Pass<B>,
) -> Result<Pass<B>, NoMemory>
    requires first { (first.old.lock ≡ server.now.lock.now) × (first.old.holds_turn ≡ false) × (first.old.base ≡ Some server.now.users.now) }
    ensures first { IfOk result (λ _. (first.new.lock ≡ server.now.lock.now) × (first.new.holds_turn ≡ false) × (first.new.base ≡ Some server.now.users.now)) }
    ensures second { IfOk result (λ second. (second.lock ≡ server.now.lock.now) × (second.holds_turn ≡ false) × (second.base ≡ Some server.now.users.now)) }
{
    match server.lock.split(rt, first) {
        Ok(second) => Ok(second),
        Err(NoMemory) => Err(NoMemory),
    }
}

/// Joins two passes, and gives how many entries they have seen.
pub fn joined<B: Desk + Drop>(server: &Server<'_, B>, first: Pass<B>, second: Pass<B>) -> u64
    requires first { (first.lock ≡ server.now.lock.now) × (first.holds_turn ≡ false) }
    requires second { (second.lock ≡ server.now.lock.now) × (second.holds_turn ≡ false) }
{
    let mut first = first;
    server.lock.join(&mut first, second);
    first.seen_len()
}

/// Joins two passes, and takes the desk from its lock.
pub fn taken<B: Desk + Drop, R: Wait>(
    rt: &R,
    server: &Server<'_, B>,
    first: Pass<B>,
    second: Pass<B>,
) -> B
    requires first { (first.lock ≡ server.now.lock.now) × (first.holds_turn ≡ false) }
    requires second { (second.lock ≡ server.now.lock.now) × (second.holds_turn ≡ false) }
{
    let mut first = first;
    server.lock.join(&mut first, second);
    let Held { value } = server.lock.take(rt, &mut first);
    value
}

/// Prints the statuses of two sessions, how many entries the pass of the second had seen before it asked, then
/// and after the join, and its reply.
fn print_seen<R: Print>(
    rt: &R,
    statuses: (u16, u16),
    counts: (u64, u64, u64),
    reply: &[u8],
) -> io::Result<()> {
    println!(rt;
        "put by another pass: {}; entries seen {}; asked: {}; then {}; joined {}",
        statuses.0, counts.0, statuses.1, counts.1, counts.2
    )?;
    print_octets(rt, reply)
}

/// Prints what a session sees of a meeting that another pass put: the second pass puts it, and the first asks
/// for it.
pub fn print_split<R: Wait + Print>(
    rt: &R,
    server: &Server<'_, Book>,
    first: Pass<Book>,
    second: Pass<Book>,
) -> io::Result<()>
    requires first { (first.lock ≡ server.now.lock.now) × (first.holds_turn ≡ false) × (first.base ≡ Some server.now.users.now) }
    requires second { (second.lock ≡ server.now.lock.now) × (second.holds_turn ≡ false) × (second.base ≡ Some server.now.users.now) }
{
    let mut first = first;
    let mut second = second;
    let put = answer(rt, server, &mut second, PUT);
    let before = first.seen_len();
    let reply = asked(rt, server, &mut first, REPORT);
    let then = first.seen_len();
    let counts = (before, then, joined(server, first, second));
    match reply {
        Ok((status, link)) => print_seen(rt, (put, status), counts, link.written()),
        Err(NoMemory) => println!(rt; "out of memory"),
    }
}

/// Prints what a worker does in 20 turns about a meeting that another pass put.
pub fn print_work<R: Wait + Print>(
    rt: &R,
    server: &Server<'_, Book>,
    first: Pass<Book>,
    second: Pass<Book>,
) -> io::Result<()>
    requires first { (first.lock ≡ server.now.lock.now) × (first.holds_turn ≡ false) × (first.base ≡ Some server.now.users.now) }
    requires second { (second.lock ≡ server.now.lock.now) × (second.holds_turn ≡ false) × (second.base ≡ Some server.now.users.now) }
{
    let mut first = first;
    let mut second = second;
    answer(rt, server, &mut second, PUT);
    let gate = OpenGate::new();
    let worked = work(rt, server.alloc, server.lock, &mut first, &gate, 20);
    let _entries = joined(server, first, second);
    println!(rt;
        "of 20 turns of a worker: {} claimed, {} published, {} stale, {} refused",
        worked.claimed, worked.published, worked.stale, worked.refused
    )
}
