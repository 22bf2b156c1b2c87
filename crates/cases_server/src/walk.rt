//! Walks through a book: requests that come on one connection, and the work of one worker.
ghost use Rattle.std.specs.Prelude.{◌≡◌, ◌≤◌, ◌++◌, List, length};
ghost use Rattle.cal_model.specs.History.Journal.{Entry};
ghost use Rattle.cal_model.specs.Streams.WireLimits.{body_limit};
ghost use Rattle.cases_server.specs.Slots.{IsSlotIn};

use crate::slot::{Slot, drop_slot};
use cal_base::Steps;
use cal_book::{Book, Publish, expand};
use cal_model::{Event, Reply};
use dav_request::{Asked, read_request};
use http_wire::{Next, Wire, WireRequest};
use privileges::Users;
use std::sync::ledger::Ledger;
use std::{io, mem};

/// 09:46:40 on 10 March 2025.
const MOMENT: i64 = 1_741_600_000;

/// The most octets of a body.
const BODY_LIMIT: usize = 1_048_576;

/// Takes a step: `a` answers the next request, `c` claims, `e` expands, `p` publishes, `b` gives up,
/// `r` makes room for a deletion, and any other tells the number of entries.
pub fn take_step<L: Ledger>(
    rt: &HostRuntime,
    users: &Users,
    book: &mut Book,
    wire: &mut Wire,
    slot: &mut Slot,
    step: u8,
    steps: &mut Steps<L>,
) -> io::Result<()>
    requires users { book.old.users ≡ users.now }
    requires slot { IsSlotIn book.old.work.journal slot.old }
    ensures users { book.new.users ≡ users.now }
    ensures slot { IsSlotIn book.new.work.journal slot.new }
{
    match step {
        b'a' => take_request(rt, users, book, wire, slot, steps),
        b'c' => claim(rt, book, slot),
        b'e' => expand_slot(rt, slot, steps),
        b'p' => publish(rt, book, slot, steps),
        b'b' => give_up(rt, book, slot),
        b'r' => reserve(rt, book),
        _ => println!(rt; "{} entries", book.entries()),
    }
}

/// Makes room for a deletion.
fn reserve(rt: &HostRuntime, book: &mut Book) -> io::Result<()>
    ensures users { book.new.users ≡ book.old.users }
    ensures journal { book.new.work.journal ≡ book.old.work.journal }
{
    match book.reserve() {
        Ok(()) => println!(rt; "room"),
        Err(_) => println!(rt; "no room"),
    }
}

/// Prints a reply.
fn print_reply(rt: &HostRuntime, reply: &Reply) -> io::Result<()> {
    println!(rt; "answered {}", reply.status)?;
    match str::from_utf8(reply.body.as_slice()) {
        Ok("") => Ok(()),
        Ok(text) => println!(rt; "{text}"),
        Err(_) => println!(rt; "no text"),
    }
}

/// Answers a request.
fn answer<L: Ledger>(
    rt: &HostRuntime,
    users: &Users,
    book: &mut Book,
    wire: &WireRequest,
    steps: &mut Steps<L>,
) -> io::Result<()>
    requires users { book.old.users ≡ users.now }
    requires body { length wire.now.body ≤ body_limit }
    ensures users { book.new.users ≡ users.now }
    ensures grows { (more : List Entry) × (book.new.work.journal ≡ book.old.work.journal ++ more) }
{
    match read_request(rt.alloc(), wire, users) {
        Asked::Request { who, request } => {
            let event = Event {
                session: 0,
                who,
                moment: MOMENT,
                request,
            };
            print_reply(rt, &book.request(rt.alloc(), &event, &mut None, steps))
        }
        Asked::Refused(reply) => print_reply(rt, &reply),
        Asked::NoMemory => println!(rt; "out of memory"),
    }
}

/// Answers the next request, if there is one.
fn take_request<L: Ledger>(
    rt: &HostRuntime,
    users: &Users,
    book: &mut Book,
    wire: &mut Wire,
    slot: &mut Slot,
    steps: &mut Steps<L>,
) -> io::Result<()>
    requires users { book.old.users ≡ users.now }
    requires slot { IsSlotIn book.old.work.journal slot.old }
    ensures users { book.new.users ≡ users.now }
    ensures slot { IsSlotIn book.new.work.journal slot.new }
{
    let Next::Request(request) = wire.next(rt.alloc()) else {
        return println!(rt; "no request");
    };
    if request.body.len() > BODY_LIMIT {
        return println!(rt; "no request");
    }
    answer(rt, users, book, &request, steps)
}

/// Claims the next piece.
fn claim(rt: &HostRuntime, book: &mut Book, slot: &mut Slot) -> io::Result<()>
    requires slot { IsSlotIn book.old.work.journal slot.old }
    ensures users { book.new.users ≡ book.old.users }
    ensures slot { IsSlotIn book.new.work.journal slot.new }
{
    match book.claim() {
        Ok(Some(claim)) => {
            let (origin, window) = (claim.origin, claim.window);
            drop_slot(mem::replace(slot, Slot::Claimed(claim)));
            println!(rt; "claimed {origin} in window {window}")
        }
        Ok(None) => println!(rt; "nothing is open"),
        Err(_) => println!(rt; "out of memory"),
    }
}

/// Finds the rows of the claim.
fn expand_slot<L: Ledger>(rt: &HostRuntime, slot: &mut Slot, steps: &mut Steps<L>) -> io::Result<()>
    ensures { (journal : List Entry) → IsSlotIn journal slot.old → IsSlotIn journal slot.new }
{
    match mem::replace(slot, Slot::Empty) {
        Slot::Claimed(claim) => match expand(rt.alloc(), claim, steps) {
            Ok(expanded) => {
                let count = expanded.rows.len();
                drop_slot(mem::replace(slot, Slot::Expanded(expanded)));
                println!(rt; "{count} rows")
            }
            Err(_) => println!(rt; "out of memory"),
        },
        other => {
            drop_slot(other);
            println!(rt; "no claim")
        }
    }
}

/// Publishes the rows.
fn publish<L: Ledger>(
    rt: &HostRuntime,
    book: &mut Book,
    slot: &mut Slot,
    steps: &mut Steps<L>,
) -> io::Result<()>
    requires slot { IsSlotIn book.old.work.journal slot.old }
    ensures users { book.new.users ≡ book.old.users }
    ensures slot { IsSlotIn book.new.work.journal slot.new }
{
    match mem::replace(slot, Slot::Empty) {
        Slot::Expanded(expanded) => match book.publish(expanded, steps) {
            Publish::Published => println!(rt; "published"),
            Publish::Stale { now: Some(now) } => println!(rt; "stale, now {now}"),
            Publish::Stale { now: None } => println!(rt; "stale, gone"),
            Publish::NoMemory => println!(rt; "out of memory"),
        },
        other => {
            drop_slot(other);
            println!(rt; "no rows")
        }
    }
}

/// Gives the claim up.
fn give_up(rt: &HostRuntime, book: &mut Book, slot: &mut Slot) -> io::Result<()>
    requires slot { IsSlotIn book.old.work.journal slot.old }
    ensures users { book.new.users ≡ book.old.users }
    ensures slot { IsSlotIn book.new.work.journal slot.new }
{
    match mem::replace(slot, Slot::Empty) {
        Slot::Empty => println!(rt; "no claim"),
        Slot::Claimed(claim) => {
            book.abandon(claim);
            println!(rt; "given up")
        }
        Slot::Expanded(expanded) => {
            book.abandon(expanded.claim);
            println!(rt; "given up")
        }
    }
}
