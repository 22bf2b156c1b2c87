//! The octets of all that a session asks. Each request is written, and then read as a session reads
//! it: so it is known that the octets ask for what is meant.
ghost use Rattle.std.specs.Prelude.{◌≡◌, ℕ, ◌≤◌, ◌<◌, ◌∷◌, [], ◌++◌, List, IfOk, IsTrue, OnOk, length};
ghost use Rattle.cal_model.specs.declared.request.Request.{Request};
ghost use Rattle.cal_model.specs.Load.LoadRequests as spec;
ghost use Rattle.cal_model.specs.Requests.AskedRequests.{asked, asked_of};
ghost use Rattle.cal_model.specs.Streams.WireLimits.{body_limit};
ghost use Rattle.cal_model.specs.Users.UsersFile.{Users};
ghost use Rattle.load_requests.specs.DrawnEvents.{IsDrawn, busy_year, events_of_march};
ghost use Rattle.load_requests.specs.Meanings.{meant_by};
ghost use Rattle.load_requests.specs.MeantRequests.{Means, Spell};
ghost use Rattle.load_requests.specs.WrittenRequests.{HasAsked};

use crate::reading::{Meaning, is_meant, is_plain};
use crate::texts::{
    BUSY_YEAR, Drawn, Draws, EVENTS_OF_MARCH, event_octets, object_name, put_octets, report_octets,
    user_name,
};
use base64::prelude::BASE64_STANDARD;
use cal_base::{NoMemory, Octets};
use cal_model::WireRequest;
use dav_request::{Asked, read_request};
use http_wire::{Next, Wire};
use privileges::Users;
use std::alloc::{AllocError, Global};

/// The octets of the longest body that is read.
const BODY_LIMIT: usize = 1_048_576;

/// What a session asks, as far as it was written.
#[derive(Drop)]
struct Asking {
    /// Its octets.
    octets: Octets,
    /// How many requests they are.
    count: u64,
    /// The reading of them.
    wire: Wire,
}

/// Who asks.
#[derive(Clone, Copy)]
struct Asker<'a> {
    alloc: Global,
    users: &'a Users,
    session: u32,
    puts: u64,
    /// The credentials, as a field has them.
    signature: &'a str,
}

/// All that a session asks with so many puts, as octets, and how many requests they are.
///
/// (Also where the octets are not read as what is meant there is no memory, which does not come.)
pub fn requests_of(
    alloc: Global,
    users: &Users,
    puts: u64,
    session: u32,
) -> Result<(Octets, u64), NoMemory>
    requires few { puts ≤ 800 }
    requires session { session < 100 }
    ensures spelled { IfOk result (λ asked. Spell users.now session (spec.requests_of puts session) asked.0) }
    ensures count { IfOk result (λ asked. asked.1 ≡ length (spec.requests_of puts session)) }
{
    let signature = signature_of(alloc, session)?;
    let asker = Asker {
        alloc,
        users,
        session,
        puts,
        signature: signature.as_str(),
    };
    let mut asking = Asking {
        octets: Octets::new(alloc),
        count: 0,
        wire: Wire::new(alloc),
    };
    ask_all(&asker, &mut asking)?;
    whole(asking)
}

/// The credentials of the user of a session.
fn signature_of(alloc: Global, session: u32) -> Result<String, AllocError> {
    let password = format!(in alloc; "u{session:02}:abc")?;
    BASE64_STANDARD.encode(alloc, password.as_bytes())
}

/// What was written, where nothing is left to be read of it.
fn whole(asking: Asking) -> Result<(Octets, u64), NoMemory>
    ensures spelled { IfOk result (λ asked. (users : Users) (session : ℕ) (requests : List Request) → HasAsked users session requests asking.octets asking.count asking.wire → Spell users session requests asked.0) }
    ensures count { IfOk result (λ asked. asked.1 ≡ asking.count) }
{
    let Asking {
        octets,
        count,
        wire,
    } = asking;
    if wire.idle() {
        Ok((octets, count))
    } else {
        Err(NoMemory)
    }
}

fn ask_all(asker: &Asker<'_>, asking: &mut Asking) -> Result<(), NoMemory>
    requires few { asker.now.puts ≤ 800 }
    requires session { asker.now.session < 100 }
    requires begun { HasAsked asker.now.users.now asker.now.session [] asking.old.octets asking.old.count asking.old.wire }
    ensures { OnOk result (HasAsked asker.now.users.now asker.now.session (spec.requests_of asker.now.puts asker.now.session) asking.new.octets asking.new.count asking.new.wire) }
{
    let mut draws = Draws::of_session(asker.puts, asker.session);
    'puts: for number in 0..asker.puts {
        let drawn = Drawn::next(&mut draws);
        ask_put(asker, number, drawn, asking)?;
        ask_after(asker, number, asking)?;
    }
    Ok(())
}

fn ask_put(
    asker: &Asker<'_>,
    number: u64,
    drawn: Drawn,
    asking: &mut Asking,
) -> Result<(), NoMemory>
    requires session { asker.now.session < 100 }
    requires bounds { (drawn.day < 365) × (drawn.hour < 24) × (drawn.minutes < 180) }
    requires drawn { IsDrawn asker.now.puts asker.now.session number drawn }
    ensures { OnOk result ((requests : List Request) → HasAsked asker.now.users.now asker.now.session requests asking.old.octets asking.old.count asking.old.wire → HasAsked asker.now.users.now asker.now.session (requests ++ spec.put_of asker.now.puts asker.now.session number ∷ []) asking.new.octets asking.new.count asking.new.wire) }
{
    let event = event_octets(asker.alloc, number, drawn)?;
    let name = object_name(asker.alloc, number)?;
    let octets = put_octets(
        asker.alloc,
        asker.signature,
        asker.session,
        number,
        event.as_slice(),
    )?;
    let meaning = Meaning::Put {
        name: name.as_bytes(),
        event: event.as_slice(),
    };
    ask(asker, octets.as_slice(), &meaning, asking)
}

/// Asks what comes behind a put.
fn ask_after(asker: &Asker<'_>, number: u64, asking: &mut Asking) -> Result<(), NoMemory>
    requires number { number < 800 }
    requires session { asker.now.session < 100 }
    ensures { OnOk result ((requests : List Request) → HasAsked asker.now.users.now asker.now.session requests asking.old.octets asking.old.count asking.old.wire → HasAsked asker.now.users.now asker.now.session (requests ++ spec.asked_after asker.now.session number) asking.new.octets asking.new.count asking.new.wire) }
{
    if (number + 1) % 10 == 0 {
        ask_busy_year(asker, asking)?;
        ask_events_of_march(asker, asking)
    } else {
        Ok(())
    }
}

fn ask_busy_year(asker: &Asker<'_>, asking: &mut Asking) -> Result<(), NoMemory>
    requires session { asker.now.session < 100 }
    ensures { OnOk result ((requests : List Request) → HasAsked asker.now.users.now asker.now.session requests asking.old.octets asking.old.count asking.old.wire → HasAsked asker.now.users.now asker.now.session (requests ++ busy_year asker.now.session ∷ []) asking.new.octets asking.new.count asking.new.wire) }
{
    let octets = report_octets(asker.alloc, asker.signature, asker.session, BUSY_YEAR)?;
    ask(asker, octets.as_slice(), &Meaning::BusyYear, asking)
}

fn ask_events_of_march(asker: &Asker<'_>, asking: &mut Asking) -> Result<(), NoMemory>
    requires session { asker.now.session < 100 }
    ensures { OnOk result ((requests : List Request) → HasAsked asker.now.users.now asker.now.session requests asking.old.octets asking.old.count asking.old.wire → HasAsked asker.now.users.now asker.now.session (requests ++ events_of_march asker.now.session ∷ []) asking.new.octets asking.new.count asking.new.wire) }
{
    let octets = report_octets(asker.alloc, asker.signature, asker.session, EVENTS_OF_MARCH)?;
    ask(asker, octets.as_slice(), &Meaning::EventsOfMarch, asking)
}

/// Adds the octets of one request, where they ask for what is meant.
fn ask(
    asker: &Asker<'_>,
    octets: &[u8],
    meaning: &Meaning<'_>,
    asking: &mut Asking,
) -> Result<(), NoMemory>
    requires session { asker.now.session < 100 }
    ensures { OnOk result ((requests : List Request) → HasAsked asker.now.users.now asker.now.session requests asking.old.octets asking.old.count asking.old.wire → HasAsked asker.now.users.now asker.now.session (requests ++ meant_by asker.now.session meaning.now ∷ []) asking.new.octets asking.new.count asking.new.wire) }
{
    asking.octets.extend_from_slice(octets)?;
    asking.wire.feed(asker.alloc, octets)?;
    let Some(count) = asking.count.checked_add(1) else {
        return Err(NoMemory);
    };
    asking.count = count;
    match asking.wire.next(asker.alloc) {
        Next::Request(wire) => if_asks(asker, &wire, meaning),
        _ => Err(NoMemory),
    }
}

/// Whether a request as it came is of the user who asks, asks for what is meant, and lets its
/// connection go on.
fn if_asks(asker: &Asker<'_>, wire: &WireRequest, meaning: &Meaning<'_>) -> Result<(), NoMemory>
    requires session { asker.now.session < 100 }
    ensures { OnOk result (Means asker.now.users.now asker.now.session (meant_by asker.now.session meaning.now) wire.now) }
{
    if is_plain(wire) && wire.body.len() <= BODY_LIMIT && asks(asker, wire, meaning) {
        Ok(())
    } else {
        Err(NoMemory)
    }
}

/// Whether a request as it came is read as the one that is meant, of the user who asks.
fn asks(asker: &Asker<'_>, wire: &WireRequest, meaning: &Meaning<'_>) -> bool
    requires session { asker.now.session < 100 }
    requires body { length wire.now.body ≤ body_limit }
    ensures { IsTrue result → asked_of asker.now.users.now wire.now ≡ asked asker.now.session (meant_by asker.now.session meaning.now) }
{
    let read = read_request(asker.alloc, wire, asker.users);
    let asks = is_asked(&read, asker.session, meaning);
    drop(read);
    asks
}

/// Whether what was read is the request that is meant, of the user of a session.
fn is_asked(read: &Asked, session: u32, meaning: &Meaning<'_>) -> bool
    requires session { session < 100 }
    ensures { IsTrue result → read.now ≡ Asked.Request session (meant_by session meaning.now) }
{
    match read {
        Asked::Request { who, request } => {
            *who == session && is_meant(request, &user_name(session), meaning)
        }
        _ => false,
    }
}
