//! Sessions over links in memory.
ghost use Rattle.std.specs.Prelude.{◌≡◌, ◌<◌, ◌≤◌, ◌^◌, false, length, Some, IfOk};

use crate::users::{ALICE, shared_users};
use cal_base::{Arc, FixedClock, List, MemoryLink, NoMemory, Octets};
use cal_book::Book;
use cal_session::{Ended, How, Service, serve_connection};
use privileges::Users;
use std::alloc::Global;
use std::sync::Wait;
use turn_lock::Pass;

/// 09:46:40 on 10 March 2025.
pub const MOMENT: i64 = 1_741_600_000;

/// As many octets as a link can give.
pub const ALL: u64 = 1 << 62;

/// What became of a session: its end, how many entries there are, how many replies were written, and how many
/// of them say that the connection closes.
#[derive(Drop)]
pub struct Run {
    pub ended: Ended,
    pub entries: u64,
    pub replies: usize,
    pub closes: usize,
}

/// The service of alice, its first pass and the users.
pub fn service(alloc: Global) -> Result<(Service, Pass<Book>, Arc<Users>), NoMemory>
    ensures { IfOk result (λ r. (r.1.lock ≡ r.0) × (r.1.holds_turn ≡ false) × (r.1.base ≡ Some r.2)) }
{
    let users = shared_users(alloc, ALICE)?;
    let (service, pass) = Service::start(alloc, Arc::try_clone(&users)?)?;
    Ok((service, pass, users))
}

/// A link that brings these octets, of which so many may be given. The call with that number fails.
pub fn link_of(
    alloc: Global,
    octets: &[u8],
    failing: Option<u64>,
    allowance: u64,
) -> Result<MemoryLink, NoMemory>
    requires { allowance ≤ 2 ^ 62 }
{
    let octets = Octets::of(alloc, octets)?;
    let mut numbers = List::new(alloc);
    if let Some(number) = failing {
        numbers.push(number)?;
    }
    Ok(MemoryLink::new(alloc, octets, numbers, allowance))
}

/// Serves a connection at a server without entries.
pub fn serve<R: Wait>(rt: &R, alloc: Global, link: &mut MemoryLink) -> Result<Run, NoMemory> {
    let (service, mut pass, users) = service(alloc)?;
    let mut clock = FixedClock::new(MOMENT);
    let ended = serve_connection(rt, alloc, &service, &mut pass, &users, link, &mut clock);
    Ok(Run {
        ended,
        entries: pass.seen_len(),
        replies: replies(link.written()),
        closes: count(link.written(), b"\r\nConnection: close\r\n"),
    })
}

/// How many times a text stands in some octets.
fn count(octets: &[u8], text: &[u8]) -> usize
    requires { 0 < length text.now }
{
    octets
        .windows(text.len())
        .filter(|window| *window == text)
        .count()
}

/// How many replies some octets have.
pub fn replies(octets: &[u8]) -> usize {
    count(octets, b"\r\nDate: ")
}

/// How a session ended, by a word.
pub fn word_of(how: How) -> &'static str {
    match how {
        How::Closed => "closed",
        How::CutInRequest => "cut",
        How::Limit => "limit",
        How::WireRefused(_) => "refused",
        How::ReadFault => "read fault",
        How::WriteFault => "write fault",
        How::NoMemory => "out of memory",
    }
}
