//! Where the reading of a stream stands, and how it goes on.
ghost use Rattle.std.specs.Prelude.{◌≡◌, ◌≤◌, length};
ghost use Rattle.http_wire.specs.HeadSearch.{Skipped, Looked};
ghost use Rattle.http_wire.specs.WireStates.{BegunReads, GoneReads};

use crate::body::{Progress, read_on};
use crate::cuts::{behind, front};
use crate::head::{HeadRead, read_head};
use crate::head_search::{Found, search_head};
use crate::limits::HEAD_LIMIT;
use crate::part::Part;
use cal_model::{WireFault, WireRequest};
use std::alloc::Global;

/// Where the reading stands.
#[derive(Drop)]
pub(crate) enum Stage {
    /// In front of a request.
    Head,
    /// In a body: its request, which has the octets that came, and what comes next.
    Body(WireRequest, Part),
    /// At a fault.
    Failed(WireFault),
}

/// How far a body was read.
#[derive(Drop)]
pub(crate) enum Gone {
    /// The request is whole, and so many octets are done with.
    Request(WireRequest, usize),
    /// So many octets are done with, and the others are not enough to go on.
    Need(Stage, usize),
    Fault(WireFault),
    /// So many octets are done with.
    NoMemory(Stage, usize),
}

/// How far a head was read.
#[derive(Drop)]
pub(crate) enum Begun {
    /// The head is read, and so many octets are done with.
    Body(WireRequest, Part, usize),
    /// No head ends: empty lines end there, and from there on the search goes on.
    Need(usize, usize),
    Fault(WireFault),
    NoMemory,
}

/// Reads a body as far as it is there.
pub(crate) fn go_on(request: WireRequest, part: Part, unread: &[u8]) -> Gone
    ensures { GoneReads result (Stage.Body request part) unread.now }
{
    let mut request = request;
    match read_on(part, &mut request.body, unread) {
        Progress::Whole(n) => Gone::Request(request, n),
        Progress::Need(next, n) => Gone::Need(Stage::Body(request, next), n),
        Progress::Fault(why) => Gone::Fault(why),
        Progress::NoMemory(next, n) => Gone::NoMemory(Stage::Body(request, next), n),
    }
}

/// Reads a head, if it is there.
pub(crate) fn begin(alloc: Global, unread: &[u8], begun: usize, from: usize) -> Begun
    requires order { begun ≤ from }
    requires within { from ≤ length unread.now }
    requires skipped { Skipped unread.now begun }
    requires looked { Looked unread.now begun from }
    ensures { BegunReads result unread.now }
{
    match search_head(unread, begun, from) {
        Found::Open { begun, from } => {
            if unread.len() >= HEAD_LIMIT {
                return Begun::Fault(WireFault::HeadTooLong);
            }
            Begun::Need(begun, from)
        }
        Found::Ends { begun, end } => {
            if end > HEAD_LIMIT {
                return Begun::Fault(WireFault::HeadTooLong);
            }
            match read_head(alloc, front(behind(unread, begun), end - begun)) {
                HeadRead::Head { request, part } => Begun::Body(request, part, end),
                HeadRead::Fault(why) => Begun::Fault(why),
                HeadRead::NoMemory => Begun::NoMemory,
            }
        }
    }
}
