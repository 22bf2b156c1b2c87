//! The reading of a stream.
ghost use Rattle.std.specs.Prelude.{◌≡◌, ◌≤◌, ◌+◌, ◌↔◌, IsTrue, drop, length};
ghost use Rattle.cal_model.specs.Streams.StreamRequests.{front, idle};
ghost use Rattle.http_wire.specs.HeadSearch.{Skipped, Looked};

use crate::cuts::behind;
use crate::limits::HEAD_LIMIT;
use crate::part::Part;
use crate::search::behind_empty_lines;
use crate::stage::{Begun, Gone, Stage, begin, go_on};
use cal_base::{NoMemory, Octets};
use cal_model::{WireFault, WireRequest};
use std::alloc::Global;
use std::mem;

/// What stands next on a stream.
#[derive(Drop)]
pub enum Next {
    /// A whole request. It is let go of: behind it the next one stands.
    Request(WireRequest),
    /// No whole request, and no fault: the stream is at its end, or more of it has to be fed.
    Need,
    /// No request: here the stream goes wrong, and nothing behind it is read. It comes as soon as what
    /// was fed shows it, and each later call gives it again.
    Fault(WireFault),
    /// Memory was wanting. Nothing is lost, and the call can be made again.
    NoMemory,
}

/// The reading of a stream: it is fed pieces and gives requests, whatever the pieces are.
#[derive(Drop)]
pub struct Wire {
    /// What was fed and is not let go yet.
    octets: Octets,
    /// In front of this place no octet is needed any more. The two others are counted from it.
    at: usize,
    /// In front of a request: where the empty lines end that were seen.
    begun: usize,
    /// From here the end of the head is looked for.
    from: usize,
    stage: Stage,
    ghost order: { begun ≤ from },
    ghost inside: { at + from ≤ length octets },
    ghost skipped: { Skipped (drop at octets) begun },
    ghost looked: { Looked (drop at octets) begun from },
}

impl Wire {
    ghost use Rattle.std.specs.Prelude.{ℕ, List, [], ◌++◌, OnOk, OnErr};
    ghost use Rattle.http_wire.specs.WireStates.{front_of};
    ghost use Rattle.http_wire.specs.Wires.{Leads, NextIs, Stands};

    /// The wire of a stream of which nothing came yet.
    pub fn new(alloc: Global) -> Wire
        ensures { Stands [] result }
    {
        Wire {
            octets: Octets::new(alloc),
            at: 0,
            begun: 0,
            from: 0,
            stage: Stage::Head,
        }
    }

    /// Takes the next piece of the stream. Without memory the wire stands where it stood.
    pub fn feed(&mut self, alloc: Global, piece: &[u8]) -> Result<(), NoMemory>
        ensures ok { OnOk result ((octets : List ℕ) → Stands octets self.old → Stands (octets ++ piece.now) self.new) }
        ensures err { OnErr result ((octets : List ℕ) → Stands octets self.old → Stands octets self.new) }
    {
        if let Stage::Failed(_) = self.stage {
            return Ok(());
        }
        self.let_go(alloc);
        self.octets.extend_from_slice(piece)
    }

    /// Lets go of the octets that are not needed any more.
    fn let_go(&mut self, alloc: Global)
        ensures octets { drop self.new.at self.new.octets ≡ drop self.old.at self.old.octets }
        ensures stage { self.new.stage ≡ self.old.stage }
    {
        if self.at == 0 {
            return;
        }
        let octets = mem::replace(&mut self.octets, Octets::new(alloc));
        self.octets = behind_front(octets, self.at);
        self.at = 0;
    }

    /// What stands next on the stream, by all that was fed.
    pub fn next(&mut self, alloc: Global) -> Next
        ensures { (octets : List ℕ) → Stands octets self.old → NextIs result octets self.new }
    {
        match mem::replace(&mut self.stage, Stage::Head) {
            Stage::Failed(why) => {
                self.stage = Stage::Failed(why);
                Next::Fault(why)
            }
            Stage::Body(request, part) => self.read_body(request, part),
            Stage::Head => {
                let unread = behind(self.octets.as_slice(), self.at);
                match begin(alloc, unread, self.begun, self.from) {
                    Begun::Need(begun, from) => {
                        self.begun = begun;
                        self.from = from;
                        Next::Need
                    }
                    Begun::Fault(why) => {
                        self.stage = Stage::Failed(why);
                        Next::Fault(why)
                    }
                    Begun::NoMemory => Next::NoMemory,
                    Begun::Body(request, part, n) => {
                        self.go_behind(n);
                        self.read_body(request, part)
                    }
                }
            }
        }
    }

    /// Reads of a body what is there.
    fn read_body(&mut self, request: WireRequest, part: Part) -> Next
        requires { self.old.stage ≡ Stage.Head }
        ensures { Leads result (λ more. front_of (Stage.Body request part) (drop self.old.at self.old.octets ++ more)) self.new }
    {
        match go_on(request, part, behind(self.octets.as_slice(), self.at)) {
            Gone::Request(request, n) => {
                self.go_behind(n);
                Next::Request(request)
            }
            Gone::Need(stage, n) => {
                self.go_behind(n);
                self.stage = stage;
                Next::Need
            }
            Gone::Fault(why) => {
                self.stage = Stage::Failed(why);
                Next::Fault(why)
            }
            Gone::NoMemory(stage, n) => {
                self.go_behind(n);
                self.stage = stage;
                Next::NoMemory
            }
        }
    }

    /// Whether nothing but empty lines stands behind the last request, fewer than 16,384 octets in
    /// all: a stream that ends there lacks nothing.
    pub fn idle(&self) -> bool
        ensures { (octets : List ℕ) → Stands octets self.now → (IsTrue result ↔ (front octets ≡ idle)) }
    {
        match &self.stage {
            Stage::Head => is_idle(behind(self.octets.as_slice(), self.at), self.begun),
            _ => false,
        }
    }

    /// Goes behind so many octets.
    fn go_behind(&mut self, n: usize)
        requires { self.old.at + n ≤ length self.old.octets }
        ensures at { self.new.at ≡ self.old.at + n }
        ensures octets { self.new.octets ≡ self.old.octets }
        ensures stage { self.new.stage ≡ self.old.stage }
    {
        let end = self.octets.len();
        self.at = end - (end - self.at - n);
        self.begun = 0;
        self.from = 0;
    }
}

/// What is kept without so many octets in front.
fn behind_front(kept: Octets, len: usize) -> Octets
    requires { len ≤ length kept }
    ensures { result ≡ drop len kept }
{
    let mut items = kept.into_vec();
    let rest = items.len() - len;
    items.copy_within(len.., 0);
    items.truncate(rest);
    Octets::from_vec(items)
}

/// Whether nothing but empty lines, fewer octets than a head may have, stands there.
fn is_idle(unread: &[u8], begun: usize) -> bool
    requires within { begun ≤ length unread.now }
    requires skipped { Skipped unread.now begun }
    ensures { IsTrue result ↔ (front unread.now ≡ idle) }
{
    if unread.len() >= HEAD_LIMIT {
        return false;
    }
    behind_empty_lines(behind(unread, begun)).is_empty()
}
