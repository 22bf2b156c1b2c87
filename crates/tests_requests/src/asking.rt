//! Requests as they come, and what is said of what they ask for.

use cal_base::{NoMemory, Octets};
use cal_model::{Cond, Content, Refusal, WireRequest};
use dav_request::{Asked, read_request};
use privileges::Users;
use std::alloc::Global;

/// Alice, whose password is `abc`, and bob, whose password is empty: the digests are by the program
/// sha256sum.
pub const USERS: &[u8] =
    b"user alice ba7816bf8f01cfea414140de5dae2223b00361a396177a9cb410ff61f20015ad\nuser bob e3b0c44298fc1c149afbf4c8996fb92427ae41e4649b934ca495991b7852b855\n";

/// `alice:abc` in base64, by the program base64.
const ALICE: &[u8] = b"Basic YWxpY2U6YWJj";

/// The most octets of a body.
const MOST_OCTETS: usize = 1_048_576;

/// What is told of a request: a word and a number.
pub type Told = (&'static [u8], usize);

/// What a request has beside its line and its credentials.
pub enum Field {
    None,
    Authorization,
    Media,
    Coding,
    Depth,
    IfMatch,
    IfNoneMatch,
    /// A body, and the depth 0.
    Body,
}

/// The method and the target of a request of alice, a field and its value, and what is told of it.
pub type Row = (&'static [u8], &'static [u8], Field, &'static [u8], Told);

/// A request of alice without a body, with the depth 0 or with no other field.
fn plain(
    alloc: Global,
    method: &[u8],
    target: &[u8],
    has_depth: bool,
) -> Result<WireRequest, NoMemory> {
    let depth = if has_depth {
        Some(Octets::of(alloc, b"0")?)
    } else {
        None
    };
    let method = Octets::of(alloc, method)?;
    let target = Octets::of(alloc, target)?;
    let authorization = Octets::of(alloc, ALICE)?;
    Ok(WireRequest {
        method,
        target,
        close: false,
        authorization: Some(authorization),
        media: None,
        coding: None,
        depth,
        if_match: None,
        if_none: None,
        body: Octets::new(alloc),
    })
}

/// Gives a request a field or a body of this value.
fn set(wire: &mut WireRequest, field: &Field, value: Octets) {
    match field {
        Field::None => {}
        Field::Authorization => wire.authorization = Some(value),
        Field::Media => wire.media = Some(value),
        Field::Coding => wire.coding = Some(value),
        Field::Depth => wire.depth = Some(value),
        Field::IfMatch => wire.if_match = Some(value),
        Field::IfNoneMatch => wire.if_none = Some(value),
        Field::Body => wire.body = value,
    }
}

/// What a request of some length asks for.
fn ask(alloc: Global, wire: &WireRequest, users: &Users) -> Asked {
    if wire.body.len() > MOST_OCTETS {
        Asked::NoMemory
    } else {
        read_request(alloc, wire, users)
    }
}

/// Whether this is told of what is asked for.
fn is_that(asked: &Asked, wanted: Told) -> bool {
    let found = told(asked);
    found.0 == wanted.0 && found.1 == wanted.1
}

/// Whether this is told of a request.
fn is_told_of(alloc: Global, users: &Users, wire: &WireRequest, wanted: Told) -> bool {
    let asked = ask(alloc, wire, users);
    is_that(&asked, wanted)
}

/// Whether that of a row is told of its request.
pub fn is_told(alloc: Global, users: &Users, row: &Row) -> Result<bool, NoMemory> {
    let value = Octets::of(alloc, row.3)?;
    let mut wire = plain(alloc, row.0, row.1, matches!(row.2, Field::Body))?;
    set(&mut wire, &row.2, value);
    Ok(is_told_of(alloc, users, &wire, row.4))
}

/// What is asked for, in a word, and a number beside it: a status, how many, or 1 for yes. (`odd` is
/// a PUT whose media type is no calendar's.)
fn told(asked: &Asked) -> (&[u8], usize) {
    match asked {
        Asked::Request { request, .. } => told_content(&request.content),
        Asked::Refused(reply) => (b"refused", reply.status as usize),
        Asked::NoMemory => (b"no memory", 0),
    }
}

fn told_content(content: &Content) -> (&[u8], usize) {
    match content {
        Content::None => (b"nothing", 0),
        Content::Put { media_ok, octets } => {
            let word: &[u8] = if *media_ok { b"put" } else { b"odd" };
            (word, octets.len())
        }
        Content::Find(_, deep) => (b"find", *deep as usize),
        Content::Patch(settings) => (b"patch", settings.len()),
        Content::Make(settings) => (b"make", settings.len()),
        Content::Acl(grants) => (b"acl", grants.len()),
        Content::Report(_) => (b"report", 0),
        Content::Bad(refusal) => told_refusal(refusal),
    }
}

/// The condition as it is written, or `bad`.
fn told_refusal(refusal: &Refusal) -> (&[u8], usize) {
    let status = refusal.status as usize;
    match &refusal.cond {
        Cond::None => (b"bad", status),
        Cond::Dav(condition) | Cond::Cal(condition) => (condition.as_slice(), status),
    }
}
