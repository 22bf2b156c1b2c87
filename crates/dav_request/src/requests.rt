//! Reading a request.
ghost use Rattle.std.specs.Prelude.{◌≡◌, ◌≤◌, ◌&&◌, length, is_some, is_none, Some, IfOk};
ghost use Rattle.cal_model.specs.Requests.AskedRequests as spec;
ghost use Rattle.cal_model.specs.Replies.BareReplies.{bare_reply};
ghost use Rattle.cal_model.specs.Streams.WireLimits.{body_limit};
ghost use Rattle.dav_request.specs.ReadRequests.{Says, IsAsked, IsBookableIfAsked, FitsIfAsked};

use crate::conditions::read_content;
use crate::credentials::user_of;
use crate::methods::{has_method, method_of};
use crate::tags::read_tags;
use cal_base::{NoMemory, Octets};
use cal_model::{Media, Method, Path, Reply, Request, Tags, WireRequest};
use dav_write::read_path;
use privileges::Users;
use std::alloc::Global;

/// What a request on the wire asks for.
#[derive(Drop)]
pub enum Asked {
    /// A request of the user of this number. A fault of its fields or its body stands in its content.
    Request { who: u32, request: Request },
    /// The reply that refuses it before anything stored is looked at: 401, 501, 404 or 405.
    Refused(Reply),
    /// There was no memory to read it.
    NoMemory,
}

/// What a request on the wire asks for, and who asks: 401 where its credentials are those of no user,
/// then 501 for a method that is not known, then 404 where its target names no path, then 405 where
/// the path's shape does not have the method; else the user and the request, whose content is the
/// first refusal of its fields and its body where they have one.
///
/// A request that is given can be handed to the book: its content is that of its method, and what it
/// lists is bounded by the body's size.
///
/// The time is in proportion to the request's octets.
pub fn read_request(alloc: Global, wire: &WireRequest, users: &Users) -> Asked
    requires { length wire.now.body ≤ body_limit }
    ensures asked { IsAsked users.now wire.now result }
    ensures bookable { IsBookableIfAsked users.now result }
    ensures fits { FitsIfAsked wire.now result }
{
    match read(alloc, wire, users) {
        Ok(asked) => asked,
        Err(NoMemory) => Asked::NoMemory,
    }
}

fn read(alloc: Global, wire: &WireRequest, users: &Users) -> Result<Asked, NoMemory>
    requires { length wire.now.body ≤ body_limit }
    ensures { IfOk result (IsAsked users.now wire.now) }
{
    match user_of(alloc, users, &wire.authorization)? {
        Some(who) => read_of_user(alloc, wire, users, who),
        None => Ok(refused(alloc, 401)),
    }
}

fn read_of_user(
    alloc: Global,
    wire: &WireRequest,
    users: &Users,
    who: u32,
) -> Result<Asked, NoMemory>
    requires { length wire.now.body ≤ body_limit }
    ensures { IfOk result (Says (spec.asked_with users.now wire.now who)) }
{
    match method_of(wire.method.as_slice()) {
        Some(method) => read_with_method(alloc, wire, users, who, method),
        None => Ok(refused(alloc, 501)),
    }
}

fn read_with_method(
    alloc: Global,
    wire: &WireRequest,
    users: &Users,
    who: u32,
    method: Method,
) -> Result<Asked, NoMemory>
    requires { length wire.now.body ≤ body_limit }
    ensures { IfOk result (Says (spec.asked_by users.now wire.now who method)) }
{
    match read_path(alloc, wire.target.as_slice())? {
        Some(path) => {
            if has_method(&path, method) {
                let request = read_at(alloc, wire, users, method, path)?;
                Ok(Asked::Request { who, request })
            } else {
                Ok(not_allowed(alloc, path))
            }
        }
        None => Ok(refused(alloc, 404)),
    }
}

/// The request of a method at a path.
fn read_at(
    alloc: Global,
    wire: &WireRequest,
    users: &Users,
    method: Method,
    path: Path,
) -> Result<Request, NoMemory>
    requires { length wire.now.body ≤ body_limit }
    ensures { IfOk result (λ request. request ≡ spec.request_at users.now wire.now method path) }
{
    let if_match = read_tags(alloc, &wire.if_match)?;
    let if_none = read_tags(alloc, &wire.if_none)?;
    let malformed = is_malformed(&wire.if_match, &if_match)
        || is_malformed(&wire.if_none, &if_none);
    let content = read_content(alloc, users, wire, method, malformed)?;
    Ok(Request {
        method,
        path,
        if_match,
        if_none,
        size: wire.body.len() as u32,
        content,
    })
}

/// Whether a field is there of which no tags were read.
fn is_malformed(field: &Option<Octets>, tags: &Option<Tags>) -> bool
    ensures { result ≡ (is_some field.now && is_none tags.now) }
{
    field.is_some() && tags.is_none()
}

/// The refusal by a status alone.
fn refused(alloc: Global, status: u16) -> Asked
    ensures { result ≡ Asked.Refused (bare_reply status) }
{
    Asked::Refused(status_reply(alloc, status, None))
}

/// The refusal of a method that the path does not have.
fn not_allowed(alloc: Global, path: Path) -> Asked
    ensures { result ≡ Asked.Refused (spec.not_allowed path) }
{
    Asked::Refused(status_reply(alloc, 405, Some(path)))
}

fn status_reply(alloc: Global, status: u16, allow: Option<Path>) -> Reply
    ensures { result ≡ record (bare_reply status) { allow = allow } }
{
    Reply {
        status,
        etag: None,
        allow,
        media: Media::None,
        body: Octets::new(alloc),
    }
}
