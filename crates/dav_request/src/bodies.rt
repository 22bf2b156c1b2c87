//! What the methods take from a body.
ghost use Rattle.std.specs.Prelude.{◌≡◌, [], true, IfOk};
ghost use Rattle.cal_model.specs.Requests.AskedRequests as spec;
ghost use Rattle.dav_request.specs.RootContents.{root_content, absent_content, takes_xml};

use crate::media::{can_be_calendar, can_be_xml};
use cal_base::{Element, List, NoMemory, Octets};
use cal_model::{Content, Method, Props, WireRequest};
use dav_body::{BodyFault, read_body};
use dav_elements::{
    bad_request, read_acl, read_find, read_make, read_patch, read_report, unsupported_media,
};
use privileges::Users;
use std::alloc::Global;

/// What a method takes from the body of a request, or the first refusal of the body.
pub(crate) fn body_content(
    alloc: Global,
    users: &Users,
    wire: &WireRequest,
    method: Method,
) -> Result<Content, NoMemory>
    ensures { IfOk result (λ content. content ≡ spec.body_content users.now wire.now method) }
{
    match method {
        Method::Options | Method::Get | Method::Head | Method::Delete => Ok(Content::None),
        Method::Put => put_content(alloc, wire),
        Method::Propfind | Method::Proppatch | Method::Report | Method::Mkcalendar | Method::Acl =>
            xml_content(alloc, users, wire, method),
    }
}

/// The octets of a PUT.
fn put_content(alloc: Global, wire: &WireRequest) -> Result<Content, NoMemory>
    ensures { IfOk result (λ content. content ≡ spec.body_content (record { people = []; groups = [] }) wire.now Method.Put) }
{
    let octets = Octets::of(alloc, wire.body.as_slice())?;
    Ok(Content::Put {
        media_ok: can_be_calendar(&wire.media),
        octets,
    })
}

/// What a method whose body is XML takes from it.
fn xml_content(
    alloc: Global,
    users: &Users,
    wire: &WireRequest,
    method: Method,
) -> Result<Content, NoMemory>
    requires { takes_xml method ≡ true }
    ensures { IfOk result (λ content. content ≡ spec.body_content users.now wire.now method) }
{
    if !can_be_xml(&wire.media) {
        return Ok(unsupported_media());
    }
    let deep = is_deep(wire);
    if wire.body.is_empty() {
        return Ok(absent_content(alloc, method, deep));
    }
    match read_body(alloc, wire.body.as_slice()) {
        Ok(root) => root_content(alloc, users, method, deep, &root),
        Err(BodyFault::At { .. }) => Ok(bad_request()),
        Err(BodyFault::NoMemory) => Err(NoMemory),
    }
}

/// What a method takes from no body.
fn absent_content(alloc: Global, method: Method, deep: bool) -> Content
    ensures { result ≡ absent_content method deep }
{
    match method {
        Method::Propfind => Content::Find(Props::All, deep),
        Method::Mkcalendar => Content::Make(List::new(alloc)),
        Method::Options
        | Method::Get
        | Method::Head
        | Method::Put
        | Method::Delete
        | Method::Proppatch
        | Method::Report
        | Method::Acl => bad_request(),
    }
}

/// What a method takes from the root of its body.
fn root_content(
    alloc: Global,
    users: &Users,
    method: Method,
    deep: bool,
    root: &Element,
) -> Result<Content, NoMemory>
    ensures { IfOk result (λ content. content ≡ root_content users.now method deep root.now) }
{
    match method {
        Method::Propfind => read_find(alloc, deep, root),
        Method::Proppatch => read_patch(alloc, root),
        Method::Report => read_report(alloc, root),
        Method::Mkcalendar => read_make(alloc, root),
        Method::Acl => read_acl(alloc, users, root),
        Method::Options | Method::Get | Method::Head | Method::Put | Method::Delete => {
            Ok(bad_request())
        }
    }
}

/// Whether Depth is 1 (RFC 4918, 10.2).
fn is_deep(wire: &WireRequest) -> bool
    ensures { result ≡ spec.is_deep wire.now }
{
    match &wire.depth {
        Some(value) => value.as_slice() == b"1".as_slice(),
        None => false,
    }
}
