//! What fields refuse once the content stands: the content's own refusal comes first.
ghost use Rattle.std.specs.Prelude.{◌≡◌, ◌||◌, if◌then◌else◌, Some, IfOk};
ghost use Rattle.cal_model.specs.declared.request.Content.TheVariants.{Bad};
ghost use Rattle.cal_model.specs.Bodies.Refusals.{bad_request as refused_as_bad};
ghost use Rattle.cal_model.specs.Requests.AskedRequests as spec;
ghost use Rattle.cal_model.specs.declared.request.Content.{Content};
ghost use Rattle.dav_request.specs.DepthWords.{at_depth_word};

use crate::bodies::body_content;
use crate::media::is_plain_coding;
use cal_base::{NoMemory, Octets};
use cal_model::{Content, Method, WireRequest};
use dav_elements::{bad_request, dav_refusal, unsupported_media};
use privileges::Users;
use std::alloc::Global;

/// What a request carries, or the first refusal of its coding, its media type, its body, its tags and
/// its Depth. Whether a field of tags is malformed is given.
pub(crate) fn read_content(
    alloc: Global,
    users: &Users,
    wire: &WireRequest,
    method: Method,
    malformed: bool,
) -> Result<Content, NoMemory>
    requires { malformed ≡ (spec.is_malformed wire.now.if_match || spec.is_malformed wire.now.if_none) }
    ensures { IfOk result (λ content. content ≡ spec.content_of users.now wire.now method) }
{
    if !is_plain_coding(&wire.coding) {
        return Ok(unsupported_media());
    }
    let content = body_content(alloc, users, wire, method)?;
    let content = with_tags(malformed, content);
    with_depth(alloc, wire, method, content)
}

/// A content beside fields of tags, which are malformed or not.
fn with_tags(malformed: bool, content: Content) -> Content
    ensures { result ≡ (if malformed then spec.unless_bad content (Bad refused_as_bad) else content) }
{
    if malformed {
        unless_bad(content)
    } else {
        content
    }
}

/// A content that is refused, or 400.
fn unless_bad(content: Content) -> Content
    ensures { result ≡ spec.unless_bad content (Bad refused_as_bad) }
{
    match content {
        Content::Bad(refusal) => Content::Bad(refusal),
        sound => {
            drop(sound);
            bad_request()
        }
    }
}

fn with_depth(
    alloc: Global,
    wire: &WireRequest,
    method: Method,
    content: Content,
) -> Result<Content, NoMemory>
    ensures { IfOk result (λ after. after ≡ spec.with_depth wire.now method content) }
{
    match method {
        Method::Propfind => with_finite_depth(alloc, &wire.depth, content),
        _ => Ok(content),
    }
}

/// A content that is refused, or what the depth of a PROPFIND makes of it.
fn with_finite_depth(
    alloc: Global,
    depth: &Option<Octets>,
    content: Content,
) -> Result<Content, NoMemory>
    ensures { IfOk result (λ after. after ≡ spec.unless_bad content (spec.depth_refusal depth.now content)) }
{
    match content {
        Content::Bad(refusal) => Ok(Content::Bad(refusal)),
        sound => at_depth(alloc, depth, sound),
    }
}

/// The content of a PROPFIND that states a finite depth (RFC 4918, 9.1 and 9.1.1).
fn at_depth(alloc: Global, depth: &Option<Octets>, content: Content) -> Result<Content, NoMemory>
    ensures { IfOk result (λ after. after ≡ spec.depth_refusal depth.now content) }
{
    match said_depth(depth) {
        DepthWord::Finite => Ok(content),
        DepthWord::Infinite => {
            drop(content);
            dav_refusal(alloc, b"<D:propfind-finite-depth/>")
        }
        DepthWord::Other => {
            drop(content);
            Ok(bad_request())
        }
    }
}

/// What a Depth says.
#[derive(Clone, Copy)]
enum DepthWord {
    Finite,
    Infinite,
    Other,
}

fn said_depth(depth: &Option<Octets>) -> DepthWord
    ensures { (content : Content) → spec.depth_refusal depth.now content ≡ at_depth_word result content }
{
    match depth {
        Some(value) => depth_word(value.as_slice()),
        None => DepthWord::Infinite,
    }
}

/// What a value of Depth says (RFC 4918, 10.2).
fn depth_word(value: &[u8]) -> DepthWord
    ensures { (content : Content) → spec.depth_refusal (Some value.now) content ≡ at_depth_word result content }
{
    if value == b"0".as_slice() {
        DepthWord::Finite
    } else if value == b"1".as_slice() {
        DepthWord::Finite
    } else if value == b"infinity".as_slice() {
        DepthWord::Infinite
    } else {
        DepthWord::Other
    }
}
