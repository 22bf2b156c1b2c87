//! The octets of replies (RFC 9112, 2.1 and 4).
ghost use Rattle.std.specs.Prelude.{◌≡◌, ◌<◌, ◌++◌, ◌==◌, ◌&&◌, Bool, IfOk, OnOk, codes, decimal, is_some, length, unsigned_abs};
ghost use Rattle.cal_base.specs.World.Outside.{IsMoment};
ghost use Rattle.cal_model.specs.Replies.DateField.{date_of_moment};
ghost use Rattle.cal_model.specs.Replies.ReplyOctets.{field, field_if, methods as methods_of, allow_field, etag_field, type_field, has_content as is_with_content, content_type, content, content_length, fields, reply_octets};
ghost use Rattle.cal_model.specs.Replies.Statuses.{reason, status_line};
ghost use Rattle.cal_model.specs.Words.TextLines.{ended};

use crate::reason::reason_phrase;
use cal_base::{NoMemory, Octets};
use cal_model::{Etag, Media, Path, Reply, date_value};
use itoa::Buffer;
use std::alloc::Global;

/// More octets than the head of any reply has: its status line and each field that it can have come
/// to fewer.
const HEAD_ROOM: usize = 512;

/// Puts a number in decimal digits at the end.
fn push_number(out: &mut Octets, number: usize) -> Result<(), NoMemory>
    ensures { OnOk result (out.new ≡ out.old ++ decimal number) }
{
    let mut digits = Buffer::new();
    out.extend_from_slice(digits.format(number).as_bytes())
}

/// Puts a field with its line end at the end.
fn push_field(out: &mut Octets, name: &[u8], value: &[u8]) -> Result<(), NoMemory>
    ensures { OnOk result (out.new ≡ out.old ++ field name.now value.now) }
{
    out.extend_from_slice(name)?;
    out.extend_from_slice(b": ")?;
    out.extend_from_slice(value)?;
    out.extend_from_slice(b"\r\n")
}

/// Puts a field at the end where it applies.
fn push_field_if(out: &mut Octets, applies: bool, name: &[u8], value: &[u8]) -> Result<(), NoMemory>
    ensures { OnOk result (out.new ≡ out.old ++ field_if applies name.now value.now) }
{
    if applies {
        push_field(out, name, value)?;
    }
    Ok(())
}

/// The methods of a resource, as the field Allow lists them (RFC 9110, 10.2.1).
fn methods(path: &Path) -> &'static [u8]
    ensures { result.now ≡ methods_of path.now }
{
    match path {
        Path::Root | Path::Principal(_) | Path::Home(_) => b"OPTIONS, PROPFIND",
        Path::Calendar(_, _) => b"OPTIONS, PROPFIND, PROPPATCH, REPORT, MKCALENDAR, ACL, DELETE",
        Path::Object(_, _, _) => b"OPTIONS, GET, HEAD, PUT, DELETE, PROPFIND",
    }
}

/// Puts the field Date at the end (RFC 9110, 6.6.1).
fn push_date(out: &mut Octets, moment: i64) -> Result<(), NoMemory>
    requires { IsMoment moment }
    ensures { OnOk result (out.new ≡ out.old ++ field (codes "Date") (date_of_moment (unsigned_abs moment))) }
{
    push_field(out, b"Date", &date_value(moment))?;
    Ok(())
}

/// Puts the field Allow at the end, where there is a path whose methods it lists.
fn push_allow(out: &mut Octets, allow: &Option<Path>) -> Result<(), NoMemory>
    ensures { OnOk result (out.new ≡ out.old ++ allow_field allow.now) }
{
    match allow {
        Some(path) => push_field(out, b"Allow", methods(path)),
        None => Ok(()),
    }
}

/// Puts the field ETag at the end, where there is a tag (RFC 9110, 8.8.3).
fn push_etag(out: &mut Octets, etag: &Option<Etag>) -> Result<(), NoMemory>
    ensures { OnOk result (out.new ≡ out.old ++ etag_field etag.now) }
{
    let Some(etag) = etag else {
        return Ok(());
    };
    out.extend_from_slice(b"ETag: \"")?;
    out.extend_from_slice(&etag.0)?;
    out.extend_from_slice(b"\"\r\n")
}

/// Puts the field Content-Type at the end, where the content has a type (RFC 9110, 8.3).
fn push_type(out: &mut Octets, media: Media) -> Result<(), NoMemory>
    ensures { OnOk result (out.new ≡ out.old ++ type_field media) }
{
    match media {
        Media::None => Ok(()),
        Media::Calendar => push_field(out, b"Content-Type", b"text/calendar; charset=utf-8"),
        Media::Xml => push_field(out, b"Content-Type", b"application/xml; charset=utf-8"),
    }
}

/// Whether a reply of this status has content: 204 and 304 have none.
fn has_content(status: u16) -> bool
    ensures { result ≡ is_with_content status }
{
    !(status == 204 || status == 304)
}

/// Puts the field Content-Type of a reply at the end, where it applies.
fn push_content_type(out: &mut Octets, reply: &Reply) -> Result<(), NoMemory>
    ensures { OnOk result (out.new ≡ out.old ++ content_type reply.now) }
{
    if has_content(reply.status) {
        push_type(out, reply.media)?;
    }
    Ok(())
}

/// Puts the field Content-Length of a reply at the end, where it applies.
fn push_content_length(out: &mut Octets, reply: &Reply) -> Result<(), NoMemory>
    ensures { OnOk result (out.new ≡ out.old ++ content_length reply.now) }
{
    if has_content(reply.status) {
        out.extend_from_slice(b"Content-Length: ")?;
        push_number(out, reply.body.len())?;
        out.extend_from_slice(b"\r\n")?;
    }
    Ok(())
}

/// Whether a reply says what the server can do: it answers OPTIONS (RFC 4918, 10.1).
fn describes_server(reply: &Reply) -> bool
    ensures { result ≡ ((reply.now.status == 200) && is_some reply.now.allow) }
{
    reply.status == 200 && reply.allow.is_some()
}

/// Puts the fields at the end that tell of the resource and of how it is reached.
fn push_resource_fields(out: &mut Octets, reply: &Reply) -> Result<(), NoMemory>
    ensures { OnOk result (out.new ≡ out.old ++ (allow_field reply.now.allow ++ (field_if ((reply.now.status == 200) && is_some reply.now.allow) (codes "DAV") (codes "1, access-control, calendar-access") ++ (field_if (reply.now.status == 401) (codes "WWW-Authenticate") (codes "Basic realm=\"caldav\"") ++ etag_field reply.now.etag)))) }
{
    push_allow(out, &reply.allow)?;
    push_field_if(
        out,
        describes_server(reply),
        b"DAV",
        b"1, access-control, calendar-access",
    )?;
    push_field_if(
        out,
        reply.status == 401,
        b"WWW-Authenticate",
        b"Basic realm=\"caldav\"",
    )?;
    push_etag(out, &reply.etag)?;
    Ok(())
}

/// Puts the fields at the end that tell how to read the content, and whether the connection closes.
fn push_content_fields(out: &mut Octets, reply: &Reply, close: bool) -> Result<(), NoMemory>
    ensures { OnOk result (out.new ≡ out.old ++ (content_type reply.now ++ (field_if close (codes "Connection") (codes "close") ++ content_length reply.now))) }
{
    push_content_type(out, reply)?;
    push_field_if(out, close, b"Connection", b"close")?;
    push_content_length(out, reply)?;
    Ok(())
}

/// Puts the fields of a reply at the end, in their order.
fn push_fields(out: &mut Octets, reply: &Reply, moment: i64, close: bool) -> Result<(), NoMemory>
    requires { IsMoment moment }
    ensures { OnOk result (out.new ≡ out.old ++ fields reply.now moment close) }
{
    push_date(out, moment)?;
    push_resource_fields(out, reply)?;
    push_content_fields(out, reply, close)?;
    Ok(())
}

/// Puts the status line at the end, with its line end.
fn push_status_line(out: &mut Octets, status: u16) -> Result<(), NoMemory>
    ensures { OnOk result (out.new ≡ out.old ++ ended (status_line status)) }
{
    out.extend_from_slice(b"HTTP/1.1 ")?;
    push_number(out, usize::from(status))?;
    out.extend_from_slice(b" ")?;
    out.extend_from_slice(reason_phrase(status))?;
    out.extend_from_slice(b"\r\n")
}

/// Puts the content of a reply at the end, if it has any and the request was not HEAD.
fn push_content(out: &mut Octets, reply: &Reply, head_only: bool) -> Result<(), NoMemory>
    ensures { OnOk result (out.new ≡ out.old ++ content reply.now head_only) }
{
    out.extend_from_slice(content_of(reply, head_only))
}

/// Puts what stands before the content of a reply at the end: the status line, the fields and an empty
/// line (RFC 9112, 2.1). It is the same for HEAD.
#[tactic(auto, unfolding(cal_model::specs::Replies::ReplyOctets::reply_octets))]
fn push_head(out: &mut Octets, reply: &Reply, moment: i64, close: bool) -> Result<(), NoMemory>
    requires moment { IsMoment moment }
    requires status { 0 < length (reason reply.now.status) }
    ensures { OnOk result ((head_only : Bool) → out.new ++ content reply.now head_only ≡ out.old ++ reply_octets reply.now moment close head_only) }
{
    push_status_line(out, reply.status)?;
    push_fields(out, reply, moment, close)?;
    out.extend_from_slice(b"\r\n")
}

/// The octets of a reply that is written at a moment, in seconds since 1970 (RFC 9112, 2.1). `close`
/// is whether the connection closes after it, `head_only` whether the request was HEAD (RFC 9110,
/// 9.3.2). The room is taken before anything is written.
pub fn write_response(
    alloc: Global,
    reply: &Reply,
    moment: i64,
    close: bool,
    head_only: bool,
) -> Result<Octets, NoMemory>
    requires moment { IsMoment moment }
    requires status { 0 < length (reason reply.now.status) }
    ensures { IfOk result (λ octets. octets ≡ reply_octets reply.now moment close head_only) }
{
    let mut out = Octets::new(alloc);
    out.reserve(room(reply, head_only))?;
    push_head(&mut out, reply, moment, close)?;
    push_content(&mut out, reply, head_only)?;
    Ok(out)
}

/// The octets of a reply before its content, which are the same for HEAD: with the content behind them
/// they are those of the reply.
pub(crate) fn write_head(
    alloc: Global,
    reply: &Reply,
    moment: i64,
    close: bool,
) -> Result<Octets, NoMemory>
    requires moment { IsMoment moment }
    requires status { 0 < length (reason reply.now.status) }
    ensures { IfOk result (λ head. (head_only : Bool) → head ++ content reply.now head_only ≡ reply_octets reply.now moment close head_only) }
{
    let mut out = Octets::new(alloc);
    out.reserve(HEAD_ROOM)?;
    push_head(&mut out, reply, moment, close)?;
    Ok(out)
}

/// The content of a reply, which it lacks where its status has none, and where the request was HEAD.
pub(crate) fn content_of(reply: &Reply, head_only: bool) -> &[u8]
    ensures { result.now ≡ content reply.now head_only }
{
    if has_content(reply.status) && !head_only {
        reply.body.as_slice()
    } else {
        b""
    }
}

/// Room enough for a reply: for the longest head, and for the content that is written.
fn room(reply: &Reply, head_only: bool) -> usize {
    HEAD_ROOM.saturating_add(content_of(reply, head_only).len())
}
