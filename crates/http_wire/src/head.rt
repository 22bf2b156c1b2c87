//! The head of a request (RFC 9112, 3 and 5).
ghost use Rattle.std.specs.Prelude.{◌≡◌, ◌≤◌, ◌+◌, ◌==◌, ◌&&◌, nat_eq, codes, count_by, length, slice_index, is_some, IfSome, IsNone};
ghost use Rattle.std.specs.List.{starts_with};
ghost use Rattle.std.specs.Char.{is_ascii_digit};
ghost use Rattle.httparse.specs.Spans.{IsRequestWithin};
ghost use Rattle.cal_base.specs.Lines.ContentLines.{without_return};
ghost use Rattle.cal_model.specs.Streams.Heads.{version_of, without_empty_lines};
ghost use Rattle.cal_model.specs.Streams.HeadFields.{first_line, names_other_version};
ghost use Rattle.cal_model.specs.Streams.WireLimits.{head_limit};
ghost use Rattle.http_wire.specs.HeadReading.{BlockReads, HeadReads, IsHeadAt, IsNoHead};

use crate::cuts::{before_last, behind};
use crate::fields::{Fields, collect};
use crate::framing::framing;
use crate::part::Part;
use crate::request::{Line, request_of};
use cal_base::NoMemory;
use cal_model::{WireFault, WireRequest, text_before};
use httparse::Status;
use httparse::spans::{EMPTY_HEADER_SPAN, HeaderSpan, RequestSpans, parse_request};
use std::alloc::Global;

/// The most line feeds of a head: those of 100 field lines, of the request line and of the empty line.
const FEED_LIMIT: usize = 102;

/// What a block is.
#[derive(Drop)]
pub(crate) enum HeadRead {
    /// A head: its request, with no body, and how the body stands behind it.
    Head { request: WireRequest, part: Part },
    Fault(WireFault),
    NoMemory,
}

/// Reads a block, which ends in its empty line and begins with none.
pub(crate) fn read_head(alloc: Global, block: &[u8]) -> HeadRead
    requires begins { without_empty_lines block.now ≡ block.now }
    requires short { length block.now ≤ head_limit }
    ensures { HeadReads result block.now }
{
    if line_feeds(block) > FEED_LIMIT {
        return HeadRead::Fault(WireFault::HeadTooLong);
    }
    if names_other_version(first_line(block)) {
        return HeadRead::Fault(WireFault::Version);
    }
    let mut headers = [EMPTY_HEADER_SPAN; 100];
    let Some(spans) = parse_block(block, &mut headers) else {
        return HeadRead::Fault(WireFault::BadHead);
    };
    let Ok(fields) = collect(alloc, block, &headers[..spans.headers]) else {
        return HeadRead::NoMemory;
    };
    let line = Line {
        method: spans.method.of(block),
        target: spans.path.of(block),
        minor: spans.version,
    };
    read_fields(alloc, line, &fields)
}

/// Where the parts of a head are, if the whole block is one.
fn parse_block(block: &[u8], headers: &mut [HeaderSpan]) -> Option<RequestSpans>
    requires { count_by (λ octet. octet == 10) block.now ≤ length headers.old + 2 }
    ensures head { IfSome result (IsHeadAt block.now headers.new) }
    ensures within { IfSome result (IsRequestWithin block.now headers.new) }
    ensures whole { IfSome result (λ spans. spans.len ≡ length block.now) }
    ensures none { IsNone result → IsNoHead block.now }
{
    match parse_request(block, headers) {
        Ok(Status::Complete(spans)) if spans.len == block.len() => Some(spans),
        _ => None,
    }
}

/// Reads the head whose request line and fields these are.
fn read_fields(alloc: Global, line: Line<'_>, fields: &Fields) -> HeadRead
    ensures { BlockReads result line.entry fields.now }
{
    let part = match framing(fields) {
        Ok(part) => part,
        Err(why) => return HeadRead::Fault(why),
    };
    match request_of(alloc, line, fields) {
        Ok(request) => HeadRead::Head { request, part },
        Err(NoMemory) => HeadRead::NoMemory,
    }
}

fn line_feeds(block: &[u8]) -> usize
    ensures { result ≡ count_by (λ octet. octet == 10) block.now }
{
    block.iter().filter(|octet| **octet == b'\n').count()
}

/// The request line, without its end.
fn first_line(block: &[u8]) -> &[u8]
    ensures { result.now ≡ first_line block.now }
{
    before_return(text_before(block, b'\n'))
}

/// A line without the CR at its end.
fn before_return(line: &[u8]) -> &[u8]
    ensures { result.now ≡ without_return line.now }
{
    match before_last(line, b'\r') {
        Some(text) => text,
        None => line,
    }
}

/// Whether a request line ends in another version of HTTP than 1.0 and 1.1 (RFC 9112, 2.3).
fn names_other_version(line: &[u8]) -> bool
    ensures { result ≡ names_other_version line.now }
{
    let word = behind(line, line.len().saturating_sub(8));
    names_version(word) && !is_known(word)
}

/// Whether a word is `HTTP/`, a digit, `.` and a digit, and perhaps more.
fn names_version(word: &[u8]) -> bool
    ensures { result ≡ (starts_with nat_eq word.now (codes "HTTP/") && is_ascii_digit (slice_index word.now 5) && (slice_index word.now 6 == 46) && is_ascii_digit (slice_index word.now 7)) }
{
    word.starts_with(b"HTTP/")
        && octet_at(word, 5).is_ascii_digit()
        && octet_at(word, 6) == b'.'
        && octet_at(word, 7).is_ascii_digit()
}

/// The octet at a place, or 0 behind the end.
fn octet_at(word: &[u8], place: usize) -> u8
    ensures { result ≡ slice_index word.now place }
{
    match word.get(place) {
        Some(octet) => *octet,
        None => 0,
    }
}

/// Whether a version is one of the two that are served.
fn is_known(version: &[u8]) -> bool
    ensures { result ≡ is_some (version_of version.now) }
{
    version == b"HTTP/1.0".as_slice() || version == b"HTTP/1.1".as_slice()
}
