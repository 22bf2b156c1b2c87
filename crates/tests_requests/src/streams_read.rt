//! Streams in several cuttings, and replies, octet for octet.
ghost use Rattle.std.specs.Prelude.{◌<◌, length, IsTrue};
ghost use Rattle.cal_model.specs.Replies.Statuses.{reason};

use crate::wanted::{Wanted, is_text};
use cal_base::{NoMemory, Octets};
use cal_model::{Etag, Media, Path, Reply};
use http_wire::{Next, Wire, WireFault, WireRequest, write_response};
use std::alloc::Global;

/// A stream, and what it gives: each request with its method, its target, whether it asks to close, its
/// Authorization, Content-Type, Content-Encoding, Depth, If-Match, If-None-Match and its body; and how
/// the stream ends.
type Row = (&'static [u8], &'static [u8]);

const HEADS: &[Row] = &[
    (b"\r\n\n\r\n", b"idle"),
    (b"\n\r", b"cut"),
    (
        b"\r\nGET / HTTP/1.1\n\n\nGET /",
        b"GET / 0 - - - - - - <>\ncut",
    ),
    (b"\rGET / HTTP/1.1\n\n", b"BadHead"),
    (b"GET / HTTP/2.0\nbad\n\n", b"Version"),
    (b"GET / HTTP/1.10\n\n", b"BadHead"),
    (b"GET / HTTP/1.1\na : b\n\n", b"BadHead"),
    (b"GET / HTTP/1.1\nDepth:0\ndepth:0\n\n", b"BadHead"),
    (
        b"G / HTTP/1.1\nConnection: a ,\tclose\n\n",
        b"G / 1 - - - - - - <>\nidle",
    ),
    (
        b"G / HTTP/1.1\nConnection: closed\n\n",
        b"G / 0 - - - - - - <>\nidle",
    ),
    (
        b"G / HTTP/1.1\nIf-Match: a\nIf-Match:b\n\n",
        b"G / 0 - - - - <a, b> - <>\nidle",
    ),
    (
        b"G / HTTP/1.0\n\nx\n\nG / HTTP/1.0\n\n",
        b"G / 1 - - - - - - <>\nBadHead",
    ),
];

const LENGTHS: &[Row] = &[
    (
        b"P / HTTP/1.1\nContent-Length: 3\n\nabcd",
        b"P / 0 - - - - - - <abc>\ncut",
    ),
    (b"P / HTTP/1.1\nContent-Length: 3\n\nab", b"cut"),
    (b"P / HTTP/1.1\nContent-Length: +1\n\na", b"BadHead"),
    (b"P / HTTP/1.1\nContent-Length: 1048577\n\n", b"BodyTooLong"),
];

/// What stands behind the head of a body in chunks, and what it gives.
const CHUNKS: &[Row] = &[
    (
        b"5;x\r\nhello\r\n0\r\nT: 1\r\n\r\n\r\n",
        b"P / 0 - - - - - - <hello>\nidle",
    ),
    (
        b"3\r\n0\r\n\r\n00\r\n\r\nGE",
        b"P / 0 - - - - - - <0\r\n>\ncut",
    ),
    (b"2\r\na", b"cut"),
    (b"0\r\nabc\r\n", b"cut"),
    (b"5 \r\nhello\r\n0\r\n\r\n", b"BadChunk"),
    (b"5\nhello\r\n0\r\n\r\n", b"BadChunk"),
    (b"000000000", b"BadChunk"),
    (b"1\r\nAB", b"BadChunk"),
    (b"1\r\nA0\r\n\r\n", b"BadChunk"),
    (b"FFFFFFFF\r", b"cut"),
    (b"100001\r\n", b"BodyTooLong"),
    (b"1\r\nA\r\n100000\r\n", b"BodyTooLong"),
];

/// A head as ordinary clients send it.
const CLIENT: &[Row] = &[(
    b"PROPFIND http://h/calendars/alice/ HTTP/1.1\r\nHost: h\r\nUser-Agent: Mozilla/5.0 (X11; Linux x86_64; rv:128.0) Gecko/20100101 Thunderbird/128.6.0\r\nAccept: text/xml\r\nAccept-Language: en-US,en;q=0.5\r\nAccept-Encoding: gzip, deflate, br\r\nAccept-Charset: utf-8,*;q=0.1\r\nCookie: sid=\"a=b\"; theme=dark\r\nExpect: 100-continue\r\nDepth: 0\r\nAuthorization: Basic YWxpY2U6YWJj\r\nContent-Type: text/xml; charset=utf-8\r\nContent-Length: 4\r\nConnection: keep-alive\r\n\r\n<a/>",
    b"PROPFIND http://h/calendars/alice/ 0 <Basic YWxpY2U6YWJj> <text/xml; charset=utf-8> - <0> - - <<a/>>\nidle",
)];

/// What these streams are; what stands in front of each; the streams; and up to which place they are cut in
/// two.
const STREAMS: &[(&str, &[u8], &[Row], usize)] = &[
    ("heads", b"", HEADS, 100),
    ("bodies of a length", b"", LENGTHS, 100),
    (
        "bodies in chunks",
        b"P / HTTP/1.1\nTransfer-Encoding: chunked\n\n",
        CHUNKS,
        100,
    ),
    ("a head of a client", b"", CLIENT, 600),
];

fn put_field(wanted: &mut Wanted<'_>, value: &Option<Octets>) {
    match value {
        Some(text) => {
            wanted.put(b"<");
            wanted.put(text.as_slice());
            wanted.put(b"> ");
        }
        None => wanted.put(b"- "),
    }
}

/// Shows a request as the tables do.
fn show(wanted: &mut Wanted<'_>, request: &WireRequest) {
    wanted.put(request.method.as_slice());
    wanted.put(b" ");
    wanted.put(request.target.as_slice());
    wanted.put(if request.close { b" 1 " } else { b" 0 " });
    put_field(wanted, &request.authorization);
    put_field(wanted, &request.media);
    put_field(wanted, &request.coding);
    put_field(wanted, &request.depth);
    put_field(wanted, &request.if_match);
    put_field(wanted, &request.if_none);
    wanted.put(b"<");
    wanted.put(request.body.as_slice());
    wanted.put(b">\n");
}

fn name(why: WireFault) -> &'static [u8] {
    match why {
        WireFault::BadHead => b"BadHead",
        WireFault::HeadTooLong => b"HeadTooLong",
        WireFault::BodyTooLong => b"BodyTooLong",
        WireFault::Version => b"Version",
        WireFault::BadChunk => b"BadChunk",
    }
}

/// Feeds a piece, shows the requests that it completes, and says how the stream ends so far. A want of
/// memory is shown too, and is nowhere wanted.
fn read_on(alloc: Global, wire: &mut Wire, piece: &[u8], wanted: &mut Wanted<'_>) -> &'static [u8] {
    if wire.feed(alloc, piece).is_err() {
        wanted.put(b"no memory");
    }
    for _ in 0..100_000 {
        match wire.next(alloc) {
            Next::Request(request) => show(wanted, &request),
            Next::Need if wire.idle() => return b"idle",
            Next::Need => return b"cut",
            Next::Fault(why) => return name(why),
            Next::NoMemory => wanted.put(b"no memory"),
        }
    }
    b"no end"
}

/// A piece has an octet at least.
fn at_least_one(size: usize) -> usize
    ensures { 0 < result }
{
    if size == 0 { 1 } else { size }
}

/// Whether a stream gives this in pieces of so many octets, where a fault stays.
fn is_read_in_pieces(alloc: Global, stream: &[u8], size: usize, want: &[u8]) -> bool {
    let mut wire = Wire::new(alloc);
    let mut wanted = Wanted::new(want);
    let mut end: &[u8] = b"idle";
    for piece in stream.chunks(at_least_one(size)) {
        end = read_on(alloc, &mut wire, piece, &mut wanted);
    }
    wanted.put(end);
    wanted.is_whole()
}

/// Whether a stream gives this in two pieces.
fn is_read_cut(alloc: Global, front: &[u8], behind: &[u8], want: &[u8]) -> bool {
    let mut wire = Wire::new(alloc);
    let mut wanted = Wanted::new(want);
    read_on(alloc, &mut wire, front, &mut wanted);
    let end = read_on(alloc, &mut wire, behind, &mut wanted);
    wanted.put(end);
    wanted.is_whole()
}

/// Whether a stream is read so in pieces of some sizes, and cut in two at each place up to a limit.
fn is_read_so(alloc: Global, stream: &[u8], want: &[u8], places: usize) -> bool {
    let mut same = true;
    for size in [1, 2, 3, 7, 64, 100_000] {
        same = is_read_in_pieces(alloc, stream, size, want) && same;
    }
    for place in 0..places {
        if place <= stream.len() {
            same = is_read_cut(alloc, &stream[..place], &stream[place..], want) && same;
        }
    }
    same
}

/// A text, so many times.
#[derive(Clone, Copy)]
struct Part<'t>(&'t [u8], usize);

fn joined(alloc: Global, parts: &[Part<'_>]) -> Result<Octets, NoMemory> {
    let mut out = Octets::new(alloc);
    for part in parts {
        for _ in 0..part.1 {
            out.extend_from_slice(part.0)?;
        }
    }
    Ok(out)
}

/// Whether a stream of such parts gives such parts, cut in two at each place up to a limit too.
fn gives(
    alloc: Global,
    stream: &[Part<'_>],
    want: &[Part<'_>],
    places: usize,
) -> Result<bool, NoMemory> {
    let stream = joined(alloc, stream)?;
    let want = joined(alloc, want)?;
    Ok(is_read_so(alloc, stream.as_slice(), want.as_slice(), places))
}

/// What the first streams are that give something else, or nothing.
fn first_wrong(alloc: Global) -> &'static str {
    for (name, front, rows, places) in STREAMS {
        for (stream, want) in *rows {
            let stream = [Part(*front, 1), Part(*stream, 1)];
            if gives(alloc, &stream, &[Part(*want, 1)], *places) != Ok(true) {
                return *name;
            }
        }
    }
    ""
}

#[test]
fn streams_are_read_in_any_pieces(rt: HostRuntime) {
    let wrong = first_wrong(rt.alloc());
    assert!(rt; wrong.is_empty(), "{wrong}");
}

const CHUNKED: Part<'static> = Part(b"PUT /a HTTP/1.1\r\nTransfer-Encoding: chunked\r\n\r\n", 1);

/// What a request gives that has neither fields that count nor a body.
const PLAIN: &[u8] = b"GET / 0 - - - - - - <>\n";

/// What a stream of parts gives.
struct Limit {
    name: &'static str,
    stream: &'static [Part<'static>],
    gives: &'static [Part<'static>],
}

/// A head up to its one long field, of 19 octets.
const LINE: Part<'static> = Part(b"GET / HTTP/1.1\r\nX: ", 1);

const START: Part<'static> = Part(b"GET / HTTP/1.1\r\n", 1);

const HEAD_END: Part<'static> = Part(b"\r\n\r\n", 1);

const LONG_HEAD: Part<'static> = Part(b"HeadTooLong", 1);

const CUT: Part<'static> = Part(b"cut", 1);

const EMPTY_PUT: Part<'static> = Part(b"PUT /a 0 - - - - - - <>\nidle", 1);

const BAD_CHUNK: Part<'static> = Part(b"BadChunk", 1);

const HEAD_LIMITS: &[Limit] = &[
    // 19 octets, 16,361 and 4
    Limit {
        name: "a head of 16,384 octets",
        stream: &[LINE, Part(b"a", 16_361), HEAD_END],
        gives: &[Part(PLAIN, 1), Part(b"idle", 1)],
    },
    Limit {
        name: "a head of 16,385 octets",
        stream: &[LINE, Part(b"a", 16_362), HEAD_END],
        gives: &[LONG_HEAD],
    },
    Limit {
        name: "16,383 octets of a head",
        stream: &[LINE, Part(b"a", 16_364)],
        gives: &[CUT],
    },
    Limit {
        name: "16,384 octets of a head without its end",
        stream: &[LINE, Part(b"a", 16_365)],
        gives: &[LONG_HEAD],
    },
    Limit {
        name: "16,383 octets of empty lines",
        stream: &[Part(b"\r\n", 8_191), Part(b"\n", 1)],
        gives: &[Part(b"idle", 1)],
    },
    Limit {
        name: "16,384 octets of empty lines",
        stream: &[Part(b"\r\n", 8_192)],
        gives: &[LONG_HEAD],
    },
    Limit {
        name: "100 fields",
        stream: &[START, Part(b"a:b\r\n", 100), Part(b"\r\n", 1)],
        gives: &[Part(PLAIN, 1), Part(b"idle", 1)],
    },
    Limit {
        name: "101 fields",
        stream: &[START, Part(b"a:b\r\n", 101), Part(b"\r\n", 1)],
        gives: &[LONG_HEAD],
    },
];

const BODY_LIMITS: &[Limit] = &[
    Limit {
        name: "a chunk line of 256 octets",
        stream: &[CHUNKED, Part(b"0;", 1), Part(b"e", 252), HEAD_END],
        gives: &[EMPTY_PUT],
    },
    Limit {
        name: "255 octets of a chunk line without its CR",
        stream: &[CHUNKED, Part(b"0;", 1), Part(b"e", 253)],
        gives: &[BAD_CHUNK],
    },
    Limit {
        name: "254 octets of a chunk line",
        stream: &[CHUNKED, Part(b"0;", 1), Part(b"e", 252)],
        gives: &[CUT],
    },
    Limit {
        name: "a trailer of 16,384 octets",
        stream: &[CHUNKED, Part(b"0\r\nT: ", 1), Part(b"t", 16_377), HEAD_END],
        gives: &[EMPTY_PUT],
    },
    Limit {
        name: "16,382 octets of a trailer",
        stream: &[CHUNKED, Part(b"0\r\nT: ", 1), Part(b"t", 16_379)],
        gives: &[CUT],
    },
    Limit {
        name: "16,383 octets of a trailer, which two line feeds end too late",
        stream: &[CHUNKED, Part(b"0\r\nT: ", 1), Part(b"t", 16_380)],
        gives: &[BAD_CHUNK],
    },
];

#[test]
fn heads_have_their_limits(rt: HostRuntime) {
    for limit in HEAD_LIMITS {
        let so = gives(rt.alloc(), limit.stream, limit.gives, 10);
        assert!(rt; so == Ok(true), "{}", limit.name);
    }
}

#[test]
fn bodies_have_their_limits(rt: HostRuntime) {
    for limit in BODY_LIMITS {
        let so = gives(rt.alloc(), limit.stream, limit.gives, 10);
        assert!(rt; so == Ok(true), "{}", limit.name);
    }
}

/// How many octets the body of the next request has, if one is next.
fn next_body(alloc: Global, wire: &mut Wire) -> Option<usize> {
    match wire.next(alloc) {
        Next::Request(request) => Some(request.body.len()),
        _ => None,
    }
}

/// How many requests a stream gives that comes in two pieces, and how many octets their bodies have; none
/// where there is no memory.
fn counted(alloc: Global, wire: &mut Wire, pieces: [&[u8]; 2]) -> (usize, usize) {
    let mut requests: usize = 0;
    let mut octets: usize = 0;
    let mut fed = true;
    for piece in pieces {
        fed = wire.feed(alloc, piece).is_ok() && fed;
        for _ in 0..100_000 {
            let Some(count) = next_body(alloc, wire) else {
                break;
            };
            requests = requests.saturating_add(1);
            octets = octets.saturating_add(count);
        }
    }
    if fed { (requests, octets) } else { (0, 0) }
}

/// The same of a new wire.
fn counted_anew(alloc: Global, pieces: [&[u8]; 2]) -> (usize, usize) {
    let mut wire = Wire::new(alloc);
    counted(alloc, &mut wire, pieces)
}

/// Whether a stream gives so many requests and octets, wherever it is cut.
fn is_counted_so(
    alloc: Global,
    parts: &[Part<'_>],
    want: (usize, usize),
) -> Result<bool, NoMemory> {
    let stream = joined(alloc, parts)?;
    let stream = stream.as_slice();
    let mut same = true;
    for first in [0, 1, 60, 70_000, 524_400, 1_048_600, 2_000_000] {
        let first = if first < stream.len() {
            first
        } else {
            stream.len()
        };
        let got = counted_anew(alloc, [&stream[..first], &stream[first..]]);
        same = same && got == want;
    }
    Ok(same)
}

/// A large body and many requests, how many requests are read, and how many octets.
const LARGE: &[(&[Part<'static>], (usize, usize))] = &[
    (
        &[
            CHUNKED,
            Part(b"100000\r\n", 1),
            Part(b"x", 1_048_576),
            Part(b"\r\n0\r\n\r\n", 1),
        ],
        (1, 1_048_576),
    ),
    (
        &[Part(b"PUT /a HTTP/1.1\r\nContent-Length: 2\r\n\r\nab", 1_000)],
        (1_000, 2_000),
    ),
];

#[test]
fn large_bodies_and_many_requests_are_read(rt: HostRuntime) {
    for (parts, want) in LARGE {
        assert!(rt; is_counted_so(rt.alloc(), parts, *want) == Ok(true));
    }
}

/// Whether each piece, of which the first has a bad head, is answered by that fault alone.
fn is_faulty(alloc: Global, wire: &mut Wire) -> bool {
    let mut wanted = Wanted::new(b"");
    let mut same = true;
    for piece in [b"x\r\n\r\n".as_slice(), b"GET / HTTP/1.1\r\n\r\n", b""] {
        let end = read_on(alloc, wire, piece, &mut wanted);
        same = same && end == b"BadHead".as_slice() && !wire.idle();
    }
    same && wanted.is_whole()
}

/// A fault is given again, whatever follows.
#[test]
fn faults_stay(rt: HostRuntime) {
    let mut wire = Wire::new(rt.alloc());
    assert!(rt; is_faulty(rt.alloc(), &mut wire));
}

/// The moment of the examples of RFC 9110, 5.6.7.
const MOMENT: i64 = 784_111_777;

/// A reply, whether the connection closes after it, whether the request was HEAD, and what is written.
struct Written {
    status: u16,
    media: Media,
    body: &'static [u8],
    close: bool,
    head_only: bool,
    octets: &'static [u8],
}

const WRITTEN: &[Written] = &[
    Written {
        status: 207,
        media: Media::Xml,
        body: b"<a/>",
        close: false,
        head_only: false,
        octets: b"HTTP/1.1 207 Multi-Status\r\nDate: Sun, 06 Nov 1994 08:49:37 GMT\r\nContent-Type: application/xml; charset=utf-8\r\nContent-Length: 4\r\n\r\n<a/>",
    },
    Written {
        status: 200,
        media: Media::Calendar,
        body: b"BEGIN:VCALENDAR\r\n",
        close: true,
        head_only: true,
        octets: b"HTTP/1.1 200 OK\r\nDate: Sun, 06 Nov 1994 08:49:37 GMT\r\nContent-Type: text/calendar; charset=utf-8\r\nConnection: close\r\nContent-Length: 17\r\n\r\n",
    },
    Written {
        status: 204,
        media: Media::None,
        body: b"",
        close: false,
        head_only: false,
        octets: b"HTTP/1.1 204 No Content\r\nDate: Sun, 06 Nov 1994 08:49:37 GMT\r\n\r\n",
    },
    Written {
        status: 401,
        media: Media::None,
        body: b"",
        close: false,
        head_only: false,
        octets: b"HTTP/1.1 401 Unauthorized\r\nDate: Sun, 06 Nov 1994 08:49:37 GMT\r\nWWW-Authenticate: Basic realm=\"caldav\"\r\nContent-Length: 0\r\n\r\n",
    },
    Written {
        status: 404,
        media: Media::None,
        body: b"",
        close: false,
        head_only: false,
        octets: b"HTTP/1.1 404 Not Found\r\nDate: Sun, 06 Nov 1994 08:49:37 GMT\r\nContent-Length: 0\r\n\r\n",
    },
    Written {
        status: 431,
        media: Media::None,
        body: b"",
        close: true,
        head_only: false,
        octets: b"HTTP/1.1 431 Request Header Fields Too Large\r\nDate: Sun, 06 Nov 1994 08:49:37 GMT\r\nConnection: close\r\nContent-Length: 0\r\n\r\n",
    },
];

/// Whether a status is one of the table's, each of which has a reason phrase.
#[tactic(auto, unfolding(cal_model::specs::Replies::Statuses::reason))]
fn is_of_table(status: u16) -> bool
    ensures { IsTrue result → 0 < length (reason status) }
{
    match status {
        200 | 204 | 207 | 401 | 404 | 431 => true,
        _ => false,
    }
}

/// Whether a reply of a status of the table is written so.
fn is_reply_written_so(alloc: Global, reply: &Reply, written: &Written) -> bool {
    if is_of_table(reply.status) {
        let octets = write_response(alloc, reply, MOMENT, written.close, written.head_only);
        is_text(octets, written.octets)
    } else {
        false
    }
}

/// Whether a reply without a tag and without methods is written so.
fn is_written_so(alloc: Global, written: &Written) -> bool {
    match Octets::of(alloc, written.body) {
        Ok(body) => {
            let reply = Reply {
                status: written.status,
                etag: None,
                allow: None,
                media: written.media,
                body,
            };
            is_reply_written_so(alloc, &reply, written)
        }
        Err(NoMemory) => false,
    }
}

/// The reply to OPTIONS, with a tag that it would not have.
#[tactic(auto, unfolding(cal_model::specs::Replies::Statuses::reason))]
fn write_options(alloc: Global) -> Result<Octets, NoMemory> {
    let reply = Reply {
        status: 200,
        etag: Some(Etag([b'0'; 64])),
        allow: Some(Path::Root),
        media: Media::None,
        body: Octets::new(alloc),
    };
    write_response(alloc, &reply, MOMENT, false, false)
}

/// What is written for it.
const OPTIONS: &[u8] =
    b"HTTP/1.1 200 OK\r\nDate: Sun, 06 Nov 1994 08:49:37 GMT\r\nAllow: OPTIONS, PROPFIND\r\nDAV: 1, access-control, calendar-access\r\nETag: \"0000000000000000000000000000000000000000000000000000000000000000\"\r\nContent-Length: 0\r\n\r\n";

#[test]
fn replies_are_written(rt: HostRuntime) {
    for written in WRITTEN {
        let so = is_written_so(rt.alloc(), written);
        assert!(rt; so, "the reply of status {}", written.status);
    }
    assert!(rt;
        is_text(write_options(rt.alloc()), OPTIONS),
        "methods and tags"
    );
}
