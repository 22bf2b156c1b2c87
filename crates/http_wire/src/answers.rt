//! The octets that answer what a stream gave: its requests, and the fault at which it goes wrong.
ghost use Rattle.std.specs.Prelude.{◌≡◌, ◌<◌, ◌++◌, length, IfOk};
ghost use Rattle.cal_base.specs.World.Outside.{IsMoment};
ghost use Rattle.cal_model.specs.Replies.BareReplies as bare;
ghost use Rattle.cal_model.specs.Replies.ReplyOctets.{content};
ghost use Rattle.cal_model.specs.Replies.Statuses.{reason};
ghost use Rattle.cal_model.specs.Replies.WireReplies.{answer_octets, fault_octets, fault_status as status_of, is_head as asks_head};
ghost use Rattle.cal_model.specs.Streams.StreamRequests as streams;
ghost use Rattle.cal_model.specs.Streams.WireLimits.{request_limit};

use crate::limits::REQUEST_LIMIT;
use crate::response::{content_of, write_head, write_response};
use cal_base::{NoMemory, Octets};
use cal_model::{Media, Reply, WireFault, WireRequest};
use std::alloc::Global;

/// Whether the reply to a request says that the connection closes (RFC 9112, 9.6), where so many
/// were answered before it: the request asks so, or it is the last that a connection has.
pub fn closes_after(before: usize, request: &WireRequest) -> bool
    requires { before < request_limit }
    ensures { result ≡ streams.closes_after before request.now }
{
    request.close || REQUEST_LIMIT <= before + 1
}

/// The octets of the reply to a request, written at a moment in seconds since 1970, where so many
/// requests were answered on its connection before.
#[tactic(auto, unfolding(cal_model::specs::Replies::WireReplies::answer_octets))]
pub fn write_answer(
    alloc: Global,
    before: usize,
    request: &WireRequest,
    reply: &Reply,
    moment: i64,
) -> Result<Octets, NoMemory>
    requires before { before < request_limit }
    requires moment { IsMoment moment }
    requires known { 0 < length (reason reply.now.status) }
    ensures { IfOk result (λ octets. octets ≡ answer_octets before request.now reply.now moment) }
{
    let close = closes_after(before, request);
    write_response(alloc, reply, moment, close, is_head(request))
}

/// The octets of the reply to a request before its content, which is `answer_content`. So a long content
/// need not be copied behind them. All else is as in `write_answer`.
#[tactic(auto, unfolding(cal_model::specs::Replies::WireReplies::answer_octets))]
pub fn write_answer_head(
    alloc: Global,
    before: usize,
    request: &WireRequest,
    reply: &Reply,
    moment: i64,
) -> Result<Octets, NoMemory>
    requires before { before < request_limit }
    requires moment { IsMoment moment }
    requires known { 0 < length (reason reply.now.status) }
    ensures { IfOk result (λ head. head ++ content reply.now (asks_head request.now) ≡ answer_octets before request.now reply.now moment) }
{
    write_head(alloc, reply, moment, closes_after(before, request))
}

/// The content of the reply to a request, which stands last in its octets: the body, or nothing where
/// the status has no content or the request was HEAD (RFC 9110, 9.3.2, 15.3.5 and 15.4.5).
pub fn answer_content<'a>(request: &WireRequest, reply: &'a Reply) -> &'a [u8]
    ensures { result.now ≡ content reply.now (asks_head request.now) }
{
    content_of(reply, is_head(request))
}

/// Whether a request asks for a reply without its content (RFC 9110, 9.3.2).
fn is_head(request: &WireRequest) -> bool
    ensures { result ≡ asks_head request.now }
{
    request.method.as_slice() == b"HEAD".as_slice()
}

/// The octets of the reply to a fault, behind which the connection closes.
#[tactic(auto, unfolding(cal_model::specs::Replies::WireReplies::fault_octets))]
pub fn write_fault(alloc: Global, why: WireFault, moment: i64) -> Result<Octets, NoMemory>
    requires moment { IsMoment moment }
    ensures { IfOk result (λ octets. octets ≡ fault_octets why moment) }
{
    let reply = bare_reply(alloc, fault_status(why));
    write_response(alloc, &reply, moment, true, false)
}

/// The status of the reply to a fault (RFC 9110, 15.5; RFC 6585, 5).
#[tactic(auto, unfolding(cal_model::specs::Replies::Statuses::reason))]
fn fault_status(why: WireFault) -> u16
    ensures status { result ≡ status_of why }
    ensures known { 0 < length (reason result) }
{
    match why {
        WireFault::BadHead | WireFault::BadChunk => 400,
        WireFault::BodyTooLong => 413,
        WireFault::HeadTooLong => 431,
        WireFault::Version => 505,
    }
}

/// A reply that is a status alone.
pub fn bare_reply(alloc: Global, status: u16) -> Reply
    ensures { result ≡ bare.bare_reply status }
{
    Reply {
        status,
        etag: None,
        allow: None,
        media: Media::None,
        body: Octets::new(alloc),
    }
}
