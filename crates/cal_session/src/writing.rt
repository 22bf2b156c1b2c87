//! Replies, written to a link. A long one is written without being copied first.
ghost use Rattle.std.specs.Prelude.{◌≡◌, ◌≤◌, ◌<◌, ◌++◌, length};
ghost use Rattle.cal_base.specs.World.Outside.{IsMoment};
ghost use Rattle.cal_model.specs.Replies.Statuses.{reason};
ghost use Rattle.cal_model.specs.Replies.WireReplies.{answer_octets, fault_octets};
ghost use Rattle.cal_model.specs.Streams.WireLimits.{request_limit};
ghost use Rattle.cal_session.specs.SessionStates.{link_told};
ghost use Rattle.cal_session.specs.WrittenReplies.{IsSent};

use crate::served::How;
use cal_base::{Link, NoMemory, send_all};
use cal_model::Reply;
use http_wire::{
    WireFault, WireRequest, answer_content, write_answer, write_answer_head, write_fault,
};
use std::alloc::Global;

/// Content of at most so many octets is copied behind its head, so that both go in one write.
const SHORT_CONTENT: usize = 16_384;

/// Writes the reply to a request, where so many were answered before it, and says how the session
/// ends where that fails. A front of the reply was written then, and not all of it, where it was a
/// write that failed. Beside the reply this takes little memory, however long it is.
pub(crate) fn send_reply<L: Link>(
    alloc: Global,
    before: usize,
    wire: &WireRequest,
    reply: &Reply,
    moment: i64,
    link: &mut L,
) -> Option<How>
    requires before { before < request_limit }
    requires moment { IsMoment moment }
    requires known { 0 < length (reason reply.now.status) }
    ensures sent { IsSent (answer_octets before wire.now reply.now moment) (link_told L.Link link.old) (link_told L.Link link.new) result }
    ensures left_kept { L.left link.new ≡ L.left link.old }
    ensures allowance { L.allowance link.new ≡ L.allowance link.old }
    ensures never_falls { L.faults link.old ≤ L.faults link.new }
{
    let content = answer_content(wire, reply);
    if content.len() <= SHORT_CONTENT {
        match write_answer(alloc, before, wire, reply, moment) {
            Ok(octets) => send(octets.as_slice(), link),
            Err(NoMemory) => Some(How::NoMemory),
        }
    } else {
        match write_answer_head(alloc, before, wire, reply, moment) {
            Ok(head) => send_both(head.as_slice(), content, link),
            Err(NoMemory) => Some(How::NoMemory),
        }
    }
}

/// Writes the reply to a fault, in the same way.
pub(crate) fn send_fault<L: Link>(
    alloc: Global,
    why: WireFault,
    moment: i64,
    link: &mut L,
) -> Option<How>
    requires moment { IsMoment moment }
    ensures sent { IsSent (fault_octets why moment) (link_told L.Link link.old) (link_told L.Link link.new) result }
    ensures left_kept { L.left link.new ≡ L.left link.old }
    ensures allowance { L.allowance link.new ≡ L.allowance link.old }
    ensures never_falls { L.faults link.old ≤ L.faults link.new }
{
    match write_fault(alloc, why, moment) {
        Ok(octets) => send(octets.as_slice(), link),
        Err(NoMemory) => Some(How::NoMemory),
    }
}

/// Writes octets.
fn send<L: Link>(octets: &[u8], link: &mut L) -> Option<How>
    ensures sent { IsSent octets.now (link_told L.Link link.old) (link_told L.Link link.new) result }
    ensures left_kept { L.left link.new ≡ L.left link.old }
    ensures allowance { L.allowance link.new ≡ L.allowance link.old }
    ensures never_falls { L.faults link.old ≤ L.faults link.new }
{
    match send_all(link, octets) {
        Ok(()) => None,
        Err(_) => Some(How::WriteFault),
    }
}

/// Writes a head and the content behind it.
fn send_both<L: Link>(head: &[u8], content: &[u8], link: &mut L) -> Option<How>
    ensures sent { IsSent (head.now ++ content.now) (link_told L.Link link.old) (link_told L.Link link.new) result }
    ensures left_kept { L.left link.new ≡ L.left link.old }
    ensures allowance { L.allowance link.new ≡ L.allowance link.old }
    ensures never_falls { L.faults link.old ≤ L.faults link.new }
{
    match send_all(link, head) {
        Ok(()) => send(content, link),
        Err(_) => Some(How::WriteFault),
    }
}
