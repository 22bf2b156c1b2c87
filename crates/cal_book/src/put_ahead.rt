//! What is done of a PUT before its turn.
ghost use Rattle.std.specs.Prelude.{◌≡◌, IfSome, Some};
ghost use Rattle.cal_book.specs.PutOctets.{put_octets};

use cal_model::{Content, Event};
use preconditions::PutReading;
use std::alloc::Global;

/// Reads the octets that a request puts, which needs no state. None for any other request, and where they
/// are read in the turn: where they are more than an object may have, and for want of memory.
pub fn read_put(alloc: Global, event: &Event) -> Option<PutReading>
    ensures { IfSome result (λ octets. put_octets event.now.request.content ≡ Some octets) }
{
    match &event.request.content {
        Content::Put { octets, .. } => PutReading::of(alloc, octets.as_slice()),
        _ => None,
    }
}
