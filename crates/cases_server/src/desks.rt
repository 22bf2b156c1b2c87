//! Frames and claims at any desk, and books kept on any disk.
ghost use Rattle.std.specs.Prelude.{◌≡◌, IfOk};
ghost use Rattle.std.specs.List.{AllByRecursion};

use crate::scripts::ALLOWANCE;
use cal_base::{Arc, List, MemorySink, MemorySource, NoMemory, Octets};
use cal_book::Desk;
use cal_keeper::Disk;
use cal_script::{FrameEnd, FramesOn, frames_on};
use cal_session::{Kept, Loaded, load_kept};
use privileges::Users;
use std::alloc::Global;

/// Why the book of a file is not ready.
#[derive(Drop)]
pub enum Unready {
    /// The file is refused at this place.
    Refused(u64),
    /// At this place the first status is kept, and the second is made.
    Mismatch(u64, u16, u16),
    /// A call of the disk failed.
    Failed,
    NoMemory,
}

/// How a run at a desk ended.
#[derive(Drop)]
pub enum End {
    /// The frames were read to their end, which is at this place.
    Done(u64),
    /// They were not.
    CutShort,
    /// A call of the disk failed in a request.
    Broken,
    /// The book of the file was not ready.
    Unready(Unready),
}

/// Loads the kept book of these users from the file of a disk. Where it is not ready, gives why, and the disk.
pub fn ready<D: Disk>(alloc: Global, users: Arc<Users>, disk: D) -> Result<Kept<D>, (Unready, D)>
    ensures users { IfOk result (λ kept. kept.book.users ≡ users) }
    ensures first { IfOk result (λ kept. AllByRecursion (λ entry. entry.session ≡ 0) kept.book.work.journal) }
{
    match load_kept(alloc, users, disk) {
        Loaded::Ready(kept) => Ok(kept),
        Loaded::Refused(disk, place) => Err((Unready::Refused(place), disk)),
        Loaded::Mismatch(disk, place, kept, made) => {
            Err((Unready::Mismatch(place, kept, made), disk))
        }
        Loaded::Failed(disk) => Err((Unready::Failed, disk)),
        Loaded::NoMemory(disk) => Err((Unready::NoMemory, disk)),
    }
}

/// A source that brings these octets, none of whose reads fail.
pub fn source_of(alloc: Global, octets: &[u8]) -> Result<MemorySource, NoMemory> {
    let octets = Octets::of(alloc, octets)?;
    Ok(MemorySource::new(octets, List::new(alloc), ALLOWANCE))
}

/// Runs frames at a desk.
pub fn framed<B: Desk>(
    alloc: Global,
    desk: &mut B,
    users: &Users,
    input: &mut MemorySource,
    output: &mut MemorySink,
) -> End
    requires { (B.book desk.old).users ≡ users.now }
{
    match frames_on(alloc, desk, users, input, output) {
        FramesOn::End(FrameEnd::Done { place }) => End::Done(place),
        FramesOn::End(_) => End::CutShort,
        FramesOn::Broken(_) => End::Broken,
    }
}

/// The next claim of a desk, if there is one: the number of the entry that made its object, and its window.
pub fn next_claim<B: Desk>(desk: &mut B) -> Option<(u64, i32)> {
    match desk.claim() {
        Ok(Some(claim)) => Some((claim.origin, claim.window)),
        _ => None,
    }
}
