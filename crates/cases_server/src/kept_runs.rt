//! Runs at a book that is kept in the file of a disk in memory, and what a file is loaded as.
ghost use Rattle.std.specs.Prelude.{◌≡◌};

use crate::desks::{End, Unready, framed, next_claim, ready, source_of};
use cal_base::{Arc, List, MemorySink, MemorySource, NoMemory, Octets};
use cal_keeper::MemoryDisk;
use cal_session::Kept;
use privileges::Users;
use std::alloc::Global;

/// A run at a kept book.
#[derive(Drop)]
pub struct Run {
    /// How it ended.
    pub end: End,
    /// The output with what was written.
    pub output: MemorySink,
    /// The next claim, if there is one: the number of the entry that made its object, and its window.
    pub next: Option<(u64, i32)>,
    /// The disk that is left.
    pub disk: MemoryDisk,
}

/// What a file is loaded as.
#[derive(Drop)]
pub enum Found {
    /// A book with so many entries.
    Entries(u64),
    /// It is refused at this place.
    Refused(u64),
    Nothing,
}

/// A kept book; or why it is not ready, and the disk.
pub type Loading = Result<Kept<MemoryDisk>, (Unready, MemoryDisk)>;

/// A disk whose file has these octets. The call with that number fails.
pub fn disk_with(alloc: Global, octets: &[u8], failing: u64) -> Result<MemoryDisk, NoMemory> {
    let octets = Octets::of(alloc, octets)?;
    let failing = List::of(alloc, &[failing])?;
    Ok(MemoryDisk::new(alloc, octets, failing))
}

/// Runs frames at a kept book.
fn run_at(
    alloc: Global,
    users: &Users,
    kept: Kept<MemoryDisk>,
    input: &mut MemorySource,
    output: &mut MemorySink,
) -> (End, Option<(u64, i32)>, MemoryDisk)
    requires { kept.book.users ≡ users.now }
{
    let mut kept = kept;
    let end = framed(alloc, &mut kept, users, input, output);
    let next = next_claim(&mut kept);
    (end, next, kept.into_disk())
}

/// Runs the frames of an input at a file with these octets. The call of the disk with that number fails.
fn run_from(
    alloc: Global,
    users: &Arc<Users>,
    octets: &[u8],
    failing: u64,
    input: &mut MemorySource,
) -> Result<Run, NoMemory> {
    let shared = Arc::try_clone(users)?;
    let disk = disk_with(alloc, octets, failing)?;
    let mut output = MemorySink::new(alloc, List::new(alloc));
    let (end, next, disk) = match ready(alloc, shared, disk) {
        Ok(kept) => run_at(alloc, users, kept, input, &mut output),
        Err((why, disk)) => (End::Unready(why), None, disk),
    };
    Ok(Run {
        end,
        output,
        next,
        disk,
    })
}

/// Runs frames at a file with these octets, as the command `script` does behind its users file. The call of
/// the disk with that number fails.
pub fn run_over(
    alloc: Global,
    users: &Arc<Users>,
    octets: &[u8],
    failing: u64,
    frames: &[u8],
) -> Result<Run, NoMemory> {
    let mut input = source_of(alloc, frames)?;
    run_from(alloc, users, octets, failing, &mut input)
}

/// Loads the book of a file with these octets.
pub fn load(alloc: Global, users: &Arc<Users>, octets: &[u8]) -> Result<Loading, NoMemory> {
    let shared = Arc::try_clone(users)?;
    let disk = disk_with(alloc, octets, u64::MAX)?;
    Ok(ready(alloc, shared, disk))
}

/// Lets go what was loaded.
pub fn drop_loading(_loading: Loading) {}

/// What a file is loaded as.
fn found_as(loading: &Loading) -> Found {
    match loading {
        Ok(kept) => Found::Entries(kept.book().entries()),
        Err((Unready::Refused(place), _)) => Found::Refused(*place),
        Err((Unready::Mismatch(place, _, _), _)) => Found::Refused(*place),
        Err(_) => Found::Nothing,
    }
}

/// What a file with these octets is loaded as.
pub fn found_in(alloc: Global, users: &Arc<Users>, octets: &[u8]) -> Result<Found, NoMemory> {
    match load(alloc, users, octets) {
        Ok(loading) => {
            let found = found_as(&loading);
            drop_loading(loading);
            Ok(found)
        }
        Err(NoMemory) => Err(NoMemory),
    }
}

/// What a file with these octets is loaded as, in words.
pub fn found_words(alloc: Global, users: &Arc<Users>, octets: &[u8]) -> Result<String, NoMemory> {
    let words = match found_in(alloc, users, octets)? {
        Found::Entries(count) => format!(in alloc; "{count} entries"),
        Found::Refused(place) => format!(in alloc; "refused at {place}"),
        Found::Nothing => String::from_str(alloc, "nothing"),
    };
    Ok(words?)
}
