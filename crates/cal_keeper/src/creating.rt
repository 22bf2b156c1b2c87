//! A new journal file.
ghost use Rattle.std.specs.Prelude.{◌≡◌, ◌≢◌, ℕ, ◌+◌, ◌<◌, ◌≤◌, ◌^◌, false, length, is_ok, IfOk, OnErr};
ghost use Rattle.cal_base.specs.World.Outside.{Rose};
ghost use Rattle.cal_keeper.specs.Files.Creating.{disk_left, IsCreated};
ghost use Rattle.cal_keeper.specs.Steps.HeaderSteps.{Begins};

use crate::disk::Disk;
use crate::header::header_of;
use crate::keeper::Keeper;
use crate::principals::counts_of;
use crate::writing::put_two;
use cal_base::{Failed, NoMemory};
use privileges::Users;
use std::alloc::Global;

/// What became of a file that was to be made. Each end gives the disk back.
#[derive(Drop)]
pub enum Created<D: Disk> {
    /// The file was made, and has no records.
    Done(Keeper<D>),
    /// The file has so many octets already.
    NotEmpty(D, u64),
    /// A call failed, and was counted.
    Failed(D),
    /// There was no memory for the header: nothing was written.
    NoMemory(D),
}

/// Makes a journal file of these users, without records, where there is none. A stop within this call may
/// leave anything.
pub fn create<D: Disk>(alloc: Global, disk: D, users: &Users) -> Created<D>
    ensures created { IsCreated D.past D.faults users.now disk result }
    ensures never_falls { D.faults disk ≤ D.faults (disk_left result) }
{
    let mut disk = disk;
    let octets = match disk.len() {
        Ok(octets) => octets,
        Err(Failed) => return Created::Failed(disk),
    };
    if octets != 0 {
        return Created::NotEmpty(disk, octets);
    }
    let header = match header_of(alloc, users) {
        Ok(header) => header,
        Err(NoMemory) => return Created::NoMemory(disk),
    };
    match lay_header(&mut disk, header.as_slice()) {
        Ok(place) => Created::Done(Keeper::at(disk, counts_of(users), place, 0)),
        Err(Failed) => Created::Failed(disk),
    }
}

/// Writes a header and a closed gate, and brings them to the disk. Gives the place of the gate.
fn lay_header<D: Disk>(disk: &mut D, header: &[u8]) -> Result<u64, Failed>
    ensures never_falls { D.faults disk.old ≤ D.faults disk.new }
    ensures failed { OnErr result (Rose (D.faults disk.old) (D.faults disk.new)) }
    ensures begins { Begins header.now (is_ok result) (D.past disk.old) (D.past disk.new) }
    ensures gate { IfOk result (λ place. place ≡ length header.now) }
    ensures few { IfOk result (λ place. place < 2 ^ 62) }
{
    let end = put_two(disk, 0, header, &[0])?;
    disk.sync()?;
    Ok(end - 1)
}
