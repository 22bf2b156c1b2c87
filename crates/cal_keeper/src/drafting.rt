//! A new journal file that is to be written whole.
ghost use Rattle.std.specs.Prelude.{◌≡◌, ℕ, ◌+◌, ◌<◌, ◌≤◌, ◌^◌, length, is_ok, IfOk, OnErr};
ghost use Rattle.cal_base.specs.World.Outside.{Rose};
ghost use Rattle.cal_keeper.specs.Files.Drafts.{disk_left, IsDrafted};
ghost use Rattle.cal_keeper.specs.Steps.Drafting.{LaysBlank};

use crate::disk::Disk;
use crate::draft::Draft;
use crate::header::{BLANK, users_text};
use crate::principals::counts_of;
use crate::writing::put_long;
use cal_base::{Failed, NoMemory};
use privileges::Users;
use std::alloc::Global;

/// What became of a file that was to be written whole. Each end gives the disk back.
#[derive(Drop)]
pub enum Drafted<D: Disk> {
    /// The file had no octets, and has no records yet.
    Begun(Draft<D>),
    /// The file has so many octets already.
    NotEmpty(D, u64),
    /// A call failed, and was counted.
    Failed(D),
    /// There was no memory for the text of users: nothing was written.
    NoMemory(D),
}

/// Begins a journal file of these users that is to be written whole, where there is none; a file that has
/// octets is not written. Before the first sync a stop may leave anything; from that on it leaves what is no
/// journal, until the file is finished.
pub fn begin_draft<D: Disk>(alloc: Global, disk: D, users: &Users) -> Drafted<D>
    ensures drafted { IsDrafted D.past D.faults users.now disk result }
    ensures never_falls { D.faults disk ≤ D.faults (disk_left result) }
{
    let mut disk = disk;
    let octets = match disk.len() {
        Ok(octets) => octets,
        Err(Failed) => return Drafted::Failed(disk),
    };
    if octets != 0 {
        return Drafted::NotEmpty(disk, octets);
    }
    let text = match users_text(alloc, users) {
        Ok(text) => text,
        Err(NoMemory) => return Drafted::NoMemory(disk),
    };
    match lay_blank(&mut disk, text.as_slice()) {
        Ok(place) => Drafted::Begun(Draft::at(disk, counts_of(users), place)),
        Err(Failed) => Drafted::Failed(disk),
    }
}

/// Brings a blank to the disk in the place of the mark, and writes a text of users behind its length.
/// Gives the place behind them.
fn lay_blank<D: Disk>(disk: &mut D, text: &[u8]) -> Result<u64, Failed>
    requires { length text.now < 2 ^ 32 }
    ensures never_falls { D.faults disk.old ≤ D.faults disk.new }
    ensures failed { OnErr result (Rose (D.faults disk.old) (D.faults disk.new)) }
    ensures lays { LaysBlank text.now (is_ok result) (D.past disk.old) (D.past disk.new) }
    ensures gate { IfOk result (λ place. place ≡ 20 + length text.now) }
    ensures few { IfOk result (λ place. place ≤ 2 ^ 62) }
{
    disk.write_at(0, &BLANK)?;
    disk.sync()?;
    put_long(disk, 16, text)
}
