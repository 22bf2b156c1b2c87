//! Runs of writes, and a write between two syncs.
ghost use Rattle.std.specs.Prelude.{◌≡◌, ◌+◌, ◌<◌, ◌≤◌, ◌^◌, ◌++◌, ◌∷◌, [], length, is_ok, IfOk, OnErr};
ghost use Rattle.cal_base.specs.World.Outside.{Rose};
ghost use Rattle.cal_keeper.specs.Steps.WriteRuns.{Puts, Replaces};
ghost use Rattle.cal_keeper.specs.Files.Payloads.{name_text, long_text};

use crate::disk::Disk;
use cal_base::Failed;

/// Writes a piece at a place, and says where it ends.
pub(crate) fn put<D: Disk>(disk: &mut D, place: u64, piece: &[u8]) -> Result<u64, Failed>
    ensures never_falls { D.faults disk.old ≤ D.faults disk.new }
    ensures failed { OnErr result (Rose (D.faults disk.old) (D.faults disk.new)) }
    ensures puts { Puts place piece.now (is_ok result) (D.past disk.old) (D.past disk.new) }
    ensures end { IfOk result (λ end. end ≡ place + length piece.now) }
    ensures few { IfOk result (λ end. end ≤ 2 ^ 62) }
{
    disk.write_at(place, piece)?;
    Ok(place + piece.len() as u64)
}

/// Writes two pieces, one behind the other, and says where they end.
pub(crate) fn put_two<D: Disk>(
    disk: &mut D,
    place: u64,
    first: &[u8],
    second: &[u8],
) -> Result<u64, Failed>
    ensures never_falls { D.faults disk.old ≤ D.faults disk.new }
    ensures failed { OnErr result (Rose (D.faults disk.old) (D.faults disk.new)) }
    ensures puts { Puts place (first.now ++ second.now) (is_ok result) (D.past disk.old) (D.past disk.new) }
    ensures end { IfOk result (λ end. end ≡ place + length first.now + length second.now) }
    ensures few { IfOk result (λ end. end ≤ 2 ^ 62) }
{
    let at = put(disk, place, first)?;
    put(disk, at, second)
}

/// Writes a name behind its length.
pub(crate) fn put_name<D: Disk>(disk: &mut D, place: u64, name: &[u8]) -> Result<u64, Failed>
    requires { length name.now < 256 }
    ensures never_falls { D.faults disk.old ≤ D.faults disk.new }
    ensures failed { OnErr result (Rose (D.faults disk.old) (D.faults disk.new)) }
    ensures puts { Puts place (name_text name.now) (is_ok result) (D.past disk.old) (D.past disk.new) }
    ensures end { IfOk result (λ end. end ≡ place + 1 + length name.now) }
    ensures few { IfOk result (λ end. end ≤ 2 ^ 62) }
{
    put_two(disk, place, &[name.len() as u8], name)
}

/// Writes octets behind their number.
pub(crate) fn put_long<D: Disk>(disk: &mut D, place: u64, octets: &[u8]) -> Result<u64, Failed>
    requires { length octets.now < 2 ^ 32 }
    ensures never_falls { D.faults disk.old ≤ D.faults disk.new }
    ensures failed { OnErr result (Rose (D.faults disk.old) (D.faults disk.new)) }
    ensures puts { Puts place (long_text octets.now) (is_ok result) (D.past disk.old) (D.past disk.new) }
    ensures end { IfOk result (λ end. end ≡ place + 4 + length octets.now) }
    ensures few { IfOk result (λ end. end ≤ 2 ^ 62) }
{
    let size = octets.len() as u32;
    put_two(disk, place, &size.to_be_bytes(), octets)
}

/// Brings what was written before to the disk, writes a piece over the octets at a place by a write of
/// its own, and brings that to the disk.
#[tactic(auto, using(crate::specs::Disks::PossibleImages::piece_is_torn))]
pub(crate) fn replace<D: Disk>(disk: &mut D, place: u64, piece: &[u8]) -> Result<(), Failed>
    ensures never_falls { D.faults disk.old ≤ D.faults disk.new }
    ensures failed { OnErr result (Rose (D.faults disk.old) (D.faults disk.new)) }
    ensures replaces { Replaces place piece.now (is_ok result) (D.past disk.old) (D.past disk.new) }
{
    disk.sync()?;
    disk.write_at(place, piece)?;
    disk.sync()
}
