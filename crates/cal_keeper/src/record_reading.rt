//! A record that is read back from a journal file.
ghost use Rattle.std.specs.Prelude.{◌≡◌, ℕ, ◌+◌, ◌<◌, ◌≤◌, ◌^◌, ◌==◌, length, drop, slice_index, true, IsTrue, Some, None, IfOk, IfSome, IsNone, IsErrOf, OnErr};
ghost use Rattle.cal_base.specs.World.Outside.{Rose};
ghost use Rattle.cal_keeper.specs.Disks.CrashModel.{reading};
ghost use Rattle.cal_keeper.specs.Files.RecordForm.{open_gate, IsPayloadSize};
ghost use Rattle.cal_keeper.specs.Steps.RecordSteps.{Finds, IsFilledFrom, Gives};

use crate::disk::Disk;
use cal_base::{Failed, Octets};
use std::alloc::Global;

/// The most octets of a payload.
const PAYLOAD_LIMIT: u32 = 134_217_728;

/// Why no record and no closed gate was found.
#[derive(Debug, Clone, Copy, PartialEq, Eq)]
pub(crate) enum NoRecord {
    /// Neither stands there.
    Bad,
    /// A read failed, and was counted.
    Failed,
    /// There was no memory for the payload.
    NoMemory,
}

/// The payload of the record behind the gate at a place; none where that gate is closed.
pub(crate) fn read_record<D: Disk>(
    alloc: Global,
    disk: &mut D,
    place: u64,
) -> Result<Option<Octets>, NoRecord>
    requires { place ≤ 2 ^ 62 }
    ensures never_falls { D.faults disk.old ≤ D.faults disk.new }
    ensures failed { IsErrOf result NoRecord.Failed → Rose (D.faults disk.old) (D.faults disk.new) }
    ensures past_kept { D.past disk.new ≡ D.past disk.old }
    ensures finds { Finds place result (D.past disk.old) }
    ensures sized { IfOk result (λ found. IfSome found (λ payload. IsPayloadSize (length payload))) }
    ensures few { IfOk result (λ found. IfSome found (λ payload. place + 5 + length payload ≤ 2 ^ 62)) }
    ensures within { IfOk result (λ found. IsNone found → place < 2 ^ 62) }
{
    let mut gate = [0; 1];
    match fill(disk, place, &mut gate) {
        Ok(true) => {}
        Ok(false) => return Err(NoRecord::Bad),
        Err(Failed) => return Err(NoRecord::Failed),
    }
    if !is_open(gate[0]) {
        return Ok(None);
    }
    match read_payload(alloc, disk, place + 1) {
        Ok(payload) => Ok(Some(payload)),
        Err(none) => Err(none),
    }
}

/// Whether a gate is open: every octet but 1 is a closed gate.
fn is_open(gate: u8) -> bool
    ensures { result ≡ (gate == open_gate) }
{
    gate == 1
}

/// The payload behind its length at a place.
fn read_payload<D: Disk>(alloc: Global, disk: &mut D, place: u64) -> Result<Octets, NoRecord>
    requires { place ≤ 2 ^ 62 }
    ensures never_falls { D.faults disk.old ≤ D.faults disk.new }
    ensures failed { IsErrOf result NoRecord.Failed → Rose (D.faults disk.old) (D.faults disk.new) }
    ensures past_kept { D.past disk.new ≡ D.past disk.old }
    ensures gives { Gives place result (D.past disk.old) }
    ensures sized { IfOk result (λ payload. IsPayloadSize (length payload)) }
    ensures few { IfOk result (λ payload. place + 4 + length payload ≤ 2 ^ 62) }
{
    let mut octets = [0; 4];
    match fill(disk, place, &mut octets) {
        Ok(true) => {}
        Ok(false) => return Err(NoRecord::Bad),
        Err(Failed) => return Err(NoRecord::Failed),
    }
    let size = u32::from_be_bytes(octets);
    if size == 0 || PAYLOAD_LIMIT < size {
        return Err(NoRecord::Bad);
    }
    read_octets(alloc, disk, place + 4, size)
}

/// So many octets from a place on. No memory is taken for more octets than the file has.
pub(crate) fn read_octets<D: Disk>(
    alloc: Global,
    disk: &mut D,
    place: u64,
    size: u32,
) -> Result<Octets, NoRecord>
    ensures never_falls { D.faults disk.old ≤ D.faults disk.new }
    ensures failed { IsErrOf result NoRecord.Failed → Rose (D.faults disk.old) (D.faults disk.new) }
    ensures past_kept { D.past disk.new ≡ D.past disk.old }
    ensures there { IfOk result (λ octets. IsFilledFrom place true octets (D.past disk.old)) }
    ensures size { IfOk result (λ octets. length octets ≡ size) }
    ensures short { IsErrOf result NoRecord.Bad → IfSome (D.past disk.old) (λ p. length (drop place (reading p)) < size) }
    ensures few { IfOk result (λ octets. place + length octets ≤ 2 ^ 62) }
{
    let there = match disk.len() {
        Ok(there) => there,
        Err(Failed) => return Err(NoRecord::Failed),
    };
    if there.saturating_sub(place) < size as u64 {
        return Err(NoRecord::Bad);
    }
    let Ok(mut octets) = Vec::from_elem(alloc, 0u8, size as usize) else {
        return Err(NoRecord::NoMemory);
    };
    match fill(disk, place, octets.as_mut_slice()) {
        Ok(true) => Ok(Octets::from_vec(octets)),
        Ok(false) => Err(NoRecord::Bad),
        Err(Failed) => Err(NoRecord::Failed),
    }
}

/// Fills a place in memory with the octets from a place of the file on, and says whether there were
/// enough.
pub(crate) fn fill<D: Disk>(disk: &mut D, place: u64, into: &mut [u8]) -> Result<bool, Failed>
    ensures never_falls { D.faults disk.old ≤ D.faults disk.new }
    ensures failed { OnErr result (Rose (D.faults disk.old) (D.faults disk.new)) }
    ensures past_kept { D.past disk.new ≡ D.past disk.old }
    ensures filled { IfOk result (λ filled. IsFilledFrom place filled into.new (D.past disk.old)) }
    ensures octets { (i : ℕ) → slice_index into.new i < 256 }
    ensures few { IfOk result (λ filled. IsTrue filled → place + length into.old ≤ 2 ^ 62) }
{
    let wanted = into.len();
    let count = disk.read_at(place, into)?;
    Ok(count == wanted)
}
