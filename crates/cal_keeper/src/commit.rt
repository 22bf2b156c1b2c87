//! One more record in a journal file.
ghost use Rattle.std.specs.Prelude.{◌≡◌, ◌+◌, ◌<◌, ◌≤◌, ◌^◌, ◌∷◌, ◌++◌, [], length, is_ok, IfOk, OnErr};
ghost use Rattle.cal_base.specs.World.Outside.{Rose};
ghost use Rattle.cal_journal.specs.KeptEntries.{kept_entry};
ghost use Rattle.cal_keeper.specs.declared.principals.PrincipalCounts.{PrincipalCounts};
ghost use Rattle.cal_keeper.specs.Steps.WriteRuns.{Puts};
ghost use Rattle.cal_keeper.specs.Files.Payloads.{payload_of, HasForm};
ghost use Rattle.cal_keeper.specs.Steps.Committing.{Commits};
ghost use Rattle.cal_keeper.specs.Files.RecordForm.{counted_payload};

use crate::disk::Disk;
use crate::payload::put_payload;
use crate::payload_size::payload_size;
use crate::writing::{put, replace};
use cal_base::Failed;
use cal_journal::Entry;

/// Brings a record to the disk behind the gate at a place: first the record and the next gate, closed, and
/// then the gate open. Gives the place of the next gate.
pub(crate) fn commit<D: Disk>(disk: &mut D, place: u64, entry: &Entry) -> Result<u64, Failed>
    requires form { (counts : PrincipalCounts) × HasForm counts (kept_entry entry.now) }
    requires within { place < 2 ^ 62 }
    ensures never_falls { D.faults disk.old ≤ D.faults disk.new }
    ensures failed { OnErr result (Rose (D.faults disk.old) (D.faults disk.new)) }
    ensures commits { Commits place (payload_of (kept_entry entry.now)) (is_ok result) (D.past disk.old) (D.past disk.new) }
    ensures next { IfOk result (λ next. next ≡ place + 5 + length (payload_of (kept_entry entry.now))) }
    ensures few { IfOk result (λ next. next < 2 ^ 62) }
{
    let end = stage(disk, place + 1, entry)?;
    replace(disk, place, &[1])?;
    Ok(end - 1)
}

/// Writes a payload behind its length, and a closed gate behind it. Gives the place behind all.
fn stage<D: Disk>(disk: &mut D, place: u64, entry: &Entry) -> Result<u64, Failed>
    requires { (counts : PrincipalCounts) × HasForm counts (kept_entry entry.now) }
    ensures never_falls { D.faults disk.old ≤ D.faults disk.new }
    ensures failed { OnErr result (Rose (D.faults disk.old) (D.faults disk.new)) }
    ensures puts { Puts place (counted_payload (payload_of (kept_entry entry.now)) ++ 0 ∷ []) (is_ok result) (D.past disk.old) (D.past disk.new) }
    ensures end { IfOk result (λ end. end ≡ place + 5 + length (payload_of (kept_entry entry.now))) }
    ensures few { IfOk result (λ end. end ≤ 2 ^ 62) }
{
    let at = put_counted(disk, place, entry)?;
    put(disk, at, &[0])
}

/// Writes a payload behind its length. Gives the place behind both.
pub(crate) fn put_counted<D: Disk>(disk: &mut D, place: u64, entry: &Entry) -> Result<u64, Failed>
    requires { (counts : PrincipalCounts) × HasForm counts (kept_entry entry.now) }
    ensures never_falls { D.faults disk.old ≤ D.faults disk.new }
    ensures failed { OnErr result (Rose (D.faults disk.old) (D.faults disk.new)) }
    ensures puts { Puts place (counted_payload (payload_of (kept_entry entry.now))) (is_ok result) (D.past disk.old) (D.past disk.new) }
    ensures end { IfOk result (λ end. end ≡ place + 4 + length (payload_of (kept_entry entry.now))) }
    ensures few { IfOk result (λ end. end ≤ 2 ^ 62) }
{
    let at = put(disk, place, &payload_size(entry).to_be_bytes())?;
    put_payload(disk, at, entry)
}
