//! A journal file that is written whole.
ghost use Rattle.std.specs.Prelude.{◌≡◌, ℕ, ◌+◌, ◌<◌, ◌≤◌, ◌^◌, Bool, false, length, is_ok, is_err, if◌then◌else◌, IfOk, OnErr};
ghost use Rattle.cal_base.specs.World.Outside.{Rose};
ghost use Rattle.cal_journal.specs.KeptEntries.{kept_entry};
ghost use Rattle.cal_keeper.specs.declared.principals.PrincipalCounts.{PrincipalCounts};
ghost use Rattle.cal_keeper.specs.Files.Drafts.{DraftsTo, IsFinished, finished_disk};
ghost use Rattle.cal_keeper.specs.Files.Payloads.{payload_of, HasForm};
ghost use Rattle.cal_keeper.specs.Files.RecordForm.{open_record};
ghost use Rattle.cal_keeper.specs.Steps.Drafting.{Seals};
ghost use Rattle.cal_keeper.specs.Steps.WriteRuns.{Puts};

use crate::commit::put_counted;
use crate::disk::Disk;
use crate::header::MARK;
use crate::principals::PrincipalCounts;
use crate::writing::{put, replace};
use cal_base::Failed;
use cal_journal::Entry;
use std::marker::Model;

/// What became of a file that was to be finished. Each end gives the disk back.
#[derive(Drop)]
pub enum Finished<D: Disk> {
    /// It is a journal file with all records.
    Done(D),
    /// A call failed, and was counted.
    Failed(D),
}

/// A journal file that is written whole. Until it is finished zeros stand in the place of its mark, so
/// that nothing takes it for a journal, whenever a stop comes. No record is synced by itself. After a
/// failure it is broken, and its file is of no use.
#[derive(Drop)]
pub struct Draft<D: Disk> {
    disk: D,
    principals: PrincipalCounts,
    /// Where the next gate is to stand.
    place: u64,
    records: u64,
    broken: bool,
}

impl<D: Disk> Model for Draft<D> {
    ghost use Rattle.std.specs.Prelude.{◌≤◌, ◌^◌};
    ghost use Rattle.cal_keeper.specs.Keepers.{DraftState};

    ghost Value = { DraftState D };

    ghost view = { λ d. record { disk = d.disk; principals = d.principals; place = d.place; records = d.records; broken = d.broken } };

    ghost invariant = { λ d. (d.place ≤ 2 ^ 62) × (d.records ≤ d.place) };
}

impl<D: Disk> Draft<D> {
    /// A draft without records, whose first gate is to stand at a place.
    pub(crate) fn at(disk: D, principals: PrincipalCounts, place: u64) -> Draft<D>
        requires { place ≤ 2 ^ 62 }
        ensures { result ≡ record { disk = disk; principals = principals; place = place; records = 0; broken = false } }
    {
        Draft {
            disk,
            principals,
            place,
            records: 0,
            broken: false,
        }
    }

    /// Adds the record of an entry behind those before. A stop at any moment of the call leaves what is no
    /// journal. Takes no memory of its own.
    pub fn add(&mut self, entry: &Entry) -> Result<(), Failed>
        requires unbroken { self.old.broken ≡ false }
        requires form { HasForm self.old.principals (kept_entry entry.now) }
        ensures drafts { DraftsTo D.past self.old self.new (kept_entry entry.now) (is_ok result) }
        ensures broken { self.new.broken ≡ is_err result }
        ensures records { self.new.records ≡ (if is_ok result then self.old.records + 1 else self.old.records) }
        ensures principals { self.new.principals ≡ self.old.principals }
        ensures failed { OnErr result (Rose (D.faults self.old.disk) (D.faults self.new.disk)) }
        ensures never_falls { D.faults self.old.disk ≤ D.faults self.new.disk }
    {
        match put_record(&mut self.disk, self.place, entry) {
            Ok(next) => {
                self.place = next;
                self.records += 1;
                Ok(())
            }
            Err(Failed) => {
                self.broken = true;
                Err(Failed)
            }
        }
    }

    /// Finishes the file: once all is on the disk, the mark is written. A stop at any moment of the call
    /// leaves what is no journal, or the whole one; from `Done` on each leaves the whole one.
    pub fn finish(self) -> Finished<D>
        requires unbroken { self.broken ≡ false }
        ensures finished { IsFinished D.past D.faults self result }
        ensures never_falls { D.faults self.disk ≤ D.faults (finished_disk result) }
    {
        let Draft { disk, place, .. } = self;
        let mut disk = disk;
        match seal(&mut disk, place) {
            Ok(()) => Finished::Done(disk),
            Err(Failed) => Finished::Failed(disk),
        }
    }

    /// How many records were added.
    pub fn records(&self) -> u64
        ensures { result ≡ self.now.records }
    {
        self.records
    }

    /// The disk.
    pub fn into_disk(self) -> D
        ensures { result ≡ self.disk }
    {
        let Draft { disk, .. } = self;
        disk
    }
}

/// Writes an open gate at a place, and a record behind it. Gives the place of the next gate.
fn put_record<D: Disk>(disk: &mut D, place: u64, entry: &Entry) -> Result<u64, Failed>
    requires { (counts : PrincipalCounts) × HasForm counts (kept_entry entry.now) }
    ensures never_falls { D.faults disk.old ≤ D.faults disk.new }
    ensures failed { OnErr result (Rose (D.faults disk.old) (D.faults disk.new)) }
    ensures puts { Puts place (open_record (payload_of (kept_entry entry.now))) (is_ok result) (D.past disk.old) (D.past disk.new) }
    ensures next { IfOk result (λ next. next ≡ place + 5 + length (payload_of (kept_entry entry.now))) }
    ensures few { IfOk result (λ next. next ≤ 2 ^ 62) }
{
    let at = put(disk, place, &[1])?;
    put_counted(disk, at, entry)
}

/// Writes a closed gate at a place, brings all to the disk, and puts the mark in the place of the blank.
fn seal<D: Disk>(disk: &mut D, place: u64) -> Result<(), Failed>
    ensures never_falls { D.faults disk.old ≤ D.faults disk.new }
    ensures failed { OnErr result (Rose (D.faults disk.old) (D.faults disk.new)) }
    ensures seals { Seals place (is_ok result) (D.past disk.old) (D.past disk.new) }
{
    put(disk, place, &[0])?;
    replace(disk, 0, &MARK)
}
