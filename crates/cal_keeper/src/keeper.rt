//! The keeper of a journal file: it appends records.
ghost use Rattle.std.specs.Prelude.{◌≡◌, ℕ, ◌+◌, ◌<◌, ◌≤◌, ◌^◌, Bool, true, false, is_ok, is_err, is_some, if◌then◌else◌, OnErr};
ghost use Rattle.cal_base.specs.World.Outside.{Rose};
ghost use Rattle.cal_journal.specs.KeptEntries.{kept_entry};
ghost use Rattle.cal_keeper.specs.Files.Payloads.{HasForm};
ghost use Rattle.cal_keeper.specs.Files.Appending.{AppendsTo};
ghost use Rattle.cal_keeper.specs.Keepers.{HasCounted};

use crate::commit::commit;
use crate::disk::Disk;
use crate::principals::PrincipalCounts;
use cal_base::Failed;
use cal_journal::Entry;
use std::marker::Model;

/// The fault by which a keeper is broken: a call of its disk failed. Nothing but a broken keeper makes one.
#[derive(Debug, Drop)]
pub struct DiskFault(());

/// A journal file whose records were all read, or which was made. It appends records. After a failure it
/// is broken, and the file is to be opened again.
#[derive(Drop)]
pub struct Keeper<D: Disk> {
    disk: D,
    principals: PrincipalCounts,
    /// Where the closed gate stands.
    place: u64,
    records: u64,
    broken: bool,
}

impl<D: Disk> Model for Keeper<D> {
    ghost use Rattle.std.specs.Prelude.{◌≡◌, ◌<◌, ◌≤◌, ◌^◌, true};
    ghost use Rattle.cal_keeper.specs.Keepers.{KeeperState};

    ghost Value = { KeeperState D };

    ghost view = { λ k. record { disk = k.disk; principals = k.principals; place = k.place; records = k.records; broken = k.broken } };

    ghost invariant = { λ k. (k.place < 2 ^ 62) × (k.records ≤ k.place) × (k.broken ≡ true → 0 < D.faults k.disk) };
}

impl<D: Disk> Keeper<D> {
    /// A keeper of a file, behind its records.
    pub(crate) fn at(disk: D, principals: PrincipalCounts, place: u64, records: u64) -> Keeper<D>
        requires within { place < 2 ^ 62 }
        requires few { records ≤ place }
        ensures { result ≡ record { disk = disk; principals = principals; place = place; records = records; broken = false } }
    {
        Keeper {
            disk,
            principals,
            place,
            records,
            broken: false,
        }
    }

    /// Appends the record of an entry. At `Ok` it is acknowledged: from then on each crash leaves a file
    /// that has it. A crash at any moment of the call leaves a file that stands for the records before, or
    /// for these and the new one. Takes no memory of its own.
    pub fn append(&mut self, entry: &Entry) -> Result<(), Failed>
        requires unbroken { self.old.broken ≡ false }
        requires form { HasForm self.old.principals (kept_entry entry.now) }
        ensures appends { AppendsTo D.past self.old self.new (kept_entry entry.now) (is_ok result) }
        ensures broken { self.new.broken ≡ is_err result }
        ensures records { self.new.records ≡ (if is_ok result then self.old.records + 1 else self.old.records) }
        ensures principals { self.new.principals ≡ self.old.principals }
        ensures failed { OnErr result (Rose (D.faults self.old.disk) (D.faults self.new.disk)) }
        ensures never_falls { D.faults self.old.disk ≤ D.faults self.new.disk }
    {
        match commit(&mut self.disk, self.place, entry) {
            Ok(next) => {
                self.place = next;
                self.records += 1;
                Ok(())
            }
            Err(Failed) => {
                self.broken = true;
                Err(Failed)
            }
        }
    }

    /// How many records were read or appended.
    pub fn records(&self) -> u64
        ensures { result ≡ self.now.records }
    {
        self.records
    }

    /// The fault by which it is broken, if it is. (That its disk counted a fault then holds of each
    /// keeper.)
    pub fn fault(&self) -> Option<DiskFault>
        ensures broken { is_some result ≡ self.now.broken }
        ensures counted { HasCounted D.faults self.now }
    {
        if self.broken {
            Some(DiskFault(()))
        } else {
            None
        }
    }

    /// The disk.
    pub fn into_disk(self) -> D
        ensures { result ≡ self.disk }
    {
        let Keeper { disk, .. } = self;
        disk
    }
}
