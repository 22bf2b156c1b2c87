//! The reader of a journal file.
ghost use Rattle.std.specs.Prelude.{◌≡◌, ◌+◌, ◌≤◌, ◌^◌, length, drop, IfSome};
ghost use Rattle.cal_keeper.specs.Disks.CrashModel.{reading};
ghost use Rattle.cal_keeper.specs.Files.NextEntries.{IsFound, disk_left};
ghost use Rattle.cal_keeper.specs.Files.RecordForm.{IsPayloadSize, HasRecord};
ghost use Rattle.cal_keeper.specs.Principals.{counts_of, AreFew};
ghost use Rattle.cal_keeper.specs.Steps.RecordSteps.{FindsBehind};

use crate::decoding::read_event;
use crate::disk::Disk;
use crate::keeper::Keeper;
use crate::principals::PrincipalCounts;
use crate::record_reading::{NoRecord, read_record};
use cal_base::{NoMemory, Octets};
use cal_model::Event;
use privileges::Users;
use std::alloc::Global;
use std::marker::Model;

/// What a reader found next. Each end gives the disk back, alone or in what is found.
#[derive(Drop)]
pub enum NextEntry<D: Disk> {
    /// The event of a record and its status, and the reader behind it.
    Entry(Reader<D>, Event, u16),
    /// There is no further record.
    End(Keeper<D>),
    /// At this place neither a record in the form nor a closed gate stands.
    Bad(D, u64),
    /// A call failed, and was counted.
    Failed(D),
    /// There was no memory: the reader is as it was.
    NoMemory(Reader<D>),
}

/// A journal file that is read, record by record.
#[derive(Drop)]
pub struct Reader<D: Disk> {
    disk: D,
    principals: PrincipalCounts,
    /// The place of the next gate.
    place: u64,
    records: u64,
}

impl<D: Disk> Model for Reader<D> {
    ghost use Rattle.std.specs.Prelude.{◌<◌, ◌≤◌, ◌^◌};
    ghost use Rattle.cal_keeper.specs.Keepers.{ReaderState};
    ghost use Rattle.cal_keeper.specs.Principals.{AreFew};

    ghost Value = { ReaderState D };

    ghost view = { λ r. record { disk = r.disk; principals = r.principals; place = r.place; records = r.records } };

    ghost invariant = { λ r. (r.place ≤ 2 ^ 62) × (r.records ≤ r.place) × AreFew r.principals };
}

impl<D: Disk> Reader<D> {
    /// A reader in front of the first record.
    pub(crate) fn at(disk: D, principals: PrincipalCounts, place: u64) -> Reader<D>
        requires within { place ≤ 2 ^ 62 }
        requires few { AreFew principals }
        ensures { result ≡ record { disk = disk; principals = principals; place = place; records = 0 } }
    {
        Reader {
            disk,
            principals,
            place,
            records: 0,
        }
    }

    /// The next event, with its status; or a keeper, where there is none. The users are those of the
    /// file. Takes memory for one record at most.
    pub fn next(self, alloc: Global, users: &Users) -> NextEntry<D>
        requires { counts_of users.now ≡ self.principals }
        ensures found { IsFound D.past D.faults users.now self result }
        ensures past_kept { D.past (disk_left result) ≡ D.past self.disk }
        ensures never_falls { D.faults self.disk ≤ D.faults (disk_left result) }
    {
        let Reader {
            disk,
            principals,
            place,
            records,
        } = self;
        let mut disk = disk;
        match read_record(alloc, &mut disk, place) {
            Ok(None) => NextEntry::End(Keeper::at(disk, principals, place, records)),
            Ok(Some(payload)) => { behind(alloc, users, disk, principals, place, records, payload) }
            Err(NoRecord::Bad) => NextEntry::Bad(disk, place),
            Err(NoRecord::Failed) => NextEntry::Failed(disk),
            Err(NoRecord::NoMemory) => NextEntry::NoMemory(Reader {
                disk,
                principals,
                place,
                records,
            }),
        }
    }

    /// The place of the next gate.
    pub fn place(&self) -> u64
        ensures { result ≡ self.now.place }
    {
        self.place
    }

    /// The disk.
    pub fn into_disk(self) -> D
        ensures { result ≡ self.disk }
    {
        let Reader { disk, .. } = self;
        disk
    }
}

/// What the record at a place, whose payload was read, is found to be.
fn behind<D: Disk>(
    alloc: Global,
    users: &Users,
    disk: D,
    principals: PrincipalCounts,
    place: u64,
    records: u64,
    payload: Octets,
) -> NextEntry<D>
    requires counts { counts_of users.now ≡ principals }
    requires known { AreFew principals }
    requires size { IsPayloadSize (length payload) }
    requires within { place + 5 + length payload ≤ 2 ^ 62 }
    requires few { records ≤ place }
    requires there { IfSome (D.past disk) (λ p. HasRecord payload (drop place (reading p))) }
    ensures found { FindsBehind D.past D.faults users.now (record { disk = disk; principals = principals; place = place; records = records }) result }
    ensures past_kept { D.past (disk_left result) ≡ D.past disk }
    ensures never_falls { D.faults disk ≤ D.faults (disk_left result) }
{
    match read_event(alloc, users, payload.as_slice()) {
        Ok(Some((event, status))) => {
            let reader = Reader {
                disk,
                principals,
                place: place + 5 + payload.len() as u64,
                records: records + 1,
            };
            NextEntry::Entry(reader, event, status)
        }
        Ok(None) => NextEntry::Bad(disk, place),
        Err(NoMemory) => NextEntry::NoMemory(Reader {
            disk,
            principals,
            place,
            records,
        }),
    }
}
