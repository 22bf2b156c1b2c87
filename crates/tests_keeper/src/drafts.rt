//! A file with three records that is written whole, with a stop and a failure at each call, and one whose
//! records were appended.
ghost use Rattle.std.specs.Prelude.{◌≡◌, ◌<◌, false, true, length, IfOk};
ghost use Rattle.cal_journal.specs.KeptEntries.{kept_entry};
ghost use Rattle.cal_keeper.specs.Files.Payloads.{HasForm};
ghost use Rattle.cal_keeper.specs.Principals.{counts_of};

use crate::cases::{
    Ending, ONE_DELETION, count_right_stops, deletion, deletion_by, found_behind, is_same, keep,
    memory_disk, three_users,
};
use cal_base::NoMemory;
use cal_journal::Entry;
use cal_keeper::{Draft, Drafted, Finished, MemoryDisk, begin_draft};
use privileges::Users;
use std::alloc::Global;
use std::process::Abort;
use std::test::Fail;

/// Adds the record of an entry to a file of these users, and says whether that went through.
fn add(
    draft: &mut Draft<MemoryDisk>,
    users: &Users,
    entry: Result<Entry, NoMemory>,
) -> Result<bool, NoMemory>
    requires own { draft.old.principals ≡ counts_of users.now }
    requires unbroken { draft.old.broken ≡ false }
    requires form { IfOk entry (λ made. HasForm (counts_of users.now) (kept_entry made)) }
    ensures own { draft.new.principals ≡ counts_of users.now }
    ensures unbroken { IfOk result (λ added. added ≡ true → draft.new.broken ≡ false) }
{
    let _ = users;
    let entry = entry?;
    let added = draft.add(&entry).is_ok();
    drop(entry);
    Ok(added)
}

/// Adds the three records, and says whether all went through.
fn add_three(alloc: Global, draft: &mut Draft<MemoryDisk>, users: &Users) -> Result<bool, NoMemory>
    requires two { 1 < length users.now.people }
    requires own { draft.old.principals ≡ counts_of users.now }
    requires unbroken { draft.old.broken ≡ false }
    ensures unbroken { IfOk result (λ added. added ≡ true → draft.new.broken ≡ false) }
{
    if !add(draft, users, deletion_by(alloc, users, 0))? {
        return Ok(false);
    }
    if !add(draft, users, deletion_by(alloc, users, 1))? {
        return Ok(false);
    }
    add(draft, users, deletion(alloc, users))
}

/// Writes the file whole on a disk. Gives the disk, and whether all went through.
fn draft_three(
    alloc: Global,
    disk: MemoryDisk,
    users: &Users,
) -> (MemoryDisk, Result<bool, NoMemory>) {
    if users.len() < 2 {
        return (disk, Ok(false));
    }
    match begin_draft(alloc, disk, users) {
        Drafted::Begun(draft) => finish_three(alloc, draft, users),
        Drafted::NotEmpty(disk, _) => (disk, Ok(false)),
        Drafted::Failed(disk) => (disk, Ok(false)),
        Drafted::NoMemory(disk) => (disk, Err(NoMemory)),
    }
}

/// Adds them to a file that was begun, and finishes it.
fn finish_three(
    alloc: Global,
    draft: Draft<MemoryDisk>,
    users: &Users,
) -> (MemoryDisk, Result<bool, NoMemory>)
    requires two { 1 < length users.now.people }
    requires own { draft.principals ≡ counts_of users.now }
    requires unbroken { draft.broken ≡ false }
{
    let mut draft = draft;
    match add_three(alloc, &mut draft, users) {
        Ok(true) => match draft.finish() {
            Finished::Done(disk) => (disk, Ok(true)),
            Finished::Failed(disk) => (disk, Ok(false)),
        },
        added => (draft.into_disk(), added),
    }
}

/// Whether a file whose records were appended has these octets.
fn is_kept_as(alloc: Global, users: &Users, octets: &[u8]) -> Result<bool, NoMemory> {
    let (disk, kept) = keep(alloc, memory_disk(alloc, &[], &[])?, users, true);
    let same = is_same(disk.octets(), octets);
    drop(disk);
    Ok(kept? && same)
}

/// Of the file that is written whole: whether it has the octets of the one whose records were appended, how
/// many calls write it, and of how many of these a stop leaves no journal or the whole.
fn drafted(alloc: Global, users: &Users) -> Result<(bool, u64, u64), NoMemory> {
    let (disk, whole) = draft_three(alloc, memory_disk(alloc, &[], &[])?, users);
    let same = is_kept_as(alloc, users, disk.octets());
    let none = (0, Ending::NotJournal);
    let right = count_right_stops(alloc, users, &disk, 0, none, (3, Ending::End));
    let calls = disk.calls();
    drop(disk);
    let same = same?;
    Ok((whole? && same, calls, right?))
}

/// Whether all goes through where a call fails, of `calls` in all, and what is found in the file then.
/// Without the last sync it may be whole, and is not acknowledged.
fn ended_with_failure(call: u64, calls: u64) -> (bool, (u32, Ending)) {
    match calls.saturating_sub(call) {
        0 => (true, (3, Ending::End)),
        1 => (false, (3, Ending::End)),
        _ => (false, (0, Ending::NotJournal)),
    }
}

/// How many octets are found in the way of a file that is to be written whole, and whether they stay.
fn found_in_the_way(alloc: Global, users: &Users) -> Result<(u64, bool), NoMemory> {
    match begin_draft(alloc, memory_disk(alloc, ONE_DELETION, &[])?, users) {
        Drafted::NotEmpty(disk, octets) => {
            let stays = is_same(disk.octets(), ONE_DELETION);
            drop(disk);
            Ok((octets, stays))
        }
        other => {
            drop(other);
            Ok((0, false))
        }
    }
}

/// A file written whole is as one appended to, a stop leaves no journal or the whole, each call that fails
/// ends the writing, and a file is not written over.
fn ask(rt: &impl Abort, alloc: Global, users: &Users) -> Result<(), NoMemory> {
    let (same, calls, right) = drafted(alloc, users)?;
    assert!(rt; same, "as one appended to");
    assert!(rt;
        20 < calls && right == calls,
        "right stops: {right} of {calls}"
    );
    for call in 0..=calls {
        let disk = memory_disk(alloc, &[], &[call])?;
        let ended = found_behind(alloc, users, draft_three(alloc, disk, users))?;
        assert!(rt;
            ended == ended_with_failure(call, calls),
            "call {call} failed"
        );
    }
    let found = found_in_the_way(alloc, users)?;
    assert!(rt; found == (85, true), "written over");
    Ok(())
}

#[test]
fn a_file_is_written_whole_or_not_at_all(rt: HostRuntime) -> Result<(), Fail> {
    let users = three_users(rt.alloc())?;
    let asked = ask(&rt, rt.alloc(), &users);
    drop(users);
    Ok(asked?)
}
