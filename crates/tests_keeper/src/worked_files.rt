//! The worked file, written and read, with a stop and a failure at each call.
ghost use Rattle.std.specs.Prelude.{◌≡◌};
ghost use Rattle.cal_keeper.specs.Principals.{counts_of};

use crate::cases::{
    Ending, NO_RECORD, ONE_DELETION, ONE_PUT, count_right_stops, found_behind, is_same, keep,
    leaves, memory_disk, read_whole, three_users,
};
use cal_base::NoMemory;
use cal_keeper::{MemoryDisk, NextEntry, Opened, Reader, open};
use cal_model::{Content, Event, Method, Path};
use privileges::Users;
use std::alloc::Global;
use std::process::Abort;
use std::test::Fail;

/// How many calls of the disk make a new file.
const CREATING: u64 = 4;

/// Of a file with one record: whether it has the octets of the worked one and was made as it should, a stop
/// within the last call that makes it leaving no record; how many calls there were; and of how many behind
/// its making a stop leaves the records before or one more.
fn kept_deletion(alloc: Global, users: &Users) -> Result<(bool, u64, u64), NoMemory> {
    let (disk, kept) = keep(alloc, memory_disk(alloc, &[], &[])?, users, false);
    let whole = is_same(disk.octets(), ONE_DELETION.as_slice());
    let made = leaves(&disk, CREATING - 1, true, NO_RECORD.as_slice());
    let (none, one) = ((0, Ending::End), (1, Ending::End));
    let right = count_right_stops(alloc, users, &disk, CREATING, none, one);
    let calls = disk.calls();
    drop(disk);
    let made = made?;
    Ok((kept? && whole && made, calls, right?))
}

/// Whether all goes through where a call fails, of `calls` in all, and what is found in the file then.
fn ended_with_failure(call: u64, calls: u64) -> (bool, (u32, Ending)) {
    match call {
        0 | 1 => (false, (0, Ending::NotJournal)),
        2 => (false, (0, Ending::Bad(51))),
        _ => match calls.saturating_sub(call) {
            0 => (true, (1, Ending::End)),
            1 => (false, (1, Ending::End)),
            _ => (false, (0, Ending::End)),
        },
    }
}

/// How many of the calls that read the worked file whole each end the reading where they fail.
fn count_failing(alloc: Global, users: &Users) -> Result<u64, NoMemory> {
    for call in 0..1_000u64 {
        match read_whole(
            alloc,
            memory_disk(alloc, ONE_PUT.as_slice(), &[call])?,
            users,
        ) {
            (_, Ending::Failed) => {}
            (1, Ending::End) => return Ok(call),
            _ => return Ok(0),
        }
    }
    Ok(0)
}

/// Whether an event is the worked PUT.
fn is_worked_put(event: &Event) -> bool {
    let Path::Object(user, calendar, object) = &event.request.path else {
        return false;
    };
    let Content::Put { media_ok, octets } = &event.request.content else {
        return false;
    };
    let file = ONE_PUT.as_slice();
    let is_asked = event.session == 0 && event.who == 0 && event.moment == 1_741_600_000;
    is_asked
        && event.request.method == Method::Put
        && event.request.size == 191
        && is_same(user.as_slice(), b"alice")
        && is_same(calendar.as_slice(), b"calendar")
        && is_same(object.as_slice(), b"one.ics")
        && *media_ok
        && is_same(octets.as_slice(), &file[96..287])
}

/// Whether the worked file gives the worked PUT with its status.
fn reads_worked_put(alloc: Global, users: &Users) -> Result<bool, NoMemory> {
    let disk = memory_disk(alloc, ONE_PUT.as_slice(), &[])?;
    match open(alloc, disk, users) {
        Opened::Ready(reader) => Ok(gives_worked_put(alloc, reader, users)),
        other => {
            drop(other);
            Ok(false)
        }
    }
}

/// Whether a reader of it does.
fn gives_worked_put(alloc: Global, reader: Reader<MemoryDisk>, users: &Users) -> bool
    requires { counts_of users.now ≡ reader.principals }
{
    match reader.next(alloc, users) {
        NextEntry::Entry(behind, event, status) => {
            let place = behind.place();
            drop(behind);
            let is_put = is_worked_put(&event);
            drop(event);
            is_put && place == 287 && status == 201
        }
        other => {
            drop(other);
            false
        }
    }
}

/// A stop at each call leaves the records before or one more, each call that fails is answered, each read
/// that fails ends the reading, and the worked PUT is read.
fn ask(rt: &impl Abort, alloc: Global, users: &Users) -> Result<(), NoMemory> {
    let (made, calls, right) = kept_deletion(alloc, users)?;
    assert!(rt; made, "the worked deletion");
    assert!(rt;
        CREATING < calls && right == calls.saturating_sub(CREATING),
        "right stops: {right} of {calls}"
    );
    for call in 0..=calls {
        let disk = memory_disk(alloc, &[], &[call])?;
        let ended = found_behind(alloc, users, keep(alloc, disk, users, false))?;
        assert!(rt;
            ended == ended_with_failure(call, calls),
            "call {call} failed"
        );
    }
    let count = count_failing(alloc, users)?;
    assert!(rt; 5 <= count, "right reads: {count}");
    assert!(rt; reads_worked_put(alloc, users)?, "the worked PUT");
    Ok(())
}

#[test]
fn the_worked_files_are_written_and_read(rt: HostRuntime) -> Result<(), Fail> {
    let users = three_users(rt.alloc())?;
    let asked = ask(&rt, rt.alloc(), &users);
    drop(users);
    Ok(asked?)
}
