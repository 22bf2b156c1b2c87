//! A journal that is carried over to other users, with a stop and a failure at each call of either disk.

use crate::cases::{Ending, USERS, count_right_stops, is_same, leaves, memory_disk, read_octets};
use cal_base::{Arc, NoMemory};
use cal_keeper::MemoryDisk;
use journal_migration::{Migrated, migrate};
use privileges::{Users, read_users};
use std::alloc::Global;
use std::process::Abort;
use std::test::Fail;

/// The three users in another order, one more between them, and a group.
const NEW_USERS: &str =
    "user bob ba7816bf8f01cfea414140de5dae2223b00361a396177a9cb410ff61f20015ad\nuser dave ba7816bf8f01cfea414140de5dae2223b00361a396177a9cb410ff61f20015ad\nuser alice ba7816bf8f01cfea414140de5dae2223b00361a396177a9cb410ff61f20015ad\nuser carol ba7816bf8f01cfea414140de5dae2223b00361a396177a9cb410ff61f20015ad\ngroup team bob dave\n";

/// The journal of the three users: bob deletes his calendar `calendar`, and then carol hers, with 204.
const OLD: &[u8] =
    b"caldavjournal 1\n\0\0\0\x1fuser alice\nuser bob\nuser carol\n\x01\0\0\0\x1c\x03\0\0\0\x01\0\0\0\0\x67\xce\xb5\0\0\xcc\0\0\0\x01\x08calendar\x01\0\0\0\x1c\x03\0\0\0\x02\0\0\0\0\x67\xce\xb5\x01\0\xcc\0\0\0\x02\x08calendar\0";

/// The same for the new users: bob is user 0, and carol is user 3.
const NEW: &[u8] =
    b"caldavjournal 1\n\0\0\0\x3duser bob\nuser dave\nuser alice\nuser carol\ngroup team bob dave\n\x01\0\0\0\x1c\x03\0\0\0\0\0\0\0\0\x67\xce\xb5\0\0\xcc\0\0\0\0\x08calendar\x01\0\0\0\x1c\x03\0\0\0\x03\0\0\0\0\x67\xce\xb5\x01\0\xcc\0\0\0\x03\x08calendar\0";

/// The users of a text.
fn shared(alloc: Global, text: &str) -> Result<Arc<Users>, Fail> {
    Ok(Arc::new(alloc, read_users(alloc, text.as_bytes())?)?)
}

/// The users of the journal, and those to whom it is carried over.
type Both<'a> = (&'a Arc<Users>, &'a Arc<Users>);

/// Carries the journal over, where the calls with these numbers fail, of the old file's disk and of the new
/// one's. Gives how that ended, and both disks.
fn carried(
    alloc: Global,
    users: Both<'_>,
    old_failing: &[u64],
    new_failing: &[u64],
) -> Result<(Migrated, MemoryDisk, MemoryDisk), NoMemory> {
    let before = Arc::try_clone(users.0)?;
    let after = Arc::try_clone(users.1)?;
    let from = memory_disk(alloc, OLD, old_failing)?;
    match memory_disk(alloc, &[], new_failing) {
        Ok(to) => Ok(migrate(alloc, before, after, from, to)),
        Err(NoMemory) => {
            drop(from);
            Err(NoMemory)
        }
    }
}

/// How many stops, written and not, leave the old file as it was.
fn count_kept(disk: &MemoryDisk) -> Result<u64, NoMemory> {
    let mut count = 0u64;
    for call in 0..disk.calls() {
        let torn = leaves(disk, call, false, OLD)?;
        let whole = leaves(disk, call, true, OLD)?;
        if torn && whole {
            count = count.wrapping_add(1);
        }
    }
    Ok(count)
}

/// Of a run without a failure: whether the new file is whole; and of each disk how many calls there were, and
/// of how many of these a stop leaves what it should.
fn stops_of_run(
    alloc: Global,
    users: Both<'_>,
) -> Result<(bool, (u64, u64), (u64, u64)), NoMemory> {
    let (end, from, to) = carried(alloc, users, &[], &[])?;
    let done = end == Migrated::Done && is_same(to.octets(), NEW);
    let kept = count_kept(&from);
    let none = (0, Ending::NotJournal);
    let right = count_right_stops(alloc, users.1, &to, 0, none, (2, Ending::End));
    let calls = (from.calls(), to.calls());
    drop((from, to));
    Ok((done, (calls.0, kept?), (calls.1, right?)))
}

/// A run of whose calls ones fail: how it ended, whether the old file stays, what is found in the new one, and
/// whether its disk was called.
fn failing_run(
    alloc: Global,
    users: Both<'_>,
    old_failing: &[u64],
    new_failing: &[u64],
) -> Result<(Migrated, bool, (u32, Ending), bool), NoMemory> {
    let (end, from, to) = carried(alloc, users, old_failing, new_failing)?;
    let stays = is_same(from.octets(), OLD);
    let found = read_octets(alloc, to.octets(), users.1);
    let called = to.calls() != 0;
    drop((from, to));
    Ok((end, stays, found?, called))
}

/// How a run ends of whose calls of the new disk this one fails, of `calls` in all. The first five begin the
/// file. Without the last sync it may be whole, and is not acknowledged.
fn ended_with_failure(call: u64, calls: u64) -> (Migrated, bool, (u32, Ending), bool) {
    let told = if call < 5 {
        Migrated::NotBegun
    } else {
        Migrated::NewFailed
    };
    let left = if call.saturating_add(1) < calls {
        (0, Ending::NotJournal)
    } else {
        (2, Ending::End)
    };
    (told, true, left, true)
}

/// A stop leaves the old journal, and no new one or the whole; each call of the old disk that fails leaves
/// the new file alone, and each of the new disk is told.
fn ask(rt: &impl Abort, alloc: Global, users: Both<'_>) -> Result<(), NoMemory> {
    let (done, old, new) = stops_of_run(alloc, users)?;
    assert!(rt; done, "carried over");
    assert!(rt;
        5 < old.0 && old.1 == old.0,
        "right stops of the old disk: {old:?}"
    );
    assert!(rt;
        20 < new.0 && new.1 == new.0,
        "right stops of the new disk: {new:?}"
    );
    for call in 0..old.0 {
        let ended = failing_run(alloc, users, &[call], &[])?;
        let wanted = (Migrated::OldFailed, true, (0, Ending::NotJournal), false);
        assert!(rt; ended == wanted, "call {call} of the old disk failed");
    }
    for call in 0..new.0 {
        let ended = failing_run(alloc, users, &[], &[call])?;
        assert!(rt;
            ended == ended_with_failure(call, new.0),
            "call {call} of the new disk failed"
        );
    }
    Ok(())
}

#[test]
fn a_journal_is_carried_over_whole_or_not_at_all(rt: HostRuntime) -> Result<(), Fail> {
    let before = shared(rt.alloc(), USERS)?;
    let after = shared(rt.alloc(), NEW_USERS)?;
    let asked = ask(&rt, rt.alloc(), (&before, &after));
    drop((before, after));
    Ok(asked?)
}
