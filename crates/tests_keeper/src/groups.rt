//! Files of users with groups, and records of grants to groups.

use crate::cases::{Changed, Ending, USERS, ask_changes, is_same, memory_disk, read_octets};
use cal_base::NoMemory;
use cal_keeper::{Created, create};
use privileges::{Users, read_users};
use std::alloc::Global;
use std::process::Abort;
use std::test::Fail;

/// Three users and two groups, of which one names its members in another order than that of their numbers.
const GROUPED: &str =
    "user alice ba7816bf8f01cfea414140de5dae2223b00361a396177a9cb410ff61f20015ad\nuser bob ba7816bf8f01cfea414140de5dae2223b00361a396177a9cb410ff61f20015ad\ngroup crew alice\nuser carol ba7816bf8f01cfea414140de5dae2223b00361a396177a9cb410ff61f20015ad\ngroup team carol bob\n";

/// The same users and groups, of which the second has one member less.
const REGROUPED: &str =
    "user alice ba7816bf8f01cfea414140de5dae2223b00361a396177a9cb410ff61f20015ad\nuser bob ba7816bf8f01cfea414140de5dae2223b00361a396177a9cb410ff61f20015ad\nuser carol ba7816bf8f01cfea414140de5dae2223b00361a396177a9cb410ff61f20015ad\ngroup crew alice\ngroup team bob\n";

/// The file of the grouped users without records.
const NO_RECORD: &[u8; 90] =
    b"caldavjournal 1\n\0\0\0\x45user alice\nuser bob\nuser carol\ngroup crew alice\ngroup team bob carol\n\0";

/// The worked file of a grant to a group: alice's ACL of her calendar `calendar`, at 1741600000, with 200,
/// which grants 3, read, to the second group. Its gates are at 89 and 134.
const ONE_GRANT: &[u8; 135] =
    b"caldavjournal 1\n\0\0\0\x45user alice\nuser bob\nuser carol\ngroup crew alice\ngroup team bob carol\n\x01\0\0\0\x28\x06\0\0\0\0\0\0\0\0\x67\xce\xb5\0\0\xc8\0\0\0\0\x08calendar\0\0\x01\x2c\x01\x03\0\0\0\x01\0\x03\0";

/// Whether a new file of these users has the groups behind the users, and a closed gate.
fn makes_header(alloc: Global, users: &Users) -> Result<bool, NoMemory> {
    match create(alloc, memory_disk(alloc, &[], &[])?, users) {
        Created::Done(keeper) => {
            let disk = keeper.into_disk();
            let made = is_same(disk.octets(), NO_RECORD.as_slice());
            drop(disk);
            Ok(made)
        }
        other => {
            drop(other);
            Ok(false)
        }
    }
}

/// Texts of users without groups and with others, and the place at which that of the worked file differs.
const OTHERS: [(&str, u64); 2] = [(USERS, 31), (REGROUPED, 62)];

/// What is found in the worked file for the users of a text.
fn found_for(alloc: Global, text: &str) -> Result<(u32, Ending), Fail> {
    let users = read_users(alloc, text.as_bytes())?;
    let found = read_octets(alloc, ONE_GRANT.as_slice(), &users);
    drop(users);
    Ok(found?)
}

/// The worked file and changes of it.
const CHANGES: [Changed; 10] = [
    // the octet that stands there
    (0, b'c', (1, Ending::End)),
    // the first group, and the third user
    (131, 0x00, (1, Ending::End)),
    (127, 0x02, (1, Ending::End)),
    // a group, and a user, that is not there
    (131, 0x02, (0, Ending::Bad(89))),
    (130, 0x01, (0, Ending::Bad(89))),
    (128, 0x01, (0, Ending::Bad(89))),
    // everyone and the owner with a number, and a kind that is none
    (127, 0x00, (0, Ending::Bad(89))),
    (127, 0x01, (0, Ending::Bad(89))),
    (127, 0x04, (0, Ending::Bad(89))),
    // a tenth bit
    (132, 0x02, (0, Ending::Bad(89))),
];

/// A header has the groups behind the users, and a grant is to a group that there is.
fn ask(rt: &impl Abort, alloc: Global, users: &Users) -> Result<(), NoMemory> {
    assert!(rt; makes_header(alloc, users)?, "the header");
    ask_changes(rt, alloc, users, ONE_GRANT.as_slice(), &CHANGES)
}

#[test]
fn groups_stand_in_headers_and_grants(rt: HostRuntime) -> Result<(), Fail> {
    for (text, place) in OTHERS {
        let found = found_for(rt.alloc(), text)?;
        assert!(rt;
            found == (0, Ending::OtherUsers(place)),
            "others at {place}"
        );
    }
    let users = read_users(rt.alloc(), GROUPED.as_bytes())?;
    let asked = ask(&rt, rt.alloc(), &users);
    drop(users);
    Ok(asked?)
}
