//! Records of each kind, and records with one octet that takes them out of the form.

use crate::cases::{Changed, Ending, NO_RECORD, ask_changes, read_octets, three_users};
use cal_base::NoMemory;
use privileges::Users;
use std::alloc::Global;
use std::process::Abort;
use std::test::Fail;

/// A file with nine records: a PUT of no octets and one in the last second of the year 9999, a DELETE of
/// an object and one of a calendar, a MKCALENDAR without settings and one with a name, a PROPPATCH that
/// sets a name and removes a property, an ACL without grants and one with a grant for everyone, for the
/// owner and for carol.
const EACH_KIND: &[u8; 467] =
    b"caldavjournal 1\n\0\0\0\x1fuser alice\nuser bob\nuser carol\n\x01\0\0\0\"\x01\0\0\0\x02\0\0\0\0\0\0\0\x05\0\xc9\0\0\0\x02\x04work\x05a.ics\0\0\0\0\x01\0\0\0%\x01\0\0\0\x02\0\0\0:\xff\xf4A\x7f\0\xcc\0\0\0\0\x04work\x05a.ics\0\0\0\x03xyz\x01\0\0\0\x1e\x02\0\0\0\x01\0\0\0\0\0\0\0\x05\0\xcc\0\0\0\x01\x04work\x05a.ics\x01\0\0\0\x18\x03\0\0\0\x01\0\0\0\0\0\0\0\x05\0\xcc\0\0\0\x01\x04work\x01\0\0\0 \x04\0\0\0\x01\0\0\0\0\0\0\0\x05\0\xc9\0\0\0\x01\x04work\0\0\0\0\0\0\0\0\x01\0\0\0@\x04\0\0\0\x01\0\0\0\0\0\0\0\x05\0\xc9\0\0\0\x01\x04work\0\0\x01,\0\0\0\x01\0\0\0\x04DAV:\0\0\0\x0bdisplayname\x01\0\0\0\x04Work\x01\0\0\0F\x05\0\0\0\x01\0\0\0\0\0\0\0\x05\0\xcf\0\0\0\x01\x04work\0\0\x01,\0\0\0\x02\0\0\0\x04DAV:\0\0\0\x0bdisplayname\x01\0\0\0\0\0\0\0\0\0\0\0\x01x\0\x01\0\0\0\x1d\x06\0\0\0\x01\0\0\0\0\0\0\0\x05\0\xc8\0\0\0\x01\x04work\0\0\0\n\0\x01\0\0\02\x06\0\0\0\x01\0\0\0\0\0\0\0\x05\0\xc8\0\0\0\x01\x04work\0\0\0\n\x03\0\0\0\0\0\0\x01\x01\0\0\0\0\x01\xff\x02\0\0\0\x02\0\x02\0";

/// That file and changes of it. A record is refused by the place of its gate, behind those in front of it.
const CHANGES: [Changed; 19] = [
    // the octet that stands there
    (0, b'c', (9, Ending::End)),
    // a kind that is none
    (172, 0x00, (3, Ending::Bad(167))),
    (172, 0x07, (3, Ending::Bad(167))),
    // a user, and a home, of nobody
    (176, 0x03, (3, Ending::Bad(167))),
    (190, 0x03, (3, Ending::Bad(167))),
    // the first second of the year 10000
    (107, 0x80, (1, Ending::Bad(90))),
    // a slash and a control in the name of a calendar, a slash in that of an object
    (193, 0x2f, (3, Ending::Bad(167))),
    (193, 0x1f, (3, Ending::Bad(167))),
    (162, 0x2f, (2, Ending::Bad(132))),
    // a mark of a value that is none
    (376, 0x02, (6, Ending::Bad(302))),
    // a grant for everyone with a number, and with a tenth bit
    (449, 0x01, (8, Ending::Bad(411))),
    (450, 0x02, (8, Ending::Bad(411))),
    // a grant for the fourth user, for a group where there is none, of a kind that is none
    (463, 0x03, (8, Ending::Bad(411))),
    (459, 0x03, (8, Ending::Bad(411))),
    (459, 0x04, (8, Ending::Bad(411))),
    // one setting less, and one grant more, than there are
    (269, 0x00, (5, Ending::Bad(233))),
    (444, 0x04, (8, Ending::Bad(411))),
    // an octet of the payload too few, and too many
    (171, 0x17, (3, Ending::Bad(167))),
    (171, 0x19, (3, Ending::Bad(167))),
];

/// Lengths of a payload that none has, and some past the end of a file.
const LENGTHS: [u32; 5] = [0, 134_217_728, 134_217_729, u32::MAX, 2];

/// What is found in a file whose only record has this length and one octet behind it.
fn read_length(alloc: Global, users: &Users, length: u32) -> Result<(u32, Ending), NoMemory> {
    let Ok(mut octets) = Vec::from_slice(alloc, &NO_RECORD[..51]) else {
        return Err(NoMemory);
    };
    let [a, b, c, d] = length.to_be_bytes();
    if octets.extend_from_slice(&[1, a, b, c, d, 0]).is_err() {
        return Err(NoMemory);
    }
    read_octets(alloc, octets.as_slice(), users)
}

/// Lengths past the file are refused.
fn ask_lengths(rt: &impl Abort, alloc: Global, users: &Users) -> Result<(), NoMemory> {
    for length in LENGTHS {
        let found = read_length(alloc, users, length)?;
        assert!(rt; found == (0, Ending::Bad(51)), "a length of {length}");
    }
    Ok(())
}

#[test]
fn records_are_read_where_they_are_in_the_form(rt: HostRuntime) -> Result<(), Fail> {
    let users = three_users(rt.alloc())?;
    let changes = ask_changes(&rt, rt.alloc(), &users, EACH_KIND.as_slice(), &CHANGES);
    let lengths = ask_lengths(&rt, rt.alloc(), &users);
    drop(users);
    changes?;
    Ok(lengths?)
}
