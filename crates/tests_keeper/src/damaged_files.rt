//! Files that were cut, and files of which an octet was changed.

use crate::cases::{Ending, ONE_PUT, read_changed, read_octets, three_users};
use cal_base::NoMemory;
use privileges::Users;
use std::alloc::Global;
use std::process::Abort;
use std::test::Fail;

/// What is found where the worked file is cut behind so many octets.
fn found_in_front(count: usize) -> (u32, Ending) {
    match count {
        0..=50 => (0, Ending::NotJournal),
        51..=286 => (0, Ending::Bad(51)),
        287 => (1, Ending::Bad(287)),
        _ => (1, Ending::End),
    }
}

/// A file that is cut is refused where it ends.
fn ask_cut(rt: &impl Abort, alloc: Global, users: &Users) -> Result<(), NoMemory> {
    for count in 0..=ONE_PUT.len() {
        let found = read_octets(alloc, &ONE_PUT[..count], users)?;
        assert!(rt; found == found_in_front(count), "cut behind {count}");
    }
    Ok(())
}

/// What is found where all bits of one octet are turned.
fn found_with_all_turned(place: usize) -> (u32, Ending) {
    match place {
        // the mark, and a length past the end of the file
        0..=18 => (0, Ending::NotJournal),
        // a text of 224 octets, of which those of the users are the first 31
        19 => (0, Ending::OtherUsers(31)),
        20..=50 => (0, Ending::OtherUsers(place as u64 - 20)),
        // the moment from its fifth octet on, the status, the object, and the gates
        51 => (0, Ending::End),
        65..=70 | 96..=287 => (1, Ending::End),
        _ => (0, Ending::Bad(51)),
    }
}

/// What is found where the last bit of one octet is turned.
fn found_with_last_turned(place: usize) -> (u32, Ending) {
    match place {
        0..=18 => (0, Ending::NotJournal),
        // a text of 30 octets
        19 => (0, Ending::OtherUsers(30)),
        20..=50 => (0, Ending::OtherUsers(place as u64 - 20)),
        51 => (0, Ending::End),
        // a name with a slash
        88 => (0, Ending::Bad(51)),
        // another user, another moment, another status, another home, other names, another object
        60 | 64..=70 | 74 | 76..=83 | 85..=91 | 96..=286 => (1, Ending::End),
        287 => (1, Ending::Bad(287)),
        _ => (0, Ending::Bad(51)),
    }
}

/// An octet that was changed is found, or is another entry.
fn ask_turned(rt: &impl Abort, alloc: Global, users: &Users) -> Result<(), NoMemory> {
    let file = ONE_PUT.as_slice();
    for place in 0..ONE_PUT.len() {
        let octet = ONE_PUT[place];
        let all = read_changed(alloc, file, users, place, octet ^ 0xff)?;
        assert!(rt; all == found_with_all_turned(place), "all bits of {place}");
        let last = read_changed(alloc, file, users, place, octet ^ 1)?;
        assert!(rt;
            last == found_with_last_turned(place),
            "last bit of {place}"
        );
    }
    Ok(())
}

#[test]
fn a_damaged_file_is_refused_or_is_another(rt: HostRuntime) -> Result<(), Fail> {
    let users = three_users(rt.alloc())?;
    let cut = ask_cut(&rt, rt.alloc(), &users);
    let turned = ask_turned(&rt, rt.alloc(), &users);
    drop(users);
    cut?;
    Ok(turned?)
}
