//! The files of all scripts.

use crate::texts::put_many;
use crate::users::THREE;
use cal_base::{List, MemoryFiles, NoMemory, Octets};
use std::alloc::Global;

/// A second line that is none: a name begins with a small letter.
const BAD: &[u8] = b"user alice ba7816bf8f01cfea414140de5dae2223b00361a396177a9cb410ff61f20015ad\n\
    user Bob ba7816bf8f01cfea414140de5dae2223b00361a396177a9cb410ff61f20015ad\n";

/// How long a users file may be.
const LIMIT: u64 = 65_536;

/// Two groups, the members of the first in another order than their numbers.
const GROUPS: &[u8] = b"group team carol bob\ngroup own alice bob\n";

/// A group whose member is no user.
const STRANGER: &[u8] = b"group team dave\n";

/// The files: the path, lines, further lines, and how many empty lines stand behind them.
const CONTENTS: [(&[u8], &[u8], &[u8], u64); 6] = [
    (b"users", THREE, b"", 0),
    (b"team", THREE, GROUPS, 0),
    (b"stranger", THREE, STRANGER, 0),
    (b"bad", BAD, b"", 0),
    (b"limit", b"", b"", LIMIT),
    (b"long", b"", b"", LIMIT + 1),
];

/// Lines, further lines, and so many empty ones.
fn lines(alloc: Global, front: &[u8], more: &[u8], count: u64) -> Result<Octets, NoMemory> {
    let mut lines = Octets::of(alloc, front)?;
    lines.extend_from_slice(more)?;
    put_many(&mut lines, b'\n', count)?;
    Ok(lines)
}

/// Puts the files behind others.
fn put_files(alloc: Global, files: &mut List<(Octets, Octets)>) -> Result<(), NoMemory> {
    for (path, front, more, count) in CONTENTS {
        let path = Octets::of(alloc, path)?;
        let lines = lines(alloc, front, more, count)?;
        files.push((path, lines))?;
    }
    Ok(())
}

/// The files, none of whose reads fail.
pub fn files(alloc: Global) -> Result<MemoryFiles, NoMemory> {
    let mut files = List::new(alloc);
    put_files(alloc, &mut files)?;
    Ok(MemoryFiles::new(files, List::new(alloc)))
}
