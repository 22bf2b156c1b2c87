//! Files of the system: made, locked, read back, and compared with the disk in memory.

use crate::cases::{Ending, ONE_DELETION, is_same, keep, memory_disk, read_whole, three_users};
use cal_base::{NoMemory, Word};
use cal_keeper::{Disk, FileDisk, MemoryDisk};
use privileges::Users;
use std::alloc::Global;
use std::fs::{File, Files};
use std::test::Fail;
use std::{fs, io};

/// The path of a file of this process.
fn path_of(rt: &HostRuntime, name: &str) -> io::Result<String> {
    let number = std::process::id(rt.process());
    Ok(format!(in rt.alloc(); "/tmp/cal_keeper-{name}-{number}")?)
}

/// The disk of the file at a path.
fn disk_at<R: Files<File = File> + Copy + Drop>(
    rt: &R,
    alloc: Global,
    path: &str,
) -> Result<FileDisk<R>, NoMemory> {
    Ok(FileDisk::new(rt, alloc, Word::of(alloc, path)?))
}

/// Whether the file at a path is not there yet.
fn is_absent<R: Files<File = File> + Copy + Drop>(
    rt: &R,
    alloc: Global,
    path: &str,
) -> Result<bool, NoMemory> {
    let mut disk = disk_at(rt, alloc, path)?;
    let absent = disk.len() == Ok(0) && disk.sync().is_ok();
    drop(disk);
    Ok(absent)
}

/// Whether every call of a disk fails.
fn fails<D: Disk>(disk: &mut D) -> bool {
    let is_silent = disk.len().is_err() && disk.read_at(0, &mut [0; 4]).is_err();
    is_silent && disk.write_at(0, b"x").is_err() && disk.sync().is_err()
}

/// Whether a disk is refused what stands at a path.
fn is_refused<R: Files<File = File> + Copy + Drop>(
    rt: &R,
    alloc: Global,
    path: &str,
) -> Result<bool, NoMemory> {
    let mut disk = disk_at(rt, alloc, path)?;
    let refused = fails(&mut disk);
    drop(disk);
    Ok(refused)
}

/// Whether a file with one record is made at a path, and is refused to a second disk as long as the first
/// has it.
fn is_kept_alone<R: Files<File = File> + Copy + Drop>(
    rt: &R,
    alloc: Global,
    path: &str,
    users: &Users,
) -> Result<bool, NoMemory> {
    let (first, kept) = keep(alloc, disk_at(rt, alloc, path)?, users, false);
    let second = is_refused(rt, alloc, path);
    drop(first);
    Ok(kept? && second?)
}

/// Whether a file is made at a path, kept from others and read back, and a folder is refused.
fn is_kept<R: Files<File = File> + Copy + Drop>(
    rt: &R,
    alloc: Global,
    path: &str,
    users: &Users,
) -> Result<bool, NoMemory> {
    let is_new = is_absent(rt, alloc, path)?;
    let is_alone = is_kept_alone(rt, alloc, path, users)?;
    let is_folder_refused = is_refused(rt, alloc, "/tmp")?;
    let found = read_whole(alloc, disk_at(rt, alloc, path)?, users);
    Ok(is_new && is_alone && is_folder_refused && found == (1, Ending::End))
}

/// Whether the file at a path has these octets. The file is removed.
fn had_octets(rt: &HostRuntime, path: &str, octets: &[u8]) -> io::Result<bool> {
    let found = fs::read(rt, path)?;
    let same = is_same(found.as_slice(), octets);
    drop(found);
    fs::remove_file(rt, path)?;
    Ok(same)
}

#[test]
fn a_file_is_made_locked_and_read_back(rt: HostRuntime) -> Result<(), Fail> {
    let path = path_of(&rt, "kept")?;
    let users = three_users(rt.alloc())?;
    let kept = is_kept(&rt, rt.alloc(), path.as_str(), &users);
    drop(users);
    let same = had_octets(&rt, path.as_str(), ONE_DELETION.as_slice());
    drop(path);
    let right = kept? && same?;
    assert!(rt; right);
    Ok(())
}

/// A call of a disk.
enum Call {
    /// So many octets are written at a place.
    Write(u64, usize),
    /// At most so many octets are read from a place on.
    Read(u64, usize),
    Sync,
}

const CALL_COUNT: usize = 34;

/// Calls at the edges of what is gathered and of what is read at once, 262,144 octets.
const CALLS: [Call; CALL_COUNT] = [
    Call::Read(0, 1),
    Call::Sync,
    // pieces behind one another, and a read of what is not yet written
    Call::Write(0, 10),
    Call::Write(10, 5),
    Call::Write(7, 0),
    Call::Read(3, 20),
    // a gap, and a read past the end
    Call::Write(400_000, 7),
    Call::Read(0, 500_000),
    Call::Read(400_007, 1),
    Call::Read(900_000, 4),
    // what is gathered becomes full, is full, and is too long
    Call::Write(15, 262_143),
    Call::Write(262_158, 1),
    Call::Write(262_159, 1),
    Call::Write(262_160, 262_144),
    Call::Write(100, 262_145),
    Call::Read(99, 262_147),
    // pieces over one another, in their order
    Call::Write(50, 10),
    Call::Write(55, 10),
    Call::Write(50, 3),
    Call::Write(53, 1),
    Call::Read(45, 30),
    Call::Sync,
    // small reads from a block, up to its end, over it, and in front of it
    Call::Read(200_000, 1),
    Call::Read(200_001, 700),
    Call::Read(462_140, 4),
    Call::Read(462_140, 5),
    Call::Read(462_143, 262_143),
    Call::Read(199_999, 4),
    // a write behind a read of the same place
    Call::Write(200_002, 2),
    Call::Read(200_000, 8),
    Call::Write(524_300, 9),
    Call::Read(524_290, 30),
    Call::Write(524_309, 1),
    Call::Sync,
];

/// Octets of no short period, to be written.
fn noise(alloc: Global, count: usize) -> Result<Vec<u8>, NoMemory> {
    let Ok(mut octets) = Vec::from_elem(alloc, 0u8, count) else {
        return Err(NoMemory);
    };
    let mut state = 1u32;
    for octet in octets.as_mut_slice() {
        state = state.wrapping_mul(1_664_525).wrapping_add(1_013_904_223);
        *octet = (state >> 24) as u8;
    }
    Ok(octets)
}

/// So many octets of a text from a place on, as far as it has them.
fn piece_of(octets: &[u8], from: usize, count: usize) -> &[u8] {
    let from = from.min(octets.len());
    &octets[from..from + count.min(octets.len() - from)]
}

/// Whether two disks read the same from a place on into places that had the same, and have one length.
fn read_same<A: Disk, B: Disk>(
    a: &mut A,
    b: &mut B,
    place: u64,
    into_a: &mut [u8],
    into_b: &mut [u8],
) -> bool {
    let count_a = a.read_at(place, into_a);
    let count_b = b.read_at(place, into_b);
    count_a.is_ok() && count_a == count_b && *into_a == *into_b && a.len() == b.len()
}

/// Whether two disks answer a call alike, and neither fails.
fn answer_same<A: Disk, B: Disk>(
    a: &mut A,
    b: &mut B,
    call: &Call,
    octets: &[u8],
    into_a: &mut [u8],
    into_b: &mut [u8],
) -> bool {
    match call {
        Call::Write(place, count) => {
            let piece = piece_of(octets, *place as usize % 1_000, *count);
            a.write_at(*place, piece).is_ok() && b.write_at(*place, piece).is_ok()
        }
        Call::Read(place, count) => {
            let count = (*count).min(into_a.len()).min(into_b.len());
            read_same(a, b, *place, &mut into_a[..count], &mut into_b[..count])
        }
        Call::Sync => a.sync().is_ok() && b.sync().is_ok(),
    }
}

/// How many of the calls two disks answer alike, up to the first that they do not.
fn count_alike<A: Disk, B: Disk>(
    a: &mut A,
    b: &mut B,
    octets: &[u8],
    into_a: &mut [u8],
    into_b: &mut [u8],
) -> usize {
    for (number, call) in CALLS.iter().enumerate() {
        if !answer_same(a, b, call, octets, into_a, into_b) {
            return number;
        }
    }
    CALL_COUNT
}

/// The same, of octets of no short period, and of places that have them too.
fn count_with_noise<A: Disk, B: Disk>(
    alloc: Global,
    a: &mut A,
    b: &mut B,
) -> Result<usize, NoMemory> {
    let octets = noise(alloc, 300_000)?;
    let mut one = noise(alloc, 600_000)?;
    let mut other = noise(alloc, 600_000)?;
    Ok(count_alike(
        a,
        b,
        octets.as_slice(),
        one.as_mut_slice(),
        other.as_mut_slice(),
    ))
}

/// How many of the calls the file at a path answers as a disk in memory does.
fn count_in_file<R: Files<File = File> + Copy + Drop>(
    rt: &R,
    alloc: Global,
    path: &str,
    memory: &mut MemoryDisk,
) -> Result<usize, NoMemory> {
    let mut system = disk_at(rt, alloc, path)?;
    let count = count_with_noise(alloc, memory, &mut system);
    drop(system);
    count
}

#[test]
fn a_file_answers_as_the_one_in_memory(rt: HostRuntime) -> Result<(), Fail> {
    let path = path_of(&rt, "alike")?;
    let mut memory = memory_disk(rt.alloc(), &[], &[])?;
    let count = count_in_file(&rt, rt.alloc(), path.as_str(), &mut memory);
    let same = had_octets(&rt, path.as_str(), memory.octets());
    drop(memory);
    drop(path);
    let count = count?;
    let same = same?;
    assert!(rt; count == CALL_COUNT, "call {count}");
    assert!(rt; same);
    Ok(())
}
