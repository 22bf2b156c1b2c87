//! A file of the system that no other server has open as its journal.
ghost use Rattle.std.specs.Prelude.{◌+◌, ◌≤◌, ◌^◌, length};

use super::FURTHEST;
use std::fs::{File, Files, OpenFile, OpenOptions};
use std::io;
use std::os::fd::AsRawFd;
use std::os::unix::fs::OpenOptionsExt;

/// An open file with a lock on it, which goes when it is dropped.
#[derive(Drop)]
pub(super) struct LockedFile {
    file: File,
    /// How many octets it has, with those that are still to be written.
    length: u64,
    ghost few: { length ≤ 2 ^ 62 },
}

impl LockedFile {
    /// The file at a path, if one is there.
    pub(super) fn open<R: Files<File = File>>(
        rt: &R,
        path: &str,
    ) -> io::Result<Option<LockedFile>> {
        match OpenOptions::new().read(true).write(true).open(rt, path) {
            Ok(file) => Ok(Some(LockedFile::of(file)?)),
            Err(error) if error.kind() == io::ErrorKind::NotFound => Ok(None),
            Err(error) => Err(error),
        }
    }

    /// A new file at a path, which its owner alone may read and write. Refused where one is there.
    pub(super) fn make<R: Files<File = File>>(rt: &R, path: &str) -> io::Result<LockedFile> {
        let file = OpenOptions::new()
            .read(true)
            .write(true)
            .create_new(true)
            .mode(0o600)
            .open(rt, path)?;
        LockedFile::of(file)
    }

    /// Takes the lock. Refused are a file that is locked elsewhere, what is no regular file, a file past
    /// 2^62 octets, and one that stands in the place of a standard stream that was closed, since what is
    /// printed would then be written into it.
    fn of(file: File) -> io::Result<LockedFile> {
        if file.as_raw_fd() <= 2 {
            return Err(io::ErrorKind::Unsupported.into());
        }
        file.try_lock()?;
        let found = file.metadata()?;
        let length = found.len();
        if !found.is_file() || FURTHEST < length {
            return Err(io::ErrorKind::Unsupported.into());
        }
        Ok(LockedFile { file, length })
    }

    pub(super) fn file(&self) -> &File {
        &self.file
    }

    /// How many octets it has.
    pub(super) fn len(&self) -> u64
        ensures { result ≤ 2 ^ 62 }
    {
        self.length
    }

    /// How many of so many octets from a place on it has.
    pub(super) fn count_from(&self, place: u64, most: usize) -> usize
        ensures { result ≤ most }
    {
        let there = self.length.saturating_sub(place);
        if there < most as u64 {
            there as usize
        } else {
            most
        }
    }

    /// Notes that a piece up to a place was written, or will be.
    pub(super) fn reach(&mut self, end: u64)
        requires { end ≤ 2 ^ 62 }
    {
        if self.length < end {
            self.length = end;
        }
    }

    /// Brings what was written to the disk.
    pub(super) fn sync(&self) -> io::Result<()> {
        self.file.sync_all()
    }

    /// Brings all to the disk that was written to the file, by whom ever, and its name in its folder. Then
    /// lets the system drop its copy of the file: where a sync of an earlier process failed, that copy may
    /// have octets that the disk has not, and nothing reports it a second time.
    pub(super) fn settle<R: Files<File = File>>(&self, rt: &R, path: &str) -> io::Result<()> {
        self.file.sync_all()?;
        let advised = libc::posix_fadvise(self.file.as_raw_fd(), 0, 0, libc::POSIX_FADV_DONTNEED);
        if advised != 0 {
            return Err(io::Error::from_raw_os_error(advised));
        }
        folder_of(rt, path)?.sync_all()
    }
}

/// The folder that a path's file is in, open.
fn folder_of<R: Files<File = File>>(rt: &R, path: &str) -> io::Result<File> {
    match path.rsplit_once("/") {
        None => File::open(rt, "."),
        Some(("", _)) => File::open(rt, "/"),
        Some((folder, _)) => File::open(rt, folder),
    }
}
