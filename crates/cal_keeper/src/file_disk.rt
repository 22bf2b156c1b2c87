//! The disk of the system.
ghost use Rattle.std.specs.Prelude.{◌≡◌, ◌+◌, ◌<◌, ◌≤◌, ◌^◌, length, None, IsTrue, IfOk, OnErr};
ghost use Rattle.cal_base.specs.World.Outside.{Rose};

mod gathered_piece;
mod locked_file;
mod read_ahead;

use crate::disk::Disk;
use cal_base::{Failed, Word};
use gathered_piece::GatheredPiece;
use locked_file::LockedFile;
use read_ahead::ReadAhead;
use std::alloc::Global;
use std::fs::{File, Files};
use std::io;
use std::marker::Model;
use std::os::unix::fs::FileExt;

/// The furthest place at which a read or a write may end.
const FURTHEST: u64 = 1 << 62;

/// How many octets are read at once, and at most gathered before they are written.
const BLOCK: usize = 262_144;

/// One file of the system, at a path. Contracts see how many of its calls failed.
///
/// It is opened at the first call; where it is not there, it has no octets, and the first write makes
/// it, for its owner alone. From its opening until it is dropped it is locked (`flock`): where another
/// process, or another disk of this one, holds the lock, each call fails and nothing is changed.
///
/// Small reads are served from a block of 262,144 octets, and pieces that lie behind one another are
/// gathered up to that many: they are written at the next sync or read, or before a piece that lies
/// elsewhere. Without memory for that, each is read and written by itself.
///
/// The first sync also brings the file's name to the disk, with its folder. Once a write or a sync of
/// the system failed, what the system shows of the file need not be what the disk has: every later call
/// of the same value fails, and the file is to be opened by a new one.
#[derive(Drop)]
pub struct FileDisk<R: Files<File = File> + Copy + Drop> {
    rt: R,
    path: Word,
    file: Option<LockedFile>,
    read_ahead: ReadAhead,
    gathered: GatheredPiece,
    /// The first sync was made.
    settled: bool,
    /// A write or a sync of the system failed.
    lost: bool,
    faults: u64,
}

impl<R: Files<File = File> + Copy + Drop> Model for FileDisk<R> {
    ghost use Rattle.std.specs.Prelude.{ℕ};

    ghost Value = { ℕ };

    ghost view = { λ d. d.faults };
}

impl<R: Files<File = File> + Copy + Drop> FileDisk<R> {
    /// The file at a path. Opens nothing yet, and takes no memory.
    pub fn new(rt: &R, alloc: Global, path: Word) -> FileDisk<R>
        ensures { result ≡ 0 }
    {
        FileDisk {
            rt: *rt,
            path,
            file: None,
            read_ahead: ReadAhead::new(alloc),
            gathered: GatheredPiece::new(alloc),
            settled: false,
            lost: false,
            faults: 0,
        }
    }

    /// Counts a failed call.
    fn fail(&mut self) -> Failed
        ensures rose { Rose self.old self.new }
        ensures never_falls { self.old ≤ self.new }
    {
        self.faults = self.faults.saturating_add(1);
        Failed
    }

    /// Notes whether a write or a sync went through.
    fn note(&mut self, end: io::Result<()>) -> io::Result<()>
        ensures { self.new ≡ self.old }
    {
        if end.is_err() {
            self.lost = true;
        }
        end
    }

    /// Opens the file, if that was not done and it is there. Fails once the file is lost.
    fn open(&mut self) -> io::Result<()>
        ensures { self.new ≡ self.old }
    {
        if self.lost {
            return Err(io::ErrorKind::Other.into());
        }
        if self.file.is_none() {
            self.file = LockedFile::open(&self.rt, self.path.as_str())?;
        }
        Ok(())
    }

    /// Makes the file, where it is not open. It fails where another has made one meanwhile.
    fn make(&mut self) -> io::Result<()>
        ensures { self.new ≡ self.old }
    {
        if self.file.is_none() {
            self.file = Some(LockedFile::make(&self.rt, self.path.as_str())?);
        }
        Ok(())
    }

    /// Writes what is gathered.
    fn write_gathered(&mut self) -> io::Result<()>
        ensures { self.new ≡ self.old }
    {
        let Some(held) = &self.file else {
            return Ok(());
        };
        let end = self.gathered.write(held.file());
        self.note(end)
    }

    /// Writes a piece by itself.
    fn write_through(&mut self, place: u64, piece: &[u8]) -> io::Result<()>
        ensures { self.new ≡ self.old }
    {
        let Some(held) = &self.file else {
            return Err(io::ErrorKind::NotFound.into());
        };
        let end = held.file().write_all_at(piece, place);
        self.note(end)
    }

    /// Gathers a piece, or writes it where it cannot be gathered.
    fn take_piece(&mut self, place: u64, piece: &[u8]) -> io::Result<()>
        ensures { self.new ≡ self.old }
    {
        if self.gathered.add(place, piece) {
            return Ok(());
        }
        self.write_gathered()?;
        if self.gathered.add(place, piece) {
            return Ok(());
        }
        self.write_through(place, piece)
    }

    fn try_len(&mut self) -> io::Result<u64>
        ensures kept { self.new ≡ self.old }
        ensures few { IfOk result (λ n. n ≤ 2 ^ 62) }
    {
        self.open()?;
        match &self.file {
            Some(held) => Ok(held.len()),
            None => Ok(0),
        }
    }

    fn try_read(&mut self, place: u64, into: &mut [u8]) -> io::Result<usize>
        ensures kept { self.new ≡ self.old }
        ensures within { IfOk result (λ n. n ≤ length into.old) }
    {
        self.open()?;
        self.write_gathered()?;
        let Some(held) = &self.file else {
            return Ok(0);
        };
        let count = held.count_from(place, into.len());
        self.read_ahead.read(held.file(), place, &mut into[..count])
    }

    fn try_write(&mut self, place: u64, piece: &[u8]) -> io::Result<()>
        requires { place + length piece.now ≤ 2 ^ 62 }
        ensures { self.new ≡ self.old }
    {
        self.open()?;
        if piece.is_empty() {
            return Ok(());
        }
        self.make()?;
        self.read_ahead.forget();
        self.take_piece(place, piece)?;
        if let Some(held) = &mut self.file {
            held.reach(place + piece.len() as u64);
        }
        Ok(())
    }

    fn try_sync(&mut self) -> io::Result<()>
        ensures { self.new ≡ self.old }
    {
        self.open()?;
        self.write_gathered()?;
        let Some(held) = &self.file else {
            return Ok(());
        };
        if self.settled {
            let end = held.sync();
            return self.note(end);
        }
        let end = held.settle(&self.rt, self.path.as_str());
        self.note(end)?;
        self.read_ahead.forget();
        self.settled = true;
        Ok(())
    }
}

/// Whether a read or a write of so many octets at a place would end past 2^62.
fn ends_past(place: u64, count: usize) -> bool
    ensures { (¬ IsTrue result) → place + count ≤ 2 ^ 62 }
{
    FURTHEST < place || FURTHEST - place < count as u64
}

impl<R: Files<File = File> + Copy + Drop> Disk for FileDisk<R> {
    ghost faults = { λ d. d };

    ghost past = { λ _. None };

    ghost possible = { λ _. tt };

    fn len(&mut self) -> Result<u64, Failed> {
        match self.try_len() {
            Ok(count) => Ok(count),
            Err(_) => Err(self.fail()),
        }
    }

    fn read_at(&mut self, place: u64, into: &mut [u8]) -> Result<usize, Failed> {
        if ends_past(place, into.len()) {
            return Err(self.fail());
        }
        match self.try_read(place, into) {
            Ok(count) => Ok(count),
            Err(_) => Err(self.fail()),
        }
    }

    fn write_at(&mut self, place: u64, piece: &[u8]) -> Result<(), Failed> {
        if ends_past(place, piece.len()) {
            return Err(self.fail());
        }
        match self.try_write(place, piece) {
            Ok(()) => Ok(()),
            Err(_) => Err(self.fail()),
        }
    }

    fn sync(&mut self) -> Result<(), Failed> {
        match self.try_sync() {
            Ok(()) => Ok(()),
            Err(_) => Err(self.fail()),
        }
    }
}
