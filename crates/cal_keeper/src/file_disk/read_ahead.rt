//! Octets of a file that are read before they are asked for.
ghost use Rattle.std.specs.Prelude.{◌≤◌, length, vec_len, IfOk};

use super::BLOCK;
use std::alloc::Global;
use std::io;
use std::os::unix::fs::FileExt;

/// A block of a file, so that many small reads that follow one another are one read of the system.
#[derive(Drop)]
pub(super) struct ReadAhead {
    /// Where the first octet of the block stands in the file.
    place: u64,
    /// `BLOCK` octets, or none before the first block was read.
    block: Vec<u8>,
    /// How many octets in front of the block were read.
    count: usize,
    ghost within: { count ≤ vec_len block },
}

impl ReadAhead {
    /// Nothing is read yet, and no memory taken.
    pub(super) fn new(alloc: Global) -> ReadAhead {
        ReadAhead {
            place: 0,
            block: Vec::new(alloc),
            count: 0,
        }
    }

    /// Forgets what was read.
    pub(super) fn forget(&mut self) {
        self.count = 0;
    }

    /// What was read of the octets from a place on.
    fn octets_from(&self, place: u64) -> &[u8] {
        if place < self.place || self.count as u64 <= place - self.place {
            return &[];
        }
        &self.block[(place - self.place) as usize..self.count]
    }

    /// Reads the block at a place.
    fn fill<F: FileExt>(&mut self, file: &F, place: u64) -> io::Result<()> {
        self.count = 0;
        self.count = read_from(file, place, self.block.as_mut_slice())?;
        self.place = place;
        Ok(())
    }

    /// Whether there is memory for a block.
    fn has_block(&mut self) -> bool {
        if self.block.len() == BLOCK {
            return true;
        }
        self.count = 0;
        self.block.resize(BLOCK, 0).is_ok()
    }

    /// Reads as many octets from a place on as fit and are there, by a block where they are fewer than
    /// one. Without memory for a block they are read by themselves.
    pub(super) fn read<F: FileExt>(
        &mut self,
        file: &F,
        place: u64,
        into: &mut [u8],
    ) -> io::Result<usize>
        ensures { IfOk result (λ n. n ≤ length into.old) }
    {
        if self.octets_from(place).len() < into.len() {
            if BLOCK <= into.len() || !self.has_block() {
                return read_from(file, place, into);
            }
            self.fill(file, place)?;
        }
        Ok(copy_front(self.octets_from(place), into))
    }
}

/// Copies as many octets as there are and fit.
fn copy_front(from: &[u8], into: &mut [u8]) -> usize
    ensures { result ≤ length into.old }
{
    let n = from.len().min(into.len());
    into[..n].copy_from_slice(&from[..n]);
    n
}

/// Reads as many octets as fit and are there. A read that a signal interrupts is made again.
fn read_from<F: FileExt>(file: &F, place: u64, into: &mut [u8]) -> io::Result<usize>
    ensures { IfOk result (λ n. n ≤ length into.old) }
{
    let mut done = 0;
    'reading: for _ in 0..u64::MAX {
        if into.len() <= done {
            return Ok(done);
        }
        match file.read_at(&mut into[done..], place.wrapping_add(done as u64)) {
            Ok(0) => return Ok(done),
            Ok(n) => done += n,
            Err(error) if error.kind() == io::ErrorKind::Interrupted => {}
            Err(error) => return Err(error),
        }
    }
    Ok(done)
}
