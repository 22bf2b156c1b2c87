//! Octets that are written together.

use super::BLOCK;
use std::alloc::Global;
use std::io;
use std::os::unix::fs::FileExt;

/// Pieces that lie behind one another in a file, so that many small writes are one write of the system.
#[derive(Drop)]
pub(super) struct GatheredPiece {
    /// Where the first octet goes.
    place: u64,
    octets: Vec<u8>,
}

impl GatheredPiece {
    /// Nothing is gathered yet, and no memory taken.
    pub(super) fn new(alloc: Global) -> GatheredPiece {
        GatheredPiece {
            place: 0,
            octets: Vec::new(alloc),
        }
    }

    /// Adds a piece, unless it does not lie behind what is gathered, would make it longer than `BLOCK`
    /// octets, or finds no memory. Says whether it was added.
    pub(super) fn add(&mut self, place: u64, piece: &[u8]) -> bool {
        if BLOCK < piece.len() || !self.ends_at(place, BLOCK - piece.len()) {
            return false;
        }
        if self.octets.is_empty() {
            self.place = place;
        }
        self.octets.extend_from_slice(piece).is_ok()
    }

    /// Whether at most so many octets are gathered, and their end is at a place; nothing ends at every
    /// place.
    fn ends_at(&self, place: u64, most: usize) -> bool {
        let count = self.octets.len();
        count == 0 || (count <= most && self.place.checked_add(count as u64) == Some(place))
    }

    /// Writes what is gathered. After a failure it stays gathered.
    pub(super) fn write<F: FileExt>(&mut self, file: &F) -> io::Result<()> {
        if self.octets.is_empty() {
            return Ok(());
        }
        file.write_all_at(self.octets.as_slice(), self.place)?;
        self.octets.clear();
        Ok(())
    }
}
