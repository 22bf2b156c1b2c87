//! What the modules share: a text that comes in pieces, looked at without memory, and lists of large
//! values.

use cal_base::{List, NoMemory, Octets};
use std::alloc::Global;

/// What is left of a wanted text behind the pieces that came.
#[derive(Drop)]
pub struct Wanted<'t> {
    rest: &'t [u8],
    same: bool,
}

impl<'t> Wanted<'t> {
    /// A text of which nothing came yet.
    pub fn new(text: &'t [u8]) -> Wanted<'t> {
        Wanted {
            rest: text,
            same: true,
        }
    }

    /// The next piece comes.
    pub fn put(&mut self, piece: &[u8]) {
        let rest = self.rest;
        match rest.strip_prefix(piece) {
            Some(behind) => self.rest = behind,
            None => self.same = false,
        }
    }

    /// Whether the pieces were the wanted text, to its end.
    pub fn is_whole(&self) -> bool {
        self.same && self.rest.is_empty()
    }
}

/// Whether there was memory for a text, and it is this one.
pub fn is_text(made: Result<Octets, NoMemory>, text: &[u8]) -> bool {
    match made {
        Ok(octets) => octets.as_slice() == text,
        Err(NoMemory) => false,
    }
}

/// A list with one more item, if that was made.
pub fn with<T: Drop>(list: List<T>, item: Result<T, NoMemory>) -> Result<List<T>, NoMemory> {
    let mut list = list;
    list.push(item?)?;
    Ok(list)
}
