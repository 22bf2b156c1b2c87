//! The cases of scripts: what their lines say.

use crate::texts::parts;

/// What a script is run on.
#[derive(Drop)]
pub struct Script<'a> {
    /// Whether the text is to come octet by octet, with frames of a worker between.
    pub in_octets: bool,
    /// The number of the read that fails.
    pub failing_read: u64,
    /// The number of the write that fails.
    pub failing_write: u64,
    /// The words of the command, with spaces between.
    pub words: &'a str,
    /// The input, or what it is made of.
    pub text: &'a [u8],
}

/// The number of no call.
const NONE: u64 = u64::MAX;

/// The number that a word says; of no call, where it says none.
pub fn number(word: &[u8]) -> u64 {
    match str::from_utf8(word) {
        Ok(word) => word.parse::<u64>().unwrap_or(NONE),
        Err(_) => NONE,
    }
}

/// The case that a text spells, behind its title, if it is one.
pub fn read_case(text: &[u8]) -> Option<Script<'_>> {
    let (line, text) = parts(text, b'\n');
    let (form, words) = parts(line, b' ');
    let (read, words) = parts(words, b' ');
    let (write, words) = parts(words, b' ');
    let in_octets = if form == b"frames".as_slice() {
        false
    } else if form == b"octets".as_slice() {
        true
    } else {
        return None;
    };
    Some(Script {
        in_octets,
        failing_read: number(read),
        failing_write: number(write),
        words: str::from_utf8(words).unwrap_or(""),
        text,
    })
}
