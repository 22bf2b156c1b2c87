//! The texts of cases.

use cal_base::{NoMemory, Octets};
use std::io;

/// The front of a text up to the first octet of a kind, and what stands behind that.
pub fn parts(text: &[u8], at: u8) -> (&[u8], &[u8]) {
    match text.iter().position(|octet| *octet == at) {
        Some(end) => (&text[..end], &text[end + 1..]),
        None => (text, &[]),
    }
}

/// Prints octets, and the end of a line.
pub fn print_octets<R: Print>(rt: &R, octets: &[u8]) -> io::Result<()> {
    match str::from_utf8(octets) {
        Ok(text) => println!(rt; "{text}"),
        Err(_) => println!(rt; "no text"),
    }
}

/// Puts an octet behind others, so many times.
pub fn put_many(out: &mut Octets, octet: u8, count: u64) -> Result<(), NoMemory> {
    for _ in 0..count {
        out.push(octet)?;
    }
    Ok(())
}
