//! Content lines of a text.

use ical_lines::{LineFault, split_lines};
use std::io;

/// Prints how many content lines a text has, or the place of its first bad line.
pub fn measure(rt: &HostRuntime, text: &[u8]) -> io::Result<()> {
    match split_lines(rt.alloc(), text) {
        Ok(lines) => println!(rt; "{} lines", lines.len()),
        Err(LineFault::At { place }) => println!(rt; "bad line at octet {place}"),
        Err(LineFault::NoMemory) => println!(rt; "out of memory"),
    }
}
