//! Bodies in XML.

use dav_body::{BodyFault, read_body};
use std::io;

/// Prints how many attributes and items the root of a body has, or its first fault.
pub fn measure(rt: &HostRuntime, body: &[u8]) -> io::Result<()> {
    match read_body(rt.alloc(), body) {
        Ok(root) => println!(rt;
            "{} attributes, {} items",
            root.attrs.len(),
            root.items.len()
        ),
        Err(BodyFault::At { place, .. }) => println!(rt; "fault at octet {place}"),
        Err(BodyFault::NoMemory) => println!(rt; "out of memory"),
    }
}
