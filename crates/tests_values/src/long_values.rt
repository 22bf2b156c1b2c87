//! The longest value that a stored object can have.

use crate::line::{line, names};
use cal_base::{NoMemory, Octets};
use cal_moment::{Stamp, Utc};
use ical_values::{ValueFault, ZoneNames, read_stamps, unescape};
use std::alloc::Global;
use std::test::Fail;

/// So many moments of one day, with commas between them.
fn moments(alloc: Global, count: usize) -> Result<Octets, NoMemory> {
    let mut value = Octets::new(alloc);
    for number in 0..count {
        if number > 0 {
            value.extend_from_slice(b",")?;
        }
        value.extend_from_slice(b"19970714T133000Z")?;
    }
    Ok(value)
}

/// The zones of a calendar that has none.
fn no_zones(alloc: Global) -> Result<ZoneNames, NoMemory> {
    ZoneNames::of(alloc, &names(alloc, &[])?)
}

/// Whether there are so many stamps, each of that moment.
fn are_moments(stamps: &[Stamp], count: usize) -> bool {
    for stamp in stamps {
        if *stamp != Stamp::Utc(Utc(868_887_000)) {
            return false;
        }
    }
    stamps.len() == count
}

/// Whether a value is read as so many of those moments, or has its first bad octet there.
fn is_read_so(alloc: Global, value: &[u8], wanted: Result<usize, u64>) -> Result<bool, NoMemory> {
    let rdate = line(alloc, b"RDATE", &[], value)?;
    match (read_stamps(alloc, &rdate, &no_zones(alloc)?), wanted) {
        (Ok(stamps), Ok(count)) => Ok(are_moments(stamps.as_slice(), count)),
        (Err(ValueFault::Bad { place }), Err(at)) => Ok(place == at),
        _ => Ok(false),
    }
}

#[test]
fn a_list_of_262_144_octets_is_read(rt: HostRuntime) -> Result<(), Fail> {
    let mut value = moments(rt.alloc(), 15_420)?;
    assert!(rt; value.len() == 262_139);
    assert!(rt; is_read_so(rt.alloc(), value.as_slice(), Ok(15_420))?);
    value.extend_from_slice(b",1997")?;
    assert!(rt; is_read_so(rt.alloc(), value.as_slice(), Err(262_144))?);
    Ok(())
}

/// A line feed as it is escaped, so many times.
fn escaped_lines(alloc: Global, count: usize) -> Result<Octets, NoMemory> {
    let mut text = Octets::new(alloc);
    for _ in 0..count {
        text.extend_from_slice(b"\\n")?;
    }
    Ok(text)
}

/// Whether a text is so many line feeds.
fn are_lines(text: &[u8], count: usize) -> bool {
    for octet in text {
        if *octet != b'\n' {
            return false;
        }
    }
    text.len() == count
}

#[test]
fn a_text_of_262_144_octets_loses_its_escapes(rt: HostRuntime) -> Result<(), Fail> {
    let text = escaped_lines(rt.alloc(), 131_072)?;
    let plain = unescape(rt.alloc(), text.as_slice())?;
    assert!(rt; are_lines(plain.as_slice(), 131_072));
    Ok(())
}
