//! The onsets of time zones, by their texts.

use crate::texts::{case_parts, moment_text, print_fault};
use cal_model::{Onset, ZoneTable};
use cal_object::read_zone;
use std::io;

/// How many onsets at the front are printed, and how many at the end.
const FRONT: usize = 12;

const END: usize = 2;

/// Prints an onset.
fn print_onset(rt: &HostRuntime, onset: Onset) -> io::Result<()> {
    let text = moment_text(onset.at.0);
    let text = str::from_utf8(&text).unwrap_or("");
    println!(rt; "{text}Z {}", onset.offset)
}

/// Prints the onsets of a zone, without those in the middle.
fn print_onsets(rt: &HostRuntime, onsets: &[Onset]) -> io::Result<()> {
    let last = onsets.len().saturating_sub(END);
    for (place, onset) in onsets.iter().enumerate() {
        if place < FRONT || last <= place {
            print_onset(rt, *onset)?;
        }
    }
    Ok(())
}

/// Prints a zone.
fn print_zone(rt: &HostRuntime, zone: &ZoneTable) -> io::Result<()> {
    let onsets = zone.onsets.as_slice();
    println!(rt; "{} before {} onsets", zone.before, onsets.len())?;
    print_onsets(rt, onsets)
}

/// Prints what a text gives.
fn print_case(rt: &HostRuntime, text: &[u8]) -> io::Result<()> {
    if text.len() > 1 << 20 {
        return println!(rt; "more octets than are read");
    }
    match read_zone(rt.alloc(), text) {
        Ok(zone) => print_zone(rt, &zone),
        Err(fault) => print_fault(rt, fault, "zone"),
    }
}

/// Prints for each text of a calendar with a VTIMEZONE, behind a line `#` each, the offset before the
/// first onset and how many onsets there are, and then the onsets, twelve at the front and two at the
/// end where there are more: the moment in UTC, and the offset from it on in seconds east of UTC. Or
/// why there is no such zone.
pub fn print_zones(rt: &HostRuntime, cases: &[u8]) -> io::Result<()> {
    for case in cases.split(|octet| *octet == b'#').skip(1) {
        let (_, text) = case_parts(case);
        print_case(rt, text)?;
    }
    Ok(())
}
