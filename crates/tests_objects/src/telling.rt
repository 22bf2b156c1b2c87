//! What is read, told in a word and numbers.

use cal_model::{Kind, NotResource, Object};
use cal_moment::Stamp;
use cal_object::{ReadFault, read_object, read_zone};
use std::alloc::Global;

/// The most octets of a text.
const MOST_OCTETS: usize = 1_048_576;

/// What is read.
#[derive(Clone, Copy)]
pub struct Told {
    /// `read`, or the fault.
    pub word: &'static [u8],
    /// The place of the fault, or how many components there are.
    pub number: u64,
    /// The kind of the object, where one is read or has a date outside.
    pub kind: Option<Kind>,
    /// How many zones there are.
    pub zones: usize,
    /// The day of a date outside, from 1970.
    pub day: i64,
}

fn plain(word: &'static [u8], number: u64) -> Told {
    Told {
        word,
        number,
        kind: None,
        zones: 0,
        day: 0,
    }
}

/// The object of a text.
pub fn read(alloc: Global, text: &[u8]) -> Option<Object> {
    if text.len() > MOST_OCTETS {
        return None;
    }
    read_object(alloc, text).ok()
}

/// What a text is as an object.
pub fn told_object(alloc: Global, text: &[u8]) -> Told {
    if text.len() > MOST_OCTETS {
        return plain(b"too long", 0);
    }
    match read_object(alloc, text) {
        Ok(object) => Told {
            word: b"read",
            number: object.components.len() as u64,
            kind: Some(object.kind),
            zones: object.zones.len(),
            day: 0,
        },
        Err(fault) => told_fault(fault),
    }
}

/// What a text is as a zone.
pub fn told_zone(alloc: Global, text: &[u8]) -> Told {
    if text.len() > MOST_OCTETS {
        return plain(b"too long", 0);
    }
    match read_zone(alloc, text) {
        Ok(zone) if zone.name.as_slice() == b"Z".as_slice() => plain(b"read", 0),
        Ok(_) => plain(b"another zone", 0),
        Err(fault) => told_fault(fault),
    }
}

fn told_fault(fault: ReadFault) -> Told {
    match fault {
        ReadFault::NotCalendar { place } => plain(b"no calendar", place),
        ReadFault::NotResource(why) => plain(word(why), 0),
        ReadFault::DateOutside(kind, stamp) => Told {
            word: b"outside",
            number: 0,
            kind: Some(kind),
            zones: 0,
            day: day(stamp),
        },
        ReadFault::NoMemory => plain(b"no memory", 0),
    }
}

/// The day of a stamp by its digits.
fn day(stamp: Stamp) -> i64 {
    match stamp {
        Stamp::Date(day) => day.0 as i64,
        Stamp::Floating(local) | Stamp::Zoned(local, _) => local.day as i64,
        Stamp::Utc(moment) => moment.0.div_euclid(86_400),
    }
}

fn word(why: NotResource) -> &'static [u8] {
    match why {
        NotResource::Method => b"METHOD",
        NotResource::NoComponent => b"no component",
        NotResource::MixedKinds => b"two kinds",
        NotResource::NoUid => b"no UID",
        NotResource::MixedUids => b"two UIDs",
        NotResource::TwoMasters => b"two masters",
        NotResource::SameRecurrenceId => b"one instance twice",
        NotResource::ZoneMissing => b"no zone",
        NotResource::ExRule => b"EXRULE",
    }
}
