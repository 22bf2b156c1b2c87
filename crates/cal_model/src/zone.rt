//! Time zones (RFC 5545, 3.6.5).

use crate::rule::Rule;
use cal_base::{List, Octets, SharedList};
use cal_moment::{Local, Utc};

/// A STANDARD or DAYLIGHT part of a VTIMEZONE.
#[derive(Drop)]
pub struct ZonePart {
    /// The first onset, by the clock that shows the offset `from`.
    pub start: Local,
    /// The offset before each onset, in seconds east of UTC.
    pub from: i32,
    /// The offset from each onset on, in seconds east of UTC.
    pub to: i32,
    /// The rules of further onsets.
    pub rules: List<Rule>,
    /// Further onsets by their dates.
    pub dates: List<Local>,
}

/// A moment from which on an offset holds.
#[derive(Clone, Copy, PartialEq, Eq)]
pub struct Onset {
    pub at: Utc,
    /// In seconds east of UTC.
    pub offset: i32,
}

/// A zone as the offsets that hold in it.
#[derive(Drop)]
pub struct ZoneTable {
    /// The value of TZID.
    pub name: Octets,
    /// The offset before the first onset, in seconds east of UTC.
    pub before: i32,
    /// In rising order, with distinct moments. Tables of equal zones may share them.
    pub onsets: SharedList<Onset>,
}
