//! The instances of an object, and ranges of time.

use cal_moment::Utc;

/// What the numbers of a row count.
#[derive(Clone, Copy, PartialEq, Eq)]
pub enum RowKind {
    /// Seconds since 1970 in UTC.
    Instant,
    /// Local seconds since 1970 of no zone.
    Floating,
    /// The same, of an instance that starts with a day.
    Date,
    /// Nothing: the component has no start.
    Undated,
}

/// An instance of a component, in 32 octets.
#[derive(Clone, Copy, PartialEq, Eq)]
pub struct Row {
    /// The moment that names the instance, in seconds since 1970 as `id_kind` says.
    pub id: i64,
    /// In seconds since 1970 as `kind` says.
    pub start: i64,
    /// In seconds since 1970 as `kind` says.
    pub end: i64,
    /// The number of its component.
    pub component: u32,
    pub id_kind: RowKind,
    pub kind: RowKind,
}

/// A range of time: from `start` on, up to `end` (RFC 4791, 9.9).
#[derive(Clone, Copy, PartialEq, Eq)]
pub struct Range {
    pub start: Utc,
    pub end: Utc,
}

/// The start and the end of an instance as moments, floating times and dates read in some zone.
#[derive(Clone, Copy, PartialEq, Eq)]
pub struct Fixed {
    /// In seconds since 1970 in UTC.
    pub start: i64,
    /// In seconds since 1970 in UTC.
    pub end: i64,
}
