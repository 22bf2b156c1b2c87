//! The values of dates and times.

/// A date: the days since 1970-01-01, negative before it.
#[derive(Clone, Copy, Debug, PartialEq, Eq, PartialOrd, Ord)]
pub struct Day(pub i32);

/// A date and a time of day, of no zone.
#[derive(Clone, Copy, Debug, PartialEq, Eq, PartialOrd, Ord)]
pub struct Local {
    /// The days since 1970-01-01.
    pub day: i32,
    /// The second of the day, below 86,400.
    pub second: u32,
}

/// A moment: the seconds since 1970-01-01T00:00:00Z, without leap seconds.
#[derive(Clone, Copy, Debug, PartialEq, Eq, PartialOrd, Ord)]
pub struct Utc(pub i64);

/// A length of time: days of the calendar and seconds, of one sign (RFC 5545, 3.3.6).
#[derive(Clone, Copy, Debug, PartialEq, Eq)]
pub struct Length {
    /// The days, seven for each week.
    pub days: i64,
    /// The seconds, 3,600 for each hour.
    pub seconds: i64,
}

/// A date or a time as it stands in an object.
#[derive(Clone, Copy, Debug, PartialEq, Eq)]
pub enum Stamp {
    /// A date alone.
    Date(Day),
    /// A local time that names no zone.
    Floating(Local),
    /// A local time, and the number of its zone in the object.
    Zoned(Local, u32),
    /// A moment.
    Utc(Utc),
}

/// How a period ends.
#[derive(Clone, Copy, Debug, PartialEq, Eq)]
pub enum PeriodEnd {
    /// At this date or time.
    At(Stamp),
    /// So long after its start.
    After(Length),
}

/// A stretch of time (RFC 5545, 3.3.9).
#[derive(Clone, Copy, Debug, PartialEq, Eq)]
pub struct Period {
    /// Where it starts.
    pub start: Stamp,
    /// How it ends.
    pub end: PeriodEnd,
}

/// A text that its grammar does not have.
#[derive(Clone, Copy, Debug, PartialEq, Eq)]
pub struct Bad {
    /// The first octet at which no text of the grammar continues, counted from 0; the length of the
    /// text where each octet continues one and the end does not.
    pub place: u64,
}
