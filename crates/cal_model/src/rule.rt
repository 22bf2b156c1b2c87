//! Recurrence rules (RFC 5545, 3.3.10).

use cal_base::List;
use cal_moment::{Day, Local, Utc};

/// The period that a rule counts in.
#[derive(Clone, Copy, PartialEq, Eq)]
pub enum Freq {
    Secondly,
    Minutely,
    Hourly,
    Daily,
    Weekly,
    Monthly,
    Yearly,
}

/// The last moment that a rule may give, as it is written.
#[derive(Clone, Copy, PartialEq, Eq)]
pub enum Until {
    /// A date.
    Day(Day),
    /// A local moment.
    Local(Local),
    /// A moment in UTC.
    Utc(Utc),
}

/// A value of BYDAY.
#[derive(Clone, Copy, PartialEq, Eq)]
pub struct DayPart {
    /// Which of these weekdays of the month or year is meant: 1 is the first, -1 the last, and 0
    /// each of them.
    pub ordinal: i16,
    /// 0 is Monday and 6 is Sunday.
    pub weekday: u8,
}

/// A recurrence rule. An empty list stands for a part that is not there.
#[derive(Drop)]
pub struct Rule {
    pub freq: Freq,
    /// At least 1.
    pub interval: u32,
    /// How many moments the rule gives, the start counted. At least 1.
    pub count: Option<u32>,
    pub until: Option<Until>,
    /// The first day of a week: 0 is Monday.
    pub week_start: u8,
    /// Months, 1 to 12.
    pub by_month: List<u8>,
    /// Weeks of the year, 1 to 53 or -53 to -1.
    pub by_week: List<i16>,
    /// Days of the year, 1 to 366 or -366 to -1.
    pub by_year_day: List<i16>,
    /// Days of the month, 1 to 31 or -31 to -1.
    pub by_month_day: List<i16>,
    pub by_day: List<DayPart>,
    /// Hours, 0 to 23.
    pub by_hour: List<u8>,
    /// Minutes, 0 to 59.
    pub by_minute: List<u8>,
    /// Seconds, 0 to 59; a written 60 is read as 59.
    pub by_second: List<u8>,
    /// Places among the moments of one period, 1 to 366 or -366 to -1.
    pub by_set_pos: List<i16>,
}
