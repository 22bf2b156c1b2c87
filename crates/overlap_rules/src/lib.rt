//! Which instances, alarms, periods and dates a range of time meets (RFC 4791, 9.9).
//!
//! It is given an instance of a component (a row), an alarm, a stored period or a date, a range, and
//! the zone in which floating times and dates are read; it says whether the range meets it, and of an
//! alarm which is the first moment from which it does. No memory is taken. The crates that match
//! filters, expand calendar data and gather busy times build on it.
#![tactic(auto)]

mod alarm;
mod moments;
mod next;
mod table;

pub use alarm::{alarm_overlaps, lone_alarm_overlaps, moment_related};
pub use moments::{date_in, fixed, stored_period};
pub use next::next_moment;
pub use table::{overlaps, period_overlaps, row_overlaps};
