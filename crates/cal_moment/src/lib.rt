//! Dates and times as iCalendar writes them.
//!
//! Given: numbers of a date, or the octets of a value.
//! Gives: days, local times, moments, lengths and offsets from such texts, the place of the first
//! octet at which no text of the grammar continues where there is no value, and the one printed
//! text of a date or a time.
//! Used by: every crate that speaks of time.
//!
//! The calendar is defined in `specs/Calendar.antt`, the texts in `specs/Texts.antt`, and the
//! place of a bad text in `specs/BadPlace.antt`.
#![tactic(auto)]

mod calendar;
mod dates;
mod lengths;
mod offsets;
mod pieces;
pub mod stamp;
mod times;

pub use calendar::{day_of, fields_of, weekday};
pub use dates::{read_date, write_date};
pub use lengths::read_length;
pub use offsets::read_offset;
pub use stamp::{Bad, Day, Length, Local, Period, PeriodEnd, Stamp, Utc};
pub use times::{read_date_time, write_local, write_utc};
