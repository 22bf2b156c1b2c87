//! The values of content lines (RFC 5545, 3.2 and 3.3).
//!
//! It is given a line, or the text of a value, and for moments the names of the object's time zones.
//! It gives the value that the text says (stamps, periods, rules, lengths, offsets, numbers,
//! triggers, words, texts without escapes), or the place of the first octet at which no such value
//! goes on.
//! The reader of calendar objects and the filters build on it.
#![tactic(auto)]

mod alarms;
mod cuts;
mod escapes;
mod fault;
mod list;
mod numbers;
mod params;
mod periods;
mod rule;
mod rule_beside;
mod rule_bound;
mod rule_days;
mod rule_freq;
mod rule_lists;
mod rule_names;
mod rule_numbers;
mod rule_parts;
mod rule_reader;
mod rule_until;
mod rule_words;
mod single;
mod stamps;
mod zones;

pub use alarms::{alarm_of, is_alarm, length_in, one_of};
pub use cuts::{cut, first_piece};
pub use escapes::unescape;
pub use fault::ValueFault;
pub use numbers::{read_integer, read_repeat};
pub use params::{param_is, param_value};
pub use periods::{read_periods, read_periods_of_any_zone};
pub use rule::read_rule;
pub use single::{read_busy_type, read_duration, read_moment, read_trigger, read_utc_offset};
pub use stamps::{read_stamp, read_stamps, read_stamps_of_any_zone};
pub use zones::ZoneNames;
