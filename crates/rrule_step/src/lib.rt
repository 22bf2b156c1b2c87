//! The moments of a rule by steps from period to period (RFC 5545, 3.3.10).
//!
//! Given: a rule, its start and a moment. Gives: the next moment that passes, with the contract of
//! `rrule_filter`. Used by: what makes the tables of zones and the recurrence sets of objects.
//!
//! A rule is made ready once for each start: its lists become sets of bits, so that a moment costs the
//! same however long they are. A month is looked at as a whole: its passing days are a set of bits, made
//! part by part. Between the months, and the days, that count INTERVAL is one division. No memory is
//! taken.
#![tactic(auto)]

mod counts;
mod day_sets;
mod days;
mod month;
mod ordinals;
mod parts;
mod periods;
mod rounds;
mod set;
mod start;
mod step;
mod times;
mod weeks;

pub use step::{PeriodPlan, PeriodStep};
