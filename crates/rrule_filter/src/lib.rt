//! The moments of a rule by a walk over the days that tests the moments of each (RFC 5545, 3.3.10).
//!
//! Given: a rule, its start and a moment. Gives: the next moment that passes. Plain and slow, it
//! stays as the yardstick of the faster `rrule_step`, whose contract is the same. Used by: the tests
//! and measurements that run both.
#![tactic(auto)]

mod parts;
mod start;
mod times;
mod today;
mod walk;

pub use walk::DayFilter;
