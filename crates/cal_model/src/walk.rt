//! The walk of a rule's recurrence set (RFC 5545, 3.3.10 and 3.8.5.3), with any body of `Rules`.
//!
//! Given: a rule, a start, what a body made of them once for the walk, and the clock beside which the
//! start is written. Gives: one after the other, the
//! moments that pass and exist, of these those that BYSETPOS picks, up to UNTIL and as many as COUNT
//! allows. No moment is taken from the rule twice. Zones and objects are read by it.

pub mod clock;
pub mod cursor;
mod day_times;
mod days;
mod kept;
mod period;
mod picks;
mod places;
pub mod rule_walk;
mod set_places;
pub mod starts;
mod until;
