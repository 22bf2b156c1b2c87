//! The time at which several calendars are free together.
//!
//! It is given the runs of several calendars, as `freebusy` gives them, and a range; it gives the first
//! moment from which so many seconds are free in all of them, or the first of the range's free times.
//! The command that looks for common free time prints them.
#![tactic(auto)]

mod calendars;
mod fits;
mod slots;
mod times;

pub use slots::earliest;
pub use times::free_times;
