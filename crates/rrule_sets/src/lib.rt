//! The instances of an object, window by window (RFC 5545, 3.8.5.3; RFC 4791, 4.1).
//!
//! Given: a calendar object that was read. Gives: the rows of a window of 64 days or of several, the
//! one row of an object that happens once, the rows that have no date, how many rows an object has as
//! far as a limit, and whether one of its rules recurs by seconds or minutes, so that it is not
//! expanded.
#![tactic(auto)]

mod asked;
mod count;
mod ends;
mod even;
mod fine;
mod governors;
mod instances;
mod later;
mod moved;
mod near;
mod needed;
mod once;
mod placed;
mod range;
mod tables;
mod undated;
mod window;
mod windows;

pub use count::{Counted, count_rows};
pub use fine::has_fine_rule;
pub use once::only_row;
pub use undated::undated_rows;
pub use window::window_rows;
pub use windows::windows_rows;
