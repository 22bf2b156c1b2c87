//! Content lines as calendar data shows them (RFC 4791, 9.6).
//!
//! Given: a line that was read, or the value that a row gives to a line, and how much of the line is
//! shown. Gives: the line written, folded, behind what is there: as it was read, with the value of a
//! row in place of its own, with some of its items, or made anew. The crate that shows calendar data
//! stands on it.
#![tactic(auto)]

mod items;
mod made;
mod params;
mod portion;
mod rewritten;
mod values;

pub use items::write_items;
pub use made::{write_new, write_no_length};
pub use portion::{Portion, write_portion};
pub use rewritten::write_rewritten;
