//! What a calendar file gives: its instances in a range, or a line about all of it.
//!
//! Given: the octets of a file, those of a time zone or none, and a range. Gives: a line for each
//! instance of the file's object that overlaps the range, or one line that tells its kind, its UID and
//! how many instances it has; or why the octets are no object that the server takes. The commands
//! `expand` and `check` use it.
#![tactic(auto)]

mod answer;
mod file_zone;
mod found;
mod lines;
mod listing;
mod summing;

pub use answer::Listed;
pub use listing::list_rows;
pub use summing::summary;
